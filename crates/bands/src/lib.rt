// Boards from a table: which tables are taken, the plan for a frequency by one, and the boards that are built in as tables. Ours: no file of the Rust has
// it. Document 02, #113, "Boards from a table". It knows no record and no step; the calls that plan by a table lean on it.

#![tactic(auto)]

ghost use Rattle.std.specs.Prelude.{◌≡◌, ◌+◌, ◌≤◌, length, drop};
ghost use Rattle.board.specs.Numbers.{board_of};
ghost use Rattle.board.specs.declared.Board.TheVariants.{Generic, V4};
ghost use Rattle.refusals.specs.Lent.{given};
ghost use Rattle.bands.specs.Tables.{ascending, band_of, bands_of, fits_of, holds, plan_at, plan_by, plan_in, refused, table_into, table_lent, table_ok, tuned};

use board::{Board, Plan};
use refusals::Answer;

// The bytes of a band, and of the sixteen that a table has at most; where each number stands, the first first.
const BAND: usize = 27;

const MOST: usize = 432;

const LAST: usize = 8;

const SHIFT: usize = 16;

const INVERTED: usize = 24;

const PATH: usize = 25;

const NOTCH: usize = 26;

// A number of 64 bits with this one set stands for a shift downward.
const SIGN: u64 = 0x8000_0000_0000_0000;

// A band's numbers as they stand in its bytes; those that no well-formed table has are refused.
#[derive(Clone, Copy)]
pub struct Band {
    pub first: u64,
    pub last: u64,
    pub shift: u64,
    pub inverted: u8,
    pub path: u8,
    pub notch: u8,
}

// 0 and the plan, or a refusal's number, 19 or 2, and no plan: 0 Hz, not inverted, no path, no notch.
#[derive(Clone, Copy)]
pub struct Planned {
    pub refusal: u8,
    pub plan: Plan,
}

// A band by its bytes.
#[tactic(auto, unfolding(crate::specs::Tables::band_of))]
fn band_in(bytes: &[u8]) -> Band
    requires { 27 ≤ length bytes.now }
    ensures { result ≡ band_of bytes.now }
{
    Band {
        first: wire::eight(bytes, 0),
        last: wire::eight(bytes, LAST),
        shift: wire::eight(bytes, SHIFT),
        inverted: bytes[INVERTED],
        path: bytes[PATH],
        notch: bytes[NOTCH],
    }
}

fn refuse(number: u8) -> Planned
    ensures { result ≡ refused number }
{
    Planned {
        refusal: number,
        plan: Plan {
            hz: 0,
            inverted: false,
            path: None,
            notch: false,
        },
    }
}

impl Band {
    fn fits(self) -> bool
        ensures { result ≡ fits_of self }
    {
        (self.first <= self.last) & (self.inverted <= 1) & (self.path <= 3) & (self.notch <= 1)
    }

    fn holds_hz(self, hz: u64) -> bool
        ensures { result ≡ holds self hz }
    {
        (self.first <= hz) & (hz <= self.last)
    }

    fn tuned_to(self, hz: u64) -> Planned
        ensures { result ≡ tuned self hz }
    {
        Planned {
            refusal: 0,
            plan: Plan {
                hz: hz,
                inverted: self.inverted == 1,
                path: board::path_of(self.path),
                notch: self.notch == 1,
            },
        }
    }

    // The shift by its bits: those of the upper half count down from 2^64.
    #[tactic(auto, using(crate::proofs::Laws::shifted_up, crate::proofs::Laws::past_64, crate::proofs::Laws::shifted_down, crate::proofs::Laws::below_0))]
    fn plan_at(self, hz: u64) -> Planned
        ensures { result ≡ plan_at self hz }
    {
        if self.shift < SIGN {
            if 0xffff_ffff_ffff_ffff - self.shift < hz {
                return refuse(refusals::FREQUENCY);
            }
            return self.tuned_to(hz + self.shift);
        }
        let down = 0xffff_ffff_ffff_ffff - self.shift + 1;
        if hz < down {
            return refuse(refusals::FREQUENCY);
        }
        self.tuned_to(hz - down)
    }
}

// Whether the bands of a table fit, and each begins past the last of the one before.
#[tactic(auto, using(crate::proofs::Laws::ascending_end))]
fn bands_ascend(table: &[u8]) -> bool
    ensures { result ≡ ascending 0 (bands_of table.now) }
{
    let mut before = None;
    for bytes in table.chunks_exact(BAND) {
        let b = band_in(bytes);
        if !(b.fits() & before.is_none_or(|last| last < b.first)) {
            return false;
        }
        before = Some(b.last);
    }
    true
}

// Whether a table is well formed; one of no bands is.
#[tactic(auto, unfolding(crate::specs::Tables::table_ok))]
pub fn table_ok(table: &[u8]) -> bool
    ensures { result ≡ table_ok table.now }
{
    let size = table.len();
    if (size % BAND == 0) & (size <= MOST) {
        return bands_ascend(table);
    }
    false
}

// The plan by the first band that holds the frequency.
#[tactic(auto, using(crate::proofs::Laws::plan_found, crate::proofs::Laws::plan_on, crate::proofs::Laws::plan_end))]
fn plan_in(table: &[u8], hz: u64) -> Planned
    ensures { result ≡ plan_in (bands_of table.now) hz }
{
    for bytes in table.chunks_exact(BAND) {
        let b = band_in(bytes);
        if b.holds_hz(hz) {
            return b.plan_at(hz);
        }
    }
    refuse(refusals::FREQUENCY)
}

// The plan for a frequency by a table, read where it lies: 19 for bytes that are no table, then 2 for a frequency that has no plan.
#[tactic(auto, unfolding(crate::specs::Tables::plan_by))]
pub fn plan_by_table(table: &[u8], hz: u64) -> Planned
    ensures { result ≡ plan_by table.now hz }
{
    if table_ok(table) {
        return plan_in(table, hz);
    }
    refuse(refusals::TABLE)
}

#[tactic(auto, unfolding(crate::specs::Tables::table_bytes, crate::specs::Tables::built_in, crate::specs::Tables::band_bytes, wire::specs::Bytes::le_bytes))]
fn generic_table(out: &mut [u8]) -> Answer
    ensures { given result out.new ≡ table_lent Generic out.old }
{
    let bytes =
        *b"\x00\x00\x00\x00\x00\x00\x00\x00\xff\xff\xff\xff\xff\xff\xff\xff\x00\x00\x00\x00\x00\x00\x00\x00\x00\x03\x00";
    refusals::lend(0, 27, &bytes, out)
}

#[tactic(auto, unfolding(crate::specs::Tables::table_bytes, crate::specs::Tables::built_in, crate::specs::Tables::band_bytes, wire::specs::Bytes::le_bytes))]
fn v4_table(out: &mut [u8]) -> Answer
    ensures { given result out.new ≡ table_lent V4 out.old }
{
    let bytes = *b"\
        \x00\x00\x00\x00\x00\x00\x00\x00\xc0\x91\x21\x00\x00\x00\x00\x00\x00\x74\xb7\x01\x00\x00\x00\x00\x01\x00\x01\
        \xc1\x91\x21\x00\x00\x00\x00\x00\xff\x73\xb7\x01\x00\x00\x00\x00\x00\x74\xb7\x01\x00\x00\x00\x00\x01\x00\x00\
        \x00\x74\xb7\x01\x00\x00\x00\x00\x3f\xff\x10\x05\x00\x00\x00\x00\x00\x00\x00\x00\x00\x00\x00\x00\x00\x01\x00\
        \x40\xff\x10\x05\x00\x00\x00\x00\x00\xfc\xac\x06\x00\x00\x00\x00\x00\x00\x00\x00\x00\x00\x00\x00\x00\x01\x01\
        \x01\xfc\xac\x06\x00\x00\x00\x00\xff\x82\x40\x0a\x00\x00\x00\x00\x00\x00\x00\x00\x00\x00\x00\x00\x00\x01\x00\
        \x00\x83\x40\x0a\x00\x00\x00\x00\x80\xa0\x6c\x0e\x00\x00\x00\x00\x00\x00\x00\x00\x00\x00\x00\x00\x00\x01\x01\
        \x81\xa0\x6c\x0e\x00\x00\x00\x00\x7f\xb2\xe6\x0e\x00\x00\x00\x00\x00\x00\x00\x00\x00\x00\x00\x00\x00\x01\x00\
        \x80\xb2\xe6\x0e\x00\x00\x00\x00\xff\xff\xff\xff\xff\xff\xff\xff\x00\x00\x00\x00\x00\x00\x00\x00\x00\x02\x00";
    refusals::lend(0, 216, &bytes, out)
}

// The table of a board that is built in, at the start of a lent slice; the value is its length. A number that names no board is refused 1, one past a byte too.
#[tactic(auto, unfolding(crate::specs::Tables::table_into))]
pub fn board_table(board: u64, out: &mut [u8]) -> Answer
    ensures { given result out.new ≡ table_into (board_of board) out.old }
{
    match board::board_of(board) {
        Some(Board::Generic) => generic_table(out),
        Some(Board::V4) => v4_table(out),
        None => Answer::Refused(refusals::SETUP),
    }
}
