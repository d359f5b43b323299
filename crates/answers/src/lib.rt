// Answers of fixed size as bytes in a slice that the host lends: what the C boundary hands out of the leaves. Ours: the Rust answers arrays.
// Document 01, "Modules, leaves first": "callable from a C or Rust host by numbers and byte slices"; "Refusal numbers", 8: "lent slice too short".

#![tactic(auto)]

ghost use Rattle.std.specs.Prelude.{[], ◌∷◌, ◌≡◌, ◌+◌, ◌*◌, ◌<◌, ◌≤◌, length, take, drop};
ghost use Rattle.std.proofs.lemmas.List.Edits.{sets};
ghost use Rattle.answers.specs.Lent.{if_into, pack_into, plan_bytes, plan_by_into, plan_into, resample_into, table_into, unpack_into, word_bytes, words_in};
ghost use Rattle.answers.specs.Sheets.{kind_named, laid_of, pll_into, worksheet_into};
ghost use Rattle.refusals.specs.Lent.{given, lent_to};
ghost use Rattle.board.specs.Numbers.{board_of};
ghost use Rattle.wire.specs.Bytes.{le_value};

use board::Plan;
use pll::Kind;
use r82xx::Tuner;
use refusals::Answer;
use worksheet::Sheet;

// All of v, four bytes each, from the start of the slice.
fn put_words(v: &[i32], out: &mut [u8])
    requires { 4 * length v.now ≤ length out.old }
    ensures { out.new ≡ sets out.old 0 (word_bytes v.now) }
{
    for i in 0..v.len() {
        wire::put(out, 4 * i, wire::to_bits(v[i]) as u64, 4);
    }
}

// `refusals::lend` for signed numbers, whose value is 0.
fn lend_words(refusal: u8, v: &[i32], out: &mut [u8]) -> Answer
    ensures { given result out.new ≡ lent_to refusal 0 (word_bytes v.now) out.old }
{
    if refusal != 0 {
        return Answer::Refused(refusal);
    }
    if out.len() / 4 < v.len() {
        return Answer::Refused(refusals::ROOM);
    }
    put_words(v, out);
    Answer::Done(0)
}

pub fn if_freq_regs(hz: u32, xtal: u32, out: &mut [u8]) -> Answer
    ensures { given result out.new ≡ if_into hz xtal out.old }
{
    let regs = registers::if_freq_regs(hz, xtal);
    let bytes = regs.bytes;
    refusals::lend(regs.refusal as u8, 0, &bytes, out)
}

pub fn resample_regs(rate: u32, xtal: u32, out: &mut [u8]) -> Answer
    ensures { given result out.new ≡ resample_into rate xtal out.old }
{
    let regs = registers::resample_regs(rate, xtal);
    let bytes = regs.bytes;
    refusals::lend(regs.refusal as u8, 0, &bytes, out)
}

// A plan as it is lent: the tuner's frequency as value, and three bytes.
fn lend_plan(refusal: u8, plan: Plan, out: &mut [u8]) -> Answer
    ensures { given result out.new ≡ lent_to refusal plan.hz (plan_bytes plan) out.old }
{
    let path = plan.path;
    let bytes = [
        plan.inverted as u8,
        board::route_number(path),
        plan.notch as u8,
    ];
    refusals::lend(refusal, plan.hz, &bytes, out)
}

// A number that names no board is refused 1, one past a byte too.
pub fn plan_tuning(board: u64, hz: u64, out: &mut [u8]) -> Answer
    ensures { given result out.new ≡ plan_into (board_of board) hz out.old }
{
    let Some(b) = board::board_of(board) else {
        return Answer::Refused(refusals::SETUP);
    };
    lend_plan(0, board::plan_tuning(b, hz), out)
}

// The same by a table: 19, then 2, then 8.
pub fn plan_by_table(table: &[u8], hz: u64, out: &mut [u8]) -> Answer
    ensures { given result out.new ≡ plan_by_into table.now hz out.old }
{
    let planned = bands::plan_by_table(table, hz);
    lend_plan(planned.refusal, planned.plan, out)
}

fn word(s: &[u8], at: usize) -> u32
    requires { at + 4 ≤ length s.now }
    ensures { (result ≡ le_value (take 4 (drop at s.now))) × (result < 4294967296) }
{
    wire::four(s, at)
}

// Sixteen signed numbers of their bytes.
fn coefficients(s: &[u8]) -> [i32; 16]
    requires { length s.now ≡ 64 }
    ensures { result ≡ words_in 16 s.now }
{
    let mut v = [0i32; 16];
    for i in 0..16 {
        v[i] = wire::to_signed(word(s, 4 * i));
    }
    v
}

pub fn pack_fir(values: &[u8], out: &mut [u8]) -> Answer
    ensures { given result out.new ≡ pack_into values.now out.old }
{
    if values.len() != 64 {
        return Answer::Refused(refusals::COEFFICIENT);
    }
    let answer = fir::pack_fir(coefficients(values));
    let bytes = answer.bytes;
    refusals::lend(answer.refusal, 0, &bytes, out)
}

pub fn unpack_fir(bytes: &[u8], out: &mut [u8]) -> Answer
    ensures { given result out.new ≡ unpack_into bytes.now out.old }
{
    if bytes.len() != 20 {
        return Answer::Refused(refusals::COEFFICIENT);
    }
    let mut b = [0u8; 20];
    wire::copy(&mut b, 0, bytes);
    let v = fir::unpack_fir(b);
    lend_words(0, &v, out)
}

// The Rust's `get_gain_table`, 29 numbers of 32 bits. The record is judged first, as by every call.
pub fn gain_table(tuner: Tuner, out: &mut [u8]) -> Answer
    ensures { given result out.new ≡ table_into tuner out.old }
{
    let table = tuner.get_gain_table();
    let answer = table.answer;
    let steps = table.steps;
    lend_words(refusals::number_of(answer), &steps, out)
}

// Any number but 0 stands for the other kind here, where a TryFrom would refuse it; `laid_out` refuses it by its number.
fn named(kind: u64) -> Kind
    ensures { result ≡ kind_named kind }
{
    if kind == 0 { Kind::R820T } else { Kind::R828D }
}

// A sheet as it is lent: the rest as value, and five bytes; or the number of its refusal.
#[derive(Clone, Copy)]
pub struct Laid {
    pub refusal: u8,
    pub value: u64,
    pub bytes: [u8; 5],
}

fn refused(number: u8) -> Laid
    ensures { result ≡ record { refusal = number; value = 0; bytes = 0 ∷ 0 ∷ 0 ∷ 0 ∷ 0 ∷ [] } }
{
    Laid {
        refusal: number,
        value: 0,
        bytes: [0; 5],
    }
}

fn laid_out(kind: u64, reference: u32, sheet: Option<Sheet>) -> Laid
    ensures { result ≡ laid_of kind reference sheet }
{
    if 1 < kind {
        return refused(refusals::SETUP);
    }
    if reference == 0 {
        return refused(refusals::CORRECTION);
    }
    let Some(s) = sheet else {
        return refused(refusals::FREQUENCY);
    };
    let sum = s.sum;
    Laid {
        refusal: 0,
        value: s.rest,
        bytes: [
            (s.m % 256) as u8,
            s.n,
            s.setting,
            (sum % 256) as u8,
            (sum / 256) as u8,
        ],
    }
}

// The plan of the PLL, by the engine that tunings go by.
pub fn plan_pll(kind: u64, lo: u64, reference: u32, out: &mut [u8]) -> Answer
    ensures { given result out.new ≡ pll_into kind lo reference out.old }
{
    let plan = pll::plan_pll(named(kind), lo, reference);
    let laid = laid_out(kind, reference, worksheet::filled_by(plan));
    let bytes = laid.bytes;
    refusals::lend(laid.refusal, laid.value, &bytes, out)
}

// The same by the technicians' worksheet.
pub fn plan_pll_by_worksheet(kind: u64, lo: u64, reference: u32, out: &mut [u8]) -> Answer
    ensures { given result out.new ≡ worksheet_into kind lo reference out.old }
{
    let sheet = worksheet::fill(named(kind), lo, reference);
    let laid = laid_out(kind, reference, sheet);
    let bytes = laid.bytes;
    refusals::lend(laid.refusal, laid.value, &bytes, out)
}
