// A tuning's steps, from `set_mux_raw`, `set_pll_raw`, `read_status_raw` and `wait_pll_lock_raw` of src/tuners/r82xx.rs: which registers are
// written, the status, the divider's repair and the tries for a lock, as parts that a larger call can be made of.
// Document 01, "PLL" and "Transcript and script".

#![tactic(auto)]

ghost use Rattle.std.specs.Prelude.{◌≡◌, cond, [], ◌∷◌, ◌++◌, ◌+◌, ◌-◌, ◌*◌, ◌≤◌, ◌<◌, eqb, length, get_or};
ghost use Rattle.chip.specs.declared.Chip.{Chip};
ghost use Rattle.chip.specs.Entries.{pointer, read_entry, wait};
ghost use Rattle.chip.specs.Chips.{chip_of};
ghost use Rattle.chip.specs.InCode.{closing, in_room, on_log, on_room};
ghost use Rattle.chip.specs.Steps.{closing_owed, masked, run, updates};
ghost use Rattle.chip.specs.Steps.Step.{Plain};
ghost use Rattle.tuning.specs.Mux.{later_of, mux_updates, pll_updates, range_of};
ghost use Rattle.tuning.specs.Tries.{after_try, lock_by, locked, fine_of, power_of, repair_updates, reply_bytes, status_steps, tries_from, try_read};
ghost use Rattle.tuning.specs.InCode.{fix_updates};
ghost use Rattle.tuning.specs.Program.{inner_steps, divider_number, tune_steps, tune_answer};

use chip::{Flow, LockTries, Log, Progress, Update, masked};
use pll::{Kind, Plan};
use refusals::Answer;
use transcript::Entry;

mod ranges;

use ranges::FREQ_RANGES;

// The Rust's `FreqRange`: from which hz the row holds, open_d, rf_mux_ploy and tf_c. Its xtal_cap_sel is 0 in every row, which is 0x0b.
#[derive(Clone, Copy)]
pub struct FreqRange {
    pub hz: u64,
    pub opendrain: u8,
    pub mux: u8,
    pub filter: u8,
}

// What a tuning is given.
#[derive(Clone, Copy)]
pub struct Tuning {
    pub kind: Kind,
    pub notch: bool,
    pub plan: Option<Plan>,
    pub hz: u64,
}

// Returns a tuning's answer where no step fails.
pub fn whole_answer(plan: Option<Plan>, hz: u64) -> Answer
    ensures { result ≡ tune_answer plan hz }
{
    match plan {
        None => Answer::Refused(refusals::FREQUENCY),
        Some(_) => Answer::Done(hz),
    }
}

// The record's lock after a tuning. It is not whether a try read the lock bit: a waiting that was cut leaves it as it was.
pub fn lock_after(lock: LockTries, old: bool) -> bool
    ensures { result ≡ lock_by lock old }
{
    if lock.locked {
        return true;
    }
    if lock.tries == 10 {
        return false;
    }
    old
}

fn later(hz: u64, best: FreqRange, r: FreqRange) -> FreqRange
    ensures { result ≡ later_of hz best r }
{
    if r.hz <= hz {
        return r;
    }
    best
}

// The last row whose frequency is at most hz.
fn freq_range(hz: u64) -> FreqRange
    ensures { result ≡ range_of hz }
{
    let table = FREQ_RANGES;
    let mut best = table[0];
    for r in &table {
        best = later(hz, best, *r);
    }
    best
}

// `set_mux_raw`'s eleven writes. The notch suppresses open_d.
fn mux_updates(r: FreqRange, notch: bool) -> [Update; 11]
    ensures { result ≡ mux_updates notch r }
{
    let opendrain = if notch { 0x00 } else { r.opendrain };
    [
        masked(0x17, 0xa0, 0x30),
        masked(0x17, opendrain, 0x08),
        masked(0x1a, r.mux, 0xc3),
        masked(0x1b, r.filter, 0xff),
        masked(0x10, 0x0b, 0x0b),
        masked(0x08, 0x00, 0x3f),
        masked(0x09, 0x00, 0x3f),
        masked(0x1d, 0x18, 0x38),
        masked(0x1c, 0x24, 0x04),
        masked(0x1e, 14, 0x1f),
        masked(0x1a, 0x20, 0x30),
    ]
}

// The five of `set_pll_raw`. The Rust's `pw_sdm`: without a fraction the sum is off.
fn pll_updates(p: Plan) -> [Update; 5]
    requires { p.number ≤ 5 }
    ensures { result ≡ pll_updates p }
{
    let whole = if p.fraction == 0 { 0x08 } else { 0x00 };
    let high = (p.sum / 256) as u8;
    let low = (p.sum % 256) as u8;
    [
        masked(0x10, p.number * 32, 0xe0),
        masked(0x14, p.setting, 0xff),
        masked(0x16, high, 0xff),
        masked(0x15, low, 0xff),
        masked(0x12, whole, 0x08),
    ]
}

// n replies from `at`, as an entry's data.
fn reply_bytes(replies: &[u8], at: usize, n: usize) -> [u8; 8]
    requires { (n ≤ 8) × (at + n ≤ length replies.now) }
    ensures { result ≡ reply_bytes replies.now at n }
{
    let mut bytes = [0u8; 8];
    wire::copy(&mut bytes, 0, &replies[at..at + n]);
    bytes
}

// The entries that a tuning makes beside the registers' writes, as they are when their steps are done: a wait, "the one-byte write of 0x00", and a read.
fn wait(ms: u16) -> Entry
    ensures { result ≡ wait ms }
{
    Entry {
        kind: transcript::WAIT,
        outcome: 0,
        target: 0,
        n: 0,
        address: ms,
        bytes: [0u8; 8],
    }
}

fn pointer(address: u8) -> Entry
    ensures { result ≡ pointer address }
{
    Entry {
        kind: transcript::I2C_WRITE,
        outcome: 0,
        target: address,
        n: 1,
        address: 0,
        bytes: [0u8; 8],
    }
}

fn read_entry(address: u8, n: u8, bytes: [u8; 8]) -> Entry
    ensures { result ≡ read_entry address n bytes }
{
    Entry {
        kind: transcript::I2C_READ,
        outcome: 0,
        target: address,
        n: n,
        address: 0,
        bytes: bytes,
    }
}

// The status' entries. Call after call on the log, and no loop over an array of entries: so the compiler folds each entry's
// constants into the code and copies no chip. The same below.
fn status_entries(l: Log, address: u8, bytes: [u8; 8], outcomes: &[u8], room: &mut [u8]) -> Log
    requires { (l.count + 3 + closing_owed l.opened ≤ length outcomes.now) × (16 * (l.count + 3 + closing_owed l.opened) ≤ length room.old) }
    ensures room_after { (chip : Chip) → on_log chip result room.new
        ≡ closing in_room outcomes.now (run in_room outcomes.now (Plain (wait 2) ∷ Plain (pointer address) ∷ Plain (read_entry address 5 bytes) ∷ [])
        (on_log chip l room.old)) }
    ensures bounds { result.count + closing_owed result.opened ≤ l.count + 3 + closing_owed l.opened }
{
    let waited = chip::log_plain(l, wait(2), outcomes, room);
    let Progress::Going = waited.progress else {
        return chip::log_close(waited, outcomes, room);
    };
    let pointed = chip::log_plain(waited, pointer(address), outcomes, room);
    let Progress::Going = pointed.progress else {
        return chip::log_close(pointed, outcomes, room);
    };
    let read = chip::log_plain(pointed, read_entry(address, 5, bytes), outcomes, room);
    chip::log_end(read, outcomes, room)
}

// "wait 2, status": the VCO settles, then five status bytes are read.
fn read_status_raw(l: Log, address: u8, outcomes: &[u8], replies: &[u8], room: &mut [u8]) -> Log
    requires { (35 ≤ length replies.now) × (l.count + 3 + closing_owed l.opened ≤ length outcomes.now) × (16 * (l.count + 3 + closing_owed l.opened) ≤ length room.old) }
    ensures room_after { (chip : Chip) → on_log chip result room.new
        ≡ closing in_room outcomes.now (run in_room outcomes.now (status_steps address replies.now) (on_log chip l room.old)) }
    ensures bounds { result.count + closing_owed result.opened ≤ l.count + 3 + closing_owed l.opened }
{
    let bytes = reply_bytes(replies, 0, 5);
    status_entries(l, address, bytes, outcomes, room)
}

// The Rust's `vco_power_ref`.
fn vco_power_ref(kind: Kind) -> u8
    ensures { result ≡ power_of kind }
{
    match kind {
        Kind::R820T => 2,
        Kind::R828D => 1,
    }
}

fn vco_fine_tune(byte: u8) -> u8
    ensures { result ≡ fine_of byte }
{
    (status::bit_reverse(byte) & 0x30) >> 4
}

// Pass 2: the divider is repaired by one where the VCO's band is off.
#[tactic(auto, using(crate::proofs::Turns::repair_down, crate::proofs::Turns::repair_up, crate::proofs::Turns::repair_none))]
fn repair(kind: Kind, number: u8, byte: u8) -> Option<u8>
    requires { number ≤ 5 }
    ensures { fix_updates result ≡ repair_updates kind number byte }
{
    let fine = vco_fine_tune(byte);
    let power = vco_power_ref(kind);
    if power < fine {
        return Some(number.saturating_sub(1) * 32);
    }
    if fine < power {
        return Some((number + 1) * 32);
    }
    None
}

// The divider's bits alone.
fn write_repair(
    l: Log,
    address: u8,
    fix: Option<u8>,
    shadow: &mut [u8; 27],
    doubtful: &mut [bool; 27],
    outcomes: &[u8],
    room: &mut [u8],
) -> Log
    requires { (l.count + 1 + closing_owed l.opened ≤ length outcomes.now) × (16 * (l.count + 1 + closing_owed l.opened) ≤ length room.old) }
    ensures room_after { on_log (chip_of address shadow.new doubtful.new) result room.new
        ≡ closing in_room outcomes.now (run in_room outcomes.now (updates (fix_updates fix))
        (on_log (chip_of address shadow.old doubtful.old) l room.old)) }
    ensures bounds { result.count + closing_owed result.opened ≤ l.count + 1 + closing_owed l.opened }
{
    let Some(bits) = fix else {
        return chip::log_end(l, outcomes, room);
    };
    let u = masked(0x10, bits, 0xe0);
    chip::write_one(l, address, u, shadow, doubtful, outcomes, room)
}

// The entries of a try's read.
fn try_entries(l: Log, address: u8, bytes: [u8; 8], outcomes: &[u8], room: &mut [u8]) -> Log
    requires { (l.count + 2 + closing_owed l.opened ≤ length outcomes.now) × (16 * (l.count + 2 + closing_owed l.opened) ≤ length room.old) }
    ensures room_after { (chip : Chip) → on_log chip result room.new
        ≡ closing in_room outcomes.now
        (run in_room outcomes.now (Plain (pointer address) ∷ Plain (read_entry address 3 bytes) ∷ []) (on_log chip l room.old)) }
    ensures bounds { result.count + closing_owed result.opened ≤ l.count + 2 + closing_owed l.opened }
{
    let pointed = chip::log_plain(l, pointer(address), outcomes, room);
    let Progress::Going = pointed.progress else {
        return chip::log_close(pointed, outcomes, room);
    };
    let read = chip::log_plain(pointed, read_entry(address, 3, bytes), outcomes, room);
    chip::log_end(read, outcomes, room)
}

// The read of try i.
fn read_try(l: Log, address: u8, i: usize, outcomes: &[u8], replies: &[u8], room: &mut [u8]) -> Log
    requires { (i < 10) × (35 ≤ length replies.now) × (l.count + 2 + closing_owed l.opened ≤ length outcomes.now) × (16 * (l.count + 2 + closing_owed l.opened) ≤ length room.old) }
    ensures room_after { (chip : Chip) → on_log chip result room.new
        ≡ closing in_room outcomes.now (run in_room outcomes.now (try_read address replies.now i) (on_log chip l room.old)) }
    ensures bounds { result.count + closing_owed result.opened ≤ l.count + 2 + closing_owed l.opened }
{
    let bytes = reply_bytes(replies, 5 + 3 * i, 3);
    try_entries(l, address, bytes, outcomes, room)
}

// The wait of 1 after a try.
fn wait_one(l: Log, outcomes: &[u8], room: &mut [u8]) -> Log
    requires { (l.count + 1 + closing_owed l.opened ≤ length outcomes.now) × (16 * (l.count + 1 + closing_owed l.opened) ≤ length room.old) }
    ensures room_after { (chip : Chip) → on_log chip result room.new
        ≡ closing in_room outcomes.now (run in_room outcomes.now (Plain (wait 1) ∷ []) (on_log chip l room.old)) }
    ensures bounds { result.count + closing_owed result.opened ≤ l.count + 1 + closing_owed l.opened }
{
    let waited = chip::log_plain(l, wait(1), outcomes, room);
    chip::log_end(waited, outcomes, room)
}

// What follows a try without the lock: 0x12 once, after the first, and a wait of 1.
fn after_try(
    l: Log,
    address: u8,
    i: usize,
    shadow: &mut [u8; 27],
    doubtful: &mut [bool; 27],
    outcomes: &[u8],
    room: &mut [u8],
) -> Log
    requires { (l.count + (1 - i) + 1 + closing_owed l.opened ≤ length outcomes.now) × (16 * (l.count + (1 - i) + 1 + closing_owed l.opened) ≤ length room.old) }
    ensures room_after { on_log (chip_of address shadow.new doubtful.new) result room.new
        ≡ closing in_room outcomes.now (run in_room outcomes.now (after_try i)
        (on_log (chip_of address shadow.old doubtful.old) l room.old)) }
    ensures bounds { result.count + closing_owed result.opened ≤ l.count + (1 - i) + 1 + closing_owed l.opened }
{
    if i == 0 {
        let u = masked(0x12, 0x06, 0xff);
        let written = chip::write_one(l, address, u, shadow, doubtful, outcomes, room);
        return wait_one(written, outcomes, room);
    }
    wait_one(l, outcomes, room)
}

// After a lock 0x1a is written.
fn after_lock(
    l: Log,
    address: u8,
    shadow: &mut [u8; 27],
    doubtful: &mut [bool; 27],
    outcomes: &[u8],
    room: &mut [u8],
) -> Log
    requires { (l.count + 1 + closing_owed l.opened ≤ length outcomes.now) × (16 * (l.count + 1 + closing_owed l.opened) ≤ length room.old) }
    ensures room_after { on_log (chip_of address shadow.new doubtful.new) result room.new
        ≡ closing in_room outcomes.now (run in_room outcomes.now (updates locked)
        (on_log (chip_of address shadow.old doubtful.old) l room.old)) }
    ensures bounds { result.count + closing_owed result.opened ≤ l.count + 1 + closing_owed l.opened }
{
    let u = masked(0x1a, 0x08, 0x08);
    chip::write_one(l, address, u, shadow, doubtful, outcomes, room)
}

// `wait_pll_lock_raw(10)` and the write of 0x1a after a lock. #101: "The waiting step shall answer locked or not with the number of tries": both stand in
// the log that it hands on (`lock`), by every try's own entry.
fn wait_pll_lock_raw(
    l: Log,
    address: u8,
    shadow: &mut [u8; 27],
    doubtful: &mut [bool; 27],
    outcomes: &[u8],
    replies: &[u8],
    room: &mut [u8],
) -> Log
    requires { (35 ≤ length replies.now) × (l.count + 31 + closing_owed l.opened ≤ length outcomes.now) × (16 * (l.count + 31 + closing_owed l.opened) ≤ length room.old) }
    ensures room_after { on_log (chip_of address shadow.new doubtful.new) result room.new
        ≡ closing in_room outcomes.now (run in_room outcomes.now (tries_from address replies.now 10 0)
        (on_log (chip_of address shadow.old doubtful.old) l room.old)) }
    ensures bounds { result.count + closing_owed result.opened ≤ l.count + 31 + closing_owed l.opened }
{
    // Looked at before the loop, so that the compiler knows it in each turn.
    let Progress::Going = l.progress else {
        return chip::log_close(l, outcomes, room);
    };
    let mut l = l;
    for i in 0..10 {
        // Tested after the try, but worked out before it, where the try's own reply has just been read.
        let locked = status::locks(replies[7 + 3 * i]);
        l = read_try(l, address, i, outcomes, replies, room);
        let Progress::Going = l.progress else {
            return chip::log_close(l, outcomes, room);
        };
        if locked {
            return after_lock(l, address, shadow, doubtful, outcomes, room);
        }
        l = after_try(l, address, i, shadow, doubtful, outcomes, room);
    }
    chip::log_end(l, outcomes, room)
}

// What follows the sixteen registers: status, repair, tries. The byte that the repair goes by is looked at before the status' entries are made.
fn set_pll_raw(
    l: Log,
    address: u8,
    fix: Option<u8>,
    shadow: &mut [u8; 27],
    doubtful: &mut [bool; 27],
    outcomes: &[u8],
    replies: &[u8],
    room: &mut [u8],
) -> Log
    requires { (35 ≤ length replies.now) × (l.count + 35 + closing_owed l.opened ≤ length outcomes.now) × (16 * (l.count + 35 + closing_owed l.opened) ≤ length room.old) }
    ensures room_after { on_log (chip_of address shadow.new doubtful.new) result room.new
        ≡ closing in_room outcomes.now (run in_room outcomes.now (status_steps address replies.now ++ (updates (fix_updates fix) ++ tries_from address replies.now 10 0))
        (on_log (chip_of address shadow.old doubtful.old) l room.old)) }
    ensures bounds { result.count + closing_owed result.opened ≤ l.count + 35 + closing_owed l.opened }
{
    let probed = read_status_raw(l, address, outcomes, replies, room);
    let repaired = write_repair(probed, address, fix, shadow, doubtful, outcomes, room);
    wait_pll_lock_raw(repaired, address, shadow, doubtful, outcomes, replies, room)
}

// The steps after the repeater's opening. A refused plan leaves the mux's writes.
fn tune_inner(
    l: Log,
    address: u8,
    t: Tuning,
    shadow: &mut [u8; 27],
    doubtful: &mut [bool; 27],
    outcomes: &[u8],
    replies: &[u8],
    room: &mut [u8],
) -> Log
    requires { (divider_number t.plan ≤ 5) × (35 ≤ length replies.now) × (l.count + 51 + closing_owed l.opened ≤ length outcomes.now) × (16 * (l.count + 51 + closing_owed l.opened) ≤ length room.old) }
    ensures room_after { on_log (chip_of address shadow.new doubtful.new) result room.new
        ≡ closing in_room outcomes.now (run in_room outcomes.now (inner_steps address t.kind t.notch t.plan t.hz replies.now)
        (on_log (chip_of address shadow.old doubtful.old) l room.old)) }
    ensures bounds { result.count + closing_owed result.opened ≤ l.count + 51 + closing_owed l.opened }
{
    let mux = mux_updates(freq_range(t.hz), t.notch);
    let mapped = chip::write_list(l, address, &mux, shadow, doubtful, outcomes, room);
    let plan = t.plan;
    let Some(p) = plan else {
        return mapped;
    };
    let pll = pll_updates(p);
    let written = chip::write_list(mapped, address, &pll, shadow, doubtful, outcomes, room);
    let kind = t.kind;
    let fix = repair(kind, p.number, replies[4]);
    set_pll_raw(
        written, address, fix, shadow, doubtful, outcomes, replies, room,
    )
}

// A whole tuning: the repeater is opened once, and closed at the end. The chip's lists are changed where they lie, and copied where it begins and ends alone.
pub fn tune(f: Flow, t: Tuning, outcomes: &[u8], replies: &[u8], room: &mut [u8]) -> Flow
    requires { (divider_number t.plan ≤ 5) × (35 ≤ length replies.now)
        × (f.log.count + 53 ≤ length outcomes.now) × (16 * (f.log.count + 53) ≤ length room.old) }
    ensures room_after { on_room result room.new
        ≡ run in_room outcomes.now (tune_steps f.chip.address t.kind t.notch t.plan t.hz replies.now) (on_room f room.old) }
    ensures bounds { result.log.count + closing_owed result.log.opened ≤ f.log.count + 53 }
{
    chip::bracket(
        f,
        |l, address, shadow, doubtful, room| {
            tune_inner(l, address, t, shadow, doubtful, outcomes, replies, room)
        },
        outcomes,
        room,
    )
}
