// The chip's record, the five steps that a call is made of, and how a step goes: `with_repeater`, `write_reg_mask_raw`,
// `read_status_raw`'s transfers of src/tuners/r82xx.rs and `i2c_write_tuner` of src/device.rs, over a script of outcomes and
// a room for the entries. Document 01, "Transcript and script", "Refusal numbers", "The record", "Forms that change".
// A step is taken only while none has failed; a closing only while the repeater is open. `run` of specs/Steps.antt says it once.

#![tactic(auto)]

ghost use Rattle.std.specs.Prelude.{◌≡◌, ℕ, ◌+◌, ◌-◌, ◌*◌, ◌<◌, ◌≤◌, true, not, List, [], ◌∷◌, map, length, take, drop, replicate, slice_index, slice_range};
ghost use Rattle.std.proofs.lemmas.List.Edits.{sets};
ghost use Rattle.chip.specs.declared.Chip.{Chip};
ghost use Rattle.chip.specs.Chips.{chip_of, mask_of};
ghost use Rattle.chip.specs.Entries.{flag_of, with_outcome};
ghost use Rattle.chip.specs.Steps.{closing_owed, progress_of, step, run, line, masked, updates, all_in, in_range, while_open, chunk_bytes, chunk_step, chunk_table, within, tuner_write};
ghost use Rattle.chip.specs.InCode.{with_try, closing, in_room, on_log, on_room, logged, sealed};
ghost use Rattle.chip.specs.Calls.{too_short, answer_of, refusal_with};
ghost use Rattle.chip.specs.Brackets.{AddsAtMost, MayRun, Runs};
ghost use Rattle.chip.specs.Steps.{Step};
ghost use Rattle.chip.specs.Steps.Step.{Open, Close, Send, Mask, Plain};

use refusals::Answer;
use transcript::Entry;

pub const REG_SHADOW_START: u8 = 0x05;

// What the record says of the chip's registers 0x05 to 0x1f: the shadow, which is the byte last attempted (#106), and whether that is in doubt.
// Two lists side by side: so they stand in the record's bytes on the C interface, and demand 3's theorems name each.
#[derive(Clone, Copy)]
pub struct Chip {
    pub address: u8,
    pub shadow: [u8; 27],
    pub doubtful: [bool; 27],
}

// A register's partial update; under the mask 0xff it is the whole register's.
#[derive(Clone, Copy)]
pub struct Update {
    pub register: u8,
    pub value: u8,
    pub mask: u8,
}

// How far a call has come: no step has failed yet, or it ends with refusal 11, with the index of the failing step's entry.
// No `Option` of the index: document 01 has each step's answer enum taken apart by `let .. else` (docs/DECISIONS.md, 13), and a call goes on to its closing.
#[derive(Clone, Copy)]
pub enum Progress {
    Going,
    Refused11(usize),
}

// What the done three-byte reads of the status (the tries for a lock) have said: how many there were, and whether one read the lock bit. 16 bits hold the count,
// since a room has 4,096 entries at most; a wider one would leave padding in the log, which each copy of the log would carry.
#[derive(Clone, Copy)]
pub struct LockTries {
    pub tries: u16,
    pub locked: bool,
}

// Before any try.
pub const NO_TRIES: LockTries = LockTries {
    tries: 0,
    locked: false,
};

// What is carried from step to step beside the chip: how many entries there are, how far the call has come, whether the repeater is open, and what the tries
// have said. It is small, so that a step is cheap; a step that writes a register also takes the chip's two lists, by reference.
#[derive(Clone, Copy)]
pub struct Log {
    pub count: usize,
    pub progress: Progress,
    pub opened: bool,
    pub lock: LockTries,
}

// The log of a call that has taken no step yet.
pub const START: Log = Log {
    count: 0,
    progress: Progress::Going,
    opened: false,
    lock: NO_TRIES,
};

// What one part of a call hands on to the next: the chip and the log.
#[derive(Clone, Copy)]
pub struct Flow {
    pub chip: Chip,
    pub log: Log,
}

// A part of the 27 bytes that is sent in one write: `size` bytes from `at`.
#[derive(Clone, Copy)]
pub struct Chunk {
    pub at: usize,
    pub size: usize,
}

fn flag(ok: bool) -> u8
    ensures { result ≡ flag_of ok }
{
    !ok as u8
}

fn progress_after(ok: bool, k: usize) -> Progress
    ensures { result ≡ progress_of ok k }
{
    if ok {
        Progress::Going
    } else {
        Progress::Refused11(k)
    }
}

// An update of the bits under a mask.
pub fn masked(register: u8, value: u8, mask: u8) -> Update
    ensures { result ≡ masked register value mask }
{
    Update {
        register,
        value,
        mask,
    }
}

// The byte that a masked write stores and sends.
pub fn mask_into(old: u8, value: u8, mask: u8) -> u8
    ensures { result ≡ mask_of old value mask }
{
    (old & !mask) | (value & mask)
}

// An entry once it is known how its step went.
fn with_outcome(e: Entry, ok: bool) -> Entry
    ensures { result ≡ with_outcome e ok }
{
    let failed_read = ((e.kind == transcript::I2C_READ) | (e.kind == transcript::READ)) & !ok;
    Entry {
        outcome: flag(ok),
        bytes: if failed_read { [0u8; 8] } else { e.bytes },
        ..e
    }
}

fn with_try(s: LockTries, e: Entry) -> LockTries
    ensures { result ≡ with_try s e }
{
    if (e.kind == transcript::I2C_READ) & (e.n == 3) & (e.outcome == 0) {
        return LockTries {
            tries: std::num::wrapping_add_u16(s.tries, 1),
            locked: s.locked | status::locks(e.bytes[2]),
        };
    }
    s
}

// Writes a step's entry into the room after those that are there, and returns the log with it.
fn log_entry(l: Log, e: Entry, ok: bool, progress: Progress, opened: bool, room: &mut [u8]) -> Log
    requires { 16 * l.count + 16 ≤ length room.old }
    ensures room_after { (chip : Chip) → on_log chip result room.new
        ≡ line chip (in_room (logged room.old l.lock) l.count (with_outcome e ok)) (l.count + 1) progress opened }
    ensures bounds { result.count + closing_owed result.opened ≡ l.count + 1 + closing_owed opened }
{
    let k = l.count;
    let lock = l.lock;
    let done = with_outcome(e, ok);
    done.put(room, 16 * k);
    Log {
        count: k + 1,
        progress: progress,
        opened: opened,
        lock: with_try(lock, done),
    }
}

// A write of n bytes attempts n - 1 registers upward from its first byte.
fn attempt(n: usize, bytes: [u8; 8], ok: bool, shadow: &mut [u8; 27], doubtful: &mut [bool; 27])
    requires { (1 ≤ n) × (n ≤ 8) × (5 ≤ slice_index bytes 0) × (slice_index bytes 0 + n ≤ 33) }
    ensures { (shadow.new ≡ sets shadow.old (slice_index bytes 0 - 5) (slice_range bytes 1 n))
        × (doubtful.new ≡ sets doubtful.old (slice_index bytes 0 - 5) (replicate (n - 1) (not ok))) }
{
    let first = bytes[0] as usize - 5;
    let end = first + n - 1;
    shadow[first..end].copy_from_slice(&bytes[1..n]);
    doubtful[first..end].fill(!ok);
}

// "1 opens": a failed opening leaves the repeater shut, so it is not closed.
pub fn log_open(l: Log, outcomes: &[u8], room: &mut [u8]) -> Log
    requires { (l.count < length outcomes.now) × (16 * l.count + 16 ≤ length room.old) }
    ensures room_after { (chip : Chip) → on_log chip result room.new ≡ step in_room outcomes.now Open (on_log chip l room.old) }
    ensures bounds { result.count + closing_owed result.opened ≤ l.count + 2 }
{
    let Progress::Going = l.progress else {
        return l;
    };
    let k = l.count;
    let ok = outcomes[k] == 0;
    let e = Entry {
        kind: transcript::REPEATER,
        outcome: 0,
        target: 0,
        n: 1,
        address: 0,
        bytes: [1, 0, 0, 0, 0, 0, 0, 0],
    };
    log_entry(l, e, ok, progress_after(ok, k), ok, room)
}

// "A failed closing is recorded and otherwise ignored": its outcome stands in its entry alone.
pub fn log_close(l: Log, outcomes: &[u8], room: &mut [u8]) -> Log
    requires { (l.count + closing_owed l.opened ≤ length outcomes.now) × (16 * (l.count + closing_owed l.opened) ≤ length room.old) }
    ensures room_after { (chip : Chip) → on_log chip result room.new ≡ step in_room outcomes.now Close (on_log chip l room.old) }
    ensures bounds { result.count + closing_owed result.opened ≤ l.count + closing_owed l.opened }
{
    let opened = l.opened;
    if !opened {
        return l;
    }
    let k = l.count;
    let ok = outcomes[k] == 0;
    let progress = l.progress;
    let e = Entry {
        kind: transcript::REPEATER,
        outcome: 0,
        target: 0,
        n: 1,
        address: 0,
        bytes: [0, 0, 0, 0, 0, 0, 0, 0],
    };
    log_entry(l, e, ok, progress, false, room)
}

// The end of a part of a call that is run while the repeater is open: where a step of it failed, the repeater is closed.
pub fn log_end(l: Log, outcomes: &[u8], room: &mut [u8]) -> Log
    requires { (l.count + closing_owed l.opened ≤ length outcomes.now) × (16 * (l.count + closing_owed l.opened) ≤ length room.old) }
    ensures room_after { (chip : Chip) → on_log chip result room.new ≡ closing in_room outcomes.now (on_log chip l room.old) }
    ensures bounds { result.count + closing_owed result.opened ≤ l.count + closing_owed l.opened }
{
    let Progress::Going = l.progress else {
        return log_close(l, outcomes, room);
    };
    l
}

// `i2c_write_raw` of n bytes, the first of them a register of the record. It and the masked write change the chip's lists in place.
fn send(
    l: Log,
    address: u8,
    n: u8,
    bytes: [u8; 8],
    shadow: &mut [u8; 27],
    doubtful: &mut [bool; 27],
    outcomes: &[u8],
    room: &mut [u8],
) -> Log
    requires { (1 ≤ n) × (n ≤ 8) × (5 ≤ slice_index bytes 0) × (slice_index bytes 0 + n ≤ 33)
        × (l.count < length outcomes.now) × (16 * l.count + 16 ≤ length room.old) }
    ensures room_after { on_log (chip_of address shadow.new doubtful.new) result room.new
        ≡ step in_room outcomes.now (Send n bytes)
        (on_log (chip_of address shadow.old doubtful.old) l room.old) }
    ensures bounds { result.count + closing_owed result.opened ≤ l.count + 1 + closing_owed l.opened }
{
    let Progress::Going = l.progress else {
        return l;
    };
    let k = l.count;
    let ok = outcomes[k] == 0;
    let opened = l.opened;
    let e = Entry {
        kind: transcript::I2C_WRITE,
        outcome: 0,
        target: address,
        n: n,
        address: 0,
        bytes: bytes,
    };
    attempt(n as usize, bytes, ok, shadow, doubtful);
    log_entry(l, e, ok, progress_after(ok, k), opened, room)
}

// `write_reg_mask_raw`: the shadow is stored before the write is tried.
pub fn write_reg_mask_raw(
    l: Log,
    address: u8,
    u: Update,
    shadow: &mut [u8; 27],
    doubtful: &mut [bool; 27],
    outcomes: &[u8],
    room: &mut [u8],
) -> Log
    requires { (in_range u ≡ true) × (l.count < length outcomes.now) × (16 * l.count + 16 ≤ length room.old) }
    ensures room_after { on_log (chip_of address shadow.new doubtful.new) result room.new
        ≡ step in_room outcomes.now (Mask u.register u.value u.mask)
        (on_log (chip_of address shadow.old doubtful.old) l room.old) }
    ensures bounds { result.count + closing_owed result.opened ≤ l.count + 1 + closing_owed l.opened }
{
    let Progress::Going = l.progress else {
        return l;
    };
    let k = l.count;
    let ok = outcomes[k] == 0;
    let opened = l.opened;
    let index = (u.register - REG_SHADOW_START) as usize;
    let byte = mask_into(shadow[index], u.value, u.mask);
    shadow[index] = byte;
    doubtful[index] = !ok;
    let e = Entry {
        kind: transcript::I2C_WRITE,
        outcome: 0,
        target: address,
        n: 2,
        address: 0,
        bytes: [u.register, byte, 0, 0, 0, 0, 0, 0],
    };
    log_entry(l, e, ok, progress_after(ok, k), opened, room)
}

// Any step that leaves the chip's record alone: its entry as it is when the step is done.
pub fn log_plain(l: Log, e: Entry, outcomes: &[u8], room: &mut [u8]) -> Log
    requires { (l.count < length outcomes.now) × (16 * l.count + 16 ≤ length room.old) }
    ensures room_after { (chip : Chip) → on_log chip result room.new ≡ step in_room outcomes.now (Plain e) (on_log chip l room.old) }
    ensures bounds { result.count + closing_owed result.opened ≤ l.count + 1 + closing_owed l.opened }
{
    let Progress::Going = l.progress else {
        return l;
    };
    let k = l.count;
    let ok = (outcomes[k] == 0) | (e.kind == transcript::WAIT);
    let opened = l.opened;
    log_entry(l, e, ok, progress_after(ok, k), opened, room)
}

// The updates of a list, while the repeater is open.
pub fn write_list(
    l: Log,
    address: u8,
    us: &[Update],
    shadow: &mut [u8; 27],
    doubtful: &mut [bool; 27],
    outcomes: &[u8],
    room: &mut [u8],
) -> Log
    requires { (length us.now ≤ 16) × (all_in us.now ≡ true)
        × (l.count + length us.now + closing_owed l.opened ≤ length outcomes.now) × (16 * (l.count + length us.now + closing_owed l.opened) ≤ length room.old) }
    ensures room_after { on_log (chip_of address shadow.new doubtful.new) result room.new
        ≡ closing in_room outcomes.now (run in_room outcomes.now (updates us.now)
        (on_log (chip_of address shadow.old doubtful.old) l room.old)) }
    ensures bounds { result.count + closing_owed result.opened ≤ l.count + length us.now + closing_owed l.opened }
{
    // Looked at before the loop, so that the compiler knows it in each turn (docs/DESIGN-PASS.md, Measured).
    let Progress::Going = l.progress else {
        return log_close(l, outcomes, room);
    };
    let mut l = l;
    for u in us {
        l = write_reg_mask_raw(l, address, *u, shadow, doubtful, outcomes, room);
        let Progress::Going = l.progress else {
            return log_close(l, outcomes, room);
        };
    }
    log_end(l, outcomes, room)
}

// One update, and two, while the repeater is open: a straight line, so that the compiler puts their constants in place.
pub fn write_one(
    l: Log,
    address: u8,
    u: Update,
    shadow: &mut [u8; 27],
    doubtful: &mut [bool; 27],
    outcomes: &[u8],
    room: &mut [u8],
) -> Log
    requires { (in_range u ≡ true)
        × (l.count + 1 + closing_owed l.opened ≤ length outcomes.now) × (16 * (l.count + 1 + closing_owed l.opened) ≤ length room.old) }
    ensures room_after { on_log (chip_of address shadow.new doubtful.new) result room.new
        ≡ closing in_room outcomes.now (run in_room outcomes.now (updates (u ∷ []))
        (on_log (chip_of address shadow.old doubtful.old) l room.old)) }
    ensures bounds { result.count + closing_owed result.opened ≤ l.count + 1 + closing_owed l.opened }
{
    let written = write_reg_mask_raw(l, address, u, shadow, doubtful, outcomes, room);
    log_end(written, outcomes, room)
}

pub fn write_two(
    l: Log,
    address: u8,
    u: Update,
    v: Update,
    shadow: &mut [u8; 27],
    doubtful: &mut [bool; 27],
    outcomes: &[u8],
    room: &mut [u8],
) -> Log
    requires { (in_range u ≡ true) × (in_range v ≡ true)
        × (l.count + 2 + closing_owed l.opened ≤ length outcomes.now) × (16 * (l.count + 2 + closing_owed l.opened) ≤ length room.old) }
    ensures room_after { on_log (chip_of address shadow.new doubtful.new) result room.new
        ≡ closing in_room outcomes.now (run in_room outcomes.now (updates (u ∷ v ∷ []))
        (on_log (chip_of address shadow.old doubtful.old) l room.old)) }
    ensures bounds { result.count + closing_owed result.opened ≤ l.count + 2 + closing_owed l.opened }
{
    let written = write_reg_mask_raw(l, address, u, shadow, doubtful, outcomes, room);
    let Progress::Going = written.progress else {
        return log_close(written, outcomes, room);
    };
    write_one(written, address, v, shadow, doubtful, outcomes, room)
}

// `with_repeater`: an opening, the steps that are handed in, over the chip's lists where they lie, and a closing.
pub fn bracket<F: FnOnce(Log, u8, &mut [u8; 27], &mut [bool; 27], &mut [u8]) -> Log>(
    mut f: Flow,
    steps: F,
    outcomes: &[u8],
    room: &mut [u8],
) -> Flow
    requires ready { MayRun F.FnOnce steps (f.log.count + 2) (length room.old) }
    requires ends { (n : ℕ) × (AddsAtMost F.FnOnce steps n) × (f.log.count + n + 2 ≤ length outcomes.now) × (16 * (f.log.count + n + 2) ≤ length room.old) }
    ensures room_after { (ss : List Step) → Runs F.FnOnce steps outcomes.now f.chip.address ss → on_room result room.new ≡ run in_room outcomes.now (while_open ss) (on_room f room.old) }
    ensures bounds { (n : ℕ) → AddsAtMost F.FnOnce steps n → result.log.count + closing_owed result.log.opened ≤ f.log.count + n + 2 }
{
    let opened = log_open(f.log, outcomes, room);
    let Progress::Going = opened.progress else {
        f.log = log_close(opened, outcomes, room);
        return f;
    };
    let chip = &mut f.chip;
    let sent = steps(
        opened,
        chip.address,
        &mut chip.shadow,
        &mut chip.doubtful,
        room,
    );
    f.log = log_close(sent, outcomes, room);
    f
}

// `with_repeater` over a list of updates: open, steps, close.
pub fn with_repeater(f: Flow, us: &[Update], outcomes: &[u8], room: &mut [u8]) -> Flow
    requires { (length us.now ≤ 16) × (all_in us.now ≡ true)
        × (f.log.count + length us.now + 2 ≤ length outcomes.now) × (16 * (f.log.count + length us.now + 2) ≤ length room.old) }
    ensures room_after { on_room result room.new
        ≡ run in_room outcomes.now (while_open (updates us.now)) (on_room f room.old) }
    ensures bounds { result.log.count + closing_owed result.log.opened ≤ f.log.count + length us.now + 2 }
{
    bracket(
        f,
        |l, address, shadow, doubtful, room| write_list(
            l, address, us, shadow, doubtful, outcomes, room,
        ),
        outcomes,
        room,
    )
}

// The chunk's first register, its bytes, and zeros.
fn chunk_bytes(bs: [u8; 27], at: usize, size: usize) -> [u8; 8]
    requires { (size ≤ 7) × (at + size ≤ 27) }
    ensures { result ≡ chunk_bytes bs at size }
{
    let mut bytes = [0u8; 8];
    bytes[0] = 5 + at as u8;
    wire::copy(&mut bytes, 1, &bs[at..at + size]);
    bytes
}

fn send_chunk(
    l: Log,
    address: u8,
    bs: [u8; 27],
    k: Chunk,
    shadow: &mut [u8; 27],
    doubtful: &mut [bool; 27],
    outcomes: &[u8],
    room: &mut [u8],
) -> Log
    requires { (within k ≡ true) × (l.count < length outcomes.now) × (16 * l.count + 16 ≤ length room.old) }
    ensures room_after { on_log (chip_of address shadow.new doubtful.new) result room.new
        ≡ step in_room outcomes.now (chunk_step bs k)
        (on_log (chip_of address shadow.old doubtful.old) l room.old) }
    ensures bounds { result.count + closing_owed result.opened ≤ l.count + 1 + closing_owed l.opened }
{
    let at = k.at;
    let size = k.size;
    let bytes = chunk_bytes(bs, at, size);
    send(
        l,
        address,
        size as u8 + 1,
        bytes,
        shadow,
        doubtful,
        outcomes,
        room,
    )
}

// "chunks (7, 7, 2, then 7, 4)": `i2c_write_tuner` sends at most seven registers in one write. No loop: each write has its numbers in the code.
fn first_chunks(
    l: Log,
    address: u8,
    bs: [u8; 27],
    shadow: &mut [u8; 27],
    doubtful: &mut [bool; 27],
    outcomes: &[u8],
    room: &mut [u8],
) -> Log
    requires { (l.count + 3 + closing_owed l.opened ≤ length outcomes.now) × (16 * (l.count + 3 + closing_owed l.opened) ≤ length room.old) }
    ensures room_after { on_log (chip_of address shadow.new doubtful.new) result room.new
        ≡ closing in_room outcomes.now (run in_room outcomes.now (map (chunk_step bs) (drop 0 (take 3 chunk_table)))
        (on_log (chip_of address shadow.old doubtful.old) l room.old)) }
    ensures bounds { result.count + closing_owed result.opened ≤ l.count + 3 + closing_owed l.opened }
{
    let one = Chunk { at: 0, size: 7 };
    let two = Chunk { at: 7, size: 7 };
    let three = Chunk { at: 14, size: 2 };
    let first = send_chunk(l, address, bs, one, shadow, doubtful, outcomes, room);
    let Progress::Going = first.progress else {
        return log_close(first, outcomes, room);
    };
    let second = send_chunk(first, address, bs, two, shadow, doubtful, outcomes, room);
    let Progress::Going = second.progress else {
        return log_close(second, outcomes, room);
    };
    let third = send_chunk(second, address, bs, three, shadow, doubtful, outcomes, room);
    log_end(third, outcomes, room)
}

// The last two of them.
fn last_chunks(
    l: Log,
    address: u8,
    bs: [u8; 27],
    shadow: &mut [u8; 27],
    doubtful: &mut [bool; 27],
    outcomes: &[u8],
    room: &mut [u8],
) -> Log
    requires { (l.count + 2 + closing_owed l.opened ≤ length outcomes.now) × (16 * (l.count + 2 + closing_owed l.opened) ≤ length room.old) }
    ensures room_after { on_log (chip_of address shadow.new doubtful.new) result room.new
        ≡ closing in_room outcomes.now (run in_room outcomes.now (map (chunk_step bs) (drop 3 (take 5 chunk_table)))
        (on_log (chip_of address shadow.old doubtful.old) l room.old)) }
    ensures bounds { result.count + closing_owed result.opened ≤ l.count + 2 + closing_owed l.opened }
{
    let four = Chunk { at: 16, size: 7 };
    let five = Chunk { at: 23, size: 4 };
    let first = send_chunk(l, address, bs, four, shadow, doubtful, outcomes, room);
    let Progress::Going = first.progress else {
        return log_close(first, outcomes, room);
    };
    let second = send_chunk(first, address, bs, five, shadow, doubtful, outcomes, room);
    log_end(second, outcomes, room)
}

// `i2c_write_tuner` of the first 16 registers.
pub fn i2c_write_first(f: Flow, bs: [u8; 27], outcomes: &[u8], room: &mut [u8]) -> Flow
    requires { (f.log.count + 5 ≤ length outcomes.now) × (16 * (f.log.count + 5) ≤ length room.old) }
    ensures room_after { on_room result room.new ≡ run in_room outcomes.now (tuner_write bs 0 3) (on_room f room.old) }
    ensures bounds { result.log.count + closing_owed result.log.opened ≤ f.log.count + 5 }
{
    bracket(
        f,
        |l, address, shadow, doubtful, room| first_chunks(
            l, address, bs, shadow, doubtful, outcomes, room,
        ),
        outcomes,
        room,
    )
}

// And of the other 11.
pub fn i2c_write_last(f: Flow, bs: [u8; 27], outcomes: &[u8], room: &mut [u8]) -> Flow
    requires { (f.log.count + 4 ≤ length outcomes.now) × (16 * (f.log.count + 4) ≤ length room.old) }
    ensures room_after { on_room result room.new ≡ run in_room outcomes.now (tuner_write bs 3 5) (on_room f room.old) }
    ensures bounds { result.log.count + closing_owed result.log.opened ≤ f.log.count + 4 }
{
    bracket(
        f,
        |l, address, shadow, doubtful, room| last_chunks(
            l, address, bs, shadow, doubtful, outcomes, room,
        ),
        outcomes,
        room,
    )
}

// Which lent slice is too short for a call of at most n entries and m replies: 8, 9, 10, or 0 where all suffice.
pub fn too_short(n: usize, m: usize, room: usize, outcomes: usize, replies: usize) -> u8
    requires { n ≤ 4096 }
    ensures { result ≡ too_short n m room outcomes replies }
{
    if room < 16 * n + 8 {
        return refusals::ROOM;
    }
    if outcomes < n {
        return refusals::OUTCOMES;
    }
    if replies < m {
        return refusals::REPLIES;
    }
    0
}

// 1 unless the records given are whole, then an argument's number, 0 for none, then 8, 9, 10; 0 where nothing is refused.
pub fn refusal(
    whole: bool,
    argument: u8,
    n: usize,
    m: usize,
    room: usize,
    outcomes: usize,
    replies: usize,
) -> u8
    requires { n ≤ 4096 }
    ensures { result ≡ refusal_with whole argument n m room outcomes replies }
{
    if !whole {
        return refusals::SETUP;
    }
    if argument != 0 {
        return argument;
    }
    too_short(n, m, room, outcomes, replies)
}

// Writes the trailer, and returns the answer: `whole` where no step failed, else refusal 11 with the index.
pub fn finish(f: Flow, whole: Answer, room: &mut [u8]) -> Answer
    requires { (f.log.count ≤ 4096) × (16 * f.log.count + 8 ≤ length room.old) }
    ensures { (result ≡ answer_of whole f.log.progress) × (room.new ≡ sealed room.old f.log.count) }
{
    let log = f.log;
    let count = log.count;
    let progress = log.progress;
    transcript::seal(room, count);
    match progress {
        Progress::Going => whole,
        Progress::Refused11(index) => Answer::Stopped(index),
    }
}
