// The interface's register accesses and the GPIO calls of src/device.rs, over a script of outcomes and replies and a room for the
// entries. Document 01, "Transcript and script" (kinds 4 to 9), "Refusal numbers" ("`set_gpio_*` touch no record").
// Calls that touch no record are run by crate chip's steps over a chip of zeros, of which nothing is handed back.

#![tactic(auto)]

ghost use Rattle.std.specs.Prelude.{List, map, ◌≡◌, ℕ, ◌+◌, ◌*◌, ◌^◌, ◌≤◌, ◌<◌, length, get_or};
ghost use Rattle.chip.specs.declared.Chip.{Chip};
ghost use Rattle.chip.specs.InCode.{in_room, on_log, on_room};
ghost use Rattle.chip.specs.Steps.{closing_owed, step, run};
ghost use Rattle.chip.specs.Calls.{called, too_short};
ghost use Rattle.refusals.specs.declared.Answer.TheVariants.{Refused};
ghost use Rattle.device.specs.Accesses.{access, access_entry, access_step};
ghost use Rattle.device.specs.InCode.{back};
ghost use Rattle.device.specs.Calls.{free_call, free_result};
ghost use Rattle.device.specs.Gpio.{bit_rows, bit_steps, changed_of, gpio_course, output_rows, output_steps, with_bit, without_bit};
ghost use Rattle.device.specs.Gpio.Order.{Output, Bit};

use chip::{Chip, Flow, Log, START};
use refusals::Answer;
use registers::{block, sys};
use transcript::{BLOCK, BLOCK16, DEMOD16, Entry, READ, WAIT};

// One access of the interface: its kind, target (page or block), address (the register) and value. A write of 8 or 16 bits, a read with the
// reply as its value, or a wait of `address` milliseconds.
#[derive(Clone, Copy)]
pub struct Access {
    pub kind: u8,
    pub target: u8,
    pub address: u16,
    pub value: u16,
}

// The chip of calls that touch no record.
pub const NO_CHIP: Chip = Chip {
    address: 0,
    shadow: [0; 27],
    doubtful: [false; 27],
};

// What a call that touches no record hands back.
#[derive(Clone, Copy)]
pub struct Handed {
    pub answer: Answer,
    pub count: usize,
}

// An access as its entry, when it is done.
fn entry(a: Access) -> Entry
    ensures { result ≡ access_entry a }
{
    let high = (a.value / 256) as u8;
    let low = (a.value % 256) as u8;
    let (n, bytes) = match a.kind {
        DEMOD16 | BLOCK16 => (2, [high, low, 0, 0, 0, 0, 0, 0]),
        WAIT => (0, [low, 0, 0, 0, 0, 0, 0, 0]),
        _ => (1, [low, 0, 0, 0, 0, 0, 0, 0]),
    };
    Entry {
        kind: a.kind,
        outcome: 0,
        target: a.target,
        n: n,
        address: a.address,
        bytes: bytes,
    }
}

pub fn log_access(l: Log, a: Access, outcomes: &[u8], room: &mut [u8]) -> Log
    requires { (l.count < length outcomes.now) × (16 * l.count + 16 ≤ length room.old) }
    ensures room_after { (chip : Chip) → on_log chip result room.new
        ≡ step in_room outcomes.now (access_step a) (on_log chip l room.old) }
    ensures bounds { result.count + closing_owed result.opened ≤ l.count + 1 + closing_owed l.opened }
{
    chip::log_plain(l, entry(a), outcomes, room)
}

pub fn one_access(f: Flow, a: Access, outcomes: &[u8], room: &mut [u8]) -> Flow
    requires { (f.log.count < length outcomes.now) × (16 * f.log.count + 16 ≤ length room.old) }
    ensures room_after { on_room result room.new ≡ step in_room outcomes.now (access_step a) (on_room f room.old) }
    ensures bounds { result.log.count + closing_owed result.log.opened ≤ f.log.count + 1 + closing_owed f.log.opened }
{
    Flow {
        chip: f.chip,
        log: log_access(f.log, a, outcomes, room),
    }
}

// The accesses one after the other; those after a failed one are not made.
fn log_all(l: Log, rows: &[Access], outcomes: &[u8], room: &mut [u8]) -> Log
    requires { (l.count + length rows.now + closing_owed l.opened ≤ length outcomes.now) × (16 * (l.count + length rows.now + closing_owed l.opened) ≤ length room.old) }
    ensures room_after { (chip : Chip) → on_log chip result room.new
        ≡ run in_room outcomes.now (map access_step rows.now) (on_log chip l room.old) }
    ensures bounds { result.count + closing_owed result.opened ≤ l.count + length rows.now + closing_owed l.opened }
{
    let mut l = l;
    for &a in rows {
        l = log_access(l, a, outcomes, room);
    }
    l
}

pub fn access_all(f: Flow, rows: &[Access], outcomes: &[u8], room: &mut [u8]) -> Flow
    requires { (f.log.count + length rows.now + closing_owed f.log.opened ≤ length outcomes.now) × (16 * (f.log.count + length rows.now + closing_owed f.log.opened) ≤ length room.old) }
    ensures room_after { on_room result room.new
        ≡ run in_room outcomes.now (map access_step rows.now) (on_room f room.old) }
    ensures bounds { result.log.count + closing_owed result.log.opened ≤ f.log.count + length rows.now + closing_owed f.log.opened }
{
    Flow {
        chip: f.chip,
        log: log_all(f.log, rows, outcomes, room),
    }
}

// A call that is refused before its steps.
pub fn refused(number: u8) -> Handed
    ensures { (room : List ℕ) → back result room ≡ called tt room 0 (Refused number) }
{
    Handed {
        answer: Answer::Refused(number),
        count: 0,
    }
}

// A whole call of these accesses and m replies that touches no record: 8, 9, 10, or its steps.
pub fn perform(
    rows: &[Access],
    m: usize,
    outcomes: &[u8],
    replies: usize,
    room: &mut [u8],
) -> Handed
    requires { length rows.now ≤ 4096 }
    ensures { back result room.new
        ≡ free_call (too_short (length rows.now) m (length room.old) (length outcomes.now) replies) outcomes.now (map access_step rows.now) room.old }
{
    let number = chip::too_short(rows.len(), m, room.len(), outcomes.len(), replies);
    if number != 0 {
        return refused(number);
    }
    let start = Flow {
        chip: NO_CHIP,
        log: START,
    };
    let f = access_all(start, rows, outcomes, room);
    Handed {
        answer: chip::finish(f, Answer::Done(0), room),
        count: f.log.count,
    }
}

// The reply at an index, 0 where none was lent.
fn reply(replies: &[u8], i: usize) -> u8
    ensures { result ≡ get_or replies.now i 0 }
{
    replies.get(i).copied().unwrap_or(0)
}

fn bit_of(gpio: u8) -> u8
    requires { gpio < 8 }
    ensures { result ≡ 2 ^ gpio }
{
    1u8 << gpio
}

fn with_bit(byte: u8, gpio: u8) -> u8
    requires { gpio < 8 }
    ensures { result ≡ with_bit byte gpio }
{
    byte | bit_of(gpio)
}

fn without_bit(byte: u8, gpio: u8) -> u8
    requires { gpio < 8 }
    ensures { result ≡ without_bit byte gpio }
{
    byte & !bit_of(gpio)
}

// An access to a register of block SYS.
fn system(kind: u8, address: u16, byte: u8) -> Access
    ensures { result ≡ access kind 2 address byte }
{
    Access {
        kind: kind,
        target: block::SYS,
        address: address,
        value: byte as u16,
    }
}

// `set_gpio_output`'s accesses; a and b are the bytes read.
fn output_rows(gpio: u8, a: u8, b: u8) -> [Access; 4]
    requires { gpio < 8 }
    ensures { result ≡ output_rows gpio a b }
{
    let driven = without_bit(b, gpio);
    [
        system(READ, sys::GPOE, a),
        system(BLOCK, sys::GPOE, with_bit(a, gpio)),
        system(READ, sys::GPD, b),
        system(BLOCK, sys::GPD, driven),
    ]
}

// The byte that `set_gpio_bit` writes back.
fn changed(gpio: u8, value: u8, a: u8) -> u8
    requires { gpio < 8 }
    ensures { result ≡ changed_of gpio value a }
{
    if value == 0 {
        without_bit(a, gpio)
    } else {
        with_bit(a, gpio)
    }
}

// `set_gpio_bit`'s accesses; a is the byte read.
fn bit_rows(gpio: u8, value: u8, a: u8) -> [Access; 2]
    requires { gpio < 8 }
    ensures { result ≡ bit_rows gpio value a }
{
    [
        system(READ, sys::GPO, a),
        system(BLOCK, sys::GPO, changed(gpio, value, a)),
    ]
}

// The steps of the two for a larger call. A failed read ends it, so the write after it never uses the zeros of a failed read.
pub fn gpio_output(f: Flow, gpio: u8, a: u8, b: u8, outcomes: &[u8], room: &mut [u8]) -> Flow
    requires { (gpio < 8) × (f.log.count + 4 + closing_owed f.log.opened ≤ length outcomes.now) × (16 * (f.log.count + 4 + closing_owed f.log.opened) ≤ length room.old) }
    ensures room_after { on_room result room.new ≡ run in_room outcomes.now (output_steps gpio a b) (on_room f room.old) }
    ensures bounds { result.log.count + closing_owed result.log.opened ≤ f.log.count + 4 + closing_owed f.log.opened }
{
    access_all(f, &output_rows(gpio, a, b), outcomes, room)
}

pub fn gpio_bit(f: Flow, gpio: u8, value: u8, a: u8, outcomes: &[u8], room: &mut [u8]) -> Flow
    requires { (gpio < 8) × (f.log.count + 2 + closing_owed f.log.opened ≤ length outcomes.now) × (16 * (f.log.count + 2 + closing_owed f.log.opened) ≤ length room.old) }
    ensures room_after { on_room result room.new ≡ run in_room outcomes.now (bit_steps gpio value a) (on_room f room.old) }
    ensures bounds { result.log.count + closing_owed result.log.opened ≤ f.log.count + 2 + closing_owed f.log.opened }
{
    access_all(f, &bit_rows(gpio, value, a), outcomes, room)
}

pub fn set_gpio_output(gpio: u8, outcomes: &[u8], replies: &[u8], room: &mut [u8]) -> Handed
    ensures { back result room.new ≡ free_result (gpio_course (Output gpio replies.now)) outcomes.now room.old }
{
    if gpio > 7 {
        return refused(refusals::PIN);
    }
    let a = reply(replies, 0);
    let b = reply(replies, 1);
    let rows = output_rows(gpio, a, b);
    perform(&rows, 2, outcomes, replies.len(), room)
}

// A value of 0 clears the bit, any other sets it.
pub fn set_gpio_bit(gpio: u8, value: u8, outcomes: &[u8], replies: &[u8], room: &mut [u8]) -> Handed
    ensures { back result room.new ≡ free_result (gpio_course (Bit gpio value replies.now)) outcomes.now room.old }
{
    if gpio > 7 {
        return refused(refusals::PIN);
    }
    let rows = bit_rows(gpio, value, reply(replies, 0));
    perform(&rows, 1, outcomes, replies.len(), room)
}
