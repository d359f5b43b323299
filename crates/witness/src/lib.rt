// What sections end to end tell of the station that a receiver stands on: oscillator, IF, rate, lock and the centre of what is recorded, each with its mark.
// Ours: no file of the Rust has it. What the numbers are stands in crate evidence, the answer's 52 bytes in specs/Answer.antt. One walk from the end of the
// slice, as crate restoring's, judges every section and gathers what is told, newest first; the answer is laid out beside it and lent last, so that what is
// refused leaves the lent bytes as they were.

#![tactic(auto)]

ghost use Rattle.std.specs.Prelude.{◌≡◌, true, cond, [], ◌∷◌, ◌+◌, ◌-◌, ◌*◌, ◌/◌, ◌%◌, ◌^◌, ◌≤◌, ◌<◌, eqb, length, drop};
ghost use Rattle.std.proofs.lemmas.List.Edits.{sets};
ghost use Rattle.wire.specs.Bytes.{le_bytes};
ghost use Rattle.transcript.specs.Sections.{all_fit, entries_in};
ghost use Rattle.attempts.specs.Attempts as attempts;
ghost use Rattle.sections.specs.Chain.{chain, chain_entries};
ghost use Rattle.refusals.specs.Lent.{given};
ghost use Rattle.restore.specs.Restore.{refused_by};
ghost use Rattle.registers.specs.Rates.{negated_of};
ghost use Rattle.oscillator.specs.Registers.{five};
ghost use Rattle.status.specs.Reversal.{locked_by};
ghost use Rattle.restoring.specs.Standing.{byte_of, only, over};
ghost use Rattle.evidence.specs.Demodulator as demod;
ghost use Rattle.evidence.specs.Evidence.{centre_of, lo_units, planned, touches, try_of};
ghost use Rattle.witness.specs.Walk.{demod_in, is_open, most, place_of, seen, seen_all, waited_by};
ghost use Rattle.witness.specs.declared.Stage.TheVariants.{Counted, Ended};
ghost use Rattle.witness.specs.Answer.{answer_bytes, centre_mark, evidence_into, if_sure};
ghost use Rattle.witness.specs.InCode.{all_are, mark_from, mark_known, marks_in, numbers_in};

use refusals::Answer;
use restoring::Sent;
use transcript::{Entry, Section};

// What is told of the chip's registers stands in an array, as restoring's walk has it; of the demodulator's in another, in its slots 8 to 15.
const PLACES: [u16; 16] = [
    0, 0, 0, 0, 0, 0, 0, 0, 0x15, 0x19, 0x1a, 0x1b, 0x9f, 0xa0, 0xa1, 0xa2,
];

fn place_of(k: usize) -> u16
    requires { k < 16 }
    ensures { result ≡ place_of k }
{
    PLACES[k]
}

// A write by this kind (8 bits) or the next (16) that names this register.
fn covers(e: Entry, kind: u8, target: u8, register: u16) -> bool
    requires { kind < 9 }
    ensures { result ≡ demod.covers kind e (demod.place target register) }
{
    let first = e.address as u32;
    let asked = register as u32;
    ((e.kind == kind) | (e.kind == kind + 1))
        & (e.target == target)
        & (first <= asked)
        & (asked < first + e.n as u32)
}

// A write after which no register of the demodulator is sure.
fn shakes(e: Entry) -> bool
    ensures { result ≡ demod.shakes e }
{
    let past = e.address as u32 + e.n as u32;
    let astray = ((e.kind == transcript::DEMOD) | (e.kind == transcript::DEMOD16))
        & ((15 < e.target) | (256 < past));
    covers(e, transcript::DEMOD, 1, 0x01) | covers(e, transcript::BLOCK, 2, 0x3000) | astray
}

// The byte that it sends to a register; 0 where it sends none.
fn byte_for(e: Entry, register: u16, named: bool) -> u8
    requires { (e.n ≤ 8) × (named ≡ demod.covers 4 e (demod.place 1 register)) }
    ensures { result ≡ demod.demod_sent e (demod.place 1 register) }
{
    if named {
        let bytes = e.bytes;
        return bytes[(register - e.address) as usize];
    }
    0
}

// What an entry tells of one slot of the demodulator's. What is told already is newer.
fn noted_at(e: Entry, k: usize, shaken: bool, done: bool, known: &mut [Option<Sent>; 32])
    requires { ((e.n ≤ 8) × ((8 ≤ k) × (k < 16))) × ((shaken ≡ demod.shakes e) × (done ≡ demod.demod_settles e)) }
    ensures { known.new ≡ over (only k (demod_in (e ∷ []) k)) 0 known.old }
{
    let register = place_of(k);
    let named = covers(e, transcript::DEMOD, 1, register);
    if named | shaken {
        let byte = byte_for(e, register, named);
        let mark = restoring::mark_of(done);
        restoring::marked(k, Sent { byte, mark }, known);
    }
}

// One entry more, older than those before it: what it tells of the demodulator's registers. Only writes of kinds 4 to 7 do.
fn noted_demod(e: Entry, known: &mut [Option<Sent>; 32])
    requires { e.n ≤ 8 }
    ensures { known.new ≡ over (demod_in (e ∷ [])) 0 known.old }
{
    if e.kind < transcript::DEMOD {
        return;
    }
    if transcript::BLOCK16 < e.kind {
        return;
    }
    let shaken = shakes(e);
    let done = (e.outcome == 0) & !shaken & !(e.kind == transcript::REPEATER);
    for k in 8..16 {
        noted_at(e, k, shaken, done, known);
    }
}

// How far back the waiting is told: nothing yet; how it ended; how many tries it took too, so that nothing older counts.
#[derive(Clone, Copy)]
pub enum Stage {
    Open,
    Ended,
    Counted,
}

// How the waiting for the lock ended.
#[derive(Clone, Copy)]
pub struct Waiting {
    pub stage: Stage,
    pub lock: u8,
    pub tries: u32,
}

// All that the walk gathers.
#[derive(Clone, Copy)]
pub struct Seen {
    pub chip: [Option<Sent>; 32],
    pub demod: [Option<Sent>; 32],
    pub waiting: Waiting,
}

// The first register past those that an I2C write names.
fn past_of(first: u8, n: u8) -> u32
    ensures { result ≡ first + (n - 1) }
{
    if n == 0 {
        return first as u32;
    }
    first as u32 + (n - 1) as u32
}

fn names(e: Entry, address: u8, r: u32) -> bool
    ensures { result ≡ attempts.names address e r }
{
    let bytes = e.bytes;
    let first = bytes[0];
    (e.kind == transcript::I2C_WRITE)
        & (e.target == address)
        & (first as u32 <= r)
        & (r < past_of(first, e.n))
}

// A write of the registers that a plan has.
fn plans(e: Entry, address: u8) -> bool
    ensures { result ≡ touches address planned e }
{
    names(e, address, 0x10)
        | (names(e, address, 0x14) | (names(e, address, 0x15) | (names(e, address, 0x16) | false)))
}

// A done read of the three bytes with the lock's bit.
fn tried(e: Entry, address: u8) -> bool
    ensures { result ≡ try_of address e }
{
    (e.kind == transcript::I2C_READ) & (e.n == 3) & (e.outcome == 0) & (e.target == address)
}

fn stage_after(stage: Stage, plan: bool, told: bool) -> Stage
    ensures { result ≡ cond plan Counted (cond told Ended stage) }
{
    if plan {
        return Stage::Counted;
    }
    if told { Stage::Ended } else { stage }
}

fn lock_told(write: bool, read: bool, bit: bool) -> u8
    ensures { result ≡ cond write 0 (cond read (cond bit 2 1) 0) }
{
    if write | !read {
        return 0;
    }
    if bit { 2 } else { 1 }
}

// One try more. A count past u32 stays there.
fn one_more(count: u32) -> u32
    ensures { result ≡ most (count + 1) }
{
    if count < 0xffff_fffe {
        return count + 1;
    }
    0xffff_ffff
}

fn tries_after(count: u32, plan: bool, read: bool) -> u32
    ensures { result ≡ cond plan count (cond read (most (count + 1)) count) }
{
    let next = one_more(count);
    if plan {
        return count;
    }
    if read { next } else { count }
}

fn lock_after(w: Waiting, write: bool, read: bool, byte: u8) -> u8
    ensures { result ≡ cond (is_open w.stage) (cond write 0 (cond read (cond (locked_by byte) 2 1) 0)) w.lock }
{
    match w.stage {
        Stage::Open => lock_told(write, read, status::locks(byte)),
        _ => w.lock,
    }
}

// One entry more, older than those before it.
fn waited(w: Waiting, e: Entry, address: u8) -> Waiting
    ensures { result ≡ waited_by address e w }
{
    if let Stage::Counted = w.stage {
        return w;
    }
    let plan = plans(e, address);
    let write = plan | names(e, address, 0x12);
    let read = tried(e, address);
    let bytes = e.bytes;
    Waiting {
        stage: stage_after(w.stage, plan, write | read),
        lock: lock_after(w, write, read, bytes[2]),
        tries: tries_after(w.tries, plan, read),
    }
}

// One entry more of all that is gathered. The waiting goes by value: in the arrays' struct each entry would wait for the one before it to be stored.
fn heard(
    e: Entry,
    address: u8,
    w: Waiting,
    chip: &mut [Option<Sent>; 32],
    demod: &mut [Option<Sent>; 32],
) -> Waiting
    requires { e.n ≤ 8 }
    ensures { seen chip.new demod.new result ≡ seen_all address (e ∷ []) (seen chip.old demod.old w) }
{
    restoring::noted(e, address, chip);
    noted_demod(e, demod);
    waited(w, e, address)
}

// The entries of a section, from the last to the first.
fn heard_all(s: &[u8], start: usize, count: usize, address: u8, seen: &mut Seen)
    requires { (count ≤ 4096) × (start + 16 * count ≤ length s.now) × (all_fit count (drop start s.now) ≡ true) }
    ensures { seen.new ≡ seen_all address (entries_in count (drop start s.now)) seen.old }
{
    let mut w = seen.waiting;
    for i in (0..count).rev() {
        let e = Entry::get(s, start + 16 * i);
        w = heard(e, address, w, &mut seen.chip, &mut seen.demod);
    }
    seen.waiting = w;
}

// The last section, then what stands before it, to the start of the slice. 12, or 0 and what they tell.
fn walked(s: &[u8], address: u8, seen: &mut Seen) -> u8
    ensures { (result ≡ refused_by s.now) × (chain s.now ≡ true → seen.new ≡ seen_all address (chain_entries s.now) seen.old) }
{
    let mut end = s.len();
    // A `for` is no plainer: the end of what is left moves to where the last section starts.
    while 0 < end {
        let part = &s[0..end];
        let Some(Section { start, count }) = transcript::read_section(part) else {
            return refusals::SECTION;
        };
        heard_all(part, start, count, address, seen);
        end = start;
    }
    0
}

#[derive(Clone, Copy)]
pub struct Marks {
    pub oscillator: u8,
    pub offset: u8,
    pub rate: u8,
    pub ddc: u8,
    pub lock: u8,
}

fn mark_by(sure: bool, never: bool) -> u8
    ensures { result ≡ cond sure 2 (cond never 0 1) }
{
    if sure {
        return 2;
    }
    if never { 0 } else { 1 }
}

fn mark_of(known: Option<Sent>) -> u8
    ensures { result ≡ mark_known known }
{
    match known {
        Some(sent) => sent.mark,
        None => 0,
    }
}

fn all_are(known: &[Option<Sent>], mark: u8) -> bool
    ensures { result ≡ all_are mark known.now }
{
    known.iter().all(|k| mark_of(*k) == mark)
}

// The mark of several registers.
fn mark_from(known: &[Option<Sent>]) -> u8
    ensures { result ≡ mark_from known.now }
{
    mark_by(all_are(known, 2), all_are(known, 0))
}

fn marks_in(seen: &Seen) -> Marks
    ensures { result ≡ marks_in seen.now }
{
    let chip = &seen.chip;
    let demod = &seen.demod;
    Marks {
        oscillator: mark_from(&[chip[0x10], chip[0x12], chip[0x14], chip[0x15], chip[0x16]]),
        offset: mark_from(&demod[9..12]),
        rate: mark_from(&demod[12..16]),
        ddc: mark_of(demod[8]),
        lock: seen.waiting.lock,
    }
}

#[derive(Clone, Copy)]
pub struct Numbers {
    pub tries: u32,
    pub ddc: u8,
    pub word: u32,
    pub ratio: u32,
    pub rate: u64,
    pub oscillator: u64,
    pub offset: u64,
}

// In units of 2^-23 Hz, by the bytes of 0x10, 0x12, 0x14, 0x15 and 0x16.
fn units(r: u32, divider: u8, control: u8, whole: u8, low: u8, high: u8) -> u64
    ensures { result ≡ lo_units r (five divider control whole low high) }
{
    let n = 13 + 4 * ((whole % 64) as u64) + ((whole / 64) as u64);
    let s = oscillator::sum(control, low, high);
    (r as u64) * (65_536 * n + s) * (1 << (7 - divider / 32))
}

// The IF as it is sent, 22 bits.
fn word_of(high: u8, middle: u8, low: u8) -> u32
    ensures { result ≡ 65_536 * (high % 64) + (256 * middle + low) }
{
    65_536 * ((high % 64) as u32) + (256 * (middle as u32) + (low as u32))
}

// The IF that it stands for, in units of 2^-23 Hz.
fn offset_of(xtal: u32, word: u32) -> u64
    ensures { result ≡ 2 * (negated_of word * xtal) }
{
    let steps = (4_194_304 - word % 4_194_304) % 4_194_304;
    2 * ((steps as u64) * (xtal as u64))
}

fn ratio_of(a: u8, b: u8, c: u8, d: u8) -> u32
    ensures { result ≡ 16_777_216 * a + (65_536 * b + (256 * c + d)) }
{
    16_777_216 * (a as u32) + (65_536 * (b as u32) + (256 * (c as u32) + (d as u32)))
}

// The rate that a ratio stands for; 0 where there is no ratio.
fn rate_of(xtal: u32, ratio: u32) -> u64
    ensures { result ≡ cond (eqb ratio 0) 0 (xtal * 2 ^ 22 / ratio) }
{
    if ratio == 0 {
        return 0;
    }
    (xtal as u64) * 4_194_304 / (ratio as u64)
}

// The byte that was sent last; 0 where none was.
fn byte_of(known: Option<Sent>) -> u8
    ensures { result ≡ byte_of known }
{
    match known {
        Some(sent) => sent.byte,
        None => 0,
    }
}

fn numbers_in(seen: &Seen, r: u32, xtal: u32) -> Numbers
    ensures { result ≡ numbers_in seen.now r xtal }
{
    let chip = &seen.chip;
    let demod = &seen.demod;
    let word = word_of(byte_of(demod[9]), byte_of(demod[10]), byte_of(demod[11]));
    let ratio = ratio_of(
        byte_of(demod[12]),
        byte_of(demod[13]),
        byte_of(demod[14]),
        byte_of(demod[15]),
    );
    Numbers {
        tries: seen.waiting.tries,
        ddc: byte_of(demod[8]),
        word,
        ratio,
        rate: rate_of(xtal, ratio),
        oscillator: units(
            r,
            byte_of(chip[0x10]),
            byte_of(chip[0x12]),
            byte_of(chip[0x14]),
            byte_of(chip[0x15]),
            byte_of(chip[0x16]),
        ),
        offset: offset_of(xtal, word),
    }
}

fn if_sure(mark: u8, n: u64) -> u64
    ensures { result ≡ if_sure mark n }
{
    if mark == 2 {
        return n;
    }
    0
}

// Both marks are sure and the IF is no larger; where it is, 1.
fn centre_mark(m: Marks, n: Numbers) -> u8
    ensures { result ≡ centre_mark m n }
{
    let both = mark_by(
        (m.oscillator == 2) & (m.offset == 2),
        (m.oscillator == 0) & (m.offset == 0),
    );
    if (both == 2) & (n.oscillator < n.offset) {
        return 1;
    }
    both
}

// In whole Hz; 0 where the IF is larger.
fn centre_of(lo: u64, offset: u64) -> u64
    ensures { result ≡ centre_of lo offset }
{
    if lo < offset {
        return 0;
    }
    (lo - offset) / 8_388_608
}

fn answer_image(m: Marks, n: Numbers) -> [u8; 52]
    ensures { result ≡ answer_bytes m n }
{
    let centre = centre_mark(m, n);
    let mut image = [0u8; 52];
    wire::put(&mut image, 0, m.oscillator as u64, 1);
    wire::put(&mut image, 1, m.offset as u64, 1);
    wire::put(&mut image, 2, m.rate as u64, 1);
    wire::put(&mut image, 3, m.ddc as u64, 1);
    wire::put(&mut image, 4, m.lock as u64, 1);
    wire::put(&mut image, 5, centre as u64, 1);
    wire::put(&mut image, 6, if_sure(m.ddc, n.ddc as u64), 1);
    wire::put(&mut image, 7, 0, 1);
    wire::put(&mut image, 8, n.tries as u64, 4);
    wire::put(&mut image, 12, if_sure(m.offset, n.word as u64), 4);
    wire::put(&mut image, 16, if_sure(m.rate, n.ratio as u64), 4);
    wire::put(&mut image, 20, if_sure(m.rate, n.rate), 8);
    wire::put(&mut image, 28, if_sure(m.oscillator, n.oscillator), 8);
    wire::put(&mut image, 36, if_sure(m.offset, n.offset), 8);
    wire::put(
        &mut image,
        44,
        if_sure(centre, centre_of(n.oscillator, n.offset)),
        8,
    );
    image
}

// "which frequency was recorded, at which rate, locked or not, and whether to trust it": the answer's 52 bytes in the lent slice.
pub fn evidence(sections: &[u8], address: u8, r: u32, xtal: u32, out: &mut [u8]) -> Answer
    ensures { given result out.new ≡ evidence_into sections.now address r xtal out.old }
{
    if (r == 0) | (xtal == 0) {
        return Answer::Refused(refusals::CORRECTION);
    }
    let mut seen = Seen {
        chip: [None; 32],
        demod: [None; 32],
        waiting: Waiting {
            stage: Stage::Open,
            lock: 0,
            tries: 0,
        },
    };
    let refusal = walked(sections, address, &mut seen);
    if refusal != 0 {
        return Answer::Refused(refusal);
    }
    let m = marks_in(&seen);
    let n = numbers_in(&seen, r, xtal);
    let image = answer_image(m, n);
    refusals::lend(0, 0, &image, out)
}
