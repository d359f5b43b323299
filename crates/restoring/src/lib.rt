// The restore list of sections end to end: where they left a chip's registers, as the fewest writes that say it. Ours: no file of the Rust has it.
// Document 02, #110. What the list is, and what is true of it, stands in crate restore. One walk from the end of the slice judges every section and
// gathers what is told of each register, newest first; the list is laid out beside it and lent last, so that what is refused leaves the lent bytes as they were.

#![tactic(auto)]

ghost use Rattle.std.specs.Prelude.{◌≡◌, true, Some, [], ◌∷◌, ◌+◌, ◌-◌, ◌*◌, ◌≤◌, ◌<◌, length, drop};
ghost use Rattle.std.proofs.lemmas.List.Edits.{sets};
ghost use Rattle.transcript.specs.Sections.{all_fit, entries_in, section_bytes};
ghost use Rattle.sections.specs.Chain.{chain, chain_entries};
ghost use Rattle.refusals.specs.Lent.{given};
ghost use Rattle.restore.specs.Restore.{list_by, refused_by, run_of, run_len, runs, slot, write_of};
ghost use Rattle.restoring.specs.Standing.{held_of, mark_of, next_sure, only, over, restore_into, sure_of, known_in};

use refusals::Answer;
use transcript::{Entry, Section};

// The last attempt at a register: the byte that was sent, and its mark, in vain (1) or done (2). A number, as `marked` takes any above 0
// (docs/DESIGN-PASS.md). What is told of registers 0x00 to 0x1f stands in an array that the walk lends on, `None` where nothing is told yet.
#[derive(Clone, Copy)]
pub struct Sent {
    pub byte: u8,
    pub mark: u8,
}

pub fn mark_of(ok: bool) -> u8
    ensures { result ≡ mark_of ok }
{
    if ok { 2 } else { 1 }
}

// How many registers one write of a list names at most.
const LONGEST: usize = 7;

// One register more that a write named. What is told already is newer.
pub fn marked(r: usize, sent: Sent, known: &mut [Option<Sent>; 32])
    ensures { known.new ≡ over (only r (Some sent)) 0 known.old }
{
    if r < 5 {
        return;
    }
    if 31 < r {
        return;
    }
    if known[r].is_none() {
        known[r] = Some(sent);
    }
}

// One entry more, older than those before it: the registers that it names upward from its first byte.
pub fn noted(e: Entry, address: u8, known: &mut [Option<Sent>; 32])
    requires { e.n ≤ 8 }
    ensures { known.new ≡ over (known_in address (e ∷ [])) 0 known.old }
{
    if e.kind != transcript::I2C_WRITE {
        return;
    }
    if e.target != address {
        return;
    }
    let mark = mark_of(e.outcome == 0);
    let bytes = e.bytes;
    let first = bytes[0] as usize;
    // Numbers past 0xff do not wrap: they are registers that no chip has.
    for j in 1..e.n as usize {
        let sent = Sent {
            byte: bytes[j],
            mark,
        };
        marked(first + j - 1, sent, known);
    }
}

// The entries of a section, from the last to the first.
fn noted_all(s: &[u8], start: usize, count: usize, address: u8, known: &mut [Option<Sent>; 32])
    requires { (count ≤ 4096) × (start + 16 * count ≤ length s.now) × (all_fit count (drop start s.now) ≡ true) }
    ensures { known.new ≡ over (known_in address (entries_in count (drop start s.now))) 0 known.old }
{
    for i in (0..count).rev() {
        let e = Entry::get(s, start + 16 * i);
        noted(e, address, known);
    }
}

// "From sections end to end in one slice, oldest first": the last section, then what stands before it, to the start of the slice. 12, or 0 and what they
// tell.
fn walked(s: &[u8], address: u8, known: &mut [Option<Sent>; 32]) -> u8
    ensures { (result ≡ refused_by s.now) × (chain s.now ≡ true → known.new
        ≡ over (known_in address (chain_entries s.now)) 0 known.old) }
{
    let mut end = s.len();
    // A `for` is no plainer: the end of what is left moves to where the last section starts.
    while 0 < end {
        let part = &s[0..end];
        let Some(Section { start, count }) = transcript::read_section(part) else {
            return refusals::SECTION;
        };
        noted_all(part, start, count, address, known);
        end = start;
    }
    0
}

fn sure(known: &[Option<Sent>; 32], r: usize) -> bool
    ensures { result ≡ sure_of known.now r }
{
    if r > 31 {
        return false;
    }
    match known[r] {
        Some(sent) => sent.mark == 2,
        None => false,
    }
}

// The next register that is sure, from i on. (`find` over the numbers was tried: its proof did not close.)
fn next_sure(known: &[Option<Sent>; 32], i: usize) -> Option<usize>
    ensures { result ≡ next_sure (sure_of known.now) (32 - i) i }
{
    for r in i..32 {
        if sure(known, r) {
            return Some(r);
        }
    }
    None
}

// How many registers a run from i on has.
fn run_len(known: &[Option<Sent>; 32], i: usize) -> usize
    requires { i < 32 }
    ensures { result ≡ run_len (sure_of known.now) 7 i }
{
    for k in 0..LONGEST {
        if !sure(known, i + k) {
            return k;
        }
    }
    LONGEST
}

// The byte that a sure register was left with; else 0.
fn byte_held(known: &[Option<Sent>; 32], r: usize) -> u8
    ensures { result ≡ held_of known.now r }
{
    if r > 31 {
        return 0;
    }
    match known[r] {
        Some(sent) if sent.mark == 2 => sent.byte,
        _ => 0,
    }
}

// The byte at place j of a run of m from i on, and zeros after the run.
fn byte_at(known: &[Option<Sent>; 32], i: usize, m: usize, j: usize) -> u8
    requires { (i < 32) × (j < 7) }
    ensures { result ≡ slot (held_of known.now) i m j }
{
    if m <= j {
        return 0;
    }
    byte_held(known, i + j)
}

// The write of a run: its first register, the run's bytes and zeros.
fn write_of(address: u8, known: &[Option<Sent>; 32], i: usize, m: usize) -> Entry
    requires { (i < 32) × (m ≤ 7) }
    ensures { result ≡ write_of address (held_of known.now) (run_of i m) }
{
    Entry {
        kind: transcript::I2C_WRITE,
        outcome: 0,
        target: address,
        n: m as u8 + 1,
        address: 0,
        bytes: [
            i as u8,
            byte_at(known, i, m, 0),
            byte_at(known, i, m, 1),
            byte_at(known, i, m, 2),
            byte_at(known, i, m, 3),
            byte_at(known, i, m, 4),
            byte_at(known, i, m, 5),
            byte_at(known, i, m, 6),
        ],
    }
}

// The list's section at the start of the room, and how long it is.
fn write_list(address: u8, known: &[Option<Sent>; 32], room: &mut [u8]) -> usize
    requires { 16 * length (runs (sure_of known.now) 32 0) + 8 ≤ length room.old }
    ensures { (result ≡ 16 * length (runs (sure_of known.now) 32 0) + 8)
        × (room.new ≡ sets room.old 0 (section_bytes (list_by address (sure_of known.now) (held_of known.now)))) }
{
    let mut k: usize = 0;
    let mut i: usize = 0;
    // A `for` is no plainer: a turn goes on behind its run.
    while let Some(first) = next_sure(known, i) {
        let m = run_len(known, first);
        write_of(address, known, first, m).put(room, 16 * k);
        k += 1;
        i = first + m;
    }
    transcript::seal(room, k);
    16 * k + 8
}

// "make a list of I2C writes that names each register not doubtful at the end once, with its byte": its section in the lent slice.
pub fn restore(sections: &[u8], address: u8, out: &mut [u8]) -> Answer
    ensures { given result out.new ≡ restore_into sections.now address out.old }
{
    let mut known = [None; 32];
    let refusal = walked(sections, address, &mut known);
    if refusal != 0 {
        return Answer::Refused(refusal);
    }
    let mut image = [0u8; 232];
    let size = write_list(address, &known, &mut image);
    refusals::lend(0, size as u64, &image[0..size], out)
}
