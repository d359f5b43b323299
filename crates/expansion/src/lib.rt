// A section of a transcript as setup packets for the replay box, and packets as a section again. Ours: the Rust sends them and keeps none. Document 02, #107.
// Both ways judge and measure first, then test the room, then write, so that what is refused leaves the lent bytes as they were. Crate packets knows one entry.

#![tactic(auto)]

ghost use Rattle.std.specs.Prelude.{◌≡◌, true, map, ◌+◌, ◌*◌, ◌≤◌, length, drop};
ghost use Rattle.std.proofs.lemmas.List.Edits.{sets};
ghost use Rattle.transcript.specs.Entries.{bare};
ghost use Rattle.transcript.specs.Sections.{all_fit, entries_in, section_bytes};
ghost use Rattle.refusals.specs.Lent.{given};
ghost use Rattle.expansion.specs.Expansion.{all_expand, all_heard, count_of, expand_into, expanded, heard_entries, read_into, size_of};

use refusals::Answer;
use transcript::{Entry, Section};

// How many bytes the entries from `start` become; none where one of them has no packets.
fn measured(s: &[u8], start: usize, count: usize) -> Option<usize>
    requires { (count ≤ 4096) × (start + 16 * count ≤ length s.now) × (all_fit count (drop start s.now) ≡ true) }
    ensures { result ≡ size_of (entries_in count (drop start s.now)) }
{
    let mut size: usize = 0;
    for i in 0..count {
        let e = Entry::get(s, start + 16 * i);
        if !packets::expands(e) {
            return None;
        }
        size += packets::size(e);
    }
    Some(size)
}

// Their packets, from the start of `out`.
fn write_packets(s: &[u8], start: usize, count: usize, out: &mut [u8])
    requires { (count ≤ 4096) × (start + 16 * count ≤ length s.now) × (all_fit count (drop start s.now) ≡ true)
        × (length (expanded (entries_in count (drop start s.now))) ≤ length out.old) }
    ensures { out.new ≡ sets out.old 0 (expanded (entries_in count (drop start s.now))) }
{
    let mut at: usize = 0;
    for i in 0..count {
        let e = Entry::get(s, start + 16 * i);
        packets::put(e, out, at);
        at += packets::size(e);
    }
}

// "Expand a section into 8-byte setup packets of USB 2.0 with their data bytes": the section at the end of the slice.
pub fn expand(section: &[u8], out: &mut [u8]) -> Answer
    ensures { given result out.new ≡ expand_into section.now out.old }
{
    let Some(Section { start, count }) = transcript::read_section(section) else {
        return Answer::Refused(refusals::SECTION);
    };
    let Some(size) = measured(section, start, count) else {
        return Answer::Refused(refusals::EXPANSION);
    };
    if out.len() < size {
        return Answer::Refused(refusals::ROOM);
    }
    write_packets(section, start, count, out);
    Answer::Done(size as u64)
}

// How many entries the packets are of; none where they are of no section. Each entry's packets have their own size, so the loop goes by bytes.
fn counted(b: &[u8]) -> Option<usize>
    ensures { result ≡ count_of b.now }
{
    let mut at: usize = 0;
    let mut i: usize = 0;
    while at < b.len() {
        if i == 4096 {
            return None;
        }
        let h = packets::hear(b, at)?;
        at += h.size;
        i += 1;
    }
    Some(i)
}

// Their section, from the start of `out`.
fn write_section(b: &[u8], out: &mut [u8])
    requires { (all_heard 4096 b.now ≡ true) × (16 * length (heard_entries 4096 b.now) + 8 ≤ length out.old) }
    ensures { out.new ≡ sets out.old 0 (section_bytes (map bare (heard_entries 4096 b.now))) }
{
    let mut at: usize = 0;
    let mut i: usize = 0;
    while let Some(h) = packets::hear(b, at) {
        h.entry.put(out, 16 * i);
        at += h.size;
        i += 1;
    }
    transcript::seal(out, i);
}

// "Reading the packets back gives the entries again": their section.
pub fn read_packets(packets: &[u8], out: &mut [u8]) -> Answer
    ensures { given result out.new ≡ read_into packets.now out.old }
{
    let Some(count) = counted(packets) else {
        return Answer::Refused(refusals::EXPANSION);
    };
    let size = 16 * count + 8;
    if out.len() < size {
        return Answer::Refused(refusals::ROOM);
    }
    write_section(packets, out);
    Answer::Done(size as u64)
}
