// Entries and sections of a transcript: the table of kinds, how entries and sections are written, and the reader that starts
// from the end of a slice. Ours: no file of the Rust has it. Document 01, "Transcript and script".

#![tactic(auto)]

ghost use Rattle.std.specs.Prelude.{◌≡◌, ◌+◌, ◌*◌, ◌≤◌, ◌<◌, length, take, drop};
ghost use Rattle.std.proofs.lemmas.List.Edits.{sets};
ghost use Rattle.wire.specs.Bytes.{le_bytes};
ghost use Rattle.transcript.specs.Table.{row_fits};
ghost use Rattle.transcript.specs.Entries.{entry_bytes, entry_of, zeros, kept_by, fits};
ghost use Rattle.transcript.specs.Sections.{trailer_bytes, all_fit, section_of, entries_of, before_of, refusal_of};

// The kinds of document 01's table.
pub const REPEATER: u8 = 1;

pub const I2C_WRITE: u8 = 2;

pub const I2C_READ: u8 = 3;

pub const DEMOD: u8 = 4;

pub const DEMOD16: u8 = 5;

pub const BLOCK: u8 = 6;

pub const BLOCK16: u8 = 7;

pub const READ: u8 = 8;

pub const WAIT: u8 = 9;

// "An entry has 16 bytes: kind, outcome (0 done, 1 failed), target, n, address (u16, low byte first), two zeros, eight data
// bytes padded with zeros." The bytes here are the eight, with their zeros.
#[derive(Clone, Copy)]
pub struct Entry {
    pub kind: u8,
    pub outcome: u8,
    pub target: u8,
    pub n: u8,
    pub address: u16,
    pub bytes: [u8; 8],
}

// The table of kinds, a line for each. What any byte fits is not tested.
fn row_fits(k: u8, o: u8, t: u8, n: u8, a: u32, b: u8) -> bool
    ensures { result ≡ row_fits k o t n a b }
{
    match k {
        REPEATER => (o <= 1) & (t <= 0) & (1 <= n) & (n <= 1) & (a <= 0) & (b <= 1),
        I2C_WRITE => (o <= 1) & (1 <= n) & (n <= 8) & (a <= 0),
        I2C_READ => (o <= 1) & (1 <= n) & (n <= 5) & (a <= 0),
        DEMOD => (o <= 1) & (1 <= n) & (n <= 1) & (a <= 65535),
        DEMOD16 => (o <= 1) & (2 <= n) & (n <= 2) & (a <= 65535),
        BLOCK => (o <= 1) & (1 <= n) & (n <= 1) & (a <= 65535),
        BLOCK16 => (o <= 1) & (2 <= n) & (n <= 2) & (a <= 65535),
        READ => (o <= 1) & (1 <= n) & (n <= 1) & (a <= 65535),
        WAIT => (o <= 0) & (t <= 0) & (n <= 0) & (a <= 65535) & (b <= 0),
        _ => false,
    }
}

// How many data bytes an entry keeps: none of a failed read.
fn kept_by(k: u8, o: u8, n: u8) -> usize
    ensures { result ≡ kept_by k o n }
{
    if ((k == I2C_READ) | (k == READ)) & (0 < o) {
        return 0;
    }
    n as usize
}

// Whether the eight data bytes, as one number, are zeros from `kept` on.
fn padded(d: u64, kept: usize) -> bool
    ensures { result ≡ zeros (drop kept (le_bytes 8 d)) }
{
    if 7 < kept {
        return true;
    }
    (d >> (8 * kept)) == 0
}

impl Entry {
    // The entry's 16 bytes, from `at`.
    pub fn put(self, s: &mut [u8], at: usize)
        requires { at + 16 ≤ length s.old }
        ensures { s.new ≡ sets s.old at (entry_bytes self) }
    {
        let low = (self.address % 256) as u8;
        let high = (self.address / 256) as u8;
        let head = [
            self.kind,
            self.outcome,
            self.target,
            self.n,
            low,
            high,
            0,
            0,
        ];
        wire::copy(s, at, &head);
        wire::copy(s, at + 8, &self.bytes);
    }

    // The entry that stands in the 16 bytes from `at`, as they are.
    pub fn get(s: &[u8], at: usize) -> Entry
        requires { at + 16 ≤ length s.now }
        ensures { result ≡ entry_of (take 16 (drop at s.now)) }
    {
        let e = &s[at..at + 16];
        let mut bytes = [0u8; 8];
        bytes.copy_from_slice(&e[8..16]);
        Entry {
            kind: e[0],
            outcome: e[1],
            target: e[2],
            n: e[3],
            address: wire::get(e, 4, 2) as u16,
            bytes,
        }
    }
}

// Writes the trailer after the `count` entries at the start of the room, which makes them a section.
pub fn seal(room: &mut [u8], count: usize)
    requires { (count ≤ 4096) × (16 * count + 8 ≤ length room.old) }
    ensures { room.new ≡ sets room.old (16 * count) (trailer_bytes count) }
{
    let at = 16 * count;
    wire::put(room, at, count as u64, 4);
    wire::put(room, at + 4, at as u64, 4);
}

// Whether the 16 bytes from `at` are an entry: its address and the two zeros behind it are one number here.
fn entry_fits(s: &[u8], at: usize) -> bool
    requires { at + 16 ≤ length s.now }
    ensures { result ≡ fits (take 16 (drop at s.now)) }
{
    let k = s[at];
    let o = s[at + 1];
    let n = s[at + 3];
    let a = wire::four(s, at + 4);
    let d = wire::eight(s, at + 8);
    row_fits(k, o, s[at + 2], n, a, s[at + 8]) & padded(d, kept_by(k, o, n))
}

fn all_fit(s: &[u8], at: usize, count: usize) -> bool
    requires { (count ≤ 4096) × (at + 16 * count ≤ length s.now) }
    ensures { result ≡ all_fit count (drop at s.now) }
{
    for i in 0..count {
        if !entry_fits(s, at + 16 * i) {
            return false;
        }
    }
    true
}

// Where a section stands in a slice: after `start` bytes, `count` entries of 16 bytes, then its trailer.
#[derive(Clone, Copy)]
pub struct Section {
    pub start: usize,
    pub count: usize,
}

// The refusal of a slice at whose end the reader finds no section; 0 where it finds one.
pub fn refusal_of(section: Option<Section>) -> u32
    ensures { result ≡ refusal_of section }
{
    match section {
        Some(_) => 0,
        None => refusals::SECTION as u32,
    }
}

// "The reader starts from the end of a slice, accepts exactly sections whose entries fit the table".
pub fn read_section(s: &[u8]) -> Option<Section>
    ensures { result ≡ section_of s.now }
{
    let n = s.len();
    if n < 8 {
        return None;
    }
    let trailer = n - 8;
    let count = wire::four(s, trailer) as usize;
    let distance = wire::four(s, trailer + 4) as usize;
    if 4096 < count {
        return None;
    }
    if distance != 16 * count {
        return None;
    }
    if trailer < distance {
        return None;
    }
    let start = trailer - distance;
    if all_fit(s, start, count) {
        Some(Section { start, count })
    } else {
        None
    }
}

// The bytes of the section's entries, without its trailer; refused: nothing.
pub fn section_entries(s: &[u8]) -> &[u8]
    ensures { result.now ≡ entries_of s.now }
{
    match read_section(s) {
        Some(Section { start, count }) => &s[start..start + 16 * count],
        None => &s[0..0],
    }
}

// What stands before the section; refused: nothing.
pub fn section_before(s: &[u8]) -> &[u8]
    ensures { result.now ≡ before_of s.now }
{
    match read_section(s) {
        Some(section) => &s[0..section.start],
        None => &s[0..0],
    }
}
