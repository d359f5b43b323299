// Where two sections part: the first step that differs, and the entries from there. Ours: no file of the Rust has it. Document 02, #114, "Where two
// nights part". It leans on the reader of sections alone, and so can be asked of any two transcripts.

#![tactic(auto)]

ghost use Rattle.std.specs.Prelude.{◌≡◌, [], ◌+◌, ◌*◌, ◌≤◌, length, take, drop};
ghost use Rattle.transcript.specs.Entries.{entry_of};
ghost use Rattle.transcript.specs.Sections.{entries_in};
ghost use Rattle.parting.specs.Parting.{agree, alike, cut_of, nowhere, parting_of, placed, rest_of};

use transcript::Section;

// The part that is handed back: `count` entries from byte `start` of one of the two slices, 1 the first and 2 the second; `index` entries before it are
// alike in both. Refused, it is nobody's: 0, and no entry.
#[repr(C)]
#[derive(Clone, Copy)]
pub struct Place {
    pub start: usize,
    pub count: usize,
    pub index: usize,
    pub whose: u32,
    pub refusal: u32,
}

// Whether the entries in 16 bytes each are the same step: neither outcome counts, nor what a read gave. The bytes are compared where they lie, the eight data
// bytes as one number.
fn same_step(e: &[u8], f: &[u8]) -> bool
    requires { (length e.now ≡ 16) × (length f.now ≡ 16) }
    ensures { result ≡ alike (entry_of e.now) (entry_of f.now) }
{
    let read = (e[0] == transcript::I2C_READ) | (e[0] == transcript::READ);
    (e[0] == f[0])
        & (e[2] == f[2])
        & (e[3] == f[3])
        & (wire::get(e, 4, 2) == wire::get(f, 4, 2))
        & (read | (wire::eight(e, 8) == wire::eight(f, 8)))
}

// How many of m entries from a, and of n from b, are alike from the first on.
fn alike_from(x: &[u8], a: usize, m: usize, y: &[u8], b: usize, n: usize) -> usize
    requires { ((m ≤ 4096) × (a + 16 * m ≤ length x.now)) × ((n ≤ 4096) × (b + 16 * n ≤ length y.now)) }
    ensures { result ≡ agree (entries_in m (drop a x.now)) (entries_in n (drop b y.now)) }
{
    let most = m.min(n);
    for k in 0..most {
        let i = a + 16 * k;
        let j = b + 16 * k;
        if !same_step(&x[i..i + 16], &y[j..j + 16]) {
            return k;
        }
    }
    most
}

fn place_by(a: usize, m: usize, b: usize, n: usize, k: usize) -> Place
    requires { ((m ≤ 4096) × (a + 16 * m ≤ 18446744073709551615)) × ((n ≤ 4096) × (b + 16 * n ≤ 18446744073709551615)) × ((k ≤ m) × (k ≤ n)) }
    ensures { result ≡ placed a m b n k }
{
    if (n <= k) & (k < m) {
        return Place {
            start: a + 16 * k,
            count: m - k,
            index: k,
            whose: 1,
            refusal: 0,
        };
    }
    Place {
        start: b + 16 * k,
        count: n - k,
        index: k,
        whose: 2,
        refusal: 0,
    }
}

fn refused() -> Place
    ensures { result ≡ nowhere }
{
    Place {
        start: 0,
        count: 0,
        index: 0,
        whose: 0,
        refusal: refusals::SECTION as u32,
    }
}

// Where the sections at the end of two slices part, and whose part follows.
pub fn parting(first: &[u8], second: &[u8]) -> Place
    ensures { result ≡ parting_of first.now second.now }
{
    let Some(Section { start: a, count: m }) = transcript::read_section(first) else {
        return refused();
    };
    let Some(Section { start: b, count: n }) = transcript::read_section(second) else {
        return refused();
    };
    let k = alike_from(first, a, m, second, b, n);
    place_by(a, m, b, n, k)
}

// `count` entries from `start`; nothing where they do not lie in the slice.
fn cut(s: &[u8], start: usize, count: usize) -> &[u8]
    ensures { result.now ≡ cut_of start count s.now }
{
    if s.len() < start {
        return &s[0..0];
    }
    if (s.len() - start) / 16 < count {
        return &s[0..0];
    }
    &s[start..start + 16 * count]
}

// The part itself, of the slice that it is the part of: one lifetime names both, since either may be handed back.
pub fn rest<'a>(first: &'a [u8], second: &'a [u8], place: Place) -> &'a [u8]
    ensures { result.now ≡ rest_of first.now second.now place }
{
    if place.whose == 1 {
        return cut(first, place.start, place.count);
    }
    cut(second, place.start, place.count)
}
