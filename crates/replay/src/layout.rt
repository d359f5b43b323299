// Where everything stands in a case: docs/VECTORS.md, "Layout". A reader past the end answers 0 or nothing; `whole` says that none reads there.
ghost use Rattle.std.specs.Prelude.{◌≡◌, ◌+◌, ◌*◌, ◌^◌, ◌<◌, ◌≤◌, true, length};
ghost use Rattle.replay.specs.Agreement.{number_at, cut_of, flagged, size_at, start_at, part_of};

pub const CALL: usize = 4;

pub const REFUSAL: usize = 6;

pub const FLAGS: usize = 7;

pub const A: usize = 8;

pub const B: usize = 16;

pub const C: usize = 24;

pub const D: usize = 32;

pub const E: usize = 36;

pub const VALUE: usize = 40;

pub const INDEX: usize = 48;

pub const COUNT: usize = 50;

pub const ROOM: usize = 52;

// The parts, in their order.
pub const OUTCOMES: usize = 0;

pub const REPLIES: usize = 1;

pub const TUNER: usize = 2;

pub const DRIVER: usize = 3;

pub const INPUT: usize = 4;

pub const SECTION: usize = 5;

pub const NEXT_TUNER: usize = 6;

pub const NEXT_DRIVER: usize = 7;

pub const ANSWERED: usize = 8;

fn number(c: &[u8], at: usize, k: usize) -> u64
    requires { (at < 4096) × (k ≤ 8) }
    ensures { (result ≡ number_at c.now at k) × (result < 256 ^ k) }
{
    if at + k <= c.len() {
        return wire::get(c, at, k);
    }
    0
}

pub fn one(c: &[u8], at: usize) -> u64
    requires { at < 4096 }
    ensures { (result ≡ number_at c.now at 1) × (result < 256) }
{
    number(c, at, 1)
}

pub fn two(c: &[u8], at: usize) -> usize
    requires { at < 4096 }
    ensures { (result ≡ number_at c.now at 2) × (result < 65536) }
{
    number(c, at, 2) as usize
}

pub fn four(c: &[u8], at: usize) -> u64
    requires { at < 4096 }
    ensures { (result ≡ number_at c.now at 4) × (result < 4294967296) }
{
    number(c, at, 4)
}

pub fn eight(c: &[u8], at: usize) -> u64
    requires { at < 4096 }
    ensures { result ≡ number_at c.now at 8 }
{
    number(c, at, 8)
}

// How long a part is that stands there only where its bit of the flags is set: `bit` is 1, 2 or 4.
fn flag(c: &[u8], bit: u64, n: usize) -> usize
    requires { 0 < bit }
    ensures { (result ≡ flagged c.now bit n) × (result ≤ n) }
{
    if one(c, FLAGS) / bit % 2 == 1 {
        return n;
    }
    0
}

fn size(c: &[u8], k: usize) -> usize
    requires { k < 9 }
    ensures { (result ≡ size_at c.now k) × (result < 2097152) }
{
    if k == SECTION {
        return flag(c, 1, 16 * two(c, COUNT) + 8);
    }
    if k == NEXT_TUNER {
        return flag(c, 2, 78);
    }
    if k == NEXT_DRIVER {
        return flag(c, 4, 29);
    }
    if k == ANSWERED {
        return two(c, 64);
    }
    two(c, 54 + 2 * k)
}

pub fn start(c: &[u8], k: usize) -> usize
    requires { k ≤ 9 }
    ensures { result ≡ start_at c.now k }
{
    let mut at = 72;
    for i in 0..k {
        at += size(c, i);
    }
    at
}

// Whether the parts fill the case exactly, and what is to be zero is.
pub fn whole(c: &[u8]) -> bool
    ensures { result ≡ true → start_at c.now 9 ≡ length c.now }
{
    if start(c, 9) == c.len() {
        return (four(c, 66) == 0) & (two(c, 70) == 0);
    }
    false
}

pub fn cut(c: &[u8], from: usize, to: usize) -> &[u8]
    ensures { result.now ≡ cut_of c.now from to }
{
    if to < from {
        return &c[0..0];
    }
    if c.len() < to {
        return &c[0..0];
    }
    &c[from..to]
}

pub fn part(c: &[u8], k: usize) -> &[u8]
    requires { k < 9 }
    ensures { result.now ≡ part_of c.now k }
{
    cut(c, start(c, k), start(c, k + 1))
}
