// The arithmetic of the PLL, from `set_pll_raw` of src/tuners/r82xx.rs: divider, N, register 0x14, F and the sum S.
// Document 01, "PLL"; its lines stand above the definitions of specs/. Each result is one equation with such a definition. The least N is
// document 02's, #111: the Rust takes a smaller one.

#![tactic(auto)]

ghost use Rattle.std.specs.Prelude.{◌≡◌, ◌^◌, ◌<◌, ◌≤◌};
ghost use Rattle.pll.specs.Divide.{divider_of};
ghost use Rattle.pll.specs.Setting.{quarter_of, setting_of};
ghost use Rattle.pll.specs.Fraction.{turn_of, sum_of};
ghost use Rattle.pll.specs.Plan.{cap_of, plan_of};

pub const VCO_MIN: u64 = 1_770_000_000;

pub const VCO_MAX: u64 = 3_600_000_000;

// The least N that the byte for register 0x14 can tell.
const LEAST: u64 = 13;

#[derive(Clone, Copy, PartialEq, Eq)]
pub enum Kind {
    R820T,
    R828D,
}

// The first right divider, upward from 2, with its number for register 0x10. Below VCO_MAX / 2 only the lower bounds are left to test:
// a divider was passed over because it is too small, so twice it is not too large. No product is made, so none overflows.
// Tests with constants, one below the other: a table with a search in it would be no plainer.
#[tactic(auto, using(crate::proofs::Dividers::intervals))]
pub fn divider(lo: u64) -> Option<(u64, u8)>
    ensures { result ≡ divider_of lo }
{
    if VCO_MAX / 2 <= lo {
        return None;
    }
    if VCO_MIN / 2 <= lo {
        return Some((2, 0));
    }
    if VCO_MIN / 4 <= lo {
        return Some((4, 1));
    }
    if VCO_MIN / 8 <= lo {
        return Some((8, 2));
    }
    if VCO_MIN / 16 <= lo {
        return Some((16, 3));
    }
    if VCO_MIN / 32 <= lo {
        return Some((32, 4));
    }
    if VCO_MIN / 64 <= lo {
        return Some((64, 5));
    }
    None
}

// The largest N: 128 / (the Rust's vco_power_ref) - 1.
fn cap(kind: Kind) -> u64
    ensures { result ≡ cap_of kind }
{
    match kind {
        Kind::R820T => 63,
        Kind::R828D => 127,
    }
}

// a: 0 below 13, where the subtraction stops.
fn quarter(n: u64) -> u64
    ensures { result ≡ quarter_of n }
{
    n.saturating_sub(13) / 4
}

// The byte for register 0x14.
#[tactic(auto, unfolding(crate::specs::Setting::setting_of))]
fn setting(n: u64) -> u8
    requires { n < 128 }
    ensures { result ≡ setting_of n }
{
    let a = quarter(n) as u8;
    let s = (n as u8).wrapping_sub(13 + 4 * a);
    a | (s << 6)
}

// S so far, what is left of F, and whether the turns have ended. No Option is plainer: sum and rest count after the end too.
#[derive(Clone, Copy)]
pub struct Sum {
    pub sum: u64,
    pub rest: u64,
    pub stopped: bool,
}

#[tactic(auto, unfolding(crate::specs::Fraction::turn_of))]
fn turn(k: u64, n: u64, s: Sum) -> Sum
    requires { (k < 2 ^ 32) × (2 ≤ n) × (s.sum < 2 ^ 40) }
    ensures { result ≡ turn_of k n s }
{
    let stopped = s.stopped;
    if stopped {
        return s;
    }
    let rest = s.rest;
    if rest <= 1 {
        return s;
    }
    let quotient = 2 * k / n;
    if rest <= quotient {
        return s;
    }
    let weight = 32_768 / (n / 2);
    Sum {
        sum: s.sum + weight,
        rest: rest - quotient,
        stopped: 32_768 <= n,
    }
}

fn fraction(k: u64, f: u64) -> Sum
    requires { k < 2 ^ 32 }
    ensures { result ≡ sum_of k f }
{
    let mut s = Sum {
        sum: 0,
        rest: f,
        stopped: false,
    };
    let mut n: u64 = 2;
    for _ in 0..16_u64 {
        s = turn(k, n, s);
        n *= 2;
    }
    s
}

// What a tuning of the PLL sends: the divider and its number, N, the byte of 0x14, F, S and the rest of F.
#[derive(Clone, Copy)]
pub struct Plan {
    pub m: u64,
    pub number: u8,
    pub n: u8,
    pub setting: u8,
    pub fraction: u64,
    pub sum: u16,
    pub rest: u64,
}

// The plan for the oscillator's frequency `lo` at the reference `r`. A reference of zero, which no record holds, is refused too.
pub fn plan_pll(kind: Kind, lo: u64, r: u32) -> Option<Plan>
    ensures { result ≡ plan_of kind lo r }
{
    if r == 0 {
        return None;
    }
    let (m, number) = divider(lo)?;
    let wide = r as u64;
    let vco = lo * m;
    let n = vco / (2 * wide);
    if n < LEAST {
        return None;
    }
    if cap(kind) < n {
        return None;
    }
    let f = (vco - 2 * wide * n) / 1000;
    let byte = setting(n);
    let end = fraction(wide / 1000, f);
    let sum = end.sum;
    let rest = end.rest;
    let small = n as u8;
    let short = sum as u16;
    Some(Plan {
        m,
        number,
        n: small,
        setting: byte,
        fraction: f,
        sum: short,
        rest,
    })
}
