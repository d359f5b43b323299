// The technicians' worksheet: the plan of the PLL worked out by two tables, row by row. Ours: the Rust has no such engine. Document 02, #111: "a
// table of six lo ranges for the divider, and the fractional sum written out step by step. Add it as a second engine". It calls nothing of
// crate pll; proofs/Agree.antt shows that both give the same.

#![tactic(auto)]

ghost use Rattle.std.specs.Prelude.{◌≡◌, ◌<◌, ◌≤◌, ◌^◌};
ghost use Rattle.pll.specs.Plan.{cap_of};
ghost use Rattle.worksheet.specs.Sheet.{band_of, byte_of, divider_on, line_of, sheet_of, sum_on, filled_by};

use pll::{Kind, Plan};

// A range of lo: its first, its last, its divider.
#[derive(Clone, Copy)]
pub struct Band(pub u64, pub u64, pub u64);

pub const BANDS: [Band; 6] = [
    Band(885_000_000, 1_799_999_999, 2),
    Band(442_500_000, 884_999_999, 4),
    Band(221_250_000, 442_499_999, 8),
    Band(110_625_000, 221_249_999, 16),
    Band(55_312_500, 110_624_999, 32),
    Band(27_656_250, 55_312_499, 64),
];

// A line of the sum: by what 2K is divided, what is added to S, and whether the sum ends where it is.
#[derive(Clone, Copy)]
pub struct Line(pub u64, pub u64, pub bool);

pub const LINES: [Line; 16] = [
    Line(2, 32_768, false),
    Line(4, 16_384, false),
    Line(8, 8_192, false),
    Line(16, 4_096, false),
    Line(32, 2_048, false),
    Line(64, 1_024, false),
    Line(128, 512, false),
    Line(256, 256, false),
    Line(512, 128, false),
    Line(1_024, 64, false),
    Line(2_048, 32, false),
    Line(4_096, 16, false),
    Line(8_192, 8, false),
    Line(16_384, 4, false),
    Line(32_768, 2, true),
    Line(65_536, 1, true),
];

// The divider so far, and after one more range. 0: lo stood in no range.
#[tactic(auto, unfolding(crate::specs::Sheet::band_of))]
fn in_band(lo: u64, m: u64, b: Band) -> u64
    ensures { result ≡ band_of lo m b }
{
    if lo < b.0 {
        return m;
    }
    if b.1 < lo {
        return m;
    }
    b.2
}

fn divider(lo: u64) -> u64
    ensures { result ≡ divider_on lo }
{
    let mut m = 0;
    for &b in &BANDS {
        m = in_band(lo, m, b);
    }
    m
}

// The sum so far: S, what is left of F, and whether it has ended. No Option is plainer: both numbers count after the end too.
#[derive(Clone, Copy)]
pub struct Work {
    pub sum: u64,
    pub left: u64,
    pub ended: bool,
}

#[tactic(auto, unfolding(crate::specs::Sheet::line_of))]
fn worked_line(k: u64, w: Work, l: Line) -> Work
    requires { (k < 2 ^ 32) × (0 < l.0) × (l.1 ≤ 32768) × (w.sum < 2 ^ 40) }
    ensures { result ≡ line_of k w l }
{
    let ended = w.ended;
    if ended {
        return w;
    }
    let left = w.left;
    if left <= 1 {
        return w;
    }
    let share = 2 * k / l.0;
    if left <= share {
        return w;
    }
    Work {
        sum: w.sum + l.1,
        left: left - share,
        ended: l.2,
    }
}

fn summed(k: u64, f: u64) -> Work
    requires { k < 2 ^ 32 }
    ensures { result ≡ sum_on k f }
{
    let mut w = Work {
        sum: 0,
        left: f,
        ended: false,
    };
    for &l in &LINES {
        w = worked_line(k, w, l);
    }
    w
}

// As pll's cap, and written again on purpose: this engine is a second one, and calls nothing of the first.
fn most(kind: Kind) -> u64
    ensures { result ≡ cap_of kind }
{
    match kind {
        Kind::R820T => 63,
        Kind::R828D => 127,
    }
}

// The byte for register 0x14, of an N from 13 on.
fn byte(n: u64) -> u8
    requires { (13 ≤ n) × (n < 128) }
    ensures { result ≡ byte_of n }
{
    ((n - 13) % 4 * 64 + (n - 13) / 4) as u8
}

// A sheet filled in: the divider, N, the byte for 0x14, S and what is left of F.
#[derive(Clone, Copy)]
pub struct Sheet {
    pub m: u64,
    pub n: u8,
    pub setting: u8,
    pub sum: u16,
    pub rest: u64,
}

// The sheet for the oscillator's frequency `lo` at the reference `r`.
#[tactic(auto, using(crate::proofs::Cases::cases))]
pub fn fill(kind: Kind, lo: u64, r: u32) -> Option<Sheet>
    ensures { result ≡ sheet_of kind lo r }
{
    if r == 0 {
        return None;
    }
    let m = divider(lo);
    if m == 0 {
        return None;
    }
    let wide = r as u64;
    let vco = lo * m;
    let n = vco / (2 * wide);
    if n < 13 {
        return None;
    }
    if most(kind) < n {
        return None;
    }
    let setting = byte(n);
    let end = summed(wide / 1000, vco % (2 * wide) / 1000);
    let s = end.sum;
    let rest = end.left;
    let small = n as u8;
    let short = s as u16;
    Some(Sheet {
        m,
        n: small,
        setting,
        sum: short,
        rest,
    })
}

// What of a plan of crate pll stands on a sheet.
pub fn filled_by(plan: Option<Plan>) -> Option<Sheet>
    ensures { result ≡ filled_by plan }
{
    plan.map(|p| Sheet {
        m: p.m,
        n: p.n,
        setting: p.setting,
        sum: p.sum,
        rest: p.rest,
    })
}
