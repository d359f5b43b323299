// The arithmetic of gain: `set_gain`, `set_gain_by_index`, `get_gain_table` and both tables of src/tuners/r82xx.rs. The writes are not here.
// Document 01, "Gain", and "Language forms by place": "f32 product, truncated by the program from its bits with saturation and NaN cases;
// the answer step / 10 is exact per one rounded division."

#![tactic(auto)]

ghost use Rattle.std.specs.Prelude.{◌≡◌, map, ◌^◌, ◌<◌, min, pos};
ghost use Rattle.std.specs.Float.Ieee as Ieee;
ghost use Rattle.gain.specs.Product.{gain_of, tenths_of, whole_part};
ghost use Rattle.gain.specs.Steps.{chosen_of, clamped, nearest_of, step_at, steps};
ghost use Rattle.gain.specs.Table.{entry_at};

mod tables;

use tables::{GAIN_STEPS, GAIN_TABLE, MIDDLES};

// What a step writes to the low noise amplifier, the mixer and the variable gain amplifier.
#[derive(Clone, Copy)]
pub struct GainEntry {
    pub lna: u8,
    pub mix: u8,
    pub vga: u8,
}

// What a pattern's exponent and digits have before the point, but no more than 2^31. Up to 2^24 digits fall off, from there zeros follow.
fn whole_part(field: u32, digits: u32) -> u32
    requires { (field < 256) × (digits < 0x80_0000) }
    ensures { result ≡ min (whole_part field digits) (2 ^ 31) }
{
    let full = digits + 0x80_0000;
    if field < 127 {
        return 0;
    }
    if field < 151 {
        return full >> (150 - field);
    }
    if field < 158 {
        return full << (field - 150);
    }
    0x8000_0000
}

// The Rust's `x as i32`, for every x.
fn truncated(x: f32) -> i32
    ensures { result ≡ Ieee.to_signed 31 x }
{
    if x != x {
        return 0;
    }
    let bits = f32::to_bits(x);
    let size = whole_part(bits / 0x80_0000 % 256, bits % 0x80_0000);
    if bits < 0x8000_0000 {
        if size < 0x8000_0000 {
            return size as i32;
        }
        return 0x7fff_ffff;
    }
    if size == 0 {
        return 0;
    }
    -1 - ((size - 1) as i32)
}

pub fn tenths(db: f32) -> i32
    ensures { result ≡ tenths_of db }
{
    truncated(db * 10.0)
}

// `min_by_key` over the steps: they ascend, so the nearest one's index is how many middles lie below t (on a tie t is a middle, and the lower step's).
// Document 01 wants loops for `min_by_key`; one that only counts, with no early return, the compiler can run over several entries at once.
fn nearest_up(t: u32) -> usize
    ensures { result ≡ nearest_of (pos t) }
{
    let table = MIDDLES;
    let mut n: u32 = 0;
    for k in 0..28 {
        n += (table[k] < t) as u32;
    }
    n as usize
}

// The Rust's difference overflows far below zero; every t below zero is nearest to step 0.
fn nearest(t: i32) -> usize
    ensures { result ≡ nearest_of t }
{
    if t < 0 {
        return 0;
    }
    nearest_up(t as u32)
}

// The index that `set_gain` takes for a gain in dB.
pub fn choose(db: f32) -> usize
    ensures { result ≡ chosen_of db }
{
    nearest(tenths(db))
}

// The index that `set_gain_by_index` takes.
pub fn choose_index(k: usize) -> usize
    ensures { result ≡ clamped k }
{
    k.min(28)
}

// The gain in dB that a call answers and the record holds.
pub fn gain_at(k: usize) -> f32
    requires { k < 29 }
    ensures { result ≡ gain_of (step_at k) }
{
    (GAIN_STEPS[k] as f32) / 10.0
}

pub fn entry_at(k: usize) -> GainEntry
    requires { k < 29 }
    ensures { result ≡ entry_at k }
{
    GAIN_TABLE[k]
}

// The steps once more: `GAIN_STEPS.map(i32::from)` was tried, and its proof did not close.
pub fn get_gain_table() -> [i32; 29]
    ensures { result ≡ map pos steps }
{
    [
        0, 9, 14, 27, 37, 77, 87, 125, 144, 157, 166, 197, 207, 229, 254, 280, 297, 328, 338, 364,
        372, 386, 402, 421, 434, 439, 445, 480, 496,
    ]
}
