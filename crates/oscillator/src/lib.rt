// Where the oscillator stands, by the bytes of registers 0x10, 0x12, 0x14, 0x15 and 0x16: the PLL's arithmetic read backwards.
// Of no file of the Rust, which never asks.

#![tactic(auto)]

ghost use Rattle.std.specs.Prelude.{◌≡◌, cond, ◌+◌, ◌*◌};
ghost use Rattle.oscillator.specs.Registers.{five, hz_in, off};

// S, or nothing where bit 3 of 0x12 switches the fraction off.
pub fn sum(control: u8, low: u8, high: u8) -> u64
    ensures { result ≡ cond (off control) 0 (256 * high + low) }
{
    if (control / 8) % 2 == 1 {
        return 0;
    }
    256 * (high as u64) + (low as u64)
}

// In whole Hz, cut: the oscillator at the reference, by the bytes of 0x10, 0x12, 0x14, 0x15 and 0x16.
pub fn frequency(reference: u32, divider: u8, control: u8, whole: u8, low: u8, high: u8) -> u64
    ensures { result ≡ hz_in reference (five divider control whole low high) }
{
    let n = 13 + 4 * ((whole % 64) as u64) + ((whole / 64) as u64);
    let s = sum(control, low, high);
    let vco = 2 * (reference as u64) * (65_536 * n + s);
    vco / (131_072 << (divider / 32))
}
