// Numbers as bytes, low byte first, at every width to 8; 32-bit signed numbers and binary32 by their bits; a copy into a
// slice. Ours: no file of the Rust has it. Document 01, "Transcript and script": "u16, low byte first", "u32, low byte
// first"; "Modules, leaves first": "Records cross there as bytes".

#![tactic(auto)]

ghost use Rattle.std.specs.Prelude.{◌≡◌, ◌+◌, ◌^◌, ◌≤◌, ◌<◌, length, take, drop};
ghost use Rattle.std.proofs.lemmas.List.Edits.{sets};
ghost use Rattle.std.specs.Float.Ieee.{of_bits, to_bits};
ghost use Rattle.std.specs.Float.{binary32};
ghost use Rattle.std.specs.Int.{w32};
ghost use Rattle.std.proofs.Common.{to_z, of_z};
ghost use Rattle.wire.specs.Bytes.{le_value, le_bytes};

// The number that stands in k bytes from `at`, lowest first: read from the highest down.
pub fn get(s: &[u8], at: usize, k: usize) -> u64
    requires { (k ≤ 8) × (at + k ≤ length s.now) }
    ensures { (result ≡ le_value (take k (drop at s.now))) × (result < 256 ^ k) }
{
    let mut n: u64 = 0;
    for i in (0..k).rev() {
        n = n * 256 + (s[at + i] as u64);
    }
    n
}

// The numbers of four and of eight bytes, each by one load. The bytes of `get`'s loop the compiler takes apart where they are tested.
pub fn four(s: &[u8], at: usize) -> u32
    requires { at + 4 ≤ length s.now }
    ensures { result ≡ le_value (take 4 (drop at s.now)) }
{
    u32::from_le_bytes([s[at], s[at + 1], s[at + 2], s[at + 3]])
}

pub fn eight(s: &[u8], at: usize) -> u64
    requires { at + 8 ≤ length s.now }
    ensures { result ≡ le_value (take 8 (drop at s.now)) }
{
    u64::from_le_bytes([
        s[at],
        s[at + 1],
        s[at + 2],
        s[at + 3],
        s[at + 4],
        s[at + 5],
        s[at + 6],
        s[at + 7],
    ])
}

// The low k bytes of n, lowest first, from `at`.
pub fn put(s: &mut [u8], at: usize, n: u64, k: usize)
    requires { at + k ≤ length s.old }
    ensures { s.new ≡ sets s.old at (le_bytes k n) }
{
    let mut rest = n;
    for i in 0..k {
        s[at + i] = (rest % 256) as u8;
        rest = rest / 256;
    }
}

// All of src, from `at` of dst.
pub fn copy(dst: &mut [u8], at: usize, src: &[u8])
    requires { at + length src.now ≤ length dst.old }
    ensures { dst.new ≡ sets dst.old at src.now }
{
    // An empty source asks the C library for nothing.
    if src.is_empty() {
        return;
    }
    dst[at..at + src.len()].copy_from_slice(src);
}

// A 32-bit signed number of its bits. The upper half counts down from -1.
pub fn to_signed(x: u32) -> i32
    ensures { result ≡ to_z w32 x }
{
    x.cast_signed()
}

// The bits of a 32-bit signed number.
pub fn to_bits(x: i32) -> u32
    ensures { result ≡ of_z w32 x }
{
    x.cast_unsigned()
}

// The binary32 of any bits. All NaN patterns are the one NaN, which `from_bits` is not asked for.
pub fn float_of(bits: u32) -> f32
    ensures { result ≡ of_bits binary32 bits }
{
    if 0x7f80_0000 < bits % 0x8000_0000 {
        return 0.0 / 0.0;
    }
    f32::from_bits(bits)
}

// The bits of any binary32; those of a NaN are 0x7fc00000.
pub fn bits_of(x: f32) -> u32
    ensures { result ≡ to_bits binary32 x }
{
    if x != x {
        return 0x7fc0_0000;
    }
    f32::to_bits(x)
}
