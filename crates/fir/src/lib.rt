// The FIR coefficients of the demodulator as its twenty register bytes, and back: `pack_fir` of src/demod.rs, for any sixteen coefficients.
// Document 01, "Demodulator": "Our packer takes any sixteen in range; our unpacker is its inverse." Refusal 7: "a FIR value past its width".

#![tactic(auto)]

ghost use Rattle.std.specs.Prelude.{◌≡◌, ◌+◌, ◌*◌, ◌/◌, ◌%◌, ◌<◌, ◌≤◌};
ghost use Rattle.std.specs.Int.Signed.{mag};
ghost use Rattle.std.specs.List.{list_all};
ghost use Rattle.fir.specs.Packing.{fir_default, fir_fits, low_of, pack_of, packed, signed_of, unpack_of, within};

// 0 and the bytes, or 7 and zeros. An enum must not hold the array.
#[derive(Clone, Copy)]
pub struct Packed {
    pub refusal: u8,
    pub bytes: [u8; 20],
}

// How far z lies from 0, or from -1 below zero.
fn size(z: i32) -> u32
    ensures { result ≡ mag z }
{
    if z < 0 {
        return (-1 - z) as u32;
    }
    z as u32
}

fn all_within(v: &[i32], half: u32) -> bool
    ensures { result ≡ list_all (within half) v.now }
{
    v.iter().all(|z| size(*z) < half)
}

fn in_range(v: [i32; 16]) -> bool
    ensures { result ≡ fir_fits v }
{
    all_within(&v[..8], 128) & all_within(&v[8..], 2048)
}

// The bits of z that a width holds.
fn low(z: i32, half: u32) -> u32
    requires { (0 < half) × (half ≤ 2048) }
    ensures { result ≡ low_of half z }
{
    let n = size(z) % (2 * half);
    if z < 0 {
        return 2 * half - 1 - n;
    }
    n
}

fn byte(z: i32) -> u8
    ensures { result ≡ low_of 128 z }
{
    low(z, 128) as u8
}

// Two coefficients of twelve bits in three bytes.
fn join(a: i32, b: i32) -> (u8, u8, u8)
    ensures { (result.0 ≡ low_of 2048 a / 16) × (result.1 ≡ low_of 2048 a % 16 * 16 + low_of 2048 b / 256) × (result.2 ≡ low_of 2048 b % 256) }
{
    let x = low(a, 2048);
    let y = low(b, 2048);
    (
        (x / 16) as u8,
        (x % 16 * 16 + y / 256) as u8,
        (y % 256) as u8,
    )
}

// The twenty bytes of any sixteen, each cut to its width.
fn bytes_of(v: [i32; 16]) -> [u8; 20]
    ensures { result ≡ pack_of v }
{
    let p = join(v[8], v[9]);
    let q = join(v[10], v[11]);
    let s = join(v[12], v[13]);
    let t = join(v[14], v[15]);
    [
        byte(v[0]),
        byte(v[1]),
        byte(v[2]),
        byte(v[3]),
        byte(v[4]),
        byte(v[5]),
        byte(v[6]),
        byte(v[7]),
        p.0,
        p.1,
        p.2,
        q.0,
        q.1,
        q.2,
        s.0,
        s.1,
        s.2,
        t.0,
        t.1,
        t.2,
    ]
}

pub fn pack_fir(v: [i32; 16]) -> Packed
    ensures { result ≡ packed v }
{
    if in_range(v) {
        return Packed {
            refusal: 0,
            bytes: bytes_of(v),
        };
    }
    Packed {
        refusal: refusals::COEFFICIENT,
        bytes: [0; 20],
    }
}

// The signed number whose bits are n.
fn signed(n: u32, half: u32) -> i32
    requires { (n < 2 * half) × (half ≤ 2048) }
    ensures { result ≡ signed_of half n }
{
    if n < half {
        return n as i32;
    }
    -1 - ((2 * half - 1 - n) as i32)
}

fn short(x: u8) -> i32
    ensures { result ≡ signed_of 128 x }
{
    signed(x as u32, 128)
}

// The two coefficients of twelve bits in three bytes.
fn split(x: u8, y: u8, z: u8) -> (i32, i32)
    ensures { (result.0 ≡ signed_of 2048 (x * 16 + y / 16)) × (result.1 ≡ signed_of 2048 (y % 16 * 256 + z)) }
{
    let m = y as u32;
    (
        signed((x as u32) * 16 + m / 16, 2048),
        signed(m % 16 * 256 + (z as u32), 2048),
    )
}

pub fn unpack_fir(b: [u8; 20]) -> [i32; 16]
    ensures { result ≡ unpack_of b }
{
    let p = split(b[8], b[9], b[10]);
    let q = split(b[11], b[12], b[13]);
    let s = split(b[14], b[15], b[16]);
    let t = split(b[17], b[18], b[19]);
    [
        short(b[0]),
        short(b[1]),
        short(b[2]),
        short(b[3]),
        short(b[4]),
        short(b[5]),
        short(b[6]),
        short(b[7]),
        p.0,
        p.1,
        q.0,
        q.1,
        s.0,
        s.1,
        t.0,
        t.1,
    ]
}

// The Rust's FIR_DEFAULT.
pub fn fir_default() -> [i32; 16]
    ensures { result ≡ fir_default }
{
    [
        -54, -36, -41, -40, -32, -14, 14, 53, 101, 156, 215, 273, 327, 372, 404, 421,
    ]
}

// The Rust's `pack_fir()`: the bytes that `set_fir` writes.
pub fn default_bytes() -> [u8; 20]
    ensures { result ≡ pack_of fir_default }
{
    bytes_of(fir_default())
}
