// The tuner's and the driver's records as bytes. Ours: no file of the Rust has it. Document 01, "Modules, leaves first": "Records cross there as
// bytes. A given record out of its ranges .., or bytes that no record is written to, is refused 1 first". Fields in document 01's order, numbers low
// byte first; a record is read from exactly the bytes that one is written to (proofs/Exact.antt).

#![tactic(auto)]

ghost use Rattle.std.specs.Prelude.{◌≡◌, map, ◌+◌, ◌≤◌, ◌<◌, length, take, drop};
ghost use Rattle.records.specs.Drivers.{driver_bytes, driver_from, driver_meant, driver_of, driver_widths};
ghost use Rattle.pll.specs.Plan.{kind_number};
ghost use Rattle.records.specs.Fields.{board_from, flag_byte, flag_read, flags_only, kind_of, proper_gain};
ghost use Rattle.wire.specs.Parts.{parts_from};
ghost use Rattle.records.specs.Tuners.{chip_from, tuner_bytes, tuner_fits, tuner_from, tuner_meant, tuner_of, tuner_widths};

use board::Board;
use chip::Chip;
use driver::Driver;
use pll::Kind;
use r82xx::Tuner;

// Where the parts of a tuner's record stand; TUNER is their length.
const ADDRESS: usize = 1;

const SHADOW: usize = 2;

const NOMINAL: usize = 29;

const CORRECTED: usize = 33;

const LOCK: usize = 37;

const GAIN: usize = 38;

const IFREQ: usize = 42;

const NOTCH: usize = 50;

const DOUBTFUL: usize = 51;

pub const TUNER: usize = 78;

// And of a driver's: its board stands first.
const REFERENCE: usize = 1;

const PPM: usize = 5;

const FREQUENCY: usize = 9;

const RATE: usize = 17;

const ACTUAL: usize = 21;

pub const DRIVER: usize = 29;

fn kind_number(kind: Kind) -> u8
    ensures { result ≡ kind_number kind }
{
    kind as u8
}

// Any number but 1 stands for the first, where a TryFrom would refuse it: no plainer.
fn kind_of(n: u64) -> Kind
    ensures { result ≡ kind_of n }
{
    if n == 1 { Kind::R828D } else { Kind::R820T }
}

// The bits of any NaN other than the one that a gain is written as are not valid.
fn proper_gain(bits: u32) -> bool
    ensures { result ≡ proper_gain bits }
{
    (bits % 0x8000_0000 <= 0x7f80_0000) | (bits == 0x7fc0_0000)
}

fn bytes_at(b: &[u8], at: usize) -> [u8; 27]
    requires { at + 27 ≤ length b.now }
    ensures { result ≡ take 27 (drop at b.now) }
{
    let mut image = [0u8; 27];
    wire::copy(&mut image, 0, &b[at..at + 27]);
    image
}

// Here and in `flag_bytes` an array's `map` was tried: its 27 calls took 500 instructions more.
fn flags_at(b: &[u8], at: usize) -> [bool; 27]
    requires { at + 27 ≤ length b.now }
    ensures { result ≡ map flag_read (take 27 (drop at b.now)) }
{
    let image = bytes_at(b, at);
    let mut flags = [false; 27];
    for i in 0..27 {
        flags[i] = image[i] == 1;
    }
    flags
}

// No early return: a loop without one is one that the compiler can run over several bytes at once.
fn flags_only(b: &[u8], at: usize) -> bool
    requires { at + 27 ≤ length b.now }
    ensures { result ≡ flags_only (take 27 (drop at b.now)) }
{
    let image = bytes_at(b, at);
    let mut ok = true;
    for i in 0..27 {
        ok = ok & (image[i] <= 1);
    }
    ok
}

fn flag_bytes(flags: [bool; 27]) -> [u8; 27]
    ensures { result ≡ map flag_byte flags }
{
    let mut image = [0u8; 27];
    for i in 0..27 {
        image[i] = flags[i] as u8;
    }
    image
}

fn tuner_fits(b: &[u8]) -> bool
    requires { length b.now ≡ 78 }
    ensures { result ≡ tuner_fits (parts_from 0 tuner_widths b.now) }
{
    (wire::get(b, 0, 1) <= 1)
        & (1 <= wire::four(b, NOMINAL))
        & (1 <= wire::four(b, CORRECTED))
        & (wire::get(b, LOCK, 1) <= 1)
        & proper_gain(wire::four(b, GAIN))
        & (wire::get(b, NOTCH, 1) <= 1)
        & flags_only(b, DOUBTFUL)
}

fn chip_in(b: &[u8]) -> Chip
    requires { length b.now ≡ 78 }
    ensures { result ≡ chip_from (parts_from 0 tuner_widths b.now) }
{
    Chip {
        address: wire::get(b, ADDRESS, 1) as u8,
        shadow: bytes_at(b, SHADOW),
        doubtful: flags_at(b, DOUBTFUL),
    }
}

fn tuner_in(b: &[u8]) -> Tuner
    requires { length b.now ≡ 78 }
    ensures { result ≡ tuner_from (parts_from 0 tuner_widths b.now) }
{
    Tuner {
        kind: kind_of(wire::get(b, 0, 1)),
        chip: chip_in(b),
        nominal: wire::four(b, NOMINAL),
        corrected: wire::four(b, CORRECTED),
        lock: wire::get(b, LOCK, 1) == 1,
        gain: wire::float_of(wire::four(b, GAIN)),
        ifreq: wire::eight(b, IFREQ),
        notch: wire::get(b, NOTCH, 1) == 1,
    }
}

// The record that valid bytes are written from.
pub fn decode_tuner(b: &[u8]) -> Option<Tuner>
    ensures { tuner_meant result ≡ tuner_of b.now }
{
    if b.len() != TUNER {
        return None;
    }
    if !tuner_fits(b) {
        return None;
    }
    Some(tuner_in(b))
}

// The record's 78 bytes.
pub fn tuner_image(t: Tuner) -> [u8; 78]
    ensures { result ≡ tuner_bytes t }
{
    let kind = t.kind;
    let chip_state = t.chip;
    let shadow = chip_state.shadow;
    let doubtful = chip_state.doubtful;
    let mut image = [0u8; 78];
    wire::put(&mut image, 0, kind_number(kind) as u64, 1);
    wire::put(&mut image, ADDRESS, chip_state.address as u64, 1);
    wire::copy(&mut image, SHADOW, &shadow);
    wire::put(&mut image, NOMINAL, t.nominal as u64, 4);
    wire::put(&mut image, CORRECTED, t.corrected as u64, 4);
    wire::put(&mut image, LOCK, t.lock as u64, 1);
    wire::put(&mut image, GAIN, wire::bits_of(t.gain) as u64, 4);
    wire::put(&mut image, IFREQ, t.ifreq, 8);
    wire::put(&mut image, NOTCH, t.notch as u64, 1);
    wire::copy(&mut image, DOUBTFUL, &flag_bytes(doubtful));
    image
}

// As `kind_of`.
fn board_from(n: u64) -> Board
    ensures { result ≡ board_from n }
{
    if n == 1 { Board::V4 } else { Board::Generic }
}

fn driver_in(b: &[u8]) -> Driver
    requires { length b.now ≡ 29 }
    ensures { result ≡ driver_from (parts_from 0 driver_widths b.now) }
{
    Driver {
        board: board_from(wire::get(b, 0, 1)),
        nominal: wire::four(b, REFERENCE),
        ppm: wire::to_signed(wire::four(b, PPM)),
        frequency: wire::eight(b, FREQUENCY),
        rate: wire::four(b, RATE),
        actual: wire::eight(b, ACTUAL),
    }
}

// "A given driver record whose nominal and ppm give a bad" corrected reference is not valid.
pub fn decode_driver(b: &[u8]) -> Option<Driver>
    ensures { driver_meant result ≡ driver_of b.now }
{
    if b.len() != DRIVER {
        return None;
    }
    let d = driver_in(b);
    if !((wire::get(b, 0, 1) <= 1) & (1 <= driver::xtal_by(d.nominal, d.ppm))) {
        return None;
    }
    Some(d)
}

// The record's 29 bytes.
pub fn driver_image(d: Driver) -> [u8; 29]
    ensures { result ≡ driver_bytes d }
{
    let named = d.board;
    let mut image = [0u8; 29];
    wire::put(&mut image, 0, u8::from(named) as u64, 1);
    wire::put(&mut image, REFERENCE, d.nominal as u64, 4);
    wire::put(&mut image, PPM, wire::to_bits(d.ppm) as u64, 4);
    wire::put(&mut image, FREQUENCY, d.frequency, 8);
    wire::put(&mut image, RATE, d.rate as u64, 4);
    wire::put(&mut image, ACTUAL, d.actual, 8);
    image
}
