// Register addresses, block numbers, and the demodulator's values for an intermediate frequency and a sample rate,
// from src/registers.rs and the arithmetic of `set_if_freq_xtal` and `set_sample_rate_xtal` of src/demod.rs.
// Document 01, "Modules, leaves first" ("constants, `if_freq_regs`, `resample_regs`"), "Demodulator", and "Refusal numbers" for 3 and 4;
// document 02, #103, for 13, and #104 for the true rate.
// The constants are all of the Rust's, under its names; some no call uses.

#![tactic(auto)]

ghost use Rattle.std.specs.Prelude.{◌≡◌, ◌<◌};
ghost use Rattle.registers.specs.Rates.{
  if_ratio_of,
  if_value_of,
  ratio_of,
  sent_of,
  ratio_holds,
  zero_number,
  rate_number,
  true_of,
  if_regs_of,
  resample_regs_of,
};

pub const BREQUEST: u8 = 0;

// As an entry's target has them, in one byte; the Rust has them as u16.
pub mod block {
    pub const DEMOD: u8 = 0;

    pub const USB: u8 = 1;

    pub const SYS: u8 = 2;

    pub const I2C: u8 = 6;
}

pub mod sys {
    pub const DEMOD_CTL: u16 = 0x3000;

    pub const DEMOD_CTL1: u16 = 0x300b;

    pub const GPO: u16 = 0x3001;

    pub const GPOE: u16 = 0x3003;

    pub const GPD: u16 = 0x3004;

    pub const DEMOD_CTL_POWER_ON: u8 = 0xe8;

    pub const DEMOD_CTL_POWER_OFF: u8 = 0x20;
}

pub mod usb {
    pub const SYSCTL: u16 = 0x2000;

    pub const EPA_MAXPKT: u16 = 0x2158;

    pub const EPA_CTL: u16 = 0x2148;
}

pub mod demod {
    pub const P0_PAGE: u8 = 0;

    pub const P1_PAGE: u8 = 1;

    pub const P2_PAGE: u8 = 2;

    pub const P0_AGC_CTL: u16 = 0x0019;

    pub const P1_IIC_REPEAT: u16 = 0x0001;

    pub const P1_IIC_REPEAT_ON: u8 = 0x18;

    pub const P1_IIC_REPEAT_OFF: u8 = 0x10;

    pub const P1_SOFT_RESET: u16 = 0x0001;

    pub const P1_SOFT_RESET_ON: u8 = 0x14;

    pub const P1_SOFT_RESET_OFF: u8 = 0x10;

    pub const P1_IF_FREQ_H: u16 = 0x0019;

    pub const P1_IF_FREQ_M: u16 = 0x001a;

    pub const P1_IF_FREQ_L: u16 = 0x001b;

    pub const P2_RESAMPLE_H: u16 = 0x0022;

    pub const P2_RESAMPLE_M: u16 = 0x0023;

    pub const P2_RESAMPLE_L: u16 = 0x0024;

    pub const P2_RESAMPLE_LSB: u16 = 0x0025;

    pub const P1_DDC_SYNC: u16 = 0x0015;

    pub const P1_DDC_SYNC_NORMAL: u8 = 0x01;

    pub const P1_DDC_SYNC_INVERT: u8 = 0x05;
}

pub mod tuner_ids {
    pub const R82XX_I2C_ADDR: u8 = 0x34;

    pub const R828D_I2C_ADDR: u8 = 0x74;

    pub const E4000_I2C_ADDR: u8 = 0xc8;

    pub const FC0012_I2C_ADDR: u8 = 0xc2;

    pub const FC0013_I2C_ADDR: u8 = 0xc6;
}

pub const IF_FREQ_HZ: u64 = 3_570_000;

pub const XTAL_FREQ_HZ: u32 = 28_800_000;

// The positive value of an intermediate frequency.
fn if_ratio(hz: u32, xtal: u32) -> u64
    requires { 0 < xtal }
    ensures { result ≡ if_ratio_of hz xtal }
{
    (hz as u64) * 4_194_304 / (xtal as u64)
}

// What registers 0x19..0x1b get: the ratio negated in 22 bits.
pub fn if_value(hz: u32, xtal: u32) -> u32
    requires { 0 < xtal }
    ensures { result ≡ if_value_of hz xtal }
{
    let low = if_ratio(hz, xtal) % 4_194_304;
    let value = (4_194_304 - low) % 4_194_304;
    value as u32
}

// The resampler's ratio, uncut.
pub fn ratio(rate: u32, xtal: u32) -> u64
    requires { 0 < rate }
    ensures { result ≡ ratio_of rate xtal }
{
    (xtal as u64) * 4_194_304 / (rate as u64)
}

// The resampler's ratio as it is sent.
pub fn sent(ratio: u64) -> u32
    ensures { result ≡ sent_of ratio }
{
    let short = (ratio % 4_294_967_296) as u32;
    let masked = short & 0x0fff_fffc;
    masked | ((masked & 0x0800_0000) << 1)
}

// Whether the resampler's register holds it: what is sent is then the ratio without its two low bits.
fn ratio_holds(ratio: u64) -> bool
    ensures { result ≡ ratio_holds ratio }
{
    (4 <= ratio) & (ratio < 536_870_912) & ((ratio >> 27) % 2 == (ratio >> 28) % 2)
}

// 3 for a rate of 0, then 4 for a reference of 0.
fn zero_number(rate: u32, xtal: u32) -> u8
    ensures { result ≡ zero_number rate xtal 0 }
{
    if rate == 0 {
        return refusals::RATE;
    }
    if xtal == 0 {
        return refusals::CORRECTION;
    }
    0
}

// Why a rate is not sent: 3, then 4, then 13 for a ratio that the register doesn't hold; 0 where it is sent.
pub fn rate_number(rate: u32, xtal: u32) -> u8
    ensures { result ≡ rate_number rate xtal }
{
    let zero = zero_number(rate, xtal);
    if zero != 0 {
        return zero;
    }
    let whole = ratio(rate, xtal);
    if ratio_holds(whole) {
        return 0;
    }
    refusals::RATIO
}

// The rate that is had for one that is asked: the ratio is sent without its two low bits.
pub fn true_rate(rate: u32, xtal: u32) -> u64
    requires { rate_number rate xtal ≡ 0 }
    ensures { result ≡ true_of rate xtal }
{
    let full = ratio(rate, xtal);
    let kept = sent(full) as u64;
    (xtal as u64) * 4_194_304 / kept
}

// A refusal number, 0 for none, and the register bytes, zeros where it is refused.
#[derive(Clone, Copy)]
pub struct IfRegs {
    pub refusal: u32,
    pub bytes: [u8; 3],
}

#[derive(Clone, Copy)]
pub struct ResampleRegs {
    pub refusal: u32,
    pub bytes: [u8; 4],
}

pub fn if_freq_regs(hz: u32, xtal: u32) -> IfRegs
    ensures { result ≡ if_regs_of hz xtal }
{
    if xtal == 0 {
        return IfRegs {
            refusal: refusals::CORRECTION as u32,
            bytes: [0, 0, 0],
        };
    }
    let value = if_ratio(hz, xtal);
    IfRegs {
        refusal: 0,
        bytes: [
            ((value >> 16) % 64) as u8,
            ((value >> 8) % 256) as u8,
            (value % 256) as u8,
        ],
    }
}

pub fn resample_regs(rate: u32, xtal: u32) -> ResampleRegs
    ensures { result ≡ resample_regs_of rate xtal }
{
    let number = zero_number(rate, xtal);
    if number != 0 {
        return ResampleRegs {
            refusal: number as u32,
            bytes: [0, 0, 0, 0],
        };
    }
    let value = ratio(rate, xtal);
    ResampleRegs {
        refusal: 0,
        bytes: [
            ((value >> 24) % 64) as u8,
            ((value >> 16) % 256) as u8,
            ((value >> 8) % 256) as u8,
            (value % 256) as u8,
        ],
    }
}
