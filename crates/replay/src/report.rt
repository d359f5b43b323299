// The tally of verdicts, three counts for each call number (same, differ, not there yet), and its rows.
ghost use Rattle.std.specs.Prelude.{◌<◌};

use crate::compare;
use compare::Verdict;
use std::{fmt, io};

// Calls 1 to 20: over the tuner's and the driver's records.
fn record_name(call: u64) -> &'static str {
    match call {
        1 => "fresh tuner",
        2 => "initialise",
        3 => "tune",
        4 => "gain in dB",
        5 => "gain by index",
        6 => "bandwidth",
        7 => "IF",
        8 => "input path",
        9 => "reload",
        11 => "notch",
        13 => "get gain",
        14 => "get IF",
        15 => "gain table",
        16 => "fresh driver",
        18 => "corrected reference",
        19 => "sample rate",
        20 => "board path",
        _ => "no such call",
    }
}

// Calls 21 to 40: the demodulator, GPIO, and what takes no record. 41 and 42: what document 02 added. From 43 on: which station a receiver stands on, ours.
fn other_name(call: u64) -> &'static str {
    match call {
        21 => "init_baseband",
        22 => "power_on",
        23 => "set_tuner_low_if",
        24 => "set_tuner_zero_if",
        25 => "reset_demod",
        26 => "write_reg_direct",
        27 => "set_if_freq_xtal",
        28 => "set_sample_rate_xtal",
        29 => "start_streaming",
        30 => "stop_streaming",
        31 => "set_gpio_output",
        32 => "set_gpio_bit",
        33 => "plan_tuning",
        34 => "if_freq_regs",
        35 => "resample_regs",
        36 => "FIR packer",
        37 => "FIR unpacker",
        38 => "section reader",
        39 => "plan_pll",
        40 => "plan_pll_by_worksheet",
        41 => "set_ppm of both",
        42 => "board-level tune",
        43 => "oscillator",
        44 => "centre",
        _ => "no such call",
    }
}

// A call by its number, as the rows name it.
#[derive(Drop)]
struct Call(u64);

impl fmt::Display for Call {
    fn fmt<W: fmt::Write>(&self, f: &mut fmt::Formatter<W>) -> fmt::Result {
        let number = self.0;
        let name = if number <= 20 {
            record_name(number)
        } else {
            other_name(number)
        };
        write!(f, "{number} {name}")
    }
}

// All of a column: 0 same, 1 differ, 2 not there yet.
fn column(tally: &[u64; 192], k: usize) -> u64
    requires { k < 3 }
{
    let mut sum: u64 = 0;
    for row in 0..64 {
        sum = sum.wrapping_add(tally[3 * row + k]);
    }
    sum
}

// A case that differs, so that a person finds it: its list and its number there, both from docs/VECTORS.md.
fn differs(rt: &impl Print, list: u64, i: u64, call: u64) -> io::Result<()> {
    println!(rt; "differs: list {list} case {i} call {}", Call(call))
}

// A call number past the table counts as 0, which is no call.
fn row_of(call: u64) -> usize
    ensures { result < 64 }
{
    if call < 64 {
        return call as usize;
    }
    0
}

// Counts a verdict, and names the first cases that differ.
pub fn count(
    rt: &impl Print,
    list: u64,
    i: u64,
    call: u64,
    v: Verdict,
    tally: &mut [u64; 192],
) -> io::Result<()> {
    let at = 3 * row_of(call) + v as usize;
    tally[at] = tally[at].wrapping_add(1);
    if v == Verdict::Differ && column(tally, 1) <= 10 {
        differs(rt, list, i, call)?;
    }
    Ok(())
}

fn row(rt: &impl Print, tally: &[u64; 192], call: usize) -> io::Result<()>
    requires { call < 64 }
{
    let same = tally[3 * call];
    let differ = tally[3 * call + 1];
    let later = tally[3 * call + 2];
    println!(rt;
        "{}: {same} same, {differ} differ, {later} not there yet",
        Call(call as u64)
    )
}

pub fn rows(rt: &impl Print, tally: &[u64; 192]) -> io::Result<()> {
    for call in 1..45 {
        row(rt, tally, call)?;
    }
    Ok(())
}

pub fn totals(rt: &impl Print, tally: &[u64; 192]) -> io::Result<()> {
    let same = column(tally, 0);
    let differ = column(tally, 1);
    let later = column(tally, 2);
    let cases = same.wrapping_add(differ).wrapping_add(later);
    println!(rt; "{cases} cases: {same} same, {differ} differ, {later} not there yet")
}
