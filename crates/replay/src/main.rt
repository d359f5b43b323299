// Judges the port by the stored list of answers, which stands on its standard input (docs/VECTORS.md). Ours: no file of the Rust has it.
// Document 01: "differential runs use that, beside a Rust harness recording calls."
// To add a call: one function in its group's file, which reads the arguments and the given parts off the case (layout), calls the port, and ends in
// `compare::agrees` (memory is lent: arrays of 0xa5, of the case's lengths) or `compare::valued` (answers by value); and one arm of `judge`.
// What has no arm is not there yet. Beside that each case's section is parted from itself and from an empty one (parted). Same is proved to mean that all that came back agrees with the case: specs/Agreement, Agrees and Valued.
#![tactic(auto)]

mod compare;
mod drivers;
mod filter;
mod handed;
mod layout;
mod leaves;
mod parted;
mod report;
mod steps;
mod tuners;

use compare::Verdict;
use std::io;
use std::io::{ErrorKind, Read};

// The function that judges a call, by its number.
fn judge(c: &[u8]) -> Verdict {
    let call = layout::one(c, layout::CALL);
    match call {
        1 => tuners::fresh(c),
        3 => tuners::tuned(c),
        2..=9 => tuners::changed(c),
        11 => tuners::changed(c),
        13 => tuners::get_gain(c),
        14 => tuners::get_if_freq(c),
        15 => tuners::get_gain_table(c),
        16 => drivers::fresh(c),
        18 => drivers::corrected_xtal_hz(c),
        19 => drivers::set_sample_rate(c),
        20 => drivers::apply_input_path(c),
        21..=32 => steps::made(c),
        33 => leaves::plan_tuning(c),
        34 => leaves::if_freq_regs(c),
        35 => leaves::resample_regs(c),
        36 => filter::pack(c),
        37 => filter::unpack(c),
        38 => leaves::read_section(c),
        39 => leaves::plan_pll(c),
        40 => leaves::plan_pll_by_worksheet(c),
        41 => drivers::set_ppm(c),
        42 => drivers::tune_board(c),
        43 => tuners::oscillator(c),
        44 => drivers::centre(c),
        _ => Verdict::Later,
    }
}

// The array's length is in its type, so that its part needs no fact about what was read into it.
fn case_of(b: &[u8; 2048], n: usize) -> &[u8] {
    layout::cut(b, 0, n)
}

// Fills `b` from the input. False where the input ends before that.
fn filled<R: Read>(input: &mut R, b: &mut [u8]) -> io::Result<bool> {
    match input.read_exact(b) {
        Ok(()) => Ok(true),
        Err(e) => {
            if e.kind() == ErrorKind::UnexpectedEof {
                return Ok(false);
            }
            Err(e)
        }
    }
}

// One case: read, judged, counted. False where the input is no list of cases any more. No loop, and fresh arrays: so it has no proof file.
fn step<R: Read>(
    rt: &impl Print,
    input: &mut R,
    list: u64,
    i: u64,
    tally: &mut [u64; 192],
) -> io::Result<bool> {
    let mut head = [0u8; 4];
    if !filled(input, &mut head)? {
        return Ok(false);
    }
    let n = layout::four(&head, 0) as usize;
    if n < 72 || 2048 < n {
        return Ok(false);
    }
    let mut b = [0u8; 2048];
    if !filled(input, &mut b[4..n])? {
        return Ok(false);
    }
    let c = case_of(&b, n);
    if !layout::whole(c) {
        return Ok(false);
    }
    let call = layout::one(c, layout::CALL);
    let v = parted::also(c, judge(c));
    report::count(rt, list, i, call, v, tally)?;
    Ok(true)
}

fn starts<R: Read>(input: &mut R) -> io::Result<bool> {
    let mut mark = [0u8; 8];
    if !filled(input, &mut mark)? {
        return Ok(false);
    }
    Ok(check::same(&mark, b"PASEVEC1"))
}

// How many cases a list has. Where the input ends, one: which `step` then does not find.
fn cases<R: Read>(input: &mut R) -> io::Result<u64> {
    let mut head = [0u8; 4];
    if !filled(input, &mut head)? {
        return Ok(1);
    }
    Ok(layout::four(&head, 0))
}

// One of the three lists.
fn walk<R: Read>(
    rt: &impl Print,
    input: &mut R,
    list: u64,
    tally: &mut [u64; 192],
) -> io::Result<bool> {
    if !starts(input)? {
        return Ok(false);
    }
    let n = cases(input)?;
    for i in 0..n {
        if !step(rt, input, list, i, tally)? {
            return Ok(false);
        }
    }
    Ok(true)
}

fn ended<R: Read>(input: &mut R) -> io::Result<bool> {
    let mut more = [0u8; 1];
    Ok(!filled(input, &mut more)?)
}

fn main(rt: HostRuntime) -> io::Result<()> {
    let mut tally = [0u64; 192];
    let mut input = rt.reader();
    let whole = walk(&rt, &mut input, 1, &mut tally)?
        && walk(&rt, &mut input, 2, &mut tally)?
        && walk(&rt, &mut input, 3, &mut tally)?
        && ended(&mut input)?;
    report::rows(&rt, &tally)?;
    report::totals(&rt, &tally)?;
    if !whole {
        println!(rt; "the input is not three whole lists")?;
    }
    Ok(())
}
