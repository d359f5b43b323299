// What frequency the middle of a recording is: the oscillator less the tuner's IF, with the shift of the band that holds the driver's frequency taken back.
// Of no file of the Rust, which never asks. It reads the two records and a table; what the demodulator was told stands in neither.

#![tactic(auto)]

ghost use Rattle.std.specs.Prelude.{◌≡◌, ◌+◌};
ghost use Rattle.centre.specs.Centre.{centre_at, centre_by, centre_of, less};

use bands::Planned;
use driver::Driver;
use r82xx::Tuner;
use refusals::Answer;

// Of a band that shifts upward, or not at all: the shift is taken off with the IF.
fn less_both(lo: u64, ifreq: u64, up: u64) -> Answer
    ensures { result ≡ less lo (ifreq + up) }
{
    let Some(hz) = lo.checked_sub(ifreq).and_then(|rest| rest.checked_sub(up)) else {
        return Answer::Refused(refusals::FREQUENCY);
    };
    Answer::Done(hz)
}

// Of one that shifts downward: the shift is put on again, so that an IF above the oscillator is no end by itself.
fn less_one(lo: u64, ifreq: u64, down: u64) -> Answer
    ensures { result ≡ less (lo + down) ifreq }
{
    let told = match lo.checked_sub(ifreq) {
        Some(rest) => rest.checked_add(down),
        None => down.checked_sub(ifreq - lo),
    };
    let Some(hz) = told else {
        return Answer::Refused(refusals::FREQUENCY);
    };
    Answer::Done(hz)
}

// The shift is what the band's frequency for the tuner is above the driver's.
fn unshifted(lo: u64, ifreq: u64, tuned: u64, hz: u64) -> Answer
    ensures { result ≡ less (lo + hz) (ifreq + tuned) }
{
    if hz <= tuned {
        less_both(lo, ifreq, tuned - hz)
    } else {
        less_one(lo, ifreq, hz - tuned)
    }
}

fn at_plan(lo: u64, planned: Planned, ifreq: u64, hz: u64) -> Answer
    ensures { result ≡ centre_at lo planned ifreq hz }
{
    if planned.refusal != 0 {
        return Answer::Refused(planned.refusal);
    }
    unshifted(lo, ifreq, planned.plan.hz, hz)
}

// A malformed table, then what the oscillator is refused by, then a frequency without a plan.
fn by_plan(told: Answer, planned: Planned, ifreq: u64, hz: u64) -> Answer
    ensures { result ≡ centre_by told planned ifreq hz }
{
    if planned.refusal == refusals::TABLE {
        return Answer::Refused(refusals::TABLE);
    }
    match told {
        Answer::Done(lo) => at_plan(lo, planned, ifreq, hz),
        Answer::Refused(number) => Answer::Refused(number),
        Answer::Stopped(index) => Answer::Stopped(index),
    }
}

pub fn centre(driver: Driver, tuner: Tuner, table: &[u8]) -> Answer
    ensures { result ≡ centre_of table.now driver tuner }
{
    let planned = bands::plan_by_table(table, driver.frequency);
    let told = station::oscillator(tuner);
    by_plan(told, planned, tuner.ifreq, driver.frequency)
}
