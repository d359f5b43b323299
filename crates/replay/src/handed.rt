// What a call of the port hands back, in the numbers that a case has, and with the next record's bytes in memory that is lent for them.
ghost use Rattle.std.specs.Prelude.{◌≡◌, ◌<◌};

use crate::{compare, layout};
use compare::Verdict;
use driver::Driver;
use r82xx::{Tuner, TunerResult};
use refusals::Answer;

pub fn numbers(answer: Answer, count: usize) -> compare::Answer {
    match answer {
        Answer::Done(value) => compare::Answer {
            refusal: 0,
            value: value,
            index: 0,
            count: count,
        },
        Answer::Refused(number) => compare::Answer {
            refusal: number as u64,
            value: 0,
            index: 0,
            count: count,
        },
        Answer::Stopped(index) => compare::Answer {
            refusal: refusals::STEP as u64,
            value: 0,
            index: index,
            count: count,
        },
    }
}

// Whether a record is handed back: not beside a refusal before any step.
pub fn hands(told: compare::Answer) -> bool {
    told.refusal == 0 || 0 < told.count
}

// What a slice lent for the next tuner record holds after the call.
pub fn next_tuner(told: compare::Answer, tuner: Tuner) -> [u8; 78] {
    if hands(told) {
        return records::tuner_image(tuner);
    }
    [0xa5u8; 78]
}

pub fn next_driver(told: compare::Answer, driver: Driver) -> [u8; 29] {
    if hands(told) {
        return records::driver_image(driver);
    }
    [0xa5u8; 29]
}

// A call to which the case's room is lent, or a slice as long for answered bytes: full of 0xa5 before it, and `judge` makes it and looks at what it left there.
// No case has more than 1088 bytes of it.
pub fn in_room<F: FnOnce(&mut [u8]) -> Verdict>(c: &[u8], judge: F) -> Verdict
    requires { F.IsAlwaysCallable judge }
{
    let n = layout::two(c, layout::ROOM);
    if 1088 < n {
        return Verdict::Differ;
    }
    let mut space = [0xa5u8; 1088];
    judge(&mut space[0..n])
}

// A call whose answer is bytes in a lent slice.
pub fn answered(c: &[u8], answer: Answer, out: &[u8]) -> Verdict {
    compare::agrees(c, numbers(answer, 0), &[], &[], &[], out)
}

// With what the call answered in bytes.
pub fn judged_with(c: &[u8], told: TunerResult, room: &[u8], answered: &[u8]) -> Verdict {
    let answer = told.answer;
    let tuner = told.tuner;
    let told = numbers(answer, told.count);
    let next = next_tuner(told, tuner);
    compare::agrees(c, told, room, &next, &[], answered)
}

pub fn judged(c: &[u8], told: TunerResult, room: &[u8]) -> Verdict {
    judged_with(c, told, room, &[])
}

// A given record that is not valid.
pub fn refused(c: &[u8], room: &[u8]) -> Verdict {
    compare::agrees(
        c,
        numbers(Answer::Refused(refusals::SETUP), 0),
        room,
        &[],
        &[],
        &[],
    )
}

// A call that hands nothing back but its answer.
pub fn bare(c: &[u8], answer: Answer) -> Verdict {
    compare::agrees(c, numbers(answer, 0), &[], &[], &[], &[])
}
