// The driver's calls, over the records' bytes: fresh (16), the corrected reference (18), sample rate on both records (19), the board path (20), and the correction
// of both records (41).
use crate::{compare, handed, layout};
use boards::Hopped;
use compare::Verdict;
use driver::{Driver, Rated};
use r82xx::Tuner;
use refusals::Answer;

fn ppm_of(c: &[u8]) -> i32 {
    wire::to_signed(layout::four(c, layout::D) as u32)
}

pub fn fresh(c: &[u8]) -> Verdict {
    let made = Driver::new(
        layout::eight(c, layout::C),
        layout::eight(c, layout::A),
        ppm_of(c),
        layout::eight(c, layout::B),
        layout::four(c, layout::E) as u32,
    );
    let answer = made.answer;
    let made_driver = made.driver;
    let told = handed::numbers(answer, 0);
    let next = handed::next_driver(told, made_driver);
    compare::agrees(c, told, &[], &[], &next, &[])
}

pub fn corrected_xtal_hz(c: &[u8]) -> Verdict {
    match records::decode_driver(layout::part(c, layout::DRIVER)) {
        Some(d) => handed::bare(c, d.corrected_xtal_hz()),
        None => handed::refused(c, &[]),
    }
}

// Both records of a case, the driver's first.
fn both(c: &[u8]) -> Option<(Driver, Tuner)> {
    records::decode_driver(layout::part(c, layout::DRIVER)).zip(records::decode_tuner(layout::part(
        c,
        layout::TUNER,
    )))
}

// The recording's centre (44), by both records and a table.
pub fn centre(c: &[u8]) -> Verdict {
    let Some((d, t)) = both(c) else {
        return handed::refused(c, &[]);
    };
    handed::bare(c, centre::centre(d, t, layout::part(c, layout::INPUT)))
}

fn rate(c: &[u8], t: Tuner, d: Driver, room: &mut [u8]) -> Rated {
    let hz = layout::four(c, layout::A) as u32;
    let table = layout::part(c, layout::INPUT);
    d.set_sample_rate(t, table, hz, layout::part(c, layout::OUTCOMES), room)
}

fn judged_both(
    c: &[u8],
    answer: Answer,
    count: usize,
    tuner: Tuner,
    driver: Driver,
    room: &[u8],
    answered: &[u8],
) -> Verdict {
    let told = handed::numbers(answer, count);
    let first = handed::next_tuner(told, tuner);
    let second = handed::next_driver(told, driver);
    compare::agrees(c, told, room, &first, &second, answered)
}

// The tuner's slice first, then the driver's, as the call takes them; the ppm where call 10 had it.
pub fn set_ppm(c: &[u8]) -> Verdict {
    let Some((d, t)) = both(c) else {
        return handed::refused(c, &[]);
    };
    let told = driver::corrected(t, d, ppm_of(c));
    judged_both(c, told.answer, 0, told.tuner, told.driver, &[], &[])
}

pub fn set_sample_rate(c: &[u8]) -> Verdict {
    handed::in_room(c, |room| {
        let Some((d, t)) = both(c) else {
            return handed::refused(c, room);
        };
        let rated = rate(c, t, d, room);
        judged_both(
            c,
            rated.answer,
            rated.count,
            rated.tuner,
            rated.driver,
            room,
            &[],
        )
    })
}

fn hop(c: &[u8], t: Tuner, d: Driver, room: &mut [u8]) -> Hopped {
    let table = layout::part(c, layout::INPUT);
    let outcomes = layout::part(c, layout::OUTCOMES);
    let replies = layout::part(c, layout::REPLIES);
    boards::tune_board(
        d,
        t,
        table,
        layout::eight(c, layout::A),
        outcomes,
        replies,
        room,
    )
}

// The board-level tune (42), which tells its tries and whether it locked beside any answer, as a tuning does.
pub fn tune_board(c: &[u8]) -> Verdict {
    handed::in_room(c, |room| {
        let Some((d, t)) = both(c) else {
            let told = handed::numbers(Answer::Refused(refusals::SETUP), 0);
            return compare::agrees(c, told, room, &[0xa5; 78], &[0xa5; 29], &[0, 0]);
        };
        let hopped = hop(c, t, d, room);
        let seen = [(hopped.tries % 256) as u8, hopped.locked as u8];
        judged_both(
            c,
            hopped.answer,
            hopped.count,
            hopped.tuner,
            hopped.driver,
            room,
            &seen,
        )
    })
}

fn take_path(c: &[u8], t: Tuner, room: &mut [u8]) -> r82xx::TunerResult {
    let path = layout::one(c, layout::A) as u8;
    let outcomes = layout::part(c, layout::OUTCOMES);
    let replies = layout::part(c, layout::REPLIES);
    driver::apply_input_path(t, path, outcomes, replies, room)
}

pub fn apply_input_path(c: &[u8]) -> Verdict {
    handed::in_room(
        c,
        |room| match records::decode_tuner(layout::part(c, layout::TUNER)) {
            Some(t) => handed::judged(c, take_path(c, t, room), room),
            None => handed::refused(c, room),
        },
    )
}
