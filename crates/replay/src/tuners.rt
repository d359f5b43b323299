// The tuner's calls, over the record's bytes: fresh (1), those that hand the next record back (2 to 9, and 11), those that only read (13 to 15).
use crate::{compare, handed, layout};
use compare::Verdict;
use r82xx::{TuneResult, Tuner, TunerResult};
use refusals::Answer;

pub fn fresh(c: &[u8]) -> Verdict {
    let made = Tuner::new(
        layout::eight(c, layout::A),
        layout::one(c, layout::C) as u8,
        layout::eight(c, layout::B),
    );
    let answer = made.answer;
    let tuner = made.tuner;
    let told = TunerResult {
        tuner: tuner,
        answer: answer,
        count: 0,
    };
    handed::judged(c, told, &[])
}

// The calls of one or more steps.
fn stepped(c: &[u8], t: Tuner, room: &mut [u8]) -> TunerResult {
    let outcomes = layout::part(c, layout::OUTCOMES);
    let a = layout::eight(c, layout::A);
    match layout::one(c, layout::CALL) {
        2 => t.initialize(outcomes, room),
        4 => t.set_gain(
            wire::float_of(layout::four(c, layout::A) as u32),
            outcomes,
            room,
        ),
        5 => t.set_gain_by_index(a as usize, outcomes, room),
        6 => t.set_bandwidth(layout::four(c, layout::A) as u32, outcomes, room),
        7 => t.set_if_freq(a, outcomes, room),
        8 => t.set_input_path(layout::one(c, layout::A) as u8, outcomes, room),
        _ => t.reload(outcomes, room),
    }
}

fn asked(c: &[u8], t: Tuner, room: &mut [u8]) -> TunerResult {
    if layout::one(c, layout::CALL) < 10 {
        return stepped(c, t, room);
    }
    t.with_notch(layout::one(c, layout::A) != 0)
}

pub fn changed(c: &[u8]) -> Verdict {
    handed::in_room(
        c,
        |room| match records::decode_tuner(layout::part(c, layout::TUNER)) {
            Some(t) => handed::judged(c, asked(c, t, room), room),
            None => handed::refused(c, room),
        },
    )
}

fn tune(c: &[u8], t: Tuner, room: &mut [u8]) -> TuneResult {
    let outcomes = layout::part(c, layout::OUTCOMES);
    let replies = layout::part(c, layout::REPLIES);
    t.set_frequency(layout::eight(c, layout::A), outcomes, replies, room)
}

// A tuning (3), which tells its tries and whether it locked beside any answer: the case has them as answered bytes.
pub fn tuned(c: &[u8]) -> Verdict {
    handed::in_room(c, |room| {
        let Some(t) = records::decode_tuner(layout::part(c, layout::TUNER)) else {
            let told = handed::numbers(Answer::Refused(refusals::SETUP), 0);
            return compare::agrees(c, told, room, &[0xa5; 78], &[], &[0, 0]);
        };
        let tuned = tune(c, t, room);
        let seen = [(tuned.tries % 256) as u8, tuned.locked as u8];
        handed::judged_with(c, tuned.told, room, &seen)
    })
}

// A call that only reads the record.
fn told<F: FnOnce(Tuner) -> Answer>(c: &[u8], call: F) -> Verdict
    requires { F.IsAlwaysCallable call }
{
    match records::decode_tuner(layout::part(c, layout::TUNER)) {
        Some(t) => handed::bare(c, call(t)),
        None => handed::refused(c, &[]),
    }
}

pub fn get_gain(c: &[u8]) -> Verdict {
    told(c, |t| t.get_gain())
}

pub fn get_if_freq(c: &[u8]) -> Verdict {
    told(c, |t| t.get_if_freq())
}

// Where the oscillator stands by the record's registers (43).
pub fn oscillator(c: &[u8]) -> Verdict {
    told(c, station::oscillator)
}

pub fn get_gain_table(c: &[u8]) -> Verdict {
    handed::in_room(
        c,
        |out| match records::decode_tuner(layout::part(c, layout::TUNER)) {
            Some(t) => {
                let a = answers::gain_table(t, out);
                handed::answered(c, a, out)
            }
            None => handed::answered(c, Answer::Refused(refusals::SETUP), out),
        },
    )
}
