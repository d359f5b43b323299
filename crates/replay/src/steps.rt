// The calls that make entries and touch no record: the demodulator's (21 to 30) and GPIO (31, 32).
use crate::{compare, handed, layout};
use compare::Verdict;
use device::Handed;

fn ask_demod(c: &[u8], outcomes: &[u8], room: &mut [u8]) -> Handed {
    let a = layout::four(c, layout::A) as u32;
    let b = layout::four(c, layout::B) as u32;
    match layout::one(c, layout::CALL) {
        21 => demod::init_baseband(outcomes, room),
        22 => demod::power_on(outcomes, room),
        23 => demod::set_tuner_low_if(outcomes, room),
        24 => demod::set_tuner_zero_if(outcomes, room),
        25 => demod::reset_demod(outcomes, room),
        27 => demod::set_if_freq_xtal(a, b, outcomes, room),
        28 => demod::set_sample_rate_xtal(a, b, outcomes, room),
        29 => demod::start_streaming(outcomes, room),
        _ => demod::stop_streaming(outcomes, room),
    }
}

fn ask_other(c: &[u8], outcomes: &[u8], room: &mut [u8]) -> Handed {
    let replies = layout::part(c, layout::REPLIES);
    let a = layout::one(c, layout::A) as u8;
    match layout::one(c, layout::CALL) {
        26 => demod::write_reg_direct(
            a,
            layout::two(c, layout::B) as u16,
            layout::one(c, layout::C) as u8,
            outcomes,
            room,
        ),
        31 => device::set_gpio_output(a, outcomes, replies, room),
        _ => device::set_gpio_bit(a, layout::one(c, layout::B) as u8, outcomes, replies, room),
    }
}

fn ask(c: &[u8], room: &mut [u8]) -> Handed {
    let outcomes = layout::part(c, layout::OUTCOMES);
    let call = layout::one(c, layout::CALL);
    if (call == 26) | (30 < call) {
        return ask_other(c, outcomes, room);
    }
    ask_demod(c, outcomes, room)
}

pub fn made(c: &[u8]) -> Verdict {
    handed::in_room(c, |room| {
        let back = ask(c, room);
        compare::agrees(
            c,
            handed::numbers(back.answer, back.count),
            room,
            &[],
            &[],
            &[],
        )
    })
}
