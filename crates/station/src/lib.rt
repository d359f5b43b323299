// Which frequency a tuner's record stands for: the oscillator by the bytes last attempted, refused where one of them is in doubt.

#![tactic(auto)]

ghost use Rattle.std.specs.Prelude.{◌≡◌};
ghost use Rattle.station.specs.Station.{oscillator_of, unsure};

use chip::Chip;
use r82xx::Tuner;
use refusals::Answer;

// One of the five registers that the oscillator stands by is in doubt. Elements 11, 13, 15, 16 and 17 are 0x10, 0x12, 0x14, 0x15 and 0x16.
fn in_doubt(c: Chip) -> bool
    ensures { result ≡ unsure c }
{
    let doubtful = c.doubtful;
    doubtful[11] | doubtful[13] | doubtful[15] | doubtful[16] | doubtful[17]
}

// In whole Hz, cut, by the bytes last attempted.
pub fn oscillator(t: Tuner) -> Answer
    ensures { result ≡ oscillator_of t }
{
    if !r82xx::sound(t.nominal, t.corrected) {
        return Answer::Refused(refusals::SETUP);
    }
    if in_doubt(t.chip) {
        return Answer::Refused(refusals::DOUBTFUL);
    }
    let bytes = t.chip.shadow;
    let hz = oscillator::frequency(
        t.corrected,
        bytes[11],
        bytes[13],
        bytes[15],
        bytes[16],
        bytes[17],
    );
    Answer::Done(hz)
}
