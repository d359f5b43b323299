// How a call ends: its answer, every refusal by name and number, and answered bytes in a slice that the host lends. Document 01, "Refusal numbers";
// "Modules, leaves first": "callable from a C or Rust host by numbers and byte slices". Ours: the Rust answers values, arrays and texts.
// It knows no record and no step, so that arithmetic and what works on files lean on it too.

#![tactic(auto)]

ghost use Rattle.std.specs.Prelude.{◌≡◌};
ghost use Rattle.refusals.specs.Answers.{number_of, value_of};
ghost use Rattle.refusals.specs.Lent.{answered_to, given, lent_to};

// The refusals, as specs/Table.antt has them: it says what each is for. 5 is not used again.
pub const SETUP: u8 = 1;

pub const FREQUENCY: u8 = 2;

pub const RATE: u8 = 3;

pub const CORRECTION: u8 = 4;

pub const PIN: u8 = 6;

pub const COEFFICIENT: u8 = 7;

pub const ROOM: u8 = 8;

pub const OUTCOMES: u8 = 9;

pub const REPLIES: u8 = 10;

pub const STEP: u8 = 11;

pub const SECTION: u8 = 12;

pub const RATIO: u8 = 13;

pub const COMMAND: u8 = 14;

pub const EXPANSION: u8 = 15;

pub const EDITION: u8 = 16;

pub const SETTINGS: u8 = 17;

pub const NOT_EXPRESSIBLE: u8 = 18;

pub const TABLE: u8 = 19;

pub const DOUBTFUL: u8 = 20;

// A call's answer: its value, a refusal's number, or refusal 11 with the failing entry's index.
#[derive(Clone, Copy)]
pub enum Answer {
    Done(u64),
    Refused(u8),
    Stopped(usize),
}

// The number of an answer's refusal, 0 for none, and its value.
pub fn number_of(answer: Answer) -> u8
    ensures { result ≡ number_of answer }
{
    match answer {
        Answer::Done(_) => 0,
        Answer::Refused(n) => n,
        Answer::Stopped(_) => STEP,
    }
}

pub fn value_of(answer: Answer) -> u64
    ensures { result ≡ value_of answer }
{
    match answer {
        Answer::Done(v) => v,
        Answer::Refused(_) => 0,
        Answer::Stopped(_) => 0,
    }
}

// Refused by the number given, 0 for none; or 8; or the bytes at the start of the slice.
pub fn lend(refusal: u8, value: u64, bytes: &[u8], out: &mut [u8]) -> Answer
    ensures { given result out.new ≡ lent_to refusal value bytes.now out.old }
{
    if refusal != 0 {
        return Answer::Refused(refusal);
    }
    if out.len() < bytes.len() {
        return Answer::Refused(ROOM);
    }
    wire::copy(out, 0, bytes);
    Answer::Done(value)
}

// Writes an answer's bytes where it is done; else returns its refusal's number.
pub fn lend_answer(answer: Answer, bytes: &[u8], out: &mut [u8]) -> Answer
    ensures { given result out.new ≡ answered_to answer bytes.now out.old }
{
    lend(number_of(answer), value_of(answer), bytes, out)
}
