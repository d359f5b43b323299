// The tuner's calls over bytes: the given record is read, the call made on it, the next one written into a lent slice of its own.
// Document 01, "Modules, leaves first": "Records cross there as bytes. A given record out of its ranges .., or bytes that no record is written to, is
// refused 1 first, all unchanged"; "The record": "Each operation hands the record back with its answer; only `set_ppm` and `apply_notch` change the
// caller's record where it lies." The former is crate drivers' since #109.

#![tactic(auto)]

ghost use Rattle.std.specs.Prelude.{◌≡◌, ◌≤◌, ℕ, true, List, cond, length};
ghost use Rattle.std.proofs.lemmas.List.Edits.{sets};
ghost use Rattle.chip.specs.Calls.{called};
ghost use Rattle.chip.specs.Courses.{Course, argument_of, left_by};
ghost use Rattle.r82xx.specs.Record.{sound};
ghost use Rattle.r82xx.specs.declared.Tuner.{Tuner};
ghost use Rattle.r82xx.specs.declared.TunerResult.{TunerResult};
ghost use Rattle.refusals.specs.Lent.{answered_to, given};
ghost use Rattle.r82xx.specs.Orders.{course_of};
ghost use Rattle.r82xx.specs.Orders.Order.{Initialize, Reload, Bandwidth, IfFreq, Gain, GainIndex, InputPath, Tune, Notch, GainTold, IfTold};
ghost use Rattle.records.specs.Tuners.{tuner_bytes};
ghost use Rattle.reply.specs.Replies.{reply_of};
ghost use Rattle.refusals.specs.declared.Answer.TheVariants.{Refused};
ghost use Rattle.tuners.specs.Over.{after, is_written, next_of, over_tuner, over_tuning, path_refusal, ready_of, tuned_to};
ghost use Rattle.tuners.specs.Still.{answer_over, changed_into, fresh_into, oscillator_over, table_over};

use r82xx::{Tuner, TunerResult};
use records::TUNER;
use refusals::Answer;
use reply::{Reply, TuneReply};

// Of a call on a valid record: an argument's number, then 8 for the slice that the next record's bytes go to; 0 where nothing is refused.
fn ready(argument: u8, next: usize) -> u8
    ensures { result ≡ ready_of true argument next 78 }
{
    if argument != 0 {
        return argument;
    }
    if next < TUNER {
        return refusals::ROOM;
    }
    0
}

pub fn refuse(number: u8) -> Reply
    ensures { result ≡ reply_of (Refused number) 0 }
{
    reply::numbers(Answer::Refused(number), 0)
}

// Whether the next record is written: once steps were taken, or the call is done.
pub fn is_written(answer: Answer, count: usize) -> bool
    ensures { result ≡ is_written answer count }
{
    matches!(answer, Answer::Done(_)) || count != 0
}

// The next record's bytes, which are a tuner's or a driver's.
pub fn store(answer: Answer, count: usize, image: &[u8], next: &mut [u8])
    requires { length image.now ≤ length next.old }
    ensures { next.new ≡ cond (is_written answer count) (sets next.old 0 image.now) next.old }
{
    if is_written(answer, count) {
        wire::copy(next, 0, image);
    }
}

// What a call hands back: its record into the slice, the rest as numbers.
fn hand(told: TunerResult, next: &mut [u8]) -> Reply
    requires { 78 ≤ length next.old }
    ensures { (result ≡ reply_of told.answer told.count) × (next.new ≡ next_of tuner_bytes told.answer told.count told.tuner next.old) }
{
    let answer = told.answer;
    store(answer, told.count, &records::tuner_image(told.tuner), next);
    reply::numbers(answer, told.count)
}

// A number that names no path is refused 1; what is left is a byte.
pub fn path_refusal(path: u64) -> u8
    ensures { result ≡ path_refusal path }
{
    if 2 < path {
        return refusals::SETUP;
    }
    0
}

// A call with steps, by its argument's number and what it leaves of the record that the bytes are. `row` is any row of which that is so.
pub fn stepped<F: FnOnce(Tuner, &mut [u8]) -> TunerResult>(
    tuner: &[u8],
    argument: u8,
    call: F,
    room: &mut [u8],
    next: &mut [u8],
) -> Reply
    requires { argument ≡ 0 → (t : Tuner) (lent : _) → F.pre call t lent }
    ensures { (row : Tuner → Course Tuner) (os : List ℕ) → ((t : Tuner) → argument ≡ argument_of (row t))
        → (argument ≡ 0 → (t : Tuner) (lent : _) (r : TunerResult) (left : _) → F.post call t lent r left
        → called r.tuner left.now r.count r.answer ≡ left_by (sound t) (row t) os t.chip t lent.now)
        → after result room.new next.new ≡ over_tuner row os tuner.now room.old next.old }
{
    let Some(t) = records::decode_tuner(tuner) else {
        return refuse(refusals::SETUP);
    };
    let number = ready(argument, next.len());
    if number != 0 {
        return refuse(number);
    }
    let told = call(t, room);
    hand(told, next)
}

pub fn initialize(tuner: &[u8], outcomes: &[u8], room: &mut [u8], next: &mut [u8]) -> Reply
    ensures { after result room.new next.new
        ≡ over_tuner (course_of Initialize) outcomes.now tuner.now room.old next.old }
{
    stepped(tuner, 0, |t, lent| t.initialize(outcomes, lent), room, next)
}

pub fn reload(tuner: &[u8], outcomes: &[u8], room: &mut [u8], next: &mut [u8]) -> Reply
    ensures { after result room.new next.new
        ≡ over_tuner (course_of Reload) outcomes.now tuner.now room.old next.old }
{
    stepped(tuner, 0, |t, lent| t.reload(outcomes, lent), room, next)
}

pub fn set_bandwidth(
    tuner: &[u8],
    hz: u32,
    outcomes: &[u8],
    room: &mut [u8],
    next: &mut [u8],
) -> Reply
    ensures { after result room.new next.new
        ≡ over_tuner (course_of (Bandwidth hz)) outcomes.now tuner.now room.old next.old }
{
    stepped(
        tuner,
        0,
        |t, lent| t.set_bandwidth(hz, outcomes, lent),
        room,
        next,
    )
}

pub fn set_if_freq(
    tuner: &[u8],
    hz: u64,
    outcomes: &[u8],
    room: &mut [u8],
    next: &mut [u8],
) -> Reply
    ensures { after result room.new next.new
        ≡ over_tuner (course_of (IfFreq hz)) outcomes.now tuner.now room.old next.old }
{
    stepped(
        tuner,
        0,
        |t, lent| t.set_if_freq(hz, outcomes, lent),
        room,
        next,
    )
}

pub fn set_gain(tuner: &[u8], db: f32, outcomes: &[u8], room: &mut [u8], next: &mut [u8]) -> Reply
    ensures { after result room.new next.new
        ≡ over_tuner (course_of (Gain db)) outcomes.now tuner.now room.old next.old }
{
    stepped(
        tuner,
        0,
        |t, lent| t.set_gain(db, outcomes, lent),
        room,
        next,
    )
}

pub fn set_gain_by_index(
    tuner: &[u8],
    index: usize,
    outcomes: &[u8],
    room: &mut [u8],
    next: &mut [u8],
) -> Reply
    ensures { after result room.new next.new
        ≡ over_tuner (course_of (GainIndex index)) outcomes.now tuner.now room.old next.old }
{
    stepped(
        tuner,
        0,
        |t, lent| t.set_gain_by_index(index, outcomes, lent),
        room,
        next,
    )
}

pub fn set_input_path(
    tuner: &[u8],
    path: u64,
    outcomes: &[u8],
    room: &mut [u8],
    next: &mut [u8],
) -> Reply
    ensures { after result room.new next.new
        ≡ over_tuner (course_of (InputPath path)) outcomes.now tuner.now room.old next.old }
{
    stepped(
        tuner,
        path_refusal(path),
        |t, lent| t.set_input_path(path as u8, outcomes, lent),
        room,
        next,
    )
}

pub fn set_frequency(
    tuner: &[u8],
    hz: u64,
    outcomes: &[u8],
    replies: &[u8],
    room: &mut [u8],
    next: &mut [u8],
) -> TuneReply
    ensures { tuned_to result room.new next.new
        ≡ over_tuning (course_of (Tune hz replies.now)) outcomes.now tuner.now room.old next.old }
{
    let Some(given) = records::decode_tuner(tuner) else {
        return reply::tuned(refuse(refusals::SETUP), 0, false);
    };
    let number = ready(r82xx::hz_refusal(hz, given.ifreq), next.len());
    if number != 0 {
        return reply::tuned(refuse(number), 0, false);
    }
    let tuned = given.set_frequency(hz, outcomes, replies, room);
    let plain = hand(tuned.told, next);
    reply::tuned(plain, tuned.tries, tuned.locked)
}

fn lend(answer: Answer, tuner: Tuner, out: &mut [u8]) -> Answer
    ensures { given result out.new ≡ answered_to answer (tuner_bytes tuner) out.old }
{
    let image = records::tuner_image(tuner);
    refusals::lend_answer(answer, &image, out)
}

pub fn fresh(kind: u64, address: u8, nominal: u64, next: &mut [u8]) -> Answer
    ensures { given result next.new ≡ fresh_into kind address nominal next.old }
{
    let made = Tuner::new(kind, address, nominal);
    let answer = made.answer;
    lend(answer, made.tuner, next)
}

pub fn apply_notch(tuner: &mut [u8], on: bool) -> Answer
    ensures { given result tuner.new ≡ changed_into (Notch on) tuner.old tuner.old }
{
    let Some(given) = records::decode_tuner(tuner) else {
        return Answer::Refused(refusals::SETUP);
    };
    let told = given.with_notch(on);
    let answer = told.answer;
    lend(answer, told.tuner, tuner)
}

pub fn get_gain(tuner: &[u8]) -> Answer
    ensures { result ≡ answer_over GainTold tuner.now }
{
    records::decode_tuner(tuner).map_or(Answer::Refused(refusals::SETUP), |t| t.get_gain())
}

pub fn get_if_freq(tuner: &[u8]) -> Answer
    ensures { result ≡ answer_over IfTold tuner.now }
{
    records::decode_tuner(tuner).map_or(Answer::Refused(refusals::SETUP), |t| t.get_if_freq())
}

// Where the oscillator stands by the record's registers. Of no file of the Rust.
pub fn oscillator(tuner: &[u8]) -> Answer
    ensures { result ≡ oscillator_over tuner.now }
{
    records::decode_tuner(tuner).map_or(Answer::Refused(refusals::SETUP), station::oscillator)
}

pub fn get_gain_table(tuner: &[u8], out: &mut [u8]) -> Answer
    ensures { given result out.new ≡ table_over tuner.now out.old }
{
    let Some(given) = records::decode_tuner(tuner) else {
        return Answer::Refused(refusals::SETUP);
    };
    answers::gain_table(given, out)
}
