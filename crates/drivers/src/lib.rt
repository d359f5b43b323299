// The driver's calls over bytes: as crate tuners, with the driver's record. Ours: src/lib.rs has them over its own fields.
// Document 01, "The record": "`set_sample_rate` takes both records; the rate is recorded only when all steps are done." Document 02, #109: one correction of both.

#![tactic(auto)]

ghost use Rattle.std.specs.Prelude.{◌≡◌, ◌≤◌, ◌&&◌, true, false, MatchOption, length};
ghost use Rattle.refusals.specs.Lent.{answered_to, given};
ghost use Rattle.board.specs.Numbers.{path_of};
ghost use Rattle.driver.specs.Calls.{board_row};
ghost use Rattle.records.specs.Drivers.{driver_bytes, driver_of, driver_read};
ghost use Rattle.records.specs.Tuners.{tuner_bytes, tuner_of, tuner_read};
ghost use Rattle.reply.specs.Replies.{reply_of};
ghost use Rattle.tuners.specs.Over.{after, next_of, over_tuner};
ghost use Rattle.drivers.specs.Drivers.{both_ready, centre_over, correct_over, corrects, fresh_into, hop_over, hops, rate_over, rates, xtal_over};

use driver::Driver;
use r82xx::Tuner;
use records::{DRIVER, TUNER};
use refusals::Answer;
use reply::{Reply, TuneReply};

fn lend(answer: Answer, driver: Driver, out: &mut [u8]) -> Answer
    ensures { given result out.new ≡ answered_to answer (driver_bytes driver) out.old }
{
    let image = records::driver_image(driver);
    refusals::lend_answer(answer, &image, out)
}

pub fn fresh(
    board: u64,
    nominal: u64,
    ppm: i32,
    frequency: u64,
    rate: u32,
    next: &mut [u8],
) -> Answer
    ensures { given result next.new ≡ fresh_into board nominal ppm frequency rate next.old }
{
    let made = Driver::new(board, nominal, ppm, frequency, rate);
    let answer = made.answer;
    lend(answer, made.driver, next)
}

pub fn corrected_xtal_hz(driver: &[u8]) -> Answer
    ensures { result ≡ xtal_over driver.now }
{
    records::decode_driver(driver).map_or(
        Answer::Refused(refusals::SETUP),
        |d| d.corrected_xtal_hz(),
    )
}

// Both records; none where the bytes of either are not valid.
pub fn read_both(driver: &[u8], tuner: &[u8]) -> Option<(Driver, Tuner)>
    ensures { MatchOption result (((driver_of driver.now).ok && (tuner_of tuner.now).ok) ≡ false)
        (λ r. (driver_read true r.0 ≡ driver_of driver.now) × (tuner_read true r.1 ≡ tuner_of tuner.now)) }
{
    records::decode_driver(driver).zip(records::decode_tuner(tuner))
}

// The recording's centre, which writes neither record: 1 for either, then 19, 20 and 2.
pub fn centre(driver: &[u8], tuner: &[u8], table: &[u8]) -> Answer
    ensures { result ≡ centre_over table.now driver.now tuner.now }
{
    read_both(driver, tuner).map_or(
        Answer::Refused(refusals::SETUP),
        |(d, t)| centre::centre(d, t, table),
    )
}

// Of a call on valid records: the argument's number, 0 for none, then the two slices that the next ones go to.
fn ready(argument: u8, driver: usize, tuner: usize) -> u8
    ensures { result ≡ both_ready true argument driver tuner }
{
    if argument != 0 {
        return argument;
    }
    if driver < DRIVER {
        return refusals::ROOM;
    }
    if tuner < TUNER {
        return refusals::ROOM;
    }
    0
}

// What a call hands back: both next records' bytes into the slices, the rest as numbers.
fn hand(
    answer: Answer,
    count: usize,
    d: Driver,
    t: Tuner,
    driver: &mut [u8],
    tuner: &mut [u8],
) -> Reply
    requires { (29 ≤ length driver.old) × (78 ≤ length tuner.old) }
    ensures { (result ≡ reply_of answer count)
        × (driver.new ≡ next_of driver_bytes answer count d driver.old)
        × (tuner.new ≡ next_of tuner_bytes answer count t tuner.old) }
{
    tuners::store(answer, count, &records::driver_image(d), driver);
    tuners::store(answer, count, &records::tuner_image(t), tuner);
    reply::numbers(answer, count)
}

// Both records are changed where they lie, or neither: they are read and judged before either is stored.
pub fn set_ppm(tuner: &mut [u8], driver: &mut [u8], ppm: i32) -> Reply
    ensures { corrects result tuner.new driver.new ≡ correct_over ppm tuner.old driver.old }
{
    let Some((d, t)) = read_both(driver, tuner) else {
        return tuners::refuse(refusals::SETUP);
    };
    let told = driver::corrected(t, d, ppm);
    hand(told.answer, 0, told.driver, told.tuner, driver, tuner)
}

pub fn set_sample_rate(
    driver: &[u8],
    tuner: &[u8],
    table: &[u8],
    rate: u32,
    outcomes: &[u8],
    room: &mut [u8],
    left: &mut [u8],
    next: &mut [u8],
) -> Reply
    ensures { rates result room.new left.new next.new
        ≡ rate_over outcomes.now rate table.now driver.now tuner.now room.old left.old next.old }
{
    let Some((given, t)) = read_both(driver, tuner) else {
        return tuners::refuse(refusals::SETUP);
    };
    let planned = bands::plan_by_table(table, given.frequency);
    let argument = given.rate_refusal(planned, rate);
    let number = ready(argument, left.len(), next.len());
    if number != 0 {
        return tuners::refuse(number);
    }
    let rated = given.rate_planned(t, planned, rate, outcomes, room);
    hand(
        rated.answer,
        rated.count,
        rated.driver,
        rated.tuner,
        left,
        next,
    )
}

pub fn tune_board(
    driver: &[u8],
    tuner: &[u8],
    table: &[u8],
    hz: u64,
    outcomes: &[u8],
    replies: &[u8],
    room: &mut [u8],
    left: &mut [u8],
    next: &mut [u8],
) -> TuneReply
    ensures { hops result room.new left.new next.new
        ≡ hop_over table.now hz replies.now outcomes.now driver.now tuner.now room.old left.old next.old }
{
    let Some((d, given)) = read_both(driver, tuner) else {
        return reply::tuned(tuners::refuse(refusals::SETUP), 0, false);
    };
    let planned = bands::plan_by_table(table, hz);
    let refused = boards::hop_refusal(planned, given.ifreq);
    let number = ready(refused, left.len(), next.len());
    if number != 0 {
        return reply::tuned(tuners::refuse(number), 0, false);
    }
    let hopped = boards::tune_planned(d, given, planned, hz, outcomes, replies, room);
    let plain = hand(
        hopped.answer,
        hopped.count,
        hopped.driver,
        hopped.tuner,
        left,
        next,
    );
    reply::tuned(plain, hopped.tries, hopped.locked)
}

// The board's input path, which takes the tuner's record alone.
pub fn apply_input_path(
    tuner: &[u8],
    path: u64,
    outcomes: &[u8],
    replies: &[u8],
    room: &mut [u8],
    next: &mut [u8],
) -> Reply
    ensures { after result room.new next.new
        ≡ over_tuner (board_row (path_of path) replies.now) outcomes.now tuner.now room.old next.old }
{
    tuners::stepped(
        tuner,
        tuners::path_refusal(path),
        |t, lent| driver::apply_input_path(t, path as u8, outcomes, replies, lent),
        room,
        next,
    )
}
