// Commands of a serial line, run on both records: what crate `stream` reads is called here. Ours: no file of the Rust has it. Document 02, #105.
// The stream's nine bytes and both records are changed where they lie, so that a host keeps three arrays and hands them to each call.

#![tactic(auto)]

ghost use Rattle.std.specs.Prelude.{◌≡◌, ◌&&◌, true, length, Some};
ghost use Rattle.refusals.specs.declared.Answer.TheVariants.{Done, Refused};
ghost use Rattle.chip.specs.Entries.{no_tries};
ghost use Rattle.drivers.specs.Drivers.{hops};
ghost use Rattle.records.specs.Drivers.{driver_of};
ghost use Rattle.records.specs.Tuners.{tuner_of};
ghost use Rattle.reply.specs.Replies.{tuned_of};
ghost use Rattle.commands.specs.Over.{feed_over, feeds, fed_of, no_command, pending_answer, run_over};

use refusals::Answer;
use reply::{Reply, TuneReply};
use stream::{COMMAND, Command};

// A command's reply, or none; `used` bytes of the chunk were taken; `completed` is 1 where a command was, else 0; `pending` bytes wait.
#[repr(C)]
#[derive(Clone, Copy)]
pub struct FeedReply {
    pub value: u64,
    pub index: u64,
    pub used: u64,
    pub refusal: u32,
    pub count: u32,
    pub tries: u32,
    pub locked: u32,
    pub completed: u32,
    pub pending: u32,
}

fn refuse(number: u8) -> TuneReply
    ensures { result ≡ no_command (Refused number) }
{
    let plain = tuners::refuse(number);
    reply::tuned(plain, 0, false)
}

// The reply where no command was completed.
fn none() -> TuneReply
    ensures { result ≡ no_command (Done 0) }
{
    let plain = reply::numbers(Answer::Done(0), 0);
    reply::tuned(plain, 0, false)
}

// What a call that tells nothing of the lock hands back.
fn still(told: Reply) -> TuneReply
    ensures { result ≡ tuned_of told no_tries }
{
    reply::tuned(told, 0, false)
}

// The exported call that a command makes, on the bytes of records that are in their ranges. Both records' copies stand beside them.
fn call_over(
    command: Command,
    before: &[u8],
    given: &[u8],
    driver: &mut [u8],
    tuner: &mut [u8],
    table: &[u8],
    outcomes: &[u8],
    replies: &[u8],
    room: &mut [u8],
) -> TuneReply
    requires { (before.now ≡ driver.old) × (given.now ≡ tuner.old) × (((driver_of driver.old).ok && (tuner_of tuner.old).ok) ≡ true) }
    ensures { hops result room.new driver.new tuner.new
        ≡ run_over (Some command) table.now replies.now outcomes.now driver.old tuner.old room.old }
{
    match command {
        Command::Frequency(hz) => tuners::set_frequency(given, hz, outcomes, replies, room, tuner),
        Command::Rate(hz) => still(drivers::set_sample_rate(
            before, given, table, hz, outcomes, room, driver, tuner,
        )),
        Command::GainDb(db) => still(tuners::set_gain(given, db, outcomes, room, tuner)),
        Command::GainIndex(k) => {
            still(tuners::set_gain_by_index(given, k as usize, outcomes, room, tuner))
        }
        Command::Bandwidth(hz) => still(tuners::set_bandwidth(given, hz, outcomes, room, tuner)),
        Command::Correction(ppm) => still(drivers::set_ppm(tuner, driver, ppm)),
        Command::Reload => still(tuners::reload(given, outcomes, room, tuner)),
    }
}

// A command on both records' bytes, where they lie.
fn run_over(
    command: Option<Command>,
    driver: &mut [u8],
    tuner: &mut [u8],
    table: &[u8],
    outcomes: &[u8],
    replies: &[u8],
    room: &mut [u8],
) -> TuneReply
    ensures { hops result room.new driver.new tuner.new
        ≡ run_over command table.now replies.now outcomes.now driver.old tuner.old room.old }
{
    let Some(known) = command else {
        return refuse(refusals::COMMAND);
    };
    if drivers::read_both(driver, tuner).is_none() {
        return refuse(refusals::SETUP);
    }
    // A call reads the given record and writes the next one into a slice of its own: so the given bytes are copied where both lie in one place.
    let before = <[u8; 29]>::try_from(&*driver).unwrap();
    let given = <[u8; 78]>::try_from(&*tuner).unwrap();
    call_over(
        known, &before, &given, driver, tuner, table, outcomes, replies, room,
    )
}

fn fed(r: TuneReply, used: usize, completed: u32, pending: u32) -> FeedReply
    ensures { result ≡ fed_of r used completed pending }
{
    FeedReply {
        value: r.value,
        index: r.index,
        used: used as u64,
        refusal: r.refusal,
        count: r.count,
        tries: r.tries,
        locked: r.locked,
        completed: completed,
        pending: pending,
    }
}

// A chunk, up to one completed command, whose script and room are lent here. Where none is completed, nothing but the stream's bytes is looked at, so that
// no cut can be seen.
pub fn feed(
    stream: &mut [u8],
    driver: &mut [u8],
    tuner: &mut [u8],
    table: &[u8],
    chunk: &[u8],
    outcomes: &[u8],
    replies: &[u8],
    room: &mut [u8],
) -> FeedReply
    ensures { feeds result stream.new driver.new tuner.new room.new
        ≡ feed_over table.now chunk.now replies.now outcomes.now stream.old driver.old tuner.old room.old }
{
    let Some(got) = stream::gather(stream, chunk) else {
        return fed(refuse(refusals::SETUP), 0, 0, 0);
    };
    let image = stream::image(got);
    wire::copy(stream, 0, &image);
    let count = got.count;
    if count < COMMAND {
        return fed(none(), got.used, 0, count as u32);
    }
    let bytes = got.bytes;
    let command = stream::command_of(&bytes);
    let plain = run_over(command, driver, tuner, table, outcomes, replies, room);
    fed(plain, got.used, 1, 0)
}

// How many bytes wait for the rest of their command.
pub fn pending(stream: &[u8]) -> Answer
    ensures { result ≡ pending_answer stream.now }
{
    match stream::pending_count(stream) {
        Some(held) => Answer::Done(held as u64),
        None => Answer::Refused(refusals::SETUP),
    }
}
