// The board-level tune: a board's table gives the plan, then the notch, the board's input path, the tuning and the DDC sync byte. Ours, in place of
// `Driver::set_frequency` of src/lib.rs, whose order is another. Document 02, #113.

#![tactic(auto)]

ghost use Rattle.std.specs.Prelude.{◌≡◌, cond, ◌+◌, ◌*◌, ◌≤◌, ◌<◌, length};
ghost use Rattle.chip.specs.Calls.{called, performed, lock_tries_in};
ghost use Rattle.chip.specs.Entries.{lock_tries};
ghost use Rattle.chip.specs.InCode.{in_room, on_room};
ghost use Rattle.chip.specs.Steps.{closing_owed, run, trace};
ghost use Rattle.driver.specs.Calls.{both};
ghost use Rattle.tuning.specs.Program.{divider_number, tune_answer};
ghost use Rattle.bands.specs.Tables.{plan_by};
ghost use Rattle.boards.specs.Hops.{ddc_part, heard_by, hop_kept, hop_refusal, hop_result, hop_lock_tries, hop_steps, path_part, path_replies};

use bands::Planned;
use board::{Path, Plan};
use chip::Flow;
use driver::Driver;
use pll::Kind;
use r82xx::Tuner;
use refusals::Answer;
use tuning::Tuning;

// What a hop hands back: both next records, its answer, how many entries it made, and of the lock what a tuning tells.
#[derive(Clone, Copy)]
pub struct Hopped {
    pub tuner: Tuner,
    pub driver: Driver,
    pub answer: Answer,
    pub count: usize,
    pub tries: u16,
    pub locked: bool,
}

// The board's path, which an R820T is not switched by, and which a plan may not have.
fn path_part(
    f: Flow,
    kind: Kind,
    route: Option<Path>,
    outcomes: &[u8],
    replies: &[u8],
    room: &mut [u8],
) -> Flow
    requires { (3 ≤ length replies.now) × (f.log.count + 10 + closing_owed f.log.opened ≤ length outcomes.now) × (16 * (f.log.count + 10 + closing_owed f.log.opened) ≤ length room.old) }
    ensures room_after { on_room result room.new ≡ run in_room outcomes.now (path_part kind route replies.now) (on_room f room.old) }
    ensures bounds { result.log.count + closing_owed result.log.opened ≤ f.log.count + 10 + closing_owed f.log.opened }
{
    match kind {
        Kind::R820T => f,
        Kind::R828D => match route {
            None => f,
            Some(path) => driver::path_steps(f, Kind::R828D, path, outcomes, replies, room),
        },
    }
}

// How many of the replies it takes.
fn path_replies(kind: Kind, route: Option<Path>) -> usize
    ensures { (result ≡ path_replies kind route) × (result ≤ 3) }
{
    match kind {
        Kind::R820T => 0,
        Kind::R828D => match route {
            None => 0,
            Some(_) => 3,
        },
    }
}

// The DDC byte, where the PLL has a plan.
fn ddc_part(
    f: Flow,
    plan: Option<pll::Plan>,
    inverted: bool,
    outcomes: &[u8],
    room: &mut [u8],
) -> Flow
    requires { (f.log.count + 1 + closing_owed f.log.opened ≤ length outcomes.now) × (16 * (f.log.count + 1 + closing_owed f.log.opened) ≤ length room.old) }
    ensures room_after { on_room result room.new ≡ run in_room outcomes.now (ddc_part plan inverted) (on_room f room.old) }
    ensures bounds { result.log.count + closing_owed result.log.opened ≤ f.log.count + 1 + closing_owed f.log.opened }
{
    match plan {
        None => f,
        Some(_) => demod::ddc(f, inverted, outcomes, room),
    }
}

// Path, tuning, DDC byte.
fn hop_steps(
    f: Flow,
    kind: Kind,
    plan: Plan,
    by: Option<pll::Plan>,
    outcomes: &[u8],
    replies: &[u8],
    room: &mut [u8],
) -> Flow
    requires { (divider_number by ≤ 5) × (38 ≤ length replies.now) × (f.log.count + 64 + closing_owed f.log.opened ≤ length outcomes.now) × (16 * (f.log.count + 64 + closing_owed f.log.opened) ≤ length room.old) }
    ensures room_after { on_room result room.new
        ≡ run in_room outcomes.now (hop_steps kind f.chip.address plan by replies.now) (on_room f room.old) }
    ensures bounds { result.log.count + closing_owed result.log.opened ≤ f.log.count + 64 + closing_owed f.log.opened }
{
    let route = plan.path;
    let at = path_replies(kind, route);
    let pathed = path_part(f, kind, route, outcomes, replies, room);
    let request = Tuning {
        kind: kind,
        notch: plan.notch,
        plan: by,
        hz: plan.hz,
    };
    let tuned = tuning::tune(pathed, request, outcomes, &replies[at..], room);
    ddc_part(tuned, by, plan.inverted, outcomes, room)
}

// The number that it is refused by before any lent slice is looked at, 0 for none: 19, then 2.
pub fn hop_refusal(p: Planned, ifreq: u64) -> u8
    ensures { result ≡ hop_refusal p ifreq }
{
    if p.refusal != 0 {
        return p.refusal;
    }
    r82xx::hz_refusal(p.plan.hz, ifreq)
}

// The driver's record after it.
fn heard(d: Driver, hz: u64, answer: Answer) -> Driver
    ensures { result ≡ heard_by d hz answer }
{
    let next = Driver { frequency: hz, ..d };
    match answer {
        Answer::Done(_) => next,
        Answer::Refused(_) => d,
        Answer::Stopped(_) => d,
    }
}

// The steps by both plans; all that they may need is lent.
fn hop(
    driver: Driver,
    tuner: Tuner,
    plan: Plan,
    by: Option<pll::Plan>,
    hz: u64,
    outcomes: &[u8],
    replies: &[u8],
    room: &mut [u8],
) -> Hopped
    requires { (divider_number by ≤ 5) × (38 ≤ length replies.now) × (64 ≤ length outcomes.now) × (1032 ≤ length room.old) }
    ensures { (called (both result.tuner result.driver) room.new result.count result.answer
        ≡ performed (tune_answer by hz) (hop_kept tuner driver plan (tune_answer by hz) hz) room.old
        (trace outcomes.now (hop_steps tuner.kind tuner.chip.address plan by replies.now) tuner.chip))
        × (lock_tries result.tries result.locked ≡ lock_tries_in (trace outcomes.now (hop_steps tuner.kind tuner.chip.address plan by replies.now) tuner.chip).log) }
{
    let start = Flow {
        chip: tuner.chip,
        log: chip::START,
    };
    let f = hop_steps(start, tuner.kind, plan, by, outcomes, replies, room);
    let answered = chip::finish(f, tuning::whole_answer(by, hz), room);
    let lock = f.log.lock;
    Hopped {
        tuner: Tuner {
            chip: f.chip,
            notch: plan.notch,
            lock: tuning::lock_after(lock, tuner.lock),
            ..tuner
        },
        driver: heard(driver, hz, answered),
        answer: answered,
        count: f.log.count,
        tries: lock.tries,
        locked: lock.locked,
    }
}

// The board-level tune with the table's plan worked out already: a caller that needed the plan before, to refuse the call, works it out once.
pub fn tune_planned(
    driver: Driver,
    tuner: Tuner,
    planned: Planned,
    hz: u64,
    outcomes: &[u8],
    replies: &[u8],
    room: &mut [u8],
) -> Hopped
    ensures { (called (both result.tuner result.driver) room.new result.count result.answer
        ≡ hop_result planned hz replies.now outcomes.now tuner driver room.old)
        × (lock_tries result.tries result.locked ≡ hop_lock_tries planned hz replies.now outcomes.now tuner driver room.old) }
{
    let whole = r82xx::sound(tuner.nominal, tuner.corrected)
        & (1 <= driver::xtal_by(driver.nominal, driver.ppm));
    let argument = hop_refusal(planned, tuner.ifreq);
    let number = chip::refusal(
        whole,
        argument,
        64,
        38,
        room.len(),
        outcomes.len(),
        replies.len(),
    );
    if number != 0 {
        return Hopped {
            tuner: tuner,
            driver: driver,
            answer: Answer::Refused(number),
            count: 0,
            tries: 0,
            locked: false,
        };
    }
    let plan = planned.plan;
    let by = pll::plan_pll(tuner.kind, plan.hz + tuner.ifreq, tuner.corrected);
    hop(driver, tuner, plan, by, hz, outcomes, replies, room)
}

pub fn tune_board(
    driver: Driver,
    tuner: Tuner,
    table: &[u8],
    hz: u64,
    outcomes: &[u8],
    replies: &[u8],
    room: &mut [u8],
) -> Hopped
    ensures { (called (both result.tuner result.driver) room.new result.count result.answer
        ≡ hop_result (plan_by table.now hz) hz replies.now outcomes.now tuner driver room.old)
        × (lock_tries result.tries result.locked ≡ hop_lock_tries (plan_by table.now hz) hz replies.now outcomes.now tuner driver room.old) }
{
    let planned = bands::plan_by_table(table, hz);
    tune_planned(driver, tuner, planned, hz, outcomes, replies, room)
}
