// The driver's record and its calls: `corrected_xtal_hz`, `set_sample_rate` and `apply_input_path` of src/lib.rs, with our making and the one correction.
// Document 01, "The record": "The driver's record holds board, nominal .., ppm, frequency and rate, all given at its making"; "`set_sample_rate` takes
// both records". Document 02, #104: the true rate beside the rate asked; #109: one correction of both records. `sample_rate_steps` and `path_steps` are what a larger call holds: they look at no board.

#![tactic(auto)]

ghost use Rattle.std.specs.Prelude.{◌≡◌, cond, eqb, [], ◌+◌, ◌*◌, ◌≤◌, ◌<◌, length};
ghost use Rattle.bands.specs.Tables.{plan_by};
ghost use Rattle.chip.specs.Calls.{called};
ghost use Rattle.chip.specs.InCode.{in_room, on_room};
ghost use Rattle.chip.specs.Steps.{closing_owed, run};
ghost use Rattle.registers.specs.Rates.{rate_number};
ghost use Rattle.driver.specs.Record.{driver_of, nothing_made, xtal_by, xtal_of};
ghost use Rattle.driver.specs.Programs.{demod_setup, board_path_steps, filter_steps, if_for, level_for, sample_rate_steps, tuner_path};
ghost use Rattle.driver.specs.InCode.{correction_answer, correction_refusal, kept_ppm, kept_reference};
ghost use Rattle.driver.specs.Calls.{both, board_result, correction_call, rate_argument, rate_result, rated_by, retuned, xtal_answer};

use bands::Planned;
use board::{Board, Path};
use chip::{Chip, Flow, Progress};
use pll::Kind;
use r82xx::Tuner;
use refusals::Answer;

#[derive(Clone, Copy)]
pub struct Driver {
    pub board: Board,
    pub nominal: u32,
    pub ppm: i32,
    pub frequency: u64,
    // The rate asked, and the one that is had for it: 0 until one is set.
    pub rate: u32,
    pub actual: u64,
}

// A record that was asked for: made, or refused, and then nothing of it counts.
#[derive(Clone, Copy)]
pub struct Made {
    pub answer: Answer,
    pub driver: Driver,
}

// What a correction hands back: both next records and its answer. It makes no entries.
#[derive(Clone, Copy)]
pub struct CorrectionResult {
    pub tuner: Tuner,
    pub driver: Driver,
    pub answer: Answer,
}

// What `set_sample_rate` hands back: both next records, its answer, how many entries it made.
#[derive(Clone, Copy)]
pub struct Rated {
    pub tuner: Tuner,
    pub driver: Driver,
    pub answer: Answer,
    pub count: usize,
}

// The pin that switches the V4's input.
const INPUT_PIN: u8 = 5;

// The corrected reference, 0 where it is out of its range.
pub fn xtal_by(nominal: u32, ppm: i32) -> u32
    ensures { result ≡ xtal_by nominal ppm }
{
    reference::correct(nominal, ppm).unwrap_or(0)
}

fn nothing(number: u8) -> Made
    ensures { result ≡ nothing_made number }
{
    Made {
        answer: Answer::Refused(number),
        driver: Driver {
            board: Board::Generic,
            nominal: 1,
            ppm: 0,
            frequency: 0,
            rate: 0,
            actual: 0,
        },
    }
}

// An IF of 0 stays 0; else by the rate, and none for narrow ones.
fn if_for(current: u64, rate: u32) -> u32
    ensures { result ≡ if_for current rate }
{
    if current == 0 {
        return 0;
    }
    if 2_500_000 <= rate {
        return 3_570_000;
    }
    if 1_000_000 <= rate {
        return 2_300_000;
    }
    0
}

// GPIO 5 is low for HF, and high for the other two.
fn level(path: Path) -> u8
    ensures { result ≡ level_for path }
{
    match path {
        Path::Hf => 0,
        Path::Vhf => 1,
        Path::Uhf => 1,
    }
}

// The tuner's IF and its bandwidth.
fn filter_steps(f: Flow, hz: u32, rate: u32, outcomes: &[u8], room: &mut [u8]) -> Flow
    requires { (f.log.count + 7 ≤ length outcomes.now) × (16 * (f.log.count + 7) ≤ length room.old) }
    ensures room_after { on_room result room.new ≡ run in_room outcomes.now (filter_steps hz rate) (on_room f room.old) }
    ensures bounds { result.log.count + closing_owed result.log.opened ≤ f.log.count + 7 }
{
    let mut chip = f.chip;
    let set = writes::set_if_bandwidth(
        f.log,
        chip.address,
        hz as u64,
        &mut chip.shadow,
        &mut chip.doubtful,
        outcomes,
        room,
    );
    let log = writes::set_bandwidth(
        set,
        chip.address,
        rate,
        &mut chip.shadow,
        &mut chip.doubtful,
        outcomes,
        room,
    );
    Flow {
        chip: chip,
        log: log,
    }
}

// The demodulator is set up again: reset, rate, IF.
fn demod_setup(f: Flow, hz: u32, rate: u32, xtal: u32, outcomes: &[u8], room: &mut [u8]) -> Flow
    requires { (0 < rate) × (0 < xtal) × (f.log.count + 9 + closing_owed f.log.opened ≤ length outcomes.now) × (16 * (f.log.count + 9 + closing_owed f.log.opened) ≤ length room.old) }
    ensures room_after { on_room result room.new ≡ run in_room outcomes.now (demod_setup hz rate xtal) (on_room f room.old) }
    ensures bounds { result.log.count + closing_owed result.log.opened ≤ f.log.count + 9 + closing_owed f.log.opened }
{
    let reset = demod::reset_steps(f, outcomes, room);
    let rated = demod::rate_steps(reset, rate, xtal, outcomes, room);
    demod::if_steps(rated, hz, xtal, outcomes, room)
}

// `set_sample_rate` after its refusals, with the IF worked out and the spectrum inverted or not.
fn sample_rate_steps(
    f: Flow,
    hz: u32,
    rate: u32,
    xtal: u32,
    inverted: bool,
    outcomes: &[u8],
    room: &mut [u8],
) -> Flow
    requires { (0 < rate) × (0 < xtal) × (f.log.count + 17 ≤ length outcomes.now) × (16 * (f.log.count + 17) ≤ length room.old) }
    ensures room_after { on_room result room.new ≡ run in_room outcomes.now (sample_rate_steps hz rate xtal inverted) (on_room f room.old) }
    ensures bounds { result.log.count + closing_owed result.log.opened ≤ f.log.count + 17 }
{
    let tuned = filter_steps(f, hz, rate, outcomes, room);
    let anew = demod_setup(tuned, hz, rate, xtal, outcomes, room);
    demod::ddc(anew, inverted, outcomes, room)
}

// The tuner's own path, which an R820T does not have.
fn tuner_path(f: Flow, kind: Kind, path: Path, outcomes: &[u8], room: &mut [u8]) -> Flow
    requires { (f.log.count + 4 + closing_owed f.log.opened ≤ length outcomes.now) × (16 * (f.log.count + 4 + closing_owed f.log.opened) ≤ length room.old) }
    ensures room_after { on_room result room.new ≡ run in_room outcomes.now (tuner_path kind path) (on_room f room.old) }
    ensures bounds { result.log.count + closing_owed result.log.opened ≤ f.log.count + 4 + closing_owed f.log.opened }
{
    match kind {
        Kind::R820T => f,
        Kind::R828D => chip::with_repeater(f, &writes::path_updates(path), outcomes, room),
    }
}

// `apply_input_path` after its refusals, over its own part of the replies.
pub fn path_steps(
    f: Flow,
    kind: Kind,
    path: Path,
    outcomes: &[u8],
    replies: &[u8],
    room: &mut [u8],
) -> Flow
    requires { (3 ≤ length replies.now) × (f.log.count + 10 + closing_owed f.log.opened ≤ length outcomes.now) × (16 * (f.log.count + 10 + closing_owed f.log.opened) ≤ length room.old) }
    ensures room_after { on_room result room.new ≡ run in_room outcomes.now (board_path_steps kind path replies.now) (on_room f room.old) }
    ensures bounds { result.log.count + closing_owed result.log.opened ≤ f.log.count + 10 + closing_owed f.log.opened }
{
    let driven = device::gpio_output(f, INPUT_PIN, replies[0], replies[1], outcomes, room);
    let switched = device::gpio_bit(driven, INPUT_PIN, level(path), replies[2], outcomes, room);
    tuner_path(switched, kind, path, outcomes, room)
}

// A malformed table is refused before the rate.
fn rate_argument(table: u8, rate: u8) -> u8
    ensures { result ≡ cond (eqb table 19) 19 rate }
{
    if table == refusals::TABLE {
        return refusals::TABLE;
    }
    rate
}

// The tuner's record after a rate: the IF has changed whether or not its writes were done.
fn retune(tuner: Tuner, hz: u32, chip: Chip) -> Tuner
    ensures { result ≡ retuned tuner hz chip }
{
    Tuner {
        ifreq: hz as u64,
        chip: chip,
        ..tuner
    }
}

// The driver's record after a rate: the rate asked and the true one.
fn with_rate(d: Driver, rate: u32, xtal: u32, progress: Progress) -> Driver
    requires { rate_number rate xtal ≡ 0 }
    ensures { result ≡ rated_by d rate xtal progress }
{
    let Progress::Going = progress else {
        return d;
    };
    let mut next = d;
    next.rate = rate;
    next.actual = registers::true_rate(rate, xtal);
    next
}

// The number that a correction is refused by: 1 for either record, then 4 for either reference, 0 for none. Given are the tuner's nominal and corrected
// reference, the driver's nominal and ppm, and the ppm asked.
fn correction_refusal(nominal: u32, corrected: u32, other: u32, had: i32, ppm: i32) -> u8
    ensures { result ≡ correction_refusal nominal corrected other had ppm }
{
    let whole = r82xx::sound(nominal, corrected) & (1 <= xtal_by(other, had));
    if !whole {
        return refusals::SETUP;
    }
    let taken = (1 <= xtal_by(nominal, ppm)) & (1 <= xtal_by(other, ppm));
    if !taken {
        return refusals::CORRECTION;
    }
    0
}

// The tuner's corrected reference after it: the old one where it is refused.
fn kept_reference(nominal: u32, corrected: u32, other: u32, had: i32, ppm: i32) -> u32
    ensures { result ≡ kept_reference nominal corrected other had ppm }
{
    if correction_refusal(nominal, corrected, other, had, ppm) != 0 {
        return corrected;
    }
    xtal_by(nominal, ppm)
}

// The driver's ppm after it, likewise.
fn kept_ppm(nominal: u32, corrected: u32, other: u32, had: i32, ppm: i32) -> i32
    ensures { result ≡ kept_ppm nominal corrected other had ppm }
{
    if correction_refusal(nominal, corrected, other, had, ppm) != 0 {
        return had;
    }
    ppm
}

fn correction_answer(nominal: u32, corrected: u32, other: u32, had: i32, ppm: i32) -> Answer
    ensures { result ≡ correction_answer nominal corrected other had ppm }
{
    let number = correction_refusal(nominal, corrected, other, had, ppm);
    if number != 0 {
        return Answer::Refused(number);
    }
    Answer::Done(0)
}

// Both records are changed in place, or neither. It calls covered functions on numbers and stores a field of each record, with no branch: a refusal
// stores what was there.
pub fn set_ppm(t: &mut Tuner, d: &mut Driver, ppm: i32) -> Answer
    ensures { called (both t.new d.new) [] 0 result ≡ correction_call ppm t.old d.old }
{
    let nominal = t.nominal;
    let corrected = t.corrected;
    let other = d.nominal;
    let had = d.ppm;
    t.corrected = kept_reference(nominal, corrected, other, had, ppm);
    d.ppm = kept_ppm(nominal, corrected, other, had, ppm);
    correction_answer(nominal, corrected, other, had, ppm)
}

// `set_ppm` for callers that hold the records by value: it lends its own copies, so that the proof of a caller has no reference to follow.
pub fn corrected(mut t: Tuner, mut d: Driver, ppm: i32) -> CorrectionResult
    ensures { called (both result.tuner result.driver) [] 0 result.answer ≡ correction_call ppm t d }
{
    let answer = set_ppm(&mut t, &mut d, ppm);
    CorrectionResult {
        tuner: t,
        driver: d,
        answer: answer,
    }
}

impl Driver {
    // board: 0 generic, 1 V4.
    pub fn new(board: u64, nominal: u64, ppm: i32, frequency: u64, rate: u32) -> Made
        ensures { result ≡ driver_of board nominal ppm frequency rate }
    {
        let Some(named) = board::board_of(board) else {
            return nothing(refusals::SETUP);
        };
        if nominal < 1 {
            return nothing(refusals::SETUP);
        }
        if 4_294_967_295 < nominal {
            return nothing(refusals::SETUP);
        }
        let small = nominal as u32;
        if xtal_by(small, ppm) < 1 {
            return nothing(refusals::CORRECTION);
        }
        Made {
            answer: Answer::Done(0),
            driver: Driver {
                board: named,
                nominal: small,
                ppm: ppm,
                frequency: frequency,
                rate: rate,
                actual: 0,
            },
        }
    }

    pub fn corrected_xtal_hz(self) -> Answer
        ensures { result ≡ xtal_answer (xtal_of self) }
    {
        let xtal = xtal_by(self.nominal, self.ppm);
        if xtal < 1 {
            return Answer::Refused(refusals::SETUP);
        }
        Answer::Done(xtal as u64)
    }

    // The number that a rate is refused by with this record's reference and a table's plan, 0 where it is taken.
    pub fn rate_refusal(self, planned: Planned, rate: u32) -> u8
        ensures { result ≡ rate_argument rate planned self }
    {
        let corrected = xtal_by(self.nominal, self.ppm);
        let number = registers::rate_number(rate, corrected);
        rate_argument(planned.refusal, number)
    }

    // `set_sample_rate` with the table's plan worked out already: a caller that needed the plan before, to refuse the call, works it out once.
    pub fn rate_planned(
        self,
        tuner: Tuner,
        planned: Planned,
        rate: u32,
        outcomes: &[u8],
        room: &mut [u8],
    ) -> Rated
        ensures { called (both result.tuner result.driver) room.new result.count result.answer
            ≡ rate_result rate planned outcomes.now tuner self room.old }
    {
        let xtal = xtal_by(self.nominal, self.ppm);
        let whole = r82xx::sound(tuner.nominal, tuner.corrected) & (1 <= xtal);
        let ratio = registers::rate_number(rate, xtal);
        let argument = rate_argument(planned.refusal, ratio);
        let number = chip::refusal(whole, argument, 17, 0, room.len(), outcomes.len(), 0);
        if number != 0 {
            return Rated {
                tuner: tuner,
                driver: self,
                answer: Answer::Refused(number),
                count: 0,
            };
        }
        let inverted = planned.plan.inverted;
        let hz = if_for(tuner.ifreq, rate);
        let start = Flow {
            chip: tuner.chip,
            log: chip::START,
        };
        let f = sample_rate_steps(start, hz, rate, xtal, inverted, outcomes, room);
        Rated {
            tuner: retune(tuner, hz, f.chip),
            driver: with_rate(self, rate, xtal, f.log.progress),
            answer: chip::finish(f, Answer::Done(0), room),
            count: f.log.count,
        }
    }

    pub fn set_sample_rate(
        self,
        tuner: Tuner,
        table: &[u8],
        rate: u32,
        outcomes: &[u8],
        room: &mut [u8],
    ) -> Rated
        ensures { called (both result.tuner result.driver) room.new result.count result.answer
            ≡ rate_result rate (plan_by table.now self.frequency) outcomes.now tuner self room.old }
    {
        let planned = bands::plan_by_table(table, self.frequency);
        self.rate_planned(tuner, planned, rate, outcomes, room)
    }
}

// path: 0 HF, 1 VHF, 2 UHF. The board's switch by GPIO 5, then the tuner's own path.
pub fn apply_input_path(
    tuner: Tuner,
    path: u8,
    outcomes: &[u8],
    replies: &[u8],
    room: &mut [u8],
) -> r82xx::TunerResult
    ensures { called result.tuner room.new result.count result.answer
        ≡ board_result path replies.now outcomes.now tuner room.old }
{
    let Some(by) = board::path_of(path) else {
        return r82xx::refused(tuner, refusals::SETUP);
    };
    let whole = r82xx::sound(tuner.nominal, tuner.corrected);
    let number = chip::refusal(whole, 0, 10, 3, room.len(), outcomes.len(), replies.len());
    if number != 0 {
        return r82xx::refused(tuner, number);
    }
    let start = Flow {
        chip: tuner.chip,
        log: chip::START,
    };
    let f = path_steps(start, tuner.kind, by, outcomes, replies, room);
    r82xx::TunerResult {
        tuner: Tuner {
            chip: f.chip,
            ..tuner
        },
        answer: chip::finish(f, Answer::Done(0), room),
        count: f.log.count,
    }
}
