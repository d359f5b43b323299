// The tuner's record and its calls: src/tuners/r82xx.rs but for logging, clocks and `get_filters`, with our reload.
// Document 01, "The record": "Each operation hands the record back with its answer"; a method takes the record by value and returns the next one,
// the answer and how many entries were made. A record out of its ranges is refused 1 first, by every call.

#![tactic(auto)]

ghost use Rattle.std.specs.Prelude.{◌≡◌, true, false, cond, List, [], ℕ, ◌+◌, ◌*◌, ◌≤◌, ◌<◌, length};
ghost use Rattle.std.specs.Float.{binary32};
ghost use Rattle.std.specs.Float.Ieee.{to_bits};
ghost use Rattle.chip.specs.Calls.{answer_of, called, performed, lock_tries_in};
ghost use Rattle.refusals.specs.declared.Answer.TheVariants.{Done, Refused};
ghost use Rattle.chip.specs.declared.Progress.TheVariants.{Going};
ghost use Rattle.chip.specs.Entries.{lock_tries, no_tries};
ghost use Rattle.chip.specs.InCode.{logged, on_room, sealed};
ghost use Rattle.chip.specs.Steps.{all_in, goes, line, trace};
ghost use Rattle.chip.specs.Courses.{left_by};
ghost use Rattle.tuning.specs.Program.{divider_number, tune_answer};
ghost use Rattle.r82xx.specs.Record.{fresh_tuner, made_of, sound, sound_by, with_chip};
ghost use Rattle.r82xx.specs.InCode.{kept_notch, sound_answer};
ghost use Rattle.r82xx.specs.Calls.{hz_refusal, refusal_of};
ghost use Rattle.r82xx.specs.Orders.{bracket, lock_kept, quietly, result_of, lock_tries_of, table_of, tune_of};
ghost use Rattle.r82xx.specs.Orders.Order.{Initialize, Reload, Bandwidth, IfFreq, Gain, GainIndex, InputPath, Tune, Notch, GainTold, IfTold};

use chip::{Chip, Flow, Progress, Update};
use pll::{Kind, Plan};
use refusals::Answer;
use tuning::Tuning;
use writes::{IF_FREQ_NARROW, INIT_ARRAY};

#[derive(Clone, Copy)]
pub struct Tuner {
    pub kind: Kind,
    pub chip: Chip,
    pub nominal: u32,
    pub corrected: u32,
    pub lock: bool,
    pub gain: f32,
    pub ifreq: u64,
    pub notch: bool,
}

// A record that was asked for: made, or refused, and then nothing of it counts.
#[derive(Clone, Copy)]
pub struct Made {
    pub answer: Answer,
    pub tuner: Tuner,
}

// What a call hands back: the next record, its answer, how many entries it made.
#[derive(Clone, Copy)]
pub struct TunerResult {
    pub tuner: Tuner,
    pub answer: Answer,
    pub count: usize,
}

// What a tuning hands back. #101: "locked or not with the number of tries". `locked` is not the record's lock: it is told of this tuning alone, so that it
// is false where the tuning was refused or cut before a try read the lock bit.
#[derive(Clone, Copy)]
pub struct TuneResult {
    pub told: TunerResult,
    pub tries: u16,
    pub locked: bool,
}

// The gain table, with its answer.
#[derive(Clone, Copy)]
pub struct Table {
    pub answer: Answer,
    pub steps: [i32; 29],
}

fn fresh(kind: Kind, address: u8, nominal: u32) -> Tuner
    ensures { result ≡ fresh_tuner kind address nominal }
{
    Tuner {
        kind: kind,
        chip: Chip {
            address: address,
            shadow: INIT_ARRAY,
            doubtful: [true; 27],
        },
        nominal: nominal,
        corrected: nominal,
        lock: false,
        gain: 0.0,
        ifreq: IF_FREQ_NARROW,
        notch: false,
    }
}

// "A given record out of its ranges": no reference is zero.
pub fn sound(nominal: u32, corrected: u32) -> bool
    ensures { result ≡ sound_by nominal corrected }
{
    (1 <= nominal) & (1 <= corrected)
}

// A call that is refused before its steps.
pub fn refused(tuner: Tuner, number: u8) -> TunerResult
    ensures { (room : List ℕ) → called result.tuner room result.count result.answer ≡ called tuner room 0 (Refused number) }
{
    TunerResult {
        tuner: tuner,
        answer: Answer::Refused(number),
        count: 0,
    }
}

// "gain only when all are done". It takes the number alone: to choose between two whole records would cost more than the writes.
fn kept_gain(progress: Progress, old: f32, new: f32) -> f32
    ensures { result ≡ cond (goes progress) new old }
{
    let Progress::Going = progress else {
        return old;
    };
    new
}

// "2 frequency | hz 0; hz + IF over u64".
pub fn hz_refusal(hz: u64, ifreq: u64) -> u8
    ensures { result ≡ hz_refusal hz ifreq }
{
    if hz == 0 || hz.checked_add(ifreq).is_none() {
        return refusals::FREQUENCY;
    }
    0
}

fn sound_answer(nominal: u32, corrected: u32, value: u64) -> Answer
    ensures { result ≡ sound_answer nominal corrected value }
{
    if sound(nominal, corrected) {
        Answer::Done(value)
    } else {
        Answer::Refused(refusals::SETUP)
    }
}

fn kept_notch(nominal: u32, corrected: u32, old: bool, on: bool) -> bool
    ensures { result ≡ kept_notch nominal corrected old on }
{
    if sound(nominal, corrected) { on } else { old }
}

// Document 01: "only `set_ppm` and `apply_notch` change the caller's record where it lies"; the former is crate driver's since #109. It calls covered functions on
// numbers and stores one field, with no branch: a refusal stores what was there.
pub fn apply_notch(t: &mut Tuner, on: bool) -> Answer
    ensures { (result ≡ (quietly (Notch on) t.old).answer) × (t.new ≡ (quietly (Notch on) t.old).next) }
{
    t.notch = kept_notch(t.nominal, t.corrected, t.notch, on);
    sound_answer(t.nominal, t.corrected, 0)
}

impl Tuner {
    // kind: 0 R820T, 1 R828D.
    pub fn new(kind: u64, address: u8, nominal: u64) -> Made
        ensures { result ≡ made_of kind address nominal }
    {
        let refused = Made {
            answer: Answer::Refused(refusals::SETUP),
            tuner: fresh(Kind::R820T, 0, 1),
        };
        if nominal < 1 {
            return refused;
        }
        if 4_294_967_295 < nominal {
            return refused;
        }
        let small = nominal as u32;
        if kind == 0 {
            return Made {
                answer: Answer::Done(0),
                tuner: fresh(Kind::R820T, address, small),
            };
        }
        if kind == 1 {
            return Made {
                answer: Answer::Done(0),
                tuner: fresh(Kind::R828D, address, small),
            };
        }
        refused
    }

    // 1 for the record, then an argument's refusal, then 8, 9, 10; 0 where nothing is refused.
    fn refusal(
        self,
        argument: u8,
        n: usize,
        m: usize,
        room: usize,
        outcomes: usize,
        replies: usize,
    ) -> u8
        requires { n ≤ 4096 }
        ensures { result ≡ refusal_of self argument n m room outcomes replies }
    {
        let whole = sound(self.nominal, self.corrected);
        chip::refusal(whole, argument, n, m, room, outcomes, replies)
    }

    // Before the first step of a call.
    fn start(self) -> Flow
        ensures begun { (room : List ℕ) → on_room result room ≡ line self.chip (logged room no_tries) 0 Going false }
        ensures none { result.log.count ≡ 0 }
    {
        Flow {
            chip: self.chip,
            log: chip::START,
        }
    }

    // After its last: the trailer is written, and the record holds the chip as the steps left it.
    fn ended(self, f: Flow, whole: Answer, room: &mut [u8]) -> TunerResult
        requires { (f.log.count ≤ 4096) × (16 * f.log.count + 8 ≤ length room.old) }
        ensures { called result.tuner room.new result.count result.answer
            ≡ called (with_chip self f.chip) (sealed room.old f.log.count) f.log.count (answer_of whole f.log.progress) }
    {
        TunerResult {
            tuner: Tuner {
                chip: f.chip,
                ..self
            },
            answer: chip::finish(f, whole, room),
            count: f.log.count,
        }
    }

    // A call of one bracket of masked writes: the record is `next` after them, done or not, with the chip's part as they left it.
    fn operate(self, next: Tuner, us: &[Update], outcomes: &[u8], room: &mut [u8]) -> TunerResult
        requires { (length us.now ≤ 14) × (all_in us.now ≡ true) }
        ensures { called result.tuner room.new result.count result.answer
            ≡ left_by (sound self) (bracket (length us.now) us.now (Done 0) next next) outcomes.now self.chip self room.old }
    {
        let number = self.refusal(0, us.len() + 2, 0, room.len(), outcomes.len(), 0);
        if number != 0 {
            return refused(self, number);
        }
        let start = self.start();
        let f = chip::with_repeater(start, us, outcomes, room);
        next.ended(f, Answer::Done(0), room)
    }

    pub fn set_bandwidth(mut self, hz: u32, outcomes: &[u8], room: &mut [u8]) -> TunerResult
        ensures { called result.tuner room.new result.count result.answer
            ≡ result_of (Bandwidth hz) outcomes.now self room.old }
    {
        let us = writes::bandwidth_updates(hz);
        self.operate(self, &us, outcomes, room)
    }

    // The IF changes before its writes are tried.
    pub fn set_if_freq(mut self, hz: u64, outcomes: &[u8], room: &mut [u8]) -> TunerResult
        ensures { called result.tuner room.new result.count result.answer
            ≡ result_of (IfFreq hz) outcomes.now self room.old }
    {
        let us = writes::if_updates(hz);
        let next = Tuner { ifreq: hz, ..self };
        self.operate(next, &us, outcomes, room)
    }

    // The gain changes only when all writes are done.
    pub fn set_gain_by_index(
        mut self,
        index: usize,
        outcomes: &[u8],
        room: &mut [u8],
    ) -> TunerResult
        ensures { called result.tuner room.new result.count result.answer
            ≡ result_of (GainIndex index) outcomes.now self room.old }
    {
        let k = gain::choose_index(index);
        let number = self.refusal(0, 7, 0, room.len(), outcomes.len(), 0);
        if number != 0 {
            return refused(self, number);
        }
        let actual = gain::gain_at(k);
        let bits = wire::bits_of(actual);
        let f = writes::gain_steps(self.start(), k, outcomes, room);
        let next = Tuner {
            gain: kept_gain(f.log.progress, self.gain, actual),
            ..self
        };
        next.ended(f, Answer::Done(bits as u64), room)
    }

    // The nearest step, then as by its index.
    pub fn set_gain(mut self, db: f32, outcomes: &[u8], room: &mut [u8]) -> TunerResult
        ensures { called result.tuner room.new result.count result.answer
            ≡ result_of (Gain db) outcomes.now self room.old }
    {
        self.set_gain_by_index(gain::choose(db), outcomes, room)
    }

    // path: 0 HF, 1 VHF, 2 UHF. R820T has one input: nothing is written, and no lent memory is looked at.
    pub fn set_input_path(mut self, path: u8, outcomes: &[u8], room: &mut [u8]) -> TunerResult
        ensures { called result.tuner room.new result.count result.answer
            ≡ result_of (InputPath path) outcomes.now self room.old }
    {
        let Some(by) = board::path_of(path) else {
            return refused(self, refusals::SETUP);
        };
        match self.kind {
            Kind::R820T => TunerResult {
                tuner: self,
                answer: sound_answer(self.nominal, self.corrected, 0),
                count: 0,
            },
            Kind::R828D => self.operate(self, &writes::path_updates(by), outcomes, room),
        }
    }

    pub fn initialize(mut self, outcomes: &[u8], room: &mut [u8]) -> TunerResult
        ensures { called result.tuner room.new result.count result.answer
            ≡ result_of Initialize outcomes.now self room.old }
    {
        let number = self.refusal(0, 19, 0, room.len(), outcomes.len(), 0);
        if number != 0 {
            return refused(self, number);
        }
        let f = writes::initialize(self.start(), outcomes, room);
        self.ended(f, Answer::Done(0), room)
    }

    // "Reload sends the attempted bytes in `initialize`'s chunks": since #106 they are the shadow, so nothing is set at its end.
    pub fn reload(mut self, outcomes: &[u8], room: &mut [u8]) -> TunerResult
        ensures { called result.tuner room.new result.count result.answer
            ≡ result_of Reload outcomes.now self room.old }
    {
        let number = self.refusal(0, 9, 0, room.len(), outcomes.len(), 0);
        if number != 0 {
            return refused(self, number);
        }
        let sent = writes::send_all(self.start(), self.chip.shadow, outcomes, room);
        self.ended(sent, Answer::Done(0), room)
    }

    // The steps of a tuning by its plan; all that they may need is lent.
    fn tune(
        mut self,
        plan: Option<Plan>,
        hz: u64,
        outcomes: &[u8],
        replies: &[u8],
        room: &mut [u8],
    ) -> TuneResult
        requires { (divider_number plan ≤ 5) × (35 ≤ length replies.now) × (53 ≤ length outcomes.now) × (856 ≤ length room.old) }
        ensures { (called result.told.tuner room.new result.told.count result.told.answer
            ≡ performed (tune_answer plan hz) (lock_kept self) room.old (trace outcomes.now (tune_of self plan hz replies.now) self.chip))
            × (lock_tries result.tries result.locked ≡ lock_tries_in (trace outcomes.now (tune_of self plan hz replies.now) self.chip).log) }
    {
        let by = Tuning {
            kind: self.kind,
            notch: self.notch,
            plan: plan,
            hz: hz,
        };
        let f = tuning::tune(self.start(), by, outcomes, replies, room);
        let lock = f.log.lock;
        let next = Tuner {
            lock: tuning::lock_after(lock, self.lock),
            ..self
        };
        TuneResult {
            told: next.ended(f, tuning::whole_answer(plan, hz), room),
            tries: lock.tries,
            locked: lock.locked,
        }
    }

    pub fn set_frequency(
        mut self,
        hz: u64,
        outcomes: &[u8],
        replies: &[u8],
        room: &mut [u8],
    ) -> TuneResult
        ensures { (called result.told.tuner room.new result.told.count result.told.answer
            ≡ result_of (Tune hz replies.now) outcomes.now self room.old)
            × (lock_tries result.tries result.locked ≡ lock_tries_of (Tune hz replies.now) outcomes.now self room.old) }
    {
        let ifreq = self.ifreq;
        let number = self.refusal(
            hz_refusal(hz, ifreq),
            53,
            35,
            room.len(),
            outcomes.len(),
            replies.len(),
        );
        if number != 0 {
            return TuneResult {
                told: refused(self, number),
                tries: 0,
                locked: false,
            };
        }
        let plan = pll::plan_pll(self.kind, hz + ifreq, self.corrected);
        self.tune(plan, hz, outcomes, replies, room)
    }

    pub fn get_gain(self) -> Answer
        ensures { result ≡ (quietly GainTold self).answer }
    {
        let bits = wire::bits_of(self.gain);
        sound_answer(self.nominal, self.corrected, bits as u64)
    }

    pub fn get_if_freq(self) -> Answer
        ensures { result ≡ (quietly IfTold self).answer }
    {
        sound_answer(self.nominal, self.corrected, self.ifreq)
    }

    // The 29 gain steps in tenths of a dB; zeros beside a refusal.
    pub fn get_gain_table(self) -> Table
        ensures { result ≡ table_of self }
    {
        Table {
            answer: sound_answer(self.nominal, self.corrected, 0),
            steps: if sound(self.nominal, self.corrected) {
                gain::get_gain_table()
            } else {
                [0; 29]
            },
        }
    }

    // `apply_notch` for callers that hold the record by value: it lends its own copy, so that the proof of a caller has no reference to follow.
    pub fn with_notch(mut self, on: bool) -> TunerResult
        ensures { called result.tuner [] result.count result.answer
            ≡ quietly (Notch on) self }
    {
        let answer = apply_notch(&mut self, on);
        TunerResult {
            tuner: self,
            answer: answer,
            count: 0,
        }
    }
}
