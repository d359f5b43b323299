// What a C host is told: an answer and an entry count as plain numbers in a struct. Ours: the Rust answers `Result`s.
// Document 01, "Modules, leaves first": "callable from a C or Rust host by numbers and byte slices"; "Language forms by place": "When an answer is an
// enum, the promises use a definition that gives this paper's number and values for each case of the enum."

#![tactic(auto)]

ghost use Rattle.std.specs.Prelude.{◌≡◌, ◌%◌};
ghost use Rattle.chip.specs.Entries.{lock_tries};
ghost use Rattle.reply.specs.Replies.{parts_of, reply_of, tuned_of};

use refusals::Answer;
use transcript::Section;

// refusal 0 is done; index is the failing entry's where it is 11; count is how many entries were made.
#[repr(C)]
#[derive(Clone, Copy)]
pub struct Reply {
    pub value: u64,
    pub index: u64,
    pub refusal: u32,
    pub count: u32,
}

// A tuning's, of its own. #101: how many tries there were, and 1 where one of them read the lock bit, also beside refusal 11.
#[repr(C)]
#[derive(Clone, Copy)]
pub struct TuneReply {
    pub value: u64,
    pub index: u64,
    pub refusal: u32,
    pub count: u32,
    pub tries: u32,
    pub locked: u32,
}

// Where a section stands in a slice: after `start` bytes, `count` entries of 16 bytes, then its trailer.
#[repr(C)]
#[derive(Clone, Copy)]
pub struct Parts {
    pub start: u64,
    pub count: u64,
    pub refusal: u32,
    pub zero: u32,
}

// No `as` by itself: it is asked for a number that fits.
fn low_bits(n: usize) -> u32
    ensures { result ≡ n % 4294967296 }
{
    (n % 4_294_967_296) as u32
}

pub fn numbers(answer: Answer, count: usize) -> Reply
    ensures { result ≡ reply_of answer count }
{
    let low = low_bits(count);
    match answer {
        Answer::Done(value) => Reply {
            value: value,
            index: 0,
            refusal: 0,
            count: low,
        },
        Answer::Refused(number) => Reply {
            value: 0,
            index: 0,
            refusal: number as u32,
            count: low,
        },
        Answer::Stopped(index) => Reply {
            value: 0,
            index: index as u64,
            refusal: refusals::STEP as u32,
            count: low,
        },
    }
}

pub fn tuned(r: Reply, tries: u16, locked: bool) -> TuneReply
    ensures { result ≡ tuned_of r (lock_tries tries locked) }
{
    TuneReply {
        value: r.value,
        index: r.index,
        refusal: r.refusal,
        count: r.count,
        tries: tries as u32,
        locked: locked as u32,
    }
}

pub fn located(section: Option<Section>) -> Parts
    ensures { result ≡ parts_of section }
{
    match section {
        Some(Section { start, count }) => Parts {
            start: start as u64,
            count: count as u64,
            refusal: 0,
            zero: 0,
        },
        None => Parts {
            start: 0,
            count: 0,
            refusal: transcript::refusal_of(section),
            zero: 0,
        },
    }
}
