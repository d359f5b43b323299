// What came back from a call against what the case says must come back. Each comparison answers true only where all that it compares is equal.
ghost use Rattle.std.specs.Prelude.{◌≡◌, ℕ, ◌<◌, true, length, slice_index};
ghost use Rattle.replay.specs.Agreement.{NumbersAgree, Written, Valued, Agrees, unless_refused};

use crate::layout;

#[derive(Clone, Copy, PartialEq, Eq)]
pub enum Verdict {
    Same,
    Differ,
    // The port has no such call yet, or not with the memory that the case lends.
    Later,
}

// The numbers that a call answers.
#[derive(Clone, Copy)]
pub struct Answer {
    pub refusal: u64,
    pub value: u64,
    pub index: usize,
    pub count: usize,
}

pub fn decided(same: bool) -> Verdict
    ensures { result ≡ Verdict.Same → same ≡ true }
{
    if same {
        return Verdict::Same;
    }
    Verdict::Differ
}

pub fn numbers(c: &[u8], a: Answer) -> bool
    ensures { result ≡ true → NumbersAgree c.now a }
{
    if layout::one(c, layout::REFUSAL) != a.refusal {
        return false;
    }
    if layout::eight(c, layout::VALUE) != a.value {
        return false;
    }
    if layout::two(c, layout::INDEX) != a.index {
        return false;
    }
    if layout::two(c, layout::COUNT) != a.count {
        return false;
    }
    true
}

fn untouched(s: &[u8]) -> bool
    ensures { result ≡ true → (k : ℕ) → k < length s.now → slice_index s.now k ≡ 165 }
{
    s.iter().all(|b| *b == 0xa5)
}

// Whether memory that was lent full of 0xa5 has these bytes at its start, and is as it was past them.
pub fn written(lent: &[u8], bytes: &[u8]) -> bool
    ensures { result ≡ true → Written lent.now bytes.now }
{
    let n = bytes.len();
    if lent.len() < n {
        return false;
    }
    if check::same(&lent[0..n], bytes) {
        return untouched(&lent[n..]);
    }
    false
}

fn unless_refused(refusal: u64, bytes: &[u8]) -> &[u8]
    ensures { result.now ≡ unless_refused refusal bytes.now }
{
    if refusal == 0 {
        return bytes;
    }
    &bytes[0..0]
}

// The verdict on a call that answers by value: a refusal, a value, bytes. Nothing is lent to it, so a case in which the slice lent for its bytes
// is too short (refusal 8) is not there yet.
pub fn valued(c: &[u8], refusal: u64, value: u64, bytes: &[u8]) -> Verdict
    ensures { result ≡ Verdict.Same → Valued c.now refusal value bytes.now }
{
    if layout::one(c, layout::REFUSAL) == refusals::ROOM as u64 {
        return Verdict::Later;
    }
    let told = Answer {
        refusal,
        value,
        index: 0,
        count: 0,
    };
    let wanted = layout::part(c, layout::ANSWERED);
    let bare = layout::start(c, layout::SECTION) == layout::start(c, layout::ANSWERED);
    decided(numbers(c, told) & bare & check::same(wanted, unless_refused(refusal, bytes)))
}

// The verdict on a call over lent memory, all of it filled with 0xa5 before the call: the room, the slices for the next tuner and driver records,
// the slice for answered bytes. What a call is not lent is empty here.
pub fn agrees(
    c: &[u8],
    a: Answer,
    room: &[u8],
    tuner: &[u8],
    driver: &[u8],
    answered: &[u8],
) -> Verdict
    ensures { result ≡ Verdict.Same → Agrees c.now a room.now tuner.now driver.now answered.now }
{
    let told = numbers(c, a);
    let steps = written(room, layout::part(c, layout::SECTION));
    let first = written(tuner, layout::part(c, layout::NEXT_TUNER));
    let second = written(driver, layout::part(c, layout::NEXT_DRIVER));
    let bytes = written(answered, layout::part(c, layout::ANSWERED));
    decided(told & steps & first & second & bytes)
}
