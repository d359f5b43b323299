// Where two sections part (document 02, #114), on every section of the list: beside itself it has no part, and beside an empty section all of its entries
// are its part, whichever of the two stands first. What is wanted are the list's own bytes, without the trailer.
use crate::{compare, layout};
use compare::Verdict;

fn parts_as<'a>(first: &'a [u8], second: &'a [u8], wanted: &[u8]) -> bool {
    let place = parting::parting(first, second);
    let part = parting::rest(first, second, place);
    check::same(part, wanted)
}

fn parts_right(s: &[u8]) -> bool {
    let n = s.len();
    if n < 8 {
        return true;
    }
    let entries = &s[0..n - 8];
    let empty = [0u8; 8];
    parts_as(s, s, &[]) && parts_as(&empty, s, entries) && parts_as(s, &empty, entries)
}

// A case whose section is not parted so differs, whatever was found of it before.
pub fn also(c: &[u8], v: Verdict) -> Verdict {
    if parts_right(layout::part(c, layout::SECTION)) {
        return v;
    }
    Verdict::Differ
}
