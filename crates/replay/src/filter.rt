// The FIR packer (36) and unpacker (37). Sixteen coefficients cross as sixteen i32, low byte first.
use crate::{compare, handed, layout};
use compare::Verdict;

pub fn pack(c: &[u8]) -> Verdict {
    handed::in_room(c, |out| {
        let a = answers::pack_fir(layout::part(c, layout::INPUT), out);
        handed::answered(c, a, out)
    })
}

pub fn unpack(c: &[u8]) -> Verdict {
    handed::in_room(c, |out| {
        let a = answers::unpack_fir(layout::part(c, layout::INPUT), out);
        handed::answered(c, a, out)
    })
}
