// Calls that are numbers in and numbers or bytes out: `plan_tuning` (33), `if_freq_regs` (34), `resample_regs` (35), the section reader (38), the PLL's
// numbers by both engines (39, 40). Answered bytes go to a lent slice, which may be too short.
use crate::{compare, handed, layout};
use compare::{Answer, Verdict};

pub fn plan_tuning(c: &[u8]) -> Verdict {
    handed::in_room(c, |out| {
        let a = answers::plan_tuning(
            layout::eight(c, layout::C),
            layout::eight(c, layout::A),
            out,
        );
        handed::answered(c, a, out)
    })
}

pub fn plan_pll(c: &[u8]) -> Verdict {
    let Ok(reference) = u32::try_from(layout::eight(c, layout::B)) else {
        return Verdict::Differ;
    };
    handed::in_room(c, |out| {
        let a = answers::plan_pll(
            layout::eight(c, layout::C),
            layout::eight(c, layout::A),
            reference,
            out,
        );
        handed::answered(c, a, out)
    })
}

pub fn plan_pll_by_worksheet(c: &[u8]) -> Verdict {
    let Ok(reference) = u32::try_from(layout::eight(c, layout::B)) else {
        return Verdict::Differ;
    };
    handed::in_room(c, |out| {
        let a = answers::plan_pll_by_worksheet(
            layout::eight(c, layout::C),
            layout::eight(c, layout::A),
            reference,
            out,
        );
        handed::answered(c, a, out)
    })
}

// Two numbers of 32 bits to bytes.
fn registers<F: FnOnce(u32, u32, &mut [u8]) -> refusals::Answer>(c: &[u8], call: F) -> Verdict
    requires { F.IsAlwaysCallable call }
{
    let Ok(first) = u32::try_from(layout::eight(c, layout::A)) else {
        return Verdict::Differ;
    };
    let Ok(second) = u32::try_from(layout::eight(c, layout::B)) else {
        return Verdict::Differ;
    };
    handed::in_room(c, |out| {
        let a = call(first, second, out);
        handed::answered(c, a, out)
    })
}

pub fn if_freq_regs(c: &[u8]) -> Verdict {
    registers(c, answers::if_freq_regs)
}

pub fn resample_regs(c: &[u8]) -> Verdict {
    registers(c, answers::resample_regs)
}

pub fn read_section(c: &[u8]) -> Verdict {
    let told = match transcript::read_section(layout::part(c, layout::INPUT)) {
        Some(section) => Answer {
            refusal: 0,
            value: section.start as u64,
            index: 0,
            count: section.count,
        },
        None => Answer {
            refusal: refusals::SECTION as u64,
            value: 0,
            index: 0,
            count: 0,
        },
    };
    compare::agrees(c, told, &[], &[], &[], &[])
}
