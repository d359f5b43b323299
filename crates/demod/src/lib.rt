// The demodulator's calls, from src/demod.rs, over a script of outcomes and a room for the entries. Document 01, "Demodulator",
// and "Refusal numbers" for 3 and 4; document 02, #103, for 13. They touch no record and read nothing; a call is a list of accesses, and the definitions of
// specs/Programs.antt have the same lists. `X_steps` and `ddc` are parts that a larger call is made of.

#![tactic(auto)]

ghost use Rattle.std.specs.Prelude.{◌++◌, ◌≡◌, ◌+◌, ◌*◌, ◌≤◌, ◌<◌, length, replicate};
ghost use Rattle.chip.specs.declared.Chip.{Chip};
ghost use Rattle.chip.specs.InCode.{in_room, on_log, on_room};
ghost use Rattle.chip.specs.Steps.{closing_owed, run};
ghost use Rattle.device.specs.InCode.{back};
ghost use Rattle.device.specs.Calls.{free_result};
ghost use Rattle.demod.specs.Programs.{ddc_byte, ddc_steps, fir_steps, if_rows, if_steps, init_steps, power_steps, rate_rows, rate_steps, reset_steps, upward};
ghost use Rattle.demod.specs.Calls.{demod_course};
ghost use Rattle.demod.specs.Calls.Order.{Baseband, LowIf, ZeroIf, Reset, Direct, Start, Stop, IfXtal, RateXtal};

use chip::{Flow, Log};
use device::{Access, Handed, NO_CHIP};
use refusals::Answer;
use registers::demod::{
    P0_PAGE, P1_DDC_SYNC, P1_DDC_SYNC_INVERT, P1_DDC_SYNC_NORMAL, P1_IF_FREQ_H, P1_IF_FREQ_L,
    P1_IF_FREQ_M, P1_PAGE, P1_SOFT_RESET, P1_SOFT_RESET_OFF, P1_SOFT_RESET_ON,
};
use registers::{block, sys, usb};
use transcript::{BLOCK, BLOCK16, DEMOD, DEMOD16, WAIT};

pub const DEFAULT_SAMPLE_RATE: u32 = 2_048_000;

// `reset_demod`'s accesses.
const RESET: [Access; 2] = [
    Access {
        kind: DEMOD,
        target: P1_PAGE,
        address: P1_SOFT_RESET,
        value: P1_SOFT_RESET_ON as u16,
    },
    Access {
        kind: DEMOD,
        target: P1_PAGE,
        address: P1_SOFT_RESET,
        value: P1_SOFT_RESET_OFF as u16,
    },
];

// Low-IF mode, and the in-phase ADC input on.
const LOW_IF: [Access; 2] = [
    Access {
        kind: DEMOD,
        target: P1_PAGE,
        address: 0xb1,
        value: 0x1a,
    },
    Access {
        kind: DEMOD,
        target: P0_PAGE,
        address: 0x08,
        value: 0x4d,
    },
];

// Zero-IF mode, and the in-phase ADC input off.
const ZERO_IF: [Access; 2] = [
    Access {
        kind: DEMOD,
        target: P1_PAGE,
        address: 0xb1,
        value: 0x1b,
    },
    Access {
        kind: DEMOD,
        target: P0_PAGE,
        address: 0x08,
        value: 0x4c,
    },
];

const START: [Access; 2] = [
    Access {
        kind: BLOCK16,
        target: block::USB,
        address: usb::EPA_CTL,
        value: 0x1002,
    },
    Access {
        kind: BLOCK16,
        target: block::USB,
        address: usb::EPA_CTL,
        value: 0x0000,
    },
];

const STOP: [Access; 2] = [
    Access {
        kind: BLOCK16,
        target: block::USB,
        address: usb::EPA_CTL,
        value: 0x1002,
    },
    Access {
        kind: BLOCK,
        target: block::SYS,
        address: sys::DEMOD_CTL,
        value: sys::DEMOD_CTL_POWER_OFF as u16,
    },
];

// `init_baseband` up to the zeros of 0x16: USB, system, the wait of 100 ms, the reset, DDC off.
const POWER: [Access; 10] = [
    Access {
        kind: BLOCK,
        target: block::USB,
        address: usb::SYSCTL,
        value: 0x09,
    },
    Access {
        kind: BLOCK16,
        target: block::USB,
        address: usb::EPA_MAXPKT,
        value: 0x0002,
    },
    Access {
        kind: BLOCK16,
        target: block::USB,
        address: usb::EPA_CTL,
        value: 0x1002,
    },
    Access {
        kind: BLOCK,
        target: block::SYS,
        address: sys::DEMOD_CTL1,
        value: 0x22,
    },
    Access {
        kind: BLOCK,
        target: block::SYS,
        address: sys::DEMOD_CTL,
        value: sys::DEMOD_CTL_POWER_ON as u16,
    },
    Access {
        kind: WAIT,
        target: 0,
        address: 100,
        value: 0,
    },
    Access {
        kind: DEMOD,
        target: P1_PAGE,
        address: P1_SOFT_RESET,
        value: P1_SOFT_RESET_ON as u16,
    },
    Access {
        kind: DEMOD,
        target: P1_PAGE,
        address: P1_SOFT_RESET,
        value: P1_SOFT_RESET_OFF as u16,
    },
    Access {
        kind: DEMOD,
        target: P1_PAGE,
        address: P1_DDC_SYNC,
        value: 0x00,
    },
    Access {
        kind: DEMOD16,
        target: P1_PAGE,
        address: 0x16,
        value: 0x0000,
    },
];

// `init_baseband` after the FIR.
const MODE: [Access; 9] = [
    Access {
        kind: DEMOD,
        target: P0_PAGE,
        address: 0x19,
        value: 0x05,
    },
    Access {
        kind: DEMOD,
        target: P1_PAGE,
        address: 0x93,
        value: 0xf0,
    },
    Access {
        kind: DEMOD,
        target: P1_PAGE,
        address: 0x94,
        value: 0x0f,
    },
    Access {
        kind: DEMOD,
        target: P1_PAGE,
        address: 0x11,
        value: 0x00,
    },
    Access {
        kind: DEMOD,
        target: P1_PAGE,
        address: 0x04,
        value: 0x00,
    },
    Access {
        kind: DEMOD,
        target: P0_PAGE,
        address: 0x61,
        value: 0x60,
    },
    Access {
        kind: DEMOD,
        target: P0_PAGE,
        address: 0x06,
        value: 0x80,
    },
    Access {
        kind: DEMOD,
        target: P1_PAGE,
        address: 0xb1,
        value: 0x1b,
    },
    Access {
        kind: DEMOD,
        target: P0_PAGE,
        address: 0x0d,
        value: 0x83,
    },
];

pub fn reset_steps(f: Flow, outcomes: &[u8], room: &mut [u8]) -> Flow
    requires { (f.log.count + 2 + closing_owed f.log.opened ≤ length outcomes.now) × (16 * (f.log.count + 2 + closing_owed f.log.opened) ≤ length room.old) }
    ensures room_after { on_room result room.new ≡ run in_room outcomes.now reset_steps (on_room f room.old) }
    ensures bounds { result.log.count + closing_owed result.log.opened ≤ f.log.count + 2 + closing_owed f.log.opened }
{
    device::access_all(f, &RESET, outcomes, room)
}

pub fn reset_demod(outcomes: &[u8], room: &mut [u8]) -> Handed
    ensures { back result room.new ≡ free_result (demod_course Reset) outcomes.now room.old }
{
    device::perform(&RESET, 0, outcomes, 0, room)
}

pub fn set_tuner_low_if(outcomes: &[u8], room: &mut [u8]) -> Handed
    ensures { back result room.new ≡ free_result (demod_course LowIf) outcomes.now room.old }
{
    device::perform(&LOW_IF, 0, outcomes, 0, room)
}

pub fn set_tuner_zero_if(outcomes: &[u8], room: &mut [u8]) -> Handed
    ensures { back result room.new ≡ free_result (demod_course ZeroIf) outcomes.now room.old }
{
    device::perform(&ZERO_IF, 0, outcomes, 0, room)
}

pub fn start_streaming(outcomes: &[u8], room: &mut [u8]) -> Handed
    ensures { back result room.new ≡ free_result (demod_course Start) outcomes.now room.old }
{
    device::perform(&START, 0, outcomes, 0, room)
}

pub fn stop_streaming(outcomes: &[u8], room: &mut [u8]) -> Handed
    ensures { back result room.new ≡ free_result (demod_course Stop) outcomes.now room.old }
{
    device::perform(&STOP, 0, outcomes, 0, room)
}

pub fn write_reg_direct(
    page: u8,
    register: u16,
    value: u8,
    outcomes: &[u8],
    room: &mut [u8],
) -> Handed
    ensures { back result room.new ≡ free_result (demod_course (Direct page register value)) outcomes.now room.old }
{
    let rows = [Access {
        kind: DEMOD,
        target: page,
        address: register,
        value: value as u16,
    }];
    device::perform(&rows, 0, outcomes, 0, room)
}

fn ddc_byte(inverted: bool) -> u8
    ensures { result ≡ ddc_byte inverted }
{
    if inverted {
        P1_DDC_SYNC_INVERT
    } else {
        P1_DDC_SYNC_NORMAL
    }
}

// The DDC byte, by whether the spectrum is inverted.
pub fn ddc(f: Flow, inverted: bool, outcomes: &[u8], room: &mut [u8]) -> Flow
    requires { (f.log.count + 1 + closing_owed f.log.opened ≤ length outcomes.now) × (16 * (f.log.count + 1 + closing_owed f.log.opened) ≤ length room.old) }
    ensures room_after { on_room result room.new ≡ run in_room outcomes.now (ddc_steps inverted) (on_room f room.old) }
    ensures bounds { result.log.count + closing_owed result.log.opened ≤ f.log.count + 1 + closing_owed f.log.opened }
{
    device::one_access(
        f,
        Access {
            kind: DEMOD,
            target: P1_PAGE,
            address: P1_DDC_SYNC,
            value: ddc_byte(inverted) as u16,
        },
        outcomes,
        room,
    )
}

// 22 bits, high first.
fn if_rows(hz: u32, xtal: u32) -> [Access; 3]
    requires { 0 < xtal }
    ensures { result ≡ if_rows hz xtal }
{
    let value = registers::if_value(hz, xtal);
    [
        Access {
            kind: DEMOD,
            target: P1_PAGE,
            address: P1_IF_FREQ_H,
            value: (value >> 16) as u16,
        },
        Access {
            kind: DEMOD,
            target: P1_PAGE,
            address: P1_IF_FREQ_M,
            value: ((value >> 8) % 256) as u16,
        },
        Access {
            kind: DEMOD,
            target: P1_PAGE,
            address: P1_IF_FREQ_L,
            value: (value % 256) as u16,
        },
    ]
}

pub fn if_steps(f: Flow, hz: u32, xtal: u32, outcomes: &[u8], room: &mut [u8]) -> Flow
    requires { (0 < xtal) × (f.log.count + 3 + closing_owed f.log.opened ≤ length outcomes.now) × (16 * (f.log.count + 3 + closing_owed f.log.opened) ≤ length room.old) }
    ensures room_after { on_room result room.new ≡ run in_room outcomes.now (if_steps hz xtal) (on_room f room.old) }
    ensures bounds { result.log.count + closing_owed result.log.opened ≤ f.log.count + 3 + closing_owed f.log.opened }
{
    device::access_all(f, &if_rows(hz, xtal), outcomes, room)
}

pub fn set_if_freq_xtal(hz: u32, xtal: u32, outcomes: &[u8], room: &mut [u8]) -> Handed
    ensures { back result room.new ≡ free_result (demod_course (IfXtal hz xtal)) outcomes.now room.old }
{
    if xtal == 0 {
        return device::refused(refusals::CORRECTION);
    }
    device::perform(&if_rows(hz, xtal), 0, outcomes, 0, room)
}

// The ratio's high and low 16 bits, and two zeros.
fn rate_rows(rate: u32, xtal: u32) -> [Access; 4]
    requires { 0 < rate }
    ensures { result ≡ rate_rows rate xtal }
{
    let sent = registers::sent(registers::ratio(rate, xtal));
    [
        Access {
            kind: DEMOD16,
            target: P1_PAGE,
            address: 0x9f,
            value: (sent >> 16) as u16,
        },
        Access {
            kind: DEMOD16,
            target: P1_PAGE,
            address: 0xa1,
            value: (sent % 65536) as u16,
        },
        Access {
            kind: DEMOD,
            target: P1_PAGE,
            address: 0x3f,
            value: 0x00,
        },
        Access {
            kind: DEMOD,
            target: P1_PAGE,
            address: 0x3e,
            value: 0x00,
        },
    ]
}

pub fn rate_steps(f: Flow, rate: u32, xtal: u32, outcomes: &[u8], room: &mut [u8]) -> Flow
    requires { (0 < rate) × (f.log.count + 4 + closing_owed f.log.opened ≤ length outcomes.now) × (16 * (f.log.count + 4 + closing_owed f.log.opened) ≤ length room.old) }
    ensures room_after { on_room result room.new ≡ run in_room outcomes.now (rate_steps rate xtal) (on_room f room.old) }
    ensures bounds { result.log.count + closing_owed result.log.opened ≤ f.log.count + 4 + closing_owed f.log.opened }
{
    device::access_all(f, &rate_rows(rate, xtal), outcomes, room)
}

pub fn set_sample_rate_xtal(rate: u32, xtal: u32, outcomes: &[u8], room: &mut [u8]) -> Handed
    ensures { back result room.new ≡ free_result (demod_course (RateXtal rate xtal)) outcomes.now room.old }
{
    let number = registers::rate_number(rate, xtal);
    if number != 0 {
        return device::refused(number);
    }
    device::perform(&rate_rows(rate, xtal), 0, outcomes, 0, room)
}

// The bytes, to the registers of page 1 from one upward.
fn log_upward(l: Log, register: u16, bytes: &[u8], outcomes: &[u8], room: &mut [u8]) -> Log
    requires { (length bytes.now ≤ 20) × (register ≤ 255)
        × (l.count + length bytes.now + closing_owed l.opened ≤ length outcomes.now) × (16 * (l.count + length bytes.now + closing_owed l.opened) ≤ length room.old) }
    ensures room_after { (chip : Chip) → on_log chip result room.new
        ≡ run in_room outcomes.now (upward register bytes.now) (on_log chip l room.old) }
    ensures bounds { result.count + closing_owed result.opened ≤ l.count + length bytes.now + closing_owed l.opened }
{
    let mut l = l;
    for (i, &byte) in bytes.iter().enumerate() {
        let a = Access {
            kind: DEMOD,
            target: P1_PAGE,
            address: register + i as u16,
            value: byte as u16,
        };
        l = device::log_access(l, a, outcomes, room);
    }
    l
}

fn write_upward(f: Flow, register: u16, bytes: &[u8], outcomes: &[u8], room: &mut [u8]) -> Flow
    requires { (length bytes.now ≤ 20) × (register ≤ 255)
        × (f.log.count + length bytes.now + closing_owed f.log.opened ≤ length outcomes.now) × (16 * (f.log.count + length bytes.now + closing_owed f.log.opened) ≤ length room.old) }
    ensures room_after { on_room result room.new ≡ run in_room outcomes.now (upward register bytes.now) (on_room f room.old) }
    ensures bounds { result.log.count + closing_owed result.log.opened ≤ f.log.count + length bytes.now + closing_owed f.log.opened }
{
    Flow {
        chip: f.chip,
        log: log_upward(f.log, register, bytes, outcomes, room),
    }
}

fn power_steps(f: Flow, outcomes: &[u8], room: &mut [u8]) -> Flow
    requires { (f.log.count + 16 + closing_owed f.log.opened ≤ length outcomes.now) × (16 * (f.log.count + 16 + closing_owed f.log.opened) ≤ length room.old) }
    ensures room_after { on_room result room.new ≡ run in_room outcomes.now (power_steps ++ upward 0x16 (replicate 6 0)) (on_room f room.old) }
    ensures bounds { result.log.count + closing_owed result.log.opened ≤ f.log.count + 16 + closing_owed f.log.opened }
{
    let on = device::access_all(f, &POWER, outcomes, room);
    write_upward(on, 0x16, &[0; 6], outcomes, room)
}

fn set_fir(f: Flow, outcomes: &[u8], room: &mut [u8]) -> Flow
    requires { (f.log.count + 20 + closing_owed f.log.opened ≤ length outcomes.now) × (16 * (f.log.count + 20 + closing_owed f.log.opened) ≤ length room.old) }
    ensures room_after { on_room result room.new ≡ run in_room outcomes.now fir_steps (on_room f room.old) }
    ensures bounds { result.log.count + closing_owed result.log.opened ≤ f.log.count + 20 + closing_owed f.log.opened }
{
    write_upward(f, 0x1c, &fir::default_bytes(), outcomes, room)
}

fn init_steps(f: Flow, outcomes: &[u8], room: &mut [u8]) -> Flow
    requires { (f.log.count + 45 + closing_owed f.log.opened ≤ length outcomes.now) × (16 * (f.log.count + 45 + closing_owed f.log.opened) ≤ length room.old) }
    ensures room_after { on_room result room.new ≡ run in_room outcomes.now init_steps (on_room f room.old) }
    ensures bounds { result.log.count + closing_owed result.log.opened ≤ f.log.count + 45 + closing_owed f.log.opened }
{
    let on = power_steps(f, outcomes, room);
    let filtered = set_fir(on, outcomes, room);
    device::access_all(filtered, &MODE, outcomes, room)
}

pub fn init_baseband(outcomes: &[u8], room: &mut [u8]) -> Handed
    ensures { back result room.new ≡ free_result (demod_course Baseband) outcomes.now room.old }
{
    let number = chip::too_short(45, 0, room.len(), outcomes.len(), 0);
    if number != 0 {
        return device::refused(number);
    }
    let start = Flow {
        chip: NO_CHIP,
        log: chip::START,
    };
    let f = init_steps(start, outcomes, room);
    Handed {
        answer: chip::finish(f, Answer::Done(0), room),
        count: f.log.count,
    }
}

pub fn power_on(outcomes: &[u8], room: &mut [u8]) -> Handed
    ensures { back result room.new ≡ free_result (demod_course Baseband) outcomes.now room.old }
{
    init_baseband(outcomes, room)
}
