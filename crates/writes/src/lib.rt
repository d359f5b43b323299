// Which registers the calls of src/tuners/r82xx.rs write, other than a tuning, and the calls of several brackets over a flow: `initialize`,
// `set_if_bandwidth`, `set_bandwidth`, `set_gain`, `set_input_path`, and our reload. Document 01, "The record", "Gain".

#![tactic(auto)]

ghost use Rattle.std.specs.Prelude.{cond, ◌≡◌, ◌++◌, ◌+◌, ◌*◌, ◌≤◌, ◌<◌, leb, length};
ghost use Rattle.chip.specs.Chips.{chip_of};
ghost use Rattle.chip.specs.InCode.{closing, in_room, on_log, on_room};
ghost use Rattle.chip.specs.Steps.{while_open, closing_owed, run, updates};
ghost use Rattle.writes.specs.Lists.{bandwidth_updates, by_hand, gain_updates, if_updates, init_updates, path_updates, step_values};
ghost use Rattle.writes.specs.Programs.{init_steps, send_all};

use board::Path;
use chip::{Flow, Log, Progress, Update, masked};
use gain::GainEntry;

pub const IF_FREQ_NARROW: u64 = 2_300_000;

pub const INIT_ARRAY: [u8; 27] = [
    0x83, 0x30, 0x75, 0xc0, 0x40, 0xd6, 0x6c, 0xf5, 0x63, 0x75, 0x68, 0x6c, 0x83, 0x80, 0x00, 0x0f,
    0x00, 0xc0, 0x30, 0x48, 0xcc, 0x60, 0x00, 0x54, 0xae, 0x4a, 0xc0,
];

fn narrow_or_wide(hz: u64, narrow: u8, wide: u8) -> u8
    ensures { result ≡ cond (leb 3_500_000 hz) wide narrow }
{
    if 3_500_000 <= hz {
        return wide;
    }
    narrow
}

fn width(hz: u32) -> u8
    ensures { result ≡ cond (leb hz 6_000_000) 0x08 (cond (leb hz 7_000_000) 0x06 0x00) }
{
    if hz <= 6_000_000 {
        return 0x08;
    }
    if hz <= 7_000_000 {
        return 0x06;
    }
    0x00
}

fn init_updates() -> [Update; 4]
    ensures { result ≡ init_updates }
{
    [
        masked(0x1a, 0x00, 0x0c),
        masked(0x12, 0x06, 0xff),
        masked(0x0c, 0x00, 0x0f),
        masked(0x13, 0x01, 0x3f),
    ]
}

pub fn if_updates(hz: u64) -> [Update; 2]
    ensures { result ≡ if_updates hz }
{
    let low = narrow_or_wide(hz, 0x00, 0x10);
    let high = narrow_or_wide(hz, 0x80, 0x6b);
    [masked(0x0a, low, 0x70), masked(0x0b, high, 0xef)]
}

pub fn bandwidth_updates(hz: u32) -> [Update; 1]
    ensures { result ≡ bandwidth_updates hz }
{
    [masked(0x0a, width(hz), 0x0f)]
}

// `set_if_bandwidth` and `set_bandwidth`, each one bracket, over the chip's lists where they lie: a larger call makes both and copies the lists once. No list of
// updates: each write has its register in the code.
pub fn set_if_bandwidth(
    l: Log,
    address: u8,
    hz: u64,
    shadow: &mut [u8; 27],
    doubtful: &mut [bool; 27],
    outcomes: &[u8],
    room: &mut [u8],
) -> Log
    requires { (l.count + 4 ≤ length outcomes.now) × (16 * (l.count + 4) ≤ length room.old) }
    ensures room_after { on_log (chip_of address shadow.new doubtful.new) result room.new
        ≡ run in_room outcomes.now (while_open (updates (if_updates hz)))
        (on_log (chip_of address shadow.old doubtful.old) l room.old) }
    ensures bounds { result.count + closing_owed result.opened ≤ l.count + 4 }
{
    let low = masked(0x0a, narrow_or_wide(hz, 0x00, 0x10), 0x70);
    let high = masked(0x0b, narrow_or_wide(hz, 0x80, 0x6b), 0xef);
    let opened = chip::log_open(l, outcomes, room);
    let Progress::Going = opened.progress else {
        return chip::log_close(opened, outcomes, room);
    };
    let written = chip::write_two(opened, address, low, high, shadow, doubtful, outcomes, room);
    chip::log_close(written, outcomes, room)
}

pub fn set_bandwidth(
    l: Log,
    address: u8,
    hz: u32,
    shadow: &mut [u8; 27],
    doubtful: &mut [bool; 27],
    outcomes: &[u8],
    room: &mut [u8],
) -> Log
    requires { (l.count + 3 ≤ length outcomes.now) × (16 * (l.count + 3) ≤ length room.old) }
    ensures room_after { on_log (chip_of address shadow.new doubtful.new) result room.new
        ≡ run in_room outcomes.now (while_open (updates (bandwidth_updates hz)))
        (on_log (chip_of address shadow.old doubtful.old) l room.old) }
    ensures bounds { result.count + closing_owed result.opened ≤ l.count + 3 }
{
    let u = masked(0x0a, width(hz), 0x0f);
    let opened = chip::log_open(l, outcomes, room);
    let Progress::Going = opened.progress else {
        return chip::log_close(opened, outcomes, room);
    };
    let written = chip::write_one(opened, address, u, shadow, doubtful, outcomes, room);
    chip::log_close(written, outcomes, room)
}

pub fn path_updates(path: Path) -> [Update; 2]
    ensures { result ≡ path_updates path }
{
    match path {
        Path::Hf => [masked(0x06, 0x08, 0x08), masked(0x05, 0x00, 0x60)],
        Path::Vhf => [masked(0x05, 0x40, 0x60), masked(0x06, 0x00, 0x08)],
        Path::Uhf => [masked(0x05, 0x20, 0x60), masked(0x06, 0x00, 0x08)],
    }
}

// The loops that set the gain by themselves are off.
fn gain_by_hand(
    l: Log,
    address: u8,
    shadow: &mut [u8; 27],
    doubtful: &mut [bool; 27],
    outcomes: &[u8],
    room: &mut [u8],
) -> Log
    requires { (l.count + 2 + closing_owed l.opened ≤ length outcomes.now) × (16 * (l.count + 2 + closing_owed l.opened) ≤ length room.old) }
    ensures room_after { on_log (chip_of address shadow.new doubtful.new) result room.new
        ≡ closing in_room outcomes.now (run in_room outcomes.now (updates by_hand)
        (on_log (chip_of address shadow.old doubtful.old) l room.old)) }
    ensures bounds { result.count + closing_owed result.opened ≤ l.count + 2 + closing_owed l.opened }
{
    let u = masked(0x05, 0x10, 0x10);
    let l = chip::write_reg_mask_raw(l, address, u, shadow, doubtful, outcomes, room);
    let Progress::Going = l.progress else {
        return chip::log_close(l, outcomes, room);
    };
    let u = masked(0x07, 0x00, 0x10);
    let l = chip::write_reg_mask_raw(l, address, u, shadow, doubtful, outcomes, room);
    chip::log_end(l, outcomes, room)
}

// The step's three values. 0x05: bits 0 to 3 are the LNA's gain, bits 5 and 6 the antenna's path, which the mask leaves.
fn gain_values(
    l: Log,
    address: u8,
    cfg: GainEntry,
    shadow: &mut [u8; 27],
    doubtful: &mut [bool; 27],
    outcomes: &[u8],
    room: &mut [u8],
) -> Log
    requires { (l.count + 3 + closing_owed l.opened ≤ length outcomes.now) × (16 * (l.count + 3 + closing_owed l.opened) ≤ length room.old) }
    ensures room_after { on_log (chip_of address shadow.new doubtful.new) result room.new
        ≡ closing in_room outcomes.now (run in_room outcomes.now (updates (step_values cfg))
        (on_log (chip_of address shadow.old doubtful.old) l room.old)) }
    ensures bounds { result.count + closing_owed result.opened ≤ l.count + 3 + closing_owed l.opened }
{
    let u = masked(0x05, cfg.lna, 0x0f);
    let l = chip::write_reg_mask_raw(l, address, u, shadow, doubtful, outcomes, room);
    let Progress::Going = l.progress else {
        return chip::log_close(l, outcomes, room);
    };
    let u = masked(0x07, cfg.mix, 0x0f);
    let l = chip::write_reg_mask_raw(l, address, u, shadow, doubtful, outcomes, room);
    let Progress::Going = l.progress else {
        return chip::log_close(l, outcomes, room);
    };
    let u = masked(0x0c, cfg.vga, 0x0f);
    let l = chip::write_reg_mask_raw(l, address, u, shadow, doubtful, outcomes, room);
    chip::log_end(l, outcomes, room)
}

// `set_gain`'s five writes, for the step of index k. No list and no loop: each write has its register in the code, so that most of it is worked out before it is run.
fn gain_writes(
    l: Log,
    address: u8,
    k: usize,
    shadow: &mut [u8; 27],
    doubtful: &mut [bool; 27],
    outcomes: &[u8],
    room: &mut [u8],
) -> Log
    requires { (k < 29) × (l.count + 5 + closing_owed l.opened ≤ length outcomes.now) × (16 * (l.count + 5 + closing_owed l.opened) ≤ length room.old) }
    ensures room_after { on_log (chip_of address shadow.new doubtful.new) result room.new
        ≡ closing in_room outcomes.now (run in_room outcomes.now (updates (gain_updates k))
        (on_log (chip_of address shadow.old doubtful.old) l room.old)) }
    ensures bounds { result.count + closing_owed result.opened ≤ l.count + 5 + closing_owed l.opened }
{
    let cfg = gain::entry_at(k);
    let manual = gain_by_hand(l, address, shadow, doubtful, outcomes, room);
    gain_values(manual, address, cfg, shadow, doubtful, outcomes, room)
}

// `set_gain`, over a flow: one bracket.
pub fn gain_steps(f: Flow, k: usize, outcomes: &[u8], room: &mut [u8]) -> Flow
    requires { (k < 29) × (f.log.count + 7 ≤ length outcomes.now) × (16 * (f.log.count + 7) ≤ length room.old) }
    ensures room_after { on_room result room.new ≡ run in_room outcomes.now (while_open (updates (gain_updates k))) (on_room f room.old) }
    ensures bounds { result.log.count + closing_owed result.log.opened ≤ f.log.count + 7 }
{
    chip::bracket(
        f,
        |l, address, shadow, doubtful, room| gain_writes(
            l, address, k, shadow, doubtful, outcomes, room,
        ),
        outcomes,
        room,
    )
}

// All 27 registers, in two brackets.
pub fn send_all(f: Flow, bs: [u8; 27], outcomes: &[u8], room: &mut [u8]) -> Flow
    requires { (f.log.count + 9 ≤ length outcomes.now) × (16 * (f.log.count + 9) ≤ length room.old) }
    ensures room_after { on_room result room.new ≡ run in_room outcomes.now (send_all bs) (on_room f room.old) }
    ensures bounds { result.log.count + closing_owed result.log.opened ≤ f.log.count + 9 }
{
    let first = chip::i2c_write_first(f, bs, outcomes, room);
    chip::i2c_write_last(first, bs, outcomes, room)
}

// `initialize`, over a flow.
pub fn initialize(f: Flow, outcomes: &[u8], room: &mut [u8]) -> Flow
    requires { (f.log.count + 19 ≤ length outcomes.now) × (16 * (f.log.count + 19) ≤ length room.old) }
    ensures room_after { on_room result room.new ≡ run in_room outcomes.now init_steps (on_room f room.old) }
    ensures bounds { result.log.count + closing_owed result.log.opened ≤ f.log.count + 19 }
{
    let sent = send_all(f, INIT_ARRAY, outcomes, room);
    let set = chip::with_repeater(sent, &init_updates(), outcomes, room);
    chip::with_repeater(set, &if_updates(IF_FREQ_NARROW), outcomes, room)
}
