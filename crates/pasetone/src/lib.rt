// Every call and leaf for a C or Rust host: what include/pasetone.h declares. Each function is one call of a function below with the same definition,
// its answer told as numbers, so its must-fail edits stand below, but for two of arguments that it passes on.
// Document 01, "Modules, leaves first": "The library is callable from a C or Rust host by numbers and byte slices".

#![tactic(auto)]

ghost use Rattle.std.specs.Prelude.{◌≡◌};
ghost use Rattle.answers.specs.Lent.{if_into, pack_into, plan_by_into, plan_into, resample_into, unpack_into};
ghost use Rattle.answers.specs.Sheets.{pll_into, worksheet_into};
ghost use Rattle.bands.specs.Tables.{table_into};
ghost use Rattle.board.specs.Numbers.{board_of};
ghost use Rattle.commands.specs.Over.{feed_over, feeds, pending_answer};
ghost use Rattle.demod.specs.Calls.{demod_course};
ghost use Rattle.demod.specs.Calls.Order.{Baseband, LowIf, ZeroIf, Reset, Direct, Start, Stop, IfXtal, RateXtal};
ghost use Rattle.device.specs.Calls.{free_result};
ghost use Rattle.device.specs.Gpio.{gpio_course};
ghost use Rattle.device.specs.Gpio.Order.{Output, Bit};
ghost use Rattle.board.specs.Numbers.{path_of};
ghost use Rattle.driver.specs.Calls.{board_row};
ghost use Rattle.drivers.specs.Drivers as driver;
ghost use Rattle.drivers.specs.Drivers.{centre_over, correct_over, corrects, hop_over, hops, rate_over, rates, xtal_over};
ghost use Rattle.expansion.specs.Expansion.{expand_into, read_into};
ghost use Rattle.r82xx.specs.Orders.{course_of};
ghost use Rattle.r82xx.specs.Orders.Order.{Initialize, Reload, Bandwidth, IfFreq, Gain, GainIndex, InputPath, Tune, Notch, GainTold, IfTold};
ghost use Rattle.parting.specs.Parting.{parting_of};
ghost use Rattle.restoring.specs.Standing.{restore_into};
ghost use Rattle.witness.specs.Answer.{evidence_into};
ghost use Rattle.reply.specs.Replies.{parts_of, reply_of};
ghost use Rattle.settings.specs.Image.{wider};
ghost use Rattle.settings.specs.Reading.{moved_to1, moved_to2, read_of1, read_of2, settings, told_of1, told_of2, written_to1, written_to2};
ghost use Rattle.transcript.specs.Sections.{section_of};
ghost use Rattle.tuners.specs.Over.{after, over_tuner, over_tuning, tuned_to};
ghost use Rattle.tuners.specs.Still as tuner;
ghost use Rattle.tuners.specs.Still.{answer_over, changed_into, oscillator_over, table_over};
ghost use Rattle.pasetone.specs.Results.{out_result, out_result_of, room_result, room_result_of, yes};

use commands::FeedReply;
use parting::Place;
use reply::{Parts, Reply, TuneReply};
use settings::{Reply1, Reply2, Settings, Settings2};

// 7.1.0: the major number times 65,536, the minor times 256, the patch.
#[unsafe(no_mangle)]
pub extern "C" fn pasetone_version() -> u32
    ensures { result ≡ 459008 }
{
    0x0007_0100
}

// The tuner: src/tuners/r82xx.rs.
#[unsafe(no_mangle)]
pub extern "C" fn pasetone_tuner_new(kind: u64, address: u8, nominal: u64, next: &mut [u8]) -> Reply
    ensures { out_result result next.new ≡ out_result_of (tuner.fresh_into kind address nominal next.old) }
{
    let answer = tuners::fresh(kind, address, nominal, next);
    reply::numbers(answer, 0)
}

#[unsafe(no_mangle)]
pub extern "C" fn pasetone_initialize(
    tuner: &[u8],
    outcomes: &[u8],
    room: &mut [u8],
    next: &mut [u8],
) -> Reply
    ensures { after result room.new next.new
        ≡ over_tuner (course_of Initialize) outcomes.now tuner.now room.old next.old }
{
    tuners::initialize(tuner, outcomes, room, next)
}

#[unsafe(no_mangle)]
pub extern "C" fn pasetone_set_frequency(
    tuner: &[u8],
    hz: u64,
    outcomes: &[u8],
    replies: &[u8],
    room: &mut [u8],
    next: &mut [u8],
) -> TuneReply
    ensures { tuned_to result room.new next.new
        ≡ over_tuning (course_of (Tune hz replies.now)) outcomes.now tuner.now room.old next.old }
{
    tuners::set_frequency(tuner, hz, outcomes, replies, room, next)
}

#[unsafe(no_mangle)]
pub extern "C" fn pasetone_set_gain(
    tuner: &[u8],
    db: f32,
    outcomes: &[u8],
    room: &mut [u8],
    next: &mut [u8],
) -> Reply
    ensures { after result room.new next.new
        ≡ over_tuner (course_of (Gain db)) outcomes.now tuner.now room.old next.old }
{
    tuners::set_gain(tuner, db, outcomes, room, next)
}

#[unsafe(no_mangle)]
pub extern "C" fn pasetone_set_gain_by_index(
    tuner: &[u8],
    index: usize,
    outcomes: &[u8],
    room: &mut [u8],
    next: &mut [u8],
) -> Reply
    ensures { after result room.new next.new
        ≡ over_tuner (course_of (GainIndex index)) outcomes.now tuner.now room.old next.old }
{
    tuners::set_gain_by_index(tuner, index, outcomes, room, next)
}

#[unsafe(no_mangle)]
pub extern "C" fn pasetone_set_bandwidth(
    tuner: &[u8],
    hz: u32,
    outcomes: &[u8],
    room: &mut [u8],
    next: &mut [u8],
) -> Reply
    ensures { after result room.new next.new
        ≡ over_tuner (course_of (Bandwidth hz)) outcomes.now tuner.now room.old next.old }
{
    tuners::set_bandwidth(tuner, hz, outcomes, room, next)
}

#[unsafe(no_mangle)]
pub extern "C" fn pasetone_set_if_freq(
    tuner: &[u8],
    hz: u64,
    outcomes: &[u8],
    room: &mut [u8],
    next: &mut [u8],
) -> Reply
    ensures { after result room.new next.new
        ≡ over_tuner (course_of (IfFreq hz)) outcomes.now tuner.now room.old next.old }
{
    tuners::set_if_freq(tuner, hz, outcomes, room, next)
}

#[unsafe(no_mangle)]
pub extern "C" fn pasetone_set_input_path(
    tuner: &[u8],
    path: u64,
    outcomes: &[u8],
    room: &mut [u8],
    next: &mut [u8],
) -> Reply
    ensures { after result room.new next.new
        ≡ over_tuner (course_of (InputPath path)) outcomes.now tuner.now room.old next.old }
{
    tuners::set_input_path(tuner, path, outcomes, room, next)
}

#[unsafe(no_mangle)]
pub extern "C" fn pasetone_reload(
    tuner: &[u8],
    outcomes: &[u8],
    room: &mut [u8],
    next: &mut [u8],
) -> Reply
    ensures { after result room.new next.new
        ≡ over_tuner (course_of Reload) outcomes.now tuner.now room.old next.old }
{
    tuners::reload(tuner, outcomes, room, next)
}

#[unsafe(no_mangle)]
pub extern "C" fn pasetone_get_gain(tuner: &[u8]) -> Reply
    ensures { result ≡ reply_of (answer_over GainTold tuner.now) 0 }
{
    let answer = tuners::get_gain(tuner);
    reply::numbers(answer, 0)
}

#[unsafe(no_mangle)]
pub extern "C" fn pasetone_get_if_freq(tuner: &[u8]) -> Reply
    ensures { result ≡ reply_of (answer_over IfTold tuner.now) 0 }
{
    let answer = tuners::get_if_freq(tuner);
    reply::numbers(answer, 0)
}

// Ours: where the oscillator stands by the record's registers, in whole Hz.
#[unsafe(no_mangle)]
pub extern "C" fn pasetone_oscillator(tuner: &[u8]) -> Reply
    ensures { result ≡ reply_of (oscillator_over tuner.now) 0 }
{
    let answer = tuners::oscillator(tuner);
    reply::numbers(answer, 0)
}

#[unsafe(no_mangle)]
pub extern "C" fn pasetone_get_gain_table(tuner: &[u8], out: &mut [u8]) -> Reply
    ensures { out_result result out.new ≡ out_result_of (table_over tuner.now out.old) }
{
    let answer = tuners::get_gain_table(tuner, out);
    reply::numbers(answer, 0)
}

// This one, `pasetone_set_ppm` and `pasetone_feed` change the caller's bytes where they lie.
#[unsafe(no_mangle)]
pub extern "C" fn pasetone_apply_notch(tuner: &mut [u8], on: u8) -> Reply
    ensures { out_result result tuner.new ≡ out_result_of (changed_into (Notch (yes on)) tuner.old tuner.old) }
{
    let answer = tuners::apply_notch(tuner, on != 0);
    reply::numbers(answer, 0)
}

// The driver: src/lib.rs.
#[unsafe(no_mangle)]
pub extern "C" fn pasetone_driver_new(
    board: u64,
    nominal: u64,
    ppm: i32,
    frequency: u64,
    rate: u32,
    next: &mut [u8],
) -> Reply
    ensures { out_result result next.new ≡ out_result_of (driver.fresh_into board nominal ppm frequency rate next.old) }
{
    let answer = drivers::fresh(board, nominal, ppm, frequency, rate, next);
    reply::numbers(answer, 0)
}

#[unsafe(no_mangle)]
pub extern "C" fn pasetone_corrected_xtal_hz(driver: &[u8]) -> Reply
    ensures { result ≡ reply_of (xtal_over driver.now) 0 }
{
    let answer = drivers::corrected_xtal_hz(driver);
    reply::numbers(answer, 0)
}

// Ours: the recording's centre by both records and a table.
#[unsafe(no_mangle)]
pub extern "C" fn pasetone_centre(driver: &[u8], tuner: &[u8], table: &[u8]) -> Reply
    ensures { result ≡ reply_of (centre_over table.now driver.now tuner.now) 0 }
{
    let answer = drivers::centre(driver, tuner, table);
    reply::numbers(answer, 0)
}

// The one correction, of both records where they lie, or of neither.
#[unsafe(no_mangle)]
pub extern "C" fn pasetone_set_ppm(tuner: &mut [u8], driver: &mut [u8], ppm: i32) -> Reply
    ensures { corrects result tuner.new driver.new ≡ correct_over ppm tuner.old driver.old }
{
    drivers::set_ppm(tuner, driver, ppm)
}

// `left` is for the driver's next record, `next` for the tuner's.
#[unsafe(no_mangle)]
pub extern "C" fn pasetone_set_sample_rate(
    driver: &[u8],
    tuner: &[u8],
    table: &[u8],
    rate: u32,
    outcomes: &[u8],
    room: &mut [u8],
    left: &mut [u8],
    next: &mut [u8],
) -> Reply
    ensures { rates result room.new left.new next.new
        ≡ rate_over outcomes.now rate table.now driver.now tuner.now room.old left.old next.old }
{
    drivers::set_sample_rate(driver, tuner, table, rate, outcomes, room, left, next)
}

// The board-level tune: document 02, #113.
#[unsafe(no_mangle)]
pub extern "C" fn pasetone_tune_board(
    driver: &[u8],
    tuner: &[u8],
    table: &[u8],
    hz: u64,
    outcomes: &[u8],
    replies: &[u8],
    room: &mut [u8],
    left: &mut [u8],
    next: &mut [u8],
) -> TuneReply
    ensures { hops result room.new left.new next.new
        ≡ hop_over table.now hz replies.now outcomes.now driver.now tuner.now room.old left.old next.old }
{
    drivers::tune_board(
        driver, tuner, table, hz, outcomes, replies, room, left, next,
    )
}

#[unsafe(no_mangle)]
pub extern "C" fn pasetone_apply_input_path(
    tuner: &[u8],
    path: u64,
    outcomes: &[u8],
    replies: &[u8],
    room: &mut [u8],
    next: &mut [u8],
) -> Reply
    ensures { after result room.new next.new
        ≡ over_tuner (board_row (path_of path) replies.now) outcomes.now tuner.now room.old next.old }
{
    drivers::apply_input_path(tuner, path, outcomes, replies, room, next)
}

// Commands of a serial line: document 02, #105. The stream's bytes and both records are changed where they lie.
#[unsafe(no_mangle)]
pub extern "C" fn pasetone_feed(
    stream: &mut [u8],
    driver: &mut [u8],
    tuner: &mut [u8],
    table: &[u8],
    chunk: &[u8],
    outcomes: &[u8],
    replies: &[u8],
    room: &mut [u8],
) -> FeedReply
    ensures { feeds result stream.new driver.new tuner.new room.new
        ≡ feed_over table.now chunk.now replies.now outcomes.now stream.old driver.old tuner.old room.old }
{
    commands::feed(stream, driver, tuner, table, chunk, outcomes, replies, room)
}

#[unsafe(no_mangle)]
pub extern "C" fn pasetone_stream_pending(stream: &[u8]) -> Reply
    ensures { result ≡ reply_of (pending_answer stream.now) 0 }
{
    let answer = commands::pending(stream);
    reply::numbers(answer, 0)
}

// The demodulator: src/demod.rs.
#[unsafe(no_mangle)]
pub extern "C" fn pasetone_init_baseband(outcomes: &[u8], room: &mut [u8]) -> Reply
    ensures { room_result result room.new ≡ room_result_of (free_result (demod_course Baseband) outcomes.now room.old) }
{
    let handed = demod::init_baseband(outcomes, room);
    let answer = handed.answer;
    reply::numbers(answer, handed.count)
}

#[unsafe(no_mangle)]
pub extern "C" fn pasetone_power_on(outcomes: &[u8], room: &mut [u8]) -> Reply
    ensures { room_result result room.new ≡ room_result_of (free_result (demod_course Baseband) outcomes.now room.old) }
{
    let handed = demod::power_on(outcomes, room);
    let answer = handed.answer;
    reply::numbers(answer, handed.count)
}

#[unsafe(no_mangle)]
pub extern "C" fn pasetone_reset_demod(outcomes: &[u8], room: &mut [u8]) -> Reply
    ensures { room_result result room.new ≡ room_result_of (free_result (demod_course Reset) outcomes.now room.old) }
{
    let handed = demod::reset_demod(outcomes, room);
    let answer = handed.answer;
    reply::numbers(answer, handed.count)
}

#[unsafe(no_mangle)]
pub extern "C" fn pasetone_set_tuner_low_if(outcomes: &[u8], room: &mut [u8]) -> Reply
    ensures { room_result result room.new ≡ room_result_of (free_result (demod_course LowIf) outcomes.now room.old) }
{
    let handed = demod::set_tuner_low_if(outcomes, room);
    let answer = handed.answer;
    reply::numbers(answer, handed.count)
}

#[unsafe(no_mangle)]
pub extern "C" fn pasetone_set_tuner_zero_if(outcomes: &[u8], room: &mut [u8]) -> Reply
    ensures { room_result result room.new ≡ room_result_of (free_result (demod_course ZeroIf) outcomes.now room.old) }
{
    let handed = demod::set_tuner_zero_if(outcomes, room);
    let answer = handed.answer;
    reply::numbers(answer, handed.count)
}

#[unsafe(no_mangle)]
pub extern "C" fn pasetone_start_streaming(outcomes: &[u8], room: &mut [u8]) -> Reply
    ensures { room_result result room.new ≡ room_result_of (free_result (demod_course Start) outcomes.now room.old) }
{
    let handed = demod::start_streaming(outcomes, room);
    let answer = handed.answer;
    reply::numbers(answer, handed.count)
}

#[unsafe(no_mangle)]
pub extern "C" fn pasetone_stop_streaming(outcomes: &[u8], room: &mut [u8]) -> Reply
    ensures { room_result result room.new ≡ room_result_of (free_result (demod_course Stop) outcomes.now room.old) }
{
    let handed = demod::stop_streaming(outcomes, room);
    let answer = handed.answer;
    reply::numbers(answer, handed.count)
}

#[unsafe(no_mangle)]
pub extern "C" fn pasetone_write_reg_direct(
    page: u8,
    address: u16,
    value: u8,
    outcomes: &[u8],
    room: &mut [u8],
) -> Reply
    ensures { room_result result room.new ≡ room_result_of (free_result (demod_course (Direct page address value)) outcomes.now room.old) }
{
    let handed = demod::write_reg_direct(page, address, value, outcomes, room);
    let answer = handed.answer;
    reply::numbers(answer, handed.count)
}

#[unsafe(no_mangle)]
pub extern "C" fn pasetone_set_if_freq_xtal(
    hz: u32,
    xtal: u32,
    outcomes: &[u8],
    room: &mut [u8],
) -> Reply
    ensures { room_result result room.new ≡ room_result_of (free_result (demod_course (IfXtal hz xtal)) outcomes.now room.old) }
{
    let handed = demod::set_if_freq_xtal(hz, xtal, outcomes, room);
    let answer = handed.answer;
    reply::numbers(answer, handed.count)
}

#[unsafe(no_mangle)]
pub extern "C" fn pasetone_set_sample_rate_xtal(
    rate: u32,
    xtal: u32,
    outcomes: &[u8],
    room: &mut [u8],
) -> Reply
    ensures { room_result result room.new ≡ room_result_of (free_result (demod_course (RateXtal rate xtal)) outcomes.now room.old) }
{
    let handed = demod::set_sample_rate_xtal(rate, xtal, outcomes, room);
    let answer = handed.answer;
    reply::numbers(answer, handed.count)
}

// GPIO: src/device.rs.
#[unsafe(no_mangle)]
pub extern "C" fn pasetone_set_gpio_output(
    gpio: u8,
    outcomes: &[u8],
    replies: &[u8],
    room: &mut [u8],
) -> Reply
    ensures { room_result result room.new ≡ room_result_of (free_result (gpio_course (Output gpio replies.now)) outcomes.now room.old) }
{
    let handed = device::set_gpio_output(gpio, outcomes, replies, room);
    let answer = handed.answer;
    reply::numbers(answer, handed.count)
}

#[unsafe(no_mangle)]
pub extern "C" fn pasetone_set_gpio_bit(
    gpio: u8,
    value: u8,
    outcomes: &[u8],
    replies: &[u8],
    room: &mut [u8],
) -> Reply
    ensures { room_result result room.new ≡ room_result_of (free_result (gpio_course (Bit gpio value replies.now)) outcomes.now room.old) }
{
    let handed = device::set_gpio_bit(gpio, value, outcomes, replies, room);
    let answer = handed.answer;
    reply::numbers(answer, handed.count)
}

// Leaves: src/tuner.rs, src/registers.rs, the FIR of src/demod.rs, the reader of sections.
#[unsafe(no_mangle)]
pub extern "C" fn pasetone_plan_tuning(board: u64, hz: u64, out: &mut [u8]) -> Reply
    ensures { out_result result out.new ≡ out_result_of (plan_into (board_of board) hz out.old) }
{
    let answer = answers::plan_tuning(board, hz, out);
    reply::numbers(answer, 0)
}

// Boards from a table.
#[unsafe(no_mangle)]
pub extern "C" fn pasetone_board_table(board: u64, out: &mut [u8]) -> Reply
    ensures { out_result result out.new ≡ out_result_of (table_into (board_of board) out.old) }
{
    let answer = bands::board_table(board, out);
    reply::numbers(answer, 0)
}

#[unsafe(no_mangle)]
pub extern "C" fn pasetone_plan_by_table(table: &[u8], hz: u64, out: &mut [u8]) -> Reply
    ensures { out_result result out.new ≡ out_result_of (plan_by_into table.now hz out.old) }
{
    let answer = answers::plan_by_table(table, hz, out);
    reply::numbers(answer, 0)
}

#[unsafe(no_mangle)]
pub extern "C" fn pasetone_plan_pll(kind: u64, lo: u64, reference: u32, out: &mut [u8]) -> Reply
    ensures { out_result result out.new ≡ out_result_of (pll_into kind lo reference out.old) }
{
    let answer = answers::plan_pll(kind, lo, reference, out);
    reply::numbers(answer, 0)
}

#[unsafe(no_mangle)]
pub extern "C" fn pasetone_plan_pll_by_worksheet(
    kind: u64,
    lo: u64,
    reference: u32,
    out: &mut [u8],
) -> Reply
    ensures { out_result result out.new ≡ out_result_of (worksheet_into kind lo reference out.old) }
{
    let answer = answers::plan_pll_by_worksheet(kind, lo, reference, out);
    reply::numbers(answer, 0)
}

#[unsafe(no_mangle)]
pub extern "C" fn pasetone_if_freq_regs(hz: u32, xtal: u32, out: &mut [u8]) -> Reply
    ensures { out_result result out.new ≡ out_result_of (if_into hz xtal out.old) }
{
    let answer = answers::if_freq_regs(hz, xtal, out);
    reply::numbers(answer, 0)
}

#[unsafe(no_mangle)]
pub extern "C" fn pasetone_resample_regs(rate: u32, xtal: u32, out: &mut [u8]) -> Reply
    ensures { out_result result out.new ≡ out_result_of (resample_into rate xtal out.old) }
{
    let answer = answers::resample_regs(rate, xtal, out);
    reply::numbers(answer, 0)
}

#[unsafe(no_mangle)]
pub extern "C" fn pasetone_pack_fir(values: &[u8], out: &mut [u8]) -> Reply
    ensures { out_result result out.new ≡ out_result_of (pack_into values.now out.old) }
{
    let answer = answers::pack_fir(values, out);
    reply::numbers(answer, 0)
}

#[unsafe(no_mangle)]
pub extern "C" fn pasetone_unpack_fir(bytes: &[u8], out: &mut [u8]) -> Reply
    ensures { out_result result out.new ≡ out_result_of (unpack_into bytes.now out.old) }
{
    let answer = answers::unpack_fir(bytes, out);
    reply::numbers(answer, 0)
}

#[unsafe(no_mangle)]
pub extern "C" fn pasetone_read_section(bytes: &[u8]) -> Parts
    ensures { result ≡ parts_of (section_of bytes.now) }
{
    let section = transcript::read_section(bytes);
    reply::located(section)
}

// Where two sections part: document 02, #114.
#[unsafe(no_mangle)]
pub extern "C" fn pasetone_parting(first: &[u8], second: &[u8]) -> Place
    ensures { result ≡ parting_of first.now second.now }
{
    parting::parting(first, second)
}

// Settings on file: document 02, #108. The edition stands in each name.
#[unsafe(no_mangle)]
pub extern "C" fn pasetone_read_settings_1(bytes: &[u8]) -> Reply1
    ensures { result ≡ told_of1 (read_of1 bytes.now) }
{
    let read = settings::read_1(bytes);
    settings::told_1(read)
}

#[unsafe(no_mangle)]
pub extern "C" fn pasetone_write_settings_1(
    kind: u64,
    board: u64,
    correction: i32,
    rate: u32,
    frequency: u64,
    gain: u64,
    out: &mut [u8],
) -> Reply
    ensures { out_result result out.new ≡ out_result_of (written_to1 (settings kind board correction rate frequency gain) out.old) }
{
    let s = Settings {
        kind: kind,
        board: board,
        ppm: correction,
        rate: rate,
        frequency: frequency,
        gain: gain,
    };
    let answer = settings::write_1(s, out);
    reply::numbers(answer, 0)
}

// Edition 2: document 02, #112.
#[unsafe(no_mangle)]
pub extern "C" fn pasetone_read_settings_2(bytes: &[u8]) -> Reply2
    ensures { result ≡ told_of2 (read_of2 bytes.now) }
{
    let read = settings::read_2(bytes);
    settings::told_2(read)
}

#[unsafe(no_mangle)]
pub extern "C" fn pasetone_write_settings_2(
    kind: u64,
    board: u64,
    correction: i32,
    rate: u32,
    frequency: u64,
    gain: u64,
    intermediate: u32,
    out: &mut [u8],
) -> Reply
    ensures { out_result result out.new
        ≡ out_result_of (written_to2 (wider (settings kind board correction rate frequency gain) intermediate) out.old) }
{
    let s = Settings {
        kind: kind,
        board: board,
        ppm: correction,
        rate: rate,
        frequency: frequency,
        gain: gain,
    };
    let w = Settings2 {
        settings: s,
        ifreq: intermediate,
    };
    let answer = settings::write_2(w, out);
    reply::numbers(answer, 0)
}

#[unsafe(no_mangle)]
pub extern "C" fn pasetone_move_settings_1_to_2(bytes: &[u8], out: &mut [u8]) -> Reply
    ensures { out_result result out.new ≡ out_result_of (moved_to2 bytes.now out.old) }
{
    let answer = settings::move_1_to_2(bytes, out);
    reply::numbers(answer, 0)
}

#[unsafe(no_mangle)]
pub extern "C" fn pasetone_move_settings_2_to_1(bytes: &[u8], out: &mut [u8]) -> Reply
    ensures { out_result result out.new ≡ out_result_of (moved_to1 bytes.now out.old) }
{
    let answer = settings::move_2_to_1(bytes, out);
    reply::numbers(answer, 0)
}

// Setup packets for the replay box: document 02, #107.
#[unsafe(no_mangle)]
pub extern "C" fn pasetone_expand(section: &[u8], out: &mut [u8]) -> Reply
    ensures { out_result result out.new ≡ out_result_of (expand_into section.now out.old) }
{
    let answer = expansion::expand(section, out);
    reply::numbers(answer, 0)
}

#[unsafe(no_mangle)]
pub extern "C" fn pasetone_read_packets(packets: &[u8], out: &mut [u8]) -> Reply
    ensures { out_result result out.new ≡ out_result_of (read_into packets.now out.old) }
{
    let answer = expansion::read_packets(packets, out);
    reply::numbers(answer, 0)
}

// Restore lists: document 02, #110.
#[unsafe(no_mangle)]
pub extern "C" fn pasetone_restore(sections: &[u8], address: u8, out: &mut [u8]) -> Reply
    ensures { out_result result out.new ≡ out_result_of (restore_into sections.now address out.old) }
{
    let answer = restoring::restore(sections, address, out);
    reply::numbers(answer, 0)
}

// Ours: what sections tell of the station that a receiver stands on.
#[unsafe(no_mangle)]
pub extern "C" fn pasetone_evidence(
    sections: &[u8],
    address: u8,
    reference: u32,
    xtal: u32,
    out: &mut [u8],
) -> Reply
    ensures { out_result result out.new ≡ out_result_of (evidence_into sections.now address reference xtal out.old) }
{
    let answer = witness::evidence(sections, address, reference, xtal, out);
    reply::numbers(answer, 0)
}
