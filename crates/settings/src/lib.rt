// Receiver settings on file: an image of fixed widths with a trailer, read from the end of a slice, in two editions. Ours: no file of the Rust has it.
// Document 02, #108, "Receiver settings on file", and #112, "Settings edition 2". It leans on no record and on no call of the tuner: a kind, a board and a gain index are numbers here.

#![tactic(auto)]

ghost use Rattle.std.specs.Prelude.{◌≡◌, ◌+◌, ◌≤◌, ◌<◌, length, take, drop, map};
ghost use Rattle.std.proofs.lemmas.List.Edits.{sets};
ghost use Rattle.refusals.specs.Lent.{given};
ghost use Rattle.wire.specs.Bytes.{le_value};
ghost use Rattle.wire.specs.Parts.{joined, parts_from};
ghost use Rattle.settings.specs.Image.{image1, image2, numbers1, parts_of, trailer, widths1};
ghost use Rattle.settings.specs.Reading.{field_refusal, moved_to1, moved_to2, narrow_refusal, only_of2, read_of1, read_of2, refused, refused2, settings_from, told_of1, told_of2, trailer_refusal, widened, written_to1, written_to2};

use refusals::Answer;

// The IF that edition 1 stands for.
const USUAL_IF: u32 = 2_300_000;

// The bytes of edition 1's fields, and of its whole image; where each field stands, its kind first.
const FIELDS_1: usize = 19;

const IMAGE_1: usize = 23;

// And of edition 2's, whose IF stands last.
const FIELDS_2: usize = 23;

const IMAGE_2: usize = 27;

const BOARD: usize = 1;

const PPM: usize = 2;

const RATE: usize = 6;

const FREQUENCY: usize = 10;

const GAIN: usize = 18;

// The record that is stored. Kind, board and gain index are any number here; those that no image has are refused.
#[derive(Clone, Copy)]
pub struct Settings {
    pub kind: u64,
    pub board: u64,
    pub ppm: i32,
    pub rate: u32,
    pub frequency: u64,
    pub gain: u64,
}

// What was read: 0 and a record, or a refusal's number and zeros.
#[derive(Clone, Copy)]
pub struct Read {
    pub refusal: u8,
    pub settings: Settings,
}

// Edition 2: those of edition 1 and the IF.
#[derive(Clone, Copy)]
pub struct Settings2 {
    pub settings: Settings,
    pub ifreq: u32,
}

#[derive(Clone, Copy)]
pub struct Read2 {
    pub refusal: u8,
    pub settings: Settings2,
}

// The same for a C host.
#[repr(C)]
#[derive(Clone, Copy)]
pub struct Reply2 {
    pub frequency: u64,
    pub kind: u64,
    pub board: u64,
    pub gain: u64,
    pub rate: u32,
    pub correction: i32,
    pub ifreq: u32,
    pub refusal: u32,
}

#[repr(C)]
#[derive(Clone, Copy)]
pub struct Reply1 {
    pub frequency: u64,
    pub kind: u64,
    pub board: u64,
    pub gain: u64,
    pub rate: u32,
    pub correction: i32,
    pub refusal: u32,
    pub zero: u32,
}

impl Settings {
    // 0, or 17 for a number that no image has.
    fn refusal(self) -> u8
        ensures { result ≡ field_refusal self }
    {
        if (self.kind <= 1) & (self.board <= 1) & (self.gain <= 28) {
            return 0;
        }
        refusals::SETTINGS
    }
}

fn refuse(number: u8) -> Read
    ensures { result ≡ refused number }
{
    Read {
        refusal: number,
        settings: Settings {
            kind: 0,
            board: 0,
            ppm: 0,
            rate: 0,
            frequency: 0,
            gain: 0,
        },
    }
}

// What the last four bytes say: 0, or 16 before all else, or 17.
fn trailer_refusal(s: &[u8], edition: u8, size: usize) -> u8
    ensures { result ≡ trailer_refusal edition size s.now }
{
    let n = s.len();
    if n < 4 {
        return refusals::SETTINGS;
    }
    if s[n - 4] != edition {
        return refusals::EDITION;
    }
    let distance = wire::get(s, n - 2, 2) as usize;
    if (s[n - 3] == 0) & (distance == size) & (size <= n - 4) {
        return 0;
    }
    refusals::SETTINGS
}

// The fields that stand from `at`, as they are.
fn fields_at(s: &[u8], at: usize) -> Settings
    requires { at + 19 ≤ length s.now }
    ensures { result ≡ settings_from (map le_value (parts_from at widths1 s.now)) }
{
    Settings {
        kind: wire::get(s, at, 1),
        board: wire::get(s, at + BOARD, 1),
        ppm: wire::to_signed(wire::four(s, at + PPM)),
        rate: wire::four(s, at + RATE),
        frequency: wire::eight(s, at + FREQUENCY),
        gain: wire::get(s, at + GAIN, 1),
    }
}

// The record of edition 1 in which a slice ends; what stands before it is not looked at.
pub fn read_1(s: &[u8]) -> Read
    ensures { result ≡ read_of1 s.now }
{
    let refusal = trailer_refusal(s, 1, FIELDS_1);
    if refusal != 0 {
        return refuse(refusal);
    }
    let settings = fields_at(s, s.len() - IMAGE_1);
    let field = settings.refusal();
    if field != 0 {
        return refuse(field);
    }
    Read {
        refusal: 0,
        settings,
    }
}

// The fields, one after the other, from the start.
fn put_fields(image: &mut [u8], s: Settings)
    requires { 19 ≤ length image.old }
    ensures { image.new ≡ sets image.old 0 (joined (parts_of widths1 (numbers1 s))) }
{
    wire::put(image, 0, s.kind, 1);
    wire::put(image, BOARD, s.board, 1);
    wire::put(image, PPM, wire::to_bits(s.ppm) as u64, 4);
    wire::put(image, RATE, s.rate as u64, 4);
    wire::put(image, FREQUENCY, s.frequency, 8);
    wire::put(image, GAIN, s.gain, 1);
}

// The trailer after the fields, which end at `at`: edition, zero and distance are one number of four bytes.
fn seal(image: &mut [u8], at: usize, edition: u8)
    requires { (at < 65536) × (at + 4 ≤ length image.old) }
    ensures { image.new ≡ sets image.old at (trailer edition at) }
{
    wire::put(image, at, edition as u64 + 65536 * (at as u64), 4);
}

// Beside image_2: one function over the size is no plainer, since edition 2 puts its IF between the two calls that they share.
fn image_1(s: Settings) -> [u8; 23]
    ensures { result ≡ image1 s }
{
    let mut image = [0u8; 23];
    put_fields(&mut image, s);
    seal(&mut image, FIELDS_1, 1);
    image
}

// The image of edition 1 at the start of a lent slice; the value is its length.
pub fn write_1(s: Settings, out: &mut [u8]) -> Answer
    ensures { given result out.new ≡ written_to1 s out.old }
{
    let image = image_1(s);
    refusals::lend(s.refusal(), IMAGE_1 as u64, &image, out)
}

// Beside told_2: what each fills is a struct of the C interface.
pub fn told_1(read: Read) -> Reply1
    ensures { result ≡ told_of1 read }
{
    let s = read.settings;
    Reply1 {
        frequency: s.frequency,
        kind: s.kind,
        board: s.board,
        gain: s.gain,
        rate: s.rate,
        correction: s.ppm,
        refusal: read.refusal as u32,
        zero: 0,
    }
}

fn refuse_2(number: u8) -> Read2
    ensures { result ≡ refused2 number }
{
    let none = refuse(number);
    let zeros = none.settings;
    Read2 {
        refusal: number,
        settings: Settings2 {
            settings: zeros,
            ifreq: 0,
        },
    }
}

// The record of edition 2 in which a slice ends; any other edition is 16.
fn read_only_2(s: &[u8]) -> Read2
    ensures { result ≡ only_of2 s.now }
{
    let refusal = trailer_refusal(s, 2, FIELDS_2);
    if refusal != 0 {
        return refuse_2(refusal);
    }
    let at = s.len() - IMAGE_2;
    let settings = fields_at(s, at);
    let field = settings.refusal();
    if field != 0 {
        return refuse_2(field);
    }
    Read2 {
        refusal: 0,
        settings: Settings2 {
            settings,
            ifreq: wire::four(s, at + FIELDS_1),
        },
    }
}

// A reading of edition 1 as one of edition 2.
fn widen(read: Read) -> Read2
    ensures { result ≡ widened read }
{
    if read.refusal != 0 {
        return refuse_2(read.refusal);
    }
    let settings = read.settings;
    Read2 {
        refusal: 0,
        settings: Settings2 {
            settings,
            ifreq: USUAL_IF,
        },
    }
}

// The record of edition 2, or of edition 1 with the IF that it stands for.
pub fn read_2(s: &[u8]) -> Read2
    ensures { result ≡ read_of2 s.now }
{
    let read = read_only_2(s);
    if read.refusal == refusals::EDITION {
        return widen(read_1(s));
    }
    read
}

pub fn told_2(read: Read2) -> Reply2
    ensures { result ≡ told_of2 read }
{
    let w = read.settings;
    let s = w.settings;
    Reply2 {
        frequency: s.frequency,
        kind: s.kind,
        board: s.board,
        gain: s.gain,
        rate: s.rate,
        correction: s.ppm,
        ifreq: w.ifreq,
        refusal: read.refusal as u32,
    }
}

fn image_2(w: Settings2) -> [u8; 27]
    ensures { result ≡ image2 w }
{
    let s = w.settings;
    let mut image = [0u8; 27];
    put_fields(&mut image, s);
    wire::put(&mut image, FIELDS_1, w.ifreq as u64, 4);
    seal(&mut image, FIELDS_2, 2);
    image
}

// The image of edition 2 at the start of a lent slice; the value is its length.
pub fn write_2(w: Settings2, out: &mut [u8]) -> Answer
    ensures { given result out.new ≡ written_to2 w out.old }
{
    let s = w.settings;
    let image = image_2(w);
    refusals::lend(s.refusal(), IMAGE_2 as u64, &image, out)
}

// Edition 1 as edition 2, with the IF that it stands for.
pub fn move_1_to_2(s: &[u8], out: &mut [u8]) -> Answer
    ensures { given result out.new ≡ moved_to2 s.now out.old }
{
    let read = read_1(s);
    let settings = read.settings;
    let image = image_2(Settings2 {
        settings,
        ifreq: USUAL_IF,
    });
    refusals::lend(read.refusal, IMAGE_2 as u64, &image, out)
}

fn narrow_refusal(read: Read2) -> u8
    ensures { result ≡ narrow_refusal read }
{
    if read.refusal != 0 {
        return read.refusal;
    }
    let w = read.settings;
    if w.ifreq != USUAL_IF {
        return refusals::NOT_EXPRESSIBLE;
    }
    0
}

// Edition 2 as edition 1, where its IF is the one that edition 1 stands for.
pub fn move_2_to_1(s: &[u8], out: &mut [u8]) -> Answer
    ensures { given result out.new ≡ moved_to1 s.now out.old }
{
    let read = read_only_2(s);
    let w = read.settings;
    let settings = w.settings;
    let image = image_1(settings);
    refusals::lend(narrow_refusal(read), IMAGE_1 as u64, &image, out)
}
