// Commands as they arrive on a serial line: nine bytes each, chopped anywhere. What nine bytes ask for, and the bytes that wait for the rest of their
// command between two calls. Ours: no file of the Rust has it. Document 02, #105. It knows no record and no step; crate `commands` runs what is read here.

#![tactic(auto)]

ghost use Rattle.std.specs.Prelude.{◌≡◌, true, ◌≤◌, length};
ghost use Rattle.stream.specs.Commands.{command_of, is_known, most_for, named};
ghost use Rattle.stream.specs.InCode.{gathered_of, pending_count, stream_after};

// The bytes of a command, and of the stream as a host keeps it: how many bytes are pending, and the eight that may be.
pub const COMMAND: usize = 9;

pub const STREAM: usize = 9;

// "A command carries either a gain in dB or a whole number."
#[derive(Clone, Copy)]
pub enum Command {
    Frequency(u64),
    Rate(u32),
    GainDb(f32),
    GainIndex(u8),
    Bandwidth(u32),
    Correction(i32),
    Reload,
}

// What was taken of a chunk: how much of it, and the bytes that there are now of the command that is waited for, zeros after them. With nine it is whole.
// An array with a count beside: nothing here may take memory, and the zeros are the stream's own bytes (document 02, #105).
#[derive(Clone, Copy)]
pub struct Gathered {
    pub used: usize,
    pub count: usize,
    pub bytes: [u8; 9],
}

// The largest argument of an operation: its unused high bytes are zero.
fn most_for(operation: u8) -> u64
    ensures { result ≡ most_for operation }
{
    if operation == 1 {
        return 0xffff_ffff_ffff_ffff;
    }
    if operation == 4 {
        return 255;
    }
    if operation == 7 {
        return 0;
    }
    0xffff_ffff
}

fn is_known(operation: u8, argument: u64) -> bool
    ensures { result ≡ is_known operation argument }
{
    (1 <= operation) & (operation <= 7) & (argument <= most_for(operation))
}

// Every operation but the first has an argument of at most four bytes.
fn named_low(operation: u8, argument: u32) -> Command
    requires { (2 ≤ operation) × (is_known operation argument ≡ true) }
    ensures { result ≡ named operation argument }
{
    match operation {
        2 => Command::Rate(argument),
        3 => Command::GainDb(wire::float_of(argument)),
        4 => Command::GainIndex(argument as u8),
        5 => Command::Bandwidth(argument),
        6 => Command::Correction(wire::to_signed(argument)),
        _ => Command::Reload,
    }
}

// None for an unknown operation, and where unused bytes are not zero.
pub fn command_of(bytes: &[u8; 9]) -> Option<Command>
    ensures { result ≡ command_of bytes.now }
{
    let argument = wire::eight(bytes, 1);
    let operation = bytes[0];
    if !is_known(operation, argument) {
        return None;
    }
    if operation == 1 {
        return Some(Command::Frequency(argument));
    }
    Some(named_low(operation, argument as u32))
}

// How many bytes are pending, None where the bytes are not those of a stream: those after the pending ones are zero, read as one number.
pub fn pending_count(s: &[u8]) -> Option<usize>
    ensures { result ≡ pending_count s.now }
{
    if s.len() != STREAM {
        return None;
    }
    let held = s[0] as usize;
    if 8 < held {
        return None;
    }
    if wire::get(s, 1 + held, 8 - held) != 0 {
        return None;
    }
    Some(held)
}

// The pending bytes with those of a chunk, up to the command's ninth. None where the stream's bytes are not valid.
pub fn gather(stream: &[u8], chunk: &[u8]) -> Option<Gathered>
    ensures { result ≡ gathered_of stream.now chunk.now }
{
    let held = pending_count(stream)?;
    let used = chunk.len().min(COMMAND - held);
    let mut bytes = [0u8; 9];
    wire::copy(&mut bytes, 0, &stream[1..1 + held]);
    wire::copy(&mut bytes, held, &chunk[0..used]);
    Some(Gathered {
        used,
        count: held + used,
        bytes,
    })
}

// The stream's bytes after that: nothing waits where the command is whole.
pub fn image(got: Gathered) -> [u8; 9]
    ensures { result ≡ stream_after got }
{
    let mut kept = [0u8; 9];
    let count = got.count;
    if COMMAND <= count {
        return kept;
    }
    let bytes = got.bytes;
    kept[0] = count as u8;
    wire::copy(&mut kept, 1, &bytes[0..8]);
    kept
}
