// The boards and their tuning plans: src/tuner.rs, `plan_tuning` of the generic board and of the V4.
// Document 01, "Modules": "`plan_tuning` for generic board and V4. Leave out `id` and filters."

#![tactic(auto)]

ghost use Rattle.std.specs.Prelude.{◌≡◌};
ghost use Rattle.board.specs.Plans.{in_notch, path_at, board_plan, tuner_hz};
ghost use Rattle.board.specs.Numbers.{board_number, board_of, path_number, path_of, route_number};

// The Rust's `BoardConfig`.
#[derive(Clone, Copy, PartialEq, Eq)]
pub enum Board {
    Generic,
    V4,
}

// The Rust's `InputPath`.
#[derive(Clone, Copy, PartialEq, Eq)]
pub enum Path {
    Hf,
    Vhf,
    Uhf,
}

// The Rust's `TuningPlan`: the frequency for the tuner, whether the spectrum is turned round, the path, whether a notch holds it. A board without a
// triplexer has no path to choose.
#[derive(Clone, Copy, PartialEq, Eq)]
pub struct Plan {
    pub hz: u64,
    pub inverted: bool,
    pub path: Option<Path>,
    pub notch: bool,
}

fn tuner_hz(hz: u64) -> u64
    ensures { result ≡ tuner_hz hz }
{
    if hz < 28_800_000 {
        return hz + 28_800_000;
    }
    hz
}

fn input_path(hz: u64) -> Path
    ensures { result ≡ path_at hz }
{
    if hz < 28_800_000 {
        return Path::Hf;
    }
    if hz < 250_000_000 {
        return Path::Vhf;
    }
    Path::Uhf
}

fn in_notch(hz: u64) -> bool
    ensures { result ≡ in_notch hz }
{
    matches!(hz, 0..=2_200_000 | 85_000_000..=112_000_000 | 172_000_000..=242_000_000)
}

pub fn plan_tuning(board: Board, hz: u64) -> Plan
    ensures { result ≡ board_plan board hz }
{
    match board {
        Board::Generic => Plan {
            hz: hz,
            inverted: false,
            path: None,
            notch: false,
        },
        Board::V4 => Plan {
            hz: tuner_hz(hz),
            inverted: hz < 28_800_000,
            path: Some(input_path(hz)),
            notch: in_notch(hz),
        },
    }
}

impl From<Board> for u8 {
    ghost from_gives = { λ board number. number ≡ board_number board };

    fn from(board: Board) -> u8 {
        match board {
            Board::Generic => 0,
            Board::V4 => 1,
        }
    }
}

impl From<Path> for u8 {
    ghost from_gives = { λ path number. number ≡ path_number path };

    fn from(path: Path) -> u8 {
        match path {
            Path::Hf => 0,
            Path::Vhf => 1,
            Path::Uhf => 2,
        }
    }
}

// The number of a plan's path.
pub fn route_number(path: Option<Path>) -> u8
    ensures { result ≡ route_number path }
{
    match path {
        Some(p) => u8::from(p),
        None => 3,
    }
}

// What a number from a host names, of any size. To an Option: each caller refuses with a number of its own, so that a TryFrom's error would say nothing.
pub fn board_of(number: u64) -> Option<Board>
    ensures { result ≡ board_of number }
{
    match number {
        0 => Some(Board::Generic),
        1 => Some(Board::V4),
        _ => None,
    }
}

pub fn path_of(number: u8) -> Option<Path>
    ensures { result ≡ path_of number }
{
    match number {
        0 => Some(Path::Hf),
        1 => Some(Path::Vhf),
        2 => Some(Path::Uhf),
        _ => None,
    }
}
