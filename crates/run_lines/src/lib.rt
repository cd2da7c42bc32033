// Frames of runs as numbers, and frames and places as text, for run_cases and reading_cases.
#![tactic(auto)]

ghost use Rattle.std.specs.Prelude.{◌≡◌, ◌+◌, ◌*◌};
ghost use Rattle.bits.specs.Bits.{bit_n, num_of};
ghost use Rattle.sbr_grid.specs.Grid.{class_code};
ghost use Rattle.run_lines.specs.Number.{with_digit, with_digits, mark_number, frame_number};

use sbr_grid::{FrameClass, SbrGrid, TimeGrid};
use sbr_reader::{Carried, FrameRead};
use sbr_run::Place;

// A frame that is sent or read: its record, its time grid, and whether it begins on an attack.
#[derive(Clone, Copy)]
pub struct Frame {
    pub grid: SbrGrid,
    pub time: TimeGrid,
    pub begins_on_attack: bool,
}

// A frame that was read.
impl From<FrameRead> for Frame {
    ghost from_gives = { λ read frame. frame ≡ record { grid = read.grid; time = read.time; begins_on_attack = read.begins_on_attack } };

    fn from(read: FrameRead) -> Frame {
        Frame {
            grid: read.grid,
            time: read.time,
            begins_on_attack: read.begins_on_attack,
        }
    }
}

impl Frame {
    // A frame in a number: whether it begins on an attack, class, resolutions, count of envelopes, borders, noise borders and mark. Frames that differ in
    // one of these have different numbers, where each is below 32 (NumberTells).
    #[tactic(auto, using(crate::proofs::Numbers::digits_append), unfolding(crate::specs::Number::frame_number))]
    pub fn number(&self) -> u64
        ensures { result ≡ frame_number self.now.grid self.now.time self.now.begins_on_attack }
    {
        let kind = kind_number(self.begins_on_attack, self.grid.frame_class);
        let form = with_digit(kind, resolutions_number(self.grid.freq_res));
        let counted = with_digit(form, self.time.num_env as u64);
        let borders = with_digits(with_digits(counted, &self.time.t_e), &self.time.t_q);
        with_digit(borders, mark_number(self.time.l_a))
    }

    // Class, borders, noise borders, mark and resolutions.
    pub fn print(&self, rt: &impl Print) {
        let _ = print!(rt; "{}", self.grid.frame_class);
        case_io::print_times(rt, &self.time);
        let _ = print!(rt; " / ");
        let num_env = self.grid.num_env.min(SbrGrid::MAX_NUM_ENV);
        case_io::print_resolutions(rt, &self.grid.freq_res[..num_env])
    }

    // Whether it begins on an attack.
    pub fn print_begins(&self, rt: &impl Print) {
        if self.begins_on_attack {
            let _ = print!(rt; " begins on an attack");
        }
    }
}

// A number with a digit of base 32 behind it.
fn with_digit(number: u64, digit: u64) -> u64
    ensures { result ≡ with_digit number digit }
{
    number % 0x800000000000000 * 32 + digit % 32
}

// A number with a digit for each border behind it.
fn with_digits(number: u64, borders: &[u32]) -> u64
    ensures { result ≡ with_digits number borders.now }
{
    borders.iter().fold(
        number,
        |number, border| with_digit(number, u64::from(*border)),
    )
}

// Resolutions in a number, a bit for each. sbr_writer's `joined_flags` has the same in 32 bits: one function over both types would name shifts by a bound.
fn resolutions_number(freq_res: [bool; SbrGrid::MAX_NUM_ENV]) -> u64
    ensures { result ≡ num_of freq_res }
{
    freq_res.iter().fold(0, |v, f| v << 1 | u64::from(*f))
}

// The marked envelope in a number.
fn mark_number(mark: i32) -> u64
    ensures { result ≡ mark_number mark }
{
    let size = u64::from(mark.unsigned_abs());
    if mark < 0 { 2 * size - 1 } else { 2 * size }
}

// Whether a frame begins on an attack and its class in a number of three bits.
fn kind_number(begins_on_attack: bool, class: FrameClass) -> u64
    ensures { result ≡ 4 * bit_n begins_on_attack + class_code class }
{
    4 * u64::from(begins_on_attack) + u64::from(u32::from(class))
}

// Reads where a run starts: a border, the flag beside it where the input has one, and a position.
pub fn next_place(rt: &impl Input, has_flag: bool) -> Place {
    let border = case_io::next_signed(rt);
    let attack = has_flag && case_io::next_flag(rt);
    let position = case_io::next_size(rt);
    Place {
        carried: Carried { border, attack },
        position,
    }
}

// A position, a carried border and the flag beside it.
pub fn print_place(rt: &impl Print, place: Place) {
    let Carried { border, attack } = place.carried;
    let attack = u8::from(attack);
    let _ = print!(rt; " at {} border {border} attack {attack}", place.position);
}
