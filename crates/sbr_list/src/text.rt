// One line of a listing.
ghost use Rattle.std.specs.Prelude.{◌≡◌, [], ◌∷◌, ◌≤◌, ◌<◌, length, map};
ghost use Rattle.std.specs.Int.Signed.{mag};
ghost use Rattle.sbr_list.specs.Listing.{spaced, behind, class_name, resolution, frame_line, refusal_line};
ghost use Rattle.sbr_list.specs.Line.{with_text, Small, ShortTimes, Short, times_text, times_of, shown_of};

use arrayvec::ArrayVec;
use itoa::{Buffer, Integer};
use sbr_grid::{FrameClass, Refusal, SbrGrid, TimeGrid};

// A text of at most SIZE bytes. It is no `fmt::Write`: no contract says that a `write!` to what never fails is `Ok`.
#[derive(Drop)]
pub struct Line {
    bytes: ArrayVec<u8, SIZE>,
    ghost few: { length bytes.items ≤ 64 },
}

// Most bytes of a line.
const SIZE: usize = 64;

impl Line {
    // The line of no text.
    fn new() -> Self
        ensures { result.bytes.items ≡ [] }
    {
        Line {
            bytes: ArrayVec::new(),
        }
    }

    pub fn as_bytes(&self) -> &[u8]
        ensures text { result.now ≡ self.now.bytes.items }
        ensures few { length result.now ≤ 64 }
    {
        self.bytes.as_slice()
    }

    // A text behind that of the line, as far as there is room.
    fn text(mut self, text: &[u8]) -> Self
        ensures { result.bytes.items ≡ with_text self.bytes.items text.now }
    {
        let room = self.bytes.remaining_capacity().min(text.len());
        let _ = self.bytes.try_extend_from_slice(&text[..room]);
        self
    }

    // A number in base ten behind the text.
    fn number<I: Integer>(self, n: I) -> Self
        ensures { result.bytes.items ≡ with_text self.bytes.items (I.text n) }
    {
        self.text(Buffer::new().format(n).as_bytes())
    }

    // Numbers with a blank before each, behind the text.
    #[tactic(auto, using(crate::proofs::Lines::behind_next, crate::proofs::Lines::behind_done, crate::proofs::Lines::decimal_is))]
    fn others(self, numbers: &[u32]) -> Self
        requires { Small numbers.now }
        ensures { result.bytes.items ≡ with_text self.bytes.items (behind numbers.now) }
    {
        let mut line = self;
        for number in numbers {
            line = line.text(b" ").number(*number);
        }
        line
    }

    // Numbers with a blank between, behind the text.
    fn numbers(self, numbers: &[u32]) -> Self
        requires { Small numbers.now }
        ensures { result.bytes.items ≡ with_text self.bytes.items (spaced numbers.now) }
    {
        match numbers {
            [] => self,
            [first, others @ ..] => self.number(*first).others(others),
        }
    }

    // The borders, noise borders and mark of a time grid behind the text.
    fn times(self, time: &TimeGrid) -> Self
        requires { ShortTimes (times_of time.now) }
        ensures { result.bytes.items ≡ with_text self.bytes.items (times_text (times_of time.now)) }
    {
        self.numbers(time.borders())
            .text(b" / ")
            .numbers(time.noise_borders())
            .text(b" / ")
            .number(time.l_a)
    }

    // The end of the line behind the text.
    fn end(self) -> Self
        ensures { result.bytes.items ≡ with_text self.bytes.items (10 ∷ []) }
    {
        self.text(b"\n")
    }

    // A letter for each resolution behind the text.
    #[tactic(auto, using(crate::proofs::Lines::letter_next, crate::proofs::Lines::letters_done))]
    fn letters(self, high: &[bool]) -> Self
        ensures { result.bytes.items ≡ with_text self.bytes.items (map resolution high.now) }
    {
        let mut line = self;
        for high in high {
            line = line.text(letter(*high));
        }
        line
    }
}

// The name of a class. `FrameClass`'s `Display` writes it to a `fmt::Write` alone, which a line is not.
fn name(class: FrameClass) -> &'static [u8; 6]
    ensures { result.now ≡ class_name class }
{
    match class {
        FrameClass::FixFix => b"FixFix",
        FrameClass::FixVar => b"FixVar",
        FrameClass::VarFix => b"VarFix",
        FrameClass::VarVar => b"VarVar",
    }
}

// H for high resolution, L for low.
fn letter(high: bool) -> &'static [u8; 1]
    ensures { result.now ≡ resolution high ∷ [] }
{
    if high { b"H" } else { b"L" }
}

// The line of frame number i: its class, borders, noise borders, mark and resolutions.
pub fn frame_line(i: usize, grid: &SbrGrid, time: &TimeGrid) -> Line
    requires { Short i (shown_of grid.now time.now) }
    ensures { result.bytes.items ≡ frame_line i (shown_of grid.now time.now) }
{
    Line::new()
        .number(i)
        .text(b" ")
        .text(name(grid.frame_class))
        .text(b" ")
        .times(time)
        .text(b" / ")
        .letters(grid.resolutions())
        .end()
}

// The line of a frame that is refused.
pub fn refusal_line(i: usize, why: Refusal) -> Line
    requires { i < 1000 }
    ensures { result.bytes.items ≡ refusal_line i why }
{
    Line::new()
        .number(i)
        .text(b" refused ")
        .number(u32::from(why))
        .end()
}
