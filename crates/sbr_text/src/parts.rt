// A line of text while it is read, byte by byte.
ghost use Rattle.std.specs.Prelude.{◌≡◌};
ghost use Rattle.sbr_text.specs.Parts.{grown, is_open, signed_of, no_parts, with_digit, with_minus, may_name, with_letter, with_flag, with_number, closed, part_after, takes_numbers, stroked, read_byte, slots_of, kind_of};
ghost use Rattle.sbr_text.specs.Code.{parts_of};
ghost use Rattle.sbr_text.specs.Items.{item_list};

use crate::{Items, Kind, TextLine};

// The parts of a line, by what a number is there; in the last one letters of resolutions follow.
#[derive(Clone, Copy, Debug, PartialEq, Eq)]
pub enum Part {
    Borders,
    Noise,
    Mark,
    Flags,
}

impl Part {
    // Whether numbers stand there.
    fn takes_numbers(self) -> bool
        ensures { result ≡ takes_numbers self }
    {
        !matches!(self, Part::Flags)
    }

    // The part behind a stroke: noise borders stand only in a line that names a class.
    fn next(self, class: bool) -> Part
        ensures { result ≡ part_after class self }
    {
        match self {
            Part::Borders if class => Part::Noise,
            Part::Borders | Part::Noise => Part::Mark,
            Part::Mark | Part::Flags => Part::Flags,
        }
    }
}

// A number that is being read: its sign, whether it has a digit yet, its value so far; with none yet it is 0, which a digit is put behind.
#[derive(Clone, Copy, Default)]
pub struct Number {
    pub minus: bool,
    pub digits: bool,
    pub value: u16,
}

impl Number {
    // Numbers from this one on are this one.
    const MAX: u16 = 1000;

    // A digit behind the others.
    fn grow(&mut self, digit: u8)
        ensures { self.new ≡ grown self.old digit }
    {
        let value = self
            .value
            .saturating_mul(10)
            .saturating_add(u16::from(digit));
        self.digits = true;
        self.value = value.min(Number::MAX);
    }

    // Whether it is being read.
    fn is_open(&self) -> bool
        ensures { result ≡ is_open self.now }
    {
        self.minus || self.digits
    }

    fn signed(&self) -> i32
        ensures { result ≡ signed_of self.now }
    {
        let value = i32::from(self.value);
        if self.minus { -value } else { value }
    }
}

// What stands in a line so far.
#[derive(Clone, Copy)]
pub struct Parts {
    // Nothing was found that no line has. A flag beside the others, since contracts tell the parts of a line that is refused too.
    good: bool,
    // A class was named.
    class: bool,
    part: Part,
    number: Number,
    borders: Items<i32, { TextLine::MAX_BORDERS }>,
    // How many marks there are, at most 2, and the last one. A count and no `Option`: that there is one too many shows at the line's end.
    marks: u8,
    mark: i32,
    flags: Items<bool, { TextLine::MAX_FLAGS }>,
}

impl Parts {
    // Those of a line of which nothing has been read.
    pub fn new() -> Self
        ensures { parts_of result ≡ no_parts }
    {
        Parts {
            good: true,
            class: false,
            part: Part::Borders,
            number: Number::default(),
            borders: Items::new(),
            marks: 0,
            mark: 0,
            flags: Items::new(),
        }
    }

    // A digit behind what stands there.
    fn digit(&mut self, digit: u8)
        ensures { parts_of self.new ≡ with_digit (parts_of self.old) digit }
    {
        self.good = self.good && self.part.takes_numbers();
        self.number.grow(digit);
    }

    // A minus sign behind what stands there.
    fn minus_sign(&mut self)
        ensures { parts_of self.new ≡ with_minus (parts_of self.old) }
    {
        self.good = self.good && self.part.takes_numbers() && !self.number.is_open();
        self.number.minus = true;
    }

    // Whether a letter of a class may stand here: before the first stands the frame's number, before the others none.
    fn may_name(&self) -> bool
        ensures { result ≡ may_name (parts_of self.now) }
    {
        self.part == Part::Borders
            && !self.number.is_open()
            && self.borders.len() == usize::from(!self.class)
    }

    // A letter of a class behind what stands there.
    fn class_letter(&mut self)
        ensures { parts_of self.new ≡ with_letter (parts_of self.old) }
    {
        self.good = self.good && self.may_name();
        self.class = true;
        self.borders.clear();
    }

    // A resolution behind what stands there.
    fn flag(&mut self, high: bool)
        ensures { parts_of self.new ≡ with_flag (parts_of self.old) high }
    {
        self.good = self.good && self.part == Part::Flags;
        self.flags.push(high);
    }

    // A number at its place.
    fn number(&mut self, z: i32)
        ensures { parts_of self.new ≡ with_number (parts_of self.old) z }
    {
        self.number = Number::default();
        match self.part {
            Part::Borders => self.borders.push(z),
            Part::Mark => {
                self.marks = self.marks.saturating_add(1).min(2);
                self.mark = z;
            }
            Part::Noise | Part::Flags => {}
        }
    }

    // The end of a number, where one is being read; a minus sign alone is none.
    pub fn close(&mut self)
        ensures { parts_of self.new ≡ closed (parts_of self.old) }
    {
        if self.number.digits {
            let z = self.number.signed();
            self.number(z);
        } else {
            self.good = self.good && !self.number.minus;
            self.number = Number::default();
        }
    }

    // A stroke behind what stands there: none follows the resolutions, and one mark stands before the last.
    fn stroke(&mut self)
        ensures { parts_of self.new ≡ stroked (parts_of self.old) }
    {
        let marked = self.part != Part::Mark || self.marks == 1;
        self.good = self.good && self.part.takes_numbers() && marked;
        self.part = self.part.next(self.class);
    }

    // A byte behind what stands there.
    #[tactic(auto, unfolding(crate::specs::Parts::read_byte))]
    pub fn byte(&mut self, b: u8)
        ensures { parts_of self.new ≡ read_byte (parts_of self.old) b }
    {
        match b {
            b'0'..=b'9' => self.digit(b - b'0'),
            b' ' | b'\t' | b'\r' => self.close(),
            b'/' => {
                self.close();
                self.stroke();
            }
            b'-' => self.minus_sign(),
            b'H' => self.flag(true),
            b'L' => self.flag(false),
            b'F' | b'i' | b'x' | b'V' | b'a' | b'r' => self.class_letter(),
            _ => self.good = false,
        }
    }

    // What the line is. A slot count below 0 is none, as 0 is.
    #[tactic(auto, unfolding(crate::specs::Parts::kind_of))]
    fn kind(&self) -> Kind
        ensures { result ≡ kind_of (parts_of self.now) }
    {
        match self.part {
            _ if !self.good => Kind::Unreadable,
            Part::Flags => Kind::Frame,
            Part::Borders if !self.class => match self.borders.as_slice() {
                [] => Kind::Blank,
                [slots] => Kind::Slots(usize::try_from(*slots).unwrap_or(0)),
                _ => Kind::Unreadable,
            },
            _ => Kind::Unreadable,
        }
    }

    // What the line says.
    pub fn text_line(&self) -> TextLine
        ensures kind { result.kind ≡ kind_of (parts_of self.now) }
        ensures borders { item_list result.borders ≡ (parts_of self.now).borders }
        ensures mark { result.mark ≡ (parts_of self.now).mark }
        ensures flags { item_list result.flags ≡ (parts_of self.now).flags }
    {
        TextLine {
            kind: self.kind(),
            borders: self.borders,
            mark: self.mark,
            flags: self.flags,
        }
    }
}
