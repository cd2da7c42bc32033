// A stream made of lines of text: what the program `gridmake` writes.
#![tactic(auto)]

ghost use Rattle.std.specs.Prelude.{◌≡◌, true, leb, pos, length, ◌≤◌};
ghost use Rattle.std.specs.Result.{result_map_both};
ghost use Rattle.sbr_grid.specs.Refusals.{result_map, value_or, unless};
ghost use Rattle.sbr_grid.specs.declared.Refusal.TheVariants.{Room};
ghost use Rattle.sbr_grid.specs.Grid.{view_of};
ghost use Rattle.sbr_writer.specs.Write.{writable};
ghost use Rattle.sbr_text.specs.Parts.{read_line};
ghost use Rattle.sbr_make.specs.Making.{no_frames, most_text, set_slots, add_frame, name_frame, add_line, stream_of, text_stream, bytes_made};

use sbr_grid::{Refusal, SbrGrid};
use sbr_text::Kind;
use std::marker::Model;

// The bytes before a stream's bits: slot count, previous border, frame count.
const HEAD: usize = 3;

// The most bytes of a stream: those three, and 26 bits for each of 255 frames.
pub const STREAM_SIZE: usize = 832;

// The most bytes of the frames' bits.
const MAX_BYTES: usize = STREAM_SIZE - HEAD;

// The most frames, which a byte counts.
const MAX_FRAMES: usize = 255;

// The longest text that is taken.
pub const MAX_TEXT: usize = 65535;

// The slot count where no line says otherwise.
const SLOTS: usize = 16;

// The line that is refused, counted from 1, and why.
#[derive(Clone, Copy, Debug, PartialEq, Eq)]
pub struct LineRefused {
    pub line: usize,
    pub why: Refusal,
}

// The frames that the lines so far have made. Their bytes are an array and a position in it: the stream has a fixed size, and `put_bits` puts at a position.
#[derive(Drop)]
struct Frames {
    num_time_slots: usize,
    count: usize,
    // Where the first frame begins, and where the next one has to.
    begin: u32,
    next: u32,
    // Their bits, the position after the last one, and zeros behind it.
    bytes: [u8; MAX_BYTES],
    position: usize,
}

// Clauses see what the lines have made; there is room for the bits of a further frame.
impl Model for Frames {
    ghost use Rattle.sbr_make.specs.Making.{Making};

    ghost Value = { Making };

    ghost use Rattle.sbr_make.specs.Code.{making_of, HasRoom};

    ghost view = { making_of };

    ghost invariant = { HasRoom };
}

// Each method but `new` adds to the frames so far; where it refuses, they stay as they were.
impl Frames {
    // Before the first line.
    #[tactic(auto, using(crate::proofs::Rooms::none_room))]
    fn new() -> Self
        ensures { result ≡ no_frames }
    {
        Frames {
            num_time_slots: SLOTS,
            count: 0,
            begin: 0,
            next: 0,
            bytes: [0; MAX_BYTES],
            position: 0,
        }
    }

    // A line says the slot count.
    fn set_slots(&mut self, num_time_slots: usize) -> Result<(), Refusal>
        ensures answer { result ≡ result_map (λ m. tt) (set_slots self.old num_time_slots) }
        ensures frames { self.new ≡ value_or (λ m. m) self.old (set_slots self.old num_time_slots) }
    {
        if self.count != 0 {
            return Err(Refusal::Record);
        }
        if !sbr_grid::is_slot_count(num_time_slots) {
            return Err(Refusal::SlotCount);
        }
        self.num_time_slots = num_time_slots;
        Ok(())
    }

    // A frame is added that has that first and that last border; its record is written behind the others.
    fn add_frame(&mut self, first: u32, last: u32, grid: SbrGrid) -> Result<(), Refusal>
        requires fits { writable (view_of grid) ≡ true }
        requires low { first ≤ 19 }
        requires near { last ≤ 19 }
        ensures answer { result ≡ result_map (λ m. tt) (add_frame self.old (pos first) (pos last) (view_of grid)) }
        ensures frames { self.new ≡ value_or (λ m. m) self.old (add_frame self.old (pos first) (pos last) (view_of grid)) }
    {
        if self.count != 0 && first != self.next {
            return Err(Refusal::Chain);
        }
        if MAX_FRAMES <= self.count {
            return Err(Refusal::Room);
        }
        let position = self.position;
        // Never refused: the record is writable, and 255 frames have room.
        self.position = sbr_writer::write_grid(&mut self.bytes, position, grid)?;
        if self.count == 0 {
            self.begin = first;
        }
        self.count += 1;
        self.next = last.saturating_sub(self.num_time_slots as u32);
        Ok(())
    }

    // A line names a frame.
    fn name_frame(&mut self, borders: &[i32], flags: &[bool], mark: i32) -> Result<(), Refusal>
        ensures answer { result ≡ result_map (λ m. tt) (name_frame self.old borders.now flags.now mark) }
        ensures frames { self.new ≡ value_or (λ m. m) self.old (name_frame self.old borders.now flags.now mark) }
    {
        let grid = sbr_named::grid_for_borders(self.num_time_slots, borders, flags, mark)?;
        let first = borders[0].unsigned_abs();
        let last = borders[borders.len() - 1].unsigned_abs();
        self.add_frame(first, last, grid)
    }

    // A line ends at that place of the text. One that ends past the longest text may have been cut.
    fn add_line(&mut self, line: &[u8], end: usize) -> Result<(), Refusal>
        ensures answer { result ≡ result_map (λ m. tt) (unless (leb end most_text) Room (add_line self.old (read_line line.now))) }
        ensures frames { self.new ≡ value_or (λ m. m) self.old (unless (leb end most_text) Room (add_line self.old (read_line line.now))) }
    {
        if MAX_TEXT < end {
            return Err(Refusal::Room);
        }
        let read = sbr_text::read_line(line);
        match read.kind {
            Kind::Blank => Ok(()),
            Kind::Slots(n) => self.set_slots(n),
            Kind::Frame => {
                self.name_frame(read.borders.as_slice(), read.flags.as_slice(), read.mark)
            }
            Kind::Unreadable => Err(Refusal::Record),
        }
    }
}

// The frames of all lines. One byte past the longest text tells that it was longer: what stands behind it is not read.
fn add_lines(text: &[u8]) -> Result<Frames, LineRefused>
    ensures { result_map_both (λ m. stream_of m) (λ e. e) result ≡ text_stream text.now }
{
    let taken = &text[..text.len().min(MAX_TEXT + 1)];
    let mut frames = Frames::new();
    let mut at = 0usize;
    for (i, line) in taken.split(|b| *b == b'\n').enumerate() {
        let end = at + line.len();
        frames
            .add_line(line, end)
            .map_err(|why| LineRefused { line: i + 1, why })?;
        at = end + 1;
    }
    Ok(frames)
}

// The stream that a text makes, with zeros behind it, and its length; where a line is refused, the bytes lent are as they were.
pub fn make_stream(text: &[u8], stream: &mut [u8; STREAM_SIZE]) -> Result<usize, LineRefused>
    ensures answer { result ≡ result_map_both length (λ e. e) (text_stream text.now) }
    ensures bytes { stream.new ≡ bytes_made stream.old (text_stream text.now) }
{
    let frames = add_lines(text)?;
    stream[0] = frames.num_time_slots as u8;
    stream[1] = (frames.begin + frames.num_time_slots as u32) as u8;
    stream[2] = frames.count as u8;
    stream[HEAD..].copy_from_slice(&frames.bytes);
    Ok(HEAD + frames.position.div_ceil(8))
}
