// A line of text that names a frame, read.
#![tactic(auto)]

ghost use Rattle.std.specs.Prelude.{◌≡◌};
ghost use Rattle.sbr_text.specs.Items.{item_list};
ghost use Rattle.sbr_text.specs.Parts.{read_line, kind_of};

use parts::Parts;
use sbr_grid::{SbrGrid, TimeGrid};

mod items;
mod parts;

pub use items::Items;

// What a line is.
#[derive(Clone, Copy, Debug, PartialEq, Eq)]
pub enum Kind {
    // It has nothing but blanks.
    Blank,
    // A slot count.
    Slots(usize),
    // It names a frame.
    Frame,
    Unreadable,
}

// What a line says: its kind, and of a frame its borders, its mark and its resolutions. They stand beside the kind and not in it, since contracts tell
// them of every line.
#[derive(Clone, Copy)]
pub struct TextLine {
    pub kind: Kind,
    pub borders: Items<i32, { TextLine::MAX_BORDERS }>,
    pub mark: i32,
    pub flags: Items<bool, { TextLine::MAX_FLAGS }>,
}

impl TextLine {
    // More borders than any grid has, and more resolutions.
    pub const MAX_BORDERS: usize = TimeGrid::MAX_BORDERS + 1;

    pub const MAX_FLAGS: usize = SbrGrid::MAX_NUM_ENV + 1;
}

// What a line says.
#[tactic(auto, using(crate::proofs::Bytes::bytes_next, crate::proofs::Bytes::bytes_done), unfolding(crate::specs::Parts::read_line))]
pub fn read_line(line: &[u8]) -> TextLine
    ensures kind { result.kind ≡ kind_of (read_line line.now) }
    ensures borders { item_list result.borders ≡ (read_line line.now).borders }
    ensures mark { result.mark ≡ (read_line line.now).mark }
    ensures flags { item_list result.flags ≡ (read_line line.now).flags }
{
    let mut parts = Parts::new();
    for byte in line {
        parts.byte(*byte);
    }
    parts.close();
    parts.text_line()
}
