// The listing of a stream of grids: what the program `gridlist` prints.
#![tactic(auto)]

ghost use Rattle.std.specs.Prelude.{◌≡◌, ◌+◌, ◌≤◌, length};
ghost use Rattle.std.proofs.lemmas.List.Edits.{sets};
ghost use Rattle.sbr_list.specs.Listing.{lines_from, listing, over};

use sbr_grid::Refusal;
use sbr_reader::Carried;

mod text;

// The bytes of a page, where a listing is put: room for 255 lines of at most 64 bytes and one more.
pub const PAGE_SIZE: usize = 16384;

// The most bytes of input that 255 frames need: three, and 26 bits a frame.
pub const MOST_INPUT: usize = 832;

// A text at a place of the page; the answer is the place behind it. The page is lent whole, so the place goes from text to text by itself.
#[tactic(auto, using(crate::proofs::Pages::put_text))]
fn put(page: &mut [u8], at: usize, text: &[u8]) -> usize
    requires { at + length text.now ≤ length page.old }
    ensures next { result ≡ at + length text.now }
    ensures text { page.new ≡ sets page.old at text.now }
{
    let end = at + text.len();
    page[at..end].copy_from_slice(text);
    end
}

// The lines of frames over the front of the page; the answer is their length.
fn frames(bits: &[u8], slots: usize, count: usize, carried: Carried, page: &mut [u8]) -> usize
    requires few { count ≤ 255 }
    requires room { 16384 ≤ length page.old }
    ensures long { result ≡ length (lines_from bits.now slots count 0 0 carried) }
    ensures text { page.new ≡ over (lines_from bits.now slots count 0 0 carried) page.old }
{
    let mut at = 0;
    let mut position = 0;
    let mut carried = carried;
    // A frame's number stands in its line, and nothing but the count says how many frames there are.
    for i in 0..count {
        match sbr_reader::read_grid(bits, position, slots, carried) {
            Ok(read) => {
                let line = text::frame_line(i, &read.grid, &read.time);
                at = put(page, at, line.as_bytes());
                position = read.position;
                carried = read.carried;
            }
            Err(why) => return put(page, at, text::refusal_line(i, why).as_bytes()),
        }
    }
    at
}

// The listing of an input over the front of the page; the answer is its length.
pub fn list_grids(input: &[u8], page: &mut [u8; PAGE_SIZE]) -> usize
    ensures long { result ≡ length (listing input.now) }
    ensures text { page.new ≡ over (listing input.now) page.old }
{
    if input.len() < 3 {
        return put(page, 0, text::refusal_line(0, Refusal::BitsEnd).as_bytes());
    }
    frames(
        &input[3..],
        usize::from(input[0]),
        usize::from(input[2]),
        Carried::start(i32::from(input[1])),
        page,
    )
}
