// Reads a stream of grids from standard input and prints its listing.
#![tactic(auto)]

ghost use Rattle.std.specs.Prelude.{◌≡◌, ◌≤◌, min, length};
ghost use Rattle.sbr_list.specs.Listing.{listing};
ghost use Rattle.sbr_list.specs.Enough.{most_input, settled};

use sbr_list::{MOST_INPUT, PAGE_SIZE};

// How many bytes are asked for: never more than a listing needs.
fn asked(most: usize) -> usize
    ensures { result ≡ min most most_input }
{
    most.min(MOST_INPUT)
}

// The listing of an input, in the front of a page.
fn listing<'a>(input: &[u8], page: &'a mut [u8; PAGE_SIZE]) -> &'a [u8]
    ensures { result.now ≡ listing input.now }
{
    let len = sbr_list::list_grids(input, page);
    &page[..len]
}

// Whether a text is empty or its last line ends in the letter of a resolution.
#[tactic(auto, unfolding(sbr_list::specs::Enough::settled))]
fn is_settled(text: &[u8]) -> bool
    ensures { result ≡ settled text.now }
{
    match text {
        [.., letter, _] => matches!(*letter, b'H' | b'L'),
        _ => true,
    }
}

// Whether every frame of an input is there: more input changes no listing of it then (SettledInput).
fn is_whole(input: &[u8]) -> bool
    ensures { result ≡ settled (listing input.now) }
{
    is_settled(listing(input, &mut [0u8; PAGE_SIZE]))
}

// Reads standard input, at most `most` bytes, and prints the listing of what was read, nothing else; answers how many bytes that are. What can't be
// written is passed over. No contract can say what is read or printed.
pub fn list_input(rt: &(impl Input + Print), most: usize) -> usize
    ensures { result ≤ min most most_input }
{
    let mut input = [0u8; MOST_INPUT];
    let input = case_io::read_until(rt, &mut input[..asked(most)], is_whole);
    let _ = rt.write_all(listing(input, &mut [0u8; PAGE_SIZE]));
    input.len()
}
