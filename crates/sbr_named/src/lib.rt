// A grid for borders that are named: the record that sends them, if there is one.
#![tactic(auto)]

ghost use Rattle.std.specs.Prelude.{◌≡◌, map, nat_abs};
ghost use Rattle.std.specs.List.{list_all};
ghost use Rattle.sbr_grid.specs.Refusals.{result_map};
ghost use Rattle.sbr_grid.specs.Grid.{first, record_of};
ghost use Rattle.sbr_named.specs.Shapes.{named_grid};
ghost use Rattle.sbr_named.specs.Code.{is_border, is_mark, can_be_named};

use frame::NamedFrame;
use sbr_grid::{Refusal, SbrGrid, TimeGrid};

mod frame;
mod shape;

// The last border that a frame can have: 3 past 16 slots.
const MAX_BORDER: i32 = 19;

// The largest mark: the most envelopes, where an attack is marked at the very end.
const MAX_MARK: i32 = SbrGrid::MAX_NUM_ENV as i32;

// Whether a frame can have each of these borders.
fn are_borders(borders: &[i32]) -> bool
    ensures { result ≡ list_all is_border borders.now }
{
    borders.iter().all(|b| 0 <= *b && *b <= MAX_BORDER)
}

// Whether a frame can have this mark.
fn is_mark(l_a: i32) -> bool
    ensures { result ≡ is_mark l_a }
{
    -1 <= l_a && l_a <= MAX_MARK
}

// Whether a frame can have what is named.
fn can_be_named(borders: &[i32], freq_res: &[bool], l_a: i32) -> bool
    ensures { result ≡ can_be_named borders.now freq_res.now l_a }
{
    1 <= freq_res.len()
        && freq_res.len() <= SbrGrid::MAX_NUM_ENV
        && borders.len() == freq_res.len() + 1
        && are_borders(borders)
        && is_mark(l_a)
}

// The borders in the places of a time grid, without their signs; those behind the last one are 0.
fn border_places(borders: &[i32]) -> [u32; TimeGrid::MAX_BORDERS]
    ensures { result ≡ first 0 6 (map nat_abs borders.now) }
{
    sbr_grid::padded::<i32, { TimeGrid::MAX_BORDERS }>(borders, 0).map(i32::unsigned_abs)
}

// The record whose time grid has these borders and this mark, with these resolutions, as the reader gives it for its bits: of several the one with the
// fewest written bits, then the smaller class code, fewer leading lengths, the smaller pointer. Refused where the slot count is neither 15 nor 16, then
// where no writable record has them.
pub fn grid_for_borders(
    num_time_slots: usize,
    borders: &[i32],
    freq_res: &[bool],
    l_a: i32,
) -> Result<SbrGrid, Refusal>
    ensures { result ≡ result_map record_of (named_grid num_time_slots borders.now freq_res.now l_a) }
{
    if !sbr_grid::is_slot_count(num_time_slots) {
        return Err(Refusal::SlotCount);
    }
    if !can_be_named(borders, freq_res, l_a) {
        return Err(Refusal::NoGrid);
    }
    let places = border_places(borders);
    let frame = NamedFrame {
        num_slots: num_time_slots,
        borders: &places[..borders.len()],
        freq_res,
        l_a,
    };
    frame.first_record().ok_or(Refusal::NoGrid)
}
