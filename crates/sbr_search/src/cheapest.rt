// The cheapest plan so far.

ghost use Rattle.std.specs.Prelude.{◌≤◌};

use sbr_borders::Wanted;

// The shifts, the count of leading lengths, the cost, and the slots that the end lies past the frame. The byte stands last: the search copies a plan for
// each end that it tries, and unused places between the byte and a `usize` would be copied too, by moves that overlap and wait for each other.
#[derive(Clone, Copy)]
pub struct Cheapest {
    pub shifts: [u32; Wanted::MAX_WANTED],
    pub leading: usize,
    pub total: u32,
    pub over: u8,
    pub ghost near: { over ≤ 3 },
}
