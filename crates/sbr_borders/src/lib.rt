// Borders that a plan puts in a frame: shifts of the wanted borders, and the even lengths that reach them (src/sbr_encoder.rs).
#![tactic(auto)]

ghost use Rattle.std.specs.Prelude.{◌≡◌, ℕ, reverse, length, drop, zip, sum_by, IfSome, ◌≤◌};
ghost use Rattle.std.specs.Option.{option_map};
ghost use Rattle.sbr_grid.specs.Grid.{first};
ghost use Rattle.std.specs.List.{list_all};
ghost use Rattle.sbr_borders.specs.Borders.{shift_count, place, price, prices, next_shifts, rises_from, last_or, steps_up, steps_down, even_ok, all_even, reaches, fit};
ghost use Rattle.sbr_borders.specs.Frames.{InFrame};
ghost use Rattle.sbr_build.specs.Slots.{slot_list};

use sbr_build::Slots;
use sbr_grid::SbrGrid;

// A wanted border: an onset, which may move one slot earlier, or the isolating border, which may move one slot either way.
#[derive(Clone, Copy)]
pub struct WantedBorder {
    pub slot: u32,
    pub onset: bool,
}

// The wanted borders, the first `count` places.
// An array and its count, and no `Slots`, which is made from a slice or grows number by number: here the four places are set at once, for any count.
// `borders` hands out the slice.
#[derive(Clone, Copy)]
pub struct Wanted {
    pub count: usize,
    pub border: [WantedBorder; Wanted::MAX_WANTED],
    pub ghost in_frame: { InFrame count border },
}

impl Wanted {
    ghost use Rattle.std.specs.Prelude.{◌≡◌, true, leb, length};
    ghost use Rattle.std.specs.List.{list_all};
    ghost use Rattle.sbr_grid.specs.Grid.{first};
    ghost use Rattle.sbr_borders.specs.Borders.{places};
    ghost use Rattle.sbr_borders.specs.Wanted.{wanted_list};

    // Most borders inside a frame.
    pub const MAX_WANTED: usize = SbrGrid::MAX_NUM_ENV - 1;

    // The borders, in order.
    pub fn borders(&self) -> &[WantedBorder]
        ensures { (result.now ≡ wanted_list self.now) × (length result.now ≡ self.now.count) }
    {
        sbr_grid::front(&self.border, self.count)
    }

    // Where the shifts put the borders.
    pub fn borders_of(&self, shifts: &[u32; Wanted::MAX_WANTED]) -> Slots<u32>
        ensures value { slot_list result ≡ places (wanted_list self.now) (first 0 self.now.count shifts.now) }
        ensures count { length (slot_list result) ≡ self.now.count }
        ensures near { list_all (λ b. leb b 33) (slot_list result) ≡ true }
    {
        let mut out = Slots::new();
        for (b, shift) in self.borders().iter().zip(shifts) {
            out.push(placed(*b, *shift));
        }
        out
    }
}

// Two shifts for an onset, three for the isolating border.
fn shift_count(b: WantedBorder) -> u32
    ensures { (result ≡ shift_count b) × (2 ≤ result) × (result ≤ 3) }
{
    if b.onset { 2 } else { 3 }
}

// Where a shift puts a border: 0 leaves it, 1 is one slot earlier, and 2, which only the isolating border has, one slot later. A shift is a number:
// `next_shifts` counts them.
fn placed(b: WantedBorder, shift: u32) -> u32
    requires { (1 ≤ b.slot) × (b.slot ≤ 32) }
    ensures { (result ≡ place b shift) × (result ≤ 33) }
{
    if shift == 0 {
        b.slot
    } else if b.onset || shift == 1 {
        b.slot - 1
    } else {
        b.slot + 1
    }
}

// What a shift costs: 2 for an onset, 1 for the isolating border.
fn priced(b: WantedBorder, shift: u32) -> u32
    ensures { (result ≡ price b shift) × (result ≤ 2) }
{
    if shift == 0 {
        0
    } else if b.onset {
        2
    } else {
        1
    }
}

// The prices of shifts of at most four borders, added. The bound stands in three contracts: a slice has none, and `Wanted` asks for more.
fn total_price(wanted: &[WantedBorder], shifts: &[u32]) -> u32
    requires { length wanted.now ≤ 4 }
    ensures { result ≡ sum_by (λ p. price p.0 p.1) (zip wanted.now shifts.now) }
{
    wanted
        .iter()
        .zip(shifts)
        .map(|(b, shift)| priced(*b, *shift))
        .sum()
}

// What the shifts of at most four borders cost.
pub fn cost_of(wanted: &[WantedBorder], shifts: &[u32]) -> u32
    requires { length wanted.now ≤ 4 }
    ensures { (result ≡ prices wanted.now shifts.now) × (result ≤ 8) }
{
    total_price(wanted, shifts)
}

// The next shifts, the first border's turning fastest. Places past the borders stay.
pub fn next_shifts(
    wanted: &[WantedBorder],
    shifts: &[u32; Wanted::MAX_WANTED],
) -> Option<[u32; Wanted::MAX_WANTED]>
    requires { length wanted.now ≤ 4 }
    ensures value { option_map (first 0 (length wanted.now)) result ≡ next_shifts wanted.now (first 0 (length wanted.now) shifts.now) }
    ensures past { IfSome result (λ next. drop (length wanted.now) next ≡ drop (length wanted.now) shifts.now) }
{
    let mut next = *shifts;
    // By number: what `iter_mut` in a `zip` has written so far can't be named in an invariant.
    for (i, b) in wanted.iter().enumerate() {
        if next[i] < shift_count(*b) - 1 {
            next[i] += 1;
            return Some(next);
        }
        next[i] = 0;
    }
    None
}

// Each border is above the one before it, the first above the lead.
pub fn rises_from(lead: u32, borders: &[u32]) -> bool
    ensures { result ≡ rises_from lead borders.now }
{
    let mut last = lead;
    for b in borders {
        if *b <= last {
            return false;
        }
        last = *b;
    }
    true
}

// A length that can be written down: even, 2 to 8.
fn even_ok(len: u32) -> bool
    ensures { result ≡ even_ok len }
{
    2 <= len && len <= 8 && len % 2 == 0
}

// Every length from the lead up through the borders can be written down. No list is made, and the first length that can't ends it: this is what the search
// does most.
fn leads_to(lead: u32, borders: &[u32]) -> bool
    ensures { result ≡ all_even (steps_up lead borders.now) }
{
    let mut last = lead;
    for b in borders {
        if !even_ok(b.saturating_sub(last)) {
            return false;
        }
        last = *b;
    }
    true
}

// Every length from the end t down through the borders can be written down, the last one first.
fn trails_to(t: u32, borders: &[u32]) -> bool
    ensures { result ≡ all_even (steps_down t (reverse borders.now)) }
{
    let mut last = t;
    for b in borders.iter().rev() {
        if !even_ok(last.saturating_sub(*b)) {
            return false;
        }
        last = *b;
    }
    true
}

// The first k borders are reached by leading lengths and the others by trailing ones.
#[tactic(auto, unfolding(crate::specs::Borders::reaches))]
fn reaches(lead: u32, t: u32, k: usize, borders: &Slots<u32>) -> bool
    ensures { result ≡ reaches lead t k (slot_list borders.now) }
{
    let borders = borders.as_slice();
    let max = SbrGrid::MAX_SIDE_REL;
    if max < k || borders.len() < k || max < borders.len() - k {
        return false;
    }
    let (leading, trailing) = borders.split_at(k);
    leads_to(lead, leading) && trails_to(t, trailing)
}

// The least count of leading lengths with which every border is reached.
pub fn fitting(lead: u32, t: u32, borders: &Slots<u32>) -> Option<usize>
    ensures { result ≡ fit lead t (slot_list borders.now) }
{
    (0..SbrGrid::MAX_SIDE_REL + 1).find(|k| reaches(lead, t, *k, borders))
}

// The last border; the lead where there is none.
pub fn last_border(lead: u32, borders: &[u32]) -> u32
    ensures { result ≡ last_or lead borders.now }
{
    borders.last().copied().unwrap_or(lead)
}

// The lengths from the lead up through the borders.
pub fn leading_lengths(lead: u32, borders: &[u32]) -> Slots<u32>
    requires { length borders.now ≤ 4 }
    ensures { (slot_list result ≡ steps_up lead borders.now) × (length (slot_list result) ≡ length borders.now) }
{
    let mut out = Slots::new();
    let mut last = lead;
    for b in borders {
        out.push(b.saturating_sub(last));
        last = *b;
    }
    out
}

// The lengths from the end t down through the borders: the last one first.
// One function for both sides is no plainer: it takes an iterator of either end and a closure that turns the difference round.
pub fn trailing_lengths(t: u32, borders: &[u32]) -> Slots<u32>
    requires { length borders.now ≤ 4 }
    ensures { (slot_list result ≡ steps_down t (reverse borders.now)) × (length (slot_list result) ≡ length borders.now) }
{
    let mut out = Slots::new();
    let mut last = t;
    for b in borders.iter().rev() {
        out.push(last.saturating_sub(*b));
        last = *b;
    }
    out
}
