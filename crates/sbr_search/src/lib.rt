// The border search, the cheapest VarVar grid with a border for each onset: src/sbr_encoder.rs.
#![tactic(auto)]

mod attacks;
mod cheapest;

ghost use Rattle.std.specs.Prelude.{◌≡◌, ℕ, map, length, ◌+◌, ◌≤◌};
ghost use Rattle.std.specs.Option.{option_map};
ghost use Rattle.sbr_grid.specs.Grid.{first, record_of};
ghost use Rattle.sbr_build.specs.Cases.{onset_list};
ghost use Rattle.sbr_build.specs.Slots.{slot_list};
ghost use Rattle.sbr_borders.specs.Borders.{onset_at};
ghost use Rattle.sbr_borders.specs.Wanted.{wanted_list};
ghost use Rattle.sbr_search.specs.Search.{beats, try_ends, try_shifts, search, bare, isolated, plan_grid, planned, plain_wins, multi_onset_grid};
ghost use Rattle.sbr_search.specs.Cheapest.{best_of};

pub use attacks::Attacks;
pub use cheapest::Cheapest;
use sbr_borders::{Wanted, WantedBorder};
use sbr_build::{Frame, Slots};
use sbr_grid::SbrGrid;

// Two shifts for each of three onsets, three for the isolating border.
const MAX_SHIFTS: u32 = 24;

// The cost that the isolating border is worth.
const ISOLATION_WORTH: u32 = 2;

// Whether a plan of this cost is cheaper than the best so far.
fn is_cheaper(total: u32, best: Option<Cheapest>) -> bool
    ensures { (k : ℕ) → result ≡ beats total (option_map (best_of k) best) }
{
    best.is_none_or(|plan| total < plan.total)
}

// The best so far, or the plan of these shifts that ends at `over` slots past the frame, where that is cheaper.
fn try_end(
    over: u8,
    frame: Frame,
    shifts: &[u32; Wanted::MAX_WANTED],
    borders: &Slots<u32>,
    cost: u32,
    best: Option<Cheapest>,
) -> Option<Cheapest>
    requires { (over ≤ 3) × (cost ≤ 8) }
    ensures { (k : ℕ) → option_map (best_of k) result ≡ try_ends 1 over frame.nts frame.lead (first 0 k shifts.now) (slot_list borders.now) cost (option_map (best_of k) best) }
{
    let lead = u32::from(frame.lead);
    let t = u32::from(frame.nts + over);
    let total = cost + u32::from(over);
    if t <= sbr_borders::last_border(lead, borders.as_slice()) || !is_cheaper(total, best) {
        return best;
    }
    // Tried: `map` and `or`; of a closure it isn't known that `over` is at most 3.
    match sbr_borders::fitting(lead, t, borders) {
        Some(leading) => Some(Cheapest {
            shifts: *shifts,
            over,
            leading,
            total,
        }),
        None => best,
    }
}

// The best so far, or the plan of these shifts where that is cheaper, the earliest end first. Shifts that cost as much as the best are passed over.
fn try_shifts(
    w: &Wanted,
    shifts: &[u32; Wanted::MAX_WANTED],
    frame: Frame,
    best: Option<Cheapest>,
) -> Option<Cheapest>
    ensures { option_map (best_of w.now.count) result ≡ try_shifts frame.nts frame.lead (wanted_list w.now) (first 0 w.now.count shifts.now) (option_map (best_of w.now.count) best) }
{
    let cost = sbr_borders::cost_of(w.borders(), sbr_grid::front(shifts, w.count));
    if !is_cheaper(cost, best) {
        return best;
    }
    let borders = w.borders_of(shifts);
    if !sbr_borders::rises_from(u32::from(frame.lead), borders.as_slice()) {
        return best;
    }
    let mut now = best;
    // Ends are numbers, the earliest first; a fold would hand the best so far on by a closure with the same call.
    for over in 0..=SbrGrid::MAX_VAR_BORD {
        now = try_end(over, frame, shifts, &borders, cost, now);
    }
    now
}

// The cheapest plan for the wanted borders.
fn varvar_from_borders(w: &Wanted, frame: Frame) -> Option<Cheapest>
    ensures { option_map (best_of w.now.count) result ≡ search frame.nts frame.lead (wanted_list w.now) }
{
    let mut shifts = [0u32; Wanted::MAX_WANTED];
    let mut best = None;
    // The count bounds the loop alone: the last shifts have no next.
    for _tried in 0..MAX_SHIFTS {
        best = try_shifts(w, &shifts, frame, best);
        match sbr_borders::next_shifts(w.borders(), &shifts) {
            Some(next) => shifts = next,
            None => return best,
        }
    }
    best
}

// The grid of a plan; the first onset's envelope is marked.
fn plan_grid(w: &Wanted, plan: Cheapest, frame: Frame) -> SbrGrid
    ensures { result ≡ record_of (plan_grid frame.nts frame.lead (wanted_list w.now) (best_of w.now.count plan).plan) }
{
    let placed = w.borders_of(&plan.shifts);
    let borders = placed.as_slice();
    let (leading, trailing) = borders.split_at(plan.leading.min(borders.len()));
    let rel_0 = sbr_borders::leading_lengths(u32::from(frame.lead), leading).bytes();
    let rel_1 = sbr_borders::trailing_lengths(u32::from(frame.nts + plan.over), trailing).bytes();
    sbr_build::varvar_grid(frame.lead, plan.over, rel_0.as_slice(), rel_1.as_slice(), 1)
}

// The grid of a plan, where there is one.
fn planned_grid(w: &Wanted, plan: Option<Cheapest>, frame: Frame) -> Option<SbrGrid>
    ensures { result ≡ option_map record_of (planned frame.nts frame.lead (wanted_list w.now) (option_map (best_of w.now.count) plan)) }
{
    Some(plan_grid(w, plan?, frame))
}

// The border wanted for an onset.
fn onset_at(slot: u32) -> WantedBorder
    ensures { result ≡ onset_at slot }
{
    WantedBorder { slot, onset: true }
}

// The borders wanted for up to four onsets; those behind them stand in slot 0.
fn onset_borders(onsets: &[u32]) -> [WantedBorder; Wanted::MAX_WANTED]
    ensures { result ≡ map onset_at (first 0 4 onsets.now) }
{
    sbr_grid::padded::<u32, { Wanted::MAX_WANTED }>(onsets, 0).map(onset_at)
}

// The onsets as wanted borders.
fn bare_borders(attacks: Attacks) -> Wanted
    ensures { wanted_list result ≡ bare (onset_list attacks.onsets) }
{
    let onsets = attacks.onsets;
    Wanted {
        count: onsets.count,
        border: onset_borders(onsets.slots()),
    }
}

// The same with the isolating border, 2 slots after the first onset.
fn isolated_borders(attacks: Attacks) -> Wanted
    ensures { wanted_list result ≡ isolated (onset_list attacks.onsets) }
{
    let onsets = attacks.onsets;
    let slot = onsets.slot;
    Wanted {
        count: onsets.count + 1,
        border: [
            onset_at(slot[0]),
            WantedBorder {
                slot: slot[0] + 2,
                onset: false,
            },
            onset_at(slot[1]),
            onset_at(slot[2]),
        ],
    }
}

// Whether the plain plan wins: by more than the isolating border is worth, or alone.
fn plain_wins(isolated: Option<Cheapest>, plain: Option<Cheapest>) -> bool
    ensures { (j k : ℕ) → result ≡ plain_wins (option_map (best_of j) isolated) (option_map (best_of k) plain) }
{
    match (isolated, plain) {
        (_, None) => false,
        (None, Some(_)) => true,
        (Some(i), Some(p)) => p.total < i.total.saturating_sub(ISOLATION_WORTH),
    }
}

// A grid with an envelope on each onset, the first one isolated where that is worth it. A plan that costs no more than the isolating border
// is worth wins whatever the plain one costs.
pub fn multi_onset_grid(attacks: Attacks) -> Option<SbrGrid>
    ensures { result ≡ option_map record_of (multi_onset_grid (onset_list attacks.onsets) attacks.frame.lead attacks.frame.nts) }
{
    let frame = attacks.frame;
    let with_isolating = isolated_borders(attacks);
    let isolated = varvar_from_borders(&with_isolating, frame);
    if is_cheaper(ISOLATION_WORTH, isolated) {
        let without = bare_borders(attacks);
        let plain = varvar_from_borders(&without, frame);
        if plain_wins(isolated, plain) {
            return planned_grid(&without, plain, frame);
        }
    }
    planned_grid(&with_isolating, isolated, frame)
}
