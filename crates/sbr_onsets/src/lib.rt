// Onsets of a frame from its slot energies, and its lead: src/sbr_encoder.rs.
#![tactic(auto)]

ghost use Rattle.std.specs.Prelude.{◌≡◌, true, ◌≤◌, ◌<◌, length};
ghost use Rattle.std.specs.List.{fold};
ghost use Rattle.std.specs.Float.Ieee as Ieee;
ghost use Rattle.std.specs.Float.{binary64};
ghost use Rattle.sbr_floats.specs.Floats.{zero64};
ghost use Rattle.sbr_build.specs.Cases.{onsets_record};
ghost use Rattle.sbr_grid.specs.Times.{is_slot_count};
ghost use Rattle.sbr_onsets.specs.Onsets.{energy_at, peak_for, smaller_mean, is_attack, detect_onsets, halves_alike, onsets_for, lead_for};

use sbr_build::Onsets;
use sbr_grid::SbrGrid;

// The largest of some energies, from 0.
fn peak_of(energies: &[f64]) -> f64
    ensures { result ≡ peak_for (energy_at energies.now) (length energies.now) }
{
    let mut peak = 0.0;
    for x in energies {
        peak = sbr_floats::raised(peak, *x);
    }
    peak
}

// The sum of some energies. No `sum()`: std's begins at -0.0.
fn sum_of(energies: &[f64]) -> f64
    ensures { result ≡ fold (Ieee.add binary64) zero64 energies.now }
{
    energies.iter().fold(0.0, |sum, x| sum + *x)
}

// The smaller of the means of the 4 and of the 2 slots before slot s.
fn mean_before(e: &[f64; 24], s: usize) -> f64
    requires { (4 ≤ s) × (s < 24) }
    ensures { result ≡ smaller_mean (energy_at e.now) s }
{
    let before_4 = sbr_floats::mean(sum_of(&e[s - 4..s]), 4);
    let before_2 = sbr_floats::mean(sum_of(&e[s - 2..s]), 2);
    sbr_floats::min(before_4, before_2)
}

// Whether slot s is an onset: above 8 times the smaller of two means before it, above a tenth of the peak, above 64.
#[tactic(auto, unfolding(crate::specs::Onsets::is_attack))]
fn is_attack(e: &[f64; 24], peak: f64, s: usize) -> bool
    requires { (4 ≤ s) × (s < 24) }
    ensures { result ≡ is_attack (energy_at e.now) peak s }
{
    let before = mean_before(e, s);
    let now = e[s];
    now > 8.0 * before + 1e-9 && now > 0.1 * peak && now > 64.0
}

// The onsets before slot nts, the first from slot 4 on, each 4 or more after the one before.
fn detect_onsets(e: &[f64; 24], peak: f64, nts: usize) -> Onsets
    requires { nts ≤ 24 }
    ensures { result ≡ onsets_record (detect_onsets (is_attack (energy_at e.now) peak) nts) }
{
    let mut count = 0;
    let mut slot = [0u32; Onsets::MAX_ONSETS];
    let mut free = 4;
    // By number: a slot is asked for with those before it, and its number is what is kept.
    for s in 4..nts {
        if count < Onsets::MAX_ONSETS && free <= s && is_attack(e, peak, s) {
            slot[count] = s as u32;
            count += 1;
            free = s + 4;
        }
    }
    Onsets { count, slot }
}

// The onsets of a frame, the peak taken over 8 slots more. The array has places for the longest frame; nts is the frame's own count of slots, here
// as in `detect_onsets`, `halves_alike` and sbr_encoder's `choose`.
pub fn onsets_of(e: &[f64; 24], nts: usize) -> Onsets
    requires { nts ≤ 16 }
    ensures { result ≡ onsets_record (onsets_for (energy_at e.now) nts) }
{
    detect_onsets(e, peak_of(&e[..nts + 8]), nts)
}

// Whether the energies of the two halves of a frame are alike.
pub fn halves_alike(e: &[f64; 24], nts: usize) -> bool
    requires { nts ≤ 16 }
    ensures { result ≡ halves_alike (energy_at e.now) nts }
{
    let half = nts / 2;
    let first = sum_of(&e[..half]) + 1.0;
    let second = sum_of(&e[half..nts]) + 1.0;
    let ratio = first / second;
    ratio >= 0.5 && ratio <= 2.0
}

// The previous border less the slot count, held to 0 to 3.
pub fn lead_of(num_time_slots: usize, t_e_last_prev: i32) -> u32
    requires { is_slot_count num_time_slots ≡ true }
    ensures { result ≡ lead_for num_time_slots t_e_last_prev }
{
    let past = i64::from(t_e_last_prev) - num_time_slots as i64;
    past.clamp(0, SbrGrid::MAX_VAR_BORD as i64) as u32
}
