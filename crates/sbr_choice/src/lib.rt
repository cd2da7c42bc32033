// The grid of a frame whose onsets are known: whole numbers only. From src/sbr_encoder.rs.
#![tactic(auto)]

ghost use Rattle.std.specs.Prelude.{◌≡◌, ◌≤◌, None, cond, eqb, get_or};
ghost use Rattle.std.specs.Option.{option_map};
ghost use Rattle.sbr_grid.specs.Grid.{record_of};
ghost use Rattle.sbr_build.specs.Cases.{Case, onset_list};
ghost use Rattle.sbr_attack.specs.Attack.{late_attack_varvar, variable_grid};
ghost use Rattle.sbr_search.specs.Search.{multi_onset_grid};
ghost use Rattle.sbr_choice.specs.Choice.{or_grid, double_first, attack_grid, plain_grid, chosen_grid};

use sbr_attack::Attack;
use sbr_build::{Frame, Onsets};
use sbr_grid::SbrGrid;
use sbr_search::Attacks;

// The search, for a frame of `count` onsets.
fn solver(count: usize, attacks: Attacks) -> Option<SbrGrid>
    ensures { result ≡ option_map record_of (cond (eqb attacks.onsets.count count) (multi_onset_grid (onset_list attacks.onsets) attacks.frame.lead attacks.frame.nts) None) }
{
    if attacks.onsets.count == count {
        sbr_search::multi_onset_grid(attacks)
    } else {
        None
    }
}

// The first onset in its frame.
fn first_attack(attacks: Attacks) -> Attack
    ensures { (result.s ≡ get_or attacks.onsets.slot 0 0) × (result.frame ≡ attacks.frame) }
{
    Attack {
        s: attacks.onsets.slot[0] as u8,
        frame: attacks.frame,
    }
}

// The double grid of the first two onsets, where there are two.
fn double_first(attacks: Attacks) -> Option<SbrGrid>
    ensures { result ≡ option_map record_of (double_first (onset_list attacks.onsets) attacks.frame.lead attacks.frame.nts) }
{
    if attacks.onsets.count < 2 {
        return None;
    }
    sbr_attack::double_attack_grid(first_attack(attacks), attacks.onsets.slot[1] as u8)
}

// The late grid of one onset, or its grid of one border.
fn single_grid(attack: Attack) -> SbrGrid
    ensures { result ≡ record_of (or_grid (late_attack_varvar attack.s attack.frame.lead attack.frame.nts) (variable_grid attack.s attack.frame.lead attack.frame.nts)) }
{
    sbr_attack::late_attack_varvar(attack).unwrap_or_else(|| sbr_attack::variable_grid(attack))
}

// Variable borders: the search for three onsets, then the double grid, the search for two onsets, the late grid, one onset's grid.
fn attack_grid(attacks: Attacks) -> SbrGrid
    ensures { result ≡ record_of (attack_grid (get_or attacks.onsets.slot 0 0) (onset_list attacks.onsets) attacks.frame.lead attacks.frame.nts) }
{
    if let Some(grid) = solver(Onsets::MAX_ONSETS, attacks) {
        return grid;
    }
    if let Some(grid) = double_first(attacks) {
        return grid;
    }
    if let Some(grid) = solver(2, attacks) {
        return grid;
    }
    single_grid(first_attack(attacks))
}

// No variable borders but the lead. Inlined: a record that is handed out would be copied.
#[inline(always)]
#[tactic(auto, unfolding(crate::specs::Choice::plain_grid))]
fn plain_grid(num_env: usize, high: bool, frame: Frame) -> SbrGrid
    requires { (1 ≤ num_env) × (num_env ≤ 4) }
    ensures { result ≡ record_of (plain_grid num_env high frame.lead frame.nts) }
{
    if frame.lead == 0 {
        sbr_build::fixfix_grid(num_env, high)
    } else {
        sbr_build::varfix_plain(num_env, frame)
    }
}

// The grid for the onsets, the switch, and whether the two halves of the frame are alike.
pub fn choose_grid(onsets: Onsets, variable_borders: bool, even: bool, frame: Frame) -> SbrGrid
    requires { Case frame.nts frame.lead (onset_list onsets) }
    ensures { result ≡ record_of (chosen_grid variable_borders even (onset_list onsets) frame.lead frame.nts) }
{
    if onsets.count == 0 {
        let num_env = if even { 1 } else { 2 };
        return plain_grid(num_env, true, frame);
    }
    if variable_borders {
        return attack_grid(Attacks { onsets, frame });
    }
    plain_grid(4, false, frame)
}
