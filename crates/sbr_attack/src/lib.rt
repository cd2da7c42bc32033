// Grids that put a border on one or two onsets: src/sbr_encoder.rs.
#![tactic(auto)]

ghost use Rattle.std.specs.Prelude.{◌≡◌, reverse, length, ◌+◌, ◌-◌, ◌≤◌, ◌<◌};
ghost use Rattle.std.specs.Option.{option_map};
ghost use Rattle.sbr_grid.specs.Grid.{record_of};
ghost use Rattle.sbr_build.specs.Slots.{slot_list};
ghost use Rattle.sbr_attack.specs.Attack.{even_segments, aligned_attack, late_attack_varvar, tail_of, double_attack_grid, fixvar_segs, varfix_segs, varfix_mark, fixvar_grid, varfix_grid, variable_grid};

use sbr_build::{Frame, Slots};
use sbr_grid::{FrameClass, SbrGrid};

// An onset inside a frame, from slot 4 on.
#[derive(Clone, Copy)]
pub struct Attack {
    pub s: u8,
    pub frame: Frame,
    pub ghost inside: { (4 ≤ s) × (s < frame.nts) },
}

// A span as lengths of 8 and a rest.
#[tactic(auto, using(crate::proofs::Segments::only_eights, crate::proofs::Segments::eights_and_rest))]
fn even_segments(span: u8) -> Slots<u8>
    requires { span ≤ 24 }
    ensures { slot_list result ≡ even_segments span }
{
    let mut segs = Slots::of(&[8; 3][..(span / 8) as usize]);
    if span % 8 != 0 {
        segs.push(span % 8);
    }
    segs
}

// The onset moved down to the lead's parity, two slots after the lead at least.
fn aligned_attack(attack: Attack) -> u8
    ensures { (result ≡ aligned_attack attack.s attack.frame.lead) × (attack.frame.lead + 2 ≤ result) × (result ≤ attack.s + 1) }
{
    let s = attack.s;
    let lead = attack.frame.lead;
    (s - (s + lead) % 2).max(lead + 2)
}

// One late onset after a variable lead.
#[tactic(auto, unfolding(crate::specs::Attack::late_attack_varvar))]
pub fn late_attack_varvar(attack: Attack) -> Option<SbrGrid>
    ensures { result ≡ option_map record_of (late_attack_varvar attack.s attack.frame.lead attack.frame.nts) }
{
    let Frame { nts, lead } = attack.frame;
    let sp = aligned_attack(attack);
    if lead == 0 || sp + 2 < nts || nts < sp {
        return None;
    }
    let mut segs = even_segments(sp - lead);
    let count = segs.as_slice().len();
    if SbrGrid::MAX_SIDE_REL < count + 1 {
        return None;
    }
    segs.push(2);
    Some(sbr_build::varvar_grid(lead, sp + 3 - nts, segs.as_slice(), &[], count))
}

// The slots after the second onset's envelope: to the end of the frame, 2 at least, made even upward.
fn tail_of(s2: u8, frame: Frame) -> u8
    requires { s2 ≤ 16 }
    ensures { (result ≡ tail_of s2 frame.nts) × (result ≤ 16) }
{
    let tail = frame.nts.saturating_sub(s2 + 2).max(2);
    tail + tail % 2
}

// Two onsets with an envelope of two slots each: the first one length after the lead, or two.
#[tactic(auto, unfolding(crate::specs::Attack::double_attack_grid))]
pub fn double_attack_grid(first: Attack, s2: u8) -> Option<SbrGrid>
    requires { (first.s + 4 ≤ s2) × (s2 < first.frame.nts) }
    ensures { result ≡ option_map record_of (double_attack_grid first.s s2 first.frame.lead first.frame.nts) }
{
    let Frame { nts, lead } = first.frame;
    let tail = tail_of(s2, first.frame);
    let t = s2 + 2 + tail;
    let sp1 = aligned_attack(first);
    if 8 < tail || nts + SbrGrid::MAX_VAR_BORD < t || s2 < sp1 + 3 {
        return None;
    }
    let span = sp1 - lead;
    if span <= 8 {
        return Some(sbr_build::varvar_grid(lead, t - nts, &[span, 2], &[tail, 2], 1));
    }
    if s2 + 2 < nts {
        return None;
    }
    let mut segs = even_segments(span);
    if segs.as_slice().len() != 2 {
        return None;
    }
    segs.push(2);
    Some(sbr_build::varvar_grid(lead, s2 + 2 - nts, segs.as_slice(), &[2], 2))
}

// The lengths from the onset to the end, last first.
#[tactic(auto, unfolding(crate::specs::Attack::fixvar_segs))]
fn fixvar_segs(rest: u8) -> Slots<u8>
    requires { rest ≤ 16 }
    ensures { (slot_list result ≡ reverse (fixvar_segs rest)) × (1 ≤ length (slot_list result)) × (length (slot_list result) ≤ 3) }
{
    if rest <= 2 {
        Slots::of(&[rest])
    } else if rest <= 10 {
        Slots::of(&[rest - 2, 2])
    } else {
        Slots::of(&[rest - 10, 8, 2])
    }
}

// One onset, no lead: an even border on it, then lengths back from the end.
#[tactic(auto, unfolding(crate::specs::Attack::fixvar_grid))]
fn fixvar_grid(attack: Attack) -> SbrGrid
    ensures { result ≡ record_of (fixvar_grid attack.s attack.frame.nts) }
{
    let nts = attack.frame.nts;
    let sp = attack.s - attack.s % 2;
    let t = nts.max(sp + 4);
    let lengths = fixvar_segs(t - sp);
    let segs = lengths.as_slice();
    let num_env = segs.len() + 1;
    sbr_build::grid_of(
        FrameClass::FixVar,
        num_env,
        false,
        0,
        t - nts,
        &[],
        segs,
        num_env as u8,
    )
}

// The lengths from the lead to the onset.
#[tactic(auto, unfolding(crate::specs::Attack::varfix_segs))]
fn varfix_segs(span: u8) -> Slots<u8>
    requires { span ≤ 16 }
    ensures { (slot_list result ≡ varfix_segs span) × (1 ≤ length (slot_list result)) × (length (slot_list result) ≤ 2) }
{
    if span <= 8 {
        Slots::of(&[span])
    } else {
        Slots::of(&[8, span - 8])
    }
}

// The mark of a VarFix grid of k lengths, the last of them the onset's envelope or not.
fn varfix_mark(k: usize, short: bool) -> usize
    requires { (1 ≤ k) × (k ≤ 3) }
    ensures { (result ≡ varfix_mark k short) × (result ≤ 3) }
{
    if short { k } else { (k - 1).max(1) }
}

// One onset after a variable lead: lengths from the lead up to it.
#[tactic(auto, unfolding(crate::specs::Attack::varfix_grid))]
fn varfix_grid(attack: Attack) -> SbrGrid
    ensures { result ≡ record_of (varfix_grid attack.s attack.frame.lead attack.frame.nts) }
{
    let Frame { nts, lead } = attack.frame;
    let sp = aligned_attack(attack);
    let short = sp + 2 < nts;
    let mut segs = varfix_segs(sp - lead);
    if short {
        segs.push(2);
    }
    let rel = segs.as_slice();
    let k = rel.len();
    sbr_build::grid_of(
        FrameClass::VarFix,
        k + 1,
        false,
        lead,
        0,
        rel,
        &[],
        varfix_mark(k, short) as u8 + 1,
    )
}

// One onset: FixVar where the frame begins at 0, VarFix from a lead.
#[tactic(auto, unfolding(crate::specs::Attack::variable_grid))]
pub fn variable_grid(attack: Attack) -> SbrGrid
    ensures { result ≡ record_of (variable_grid attack.s attack.frame.lead attack.frame.nts) }
{
    if attack.frame.lead == 0 {
        fixvar_grid(attack)
    } else {
        varfix_grid(attack)
    }
}
