// Grids of even envelopes, and what all builders are made of: src/sbr_encoder.rs.
#![tactic(auto)]

mod slots;

ghost use Rattle.std.specs.Prelude.{◌≡◌, map, length, ◌+◌, ◌-◌, ◌≤◌, ◌<◌};
ghost use Rattle.sbr_grid.specs.Grid.{first, record_of};
ghost use Rattle.sbr_build.specs.Frames.{FrameBounds};
ghost use Rattle.sbr_build.specs.Slots.{slot_list};
ghost use Rattle.sbr_build.specs.Build.{raw, grid_of, fixfix_grid, varvar_grid, even_share, shares, varfix_plain};

use sbr_grid::{FrameClass, SbrGrid};
pub use slots::Slots;

// The slot count of a frame, 15 or 16, and its first border, 0 to 3.
#[derive(Clone, Copy)]
pub struct Frame {
    pub nts: u8,
    pub lead: u8,
    pub ghost bounds: { FrameBounds nts lead },
}

// The onset slots of a frame, the first `count` places.
// An array and its count, and no `Slots`, of which contracts tell the list alone: here they give the whole value, zeros behind the count too. `slots` hands
// out the slice.
#[derive(Clone, Copy)]
pub struct Onsets {
    pub count: usize,
    pub slot: [u32; Onsets::MAX_ONSETS],
}

impl Onsets {
    ghost use Rattle.sbr_build.specs.Cases.{onset_list};

    // Most onsets that a frame's grid can give an envelope each.
    pub const MAX_ONSETS: usize = 3;

    // The onsets, in order.
    pub fn slots(&self) -> &[u32]
        requires { self.now.count ≤ 3 }
        ensures { result.now ≡ onset_list self.now }
    {
        sbr_grid::front(&self.slot, self.count)
    }
}

// The stored form of a length.
fn raw_of(len: u8) -> u8
    ensures { result ≡ raw len }
{
    len.saturating_sub(2) / 2
}

// The stored forms of lengths; places past the count are zero.
fn raw_rel(lengths: &[u8]) -> [u8; SbrGrid::MAX_REL_BORD]
    ensures { result ≡ first 0 4 (map raw lengths.now) }
{
    sbr_grid::padded::<u8, { SbrGrid::MAX_REL_BORD }>(lengths, 0).map(raw_of)
}

// A grid of num_env envelopes at one resolution.
pub fn grid_of(
    class: FrameClass,
    num_env: usize,
    high: bool,
    lead: u8,
    over: u8,
    rel_0: &[u8],
    rel_1: &[u8],
    pointer: u8,
) -> SbrGrid
    requires { (length rel_0.now ≤ 4) × (length rel_1.now ≤ 4) }
    ensures { result ≡ record_of (grid_of class num_env high lead over rel_0.now rel_1.now pointer) }
{
    SbrGrid {
        frame_class: class,
        num_env,
        num_noise: sbr_grid::noise_of(num_env),
        freq_res: sbr_grid::same_resolutions(num_env, high),
        var_bord_0: lead,
        var_bord_1: over,
        rel_bord_0: raw_rel(rel_0),
        num_rel_0: rel_0.len(),
        rel_bord_1: raw_rel(rel_1),
        num_rel_1: rel_1.len(),
        pointer,
        amp_res_override: sbr_grid::is_overridden(class, num_env),
    }
}

// A FixFix grid of num_env envelopes at one resolution.
#[tactic(auto, unfolding(crate::specs::Build::fixfix_grid))]
pub fn fixfix_grid(num_env: usize, high: bool) -> SbrGrid
    ensures { result ≡ record_of (fixfix_grid num_env high) }
{
    grid_of(FrameClass::FixFix, num_env, high, 0, 0, &[], &[], 0)
}

// A VarVar grid at low resolution from the lead to `over` slots past the frame, with envelope l_a marked.
#[tactic(auto, unfolding(crate::specs::Build::varvar_grid))]
pub fn varvar_grid(lead: u8, over: u8, rel_0: &[u8], rel_1: &[u8], l_a: usize) -> SbrGrid
    requires { (length rel_0.now + length rel_1.now ≤ 4) × (l_a ≤ length rel_0.now + length rel_1.now + 2) }
    ensures { result ≡ record_of (varvar_grid lead over rel_0.now rel_1.now l_a) }
{
    let num_env = rel_0.len() + rel_1.len() + 1;
    grid_of(
        FrameClass::VarVar,
        num_env,
        false,
        lead,
        over,
        rel_0,
        rel_1,
        (num_env + 1 - l_a) as u8,
    )
}

// An even length, 2 to 8, for the first of `remaining` envelopes that share `left` slots.
fn share(left: u8, remaining: u8) -> u8
    requires { 0 < remaining }
    ensures { (result ≡ even_share left remaining) × (2 ≤ result) × (result ≤ 8) }
{
    let each = (left / remaining).clamp(2, 8);
    each - each % 2
}

// The lengths that num_env envelopes write down of `span` slots.
fn shared(num_env: usize, span: u8) -> Slots<u8>
    requires { num_env ≤ 5 }
    ensures { (slot_list result ≡ shares num_env span) × (length (slot_list result) ≤ num_env - 1) }
{
    let mut rel = Slots::new();
    let mut left = span;
    // A share is made by the number of envelopes that are left.
    for remaining in (2..=num_env).rev() {
        let len = share(left, remaining as u8);
        if left <= len {
            return rel;
        }
        rel.push(len);
        left -= len;
    }
    rel
}

// A VarFix grid from the lead, with num_env envelopes as even as the syntax allows, and no mark.
#[tactic(auto, unfolding(crate::specs::Build::varfix_plain))]
pub fn varfix_plain(num_env: usize, frame: Frame) -> SbrGrid
    requires { (1 ≤ num_env) × (num_env ≤ 4) }
    ensures { result ≡ record_of (varfix_plain frame.lead num_env frame.nts) }
{
    let shared = shared(num_env, frame.nts - frame.lead);
    let rel = shared.as_slice();
    let l = rel.len() + 1;
    grid_of(FrameClass::VarFix, l, l <= 2, frame.lead, 0, rel, &[], 0)
}
