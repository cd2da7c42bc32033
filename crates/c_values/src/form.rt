// A record from what C hands in.
ghost use Rattle.std.specs.Prelude.{◌≡◌, false, ◌&&◌, [], map, leb, eqb, length, Ok};
ghost use Rattle.sbr_grid.specs.Refusals.{result_map};
ghost use Rattle.sbr_grid.specs.Grid.{first, record_of};
ghost use Rattle.std.specs.List.{list_all};
ghost use Rattle.c_values.specs.Handed.{grid_from, formed, flagged, formable, forming};

use sbr_grid::{FrameClass, Refusal, SbrGrid};

const MAX_FLAG: u8 = 1;

// The numbers of a record as C hands them in, held together. Class and counts are wider than a record needs: nothing is cut before its test.
#[derive(Clone, Copy)]
pub struct Handed {
    pub frame_class: u32,
    pub num_env: u64,
    pub num_noise: u64,
    pub var_bord_0: u8,
    pub var_bord_1: u8,
    pub num_rel_0: u64,
    pub num_rel_1: u64,
    pub pointer: u8,
}

// Each byte is a flag: 0 or 1.
fn are_flags(bytes: &[u8]) -> bool
    ensures { result ≡ list_all (λ b. leb b 1) bytes.now }
{
    bytes.iter().all(|byte| *byte <= MAX_FLAG)
}

// The range has that many flags, each 0 or 1.
pub fn is_flagged(range: &[u8], count: usize) -> bool
    ensures { result ≡ flagged count range.now }
{
    count <= range.len() && are_flags(&range[..count])
}

// As many bytes of the range as the count says; the places past them are 0. Not inlined, here and in `flags`: what makes a record stays small enough to be
// inlined itself.
#[inline(never)]
fn entries<const N: usize>(range: &[u8], count: usize) -> [u8; N]
    ensures { result ≡ first 0 N (first 0 count range.now) }
{
    sbr_grid::padded(&range[..count.min(range.len())], 0)
}

// High where the byte is 1.
fn are_high(bytes: [u8; SbrGrid::MAX_NUM_ENV]) -> [bool; SbrGrid::MAX_NUM_ENV]
    ensures { result ≡ map (λ b. eqb b 1) bytes }
{
    bytes.map(|byte| byte == MAX_FLAG)
}

// The same as flags; not by way of `entries`, which is a call.
#[inline(never)]
pub fn flags(range: &[u8], count: usize) -> [bool; SbrGrid::MAX_NUM_ENV]
    ensures { result ≡ first false 5 (map (λ b. eqb b 1) (first 0 count range.now)) }
{
    are_high(sbr_grid::padded(&range[..count.min(range.len())], 0))
}

// No list is shorter than its count.
fn lists_fit(h: Handed, rel_bord_0: &[u8], rel_bord_1: &[u8]) -> bool
    ensures { result ≡ (leb h.num_rel_0 (length rel_bord_0.now) && leb h.num_rel_1 (length rel_bord_1.now)) }
{
    h.num_rel_0 as usize <= rel_bord_0.len() && h.num_rel_1 as usize <= rel_bord_1.len()
}

// The record of the numbers and ranges: refused where the class is above 3 or a list is shorter than its count. C hands in no amplitude override, which
// neither bits nor borders depend on.
fn record(
    h: Handed,
    freq_res: &[u8],
    rel_bord_0: &[u8],
    rel_bord_1: &[u8],
) -> Result<SbrGrid, Refusal>
    ensures { result ≡ result_map record_of (forming
        (formed h rel_bord_0.now rel_bord_1.now)
        (Ok (grid_from h freq_res.now rel_bord_0.now rel_bord_1.now))) }
{
    let frame_class = FrameClass::try_from(h.frame_class)?;
    let num_env = h.num_env as usize;
    let num_rel_0 = h.num_rel_0 as usize;
    let num_rel_1 = h.num_rel_1 as usize;
    if !lists_fit(h, rel_bord_0, rel_bord_1) {
        return Err(Refusal::Record);
    }
    Ok(SbrGrid {
        frame_class,
        num_env,
        num_noise: h.num_noise as usize,
        freq_res: flags(freq_res, num_env),
        var_bord_0: h.var_bord_0,
        var_bord_1: h.var_bord_1,
        rel_bord_0: entries(rel_bord_0, num_rel_0),
        num_rel_0,
        rel_bord_1: entries(rel_bord_1, num_rel_1),
        num_rel_1,
        pointer: h.pointer,
        amp_res_override: false,
    })
}

// No class above 3, and no list shorter than its count.
#[tactic(auto, unfolding(crate::specs::Handed::formed))]
fn is_formed(h: Handed, rel_bord_0: &[u8], rel_bord_1: &[u8]) -> bool
    ensures { result ≡ formed h rel_bord_0.now rel_bord_1.now }
{
    h.frame_class <= FrameClass::MAX_CODE && lists_fit(h, rel_bord_0, rel_bord_1)
}

// What writing and energies need: the flags must be there, each 0 or 1. They are looked at last, since there may be any number of them.
pub fn form_record(
    h: Handed,
    freq_res: &[u8],
    rel_bord_0: &[u8],
    rel_bord_1: &[u8],
) -> Result<SbrGrid, Refusal>
    ensures { result ≡ result_map record_of (forming
        (formable h freq_res.now rel_bord_0.now rel_bord_1.now)
        (Ok (grid_from h freq_res.now rel_bord_0.now rel_bord_1.now))) }
{
    if !is_formed(h, rel_bord_0, rel_bord_1) || !is_flagged(freq_res, h.num_env as usize) {
        return Err(Refusal::Record);
    }
    record(h, freq_res, rel_bord_0, rel_bord_1)
}

// What a time grid needs: no flags are handed in, and none is set.
pub fn form_borders(h: Handed, rel_bord_0: &[u8], rel_bord_1: &[u8]) -> Result<SbrGrid, Refusal>
    ensures { result ≡ result_map record_of (forming
        (formed h rel_bord_0.now rel_bord_1.now)
        (Ok (grid_from h [] rel_bord_0.now rel_bord_1.now))) }
{
    record(h, &[], rel_bord_0, rel_bord_1)
}

// A switch of C: 0 or 1; refused by 5 above 1.
pub fn switch(number: u32) -> Result<bool, Refusal>
    ensures { result ≡ forming (leb number 1) (Ok (eqb number 1)) }
{
    if 1 < number {
        return Err(Refusal::Record);
    }
    Ok(number == 1)
}
