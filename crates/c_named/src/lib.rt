// What the call of C for named borders does. sbr_c exports it.
#![tactic(auto)]

ghost use Rattle.c_values.specs.Given.{Leaves, record_out};
ghost use Rattle.c_named.specs.Named.{named_call};

use c_values::give::NUMBERS;
use sbr_grid::{Refusal, SbrGrid};

// Refused by 1, by 5 for a flag above 1, then as `sbr_named::grid_for_borders`.
#[tactic(auto, using(crate::proofs::Given::flagged_all, crate::proofs::Given::flags_long))]
pub fn grid_for_borders(
    num_time_slots: u64,
    borders: &[i32],
    resolutions: &[u8],
    l_a: i32,
    numbers: &mut [u32; NUMBERS],
    freq_res: &mut [u8; SbrGrid::MAX_NUM_ENV],
    rel_bord_0: &mut [u8; SbrGrid::MAX_REL_BORD],
    rel_bord_1: &mut [u8; SbrGrid::MAX_REL_BORD],
) -> Result<(), Refusal>
    ensures { Leaves
        (named_call num_time_slots borders.now resolutions.now l_a)
        record_out (numbers.old, freq_res.old, rel_bord_0.old, rel_bord_1.old)
        result (numbers.new, freq_res.new, rel_bord_0.new, rel_bord_1.new) }
{
    if !sbr_grid::is_slot_count(num_time_slots as usize) {
        return Err(Refusal::SlotCount);
    }
    // C hands in no other count.
    let count = resolutions.len();
    if !c_values::form::is_flagged(resolutions, count) {
        return Err(Refusal::Record);
    }
    // No grid has more envelopes.
    if SbrGrid::MAX_NUM_ENV < count {
        return Err(Refusal::NoGrid);
    }
    let flags = c_values::form::flags(resolutions, count);
    let grid = sbr_named::grid_for_borders(num_time_slots as usize, borders, &flags[..count], l_a)?;
    c_values::give::give_record(grid, numbers, freq_res, rel_bord_0, rel_bord_1);
    Ok(())
}
