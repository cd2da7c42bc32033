// What the call of C for an election does. sbr_c exports it.
#![tactic(auto)]

ghost use Rattle.c_values.specs.Given.{Leaves};
ghost use Rattle.c_elect.specs.Elections.{elect_call, election_out};

use c_values::give::NUMBERS;
use sbr_bands::BandTables;
use sbr_grid::{Refusal, SbrGrid};

// Refused by 1, by 5 for a switch above 1, then as `sbr_encoder::elect_grid`.
pub fn elect_grid(
    samples: &[f64],
    tables: BandTables,
    previous_border: i32,
    variable_borders: u32,
    num_time_slots: u64,
    transient: &mut u32,
    numbers: &mut [u32; NUMBERS],
    freq_res: &mut [u8; SbrGrid::MAX_NUM_ENV],
    rel_bord_0: &mut [u8; SbrGrid::MAX_REL_BORD],
    rel_bord_1: &mut [u8; SbrGrid::MAX_REL_BORD],
) -> Result<(), Refusal>
    ensures { Leaves
        (elect_call num_time_slots tables.entry.high.now tables.entry.low.now samples.now previous_border variable_borders)
        election_out (
          transient.old,
          (numbers.old, freq_res.old, rel_bord_0.old, rel_bord_1.old),
        )
        result (
          transient.new,
          (numbers.new, freq_res.new, rel_bord_0.new, rel_bord_1.new),
        ) }
{
    if !sbr_grid::is_slot_count(num_time_slots as usize) {
        return Err(Refusal::SlotCount);
    }
    let variable_borders = c_values::form::switch(variable_borders)?;
    let elected = sbr_encoder::elect_grid(
        samples,
        tables,
        previous_border,
        variable_borders,
        num_time_slots as usize,
    )?;
    *transient = u32::from(elected.transient);
    c_values::give::give_record(elected.grid, numbers, freq_res, rel_bord_0, rel_bord_1);
    Ok(())
}
