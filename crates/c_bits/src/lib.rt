// What the calls of C for writing and time grids do. sbr_c exports them.
#![tactic(auto)]

ghost use Rattle.c_values.specs.Given.{Leaves, time_out};
ghost use Rattle.c_bits.specs.Calls.{write_call, time_call, write_out};

use c_values::form::Handed;
use sbr_grid::{Refusal, TimeGrid};

// Refused by 5 for what can't be formed, then as `sbr_writer::write_grid`.
pub fn write_grid(
    bytes: &mut [u8],
    position: &mut u64,
    handed: Handed,
    freq_res: &[u8],
    rel_bord_0: &[u8],
    rel_bord_1: &[u8],
) -> Result<(), Refusal>
    ensures { Leaves
        (write_call handed freq_res.now rel_bord_0.now rel_bord_1.now bytes.old position.old)
        write_out (bytes.old, position.old)
        result (bytes.new, position.new) }
{
    let grid = c_values::form::form_record(handed, freq_res, rel_bord_0, rel_bord_1)?;
    let next = sbr_writer::write_grid(bytes, *position as usize, grid)?;
    *position = next as u64;
    Ok(())
}

// Refused by 1, by 5 for what can't be formed, then as `sbr_time_grid::derive_time_grid`.
pub fn derive_time_grid(
    num_time_slots: u64,
    handed: Handed,
    rel_bord_0: &[u8],
    rel_bord_1: &[u8],
    t_e: &mut [u32; TimeGrid::MAX_BORDERS],
    t_q: &mut [u32; TimeGrid::MAX_NOISE_BORDERS],
    l_a: &mut i32,
) -> Result<(), Refusal>
    ensures { Leaves
        (time_call num_time_slots handed rel_bord_0.now rel_bord_1.now)
        time_out (t_e.old, t_q.old, l_a.old)
        result (t_e.new, t_q.new, l_a.new) }
{
    if !sbr_grid::is_slot_count(num_time_slots as usize) {
        return Err(Refusal::SlotCount);
    }
    let grid = c_values::form::form_borders(handed, rel_bord_0, rel_bord_1)?;
    let time = sbr_time_grid::derive_time_grid(grid, num_time_slots as usize)?;
    c_values::give::give_times(time, t_e, t_q, l_a);
    Ok(())
}
