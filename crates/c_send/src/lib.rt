// What the call of C for a turn does. sbr_c exports it.
#![tactic(auto)]

ghost use Rattle.c_values.specs.Given.{Leaves};
ghost use Rattle.c_send.specs.Turns.{send_call, send_out};

use c_values::give::NUMBERS;
use sbr_bands::BandTables;
use sbr_grid::{Refusal, SbrGrid, TimeGrid};
use sbr_reader::Carried;
use sbr_run::Place;

// Refused by 1, by 5 for a switch above 1, then as `sbr_run::send_frame`.
pub fn send_frame(
    samples: &[f64],
    tables: BandTables,
    variable_borders: u32,
    num_time_slots: u64,
    bytes: &mut [u8],
    position: &mut u64,
    border: &mut i32,
    transient: &mut u32,
    numbers: &mut [u32; NUMBERS],
    freq_res: &mut [u8; SbrGrid::MAX_NUM_ENV],
    rel_bord_0: &mut [u8; SbrGrid::MAX_REL_BORD],
    rel_bord_1: &mut [u8; SbrGrid::MAX_REL_BORD],
    t_e: &mut [u32; TimeGrid::MAX_BORDERS],
    t_q: &mut [u32; TimeGrid::MAX_NOISE_BORDERS],
    l_a: &mut i32,
) -> Result<(), Refusal>
    ensures { Leaves
        (send_call num_time_slots tables.entry.high.now tables.entry.low.now samples.now variable_borders
        bytes.old position.old border.old)
        send_out (
          bytes.old,
          position.old,
          border.old,
          transient.old,
          (numbers.old, freq_res.old, rel_bord_0.old, rel_bord_1.old),
          (t_e.old, t_q.old, l_a.old),
        )
        result (
          bytes.new,
          position.new,
          border.new,
          transient.new,
          (numbers.new, freq_res.new, rel_bord_0.new, rel_bord_1.new),
          (t_e.new, t_q.new, l_a.new),
        ) }
{
    if !sbr_grid::is_slot_count(num_time_slots as usize) {
        return Err(Refusal::SlotCount);
    }
    let variable_borders = c_values::form::switch(variable_borders)?;
    let place = Place {
        // A turn does not look at the flag.
        carried: Carried::start(*border),
        position: *position as usize,
    };
    let sending = sbr_run::send_frame(
        samples,
        tables,
        variable_borders,
        num_time_slots as usize,
        bytes,
        place,
    )?;
    *position = sending.place.position as u64;
    *border = sending.place.carried.border;
    *transient = u32::from(sending.transient);
    c_values::give::give_record(sending.grid, numbers, freq_res, rel_bord_0, rel_bord_1);
    c_values::give::give_times(sending.time, t_e, t_q, l_a);
    Ok(())
}
