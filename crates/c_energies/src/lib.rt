// What the call of C for energies does. sbr_c exports it.
#![tactic(auto)]

ghost use Rattle.std.specs.Prelude.{length};
ghost use Rattle.c_values.specs.Given.{Leaves};
ghost use Rattle.c_energies.specs.Energies.{energy_call, energy_out};

use c_values::form::Handed;
use sbr_bands::BandTables;
use sbr_grid::Refusal;

// Refused by 1, by 5 for what can't be formed, then as `sbr_envelopes::estimate_envelopes`.
pub fn estimate_envelopes(
    samples: &[f64],
    tables: BandTables,
    num_time_slots: u64,
    handed: Handed,
    freq_res: &[u8],
    rel_bord_0: &[u8],
    rel_bord_1: &[u8],
    out: &mut [f64],
    count: &mut u64,
) -> Result<(), Refusal>
    ensures { Leaves
        (energy_call num_time_slots tables.entry.high.now tables.entry.low.now samples.now handed
        freq_res.now rel_bord_0.now rel_bord_1.now (length out.old))
        (energy_out out.old) (out.old, count.old)
        result (out.new, count.new) }
{
    if !sbr_grid::is_slot_count(num_time_slots as usize) {
        return Err(Refusal::SlotCount);
    }
    let grid = c_values::form::form_record(handed, freq_res, rel_bord_0, rel_bord_1)?;
    let n = sbr_envelopes::estimate_envelopes(samples, tables, grid, num_time_slots as usize, out)?;
    *count = n as u64;
    Ok(())
}
