// The time grid of a record: src/sbr_time_grid.rs.
#![tactic(auto)]

ghost use Rattle.std.specs.Prelude.{◌≡◌};
ghost use Rattle.sbr_grid.specs.Refusals.{result_map};
ghost use Rattle.sbr_grid.specs.Grid.{view_of};
ghost use Rattle.sbr_grid.specs.Times.{time_record};
ghost use Rattle.sbr_time_grid.specs.TimeGrid.{time_grid};

use border::Frame;
use sbr_grid::{Refusal, SbrGrid, TimeGrid};

mod border;
mod noise;

// The time grid of a record; refused where the slot count is neither 15 nor 16, then where the record has none. Inlined where it is called: an answer
// that is handed out is copied, and the copy waits for what was just stored.
#[inline(always)]
pub fn derive_time_grid(grid: SbrGrid, num_time_slots: usize) -> Result<TimeGrid, Refusal>
    ensures { result ≡ result_map time_record (time_grid num_time_slots (view_of grid)) }
{
    if !sbr_grid::is_slot_count(num_time_slots) {
        return Err(Refusal::SlotCount);
    }
    if !border::fits(&grid) {
        return Err(Refusal::TimeGrid);
    }
    let frame = Frame {
        grid,
        num_slots: num_time_slots as u32,
    };
    let mut t_e = [0; TimeGrid::MAX_BORDERS];
    frame.t_e(&mut t_e);
    if !border::rises(&t_e[..=grid.num_env]) {
        return Err(Refusal::TimeGrid);
    }
    if !frame.noise_fits() {
        return Err(Refusal::TimeGrid);
    }
    Ok(TimeGrid {
        num_env: grid.num_env,
        t_e,
        num_noise: grid.num_noise,
        t_q: frame.t_q(&t_e),
        l_a: frame.l_a(),
    })
}
