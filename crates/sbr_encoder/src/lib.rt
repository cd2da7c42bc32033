// The election of a frame's grid: src/sbr_encoder.rs.
#![tactic(auto)]

ghost use Rattle.std.specs.Prelude.{◌≡◌, true, ◌+◌, get_or, Ok};
ghost use Rattle.std.specs.Float.{nan};
ghost use Rattle.sbr_grid.specs.Refusals.{result_map};
ghost use Rattle.sbr_grid.specs.Grid.{record_of, view_of};
ghost use Rattle.sbr_grid.specs.Times.{Times, is_slot_count};
ghost use Rattle.sbr_time_grid.specs.TimeGrid.{time_grid};
ghost use Rattle.sbr_qmf.specs.Qmf.{columns};
ghost use Rattle.sbr_energy.specs.Energy.{slot_energies};
ghost use Rattle.sbr_choice.specs.Choice.{chosen_grid};
ghost use Rattle.sbr_bands.specs.Tables.{entry, last_entry};
ghost use Rattle.sbr_onsets.specs.Onsets.{halves_alike, onsets_for, lead_for};
ghost use Rattle.sbr_encoder.specs.Election.{has_onset, resolved, elected_of, elect, election};

use sbr_bands::BandTables;
use sbr_build::Frame;
use sbr_grid::{FrameClass, Refusal, SbrGrid};
use sbr_resolution::FrameSamples;

// A grid, and whether the frame has an onset.
#[derive(Clone, Copy)]
pub struct Election {
    pub grid: SbrGrid,
    pub transient: bool,
}

// What the tests of a call leave: a slot count, and samples of its slots and of the 8 behind them.
#[derive(Clone, Copy)]
struct Tested<'a> {
    samples: FrameSamples<'a>,
    num_time_slots: usize,
    ghost counted: { is_slot_count num_time_slots ≡ true },
    ghost framed: { samples.slots ≡ num_time_slots + 8 },
}

// The grid with the elected resolutions; FixFix keeps its own.
fn resolved(frame: Tested, grid: SbrGrid) -> SbrGrid
    requires whole { record_of (view_of grid) ≡ grid }
    requires timed { (t : Times) × (time_grid frame.num_time_slots (view_of grid) ≡ Ok t) }
    ensures { (t : Times) → time_grid frame.entry.num_time_slots (view_of grid) ≡ Ok t → result ≡ record_of (resolved (columns frame.entry.samples.x.now) frame.entry.samples.tables.high.now frame.entry.samples.tables.low.now (view_of grid) t) }
{
    match grid.frame_class {
        FrameClass::FixFix => grid,
        _ => {
            let time = sbr_time_grid::derive_time_grid(grid, frame.num_time_slots).unwrap();
            SbrGrid {
                freq_res: frame.samples.resolutions(time.borders()),
                ..grid
            }
        }
    }
}

// The grid for the slot energies of a frame, its resolutions not yet elected, and whether there is an onset.
fn choose(
    e: &[f64; 24],
    t_e_last_prev: i32,
    variable_borders: bool,
    num_time_slots: usize,
) -> Election
    requires { is_slot_count num_time_slots ≡ true }
    ensures grid_value { result.grid ≡ record_of (chosen_grid variable_borders (halves_alike (λ i. get_or e.now i nan) num_time_slots) (onsets_for (λ i. get_or e.now i nan) num_time_slots) (lead_for num_time_slots t_e_last_prev) num_time_slots) }
    ensures transient_value { result.transient ≡ has_onset (onsets_for (λ i. get_or e.now i nan) num_time_slots) }
{
    let onsets = sbr_onsets::onsets_of(e, num_time_slots);
    let even = onsets.count == 0 && sbr_onsets::halves_alike(e, num_time_slots);
    let lead = sbr_onsets::lead_of(num_time_slots, t_e_last_prev);
    let frame = Frame {
        nts: num_time_slots as u8,
        lead: lead as u8,
    };
    Election {
        grid: sbr_choice::choose_grid(onsets, variable_borders, even, frame),
        transient: 0 < onsets.count,
    }
}

// The energies of the slots over the bands of the high table.
fn energies(frame: Tested) -> [f64; 24]
    ensures { result ≡ slot_energies (columns frame.entry.samples.x.now) (entry frame.entry.samples.tables.high.now 0) (last_entry frame.entry.samples.tables.high.now) (frame.entry.num_time_slots + 8) }
{
    let samples = frame.samples;
    let high = samples.tables.high;
    let kx = high[0] as usize;
    let k_end = high[high.len() - 1] as usize;
    sbr_energy::slot_energies(samples.x, samples.slots, kx, k_end)
}

// The election where all tests are passed.
fn elected(frame: Tested, t_e_last_prev: i32, variable_borders: bool) -> Election
    ensures { result ≡ election (elected_of (columns frame.entry.samples.x.now) frame.entry.samples.tables.high.now frame.entry.samples.tables.low.now frame.entry.num_time_slots t_e_last_prev variable_borders) }
{
    let e = energies(frame);
    let plan = choose(&e, t_e_last_prev, variable_borders, frame.num_time_slots);
    Election {
        grid: resolved(frame, plan.grid),
        ..plan
    }
}

// The grid of a frame from its samples, the border before it and whether borders may vary. Refused where the slot count is neither 15 nor
// 16, then by the band tables, then where there are too few samples.
pub fn elect_grid(
    x: &[f64],
    tables: BandTables,
    t_e_last_prev: i32,
    variable_borders: bool,
    num_time_slots: usize,
) -> Result<Election, Refusal>
    ensures { result ≡ result_map election (elect num_time_slots tables.entry.high.now tables.entry.low.now x.now t_e_last_prev variable_borders) }
{
    let samples = FrameSamples::new(x, tables, num_time_slots)?;
    let frame = Tested {
        samples,
        num_time_slots,
    };
    Ok(elected(frame, t_e_last_prev, variable_borders))
}
