// Energies of envelopes: `estimate_envelopes` of src/sbr_encoder.rs.
#![tactic(auto)]

ghost use Rattle.std.specs.Prelude.{◌≡◌, ◌+◌, ◌-◌, ◌≤◌, cond, length, Ok};
ghost use Rattle.std.specs.List.{sum_by};
ghost use Rattle.sbr_grid.specs.Refusals.{result_map};
ghost use Rattle.sbr_grid.specs.Grid.{view_of};
ghost use Rattle.sbr_time_grid.specs.TimeGrid.{time_grid};
ghost use Rattle.sbr_qmf.specs.Qmf.{columns};
ghost use Rattle.sbr_bands.specs.Tables.{spans};
ghost use Rattle.sbr_resolution.specs.Resolution.{Bordered};
ghost use Rattle.sbr_envelopes.specs.Envelopes.{rows, rows_length, fitted, rows_of, energies, numbers_after};

use sbr_bands::BandTables;
use sbr_grid::{Refusal, SbrGrid};
use sbr_means::Envelope;
use sbr_resolution::FrameSamples;

// How many numbers the rows of some envelopes hold.
fn rows_length(resolutions: &[bool], high_bands: usize, low_bands: usize) -> usize
    requires { (length resolutions.now ≤ 5) × (high_bands ≤ 64) × (low_bands ≤ 64) }
    ensures { result ≡ sum_by (λ high. cond high high_bands low_bands) resolutions.now }
{
    resolutions
        .iter()
        .map(|high| if *high { high_bands } else { low_bands })
        .sum()
}

// The rows of some envelopes between their borders, one after another. That the borders are `Bordered` is said here, in `fit_rows` and in
// `FrameSamples::resolutions`: a type around the slice would have to hold the frame's slots beside it.
fn fill_rows(frame: FrameSamples, resolutions: &[bool], borders: &[u32], out: &mut [f64])
    requires borders { Bordered borders.now frame.slots }
    requires one_more { length borders.now ≡ length resolutions.now + 1 }
    requires room { rows_length resolutions.now (length frame.tables.high.now - 1) (length frame.tables.low.now - 1) ≤ length out.old }
    ensures { out.new ≡ numbers_after out.old (Ok (rows (columns frame.entry.x.now) frame.entry.tables.high.now frame.entry.tables.low.now resolutions.now (spans borders.now))) }
{
    let mut at = 0;
    // Two borders to a resolution: `windows(2)` beside it would be read by the same two indices.
    for (l, high) in resolutions.iter().enumerate() {
        let table = frame.tables.of(*high);
        let bands = table.len() - 1;
        let envelope = Envelope {
            x: frame.x,
            from: borders[l] as usize,
            to: borders[l + 1] as usize,
        };
        envelope.band_means(table, &mut out[at..at + bands]);
        at += bands;
    }
}

// The same where the rows have room, and how many numbers they hold.
fn fit_rows(
    frame: FrameSamples,
    resolutions: &[bool],
    borders: &[u32],
    out: &mut [f64],
) -> Result<usize, Refusal>
    requires borders { Bordered borders.now frame.slots }
    requires one_more { length borders.now ≡ length resolutions.now + 1 }
    ensures answer { result ≡ result_map length (fitted (length out.old) (rows (columns frame.entry.x.now) frame.entry.tables.high.now frame.entry.tables.low.now resolutions.now (spans borders.now))) }
    ensures numbers { out.new ≡ numbers_after out.old (fitted (length out.old) (rows (columns frame.entry.x.now) frame.entry.tables.high.now frame.entry.tables.low.now resolutions.now (spans borders.now))) }
{
    let count = rows_length(
        resolutions,
        frame.tables.high.len() - 1,
        frame.tables.low.len() - 1,
    );
    if out.len() < count {
        return Err(Refusal::Room);
    }
    fill_rows(frame, resolutions, borders, out);
    Ok(count)
}

// The energies of a grid's envelopes, one row after another, lowest band first, and how many they are; numbers past them are kept. Refused where
// the slot count is neither 15 nor 16, then by the band tables, where there are too few samples, where the grid has no time grid, where the rows have no room.
pub fn estimate_envelopes(
    x: &[f64],
    tables: BandTables,
    grid: SbrGrid,
    num_time_slots: usize,
    out: &mut [f64],
) -> Result<usize, Refusal>
    ensures answer { result ≡ result_map length (energies num_time_slots tables.entry.high.now tables.entry.low.now x.now (view_of grid) (length out.old)) }
    ensures numbers { out.new ≡ numbers_after out.old (energies num_time_slots tables.entry.high.now tables.entry.low.now x.now (view_of grid) (length out.old)) }
{
    let frame = FrameSamples::new(x, tables, num_time_slots)?;
    let time = sbr_time_grid::derive_time_grid(grid, num_time_slots)?;
    fit_rows(frame, grid.resolutions(), time.borders(), out)
}
