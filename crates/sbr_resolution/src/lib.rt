// Resolutions of envelopes: `elect_freq_res` of src/sbr_encoder.rs.
#![tactic(auto)]

ghost use Rattle.std.specs.Prelude.{◌≡◌, false, map, ℕ, ◌+◌, ◌-◌, ◌≤◌, ◌<◌, nat_lt, length, get_or, IfOk};
ghost use Rattle.std.specs.List.{prefix_len};
ghost use Rattle.sbr_grid.specs.Grid.{first};
ghost use Rattle.sbr_grid.specs.Refusals.{result_map};
ghost use Rattle.sbr_qmf.specs.Qmf.{columns};
ghost use Rattle.sbr_bands.specs.Tables.{spans};
ghost use Rattle.sbr_means.specs.Means.{Bands, mean_in};
ghost use Rattle.sbr_resolution.specs.Resolution.{Ready, Bordered, framed, is_spread, elect_freq_res};

use sbr_bands::{BandTables, MAX_BAND};
use sbr_grid::{Refusal, SbrGrid};
use sbr_means::Envelope;

// What the tests of a call leave: band tables that fit, and samples for every column of the first `slots` slots.
#[derive(Clone, Copy)]
pub struct FrameSamples<'a> {
    pub x: &'a [f64],
    pub tables: BandTables<'a>,
    pub slots: usize,
    ghost ready: { Ready tables.high.now tables.low.now x.now slots },
}

// The fewest slots of an envelope of high resolution.
const MIN_SLOTS: u32 = 4;

// How many bands of a table there are before the one that begins at `end`.
fn bands_before(table: &[u8], end: u8) -> usize
    ensures { result ≡ prefix_len (λ b. nat_lt b end) table.now }
{
    table.iter().take_while(|b| **b < end).count()
}

// Whether the means, two or more, are spread.
fn is_spread(means: &[f64]) -> bool
    ensures { result ≡ is_spread means.now }
{
    if means.len() < 2 {
        return false;
    }
    let mut largest = 0.0;
    let mut smallest = f64::INFINITY;
    for m in means {
        largest = sbr_floats::raised(largest, *m);
        smallest = sbr_floats::lowered(smallest, *m);
    }
    largest > 64.0 && sbr_floats::spread_is_high(largest / sbr_floats::max(smallest, 64.0))
}

// Whether the means of some bands over an envelope are spread; `means` is room for them.
fn are_spread(envelope: Envelope, bands: &[u8], means: &mut [f64; MAX_BAND as usize]) -> bool
    requires fit { Bands bands.now }
    requires few { (1 ≤ length bands.now) × (length bands.now ≤ 65) }
    ensures { result ≡ is_spread (map (mean_in (columns envelope.entry.x.now) (record { from = envelope.entry.from; to = envelope.entry.to })) (spans bands.now)) }
{
    let row = &mut means[..bands.len() - 1];
    envelope.band_means(bands, row);
    is_spread(row)
}

impl<'a> FrameSamples<'a> {
    // A frame and the 8 slots behind it. Refused where the slot count is neither 15 nor 16, then by the band tables, then where there are too few samples.
    // Inlined, as `derive_time_grid`: what is handed out would be copied.
    #[inline(always)]
    #[tactic(auto, using(sbr_grid::proofs::Slots::slots_few))]
    pub fn new(
        x: &'a [f64],
        tables: BandTables<'a>,
        num_time_slots: usize,
    ) -> Result<FrameSamples<'a>, Refusal>
        ensures tests { result_map (λ f. f.slots) result ≡ framed num_time_slots tables.entry.high.now tables.entry.low.now x.now }
        ensures frame { IfOk result (λ f. (f.x.now ≡ x.now) × (f.tables.high.now ≡ tables.entry.high.now) × (f.tables.low.now ≡ tables.entry.low.now)) }
    {
        if !sbr_grid::is_slot_count(num_time_slots) {
            return Err(Refusal::SlotCount);
        }
        if !tables.fit() {
            return Err(Refusal::Tables);
        }
        if x.len() < sbr_qmf::samples_needed(num_time_slots) {
            return Err(Refusal::Samples);
        }
        Ok(FrameSamples {
            x,
            tables,
            slots: num_time_slots + 8,
        })
    }

    // Whether the envelope between two borders is to have high resolution: 4 slots or more, and some low band with spread means of the high bands inside it.
    fn elect_freq_res(self, from: u32, to: u32) -> bool
        requires { (from ≤ to) × (to ≤ self.slots) }
        ensures { result ≡ elect_freq_res (columns self.entry.x.now) self.entry.tables.high.now self.entry.tables.low.now (record { from = from; to = to }) }
    {
        if to - from < MIN_SLOTS {
            return false;
        }
        let envelope = Envelope {
            x: self.x,
            from: from as usize,
            to: to as usize,
        };
        let mut means = [0.0; MAX_BAND as usize];
        let mut rest = self.tables.high;
        for end in &self.tables.low[1..] {
            let bands = bands_before(rest, *end);
            if 2 <= bands && are_spread(envelope, &rest[..=bands], &mut means) {
                return true;
            }
            rest = &rest[bands..];
        }
        false
    }

    // The resolutions of the envelopes between some borders.
    pub fn resolutions(self, borders: &[u32]) -> [bool; SbrGrid::MAX_NUM_ENV]
        requires { Bordered borders.now self.slots }
        ensures { result ≡ first false 5 (map (elect_freq_res (columns self.entry.x.now) self.entry.tables.high.now self.entry.tables.low.now) (spans borders.now)) }
    {
        let mut out = [false; SbrGrid::MAX_NUM_ENV];
        // Two neighbours and a place of the array at a step: an index is plainer than a zip of it with windows.
        for l in 1..borders.len() {
            out[l - 1] = self.elect_freq_res(borders[l - 1], borders[l]);
        }
        out
    }
}
