// Means of bands over the slots of an envelope: src/sbr_encoder.rs.
#![tactic(auto)]

ghost use Rattle.std.specs.Prelude.{◌≡◌, map, ◌+◌, ◌≤◌, length};
ghost use Rattle.sbr_qmf.specs.Qmf.{columns};
ghost use Rattle.sbr_energy.specs.Energy.{band_total};
ghost use Rattle.sbr_bands.specs.Tables.{spans};
ghost use Rattle.sbr_means.specs.Means.{Bands, Sampled, mean_in};

use sbr_energy::Start;

// The samples of a frame, and the slots of an envelope: those from `from` up to, not including, `to`.
#[derive(Clone, Copy)]
pub struct Envelope<'a> {
    pub x: &'a [f64],
    pub from: usize,
    pub to: usize,
    ghost sampled: { Sampled x.now from to },
}

// The sums of two bands. Not sbr_energy's `Sums`, which are of four runs in a column each.
#[derive(Clone, Copy)]
struct Pair {
    a: f64,
    b: f64,
}

impl<'a> Envelope<'a> {
    // The sums of two neighbouring bands of w each, from band k on: side by side, each in its own order.
    fn pair_sums(self, k: usize, w: usize) -> Pair
        requires { k + w + w ≤ 64 }
        ensures a_value { result.a ≡ band_total (columns self.entry.x.now) self.entry.from self.entry.to k (k + w) }
        ensures b_value { result.b ≡ band_total (columns self.entry.x.now) self.entry.from self.entry.to (k + w) (k + w + w) }
    {
        let mut pair = Pair { a: 0.0, b: 0.0 };
        // A slot is a number here, and a fold over the numbers would carry the pair through a step that is no shorter.
        for t in self.from..self.to {
            let low = Start::of_slot(t, k);
            let high = Start::of_slot(t, k + w);
            let sums = sbr_energy::band_sums(self.x, w, low, low.next(), high, high.next());
            pair.a = pair.a + sums.c + sums.d;
            pair.b = pair.b + sums.e + sums.f;
        }
        pair
    }

    // The same; the commonest widths stand as numbers, so that the loop over the slots has none inside it.
    fn pair_of(self, k: usize, w: usize) -> Pair
        requires { k + w + w ≤ 64 }
        ensures a_value { result.a ≡ band_total (columns self.entry.x.now) self.entry.from self.entry.to k (k + w) }
        ensures b_value { result.b ≡ band_total (columns self.entry.x.now) self.entry.from self.entry.to (k + w) (k + w + w) }
    {
        match w {
            1 => self.pair_sums(k, 1),
            2 => self.pair_sums(k, 2),
            4 => self.pair_sums(k, 4),
            _ => self.pair_sums(k, w),
        }
    }

    // The sum of w bands from band k on, two slots at a time.
    fn band_sum(self, k: usize, w: usize) -> f64
        requires { k + w ≤ 64 }
        ensures { result ≡ band_total (columns self.entry.x.now) self.entry.from self.entry.to k (k + w) }
    {
        let slots = self.to - self.from;
        let mut sum = 0.0;
        // Two slots at a turn, and the odd one at the end by itself: `step_by(2)` would yield the odd one too, as a turn with no second slot.
        for i in 0..slots / 2 {
            let c = Start::of_slot(self.from + 2 * i, k);
            let e = Start::of_slot(self.from + 2 * i + 1, k);
            let sums = sbr_energy::band_sums(self.x, w, c, c.next(), e, e.next());
            sum = sum + sums.c + sums.d + sums.e + sums.f;
        }
        if slots % 2 == 1 {
            let c = Start::of_slot(self.to - 1, k);
            let sums = sbr_energy::band_sums(self.x, w, c, c.next(), c, c.next());
            sum = sum + sums.c + sums.d;
        }
        sum
    }

    // The mean of each band of a table: neighbours of one width side by side, so that a step is one band or two.
    pub fn band_means(self, bands: &[u8], out: &mut [f64])
        requires fit { Bands bands.now }
        requires room { length bands.now ≡ length out.old + 1 }
        ensures { out.new ≡ map (mean_in (columns self.entry.x.now) (record { from = self.entry.from; to = self.entry.to })) (spans bands.now) }
    {
        let slots = self.to - self.from;
        let mut j = 0;
        while j < out.len() {
            let k = bands[j] as usize;
            let w = bands[j + 1] as usize - k;
            let count = (2 * slots * w) as u32;
            if j + 1 < out.len() && bands[j + 2] as usize == k + w + w {
                let sums = self.pair_of(k, w);
                out[j] = sbr_floats::mean(sums.a, count);
                out[j + 1] = sbr_floats::mean(sums.b, count);
                j += 2;
            } else {
                out[j] = sbr_floats::mean(self.band_sum(k, w), count);
                j += 1;
            }
        }
    }
}
