// Energies of samples: src/sbr_encoder.rs.
#![tactic(auto)]

ghost use Rattle.std.specs.Prelude.{◌≡◌, ◌+◌, ◌*◌, ◌≤◌, ◌<◌, ◌^◌, length};
ghost use Rattle.sbr_qmf.specs.Qmf.{columns};
ghost use Rattle.sbr_energy.specs.Energy.{sum_from, HasBands, slot_start, next_start, slot_energies};

mod samples;

// Where bands that are summed begin: a column, and a band of it.
#[derive(Clone, Copy)]
pub struct Start {
    pub column: usize,
    pub band: usize,
}

impl Start {
    // Band k of the first column of slot s.
    pub fn of_slot(s: usize, k: usize) -> Self
        requires { s < 2 ^ 32 }
        ensures { result ≡ slot_start s k }
    {
        Start {
            column: 2 * s + 2,
            band: k,
        }
    }

    // The same band of the column behind.
    pub fn next(self) -> Self
        requires { self.column < 2 ^ 32 }
        ensures { result ≡ next_start self }
    {
        Start {
            column: self.column + 1,
            band: self.band,
        }
    }
}

// The sums of four runs of bands.
#[derive(Clone, Copy)]
pub struct Sums {
    pub c: f64,
    pub d: f64,
    pub e: f64,
    pub f: f64,
}

// The sums of w bands from each of four places on, side by side, each in its own order: so they step through the four by one index.
pub fn band_sums(x: &[f64], w: usize, c: Start, d: Start, e: Start, f: Start) -> Sums
    requires in_c { HasBands x.now w c }
    requires in_d { HasBands x.now w d }
    requires in_e { HasBands x.now w e }
    requires in_f { HasBands x.now w f }
    ensures c_value { result.c ≡ sum_from (columns x.now) w c }
    ensures d_value { result.d ≡ sum_from (columns x.now) w d }
    ensures e_value { result.e ≡ sum_from (columns x.now) w e }
    ensures f_value { result.f ≡ sum_from (columns x.now) w f }
{
    let mut sums = Sums {
        c: 0.0,
        d: 0.0,
        e: 0.0,
        f: 0.0,
    };
    for i in 0..w {
        sums.c += samples::energy(x, c.column, c.band + i);
        sums.d += samples::energy(x, d.column, d.band + i);
        sums.e += samples::energy(x, e.column, e.band + i);
        sums.f += samples::energy(x, f.column, f.band + i);
    }
    sums
}

// A quarter of the most slots.
const QUARTER: usize = 6;

// The energies of the first n slots over the bands kl to kh, a slot of each quarter at a time, so that memory is read in four even streams. 23 slots
// are no four quarters: the last one begins a slot early, and that slot is summed twice, to the same number. The places past them are 0.0.
pub fn slot_energies(x: &[f64], n: usize, kl: usize, kh: usize) -> [f64; 24]
    requires { (18 ≤ n) × (n ≤ 24) × (kl ≤ kh) × (kh ≤ 64) × ((2 * n + 2) * 128 ≤ length x.now) }
    ensures { result ≡ slot_energies (columns x.now) kl kh n }
{
    let mut out = [0.0; 24];
    // By number: a turn fills a place of each quarter.
    for s in 0..QUARTER {
        let l = s + n - QUARTER;
        let c = Start::of_slot(s, kl);
        let d = Start::of_slot(s + 6, kl);
        let e = Start::of_slot(s + 12, kl);
        let f = Start::of_slot(l, kl);
        let first = band_sums(x, kh - kl, c, d, e, f);
        let second = band_sums(x, kh - kl, c.next(), d.next(), e.next(), f.next());
        out[s] = 0.0 + first.c + second.c;
        out[s + 6] = 0.0 + first.d + second.d;
        out[s + 12] = 0.0 + first.e + second.e;
        out[l] = 0.0 + first.f + second.f;
    }
    out
}
