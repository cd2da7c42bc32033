// The operations on numbers of 64 bits that elections and energies use: src/sbr_encoder.rs.
#![tactic(auto)]

ghost use Rattle.std.specs.Prelude.{◌≡◌, false};
ghost use Rattle.std.specs.Float.Ieee.{is_nan};
ghost use Rattle.sbr_floats.specs.Floats.{max_of, min_of, mean_of, spread_is_high};

// The larger number; a NaN is passed over. Of 0 and -0 it is the first, where std's `max` may give either (tried: its contract can't tell which).
pub fn max(a: f64, b: f64) -> f64
    ensures { result ≡ max_of a b }
{
    if a.is_nan() { b } else { raised(a, b) }
}

// The smaller number; a NaN is passed over. Of 0 and -0 it is the first, where std's `min` may give either (tried: its contract can't tell which).
pub fn min(a: f64, b: f64) -> f64
    ensures { result ≡ min_of a b }
{
    if a.is_nan() { b } else { lowered(a, b) }
}

// The same two where the first is no NaN, as the largest and the smallest so far never are: one test each.
pub fn raised(top: f64, x: f64) -> f64
    requires { is_nan top ≡ false }
    ensures value { result ≡ max_of top x }
    ensures number { is_nan result ≡ false }
{
    if top < x { x } else { top }
}

pub fn lowered(least: f64, x: f64) -> f64
    requires { is_nan least ≡ false }
    ensures value { result ≡ min_of least x }
    ensures number { is_nan result ≡ false }
{
    if x < least { x } else { least }
}

// A sum over a count.
pub fn mean(sum: f64, count: u32) -> f64
    ensures { result ≡ mean_of sum count }
{
    sum / count as f64
}

// The largest number whose fifth power does not exceed 1,000: about 10 to the power 0.6.
const SPREAD: f64 = 3.9810717055349722;

// Whether a quotient of band means counts as spread: its fifth power exceeds 1,000.
pub fn spread_is_high(quotient: f64) -> bool
    ensures { result ≡ spread_is_high quotient }
{
    quotient > SPREAD
}
