// Quantised energies of envelopes: `quantise_envelopes` of src/sbr_encoder.rs, decided by comparisons of whole numbers in place of a logarithm.
#![tactic(auto)]

ghost use Rattle.std.specs.Prelude.{◌≡◌, true, cond, leb, sum_by, map, ◌+◌, ◌≤◌, ◌<◌, length, Ok};
ghost use Rattle.std.specs.Float.Ieee.{lt};
ghost use Rattle.sbr_grid.specs.Refusals.{result_map};
ghost use Rattle.sbr_floats.specs.Floats.{floor64};
ghost use Rattle.sbr_envelopes.specs.Envelopes.{numbers_after};
ghost use Rattle.sbr_quantise.specs.Quantise.{attains, last_up_to, quantised, quantised_in};
ghost use Rattle.sbr_quantise.specs.Octaves.{parts, Scales};

use sbr_grid::Refusal;

// 2 to the power 52.
const PARTS: u64 = 0x10_0000_0000_0000;

// The exponent field of 64: octaves count from it.
const EXPONENT_64: u64 = 1029;

// The least parts that attain a further value within an octave: 2 to the power 1/2 for the coarse step, 1/4 and 3/4 for the fine one.
const COARSE_EDGES: [u64; 1] = [1865452045155277];

const FINE_EDGES: [u64; 2] = [852113092622102, 3070521937417134];

// The highest value of each step: six bits, seven bits.
const MAX_COARSE: u8 = 63;

const MAX_FINE: u8 = 127;

// An energy as 64 times 2 to the power `octave` times 1 + part / PARTS.
#[derive(Clone, Copy)]
struct Scaled {
    octave: u64,
    part: u64,
}

// An energy above 64 as such a product.
fn scale_of(energy: f64) -> Scaled
    requires { lt floor64 energy ≡ true }
    ensures { Scales energy result.octave result.part × (result.octave < 4096) × (result.part < parts) }
{
    let bits = energy.to_bits();
    Scaled {
        octave: bits / PARTS - EXPONENT_64,
        part: bits % PARTS,
    }
}

// How many of the edges of its octave a part attains.
fn edges_attained(edges: &[u64], part: u64) -> u64
    requires { length edges.now ≤ 2 }
    ensures { result ≡ sum_by (λ edge. cond (leb edge part) 1 0) edges.now }
{
    edges.iter().map(|edge| u64::from(*edge <= part)).sum()
}

// The value of an energy: an octave has one coarse step or two fine ones. A NaN is not above 64.
#[tactic(auto, using(crate::proofs::Edges::attained_few))]
fn quantise(energy: f64, amp_res: bool) -> u8
    ensures { result ≡ quantised amp_res energy }
{
    if energy > 64.0 {
        let scaled = scale_of(energy);
        if amp_res {
            (scaled.octave + edges_attained(&COARSE_EDGES, scaled.part)).min(
                MAX_COARSE as u64,
            ) as u8
        } else {
            (2 * scaled.octave + edges_attained(&FINE_EDGES, scaled.part)).min(
                MAX_FINE as u64,
            ) as u8
        }
    } else {
        0
    }
}

// The values of all energies, from the first byte on.
fn fill_values(energy: &[f64], amp_res: bool, out: &mut [u8])
    requires { length energy.now ≤ length out.old }
    ensures { out.new ≡ numbers_after out.old (Ok (map (quantised amp_res) energy.now)) }
{
    // tried: a zip with `iter_mut`; what it has written so far can't be named in an invariant
    for (i, e) in energy.iter().enumerate() {
        out[i] = quantise(*e, amp_res);
    }
}

// A byte for each energy, in their order; bytes past them are kept. Refused where they have no room.
pub fn quantise_envelopes(energy: &[f64], amp_res: bool, out: &mut [u8]) -> Result<(), Refusal>
    ensures answer { result ≡ result_map (λ v. tt) (quantised_in amp_res energy.now (length out.old)) }
    ensures bytes { out.new ≡ numbers_after out.old (quantised_in amp_res energy.now (length out.old)) }
{
    if out.len() < energy.len() {
        return Err(Refusal::Room);
    }
    fill_values(energy, amp_res, out);
    Ok(())
}
