// What the call of C for quantised energies does. sbr_c exports it.
#![tactic(auto)]

ghost use Rattle.std.specs.Prelude.{length};
ghost use Rattle.c_values.specs.Given.{Leaves};
ghost use Rattle.c_quantise.specs.Quantise.{quantise_call, quantise_out};

use sbr_grid::Refusal;

// Refused by 5 for a switch above 1, then as `sbr_quantise::quantise_envelopes`.
pub fn quantise_envelopes(energy: &[f64], amp_res: u32, out: &mut [u8]) -> Result<(), Refusal>
    ensures { Leaves
        (quantise_call energy.now amp_res (length out.old))
        (quantise_out out.old) out.old
        result out.new }
{
    let amp_res = c_values::form::switch(amp_res)?;
    sbr_quantise::quantise_envelopes(energy, amp_res, out)
}
