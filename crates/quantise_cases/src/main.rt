// Prints the quantised values of the energies of each case that it reads from standard input, a line for each. tools/quantise_cases.py says what a case is.
#![tactic(auto)]

// The bytes of which a front is lent.
const MAX_BYTES: usize = 16;

// What the bytes are before the call.
const UNTOUCHED: u8 = 0xEE;

// Prints one case: quantises into the front of a range, and prints what the whole range holds after it.
fn print_case(rt: &(impl Input + Print), amp_res: bool) {
    let lent = case_io::next_count(rt, MAX_BYTES);
    let mut energy = [0.0; case_io::MAX_SAMPLES];
    let energy = case_io::read_samples(rt, &mut energy);
    let mut bytes = [UNTOUCHED; MAX_BYTES];
    match sbr_quantise::quantise_envelopes(energy, amp_res, &mut bytes[..lent]) {
        Ok(()) => {
            let _ = print!(rt; "given");
        }
        Err(why) => case_io::print_refusal(rt, why),
    }
    let _ = print!(rt; " bytes ");
    case_io::print_bytes(rt, &bytes);
    let _ = println!(rt);
}

fn main(rt: HostRuntime) {
    case_io::each_case(&rt, 1, |amp_res| print_case(&rt, amp_res != 0));
}
