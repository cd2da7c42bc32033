// Prints the listing of each case that it reads from standard input, and a line with a dot after each. A case is two bytes of
// length, low byte first, and that many bytes.
#![tactic(auto)]

// The largest number of two bytes.
const MAX_SIZE: usize = 65535;

// Reads past the bytes of a case that its listing did not ask for.
fn skip(rt: &impl Input, count: usize) {
    let mut bytes = [0u8; MAX_SIZE];
    case_io::read_full(rt, &mut bytes[..count.min(MAX_SIZE)]);
}

// Prints one case.
fn print_case(rt: &(impl Input + Print), size: usize) {
    let got = list_io::list_input(rt, size);
    let _ = println!(rt; ".");
    skip(rt, size - got);
}

fn main(rt: HostRuntime) {
    case_io::each_case(&rt, 2, |size| print_case(&rt, size as usize));
}
