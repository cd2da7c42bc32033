// Prints what each text that it reads from standard input makes, a line for each. tools/make_cases.py says what a case is.
#![tactic(auto)]

ghost use Rattle.std.specs.Prelude.{◌≤◌};

// Most bytes of a text.
const MAX_SIZE: usize = 65536;

// The length of a text, by the low three bytes of a number, or the most where it is larger.
fn size_of(number: u32) -> usize
    ensures { result ≤ 65536 }
{
    (number as usize % 0x1000000).min(MAX_SIZE)
}

// The stream, hexadecimal, or the line that is refused and why.
fn print_made(rt: &impl Print, text: &[u8]) {
    let mut stream = [0u8; sbr_make::STREAM_SIZE];
    match sbr_make::make_stream(text, &mut stream) {
        Ok(len) => case_io::print_bytes(rt, &stream[..len]),
        Err(refused) => {
            let _ = print!(rt; "line {} ", refused.line);
            case_io::print_refusal(rt, refused.why);
        }
    }
    let _ = println!(rt);
}

// Prints one case.
fn print_case(rt: &(impl Input + Print), size: usize)
    requires { size ≤ 65536 }
{
    let mut text = [0u8; MAX_SIZE];
    case_io::read_full(rt, &mut text[..size]);
    print_made(rt, &text[..size])
}

fn main(rt: HostRuntime) {
    case_io::each_case(&rt, 4, |number| print_case(&rt, size_of(number)));
}
