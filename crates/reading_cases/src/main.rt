// Prints what readings give and leave, a line for each. The bytes and the readings come from standard input; tools/reading_cases.py says what a case is.
#![tactic(auto)]

use run_lines::Frame;
use sbr_run::Place;

// Reads a reading, makes it and prints it; answers where it leaves the receiver.
fn print_reading(rt: &(impl Input + Print), bytes: &[u8], from: Place) -> Place {
    let num_time_slots = case_io::next_size(rt);
    let lent = case_io::next_count(rt, bytes.len());
    let answer = sbr_run::receive_frame(&bytes[..lent], num_time_slots, from);
    let place = from.after_reading(&answer);
    match answer {
        Ok(read) => {
            let frame = Frame::from(read);
            let _ = print!(rt; "read ");
            frame.print(rt);
            frame.print_begins(rt);
        }
        Err(why) => {
            let _ = print!(rt; "reading ");
            case_io::print_refusal(rt, why);
        }
    }
    run_lines::print_place(rt, place);
    let _ = println!(rt);
    place
}

// Prints the readings of one case, each from where the last one left the receiver.
fn print_case(rt: &(impl Input + Print), count: u32) {
    let mut place = run_lines::next_place(rt, true);
    let mut bytes = [0u8; case_io::MAX_TABLE];
    let bytes = case_io::read_table(rt, &mut bytes);
    for _ in 0..count {
        place = print_reading(rt, bytes, place);
    }
    let _ = println!(rt; ".");
}

fn main(rt: HostRuntime) {
    case_io::each_case(&rt, 1, |count| print_case(&rt, count));
}
