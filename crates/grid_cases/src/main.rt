// Prints the time grid or the bits of each record that it reads from standard input, a line for each. tools/grid_cases.py says what a case is.
#![tactic(auto)]

use sbr_grid::SbrGrid;

// The bytes of the range that is written into.
const MAX_BYTES: usize = 12;

// What a case asks of its record.
enum Asked {
    TimeGrid,
    Bits,
}

// By the first byte of a case.
impl From<u32> for Asked {
    fn from(kind: u32) -> Asked {
        match kind {
            1 => Asked::TimeGrid,
            _ => Asked::Bits,
        }
    }
}

// Reads the slot count, and prints the time grid.
fn print_time_grid(rt: &(impl Input + Print), grid: SbrGrid) {
    let num_time_slots = case_io::next_size(rt);
    match sbr_time_grid::derive_time_grid(grid, num_time_slots) {
        Ok(time) => {
            let _ = print!(rt; "time");
            case_io::print_times(rt, &time)
        }
        Err(why) => case_io::print_refusal(rt, why),
    }
}

// Reads what is lent, the byte that fills it, and where to write; prints the write, and what the whole range holds after it.
fn print_bits(rt: &(impl Input + Print), grid: SbrGrid) {
    let lent = case_io::next_count(rt, MAX_BYTES);
    let mut bytes = [case_io::next_byte(rt); MAX_BYTES];
    let at = case_io::next_size(rt);
    match sbr_writer::write_grid(&mut bytes[..lent], at, grid) {
        Ok(position) => {
            let _ = print!(rt; "written to {position}");
        }
        Err(why) => case_io::print_refusal(rt, why),
    }
    let _ = print!(rt; " bytes ");
    case_io::print_bytes(rt, &bytes)
}

// Prints one case.
fn print_case(rt: &(impl Input + Print), asked: Asked) {
    let grid = case_io::read_grid(rt);
    match asked {
        Asked::TimeGrid => print_time_grid(rt, grid),
        Asked::Bits => print_bits(rt, grid),
    }
    let _ = println!(rt);
}

fn main(rt: HostRuntime) {
    case_io::each_case(&rt, 1, |kind| print_case(&rt, Asked::from(kind)));
}
