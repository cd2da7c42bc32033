// Prints the answer of each case that it reads from standard input, a line for each. tools/election_cases.py says what a case is.
#![tactic(auto)]

use sbr_bands::BandTables;

// Most numbers for the rows.
const MAX_ROOM: usize = 400;

// What the numbers for the rows are before the call.
const UNTOUCHED: f64 = -1.5;

// What a case asks for.
enum Asked {
    Election,
    Energies,
}

// By the first byte of a case.
impl From<u32> for Asked {
    fn from(kind: u32) -> Asked {
        match kind {
            1 => Asked::Election,
            _ => Asked::Energies,
        }
    }
}

// What both kinds of case hand in: samples, band tables and the slot count.
#[derive(Clone, Copy)]
struct Frame<'a> {
    x: &'a [f64],
    tables: BandTables<'a>,
    num_time_slots: usize,
}

// The numbers up to place `at`, and whether those behind it are as they were.
fn print_rows(rt: &impl Print, out: &[f64; MAX_ROOM], at: usize) {
    for x in out.iter().take(at) {
        case_io::print_double(rt, *x);
    }
    if out.iter().skip(at).all(|x| *x == UNTOUCHED) {
        let _ = print!(rt; " kept");
    } else {
        let _ = print!(rt; " touched");
    }
}

impl Frame<'_> {
    // Reads the rest of an election's case, and prints its answer.
    fn print_election(&self, rt: &(impl Input + Print)) {
        let border = case_io::next_signed(rt);
        let variable = case_io::next_flag(rt);
        match sbr_encoder::elect_grid(self.x, self.tables, border, variable, self.num_time_slots) {
            Ok(election) => {
                case_io::print_grid(rt, &election.grid);
                let _ = print!(rt; " transient {}", u8::from(election.transient));
            }
            Err(why) => case_io::print_refusal(rt, why),
        }
    }

    // Reads the rest of a case of energies, and prints its answer.
    fn print_energies(&self, rt: &(impl Input + Print)) {
        let grid = case_io::read_grid(rt);
        let room = case_io::next_count(rt, MAX_ROOM);
        let mut out = [UNTOUCHED; MAX_ROOM];
        match sbr_envelopes::estimate_envelopes(
            self.x,
            self.tables,
            grid,
            self.num_time_slots,
            &mut out[..room],
        ) {
            Ok(count) => {
                let _ = print!(rt; "{count}");
                print_rows(rt, &out, count)
            }
            Err(why) => {
                case_io::print_refusal(rt, why);
                print_rows(rt, &out, 0)
            }
        }
    }
}

// Prints one case.
fn print_case(rt: &(impl Input + Print), asked: Asked) {
    let num_time_slots = case_io::next_size(rt);
    let mut high = [0u8; case_io::MAX_TABLE];
    let mut low = [0u8; case_io::MAX_TABLE];
    let mut x = [0.0; case_io::MAX_SAMPLES];
    let tables = BandTables {
        high: case_io::read_table(rt, &mut high),
        low: case_io::read_table(rt, &mut low),
    };
    let frame = Frame {
        x: case_io::read_samples(rt, &mut x),
        tables,
        num_time_slots,
    };
    match asked {
        Asked::Election => frame.print_election(rt),
        Asked::Energies => frame.print_energies(rt),
    }
    let _ = println!(rt);
}

fn main(rt: HostRuntime) {
    case_io::each_case(&rt, 1, |kind| print_case(&rt, Asked::from(kind)));
}
