// Prints the record for the named borders of each case that it reads from standard input, a line for each. tools/named_cases.py says what a case is.
#![tactic(auto)]

// Most borders, and most resolutions, that a case has.
const MAX_COUNT: usize = 16;

// Fills the front of a list, `count` items or all, with what `next` answers.
fn fill<T: Drop, F: Fn() -> T>(items: &mut [T; MAX_COUNT], count: usize, next: F) -> &[T]
    requires { F.IsAlwaysCallable next }
{
    let items = &mut items[..count.min(MAX_COUNT)];
    for item in &mut *items {
        *item = next();
    }
    items
}

// Prints one case, whose first byte counts the borders.
fn print_case(rt: &(impl Input + Print), num_borders: usize) {
    let mut borders = [0i32; MAX_COUNT];
    let borders = fill(&mut borders, num_borders, || case_io::next_signed(rt));
    let num_flags = usize::from(case_io::next_byte(rt));
    let mut flags = [false; MAX_COUNT];
    let flags = fill(&mut flags, num_flags, || case_io::next_flag(rt));
    let mark = case_io::next_signed(rt);
    let slots = case_io::next_size(rt);
    match sbr_named::grid_for_borders(slots, borders, flags, mark) {
        Ok(grid) => case_io::print_grid(rt, &grid),
        Err(why) => case_io::print_refusal(rt, why),
    }
    let _ = println!(rt);
}

fn main(rt: HostRuntime) {
    case_io::each_case(&rt, 1, |num_borders| print_case(&rt, num_borders as usize));
}
