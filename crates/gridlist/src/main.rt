// Prints the listing of a stream of grids that it reads from standard input.
#![tactic(auto)]

fn main(rt: HostRuntime) {
    list_io::list_input(&rt, sbr_list::MOST_INPUT);
}
