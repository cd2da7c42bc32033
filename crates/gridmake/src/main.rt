// Makes a stream of grids out of lines of text that it reads from standard input. Where a line is refused, standard error has its number and why, and
// standard output nothing.
#![tactic(auto)]

// Most bytes of a text that are read.
const MAX_SIZE: usize = 65536;

// What can't be written is passed over.
fn main(rt: HostRuntime) {
    let mut text = [0u8; MAX_SIZE];
    let text = case_io::read_full(&rt, &mut text);
    let mut stream = [0u8; sbr_make::STREAM_SIZE];
    let _ = match sbr_make::make_stream(text, &mut stream) {
        Ok(len) => rt.write_all(&stream[..len]),
        Err(refused) => {
            eprintln!(rt; "line {} refused {}", refused.line, u32::from(refused.why))
        }
    };
}
