// Drives runs of a transmitter and of a receiver through send_frame and receive_frame, and checks what is read against what was sent. The
// turns, the readings and the bytes that are changed between them come from standard input; tools/run_cases.py says what they are.
#![tactic(auto)]

use arrayvec::ArrayVec;
use run_lines::Frame;
use sbr_bands::BandTables;
use sbr_grid::SbrGrid;
use sbr_run::Place;

// Most bytes that a run writes into, frames that it counts, and numbers of a frame's rows.
const MAX_BYTES: usize = 2000;

const MAX_FRAMES: usize = 500;

const MAX_ROOM: usize = 400;

// What a step is.
enum Step {
    Turn,
    Reading,
    Change,
}

// By the first byte of a step.
impl From<u8> for Step {
    fn from(kind: u8) -> Step {
        match kind {
            1 => Step::Turn,
            3 => Step::Change,
            _ => Step::Reading,
        }
    }
}

// A run: its band tables, where its transmitter and its receiver stand, the numbers of the frames that were sent, and how many were read.
#[derive(Drop)]
struct Run<'a> {
    tables: BandTables<'a>,
    sender: Place,
    receiver: Place,
    sent: ArrayVec<u64, MAX_FRAMES>,
    read: usize,
}

impl Run<'_> {
    // How many numbers the rows of a frame hold; nothing where the energies are refused.
    fn rows(&self, x: &[f64], grid: SbrGrid, num_time_slots: usize) -> Option<usize> {
        let mut out = [0.0; MAX_ROOM];
        sbr_envelopes::estimate_envelopes(x, self.tables, grid, num_time_slots, &mut out).ok()
    }

    // A frame, how many numbers its rows hold (MAX_ROOM + 1 where the energies are refused), and whether it begins on an attack.
    fn print_frame(&self, rt: &impl Print, frame: &Frame, x: &[f64], num_time_slots: usize) {
        let rows = self.rows(x, frame.grid, num_time_slots);
        frame.print(rt);
        let _ = print!(rt; " rows {}", rows.unwrap_or(MAX_ROOM + 1));
        frame.print_begins(rt)
    }

    // Reads the samples of a turn, makes it and prints it; keeps the number of the frame that it sends, which begins on an attack where the frame
    // before it has left the flag set.
    fn turn(&mut self, rt: &(impl Input + Print), bytes: &mut [u8]) {
        let num_time_slots = case_io::next_size(rt);
        let variable = case_io::next_flag(rt);
        let mut x = [0.0; case_io::MAX_SAMPLES];
        let samples = case_io::read_samples(rt, &mut x);
        let start = self.sender;
        let answer = sbr_run::send_frame(
            samples,
            self.tables,
            variable,
            num_time_slots,
            bytes,
            start,
        );
        self.sender = start.after_turn(&answer);
        match answer {
            Ok(sending) => {
                let frame = Frame {
                    grid: sending.grid,
                    time: sending.time,
                    begins_on_attack: start.carried.attack,
                };
                let _ = print!(rt; "sent ");
                self.print_frame(rt, &frame, &x, num_time_slots);
                let _ = print!(rt; " transient {}", u8::from(sending.transient));
                run_lines::print_place(rt, self.sender);
                let _ = self.sent.try_push(frame.number());
            }
            Err(why) => {
                let _ = print!(rt; "turn ");
                case_io::print_refusal(rt, why);
            }
        }
        let _ = println!(rt);
    }

    // Counts a frame that is read, and prints whether it is the one that was sent; nothing where no more are counted.
    fn compare(&mut self, rt: &impl Print, frame: &Frame) {
        if MAX_FRAMES <= self.read {
            return;
        }
        let sent = self.sent.as_slice().get(self.read).copied();
        self.read += 1;
        if sent == Some(frame.number()) {
            let _ = print!(rt; " as sent");
        } else {
            let _ = print!(rt; " NOT AS SENT");
        }
    }

    // Makes a reading and prints it, and whether it gives the frame that was sent.
    fn reading(&mut self, rt: &(impl Input + Print), bytes: &[u8]) {
        let num_time_slots = case_io::next_size(rt);
        let answer = sbr_run::receive_frame(bytes, num_time_slots, self.receiver);
        self.receiver = self.receiver.after_reading(&answer);
        match answer {
            Ok(read) => {
                let frame = Frame::from(read);
                let silence = [0.0; case_io::MAX_SAMPLES];
                let _ = print!(rt; "read ");
                self.print_frame(rt, &frame, &silence, num_time_slots);
                run_lines::print_place(rt, self.receiver);
                self.compare(rt, &frame);
            }
            Err(why) => {
                let _ = print!(rt; "reading ");
                case_io::print_refusal(rt, why);
            }
        }
        let _ = println!(rt);
    }

    // A turn, a reading or a changed byte, and its line.
    fn step(&mut self, rt: &(impl Input + Print), bytes: &mut [u8; MAX_BYTES]) {
        let step = Step::from(case_io::next_byte(rt));
        let at = case_io::next_count(rt, MAX_BYTES);
        match step {
            Step::Turn => self.turn(rt, &mut bytes[..at]),
            Step::Reading => self.reading(rt, &bytes[..at]),
            Step::Change => change(rt, bytes, at),
        }
    }
}

// Reads a byte, and puts it into the range.
fn change(rt: &(impl Input + Print), bytes: &mut [u8; MAX_BYTES], at: usize) {
    let byte = case_io::next_byte(rt);
    if at < MAX_BYTES {
        bytes[at] = byte;
    }
    let _ = println!(rt; "byte changed");
}

// Makes the steps of a run, and prints how many frames it sent and read, and every byte of its range.
fn print_run(rt: &(impl Input + Print), count: u32) {
    let start = run_lines::next_place(rt, false);
    let mut high = [0u8; case_io::MAX_TABLE];
    let mut low = [0u8; case_io::MAX_TABLE];
    let mut run = Run {
        tables: BandTables {
            high: case_io::read_table(rt, &mut high),
            low: case_io::read_table(rt, &mut low),
        },
        sender: start,
        receiver: start,
        sent: ArrayVec::new(),
        read: 0,
    };
    let mut bytes = [case_io::next_byte(rt); MAX_BYTES];
    for _ in 0..count {
        run.step(rt, &mut bytes);
    }
    let _ = print!(rt; "run: {} sent, {} read, bytes ", run.sent.len(), run.read);
    case_io::print_bytes(rt, &bytes);
    let _ = println!(rt);
}

fn main(rt: HostRuntime) {
    case_io::each_case(&rt, 2, |count| print_run(&rt, count));
}
