// What the programs that replay cases read from standard input and print: numbers, tables, samples, records. Numbers have their low byte
// first; past the end of the input every byte is 0.
#![tactic(auto)]

ghost use Rattle.std.specs.Prelude.{◌≡◌, ◌≤◌, length, not, eqb};
ghost use Rattle.std.specs.Float.Ieee.{of_bits};
ghost use Rattle.std.specs.Float.{binary64};
ghost use Rattle.case_io.specs.Layout.{bytes_grid};

use sbr_grid::{FrameClass, Refusal, SbrGrid, TimeGrid};
use std::fmt::Display;
use std::io::Read;

// Most entries of a table, and most samples, that a case hands in.
pub const MAX_TABLE: usize = 255;

pub const MAX_SAMPLES: usize = 6500;

// Bytes of a record.
const RECORD_SIZE: usize = 21;

// Reads what is there, at least a byte where the input has not ended; 0 past its end, and where it can't be read.
fn read_some(rt: &impl Input, buf: &mut [u8]) -> usize
    ensures { result ≤ length buf.old }
{
    rt.reader().read(buf).unwrap_or(0)
}

// Reads from the input until the range is full, what was read is enough or the input ends; answers what was read. An input that can't be read any
// further counts as one that ends.
pub fn read_until<'a, F: Fn(&[u8]) -> bool>(
    rt: &impl Input,
    buf: &'a mut [u8],
    is_enough: F,
) -> &'a [u8]
    requires { F.IsAlwaysCallable is_enough }
    ensures { length result.now ≤ length buf.old }
{
    // No chain: how far each step goes is what the input gives.
    let mut done = 0;
    while done < buf.len() && !is_enough(&buf[..done]) {
        match read_some(rt, &mut buf[done..]) {
            0 => break,
            more => done += more,
        }
    }
    &buf[..done]
}

// Reads from the input until the range is full or the input ends; answers what was read.
pub fn read_full<'a>(rt: &impl Input, buf: &'a mut [u8]) -> &'a [u8]
    ensures { length result.now ≤ length buf.old }
{
    read_until(rt, buf, |_| false)
}

// The next N bytes of the input; 0 past its end.
pub fn next_bytes<R: Input, const N: usize>(rt: &R) -> [u8; N] {
    let mut bytes = [0u8; N];
    read_full(rt, &mut bytes);
    bytes
}

// A byte, a number of eight bytes, a number of two or `most` where it is larger, a signed number of four, and a flag, each 0 past the end.
pub fn next_byte(rt: &impl Input) -> u8 {
    u8::from_le_bytes(next_bytes(rt))
}

pub fn next_size(rt: &impl Input) -> usize {
    usize::from_le_bytes(next_bytes(rt))
}

pub fn next_count(rt: &impl Input, most: usize) -> usize
    ensures { result ≤ most }
{
    usize::from(u16::from_le_bytes(next_bytes(rt))).min(most)
}

pub fn next_signed(rt: &impl Input) -> i32 {
    i32::from_le_bytes(next_bytes(rt))
}

pub fn next_flag(rt: &impl Input) -> bool {
    next_byte(rt) != 0
}

// The double of a bit pattern. Those above infinity's, less the sign, are NaN's, which `from_bits` does not take.
#[tactic(auto, using(std::proofs::lemmas::Float::not_nan_f64_bits, crate::proofs::Nans::large_nan))]
fn double(bits: u64) -> f64
    ensures { result ≡ of_bits binary64 bits }
{
    if bits % 0x8000000000000000 <= 0x7FF0000000000000 {
        f64::from_bits(bits)
    } else {
        f64::NAN
    }
}

// Fills the start of a table, and answers the entries that it has; those past the end of the input are 0.
pub fn read_table<'a>(rt: &impl Input, table: &'a mut [u8]) -> &'a [u8]
    requires { 255 ≤ length table.old }
    ensures { length result.now ≤ 255 }
{
    let count = usize::from(next_byte(rt));
    table[..count].fill(0);
    read_full(rt, &mut table[..count]);
    &table[..count]
}

// Sets the samples that are listed, and answers those that are handed in.
pub fn read_samples<'a>(rt: &impl Input, x: &'a mut [f64]) -> &'a [f64]
    requires { 6500 ≤ length x.old }
    ensures { length result.now ≤ 6500 }
{
    let count = next_count(rt, MAX_SAMPLES);
    for _ in 0..next_count(rt, MAX_SAMPLES) {
        let i = next_count(rt, MAX_SAMPLES - 1);
        x[i] = double(u64::from_le_bytes(next_bytes(rt)));
    }
    &x[..count]
}

// The record of 21 bytes: class, counts of envelopes and noise floors, 5 resolutions, border bytes, each list's count and 4 lengths, pointer.
fn grid_of(b: [u8; RECORD_SIZE]) -> SbrGrid
    ensures { result ≡ bytes_grid b }
{
    SbrGrid {
        frame_class: FrameClass::from_bits(u32::from(b[0])),
        num_env: usize::from(b[1]),
        num_noise: usize::from(b[2]),
        freq_res: [b[3] != 0, b[4] != 0, b[5] != 0, b[6] != 0, b[7] != 0],
        var_bord_0: b[8],
        var_bord_1: b[9],
        rel_bord_0: [b[11], b[12], b[13], b[14]],
        num_rel_0: usize::from(b[10]),
        rel_bord_1: [b[16], b[17], b[18], b[19]],
        num_rel_1: usize::from(b[15]),
        pointer: b[20],
        amp_res_override: false,
    }
}

pub fn read_grid(rt: &impl Input) -> SbrGrid {
    grid_of(next_bytes(rt))
}

// Takes each case of the input, handing on the number that its first `size` bytes hold, until the input ends. Nothing says that an input ends, so the
// cases count up to a number that no run reaches. What can't be written is passed over.
pub fn each_case<F: Fn(u32)>(rt: &impl Input, size: usize, print_case: F)
    requires few { size ≤ 4 }
    requires any { F.IsAlwaysCallable print_case }
{
    for _ in 0..u64::MAX {
        let mut head = [0u8; 4];
        let is_whole = read_full(rt, &mut head[..size]).len() == size;
        if !is_whole {
            break;
        }
        print_case(u32::from_le_bytes(head));
    }
}

// A letter for each resolution.
pub fn print_resolutions(rt: &impl Print, resolutions: &[bool]) {
    for high in resolutions {
        let _ = print!(rt; "{}", if *high { 'H' } else { 'L' });
    }
}

// Numbers, each after a blank.
fn print_numbers<T: Display>(rt: &impl Print, numbers: &[T]) {
    for number in numbers {
        let _ = print!(rt; " {number}");
    }
}

// Class, resolutions, border bytes, lengths of both sides, pointer, noise floors and override. Of a count that is too large the whole list is printed.
pub fn print_grid(rt: &impl Print, grid: &SbrGrid) {
    let _ = print!(rt; "{} ", grid.frame_class);
    print_resolutions(rt, &grid.freq_res[..grid.num_env.min(SbrGrid::MAX_NUM_ENV)]);
    let _ = print!(rt; " b0 {} b1 {} rel0", grid.var_bord_0, grid.var_bord_1);
    print_numbers(
        rt,
        &grid.rel_bord_0[..grid.num_rel_0.min(SbrGrid::MAX_REL_BORD)],
    );
    let _ = print!(rt; " rel1");
    print_numbers(
        rt,
        &grid.rel_bord_1[..grid.num_rel_1.min(SbrGrid::MAX_REL_BORD)],
    );
    let _ = print!(rt;
        " p {} noise {} amp {}",
        grid.pointer,
        grid.num_noise,
        u8::from(grid.amp_res_override)
    );
}

pub fn print_refusal(rt: &impl Print, why: Refusal) {
    let _ = print!(rt; "refused {}", u32::from(why));
}

// The bits of a double; a NaN has none of its own.
pub fn print_double(rt: &impl Print, x: f64) {
    if x.is_nan() {
        let _ = print!(rt; " nan");
        return;
    }
    let _ = print!(rt; " {:016x}", x.to_bits());
}

// A time grid: borders, noise borders, mark.
pub fn print_times(rt: &impl Print, time: &TimeGrid) {
    print_numbers(rt, &time.t_e[..=time.num_env.min(SbrGrid::MAX_NUM_ENV)]);
    let _ = print!(rt; " /");
    print_numbers(
        rt,
        &time.t_q[..=time.num_noise.min(TimeGrid::MAX_NOISE_BORDERS - 1)],
    );
    let _ = print!(rt; " / {}", time.l_a);
}

// Every byte of a range.
pub fn print_bytes(rt: &impl Print, bytes: &[u8]) {
    for byte in bytes {
        let _ = print!(rt; "{byte:02x}");
    }
}
