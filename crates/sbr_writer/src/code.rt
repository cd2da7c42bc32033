// The bits of a record, gathered into one number.
ghost use Rattle.std.specs.Prelude.{◌≡◌, true, false, ◌++◌, ◌+◌, ◌*◌, ◌^◌, ◌≤◌, ◌<◌, length, reverse};
ghost use Rattle.bits.specs.Bits.{bits_of};
ghost use Rattle.sbr_grid.specs.Grid.{first, view_of};
ghost use Rattle.sbr_writer.specs.Syntax.{env_code, twos, grid_bits};
ghost use Rattle.sbr_writer.specs.Write.{small, fields_fit_of, class_fits, writable};
ghost use Rattle.sbr_writer.specs.Code.{Behind, window_for, Space, joined_twos, joined_flags, side_bits, sides_bits, before_flags, sent_flags};

use bits::Window;
use sbr_grid::{FrameClass, SbrGrid};

// The bits with a field of `width` bits behind them.
fn push(bits: Window, value: u32, width: u32) -> Window
    requires { Space bits width × (value < 2 ^ width) }
    ensures { Behind bits (bits_of width value) result }
{
    Window {
        value: (bits.value << width) + value,
        width: bits.width + width,
    }
}

// Numbers of two bits each as one number, the first the highest.
fn joined_twos(numbers: &[u8]) -> u32
    ensures { result ≡ joined_twos numbers.now }
{
    numbers.iter().fold(0, |v, r| v << 2 | *r as u32)
}

// Flags as one number, the first the highest.
fn joined_flags(flags: &[bool]) -> u32
    ensures { result ≡ joined_flags flags.now }
{
    flags.iter().fold(0, |v, f| v << 1 | u32::from(*f))
}

// The same, the last the highest: one function for both would take an iterator of either end, for a line each.
fn joined_back(flags: &[bool]) -> u32
    ensures { result ≡ joined_flags (reverse flags.now) }
{
    flags.iter().rev().fold(0, |v, f| v << 1 | u32::from(*f))
}

// The bits with numbers behind them, two bits each.
fn push_twos(bits: Window, numbers: &[u8]) -> Window
    requires space { Space bits (2 * length numbers.now) }
    requires small { small numbers.now ≡ true }
    ensures { Behind bits (twos numbers.now) result }
{
    push(bits, joined_twos(numbers), 2 * numbers.len() as u32)
}

// The number of a FixFix envelope count: its logarithm.
#[tactic(auto, using(crate::proofs::Gather::env_code_low, crate::proofs::Gather::env_code_two, crate::proofs::Gather::env_code_more))]
fn env_code(num_env: usize) -> u32
    ensures { result ≡ env_code num_env }
{
    match num_env {
        0 | 1 => 0,
        2 => 1,
        _ => 2,
    }
}

// Border byte, count, lengths and pointer of the one side that FixVar and VarFix have.
fn one_side(bits: Window, bord: u8, rel: &[u8], pointer: u8) -> Window
    requires space { Space bits 13 }
    requires bord { bord ≤ 3 }
    requires few { length rel.now ≤ 3 }
    requires small { small rel.now ≡ true }
    requires pointed { pointer ≤ length rel.now + 1 }
    ensures { Behind bits (side_bits bord rel.now pointer) result }
{
    let counted = push_twos(bits, &[bord, rel.len() as u8]);
    let lengths = push_twos(counted, rel);
    push(lengths, pointer as u32, sbr_grid::ptr_bits(rel.len() + 1))
}

// Border bytes, counts, lengths and pointer of VarVar.
#[tactic(auto, using(crate::proofs::Body::varvar_told))]
fn two_sides(bits: Window, g: &SbrGrid) -> Window
    requires space { Space bits 19 }
    requires fields { fields_fit_of (view_of g.now) ≡ true }
    requires counts { class_fits FrameClass.VarVar (view_of g.now) ≡ true }
    ensures { Behind bits (sides_bits (view_of g.now)) result }
{
    let counts = [
        g.var_bord_0,
        g.var_bord_1,
        g.num_rel_0 as u8,
        g.num_rel_1 as u8,
    ];
    let counted = push_twos(bits, &counts);
    let leading = push_twos(counted, g.leading());
    let lengths = push_twos(leading, g.trailing());
    push(lengths, g.pointer as u32, sbr_grid::ptr_bits(g.num_env))
}

// What follows the class, up to the resolutions.
#[tactic(auto, using(crate::proofs::Body::fixvar_told, crate::proofs::Body::varfix_told))]
fn push_counts(bits: Window, g: &SbrGrid) -> Window
    requires space { Space bits 19 }
    requires writable { writable (view_of g.now) ≡ true }
    ensures { Behind bits (before_flags g.now.frame_class (view_of g.now)) result }
{
    match g.frame_class {
        FrameClass::FixFix => push(bits, env_code(g.num_env), 2),
        FrameClass::FixVar => one_side(bits, g.var_bord_1, g.trailing(), g.pointer),
        FrameClass::VarFix => one_side(bits, g.var_bord_0, g.leading(), g.pointer),
        FrameClass::VarVar => two_sides(bits, g),
    }
}

// The resolutions, as the class sends them: FixFix the first alone, FixVar the last one first.
fn push_flags(bits: Window, g: &SbrGrid) -> Window
    requires space { Space bits g.now.num_env }
    requires some { 0 < g.now.num_env }
    requires few { g.now.num_env ≤ 5 }
    ensures { Behind bits (sent_flags g.now.frame_class (first false g.now.num_env g.now.freq_res)) result }
{
    let count = g.num_env as u32;
    match g.frame_class {
        FrameClass::FixFix => push(bits, u32::from(g.freq_res[0]), 1),
        FrameClass::FixVar => push(bits, joined_back(g.resolutions()), count),
        FrameClass::VarFix | FrameClass::VarVar => push(bits, joined_flags(g.resolutions()), count),
    }
}

// All bits of a writable record. A type that held that would be opened at once by each of the three that ask it: this, `push_counts` and sbr_make's
// `add_frame`.
pub fn grid_bits(g: &SbrGrid) -> Window
    requires { writable (view_of g.now) ≡ true }
    ensures { result ≡ window_for (grid_bits (view_of g.now)) }
{
    let class = push(Window { value: 0, width: 0 }, u32::from(g.frame_class), 2);
    let counts = push_counts(class, g);
    push_flags(counts, g)
}
