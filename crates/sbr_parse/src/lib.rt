// sbr_grid() read: the fields taken from the front of some bits, as `SbrGrid::parse` of src/sbr_grid.rs does. A window's bits are the low bits
// of its number: bits above them are those that were taken before.
#![tactic(auto)]

ghost use Rattle.std.specs.Prelude.{◌≡◌, true, false, ◌+◌, ◌*◌, ◌/◌, ◌%◌, ◌^◌, ◌≤◌, ◌<◌};
ghost use Rattle.bits.specs.Bits.{bit_at, bits_of};
ghost use Rattle.sbr_grid.specs.Refusals.{result_map};
ghost use Rattle.sbr_grid.specs.Grid.{by_class, first};
ghost use Rattle.sbr_parse.specs.Syntax.{ordered, behind_counts, sbr_grid, fix_fix, fix_var, var_fix, var_var};
ghost use Rattle.sbr_parse.specs.Parse.{parsed, taken, window_bits, twos_of};

use bits::Window;
use sbr_grid::{FrameClass, Refusal, SbrGrid};

// A record, with the number of bits that are left.
#[derive(Clone, Copy)]
pub struct Parsed {
    pub grid: SbrGrid,
    pub left: u32,
}

// What FixVar, VarFix and VarVar send before the relative lengths: a border byte and a count for each side, 0 for a side that the class does not have.
#[derive(Clone, Copy)]
struct Head {
    frame_class: FrameClass,
    var_bord_0: u8,
    var_bord_1: u8,
    num_rel_0: usize,
    num_rel_1: usize,
}

// A number without its k lowest bits.
#[tactic(auto, using(crate::proofs::Taken::none_above))]
fn above(v: u32, k: u32) -> u32
    ensures { result ≡ v / 2 ^ k }
{
    v.checked_shr(k).unwrap_or(0)
}

// The first n bits as a number, and the bits behind them.
fn take(bits: Window, n: u32) -> Result<(u32, Window), Refusal>
    requires { n < 32 }
    ensures { result ≡ taken n bits }
{
    if bits.width < n {
        return Err(Refusal::BitsEnd);
    }
    let value = bits.value;
    let width = bits.width - n;
    Ok((above(value, width) % (1 << n), Window { value, width }))
}

// The bit of a number above its k lowest.
#[tactic(auto, unfolding(bits::specs::Bits::bit_at))]
fn bit(v: u32, k: u32) -> bool
    ensures { result ≡ bit_at v k }
{
    above(v, k) % 2 == 1
}

// The two bits of a number above its k lowest.
fn two_bits(v: u32, k: u32) -> u8
    ensures { result ≡ v / 2 ^ k % 4 }
{
    (above(v, k) % 4) as u8
}

// The last four numbers of two bits each.
#[tactic(auto, unfolding(crate::specs::Parse::twos_of))]
fn four_twos(v: u32) -> [u8; SbrGrid::MAX_REL_BORD]
    ensures { result ≡ twos_of 4 v }
{
    std::array::from_fn(|i| two_bits(v, 6 - 2 * i as u32))
}

// The last five bits.
#[tactic(auto, unfolding(bits::specs::Bits::bits_of))]
fn five_bits(v: u32) -> [bool; SbrGrid::MAX_NUM_ENV]
    ensures { result ≡ bits_of 5 v }
{
    std::array::from_fn(|i| bit(v, 4 - i as u32))
}

// Relative lengths of two bits each; the places behind them are 0.
#[tactic(auto, using(crate::proofs::ParseLists::lengths_padded))]
fn lengths(v: u32, count: usize) -> [u8; SbrGrid::MAX_REL_BORD]
    requires { (count ≤ 4) × (v < 2 ^ (2 * count)) }
    ensures { result ≡ first 0 4 (twos_of count v) }
{
    four_twos(v << (2 * (SbrGrid::MAX_REL_BORD - count)))
}

// The resolutions in the order of the envelopes: FixVar sends the last one first. The places behind them are false.
#[tactic(auto, using(crate::proofs::ParseLists::flags_last, crate::proofs::ParseLists::flags_first))]
fn resolutions(class: FrameClass, v: u32, count: usize) -> [bool; SbrGrid::MAX_NUM_ENV]
    requires { (count ≤ 5) × (v < 2 ^ count) }
    ensures { result ≡ first false 5 (ordered class (bits_of count v)) }
{
    match class {
        FrameClass::FixVar => {
            let mut flags = five_bits(v);
            flags.reverse();
            flags
        }
        _ => five_bits(v << (SbrGrid::MAX_NUM_ENV - count)),
    }
}

// The fields of FixFix: the count of envelopes as a power of 2, and one resolution for all.
fn fix_fix(body: Window) -> Result<Parsed, Refusal>
    ensures { result ≡ result_map parsed (fix_fix (window_bits body)) }
{
    let (code, behind) = take(body, 2)?;
    let num_env: usize = 1 << code;
    if SbrGrid::MAX_NUM_ENV < num_env {
        return Err(Refusal::EnvelopeCount);
    }
    let (high, rest) = take(behind, 1)?;
    Ok(Parsed {
        grid: SbrGrid {
            num_env,
            num_noise: sbr_grid::noise_of(num_env),
            freq_res: sbr_grid::same_resolutions(num_env, high == 1),
            amp_res_override: sbr_grid::is_overridden(FrameClass::FixFix, num_env),
            ..SbrGrid::empty()
        },
        left: rest.width,
    })
}

// The fields behind the counts of relative lengths, for each class that sends such counts: `head` has what stands up to there.
// Inlined, since FixVar and VarFix have no lengths on one side: their copies leave out that step.
#[inline(always)]
fn behind_counts(head: Head, body: Window) -> Result<Parsed, Refusal>
    requires count { head.num_rel_0 + head.num_rel_1 + 1 ≤ 5 }
    requires counted { by_class head.frame_class true false false false ≡ false }
    ensures { result ≡ result_map parsed
        (behind_counts head.frame_class head.var_bord_0 head.var_bord_1 head.num_rel_0 head.num_rel_1 (window_bits body)) }
{
    let num_env = head.num_rel_0 + head.num_rel_1 + 1;
    let (leading, behind_leading) = take(body, 2 * head.num_rel_0 as u32)?;
    let (trailing, behind_trailing) = take(behind_leading, 2 * head.num_rel_1 as u32)?;
    let (pointer, behind_pointer) = take(behind_trailing, sbr_grid::ptr_bits(num_env))?;
    let (flags, rest) = take(behind_pointer, num_env as u32)?;
    Ok(Parsed {
        grid: SbrGrid {
            frame_class: head.frame_class,
            num_env,
            num_noise: sbr_grid::noise_of(num_env),
            freq_res: resolutions(head.frame_class, flags, num_env),
            var_bord_0: head.var_bord_0,
            var_bord_1: head.var_bord_1,
            rel_bord_0: lengths(leading, head.num_rel_0),
            num_rel_0: head.num_rel_0,
            rel_bord_1: lengths(trailing, head.num_rel_1),
            num_rel_1: head.num_rel_1,
            pointer: pointer as u8,
            amp_res_override: false,
        },
        left: rest.width,
    })
}

// The fields of FixVar and VarFix: the border byte and the count of the one side that they have, then what stands behind the counts.
fn one_side(class: FrameClass, body: Window) -> Result<Parsed, Refusal>
    requires { (by_class class false true true false ≡ true) }
    ensures { result ≡ result_map parsed (by_class class fix_fix fix_var var_fix var_var (window_bits body)) }
{
    let (side, rest) = take(body, 4)?;
    let bord = (side / 4) as u8;
    let count = (side % 4) as usize;
    match class {
        FrameClass::FixVar => {
            let head = Head {
                frame_class: class,
                var_bord_0: 0,
                var_bord_1: bord,
                num_rel_0: 0,
                num_rel_1: count,
            };
            behind_counts(head, rest)
        }
        _ => {
            let head = Head {
                frame_class: class,
                var_bord_0: bord,
                var_bord_1: 0,
                num_rel_0: count,
                num_rel_1: 0,
            };
            behind_counts(head, rest)
        }
    }
}

// The fields of VarVar: both border bytes, both counts, then what stands behind the counts.
fn var_var(body: Window) -> Result<Parsed, Refusal>
    ensures { result ≡ result_map parsed (var_var (window_bits body)) }
{
    let (sides, rest) = take(body, 8)?;
    let [b0, b1, j, k] = four_twos(sides);
    let head = Head {
        frame_class: FrameClass::VarVar,
        var_bord_0: b0,
        var_bord_1: b1,
        num_rel_0: j as usize,
        num_rel_1: k as usize,
    };
    if SbrGrid::MAX_NUM_ENV < head.num_rel_0 + head.num_rel_1 + 1 {
        return Err(Refusal::EnvelopeCount);
    }
    behind_counts(head, rest)
}

// The record at the front of the bits.
pub fn sbr_grid(bits: Window) -> Result<Parsed, Refusal>
    ensures { result ≡ result_map parsed (sbr_grid (bits_of bits.width bits.value)) }
{
    let (code, body) = take(bits, 2)?;
    let class = FrameClass::of_code(code);
    match class {
        FrameClass::FixFix => fix_fix(body),
        FrameClass::FixVar | FrameClass::VarFix => one_side(class, body),
        FrameClass::VarVar => var_var(body),
    }
}
