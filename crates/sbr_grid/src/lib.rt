// The grid record of src/sbr_grid.rs, with its limits, the record of its time grid, and the refusals of every call.
#![tactic(auto)]

ghost use Rattle.std.specs.Prelude.{◌≡◌, true, false, ◌&&◌, ◌+◌, ◌%◌, ◌≤◌, eqb, replicate, get_or};
ghost use Rattle.sbr_grid.specs.Refusals.{number_of};
ghost use Rattle.sbr_grid.specs.Grid.{by_class, class_code, class_of, class_with_code, empty, first, noise_of, ptr_bits};
ghost use Rattle.sbr_grid.specs.Times.{is_slot_count, empty_time};

use std::fmt;

// bs_frame_class, with the number of each class.
#[derive(Clone, Copy, Debug, PartialEq, Eq)]
pub enum FrameClass {
    FixFix = 0,
    FixVar = 1,
    VarFix = 2,
    VarVar = 3,
}

impl FrameClass {
    // The largest class number.
    pub const MAX_CODE: u32 = 3;

    // The class of a number up to 3; any other is VarVar's. By name: with a `From<u32>` std gives a type a `TryFrom` that refuses nothing.
    pub fn of_code(code: u32) -> Self
        ensures { result ≡ class_of code }
    {
        match code {
            0 => FrameClass::FixFix,
            1 => FrameClass::FixVar,
            2 => FrameClass::VarFix,
            _ => FrameClass::VarVar,
        }
    }

    // The class of the two low bits of a number; by name, as `of_code`.
    pub fn from_bits(v: u32) -> Self
        ensures { result ≡ class_of (v % 4) }
    {
        FrameClass::of_code(v % 4)
    }
}

// The number of a class, as it is written in two bits.
impl From<FrameClass> for u32 {
    ghost from_gives = { λ class code. code ≡ class_code class };

    fn from(class: FrameClass) -> u32 {
        class as u32
    }
}

// The class of a number; a number above 3 is refused.
impl TryFrom<u32> for FrameClass {
    type Error = Refusal;

    ghost try_from_gives = { λ code class. class ≡ class_with_code code };

    fn try_from(code: u32) -> Result<Self, Refusal> {
        if FrameClass::MAX_CODE < code {
            return Err(Refusal::Record);
        }
        Ok(FrameClass::of_code(code))
    }
}

// The name of a class.
impl fmt::Display for FrameClass {
    fn fmt<W: fmt::Write>(&self, f: &mut fmt::Formatter<W>) -> fmt::Result {
        f.write_str(match self {
            FrameClass::FixFix => "FixFix",
            FrameClass::FixVar => "FixVar",
            FrameClass::VarFix => "VarFix",
            FrameClass::VarVar => "VarVar",
        })
    }
}

// The fields of sbr_grid() for one channel. A list is an array with a count beside it, since the memory is fixed and
// C is given every place; only the places below the count are in use. `resolutions`, `leading` and `trailing` hand out the slices.
// No invariant bounds the counts: C may hand in any, and whether they fit is what calls test.
// The wide numbers stand first and nothing unused between the others: a copy would move such bytes piece by piece, each piece waiting for the one before.
#[derive(Clone, Copy)]
pub struct SbrGrid {
    // bs_num_env: the count of freq_res.
    pub num_env: usize,
    pub num_noise: usize,
    pub num_rel_0: usize,
    pub num_rel_1: usize,
    pub rel_bord_0: [u8; SbrGrid::MAX_REL_BORD],
    pub rel_bord_1: [u8; SbrGrid::MAX_REL_BORD],
    // True is high resolution.
    pub freq_res: [bool; SbrGrid::MAX_NUM_ENV],
    pub frame_class: FrameClass,
    pub var_bord_0: u8,
    pub var_bord_1: u8,
    pub pointer: u8,
    pub amp_res_override: bool,
}

impl SbrGrid {
    // Most envelopes of a frame.
    pub const MAX_NUM_ENV: usize = 5;

    // Most entries of a list of relative lengths.
    pub const MAX_REL_BORD: usize = 4;

    // Most relative lengths of a side that a count of two bits can tell.
    pub const MAX_SIDE_REL: usize = 3;

    // Largest border byte, and largest stored relative length: two bits.
    pub const MAX_VAR_BORD: u8 = 3;

    pub const MAX_RAW_REL: u8 = 3;

    // A record of which nothing is set: every number 0, every flag false.
    pub fn empty() -> Self
        ensures { result ≡ empty }
    {
        SbrGrid {
            frame_class: FrameClass::FixFix,
            num_env: 0,
            num_noise: 0,
            freq_res: [false; SbrGrid::MAX_NUM_ENV],
            var_bord_0: 0,
            var_bord_1: 0,
            rel_bord_0: [0u8; SbrGrid::MAX_REL_BORD],
            num_rel_0: 0,
            rel_bord_1: [0u8; SbrGrid::MAX_REL_BORD],
            num_rel_1: 0,
            pointer: 0,
            amp_res_override: false,
        }
    }

    // The resolutions of the envelopes.
    pub fn resolutions(&self) -> &[bool]
        requires { self.now.num_env ≤ 5 }
        ensures { result.now ≡ first false self.now.num_env self.now.freq_res }
    {
        front(&self.freq_res, self.num_env)
    }

    // The stored lengths of the leading side.
    pub fn leading(&self) -> &[u8]
        requires { self.now.num_rel_0 ≤ 4 }
        ensures { result.now ≡ first 0 self.now.num_rel_0 self.now.rel_bord_0 }
    {
        front(&self.rel_bord_0, self.num_rel_0)
    }

    // The stored lengths of the trailing side.
    pub fn trailing(&self) -> &[u8]
        requires { self.now.num_rel_1 ≤ 4 }
        ensures { result.now ≡ first 0 self.now.num_rel_1 self.now.rel_bord_1 }
    {
        front(&self.rel_bord_1, self.num_rel_1)
    }
}

// The first `count` items of an array.
pub fn front<T, const N: usize>(items: &[T; N], count: usize) -> &[T]
    requires { count ≤ N }
    ensures { (fill : T) → result.now ≡ first fill count items.now }
{
    &items[..count]
}

// The item at a place; `fill` past the end of the list.
fn item_or<T: Copy>(items: &[T], i: usize, fill: T) -> T
    ensures { result ≡ get_or items.now i fill }
{
    if i < items.len() { items[i] } else { fill }
}

// The first N items of a list, with `fill` behind them where it has fewer. Place by place: a copy of a length known only as it runs is a call.
pub fn padded<T: Copy, const N: usize>(items: &[T], fill: T) -> [T; N]
    ensures { result ≡ first fill N items.now }
{
    std::array::from_fn(|i| item_or(items, i, fill))
}

// One resolution for each of num_env envelopes, as many as there are places; the places behind them are false.
pub fn same_resolutions(num_env: usize, high: bool) -> [bool; SbrGrid::MAX_NUM_ENV]
    ensures { result ≡ first false 5 (replicate num_env high) }
{
    let mut flags = [false; SbrGrid::MAX_NUM_ENV];
    flags[..num_env.min(SbrGrid::MAX_NUM_ENV)].fill(high);
    flags
}

// The number of noise floors: two, or one for one envelope.
pub fn noise_of(num_env: usize) -> usize
    ensures { result ≡ noise_of num_env }
{
    if 1 < num_env { 2 } else { 1 }
}

// Whether the amplitude override is set: a single FixFix envelope.
pub fn is_overridden(class: FrameClass, num_env: usize) -> bool
    ensures { result ≡ (by_class class true false false false && eqb num_env 1) }
{
    class == FrameClass::FixFix && num_env == 1
}

// The width of bs_pointer, ceil(log2(num_env + 1)): the binary digits of the count without its leading zeros, so 0 for none.
#[tactic(auto, using(crate::proofs::Widths::leading_width))]
pub fn ptr_bits(num_env: usize) -> u32
    ensures { result ≡ ptr_bits num_env }
{
    usize::BITS - usize::leading_zeros(num_env)
}

// Why a call gives no result, with the number of each refusal.
#[derive(Clone, Copy, Debug, PartialEq, Eq)]
pub enum Refusal {
    // The slot count is neither 15 nor 16.
    SlotCount = 1,
    // Too few samples.
    Samples = 2,
    // The band tables.
    Tables = 3,
    // Too little room for what is to be written, or a text of more frames or bytes than are taken.
    Room = 4,
    // A record that sbr_grid() can't carry, or that can't be formed of what C hands in; a switch or resolution above 1; a line of text
    // that can't be read, or a slot count behind a frame.
    Record = 5,
    // A record that has no time grid.
    TimeGrid = 6,
    // The bits end before a field is complete.
    BitsEnd = 7,
    // A count that no frame has.
    EnvelopeCount = 8,
    // The frame does not begin where the one before it ended.
    Chain = 9,
    // No writable grid has the borders, resolutions and mark that are named.
    NoGrid = 10,
}

impl From<Refusal> for u32 {
    ghost from_gives = { λ why number. number ≡ number_of why };

    fn from(why: Refusal) -> u32 {
        why as u32
    }
}

// The borders of a frame: arrays with counts, as in a record. Places past a count are zero. `borders` and `noise_borders` hand out the slices.
// No invariant bounds the counts: it would be asked of those too who only print a time grid or give it to C.
#[derive(Clone, Copy)]
pub struct TimeGrid {
    // The envelopes; there is one border more.
    pub num_env: usize,
    pub t_e: [u32; TimeGrid::MAX_BORDERS],
    // The noise floors; there is one noise border more.
    pub num_noise: usize,
    pub t_q: [u32; TimeGrid::MAX_NOISE_BORDERS],
    // The marked envelope; -1 for none, as the standard and C have it.
    pub l_a: i32,
}

impl TimeGrid {
    pub const MAX_BORDERS: usize = SbrGrid::MAX_NUM_ENV + 1;

    pub const MAX_NOISE_BORDERS: usize = 3;

    // A time grid of which nothing is set.
    pub fn empty() -> Self
        ensures { result ≡ empty_time }
    {
        TimeGrid {
            num_env: 0,
            t_e: [0u32; TimeGrid::MAX_BORDERS],
            num_noise: 0,
            t_q: [0u32; TimeGrid::MAX_NOISE_BORDERS],
            l_a: 0,
        }
    }

    // The borders of the envelopes.
    pub fn borders(&self) -> &[u32]
        requires { self.now.num_env ≤ 5 }
        ensures { result.now ≡ first 0 (self.now.num_env + 1) self.now.t_e }
    {
        front(&self.t_e, self.num_env + 1)
    }

    // The borders of the noise floors.
    pub fn noise_borders(&self) -> &[u32]
        requires { self.now.num_noise ≤ 2 }
        ensures { result.now ≡ first 0 (self.now.num_noise + 1) self.now.t_q }
    {
        front(&self.t_q, self.num_noise + 1)
    }
}

// numTimeSlots: 16 for core frames of 1024 samples, 15 for those of 960.
#[tactic(auto, unfolding(crate::specs::Times::is_slot_count))]
pub fn is_slot_count(num_time_slots: usize) -> bool
    ensures { result ≡ is_slot_count num_time_slots }
{
    num_time_slots == 15 || num_time_slots == 16
}
