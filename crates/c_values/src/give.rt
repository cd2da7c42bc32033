// What C is given: the number of an answer, a record and a time grid.
ghost use Rattle.std.specs.Prelude.{◌≡◌, false, map};
ghost use Rattle.bits.specs.Bits.{bit_n};
ghost use Rattle.sbr_grid.specs.Grid.{first, view_of};
ghost use Rattle.c_values.specs.Given.{code_of, numbers_of, Few};

use sbr_grid::{Refusal, SbrGrid, TimeGrid};

// How many numbers C is given of a record.
pub const NUMBERS: usize = 9;

// What a call answers C: 0, or the number of a refusal.
pub fn code_of(answer: Result<(), Refusal>) -> u32
    ensures { result ≡ code_of answer }
{
    match answer {
        Ok(()) => 0,
        Err(why) => why.into(),
    }
}

// The counts of a frame are small: no cast cuts one.
fn numbers(grid: SbrGrid) -> [u32; NUMBERS]
    requires { Few grid }
    ensures { result ≡ numbers_of (view_of grid) }
{
    [
        grid.frame_class.into(),
        grid.num_env as u32,
        grid.num_noise as u32,
        grid.var_bord_0.into(),
        grid.var_bord_1.into(),
        grid.num_rel_0 as u32,
        grid.num_rel_1 as u32,
        grid.pointer.into(),
        grid.amp_res_override.into(),
    ]
}

// All places of the lists are given; those past a count are 0 in a record that was read, elected or named by its borders.
pub fn give_record(
    grid: SbrGrid,
    to_numbers: &mut [u32; NUMBERS],
    freq_res: &mut [u8; SbrGrid::MAX_NUM_ENV],
    rel_bord_0: &mut [u8; SbrGrid::MAX_REL_BORD],
    rel_bord_1: &mut [u8; SbrGrid::MAX_REL_BORD],
)
    requires { Few grid }
    ensures to_numbers_after { to_numbers.new ≡ numbers_of (view_of grid) }
    ensures freq_res_after { freq_res.new ≡ map bit_n (first false 5 grid.freq_res) }
    ensures rel_bord_0_after { rel_bord_0.new ≡ grid.rel_bord_0 }
    ensures rel_bord_1_after { rel_bord_1.new ≡ grid.rel_bord_1 }
{
    let flags = grid.freq_res;
    let leading = grid.rel_bord_0;
    let trailing = grid.rel_bord_1;
    *to_numbers = numbers(grid);
    *freq_res = flags.map(u8::from);
    *rel_bord_0 = leading;
    *rel_bord_1 = trailing;
}

pub fn give_times(
    time: TimeGrid,
    t_e: &mut [u32; TimeGrid::MAX_BORDERS],
    t_q: &mut [u32; TimeGrid::MAX_NOISE_BORDERS],
    l_a: &mut i32,
)
    ensures t_e_after { t_e.new ≡ time.t_e }
    ensures t_q_after { t_q.new ≡ time.t_q }
    ensures l_a_after { l_a.new ≡ time.l_a }
{
    let borders = time.t_e;
    let noise = time.t_q;
    *t_e = borders;
    *t_q = noise;
    *l_a = time.l_a;
}
