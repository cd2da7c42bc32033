// What the call of C for reading does. sbr_c exports it.
#![tactic(auto)]

ghost use Rattle.sbr_reader.specs.Read.{read_grid};
ghost use Rattle.c_values.specs.Given.{Leaves};
ghost use Rattle.c_read.specs.Frames.{carried_in, frame_out};

use c_values::give::NUMBERS;
use sbr_grid::{Refusal, SbrGrid, TimeGrid};
use sbr_reader::Carried;

// Refused as `sbr_reader::read_grid`. Border in: where the frame before ended; out: where this one ends. Attack in: any number but 0 where the frame
// before marks an attack at its very end; out: 1 where this one does, else 0.
pub fn read_grid(
    bytes: &[u8],
    num_time_slots: u64,
    position: &mut u64,
    border: &mut i32,
    attack: &mut u32,
    begins_on_attack: &mut u32,
    numbers: &mut [u32; NUMBERS],
    freq_res: &mut [u8; SbrGrid::MAX_NUM_ENV],
    rel_bord_0: &mut [u8; SbrGrid::MAX_REL_BORD],
    rel_bord_1: &mut [u8; SbrGrid::MAX_REL_BORD],
    t_e: &mut [u32; TimeGrid::MAX_BORDERS],
    t_q: &mut [u32; TimeGrid::MAX_NOISE_BORDERS],
    l_a: &mut i32,
) -> Result<(), Refusal>
    ensures { Leaves
        (read_grid bytes.now position.old num_time_slots (carried_in border.old attack.old))
        frame_out (
          position.old,
          border.old,
          attack.old,
          begins_on_attack.old,
          (numbers.old, freq_res.old, rel_bord_0.old, rel_bord_1.old),
          (t_e.old, t_q.old, l_a.old),
        )
        result (
          position.new,
          border.new,
          attack.new,
          begins_on_attack.new,
          (numbers.new, freq_res.new, rel_bord_0.new, rel_bord_1.new),
          (t_e.new, t_q.new, l_a.new),
        ) }
{
    let carried = Carried {
        border: *border,
        attack: *attack != 0,
    };
    let read = sbr_reader::read_grid(bytes, *position as usize, num_time_slots as usize, carried)?;
    *position = read.position as u64;
    *border = read.carried.border;
    *attack = u32::from(read.carried.attack);
    *begins_on_attack = u32::from(read.begins_on_attack);
    c_values::give::give_record(read.grid, numbers, freq_res, rel_bord_0, rel_bord_1);
    c_values::give::give_times(read.time, t_e, t_q, l_a);
    Ok(())
}
