// sbr_grid() written: `write_grid` of src/sbr_writer.rs.
#![tactic(auto)]

ghost use Rattle.std.specs.Prelude.{◌≡◌};
ghost use Rattle.sbr_grid.specs.Refusals.{result_map};
ghost use Rattle.sbr_grid.specs.Grid.{view_of};
ghost use Rattle.sbr_writer.specs.Write.{write_grid, bytes_after};

use sbr_grid::{Refusal, SbrGrid};

mod code;
pub mod fits;

// A record's sbr_grid() is written at a bit position, and the rest of the byte in which it ends is cleared; every other bit is kept, and a refused call
// keeps them all. The answer is the position after the last bit.
#[tactic(auto, using(crate::proofs::Answers::unwritable_answer, crate::proofs::Answers::unwritable_bytes, crate::proofs::Answers::put_answer, crate::proofs::Answers::put_bytes))]
pub fn write_grid(buf: &mut [u8], pos: usize, grid: SbrGrid) -> Result<usize, Refusal>
    ensures answer { result ≡ result_map (λ w. w.position) (write_grid buf.old pos (view_of grid)) }
    ensures bytes { buf.new ≡ bytes_after buf.old (write_grid buf.old pos (view_of grid)) }
{
    if !fits::is_writable(&grid) {
        return Err(Refusal::Record);
    }
    let bits = code::grid_bits(&grid);
    bits::put_bits(buf, pos, bits.value, bits.width).ok_or(Refusal::Room)
}
