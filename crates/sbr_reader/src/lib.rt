// sbr_grid() read by a receiver, with its time grid and the chain of frames. An addition: the Rust has no such function.
#![tactic(auto)]

ghost use Rattle.std.specs.Prelude.{◌≡◌, ◌^◌, ◌≤◌, ◌<◌, get_or};
ghost use Rattle.sbr_grid.specs.Refusals.{result_map};
ghost use Rattle.sbr_reader.specs.Read.{starting, left_by, read_grid, frame_read};

use sbr_grid::{Refusal, SbrGrid, TimeGrid};

// What a transmitter and a receiver carry from frame to frame.
#[derive(Clone, Copy)]
pub struct Carried {
    // The carried border: the last border of the frame before.
    pub border: i32,
    // Whether an attack is marked at the very end of the frame before, on which the next one begins.
    pub attack: bool,
}

impl Carried {
    // What is carried to a first frame: where the one before would have ended, the flag clear.
    pub fn start(border: i32) -> Self
        ensures { result ≡ starting border }
    {
        Carried {
            border,
            attack: false,
        }
    }

    // What a frame with this time grid leaves to the next one.
    pub fn left_by(time: TimeGrid) -> Self
        requires { (time.num_env ≤ 5) × (get_or time.t_e time.num_env 0 < 2 ^ 31) }
        ensures { result ≡ left_by time }
    {
        Carried {
            border: time.t_e[time.num_env] as i32,
            attack: time.l_a == time.num_env as i32,
        }
    }
}

// A frame that was read.
#[derive(Clone, Copy)]
pub struct FrameRead {
    pub grid: SbrGrid,
    pub time: TimeGrid,
    // Whether the frame begins on an attack: the flag that was carried to it.
    pub begins_on_attack: bool,
    // The position after the last bit.
    pub position: usize,
    pub carried: Carried,
}

// The record, time grid and end of the frame at a bit position, and what it leaves to the next one. A refusal hands out none of these, so it moves
// nothing.
pub fn read_grid(
    buf: &[u8],
    pos: usize,
    num_time_slots: usize,
    carried: Carried,
) -> Result<FrameRead, Refusal>
    ensures { result ≡ result_map frame_read (read_grid buf.now pos num_time_slots carried) }
{
    if !sbr_grid::is_slot_count(num_time_slots) {
        return Err(Refusal::SlotCount);
    }
    let window = bits::peek_bits(buf, pos);
    let parsed = sbr_parse::sbr_grid(window)?;
    let time = sbr_time_grid::derive_time_grid(parsed.grid, num_time_slots)?;
    let begin = time.t_e[0] + num_time_slots as u32;
    if carried.border != begin as i32 {
        return Err(Refusal::Chain);
    }
    Ok(FrameRead {
        grid: parsed.grid,
        time,
        begins_on_attack: carried.attack,
        position: pos + (window.width - parsed.left) as usize,
        carried: Carried::left_by(time),
    })
}
