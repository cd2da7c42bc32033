// A transmitter's turn and a receiver's reading, each with what it carries on. The claim about whole lists of them is in specs/Term3.antt.
#![tactic(auto)]

ghost use Rattle.std.specs.Prelude.{◌≡◌, ◌≤◌, get_or, Err};
ghost use Rattle.sbr_grid.specs.Refusals.{result_map};
ghost use Rattle.sbr_reader.specs.Read.{frame_read};
ghost use Rattle.sbr_run.specs.Run.{turn};
ghost use Rattle.sbr_run.specs.Readings.{reading};
ghost use Rattle.sbr_run.specs.Place.{turn_from, sending, bytes_left, behind, place_next, reading_from};

use sbr_bands::BandTables;
use sbr_grid::{Refusal, SbrGrid, TimeGrid};
use sbr_reader::{Carried, FrameRead};

// What is carried from frame to frame: the last border with the flag beside it, and the bit position.
#[derive(Clone, Copy)]
pub struct Place {
    pub carried: Carried,
    pub position: usize,
}

// A frame that was sent.
#[derive(Clone, Copy)]
pub struct Sending {
    pub grid: SbrGrid,
    pub time: TimeGrid,
    // Whether the frame has an onset.
    pub transient: bool,
    // Where the next frame goes.
    pub place: Place,
}

// Where the frame behind one that was read is read.
impl From<FrameRead> for Place {
    ghost from_gives = { λ read place. place ≡ behind read };

    fn from(read: FrameRead) -> Place {
        Place {
            carried: read.carried,
            position: read.position,
        }
    }
}

impl Place {
    // Where a transmitter hands its next turn in: the place of the frame that was sent, or this one again where the turn is refused.
    pub fn after_turn(self, answer: &Result<Sending, Refusal>) -> Place
        ensures { result ≡ place_next (λ a. a.place) self answer.now }
    {
        match answer {
            Ok(sending) => sending.place,
            Err(_) => self,
        }
    }

    // Where a receiver reads next: behind the frame that was read, or at this place again where the reading is refused.
    pub fn after_reading(self, answer: &Result<FrameRead, Refusal>) -> Place
        ensures { result ≡ place_next behind self answer.now }
    {
        match answer {
            Ok(read) => Place::from(*read),
            Err(_) => self,
        }
    }
}

// A transmitter's turn: election from the carried border, time grid of the record, its writing at the position, which clears the rest of the byte in
// which it ends. The call that refuses is the last, and nothing moves then: the place handed in stays the next one's (`Place::after_turn`).
pub fn send_frame(
    x: &[f64],
    tables: BandTables,
    variable_borders: bool,
    num_time_slots: usize,
    bytes: &mut [u8],
    place: Place,
) -> Result<Sending, Refusal>
    ensures answer { result ≡ result_map sending (turn (turn_from num_time_slots tables.entry.high.now tables.entry.low.now x.now variable_borders bytes.old place)) }
    ensures bytes { bytes.new ≡ bytes_left bytes.old (turn (turn_from num_time_slots tables.entry.high.now tables.entry.low.now x.now variable_borders bytes.old place)) }
{
    let elected = sbr_encoder::elect_grid(
        x,
        tables,
        place.carried.border,
        variable_borders,
        num_time_slots,
    )?;
    let grid = elected.grid;
    let time = sbr_time_grid::derive_time_grid(grid, num_time_slots)?;
    let position = sbr_writer::write_grid(bytes, place.position, grid)?;
    Ok(Sending {
        grid,
        time,
        transient: elected.transient,
        place: Place {
            carried: Carried::left_by(time),
            position,
        },
    })
}

// A receiver's reading of the next frame; a refusal moves nothing: the place handed in stays the next one's (`Place::after_reading`).
pub fn receive_frame(
    bytes: &[u8],
    num_time_slots: usize,
    place: Place,
) -> Result<FrameRead, Refusal>
    ensures { result ≡ result_map frame_read (reading (reading_from num_time_slots bytes.now place)) }
{
    sbr_reader::read_grid(bytes, place.position, num_time_slots, place.carried)
}
