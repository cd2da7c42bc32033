// The calls of the C firmware: plain numbers and ranges of bytes, in and out. Each answers 0, or the number of a refusal, and a
// refused call leaves everything that was lent as it was. What they do stands in c_bits, c_read, c_elect,
// c_energies, c_quantise, c_named and c_send: an export has to stand in the crate of the static library, and only hands on. C hands every number of a record
// in by itself, and each band table: `Handed` and `BandTables` hold them together.
#![tactic(auto, using(c_values::proofs::Answers::gives))]

ghost use Rattle.std.specs.Prelude.{length};
ghost use Rattle.sbr_reader.specs.Read.{read_grid};
ghost use Rattle.c_values.specs.Handed.{handed};
ghost use Rattle.c_values.specs.Given.{Gives, record_out, time_out};
ghost use Rattle.c_bits.specs.Calls.{write_call, time_call, write_out};
ghost use Rattle.c_read.specs.Frames.{carried_in, frame_out};
ghost use Rattle.c_elect.specs.Elections.{elect_call, election_out};
ghost use Rattle.c_energies.specs.Energies.{energy_call, energy_out};
ghost use Rattle.c_quantise.specs.Quantise.{quantise_call, quantise_out};
ghost use Rattle.c_named.specs.Named.{named_call};
ghost use Rattle.c_send.specs.Turns.{send_call, send_out};

use c_values::form::Handed;
use c_values::give::{NUMBERS, code_of};
use sbr_bands::BandTables;
use sbr_grid::{SbrGrid, TimeGrid};

// sbr_grid() of a record is written at a bit position, which is moved past it; the rest of the byte in which it ends is cleared.
#[unsafe(no_mangle)]
pub extern "C" fn sbr_write_grid(
    bytes: &mut [u8],
    position: &mut u64,
    frame_class: u32,
    num_env: u64,
    freq_res: &[u8],
    var_bord_0: u8,
    var_bord_1: u8,
    rel_bord_0: &[u8],
    num_rel_0: u64,
    rel_bord_1: &[u8],
    num_rel_1: u64,
    pointer: u8,
) -> u32
    ensures { Gives
        (write_call (handed frame_class num_env 0 var_bord_0 var_bord_1 num_rel_0 num_rel_1 pointer)
        freq_res.now rel_bord_0.now rel_bord_1.now bytes.old position.old)
        write_out (bytes.old, position.old)
        result (bytes.new, position.new) }
{
    code_of(c_bits::write_grid(
        bytes,
        position,
        Handed {
            frame_class,
            num_env,
            num_noise: 0,
            var_bord_0,
            var_bord_1,
            num_rel_0,
            num_rel_1,
            pointer,
        },
        freq_res,
        rel_bord_0,
        rel_bord_1,
    ))
}

// The borders, noise borders and mark of a record.
#[unsafe(no_mangle)]
pub extern "C" fn sbr_derive_time_grid(
    num_time_slots: u64,
    frame_class: u32,
    num_env: u64,
    num_noise: u64,
    var_bord_0: u8,
    var_bord_1: u8,
    rel_bord_0: &[u8],
    num_rel_0: u64,
    rel_bord_1: &[u8],
    num_rel_1: u64,
    pointer: u8,
    t_e: &mut [u32; TimeGrid::MAX_BORDERS],
    t_q: &mut [u32; TimeGrid::MAX_NOISE_BORDERS],
    l_a: &mut i32,
) -> u32
    ensures { Gives
        (time_call num_time_slots (handed frame_class num_env num_noise var_bord_0 var_bord_1 num_rel_0 num_rel_1 pointer)
        rel_bord_0.now rel_bord_1.now)
        time_out (t_e.old, t_q.old, l_a.old)
        result (t_e.new, t_q.new, l_a.new) }
{
    code_of(c_bits::derive_time_grid(
        num_time_slots,
        Handed {
            frame_class,
            num_env,
            num_noise,
            var_bord_0,
            var_bord_1,
            num_rel_0,
            num_rel_1,
            pointer,
        },
        rel_bord_0,
        rel_bord_1,
        t_e,
        t_q,
        l_a,
    ))
}

// The frame at a bit position: record, time grid, whether it begins on an attack, the position after it, its last border, and whether it marks an
// attack at its very end.
#[unsafe(no_mangle)]
pub extern "C" fn sbr_read_grid(
    bytes: &[u8],
    num_time_slots: u64,
    position: &mut u64,
    border: &mut i32,
    attack: &mut u32,
    begins_on_attack: &mut u32,
    numbers: &mut [u32; NUMBERS],
    freq_res: &mut [u8; SbrGrid::MAX_NUM_ENV],
    rel_bord_0: &mut [u8; SbrGrid::MAX_REL_BORD],
    rel_bord_1: &mut [u8; SbrGrid::MAX_REL_BORD],
    t_e: &mut [u32; TimeGrid::MAX_BORDERS],
    t_q: &mut [u32; TimeGrid::MAX_NOISE_BORDERS],
    l_a: &mut i32,
) -> u32
    ensures { Gives
        (read_grid bytes.now position.old num_time_slots (carried_in border.old attack.old))
        frame_out (
          position.old,
          border.old,
          attack.old,
          begins_on_attack.old,
          (numbers.old, freq_res.old, rel_bord_0.old, rel_bord_1.old),
          (t_e.old, t_q.old, l_a.old),
        )
        result (
          position.new,
          border.new,
          attack.new,
          begins_on_attack.new,
          (numbers.new, freq_res.new, rel_bord_0.new, rel_bord_1.new),
          (t_e.new, t_q.new, l_a.new),
        ) }
{
    code_of(c_read::read_grid(
        bytes,
        num_time_slots,
        position,
        border,
        attack,
        begins_on_attack,
        numbers,
        freq_res,
        rel_bord_0,
        rel_bord_1,
        t_e,
        t_q,
        l_a,
    ))
}

// The grid of a frame from its samples: its record, and whether the frame has an onset.
#[unsafe(no_mangle)]
pub extern "C" fn sbr_elect_grid(
    samples: &[f64],
    high: &[u8],
    low: &[u8],
    previous_border: i32,
    variable_borders: u32,
    num_time_slots: u64,
    transient: &mut u32,
    numbers: &mut [u32; NUMBERS],
    freq_res: &mut [u8; SbrGrid::MAX_NUM_ENV],
    rel_bord_0: &mut [u8; SbrGrid::MAX_REL_BORD],
    rel_bord_1: &mut [u8; SbrGrid::MAX_REL_BORD],
) -> u32
    ensures { Gives
        (elect_call num_time_slots high.now low.now samples.now previous_border variable_borders)
        election_out (
          transient.old,
          (numbers.old, freq_res.old, rel_bord_0.old, rel_bord_1.old),
        )
        result (
          transient.new,
          (numbers.new, freq_res.new, rel_bord_0.new, rel_bord_1.new),
        ) }
{
    code_of(c_elect::elect_grid(
        samples,
        BandTables { high, low },
        previous_border,
        variable_borders,
        num_time_slots,
        transient,
        numbers,
        freq_res,
        rel_bord_0,
        rel_bord_1,
    ))
}

// The energies of a record's envelopes, and how many numbers they are.
#[unsafe(no_mangle)]
pub extern "C" fn sbr_estimate_envelopes(
    samples: &[f64],
    high: &[u8],
    low: &[u8],
    num_time_slots: u64,
    frame_class: u32,
    num_env: u64,
    num_noise: u64,
    freq_res: &[u8],
    var_bord_0: u8,
    var_bord_1: u8,
    rel_bord_0: &[u8],
    num_rel_0: u64,
    rel_bord_1: &[u8],
    num_rel_1: u64,
    pointer: u8,
    out: &mut [f64],
    count: &mut u64,
) -> u32
    ensures { Gives
        (energy_call num_time_slots high.now low.now samples.now
        (handed frame_class num_env num_noise var_bord_0 var_bord_1 num_rel_0 num_rel_1 pointer)
        freq_res.now rel_bord_0.now rel_bord_1.now (length out.old))
        (energy_out out.old) (out.old, count.old)
        result (out.new, count.new) }
{
    code_of(c_energies::estimate_envelopes(
        samples,
        BandTables { high, low },
        num_time_slots,
        Handed {
            frame_class,
            num_env,
            num_noise,
            var_bord_0,
            var_bord_1,
            num_rel_0,
            num_rel_1,
            pointer,
        },
        freq_res,
        rel_bord_0,
        rel_bord_1,
        out,
        count,
    ))
}

// The quantised energies, a byte for each.
#[unsafe(no_mangle)]
pub extern "C" fn sbr_quantise_envelopes(energy: &[f64], amp_res: u32, out: &mut [u8]) -> u32
    ensures { Gives
        (quantise_call energy.now amp_res (length out.old))
        (quantise_out out.old) out.old
        result out.new }
{
    code_of(c_quantise::quantise_envelopes(energy, amp_res, out))
}

// The record for named borders, resolutions and a mark.
#[unsafe(no_mangle)]
pub extern "C" fn sbr_grid_for_borders(
    num_time_slots: u64,
    borders: &[i32],
    resolutions: &[u8],
    l_a: i32,
    numbers: &mut [u32; NUMBERS],
    freq_res: &mut [u8; SbrGrid::MAX_NUM_ENV],
    rel_bord_0: &mut [u8; SbrGrid::MAX_REL_BORD],
    rel_bord_1: &mut [u8; SbrGrid::MAX_REL_BORD],
) -> u32
    ensures { Gives
        (named_call num_time_slots borders.now resolutions.now l_a)
        record_out (numbers.old, freq_res.old, rel_bord_0.old, rel_bord_1.old)
        result (numbers.new, freq_res.new, rel_bord_0.new, rel_bord_1.new) }
{
    code_of(c_named::grid_for_borders(
        num_time_slots,
        borders,
        resolutions,
        l_a,
        numbers,
        freq_res,
        rel_bord_0,
        rel_bord_1,
    ))
}

// A transmitter's turn: elects the grid of a frame, writes it at the bit position, where the rest of its last byte is cleared, and moves position and
// border on.
#[unsafe(no_mangle)]
pub extern "C" fn sbr_send_frame(
    samples: &[f64],
    high: &[u8],
    low: &[u8],
    variable_borders: u32,
    num_time_slots: u64,
    bytes: &mut [u8],
    position: &mut u64,
    border: &mut i32,
    transient: &mut u32,
    numbers: &mut [u32; NUMBERS],
    freq_res: &mut [u8; SbrGrid::MAX_NUM_ENV],
    rel_bord_0: &mut [u8; SbrGrid::MAX_REL_BORD],
    rel_bord_1: &mut [u8; SbrGrid::MAX_REL_BORD],
    t_e: &mut [u32; TimeGrid::MAX_BORDERS],
    t_q: &mut [u32; TimeGrid::MAX_NOISE_BORDERS],
    l_a: &mut i32,
) -> u32
    ensures { Gives
        (send_call num_time_slots high.now low.now samples.now variable_borders
        bytes.old position.old border.old)
        send_out (
          bytes.old,
          position.old,
          border.old,
          transient.old,
          (numbers.old, freq_res.old, rel_bord_0.old, rel_bord_1.old),
          (t_e.old, t_q.old, l_a.old),
        )
        result (
          bytes.new,
          position.new,
          border.new,
          transient.new,
          (numbers.new, freq_res.new, rel_bord_0.new, rel_bord_1.new),
          (t_e.new, t_q.new, l_a.new),
        ) }
{
    code_of(c_send::send_frame(
        samples,
        BandTables { high, low },
        variable_borders,
        num_time_slots,
        bytes,
        position,
        border,
        transient,
        numbers,
        freq_res,
        rel_bord_0,
        rel_bord_1,
        t_e,
        t_q,
        l_a,
    ))
}
