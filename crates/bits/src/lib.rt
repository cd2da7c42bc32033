// Fields of bits in lent bytes, most significant bit first, at any bit position: whether there is room for one, putting one, looking at bits.
#![tactic(auto)]

ghost use Rattle.std.specs.Prelude.{◌≡◌};
ghost use Rattle.bits.specs.Room.{end_of, room_for, placed, after_field, window_of};

mod field;

// Bits as a number: the `width` low bits of `value`.
#[derive(Clone, Copy)]
pub struct Window {
    pub value: u32,
    pub width: u32,
}

// The position past the last bit of `len` bytes, or the largest position where that is less.
#[tactic(auto, unfolding(crate::specs::Room::end_of))]
pub fn end_of(len: usize) -> usize
    ensures { result ≡ end_of len }
{
    len.saturating_mul(8)
}

// Whether n bits from a position on lie within `len` bytes.
#[tactic(auto, using(crate::proofs::Room::leb_left, crate::proofs::Room::leb_past), unfolding(crate::specs::Room::room_for))]
pub fn has_room(len: usize, pos: usize, n: usize) -> bool
    ensures { result ≡ room_for len pos n }
{
    let end = end_of(len);
    pos <= end && n <= end - pos
}

// The `width` low bits of a value are put at a position, and the rest of the byte in which they end is cleared; every other bit is kept. A field of no
// bits puts and clears nothing. The answer is the position after its last bit, or none: its bits do not lie within the bytes, or it has more than 32, and
// nothing is put.
#[tactic(auto, using(crate::proofs::Room::room), unfolding(crate::specs::Room::end_of))]
pub fn put_bits(buf: &mut [u8], pos: usize, value: u32, width: u32) -> Option<usize>
    ensures answer { result ≡ placed buf.old pos width }
    ensures bytes { buf.new ≡ after_field buf.old pos width value }
{
    let n = width as usize;
    if 32 < width || !has_room(buf.len(), pos, n) {
        return None;
    }
    field::put(buf, pos, value, width);
    Some(pos + n)
}

// The bits from a position on, as many as there are and at most 32.
#[tactic(auto, unfolding(crate::specs::Room::end_of))]
pub fn peek_bits(buf: &[u8], pos: usize) -> Window
    ensures { result ≡ window_of buf.now pos }
{
    let left = end_of(buf.len()).saturating_sub(pos);
    if 40 <= left {
        return Window {
            value: field::get_32(buf, pos),
            width: 32,
        };
    }
    let width = left.min(32) as u32;
    Window {
        value: field::get(buf, pos, width),
        width,
    }
}
