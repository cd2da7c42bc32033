// How the bits from a position on lie in their bytes; a field put into bytes, and read from them.
ghost use Rattle.std.specs.Prelude.{◌≡◌, ◌+◌, ◌-◌, ◌*◌, ◌/◌, ◌%◌, ◌^◌, ◌≤◌, ◌<◌, min, length};
ghost use Rattle.bits.specs.Bits.{put_bits, bits_at, bits_of, num_of};
ghost use Rattle.bits.specs.Room.{end_of};

// How many of k bits from a position on stand in its byte.
fn in_byte(pos: usize, k: u32) -> u32
    ensures { result ≡ min (8 - pos % 8) k }
{
    (8 - (pos % 8) as u32).min(k)
}

// How many bits of a byte stand after n bits that start at a position in it.
fn below(pos: usize, n: u32) -> u32
    requires { n ≤ 8 - pos % 8 }
    ensures { result ≡ 8 - pos % 8 - n }
{
    8 - (pos % 8) as u32 - n
}

// A byte whose n bits above the k lowest are made the n lowest of v, and the k lowest cleared.
fn with_field(x: u8, k: u32, n: u32, v: u32) -> u8
    requires { k + n ≤ 8 }
    ensures { result ≡ (x / 2 ^ (k + n) * 2 ^ n + v % 2 ^ n) * 2 ^ k }
{
    ((((x as u32 >> (k + n)) << n) + v % (1 << n)) << k) as u8
}

// The `width` low bits of a value from a position on, byte by byte; the rest of the last byte is cleared.
// A turn takes as many bits as are left in its byte, fewer at both ends, so no range or iterator counts them.
#[tactic(auto, unfolding(crate::specs::Room::end_of))]
pub fn put(buf: &mut [u8], pos: usize, value: u32, width: u32)
    requires { (width ≤ 32) × (pos + width ≤ end_of (length buf.old)) }
    ensures { buf.new ≡ put_bits buf.old pos (bits_of width value) }
{
    let mut at = pos;
    let mut k = width;
    while 0 < k {
        let n = in_byte(at, k);
        k -= n;
        let i = at / 8;
        let low = below(at, n);
        buf[i] = with_field(buf[i], low, n, value >> k);
        at += n as usize;
    }
}

// The n bits of a byte above its k lowest.
fn field_of(x: u8, k: u32, n: u32) -> u32
    requires { k + n ≤ 8 }
    ensures { result ≡ x / 2 ^ k % 2 ^ n }
{
    (x as u32 >> k) % (1 << n)
}

// The number of the `width` bits from a position on, byte by byte: turns as in `put`.
#[tactic(auto, unfolding(crate::specs::Room::end_of))]
pub fn get(buf: &[u8], pos: usize, width: u32) -> u32
    requires { (width ≤ 32) × (width ≤ end_of (length buf.now) - pos) }
    ensures { (result ≡ num_of (bits_at buf.now pos width)) × (result < 2 ^ width) }
{
    let mut at = pos;
    let mut k = width;
    let mut v: u32 = 0;
    while 0 < k {
        let n = in_byte(at, k);
        k -= n;
        let low = below(at, n);
        v = (v << n) + field_of(buf[at / 8], low, n);
        at += n as usize;
    }
    v
}

// The 32 bits from a position on, which lie within five bytes.
pub fn get_32(buf: &[u8], pos: usize) -> u32
    requires { pos / 8 + 5 ≤ length buf.now }
    ensures { result ≡ num_of (bits_at buf.now pos 32) }
{
    let i = pos / 8;
    let five = u64::from_be_bytes([
        0,
        0,
        0,
        buf[i],
        buf[i + 1],
        buf[i + 2],
        buf[i + 3],
        buf[i + 4],
    ]);
    ((five >> (8 - pos % 8)) % 0x1_0000_0000) as u32
}
