// Bits and bytes of a list, image or readout alike: for the crates above.
// A function here may require that an index or a bit is there.
ghost use Rattle.std.specs.Prelude.{◌≡◌, ◌+◌, ◌*◌, ◌/◌, ◌%◌, ◌^◌, ◌<◌, ◌≤◌, length, slice_index, slice_set};
ghost use Rattle.image.specs.Bits.{bit_at, put_bits, with_bit, ones_in};
ghost use Rattle.image.specs.Image.{sum16};

// Index, bit and state are asked to be small enough here: bounds of one number each, which each caller has at hand, so
// a type for one of them would be made and opened again at every call.

// The states of some neighbouring bits of a byte.
fn states_of<const WIDTH: u32>(bytes: &[u8], index: usize, bit: u32) -> u32
    requires { (index < length bytes.now) × (bit < 8) × (WIDTH < 8) }
    ensures { result ≡ slice_index bytes.now index / 2 ^ bit % 2 ^ WIDTH }
{
    (bytes[index] >> bit) as u32 % (1 << WIDTH)
}

// A bit of a byte. One bit and two have functions of their own: their contracts speak of bits, as the definitions do,
// and not of a width.
pub fn bit_of(bytes: &[u8], index: usize, bit: u32) -> u32
    requires { (index < length bytes.now) × (bit < 8) }
    ensures { result ≡ bit_at bytes.now index bit }
{
    states_of::<1>(bytes, index, bit)
}

// Two neighbouring bits of a byte.
pub fn pair_of(bytes: &[u8], index: usize, bit: u32) -> u32
    requires { (index < length bytes.now) × (bit < 7) }
    ensures { result ≡ bit_at bytes.now index bit + 2 * bit_at bytes.now index (bit + 1) }
{
    states_of::<2>(bytes, index, bit)
}

// Some neighbouring bits of one byte put in place.
fn put_states<const WIDTH: u32>(bytes: &mut [u8], index: usize, bit: u32, states: u32)
    requires { (index < length bytes.old) × (bit + WIDTH ≤ 8) × (bit < 8) × (WIDTH < 8)
        × (states < 2 ^ WIDTH) }
    ensures { bytes.new
        ≡ slice_set bytes.old index (put_bits (slice_index bytes.old index) bit WIDTH states) }
{
    let x = bytes[index];
    let old = (x >> bit) % (1 << WIDTH);
    let rest = x - (old << bit);
    bytes[index] = rest + ((states as u8) << bit);
}

// One bit of one byte put in place.
pub fn set_bit(bytes: &mut [u8], index: usize, bit: u32, state: u32)
    requires { (index < length bytes.old) × (bit < 8) × (state < 2) }
    ensures { bytes.new ≡ with_bit bytes.old index bit state }
{
    put_states::<1>(bytes, index, bit, state);
}

// Two neighbouring bits of a byte put in place.
pub fn set_pair(bytes: &mut [u8], index: usize, bit: u32, states: u32)
    requires { (index < length bytes.old) × (bit < 7) × (states < 4) }
    ensures { bytes.new
        ≡ with_bit (with_bit bytes.old index bit (states % 2)) index (bit + 1) (states / 2) }
{
    put_states::<2>(bytes, index, bit, states);
}

// The sum of bytes, from the sum of such pairs, in which each second byte counts 256 times: 256 of the seconds come
// off, and one comes back. 65281 is 1 - 256 modulo 2^16.
fn counted_once(pairs: u16, seconds: u16) -> u16
    ensures { result ≡ (pairs + seconds * 65281) % 2 ^ 16 }
{
    pairs.wrapping_sub(seconds << 8).wrapping_add(seconds)
}

// The sum of the bytes, of which the low 16 bits are kept. Two bytes are added as one number: so
// eight of these are added at a time.
pub fn sum_of(bytes: &[u8]) -> u16
    ensures { result ≡ sum16 bytes.now }
{
    let mut pairs: u16 = 0;
    let mut seconds: u16 = 0;
    let (whole, last) = bytes.as_chunks::<2>();
    for two in whole {
        let pair = u16::from_le_bytes(*two);
        pairs = pairs.wrapping_add(pair);
        seconds = seconds.wrapping_add(pair >> 8);
    }
    for odd in last {
        pairs = pairs.wrapping_add(*odd as u16);
    }
    counted_once(pairs, seconds)
}

// The ones among the bits of the bytes, eight bytes at a time and then one at a time.
pub fn ones_of(bytes: &[u8]) -> u64
    requires { length bytes.now ≤ 65536 }
    ensures { result ≡ ones_in bytes.now }
{
    let mut ones: u64 = 0;
    let (whole, last) = bytes.as_chunks::<8>();
    for eight in whole {
        ones += u64::from_le_bytes(*eight).count_ones() as u64;
    }
    for byte in last {
        ones += byte.count_ones() as u64;
    }
    ones
}
