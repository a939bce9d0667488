// An image filled with a start state, and states put into it: what a field does to the image that the reader makes.
// A function here may require that the image has its length and that bytes write states.
ghost use Rattle.std.specs.Prelude.{◌≡◌, [], ◌+◌, ◌*◌, ◌-◌, ◌/◌, ◌^◌, ◌<◌, ◌≤◌, length, drop, replicate};
ghost use Rattle.std.proofs.Math.Option.Option.{some};
ghost use Rattle.cells.specs.Cells.{cut};
ghost use Rattle.jedec.specs.Judge.{states_in};
ghost use Rattle.jedec.specs.Rules.{state_given, image_with};
ghost use Rattle.jedec_judge.specs.Judged.{states_of, states_in_word};
ghost use Rattle.jedec_image.specs.States.{with_states, put_field, PutFits};

use cells::words::low_bits;
use jedec_judge::{FieldSays, STATES_IN_WORD};
use jedec_runs::states::{bits_at, blank_at, states_at};

// A state is asked to be below 2, and the image to have the bytes of so many fuses. The first is a bound of one number
// of the text; the second is a fact of a number and of a slice that changes, which a struct would hold mutably.

// A byte of which the lowest bits have a state, and the others are 0.
fn byte_of(state: u32, bits: u32) -> u8
    requires { (state < 2) × (bits ≤ 8) }
    ensures { result ≡ state * (2 ^ bits - 1) }
{
    (state * ((1 << bits) - 1)) as u8
}

// Puts every fuse at a start state; bits past the last fuse are 0.
pub fn fill(image: &mut [u8], fuses: u32, state: u32)
    requires { (length image.old ≡ (fuses + 7) / 8) × (state < 2) }
    ensures { image.new ≡ image_with fuses (state_given state []) }
{
    let whole = (fuses / 8) as usize;
    image[..whole].fill(byte_of(state, 8));
    if whole < image.len() {
        image[whole] = byte_of(state, fuses % 8);
    }
}

// The states that some bytes write, put in place from a fuse on. A byte of the image is stored when its last bit is
// known, and at the end; until then its new low bits stand in `low`.
fn put_states(bytes: &[u8], image: &mut [u8], fuse: usize)
    requires { (states_in bytes.now ≡ some (states_of bytes.now)) × (0 < length (states_of bytes.now))
        × (fuse + length (states_of bytes.now) ≤ length image.old * 8) }
    ensures { image.new ≡ with_states image.old fuse (states_of bytes.now) }
{
    let mut index = fuse / 8;
    let mut bit: u32 = (fuse % 8) as u32;
    let mut low = low_bits(image[index] as u64, bit);
    let mut i: usize = 0;
    // Each turn goes on by as many bytes as it takes, up to nine, so this is no `for`.
    while i < bytes.len() {
        let count = states_at(bytes, i);
        low += bits_at(bytes, i, count) << bit;
        bit += count as u32;
        i += count + blank_at(bytes, i + count) as usize;
        if 8 <= bit {
            image[index] = low_bits(low, 8) as u8;
            low = low >> 8;
            index += 1;
            bit -= 8;
        }
    }
    if 0 < bit {
        let above = image[index] as u64 >> bit;
        image[index] = ((above << bit) + low) as u8;
    }
}

// A few states, told as bits, put in place from a fuse on. The low bits of the first byte stay, and so do the high bits
// of the last.
fn put_bits(bits: u64, count: u32, image: &mut [u8], fuse: usize)
    requires { (count ≤ states_in_word) × (0 < count) × (bits < 2 ^ count)
        × (fuse + count ≤ length image.old * 8) }
    ensures { image.new ≡ with_states image.old fuse (cut (replicate count 1) bits) }
{
    let first = fuse / 8;
    let bit: u32 = (fuse % 8) as u32;
    let mut rest = low_bits(image[first] as u64, bit) + (bits << bit);
    let end = bit + count;
    let last = first + (end / 8) as usize;
    for index in first..last {
        image[index] = low_bits(rest, 8) as u8;
        rest = rest >> 8;
    }
    let left = end % 8;
    if 0 < left {
        let above = image[last] as u64 >> left;
        image[last] = ((above << left) + rest) as u8;
    }
}

// What a field puts into the image: a start state, or states unless an L is misplaced.
pub fn put_field(
    fuses: u32,
    field: &[u8],
    says: FieldSays,
    misplaced: Option<u32>,
    image: &mut [u8],
)
    requires { (length image.old ≡ (fuses + 7) / 8) × PutFits fuses (drop 1 field.now) says misplaced }
    ensures { image.new ≡ put_field fuses (drop 1 field.now) says misplaced image.old }
{
    match says {
        FieldSays::Start(state) => fill(image, fuses, state),
        FieldSays::List(list) if misplaced.is_none() => {
            let first = list.first as usize;
            if list.count <= STATES_IN_WORD {
                put_bits(list.bits, list.count as u32, image, first);
            } else {
                let from = list.skip + 1;
                put_states(&field[from..], image, first);
            }
        }
        _ => {}
    }
}
