// Readout to image two rows at a time, by words of eight bytes.
// Two rows are whole bytes of an image, so every pair starts at a byte.
ghost use Rattle.std.specs.Prelude.{◌≡◌, ◌+◌, ◌*◌, ◌-◌, ◌/◌, ◌^◌, ◌<◌, ◌≤◌, length, drop, replicate};
ghost use Rattle.cells.specs.Cells.{cut, join, repeat};
ghost use Rattle.part.specs.Device.{image_bytes, readout_bytes, main_columns, wire_and_columns};
ghost use Rattle.part.specs.declared.Area.TheVariants.{Main, WireAnd};
ghost use Rattle.readout_rows.specs.Widths.{row_widths, pair_widths, block_widths, widths, whole_bytes, bytes_in};

use cells::words::{joined, put_cells, word8};
use part::geometry::WIRE_AND_ROW_FUSES;
use part::{Area, KnownDevice};
use readout_rows::sizes;

// The number that some cells join to, above the bits that the cells before left over, and of that as many bytes as an
// image slice has, put there. Answers what is left over now. That what is carried is below 2^shift is a fact of two
// numbers which change at each step, so it is asked for and not kept in a type.
fn put_above(cells: u64, carry: u64, shift: u32, image: &mut [u8]) -> u64
    requires { (cells < 2 ^ 48) × (carry < 2 ^ shift) × (shift ≤ 4) × (length image.old ≤ 7) }
    ensures value { result ≡ (cells * 2 ^ shift + carry) / 2 ^ (length image.old * 8) }
    ensures image_after { image.new ≡ cut (replicate (length image.old) 8) (cells * 2 ^ shift + carry) }
{
    let word = (cells << shift) + carry;
    put_cells(word, 8, image.len(), image, 0);
    word >> (image.len() * 8)
}

// As `put_above`, for a whole word and eight bytes: what is left over is the top of the word.
fn put_eight(word: u64, carry: u64, shift: u32, image: &mut [u8]) -> u64
    requires { (carry < 2 ^ shift) × (shift ≤ 36) × (length image.old ≡ 8) }
    ensures value { result ≡ (word * 2 ^ shift + carry) / 2 ^ (8 * 8) }
    ensures image_after { image.new ≡ cut (replicate 8 8) (word * 2 ^ shift + carry) }
{
    put_cells((word << shift) + carry, 8, 8, image, 0);
    (word >> 1) >> (63 - shift)
}

// Six cells of 6 bits, each in a byte of a word, put together: first each with the one above it, then two and two. At
// the end what is below is moved up, and then all down: so it stays one word for the compiler, and is stored as one.
fn six_together(word: u64) -> u64
    ensures { result ≡ join (replicate 6 6) (cut (replicate 6 8) word) }
{
    let low = word & 0x3F3F_3F3F_3F3F;
    let odd = word & 0x3F00_3F00_3F00;
    let pairs = low - (odd >> 2) * 3;
    let two = pairs + pairs % 0x0001_0000 * 15;
    let all = two + two % 0x0001_0000_0000 * 15;
    all >> 8
}

// A wire-AND row, a cell of 8 bits and four of 7, each in a byte of a word, put together in the same way.
fn five_together(word: u64) -> u64
    ensures { result ≡ join (row_widths WireAnd) (cut (replicate 5 8) word) }
{
    let low = word & 0x007F_7F7F_7FFF;
    let odd = word & 0x007F_007F_0000;
    let pairs = low - (odd >> 1);
    let all = pairs + pairs % 0x0100_0000 * 3;
    all >> 2
}

// What the six narrow cells of a main row join to. They are taken from eight bytes, of which two are before them.
fn narrow_cells(row: &[u8]) -> u64
    requires { length row.now ≡ main_columns }
    ensures { result ≡ join (replicate 6 6) (drop 9 row.now) }
{
    six_together(word8(row, 7) >> 16)
}

// What the cells of a wire-AND row join to. They are taken from eight bytes, of which `skip` are before them: a row has
// only five, so this takes its pair and the index of the row.
fn wire_and_row(readout: &[u8], at: usize, skip: usize) -> u64
    requires { (skip ≤ 3) × (skip ≤ at) × (at + (8 - skip) ≤ length readout.now) }
    ensures { result ≡ join (row_widths WireAnd) (drop at readout.now) }
{
    five_together(word8(readout, at - skip) >> (skip * 8))
}

// As `put_above`, for the cells of a main row, which fill nine image bytes and some more.
fn main_row_in(row: &[u8], carry: u64, shift: u32, image: &mut [u8]) -> u64
    requires { (length row.now ≡ main_columns) × (carry < 2 ^ shift) × (shift ≤ 4)
        × (9 ≤ length image.old) × (length image.old ≤ 16) }
    ensures value { result
        ≡ (join (row_widths Main) row.now * 2 ^ shift + carry) / 2 ^ (length image.old * 8) }
    ensures image_after { image.new
        ≡ cut (replicate (length image.old) 8) (join (row_widths Main) row.now * 2 ^ shift + carry) }
{
    let (eight, behind) = image.split_at_mut(8);
    let (one, more) = behind.split_at_mut(1);
    let first = put_eight(word8(row, 0), carry, shift, eight);
    let second = put_above(joined(row, 8, 8, 1), first, shift, one);
    put_above(narrow_cells(row), second, shift, more)
}

// The 27 image bytes of two main rows of a readout.
fn main_rows_in(readout: &[u8], image: &mut [u8])
    requires { (length readout.now ≡ 2 * main_columns) × (length image.old ≡ 27) }
    ensures { image.new ≡ bytes_in (pair_widths Main) readout.now }
{
    let (first, second) = readout.split_at(sizes::MAIN_COLUMNS);
    let (front, back) = image.split_at_mut(13);
    let carry = main_row_in(first, 0, 0, front);
    main_row_in(second, carry, 4, back);
}

// The 9 image bytes of two wire-AND rows of a readout.
fn wire_and_rows_in(readout: &[u8], image: &mut [u8])
    requires { (length readout.now ≡ 2 * wire_and_columns) × (length image.old ≡ 9) }
    ensures { image.new ≡ bytes_in (pair_widths WireAnd) readout.now }
{
    let one = wire_and_row(readout, 0, 0);
    let two = wire_and_row(readout, sizes::WIRE_AND_COLUMNS, 3);
    let (eight, last) = image.split_at_mut(8);
    let top = put_eight(two, one, WIRE_AND_ROW_FUSES, eight);
    put_cells(top, 8, 1, last, 0);
}

// The image bytes of two rows of a readout. Each area has its own step: with two of them a match is plainer than a step
// that is passed.
fn pair_in(area: Area, readout: &[u8], image: &mut [u8])
    requires { (length readout.now ≡ length (pair_widths area))
        × (length image.old ≡ whole_bytes (pair_widths area)) }
    ensures { image.new ≡ bytes_in (pair_widths area) readout.now }
{
    match area {
        Area::Main => main_rows_in(readout, image),
        Area::WireAnd => wire_and_rows_in(readout, image),
    }
}

// The image bytes of some pairs of rows of a readout, one after another.
fn pairs_in(area: Area, readout: &[u8], image: &mut [u8], count: usize)
    requires { (length readout.now ≡ count * length (pair_widths area))
        × (length image.old ≡ count * whole_bytes (pair_widths area)) }
    ensures { image.new ≡ bytes_in (repeat count (pair_widths area)) readout.now }
{
    let bytes = sizes::pair_readout_bytes(area);
    let whole = sizes::pair_image_bytes(area);
    for k in 0..count {
        let from = k * bytes;
        let at = k * whole;
        let pair = &readout[from..from + bytes];
        pair_in(area, pair, &mut image[at..at + whole]);
    }
}

// The image bytes of a block of a readout. It has the shape of `block_out` of `readout_writer`, which goes the other
// way; one function for both would take each size and each step as a parameter.
fn block_in(part: KnownDevice, readout: &[u8], image: &mut [u8])
    requires { (length readout.now ≡ length (block_widths part.device))
        × (length image.old ≡ whole_bytes (block_widths part.device)) }
    ensures { image.new ≡ bytes_in (block_widths part.device) readout.now }
{
    let (main, wire_and) = readout.split_at(sizes::MAIN_BYTES);
    let (main_image, wire_and_image) = image.split_at_mut(sizes::MAIN_IMAGE_BYTES);
    pairs_in(Area::Main, main, main_image, sizes::MAIN_PAIRS);
    let pairs = part.device.blocks as usize * sizes::WIRE_AND_PAIRS;
    pairs_in(Area::WireAnd, wire_and, wire_and_image, pairs);
}

// The image bytes of all blocks of a readout.
pub fn blocks_in(part: KnownDevice, readout: &[u8], image: &mut [u8])
    requires { (length readout.now ≡ readout_bytes part.device) × (length image.old ≡ image_bytes part.device) }
    ensures { image.new ≡ bytes_in (widths part.device) readout.now }
{
    let bytes = sizes::block_bytes(part);
    let whole = sizes::block_image_bytes(part);
    for k in 0..part.device.blocks as usize {
        let from = k * bytes;
        let at = k * whole;
        block_in(
            part,
            &readout[from..from + bytes],
            &mut image[at..at + whole],
        );
    }
}
