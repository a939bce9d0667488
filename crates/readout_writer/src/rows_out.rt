// Image to readout two rows at a time, by words of eight bytes.
// Two rows are whole bytes of an image, so every pair starts at a byte.
ghost use Rattle.std.specs.Prelude.{◌≡◌, ◌+◌, ◌*◌, ◌/◌, ◌^◌, ◌≤◌, length};
ghost use Rattle.cells.specs.Cells.{cut, repeat, number};
ghost use Rattle.part.specs.Device.{image_bytes, readout_bytes, main_columns, wire_and_columns};
ghost use Rattle.part.specs.declared.Area.TheVariants.{Main, WireAnd};
ghost use Rattle.readout_rows.specs.Widths.{row_widths, pair_widths, block_widths, widths, whole_bytes};

use cells::words::{put_cells, word8};
use part::{Area, KnownDevice};
use readout_rows::sizes;

// The bytes of a main row that starts at a bit of the first byte of an image.
fn main_row_out(image: &[u8], shift: u32, out: &mut [u8])
    requires { (shift ≤ 4) × (14 ≤ length image.now) × (length out.old ≡ main_columns) }
    ensures { out.new ≡ cut (row_widths Main) (number image.now / 2 ^ shift) }
{
    put_cells(word8(image, 0) >> shift, 8, 4, out, 0);
    put_cells(word8(image, 4) >> shift, 8, 5, out, 4);
    put_cells(word8(image, 6) >> (shift + 24), 6, 6, out, 9);
}

// The bytes of a wire-AND row that starts at a bit of the first eight bytes of an image, and ends in them.
fn wire_and_row_out(image: &[u8], shift: u32, out: &mut [u8])
    requires { (shift ≤ 28) × (8 ≤ length image.now) × (length out.old ≡ wire_and_columns) }
    ensures { out.new ≡ cut (row_widths WireAnd) (number image.now / 2 ^ shift) }
{
    let word = word8(image, 0) >> shift;
    put_cells(word, 8, 1, out, 0);
    put_cells(word >> 8, 7, 4, out, 1);
}

// The bytes of two main rows of an image. A row is 13 bytes and 4 bits: the second one starts in the middle of a byte.
fn main_rows_out(image: &[u8], out: &mut [u8])
    requires { (length image.now ≡ 27) × (length out.old ≡ 2 * main_columns) }
    ensures { out.new ≡ cut (pair_widths Main) (number image.now) }
{
    let (_, behind) = image.split_at(13);
    let (first, second) = out.split_at_mut(sizes::MAIN_COLUMNS);
    main_row_out(image, 0, first);
    main_row_out(behind, 4, second);
}

// The bytes of two wire-AND rows of an image. A row is 4 bytes and 4 bits; of the second one eight bytes are taken.
fn wire_and_rows_out(image: &[u8], out: &mut [u8])
    requires { (length image.now ≡ 9) × (length out.old ≡ 2 * wire_and_columns) }
    ensures { out.new ≡ cut (pair_widths WireAnd) (number image.now) }
{
    let (_, behind) = image.split_at(1);
    let (first, second) = out.split_at_mut(sizes::WIRE_AND_COLUMNS);
    wire_and_row_out(image, 0, first);
    wire_and_row_out(behind, 28, second);
}

// The bytes of two rows of an image. Each area has its own step, as in `readout_reader`.
fn pair_out(area: Area, image: &[u8], out: &mut [u8])
    requires { (length image.now ≡ whole_bytes (pair_widths area))
        × (length out.old ≡ length (pair_widths area)) }
    ensures { out.new ≡ cut (pair_widths area) (number image.now) }
{
    match area {
        Area::Main => main_rows_out(image, out),
        Area::WireAnd => wire_and_rows_out(image, out),
    }
}

// The bytes of some pairs of rows of an image, one after another.
fn pairs_out(area: Area, image: &[u8], out: &mut [u8], count: usize)
    requires { (length image.now ≡ count * whole_bytes (pair_widths area))
        × (length out.old ≡ count * length (pair_widths area)) }
    ensures { out.new ≡ cut (repeat count (pair_widths area)) (number image.now) }
{
    let whole = sizes::pair_image_bytes(area);
    let bytes = sizes::pair_readout_bytes(area);
    for k in 0..count {
        let from = k * whole;
        let at = k * bytes;
        pair_out(area, &image[from..from + whole], &mut out[at..at + bytes]);
    }
}

// The bytes of a block of an image: the way back of `block_in` of `readout_reader`.
fn block_out(part: KnownDevice, image: &[u8], out: &mut [u8])
    requires { (length image.now ≡ whole_bytes (block_widths part.device))
        × (length out.old ≡ length (block_widths part.device)) }
    ensures { out.new ≡ cut (block_widths part.device) (number image.now) }
{
    let (main, wire_and) = image.split_at(sizes::MAIN_IMAGE_BYTES);
    let (main_out, wire_and_out) = out.split_at_mut(sizes::MAIN_BYTES);
    pairs_out(Area::Main, main, main_out, sizes::MAIN_PAIRS);
    let pairs = part.device.blocks as usize * sizes::WIRE_AND_PAIRS;
    pairs_out(Area::WireAnd, wire_and, wire_and_out, pairs);
}

// The bytes of all blocks of an image.
pub fn blocks_out(part: KnownDevice, image: &[u8], out: &mut [u8])
    requires { (length image.now ≡ image_bytes part.device) × (length out.old ≡ readout_bytes part.device) }
    ensures { out.new ≡ cut (widths part.device) (number image.now) }
{
    let whole = sizes::block_image_bytes(part);
    let bytes = sizes::block_bytes(part);
    for k in 0..part.device.blocks as usize {
        let from = k * whole;
        let at = k * bytes;
        block_out(part, &image[from..from + whole], &mut out[at..at + bytes]);
    }
}
