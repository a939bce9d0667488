// The text of an image: its rows, its blocks, and the frame around the lines.
// A function here may require that what it puts fits the slice.
ghost use Rattle.std.specs.Prelude.{◌≡◌, [], ◌∷◌, ◌+◌, ◌≤◌, length};
ghost use Rattle.std.proofs.lemmas.List.Edits.{sets};
ghost use Rattle.cells.specs.Cells.{repeat};
ghost use Rattle.part.specs.Device.{fuse_count, text_bytes};
ghost use Rattle.jedec.specs.WrittenText.{lines_text, head_text, foot_text};
ghost use Rattle.jedec_lines.specs.Columns.{AllWide};
ghost use Rattle.jedec_writer.specs.Pattern.{row_lines, block_lines, lines_bytes, pattern, text_of};
ghost use Rattle.jedec_writer.specs.Spots.{Room, Lined};

use cells::words::put_cells;
use image::DeviceImage;
use jedec_lines::characters::{four_hex, line_start};
use jedec_lines::lines::{LINE_FRAME, put_line};
use part::geometry::{MAIN_ROWS, WIRE_AND_ROWS, decimal_digits};
use part::{Area, KnownDevice};

// What stands around the count and around the sum, each as one word with its first byte lowest: STX, `*`, LF, `QF`;
// `*`, LF, `F0*`, LF; `C`; `*`, LF, ETX.
const BEFORE_COUNT: u64 = 0x46_510A_2A02;

const AFTER_COUNT: u64 = 0x0A2A_3046_0A2A;

const BEFORE_SUM: u64 = b'C' as u64;

const AFTER_SUM: u64 = 0x03_0A2A;

// Where a line begins: its first fuse, and its first byte in the text.
#[derive(Clone, Copy, Debug, PartialEq, Eq)]
pub struct Spot {
    pub fuse: usize,
    pub at: usize,
}

// A line of five columns; where the next one begins. Compiled where it is called, as `put_line` is: a function of its
// own would be slower, as measured. The widths are numbers for the reason that `put_columns` of `jedec_lines` gives.
#[inline(always)]
fn line_out(image: &[u8], widths: [usize; 5], from: Spot, out: &mut [u8]) -> Spot
    requires wide { AllWide widths }
    requires room { Room (widths ∷ []) image.now from out.old }
    ensures { Lined (widths ∷ []) image.now out.old out.new from result }
{
    let fuses = put_line(image, from.fuse, widths, out, from.at);
    Spot {
        fuse: from.fuse + fuses,
        at: from.at + LINE_FRAME + fuses,
    }
}

// The lines of a row.
fn row_out(area: Area, image: &[u8], from: Spot, out: &mut [u8]) -> Spot
    requires { Room (row_lines area) image.now from out.old }
    ensures { Lined (row_lines area) image.now out.old out.new from result }
{
    match area {
        Area::Main => {
            let second = line_out(image, [8, 8, 8, 8, 8], from, out);
            let third = line_out(image, [8, 8, 8, 8, 6], second, out);
            line_out(image, [6, 6, 6, 6, 6], third, out)
        }
        Area::WireAnd => line_out(image, [8, 7, 7, 7, 7], from, out),
    }
}

// The lines of some rows, one after another.
fn rows_out(area: Area, count: u32, image: &[u8], from: Spot, out: &mut [u8]) -> Spot
    requires { Room (repeat count (row_lines area)) image.now from out.old }
    ensures { Lined (repeat count (row_lines area)) image.now out.old out.new from result }
{
    let mut next = from;
    for row in 0..count {
        next = row_out(area, image, next, out);
    }
    next
}

// The lines of a block.
fn block_out(image: DeviceImage, from: Spot, out: &mut [u8]) -> Spot
    requires { Room (block_lines image.part.device) image.bytes.now from out.old }
    ensures { Lined (block_lines image.entry.part.device) image.entry.bytes.now out.old out.new from result }
{
    let behind_main = rows_out(Area::Main, MAIN_ROWS, image.bytes, from, out);
    let rows = image.part.blocks() * WIRE_AND_ROWS;
    rows_out(Area::WireAnd, rows, image.bytes, behind_main, out)
}

// The lines of all blocks; the index behind them.
fn blocks_out(image: DeviceImage, out: &mut [u8], at: usize) -> usize
    requires { at + lines_bytes (pattern image.part.device) ≤ length out.old }
    ensures stored { out.new
        ≡ sets out.old at (lines_text image.entry.bytes.now 0 (pattern image.entry.part.device)) }
    ensures behind { result ≡ at + lines_bytes (pattern image.entry.part.device) }
{
    let mut next = Spot { fuse: 0, at };
    for block in 0..image.part.blocks() {
        next = block_out(image, next, out);
    }
    next.at
}

// From STX to the line before the first L; the index behind them. The count's digits are the last of the seven.
fn head_out(part: KnownDevice, out: &mut [u8]) -> usize
    requires { length (head_text (fuse_count part.device)) ≤ length out.old }
    ensures stored { out.new ≡ sets out.old 0 (head_text (fuse_count part.device)) }
    ensures behind { result ≡ length (head_text (fuse_count part.device)) }
{
    let fuses = part.fuse_count();
    let digits = decimal_digits(fuses) as usize;
    put_cells(BEFORE_COUNT, 8, 5, out, 0);
    put_cells(line_start(fuses) >> (64 - digits * 8), 8, digits, out, 5);
    put_cells(AFTER_COUNT, 8, 6, out, 5 + digits);
    11 + digits
}

// The line of the fuse sum, and ETX; the index behind them. Slice and index, as in `head_out` and `blocks_out`: each
// gives the next one the index where it goes on.
fn foot_out(sum: u16, out: &mut [u8], at: usize) -> usize
    requires { at + 8 ≤ length out.old }
    ensures stored { out.new ≡ sets out.old at (foot_text sum) }
    ensures behind { result ≡ at + 8 }
{
    put_cells(BEFORE_SUM, 8, 1, out, at);
    put_cells(four_hex(sum), 8, 4, out, at + 1);
    put_cells(AFTER_SUM, 8, 3, out, at + 5);
    at + 8
}

// The text of an image, and nothing behind it.
pub fn text_out(image: DeviceImage, text: &mut [u8])
    requires { text_bytes image.part.device ≤ length text.old }
    ensures { text.new ≡ sets text.old 0 (text_of image.entry.part.device image.entry.bytes.now) }
{
    let lines = head_out(image.part, text);
    let foot = blocks_out(image, text, lines);
    let end = foot_out(image::bytes::sum_of(image.bytes), text, foot);
    let sum = image::bytes::sum_of(&text[..end]);
    put_cells(four_hex(sum), 8, 4, text, end);
}
