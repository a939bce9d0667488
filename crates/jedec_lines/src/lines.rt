// The characters of columns and of a line, by words of eight bytes.
// A function here may require that the line lies in the slice and its bits in the image.
ghost use Rattle.std.specs.Prelude.{◌≡◌, List, ℕ, ◌+◌, ◌*◌, ◌/◌, ◌^◌, ◌<◌, ◌≤◌, length, replicate};
ghost use Rattle.std.proofs.lemmas.List.Edits.{sets};
ghost use Rattle.cells.specs.Cells.{cut, total, number};
ghost use Rattle.jedec.specs.WrittenText.{line_text};
ghost use Rattle.jedec_lines.specs.Columns.{column_text, columns_of, Wide, AllWide, Stored};

use super::characters::{SPACE, eight_states, line_start, spaced_states};
use cells::words::{put_cells, word8};

// `*` and LF as one word, its first byte lowest.
const LINE_END: u64 = 0x0A2A;

// The bytes of a line of five columns besides its bits: `L`, seven digits, a space before each column, `*`, LF.
pub const LINE_FRAME: usize = 1 + 7 + 5 + 2;

// The eight bytes of a word, lowest first. It compiles to one store; `copy_from_slice` was tried, and first tests
// whether the two slices overlap. A slice that begins at the index would ask for the same eight bytes, and the
// contracts of the callers speak of the whole slice.
pub fn put_eight(word: u64, out: &mut [u8], at: usize)
    requires { at + 8 ≤ length out.old }
    ensures { out.new ≡ sets out.old at (cut (replicate 8 8) word) }
{
    let bytes = word.to_le_bytes();
    for k in 0..8 {
        out[at + k] = bytes[k];
    }
}

// A column: a space and its bits.
fn put_column(word: u64, width: usize, out: &mut [u8], at: usize)
    requires { (Wide width) × (at + 9 ≤ length out.old) }
    ensures { Stored out.old out.new at (column_text width word) }
{
    if width == 8 {
        put_cells(SPACE, 8, 1, out, at);
        put_eight(eight_states(word), out, at + 1);
    } else {
        put_eight(spaced_states(word), out, at);
    }
}

// The bits of an image from a fuse on, at least 56 or all that are left: the last lines are
// taken from the last eight bytes. Here and in `put_line` the image has eight bytes, as that of every device has.
fn bits_from(image: &[u8], fuse: usize) -> u64
    requires { (8 ≤ length image.now) × (fuse < length image.now * 8) }
    ensures { (ws : List ℕ) → total ws ≤ 56 → fuse + total ws ≤ length image.now * 8
        → cut ws result ≡ cut ws (number image.now / 2 ^ fuse) }
{
    let last = image.len() - 8;
    let byte = fuse / 8;
    if byte < last {
        return word8(image, byte) >> (fuse % 8);
    }
    word8(image, last) >> (fuse - last * 8)
}

// Five columns, one after another; the index behind them. A width is a number and no enum of the widths that `AllWide`
// allows: it counts characters, fuses and shifts, so each use would turn it into the number again.
#[inline(always)]
fn put_columns(word: u64, widths: [usize; 5], out: &mut [u8], at: usize) -> usize
    requires { (AllWide widths) × (at + 7 + total widths ≤ length out.old) }
    ensures stored { Stored out.old out.new at (columns_of word widths) }
    ensures behind { result ≡ at + (5 + total widths) }
{
    let mut rest = word;
    let mut next = at;
    for width in widths {
        put_column(rest, width, out, next);
        rest = rest >> width;
        next += 1 + width;
    }
    next
}

// A line of five columns; how many fuses it has. Where it is called its widths are known: so it is compiled there, and
// tests none of them.
#[inline(always)]
pub fn put_line(image: &[u8], fuse: usize, widths: [usize; 5], out: &mut [u8], at: usize) -> usize
    requires { (8 ≤ length image.now) × (length image.now ≤ 125000)
        × (fuse + total widths ≤ length image.now * 8) × (at + 15 + total widths ≤ length out.old)
        × (AllWide widths) }
    ensures stored { out.new ≡ sets out.old at (line_text image.now fuse widths) }
    ensures fuses { result ≡ total widths }
{
    let word = bits_from(image, fuse);
    put_eight(line_start(fuse as u32), out, at);
    let behind = put_columns(word, widths, out, at + 8);
    put_cells(LINE_END, 8, 2, out, behind);
    behind - (at + 13)
}
