// The lines of a report, put into a slice: the counts of an image, and a refusal.
// A function here may require that the lines fit the slice.
ghost use Rattle.std.specs.Prelude.{◌≡◌, ◌++◌, ◌+◌, ◌≤◌, length};
ghost use Rattle.std.proofs.lemmas.List.Edits.{sets};
ghost use Rattle.part.specs.Device.{fuse_count};
ghost use Rattle.image.specs.Image.{zeros_below};
ghost use Rattle.jedec.specs.Characters.{decimal_digit, digits_of, count_digits, four_hex};
ghost use Rattle.report_lines.specs.ReportLines.{word_sum, line, count_lines, refusal_line};
ghost use Rattle.report_lines.specs.Put.{Put};

use cells::words::put_cells;
use image::DeviceImage;
use image::bytes::sum_of;
use jedec_lines::characters::four_hex;
use part::geometry::decimal_digits;

// Some bytes put into a slice from an index on; the index behind them. Each function here takes slice and index: a
// writer that holds both would be a loan in every contract.
pub fn put(bytes: &[u8], out: &mut [u8], at: usize) -> usize
    requires { at + length bytes.now ≤ length out.old }
    ensures { Put out.old out.new at bytes.now result }
{
    let end = at + bytes.len();
    out[at..end].copy_from_slice(bytes);
    end
}

// The last `count` decimal digits of a number.
fn put_digits(x: u32, count: usize, out: &mut [u8], at: usize)
    requires { at + count ≤ length out.old }
    ensures { out.new ≡ sets out.old at (digits_of 10 decimal_digit count x) }
{
    let mut rest = x;
    for i in (0..count).rev() {
        out[at + i] = b'0' + (rest % 10) as u8;
        rest = rest / 10;
    }
}

// A word and a number.
fn put_number(word: &[u8], x: u32, out: &mut [u8], at: usize) -> usize
    requires { at + length word.now + 7 ≤ length out.old }
    ensures { (Put out.old out.new at (word.now ++ count_digits x) result)
        × (result ≤ at + length word.now + 7) }
{
    let behind = put(word, out, at);
    let digits = decimal_digits(x) as usize;
    put_digits(x, digits, out, behind);
    behind + digits
}

// A line of a word and a number.
fn put_line(word: &[u8], x: u32, out: &mut [u8], at: usize) -> usize
    requires { at + length word.now + 8 ≤ length out.old }
    ensures { (Put out.old out.new at (line word.now (count_digits x)) result)
        × (result ≤ at + length word.now + 8) }
{
    let behind = put_number(word, x, out, at);
    put(b"\n", out, behind)
}

// The line of a refusal, by its number and value: any two, as the definition has it, so no `Refusal` is asked for. Any
// slice of 64 bytes or more will do, here and in `put_counts`: an array of 64 bytes in the type would ask more.
pub fn put_refusal(number: u32, value: u32, out: &mut [u8]) -> usize
    requires { 64 ≤ length out.old }
    ensures { Put out.old out.new 0 (refusal_line number value) result }
{
    let behind = put_number(b"refused ", number, out, 0);
    put_line(b" at ", value, out, behind)
}

// The fuses at 0 of an image. It has the length of the device, so the count is not refused.
fn zeros_in(image: DeviceImage) -> u32
    ensures { result ≡ zeros_below image.entry.bytes.now (fuse_count image.entry.part.device) }
{
    image::zero_count(image.part.device, image.bytes).unwrap()
}

// The line of a fuse sum.
fn put_sum(sum: u16, out: &mut [u8], at: usize) -> usize
    requires { at + 9 ≤ length out.old }
    ensures { Put out.old out.new at (line word_sum (four_hex sum)) result }
{
    let behind = put(b"sum ", out, at);
    put_cells(four_hex(sum), 8, 4, out, behind);
    put(b"\n", out, behind + 4)
}

// The four lines of an image.
pub fn put_counts(image: DeviceImage, out: &mut [u8]) -> usize
    requires { 64 ≤ length out.old }
    ensures { Put out.old out.new 0 (count_lines image.entry.part.device image.entry.bytes.now) result }
{
    let one = put_line(b"blocks ", image.part.blocks(), out, 0);
    let two = put_line(b"fuses ", image.part.fuse_count(), out, one);
    let three = put_line(b"zero ", zeros_in(image), out, two);
    put_sum(sum_of(image.bytes), out, three)
}
