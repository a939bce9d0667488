// The characters of bits and of numbers, each as one word with its first byte lowest.
// A function here may require that its number is small enough.
ghost use Rattle.std.specs.Prelude.{◌≡◌, ◌∷◌, ◌%◌, ◌^◌, ◌<◌};
ghost use Rattle.cells.specs.Cells.{number};
ghost use Rattle.jedec.specs.Characters.{space, letter_l, seven_digits, hex_digit, four_hex};
ghost use Rattle.jedec_lines.specs.Columns.{bits_text};

use cells::words::low_bits;

pub const SPACE: u64 = b' ' as u64;

// The digit 0, and the character ten before A.
const DIGIT_0: u64 = b'0' as u64;

const BEFORE_A: u64 = b'A' as u64 - 10;

// The eight characters of seven bits and a 0. A product by 1 + 2^7 + 2^14 + .. has bit k of the seven at bit 8k.
fn seven_states(bits: u64) -> u64
    ensures { (result ≡ number (bits_text 8 (bits % 2 ^ 7))) × (result < 2 ^ 62) }
{
    let apart = (low_bits(bits, 7) * 0x0002_0408_1020_4081) & 0x0101_0101_0101_0101;
    apart + 0x3030_3030_3030_3030
}

// The characters of eight bits.
pub fn eight_states(bits: u64) -> u64
    ensures { result ≡ number (bits_text 8 (bits % 2 ^ 8)) }
{
    let seven = seven_states(bits);
    seven + low_bits(bits >> 7, 1) * 0x0100_0000_0000_0000
}

// A space and the characters of seven bits.
pub fn spaced_states(bits: u64) -> u64
    ensures { result ≡ number (space ∷ bits_text 7 (bits % 2 ^ 7)) }
{
    (seven_states(bits) << 8) + SPACE
}

// `L` and the seven digits of a fuse. The digits are taken in twos: 429497 is 2^32 / 10000 and a little more, so the
// first two stand above bit 32 of the product, and the next two of a hundred times what is below, twice. Then t / 10 is
// t * 103 / 1024, of all at once; t becomes t / 10 and t % 10 by 256 * t - 2559 * (t / 10).
pub fn line_start(fuse: u32) -> u64
    requires { fuse < 1000000 }
    ensures { result ≡ number (letter_l ∷ seven_digits fuse) }
{
    let scaled = fuse as u64 * 429497;
    let next = low_bits(scaled, 32) * 100;
    let last = low_bits(next, 32) * 100;
    let twos = (scaled >> 32) * 0x0001_0000
        + (next >> 32) * 0x0001_0000_0000
        + (last >> 32) * 0x0001_0000_0000_0000;
    let tens = ((twos * 103) & 0x3C00_3C00_3C00_0000) >> 10;
    (twos * 256 - tens * 2559) + 0x3030_3030_3030_304C
}

// A hex digit, in upper case.
fn hex_digit(x: u64) -> u64
    requires { x < 16 }
    ensures { (result ≡ hex_digit x) × (result < 128) }
{
    if x <= 9 {
        return DIGIT_0 + x;
    }
    BEFORE_A + x
}

// The four upper-case digits of a sum. A call for each: a loop over four digits would say no more.
pub fn four_hex(sum: u16) -> u64
    ensures { result ≡ number (four_hex sum) }
{
    let x = sum as u64;
    let one = hex_digit(x / 4096);
    let two = hex_digit(x / 256 % 16);
    let three = hex_digit(x / 16 % 16);
    let four = hex_digit(x % 16);
    one + two * 0x0100 + three * 0x0001_0000 + four * 0x0100_0000
}
