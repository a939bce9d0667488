// What follows ETX: four hex digits, and then blanks alone.
// A function here may require that a position is in the text: it moves on at each call, so no type keeps that.
ghost use Rattle.std.specs.Prelude.{◌≤◌, length, drop};
ghost use Rattle.jedec.specs.Cut.{tail_from};
ghost use Rattle.jedec_end.specs.End.{TailStands};

use jedec::blanks::next_other;
use jedec_judge::digits::hex_value;

// The transmission sum that stands after an ETX, from an offset on, or the offset of the first wrong byte.
pub fn tail_from(text: &[u8], at: usize) -> Result<u32, usize>
    requires { at ≤ length text.now }
    ensures { TailStands text.now at (tail_from at 4 0 (drop at text.now)) result }
{
    let mut sum: u32 = 0;
    for read in 0..4 {
        let i = at + read;
        if i == text.len() {
            return Err(i);
        }
        let Some(digit) = hex_value(text[i]) else {
            return Err(i);
        };
        sum = sum * 16 + digit;
    }
    match next_other(text, at + 4) {
        Some(other) => Err(other),
        None => Ok(sum),
    }
}
