// The states that stand next among bytes, up to eight at a time, by words of eight bytes.
// A function here may require that an offset is in the bytes.
ghost use Rattle.std.specs.Prelude.{◌≡◌, ℕ, ◌+◌, ◌^◌, ◌<◌, ◌≤◌, List, length, drop, replicate};
ghost use Rattle.cells.specs.Cells.{cut, join};
ghost use Rattle.jedec_runs.specs.Runs.{AllStates, StatesAt, IsBlankAt};
ghost use mir.Val.{bool_byte};

use cells::words::{joined, low_bits, word8};
use jedec::is_blank;

// In each byte of a word the lowest bit, and the character 0.
const ONES: u64 = 0x0101_0101_0101_0101;

const ZEROS: u64 = 0x3030_3030_3030_3030;

// The lowest bits of eight bytes side by side, for a word of nothing else. Those of the last four bytes are put between
// those of the first four; a product by 2^3 + 2^10 + 2^17 + 2^24 has the eight from bit 24 on.
fn lowest_bits(ones: u64) -> u64
    requires { ones ≤ 0x0101010101010101 }
    ensures { (x : ℕ) → x < 2 ^ 8 → ones ≡ join (replicate 8 8) (cut (replicate 8 1) x) → result ≡ x }
{
    let between = low_bits(ones + (ones >> 28), 32);
    low_bits((between * 0x0102_0408) >> 24, 8)
}

// How many of the first bytes of a word are taken for states at once: 8, 7, 6 or none. Without its lowest bit each of
// them is the character 0.
fn states_first(word: u64) -> usize
    ensures { (result ≤ 8) × ((bytes : List ℕ) → word ≡ join (replicate 8 8) bytes → AllStates result bytes) }
{
    let others = (word - (word & ONES)).wrapping_sub(ZEROS);
    if others == 0 {
        return 8;
    }
    if low_bits(others, 56) == 0 {
        return 7;
    }
    if low_bits(others, 48) == 0 {
        return 6;
    }
    0
}

// How many states stand at an offset, one next to another: at most eight, and perhaps not all; none only where none
// stands. The readers add the count to their offset, 0 too: so an `Option` is no plainer.
pub fn states_at(bytes: &[u8], at: usize) -> usize
    requires { at < length bytes.now }
    ensures { StatesAt bytes.now at result }
{
    if 8 <= bytes.len() - at {
        let count = states_first(word8(bytes, at));
        if 0 < count {
            return count;
        }
    }
    let b = bytes[at];
    if (b == b'0') | (b == b'1') {
        return 1;
    }
    0
}

// The lowest bits of so many bytes at an offset, the first as the lowest: for states, which they are.
pub fn bits_at(bytes: &[u8], at: usize, count: usize) -> u64
    requires { (at + count ≤ length bytes.now) × (count ≤ 8) }
    ensures { result ≡ join (replicate count 1) (drop at bytes.now) }
{
    if 8 <= bytes.len() - at {
        let bits = lowest_bits(word8(bytes, at) & ONES);
        return low_bits(bits, count as u32);
    }
    joined(bytes, at, 1, count)
}

// Whether a blank stands at an offset. The second test has a return of its own: so the compiler branches on it, and the
// next offset does not wait for a number that is made of it.
pub fn blank_at(bytes: &[u8], at: usize) -> bool
    ensures { IsBlankAt bytes.now at (bool_byte result) }
{
    if at < bytes.len() {
        if is_blank(bytes[at]) {
            return true;
        }
    }
    false
}
