// The words of two images: eight bytes at a time, and where they differ.
// A function here may require that the images have the same length, and that an index is there.
ghost use Rattle.std.specs.Prelude.{◌≡◌, ◌&&◌, ◌+◌, ◌≤◌, ◌<◌, length, drop, replicate};
ghost use Rattle.cells.specs.Cells.{join};
ghost use Rattle.differences.specs.Scan.{same_word, differing_from};

use cells::words::word8;

// The eight bytes from an index on as one word; bytes that are not there count as 0.
pub fn word_at(bytes: &[u8], at: usize) -> u64
    requires { at < length bytes.now }
    ensures { result ≡ join (replicate 8 8) (drop at bytes.now) }
{
    let left = bytes.len() - at;
    if 8 <= left {
        return word8(bytes, at);
    }
    cells::words::joined(bytes, at, 8, left)
}

// Whether 32 bytes from an index on are the same in both. The lengths are the same in each function here.
fn same_four(old: &[u8], new: &[u8], at: usize) -> bool
    requires { (at + 32 ≤ length old.now) × (length new.now ≡ length old.now) }
    ensures { result
        ≡ ((same_word old.now new.now at && same_word old.now new.now (at + 8))
        && (same_word old.now new.now (at + 16)
        && same_word old.now new.now (at + 24))) }
{
    let one = word8(old, at) == word8(new, at);
    let two = word8(old, at + 8) == word8(new, at + 8);
    let three = word8(old, at + 16) == word8(new, at + 16);
    let four = word8(old, at + 24) == word8(new, at + 24);
    (one & two) & (three & four)
}

// Bytes that are the same in both are passed over, 32 at a time. Here and in `skip_same` the index goes on in steps,
// and is the answer also where nothing differs.
fn skip_fours(old: &[u8], new: &[u8], from: usize) -> usize
    requires { (length new.now ≡ length old.now) × (length old.now ≤ 65536) × (from ≤ length old.now + 8) }
    ensures { (differing_from old.now new.now from
        ≡ differing_from old.now new.now result) × (from ≤ result) × (result ≤ length old.now + 8) }
{
    let mut at = from;
    while at + 32 <= old.len() {
        if !same_four(old, new, at) {
            return at;
        }
        at += 32;
    }
    at
}

// The same, and then eight at a time: a word that is not the same in both, or the last bytes, or the end.
pub fn skip_same(old: &[u8], new: &[u8], from: usize) -> usize
    requires { (length new.now ≡ length old.now) × (length old.now ≤ 65536) × (from ≤ length old.now + 8) }
    ensures { (differing_from old.now new.now from
        ≡ differing_from old.now new.now result) × (from ≤ result) × (result ≤ length old.now + 8) }
{
    let mut at = skip_fours(old, new, from);
    while at + 8 <= old.len() {
        if word8(old, at) != word8(new, at) {
            return at;
        }
        at += 8;
    }
    at
}
