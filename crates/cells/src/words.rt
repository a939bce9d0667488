// The two steps between a word and the bytes of a slice, each of which holds one cell of `width` bits.
// An image byte is a cell of 8 bits.
ghost use Rattle.std.specs.Prelude.{◌≡◌, ◌+◌, ◌%◌, ◌^◌, ◌<◌, ◌≤◌, length, drop, replicate};
ghost use Rattle.std.proofs.lemmas.List.Edits.{sets};
ghost use Rattle.cells.specs.Cells.{cut, join};

// The low `width` bits of a word.
pub fn low_bits(x: u64, width: u32) -> u64
    requires { width < 64 }
    ensures { result ≡ x % 2 ^ width }
{
    x & ((1 << width) - 1)
}

// `count` cells from index `at` on, joined into one word; of each cell the low `width` bits count. That a cell has at
// most 8 bits is asked of the caller, as elsewhere: a width is a number that each caller writes.
pub fn joined(cells: &[u8], at: usize, width: u32, count: usize) -> u64
    requires { (at + count ≤ length cells.now) × (width ≤ 8) × (count ≤ 8) }
    ensures { result ≡ join (replicate count width) (drop at cells.now) }
{
    let mut word: u64 = 0;
    for i in (0..count).rev() {
        word = (word << width) + low_bits(cells[at + i] as u64, width);
    }
    word
}

// `joined(bytes, at, 8, 8)`, without a loop: so it compiles to one load.
pub fn word8(bytes: &[u8], at: usize) -> u64
    requires { at + 8 ≤ length bytes.now }
    ensures { result ≡ join (replicate 8 8) (drop at bytes.now) }
{
    u64::from_le_bytes([
        bytes[at],
        bytes[at + 1],
        bytes[at + 2],
        bytes[at + 3],
        bytes[at + 4],
        bytes[at + 5],
        bytes[at + 6],
        bytes[at + 7],
    ])
}

// The low bits of a word put into `count` cells from index `at` on, lowest bits first.
pub fn put_cells(word: u64, width: u32, count: usize, out: &mut [u8], at: usize)
    requires { (at + count ≤ length out.old) × (width ≤ 8) }
    ensures { out.new ≡ sets out.old at (cut (replicate count width) word) }
{
    let mut rest = word;
    for i in 0..count {
        out[at + i] = low_bits(rest, width) as u8;
        rest = rest >> width;
    }
}
