// The line of a fuse: its pieces, how many bytes it has, and the line put into a slice.
// A function here may require that an old state is 0 or 1, and that the line lies in the slice.
ghost use Rattle.std.specs.Prelude.{◌≡◌, [], ◌∷◌, ◌+◌, ◌-◌, ◌≤◌, ◌<◌, length};
ghost use Rattle.jedec.specs.Characters.{space, decimal_digit};
ghost use Rattle.names.specs.Pieces.{text_of, name_text, AllFew, Holds};
ghost use Rattle.differences.specs.Differences.{first_line};
ghost use Rattle.differences.specs.Scan.{line_bytes, line_with, Laid, SpellsLine};

use names::pieces::{Name, Piece, count_digits, followed};
use names::setting_names::{DeviceFuse, name_at};
use part::geometry::decimal_digits;

// A line in pieces: the number, the two states, the name, and what stands behind it.
#[derive(Clone, Copy)]
pub struct Line {
    pub number: Piece,
    pub states: Piece,
    pub name: Name,
    pub end: Piece,
}

// LF.
const FEED: Piece = Piece { word: 10, len: 1 };

// A space, the old state, a space, the other state. A state is a number below 2 here and below, and no bool: it is
// added into a word here, and the definitions print it as a digit.
fn states_piece(old: u64) -> Piece
    requires { old < 2 }
    ensures { Holds result (space ∷ decimal_digit old ∷ space ∷ decimal_digit (1 - old) ∷ []) }
{
    Piece {
        word: 0x3120_3020 + old * 0x0100 - old * 0x0100_0000,
        len: 4,
    }
}

// The line of a fuse whose old state is given; its new one is the other.
fn line_of(there: DeviceFuse, old: u64) -> Line
    requires { old < 2 }
    ensures { SpellsLine result (line_with there.device.device there.fuse old) }
{
    let named = name_at(there);
    let name = named.name;
    Line {
        number: count_digits(there.fuse),
        states: states_piece(old),
        name,
        end: followed(named.bit, FEED),
    }
}

// How many bytes a name has.
fn name_bytes(n: Name) -> usize
    requires { AllFew n }
    ensures { (result ≡ length (name_text n)) × (result ≤ 40) }
{
    let mut bytes = 0;
    for piece in n {
        bytes += piece.len;
    }
    bytes
}

// How many bytes the line of a fuse has.
pub fn line_bytes(there: DeviceFuse) -> usize
    ensures { (result ≡ line_bytes there.device.device there.fuse) × (result ≤ 64) }
{
    let digits = decimal_digits(there.fuse) as usize;
    let named = name_at(there);
    digits + 4 + (name_bytes(named.name) + named.bit.len) + 1
}

// A piece put into a slice, with other bytes behind it; the index behind it. Slice and index here, and no slice that
// begins there: `Laid` speaks of the whole slice, so the lines laid before stand in it too.
fn put_piece(p: Piece, out: &mut [u8], at: usize) -> usize
    requires { (p.len ≤ 8) × (at + 8 ≤ length out.old) }
    ensures { (Laid out.old out.new at (at + 8) (text_of p) result) × (result ≡ at + p.len) }
{
    jedec_lines::lines::put_eight(p.word, out, at);
    at + p.len
}

// The pieces of a name.
fn put_name(n: Name, out: &mut [u8], at: usize) -> usize
    requires { (AllFew n) × (at + 40 ≤ length out.old) }
    ensures { (Laid out.old out.new at (at + 40) (name_text n) result) × (result ≤ at + 40) }
{
    let mut next = at;
    for piece in n {
        next = put_piece(piece, out, next);
    }
    next
}

// The line of a fuse put into a slice that has 64 bytes for it; the index behind it.
pub fn put_line(there: DeviceFuse, old: u64, out: &mut [u8], at: usize) -> usize
    requires { (old < 2) × (at + 64 ≤ length out.old) }
    ensures { (Laid out.old out.new at (at + 64)
        (line_with there.device.device there.fuse old) result) × (result ≤ at + 64) }
{
    let line = line_of(there, old);
    let one = put_piece(line.number, out, at);
    let two = put_piece(line.states, out, one);
    let three = put_name(line.name, out, two);
    put_piece(line.end, out, three)
}

// ` differ` and LF, the first byte lowest.
const DIFFER: Piece = Piece {
    word: 0x0A72_6566_6669_6420,
    len: 8,
};

// The bytes of the first line.
pub fn first_bytes(fuses: u32) -> usize
    requires { fuses < 1000000 }
    ensures { (result ≡ length (first_line fuses)) × (result ≤ 14) }
{
    decimal_digits(fuses) as usize + 8
}

// The first line, put at the start of a slice; the index behind it.
pub fn put_first(fuses: u32, out: &mut [u8]) -> usize
    requires { (fuses < 1000000) × (length (first_line fuses) ≤ length out.old) }
    ensures { Laid out.old out.new 0 (length (first_line fuses)) (first_line fuses) result }
{
    let behind = put_piece(count_digits(fuses), out, 0);
    put_piece(DIFFER, out, behind)
}
