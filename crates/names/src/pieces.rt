// A few bytes as one word, its first byte lowest: numbers in digits, words of a name, one behind another.
// A function here may require that its bytes fit a word, and that the number is small enough.
ghost use Rattle.std.specs.Prelude.{◌≡◌, ◌++◌, ◌+◌, ◌≤◌, ◌<◌, take, drop};
ghost use Rattle.jedec.specs.Characters.{count_digits};
ghost use Rattle.names.specs.Pieces.{text_of, Alone, Holds};

// Up to eight bytes: a word, and how many of its bytes are meant. It is put by one store, and so no slice of bytes.
#[derive(Clone, Copy, Debug, PartialEq, Eq)]
pub struct Piece {
    pub word: u64,
    pub len: usize,
}

// Words of a name in up to three pieces. No array: each is taken by its name.
#[derive(Clone, Copy, Debug, PartialEq, Eq)]
pub struct Words {
    pub one: Piece,
    pub two: Piece,
    pub three: Piece,
}

// A name of up to five pieces.
pub type Name = [Piece; 5];

// A name, and the bit behind it.
#[derive(Clone, Copy, Debug, PartialEq, Eq)]
pub struct BitName {
    pub name: Name,
    pub bit: Piece,
}

// Pieces without bytes, and of a space and the letters of a part, the first byte lowest.
pub const NOTHING: Piece = Piece { word: 0, len: 0 };

pub const FB: Piece = Piece {
    word: b' ' as u64 + b'F' as u64 * 0x0100 + b'B' as u64 * 0x0001_0000,
    len: 3,
};

pub const MC: Piece = Piece {
    word: b' ' as u64 + b'M' as u64 * 0x0100 + b'C' as u64 * 0x0001_0000,
    len: 3,
};

pub const PT: Piece = Piece {
    word: b' ' as u64 + b'P' as u64 * 0x0100 + b'T' as u64 * 0x0001_0000,
    len: 3,
};

pub const IM: Piece = Piece {
    word: b' ' as u64 + b'I' as u64 * 0x0100 + b'M' as u64 * 0x0001_0000,
    len: 3,
};

// The digit 0.
const DIGIT_0: u64 = b'0' as u64;

// The bytes of one piece behind those of another.
pub fn followed(p: Piece, q: Piece) -> Piece
    requires { (Alone p) × (Alone q) × (p.len < 8) × (p.len + q.len ≤ 8) }
    ensures { (Holds result (text_of p ++ text_of q)) × (result.len ≡ p.len + q.len) }
{
    Piece {
        word: p.word + (q.word << (p.len * 8)),
        len: p.len + q.len,
    }
}

// At most eight bytes of a text, from an index on; none behind its end.
pub fn piece_at(text: &[u8], at: usize) -> Piece
    ensures { Holds result (take 8 (drop at text.now)) }
{
    if text.len() <= at {
        return NOTHING;
    }
    let left = text.len() - at;
    if 8 <= left {
        return Piece {
            word: cells::words::word8(text, at),
            len: 8,
        };
    }
    Piece {
        word: cells::words::joined(text, at, 8, left),
        len: left,
    }
}

// A number below 100 in digits. 103 / 1024 is a tenth and a little more.
fn few_digits(x: u32) -> Piece
    requires { x < 100 }
    ensures { (Holds result (count_digits x)) × (result.len ≤ 2) }
{
    if x < 10 {
        return Piece {
            word: x as u64 + DIGIT_0,
            len: 1,
        };
    }
    let tens = (x * 103) >> 10;
    let ones = x - tens * 10;
    Piece {
        word: tens as u64 + DIGIT_0 + (ones as u64 + DIGIT_0) * 0x0100,
        len: 2,
    }
}

// Some bytes and a number below 100.
pub fn numbered(letters: Piece, x: u32) -> Piece
    requires { (Alone letters) × (letters.len ≤ 6) × (x < 100) }
    ensures { (Holds result (text_of letters ++ count_digits x)) × (result.len ≤ letters.len + 2) }
{
    let digits = few_digits(x);
    followed(letters, digits)
}

// A number below a million in digits: the last bytes of its seven digits.
pub fn count_digits(x: u32) -> Piece
    requires { x < 1000000 }
    ensures { (Holds result (count_digits x)) × (result.len ≤ 6) }
{
    let digits = part::geometry::decimal_digits(x) as usize;
    Piece {
        word: jedec_lines::characters::line_start(x) >> ((8 - digits) * 8),
        len: digits,
    }
}
