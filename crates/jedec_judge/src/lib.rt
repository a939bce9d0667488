// Fields of a JEDEC text judged by their bytes: numbers and sums, and what a field says by its letters.
// What a field may say is defined in crate `jedec`, and how the answers here say it in specs/.
#![tactic(auto)]

ghost use Rattle.std.specs.Prelude.{◌≡◌};
ghost use Rattle.jedec.specs.Characters.{is_mark};
ghost use Rattle.jedec.specs.Cut.{holds_mark};

use jedec::{ETX, STX};

pub mod digits;
pub mod letters;

// So many states of an L field, and no more, are told as bits of a word. Eight bits are left: for the last states,
// which come up to eight at a time, and then for the low bits of the byte that the first state goes into.
pub const STATES_IN_WORD: usize = 64 - 8;

// What an L field says: its first fuse, how many bytes after the L stand before the states, how many states there are,
// and the states themselves, the first as the lowest bit, if they are at most `STATES_IN_WORD`.
#[derive(Clone, Copy, Debug, PartialEq, Eq)]
pub struct FuseList {
    pub first: u32,
    pub skip: usize,
    pub count: usize,
    pub bits: u64,
}

// What a field says.
#[derive(Clone, Copy, Debug, PartialEq, Eq)]
pub enum FieldSays {
    Count(u32),
    Start(u32),
    List(FuseList),
    Sum(u32),
    Skipped,
    Bad,
}

// Whether a byte is STX or ETX.
fn is_mark(b: u8) -> bool
    ensures { result ≡ is_mark b }
{
    (b == STX) | (b == ETX)
}

// Whether some bytes hold STX or ETX. Every byte is looked at, which is faster than to stop at the first: several are
// looked at at a time.
pub fn holds_mark(bytes: &[u8]) -> bool
    ensures { result ≡ holds_mark bytes.now }
{
    bytes.iter().fold(false, |found, b| found | is_mark(*b))
}
