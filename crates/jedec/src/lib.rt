// JEDEC texts, for any fuse count and any line pattern: STX, ETX and the blanks of a text, which all that read one
// share. What a text means and what the writer writes is defined in specs/.
#![tactic(auto)]

ghost use Rattle.std.specs.Prelude.{◌≡◌, ◌<◌, ◌≤◌, length, MatchResult};
ghost use Rattle.part.specs.declared.Refusal.TheVariants.{BadForm};
ghost use Rattle.jedec.specs.Characters.{is_blank};
ghost use Rattle.jedec.specs.Meaning.{longest};

use part::Refusal;

pub mod blanks;

// A text starts with STX, and ETX stands after its fields.
pub const STX: u8 = 2;

pub const ETX: u8 = 3;

// The bytes of the longest text that is read.
pub const LONGEST_TEXT: u32 = 1048576;

const LONGEST_LENGTH: usize = LONGEST_TEXT as usize;

// The bytes of a text that is not over that limit.
#[derive(Clone, Copy)]
pub struct ShortText<'a> {
    pub bytes: &'a [u8],
    pub ghost is_short: { length bytes.now ≤ longest },
}

impl<'a> TryFrom<&'a [u8]> for ShortText<'a> {
    type Error = Refusal;

    ghost try_from_gives = { λ bytes r. MatchResult r (λ text. text.bytes ≡ bytes)
        (λ e. (e ≡ BadForm longest) × (longest < length bytes.now)) };

    // The text, if it is not over the limit. Refused: 7, with the limit.
    fn try_from(bytes: &'a [u8]) -> Result<Self, Refusal> {
        if LONGEST_LENGTH < bytes.len() {
            Err(Refusal::BadForm(LONGEST_TEXT))
        } else {
            Ok(ShortText { bytes })
        }
    }
}

// Whether a byte is a blank: space, tab, CR or LF. With `matches!` text to image is a tenth slower.
pub fn is_blank(b: u8) -> bool
    ensures { result ≡ is_blank b }
{
    (b == b' ') | (b == b'\t') | (b == b'\r') | (b == b'\n')
}
