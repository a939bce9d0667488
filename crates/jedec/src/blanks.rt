// The walk over the blanks of a text, for the crates that read one.
// The function may require that its offset is in the text: it moves on at each call, so no type keeps that.
ghost use Rattle.std.specs.Prelude.{◌≡◌, ◌+◌, ◌<◌, ◌≤◌, length, drop, MatchOption};
ghost use Rattle.jedec.specs.Cut.{blanks_before};

use super::is_blank;

// The offset of the next byte from an offset on that is no blank. `position` would answer an offset in a part of the
// text, to which the start is added again.
pub fn next_other(text: &[u8], at: usize) -> Option<usize>
    requires { at ≤ length text.now }
    ensures { MatchOption result (at + blanks_before (drop at text.now) ≡ length text.now)
        (λ other. (other ≡ at + blanks_before (drop at text.now)) × (other < length text.now)) }
{
    for i in at..text.len() {
        if !is_blank(text[i]) {
            return Some(i);
        }
    }
    None
}
