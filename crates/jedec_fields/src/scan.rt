// Positions in a text, and the next field judged: for the reader.
// A function here may require that a position is in the text: it moves on at each call, so no type keeps that.
ghost use Rattle.std.specs.Prelude.{◌≡◌, ◌+◌, ◌<◌, ◌≤◌, length, drop, MatchOption};
ghost use Rattle.jedec_fields.specs.Fields.{until_star, Stands};

use super::NextSays;
use super::lists::list_field;
use jedec::ETX;
use jedec::blanks::next_other;
use jedec_judge::FieldSays;
use jedec_judge::letters::judge_field;

// The offset of the next `*` from an offset on. `position` would answer an offset in a part of the text, to which the
// start is added again. It stays a function of its own: compiled into the reader, its loop would
// count further numbers on.
#[inline(never)]
pub fn next_star(text: &[u8], at: usize) -> Option<usize>
    requires { at ≤ length text.now }
    ensures { MatchOption result (at + until_star (drop at text.now) ≡ length text.now)
        (λ star. (star ≡ at + until_star (drop at text.now)) × (star < length text.now)) }
{
    for i in at..text.len() {
        if text[i] == b'*' {
            return Some(i);
        }
    }
    None
}

// What stands next from an offset on, judged, or nothing where the text ends early. Most fields of a text are good
// L fields, and each byte of these is looked at once.
pub fn next_judged(text: &[u8], at: usize) -> Option<NextSays>
    requires { at ≤ length text.now }
    ensures { Stands text.now at result }
{
    let start = next_other(text, at)?;
    let b = text[start];
    if b == ETX {
        return Some(NextSays::End(start));
    }
    if b == b'L' {
        let after = start + 1;
        if let Some(list) = list_field(&text[after..]) {
            let star = after + list.length;
            return Some(NextSays::Field {
                start,
                star,
                says: FieldSays::List(list.says),
            });
        }
    }
    let star = next_star(text, start)?;
    let says = judge_field(&text[start..star]);
    Some(NextSays::Field { start, star, says })
}
