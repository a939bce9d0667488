// What a field says, by the letters that it starts with.
// A function here may require that a field is no good L field: those are found by their states.
ghost use Rattle.std.specs.Prelude.{drop};
ghost use Rattle.jedec.specs.Characters.{sum_in};
ghost use Rattle.jedec.specs.Judge.Judged.{sum};
ghost use Rattle.jedec.specs.Judge.{or_bad, start_in, after_q, by_letters, judge};
ghost use Rattle.jedec_judge.specs.Judged.{NoGoodList, Says};

use super::digits::{number_in, sum_in};
use super::{FieldSays, holds_mark};

// What follows an F.
fn start_in(bytes: &[u8]) -> FieldSays
    ensures { Says bytes.now (start_in bytes.now) result }
{
    match bytes {
        [b'0'] => FieldSays::Start(0),
        [b'1'] => FieldSays::Start(1),
        _ => FieldSays::Bad,
    }
}

// What follows a Q.
fn after_q(bytes: &[u8]) -> FieldSays
    ensures { Says bytes.now (after_q bytes.now) result }
{
    match bytes {
        [b'F', number @ ..] => number_in(number).map_or(FieldSays::Bad, FieldSays::Count),
        [b'P' | b'V', ..] => FieldSays::Skipped,
        _ => FieldSays::Bad,
    }
}

// What follows a C.
fn after_c(bytes: &[u8]) -> FieldSays
    ensures { Says bytes.now (or_bad (sum_in bytes.now) sum) result }
{
    sum_in(bytes).map_or(FieldSays::Bad, FieldSays::Sum)
}

// What a field that is no good L field says, by the letters that it starts with. It holds neither STX nor ETX. The
// match is document 01's table of letters.
fn by_letters(field: &[u8]) -> FieldSays
    requires { NoGoodList field.now }
    ensures { Says (drop 1 field.now) (by_letters field.now) result }
{
    match field {
        [b'N' | b'J' | b'X', ..] => FieldSays::Skipped,
        [b'Q', after @ ..] => after_q(after),
        [b'F', after @ ..] => start_in(after),
        [b'C', after @ ..] => after_c(after),
        _ => FieldSays::Bad,
    }
}

// What a field that is no good L field says.
pub fn judge_field(field: &[u8]) -> FieldSays
    requires { NoGoodList field.now }
    ensures { Says (drop 1 field.now) (judge field.now) result }
{
    if holds_mark(field) {
        return FieldSays::Bad;
    }
    by_letters(field)
}
