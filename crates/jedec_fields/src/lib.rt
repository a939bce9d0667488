// Fields of a JEDEC text by position: where the next one stands, and what it says.
// The functions for the reader stand in `scan`, and L fields, which most fields of a text are, in `lists`.
#![tactic(auto)]

use jedec_judge::FieldSays;

mod lists;
pub mod scan;

// What stands next in a text: a field up to its `*`, with what it says, or the ETX after the fields.
#[derive(Clone, Copy, Debug, PartialEq, Eq)]
pub enum NextSays {
    Field {
        start: usize,
        star: usize,
        says: FieldSays,
    },
    End(usize),
}
