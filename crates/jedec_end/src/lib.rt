// The end of a JEDEC text: what follows ETX, and the refusals 8, 9, 13, 10 and 11 by what the fields gave.
// The reader calls `finish` in `conclusion` at the ETX after the fields.
#![tactic(auto)]

pub mod conclusion;
mod tail;
