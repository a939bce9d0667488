// An L line of a JEDEC text, put into a slice: the characters of numbers and of columns, and the line.
// The definitions that the contracts cite stand in specs/Columns.antt and in crate `jedec`.
#![tactic(auto)]

pub mod characters;
pub mod lines;
