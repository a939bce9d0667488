// Numbers cut into cells of a few bits, and cells joined into numbers: what image and readout have in common.
// Everything here serves the crates above and stands in `words`.
#![tactic(auto)]

pub mod words;
