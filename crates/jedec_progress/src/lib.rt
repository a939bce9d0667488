// What the fields of a text gave so far, and which field may stand after them.
// The functions stand in `progress`: the reader calls them once a field is judged.
#![tactic(auto)]

pub mod progress;
