// What F and L fields put into an image of so many fuses: the start state of all, and the states of a list from a fuse
// on. The functions stand in `states`: the reader calls them once the fields are judged.
#![tactic(auto)]

pub mod states;
