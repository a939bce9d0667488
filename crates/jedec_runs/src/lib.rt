// Bytes that write states, taken several at a time.
// The functions stand in `states`: those that judge a list of states and put it into an image call them.
#![tactic(auto)]

pub mod states;
