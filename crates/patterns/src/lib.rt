// The pattern of a value, for settings of each kind: whatever pattern stands for it by the lists of the crate `values`.
// The functions stand in `of_values`: they serve the crates above.
#![tactic(auto)]

pub mod of_values;
