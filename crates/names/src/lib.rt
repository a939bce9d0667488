// The names of the settings of a part, of their bits and of its fuses, in pieces of up to eight bytes.
// The definitions that the contracts cite stand in specs/, the lemmas about them in proofs/.
#![tactic(auto)]

pub mod pieces;
pub mod setting_names;
