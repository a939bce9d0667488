// The rows of a readout: their bytes, those of two rows and of a block, and the first byte with a bit above its width.
// Everything here serves the crates above: a function may require a known device and slices that are long enough.
#![tactic(auto)]

pub mod above_width;
pub mod sizes;
