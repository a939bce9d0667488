// The bytes of an image, read from a readout.
// The functions stand in `rows_in`: they may require that the device is known and the slices have their lengths.
#![tactic(auto)]

pub mod rows_in;
