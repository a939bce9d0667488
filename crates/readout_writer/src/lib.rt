// The bytes of a readout, written from an image.
// The functions stand in `rows_out`: they may require that the device is known and the slices have their lengths.
#![tactic(auto)]

pub mod rows_out;
