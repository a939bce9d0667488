// Reading and setting a setting, in an image and in a readout, by name and value.
// The definitions stand in specs/Edit.antt; demand 3 as one record in specs/Demand.antt.
#![tactic(auto)]

ghost use Rattle.std.specs.Prelude.{◌≡◌};
ghost use Rattle.part.specs.Answer.{done_outcome};
ghost use Rattle.part.specs.Outcome.{Written};
ghost use Rattle.setting_values.specs.Operations.{value_outcome};
ghost use Rattle.setting_bits.specs.declared.Layout.TheVariants.{Image, Readout};
ghost use Rattle.edit.specs.Edit.{read_in, set_in, with_value};

use part::{Device, Refusal};
use setting_bits::Layout;
use settings::Setting;
use values::Value;

pub mod by_name;

// Image and readout have functions of their own, each one call long: docs/STATEMENTS.md promises these four names and
// their contracts.

// The value of a setting in an image. Refused: 1, 2, 4.
pub fn read_in_image(d: Device, image: &[u8], s: Setting) -> Result<Value, Refusal>
    ensures { value_outcome result ≡ read_in d Image image.now s }
{
    by_name::read(d, Layout::Image, image, s)
}

// A setting set to a value in an image. Refused: 1, 2, 4, 5.
pub fn set_in_image(d: Device, image: &mut [u8], s: Setting, v: Value) -> Result<(), Refusal>
    ensures { Written (set_in d Image image.old s v) (done_outcome result)
        (with_value d Image image.old s v) image.old image.new }
{
    by_name::set(d, Layout::Image, image, s, v)
}

// The value of a setting in a readout. Refused: 1, 2, 4, 6.
pub fn read_in_readout(d: Device, readout: &[u8], s: Setting) -> Result<Value, Refusal>
    ensures { value_outcome result ≡ read_in d Readout readout.now s }
{
    by_name::read(d, Layout::Readout, readout, s)
}

// A setting set to a value in a readout, in the bytes that hold it. Refused: 1, 2, 4, 5, 6.
pub fn set_in_readout(d: Device, readout: &mut [u8], s: Setting, v: Value) -> Result<(), Refusal>
    ensures { Written (set_in d Readout readout.old s v) (done_outcome result)
        (with_value d Readout readout.old s v) readout.old readout.new }
{
    by_name::set(d, Layout::Readout, readout, s, v)
}
