// Reading and setting a setting, in an image and in a readout, by setting number and pattern.
// The definitions stand in specs/ByNumber.antt.
#![tactic(auto)]

ghost use Rattle.std.specs.Prelude.{◌≡◌};
ghost use Rattle.part.specs.Answer.{number_outcome, done_outcome};
ghost use Rattle.part.specs.Outcome.{Written};
ghost use Rattle.setting_bits.specs.declared.Layout.TheVariants.{Image, Readout};
ghost use Rattle.edit_by_number.specs.ByNumber.{read_pattern, set_pattern, with_numbered};

use part::{Device, Refusal};
use setting_bits::Layout;
use settings::SettingNumber;

mod by_number;

// Image and readout have functions of their own: the C interface has four, as `xc9500_read_in_image`, and in each of
// these the layout is a constant, with which `by_number` is compiled.

// The pattern of a setting in an image, by its number. Refused: 1, 2, 4.
pub fn read_pattern_in_image(d: Device, image: &[u8], number: SettingNumber) -> Result<u32, Refusal>
    ensures { number_outcome result ≡ read_pattern d Image image.now number.0 }
{
    by_number::read(d, Layout::Image, image, number)
}

// A setting set to a pattern in an image, by its number. Refused: 1, 2, 4, 5.
pub fn set_pattern_in_image(
    d: Device,
    image: &mut [u8],
    number: SettingNumber,
    pattern: u32,
) -> Result<(), Refusal>
    ensures { Written (set_pattern d Image image.old number.0 pattern) (done_outcome result)
        (with_numbered d Image image.old number.0 pattern) image.old image.new }
{
    by_number::set(d, Layout::Image, image, number, pattern)
}

// The pattern of a setting in a readout, by its number. Refused: 1, 2, 4, 6.
pub fn read_pattern_in_readout(
    d: Device,
    readout: &[u8],
    number: SettingNumber,
) -> Result<u32, Refusal>
    ensures { number_outcome result ≡ read_pattern d Readout readout.now number.0 }
{
    by_number::read(d, Layout::Readout, readout, number)
}

// A setting set to a pattern in a readout, by its number. Refused: 1, 2, 4, 5, 6.
pub fn set_pattern_in_readout(
    d: Device,
    readout: &mut [u8],
    number: SettingNumber,
    pattern: u32,
) -> Result<(), Refusal>
    ensures { Written (set_pattern d Readout readout.old number.0 pattern) (done_outcome result)
        (with_numbered d Readout readout.old number.0 pattern) readout.old
        readout.new }
{
    by_number::set(d, Layout::Readout, readout, number, pattern)
}
