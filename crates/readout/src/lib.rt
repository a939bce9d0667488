// The conversions between an image and a device readout.
// The definitions stand in specs/Readout.antt.
#![tactic(auto)]

ghost use Rattle.std.specs.Prelude.{◌≡◌, IfOk};
ghost use Rattle.part.specs.Answer.{done_outcome, outcome_of};
ghost use Rattle.part.specs.Device.{image_bytes, readout_bytes};
ghost use Rattle.part.specs.Outcome.{Written};
ghost use Rattle.part.specs.Outcome.Outcome.{accepted};
ghost use Rattle.part.specs.Sizes.{if_known, if_length};
ghost use Rattle.readout.specs.Readout.{to_readout, readout_of, to_image, image_of};

use part::{Device, KnownDevice, Refusal};
use readout_rows::above_width::first_above;

// The device, if it is known and an image and a readout of these lengths are its own. Refused: 1, 2.
fn part_of(d: Device, image: usize, readout: usize) -> Result<KnownDevice, Refusal>
    ensures outcome { outcome_of (λ part. tt {0}) result
        ≡ if_known d (if_length image (image_bytes d) (if_length readout (readout_bytes d) (accepted (tt {0})))) }
    ensures device { IfOk result (λ part. part.device ≡ d) }
{
    let part = KnownDevice::try_from(d)?;
    if image != part.image_bytes() as usize || readout != part.readout_bytes() as usize {
        return Err(Refusal::WrongLength);
    }
    Ok(part)
}

// The readout of an image, put into `readout`. Refused: 1, 2.
pub fn image_to_readout(d: Device, image: &[u8], readout: &mut [u8]) -> Result<(), Refusal>
    ensures { Written (to_readout d image.now readout.old) (done_outcome result)
        (readout_of d image.now) readout.old readout.new }
{
    let part = part_of(d, image.len(), readout.len())?;
    readout_writer::rows_out::blocks_out(part, image, readout);
    Ok(())
}

// The image of a readout, put into `image`. Refused: 1, 2, 6.
pub fn readout_to_image(d: Device, readout: &[u8], image: &mut [u8]) -> Result<(), Refusal>
    ensures { Written (to_image d readout.now image.old) (done_outcome result)
        (image_of d readout.now) image.old image.new }
{
    let part = part_of(d, image.len(), readout.len())?;
    if let Some(index) = first_above(part, readout) {
        return Err(Refusal::BitAboveWidth(index as u32));
    }
    readout_reader::rows_in::blocks_in(part, readout, image);
    Ok(())
}
