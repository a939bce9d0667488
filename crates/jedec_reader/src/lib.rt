// Text to image: the JEDEC reader.
// The definition stands in specs/Reader.antt, on top of what a text means in crate `jedec`.
#![tactic(auto)]

ghost use Rattle.part.specs.Answer.{done_outcome};
ghost use Rattle.part.specs.Outcome.{Written};
ghost use Rattle.jedec_reader.specs.Reader.{to_image_from_text, image_in};

use part::{Device, KnownDevice, Refusal};

mod walk;

// Puts the image that a text describes into `image`; refusals are 1, 2, 7, 8, 9, 13, 10 and 11, in this order. The
// image is made beside the caller's, since a refusal changes no byte of that.
pub fn text_to_image(d: Device, text: &[u8], image: &mut [u8]) -> Result<(), Refusal>
    ensures { Written (to_image_from_text d text.now image.old) (done_outcome result)
        (image_in d text.now) image.old image.new }
{
    let part = KnownDevice::try_from(d)?;
    let bytes = part.image_bytes() as usize;
    if image.len() != bytes {
        return Err(Refusal::WrongLength);
    }
    let fuses = part.fuse_count();
    let mut made = walk::largest_image();
    walk::read_beside(fuses, text, &mut made[..bytes], image)
}
