// The JEDEC text of an image.
// The definitions stand in specs/Pattern.antt, the laws about them in proofs/Laws.antt.
#![tactic(auto)]

ghost use Rattle.std.specs.Prelude.{length};
ghost use Rattle.part.specs.Answer.{number_outcome};
ghost use Rattle.part.specs.Outcome.{Written};
ghost use Rattle.jedec_writer.specs.Pattern.{to_text, with_text};

use image::DeviceImage;
use part::{Device, Refusal};

mod text;

// The text of an image, put at the start of `text`: how many bytes it has. Refused: 1, 2, 12.
pub fn image_to_text(d: Device, image: &[u8], text: &mut [u8]) -> Result<u32, Refusal>
    ensures { Written (to_text d image.now (length text.old)) (number_outcome result)
        (with_text d image.now text.old) text.old text.new }
{
    let whole = DeviceImage::new(d, image)?;
    let needed = whole.part.text_bytes();
    if text.len() < needed as usize {
        return Err(Refusal::BufferTooShort(needed));
    }
    text::text_out(whole, text);
    Ok(needed)
}
