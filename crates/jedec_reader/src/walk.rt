// The reader for a count of fuses: the fields one after another, and the end.
// A function here may require that an image has its length, and that a position is in the text.
ghost use Rattle.std.specs.Prelude.{◌≡◌, [], ◌+◌, ◌/◌, ◌<◌, ◌≤◌, length, drop};
ghost use Rattle.part.specs.Answer.{done_outcome};
ghost use Rattle.jedec.specs.Rules.{state_given, image_with};
ghost use Rattle.jedec.specs.Meaning.{of_cut, meaning};
ghost use Rattle.jedec_fields.specs.Fields.{fields_at};
ghost use Rattle.jedec_end.specs.End.{TextRead};
ghost use Rattle.jedec_reader.specs.Walk.{largest_image, ReadInto};

use jedec::{STX, ShortText};
use jedec_end::conclusion::finish;
use jedec_fields::NextSays;
use jedec_fields::scan::{next_judged, next_star};
use jedec_image::states::{fill, put_field};
use jedec_judge::holds_mark;
use jedec_progress::progress::Progress;
use part::Refusal;
use part::geometry::{MAIN_IMAGE_BYTES, SUBAREA_IMAGE_BYTES};

// The bytes of an image of sixteen blocks: no device has more.
const LARGEST_IMAGE: usize = (16 * (MAIN_IMAGE_BYTES + 16 * SUBAREA_IMAGE_BYTES)) as usize;

// The fields from an offset on, one after another, and the end. Where the next field starts is known only when the one
// before it is judged, so this is no `for`.
fn walk(fuses: u32, text: ShortText, from: usize, image: &mut [u8]) -> Result<(), Refusal>
    requires { (from ≤ length text.bytes.now) × (image.old ≡ image_with fuses (state_given 0 [])) }
    ensures { TextRead (of_cut fuses text.entry.bytes.now (fields_at from (drop from text.entry.bytes.now)))
        (done_outcome result) image.new }
{
    let mut p = Progress::new();
    let mut at = from;
    while let Some(next) = next_judged(text.bytes, at) {
        match next {
            NextSays::End(etx) => return finish(fuses, text, etx, p, image),
            NextSays::Field { start, star, says } => {
                let place = start as u32;
                if !p.may_stand(says) {
                    return Err(Refusal::BadForm(place));
                }
                p = p.after_field(fuses, place, says);
                put_field(fuses, &text.bytes[start..star], says, p.misplaced, image);
                at = star + 1;
            }
        }
    }
    Err(Refusal::BadForm(text.bytes.len() as u32))
}

// The image of a text, made in `image`, which holds it where nothing is refused.
fn read_text(fuses: u32, text: &[u8], image: &mut [u8]) -> Result<(), Refusal>
    requires { length image.old ≡ (fuses + 7) / 8 }
    ensures { TextRead (meaning fuses text.now) (done_outcome result) image.new }
{
    let text = ShortText::try_from(text)?;
    let bytes = text.bytes;
    if bytes.len() == 0 || bytes[0] != STX {
        return Err(Refusal::BadForm(0));
    }
    let Some(star) = next_star(bytes, 0) else {
        return Err(Refusal::BadForm(bytes.len() as u32));
    };
    if holds_mark(&bytes[1..star]) {
        return Err(Refusal::BadForm(1));
    }
    fill(image, fuses, 0);
    walk(fuses, text, star + 1, image)
}

// The image of a text, made in `made` and put into `image` only where nothing is refused.
pub fn read_beside(
    fuses: u32,
    text: &[u8],
    made: &mut [u8],
    image: &mut [u8],
) -> Result<(), Refusal>
    requires { (length made.old ≡ (fuses + 7) / 8) × (length image.old ≡ (fuses + 7) / 8) }
    ensures { ReadInto (meaning fuses text.now) (done_outcome result) image.old image.new }
{
    read_text(fuses, text, made)?;
    image.copy_from_slice(made);
    Ok(())
}

// A buffer as large as the image of any known device.
pub fn largest_image() -> [u8; LARGEST_IMAGE]
    ensures { length result ≡ largest_image }
{
    [0u8; LARGEST_IMAGE]
}
