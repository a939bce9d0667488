// What the bench program writes for a text: the counts of its image, or its refusal.
// The definitions stand in specs/Report.antt.
#![tactic(auto)]

ghost use Rattle.std.specs.Prelude.{◌≡◌, ◌≤◌, length, drop};
ghost use Rattle.part.specs.Answer.{number_outcome};
ghost use Rattle.part.specs.Device.{fuse_count, image_bytes};
ghost use Rattle.part.specs.Outcome.{Written};
ghost use Rattle.jedec.specs.Cut.{pieces};
ghost use Rattle.jedec.specs.Meaning.{meaning};
ghost use Rattle.jedec_judge.specs.Judged.{number_read};
ghost use Rattle.jedec_fields.specs.Fields.{fields_at};
ghost use Rattle.report_lines.specs.Put.{Put};
ghost use Rattle.report.specs.Report.{of_blocks, fields_in, first_count, blocks_for, lines_of};
ghost use Rattle.report.specs.Report.{report_of, bytes_put, at_start};

use image::DeviceImage;
use jedec_fields::NextSays;
use jedec_fields::scan::{next_judged, next_star};
use jedec_judge::FieldSays;
use jedec_reader::text_to_image;
use part::geometry::{MAIN_IMAGE_BYTES, SUBAREA_IMAGE_BYTES};
use part::{Device, KnownDevice, Refusal};
use report_lines::lines::{put, put_counts, put_refusal};

// The longest text that the bench program reads, as a refusal's value and as a length.
const MOST_BYTES: u32 = 65536;

const MOST_LENGTH: usize = MOST_BYTES as usize;

// The bytes of an image of four blocks.
const IMAGE_OF_FOUR: usize = (4 * (MAIN_IMAGE_BYTES + 4 * SUBAREA_IMAGE_BYTES)) as usize;

// The two parts that a text can be for. The fuse count of the one of four blocks tells them apart.
const FOUR: KnownDevice = KnownDevice {
    device: Device {
        blocks: 4,
        class: 0,
    },
};

const TWO: KnownDevice = KnownDevice {
    device: Device {
        blocks: 2,
        class: 0,
    },
};

// What the first QF field from an offset on reads. A while let: the next offset comes from the field found.
fn count_from(text: &[u8], from: usize) -> Option<u32>
    requires { from ≤ length text.now }
    ensures { number_read result ≡ first_count (fields_at from (drop from text.now)).fields }
{
    let mut at = from;
    while let Some(next) = next_judged(text, at) {
        match next {
            NextSays::Field { star, says, .. } => {
                if let FieldSays::Count(count) = says {
                    return Some(count);
                }
                at = star + 1;
            }
            NextSays::End(_) => return None,
        }
    }
    None
}

// What the first QF field of a text reads.
fn first_count(text: &[u8]) -> Option<u32>
    ensures { number_read result ≡ first_count (fields_in (pieces text.now).ended (pieces text.now).rest) }
{
    let star = next_star(text, 0)?;
    count_from(text, star + 1)
}

// The part for a text. A text without a QF field is for two blocks.
fn part_for(text: &[u8]) -> KnownDevice
    ensures { result.device ≡ of_blocks (blocks_for text.now) }
{
    match first_count(text) {
        Some(count) if count == FOUR.fuse_count() => FOUR,
        _ => TWO,
    }
}

// The lines of a text for a device, by way of its image. It asks for 64 bytes as `put_counts` and `put_refusal` do,
// and so does `put_report`.
fn put_lines(part: KnownDevice, text: &[u8], image: &mut [u8], out: &mut [u8]) -> usize
    requires { (length image.old ≡ image_bytes part.device) × (64 ≤ length out.old) }
    ensures { Put out.old out.new 0 (lines_of part.device (meaning (fuse_count part.device) text.now)) result }
{
    match text_to_image(part.device, text, image) {
        Ok(()) => put_counts(DeviceImage { part, bytes: image }, out),
        Err(r) => put_refusal(r.number(), r.value(), out),
    }
}

// A buffer for the image of two blocks or of four.
fn image_buffer() -> [u8; IMAGE_OF_FOUR]
    ensures { length result ≡ image_bytes (of_blocks 4) }
{
    [0u8; IMAGE_OF_FOUR]
}

// The report of a text. None has more than 64 bytes.
fn put_report(text: &[u8], out: &mut [u8]) -> usize
    requires { 64 ≤ length out.old }
    ensures { Put out.old out.new 0 (report_of text.now) result }
{
    if MOST_LENGTH < text.len() {
        let r = Refusal::BadForm(MOST_BYTES);
        return put_refusal(r.number(), r.value(), out);
    }
    let part = part_for(text);
    let bytes = part.image_bytes() as usize;
    let mut image = image_buffer();
    put_lines(part, text, &mut image[..bytes], out)
}

// What the bench program writes for a text, put at the start of `out`: how many bytes it has. Refused: 12.
// It is made in bytes of its own, since a refusal changes no byte.
pub fn report(text: &[u8], out: &mut [u8]) -> Result<u32, Refusal>
    ensures { Written (bytes_put (report_of text.now) out.old) (number_outcome result)
        (at_start (report_of text.now) out.old) out.old out.new }
{
    let mut lines = [0u8; 64];
    let n = put_report(text, &mut lines);
    let needed = n as u32;
    if out.len() < n {
        return Err(Refusal::BufferTooShort(needed));
    }
    put(&lines[..n], out, 0);
    Ok(needed)
}
