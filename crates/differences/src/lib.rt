// What changed between two images of one device, by name: how many fuses differ, and a line for each.
// The definitions that the contract cites stand in specs/Differences.antt, the lemmas about them in proofs/.
#![tactic(auto)]

ghost use Rattle.part.specs.Answer.{number_outcome};
ghost use Rattle.part.specs.Outcome.{Written};
ghost use Rattle.differences.specs.Differences.{to_differences, with_differences};

use part::{Device, KnownDevice, Refusal};

mod lines;
mod scan;
mod words;

// The differences of two images in lines, put at the start of `text`: how many bytes they have. Refused: 1, 2, 12.
pub fn differences(d: Device, old: &[u8], new: &[u8], text: &mut [u8]) -> Result<u32, Refusal>
    ensures { Written (to_differences d old.now new.now text.old)
        (number_outcome result) (with_differences d old.now new.now text.old)
        text.old text.new }
{
    let part = KnownDevice::try_from(d)?;
    let bytes = part.image_bytes() as usize;
    if old.len() != bytes {
        return Err(Refusal::WrongLength);
    }
    if new.len() != bytes {
        return Err(Refusal::WrongLength);
    }
    let all = scan::measure(part, old, new);
    let first = lines::first_bytes(all.fuses);
    let needed = first + all.bytes;
    if text.len() < needed {
        return Err(Refusal::BufferTooShort(needed as u32));
    }
    lines::put_first(all.fuses, text);
    scan::put_lines(part, old, new, text, first, needed);
    Ok(needed as u32)
}
