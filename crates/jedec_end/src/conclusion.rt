// The refusals 8, 9, 13, 10 and 11, and the answer to a text whose fields are read.
// A function here may require that ETX is in the text: its offset is found once and told on, and a type of text and
// offset would be taken apart at once.
ghost use Rattle.std.specs.Prelude.{◌≡◌, ◌<◌, length};
ghost use Rattle.std.proofs.Math.Option.Option.{some};
ghost use Rattle.part.specs.Answer.{done_outcome};
ghost use Rattle.part.specs.Outcome.Outcome.{accepted};
ghost use Rattle.jedec.specs.Rules.{Given, wrong_count, without_start};
ghost use Rattle.jedec.specs.Meaning.{unless, wrong_sum, wrong_transmission, concluded, with_end};
ghost use Rattle.jedec_progress.specs.Progress.{optional_field, optional_number, ProgressKnows};
ghost use Rattle.jedec_end.specs.End.{TextRead};

use super::tail::tail_from;
use jedec::ShortText;
use jedec_progress::progress::{GivenAt, Progress};
use part::Refusal;

// Refusal 8: QF is not the count, or is absent.
fn check_count(fuses: u32, etx: u32, count: Option<GivenAt>) -> Result<(), Refusal>
    ensures { done_outcome result ≡ unless 8 (wrong_count fuses etx (optional_field count)) (accepted tt) }
{
    match count {
        Some(given) if given.value == fuses => Ok(()),
        Some(given) => Err(Refusal::WrongFuseCount(given.at)),
        None => Err(Refusal::WrongFuseCount(etx)),
    }
}

// Refusal 9: an L is misplaced.
fn check_lists(misplaced: Option<u32>) -> Result<(), Refusal>
    ensures { done_outcome result ≡ unless 9 (optional_number misplaced) (accepted tt) }
{
    match misplaced {
        Some(at) => Err(Refusal::MisplacedFuseList(at)),
        None => Ok(()),
    }
}

// Refusal 13: no F, and the first fuse that no L gives is below the count.
fn check_start(fuses: u32, start: Option<u32>, first: usize) -> Result<(), Refusal>
    ensures { done_outcome result ≡ unless 13 (without_start fuses (optional_number start) first) (accepted tt) }
{
    if start.is_none() && first < fuses as usize {
        return Err(Refusal::FuseNotGiven(first as u32));
    }
    Ok(())
}

// Refusal 10: C differs from the sum of the image.
fn check_sum(image: &[u8], sum: Option<GivenAt>) -> Result<(), Refusal>
    ensures { done_outcome result ≡ unless 10 (wrong_sum image.now (optional_field sum)) (accepted tt) }
{
    match sum {
        Some(given) if given.value != image::bytes::sum_of(image) as u32 => {
            Err(Refusal::WrongFuseSum(given.at))
        }
        _ => Ok(()),
    }
}

// Refusal 11: the transmission sum differs and is not 0000.
fn check_transmission(text: ShortText, etx: usize, given: u32) -> Result<(), Refusal>
    requires { etx < length text.bytes.now }
    ensures { done_outcome result ≡ unless 11 (wrong_transmission text.entry.bytes.now etx given) (accepted tt) }
{
    let end = etx + 1;
    if given == 0 || given == image::bytes::sum_of(&text.bytes[..end]) as u32 {
        return Ok(());
    }
    Err(Refusal::WrongTransmissionSum(etx as u32))
}

// A text of good form is refused by the first of 8, 9, 13, 10 and 11, or else the image is the text's.
fn conclude(
    fuses: u32,
    text: ShortText,
    etx: usize,
    given: u32,
    p: Progress,
    image: &[u8],
) -> Result<(), Refusal>
    requires { etx < length text.bytes.now }
    ensures { (k : Given) → ProgressKnows fuses p k image.now
        → TextRead (concluded fuses text.entry.bytes.now etx given k) (done_outcome result) image.now }
{
    check_count(fuses, etx as u32, p.count)?;
    check_lists(p.misplaced)?;
    check_start(fuses, p.start, p.missing)?;
    check_sum(image, p.sum)?;
    check_transmission(text, etx, given)
}

// The answer to a text by what stands from the ETX after the fields on.
pub fn finish(
    fuses: u32,
    text: ShortText,
    etx: usize,
    p: Progress,
    image: &[u8],
) -> Result<(), Refusal>
    requires { etx < length text.bytes.now }
    ensures { (k : Given) → ProgressKnows fuses p k image.now
        → TextRead (with_end fuses text.entry.bytes.now k (some etx)) (done_outcome result) image.now }
{
    match tail_from(text.bytes, etx + 1) {
        Ok(given) => conclude(fuses, text, etx, given, p, image),
        Err(at) => Err(Refusal::BadForm(at as u32)),
    }
}
