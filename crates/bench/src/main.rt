// The bench program: reads a text from standard input and writes the counts of its image, or its refusal.
// What it writes is the report of all that it read: `report_input` says so of any reader and writer of known bytes.
#![tactic(auto)]

ghost use Rattle.std.specs.Prelude.{◌≡◌, ◌<◌, ◌≤◌, length, take, IfOk, IfSome, OnOk};
ghost use Rattle.std.specs.Io.KnownBytes.{Appends, Consumes, IsAtEnd};
ghost use Rattle.report.specs.Report.{report_of};

use std::io;
use std::io::{Read, Write};

// A buffer for the longest text that is read and one byte more, which tells that a text is too long.
fn buffer_for_text() -> [u8; 65537]
    ensures { 65537 ≡ length result }
{
    [0; 65537]
}

// Reads until the buffer is full or the input ends; how many bytes it put at the start of the buffer. A while: a read
// says how far it came, and `read_exact` fails where the input ends first.
fn read_full<R: Read>(input: &mut R, buffer: &mut [u8]) -> io::Result<usize>
    ensures bound { IfOk result (λ n. n ≤ length buffer.new) }
    ensures bytes { IfOk result (λ n. Consumes (R.remaining input.old) (R.remaining input.new) (take n buffer.new)) }
    ensures end { IfOk result (λ n. n < length buffer.new → IsAtEnd (R.remaining input.new)) }
{
    let mut done = 0;
    while done < buffer.len() {
        let n = input.read(&mut buffer[done..])?;
        if n == 0 {
            break;
        }
        done += n;
    }
    Ok(done)
}

// Writes the report of a text, for which the buffer is never too short.
fn put_report<W: Write>(out: &mut W, text: &[u8]) -> io::Result<()>
    ensures { OnOk result (Appends (W.contents out.old) (W.contents out.new) (report_of text.now)) }
{
    let mut lines = [0u8; 64];
    let bytes = report::report(text, &mut lines).unwrap() as usize;
    out.write_all(&lines[..bytes])
}

// Reads a text and writes its report. What comes after the buffer is full is not read: it would change no report.
pub fn report_input<R: Read, W: Write>(input: &mut R, out: &mut W) -> io::Result<()>
    ensures { OnOk result (IfSome (R.remaining input.old)
        (λ text. Appends (W.contents out.old) (W.contents out.new) (report_of text))) }
{
    let mut text = buffer_for_text();
    let n = read_full(input, &mut text)?;
    put_report(out, &text[..n])
}

fn main(rt: HostRuntime) -> io::Result<()> {
    report_input(&mut rt.stdin(), &mut rt.stdout())
}
