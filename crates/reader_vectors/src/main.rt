// Prints what the reader of texts answers for each device: a written text whole, cut short, with a byte changed, and
// without F. The file stdout beside src/ is what the independent program prints.
#![tactic(auto)]

ghost use Rattle.std.specs.Prelude.{◌≡◌, ◌<◌, ◌≤◌, length, IfSome};

use part::Device;
use std::alloc::Global;
use std::io;
use std::io::{BufWriter, Write};
use vectors::at_most;

const ETX: u8 = 3;

// A buffer for the longest text that is written.
fn buffer_for_text() -> [u8; 411293]
    ensures { 411293 ≡ length result }
{
    [0; 411293]
}

// The QF field starts at 3, so its F stands at 4 and its digits behind that.
const BEHIND_QF: usize = 5;

// The bytes to put in another's place: those that mean something in a text.
const OTHERS: [u8; 6] = [b'0', b'1', b'*', b' ', ETX, b'9'];

// Prints the answer of a call, and the digest of the image that was passed to it.
fn read<W: Write>(
    out: &mut W,
    name: &[u8],
    d: Device,
    text: &[u8],
    image: &mut [u8],
) -> io::Result<()> {
    vectors::fill(image, 4);
    let answer = xc9500::xc9500_text_to_image(d.blocks, d.class, text, image);
    vectors::put(out, name, vectors::digest_of(image))?;
    vectors::put_answer(out, answer)
}

// Where a byte is changed: among the first forty, among the last twenty, or anywhere.
fn place(k: u32, word: u64, length: usize) -> usize {
    match k % 3 {
        0 => (word % 40) as usize,
        1 => length - at_most(1 + (word % 20) as usize, length),
        _ => word as usize,
    }
}

// From where on something is left out: from the start, from just before the last line, or from anywhere.
fn from_place(k: u32, word: u64, length: usize) -> usize {
    if length == 0 {
        return 0;
    }
    match k {
        0 => 0,
        1 => length - at_most(70, length),
        _ => word as usize % length,
    }
}

// The offset of the first byte of a kind from an offset on.
fn next_byte(text: &[u8], from: usize, byte: u8) -> Option<usize>
    ensures { IfSome result (λ at. at < length text.now) }
{
    for at in from..text.len() {
        if text[at] == byte {
            return Some(at);
        }
    }
    None
}

// Puts another byte in the place of the first byte of a kind from an offset on.
fn replace_next(text: &mut [u8], from: usize, byte: u8, by: u8) {
    if let Some(at) = next_byte(text, from, byte) {
        text[at] = by;
    }
}

// Makes the transmission sum one that is not given, and the F field a comment.
fn take_start(text: &mut [u8]) {
    let sum = text.len() - at_most(4, text.len());
    vectors::fill_with(&mut text[sum..], b'0');
    replace_next(text, BEHIND_QF, b'F', b'N');
}

// Puts a byte into a text, if there is room; the offset behind it.
fn put_byte(text: &mut [u8], at: usize, byte: u8) -> usize {
    if at < text.len() {
        text[at] = byte;
        return at + 1;
    }
    at
}

// Puts bytes into a text from an offset on; the offset behind them.
fn put_bytes(text: &mut [u8], at: usize, bytes: &[u8]) -> usize {
    let mut to = at;
    for byte in bytes {
        to = put_byte(text, to, *byte);
    }
    to
}

// The states that one L gives the fuses: every third is 1.
fn state(fuse: u32) -> u8 {
    if fuse % 3 == 0 { b'1' } else { b'0' }
}

// Puts the states of so many fuses into a text from an offset on; the offset behind them.
fn put_states(text: &mut [u8], at: usize, fuses: u32) -> usize {
    let mut to = at;
    for fuse in 0..fuses {
        to = put_byte(text, to, state(fuse));
    }
    to
}

// A device, and a text that is read for it. The image that it is read into is passed apart: of a struct that holds two
// slices, both could not be lent at once.
#[derive(Drop)]
struct Reading<'a> {
    d: Device,
    text: &'a mut [u8],
}

impl<'a> Reading<'a> {
    // Reads the whole text.
    fn read_whole<W: Write>(
        &mut self,
        out: &mut W,
        image: &mut [u8],
        name: &[u8],
    ) -> io::Result<()> {
        read(out, name, self.d, self.text, image)
    }

    // Reads the first bytes of the text.
    fn read_first<W: Write>(
        &mut self,
        out: &mut W,
        image: &mut [u8],
        name: &[u8],
        length: usize,
    ) -> io::Result<()> {
        let n = at_most(length, self.text.len());
        read(out, name, self.d, &self.text[..n], image)
    }

    // Reads into an image that is too short for any device.
    fn read_short_image<W: Write>(&mut self, out: &mut W, image: &mut [u8]) -> io::Result<()> {
        let n = at_most(2267, image.len());
        read(out, b" image short", self.d, self.text, &mut image[..n])
    }

    // Reads the text whole, without its last byte, its first half, and none; and into an image that is too short.
    fn lengths<W: Write>(&mut self, out: &mut W, image: &mut [u8]) -> io::Result<()> {
        let n = self.text.len();
        self.read_whole(out, image, b" whole")?;
        self.read_first(out, image, b" short", n - at_most(1, n))?;
        self.read_first(out, image, b" half", n / 2)?;
        self.read_first(out, image, b" empty", 0)?;
        self.read_short_image(out, image)?;
        vectors::end_line(out)
    }

    // Changes one byte, reads the text, and puts the byte back.
    fn changed<W: Write>(
        &mut self,
        out: &mut W,
        image: &mut [u8],
        at: usize,
        byte: u8,
    ) -> io::Result<()> {
        if at < self.text.len() {
            let old = self.text[at];
            self.text[at] = byte;
            vectors::put(out, b"at", at as u64)?;
            vectors::put(out, b" byte", byte as u64)?;
            self.read_whole(out, image, b" image")?;
            vectors::end_line(out)?;
            put_byte(self.text, at, old);
        }
        Ok(())
    }

    // Changes the byte so many places behind the first byte of a kind from an offset on.
    fn changed_behind<W: Write>(
        &mut self,
        out: &mut W,
        image: &mut [u8],
        from: usize,
        mark: u8,
        behind: usize,
        byte: u8,
    ) -> io::Result<()>
        requires { behind ≤ 1 }
    {
        match next_byte(self.text, from, mark) {
            Some(at) => self.changed(out, image, at + behind, byte),
            None => Ok(()),
        }
    }

    // Reads the text thirty times, each time with one byte changed.
    fn damaged<W: Write>(&mut self, out: &mut W, image: &mut [u8]) -> io::Result<()> {
        let mut word: u64 = 7;
        for k in 0..30 {
            word = vectors::next(word);
            let at = place(k, word / 16, self.text.len());
            word = vectors::next(word);
            self.changed(out, image, at, OTHERS[(word / 65536 % 6) as usize])?;
        }
        Ok(())
    }

    // Reads the text without its F: whole, and twelve times with the next line made a comment or the next state after a
    // blank made a blank, in turn.
    fn read_without_start<W: Write>(&mut self, out: &mut W, image: &mut [u8]) -> io::Result<()> {
        take_start(self.text);
        self.read_whole(out, image, b"no F image")?;
        vectors::end_line(out)?;
        let mut word: u64 = 11;
        for k in 0..12 {
            word = vectors::next(word);
            let from = from_place(k / 2, word / 16, self.text.len());
            if k % 2 == 0 {
                self.changed_behind(out, image, from, b'L', 0, b'N')?;
            } else {
                self.changed_behind(out, image, from, b' ', 1, b' ')?;
            }
        }
        Ok(())
    }

    // Reads the text with another number in its last line.
    fn last_line_elsewhere<W: Write>(&mut self, out: &mut W, image: &mut [u8]) -> io::Result<()> {
        let from = self.text.len() - at_most(70, self.text.len());
        self.changed_behind(out, image, from, b'L', 1, b'9')
    }

    // Reads the text without F and without its first line with another fault besides: of the form (7), of the count
    // (8), of the last line's number (9), of the transmission sum (11). Its fuse sum (10) is that of other fuses
    // already.
    fn two_faults<W: Write>(&mut self, out: &mut W, image: &mut [u8]) -> io::Result<()> {
        replace_next(self.text, 0, b'L', b'N');
        let last = self.text.len() - at_most(1, self.text.len());
        self.changed(out, image, last, b'x')?;
        self.changed(out, image, BEHIND_QF, b'9')?;
        self.last_line_elsewhere(out, image)?;
        self.changed(out, image, last, b'1')
    }

    // Ends the text at an offset, with a transmission sum that is not given, and reads it.
    fn read_ended<W: Write>(
        &mut self,
        out: &mut W,
        image: &mut [u8],
        name: &[u8],
        at: usize,
    ) -> io::Result<()> {
        let star = put_bytes(self.text, at, b"*");
        let etx = put_byte(self.text, star, ETX);
        let end = put_bytes(self.text, etx, b"0000");
        self.read_first(out, image, name, end)?;
        vectors::end_line(out)
    }

    // Reads the text with one L for so many fuses behind its QF.
    fn one_list<W: Write>(
        &mut self,
        out: &mut W,
        image: &mut [u8],
        name: &[u8],
        at: usize,
        fuses: u32,
    ) -> io::Result<()> {
        let states = put_bytes(self.text, at, b"L0 ");
        let end = put_states(self.text, states, fuses);
        self.read_ended(out, image, name, end)
    }

    // Reads the text with a C and an F behind it, and nothing else, behind its QF.
    fn start_behind_sum<W: Write>(
        &mut self,
        out: &mut W,
        image: &mut [u8],
        at: usize,
    ) -> io::Result<()> {
        let end = put_bytes(self.text, at, b"C0000*F0");
        self.read_ended(out, image, b"F behind C image", end)
    }

    // Reads texts with other fields behind the QF: one L of every fuse, one of all but the last, and an F behind a C.
    fn other_fields<W: Write>(&mut self, out: &mut W, image: &mut [u8]) -> io::Result<()> {
        let fuses = vectors::sizes(self.d).fuses;
        let start = next_byte(self.text, BEHIND_QF, b'N').unwrap_or(self.text.len());
        self.one_list(out, image, b"one L image", start, fuses)?;
        self.one_list(
            out,
            image,
            b"one state less image",
            start,
            vectors::one_less(fuses),
        )?;
        self.start_behind_sum(out, image, start)
    }

    // Reads the text of an image that looks random, written for a device that is known, as the text of the device.
    fn ask<W: Write>(&mut self, out: &mut W, image: &mut [u8]) -> io::Result<()> {
        let d = self.d;
        let known = d.is_known();
        let writer = if known { d } else { vectors::SMALLEST };
        vectors::fill(image, 2);
        xc9500::xc9500_image_to_text(writer.blocks, writer.class, image, self.text);
        vectors::put_device(out, d)?;
        self.lengths(out, image)?;
        if known {
            self.damaged(out, image)?;
            self.read_without_start(out, image)?;
            self.two_faults(out, image)?;
            self.other_fields(out, image)?;
        }
        Ok(())
    }
}

// Reads texts for one device, in a text and an image of its sizes.
fn device<W: Write>(alloc: Global, out: &mut W, d: Device, text: &mut [u8]) -> io::Result<()> {
    let sizes = vectors::sizes(d);
    let n = at_most(sizes.text_bytes as usize, text.len());
    let mut image = vec![in alloc; 0; sizes.image_bytes as usize]?;
    let mut reading = Reading {
        d,
        text: &mut text[..n],
    };
    reading.ask(out, &mut image)
}

// The text is no `Vec`: memory for it on the heap is taken besides that of the stack, so the program would need more.
fn main(rt: HostRuntime) -> io::Result<()> {
    let mut out = BufWriter::new(rt.alloc(), io::writer(&rt))?;
    let mut text = buffer_for_text();
    for d in (0..vectors::DEVICES).map(vectors::device) {
        device(rt.alloc(), &mut out, d, &mut text)?;
    }
    out.flush()
}
