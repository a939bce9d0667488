// Prints what the writer of texts answers for each device: images and buffers of the right length and of wrong ones.
// The file stdout beside src/ is what the independent program prints.
#![tactic(auto)]

ghost use Rattle.std.specs.Prelude.{◌≡◌, length};

use part::Device;
use std::io;
use std::io::{BufWriter, Write};
use vectors::{at_most, one_less};

// The bytes that a buffer may have beyond those of a text.
const MORE: u32 = 7;

// A buffer for the longest text and that many bytes after it.
fn buffer_for_text() -> [u8; 411300]
    ensures { 411300 ≡ length result }
{
    [0; 411300]
}

// The answer of a call, and the digest of the caller's whole buffer: so many of the bytes that there are.
fn written<W: Write>(
    out: &mut W,
    name: &[u8],
    d: Device,
    image: &[u8],
    text: &mut [u8],
    buffer: u32,
) -> io::Result<()> {
    let n = at_most(buffer as usize, text.len());
    let text = &mut text[..n];
    vectors::fill(text, 4);
    let answer = xc9500::xc9500_image_to_text(d.blocks, d.class, image, text);
    vectors::put(out, name, vectors::digest_of(text))?;
    vectors::put_answer(out, answer)
}

// Buffer for a text of n bytes: exact, one byte short, a few more, and none.
fn each_buffer<W: Write>(
    out: &mut W,
    d: Device,
    image: &[u8],
    text: &mut [u8],
    n: u32,
) -> io::Result<()> {
    written(out, b" exact", d, image, text, n)?;
    written(out, b" short", d, image, text, one_less(n))?;
    written(out, b" longer", d, image, text, n.saturating_add(MORE))?;
    written(out, b" empty", d, image, text, 0)?;
    vectors::end_line(out)
}

// All 0, all 1, or bytes that look random.
fn fill_image(image: &mut [u8], kind: u32) {
    match kind {
        0 => vectors::fill_with(image, 0),
        1 => vectors::fill_with(image, 255),
        _ => vectors::fill(image, kind as u64),
    }
}

// An image of a length and a kind, with buffers for a text of n bytes.
fn on_image<W: Write>(
    out: &mut W,
    d: Device,
    image: &mut [u8],
    text: &mut [u8],
    length: u32,
    kind: u32,
    n: u32,
) -> io::Result<()> {
    let bytes = at_most(length as usize, image.len());
    let image = &mut image[..bytes];
    fill_image(image, kind);
    vectors::put_device(out, d)?;
    vectors::put(out, b" image", length as u64)?;
    vectors::put(out, b" kind", kind as u64)?;
    each_buffer(out, d, image, text, n)
}

// Images of the right length of each kind, then one too short and one too long.
fn device<W: Write>(out: &mut W, d: Device, image: &mut [u8], text: &mut [u8]) -> io::Result<()> {
    let sizes = vectors::sizes(d);
    let length = sizes.image_bytes;
    for kind in 0..4 {
        on_image(out, d, image, text, length, kind, sizes.text_bytes)?;
    }
    on_image(out, d, image, text, one_less(length), 2, sizes.text_bytes)?;
    on_image(out, d, image, text, length % 65536 + 1, 2, sizes.text_bytes)
}

// Image and text are as long as the longest that are asked for, once for all calls. The text is no `Vec`: memory for it
// on the heap is taken besides that of the stack, so the program would need more.
fn main(rt: HostRuntime) -> io::Result<()> {
    let mut out = BufWriter::new(rt.alloc(), io::writer(&rt))?;
    let mut image = vec![in rt.alloc(); 0; vectors::BUFFER]?;
    let mut text = buffer_for_text();
    for d in (0..vectors::DEVICES).map(vectors::device) {
        device(&mut out, d, &mut image, &mut text)?;
    }
    out.flush()
}
