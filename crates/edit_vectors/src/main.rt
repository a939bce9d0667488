// Prints what reading and setting one setting answer in an image and in a readout: document 01's case, then each
// device; then both ways at once. The file stdout beside src/ is what the independent program prints.
#![tactic(auto)]

use part::{Device, Refusal};
use setting_bits::Layout;
use settings::{MacrocellField, Setting};
use std::alloc::Global;
use std::io;
use std::io::{BufWriter, Write};
use values::{OeMux, Value};
use vectors::{SMALLEST, near};

mod both;

// More settings than any device has: numbers taken modulo this stay small.
const MANY: u32 = 1 << 20;

// OE_MUX of macrocell 0 of block 0, of the smallest part.
const OE_MUX: u32 = 15563;

// The layout says which function of the interface is asked: each has a name of its own there.
fn read(layout: Layout, d: Device, bytes: &[u8], setting: u32) -> u64 {
    match layout {
        Layout::Image => xc9500::xc9500_read_in_image(d.blocks, d.class, bytes, setting),
        Layout::Readout => xc9500::xc9500_read_in_readout(d.blocks, d.class, bytes, setting),
    }
}

fn set(layout: Layout, d: Device, bytes: &mut [u8], setting: u32, pattern: u32) -> u64 {
    match layout {
        Layout::Image => xc9500::xc9500_set_in_image(d.blocks, d.class, bytes, setting, pattern),
        Layout::Readout => xc9500::xc9500_set_in_readout(
            d.blocks, d.class, bytes, setting, pattern,
        ),
    }
}

// How many settings a device has, 0 where there is none; below 2^20.
fn setting_count(d: Device) -> u32 {
    (xc9500::xc9500_setting_count(d.blocks, d.class) % MANY as u64) as u32
}

// The numbers to ask for: from a few past the last down through some hundreds, then in steps through all.
fn first_asked(count: u32) -> u32 {
    count % MANY + 7
}

fn next_asked(count: u32, k: u32, setting: u32) -> u32 {
    if k < 400 {
        if 0 < setting {
            return setting - 1;
        }
    }
    (setting % MANY + 61) % (count % MANY + 8)
}

// The pattern to put there; the eighth after the first is USERCODE.
fn pattern(k: u32, turn: u32) -> u32 {
    if k == 8 {
        return 0x12345678 + turn % 16;
    }
    (k % MANY + turn % 16) % 7 % 5
}

fn reads(layout: Layout, d: Device, bytes: &[u8], count: u32) -> u64 {
    let mut digest: u64 = 0;
    let mut setting = first_asked(count);
    for k in 0..4900 {
        let answer = read(layout, d, bytes, setting);
        digest = vectors::taken_in(digest, answer);
        setting = next_asked(count, k, setting);
    }
    digest
}

// One after the other on the same bytes.
fn sets(layout: Layout, d: Device, bytes: &mut [u8], count: u32, turn: u32) -> u64 {
    let mut digest: u64 = 0;
    let mut setting = first_asked(count);
    for k in 0..4900 {
        let answer = set(layout, d, bytes, setting, pattern(k, turn));
        digest = vectors::taken_in(digest, answer);
        setting = next_asked(count, k, setting);
    }
    digest
}

// What is read, what setting answers, what is read then, and the bytes.
fn edits<W: Write>(
    out: &mut W,
    layout: Layout,
    d: Device,
    bytes: &mut [u8],
    turn: u32,
) -> io::Result<()> {
    let count = setting_count(d);
    vectors::put(out, b" read", reads(layout, d, &bytes[..], count))?;
    vectors::put(out, b" set", sets(layout, d, bytes, count, turn))?;
    vectors::put(out, b" then", reads(layout, d, &bytes[..], count))?;
    vectors::put(out, b" bytes", vectors::digest_of(&bytes[..]))
}

// On bytes that look random: most bytes of such a readout that can have a bit above a width have one.
fn on_any_bytes<W: Write>(
    out: &mut W,
    d: Device,
    image: &mut [u8],
    readout: &mut [u8],
) -> io::Result<()> {
    vectors::fill(image, 1);
    vectors::put(out, b" image", image.len() as u64)?;
    edits(out, Layout::Image, d, image, 0)?;
    vectors::fill(readout, 2);
    vectors::put(out, b" readout", readout.len() as u64)?;
    edits(out, Layout::Readout, d, readout, 1)
}

// On the readout of the image, which has no bit above a width.
fn on_as_readout<W: Write>(
    out: &mut W,
    d: Device,
    image: &[u8],
    readout: &mut [u8],
) -> io::Result<()> {
    let answer = xc9500::xc9500_image_to_readout(d.blocks, d.class, image, readout);
    vectors::put_answer(out, answer)?;
    edits(out, Layout::Readout, d, readout, 2)
}

fn answers<W: Write>(
    out: &mut W,
    d: Device,
    image: &mut [u8],
    readout: &mut [u8],
) -> io::Result<()> {
    on_any_bytes(out, d, image, readout)?;
    on_as_readout(out, d, &image[..], readout)?;
    vectors::end_line(out)
}

// Lengths of three kinds: the image one byte too short and the readout one too long, both right, and the other way
// round.
fn ask<W: Write>(alloc: Global, out: &mut W, d: Device) -> io::Result<()> {
    let sizes = vectors::sizes(d);
    for k in 0..3 {
        let mut image = vec![in alloc; 0; near(sizes.image_bytes, k, vectors::BUFFER)]?;
        let mut readout = vec![in alloc; 0; near(sizes.readout_bytes, 2 - k, vectors::BUFFER)]?;
        vectors::put_device(out, d)?;
        answers(out, d, &mut image, &mut readout)?;
    }
    Ok(())
}

// OE_MUX as it is read, then set to FOE2 and read once more.
fn set_to_foe2<W: Write>(
    out: &mut W,
    name: &[u8],
    layout: Layout,
    bytes: &mut [u8],
) -> io::Result<()> {
    vectors::put(out, name, read(layout, SMALLEST, &bytes[..], OE_MUX))?;
    vectors::put(out, b" set", set(layout, SMALLEST, bytes, OE_MUX, 4))?;
    vectors::put(out, b" then", read(layout, SMALLEST, &bytes[..], OE_MUX))?;
    vectors::put(out, b" bytes", vectors::digest_of(&bytes[..]))?;
    vectors::end_line(out)
}

// OE_MUX of macrocell 0 of block 0 by its name.
const OE_MUX_NAMED: Setting = Setting::Macrocell {
    block: 0,
    macrocell: 0,
    field: MacrocellField::OeMux,
};

fn read_by_name(layout: Layout, bytes: &[u8]) -> Result<Value, Refusal> {
    match layout {
        Layout::Image => edit::read_in_image(SMALLEST, bytes, OE_MUX_NAMED),
        Layout::Readout => edit::read_in_readout(SMALLEST, bytes, OE_MUX_NAMED),
    }
}

fn set_by_name(layout: Layout, bytes: &mut [u8], v: OeMux) -> Result<(), Refusal> {
    match layout {
        Layout::Image => edit::set_in_image(SMALLEST, bytes, OE_MUX_NAMED, Value::OeMux(v)),
        Layout::Readout => edit::set_in_readout(SMALLEST, bytes, OE_MUX_NAMED, Value::OeMux(v)),
    }
}

// 0 for PT, 1 for FOE2, 2 for any other value, 3 for a refusal.
fn which(answer: Result<Value, Refusal>) -> u64 {
    match answer {
        Ok(Value::OeMux(OeMux::Pt)) => 0,
        Ok(Value::OeMux(OeMux::Foe2)) => 1,
        Ok(_) => 2,
        Err(_) => 3,
    }
}

fn refusal(answer: Result<(), Refusal>) -> u64 {
    answer.map_or_else(|r| r.number() as u64, |_| 0)
}

fn set_to_foe2_by_name<W: Write>(
    out: &mut W,
    name: &[u8],
    layout: Layout,
    bytes: &mut [u8],
) -> io::Result<()> {
    vectors::put(out, name, which(read_by_name(layout, &bytes[..])))?;
    vectors::put(
        out,
        b" set",
        refusal(set_by_name(layout, bytes, OeMux::Foe2)),
    )?;
    vectors::put(out, b" then", which(read_by_name(layout, &bytes[..])))?;
    vectors::put(out, b" bytes", vectors::digest_of(&bytes[..]))?;
    vectors::end_line(out)
}

fn put_byte<W: Write>(out: &mut W, name: &[u8], bytes: &[u8], i: usize) -> io::Result<()> {
    if let Some(byte) = bytes.get(i) {
        vectors::put(out, name, *byte as u64)?;
        vectors::end_line(out)?;
    }
    Ok(())
}

// Document 01's case: an image of ones, in which two fuses are cleared and one is kept; the same in its readout.
fn by_number<W: Write>(out: &mut W, image: &mut [u8], readout: &mut [u8]) -> io::Result<()> {
    vectors::fill_with(image, 255);
    let answer = xc9500::xc9500_image_to_readout(2, 0, &image[..], readout);
    vectors::put(out, b"readout of ones", answer)?;
    vectors::end_line(out)?;
    set_to_foe2(out, b"OE_MUX in the image", Layout::Image, image)?;
    put_byte(out, b"byte of fuse 3138", &image[..], 392)?;
    put_byte(out, b"byte of fuse 3246", &image[..], 405)?;
    put_byte(out, b"byte of fuse 3354", &image[..], 419)?;
    set_to_foe2(out, b"OE_MUX in the readout", Layout::Readout, readout)
}

fn by_name<W: Write>(out: &mut W, image: &mut [u8], readout: &mut [u8]) -> io::Result<()> {
    vectors::fill_with(image, 255);
    set_to_foe2_by_name(out, b"by name in the image", Layout::Image, image)?;
    vectors::fill_with(readout, 255);
    set_to_foe2_by_name(
        out,
        b"by name in a readout of bytes 255",
        Layout::Readout,
        readout,
    )
}

fn document_case<W: Write>(out: &mut W, image: &mut [u8], readout: &mut [u8]) -> io::Result<()> {
    by_number(out, image, readout)?;
    by_name(out, image, readout)
}

fn main(rt: HostRuntime) -> io::Result<()> {
    let mut out = BufWriter::new(rt.alloc(), io::writer(&rt))?;
    let sizes = vectors::sizes(SMALLEST);
    let mut image = vec![in rt.alloc(); 0; sizes.image_bytes as usize]?;
    let mut readout = vec![in rt.alloc(); 0; sizes.readout_bytes as usize]?;
    document_case(&mut out, &mut image, &mut readout)?;
    for d in (0..vectors::DEVICES).map(vectors::device) {
        ask(rt.alloc(), &mut out, d)?;
    }
    for d in (0..vectors::DEVICES).map(vectors::device) {
        both::ask(rt.alloc(), &mut out, d)?;
    }
    out.flush()
}
