// Prints what `image` and `readout` answer for each device, with slices of the right length and of wrong ones.
// The file stdout beside src/ is what the independent program prints.
#![tactic(auto)]

use part::Device;
use std::alloc::Global;
use std::io;
use std::io::{BufWriter, Write};
use vectors::near;

// The answer of a call, and the digest of the bytes that it was given.
fn conversion<W: Write>(out: &mut W, name: &[u8], answer: u64, bytes: &[u8]) -> io::Result<()> {
    vectors::put(out, name, vectors::digest_of(bytes))?;
    vectors::put_answer(out, answer)
}

// An image and a readout, for a device.
#[derive(Drop)]
struct Pictures {
    d: Device,
    image: Vec<u8>,
    readout: Vec<u8>,
}

impl Pictures {
    // Lengths, sum and count of an image that looks random, and its readout.
    fn there<W: Write>(&mut self, out: &mut W) -> io::Result<()> {
        let d = self.d;
        vectors::fill(&mut self.image, 1);
        vectors::fill(&mut self.readout, 2);
        vectors::put(out, b" image", self.image.len() as u64)?;
        vectors::put(out, b" readout", self.readout.len() as u64)?;
        let sum = xc9500::xc9500_fuse_sum(d.blocks, d.class, &self.image);
        vectors::put(out, b" sum", sum)?;
        let zeros = xc9500::xc9500_zero_count(d.blocks, d.class, &self.image);
        vectors::put(out, b" zeros", zeros)?;
        let answer = xc9500::xc9500_image_to_readout(
            d.blocks,
            d.class,
            &self.image,
            &mut self.readout,
        );
        conversion(out, b" out", answer, &self.readout)
    }

    // The image of the readout, over what the image holds.
    fn back<W: Write>(&mut self, out: &mut W, name: &[u8]) -> io::Result<()> {
        let d = self.d;
        let answer = xc9500::xc9500_readout_to_image(
            d.blocks,
            d.class,
            &self.readout,
            &mut self.image,
        );
        conversion(out, name, answer, &self.image)
    }

    // There and back, over other bytes; then with 255 for the readout's last byte, and from one that looks random.
    fn ask<W: Write>(&mut self, out: &mut W) -> io::Result<()> {
        self.there(out)?;
        vectors::fill(&mut self.image, 3);
        self.back(out, b" back")?;
        if let Some(last) = self.readout.last_mut() {
            *last = 255;
        }
        self.back(out, b" last")?;
        vectors::fill(&mut self.readout, 4);
        self.back(out, b" above")?;
        vectors::end_line(out)
    }
}

// Each length one less than right at step 0, right at step 1, one more at step 2.
fn with_lengths<W: Write>(
    alloc: Global,
    out: &mut W,
    d: Device,
    image: u32,
    readout: u32,
) -> io::Result<()> {
    vectors::put_device(out, d)?;
    let sizes = vectors::sizes(d);
    let mut pictures = Pictures {
        d,
        image: vec![in alloc; 0; near(sizes.image_bytes, image, vectors::BUFFER)]?,
        readout: vec![in alloc; 0; near(sizes.readout_bytes, readout, vectors::BUFFER)]?,
    };
    pictures.ask(out)
}

fn main(rt: HostRuntime) -> io::Result<()> {
    let mut out = BufWriter::new(rt.alloc(), io::writer(&rt))?;
    for d in (0..vectors::DEVICES).map(vectors::device) {
        for steps in 0..9 {
            with_lengths(rt.alloc(), &mut out, d, steps % 3, steps / 3)?;
        }
    }
    out.flush()
}
