// Prints what `part` answers: the sizes of each device, document 01's bench cases, and digests over all fuses and
// addresses. The file stdout beside src/ is what the independent program prints.
#![tactic(auto)]

use part::{Device, Refusal};
use std::io;
use std::io::{BufWriter, Write};

fn refusal<W: Write>(out: &mut W, r: Refusal) -> io::Result<()> {
    vectors::put(out, b" refused", r.number() as u64)?;
    vectors::put(out, b" value", r.value() as u64)
}

fn sizes<W: Write>(out: &mut W, d: Device) -> io::Result<()> {
    vectors::put_device(out, d)?;
    match part::sizes_of(d) {
        Ok(s) => {
            vectors::put(out, b" fuses", s.fuses as u64)?;
            vectors::put(out, b" image", s.image_bytes as u64)?;
            vectors::put(out, b" readout", s.readout_bytes as u64)?;
            vectors::put(out, b" text", s.text_bytes as u64)?;
        }
        Err(r) => refusal(out, r)?,
    }
    vectors::end_line(out)
}

fn fuse<W: Write>(out: &mut W, f: u32) -> io::Result<()> {
    vectors::put(out, b"fuse", f as u64)?;
    vectors::put_answer(out, xc9500::xc9500_address_of_fuse(2, 0, f))?;
    vectors::end_line(out)
}

fn address<W: Write>(out: &mut W, a: u32) -> io::Result<()> {
    vectors::put(out, b"address", a as u64)?;
    vectors::put_answer(out, xc9500::xc9500_fuse_of_address(2, 0, a, 0))?;
    vectors::end_line(out)
}

// Document 01's bench cases.
const BENCH_FUSES: [u32; 11] = [0, 71, 72, 107, 108, 7775, 7776, 7784, 9072, 18143, 18144];

const BENCH_ADDRESSES: [u32; 4] = [5, 24, 2304, 16384];

fn bench_cases<W: Write>(out: &mut W) -> io::Result<()> {
    for f in BENCH_FUSES {
        fuse(out, f)?;
    }
    for a in BENCH_ADDRESSES {
        address(out, a)?;
    }
    Ok(())
}

// The digest of what so many calls answer.
fn digest<F: Fn(u32) -> u64>(calls: u32, call: F) -> u64
    requires { F.IsAlwaysCallable call }
{
    (0..calls).fold(0, |digest, i| vectors::taken_in(digest, call(i)))
}

// More calls than the largest part has fuses, and nine for each address of 17 bits.
const FUSES: u32 = 300000;

const ADDRESSES: u32 = 9 * 131072;

fn address_of(d: Device, fuse: u32) -> u64 {
    xc9500::xc9500_address_of_fuse(d.blocks, d.class, fuse)
}

// Call number i: an address with bits 0 to 8 in turn.
fn fuse_of(d: Device, i: u32) -> u64 {
    xc9500::xc9500_fuse_of_address(d.blocks, d.class, i / 9, i % 9)
}

fn digests<W: Write>(out: &mut W, d: Device) -> io::Result<()> {
    vectors::put_device(out, d)?;
    vectors::put(out, b" fuses", FUSES as u64)?;
    vectors::put(out, b" digest", digest(FUSES, |fuse| address_of(d, fuse)))?;
    vectors::put(out, b" addresses", ADDRESSES as u64)?;
    vectors::put(out, b" digest", digest(ADDRESSES, |i| fuse_of(d, i)))?;
    vectors::end_line(out)
}

fn main(rt: HostRuntime) -> io::Result<()> {
    let mut out = BufWriter::new(rt.alloc(), io::writer(&rt))?;
    for d in (0..vectors::DEVICES).map(vectors::device) {
        sizes(&mut out, d)?;
    }
    bench_cases(&mut out)?;
    for d in (0..vectors::DEVICES).map(vectors::device) {
        digests(&mut out, d)?;
    }
    out.flush()
}
