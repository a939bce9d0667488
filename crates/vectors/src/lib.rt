// What the programs that run vectors share: the devices to ask, a digest of many answers in one number, the printing of
// a line. No contract says which numbers are printed: they are compared with what the independent program prints.
#![tactic(auto)]

ghost use Rattle.std.specs.Prelude.{◌≤◌, ◌++◌, ◌/◌, ◌%◌, ◌^◌, OnOk, codes};
ghost use Rattle.std.specs.Io.KnownBytes.{Appends};
ghost use Rattle.std.specs.Fmt.{decimal};

use part::{Device, Sizes};
use std::io;
use std::io::Write;

// The devices to ask: every block count below 18, known or not, with the two classes and one that is none.
pub const DEVICES: u32 = 18 * 3;

// Device k of these.
pub fn device(k: u32) -> Device {
    Device {
        blocks: k / 3,
        class: k % 3,
    }
}

// The bytes of a buffer that holds an image or a readout of any device, and one of the next length.
pub const BUFFER: usize = 65536;

// The device with the fewest fuses.
pub const SMALLEST: Device = Device {
    blocks: 2,
    class: 0,
};

// The sizes of a device, or those of the smallest where there is none.
pub fn sizes(d: Device) -> Sizes {
    part::sizes_of(d).unwrap_or(Sizes {
        fuses: 18144,
        image_bytes: 2268,
        readout_bytes: 2520,
        text_bytes: 25732,
    })
}

const PRIME: u64 = 4294967291;

// The digest with one more word taken in: 1000003 times the digest, plus the word, modulo a prime. It starts at 0.
pub fn taken_in(digest: u64, word: u64) -> u64 {
    (digest % PRIME * 1000003 + word % PRIME) % PRIME
}

// The word after a word in a fixed row of numbers that look random; bits 16 to 23 of each make a byte.
pub fn next(word: u64) -> u64 {
    (word % 2147483648 * 1103515245 + 12345) % 2147483648
}

// All bytes of a slice, made from the words after `seed`.
pub fn fill(bytes: &mut [u8], seed: u64) {
    let mut word = seed;
    for byte in bytes {
        word = next(word);
        *byte = (word / 65536 % 256) as u8;
    }
}

// The same byte at each place of a slice.
pub fn fill_with(bytes: &mut [u8], value: u8) {
    bytes.fill(value);
}

// The digest of the bytes of a slice.
pub fn digest_of(bytes: &[u8]) -> u64 {
    bytes
        .iter()
        .fold(0, |digest, byte| taken_in(digest, u64::from(*byte)))
}

// A word of the C interface: its refusal, or its result.
pub fn put_answer<W: Write>(out: &mut W, w: u64) -> io::Result<()>
    ensures { OnOk result (Appends (W.contents out.old) (W.contents out.new)
        (codes " refused " ++ decimal (w / 2 ^ 56) ++ codes " result " ++ decimal (w % 2 ^ 56))) }
{
    put(out, b" refused", w >> 56)?;
    put(out, b" result", w % 72057594037927936)
}

// A device, at the start of a line.
pub fn put_device<W: Write>(out: &mut W, d: Device) -> io::Result<()>
    ensures { OnOk result (Appends (W.contents out.old) (W.contents out.new)
        (codes "blocks " ++ decimal d.blocks ++ codes " class " ++ decimal d.class)) }
{
    put(out, b"blocks", d.blocks as u64)?;
    put(out, b" class", d.class as u64)
}

// A word and a number after it, with a space before each number.
pub fn put<W: Write>(out: &mut W, word: &[u8], n: u64) -> io::Result<()>
    ensures { OnOk result (Appends (W.contents out.old) (W.contents out.new) (word.now ++ codes " " ++ decimal n)) }
{
    out.write_all(word)?;
    write!(out, " {n}")
}

pub fn end_line<W: Write>(out: &mut W) -> io::Result<()>
    ensures { OnOk result (Appends (W.contents out.old) (W.contents out.new) (codes "\n")) }
{
    out.write_all(b"\n")
}

// A number, or a limit that it is over.
pub fn at_most(n: usize, limit: usize) -> usize
    ensures { result ≤ limit }
{
    n.min(limit)
}

pub fn one_less(n: u32) -> u32 {
    n.saturating_sub(1)
}

// One less than a length at step 0, the length at step 1, one more at step 2; or the limit, where that is less.
pub fn near(length: u32, step: u32, limit: usize) -> usize
    ensures { result ≤ limit }
{
    at_most(one_less(length) as usize + step as usize, limit)
}
