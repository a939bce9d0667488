// Runs demand 3's calls, `demand::both_ways`, on each device: many settings and values, with another setting read
// before and after. Prints a digest of the answers and of each slice.
use demand::{BothAnswer, BothDone, BothRead};
use part::{Device, Refusal};
use settings::{Setting, SettingNumber};
use std::alloc::Global;
use std::io;
use std::io::Write;
use values::Value;
use vectors::{near, taken_in};

// How many times a device is asked.
const TURNS: u32 = 37;

// The setting of a number, or OE_MUX of macrocell 0 where the device has none.
fn setting_of(d: Device, number: u32) -> Setting {
    settings::setting_of_number(d, SettingNumber(number)).unwrap_or(super::OE_MUX_NAMED)
}

// The value of a pattern; one that is none of the setting's where the pattern is too wide.
fn value_of(d: Device, s: Setting, pattern: u32) -> Value {
    setting_values::value_of_pattern(d, s, pattern).unwrap_or(Value::Unassigned(pattern))
}

fn refusal_word(r: Refusal) -> u64 {
    r.number() as u64 * 4294967296 + r.value() as u64
}

fn done_word(answer: Result<(), Refusal>) -> u64 {
    answer.map_or_else(refusal_word, |_| 0)
}

// A value is told by its pattern.
fn value_word(d: Device, s: Setting, answer: Result<Value, Refusal>) -> u64 {
    answer
        .and_then(|v| setting_values::pattern_of_value(d, s, v))
        .map_or_else(refusal_word, |pattern| pattern as u64)
}

fn with_done(digest: u64, both: BothDone) -> u64 {
    taken_in(
        taken_in(digest, done_word(both.image)),
        done_word(both.readout),
    )
}

fn with_read(digest: u64, d: Device, s: Setting, both: BothRead) -> u64 {
    let first = taken_in(digest, value_word(d, s, both.image));
    taken_in(first, value_word(d, s, both.readout))
}

// In the order of the calls.
fn with_answers(digest: u64, d: Device, s: Setting, t: Setting, r: BothAnswer) -> u64 {
    let one = taken_in(digest, done_word(r.before.converted));
    let two = with_read(one, d, t, r.before.other);
    let three = with_done(two, r.set);
    let four = with_done(three, r.converted);
    let five = with_read(four, d, s, r.read);
    with_read(five, d, t, r.other)
}

// The numbers to ask for: at each ninth turn one that the device does not have.
fn number(count: u32, k: u32) -> u32 {
    let few = count % super::MANY;
    if k % 9 == 8 {
        return few + k % 2;
    }
    (k % 4096 * 7919 + 13) % (few + 1)
}

fn other_number(count: u32, k: u32) -> u32 {
    (k % 4096 * 104729 + 7) % (count % super::MANY + 1)
}

// The pattern to put there: 0 and 1 in turn, which every setting has, and at each fifth turn a wider one.
fn pattern(k: u32) -> u32 {
    if k % 5 == 4 {
        return k % 4096 / 5 + 2;
    }
    k / 2 % 2
}

// A device, and the slices that the calls for it are given.
#[derive(Drop)]
struct Slices {
    d: Device,
    image: Vec<u8>,
    readout: Vec<u8>,
    kept: Vec<u8>,
    as_readout: Vec<u8>,
    as_image: Vec<u8>,
}

impl Slices {
    // Lengths k of three, as for the other edits; the kept readout is as long as the readout for the right lengths
    // alone.
    fn new(alloc: Global, d: Device, k: u32) -> io::Result<Slices> {
        let sizes = vectors::sizes(d);
        let (up, down) = (k % 3, 2 - k % 3);
        Ok(Slices {
            d,
            image: filled(alloc, sizes.image_bytes, up, 3)?,
            readout: filled(alloc, sizes.readout_bytes, down, 4)?,
            kept: filled(alloc, sizes.readout_bytes, up, 5)?,
            as_readout: filled(alloc, sizes.readout_bytes, up, 6)?,
            as_image: filled(alloc, sizes.image_bytes, down, 7)?,
        })
    }

    // Turn k, and the digest with its answers taken in.
    fn turn(&mut self, k: u32, digest: u64) -> u64 {
        let d = self.d;
        let count = super::setting_count(d);
        let s = setting_of(d, number(count, k));
        let t = setting_of(d, other_number(count, k));
        let v = value_of(d, s, pattern(k));
        let r = demand::both_ways(
            d,
            &mut self.image,
            &mut self.readout,
            &mut self.kept,
            &mut self.as_readout,
            &mut self.as_image,
            s,
            v,
            t,
        );
        with_answers(digest, d, s, t, r)
    }

    fn answers(&mut self) -> u64 {
        let mut digest: u64 = 0;
        for k in 0..TURNS {
            digest = self.turn(k, digest);
        }
        digest
    }

    fn put<W: Write>(&self, out: &mut W) -> io::Result<()> {
        vectors::put(out, b" image", vectors::digest_of(&self.image))?;
        vectors::put(out, b" readout", vectors::digest_of(&self.readout))?;
        vectors::put(out, b" before", vectors::digest_of(&self.kept))?;
        vectors::put(out, b" its readout", vectors::digest_of(&self.as_readout))?;
        vectors::put(out, b" its image", vectors::digest_of(&self.as_image))?;
        vectors::end_line(out)
    }
}

// Bytes that look random, near a length.
fn filled(alloc: Global, length: u32, step: u32, seed: u64) -> io::Result<Vec<u8>> {
    let mut bytes = vec![in alloc; 0; near(length, step, vectors::BUFFER)]?;
    vectors::fill(&mut bytes, seed);
    Ok(bytes)
}

// The calls for a device, with each of the lengths.
pub fn ask<W: Write>(alloc: Global, out: &mut W, d: Device) -> io::Result<()> {
    for k in 0..3 {
        let mut slices = Slices::new(alloc, d, k)?;
        vectors::put_device(out, d)?;
        vectors::put(out, b" both ways", slices.answers())?;
        slices.put(out)?;
    }
    Ok(())
}
