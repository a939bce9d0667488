// The walk over two images: how many fuses differ, how many bytes their lines have, and the lines put into a slice.
// A function here may require that the images have the length of the device, and that the lines lie in the slice.
ghost use Rattle.std.specs.Prelude.{◌≡◌, ◌+◌, ◌-◌, ◌≤◌, ◌<◌, length};
ghost use Rattle.std.specs.Int.Bits.{bit_and};
ghost use Rattle.part.specs.Device.{fuse_count, image_bytes};
ghost use Rattle.differences.specs.Differences.{differing_fuses, lines_of};
ghost use Rattle.differences.specs.Scan.{ones_from, AllBelow, line_bytes, lines_bytes, line_with, lines_with, Laid};

use super::lines::{line_bytes, put_line};
use super::words::{skip_same, word_at};
use names::setting_names::DeviceFuse;
use part::KnownDevice;

// How many fuses differ, and how many bytes their lines have.
#[derive(Clone, Copy, Debug, PartialEq, Eq)]
pub struct Tally {
    pub fuses: u32,
    pub bytes: usize,
}

// A word without its lowest one.
fn without_lowest(x: u64) -> u64
    requires { 0 < x }
    ensures { result ≡ bit_and x (x - 1) }
{
    x & (x - 1)
}

// The bytes of the lines of the ones of a word. A while here and in `put_word`: the loop walks what is left of a word,
// and a for over its bits would test all 64.
fn word_bytes(part: KnownDevice, from: u32, x: u64) -> usize
    requires { (from ≤ 1000000) × (AllBelow (fuse_count part.device) (ones_from from x 64)) }
    ensures { (result ≡ lines_bytes part.device (ones_from from x 64)) × (result ≤ 4096) }
{
    let mut left = x;
    let mut bytes: usize = 0;
    while left != 0 {
        let there = DeviceFuse {
            device: part,
            fuse: from + left.trailing_zeros(),
        };
        bytes += line_bytes(there);
        left = without_lowest(left);
    }
    bytes
}

// The fuses that differ are counted, and the bytes of their lines. A while here and in `put_lines`: `skip_same` says
// where the next word is.
pub fn measure(part: KnownDevice, old: &[u8], new: &[u8]) -> Tally
    requires { (length old.now ≡ image_bytes part.device) × (length new.now ≡ image_bytes part.device) }
    ensures { (result.fuses ≡ length (differing_fuses part.device old.now new.now))
        × (result.bytes ≡ lines_bytes part.device (differing_fuses part.device old.now new.now))
        × (result.fuses ≤ 290304) × (result.bytes ≤ 20000000) }
{
    let mut fuses: u32 = 0;
    let mut bytes: usize = 0;
    let mut at = skip_same(old, new, 0);
    while at < old.len() {
        let x = word_at(old, at) ^ word_at(new, at);
        fuses += x.count_ones();
        bytes += word_bytes(part, at as u32 * 8, x);
        at = skip_same(old, new, at + 8);
    }
    Tally { fuses, bytes }
}

// The line of a fuse put into bytes of its own first: no byte behind the line is changed.
fn put_exact(there: DeviceFuse, state: u64, out: &mut [u8], at: usize) -> usize
    requires { (state < 2) × (at + line_bytes there.device.device there.fuse ≤ length out.old) }
    ensures { Laid out.old out.new at (at + line_bytes there.device.device there.fuse)
        (line_with there.device.device there.fuse state) result }
{
    let mut line = [0u8; 64];
    let n = put_line(there, state, &mut line, 0);
    report_lines::lines::put(&line[..n], out, at)
}

// The line of a fuse put into a slice, and no byte changed from `end` on. Here and below `end` is a number, no end of a
// shorter slice: the loan of a part of `out` at each line would stand in each loop's invariant.
fn put_before(there: DeviceFuse, state: u64, out: &mut [u8], at: usize, end: usize) -> usize
    requires { (state < 2) × (at + line_bytes there.device.device there.fuse ≤ end)
        × (end ≤ length out.old) }
    ensures { Laid out.old out.new at end (line_with there.device.device there.fuse state) result }
{
    if 64 <= end - at {
        return put_line(there, state, out, at);
    }
    put_exact(there, state, out, at)
}

// The lines of the ones of a word; the old states are the bits of another word.
fn put_word(
    part: KnownDevice,
    from: u32,
    states: u64,
    x: u64,
    out: &mut [u8],
    at: usize,
    end: usize,
) -> usize
    requires { (from ≤ 1000000) × (AllBelow (fuse_count part.device) (ones_from from x 64))
        × (at + lines_bytes part.device (ones_from from x 64) ≤ end) × (end ≤ length out.old) }
    ensures { Laid out.old out.new at end (lines_with part.device from states (ones_from from x 64)) result }
{
    let mut left = x;
    let mut next = at;
    while left != 0 {
        let bit = left.trailing_zeros();
        let state = cells::words::low_bits(states >> bit, 1);
        let there = DeviceFuse {
            device: part,
            fuse: from + bit,
        };
        next = put_before(there, state, out, next, end);
        left = without_lowest(left);
    }
    next
}

// The lines of all fuses that differ.
pub fn put_lines(part: KnownDevice, old: &[u8], new: &[u8], out: &mut [u8], at: usize, end: usize)
    requires { (length old.now ≡ image_bytes part.device) × (length new.now ≡ image_bytes part.device)
        × (at + lines_bytes part.device (differing_fuses part.device old.now new.now) ≡ end) × (end ≤ length out.old) }
    ensures { Laid out.old out.new at end
        (lines_of part.device old.now new.now (differing_fuses part.device old.now new.now)) end }
{
    let mut next = at;
    let mut i = skip_same(old, new, 0);
    while i < old.len() {
        let states = word_at(old, i);
        let x = states ^ word_at(new, i);
        next = put_word(part, i as u32 * 8, states, x, out, next, end);
        i = skip_same(old, new, i + 8);
    }
}
