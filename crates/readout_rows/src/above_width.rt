// The first byte of a readout that has a bit above its width: refusal 6.
// Bytes are looked at a row at a time, and one by one only in a row that has such a byte.
ghost use Rattle.std.specs.Prelude.{◌≡◌, ◌*◌, ◌≤◌, length, replicate};
ghost use Rattle.cells.specs.Cells.{repeat};
ghost use Rattle.part.specs.Device.{readout_bytes};
ghost use Rattle.readout_rows.specs.Widths.{row_widths, block_widths, widths, first_over};

use super::sizes;
use cells::words::{joined, word8};
use part::{Area, KnownDevice};

// The index of the first of some bytes that has a bit above `width`.
fn run_above(bytes: &[u8], width: u32) -> Option<usize>
    requires { width ≤ 8 }
    ensures { result ≡ first_over (replicate (length bytes.now) width) bytes.now }
{
    bytes.iter().position(|byte| *byte as u64 >> width != 0)
}

// The index of the first byte of a row that has a bit above its width. Bytes of 8 bits have none above; the others are
// taken as one word, and as a rule none has any.
#[tactic(auto, using(crate::proofs::RowSizes::main_length, crate::proofs::RowSizes::wire_and_length))]
fn row_above(area: Area, row: &[u8]) -> Option<usize>
    requires { length row.now ≡ length (row_widths area) }
    ensures { result ≡ first_over (row_widths area) row.now }
{
    match area {
        Area::Main => {
            if (word8(row, 7) >> 16) & 0xC0C0_C0C0_C0C0 == 0 {
                return None;
            }
            Some(9 + run_above(&row[9..], 6)?)
        }
        Area::WireAnd => {
            if joined(row, 1, 8, 4) & 0x8080_8080 == 0 {
                return None;
            }
            Some(1 + run_above(&row[1..], 7)?)
        }
    }
}

// The index of the first byte of some rows that has a bit above its width.
fn rows_above(area: Area, rows: &[u8], count: usize) -> Option<usize>
    requires { count * length (row_widths area) ≤ length rows.now }
    ensures { result ≡ first_over (repeat count (row_widths area)) rows.now }
{
    let bytes = sizes::row_bytes(area);
    for k in 0..count {
        let at = k * bytes;
        if let Some(index) = row_above(area, &rows[at..at + bytes]) {
            return Some(at + index);
        }
    }
    None
}

// The index of the first byte of a block that has a bit above its width.
fn block_above(part: KnownDevice, block: &[u8]) -> Option<usize>
    requires { length block.now ≡ length (block_widths part.device) }
    ensures { result ≡ first_over (block_widths part.device) block.now }
{
    let (main, wire_and) = block.split_at(sizes::MAIN_BYTES);
    if let Some(index) = rows_above(Area::Main, main, sizes::MAIN_ROWS) {
        return Some(index);
    }
    let rows = part.device.blocks as usize * sizes::WIRE_AND_ROWS;
    Some(sizes::MAIN_BYTES + rows_above(Area::WireAnd, wire_and, rows)?)
}

// The index of the first byte of a readout that has a bit above its width.
pub fn first_above(part: KnownDevice, readout: &[u8]) -> Option<usize>
    requires { length readout.now ≡ readout_bytes part.device }
    ensures { result ≡ first_over (widths part.device) readout.now }
{
    let bytes = sizes::block_bytes(part);
    for k in 0..part.device.blocks as usize {
        let at = k * bytes;
        if let Some(index) = block_above(part, &readout[at..at + bytes]) {
            return Some(at + index);
        }
    }
    None
}
