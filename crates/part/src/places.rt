// Where each byte and each fuse lies: the width and the first fuse of a byte; block, row and place of a fuse.
// For the crates above: a function here may require that the device has the byte or the fuse.
ghost use Rattle.std.specs.Prelude.{◌≡◌, true, ◌+◌, ◌*◌, ◌-◌, ◌/◌, ◌%◌, ◌^◌, ◌<◌, ◌≤◌};
ghost use Rattle.part.specs.Device.{blocks_of, column_width, column_start, main_fuses, main_row_fuses};
ghost use Rattle.part.specs.Device.{wire_and_row_fuses, subarea_fuses, block_fuses, fuse_count};
ghost use Rattle.part.specs.Place.{has_byte, has_place, width_of, column_in_row, bit_in_row, first_fuse, fuse_of_place};
ghost use Rattle.part.specs.Place.{place_in_main, place_in_wire_and, place_of_fuse};

use super::geometry::{
    MAIN_COLUMNS, MAIN_FUSES, MAIN_PORTIONS, MAIN_ROW_FUSES, MAIN_ROWS, PORTION_ROWS,
    SUBAREA_FUSES, WIRE_AND_COLUMNS, WIRE_AND_ROW_FUSES, WIRE_AND_ROWS,
};
use super::known_device::in_block;
use super::quotients::{
    MAIN_COLUMN_FACTOR, QuotientAndRest, WIRE_AND_COLUMN_FACTOR, block_factor, divided,
    shifted_product,
};
use super::{BytePlace, Device, FuseNumber, KnownDevice, Place};

// Whether the device has the byte.
pub fn has_byte(d: Device, byte: BytePlace) -> bool
    ensures { result ≡ has_byte d byte }
{
    let n = d.blocks;
    match byte {
        BytePlace::Main { block, row, column } => {
            (block < n) & (row < MAIN_ROWS) & (column < MAIN_COLUMNS)
        }
        BytePlace::WireAnd {
            block,
            subarea,
            row,
            column,
        } => (block < n) & (subarea < n) & (row < WIRE_AND_ROWS) & (column < WIRE_AND_COLUMNS),
    }
}

// The bits of a column of a row that has columns of 8 bits first and narrower ones after them.
fn column_width(wide: u32, narrow: u32, column: u32) -> u32
    ensures { result ≡ column_width wide narrow column }
{
    if column < wide {
        return 8;
    }
    narrow
}

// The bits of such a row before a column.
fn column_start(wide: u32, narrow: u32, column: u32) -> u32
    requires { (wide ≤ 9) × (narrow ≤ 8) × (column < 15) }
    ensures { result ≡ column_start wide narrow column }
{
    if column < wide {
        return column * 8;
    }
    wide * 8 + (column - wide) * narrow
}

// The bits of a byte.
pub fn width_of(byte: BytePlace) -> u32
    ensures { result ≡ width_of byte }
{
    match byte {
        BytePlace::Main {
            block: _,
            row: _,
            column,
        } => column_width(9, 6, column),
        BytePlace::WireAnd {
            block: _,
            subarea: _,
            row: _,
            column,
        } => column_width(1, 7, column),
    }
}

// The number of the fuse at a place: the first fuse of its byte, and its bit, added last as the definition has it.
// That the device has the place is asked for, and not carried by a type, which would be taken apart here and in each
// crate above; `fuse_settings` asks the same of a device that need not be known.
pub fn fuse_of_place(d: KnownDevice, place: Place) -> FuseNumber
    requires { has_place d.device place ≡ true }
    ensures { result.0 ≡ fuse_of_place d.device place }
{
    let Place { byte, bit } = place;
    let per_block = in_block(d, MAIN_FUSES, SUBAREA_FUSES);
    match byte {
        BytePlace::Main { block, row, column } => {
            let start = column_start(9, 6, column);
            FuseNumber(block * per_block + (row * MAIN_ROW_FUSES + start) + bit)
        }
        BytePlace::WireAnd {
            block,
            subarea,
            row,
            column,
        } => {
            let start = column_start(1, 7, column);
            let in_subarea = row * WIRE_AND_ROW_FUSES + start;
            let in_block = MAIN_FUSES + (subarea * SUBAREA_FUSES + in_subarea);
            FuseNumber(block * per_block + in_block + bit)
        }
    }
}

// A column of a row, and a bit of it.
#[derive(Clone, Copy)]
struct ColumnBit {
    column: u32,
    bit: u32,
}

// The column and the bit of what is left in a row of `wide` columns of 8 bits and then columns of `narrow` bits, with
// the factor that divides by `narrow`.
fn column_and_bit(wide: u32, narrow: u32, factor: u64, rest: u32) -> ColumnBit
    requires { (wide ≤ 9) × (rest < wide * 8 + 36) × (factor < 2 ^ 32)
        × ((rest - wide * 8) * factor / 2 ^ 8 ≡ (rest - wide * 8) / narrow) }
    ensures { (result.column ≡ column_in_row wide narrow rest) × (result.bit ≡ bit_in_row wide narrow rest) }
{
    if rest < wide * 8 {
        return ColumnBit {
            column: rest / 8,
            bit: rest % 8,
        };
    }
    let past = divided(rest - wide * 8, narrow, factor, 8);
    ColumnBit {
        column: wide + past.quotient,
        bit: past.rest,
    }
}

// The block of a fuse: the first step of the forward routine of document 003. A number that is no fuse of the device
// gets a block that the device has not, so that a test of the block is also the test of refusal 3.
pub fn block_of_fuse(d: KnownDevice, fuse: FuseNumber) -> u32
    ensures { (fuse.0 < fuse_count d.device → result ≡ fuse.0 / block_fuses d.device)
        × (result < blocks_of d.device → fuse.0 < fuse_count d.device) }
{
    shifted_product(fuse.0, block_factor(d), 32)
}

// The portions of the blocks before a block.
pub fn portions_before(d: KnownDevice, block: u32) -> u32
    requires { block < 16 }
    ensures { result * subarea_fuses ≡ block * block_fuses d.device }
{
    let per_block = in_block(d, MAIN_PORTIONS, 1);
    block * per_block
}

// The portion of a fuse, counted from the first of the part. No device has 2^19 fuses, and for all numbers below that
// the product is the quotient, here as for the rows.
// Each of the three asks for the bound by itself, since each can be called alone, and a caller that has found the block
// of the fuse has the bound: a type that carries it would be made for these calls and taken apart in them.
pub fn portion_of_fuse(fuse: FuseNumber) -> u32
    requires { fuse.0 < 2 ^ 19 }
    ensures { result ≡ fuse.0 / subarea_fuses }
{
    shifted_product(fuse.0, 6628036, 32)
}

// The row of a fuse in the main area of its block, and what is left in it. This and `wire_and_row` are one division
// with other numbers: they are two functions because what is counted from differs, the block or the portion.
pub fn main_row(fuse: FuseNumber, before: u32) -> QuotientAndRest
    requires { (fuse.0 < 2 ^ 19) × (before * subarea_fuses ≤ fuse.0) }
    ensures { (result.quotient ≡ (fuse.0 - before * subarea_fuses) / main_row_fuses)
        × (result.rest ≡ (fuse.0 - before * subarea_fuses) % main_row_fuses) }
{
    divided(fuse.0, MAIN_ROW_FUSES, 39768216, 32).after(before * PORTION_ROWS)
}

// The row of a fuse in its subarea, which is its portion, and what is left in it.
pub fn wire_and_row(fuse: FuseNumber, portion: u32) -> QuotientAndRest
    requires { (fuse.0 < 2 ^ 19) × (portion ≡ fuse.0 / subarea_fuses) }
    ensures { (result.quotient ≡ fuse.0 % subarea_fuses / wire_and_row_fuses)
        × (result.rest ≡ fuse.0 % subarea_fuses % wire_and_row_fuses) }
{
    divided(fuse.0, WIRE_AND_ROW_FUSES, 119304648, 32).after(portion * WIRE_AND_ROWS)
}

// The place of a fuse: its portion tells whether it lies in the main area of its block.
pub fn place_of_fuse(d: KnownDevice, fuse: FuseNumber) -> Place
    requires { fuse.0 < fuse_count d.device }
    ensures { result ≡ place_of_fuse d.device fuse.0 }
{
    let block = block_of_fuse(d, fuse);
    let before = portions_before(d, block);
    let portion = portion_of_fuse(fuse);
    if portion - before < MAIN_PORTIONS {
        let row = main_row(fuse, before);
        let at = column_and_bit(9, 6, MAIN_COLUMN_FACTOR, row.rest);
        return Place {
            byte: BytePlace::Main {
                block,
                row: row.quotient,
                column: at.column,
            },
            bit: at.bit,
        };
    }
    let row = wire_and_row(fuse, portion);
    let at = column_and_bit(1, 7, WIRE_AND_COLUMN_FACTOR, row.rest);
    Place {
        byte: BytePlace::WireAnd {
            block,
            subarea: portion - before - MAIN_PORTIONS,
            row: row.quotient,
            column: at.column,
        },
        bit: at.bit,
    }
}
