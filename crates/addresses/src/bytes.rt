// The address of a byte, composed of its fields; the byte of an address, the position of a fuse, the index of a byte.
// For the crates above: a function here may require that the device has the byte, or that its numbers are small.
ghost use Rattle.std.specs.Prelude.{◌≡◌, true, ◌+◌, ◌*◌, ◌-◌, ◌/◌, ◌%◌, ◌^◌, ◌<◌, ◌≤◌};
ghost use Rattle.part.specs.Device.{main_row_fuses, main_fuses, wire_and_row_fuses, subarea_fuses};
ghost use Rattle.part.specs.Place.{has_byte, column_in_row, bit_in_row, place_in_block};
ghost use Rattle.addresses.specs.Address.{field, address_of_byte, byte_of_address, index_of_byte};

use super::DeviceAddress;
use part::geometry::{MAIN_BYTES, MAIN_COLUMNS, MAIN_PORTIONS, SUBAREA_BYTES, WIRE_AND_COLUMNS};
use part::known_device::in_block;
use part::places::{main_row, portion_of_fuse, wire_and_row};
use part::quotients::{MAIN_COLUMN_FACTOR, WIRE_AND_COLUMN_FACTOR, divided};
use part::{BytePlace, FuseNumber, KnownDevice};

// Where the columns 5 and 10 of a main row begin: 40 and 78 bits.
const COLUMN_5: u32 = 5 * 8;

const COLUMN_10: u32 = 9 * 8 + 6;

// A number with `value` put above its low `from` bits, which are all that it has.
fn with_field(low: u32, from: u32, value: u32) -> u32
    requires { (from < 32) × (low < 2 ^ from) × (value * 2 ^ from < 2 ^ 32) }
    ensures { result ≡ value * 2 ^ from + low }
{
    low | value << from
}

// The `width` bits of a number from bit `from` on.
fn field_of(x: u32, from: u32, width: u32) -> u32
    requires { (from < 32) × (width < 64) }
    ensures { result ≡ field x from width }
{
    cells::words::low_bits((x >> from) as u64, width) as u32
}

// The address of a byte of the device. That the device has the byte is asked for, here and in `index_of_byte`: a type
// that carries it would be taken apart at once.
pub fn address_of_byte(d: KnownDevice, byte: BytePlace) -> DeviceAddress
    requires { has_byte d.device byte ≡ true }
    ensures { result.0 ≡ address_of_byte byte }
{
    match byte {
        BytePlace::Main { block, row, column } => {
            let third = divided(column, 5, 52, 8);
            let columns = with_field(third.rest, 3, third.quotient);
            let rows = with_field(columns, 5, row);
            let area = with_field(rows, 12, 0);
            DeviceAddress(with_field(area, 13, block))
        }
        BytePlace::WireAnd {
            block,
            subarea,
            row,
            column,
        } => {
            let rows = with_field(column, 3, row);
            let subareas = with_field(rows, 8, subarea);
            let area = with_field(subareas, 12, 1);
            DeviceAddress(with_field(area, 13, block))
        }
    }
}

// The position of a fuse is the address of its byte times 8, plus its bit: one number, so that most fuses are found
// without their column. What a main row adds to it, which is cut where five columns after five begin: the first five
// have 40 bits, the next 38, of which 32 are four columns of 8, and the last 30. In their row columns 5 and 10 have the
// addresses 8 and 16.
fn position_in_main_row(rest: u32) -> u32
    requires { rest < main_row_fuses }
    ensures { result ≡ (column_in_row 9 6 rest / 5 * 2 ^ 3 + column_in_row 9 6 rest % 5) * 8 + bit_in_row 9 6 rest }
{
    if rest < COLUMN_5 {
        return rest;
    }
    if rest < COLUMN_10 {
        return 8 * 8 + (rest - COLUMN_5);
    }
    let at = divided(rest - COLUMN_10, 6, MAIN_COLUMN_FACTOR, 8);
    16 * 8 + at.quotient * 8 + at.rest
}

// What a wire-AND row adds to the position. It is a function of its own: such a row has two parts where a main row has
// three, which is more than another constant.
fn position_in_wire_and_row(rest: u32) -> u32
    requires { rest < wire_and_row_fuses }
    ensures { result ≡ column_in_row 1 7 rest * 8 + bit_in_row 1 7 rest }
{
    if rest < 8 {
        return rest;
    }
    let at = divided(rest - 8, 7, WIRE_AND_COLUMN_FACTOR, 8);
    8 + at.quotient * 8 + at.rest
}

// The position of a fuse, by its block and the portions before the block. The bound on the fuse is the one that
// `portion_of_fuse` asks for, and its only caller has it from the block that it found.
pub fn position_of_fuse(block: u32, fuse: FuseNumber, before: u32) -> u32
    requires { (block < 16) × (fuse.0 < 2 ^ 19) × (before * subarea_fuses ≤ fuse.0)
        × (fuse.0 - before * subarea_fuses < main_fuses + 16 * subarea_fuses) }
    ensures { result ≡ address_of_byte (place_in_block block (fuse.0 - before * subarea_fuses)).byte * 8
        + (place_in_block block (fuse.0 - before * subarea_fuses)).bit }
{
    let portion = portion_of_fuse(fuse);
    let portion_in_block = portion - before;
    if portion_in_block < MAIN_PORTIONS {
        let at = main_row(fuse, before);
        let row = with_field(position_in_main_row(at.rest), 8, at.quotient);
        return with_field(row, 16, block);
    }
    let at = wire_and_row(fuse, portion);
    let row = with_field(position_in_wire_and_row(at.rest), 6, at.quotient);
    let subarea = with_field(row, 11, portion_in_block - MAIN_PORTIONS);
    let area = with_field(subarea, 15, 1);
    with_field(area, 16, block)
}

// The byte that an address names, if any device has it.
pub fn byte_of_address(a: DeviceAddress) -> BytePlace
    ensures { result ≡ byte_of_address a.0 }
{
    let address = a.0;
    let block = field_of(address, 13, 4);
    if field_of(address, 12, 1) == 0 {
        BytePlace::Main {
            block,
            row: field_of(address, 5, 7),
            column: field_of(address, 3, 2) * 5 + field_of(address, 0, 3),
        }
    } else {
        BytePlace::WireAnd {
            block,
            subarea: field_of(address, 8, 4),
            row: field_of(address, 3, 5),
            column: field_of(address, 0, 3),
        }
    }
}

// The index of a byte in a readout.
pub fn index_of_byte(d: KnownDevice, byte: BytePlace) -> u32
    requires { has_byte d.device byte ≡ true }
    ensures { result ≡ index_of_byte d.device byte }
{
    let per_block = in_block(d, MAIN_BYTES, SUBAREA_BYTES);
    match byte {
        BytePlace::Main { block, row, column } => block * per_block + (row * MAIN_COLUMNS + column),
        BytePlace::WireAnd {
            block,
            subarea,
            row,
            column,
        } => {
            let in_subarea = row * WIRE_AND_COLUMNS + column;
            block * per_block + (MAIN_BYTES + (subarea * SUBAREA_BYTES + in_subarea))
        }
    }
}
