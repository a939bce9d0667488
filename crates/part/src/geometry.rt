// What a device has: its rows, columns, fuses and bytes. The sizes of a known device stand in `known_device`.
// For the crates above, so that each number is derived once.
ghost use Rattle.std.specs.Prelude.{◌≡◌, true, ◌+◌, ◌*◌, ◌/◌, ◌<◌, ◌≤◌};
ghost use Rattle.part.specs.Device.{is_block_count, known, blocks_of, is_large};
ghost use Rattle.part.specs.Device.{in_block, in_device, fuse_count, image_bytes};
ghost use Rattle.part.specs.Device.{readout_bytes, text_bytes, decimal_digits};

use super::Device;

// The rows and the columns of the main area of a block, and of one of its wire-AND subareas.
pub const MAIN_ROWS: u32 = 72;

pub const MAIN_COLUMNS: u32 = 15;

pub const WIRE_AND_ROWS: u32 = 18;

pub const WIRE_AND_COLUMNS: u32 = 5;

// The fuses of a row, and of a whole area.
pub const MAIN_ROW_FUSES: u32 = 9 * 8 + 6 * 6;

pub const WIRE_AND_ROW_FUSES: u32 = 8 + 4 * 7;

pub const MAIN_FUSES: u32 = MAIN_ROWS * MAIN_ROW_FUSES;

pub const SUBAREA_FUSES: u32 = WIRE_AND_ROWS * WIRE_AND_ROW_FUSES;

// A portion is as many fuses as a subarea has, and six main rows have as many: the main area of a block is twelve
// portions. So a row of a portion, and what is left in a row, do not depend on the block. Both numbers are typed, since
// a quotient would be a division in fuse to address.
pub const PORTION_ROWS: u32 = 6;

pub const MAIN_PORTIONS: u32 = 12;

// The bytes of an area in an image, in a readout, and of its lines in a text.
pub const MAIN_IMAGE_BYTES: u32 = MAIN_FUSES / 8;

pub const SUBAREA_IMAGE_BYTES: u32 = SUBAREA_FUSES / 8;

pub const MAIN_BYTES: u32 = MAIN_ROWS * MAIN_COLUMNS;

pub const SUBAREA_BYTES: u32 = WIRE_AND_ROWS * WIRE_AND_COLUMNS;

// A line has ten bytes besides its blanks and bits; a main row has three lines, a wire-AND row has one.
pub const MAIN_ROW_TEXT: u32 = 3 * 10 + MAIN_COLUMNS + MAIN_ROW_FUSES;

pub const WIRE_AND_ROW_TEXT: u32 = 10 + WIRE_AND_COLUMNS + WIRE_AND_ROW_FUSES;

pub const MAIN_TEXT: u32 = MAIN_ROWS * MAIN_ROW_TEXT;

pub const SUBAREA_TEXT: u32 = WIRE_AND_ROWS * WIRE_AND_ROW_TEXT;

// The block counts, one test after another: so they compile to one test of a bit.
pub fn is_block_count(n: u32) -> bool
    ensures { result ≡ is_block_count n }
{
    if n == 2 {
        return true;
    }
    if n == 4 {
        return true;
    }
    if n == 6 {
        return true;
    }
    if n == 8 {
        return true;
    }
    if n == 12 {
        return true;
    }
    n == 16
}

impl Device {
    // How many function blocks a device of these two numbers has.
    pub fn block_count(self) -> u32
        ensures { result ≡ blocks_of self }
    {
        self.blocks
    }

    // Whether its output-enable class is the large one.
    pub fn is_large(self) -> bool
        ensures { result ≡ is_large self }
    {
        self.class == 1
    }
}

// The decimal digits of a count.
pub fn decimal_digits(x: u32) -> u32
    ensures { result ≡ decimal_digits x }
{
    if x < 10 {
        1
    } else if x < 100 {
        2
    } else if x < 1000 {
        3
    } else if x < 10000 {
        4
    } else if x < 100000 {
        5
    } else if x < 1000000 {
        6
    } else {
        7
    }
}
