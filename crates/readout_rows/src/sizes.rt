// The bytes of a row, of two rows and of a block, in an image and in a readout.
// Two rows of either area are whole bytes of an image; one row is not.
ghost use Rattle.std.specs.Prelude.{◌≡◌, length};
ghost use Rattle.readout_rows.specs.Widths.{row_widths, pair_widths, block_widths, whole_bytes};

use part::known_device::in_block;
use part::{Area, KnownDevice, geometry};

// The rows of the main area of a block and of a wire-AND subarea.
pub const MAIN_ROWS: usize = geometry::MAIN_ROWS as usize;

pub const WIRE_AND_ROWS: usize = geometry::WIRE_AND_ROWS as usize;

// How many pairs of rows they are.
pub const MAIN_PAIRS: usize = MAIN_ROWS / 2;

pub const WIRE_AND_PAIRS: usize = WIRE_AND_ROWS / 2;

// The columns of a row, each of which is a byte of a readout.
pub const MAIN_COLUMNS: usize = geometry::MAIN_COLUMNS as usize;

pub const WIRE_AND_COLUMNS: usize = geometry::WIRE_AND_COLUMNS as usize;

// The bytes of the main area of a block in an image and in a readout.
pub const MAIN_IMAGE_BYTES: usize = geometry::MAIN_IMAGE_BYTES as usize;

pub const MAIN_BYTES: usize = geometry::MAIN_BYTES as usize;

// The bytes of two rows in an image and in a readout.
const MAIN_PAIR_IMAGE_BYTES: usize = 2 * geometry::MAIN_ROW_FUSES as usize / 8;

const WIRE_AND_PAIR_IMAGE_BYTES: usize = 2 * geometry::WIRE_AND_ROW_FUSES as usize / 8;

const MAIN_PAIR_BYTES: usize = 2 * MAIN_COLUMNS;

const WIRE_AND_PAIR_BYTES: usize = 2 * WIRE_AND_COLUMNS;

// Sizes by area are functions here: `Area` is of the crate `part`, and a trait for three numbers is no plainer.
// The bytes of a row in a readout.
pub fn row_bytes(area: Area) -> usize
    ensures { result ≡ length (row_widths area) }
{
    match area {
        Area::Main => MAIN_COLUMNS,
        Area::WireAnd => WIRE_AND_COLUMNS,
    }
}

// The image bytes of two rows.
pub fn pair_image_bytes(area: Area) -> usize
    ensures { result ≡ whole_bytes (pair_widths area) }
{
    match area {
        Area::Main => MAIN_PAIR_IMAGE_BYTES,
        Area::WireAnd => WIRE_AND_PAIR_IMAGE_BYTES,
    }
}

// The bytes of two rows in a readout.
pub fn pair_readout_bytes(area: Area) -> usize
    ensures { result ≡ length (pair_widths area) }
{
    match area {
        Area::Main => MAIN_PAIR_BYTES,
        Area::WireAnd => WIRE_AND_PAIR_BYTES,
    }
}

// The image bytes of a block.
pub fn block_image_bytes(part: KnownDevice) -> usize
    ensures { result ≡ whole_bytes (block_widths part.device) }
{
    in_block(
        part,
        geometry::MAIN_IMAGE_BYTES,
        geometry::SUBAREA_IMAGE_BYTES,
    ) as usize
}

// The bytes of a block in a readout.
pub fn block_bytes(part: KnownDevice) -> usize
    ensures { result ≡ length (block_widths part.device) }
{
    in_block(part, geometry::MAIN_BYTES, geometry::SUBAREA_BYTES) as usize
}
