// The only setting and bit that can lie at a place, by the rows and columns of `setting_places` read the other way.
// For the crates above: a function here may require that the device has the place.
ghost use Rattle.std.specs.Prelude.{◌≡◌, true, ◌+◌, ◌<◌, ◌≤◌};
ghost use Rattle.part.specs.Device.{main_columns};
ghost use Rattle.part.specs.Place.{has_place};
ghost use Rattle.settings.specs.declared.Setting.TheVariants.{Literal};
ghost use Rattle.fuse_settings.specs.Back.{polarity_of_row, field_index_at_row, block_field_near, global_field_near};
ghost use Rattle.fuse_settings.specs.Back.{global_bit_near, candidate_in_main, candidate_at, always_listed};

use super::SettingBit;
use part::{BytePlace, Device, Place};
use setting_places::places::field_rows;
use settings::{BlockField, GlobalField, MacrocellField, Polarity, Setting};

const FIRST_MACROCELL_ROW: u32 = 12;

// The index of the last macrocell field that starts at or before a row, from row 12 on. A table is one read; to look
// the field up among the first rows would be a loop.
static FIELD_INDEX_AT_ROW: [u32; 43] = [
    0, 0, 1, 1, 2, 2, 3, 3, 4, 4, 5, 6, 7, 8, 9, 10, 10, 11, 11, 11, 11, 11, 11, 12, 13, 13, 13,
    13, 14, 15, 16, 17, 18, 18, 19, 19, 20, 21, 22, 23, 24, 25, 26,
];

fn polarity_of_row(row: u32) -> Polarity
    ensures { result ≡ polarity_of_row row }
{
    if row % 2 == 1 {
        return Polarity::P;
    }
    Polarity::N
}

// The index of the last macrocell field that starts at or before a row.
fn field_index_at_row(row: u32) -> u32
    requires { (12 ≤ row) × (row < 55) }
    ensures { result ≡ field_index_at_row row }
{
    FIELD_INDEX_AT_ROW[(row - FIRST_MACROCELL_ROW) as usize]
}

fn block_field_near(row: u32, column: u32) -> BlockField
    ensures { result ≡ block_field_near row column }
{
    if row < 68 {
        if column == 0 {
            return BlockField::Enable;
        }
        return BlockField::ExportEnable;
    }
    if column == 0 {
        return BlockField::WriteProt;
    }
    if column == 3 {
        return BlockField::ReadProtB;
    }
    BlockField::PullupDisable
}

fn global_field_near(row: u32, column: u32) -> GlobalField
    ensures { result ≡ global_field_near row column }
{
    if 5 < row {
        return GlobalField::Usercode;
    }
    if column < 2 {
        return GlobalField::FsrInv;
    }
    if column < 5 {
        if row == 0 {
            return GlobalField::FclkInv(column - 2);
        }
        return GlobalField::FclkMux(column - 2);
    }
    if row == 0 {
        return GlobalField::FoeInv(column - 5);
    }
    GlobalField::FoeMux(column - 5)
}

// The bit of the global field near a place. A bit is below 8 here and in `candidate_in_main` because no byte has more,
// which `candidate_at` has from its place: the place is in its parts from there on.
fn global_bit_near(row: u32, column: u32, bit: u32) -> u32
    requires { (6 ≤ bit) × (bit < 8) }
    ensures { result ≡ global_bit_near row column bit }
{
    if row < 3 {
        return 0;
    }
    if row < 6 {
        return row - 3;
    }
    if (row < 8) & (column < 8) {
        return 16 * (7 - row) + 2 * (7 - column) + (bit - 6);
    }
    0
}

fn candidate_in_main(block: u32, row: u32, column: u32, bit: u32) -> SettingBit
    requires { (bit < 8) × (column < main_columns) }
    ensures { result ≡ candidate_in_main block row column bit }
{
    if bit < 6 {
        let polarity = polarity_of_row(row);
        return SettingBit {
            setting: Setting::Literal {
                block,
                macrocell: column / 5 + 3 * bit,
                term: column % 5,
                input: row / 2,
                polarity,
            },
            bit: 0,
        };
    }
    if row < 11 {
        let global = global_field_near(row, column);
        let at = global_bit_near(row, column, bit);
        return SettingBit {
            setting: Setting::Global(global),
            bit: at,
        };
    }
    if row < 12 {
        return SettingBit {
            setting: Setting::Block {
                block,
                field: BlockField::ReadProtA,
            },
            bit: 0,
        };
    }
    if row < 55 {
        let index = field_index_at_row(row);
        let field = MacrocellField::from_index(index);
        let first = field_rows(index).first;
        return SettingBit {
            setting: Setting::Macrocell {
                block,
                macrocell: column + 9 * (bit - 6),
                field,
            },
            bit: row - first,
        };
    }
    let near = block_field_near(row, column);
    SettingBit {
        setting: Setting::Block { block, field: near },
        bit: 0,
    }
}

// The setting and the bit at a place, if there are any there. It takes any device that has the place: to ask for a
// known one would ask more than it needs.
pub fn candidate_at(d: Device, place: Place) -> SettingBit
    requires { has_place d place ≡ true }
    ensures { result ≡ candidate_at place }
{
    let bit = place.bit;
    let byte = place.byte;
    match byte {
        BytePlace::Main { block, row, column } => candidate_in_main(block, row, column, bit),
        BytePlace::WireAnd {
            block,
            subarea,
            row,
            column,
        } => SettingBit {
            setting: Setting::WireAnd {
                block,
                input: column + 5 * bit,
                source: subarea,
                macrocell: row,
            },
            bit: 0,
        },
    }
}

// Whether a setting that is the candidate at a place always lists it: a literal or a wire-AND does.
pub fn always_listed(s: Setting) -> bool
    ensures { result ≡ always_listed s }
{
    matches!(s, Setting::Literal { .. } | Setting::WireAnd { .. })
}
