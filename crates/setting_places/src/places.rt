// The rows and columns of each field, and the place and the fuse of a bit of a setting.
// For the crates above: a function here may require that the device has the setting, or that its field has the bit.
ghost use Rattle.std.specs.Prelude.{◌≡◌, ◌+◌, ◌*◌, ◌/◌, ◌%◌, ◌^◌, ◌<◌};
ghost use Rattle.settings.specs.Fields.{inputs, terms, foes, macrocell_fields, global_fields, global_index};
ghost use Rattle.settings.specs.Order.{macrocell_field_at, start, setting_of};
ghost use Rattle.settings.specs.Order.Group.{wire_ands};
ghost use Rattle.settings.specs.declared.Setting.TheVariants.{Literal, WireAnd};
ghost use Rattle.setting_places.specs.Places.{main, literal_row, first_row, rows, block_place, global_place, place_of};
ghost use Rattle.setting_places.specs.Places.{global_bits, bits_of, fuse_of};

use part::geometry::MAIN_COLUMNS;
use part::places::fuse_of_place;
use part::quotients::{MAIN_COLUMN_FACTOR, divided};
use part::{BytePlace, Device, FuseNumber, Place};
use settings::numbers::{TERM_LITERALS, WireAndIndices};
use settings::{
    BlockField, DeviceSetting, GlobalField, LiteralNumber, MacrocellField, Polarity, Setting,
};

// The factors that divide the number of a literal by the literals of a term, and that of a term by the columns, with
// their shifts.
const TERM_SHIFT: u32 = 24;

const TERM_FACTOR: u64 = (1 << TERM_SHIFT) / TERM_LITERALS as u64 + 1;

const COLUMN_SHIFT: u32 = 16;

const COLUMN_FACTOR: u64 = (1 << COLUMN_SHIFT) / MAIN_COLUMNS as u64 + 1;

// The rows of a macrocell field: the first, which holds its bit 0, and how many.
#[derive(Clone, Copy, Debug, PartialEq, Eq)]
pub struct FieldRows {
    pub first: u32,
    pub count: u32,
}

// The first row and the row count of each macrocell field, by its index. A pair is one read. The counts stand here
// beside `macrocell_bits`, since the way by number has the index alone and would have to make the field.
static FIELD_ROWS: [(u32, u32); 27] = [
    (12, 2),
    (14, 2),
    (16, 2),
    (18, 2),
    (20, 2),
    (22, 1),
    (23, 1),
    (24, 1),
    (25, 1),
    (26, 1),
    (27, 2),
    (29, 3),
    (35, 1),
    (36, 2),
    (40, 1),
    (41, 1),
    (42, 1),
    (43, 1),
    (44, 2),
    (46, 1),
    (48, 1),
    (49, 1),
    (50, 1),
    (51, 1),
    (52, 1),
    (53, 1),
    (54, 1),
];

// The rows of a macrocell field.
pub fn field_rows(index: u32) -> FieldRows
    requires { index < macrocell_fields }
    ensures first { result.first ≡ first_row (macrocell_field_at index) }
    ensures count { result.count ≡ rows (macrocell_field_at index) }
{
    let (first, count) = FIELD_ROWS[index as usize];
    FieldRows { first, count }
}

// The bits of a global field.
fn global_bits(field: GlobalField) -> u32
    ensures { result ≡ global_bits field }
{
    match field {
        GlobalField::FsrInv => 1,
        GlobalField::FclkInv(_) => 1,
        GlobalField::FoeInv(_) => 1,
        GlobalField::FclkMux(_) => 2,
        GlobalField::FoeMux(_) => 2,
        GlobalField::Usercode => 32,
    }
}

// The bits of a macrocell field, one in each of its rows. A match answers for every field, an ALLOC or HP of a term
// that there is not too; the table has the rows of those that a macrocell has.
fn macrocell_bits(field: MacrocellField) -> u32
    ensures { result ≡ rows field }
{
    match field {
        MacrocellField::Alloc(_)
        | MacrocellField::IobOeMux
        | MacrocellField::ClkMux
        | MacrocellField::UimOeMux => 2,
        MacrocellField::OeMux => 3,
        _ => 1,
    }
}

// How many bits a setting has, on any device.
#[tactic(auto, unfolding(crate::specs::Places::bits_of))]
pub fn bits_of(s: Setting) -> u32
    ensures { result ≡ bits_of s }
{
    match s {
        Setting::Literal { .. } => 1,
        Setting::WireAnd { .. } => 1,
        Setting::Macrocell { field, .. } => macrocell_bits(field),
        Setting::Block { .. } => 1,
        Setting::Global(field) => global_bits(field),
    }
}

// A bit of the main area.
fn main_place(block: u32, row: u32, column: u32, bit: u32) -> Place
    ensures { result ≡ main block row column bit }
{
    Place {
        byte: BytePlace::Main { block, row, column },
        bit,
    }
}

// The place of a wire-AND.
pub fn wire_and_place(at: WireAndIndices) -> Place
    ensures { result ≡ place_of (WireAnd at.block at.input at.source at.macrocell) 0 }
{
    Place {
        byte: BytePlace::WireAnd {
            block: at.block,
            subarea: at.source,
            row: at.macrocell,
            column: at.input % 5,
        },
        bit: at.input / 5,
    }
}

// The place of a row of a macrocell.
pub fn macrocell_place(block: u32, row: u32, macrocell: u32) -> Place
    ensures { result ≡ main block row (macrocell % 9) (6 + macrocell / 9) }
{
    main_place(block, row, macrocell % 9, 6 + macrocell / 9)
}

// The row of a literal: of an input's two rows N has the first, though P is listed first.
fn literal_row(input: u32, polarity: Polarity) -> u32
    requires { input < inputs }
    ensures { result ≡ literal_row input polarity }
{
    2 * input + (1 - polarity.index())
}

// The place of a literal, by its number: 72 literals to a term, and the terms of a block run through the 15 columns,
// bit after bit.
pub fn place_of_literal(literal: LiteralNumber) -> Place
    ensures { result ≡ place_of (setting_of literal.device.device literal.number.0) 0 }
{
    let terms = divided(literal.number.0, TERM_LITERALS, TERM_FACTOR, TERM_SHIFT);
    let columns = divided(terms.quotient, MAIN_COLUMNS, COLUMN_FACTOR, COLUMN_SHIFT);
    let bits = divided(columns.quotient, 6, MAIN_COLUMN_FACTOR, 8);
    let row = literal_row(terms.rest / 2, Polarity::from_index(terms.rest % 2));
    main_place(bits.quotient, row, columns.rest, bits.rest)
}

// The row and the column of each block field, by its index; its bit is 6. A table, as `FIELD_ROWS`: a match would jump
// to an arm for each field, and was half as slow again where one field follows another.
static BLOCK_PLACES: [(u32, u32); 6] = [(67, 0), (67, 1), (68, 6), (11, 3), (68, 3), (68, 0)];

// The place of a field of a block.
fn block_place(block: u32, field: BlockField) -> Place
    ensures { result ≡ block_place block field }
{
    let (row, column) = BLOCK_PLACES[field.index() as usize];
    main_place(block, row, column, 6)
}

// The place of a bit of a global field. That the device has the field is asked for, which keeps its number small: a
// setting that carries this would have to be matched here a second time.
fn global_place(d: Device, field: GlobalField, bit: u32) -> Place
    requires { (global_index (foes d) field < global_fields (foes d)) × (bit < global_bits field) }
    ensures { result ≡ global_place field bit }
{
    match field {
        GlobalField::FsrInv => main_place(0, 0, 1, 6),
        GlobalField::FclkInv(c) => main_place(0, 0, 2 + c, 6),
        GlobalField::FoeInv(e) => main_place(0, 0, 5 + e, 6),
        GlobalField::FclkMux(c) => main_place(0, 3 + bit, 2 + c, 6),
        GlobalField::FoeMux(e) => main_place(0, 3 + bit, 5 + e, 6),
        GlobalField::Usercode => main_place(0, 7 - bit / 16, 7 - bit % 16 / 2, 6 + bit % 2),
    }
}

// The place of a bit of a setting.
// That the setting has the bit is asked for, here and in `fuse_of`: callers have just compared it with the width, or
// count the bits below the width, so a type of both would be made for each call and taken apart in it.
pub fn place_of(there: DeviceSetting, bit: u32) -> Place
    requires { bit < bits_of there.setting }
    ensures { result ≡ place_of there.setting bit }
{
    match there.setting {
        Setting::Literal {
            block,
            macrocell,
            term,
            input,
            polarity,
        } => {
            let row = literal_row(input, polarity);
            main_place(block, row, term + 5 * (macrocell % 3), macrocell / 3)
        }
        Setting::WireAnd {
            block,
            input,
            source,
            macrocell,
        } => wire_and_place(WireAndIndices {
            block,
            input,
            source,
            macrocell,
        }),
        Setting::Macrocell {
            block,
            macrocell,
            field,
        } => {
            let row = field_rows(field.index()).first + bit;
            macrocell_place(block, row, macrocell)
        }
        Setting::Block { block, field } => block_place(block, field),
        Setting::Global(field) => global_place(there.device.device, field, bit),
    }
}

// The fuse of a bit of a setting.
pub fn fuse_of(there: DeviceSetting, bit: u32) -> FuseNumber
    requires { bit < bits_of there.setting }
    ensures { result.0 ≡ fuse_of there.device.device there.setting bit }
{
    let place = place_of(there, bit);
    fuse_of_place(there.device, place)
}
