// The name of a setting, of one of its bits, and of a fuse, each after a space: so lines put it behind other bytes.
// A function here may require that the setting has the bit, or that a number of a name is below 100.
ghost use Rattle.std.specs.Prelude.{◌∷◌, ◌++◌, ◌≤◌, ◌<◌, length};
ghost use Rattle.part.specs.Device.{fuse_count};
ghost use Rattle.settings.specs.Fields.{foes, macrocell_fields, macrocell_index, global_fields, global_index};
ghost use Rattle.settings.specs.declared.Setting.TheVariants.{Literal, WireAnd, Macrocell, Block, Global};
ghost use Rattle.setting_places.specs.Places.{bits_of};
ghost use Rattle.jedec.specs.Characters.{space, count_digits};
ghost use Rattle.names.specs.Names.{macrocell_parts, block_field_name, global_field_name, spaced, parts_of};
ghost use Rattle.names.specs.Names.{polarity_name, bit_text, setting_name, name_of, unnamed, name_at};
ghost use Rattle.names.specs.Pieces.{text_of, Alone, Holds, SpellsWords, Spells, SpellsBit};

use super::pieces::{BitName, FB, IM, MC, NOTHING, Name, PT, Piece, Words, numbered, piece_at};
use fuse_settings::setting_at_fuse;
use part::{Device, FuseNumber, KnownDevice};
use setting_places::places::bits_of;
use settings::{BlockField, DeviceSetting, GlobalField, MacrocellField, Polarity, Setting};

// Up to 24 bytes in three pieces.
fn words_of(text: &[u8]) -> Words
    requires { length text.now ≤ 24 }
    ensures { SpellsWords result text.now }
{
    Words {
        one: piece_at(text, 0),
        two: piece_at(text, 8),
        three: piece_at(text, 16),
    }
}

// Letters and an index, and a field.
fn indexed_words(letters: Piece, index: u32, field: &[u8]) -> Words
    requires { (Alone letters) × (letters.len ≤ 6) × (index < 100) × (length field.now ≤ 8) }
    ensures { SpellsWords result (text_of letters ++ count_digits index ++ field.now) }
{
    Words {
        one: numbered(letters, index),
        two: piece_at(field, 0),
        three: NOTHING,
    }
}

// The parts of a macrocell's field. A match, here and below, is the table of the names: closures would say no more.
fn macrocell_words(field: MacrocellField) -> Words
    requires { macrocell_index field < macrocell_fields }
    ensures { SpellsWords result (spaced (macrocell_parts field)) }
{
    match field {
        MacrocellField::Alloc(term) => indexed_words(PT, term, b" ALLOC"),
        MacrocellField::Inv => words_of(b" INV"),
        MacrocellField::ImportUpAlloc => words_of(b" IMPORT_UP_ALLOC"),
        MacrocellField::ImportDownAlloc => words_of(b" IMPORT_DOWN_ALLOC"),
        MacrocellField::ExportDir => words_of(b" EXPORT_DIR"),
        MacrocellField::SumHp => words_of(b" SUM_HP"),
        MacrocellField::IobOeMux => words_of(b" IOB_OE_MUX"),
        MacrocellField::OeMux => words_of(b" OE_MUX"),
        MacrocellField::OutMux => words_of(b" OUT_MUX"),
        MacrocellField::ClkMux => words_of(b" CLK_MUX"),
        MacrocellField::RegMode => words_of(b" REG_MODE"),
        MacrocellField::RstMux => words_of(b" RST_MUX"),
        MacrocellField::SetMux => words_of(b" SET_MUX"),
        MacrocellField::Init => words_of(b" INIT"),
        MacrocellField::UimOeMux => words_of(b" UIM_OE_MUX"),
        MacrocellField::UimOutInv => words_of(b" UIM_OUT_INV"),
        MacrocellField::IobGnd => words_of(b" IOB_GND"),
        MacrocellField::IobSlew => words_of(b" IOB_SLEW"),
        MacrocellField::Hp(term) => indexed_words(PT, term, b" HP"),
    }
}

// The field of a block.
fn block_words(field: BlockField) -> Words
    ensures { SpellsWords result (space ∷ block_field_name field) }
{
    match field {
        BlockField::Enable => words_of(b" ENABLE"),
        BlockField::ExportEnable => words_of(b" EXPORT_ENABLE"),
        BlockField::PullupDisable => words_of(b" PULLUP_DISABLE"),
        BlockField::ReadProtA => words_of(b" READ_PROT_A"),
        BlockField::ReadProtB => words_of(b" READ_PROT_B"),
        BlockField::WriteProt => words_of(b" WRITE_PROT"),
    }
}

// ` FCLK[` and ` FOE[`, the first byte lowest.
const FCLK: Piece = Piece {
    word: 0x5B_4B4C_4346_20,
    len: 6,
};

const FOE: Piece = Piece {
    word: 0x5B45_4F46_20,
    len: 5,
};

// A global field. Only the contracts read the device, which bounds the field's index here and in `global_name`.
// A match is the table of the names, and no choice of a step.
fn global_words(d: Device, field: GlobalField) -> Words
    requires { global_index (foes d) field < global_fields (foes d) }
    ensures { SpellsWords result (space ∷ global_field_name field) }
{
    match field {
        GlobalField::FsrInv => words_of(b" FSR_INV"),
        GlobalField::FclkInv(c) => indexed_words(FCLK, c, b"].INV"),
        GlobalField::FoeInv(e) => indexed_words(FOE, e, b"].INV"),
        GlobalField::FclkMux(c) => indexed_words(FCLK, c, b"].MUX"),
        GlobalField::FoeMux(e) => indexed_words(FOE, e, b"].MUX"),
        GlobalField::Usercode => words_of(b" USERCODE"),
    }
}

// ` P`, ` N` and ` UIM`, the first byte lowest.
const P: Piece = Piece {
    word: 0x5020,
    len: 2,
};

const N: Piece = Piece {
    word: 0x4E20,
    len: 2,
};

const UIM: Piece = Piece {
    word: 0x4D49_5520,
    len: 4,
};

fn polarity_part(p: Polarity) -> Piece
    ensures { Holds result (space ∷ polarity_name p) }
{
    match p {
        Polarity::P => P,
        Polarity::N => N,
    }
}

// Each number of a name is below 100. A type for such numbers would be proved at each call of these four functions,
// just as their bounds are now.
fn literal_name(block: u32, macrocell: u32, term: u32, input: u32, polarity: Polarity) -> Name
    requires { (block < 100) × (macrocell < 100) × (term < 100) × (input < 100) }
    ensures { Spells result (spaced (parts_of (Literal block macrocell term input polarity))) }
{
    [
        numbered(FB, block),
        numbered(MC, macrocell),
        numbered(PT, term),
        numbered(IM, input),
        polarity_part(polarity),
    ]
}

fn wire_and_name(block: u32, input: u32, source: u32, macrocell: u32) -> Name
    requires { (block < 100) × (input < 100) × (source < 100) × (macrocell < 100) }
    ensures { Spells result (spaced (parts_of (WireAnd block input source macrocell))) }
{
    [
        numbered(FB, block),
        numbered(IM, input),
        UIM,
        numbered(FB, source),
        numbered(MC, macrocell),
    ]
}

fn macrocell_name(block: u32, macrocell: u32, field: MacrocellField) -> Name
    requires { (block < 100) × (macrocell < 100) × (macrocell_index field < macrocell_fields) }
    ensures { Spells result (spaced (parts_of (Macrocell block macrocell field))) }
{
    let words = macrocell_words(field);
    [
        numbered(FB, block),
        numbered(MC, macrocell),
        words.one,
        words.two,
        words.three,
    ]
}

fn block_name(block: u32, field: BlockField) -> Name
    requires { block < 100 }
    ensures { Spells result (spaced (parts_of (Block block field))) }
{
    let words = block_words(field);
    [
        numbered(FB, block),
        words.one,
        words.two,
        words.three,
        NOTHING,
    ]
}

fn global_name(d: Device, field: GlobalField) -> Name
    requires { global_index (foes d) field < global_fields (foes d) }
    ensures { Spells result (spaced (parts_of (Global field))) }
{
    let words = global_words(d, field);
    [words.one, words.two, words.three, NOTHING, NOTHING]
}

// The name of a setting, each part after a space.
pub fn name_of(there: DeviceSetting) -> Name
    ensures { Spells result (space ∷ setting_name there.setting) }
{
    match there.setting {
        Setting::Literal {
            block,
            macrocell,
            term,
            input,
            polarity,
        } => literal_name(block, macrocell, term, input, polarity),
        Setting::WireAnd {
            block,
            input,
            source,
            macrocell,
        } => wire_and_name(block, input, source, macrocell),
        Setting::Macrocell {
            block,
            macrocell,
            field,
        } => macrocell_name(block, macrocell, field),
        Setting::Block { block, field } => block_name(block, field),
        Setting::Global(field) => global_name(there.device.device, field),
    }
}

// A dot.
const DOT: Piece = Piece {
    word: b'.' as u64,
    len: 1,
};

// The bit after a dot, where the setting has several. The setting has the bit, here and in `name_of_bit`: a struct of
// the two would serve these two functions alone.
fn bit_part(there: DeviceSetting, bit: u32) -> Piece
    requires { bit < bits_of there.setting }
    ensures { (Holds result (bit_text there.setting bit)) × (result.len ≤ 3) }
{
    if bits_of(there.setting) <= 1 {
        return NOTHING;
    }
    numbered(DOT, bit)
}

// The name of a bit of a setting, each part after a space.
pub fn name_of_bit(there: DeviceSetting, bit: u32) -> BitName
    requires { bit < bits_of there.setting }
    ensures { SpellsBit result (space ∷ name_of there.setting bit) }
{
    BitName {
        name: name_of(there),
        bit: bit_part(there, bit),
    }
}

// ` unnamed`, the first byte lowest.
const UNNAMED: Piece = Piece {
    word: 0x6465_6D61_6E6E_7520,
    len: 8,
};

// The name of a fuse that no setting has.
fn no_name() -> BitName
    ensures { SpellsBit result (space ∷ unnamed) }
{
    BitName {
        name: [UNNAMED, NOTHING, NOTHING, NOTHING, NOTHING],
        bit: NOTHING,
    }
}

// A fuse, and a device that has it.
#[derive(Clone, Copy, Debug, PartialEq, Eq)]
pub struct DeviceFuse {
    pub device: KnownDevice,
    pub fuse: u32,
    pub ghost is_there: { fuse < fuse_count device.device },
}

// The name of a fuse after a space. No fuse of the device is refused.
pub fn name_at(there: DeviceFuse) -> BitName
    ensures { SpellsBit result (space ∷ name_at there.device.device there.fuse) }
{
    let found = setting_at_fuse(there.device.device, FuseNumber(there.fuse)).unwrap();
    match found {
        Some(named) => {
            let setting = DeviceSetting {
                device: there.device,
                setting: named.setting,
            };
            name_of_bit(setting, named.bit)
        }
        None => no_name(),
    }
}
