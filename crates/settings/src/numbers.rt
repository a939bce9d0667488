// The number of a setting and the setting of a number: groups, the first number of each, positions in them.
// For the crates above: a function here may require that the number or the position is one that the device has.
ghost use Rattle.std.specs.Prelude.{◌≡◌, map, ◌+◌, ◌*◌, ◌/◌, ◌^◌, ◌<◌};
ghost use Rattle.part.specs.Device.{blocks_of};
ghost use Rattle.settings.specs.Fields.{macrocells};
ghost use Rattle.settings.specs.Order.{product, position, size, start, count_of, number_of};
ghost use Rattle.settings.specs.Order.{in_group, setting_of};
ghost use Rattle.settings.specs.Order.Group.{literals, wire_ands, macrocell_settings, block_settings, globals};
ghost use Rattle.settings.specs.declared.GlobalField.TheVariants.{Usercode};
ghost use Rattle.settings.specs.declared.Setting.TheVariants.{WireAnd, Global};

use super::fields::{BLOCK_FIELDS, INPUTS, MACROCELL_FIELDS, MACROCELLS, TERMS, global_fields};
use super::{
    BlockField, DeviceSetting, GlobalField, MacrocellField, Polarity, Setting, SettingNumber,
};
use part::KnownDevice;
use part::quotients::divided;

// The literals of a term, of a macrocell and of a block.
pub const TERM_LITERALS: u32 = INPUTS * 2;

const MACROCELL_LITERALS: u32 = TERMS * TERM_LITERALS;

const BLOCK_LITERALS: u32 = MACROCELLS * MACROCELL_LITERALS;

// The first number of each group after the literals.
pub fn start_of_wire_ands(d: KnownDevice) -> u32
    ensures { result ≡ start d.device wire_ands }
{
    d.blocks() * BLOCK_LITERALS
}

pub fn start_of_macrocells(d: KnownDevice) -> u32
    ensures { result ≡ start d.device macrocell_settings }
{
    let n = d.blocks();
    start_of_wire_ands(d) + n * (INPUTS * (n * MACROCELLS))
}

pub fn start_of_blocks(d: KnownDevice) -> u32
    ensures { result ≡ start d.device block_settings }
{
    start_of_macrocells(d) + d.blocks() * (MACROCELLS * MACROCELL_FIELDS)
}

fn start_of_globals(d: KnownDevice) -> u32
    ensures { result ≡ start d.device globals }
{
    start_of_blocks(d) + d.blocks() * BLOCK_FIELDS
}

// How many settings the device has.
pub fn count_of(d: KnownDevice) -> u32
    ensures { result ≡ count_of d.device }
{
    start_of_globals(d) + global_fields(d.device)
}

// The number of USERCODE, which is the last.
pub fn number_of_usercode(d: KnownDevice) -> u32
    ensures { result ≡ number_of d.device (Global Usercode) }
{
    count_of(d) - 1
}

// The position of indices in their group, the last fastest: each index stands beside how many values it has.
fn position<const N: usize>(indices: [(u32, u32); N]) -> u32
    requires some { 0 < product (map (λ x. x.1) indices) }
    requires fits { position (map (λ x. x.1) indices) (map (λ x. x.0) indices) < 2 ^ 32 }
    ensures { result ≡ position (map (λ x. x.1) indices.entry) (map (λ x. x.0) indices.entry) }
{
    let mut before = 0;
    for (index, bound) in indices {
        before = before * bound + index;
    }
    before
}

// The number of a setting: the first number of its group, and its position there.
pub fn number_of(there: DeviceSetting) -> SettingNumber
    ensures { result.0 ≡ number_of there.device.device there.setting }
{
    let d = there.device;
    let n = d.blocks();
    let number = match there.setting {
        Setting::Literal {
            block,
            macrocell,
            term,
            input,
            polarity,
        } => position([
            (block, n),
            (macrocell, MACROCELLS),
            (term, TERMS),
            (input, INPUTS),
            (polarity.index(), 2),
        ]),
        Setting::WireAnd {
            block,
            input,
            source,
            macrocell,
        } => {
            let indices = [
                (block, n),
                (input, INPUTS),
                (source, n),
                (macrocell, MACROCELLS),
            ];
            start_of_wire_ands(d) + position(indices)
        }
        Setting::Macrocell {
            block,
            macrocell,
            field,
        } => {
            let indices = [
                (block, n),
                (macrocell, MACROCELLS),
                (field.index(), MACROCELL_FIELDS),
            ];
            start_of_macrocells(d) + position(indices)
        }
        Setting::Block { block, field } => {
            let indices = [(block, n), (field.index(), BLOCK_FIELDS)];
            start_of_blocks(d) + position(indices)
        }
        Setting::Global(field) => start_of_globals(d) + field.index(d.device),
    };
    SettingNumber(number)
}

// The indices of a wire-AND.
#[derive(Clone, Copy, Debug, PartialEq, Eq)]
pub struct WireAndIndices {
    pub block: u32,
    pub input: u32,
    pub source: u32,
    pub macrocell: u32,
}

impl From<WireAndIndices> for Setting {
    ghost from_gives = { λ at s. s ≡ WireAnd at.block at.input at.source at.macrocell };

    fn from(at: WireAndIndices) -> Setting {
        Setting::WireAnd {
            block: at.block,
            input: at.input,
            source: at.source,
            macrocell: at.macrocell,
        }
    }
}

// The factor that divides the position of a wire-AND by the wire-ANDs of an input, with the shift 32: a constant for
// each block count, since a quotient of what is known only at the call would be a division.
fn input_factor(d: KnownDevice) -> u64
    ensures { result ≡ 2 ^ 32 / (blocks_of d.device * macrocells) + 1 }
{
    match d.blocks() {
        2 => (1 << 32) / (2 * MACROCELLS as u64) + 1,
        4 => (1 << 32) / (4 * MACROCELLS as u64) + 1,
        6 => (1 << 32) / (6 * MACROCELLS as u64) + 1,
        8 => (1 << 32) / (8 * MACROCELLS as u64) + 1,
        12 => (1 << 32) / (12 * MACROCELLS as u64) + 1,
        _ => (1 << 32) / (16 * MACROCELLS as u64) + 1,
    }
}

// The indices of the wire-AND at a position. Of the divisors only the wire-ANDs of an input are not a constant.
pub fn wire_and_indices(d: KnownDevice, x: u32) -> WireAndIndices
    requires { x < size d.device wire_ands }
    ensures { WireAnd result.block result.input result.source result.macrocell ≡ in_group d.device wire_ands x }
{
    let per_input = d.blocks() * MACROCELLS;
    let at = divided(x, per_input, input_factor(d), 32);
    let inputs = at.quotient;
    let in_input = at.rest;
    WireAndIndices {
        block: inputs / INPUTS,
        input: inputs % INPUTS,
        source: in_input / MACROCELLS,
        macrocell: in_input % MACROCELLS,
    }
}

// The setting of each group at a position in it. Each divides by constants, which are products in the machine code; one
// inverse of `position` for all would divide by variables.
fn literal_at(d: KnownDevice, x: u32) -> Setting
    ensures { result ≡ in_group d.device literals x }
{
    let in_term = x % TERM_LITERALS;
    let polarity = Polarity::from_index(in_term % 2);
    Setting::Literal {
        block: x / BLOCK_LITERALS,
        macrocell: x % BLOCK_LITERALS / MACROCELL_LITERALS,
        term: x % MACROCELL_LITERALS / TERM_LITERALS,
        input: in_term / 2,
        polarity,
    }
}

fn macrocell_at(d: KnownDevice, x: u32) -> Setting
    ensures { result ≡ in_group d.device macrocell_settings x }
{
    let in_block = x % (MACROCELLS * MACROCELL_FIELDS);
    let field = MacrocellField::from_index(in_block % MACROCELL_FIELDS);
    Setting::Macrocell {
        block: x / (MACROCELLS * MACROCELL_FIELDS),
        macrocell: in_block / MACROCELL_FIELDS,
        field,
    }
}

fn block_setting_at(d: KnownDevice, x: u32) -> Setting
    ensures { result ≡ in_group d.device block_settings x }
{
    let field = BlockField::from_index(x % BLOCK_FIELDS);
    Setting::Block {
        block: x / BLOCK_FIELDS,
        field,
    }
}

fn global_at(d: KnownDevice, x: u32) -> Setting
    ensures { result ≡ in_group d.device globals x }
{
    Setting::Global(GlobalField::from_index(d.device, x))
}

// The setting of a number.
pub fn setting_of(d: KnownDevice, number: SettingNumber) -> DeviceSetting
    requires { number.0 < count_of d.device }
    ensures { (result.device ≡ d) × (result.setting ≡ setting_of d.device number.0) }
{
    DeviceSetting {
        device: d,
        setting: in_its_group(d, number),
    }
}

// The setting of a number, in the group that has the number.
fn in_its_group(d: KnownDevice, number: SettingNumber) -> Setting
    requires { number.0 < count_of d.device }
    ensures { result ≡ setting_of d.device number.0 }
{
    let x = number.0;
    let wire_ands = start_of_wire_ands(d);
    if x < wire_ands {
        return literal_at(d, x);
    }
    let macrocells = start_of_macrocells(d);
    if x < macrocells {
        return Setting::from(wire_and_indices(d, x - wire_ands));
    }
    let blocks = start_of_blocks(d);
    if x < blocks {
        return macrocell_at(d, x - macrocells);
    }
    let globals = start_of_globals(d);
    if x < globals {
        return block_setting_at(d, x - blocks);
    }
    global_at(d, x - globals)
}
