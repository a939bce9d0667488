// Which settings a device has, and the index of each field in the listing order, both ways.
// For the crates above; of the public interface are the methods alone, as their types are.
ghost use Rattle.std.specs.Prelude.{◌≡◌, ◌<◌, ◌≤◌};
ghost use Rattle.settings.specs.Settings.{has_setting};
ghost use Rattle.settings.specs.Fields.{foes, listed, polarity_index, macrocell_index, block_index, global_fields};
ghost use Rattle.settings.specs.Fields.{global_index};
ghost use Rattle.settings.specs.Order.{polarity_at, macrocell_field_at, block_field_at};
ghost use Rattle.settings.specs.Order.{global_field_at};
ghost use Rattle.settings.specs.declared.GlobalField.TheVariants.{Usercode};
ghost use Rattle.settings.specs.declared.Setting.TheVariants.{Literal, Global};

use super::{BlockField, GlobalField, MacrocellField, Polarity, Setting};
use part::Device;

pub const MACROCELLS: u32 = 18;

pub const TERMS: u32 = 5;

pub const INPUTS: u32 = 36;

const FCLKS: u32 = 3;

pub const MACROCELL_FIELDS: u32 = 27;

pub const BLOCK_FIELDS: u32 = 6;

// How many FOE the device has.
fn foe_count(d: Device) -> u32
    ensures { result ≡ foes d }
{
    if d.is_large() {
        return 4;
    }
    2
}

// How many global fields the device has.
pub fn global_fields(d: Device) -> u32
    ensures { result ≡ global_fields (foes d) }
{
    let count = foe_count(d);
    8 + count + count
}

// Whether the device has the setting.
pub fn has_setting(d: Device, s: Setting) -> bool
    ensures { result ≡ has_setting d s }
{
    let n = d.block_count();
    match s {
        Setting::Literal {
            block,
            macrocell,
            term,
            input,
            ..
        } => (block < n) & (macrocell < MACROCELLS) & (term < TERMS) & (input < INPUTS),
        Setting::WireAnd {
            block,
            input,
            source,
            macrocell,
        } => (block < n) & (input < INPUTS) & (source < n) & (macrocell < MACROCELLS),
        Setting::Macrocell {
            block,
            macrocell,
            field,
        } => {
            let index = field.index();
            (block < n) & (macrocell < MACROCELLS) & (index < MACROCELL_FIELDS)
        }
        Setting::Block { block, .. } => block < n,
        Setting::Global(field) => {
            let index = field.index(d);
            index < global_fields(d)
        }
    }
}

// The place of field k of so many that begin at `first`. One that there is not stands past the end, as the definition
// has it: an option would be taken apart again by each test of an index.
fn listed_at(k: u32, count: u32, first: u32, past: u32) -> u32
    requires { (count ≤ 27) × (first ≤ 27) }
    ensures { result ≡ listed k count first past }
{
    if k < count {
        return first + k;
    }
    past
}

// Each kind of field and its index in the listing order, both ways. The way back is no `TryFrom`: each caller has a
// remainder, a difference or a row, at which it cannot fail.
impl Polarity {
    pub fn index(self) -> u32
        ensures { result ≡ polarity_index self }
    {
        self as u32
    }

    pub fn from_index(x: u32) -> Polarity
        ensures { result ≡ polarity_at x }
    {
        if x == 0 {
            return Polarity::P;
        }
        Polarity::N
    }
}

impl MacrocellField {
    pub fn index(self) -> u32
        ensures { result ≡ macrocell_index self }
    {
        match self {
            MacrocellField::Alloc(k) => listed_at(k, TERMS, 0, MACROCELL_FIELDS),
            MacrocellField::Inv => 5,
            MacrocellField::ImportUpAlloc => 6,
            MacrocellField::ImportDownAlloc => 7,
            MacrocellField::ExportDir => 8,
            MacrocellField::SumHp => 9,
            MacrocellField::IobOeMux => 10,
            MacrocellField::OeMux => 11,
            MacrocellField::OutMux => 12,
            MacrocellField::ClkMux => 13,
            MacrocellField::RegMode => 14,
            MacrocellField::RstMux => 15,
            MacrocellField::SetMux => 16,
            MacrocellField::Init => 17,
            MacrocellField::UimOeMux => 18,
            MacrocellField::UimOutInv => 19,
            MacrocellField::IobGnd => 20,
            MacrocellField::IobSlew => 21,
            MacrocellField::Hp(k) => listed_at(k, TERMS, 22, MACROCELL_FIELDS),
        }
    }

    pub fn from_index(x: u32) -> MacrocellField
        ensures { result ≡ macrocell_field_at x }
    {
        match x {
            0..5 => MacrocellField::Alloc(x),
            5 => MacrocellField::Inv,
            6 => MacrocellField::ImportUpAlloc,
            7 => MacrocellField::ImportDownAlloc,
            8 => MacrocellField::ExportDir,
            9 => MacrocellField::SumHp,
            10 => MacrocellField::IobOeMux,
            11 => MacrocellField::OeMux,
            12 => MacrocellField::OutMux,
            13 => MacrocellField::ClkMux,
            14 => MacrocellField::RegMode,
            15 => MacrocellField::RstMux,
            16 => MacrocellField::SetMux,
            17 => MacrocellField::Init,
            18 => MacrocellField::UimOeMux,
            19 => MacrocellField::UimOutInv,
            20 => MacrocellField::IobGnd,
            21 => MacrocellField::IobSlew,
            _ => MacrocellField::Hp(x - 22),
        }
    }
}

impl BlockField {
    pub fn index(self) -> u32
        ensures { result ≡ block_index self }
    {
        self as u32
    }

    pub fn from_index(x: u32) -> BlockField
        ensures { result ≡ block_field_at x }
    {
        match x {
            0 => BlockField::Enable,
            1 => BlockField::ExportEnable,
            2 => BlockField::PullupDisable,
            3 => BlockField::ReadProtA,
            4 => BlockField::ReadProtB,
            _ => BlockField::WriteProt,
        }
    }
}

impl GlobalField {
    pub fn index(self, d: Device) -> u32
        ensures { result ≡ global_index (foes d) self }
    {
        let count = foe_count(d);
        let past = global_fields(d);
        match self {
            GlobalField::FsrInv => 0,
            GlobalField::FclkInv(c) => listed_at(c, FCLKS, 1, past),
            GlobalField::FoeInv(e) => listed_at(e, count, 4, past),
            GlobalField::FclkMux(c) => listed_at(c, FCLKS, 4 + count, past),
            GlobalField::FoeMux(e) => listed_at(e, count, 7 + count, past),
            GlobalField::Usercode => past - 1,
        }
    }

    pub fn from_index(d: Device, x: u32) -> GlobalField
        ensures { result ≡ global_field_at (foes d) x }
    {
        let count = foe_count(d);
        if x == 0 {
            return GlobalField::FsrInv;
        }
        if x < 4 {
            return GlobalField::FclkInv(x - 1);
        }
        if x < 4 + count {
            return GlobalField::FoeInv(x - 4);
        }
        if x < 7 + count {
            return GlobalField::FclkMux(x - (4 + count));
        }
        if x < 7 + count + count {
            return GlobalField::FoeMux(x - (7 + count));
        }
        GlobalField::Usercode
    }
}
