// The named settings of a part: their groups and fields, which of them a device has, and their numbers.
// The definitions that the contracts cite stand in specs/, the laws about them in proofs/Laws.antt.
#![tactic(auto)]

ghost use Rattle.std.specs.Prelude.{◌≡◌};
ghost use Rattle.part.specs.Answer.{number_outcome};
ghost use Rattle.settings.specs.Answer.{setting_outcome, setting_number_outcome};
ghost use Rattle.settings.specs.Operations.{count_of_settings, setting_of_number, number_of_setting};

use part::{Device, KnownDevice, Refusal};

pub mod device_setting;
pub mod fields;
pub mod literal_number;
pub mod numbers;

pub use device_setting::DeviceSetting;
pub use literal_number::LiteralNumber;

// Which sense of an input a literal takes: the input itself, or its complement.
#[derive(Clone, Copy, Debug, PartialEq, Eq)]
pub enum Polarity {
    P,
    N,
}

// The 27 fields of a macrocell; ALLOC and HP carry their term.
#[derive(Clone, Copy, Debug, PartialEq, Eq)]
pub enum MacrocellField {
    Alloc(u32),
    Inv,
    ImportUpAlloc,
    ImportDownAlloc,
    ExportDir,
    SumHp,
    IobOeMux,
    OeMux,
    OutMux,
    ClkMux,
    RegMode,
    RstMux,
    SetMux,
    Init,
    UimOeMux,
    UimOutInv,
    IobGnd,
    IobSlew,
    Hp(u32),
}

// The fields that each block has.
#[derive(Clone, Copy, Debug, PartialEq, Eq)]
pub enum BlockField {
    Enable,
    ExportEnable,
    PullupDisable,
    ReadProtA,
    ReadProtB,
    WriteProt,
}

// The fields of the whole part; those of FCLK carry c, those of FOE carry e.
#[derive(Clone, Copy, Debug, PartialEq, Eq)]
pub enum GlobalField {
    FsrInv,
    FclkInv(u32),
    FoeInv(u32),
    FclkMux(u32),
    FoeMux(u32),
    Usercode,
}

// A setting: its group, its indices and, where the group has fields, its field. Any numbers;
// `has_setting` tells which exist.
#[derive(Clone, Copy, Debug, PartialEq, Eq)]
pub enum Setting {
    Literal {
        block: u32,
        macrocell: u32,
        term: u32,
        input: u32,
        polarity: Polarity,
    },
    WireAnd {
        block: u32,
        input: u32,
        source: u32,
        macrocell: u32,
    },
    Macrocell {
        block: u32,
        macrocell: u32,
        field: MacrocellField,
    },
    Block {
        block: u32,
        field: BlockField,
    },
    Global(GlobalField),
}

// The number of a setting in the listing order.
#[derive(Clone, Copy, Debug, PartialEq, Eq)]
pub struct SettingNumber(pub u32);

// How many settings the device has. Refused: 1.
pub fn setting_count(d: Device) -> Result<u32, Refusal>
    ensures { number_outcome result ≡ count_of_settings d }
{
    let part = KnownDevice::try_from(d)?;
    Ok(numbers::count_of(part))
}

// The setting of a number. Refused: 1, 4.
pub fn setting_of_number(d: Device, number: SettingNumber) -> Result<Setting, Refusal>
    ensures { setting_outcome result ≡ setting_of_number d number.0 }
{
    let part = KnownDevice::try_from(d)?;
    let there = DeviceSetting::of_number(part, number)?;
    Ok(there.setting)
}

// The number of a setting. Refused: 1, 4.
pub fn number_of_setting(d: Device, s: Setting) -> Result<SettingNumber, Refusal>
    ensures { setting_number_outcome result ≡ number_of_setting d s }
{
    let part = KnownDevice::try_from(d)?;
    let there = DeviceSetting::new(part, s)?;
    Ok(numbers::number_of(there))
}
