// The kind of value of each setting, for the operations and the crates above.
// Nothing here is part of the public interface.
ghost use Rattle.std.specs.Prelude.{◌≡◌};
ghost use Rattle.setting_values.specs.Kinds.{macrocell_kind, global_kind, kind_of};

use part::Device;
use settings::{GlobalField, MacrocellField, Setting};
use values::Kind;

// The kind of value of each field.
fn macrocell_kind(field: MacrocellField) -> Kind
    ensures { result ≡ macrocell_kind field }
{
    match field {
        MacrocellField::Alloc(_) => Kind::TermAlloc,
        MacrocellField::Inv => Kind::Flag,
        MacrocellField::ImportUpAlloc => Kind::ImportAlloc,
        MacrocellField::ImportDownAlloc => Kind::ImportAlloc,
        MacrocellField::ExportDir => Kind::ExportDir,
        MacrocellField::SumHp => Kind::Flag,
        MacrocellField::IobOeMux => Kind::IobOeMux,
        MacrocellField::OeMux => Kind::OeMux,
        MacrocellField::OutMux => Kind::OutMux,
        MacrocellField::ClkMux => Kind::ClkMux,
        MacrocellField::RegMode => Kind::RegMode,
        MacrocellField::RstMux => Kind::RstSetMux,
        MacrocellField::SetMux => Kind::RstSetMux,
        MacrocellField::Init => Kind::Flag,
        MacrocellField::UimOeMux => Kind::UimOeMux,
        MacrocellField::UimOutInv => Kind::Flag,
        MacrocellField::IobGnd => Kind::Flag,
        MacrocellField::IobSlew => Kind::IobSlew,
        MacrocellField::Hp(_) => Kind::Flag,
    }
}

fn global_kind(d: Device, field: GlobalField) -> Kind
    ensures { result ≡ global_kind d field }
{
    let large = d.is_large();
    match field {
        GlobalField::FsrInv => Kind::Flag,
        GlobalField::FclkInv(_) => Kind::Flag,
        GlobalField::FoeInv(_) => Kind::Flag,
        GlobalField::FclkMux(c) => Kind::FclkMux(c),
        GlobalField::FoeMux(e) => Kind::FoeMux { e, large },
        GlobalField::Usercode => Kind::Usercode,
    }
}

// The kind of value of a setting. In two of the variants it depends on the field, and these fields have different
// types: a closure could not take both.
#[tactic(auto, unfolding(crate::specs::Kinds::kind_of))]
pub fn kind_of(d: Device, s: Setting) -> Kind
    ensures { result ≡ kind_of d s }
{
    match s {
        Setting::Literal { .. } => Kind::Flag,
        Setting::WireAnd { .. } => Kind::Flag,
        Setting::Macrocell { field, .. } => macrocell_kind(field),
        Setting::Block { .. } => Kind::Flag,
        Setting::Global(field) => global_kind(d, field),
    }
}
