// The value that a pattern stands for in settings of a kind, by the lists of document 003, and the bits of a kind.
// For the crates above; of the public interface are the `try_from` of the lists alone, as their types are.
#![tactic(auto, unfolding(crate::specs::Values::named))]

ghost use Rattle.std.specs.Prelude.{◌≡◌, cond, [], ◌∷◌, Result, MatchResult};
ghost use Rattle.values.specs.Values.{named, flags, term_allocs, import_allocs, export_dirs, iob_oe_muxes, out_muxes};
ghost use Rattle.values.specs.Values.{oe_muxes, clk_muxes, reg_modes, rst_set_muxes, uim_oe_muxes, iob_slews};
ghost use Rattle.values.specs.Values.{fclk_muxes, small_foe_muxes, large_foe_muxes, bits_in, value_in, value_by};
ghost use Rattle.values.specs.declared.Value.TheVariants as value;

use super::{
    ClkMux, ExportDir, FclkMux, FoeMux, ImportAlloc, IobOeMux, IobSlew, Kind, NoName, OeMux,
    OutMux, RegMode, RstSetMux, TermAlloc, UimOeMux, Value,
};

// The lists of document 003, each by its patterns in its order. The eleven differ in their patterns and names alone,
// and these are what a list is: one function for all would take each list as a table beside it, and search the table.
impl TryFrom<u32> for TermAlloc {
    type Error = NoName;

    ghost try_from_gives = { λ pattern r. value_by value.TermAlloc r ≡ named term_allocs pattern };

    fn try_from(pattern: u32) -> Result<Self, NoName> {
        match pattern {
            3 => Ok(TermAlloc::None),
            2 => Ok(TermAlloc::Sum),
            1 => Ok(TermAlloc::Export),
            0 => Ok(TermAlloc::Special),
            _ => Err(NoName(pattern)),
        }
    }
}

impl TryFrom<u32> for ImportAlloc {
    type Error = NoName;

    ghost try_from_gives = { λ pattern r. value_by value.ImportAlloc r ≡ named import_allocs pattern };

    fn try_from(pattern: u32) -> Result<Self, NoName> {
        match pattern {
            1 => Ok(ImportAlloc::Export),
            0 => Ok(ImportAlloc::Sum),
            _ => Err(NoName(pattern)),
        }
    }
}

impl TryFrom<u32> for ExportDir {
    type Error = NoName;

    ghost try_from_gives = { λ pattern r. value_by value.ExportDir r ≡ named export_dirs pattern };

    fn try_from(pattern: u32) -> Result<Self, NoName> {
        match pattern {
            1 => Ok(ExportDir::Up),
            0 => Ok(ExportDir::Down),
            _ => Err(NoName(pattern)),
        }
    }
}

impl TryFrom<u32> for IobOeMux {
    type Error = NoName;

    ghost try_from_gives = { λ pattern r. value_by value.IobOeMux r ≡ named iob_oe_muxes pattern };

    fn try_from(pattern: u32) -> Result<Self, NoName> {
        match pattern {
            3 => Ok(IobOeMux::Gnd),
            2 => Ok(IobOeMux::OeMux),
            1 => Ok(IobOeMux::Vcc),
            _ => Err(NoName(pattern)),
        }
    }
}

impl TryFrom<u32> for OutMux {
    type Error = NoName;

    ghost try_from_gives = { λ pattern r. value_by value.OutMux r ≡ named out_muxes pattern };

    fn try_from(pattern: u32) -> Result<Self, NoName> {
        match pattern {
            1 => Ok(OutMux::Comb),
            0 => Ok(OutMux::Ff),
            _ => Err(NoName(pattern)),
        }
    }
}

impl TryFrom<u32> for OeMux {
    type Error = NoName;

    ghost try_from_gives = { λ pattern r. value_by value.OeMux r ≡ named oe_muxes pattern };

    fn try_from(pattern: u32) -> Result<Self, NoName> {
        match pattern {
            7 => Ok(OeMux::Pt),
            6 => Ok(OeMux::Foe0),
            5 => Ok(OeMux::Foe1),
            4 => Ok(OeMux::Foe2),
            3 => Ok(OeMux::Foe3),
            _ => Err(NoName(pattern)),
        }
    }
}

impl TryFrom<u32> for ClkMux {
    type Error = NoName;

    ghost try_from_gives = { λ pattern r. value_by value.ClkMux r ≡ named clk_muxes pattern };

    fn try_from(pattern: u32) -> Result<Self, NoName> {
        match pattern {
            3 => Ok(ClkMux::Fclk1),
            2 => Ok(ClkMux::Fclk2),
            1 => Ok(ClkMux::Fclk0),
            0 => Ok(ClkMux::Pt),
            _ => Err(NoName(pattern)),
        }
    }
}

impl TryFrom<u32> for RegMode {
    type Error = NoName;

    ghost try_from_gives = { λ pattern r. value_by value.RegMode r ≡ named reg_modes pattern };

    fn try_from(pattern: u32) -> Result<Self, NoName> {
        match pattern {
            1 => Ok(RegMode::Dff),
            0 => Ok(RegMode::Tff),
            _ => Err(NoName(pattern)),
        }
    }
}

impl TryFrom<u32> for RstSetMux {
    type Error = NoName;

    ghost try_from_gives = { λ pattern r. value_by value.RstSetMux r ≡ named rst_set_muxes pattern };

    fn try_from(pattern: u32) -> Result<Self, NoName> {
        match pattern {
            1 => Ok(RstSetMux::Pt),
            0 => Ok(RstSetMux::Fsr),
            _ => Err(NoName(pattern)),
        }
    }
}

impl TryFrom<u32> for UimOeMux {
    type Error = NoName;

    ghost try_from_gives = { λ pattern r. value_by value.UimOeMux r ≡ named uim_oe_muxes pattern };

    fn try_from(pattern: u32) -> Result<Self, NoName> {
        match pattern {
            3 => Ok(UimOeMux::OeMux),
            2 => Ok(UimOeMux::Gnd),
            1 => Ok(UimOeMux::Vcc),
            _ => Err(NoName(pattern)),
        }
    }
}

impl TryFrom<u32> for IobSlew {
    type Error = NoName;

    ghost try_from_gives = { λ pattern r. value_by value.IobSlew r ≡ named iob_slews pattern };

    fn try_from(pattern: u32) -> Result<Self, NoName> {
        match pattern {
            1 => Ok(IobSlew::Slow),
            0 => Ok(IobSlew::Fast),
            _ => Err(NoName(pattern)),
        }
    }
}

// The value that a pattern stands for in a list of names: that of its name, or Unassigned.
fn value_of<T: TryFrom<u32, Error = NoName>, F: Fn(T) -> Value>(pattern: u32, name: F) -> Value
    requires { F.IsAlwaysCallable name }
    ensures { (r : Result T NoName) × T.try_from_gives pattern r
        × MatchResult r (λ x. F.post name x result) (λ e. result ≡ Value.Unassigned e.0) }
{
    match T::try_from(pattern) {
        Ok(x) => name(x),
        Err(NoName(bits)) => Value::Unassigned(bits),
    }
}

// A flag is true at the state 0. Its type is `bool`, for which no crate but the library can have a `try_from`.
fn flag(pattern: u32) -> Value
    ensures { result ≡ named flags pattern }
{
    match pattern {
        0 => Value::Flag(true),
        1 => Value::Flag(false),
        _ => Value::Unassigned(pattern),
    }
}

// A list of FCLK.MUX or FOE.MUX, by its values for 11, 10 and 01.
fn mux(pattern: u32, v3: Value, v2: Value, v1: Value) -> Value
    ensures { result ≡ named ((3, v3) ∷ (2, v2) ∷ (1, v1) ∷ []) pattern }
{
    match pattern {
        3 => v3,
        2 => v2,
        1 => v1,
        _ => Value::Unassigned(pattern),
    }
}

// FCLK.MUX has its list by c and FOE.MUX by e and the class, which `try_from` is not given.
#[tactic(auto, unfolding(crate::specs::Values::fclk_muxes))]
fn fclk_mux(c: u32, pattern: u32) -> Value
    ensures { result ≡ named (fclk_muxes c) pattern }
{
    let (v2, v1) = match c {
        0 => (FclkMux::Gclk1, FclkMux::Gclk0),
        1 => (FclkMux::Gclk2, FclkMux::Gclk1),
        _ => (FclkMux::Gclk0, FclkMux::Gclk2),
    };
    mux(
        pattern,
        Value::FclkMux(FclkMux::None),
        Value::FclkMux(v2),
        Value::FclkMux(v1),
    )
}

#[tactic(auto, unfolding(crate::specs::Values::small_foe_muxes, crate::specs::Values::large_foe_muxes))]
fn foe_mux(e: u32, large: bool, pattern: u32) -> Value
    ensures { result ≡ named (cond large (large_foe_muxes e) (small_foe_muxes e)) pattern }
{
    let (v2, v1) = match (large, e) {
        (_, 0) => (FoeMux::Goe1, FoeMux::Goe0),
        (false, _) => (FoeMux::Goe0, FoeMux::Goe1),
        (true, 1) => (FoeMux::Goe2, FoeMux::Goe1),
        (true, 2) => (FoeMux::Goe3, FoeMux::Goe2),
        (true, _) => (FoeMux::Goe0, FoeMux::Goe3),
    };
    mux(
        pattern,
        Value::FoeMux(FoeMux::None),
        Value::FoeMux(v2),
        Value::FoeMux(v1),
    )
}

// The value that a pattern stands for. A kind is data, from the setting that the caller names: a step passed in place
// of the kind would be chosen by the same match there.
pub fn value_in(kind: Kind, pattern: u32) -> Value
    ensures { result ≡ value_in kind pattern }
{
    match kind {
        Kind::Flag => flag(pattern),
        Kind::TermAlloc => value_of(pattern, Value::TermAlloc),
        Kind::ImportAlloc => value_of(pattern, Value::ImportAlloc),
        Kind::ExportDir => value_of(pattern, Value::ExportDir),
        Kind::IobOeMux => value_of(pattern, Value::IobOeMux),
        Kind::OutMux => value_of(pattern, Value::OutMux),
        Kind::OeMux => value_of(pattern, Value::OeMux),
        Kind::ClkMux => value_of(pattern, Value::ClkMux),
        Kind::RegMode => value_of(pattern, Value::RegMode),
        Kind::RstSetMux => value_of(pattern, Value::RstSetMux),
        Kind::UimOeMux => value_of(pattern, Value::UimOeMux),
        Kind::IobSlew => value_of(pattern, Value::IobSlew),
        Kind::FclkMux(c) => fclk_mux(c, pattern),
        Kind::FoeMux { e, large } => foe_mux(e, large, pattern),
        Kind::Usercode => Value::Usercode(!pattern),
    }
}

// How many bits the settings of a kind have.
pub fn bits_in(kind: Kind) -> u32
    ensures { result ≡ bits_in kind }
{
    match kind {
        Kind::Flag => 1,
        Kind::TermAlloc => 2,
        Kind::ImportAlloc => 1,
        Kind::ExportDir => 1,
        Kind::IobOeMux => 2,
        Kind::OutMux => 1,
        Kind::OeMux => 3,
        Kind::ClkMux => 2,
        Kind::RegMode => 1,
        Kind::RstSetMux => 1,
        Kind::UimOeMux => 2,
        Kind::IobSlew => 1,
        Kind::FclkMux(_) => 2,
        Kind::FoeMux { e: _, large: _ } => 2,
        Kind::Usercode => 32,
    }
}
