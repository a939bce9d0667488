// The values of settings, by document 003's names, and the kinds of settings: which of 003's assignment lists applies.
// What each pattern stands for is in `lists`; the definitions that its contracts cite are in specs/.
#![tactic(auto)]

use std::error::Error;
use std::fmt;

pub mod lists;

// The names of document 003's assignment lists, in its order, each with its pattern: the way from a name to its pattern
// is `as u32`, the way back is `try_from`, in `lists`.
#[derive(Clone, Copy, Debug, PartialEq, Eq)]
pub enum TermAlloc {
    None = 3,
    Sum = 2,
    Export = 1,
    Special = 0,
}

#[derive(Clone, Copy, Debug, PartialEq, Eq)]
pub enum ImportAlloc {
    Export = 1,
    Sum = 0,
}

#[derive(Clone, Copy, Debug, PartialEq, Eq)]
pub enum ExportDir {
    Up = 1,
    Down = 0,
}

#[derive(Clone, Copy, Debug, PartialEq, Eq)]
pub enum IobOeMux {
    Gnd = 3,
    OeMux = 2,
    Vcc = 1,
}

#[derive(Clone, Copy, Debug, PartialEq, Eq)]
pub enum OutMux {
    Comb = 1,
    Ff = 0,
}

#[derive(Clone, Copy, Debug, PartialEq, Eq)]
pub enum OeMux {
    Pt = 7,
    Foe0 = 6,
    Foe1 = 5,
    Foe2 = 4,
    Foe3 = 3,
}

#[derive(Clone, Copy, Debug, PartialEq, Eq)]
pub enum ClkMux {
    Fclk1 = 3,
    Fclk2 = 2,
    Fclk0 = 1,
    Pt = 0,
}

#[derive(Clone, Copy, Debug, PartialEq, Eq)]
pub enum RegMode {
    Dff = 1,
    Tff = 0,
}

// Of RST_MUX and of SET_MUX.
#[derive(Clone, Copy, Debug, PartialEq, Eq)]
pub enum RstSetMux {
    Pt = 1,
    Fsr = 0,
}

#[derive(Clone, Copy, Debug, PartialEq, Eq)]
pub enum UimOeMux {
    OeMux = 3,
    Gnd = 2,
    Vcc = 1,
}

#[derive(Clone, Copy, Debug, PartialEq, Eq)]
pub enum IobSlew {
    Slow = 1,
    Fast = 0,
}

// Of FCLK[c].MUX and of FOE[e].MUX, where the pattern of a name depends on c, or on e and the class: so these names
// carry no patterns.
#[derive(Clone, Copy, Debug, PartialEq, Eq)]
pub enum FclkMux {
    None,
    Gclk0,
    Gclk1,
    Gclk2,
}

#[derive(Clone, Copy, Debug, PartialEq, Eq)]
pub enum FoeMux {
    None,
    Goe0,
    Goe1,
    Goe2,
    Goe3,
}

// The value of a setting: a flag, a name, the number of USERCODE, or a pattern that has no name.
#[derive(Clone, Copy, Debug, PartialEq, Eq)]
pub enum Value {
    Flag(bool),
    TermAlloc(TermAlloc),
    ImportAlloc(ImportAlloc),
    ExportDir(ExportDir),
    IobOeMux(IobOeMux),
    OutMux(OutMux),
    OeMux(OeMux),
    ClkMux(ClkMux),
    RegMode(RegMode),
    RstSetMux(RstSetMux),
    UimOeMux(UimOeMux),
    IobSlew(IobSlew),
    FclkMux(FclkMux),
    FoeMux(FoeMux),
    Usercode(u32),
    Unassigned(u32),
}

// A pattern that has no name in a list.
#[derive(Clone, Copy, Debug, PartialEq, Eq)]
pub struct NoName(pub u32);

// Which assignment list applies. FCLK[c].MUX has a list for each c, FOE[e].MUX for each e and class.
#[derive(Clone, Copy, Debug, PartialEq, Eq)]
pub enum Kind {
    Flag,
    TermAlloc,
    ImportAlloc,
    ExportDir,
    IobOeMux,
    OutMux,
    OeMux,
    ClkMux,
    RegMode,
    RstSetMux,
    UimOeMux,
    IobSlew,
    FclkMux(u32),
    FoeMux { e: u32, large: bool },
    Usercode,
}

impl fmt::Display for NoName {
    ghost use Rattle.std.specs.Prelude.{Some};
    ghost use Rattle.values.specs.Words.{no_name_text};

    ghost output = { λ n. Some (no_name_text n) };

    fn fmt<W: fmt::Write>(&self, f: &mut fmt::Formatter<W>) -> fmt::Result {
        write!(f, "the pattern {} has no name in its list", self.0)
    }
}

impl Error for NoName {}
