// The pattern that stands for a value in settings of a kind: the only candidate, and whether it stands for it.
// For the crates above: nothing here is part of the public interface.
ghost use Rattle.std.specs.Prelude.{◌≡◌, ◌^◌, ◌≤◌, cond, ltb};
ghost use Rattle.values.specs.Values.{value_in};
ghost use Rattle.patterns.specs.Patterns.{same, candidate, pattern_in, found_pattern};

use values::lists::{bits_in, value_in};
use values::{Kind, Value};

// The only pattern that can stand for a name of FCLK.MUX or FOE.MUX: the lists of the kind say which. Two tests are as
// short as a search through 1 and 2 that gives 3 where it finds none, and they are those of the contract.
fn mux_candidate(kind: Kind, v: Value) -> u32
    ensures { result ≡ cond (same (value_in kind 1) v) 1 (cond (same (value_in kind 2) v) 2 3) }
{
    if value_in(kind, 1) == v {
        1
    } else if value_in(kind, 2) == v {
        2
    } else {
        3
    }
}

// The only pattern that can stand for a value. The variants hold values of different types, so the pattern is taken
// from each where it is matched.
#[tactic(auto, unfolding(crate::specs::Patterns::candidate))]
fn candidate(kind: Kind, v: Value) -> u32
    ensures { result ≡ candidate (value_in kind) v }
{
    match v {
        Value::Flag(x) => u32::from(!x),
        Value::TermAlloc(x) => x as u32,
        Value::ImportAlloc(x) => x as u32,
        Value::ExportDir(x) => x as u32,
        Value::IobOeMux(x) => x as u32,
        Value::OutMux(x) => x as u32,
        Value::OeMux(x) => x as u32,
        Value::ClkMux(x) => x as u32,
        Value::RegMode(x) => x as u32,
        Value::RstSetMux(x) => x as u32,
        Value::UimOeMux(x) => x as u32,
        Value::IobSlew(x) => x as u32,
        Value::FclkMux(_) | Value::FoeMux(_) => mux_candidate(kind, v),
        Value::Usercode(number) => !number,
        Value::Unassigned(pattern) => pattern,
    }
}

// Whether a pattern has no bit at or over a width.
pub fn fits(bits: u32, pattern: u32) -> bool
    requires { bits ≤ 32 }
    ensures { result ≡ ltb pattern (2 ^ bits) }
{
    (pattern as u64) < 1u64 << bits
}

// The pattern that stands for a value.
pub fn pattern_in(kind: Kind, v: Value) -> Option<u32>
    ensures { found_pattern result ≡ pattern_in kind v }
{
    let pattern = candidate(kind, v);
    let in_range = fits(bits_in(kind), pattern);
    let stands = value_in(kind, pattern) == v;
    (in_range & stands).then_some(pattern)
}
