// The values of the settings of a device: which kind of value each setting has, and the two ways between values and
// patterns. The definitions stand in specs/Kinds.antt; the lists of names are those of the crate `values`.
#![tactic(auto)]

ghost use Rattle.std.specs.Prelude.{◌≡◌};
ghost use Rattle.part.specs.Answer.{number_outcome};
ghost use Rattle.setting_values.specs.Operations.{value_outcome, value_of_pattern, pattern_of_value};

use part::{Device, KnownDevice, Refusal};
use patterns::of_values::{fits, pattern_in};
use settings::{DeviceSetting, Setting};
use values::Value;
use values::lists::{bits_in, value_in};

pub mod kinds;

// The value that a pattern of a setting stands for. Refused: 1, 4, 5.
#[tactic(auto, using(crate::proofs::Widths::operations), unfolding(crate::specs::Operations::value_of_pattern))]
pub fn value_of_pattern(d: Device, s: Setting, pattern: u32) -> Result<Value, Refusal>
    ensures { value_outcome result ≡ value_of_pattern d s pattern }
{
    let part = KnownDevice::try_from(d)?;
    let there = DeviceSetting::new(part, s)?;
    let kind = kinds::kind_of(part.device, there.setting);
    if !fits(bits_in(kind), pattern) {
        return Err(Refusal::NoSuchValue);
    }
    Ok(value_in(kind, pattern))
}

// The pattern that stands for a value of a setting. Refused: 1, 4, 5.
#[tactic(auto, using(crate::proofs::Widths::operations), unfolding(crate::specs::Operations::pattern_of_value))]
pub fn pattern_of_value(d: Device, s: Setting, v: Value) -> Result<u32, Refusal>
    ensures { number_outcome result ≡ pattern_of_value d s v }
{
    let part = KnownDevice::try_from(d)?;
    let there = DeviceSetting::new(part, s)?;
    let kind = kinds::kind_of(part.device, there.setting);
    pattern_in(kind, v).ok_or(Refusal::NoSuchValue)
}
