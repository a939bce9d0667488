// Reading and setting in an image or a readout alike: what the operations need, and no caller.
// A function here may require that the bytes have their length.
ghost use Rattle.std.specs.Prelude.{◌≡◌, length};
ghost use Rattle.part.specs.Answer.{done_outcome};
ghost use Rattle.part.specs.Outcome.{Written};
ghost use Rattle.part.specs.Outcome.Outcome.{accepted};
ghost use Rattle.setting_values.specs.Operations.{value_outcome};
ghost use Rattle.setting_bits.specs.SettingBits.{bytes_of, below};
ghost use Rattle.edit.specs.Edit.{above_in, if_clean, read_in, set_in, with_value};

use part::{Device, KnownDevice, Refusal};
use patterns::of_values::pattern_in;
use setting_bits::Layout;
use setting_bits::in_bytes::{above_of, bytes_of, pattern_at, put_pattern};
use setting_values::kinds::kind_of;
use settings::{DeviceSetting, Setting};
use values::Value;
use values::lists::value_in;

// The lowest index of a byte that holds the setting and has a bit above its width: an image has no such bits.
#[tactic(auto, unfolding(crate::specs::Edit::above_in))]
pub fn above_in(layout: Layout, bytes: &[u8], s: DeviceSetting) -> Option<usize>
    requires { length bytes.now ≡ bytes_of s.device.device layout }
    ensures { result ≡ below (length bytes.now) (above_in s.device.device layout bytes.now s.setting) }
{
    match layout {
        Layout::Image => None,
        Layout::Readout => above_of(bytes, s),
    }
}

// Refused: 6, where a byte that holds the setting has a bit above its width. Compiled where it is called: as a function
// of its own it returns in memory.
#[inline(always)]
#[tactic(auto, using(crate::proofs::Rules::all))]
pub fn check_above(layout: Layout, bytes: &[u8], there: DeviceSetting) -> Result<(), Refusal>
    requires { length bytes.now ≡ bytes_of there.device.device layout }
    ensures { done_outcome result
        ≡ if_clean there.device.device layout bytes.now there.setting (accepted tt) }
{
    match above_in(layout, bytes, there) {
        Some(above) => Err(Refusal::BitAboveWidth(above as u32)),
        None => Ok(()),
    }
}

// The value of a setting. Refused: 1, 2, 4, 6.
#[tactic(auto, using(crate::proofs::Rules::all), unfolding(crate::specs::Edit::read_in))]
pub fn read(d: Device, layout: Layout, bytes: &[u8], s: Setting) -> Result<Value, Refusal>
    ensures { value_outcome result ≡ read_in d layout bytes.now s }
{
    let part = KnownDevice::try_from(d)?;
    if bytes.len() != bytes_of(part, layout) {
        return Err(Refusal::WrongLength);
    }
    let there = DeviceSetting::new(part, s)?;
    check_above(layout, bytes, there)?;
    let pattern = pattern_at(layout, bytes, there);
    Ok(value_in(kind_of(d, s), pattern))
}

// A setting set to a value. Refused: 1, 2, 4, 5, 6.
#[tactic(auto, using(crate::proofs::Rules::all), unfolding(crate::specs::Edit::set_in, crate::specs::Edit::with_value))]
pub fn set(d: Device, layout: Layout, bytes: &mut [u8], s: Setting, v: Value) -> Result<(), Refusal>
    ensures { Written (set_in d layout bytes.old s v) (done_outcome result)
        (with_value d layout bytes.old s v) bytes.old bytes.new }
{
    let part = KnownDevice::try_from(d)?;
    if bytes.len() != bytes_of(part, layout) {
        return Err(Refusal::WrongLength);
    }
    let there = DeviceSetting::new(part, s)?;
    let pattern = pattern_in(kind_of(d, s), v).ok_or(Refusal::NoSuchValue)?;
    check_above(layout, bytes, there)?;
    put_pattern(layout, bytes, there, pattern);
    Ok(())
}
