// Reading and setting by setting number and pattern in an image or a readout alike: what the operations need, and no
// caller. A literal and USERCODE go by their numbers, the others through the setting that the number stands for.
ghost use Rattle.std.specs.Prelude.{◌≡◌, true, false, ◌&&◌, ◌<◌, eqb, ltb, length, MatchOption, MatchResult};
ghost use Rattle.part.specs.Device.{known};
ghost use Rattle.part.specs.Answer.{number_outcome, done_outcome};
ghost use Rattle.part.specs.Outcome.{Written};
ghost use Rattle.part.specs.declared.Refusal.TheVariants.{BitAboveWidth};
ghost use Rattle.settings.specs.Order.{start, setting_of};
ghost use Rattle.settings.specs.Order.Group.{wire_ands};
ghost use Rattle.setting_places.specs.Places.{fuse_of};
ghost use Rattle.setting_bits.specs.SettingBits.{bytes_of, byte_of, bit_in};
ghost use Rattle.edit.specs.Edit.{above_in};
ghost use Rattle.edit_by_number.specs.ByNumber.{read_pattern, set_pattern, with_numbered};

use edit::by_name::check_above;
use image::bytes::{bit_of, set_bit};
use part::places::width_of;
use part::{Device, KnownDevice, Refusal};
use patterns::of_values::fits;
use setting_bits::Layout;
use setting_bits::in_bytes::{
    Location, above_width, bytes_of, location_at, pattern_at, put_pattern, put_usercode,
    usercode_at,
};
use setting_places::places::{bits_of, place_of_literal};
use settings::numbers::number_of_usercode;
use settings::{DeviceSetting, LiteralNumber, SettingNumber};

// That the bytes have their length is asked for in the three functions of a literal, as in `setting_bits`: `is_literal`
// has just shown it, and a type of layout and bytes would have to come twice.

// Where a literal stands. Refused: 6, where its byte has a bit above its width; an image has no such bits.
fn literal_location(
    literal: LiteralNumber,
    layout: Layout,
    bytes: &[u8],
) -> Result<Location, Refusal>
    requires { length bytes.now ≡ bytes_of literal.device.device layout }
    ensures { let d = literal.device.device in let s = setting_of d literal.number.0 in
        let above = above_in d layout bytes.now s in MatchResult result
        (λ at. (at.index ≡ byte_of d layout (fuse_of d s 0)) × (at.bit ≡ bit_in d layout (fuse_of d s 0))
        × (above ≡ bytes_of d layout))
        (λ e. (e ≡ BitAboveWidth above) × (above < bytes_of d layout)) }
{
    let place = place_of_literal(literal);
    let at = location_at(literal.device, layout, place);
    let above = above_width(bytes, at.index, width_of(place.byte));
    if layout.is_readout() & (above != 0) {
        return Err(Refusal::BitAboveWidth(at.index as u32));
    }
    Ok(at)
}

// The number as that of a literal, if the device is known, the bytes have its length and the number is one. Most
// settings are literals; the operations ask this first, so that the way of a literal is compiled into each of them. Of
// the bytes it takes the length alone, since it looks at none of them.
fn is_literal(
    d: Device,
    layout: Layout,
    length: usize,
    number: SettingNumber,
) -> Option<LiteralNumber>
    ensures { MatchOption result
        ((known d && eqb length (bytes_of d layout) && ltb number.0 (start d wire_ands)) ≡ false)
        (λ x. (x.device.device ≡ d) × (x.number ≡ number) × (length ≡ bytes_of d layout)) }
{
    let part = KnownDevice::try_from(d).ok()?;
    let literal = LiteralNumber::new(part, number)?;
    (length == bytes_of(part, layout)).then_some(literal)
}

// The pattern of a literal, by its number. Refused: 6.
fn read_literal(literal: LiteralNumber, layout: Layout, bytes: &[u8]) -> Result<u32, Refusal>
    requires { length bytes.now ≡ bytes_of literal.device.device layout }
    ensures { number_outcome result ≡ read_pattern literal.device.device layout bytes.now literal.number.0 }
{
    let at = literal_location(literal, layout, bytes)?;
    Ok(bit_of(bytes, at.index, at.bit))
}

// A literal set to a pattern, by its number. Refused: 5, 6.
fn set_literal(
    literal: LiteralNumber,
    layout: Layout,
    bytes: &mut [u8],
    pattern: u32,
) -> Result<(), Refusal>
    requires { length bytes.old ≡ bytes_of literal.device.device layout }
    ensures { let d = literal.device.device in let x = literal.number.0 in
        Written (set_pattern d layout bytes.old x pattern) (done_outcome result)
        (with_numbered d layout bytes.old x pattern) bytes.old bytes.new }
{
    if 1 < pattern {
        return Err(Refusal::NoSuchValue);
    }
    let at = literal_location(literal, layout, bytes)?;
    set_bit(bytes, at.index, at.bit, pattern);
    Ok(())
}

// The pattern of any setting, by its number. Refused: 1, 2, 4, 6.
#[tactic(auto, using(crate::proofs::Rules::all), unfolding(crate::specs::ByNumber::read_pattern))]
fn read_numbered(
    d: Device,
    layout: Layout,
    bytes: &[u8],
    number: SettingNumber,
) -> Result<u32, Refusal>
    ensures { number_outcome result ≡ read_pattern d layout bytes.now number.0 }
{
    let part = KnownDevice::try_from(d)?;
    if bytes.len() != bytes_of(part, layout) {
        return Err(Refusal::WrongLength);
    }
    // USERCODE comes before refusal 4: every device has it, so its number is never refused.
    // Copies are given to what may be compiled apart: so the pointer and the length of `bytes` stay in registers.
    if number.0 == number_of_usercode(part) {
        let whole = bytes;
        return Ok(usercode_at(part, layout, whole));
    }
    let same = bytes;
    let s = DeviceSetting::of_number(part, number)?;
    check_above(layout, same, s)?;
    Ok(pattern_at(layout, same, s))
}

// Any setting set to a pattern, by its number. Refused: 1, 2, 4, 5, 6.
#[tactic(auto, using(crate::proofs::Rules::all), unfolding(crate::specs::ByNumber::set_pattern))]
fn set_numbered(
    d: Device,
    layout: Layout,
    bytes: &mut [u8],
    number: SettingNumber,
    pattern: u32,
) -> Result<(), Refusal>
    ensures { Written (set_pattern d layout bytes.old number.0 pattern) (done_outcome result)
        (with_numbered d layout bytes.old number.0 pattern) bytes.old bytes.new }
{
    let part = KnownDevice::try_from(d)?;
    if bytes.len() != bytes_of(part, layout) {
        return Err(Refusal::WrongLength);
    }
    // As in `read_numbered`, USERCODE comes before refusal 4.
    if number.0 == number_of_usercode(part) {
        put_usercode(part, layout, bytes, pattern);
        return Ok(());
    }
    let s = DeviceSetting::of_number(part, number)?;
    if !fits(bits_of(s.setting), pattern) {
        return Err(Refusal::NoSuchValue);
    }
    check_above(layout, bytes, s)?;
    put_pattern(layout, bytes, s, pattern);
    Ok(())
}

// The pattern of a setting, by its number: a literal goes a way of its own. Refused: 1, 2, 4, 6. This and `set` are
// compiled into each operation, where the layout is a constant. Each has both ways, whose arguments and answers differ
// from reading to setting: passed as closures, they would be longer than these two arms.
#[inline(always)]
pub fn read(d: Device, layout: Layout, bytes: &[u8], number: SettingNumber) -> Result<u32, Refusal>
    ensures { number_outcome result ≡ read_pattern d layout bytes.now number.0 }
{
    match is_literal(d, layout, bytes.len(), number) {
        Some(literal) => read_literal(literal, layout, bytes),
        None => read_numbered(d, layout, bytes, number),
    }
}

// A setting set to a pattern, by its number. Refused: 1, 2, 4, 5, 6.
#[inline(always)]
pub fn set(
    d: Device,
    layout: Layout,
    bytes: &mut [u8],
    number: SettingNumber,
    pattern: u32,
) -> Result<(), Refusal>
    ensures { Written (set_pattern d layout bytes.old number.0 pattern) (done_outcome result)
        (with_numbered d layout bytes.old number.0 pattern) bytes.old bytes.new }
{
    match is_literal(d, layout, bytes.len(), number) {
        Some(literal) => set_literal(literal, layout, bytes, pattern),
        None => set_numbered(d, layout, bytes, number, pattern),
    }
}
