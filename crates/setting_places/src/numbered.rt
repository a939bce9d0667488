// The fuse of a bit of a setting with its address, by the position of the setting in its group.
// A function here requires that the number or the position is one of the group.
ghost use Rattle.std.specs.Prelude.{◌≡◌, ◌<◌};
ghost use Rattle.part.specs.Outcome.Outcome.{accepted};
ghost use Rattle.settings.specs.Order.{size, in_group, setting_of};
ghost use Rattle.settings.specs.Order.Group.{wire_ands, macrocell_settings};
ghost use Rattle.setting_places.specs.Answer.{option_of, located_fuse};
ghost use Rattle.setting_places.specs.Operations.{located_bit};

use super::places::{field_rows, macrocell_place, place_of_literal, wire_and_place};
use super::{FuseAt, located};
use part::KnownDevice;
use part::quotients::divided;
use settings::LiteralNumber;
use settings::fields::{MACROCELL_FIELDS, MACROCELLS};
use settings::numbers::wire_and_indices;

// The factor that divides the position of a field by the fields of a macrocell, with its shift.
const FIELD_SHIFT: u32 = 18;

const FIELD_FACTOR: u64 = (1 << FIELD_SHIFT) / MACROCELL_FIELDS as u64 + 1;

// A bit of a literal, which has one, by its number.
pub fn literal_bit(literal: LiteralNumber, bit: u32) -> Option<FuseAt>
    ensures { accepted (option_of located_fuse result)
        ≡ located_bit literal.device.device (setting_of literal.device.device literal.number.0) bit }
{
    if 0 < bit {
        return None;
    }
    let place = place_of_literal(literal);
    Some(located(literal.device, place))
}

// A bit of the wire-AND at a position, which has one.
pub fn wire_and_bit(d: KnownDevice, x: u32, bit: u32) -> Option<FuseAt>
    requires { x < size d.device wire_ands }
    ensures { accepted (option_of located_fuse result) ≡ located_bit d.device (in_group d.device wire_ands x) bit }
{
    if 0 < bit {
        return None;
    }
    let at = wire_and_indices(d, x);
    let place = wire_and_place(at);
    Some(located(d, place))
}

// A bit of the macrocell field at a position.
pub fn field_bit(d: KnownDevice, x: u32, bit: u32) -> Option<FuseAt>
    requires { x < size d.device macrocell_settings }
    ensures { accepted (option_of located_fuse result)
        ≡ located_bit d.device (in_group d.device macrocell_settings x) bit }
{
    let fields = divided(x, MACROCELL_FIELDS, FIELD_FACTOR, FIELD_SHIFT);
    let rows = field_rows(fields.rest);
    if rows.count <= bit {
        return None;
    }
    let row = rows.first + bit;
    let macrocells = fields.quotient;
    let place = macrocell_place(macrocells / MACROCELLS, row, macrocells % MACROCELLS);
    Some(located(d, place))
}
