// The number of a literal, with the device that has it: the literals have the first numbers.
// What goes by the number of a literal takes this type, so that it is told from the others where the value is made.
ghost use Rattle.std.specs.Prelude.{◌≡◌, ◌<◌, ◌≤◌, MatchOption};
ghost use Rattle.settings.specs.Order.{start};
ghost use Rattle.settings.specs.Order.Group.{wire_ands};

use super::SettingNumber;
use super::numbers::start_of_wire_ands;
use part::KnownDevice;

// The number of a literal, and a device that has it.
#[derive(Clone, Copy, Debug, PartialEq, Eq)]
pub struct LiteralNumber {
    pub device: KnownDevice,
    pub number: SettingNumber,
    pub ghost is_literal: { number.0 < start device.device wire_ands },
}

impl LiteralNumber {
    // The number, if it is that of a literal of the device.
    pub fn new(device: KnownDevice, number: SettingNumber) -> Option<LiteralNumber>
        ensures { MatchOption result (start device.device wire_ands ≤ number.0)
            (λ x. (x.device ≡ device) × (x.number ≡ number)) }
    {
        if number.0 < start_of_wire_ands(device) {
            Some(LiteralNumber { device, number })
        } else {
            None
        }
    }
}
