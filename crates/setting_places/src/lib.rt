// The fuses of each setting of a part with their addresses, lowest bit first.
// The definitions that the contracts cite stand in specs/, the laws about them in proofs/Laws.antt.
#![tactic(auto)]

ghost use Rattle.std.specs.Prelude.{◌≡◌, true};
ghost use Rattle.part.specs.Answer.{number_outcome};
ghost use Rattle.part.specs.Device.{device};
ghost use Rattle.part.specs.Outcome.Outcome.{accepted};
ghost use Rattle.part.specs.Place.{has_place, fuse_of_place};
ghost use Rattle.addresses.specs.Address.{address_of_place};
ghost use Rattle.setting_places.specs.Answer.{option_of, bit_outcome, located_fuse};
ghost use Rattle.setting_places.specs.Operations.{bits_of_setting, located_bit, located_by_number};

use addresses::AddressBit;
use addresses::bytes::address_of_byte;
use part::places::fuse_of_place;
use part::{Device, FuseNumber, KnownDevice, Place, Refusal};
use settings::numbers::{start_of_blocks, start_of_macrocells, start_of_wire_ands};
use settings::{DeviceSetting, LiteralNumber, Setting, SettingNumber};

mod numbered;
pub mod places;

// A fuse, the address of the byte that holds it and its bit there.
#[derive(Clone, Copy, Debug, PartialEq, Eq)]
pub struct FuseAt {
    pub fuse: FuseNumber,
    pub at: AddressBit,
}

// How many bits a setting has. Refused: 1, 4.
pub fn bits_of_setting(d: Device, s: Setting) -> Result<u32, Refusal>
    ensures { number_outcome result ≡ bits_of_setting d s }
{
    let part = KnownDevice::try_from(d)?;
    let there = DeviceSetting::new(part, s)?;
    Ok(places::bits_of(there.setting))
}

// The fuse at a place, with its address and its bit: no fuse is converted.
// That the device has the place is asked for: a type that carries it would be taken apart here for byte and bit.
fn located(d: KnownDevice, place: Place) -> FuseAt
    requires { has_place d.device place ≡ true }
    ensures { located_fuse result ≡ (fuse_of_place d.device place, address_of_place place) }
{
    let fuse = fuse_of_place(d, place);
    let address = address_of_byte(d, place.byte);
    FuseAt {
        fuse,
        at: AddressBit {
            address,
            bit: place.bit,
        },
    }
}

// The fuse of a bit of a setting that the device has, with its address and its bit; `None` where the bit is at or over
// the setting's width.
fn bit_at(there: DeviceSetting, bit: u32) -> Option<FuseAt>
    ensures { accepted (option_of located_fuse result) ≡ located_bit there.device.device there.setting bit }
{
    if places::bits_of(there.setting) <= bit {
        return None;
    }
    let place = places::place_of(there, bit);
    Some(located(there.device, place))
}

// The fuse of a bit of a setting, lowest bit first, with its address and its bit. Refused: 1, 4.
pub fn fuse_of_bit(d: Device, s: Setting, bit: u32) -> Result<Option<FuseAt>, Refusal>
    ensures { bit_outcome result ≡ located_bit d s bit }
{
    let part = KnownDevice::try_from(d)?;
    let there = DeviceSetting::new(part, s)?;
    Ok(bit_at(there, bit))
}

// The same by setting number, through the setting. It takes two numbers for the device: a caller has them in two
// registers, and would have to put them together.
fn through_setting(
    blocks: u32,
    class: u32,
    number: SettingNumber,
    bit: u32,
) -> Result<Option<FuseAt>, Refusal>
    ensures { bit_outcome result ≡ located_by_number (device blocks class) number.0 bit }
{
    let part = KnownDevice::try_from(Device { blocks, class })?;
    let there = DeviceSetting::of_number(part, number)?;
    Ok(bit_at(there, bit))
}

// The same by setting number. The settings that are many, literals, wire-ANDs and the fields of macrocells, are found
// without making the setting. All else goes through it, an unknown device too: since `through_setting` is called twice,
// the compiler leaves it a function of its own, and the other ways save no registers for it. Refused: 1, 4.
pub fn fuse_of_numbered_bit(
    d: Device,
    number: SettingNumber,
    bit: u32,
) -> Result<Option<FuseAt>, Refusal>
    ensures { bit_outcome result ≡ located_by_number d number.0 bit }
{
    let Ok(part) = KnownDevice::try_from(d) else {
        return through_setting(d.blocks, d.class, number, bit);
    };
    if let Some(literal) = LiteralNumber::new(part, number) {
        return Ok(numbered::literal_bit(literal, bit));
    }
    let x = number.0;
    let wire_ands = start_of_wire_ands(part);
    let macrocells = start_of_macrocells(part);
    if x < macrocells {
        return Ok(numbered::wire_and_bit(part, x - wire_ands, bit));
    }
    let blocks = start_of_blocks(part);
    if x < blocks {
        return Ok(numbered::field_bit(part, x - macrocells, bit));
    }
    through_setting(d.blocks, d.class, number, bit)
}
