// Fuse numbers and device addresses, and the two conversions between them.
// The definitions that the contracts cite stand in specs/, the laws about them in proofs/Laws.antt.
#![tactic(auto)]

ghost use Rattle.std.specs.Prelude.{◌≡◌};
ghost use Rattle.addresses.specs.Answer.{address_outcome, fuse_outcome};
ghost use Rattle.addresses.specs.Convert.{address_of_fuse, fuse_of_address};

use bytes::{address_of_byte, byte_of_address, position_of_fuse};
use part::places::{block_of_fuse, fuse_of_place, has_byte, portions_before, width_of};
use part::{Device, FuseNumber, KnownDevice, Place, Refusal};

pub mod bytes;

// The address of a byte of the device, as the programmer sends it.
#[derive(Clone, Copy, Debug, PartialEq, Eq)]
pub struct DeviceAddress(pub u32);

// A bit of the byte that has the address.
#[derive(Clone, Copy, Debug, PartialEq, Eq)]
pub struct AddressBit {
    pub address: DeviceAddress,
    pub bit: u32,
}

// The address and the bit of a fuse. Refused: 1, 3.
pub fn address_of_fuse(d: Device, fuse: FuseNumber) -> Result<AddressBit, Refusal>
    ensures { address_outcome result ≡ address_of_fuse d fuse.0 }
{
    let part = KnownDevice::try_from(d)?;
    let block = block_of_fuse(part, fuse);
    if part.blocks() <= block {
        return Err(Refusal::NoSuchFuse);
    }
    let before = portions_before(part, block);
    let position = position_of_fuse(block, fuse, before);
    Ok(AddressBit {
        address: DeviceAddress(position / 8),
        bit: position % 8,
    })
}

// The fuse of an address and a bit. Refused: 1, 3.
pub fn fuse_of_address(d: Device, address: DeviceAddress, bit: u32) -> Result<FuseNumber, Refusal>
    ensures { fuse_outcome result ≡ fuse_of_address d address.0 bit }
{
    let part = KnownDevice::try_from(d)?;
    let byte = byte_of_address(address);
    if !has_byte(d, byte) {
        return Err(Refusal::NoSuchFuse);
    }
    let composed = address_of_byte(part, byte);
    if composed != address {
        return Err(Refusal::NoSuchFuse);
    }
    if width_of(byte) <= bit {
        return Err(Refusal::NoSuchFuse);
    }
    Ok(fuse_of_place(part, Place { byte, bit }))
}
