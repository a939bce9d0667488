// The image of a device: its bytes, as many as the device's image has.
// What needs an image of the device's length takes this type, so that refusals 1 and 2 are decided once.
ghost use Rattle.std.specs.Prelude.{◌≡◌, IfOk, length};
ghost use Rattle.part.specs.Answer.{outcome_of};
ghost use Rattle.part.specs.Outcome.Outcome.{accepted};
ghost use Rattle.part.specs.Device.{image_bytes};
ghost use Rattle.part.specs.Sizes.{if_known, if_length};

use part::{Device, KnownDevice, Refusal};

// A known device, and bytes of the length of its image.
#[derive(Clone, Copy)]
pub struct DeviceImage<'a> {
    pub part: KnownDevice,
    pub bytes: &'a [u8],
    pub ghost fits: { length bytes.now ≡ image_bytes part.device },
}

impl<'a> DeviceImage<'a> {
    // The image, if the device is known and the bytes have its length. Refused: 1, 2.
    pub fn new(d: Device, bytes: &'a [u8]) -> Result<DeviceImage<'a>, Refusal>
        ensures outcome { outcome_of (λ image. tt {0}) result
            ≡ if_known d (if_length (length bytes.now) (image_bytes d) (accepted (tt {0}))) }
        ensures value { IfOk result (λ image. (image.part.device ≡ d) × (image.bytes.now ≡ bytes.now)) }
    {
        let part = KnownDevice::try_from(d)?;
        if bytes.len() != part.image_bytes() as usize {
            return Err(Refusal::WrongLength);
        }
        Ok(DeviceImage { part, bytes })
    }
}
