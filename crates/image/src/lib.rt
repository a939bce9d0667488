// The fuse image: the fuse sum and the zero count over it. The state of a fuse and the change of one stand in
// `bytes`, an image of the device's length in `device_image`. The definitions stand in specs/Image.antt.
#![tactic(auto)]

ghost use Rattle.std.specs.Prelude.{◌≡◌};
ghost use Rattle.part.specs.Answer.{number_outcome};
ghost use Rattle.image.specs.Image.{fuse_sum, zero_count};

use part::{Device, Refusal};

pub mod bytes;
pub mod device_image;

pub use device_image::DeviceImage;

// The sum of the image's bytes, of which the low 16 bits are kept. Refused: 1, 2.
pub fn fuse_sum(d: Device, image: &[u8]) -> Result<u32, Refusal>
    ensures { number_outcome result ≡ fuse_sum d image.now }
{
    let whole = DeviceImage::new(d, image)?;
    Ok(bytes::sum_of(whole.bytes) as u32)
}

// How many fuses of the image are at 0. Refused: 1, 2.
pub fn zero_count(d: Device, image: &[u8]) -> Result<u32, Refusal>
    ensures { number_outcome result ≡ zero_count d image.now }
{
    let whole = DeviceImage::new(d, image)?;
    let fuses = whole.part.fuse_count();
    let zeros = fuses - bytes::ones_of(whole.bytes) as u32;
    Ok(zeros)
}
