// A device that is one of the twelve, and what it has: its blocks, its fuses and its bytes.
// What needs a known device takes this type, so that refusal 1 is decided once, where the value is made.
ghost use Rattle.std.specs.Prelude.{◌≡◌, true, false, ◌≤◌, MatchResult};
ghost use Rattle.part.specs.Device.{known, blocks_of, is_large, in_block, in_device, fuse_count, image_bytes};
ghost use Rattle.part.specs.Device.{readout_bytes, text_bytes};
ghost use Rattle.part.specs.declared.Refusal.TheVariants.{UnknownDevice};

use super::geometry::{
    MAIN_BYTES, MAIN_FUSES, MAIN_TEXT, SUBAREA_BYTES, SUBAREA_FUSES, SUBAREA_TEXT, decimal_digits,
};
use super::{Device, Refusal};

// A device of the family that is known.
#[derive(Clone, Copy, Debug, PartialEq, Eq)]
pub struct KnownDevice {
    pub device: Device,
    pub ghost is_known: { known device ≡ true },
}

// What a text has besides its L lines and the digits of the count.
const TEXT_FRAME: u32 = 3 + (2 + 2) + 4 + (1 + 4 + 2) + (1 + 4);

impl TryFrom<Device> for KnownDevice {
    type Error = Refusal;

    ghost try_from_gives = { λ d r. MatchResult r (λ k. k.device ≡ d) (λ e. (e ≡ UnknownDevice) × (known d ≡ false)) };

    // The device, if it is one of the twelve. Refused: 1.
    fn try_from(device: Device) -> Result<Self, Refusal> {
        if device.is_known() {
            Ok(KnownDevice { device })
        } else {
            Err(Refusal::UnknownDevice)
        }
    }
}

// What a block has, of so much in its main area and so much in each of its subareas.
pub fn in_block(d: KnownDevice, main: u32, subarea: u32) -> u32
    requires { (main ≤ 65535) × (subarea ≤ 65535) }
    ensures { result ≡ in_block d.device main subarea }
{
    main + d.device.blocks * subarea
}

impl KnownDevice {
    // How many function blocks it has.
    pub fn blocks(self) -> u32
        ensures { result ≡ blocks_of self.device }
    {
        self.device.blocks
    }

    // Whether it is of the large output-enable class.
    pub fn is_large(self) -> bool
        ensures { result ≡ is_large self.device }
    {
        self.device.is_large()
    }

    // What all blocks have, of so much in a main area and so much in a subarea.
    fn in_device(self, main: u32, subarea: u32) -> u32
        requires { (main ≤ 65535) × (subarea ≤ 65535) }
        ensures { result ≡ in_device self.device main subarea }
    {
        let each = in_block(self, main, subarea);
        self.device.blocks * each
    }

    // How many fuses it has.
    pub fn fuse_count(self) -> u32
        ensures { result ≡ fuse_count self.device }
    {
        self.in_device(MAIN_FUSES, SUBAREA_FUSES)
    }

    // How many bytes its image has.
    pub fn image_bytes(self) -> u32
        ensures { result ≡ image_bytes self.device }
    {
        (self.fuse_count() + 7) / 8
    }

    // How many bytes its readout has.
    pub fn readout_bytes(self) -> u32
        ensures { result ≡ readout_bytes self.device }
    {
        self.in_device(MAIN_BYTES, SUBAREA_BYTES)
    }

    // How many bytes the text of its image has.
    pub fn text_bytes(self) -> u32
        ensures { result ≡ text_bytes self.device }
    {
        let lines = self.in_device(MAIN_TEXT, SUBAREA_TEXT);
        let digits = decimal_digits(self.fuse_count());
        TEXT_FRAME + digits + lines
    }
}
