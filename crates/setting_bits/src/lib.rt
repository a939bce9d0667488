// The bits of a setting in an image or a readout: where each stands, the states that stand there, and a change of them.
// The functions stand in `in_bytes`: they serve the crates above.
#![tactic(auto)]

ghost use Rattle.std.specs.Prelude.{◌≡◌};
ghost use Rattle.setting_bits.specs.SettingBits.{is_readout};

pub mod in_bytes;

// How fuses lie in bytes: as in an image, one bit a fuse, or as in a readout, one byte an address.
#[derive(Clone, Copy, Debug, PartialEq, Eq)]
pub enum Layout {
    Image,
    Readout,
}

impl Layout {
    // Whether bytes may have bits above their width.
    pub fn is_readout(self) -> bool
        ensures { result ≡ is_readout self }
    {
        self == Layout::Readout
    }
}
