// The setting at each fuse of a part, if a setting has it: the way back from the places of `setting_places`.
// The definitions that the contract cites stand in specs/, the laws about them in proofs/Laws.antt.
#![tactic(auto)]

ghost use Rattle.std.specs.Prelude.{◌≡◌};
ghost use Rattle.fuse_settings.specs.Answer.{named_outcome};
ghost use Rattle.fuse_settings.specs.Operations.{setting_at_fuse};

use candidates::{always_listed, candidate_at};
use part::places::place_of_fuse;
use part::{Device, FuseNumber, KnownDevice, Refusal};
use setting_places::places::{bits_of, fuse_of};
use settings::{DeviceSetting, Setting};

pub mod candidates;

// A setting and one of its bits.
#[derive(Clone, Copy, Debug, PartialEq, Eq)]
pub struct SettingBit {
    pub setting: Setting,
    pub bit: u32,
}

// The setting and the bit at a fuse, if a setting has the fuse. Refused: 1, 3.
pub fn setting_at_fuse(d: Device, fuse: FuseNumber) -> Result<Option<SettingBit>, Refusal>
    ensures { named_outcome result ≡ setting_at_fuse d fuse.0 }
{
    let part = KnownDevice::try_from(d)?;
    if part.fuse_count() <= fuse.0 {
        return Err(Refusal::NoSuchFuse);
    }
    let place = place_of_fuse(part, fuse);
    let candidate = candidate_at(d, place);
    if always_listed(candidate.setting) {
        return Ok(Some(candidate));
    }
    let Ok(there) = DeviceSetting::new(part, candidate.setting) else {
        return Ok(None);
    };
    if bits_of(candidate.setting) <= candidate.bit {
        return Ok(None);
    }
    let found = fuse_of(there, candidate.bit);
    if found != fuse {
        return Ok(None);
    }
    Ok(Some(candidate))
}
