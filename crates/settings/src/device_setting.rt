// A setting that its device has.
// What needs one takes this type, so that refusal 4 is decided where the value is made, and nowhere below.
ghost use Rattle.std.specs.Prelude.{◌≡◌, true, false, ◌<◌, ◌≤◌, MatchResult};
ghost use Rattle.settings.specs.Settings.{has_setting};
ghost use Rattle.settings.specs.Order.{count_of, setting_of};
ghost use Rattle.part.specs.declared.Refusal.TheVariants.{NoSuchSetting};

use super::fields::has_setting;
use super::numbers::{count_of, setting_of};
use super::{Setting, SettingNumber};
use part::{KnownDevice, Refusal};

// A setting, and a device that has it.
#[derive(Clone, Copy, Debug, PartialEq, Eq)]
pub struct DeviceSetting {
    pub device: KnownDevice,
    pub setting: Setting,
    pub ghost is_there: { has_setting device.device setting ≡ true },
}

impl DeviceSetting {
    // The setting, if the device has it. Refused: 4.
    // Measured: as a function of its own, which returns in memory, it takes 0.8 ns of 25 more in `setting_at_fuse`.
    #[inline(always)]
    pub fn new(device: KnownDevice, setting: Setting) -> Result<DeviceSetting, Refusal>
        ensures { MatchResult result
            (λ x. (x.device ≡ device) × (x.setting ≡ setting))
            (λ e. (e ≡ NoSuchSetting) × (has_setting device.device setting ≡ false)) }
    {
        if has_setting(device.device, setting) {
            Ok(DeviceSetting { device, setting })
        } else {
            Err(Refusal::NoSuchSetting)
        }
    }

    // The setting of a number, if the device has so many. Refused: 4. Compiled where it is called, as `new` is.
    #[inline(always)]
    pub fn of_number(device: KnownDevice, number: SettingNumber) -> Result<DeviceSetting, Refusal>
        ensures { MatchResult result
            (λ x. (x.device ≡ device) × (x.setting ≡ setting_of device.device number.0)
            × (number.0 < count_of device.device))
            (λ e. (e ≡ NoSuchSetting) × (count_of device.device ≤ number.0)) }
    {
        if number.0 < count_of(device) {
            Ok(setting_of(device, number))
        } else {
            Err(Refusal::NoSuchSetting)
        }
    }
}
