// The bits of a setting in an image or a readout: read, put in place, and the byte that has one above its width.
// A function here may require that the bytes have their length.
ghost use Rattle.std.specs.Prelude.{◌≡◌, true, false, ℕ, ◌+◌, ◌*◌, ◌/◌, ◌^◌, ◌<◌, length, get_or};
ghost use Rattle.part.specs.Place.{has_place, fuse_of_place, width_of};
ghost use Rattle.image.specs.Bits.{bit_of};
ghost use Rattle.settings.specs.declared.GlobalField.TheVariants.{Usercode};
ghost use Rattle.settings.specs.declared.Setting.TheVariants.{Global};
ghost use Rattle.setting_places.specs.Places.{place_of, bits_of, fuse_of};
ghost use Rattle.setting_bits.specs.declared.Layout.TheVariants.{Readout};
ghost use Rattle.setting_bits.specs.SettingBits.{bytes_of, byte_of, bit_in, with_state, pattern_at};
ghost use Rattle.setting_bits.specs.SettingBits.{with_pattern, above_of, below};

use super::Layout;
use addresses::bytes::index_of_byte;
use image::bytes::{bit_of, pair_of, set_bit, set_pair};
use part::geometry::{MAIN_COLUMNS, MAIN_ROW_FUSES};
use part::places::{fuse_of_place, width_of};
use part::{KnownDevice, Place};
use setting_places::places::{bits_of, place_of};
use settings::{DeviceSetting, GlobalField, Setting};

// That bytes have the length of their layout is asked for: a type of layout and bytes would have to come twice, for
// `&[u8]` and for `&mut [u8]`, and callers that read and then write would make the one from the other in between.

// A byte of an image or a readout, and one of its bits.
#[derive(Clone, Copy, Debug, PartialEq, Eq)]
pub struct Location {
    pub index: usize,
    pub bit: u32,
}

// The exact length of an image or a readout.
pub fn bytes_of(d: KnownDevice, layout: Layout) -> usize
    ensures { result ≡ bytes_of d.device layout }
{
    match layout {
        Layout::Image => d.image_bytes() as usize,
        Layout::Readout => d.readout_bytes() as usize,
    }
}

// Where the fuse at a place stands. That the device has the place is asked for: each of the two callers has just made
// the place, of a setting that the device has, and a type for it would be opened here at once.
#[tactic(auto, using(crate::proofs::Steps::located))]
pub fn location_at(d: KnownDevice, layout: Layout, place: Place) -> Location
    requires { has_place d.device place ≡ true }
    ensures { (result.index ≡ byte_of d.device layout (fuse_of_place d.device place))
        × (result.bit ≡ bit_in d.device layout (fuse_of_place d.device place)) }
{
    match layout {
        Layout::Image => {
            let fuse = fuse_of_place(d, place);
            Location {
                index: (fuse.0 / 8) as usize,
                bit: fuse.0 % 8,
            }
        }
        Layout::Readout => {
            let index = index_of_byte(d, place.byte);
            Location {
                index: index as usize,
                bit: place.bit,
            }
        }
    }
}

// Where a bit of a setting stands.
#[tactic(auto, using(crate::proofs::Steps::located), unfolding(setting_places::specs::Places::fuse_of))]
fn location_of(layout: Layout, s: DeviceSetting, bit: u32) -> Location
    requires { bit < bits_of s.setting }
    ensures { (result.index ≡ byte_of s.device.device layout (fuse_of s.device.device s.setting bit))
        × (result.bit ≡ bit_in s.device.device layout (fuse_of s.device.device s.setting bit)) }
{
    let place = place_of(s, bit);
    location_at(s.device, layout, place)
}

// Where bits 2k and 2k+1 of USERCODE stand: bits 6 and 7 of a byte of block 0, rows 6 and 7. No
// device has that byte elsewhere. The layout is tested and not matched: the compiler then makes one code for both.
fn usercode_location(d: KnownDevice, layout: Layout, pair: u32) -> Location
    requires { pair < 16 }
    ensures { (result.index ≡ byte_of d.device layout (fuse_of d.device (Global Usercode) (2 * pair)))
        × (result.bit ≡ bit_in d.device layout (fuse_of d.device (Global Usercode) (2 * pair))) }
{
    let row = 7 - pair / 8;
    let column = 7 - pair % 8;
    if layout.is_readout() {
        return Location {
            index: (row * MAIN_COLUMNS + column) as usize,
            bit: 6,
        };
    }
    let fuse = row * MAIN_ROW_FUSES + column * 8 + 6;
    Location {
        index: (fuse / 8) as usize,
        bit: fuse % 8,
    }
}

// The states of USERCODE's fuses, two at a time.
pub fn usercode_at(d: KnownDevice, layout: Layout, bytes: &[u8]) -> u32
    requires { length bytes.now ≡ bytes_of d.device layout }
    ensures { result ≡ pattern_at d.device layout bytes.now (Global Usercode) }
{
    let mut pattern: u32 = 0;
    for pair in 0..16 {
        let location = usercode_location(d, layout, pair);
        let states = pair_of(bytes, location.index, location.bit);
        pattern += states << (2 * pair);
    }
    pattern
}

// Bits 2k and 2k+1 of USERCODE put in place.
#[tactic(auto, using(crate::proofs::Usercode::by_pairs))]
fn put_usercode_pair(d: KnownDevice, layout: Layout, bytes: &mut [u8], pattern: u32, pair: u32)
    requires { (length bytes.old ≡ bytes_of d.device layout) × (pair < 16) }
    ensures { bytes.new ≡ with_state d.device layout (with_state d.device layout bytes.old
        (fuse_of d.device (Global Usercode) (2 * pair)) (bit_of pattern (2 * pair)))
        (fuse_of d.device (Global Usercode) (2 * pair + 1)) (bit_of pattern (2 * pair + 1)) }
{
    let location = usercode_location(d, layout, pair);
    let states = (pattern >> (2 * pair)) % 4;
    set_pair(bytes, location.index, location.bit, states);
}

// The states of USERCODE's fuses put in place: row 7, then row 6. In a loop of one row, the compiler has
// each byte and bit as constants.
pub fn put_usercode(d: KnownDevice, layout: Layout, bytes: &mut [u8], pattern: u32)
    requires { length bytes.old ≡ bytes_of d.device layout }
    ensures { bytes.new ≡ with_pattern d.device layout bytes.old (Global Usercode) pattern }
{
    for pair in 0..8 {
        put_usercode_pair(d, layout, bytes, pattern, pair);
    }
    for pair in 8..16 {
        put_usercode_pair(d, layout, bytes, pattern, pair);
    }
}

// The states of a setting's fuses, lowest bit first.
pub fn pattern_at(layout: Layout, bytes: &[u8], s: DeviceSetting) -> u32
    requires { length bytes.now ≡ bytes_of s.device.device layout }
    ensures { result ≡ pattern_at s.device.device layout bytes.now s.setting }
{
    if let Setting::Global(GlobalField::Usercode) = s.setting {
        return usercode_at(s.device, layout, bytes);
    }
    let width = bits_of(s.setting);
    let mut pattern: u32 = 0;
    for bit in 0..width {
        let location = location_of(layout, s, bit);
        let state = bit_of(bytes, location.index, location.bit);
        pattern += state << bit;
    }
    pattern
}

// The states of a setting's fuses put in place.
pub fn put_pattern(layout: Layout, bytes: &mut [u8], s: DeviceSetting, pattern: u32)
    requires { length bytes.old ≡ bytes_of s.device.device layout }
    ensures { bytes.new ≡ with_pattern s.device.device layout bytes.old s.setting pattern }
{
    if let Setting::Global(GlobalField::Usercode) = s.setting {
        put_usercode(s.device, layout, bytes, pattern);
        return;
    }
    let last = bits_of(s.setting);
    for bit in 0..last {
        let location = location_of(layout, s, bit);
        let state = (pattern >> bit) % 2;
        set_bit(bytes, location.index, location.bit, state);
    }
}

// The bits of a byte above a width. If the byte itself were passed, each caller would show the same bound where it
// looks the byte up.
pub fn above_width(bytes: &[u8], index: usize, width: u32) -> u32
    requires { (index < length bytes.now) × (width < 32) }
    ensures { result ≡ get_or bytes.now index 0 / 2 ^ width }
{
    bytes[index] as u32 >> width
}

// Whether every byte that holds the setting has 8 bits. Literals and wire-ANDs, of one bit
// each, lie in narrower ones too.
#[tactic(auto, using(crate::proofs::AboveWidth::wide), unfolding(setting_places::specs::Places::bits_of))]
fn in_whole_bytes(s: DeviceSetting) -> bool
    ensures { (result ≡ true → (b : ℕ) → b < bits_of s.setting → width_of (place_of s.setting b).byte ≡ 8)
        × (result ≡ false → bits_of s.setting ≡ 1) }
{
    match s.setting {
        Setting::Literal { .. } => false,
        Setting::WireAnd { .. } => false,
        Setting::Macrocell { .. } => true,
        Setting::Block { .. } => true,
        Setting::Global(_) => true,
    }
}

// The lowest index of a readout byte that holds the setting and has a bit above its width.
pub fn above_of(readout: &[u8], s: DeviceSetting) -> Option<usize>
    requires { length readout.now ≡ bytes_of s.device.device Readout }
    ensures { result ≡ below (length readout.now) (above_of s.device.device readout.now s.setting) }
{
    if in_whole_bytes(s) {
        return None;
    }
    let byte = place_of(s, 0).byte;
    let index = index_of_byte(s.device, byte) as usize;
    let above = above_width(readout, index, width_of(byte));
    (above != 0).then_some(index)
}
