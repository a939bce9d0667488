// What the C interface answers: xc9500_c exports these functions, include/xc9500.h declares them. Numbers are u32, each
// answer is one u64. Each function only calls its library function and packs the answer: specs/Packed.antt says how.
// Functions here that differ in one name alone are those whose exports C calls by name.
#![tactic(auto)]

ghost use Rattle.std.specs.Prelude.{◌≡◌, length};
ghost use Rattle.part.specs.Answer.{refusal_number, refusal_value, number_outcome};
ghost use Rattle.addresses.specs.Answer.{address_outcome, fuse_outcome};
ghost use Rattle.part.specs.Answer.{done_outcome};
ghost use Rattle.part.specs.Device.{device};
ghost use Rattle.part.specs.Sizes.{sizes_of};
ghost use Rattle.addresses.specs.Convert.{address_of_fuse, fuse_of_address};
ghost use Rattle.image.specs.Image.{fuse_sum, zero_count};
ghost use Rattle.part.specs.Outcome.{written};
ghost use Rattle.readout.specs.Readout.{to_readout, readout_of, to_image, image_of};
ghost use Rattle.settings.specs.Operations.{count_of_settings};
ghost use Rattle.setting_places.specs.Answer.{bit_outcome};
ghost use Rattle.setting_places.specs.Operations.{located_by_number};
ghost use Rattle.fuse_settings.specs.Operations.{setting_at_fuse};
ghost use Rattle.jedec_writer.specs.Pattern.{to_text, with_text};
ghost use Rattle.jedec_reader.specs.Reader.{to_image_from_text, image_in};
ghost use Rattle.setting_bits.specs.declared.Layout.TheVariants.{Image, Readout};
ghost use Rattle.edit_by_number.specs.ByNumber.{read_pattern, set_pattern, with_numbered};
ghost use Rattle.xc9500.specs.Packed.{packed, refusal_word, address_and_bit, fuse_and_address, itself};
ghost use Rattle.xc9500.specs.Packed.{no_result, or_none, setting_and_bit, fuses_in, image_bytes_in, readout_bytes_in};
ghost use Rattle.xc9500.specs.Packed.{text_bytes_in};

use addresses::{AddressBit, DeviceAddress};
use part::{Device, FuseNumber, KnownDevice, Refusal};
use settings::{DeviceSetting, SettingNumber};

const BIT_56: u64 = 1 << 56;

const BIT_20: u64 = 1 << 20;

// Where a result may be missing: no such bit, no such setting at a fuse.
const NO_RESULT: u64 = BIT_56 - 1;

fn refusal_word(r: Refusal) -> u64
    ensures { result ≡ refusal_word (refusal_number r) (refusal_value r) }
{
    r.number() as u64 * BIT_56 + r.value() as u64
}

// The result of an address and a bit.
fn address_word(at: AddressBit) -> u64
    ensures { result ≡ address_and_bit (at.address.0, at.bit) }
{
    at.address.0 as u64 * 8 + at.bit as u64
}

// The words of the answers that several functions give: a number, and none.
fn number_word(answer: Result<u32, Refusal>) -> u64
    ensures { result ≡ packed itself (number_outcome answer) }
{
    answer.map_or_else(refusal_word, |x| x as u64)
}

fn done_word(answer: Result<(), Refusal>) -> u64
    ensures { result ≡ packed no_result (done_outcome answer) }
{
    answer.map_or_else(refusal_word, |_| 0)
}

// How many fuses a device has.
pub fn xc9500_fuse_count(blocks: u32, class: u32) -> u64
    ensures { result ≡ packed fuses_in (sizes_of (device blocks class)) }
{
    let answer = part::sizes_of(Device { blocks, class });
    answer.map_or_else(refusal_word, |sizes| sizes.fuses as u64)
}

// How many bytes an image of a device has.
pub fn xc9500_image_bytes(blocks: u32, class: u32) -> u64
    ensures { result ≡ packed image_bytes_in (sizes_of (device blocks class)) }
{
    let answer = part::sizes_of(Device { blocks, class });
    answer.map_or_else(refusal_word, |sizes| sizes.image_bytes as u64)
}

// How many bytes a readout of a device has.
pub fn xc9500_readout_bytes(blocks: u32, class: u32) -> u64
    ensures { result ≡ packed readout_bytes_in (sizes_of (device blocks class)) }
{
    let answer = part::sizes_of(Device { blocks, class });
    answer.map_or_else(refusal_word, |sizes| sizes.readout_bytes as u64)
}

// How many bytes the text of an image of a device has.
pub fn xc9500_text_bytes(blocks: u32, class: u32) -> u64
    ensures { result ≡ packed text_bytes_in (sizes_of (device blocks class)) }
{
    let answer = part::sizes_of(Device { blocks, class });
    answer.map_or_else(refusal_word, |sizes| sizes.text_bytes as u64)
}

// The address times 8 plus the bit of a fuse.
pub fn xc9500_address_of_fuse(blocks: u32, class: u32, fuse: u32) -> u64
    ensures { result ≡ packed address_and_bit (address_of_fuse (device blocks class) fuse) }
{
    let answer = addresses::address_of_fuse(Device { blocks, class }, FuseNumber(fuse));
    answer.map_or_else(refusal_word, address_word)
}

// The fuse of an address and a bit.
pub fn xc9500_fuse_of_address(blocks: u32, class: u32, address: u32, bit: u32) -> u64
    ensures { result ≡ packed itself (fuse_of_address (device blocks class) address bit) }
{
    let d = Device { blocks, class };
    let answer = addresses::fuse_of_address(d, DeviceAddress(address), bit);
    answer.map_or_else(refusal_word, |fuse| fuse.0 as u64)
}

// The fuse sum of an image.
pub fn xc9500_fuse_sum(blocks: u32, class: u32, image: &[u8]) -> u64
    ensures { result ≡ packed itself (fuse_sum (device blocks class) image.now) }
{
    number_word(image::fuse_sum(Device { blocks, class }, image))
}

// The number of fuses at 0 of an image.
pub fn xc9500_zero_count(blocks: u32, class: u32, image: &[u8]) -> u64
    ensures { result ≡ packed itself (zero_count (device blocks class) image.now) }
{
    number_word(image::zero_count(Device { blocks, class }, image))
}

// The readout of an image, put into `readout`.
pub fn xc9500_image_to_readout(blocks: u32, class: u32, image: &[u8], readout: &mut [u8]) -> u64
    ensures value { result ≡ packed no_result (to_readout (device blocks class) image.now readout.old) }
    ensures readout_after { readout.new ≡ written (to_readout (device blocks class) image.now
        readout.old) (readout_of (device blocks class) image.now) readout.old }
{
    done_word(readout::image_to_readout(Device { blocks, class }, image, readout))
}

// The image of a readout, put into `image`.
pub fn xc9500_readout_to_image(blocks: u32, class: u32, readout: &[u8], image: &mut [u8]) -> u64
    ensures value { result ≡ packed no_result (to_image (device blocks class) readout.now image.old) }
    ensures image_after { image.new ≡ written (to_image (device blocks class) readout.now
        image.old) (image_of (device blocks class) readout.now) image.old }
{
    done_word(readout::readout_to_image(Device { blocks, class }, readout, image))
}

// The JEDEC text of an image, put at the start of `text`: how many bytes it has.
pub fn xc9500_image_to_text(blocks: u32, class: u32, image: &[u8], text: &mut [u8]) -> u64
    ensures value { result ≡ packed itself (to_text (device blocks class) image.now (length text.old)) }
    ensures text_after { text.new ≡ written (to_text (device blocks class) image.now (length text.old))
        (with_text (device blocks class) image.now text.old) text.old }
{
    number_word(jedec_writer::image_to_text(Device { blocks, class }, image, text))
}

// The image that a JEDEC text describes, put into `image`.
pub fn xc9500_text_to_image(blocks: u32, class: u32, text: &[u8], image: &mut [u8]) -> u64
    ensures value { result ≡ packed no_result (to_image_from_text (device blocks class) text.now image.old) }
    ensures image_after { image.new ≡ written (to_image_from_text (device blocks class) text.now
        image.old) (image_in (device blocks class) text.now) image.old }
{
    done_word(jedec_reader::text_to_image(Device { blocks, class }, text, image))
}

// How many settings a device has.
pub fn xc9500_setting_count(blocks: u32, class: u32) -> u64
    ensures { result ≡ packed itself (count_of_settings (device blocks class)) }
{
    number_word(settings::setting_count(Device { blocks, class }))
}

// The fuse of a bit of a setting times 2^20, plus its address times 8, plus its bit, by setting number.
pub fn xc9500_setting_fuse(blocks: u32, class: u32, setting: u32, bit: u32) -> u64
    ensures { result ≡ packed (or_none fuse_and_address) (located_by_number (device blocks class) setting bit) }
{
    let d = Device { blocks, class };
    match setting_places::fuse_of_numbered_bit(d, SettingNumber(setting), bit) {
        Ok(Some(located)) => located.fuse.0 as u64 * BIT_20 + address_word(located.at),
        Ok(None) => NO_RESULT,
        Err(r) => refusal_word(r),
    }
}

// The number of the setting at a fuse times 32 plus the bit.
pub fn xc9500_setting_at_fuse(blocks: u32, class: u32, fuse: u32) -> u64
    ensures { result ≡ packed (or_none (setting_and_bit (device blocks class)))
        (setting_at_fuse (device blocks class) fuse) }
{
    let d = Device { blocks, class };
    match fuse_settings::setting_at_fuse(d, FuseNumber(fuse)) {
        Ok(Some(named)) => {
            let number = settings::numbers::number_of(DeviceSetting {
                device: KnownDevice { device: d },
                setting: named.setting,
            });
            number.0 as u64 * 32 + named.bit as u64
        }
        Ok(None) => NO_RESULT,
        Err(r) => refusal_word(r),
    }
}

// The pattern of a setting in an image, by setting number.
pub fn xc9500_read_in_image(blocks: u32, class: u32, image: &[u8], setting: u32) -> u64
    ensures { result ≡ packed itself (read_pattern (device blocks class) Image image.now setting) }
{
    number_word(edit_by_number::read_pattern_in_image(
        Device { blocks, class },
        image,
        SettingNumber(setting),
    ))
}

// A setting set to a pattern in an image, by setting number.
pub fn xc9500_set_in_image(
    blocks: u32,
    class: u32,
    image: &mut [u8],
    setting: u32,
    pattern: u32,
) -> u64
    ensures value { result ≡ packed no_result (set_pattern (device blocks class) Image image.old setting pattern) }
    ensures image_after { image.new ≡ written (set_pattern (device blocks class) Image image.old setting pattern)
        (with_numbered (device blocks class) Image image.old setting pattern) image.old }
{
    let d = Device { blocks, class };
    done_word(edit_by_number::set_pattern_in_image(d, image, SettingNumber(setting), pattern))
}

// The pattern of a setting in a readout, by setting number.
pub fn xc9500_read_in_readout(blocks: u32, class: u32, readout: &[u8], setting: u32) -> u64
    ensures { result ≡ packed itself (read_pattern (device blocks class) Readout readout.now setting) }
{
    number_word(edit_by_number::read_pattern_in_readout(
        Device { blocks, class },
        readout,
        SettingNumber(setting),
    ))
}

// A setting set to a pattern in a readout, by setting number.
pub fn xc9500_set_in_readout(
    blocks: u32,
    class: u32,
    readout: &mut [u8],
    setting: u32,
    pattern: u32,
) -> u64
    ensures value { result ≡ packed no_result (set_pattern (device blocks class) Readout readout.old setting pattern) }
    ensures readout_after { readout.new
        ≡ written (set_pattern (device blocks class) Readout readout.old setting pattern)
        (with_numbered (device blocks class) Readout readout.old setting pattern) readout.old }
{
    let d = Device { blocks, class };
    done_word(edit_by_number::set_pattern_in_readout(d, readout, SettingNumber(setting), pattern))
}
