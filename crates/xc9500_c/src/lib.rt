// The C interface, declared in include/xc9500.h: numbers are u32, a slice is a pointer and a length, every answer is
// one u64. Each function only calls the function of its name of the crate xc9500, and promises the same in the same
// words, to which .ci/header holds it. tools/staticlib makes the archive.
#![tactic(auto)]

ghost use Rattle.std.specs.Prelude.{◌≡◌, length};
ghost use Rattle.part.specs.Device.{device};
ghost use Rattle.part.specs.Sizes.{sizes_of};
ghost use Rattle.addresses.specs.Convert.{address_of_fuse, fuse_of_address};
ghost use Rattle.image.specs.Image.{fuse_sum, zero_count};
ghost use Rattle.part.specs.Outcome.{written};
ghost use Rattle.readout.specs.Readout.{to_readout, readout_of, to_image, image_of};
ghost use Rattle.settings.specs.Operations.{count_of_settings};
ghost use Rattle.setting_places.specs.Operations.{located_by_number};
ghost use Rattle.fuse_settings.specs.Operations.{setting_at_fuse};
ghost use Rattle.jedec_writer.specs.Pattern.{to_text, with_text};
ghost use Rattle.jedec_reader.specs.Reader.{to_image_from_text, image_in};
ghost use Rattle.setting_bits.specs.declared.Layout.TheVariants.{Image, Readout};
ghost use Rattle.edit_by_number.specs.ByNumber.{read_pattern, set_pattern, with_numbered};
ghost use Rattle.xc9500.specs.Packed.{packed, address_and_bit, fuse_and_address, itself};
ghost use Rattle.xc9500.specs.Packed.{no_result, or_none, setting_and_bit, fuses_in, image_bytes_in, readout_bytes_in};
ghost use Rattle.xc9500.specs.Packed.{text_bytes_in};

// How many fuses a device has.
#[unsafe(no_mangle)]
pub extern "C" fn xc9500_fuse_count(blocks: u32, class: u32) -> u64
    ensures { result ≡ packed fuses_in (sizes_of (device blocks class)) }
{
    xc9500::xc9500_fuse_count(blocks, class)
}

// How many bytes an image of a device has.
#[unsafe(no_mangle)]
pub extern "C" fn xc9500_image_bytes(blocks: u32, class: u32) -> u64
    ensures { result ≡ packed image_bytes_in (sizes_of (device blocks class)) }
{
    xc9500::xc9500_image_bytes(blocks, class)
}

// How many bytes a readout of a device has.
#[unsafe(no_mangle)]
pub extern "C" fn xc9500_readout_bytes(blocks: u32, class: u32) -> u64
    ensures { result ≡ packed readout_bytes_in (sizes_of (device blocks class)) }
{
    xc9500::xc9500_readout_bytes(blocks, class)
}

// How many bytes the text of an image of a device has.
#[unsafe(no_mangle)]
pub extern "C" fn xc9500_text_bytes(blocks: u32, class: u32) -> u64
    ensures { result ≡ packed text_bytes_in (sizes_of (device blocks class)) }
{
    xc9500::xc9500_text_bytes(blocks, class)
}

// The address times 8 plus the bit of a fuse.
#[unsafe(no_mangle)]
pub extern "C" fn xc9500_address_of_fuse(blocks: u32, class: u32, fuse: u32) -> u64
    ensures { result ≡ packed address_and_bit (address_of_fuse (device blocks class) fuse) }
{
    xc9500::xc9500_address_of_fuse(blocks, class, fuse)
}

// The fuse of an address and a bit.
#[unsafe(no_mangle)]
pub extern "C" fn xc9500_fuse_of_address(blocks: u32, class: u32, address: u32, bit: u32) -> u64
    ensures { result ≡ packed itself (fuse_of_address (device blocks class) address bit) }
{
    xc9500::xc9500_fuse_of_address(blocks, class, address, bit)
}

// The fuse sum of an image.
#[unsafe(no_mangle)]
pub extern "C" fn xc9500_fuse_sum(blocks: u32, class: u32, image: &[u8]) -> u64
    ensures { result ≡ packed itself (fuse_sum (device blocks class) image.now) }
{
    xc9500::xc9500_fuse_sum(blocks, class, image)
}

// The number of fuses at 0 of an image.
#[unsafe(no_mangle)]
pub extern "C" fn xc9500_zero_count(blocks: u32, class: u32, image: &[u8]) -> u64
    ensures { result ≡ packed itself (zero_count (device blocks class) image.now) }
{
    xc9500::xc9500_zero_count(blocks, class, image)
}

// The readout of an image, put into `readout`.
#[unsafe(no_mangle)]
pub extern "C" fn xc9500_image_to_readout(
    blocks: u32,
    class: u32,
    image: &[u8],
    readout: &mut [u8],
) -> u64
    ensures value { result ≡ packed no_result (to_readout (device blocks class) image.now readout.old) }
    ensures readout_after { readout.new ≡ written (to_readout (device blocks class) image.now
        readout.old) (readout_of (device blocks class) image.now) readout.old }
{
    xc9500::xc9500_image_to_readout(blocks, class, image, readout)
}

// The image of a readout, put into `image`.
#[unsafe(no_mangle)]
pub extern "C" fn xc9500_readout_to_image(
    blocks: u32,
    class: u32,
    readout: &[u8],
    image: &mut [u8],
) -> u64
    ensures value { result ≡ packed no_result (to_image (device blocks class) readout.now image.old) }
    ensures image_after { image.new ≡ written (to_image (device blocks class) readout.now
        image.old) (image_of (device blocks class) readout.now) image.old }
{
    xc9500::xc9500_readout_to_image(blocks, class, readout, image)
}

// The JEDEC text of an image, put at the start of `text`: how many bytes it has.
#[unsafe(no_mangle)]
pub extern "C" fn xc9500_image_to_text(
    blocks: u32,
    class: u32,
    image: &[u8],
    text: &mut [u8],
) -> u64
    ensures value { result ≡ packed itself (to_text (device blocks class) image.now (length text.old)) }
    ensures text_after { text.new ≡ written (to_text (device blocks class) image.now (length text.old))
        (with_text (device blocks class) image.now text.old) text.old }
{
    xc9500::xc9500_image_to_text(blocks, class, image, text)
}

// The image that a JEDEC text describes, put into `image`.
#[unsafe(no_mangle)]
pub extern "C" fn xc9500_text_to_image(
    blocks: u32,
    class: u32,
    text: &[u8],
    image: &mut [u8],
) -> u64
    ensures value { result ≡ packed no_result (to_image_from_text (device blocks class) text.now image.old) }
    ensures image_after { image.new ≡ written (to_image_from_text (device blocks class) text.now
        image.old) (image_in (device blocks class) text.now) image.old }
{
    xc9500::xc9500_text_to_image(blocks, class, text, image)
}

// How many settings a device has.
#[unsafe(no_mangle)]
pub extern "C" fn xc9500_setting_count(blocks: u32, class: u32) -> u64
    ensures { result ≡ packed itself (count_of_settings (device blocks class)) }
{
    xc9500::xc9500_setting_count(blocks, class)
}

// The fuse of a bit of a setting times 2^20, plus its address times 8, plus its bit, by setting number.
#[unsafe(no_mangle)]
pub extern "C" fn xc9500_setting_fuse(blocks: u32, class: u32, setting: u32, bit: u32) -> u64
    ensures { result ≡ packed (or_none fuse_and_address) (located_by_number (device blocks class) setting bit) }
{
    xc9500::xc9500_setting_fuse(blocks, class, setting, bit)
}

// The number of the setting at a fuse times 32 plus the bit.
#[unsafe(no_mangle)]
pub extern "C" fn xc9500_setting_at_fuse(blocks: u32, class: u32, fuse: u32) -> u64
    ensures { result ≡ packed (or_none (setting_and_bit (device blocks class)))
        (setting_at_fuse (device blocks class) fuse) }
{
    xc9500::xc9500_setting_at_fuse(blocks, class, fuse)
}

// The pattern of a setting in an image, by setting number.
#[unsafe(no_mangle)]
pub extern "C" fn xc9500_read_in_image(blocks: u32, class: u32, image: &[u8], setting: u32) -> u64
    ensures { result ≡ packed itself (read_pattern (device blocks class) Image image.now setting) }
{
    xc9500::xc9500_read_in_image(blocks, class, image, setting)
}

// A setting set to a pattern in an image, by setting number.
#[unsafe(no_mangle)]
pub extern "C" fn xc9500_set_in_image(
    blocks: u32,
    class: u32,
    image: &mut [u8],
    setting: u32,
    pattern: u32,
) -> u64
    ensures value { result ≡ packed no_result (set_pattern (device blocks class) Image image.old setting pattern) }
    ensures image_after { image.new ≡ written (set_pattern (device blocks class) Image image.old setting pattern)
        (with_numbered (device blocks class) Image image.old setting pattern) image.old }
{
    xc9500::xc9500_set_in_image(blocks, class, image, setting, pattern)
}

// The pattern of a setting in a readout, by setting number.
#[unsafe(no_mangle)]
pub extern "C" fn xc9500_read_in_readout(
    blocks: u32,
    class: u32,
    readout: &[u8],
    setting: u32,
) -> u64
    ensures { result ≡ packed itself (read_pattern (device blocks class) Readout readout.now setting) }
{
    xc9500::xc9500_read_in_readout(blocks, class, readout, setting)
}

// A setting set to a pattern in a readout, by setting number.
#[unsafe(no_mangle)]
pub extern "C" fn xc9500_set_in_readout(
    blocks: u32,
    class: u32,
    readout: &mut [u8],
    setting: u32,
    pattern: u32,
) -> u64
    ensures value { result ≡ packed no_result (set_pattern (device blocks class) Readout readout.old setting pattern) }
    ensures readout_after { readout.new
        ≡ written (set_pattern (device blocks class) Readout readout.old setting pattern)
        (with_numbered (device blocks class) Readout readout.old setting pattern) readout.old }
{
    xc9500::xc9500_set_in_readout(blocks, class, readout, setting, pattern)
}
