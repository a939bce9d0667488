// Demand 3 as a run of calls: a setting is set in an image and straight in its readout, both are converted, and
// settings are read before and after. It cites specs/BothWays.antt here and specs/Demand.antt of crate `edit`.
#![tactic(auto)]

ghost use Rattle.std.specs.Prelude.{◌≡◌};
ghost use Rattle.demand.specs.BothWays.{ReadInBoth, copied, Begun, SetInBoth, BothConverted, BothWays};

use part::{Device, Refusal};
use settings::Setting;
use values::Value;

// What two calls answered, one on an image and one on a readout.
#[derive(Clone, Copy, Debug, PartialEq, Eq)]
pub struct Both<T> {
    pub image: T,
    pub readout: T,
}

// Two calls that read a setting, and two without a result.
pub type BothRead = Both<Result<Value, Refusal>>;

pub type BothDone = Both<Result<(), Refusal>>;

// What the calls before the change answered: the conversion, and reading the other setting.
#[derive(Clone, Copy, Debug, PartialEq, Eq)]
pub struct BeforeAnswer {
    pub converted: Result<(), Refusal>,
    pub other: BothRead,
}

// What the calls of `both_ways` answered.
#[derive(Clone, Copy, Debug, PartialEq, Eq)]
pub struct BothAnswer {
    pub before: BeforeAnswer,
    pub set: BothDone,
    pub converted: BothDone,
    pub read: BothRead,
    pub other: BothRead,
}

// A setting read in an image and in a readout.
fn read_both(d: Device, image: &[u8], readout: &[u8], s: Setting) -> BothRead
    ensures { ReadInBoth d image.now readout.now s result }
{
    Both {
        image: edit::read_in_image(d, image, s),
        readout: edit::read_in_readout(d, readout, s),
    }
}

// A slice copied to another one of the same length; one of another length stands.
fn keep(bytes: &[u8], kept: &mut [u8])
    ensures { kept.new ≡ copied bytes.now kept.old }
{
    if kept.len() == bytes.len() {
        kept.copy_from_slice(bytes);
    }
}

// An image converted to a readout, the readout copied to `kept`, and a setting read in both.
fn begin(d: Device, image: &[u8], readout: &mut [u8], kept: &mut [u8], t: Setting) -> BeforeAnswer
    ensures { Begun d image.now readout.old readout.new kept.old
        kept.new t result }
{
    let converted = readout::image_to_readout(d, image, readout);
    keep(readout, kept);
    let other = read_both(d, image, readout, t);
    BeforeAnswer { converted, other }
}

// A setting set to a value in an image and straight in a readout.
fn set_both(d: Device, image: &mut [u8], readout: &mut [u8], s: Setting, v: Value) -> BothDone
    ensures { SetInBoth d image.old image.new readout.old readout.new s v result }
{
    Both {
        image: edit::set_in_image(d, image, s, v),
        readout: edit::set_in_readout(d, readout, s, v),
    }
}

// An image converted to a readout, and a readout to an image.
fn convert_both(
    d: Device,
    image: &[u8],
    readout: &[u8],
    as_readout: &mut [u8],
    as_image: &mut [u8],
) -> BothDone
    ensures { BothConverted d image.now readout.now as_readout.old
        as_readout.new as_image.old as_image.new result }
{
    Both {
        image: readout::image_to_readout(d, image, as_readout),
        readout: readout::readout_to_image(d, readout, as_image),
    }
}

// Demand 3, run on slices that the caller passes: an image is converted to a readout, which is copied to `kept`;
// setting `t` is read in both; setting `s` is set to `v` in the image and straight in the readout; the changed image is
// converted to `as_readout` and the changed readout to `as_image`; `s` and `t` are read in both. Where a call is
// refused, the calls after it are made all the same.
pub fn both_ways(
    d: Device,
    image: &mut [u8],
    readout: &mut [u8],
    kept: &mut [u8],
    as_readout: &mut [u8],
    as_image: &mut [u8],
    s: Setting,
    v: Value,
    t: Setting,
) -> BothAnswer
    ensures { BothWays d image.old readout.old kept.old
        as_readout.old as_image.old s v t result image.new readout.new
        kept.new as_readout.new as_image.new }
{
    let before = begin(d, image, readout, kept, t);
    let set = set_both(d, image, readout, s, v);
    let converted = convert_both(d, image, readout, as_readout, as_image);
    let read = read_both(d, image, readout, s);
    let other = read_both(d, image, readout, t);
    BothAnswer {
        before,
        set,
        converted,
        read,
        other,
    }
}
