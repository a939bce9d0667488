// A part: which devices there are, how large each is, where each fuse lies, and why a call is refused.
// The definitions that the contracts cite stand in specs/, the laws about them in proofs/Laws.antt.
#![tactic(auto)]

ghost use Rattle.std.specs.Prelude.{◌≡◌};
ghost use Rattle.part.specs.Device.{known};
ghost use Rattle.part.specs.Answer.{sizes_outcome, refusal_number, refusal_value};
ghost use Rattle.part.specs.Sizes.{sizes_of};

use std::error::Error;
use std::fmt;

pub mod geometry;
pub mod known_device;
pub mod places;
pub mod quotients;

pub use known_device::KnownDevice;

// A device of the family: its number of function blocks, and its output-enable class (0 small, 1 large).
// Any two numbers; twelve pairs are known.
#[derive(Clone, Copy, Debug, PartialEq, Eq)]
pub struct Device {
    pub blocks: u32,
    pub class: u32,
}

// The number of a fuse, as a fuse file counts them.
#[derive(Clone, Copy, Debug, PartialEq, Eq)]
pub struct FuseNumber(pub u32);

// The two kinds of rows of a block: those of its main area, and those of its wire-AND subareas.
#[derive(Clone, Copy, Debug, PartialEq, Eq)]
pub enum Area {
    Main,
    WireAnd,
}

// Where a byte of the device lies: block, area, row and column; in the wire-AND area also the subarea.
#[derive(Clone, Copy, Debug, PartialEq, Eq)]
pub enum BytePlace {
    Main {
        block: u32,
        row: u32,
        column: u32,
    },
    WireAnd {
        block: u32,
        subarea: u32,
        row: u32,
        column: u32,
    },
}

// Where a fuse lies: a byte and one of its bits.
#[derive(Clone, Copy, Debug, PartialEq, Eq)]
pub struct Place {
    pub byte: BytePlace,
    pub bit: u32,
}

// Why a call was refused: a variant for each numbered refusal, with what it returns besides.
#[derive(Clone, Copy, Debug, PartialEq, Eq)]
pub enum Refusal {
    // 1: the block count or the class is unknown
    UnknownDevice,
    // 2: an image or a readout is not of the exact length
    WrongLength,
    // 3: a fuse at or over the count, an address that no byte has, or a bit at or over the byte's width
    NoSuchFuse,
    // 4: no such setting on this device
    NoSuchSetting,
    // 5: a value that is not one of that setting's
    NoSuchValue,
    // 6: a readout byte has a bit above its width: the lowest such index
    BitAboveWidth(u32),
    // 7: the text is too long or of bad form: where
    BadForm(u32),
    // 8: QF is not the device's count, or absent: its field, or ETX
    WrongFuseCount(u32),
    // 9: an L starts before the end of the L before it, or runs past the count: its field
    MisplacedFuseList(u32),
    // 10: C differs from the fuse sum: its field
    WrongFuseSum(u32),
    // 11: the transmission sum differs and is not 0000: ETX
    WrongTransmissionSum(u32),
    // 12: the buffer for the text is too short: the bytes needed
    BufferTooShort(u32),
    // 13: the text has no F, and its Ls do not give every fuse: the first fuse not given
    FuseNotGiven(u32),
}

// How many fuses a device has, and how many bytes an image, a readout and a JEDEC text of it.
#[derive(Clone, Copy, Debug, PartialEq, Eq)]
pub struct Sizes {
    pub fuses: u32,
    pub image_bytes: u32,
    pub readout_bytes: u32,
    pub text_bytes: u32,
}

impl Refusal {
    // The refusal's number in the table of refusals.
    pub fn number(self) -> u32
        ensures { result ≡ refusal_number self }
    {
        match self {
            Refusal::UnknownDevice => 1,
            Refusal::WrongLength => 2,
            Refusal::NoSuchFuse => 3,
            Refusal::NoSuchSetting => 4,
            Refusal::NoSuchValue => 5,
            Refusal::BitAboveWidth(_) => 6,
            Refusal::BadForm(_) => 7,
            Refusal::WrongFuseCount(_) => 8,
            Refusal::MisplacedFuseList(_) => 9,
            Refusal::WrongFuseSum(_) => 10,
            Refusal::WrongTransmissionSum(_) => 11,
            Refusal::BufferTooShort(_) => 12,
            Refusal::FuseNotGiven(_) => 13,
        }
    }

    // What the refusal returns besides its number: 0 where the table says 0.
    pub fn value(self) -> u32
        ensures { result ≡ refusal_value self }
    {
        match self {
            Refusal::UnknownDevice => 0,
            Refusal::WrongLength => 0,
            Refusal::NoSuchFuse => 0,
            Refusal::NoSuchSetting => 0,
            Refusal::NoSuchValue => 0,
            Refusal::BitAboveWidth(index) => index,
            Refusal::BadForm(at) => at,
            Refusal::WrongFuseCount(at) => at,
            Refusal::MisplacedFuseList(at) => at,
            Refusal::WrongFuseSum(at) => at,
            Refusal::WrongTransmissionSum(at) => at,
            Refusal::BufferTooShort(needed) => needed,
            Refusal::FuseNotGiven(fuse) => fuse,
        }
    }
}

impl fmt::Display for Refusal {
    ghost use Rattle.std.specs.Prelude.{Some};
    ghost use Rattle.part.specs.Words.{refusal_text};

    ghost output = { λ r. Some (refusal_text r) };

    fn fmt<W: fmt::Write>(&self, f: &mut fmt::Formatter<W>) -> fmt::Result {
        match self {
            Refusal::UnknownDevice => f.write_str("no device has this block count and class"),
            Refusal::WrongLength => f.write_str("an image or a readout has not its exact length"),
            Refusal::NoSuchFuse => f.write_str("the device has no such fuse, address or bit"),
            Refusal::NoSuchSetting => f.write_str("the device has no such setting"),
            Refusal::NoSuchValue => f.write_str("the setting has no such value"),
            Refusal::BitAboveWidth(index) => {
                write!(f, "readout byte {index} has a bit above its width")
            }
            Refusal::BadForm(at) => write!(f, "the text is too long or of bad form at byte {at}"),
            Refusal::WrongFuseCount(at) => {
                write!(
                    f,
                    "QF is absent or not the fuse count of the device, at byte {at}"
                )
            }
            Refusal::MisplacedFuseList(at) => {
                write!(
                    f,
                    "the L field at byte {at} overlaps another or runs past the fuse count"
                )
            }
            Refusal::WrongFuseSum(at) => write!(f, "C at byte {at} is not the fuse sum"),
            Refusal::WrongTransmissionSum(at) => {
                write!(f, "the transmission sum after byte {at} is wrong")
            }
            Refusal::BufferTooShort(needed) => write!(f, "the text needs {needed} bytes"),
            Refusal::FuseNotGiven(fuse) => {
                write!(f, "the text has no F and does not give fuse {fuse}")
            }
        }
    }
}

impl Error for Refusal {}

impl Device {
    // Whether the device is one of the twelve.
    pub fn is_known(self) -> bool
        ensures { result ≡ known self }
    {
        let c = self.class;
        geometry::is_block_count(self.blocks) & ((c == 0) | (c == 1))
    }
}

// The sizes of a device. Refused: 1.
pub fn sizes_of(d: Device) -> Result<Sizes, Refusal>
    ensures { sizes_outcome result ≡ sizes_of d }
{
    let part = KnownDevice::try_from(d)?;
    Ok(Sizes {
        fuses: part.fuse_count(),
        image_bytes: part.image_bytes(),
        readout_bytes: part.readout_bytes(),
        text_bytes: part.text_bytes(),
    })
}
