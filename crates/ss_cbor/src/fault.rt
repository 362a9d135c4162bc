//! Why bytes are no item.
ghost use Rattle.std.specs.Prelude.{◌≡◌};
ghost use Rattle.ss_cbor.specs.Fault.{number_of};

use std::error::Error;
use std::fmt;

/// What is wrong with bytes that are no item. The numbers are those that the program prints.
#[derive(Clone, Copy, Debug, PartialEq, Eq)]
pub enum CborKind {
    /// The input ends early.
    Truncated = 1,
    /// An argument that is not in its shortest form, or one of a reserved form.
    LongHead = 2,
    /// A byte string, a text, an array or a map without a length.
    Indefinite = 3,
    /// A tag other than 42.
    OtherTag = 4,
    /// Tag 42 over something else than the byte 00 and one whole CID in a byte string.
    BadLink = 5,
    /// A simple value other than false, true and null, or a float of another width than 64 bits.
    BadSimple = 6,
    /// Bytes after the item.
    Trailing = 7,
    /// More than 2^63 - 1 items would be due.
    CountTooLarge = 8,
}

impl CborKind {
    /// The fault of this kind at an offset.
    pub(crate) fn at(self, at: usize) -> CborFault
        ensures { result ≡ record { kind = self; at = at } }
    {
        CborFault { kind: self, at }
    }
}

impl From<CborKind> for u8 {
    ghost from_gives = { λ kind number. number ≡ number_of kind };

    fn from(kind: CborKind) -> u8 {
        kind as u8
    }
}

/// The first fault of some bytes, from left to right.
#[derive(Clone, Copy, Debug, PartialEq, Eq)]
pub struct CborFault {
    /// What is wrong.
    pub kind: CborKind,
    /// The offset of the head at fault, or of the tag of a bad link; the input's length for `Truncated`; the
    /// first byte after the item for `Trailing`. Offsets count bytes from 0.
    pub at: usize,
}

impl fmt::Display for CborFault {
    fn fmt<W: fmt::Write>(&self, f: &mut fmt::Formatter<W>) -> fmt::Result {
        let what = match self.kind {
            CborKind::Truncated => "the item ends early",
            CborKind::LongHead => "an argument is not in its shortest form",
            CborKind::Indefinite => "an item has no length",
            CborKind::OtherTag => "a tag is not 42",
            CborKind::BadLink => "a link is not a CID",
            CborKind::BadSimple => "a simple value is not false, true or null",
            CborKind::Trailing => "bytes follow the item",
            CborKind::CountTooLarge => "too many items are due",
        };
        write!(f, "{what}, at byte {}", self.at)
    }
}

impl Error for CborFault {}
