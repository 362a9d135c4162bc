//! Why bytes or a text are no CID.
ghost use Rattle.std.specs.Prelude.{◌≡◌};
ghost use Rattle.ss_cid.specs.Cid.{number_of};

use std::error::Error;
use std::fmt;

/// Why bytes are no CID, or no varint, or a text is no CID's text. Offsets count bytes from 0.
#[derive(Clone, Copy, Debug, PartialEq, Eq)]
pub enum CidFault {
    /// The input ends early; `at` is its length.
    Short { at: usize },
    /// A varint has more than nine bytes or is not in its shortest form; `at` is the offset of its
    /// first byte.
    LongVarint { at: usize },
    /// The version is not 1. A CID of version 0 begins with the byte 18, which counts as version
    /// 18.
    NotV1 { version: u64 },
    /// The CID would have more than 72 bytes; `len` is the length of its digest.
    TooLong { len: u64 },
    /// The text does not spell a CID; `at` is the offset of the character at fault, or the text's
    /// length.
    BadText { at: usize },
}

/// The number of the fault, from 1, in the order of the variants.
impl From<CidFault> for u8 {
    ghost from_gives = { λ fault number. number ≡ number_of fault };

    fn from(fault: CidFault) -> u8 {
        match fault {
            CidFault::Short { .. } => 1,
            CidFault::LongVarint { .. } => 2,
            CidFault::NotV1 { .. } => 3,
            CidFault::TooLong { .. } => 4,
            CidFault::BadText { .. } => 5,
        }
    }
}

impl fmt::Display for CidFault {
    fn fmt<W: fmt::Write>(&self, f: &mut fmt::Formatter<W>) -> fmt::Result {
        match self {
            CidFault::Short { at } => write!(f, "the CID ends early, at byte {at}"),
            CidFault::LongVarint { at } => {
                write!(f, "the varint at byte {at} is not in its shortest form")
            }
            CidFault::NotV1 { version } => write!(f, "CID version {version}"),
            CidFault::TooLong { len } => write!(f, "a digest of {len} bytes is too long"),
            CidFault::BadText { at } => write!(f, "no CID's text, at character {at}"),
        }
    }
}

impl Error for CidFault {}
