ghost use Rattle.std.specs.Prelude.{◌≡◌};
ghost use Rattle.ss_hash.specs.Digest.{number_of};

use std::error::Error;
use std::fmt;

/// Why a block's bytes are not valid for its CID.
#[derive(Clone, Copy, Debug, PartialEq, Eq)]
pub enum HashFault {
    /// The CID's hash function, by its number in the multicodec table, is none of identity, sha2-256 and
    /// blake2b-256, or is one of the latter two and the digest does not have 32 bytes.
    UnknownHash { code: u64 },
    /// The bytes have this digest, and not the CID's.
    Mismatch { got: [u8; 32] },
    /// The digest of an identity CID and the bytes differ first at this place, counted from 0, which is the
    /// shorter length where one begins with the other.
    NotIdentity { at: usize },
}

/// The number of the fault, from 1, in the order of the variants.
impl From<HashFault> for u8 {
    ghost from_gives = { λ fault number. number ≡ number_of fault };

    fn from(fault: HashFault) -> u8 {
        match fault {
            HashFault::UnknownHash { .. } => 1,
            HashFault::Mismatch { .. } => 2,
            HashFault::NotIdentity { .. } => 3,
        }
    }
}

impl fmt::Display for HashFault {
    fn fmt<W: fmt::Write>(&self, f: &mut fmt::Formatter<W>) -> fmt::Result {
        match self {
            HashFault::UnknownHash { code } => write!(f, "unknown hash function {code:#x}"),
            HashFault::Mismatch { .. } => f.write_str("the bytes have another digest"),
            HashFault::NotIdentity { at } => {
                write!(f, "the bytes differ from the CID's digest at byte {at}")
            }
        }
    }
}

impl Error for HashFault {}
