//! Why an import ends before its CAR does.
ghost use Rattle.std.specs.Prelude.{◌≡◌};
ghost use Rattle.ss_import.specs.Import.{block_number, fault_of};

use ss_car::{CarFault, CarRefusal};
use ss_cid::NoMemory;
use ss_model::HeadReply;

/// Why a section's block is not stored.
#[derive(Clone, Copy, Debug, PartialEq, Eq)]
pub enum BlockFault {
    /// The block, or the one that is kept under its CID, has more bytes than a put may have.
    TooLarge,
    /// The CID's hash function is none that the store knows, or its digest is not of that function's length.
    UnknownHash,
    /// The bytes are not those that the CID names.
    Mismatch,
    /// The block is under a dag-cbor CID, and is not one item.
    Malformed,
}

/// The number of the fault, which goes on with those of a CAR's own: 10 to 12, and 6 for a block that is too large.
impl From<BlockFault> for u8 {
    ghost from_gives = { λ fault number. number ≡ block_number fault };

    fn from(fault: BlockFault) -> u8 {
        match fault {
            BlockFault::TooLarge => 6,
            BlockFault::UnknownHash => 10,
            BlockFault::Mismatch => 11,
            BlockFault::Malformed => 12,
        }
    }
}

/// Why an import ends. An offset is that of the section's length in the CAR, in bytes from 0; 0 for the header.
#[derive(Clone, Copy, Debug, PartialEq, Eq)]
pub enum ImportFault {
    /// Out of memory.
    NoMemory,
    /// The source failed. Sections that were read and not put yet are not kept.
    ReadFault,
    /// The disk failed.
    DiskFault,
    /// What is wrong with the CAR itself.
    BadCar { fault: CarFault, offset: u64 },
    /// The block of a section is not stored.
    BadBlock { fault: BlockFault, offset: u64 },
    /// The log of this file has room for fewer bytes than the next record takes.
    LogFull { file: u8, need: u64, room: u64 },
    /// So many CIDs would be kept, more than the setting `rows`.
    TableFull { rows: u64 },
    /// A section ends behind byte 2^40.
    TooLong,
    /// The roots are not set as head: the refusal.
    BadHead { reply: HeadReply },
}

impl From<CarRefusal> for ImportFault {
    ghost from_gives = { λ refusal fault. fault ≡ fault_of refusal };

    fn from(refusal: CarRefusal) -> ImportFault {
        let offset = refusal.offset;
        match refusal.fault {
            CarFault::ReadFault => ImportFault::ReadFault,
            CarFault::NoMemory => ImportFault::NoMemory,
            fault => ImportFault::BadCar { fault, offset },
        }
    }
}

impl From<NoMemory> for ImportFault {
    ghost use Rattle.std.specs.Prelude.{◌≡◌};
    ghost use Rattle.ss_import.specs.declared.fault.ImportFault.TheVariants as fault_kind;

    ghost from_gives = { λ _ fault. fault ≡ fault_kind.NoMemory };

    fn from(_refused: NoMemory) -> ImportFault {
        ImportFault::NoMemory
    }
}
