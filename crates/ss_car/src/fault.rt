//! Why a CAR is refused, or not written.
ghost use Rattle.std.specs.Prelude.{◌≡◌};
ghost use Rattle.ss_car.specs.Car.{number_of};

use ss_cid::NoMemory;
use ss_io::Failed;
use std::alloc::AllocError;
use std::error::Error;
use std::fmt;

/// What is wrong with a CAR, or why it was not read.
#[derive(Clone, Copy, Debug, PartialEq, Eq)]
pub enum CarFault {
    /// The source failed.
    ReadFault,
    /// The input ends inside the header or a section.
    Truncated,
    /// The header is no map with exactly the keys `roots`, an array of links, and `version`, a number.
    BadHeader,
    /// The header's version is not 1.
    BadVersion { version: u64 },
    /// The length of a section is 0.
    ZeroSection,
    /// A header of more than 1,048,576 bytes, or a section of more than 8,388,608.
    TooLarge,
    /// A section does not begin with a CID.
    BadCid,
    /// Out of memory.
    NoMemory,
    /// A length has more than nine bytes or is not in its shortest form.
    BadLength,
}

impl CarFault {
    /// The refusal of what begins at this offset.
    pub(crate) fn at(self, offset: u64) -> CarRefusal
        ensures { result ≡ record { fault = self; offset = offset } }
    {
        CarRefusal {
            fault: self,
            offset,
        }
    }
}

/// The number of the fault, from 1, in the order of the variants.
impl From<CarFault> for u8 {
    ghost from_gives = { λ fault number. number ≡ number_of fault };

    fn from(fault: CarFault) -> u8 {
        match fault {
            CarFault::ReadFault => 1,
            CarFault::Truncated => 2,
            CarFault::BadHeader => 3,
            CarFault::BadVersion { .. } => 4,
            CarFault::ZeroSection => 5,
            CarFault::TooLarge => 6,
            CarFault::BadCid => 7,
            CarFault::NoMemory => 8,
            CarFault::BadLength => 9,
        }
    }
}

impl fmt::Display for CarFault {
    fn fmt<W: fmt::Write>(&self, f: &mut fmt::Formatter<W>) -> fmt::Result {
        match self {
            CarFault::ReadFault => f.write_str("the source failed"),
            CarFault::Truncated => f.write_str("the input ends early"),
            CarFault::BadHeader => f.write_str("the header is no map of roots and version"),
            CarFault::BadVersion { version } => write!(f, "CAR version {version}"),
            CarFault::ZeroSection => f.write_str("a section of no bytes"),
            CarFault::TooLarge => f.write_str("a header or a section is too large"),
            CarFault::BadCid => f.write_str("a section does not begin with a CID"),
            CarFault::NoMemory => f.write_str("out of memory"),
            CarFault::BadLength => f.write_str("a length is not in its shortest form"),
        }
    }
}

impl Error for CarFault {}

/// The first refusal of a CAR.
#[derive(Clone, Copy, Debug, PartialEq, Eq)]
pub struct CarRefusal {
    /// What is wrong.
    pub fault: CarFault,
    /// The offset of the first byte of what is refused: 0 for the header, that of its length for a section. Offsets count
    /// bytes from 0.
    pub offset: u64,
}

impl fmt::Display for CarRefusal {
    fn fmt<W: fmt::Write>(&self, f: &mut fmt::Formatter<W>) -> fmt::Result {
        write!(f, "{}, at byte {}", self.fault, self.offset)
    }
}

impl Error for CarRefusal {}

impl From<Failed> for CarFault {
    ghost use Rattle.std.specs.Prelude.{◌≡◌};
    ghost use Rattle.ss_car.specs.declared.fault.CarFault.TheVariants.{ReadFault as read_fault};

    ghost from_gives = { λ _ fault. fault ≡ read_fault };

    fn from(_failed: Failed) -> CarFault {
        CarFault::ReadFault
    }
}

impl From<AllocError> for CarFault {
    ghost use Rattle.std.specs.Prelude.{◌≡◌};
    ghost use Rattle.ss_car.specs.declared.fault.CarFault.TheVariants.{NoMemory as no_memory};

    ghost from_gives = { λ _ fault. fault ≡ no_memory };

    fn from(_refused: AllocError) -> CarFault {
        CarFault::NoMemory
    }
}

impl From<NoMemory> for CarFault {
    ghost use Rattle.std.specs.Prelude.{◌≡◌};
    ghost use Rattle.ss_car.specs.declared.fault.CarFault.TheVariants.{NoMemory as no_memory};

    ghost from_gives = { λ _ fault. fault ≡ no_memory };

    fn from(_refused: NoMemory) -> CarFault {
        CarFault::NoMemory
    }
}

/// Why a header or a section was not written.
#[derive(Clone, Copy, Debug, PartialEq, Eq)]
pub enum CarWriteFault {
    /// The sink failed.
    WriteFault,
    /// Out of memory.
    NoMemory,
}

impl fmt::Display for CarWriteFault {
    fn fmt<W: fmt::Write>(&self, f: &mut fmt::Formatter<W>) -> fmt::Result {
        f.write_str(match self {
            CarWriteFault::WriteFault => "the sink failed",
            CarWriteFault::NoMemory => "out of memory",
        })
    }
}

impl Error for CarWriteFault {}

impl From<Failed> for CarWriteFault {
    ghost use Rattle.std.specs.Prelude.{◌≡◌};
    ghost use Rattle.ss_car.specs.declared.fault.CarWriteFault.TheVariants.{WriteFault as write_fault};

    ghost from_gives = { λ _ fault. fault ≡ write_fault };

    fn from(_failed: Failed) -> CarWriteFault {
        CarWriteFault::WriteFault
    }
}

impl From<AllocError> for CarWriteFault {
    ghost use Rattle.std.specs.Prelude.{◌≡◌};
    ghost use Rattle.ss_car.specs.declared.fault.CarWriteFault.TheVariants.{NoMemory as no_memory};

    ghost from_gives = { λ _ fault. fault ≡ no_memory };

    fn from(_refused: AllocError) -> CarWriteFault {
        CarWriteFault::NoMemory
    }
}

impl From<NoMemory> for CarWriteFault {
    ghost use Rattle.std.specs.Prelude.{◌≡◌};
    ghost use Rattle.ss_car.specs.declared.fault.CarWriteFault.TheVariants.{NoMemory as no_memory};

    ghost from_gives = { λ _ fault. fault ≡ no_memory };

    fn from(_refused: NoMemory) -> CarWriteFault {
        CarWriteFault::NoMemory
    }
}
