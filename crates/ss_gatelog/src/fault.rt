ghost use Rattle.std.specs.Prelude.{◌≡◌};
ghost use Rattle.ss_gatelog.specs.declared.fault.LogFault.TheVariants as log_fault;
ghost use Rattle.ss_gatelog.specs.declared.fault.RecordsFault.TheVariants as records_fault;

use std::alloc::AllocError;
use std::error::Error;
use std::fmt;

/// Why a call of a log failed.
#[derive(Clone, Copy, Debug, PartialEq, Eq)]
pub enum LogFault {
    /// The disk's count of faults rose.
    DiskFault,
    /// A record would take `need` bytes, its gate and length among them, and there is room for
    /// `room`.
    LogFull { need: u64, room: u64 },
    /// An open gate stands at `at`, and no record fits after it.
    Damaged { at: u64 },
}

impl fmt::Display for LogFault {
    fn fmt<W: fmt::Write>(&self, f: &mut fmt::Formatter<W>) -> fmt::Result {
        match self {
            LogFault::DiskFault => write!(f, "disk fault"),
            LogFault::LogFull { need, room } => {
                write!(f, "log full: need {need} bytes, room for {room}")
            },
            LogFault::Damaged { at } => write!(f, "damaged at {at}"),
        }
    }
}

impl Error for LogFault {}

impl From<ss_device::DiskFault> for LogFault {
    ghost from_gives = { λ _ fault. fault ≡ log_fault.DiskFault };

    fn from(_fault: ss_device::DiskFault) -> Self {
        LogFault::DiskFault
    }
}

/// Why the records of a file were not read on.
#[derive(Clone, Copy, Debug, PartialEq, Eq)]
pub enum RecordsFault {
    /// There was not enough memory for a record.
    NoMemory,
    /// The disk's count of faults rose.
    DiskFault,
    /// An open gate stands at `at`, and no record fits after it.
    Damaged { at: u64 },
}

impl fmt::Display for RecordsFault {
    fn fmt<W: fmt::Write>(&self, f: &mut fmt::Formatter<W>) -> fmt::Result {
        match self {
            RecordsFault::NoMemory => write!(f, "out of memory"),
            RecordsFault::DiskFault => write!(f, "disk fault"),
            RecordsFault::Damaged { at } => write!(f, "damaged at {at}"),
        }
    }
}

impl Error for RecordsFault {}

impl From<ss_device::DiskFault> for RecordsFault {
    ghost from_gives = { λ _ fault. fault ≡ records_fault.DiskFault };

    fn from(_fault: ss_device::DiskFault) -> Self {
        RecordsFault::DiskFault
    }
}

impl From<AllocError> for RecordsFault {
    ghost from_gives = { λ _ fault. fault ≡ records_fault.NoMemory };

    fn from(_error: AllocError) -> Self {
        RecordsFault::NoMemory
    }
}
