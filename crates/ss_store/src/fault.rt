ghost use Rattle.std.specs.Prelude.{◌≡◌};
ghost use Rattle.ss_store.specs.declared.fault.StoreFault.TheVariants as fault;

use ss_cid::NoMemory;
use ss_gatelog::{LogFault, RecordsFault};
use std::error::Error;
use std::fmt;

/// Why a call of a store failed.
#[derive(Clone, Copy, Debug, PartialEq, Eq)]
pub enum StoreFault {
    /// Out of memory.
    NoMemory,
    /// The disk's count of faults rose.
    DiskFault,
    /// The record would take `need` bytes of the log in file `file`, its gate and length included, and there is room for
    /// `room`.
    LogFull { file: u8, need: u64, room: u64 },
    /// The file is damaged: the record whose gate is at `at` is the first that is invalid.
    Damaged { file: u8, at: u64 },
}

impl StoreFault {
    ghost use Rattle.ss_store.specs.Append.{of_log, of_records};

    /// The fault of a store whose log is in this file.
    pub fn of_log(file: u8, fault: LogFault) -> StoreFault
        ensures { result ≡ of_log file fault }
    {
        match fault {
            LogFault::DiskFault => StoreFault::DiskFault,
            LogFault::LogFull { need, room } => StoreFault::LogFull { file, need, room },
            LogFault::Damaged { at } => StoreFault::Damaged { file, at },
        }
    }

    /// The fault of a store whose records are read from this file.
    pub fn of_records(file: u8, fault: RecordsFault) -> StoreFault
        ensures { result ≡ of_records file fault }
    {
        match fault {
            RecordsFault::NoMemory => StoreFault::NoMemory,
            RecordsFault::DiskFault => StoreFault::DiskFault,
            RecordsFault::Damaged { at } => StoreFault::Damaged { file, at },
        }
    }
}

impl fmt::Display for StoreFault {
    fn fmt<W: fmt::Write>(&self, f: &mut fmt::Formatter<W>) -> fmt::Result {
        match self {
            StoreFault::NoMemory => write!(f, "out of memory"),
            StoreFault::DiskFault => write!(f, "disk fault"),
            StoreFault::LogFull { file, need, room } => {
                write!(
                    f,
                    "log of file {file} full: need {need} bytes, room for {room}"
                )
            },
            StoreFault::Damaged { file, at } => write!(f, "file {file} damaged at {at}"),
        }
    }
}

impl Error for StoreFault {}

impl From<NoMemory> for StoreFault {
    ghost from_gives = { λ _ e. e ≡ fault.NoMemory };

    fn from(_error: NoMemory) -> Self {
        StoreFault::NoMemory
    }
}

impl From<ss_device::DiskFault> for StoreFault {
    ghost from_gives = { λ _ e. e ≡ fault.DiskFault };

    fn from(_fault: ss_device::DiskFault) -> Self {
        StoreFault::DiskFault
    }
}
