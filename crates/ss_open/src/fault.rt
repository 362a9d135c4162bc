ghost use Rattle.std.specs.Prelude.{◌≡◌};
ghost use Rattle.ss_hot.specs.Store.{IsOpeningFault};
ghost use Rattle.ss_open.specs.Opening.{open_fault};

use ss_store::StoreFault;

/// Why a store is not opened or made.
#[derive(Clone, Copy, Debug, PartialEq, Eq)]
pub enum OpenFault {
    /// No settings are committed on the disk.
    NoStore,
    /// Settings are committed on the disk already.
    StoreExists,
    /// A file is damaged: `at` is the offset of the gate of the first record at fault; or 14, that of the settings, where no
    /// record is at fault and more blocks are kept than the settings allow.
    Damaged { file: u8, at: u64 },
    /// The disk's count of faults rose.
    DiskFault,
    /// There was not enough memory.
    NoMemory,
}

// The fault of a store whose log is read.
pub(crate) fn open_fault(fault: StoreFault) -> OpenFault
    requires { IsOpeningFault fault }
    ensures { result ≡ open_fault fault }
{
    match fault {
        StoreFault::NoMemory => OpenFault::NoMemory,
        StoreFault::DiskFault => OpenFault::DiskFault,
        StoreFault::Damaged { file, at } => OpenFault::Damaged { file, at },
        StoreFault::LogFull { .. } => unreachable!(),
    }
}
