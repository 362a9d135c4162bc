ghost use Rattle.std.specs.Prelude.{◌≡◌, ◌-◌, length};

use ss_cid::NoMemory;
use std::error::Error;
use std::fmt;

/// Why a body could not be read as a record.
#[derive(Clone, Copy, Debug, PartialEq, Eq)]
pub enum RecordFault {
    /// The body is no record's spelling. `at` is the offset, counted from 0, of the first byte of the first
    /// field that does not fit; or the body's length, where it ends early or has bytes too many.
    BadRecord { at: usize },
    /// The memory for the record was not there.
    NoMemory,
}

impl fmt::Display for RecordFault {
    fn fmt<W: fmt::Write>(&self, f: &mut fmt::Formatter<W>) -> fmt::Result {
        match self {
            RecordFault::BadRecord { at } => write!(f, "bad record, at byte {at}"),
            RecordFault::NoMemory => f.write_str("out of memory"),
        }
    }
}

impl Error for RecordFault {}

/// A fault of the bytes that a reader met, by how many of them are left from it on, so that no reader needs
/// to know its offset in the body.
#[derive(Clone, Copy)]
pub(crate) struct Misfit {
    pub left: usize,
}

impl Misfit {
    /// The bytes end early, or are too many.
    pub(crate) const AT_END: Misfit = Misfit { left: 0 };

    /// The field that `bytes` begin with does not fit.
    pub(crate) fn at(bytes: &[u8]) -> Misfit
        ensures { result.left ≡ length bytes.now }
    {
        Misfit { left: bytes.len() }
    }

    /// The offset of the fault in bytes of this length.
    pub(crate) fn place(self, len: usize) -> usize
        ensures { result ≡ len - self.left }
    {
        len.saturating_sub(self.left)
    }
}

/// Why a reader that takes memory stopped.
#[derive(Clone, Copy)]
pub(crate) enum Fault {
    Bad(Misfit),
    NoMemory,
}

impl From<Misfit> for Fault {
    ghost use Rattle.ss_records.specs.declared.fault.Fault.TheVariants as fault;

    ghost from_gives = { λ misfit e. e ≡ fault.Bad misfit };

    fn from(misfit: Misfit) -> Fault {
        Fault::Bad(misfit)
    }
}

impl From<NoMemory> for Fault {
    ghost use Rattle.ss_records.specs.declared.fault.Fault.TheVariants as fault;

    ghost from_gives = { λ _ e. e ≡ fault.NoMemory };

    fn from(_wanting: NoMemory) -> Fault {
        Fault::NoMemory
    }
}
