//! Why no room was reserved.
use std::alloc::AllocError;
use std::error::Error;
use std::fmt;

/// Why rows could not be reserved. The marks stay as they were.
#[derive(Clone, Copy, Debug, PartialEq, Eq)]
pub enum RowFault {
    /// Out of memory.
    NoMemory,
    /// The live rows and those asked for are together more than the limit.
    TableFull {
        /// How many they are together.
        rows: u64,
    },
}

impl fmt::Display for RowFault {
    fn fmt<W: fmt::Write>(&self, f: &mut fmt::Formatter<W>) -> fmt::Result {
        match self {
            RowFault::NoMemory => f.write_str("out of memory"),
            RowFault::TableFull { rows } => write!(f, "table full: {rows} rows"),
        }
    }
}

impl Error for RowFault {}

impl From<AllocError> for RowFault {
    ghost use Rattle.std.specs.Prelude.{◌≡◌};
    ghost use Rattle.ss_marks.specs.declared.fault.RowFault.TheVariants as fault;

    ghost from_gives = { λ _ f. f ≡ fault.NoMemory };

    fn from(_refused: AllocError) -> RowFault {
        RowFault::NoMemory
    }
}
