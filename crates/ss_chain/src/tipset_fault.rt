//! Why blocks are no tipset.
use std::error::Error;
use std::fmt;

/// Why blocks are no tipset, in the order in which it is decided. Indices count from 0.
#[derive(Clone, Copy, Debug, PartialEq, Eq)]
pub enum TipsetFault {
    /// There is no block.
    Empty,
    /// There are more than 64 blocks.
    TooMany {
        /// How many blocks there are.
        n: usize,
    },
    /// A CID occurs twice.
    Repeated {
        /// The least index whose CID stands at a lower index too.
        i: usize,
    },
    /// A block is no header.
    NotHeader {
        /// Its index, the least of an invalid block.
        i: usize,
    },
    /// A header has another height than the first one.
    HeightDiffers {
        /// Its index, the least of an invalid block.
        i: usize,
    },
    /// A header has other parents than the first one, or the same in another order.
    ParentsDiffer {
        /// Its index, the least of an invalid block.
        i: usize,
    },
}

impl fmt::Display for TipsetFault {
    fn fmt<W: fmt::Write>(&self, f: &mut fmt::Formatter<W>) -> fmt::Result {
        match self {
            TipsetFault::Empty => f.write_str("a tipset has a block"),
            TipsetFault::TooMany { n } => write!(
                f,
                "a tipset has at most 64 blocks, and here are {n}"
            ),
            TipsetFault::Repeated { i } => write!(f, "block {i} stands earlier too"),
            TipsetFault::NotHeader { i } => write!(f, "block {i} is no header"),
            TipsetFault::HeightDiffers { i } => write!(
                f,
                "block {i} has another height than the first"
            ),
            TipsetFault::ParentsDiffer { i } => write!(
                f,
                "block {i} has other parents than the first"
            ),
        }
    }
}

impl Error for TipsetFault {}
