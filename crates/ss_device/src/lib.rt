//! Six files of bytes as a disk, and what a crash may leave of them: the trait that all above stands on.
//!
//! Contracts see a [`Disk`] as its files as a read gives them, a clock, the images that a crash at each moment up to now may
//! leave, a known length of each file, and a count of faults. A disk exposes its files and images or it does not, and each
//! clause on them holds where it does. The known lengths and the count are always exposed.
//!
//! The one contract is that of the trait, in the words of `specs/Disk.antt`. Between two syncs of a file a crash may leave
//! any bytes in each range that was written since, and any length between the old one and that which a read gives, or after
//! a write that failed the end of its range, although a read gives less; all other bytes stay. After a sync that succeeded
//! it leaves what a read gives. A call answers [`DiskFault`] only where the count rose in that call, or stands at its last
//! value, 2^64 - 1, and succeeds only where it stayed. So code that is generic over a disk cannot invent a fault.
//!
//! `specs/Calls.antt` has the words in which a crate above says what several calls of a disk did. The model follows no
//! standard; it is this project's own.
#![tactic(auto)]

mod disk;
mod fault;

pub use disk::{Disk, FILES};
pub use fault::{DiskFault, NoMemory, count};
