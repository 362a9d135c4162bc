//! What a node has for a key.
ghost use Rattle.std.specs.Prelude.{IfOk, ◌≡◌};
ghost use Rattle.ss_hamt.specs.Node.{found_of};

use crate::pointer::Entry;
use ss_cid::{Bytes, Cid, NoMemory};
use std::alloc::Global;

/// What a node has for a key, in memory of its own: a child that leads on, or the value, if there
/// is one.
#[derive(Debug, Drop)]
pub(crate) enum Found {
    Child(Cid),
    Value(Option<Bytes>),
}

impl Found {
    /// A copy of what was read.
    pub fn copy(alloc: Global, entry: &Entry<'_>) -> Result<Found, NoMemory>
        ensures { IfOk result (λ found. found ≡ found_of entry.now) }
    {
        match entry {
            Entry::Child(child) => Ok(Found::Child(*child)),
            Entry::Value(Some(value)) => Ok(Found::Value(Some(Bytes::from_slice(alloc, value)?))),
            Entry::Value(None) => Ok(Found::Value(None)),
        }
    }
}
