//! The values of a tree.
ghost use Rattle.std.specs.Prelude.{◌≡◌, ◌<◌, ◌↔◌, [], ◌∷◌, ◌++◌, length, slice_get, Some, OnOk, OnErr, IsTrue};

use ss_cid::{Bytes, NoMemory};
use std::alloc::Global;
use std::marker::Model;

/// Values with their indices, in the order of a walk. Contracts see them as a list of pairs.
#[derive(Debug, Drop)]
pub struct Values {
    list: Vec<(u64, Bytes)>,
}

impl Model for Values {
    ghost use Rattle.std.specs.Prelude.{List, ℕ};

    ghost Value = { List (ℕ × List ℕ) };

    ghost view = { λ v. v.list.items };
}

impl Values {
    /// No values.
    pub(crate) fn new(alloc: Global) -> Values
        ensures { result ≡ [] }
    {
        Values {
            list: Vec::new(alloc),
        }
    }

    /// Appends a value. Out of memory, the list stays as it was.
    pub(crate) fn push(&mut self, alloc: Global, index: u64, value: &[u8]) -> Result<(), NoMemory>
        ensures ok { OnOk result (self.new ≡ self.old ++ (index, value.now) ∷ []) }
        ensures err { OnErr result (self.new ≡ self.old) }
    {
        let copy = Bytes::from_slice(alloc, value)?;
        self.list.push((index, copy))?;
        Ok(())
    }

    /// How many values there are.
    pub fn len(&self) -> usize
        ensures { result ≡ length self.now }
    {
        self.list.len()
    }

    /// Whether there is none.
    pub fn is_empty(&self) -> bool
        ensures { IsTrue result ↔ (self.now ≡ []) }
    {
        self.list.is_empty()
    }

    /// The index and the bytes of the value at a position in the list.
    pub fn at(&self, i: usize) -> (u64, &[u8])
        requires { i < length self.now }
        ensures { slice_get self.now i ≡ Some (result.0, result.1.now) }
    {
        let (index, value) = &self.list[i];
        (*index, value.as_slice())
    }
}
