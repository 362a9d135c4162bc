//! The pairs of a tree.
ghost use Rattle.std.specs.Prelude.{◌≡◌, ◌<◌, ◌↔◌, [], ◌∷◌, ◌++◌, length, slice_get, Some, OnOk, OnErr, IsTrue};

use ss_cid::{Bytes, NoMemory};
use std::alloc::Global;
use std::marker::Model;

/// Keys and their values, in the order of a walk. Contracts see them as a list of pairs.
#[derive(Debug, Drop)]
pub struct Pairs {
    list: Vec<(Bytes, Bytes)>,
}

impl Model for Pairs {
    ghost use Rattle.std.specs.Prelude.{List, ℕ};

    ghost Value = { List (List ℕ × List ℕ) };

    ghost view = { λ p. p.list.items };
}

impl Pairs {
    /// No pairs.
    pub(crate) fn new(alloc: Global) -> Pairs
        ensures { result ≡ [] }
    {
        Pairs {
            list: Vec::new(alloc),
        }
    }

    /// Appends a pair. Out of memory, the list stays as it was.
    pub(crate) fn push(&mut self, key: Bytes, value: Bytes) -> Result<(), NoMemory>
        ensures ok { OnOk result (self.new ≡ self.old ++ (key, value) ∷ []) }
        ensures err { OnErr result (self.new ≡ self.old) }
    {
        self.list.push((key, value))?;
        Ok(())
    }

    /// How many pairs there are.
    pub fn len(&self) -> usize
        ensures { result ≡ length self.now }
    {
        self.list.len()
    }

    /// Whether there is none.
    pub fn is_empty(&self) -> bool
        ensures { IsTrue result ↔ (self.now ≡ []) }
    {
        self.list.is_empty()
    }

    /// The key and the bytes of the value at a position in the list.
    pub fn at(&self, i: usize) -> (&[u8], &[u8])
        requires { i < length self.now }
        ensures { slice_get self.now i ≡ Some (result.0.now, result.1.now) }
    {
        let (key, value) = &self.list[i];
        (key.as_slice(), value.as_slice())
    }
}
