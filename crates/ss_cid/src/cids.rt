//! A list of CIDs.
ghost use Rattle.std.specs.Prelude.{◌≡◌, ◌<◌, ◌^◌, ◌↔◌, Some, [], ◌∷◌, ◌++◌, length, take, slice_get, All, IsTrue, IfOk, OnOk, OnErr};
ghost use Rattle.ss_cid.specs.Cid.{IsCid};

use crate::cid::Cid;
use crate::memory::NoMemory;
use std::alloc::Global;
use std::marker::Model;

/// A list of CIDs, which contracts see as a list of byte lists.
#[derive(Debug, Drop)]
pub struct Cids {
    list: Vec<Cid>,
}

impl Model for Cids {
    ghost use Rattle.std.specs.Prelude.{List, ℕ, All};
    ghost use Rattle.ss_cid.specs.Cid.{IsCid};

    ghost Value = { List (List ℕ) };

    ghost view = { λ c. c.list.items };

    ghost invariant = { λ c. All IsCid c.list.items };
}

impl Cids {
    /// No CIDs, which takes no memory.
    pub fn new(alloc: Global) -> Cids
        ensures { result ≡ [] }
    {
        Cids {
            list: Vec::new(alloc),
        }
    }

    /// Appends a CID. Out of memory, the list stays as it was.
    pub fn push(&mut self, cid: Cid) -> Result<(), NoMemory>
        ensures ok { OnOk result (self.new ≡ self.old ++ cid ∷ []) }
        ensures err { OnErr result (self.new ≡ self.old) }
    {
        self.list.push(cid)?;
        Ok(())
    }

    /// Appends CIDs. Out of memory, the list stays as it was.
    pub fn extend(&mut self, more: &Cids) -> Result<(), NoMemory>
        ensures ok { OnOk result (self.new ≡ self.old ++ more.now) }
        ensures err { OnErr result (self.new ≡ self.old) }
    {
        // `len` ensures that each CID is well formed.
        prove!(more.len() < usize::MAX);
        self.list.extend_from_slice(more.as_slice())?;
        Ok(())
    }

    /// Takes away all CIDs but the first `len`, if there are more.
    pub fn truncate(&mut self, len: usize)
        ensures { self.new ≡ take len self.old }
    {
        self.list.truncate(len);
    }

    /// How many CIDs there are.
    pub fn len(&self) -> usize
        ensures value { result ≡ length self.now }
        ensures few { result < 2 ^ 63 }
        ensures cids { All IsCid self.now }
    {
        self.list.len()
    }

    /// Whether there is no CID.
    pub fn is_empty(&self) -> bool
        ensures { IsTrue result ↔ (self.now ≡ []) }
    {
        self.list.is_empty()
    }

    /// The CID at index `i`, counted from 0.
    pub fn at(&self, i: usize) -> Cid
        requires { i < length self.now }
        ensures { slice_get self.now i ≡ Some result }
    {
        self.list[i]
    }

    /// The CIDs as a slice.
    pub fn as_slice(&self) -> &[Cid]
        ensures { result.now ≡ self.now }
    {
        self.list.as_slice()
    }

    /// A copy in memory of its own.
    pub fn duplicate(&self) -> Result<Cids, NoMemory>
        ensures { IfOk result (λ copy. copy ≡ self.now) }
    {
        Ok(Cids {
            list: Vec::from_slice(*self.list.allocator(), self.list.as_slice())?,
        })
    }
}
