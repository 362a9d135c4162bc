//! Blocks that go together.
ghost use Rattle.std.specs.Prelude.{◌≡◌, ◌<◌, ◌^◌, ◌↔◌, Some, [], ◌∷◌, ◌++◌, length, slice_get, All, IsTrue, OnOk, OnErr};
ghost use Rattle.ss_cid.specs.Cid.{IsCid};

use crate::cid::Cid;
use crate::memory::NoMemory;
use std::alloc::Global;
use std::marker::Model;

/// The most pairs that a parcel holds.
const MAX_PAIRS: usize = 0xffff_ffff;

/// A block's CID, and where its bytes lie in the buffer.
#[derive(Clone, Copy, Debug)]
struct Entry {
    cid: Cid,
    start: usize,
    end: usize,
}

/// Blocks that go together, fewer than 2^32: pairs of a CID and bytes, which contracts see as a
/// list.
///
/// The bytes of all blocks lie in one buffer, one after another, so that a parcel takes two
/// allocations and not one for each block.
#[derive(Debug, Drop)]
pub struct Parcel {
    entries: Vec<Entry>,
    buffer: Vec<u8>,
}

impl Model for Parcel {
    ghost use Rattle.std.specs.Prelude.{List, ℕ};

    ghost Value = { List (List ℕ × List ℕ) };

    ghost use Rattle.ss_cid.specs.Parcel.{pairs_of, IsParcel};

    ghost view = { pairs_of };

    ghost invariant = { IsParcel };
}

impl Parcel {
    /// No blocks, which takes no memory.
    pub fn new(alloc: Global) -> Parcel
        ensures { result ≡ [] }
    {
        Parcel {
            entries: Vec::new(alloc),
            buffer: Vec::new(alloc),
        }
    }

    /// Appends a block. Out of memory, or where the parcel holds 2^32 - 1 pairs, it stays as it
    /// was.
    pub fn add(&mut self, cid: Cid, bytes: &[u8]) -> Result<(), NoMemory>
        ensures ok { OnOk result (self.new ≡ self.old ++ (cid, bytes.now) ∷ []) }
        ensures err { OnErr result (self.new ≡ self.old) }
    {
        if self.entries.len() >= MAX_PAIRS {
            return Err(NoMemory);
        }
        self.entries.reserve(1)?;
        let start = self.buffer.len();
        self.buffer.extend_from_slice(bytes)?;
        let end = self.buffer.len();
        self.entries.push_reserved(Entry { cid, start, end });
        Ok(())
    }

    /// Takes all blocks away. Their memory stays, for those that are added next.
    pub fn clear(&mut self)
        ensures { self.new ≡ [] }
    {
        self.entries.clear();
        self.buffer.clear();
    }

    /// How many blocks there are.
    pub fn len(&self) -> usize
        ensures value { result ≡ length self.now }
        ensures few { result < 2 ^ 32 }
        ensures cids { All (λ p. IsCid p.0) self.now }
    {
        self.entries.len()
    }

    /// Whether there is no block.
    pub fn is_empty(&self) -> bool
        ensures { IsTrue result ↔ (self.now ≡ []) }
    {
        self.entries.is_empty()
    }

    /// The block at index `i`, counted from 0: its CID, and its bytes, which are lent.
    pub fn at(&self, i: usize) -> (Cid, &[u8])
        requires { i < length self.now }
        ensures { slice_get self.now i ≡ Some (result.0, result.1.now) }
    {
        let entry = &self.entries[i];
        (entry.cid, &self.buffer[entry.start..entry.end])
    }
}
