//! Blocks in memory, for tests.
ghost use Rattle.std.specs.Prelude.{◌≡◌, ◌++◌, ◌∷◌, [], Some, OnOk, OnErr, option_copied};
ghost use Rattle.std.specs.FinMap as map;
ghost use Rattle.ss_chain.specs.Fetch.{fetched, is_known, NotFoundUnless, IsFetched, IsDigest, IsFault};
ghost use Rattle.ss_device.specs.Faults.{Counts};
ghost use Rattle.ss_chain.specs.Parcel.{kept_of, same_keys, fresh, after_fetch, IsListed, FailsWhere};

use crate::{Blocks, Fetched};
use ss_cid::{Bytes, Cid, NoMemory, Parcel};
use std::alloc::Global;
use std::marker::Model;

/// The blocks of a parcel, for tests: the first block of a CID counts, and one under an identity CID does not. Fetches
/// whose number is listed fail.
#[derive(Debug, Drop)]
pub struct ParcelBlocks {
    blocks: Parcel,
    fetches: u64,
    failing: Vec<u64>,
    faults: u64,
}

impl Model for ParcelBlocks {
    ghost use Rattle.ss_chain.specs.Parcel.{MemoryBlocks};

    ghost Value = { MemoryBlocks };

    ghost view = { λ b. record { blocks = b.blocks; fetches = b.fetches; failing = b.failing.items; faults = b.faults } };
}

impl ParcelBlocks {
    /// The blocks of this parcel, of which no fetch is listed to fail.
    pub fn new(alloc: Global, parcel: Parcel) -> ParcelBlocks
        ensures { result ≡ fresh parcel }
    {
        ParcelBlocks {
            blocks: parcel,
            fetches: 0,
            failing: Vec::new(alloc),
            faults: 0,
        }
    }

    /// Lists one more fetch that fails, counted from 0. Out of memory, the list stays as it was.
    pub fn fail_at(&mut self, fetch: u64) -> Result<(), NoMemory>
        ensures ok { OnOk result (self.new ≡ record self.old { failing = self.old.failing ++ fetch ∷ [] }) }
        ensures err { OnErr result (self.new ≡ self.old) }
    {
        self.failing.push(fetch)?;
        Ok(())
    }
}

impl Blocks for ParcelBlocks {
    ghost holds = { λ b cid. map.contains_key (kept_of b.blocks) cid };

    ghost told = { λ b. Some (kept_of b.blocks) };

    ghost faults = { λ b. b.faults };

    ghost keys = { λ b kept cid same. same_keys (kept_of b.blocks) kept cid same };

    /// A listed fetch answers `Fault`. Except where the CID has no block: that is always `NotFound`.
    fn fetch(&mut self, alloc: Global, cid: &Cid) -> Fetched
        ensures not_found { NotFoundUnless (is_known (map.contains_key (kept_of self.old.blocks)) cid.now) result }
        ensures found { IsFetched (Some (kept_of self.old.blocks)) cid.now result }
        ensures digest { IsDigest cid.now result }
        ensures cause { Counts IsFault self.old.faults self.new.faults result }

        ensures fails { FailsWhere (IsListed self.old) result }
        ensures after { self.new ≡ after_fetch self.old result }
    {
        let is_listed = self.failing.contains(&self.fetches);
        self.fetches = self.fetches.saturating_add(1);
        let Some(block) = block_of(&self.blocks, cid) else {
            return Fetched::NotFound;
        };
        if is_listed {
            self.faults = self.faults.saturating_add(1);
            return Fetched::Fault;
        }
        match Bytes::from_slice(alloc, block) {
            Ok(copy) => Fetched::Found(copy),
            Err(NoMemory) => Fetched::NoMemory,
        }
    }

    fn faults(&self) -> u64 {
        self.faults
    }
}

// The block of a CID.
fn block_of<'a>(blocks: &'a Parcel, cid: &'a Cid) -> Option<&'a [u8]>
    ensures { option_copied result ≡ fetched (kept_of blocks.now) cid.now }
{
    if let Some(digest) = cid.identity() {
        return Some(digest);
    }
    for i in 0..blocks.len() {
        let (stored, block) = blocks.at(i);
        if *cid == stored {
            return Some(block);
        }
    }
    None
}
