//! The CIDs that a search has met.
ghost use Rattle.std.specs.Prelude.{◌≡◌, ◌∷◌, [], ◌<◌, ◌^◌, length, OnOk, IfSome, IfNone};
ghost use Rattle.ss_chain.specs.Follows.{followed};
ghost use Rattle.ss_model.specs.Met.{Meets, Takes, IsDone};

use ss_chain::follows;
use ss_cid::{Cid, NoMemory};
use std::alloc::Global;
use std::collections::BTreeSet;

/// The CIDs that a search has met, each once, and those of them whose blocks wait to be read.
#[derive(Drop)]
pub(crate) struct Met {
    pub cids: BTreeSet<Cid>,
    waiting: Vec<Cid>,
}

impl Met {
    /// Nothing was met, which takes no memory.
    pub fn new(alloc: Global) -> Met
        ensures none { result.cids.keys ≡ [] }
        ensures done { IsDone result }
    {
        Met {
            cids: BTreeSet::new(alloc),
            waiting: Vec::new(alloc),
        }
    }

    /// Meets a CID, which waits to be read unless it was met before.
    pub fn meet(&mut self, cid: Cid) -> Result<(), NoMemory>
        ensures { OnOk result (Meets (cid ∷ []) self.old self.new) }
    {
        if self.cids.insert(cid)? {
            self.waiting.push(cid)?;
        }
        Ok(())
    }

    /// Meets each of some CIDs.
    pub fn meet_each(&mut self, cids: &[Cid]) -> Result<(), NoMemory>
        ensures { OnOk result (Meets cids.now self.old self.new) }
    {
        for cid in cids {
            self.meet(*cid)?;
        }
        Ok(())
    }

    /// Meets what a block is followed to.
    pub fn meet_followed(&mut self, edge: u64, cid: &Cid, block: &[u8]) -> Result<(), NoMemory>
        ensures { OnOk result (Meets (followed edge cid.now block.now) self.old self.new) }
    {
        for link in follows(edge, cid, block) {
            self.meet(link)?;
        }
        Ok(())
    }

    /// Takes one of the CIDs that wait.
    pub fn take_waiting(&mut self) -> Option<Cid>
        ensures some { IfSome result (λ cid. Takes cid self.old self.new) }
        ensures none { IfNone result (IsDone self.old × (self.new.cids ≡ self.old.cids)) }
        ensures few { length self.new.cids.keys < 2 ^ 63 }
    {
        // For the proof that a search ends: no set has 2^63 members.
        prove!(self.cids.len() < usize::MAX);
        self.waiting.pop()
    }
}
