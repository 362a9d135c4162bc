//! Gets.

ghost use Rattle.std.specs.Prelude.{◌≡◌, ℕ, List, Some, IsTrue, MatchResult, length, true, false};
ghost use Rattle.ss_model.specs.declared.call.GetReply.TheVariants as get;

use super::SplitCore;
use ss_cid::{Bytes, Cid, NoMemory};
use ss_device::Disk;
use ss_model::GetReply;
use ss_store::Place;
use std::alloc::Global;

impl<D: Disk> SplitCore<D> {
    ghost use Rattle.ss_device.specs.Disk.{Same};
    ghost use Rattle.ss_device.specs.Calls.{Goes};
    ghost use Rattle.ss_hot.specs.Store.{LiesIn};
    ghost use Rattle.ss_model.specs.State.{State};
    ghost use Rattle.ss_model.specs.Lawful.{is_open};
    ghost use Rattle.ss_model.specs.declared.call.Call.TheVariants as call_kind;
    ghost use Rattle.ss_model.specs.declared.call.Answer.TheVariants as answer;
    ghost use Rattle.ss_core.specs.Calls.{Steps, Makes};
    ghost use Rattle.ss_core.specs.Replies.{len_of, HasLen, LiesAt};
    ghost use Rattle.ss_core.specs.StandsFor.{Doubt, StandsFor};

    /// Reads a block. A log in doubt is settled first.
    ///
    /// `BadView`; `NotFound` exactly where the CID is neither an identity CID nor kept; `NoMemory`; `DiskFault`; else `Found`.
    /// The disk is called only for `DiskFault` and for `Found`: memory for the block is taken before. It is never called for an
    /// identity CID, whose block is its digest.
    pub fn get(&mut self, alloc: Global, view: u32, cid: &Cid) -> GetReply
        ensures told { IsTrue D.told → (s : State) (doubt : Doubt) → StandsFor self.old s doubt → Steps self.old self.new s doubt (call_kind.Get view cid.now) (answer.Get result) }
        ensures made { Makes self.old self.new (call_kind.Get view cid.now) (answer.Get result) }
        ensures reads { self.old.hot.log.unsure ≡ false → Goes D.Disk Same self.old.disk self.new.disk }
        ensures len { HasLen (len_of self.old cid.now) result }
    {
        if !self.views.contains(view) {
            return GetReply::BadView;
        }
        if let Some(digest) = cid.identity() {
            return found(Bytes::from_slice(alloc, digest));
        }
        let Some(place) = self.hot.place(cid) else {
            return GetReply::NotFound;
        };
        let Ok(block) = vec![in alloc; 0u8; place.len as usize] else {
            return GetReply::NoMemory;
        };
        self.read_block(place, block)
    }

    // A get of a block that lies at this place, into memory of its length. A log in doubt is settled first.
    fn read_block(&mut self, place: Place, mut block: Vec<u8>) -> GetReply
        requires within { LiesIn self.old.hot.log place }
        requires len { length block.items ≡ place.len }
        ensures told { IsTrue D.told → (s : State) (doubt : Doubt) (view : ℕ) (cid : List ℕ) → StandsFor self.old s doubt → is_open s view ≡ true → LiesAt self.old.hot cid place → Steps self.old self.new s doubt (call_kind.Get view cid) (answer.Get result) }
        ensures made { (view : ℕ) (cid : List ℕ) → LiesAt self.old.hot cid place → Makes self.old self.new (call_kind.Get view cid) (answer.Get result) }
        ensures reads { self.old.hot.log.unsure ≡ false → Goes D.Disk Same self.old.disk self.new.disk }
        ensures len { HasLen (Some place.len) result }
    {
        // Both calls fail only by a fault of the disk.
        if let Err(_) = self.settle() {
            return GetReply::DiskFault;
        }
        match self.hot.read(&mut self.disk, place, block.as_mut_slice()) {
            Ok(()) => GetReply::Found(Bytes::from(block)),
            Err(_) => GetReply::DiskFault,
        }
    }

    // A get, answered twice. Memory for the second answer is taken first.
    pub(super) fn get_twice(&mut self, alloc: Global, view: u32, cid: &Cid) -> (GetReply, GetReply)
        ensures twice { result.0 ≡ result.1 }
        ensures told { IsTrue D.told → (s : State) (doubt : Doubt) → StandsFor self.old s doubt → Steps self.old self.new s doubt (call_kind.Get view cid.now) (answer.Get result.0) }
        ensures made { Makes self.old self.new (call_kind.Get view cid.now) (answer.Get result.0) }
    {
        if !self.views.contains(view) {
            return (GetReply::BadView, GetReply::BadView);
        }
        let Some(len) = self.block_len(cid) else {
            return (GetReply::NotFound, GetReply::NotFound);
        };
        let Ok(mut copy) = vec![in alloc; 0u8; len as usize] else {
            return (GetReply::NoMemory, GetReply::NoMemory);
        };
        match self.get(alloc, view, cid) {
            GetReply::Found(block) => {
                copy.as_mut_slice().copy_from_slice(block.as_slice());
                (GetReply::Found(block), GetReply::Found(Bytes::from(copy)))
            }
            GetReply::BadView => (GetReply::BadView, GetReply::BadView),
            GetReply::NotFound => (GetReply::NotFound, GetReply::NotFound),
            GetReply::NoMemory => (GetReply::NoMemory, GetReply::NoMemory),
            GetReply::DiskFault => (GetReply::DiskFault, GetReply::DiskFault),
        }
    }
}

fn found(block: Result<Bytes, NoMemory>) -> GetReply
    ensures { MatchResult block (λ bytes. result ≡ get.Found bytes) (λ _. result ≡ get.NoMemory) }
{
    match block {
        Ok(block) => GetReply::Found(block),
        Err(NoMemory) => GetReply::NoMemory,
    }
}
