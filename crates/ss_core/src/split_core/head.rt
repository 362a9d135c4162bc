//! The head.

ghost use Rattle.std.specs.Prelude.{◌≡◌, ◌⊎◌, ◌<◌, ◌≤◌, ◌^◌, true, false, [], length, Option, None, Some, IsTrue, IfOk, IfErr, IfSome, is_some, unwrap_or};
ghost use Rattle.ss_cid.specs.Cid.{identity_of};
ghost use Rattle.ss_chain.specs.Fetch.{fetched};
ghost use Rattle.ss_model.specs.Head.{head_need};
ghost use Rattle.ss_model.specs.declared.call.HeadReply.TheVariants as head;

use super::{HOT, SplitCore};
use crate::fault::head_fault;
use crate::found::Found;
use crate::tipset::{FirstHeader, MAX_HEADERS, cids_fault};
use ss_cid::{Bytes, Cid, Cids, NoMemory};
use ss_device::Disk;
use ss_model::HeadReply;
use std::alloc::Global;

impl<D: Disk> SplitCore<D> {
    ghost use Rattle.ss_gatelog.specs.GateLog.{CountsFault};
    ghost use Rattle.ss_model.specs.State.{State};
    ghost use Rattle.ss_records.specs.declared.record.Record.TheVariants as record_kind;
    ghost use Rattle.ss_records.specs.Record.{Fits};
    ghost use Rattle.ss_model.specs.Head.{unread_refusal, IsHead};
    ghost use Rattle.ss_model.specs.declared.call.Call.TheVariants as call_kind;
    ghost use Rattle.ss_model.specs.declared.call.Answer.TheVariants as answer;
    ghost use Rattle.ss_core.specs.Calls.{Steps, Makes};
    ghost use Rattle.ss_core.specs.Calls.{head_use};
    ghost use Rattle.ss_core.specs.Found.{AreFound, IsFound};
    ghost use Rattle.ss_core.specs.Replies.{OnlyReads, IsUnread, IsJudgement, IsJudged};
    ghost use Rattle.ss_core.specs.StandsFor.{Doubt, no_doubt, StandsFor};

    /// Sets a tipset as head, by one record. A log in doubt is settled first, and each block is read, one at a time.
    ///
    /// The first that applies: `Empty`, `TooMany`, `Repeated`; `Absent` for the least CID that is neither an identity CID nor
    /// kept; `NoMemory`; `DiskFault` in settling or reading; `NotHeader`, `HeightDiffers`, `ParentsDiffer`; `LogFull`;
    /// `DiskFault` in writing, after which the record may be in doubt; `Set`. All refusals leave the head as it was. The disk
    /// is not called before `Absent` is decided.
    pub fn set_head(&mut self, alloc: Global, cids: &Cids) -> HeadReply
        ensures told { IsTrue D.told → (s : State) (doubt : Doubt) → StandsFor self.old s doubt → Steps self.old self.new s doubt (call_kind.SetHead cids.now) (answer.Head result) }
        ensures made { Makes self.old self.new (call_kind.SetHead cids.now) (answer.Head result) }
    {
        let mut found = [Found::InCid; MAX_HEADERS];
        if let Some(refusal) = self.refuse_head(cids, &mut found) {
            return refusal;
        }
        if let Err(fault) = self.settle() {
            return head_fault(fault);
        }
        match self.judge(alloc, cids, &found) {
            Ok(height) => self.write_head(alloc, height, cids),
            Err(refusal) => refusal,
        }
    }

    // The refusal of a head before a block is read, or where each block is found.
    fn refuse_head(&self, cids: &Cids, found: &mut [Found; MAX_HEADERS]) -> Option<HeadReply>
        ensures decides { (s : State) (doubt : Doubt) → StandsFor self.now s doubt → result ≡ unread_refusal s.kept cids.now }
        ensures some { result ≡ None → (1 ≤ length cids.now) × (length cids.now ≤ 64) }
        ensures early { IfSome result IsUnread }
        ensures found { result ≡ None → AreFound self.now.hot cids.now found.new }
    {
        if let Some(refusal) = cids_fault(cids) {
            return Some(refusal);
        }
        for i in 0..cids.len() {
            let cid = cids.at(i);
            let Some(at) = self.find(&cid) else {
                return Some(HeadReply::Absent { i: i as u32 });
            };
            found[i] = at;
        }
        None
    }

    // Where the block of a CID is found, None where it is not kept.
    fn find(&self, cid: &Cid) -> Option<Found>
        ensures found { IfSome result (IsFound self.now.hot cid.now) }
        ensures there { (s : State) (doubt : Doubt) → StandsFor self.now s doubt → is_some result ≡ is_some (fetched s.kept cid.now) }
    {
        match cid.identity() {
            Some(_) => Some(Found::InCid),
            None => {
                let place = self.hot.place(cid)?;
                Some(Found::At(place))
            }
        }
    }

    // The height of the tipset of these CIDs, from their blocks, of which one is in memory at a time.
    fn judge(
        &mut self,
        alloc: Global,
        cids: &Cids,
        found: &[Found; MAX_HEADERS],
    ) -> Result<u64, HeadReply>
        requires some { 1 ≤ length cids.now }
        requires few { length cids.now ≤ 64 }
        requires found { AreFound self.old.hot cids.now found.now }
        ensures judged { IsTrue D.told → (s : State) (doubt : Doubt) → StandsFor self.old s doubt → unread_refusal s.kept cids.now ≡ None → IsJudged s.kept cids.now result }
        ensures judgement { IfErr result IsJudgement }
        ensures height { IfOk result (λ height. height < 2 ^ 63) }
        ensures reads { OnlyReads self.old self.new }
        ensures counts { CountsFault head.DiskFault (D.faults self.old.disk) (D.faults self.new.disk) result }
    {
        let cid = cids.at(0);
        let block = self.block(alloc, &cid, found[0])?;
        let first = FirstHeader::read(alloc, &cid, block.as_slice())?;
        for i in 1..cids.len() {
            let cid = cids.at(i);
            let block = self.block(alloc, &cid, found[i])?;
            if let Some(refusal) = first.fault_beside(i as u32, &cid, block.as_slice()) {
                return Err(refusal);
            }
        }
        Ok(first.height)
    }

    // The block of a CID, from where it was found.
    fn block(&mut self, alloc: Global, cid: &Cid, found: Found) -> Result<Bytes, HeadReply>
        requires { IsFound self.old.hot cid.now found }
        ensures block { IsTrue D.told → (s : State) (doubt : Doubt) → StandsFor self.old s doubt → IfOk result (λ block. block ≡ unwrap_or (fetched s.kept cid.now) []) }
        ensures reads { OnlyReads self.old self.new }
        ensures errors { IfErr result (λ refusal. (refusal ≡ head.NoMemory) ⊎ (refusal ≡ head.DiskFault)) }
        ensures counts { CountsFault head.DiskFault (D.faults self.old.disk) (D.faults self.new.disk) result }
    {
        let place = match found {
            Found::InCid => return own_block(alloc, cid),
            Found::At(place) => place,
        };
        let Ok(mut block) = vec![in alloc; 0u8; place.len as usize] else {
            return Err(HeadReply::NoMemory);
        };
        // A read fails only by a fault of the disk.
        match self.hot.read(&mut self.disk, place, block.as_mut_slice()) {
            Ok(()) => Ok(Bytes::from(block)),
            Err(_) => Err(HeadReply::DiskFault),
        }
    }

    // Writes the record of a tipset that was judged.
    fn write_head(&mut self, alloc: Global, height: u64, cids: &Cids) -> HeadReply
        requires sure { self.old.hot.log.unsure ≡ false }
        requires head { Fits (record_kind.Head height cids.now) }
        ensures told { IsTrue D.told → (s : State) → StandsFor self.old s no_doubt → IsHead s.kept cids.now height → Steps self.old self.new s no_doubt (call_kind.SetHead cids.now) (answer.Head result) }
        ensures made { Makes self.old self.new (call_kind.SetHead cids.now) (answer.Head result) }
        ensures reaches { (head_use result).reaches ≡ true }
    {
        // len() proves that each CID is well formed.
        prove!(cids.len() <= 64);
        let need = head_need(cids);
        let room = self.hot.room();
        if need > room {
            let file = HOT;
            return HeadReply::LogFull { file, need, room };
        }
        match self.hot.set_head(alloc, &mut self.disk, height, cids) {
            Ok(()) => HeadReply::Set { height },
            Err(fault) => head_fault(fault),
        }
    }
}

// A copy of the block that is in an identity CID.
fn own_block(alloc: Global, cid: &Cid) -> Result<Bytes, HeadReply>
    requires { is_some (identity_of cid.now) ≡ true }
    ensures block { IfOk result (λ block. Some block ≡ identity_of cid.now) }
    ensures memory { IfErr result (λ refusal. refusal ≡ head.NoMemory) }
{
    let Some(digest) = cid.identity() else {
        unreachable!()
    };
    match Bytes::from_slice(alloc, digest) {
        Ok(block) => Ok(block),
        Err(NoMemory) => Err(HeadReply::NoMemory),
    }
}

// The bytes that the record of a head takes of a log.
fn head_need(cids: &Cids) -> u64
    requires { length cids.now ≤ 64 }
    ensures { result ≡ head_need cids.now }
{
    let mut need = 15;
    for cid in cids.as_slice() {
        need += cid.as_bytes().len() as u64;
    }
    need
}
