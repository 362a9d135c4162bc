//! Puts.

ghost use Rattle.std.specs.Prelude.{◌≡◌, ◌+◌, ◌-◌, ◌^◌, ◌≤◌, ℕ, List, length, min, max, IfOk, MatchResult};

use super::{HOT, SplitCore};
use crate::blocks::{body_bytes, check_blocks};
use crate::fault::put_fault;
use crate::fresh::{Fresh, Seen, fresh_blocks};
use ss_cid::{Cid, NoMemory, Parcel};
use ss_device::Disk;
use ss_model::{PUT_BLOCKS, PUT_BYTES, PutReply};
use std::alloc::Global;

impl<D: Disk> SplitCore<D> {
    ghost use Rattle.ss_records.specs.declared.record.Record.TheVariants as record_kind;
    ghost use Rattle.ss_records.specs.Record.{Fits};
    ghost use Rattle.ss_hot.specs.Store.{AreNotHot};
    ghost use Rattle.ss_model.specs.State.{State};
    ghost use Rattle.ss_model.specs.Lawful.{IsPassed, IsPutRefusal, body_bytes, put_bytes};
    ghost use Rattle.ss_model.specs.declared.TheConstants.{PUT_BLOCKS, PUT_BYTES};
    ghost use Rattle.ss_core.specs.Seen.{AreSeen, held_in};
    ghost use Rattle.ss_core.specs.Replies.{IsLooked, IsReady, IsRefused, Puts, cids_of, held_put_bytes, pairs_new_to};
    ghost use Rattle.ss_core.specs.StandsFor.{Doubt, StandsFor};

    /// Stores the blocks of a parcel that are new, by one record. A log in doubt is settled first, once all memory is taken.
    ///
    /// The first that applies: `BadView`; `TooMany`; `TooBig`; the fault of the first pair that has one; `NoMemory`;
    /// `TableFull`; `LogFull`; `DiskFault`, after which the record may be in doubt; `Stored`. All refusals leave what is
    /// kept. The disk is called only for `DiskFault` and for `Stored`.
    pub fn put(&mut self, alloc: Global, view: u32, parcel: &Parcel) -> PutReply
        ensures { Puts self.old self.new view parcel.now result }
    {
        let mut seen = [Seen::Absent; PUT_BLOCKS];
        let bytes = match self.look_or_refuse(view, parcel, &mut seen) {
            Ok(bytes) => bytes,
            Err(refusal) => return refusal,
        };
        match fresh_blocks(alloc, parcel, &seen) {
            // No record is written, but one that is in doubt is undone.
            Ok(Fresh::Nothing) => match self.settle() {
                Ok(()) => PutReply::Stored { new: 0 },
                Err(fault) => put_fault(fault),
            },
            Ok(Fresh::All) => self.put_fresh(alloc, parcel, bytes),
            Ok(Fresh::Part(fresh)) => self.put_fresh(alloc, &fresh, body_bytes(&fresh)),
            Err(NoMemory) => PutReply::NoMemory,
        }
    }

    // The put of a parcel of which these blocks are the new ones, by a record whose body has so many bytes.
    fn put_fresh(&mut self, alloc: Global, fresh: &Parcel, body: u64) -> PutReply
        requires blocks { Fits (record_kind.Put fresh.now) }
        requires short { body_bytes fresh.now ≤ PUT_BYTES }
        requires new { AreNotHot self.old.hot fresh.now }
        requires body { body ≡ body_bytes fresh.now }
        ensures { (view : ℕ) (pairs : List (List ℕ × List ℕ)) → pairs_new_to self.old pairs ≡ fresh.now → ((s : State) (doubt : Doubt) → StandsFor self.old s doubt → IsPassed s view pairs) →
            Puts self.old self.new view pairs result }
    {
        let rows = self.kept_count() + fresh.len() as u64;
        if rows > u64::from(self.hot.config().rows) {
            return PutReply::TableFull { rows };
        }
        let need = 5 + body;
        let room = self.hot.room();
        if need > room {
            let file = HOT;
            return PutReply::LogFull { file, need, room };
        }
        match self.hot.put_batch(alloc, &mut self.disk, fresh) {
            Ok(()) => PutReply::Stored {
                new: fresh.len() as u32,
            },
            Err(fault) => put_fault(fault),
        }
    }

    // The bytes that a put of a parcel takes, and what is seen of each pair; or the refusal that the state and the parcel decide.
    fn look_or_refuse(
        &self,
        view: u32,
        parcel: &Parcel,
        seen: &mut [Seen; PUT_BLOCKS],
    ) -> Result<u64, PutReply>
        ensures decides { (s : State) (doubt : Doubt) → StandsFor self.now s doubt → MatchResult result (λ _. IsPassed s view parcel.now) (IsPutRefusal s view parcel.now) }
        ensures ready { MatchResult result (λ _. IsReady parcel.now) (IsRefused self.now view parcel.now) }
        ensures looked { IfOk result (λ bytes. IsLooked self.now.hot parcel.now bytes seen.new) }
    {
        if !self.views.contains(view) {
            return Err(PutReply::BadView);
        }
        if parcel.len() > PUT_BLOCKS {
            let n = parcel.len() as u32;
            return Err(PutReply::TooMany { n });
        }
        let bytes = self.look(parcel, seen);
        if bytes > PUT_BYTES {
            return Err(PutReply::TooBig { bytes });
        }
        check_blocks(parcel, seen)?;
        Ok(bytes)
    }

    // The bytes that a put of a parcel takes, 2^64 - 1 at the most, and of each pair in order whether its block is held. Each CID is
    // looked up once.
    fn look(&self, parcel: &Parcel, seen: &mut [Seen; PUT_BLOCKS]) -> u64
        requires { length parcel.now ≤ PUT_BLOCKS }
        ensures least { min (body_bytes parcel.now) (2 ^ 64 - 1) ≤ result }
        ensures held { result ≡ min (held_put_bytes self.now parcel.now) (2 ^ 64 - 1) }
        ensures all { (s : State) (doubt : Doubt) → StandsFor self.now s doubt → result ≡ min (put_bytes s.kept parcel.now) (2 ^ 64 - 1) }
        ensures own { AreNotHot self.now.hot parcel.now → result ≡ min (body_bytes parcel.now) (2 ^ 64 - 1) }
        ensures seen { AreSeen (held_in (cids_of self.now.hot.places)) parcel.now seen.new }
    {
        let mut bytes = 3u64;
        for i in 0..parcel.len() {
            let (cid, block) = parcel.at(i);
            let kept = self.kept_len(&cid);
            seen[i] = Seen::by_len(kept);
            bytes = bytes.saturating_add(pair_bytes(&cid, block, kept.unwrap_or(0)));
        }
        bytes
    }
}

// The bytes that a pair takes of a put, where so many are kept under its CID.
fn pair_bytes(cid: &Cid, block: &[u8], kept: u32) -> u64
    ensures { result ≡ length cid.now + 4 + max (length block.now) kept }
{
    cid.as_bytes().len() as u64 + 4 + block.len().max(kept as usize) as u64
}
