// What the records of a file tell, one after another.
ghost use Rattle.std.specs.Prelude.{◌≡◌, ◌+◌, ◌^◌, ◌<◌, ℕ, List, [], length, IfOk, MatchBool};
ghost use Rattle.ss_records.specs.declared.record.Record.TheVariants as record_kind;
ghost use Rattle.ss_records.specs.Places.{IsPut};
ghost use Rattle.ss_hot.specs.Half.{MayStand};

use ss_cid::{Cids, NoMemory};
use ss_gatelog::HEAD;
use ss_records::{Config, PutBlocks, Record, RecordFault, decode};
use ss_store::Index;
use std::alloc::Global;

/// What the records that were read tell.
#[derive(Drop)]
pub(super) struct Walk {
    /// How many records there were.
    pub count: u64,
    pub config: Option<Config>,
    pub index: Index,
    pub head: Option<(u64, Cids)>,
    pub base: (u64, u64),
}

impl Walk {
    ghost use Rattle.ss_hot.specs.Opening.{AreBefore, Gathers, Enters, IsRead, IsMisfit};

    /// Before the first record.
    pub(super) fn new(alloc: Global) -> Walk
        ensures gathers { (file : ℕ) → Gathers file result [] }
        ensures before { (file end : ℕ) → AreBefore file result.index end }
    {
        Walk {
            count: 0,
            config: None,
            index: Index::new(alloc),
            head: None,
            base: (0, 0),
        }
    }

    /// Reads the body of the next record, whose gate is at `at` in a file, and answers whether the record may stand there.
    /// One that may not is counted too, and some of its blocks may be in the index.
    pub(super) fn take(
        &mut self,
        alloc: Global,
        file: u8,
        at: u64,
        body: &[u8],
    ) -> Result<bool, NoMemory>
        requires { (at < 2 ^ 41) × (self.old.count < 2 ^ 41) × (length body.now < 2 ^ 41) }
        ensures fits { IfOk result (λ fits. MatchBool fits (IsRead file at self.old body.now self.new) (IsMisfit self.old.count body.now)) }
        ensures count { IfOk result (λ _. self.new.count ≡ self.old.count + 1) }
    {
        let fits = self.read(alloc, file, at, body)?;
        self.count += 1;
        Ok(fits)
    }

    /// Enters the record that a body spells, and answers whether there is one and may stand here. A Put is entered by its
    /// blocks' places, and its blocks are not copied.
    fn read(&mut self, alloc: Global, file: u8, at: u64, body: &[u8]) -> Result<bool, NoMemory>
        requires { (at < 2 ^ 41) × (length body.now < 2 ^ 41) }
        ensures fits { IfOk result (λ fits. MatchBool fits (IsRead file at self.old body.now self.new) (IsMisfit self.old.count body.now)) }
        ensures count { self.new.count ≡ self.old.count }
    {
        match PutBlocks::of(body) {
            Ok(Some(_)) if self.count < 2 => Ok(false),
            Ok(Some(blocks)) => Ok(self.index.insert_all(file, at + HEAD, blocks)?),
            Ok(None) => self.read_other(alloc, file, at, body),
            Err(_) => Ok(false),
        }
    }

    /// The same of a body that is no Put.
    fn read_other(
        &mut self,
        alloc: Global,
        file: u8,
        at: u64,
        body: &[u8],
    ) -> Result<bool, NoMemory>
        requires { IsPut body.now → ⊥ }
        ensures fits { IfOk result (λ fits. MatchBool fits (IsRead file at self.old body.now self.new) (IsMisfit self.old.count body.now)) }
        ensures count { self.new.count ≡ self.old.count }
    {
        match decode(alloc, body) {
            Ok(entry) => Ok(self.enter(entry)),
            Err(RecordFault::BadRecord { .. }) => Ok(false),
            Err(RecordFault::NoMemory) => Err(NoMemory),
        }
    }

    /// Enters a record other than a Put, and answers whether it may stand here.
    fn enter(&mut self, entry: Record) -> bool
        requires { (blocks : List (List ℕ × List ℕ)) → entry ≡ record_kind.Put blocks → ⊥ }
        ensures fits { (file at : ℕ) → MatchBool result (MayStand self.old.count entry × Enters file at self.old entry self.new) ((MayStand self.old.count entry → ⊥) × (self.new ≡ self.old)) }
        ensures count { self.new.count ≡ self.old.count }
    {
        match entry {
            Record::Generation(_) => self.count == 0,
            Record::Config(config) if self.count == 1 => {
                self.config = Some(config);
                true
            }
            _ if self.count < 2 => false,
            Record::Dropped(cids) => {
                self.index.remove_all(&cids);
                true
            }
            Record::Head { height, cids } => {
                self.head = Some((height, cids));
                true
            }
            Record::Base { base, ended } => {
                self.base = (base, ended);
                true
            }
            _ => false,
        }
    }
}
