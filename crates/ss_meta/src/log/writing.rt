ghost use Rattle.std.specs.Prelude.{◌≡◌, List, Option, IsTrue, false, OnOk, OnErr};
ghost use Rattle.ss_records.specs.declared.record.Record.{Record};
ghost use Rattle.ss_records.specs.declared.record.Record.TheVariants as record_kind;
ghost use Rattle.ss_records.specs.Record.{Fits};
ghost use Rattle.ss_meta.specs.declared.plan.Plan.{Plan};
ghost use Rattle.ss_meta.specs.Plan.{MayFollow, plan_after, total_of};

use super::{FILE, MetaLog, Plan};
use ss_cid::{Cids, NoMemory};
use ss_device::Disk;
use ss_records::{Record, encode, encode_cold, encode_start};
use ss_store::{StoreFault, append_record};
use std::alloc::Global;

impl MetaLog {
    ghost use Rattle.ss_meta.specs.Meta.{Keeps, IsKnown, Settles, StillKeeps, KeepsWritten, Writes, KeepsStarted, Starts, KeepsEmptied, Empties};

    /// Begins a plan, in place of one that stands there: empties the log and appends one record. A log in doubt is settled
    /// first, after all memory is taken.
    ///
    /// `NoMemory` leaves all as it was. After `DiskFault` the plan is the old one or none, and the log may be in doubt.
    pub fn start<D: Disk>(
        &mut self,
        alloc: Global,
        disk: &mut D,
        edge: u64,
        roots: &Cids,
    ) -> Result<(), StoreFault>
        requires known { IsKnown D.Disk disk.old self.old }
        requires roots { Fits (record_kind.Start edge roots.now) }
        ensures told { (records others : List Record) → IsTrue D.told → Keeps D.Disk disk.old self.old records others → KeepsStarted D.Disk disk.old disk.new self.old self.new records others (record_kind.Start edge roots.now) result }
        ensures started { Starts D.Disk disk.old disk.new self.old self.new (record_kind.Start edge roots.now) result }
    {
        // `len` ensures that each CID is well formed.
        prove!(roots.len() <= 64);
        let mut frame = encode_start(alloc, edge, roots)?;
        let roots = roots.duplicate()?;
        self.settle(disk)?;
        self.empty(disk)?;
        append_record(&mut self.log, disk, &mut frame)?;
        self.plan = Some(Plan {
            edge,
            roots,
            cold: Cids::new(alloc),
            sealed: false,
            copied: 0,
            purged: 0,
        });
        Ok(())
    }

    /// Appends candidates, by one record. Their CIDs differ from each other and from those that the plan has. Its refusals are
    /// those of `seal`.
    pub fn add_cold<D: Disk>(
        &mut self,
        alloc: Global,
        disk: &mut D,
        cids: &Cids,
    ) -> Result<(), StoreFault>
        requires known { IsKnown D.Disk disk.old self.old }
        requires cids { Fits (record_kind.Cold cids.now) }
        requires follows { MayFollow self.old.plan (record_kind.Cold cids.now) }
        ensures told { (records others : List Record) → IsTrue D.told → Keeps D.Disk disk.old self.old records others → KeepsWritten D.Disk disk.old disk.new self.old self.new records others (record_kind.Cold cids.now) result }
        ensures written { Writes D.Disk disk.old disk.new self.old self.new (record_kind.Cold cids.now) result }
    {
        // `len` ensures that each CID is well formed.
        prove!(cids.len() <= 4096);
        let mut frame = encode_cold(alloc, cids)?;
        self.extend(cids)?;
        match append_record(&mut self.log, disk, &mut frame) {
            Ok(()) => Ok(()),
            Err(fault) => {
                self.undo(cids);
                Err(fault)
            },
        }
    }

    /// Seals the list of candidates, by one record of their total. A log in doubt is settled first, after all memory is taken.
    ///
    /// First `NoMemory`, then `LogFull`; both leave all as it was. After `DiskFault` the plan is as it was, and the log may be
    /// in doubt.
    pub fn seal<D: Disk>(&mut self, alloc: Global, disk: &mut D) -> Result<(), StoreFault>
        requires known { IsKnown D.Disk disk.old self.old }
        requires follows { MayFollow self.old.plan (record_kind.Sealed (total_of self.old.plan)) }
        ensures told { (records others : List Record) → IsTrue D.told → Keeps D.Disk disk.old self.old records others → KeepsWritten D.Disk disk.old disk.new self.old self.new records others (record_kind.Sealed (total_of self.old.plan)) result }
        ensures written { Writes D.Disk disk.old disk.new self.old self.new (record_kind.Sealed (total_of self.old.plan)) result }
    {
        let total = self.total();
        let mut frame = encode(alloc, &Record::Sealed(total))?;
        append_record(&mut self.log, disk, &mut frame)?;
        if let Some(plan) = &mut self.plan {
            plan.sealed = true;
        }
        Ok(())
    }

    /// Notes how many candidates are in the cold store, in their order, by one record. The plan is sealed, and the number does
    /// not fall. Its refusals are those of `seal`.
    pub fn note_copied<D: Disk>(
        &mut self,
        alloc: Global,
        disk: &mut D,
        upto: u64,
    ) -> Result<(), StoreFault>
        requires known { IsKnown D.Disk disk.old self.old }
        requires follows { MayFollow self.old.plan (record_kind.Copied upto) }
        ensures told { (records others : List Record) → IsTrue D.told → Keeps D.Disk disk.old self.old records others → KeepsWritten D.Disk disk.old disk.new self.old self.new records others (record_kind.Copied upto) result }
        ensures written { Writes D.Disk disk.old disk.new self.old self.new (record_kind.Copied upto) result }
    {
        let mut frame = encode(alloc, &Record::Copied(upto))?;
        append_record(&mut self.log, disk, &mut frame)?;
        if let Some(plan) = &mut self.plan {
            plan.copied = upto;
        }
        Ok(())
    }

    /// Notes how many candidates are out of the hot store, in their order, by one record. The plan is sealed, and the number does
    /// not fall. Its refusals are those of `seal`.
    pub fn note_purged<D: Disk>(
        &mut self,
        alloc: Global,
        disk: &mut D,
        upto: u64,
    ) -> Result<(), StoreFault>
        requires known { IsKnown D.Disk disk.old self.old }
        requires follows { MayFollow self.old.plan (record_kind.Purged upto) }
        ensures told { (records others : List Record) → IsTrue D.told → Keeps D.Disk disk.old self.old records others → KeepsWritten D.Disk disk.old disk.new self.old self.new records others (record_kind.Purged upto) result }
        ensures written { Writes D.Disk disk.old disk.new self.old self.new (record_kind.Purged upto) result }
    {
        let mut frame = encode(alloc, &Record::Purged(upto))?;
        append_record(&mut self.log, disk, &mut frame)?;
        if let Some(plan) = &mut self.plan {
            plan.purged = upto;
        }
        Ok(())
    }

    /// Settles a log in doubt: the record that was in doubt does not count, nor do those that a `start` was to take away.
    /// `DiskFault` leaves it in doubt.
    pub fn settle<D: Disk>(&mut self, disk: &mut D) -> Result<(), StoreFault>
        requires { IsKnown D.Disk disk.old self.old }
        ensures told { (records others : List Record) → IsTrue D.told → Keeps D.Disk disk.old self.old records others → StillKeeps D.Disk disk.old disk.new self.old self.new records others }
        ensures settled { Settles D.Disk disk.old disk.new self.old self.new result }
    {
        match self.log.settle(disk) {
            Ok(()) => Ok(()),
            Err(fault) => Err(StoreFault::of_log(self.log.file(), fault)),
        }
    }

    /// Empties a log that is sure. There is no plan then, whatever the answer; after `DiskFault` the log may still have the old
    /// records.
    fn empty<D: Disk>(&mut self, disk: &mut D) -> Result<(), StoreFault>
        requires sure { self.old.log.unsure ≡ false }
        requires known { IsKnown D.Disk disk.old self.old }
        ensures told { (records others : List Record) → IsTrue D.told → Keeps D.Disk disk.old self.old records others → KeepsEmptied D.Disk disk.old disk.new self.old self.new records result }
        ensures emptied { Empties D.Disk disk.old disk.new self.old self.new result }
    {
        self.plan = None;
        match self.log.restart(disk) {
            Ok(()) => Ok(()),
            Err(fault) => Err(StoreFault::of_log(FILE, fault)),
        }
    }

    /// Appends candidates in memory. Out of memory, all stays as it was.
    fn extend(&mut self, cids: &Cids) -> Result<(), NoMemory>
        ensures ok { OnOk result (self.new ≡ record self.old { plan = plan_after self.old.plan (record_kind.Cold cids.now) }) }
        ensures err { OnErr result (self.new ≡ self.old) }
    {
        if let Some(plan) = &mut self.plan {
            plan.cold.extend(cids)?;
        }
        Ok(())
    }

    /// Takes away the candidates that were appended last.
    fn undo(&mut self, cids: &Cids)
        ensures { (plan : Option Plan) → self.old.plan ≡ plan_after plan (record_kind.Cold cids.now) → self.new ≡ record self.old { plan = plan } }
    {
        if let Some(plan) = &mut self.plan {
            let count = plan.cold.len().saturating_sub(cids.len());
            plan.cold.truncate(count);
        }
    }

    /// How many candidates the plan has; without a plan none.
    fn total(&self) -> u64
        ensures { result ≡ total_of self.now.plan }
    {
        match &self.plan {
            Some(plan) => plan.cold.len() as u64,
            None => 0,
        }
    }
}
