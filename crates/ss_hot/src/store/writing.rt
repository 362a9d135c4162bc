ghost use Rattle.std.specs.Prelude.{◌<◌, ◌≤◌, ◌^◌, List, IsTrue, length};
ghost use Rattle.ss_records.specs.declared.record.Record.{Record};
ghost use Rattle.ss_records.specs.declared.record.Record.TheVariants as record_kind;
ghost use Rattle.ss_records.specs.Record.{spelling, Fits};

use super::HotStore;
use ss_cid::{Cids, Parcel};
use ss_device::Disk;
use ss_gatelog::HEAD;
use ss_records::{Record, encode, encode_dropped, encode_head, encode_put};
use ss_store::{StoreFault, append_record};
use std::alloc::Global;

impl HotStore {
    ghost use Rattle.ss_hot.specs.Store.{Keeps, IsKnown, AreNotHot, Settles, StillKeeps, KeepsWritten, Writes};

    /// Puts blocks, by one record. A log in doubt is settled first, after all memory is taken.
    ///
    /// First `NoMemory`, then `LogFull`; both leave all as it was. After `DiskFault` the blocks are not hot, and the log may
    /// be in doubt.
    pub fn put_batch<D: Disk>(
        &mut self,
        alloc: Global,
        disk: &mut D,
        parcel: &Parcel,
    ) -> Result<(), StoreFault>
        requires known { IsKnown D.Disk disk.old self.old }
        requires blocks { Fits (record_kind.Put parcel.now) }
        requires fits { length (spelling (record_kind.Put parcel.now)) ≤ 15728640 }
        requires new { AreNotHot self.old parcel.now }
        ensures told { (records others : List Record) → IsTrue D.told → Keeps D.Disk disk.old self.old records others → KeepsWritten D.Disk disk.old disk.new self.old self.new records others (record_kind.Put parcel.now) result }
        ensures written { Writes D.Disk disk.old disk.new self.old self.new (record_kind.Put parcel.now) result }
    {
        // `len` ensures that each CID of the parcel is well formed.
        prove!(parcel.len() <= 4096);
        let body = self.log.end() + HEAD;
        let mut frame = encode_put(alloc, parcel)?;
        let file = self.log.file();
        self.index.insert_blocks(file, body, parcel)?;
        match append_record(&mut self.log, disk, &mut frame) {
            Ok(()) => Ok(()),
            Err(fault) => {
                self.index.remove_blocks(parcel, parcel.len());
                Err(fault)
            },
        }
    }

    /// Drops hot blocks, by one record. Its refusals are those of `put_batch`.
    pub fn drop_batch<D: Disk>(
        &mut self,
        alloc: Global,
        disk: &mut D,
        cids: &Cids,
    ) -> Result<(), StoreFault>
        requires known { IsKnown D.Disk disk.old self.old }
        requires cids { Fits (record_kind.Dropped cids.now) }
        ensures told { (records others : List Record) → IsTrue D.told → Keeps D.Disk disk.old self.old records others → KeepsWritten D.Disk disk.old disk.new self.old self.new records others (record_kind.Dropped cids.now) result }
        ensures written { Writes D.Disk disk.old disk.new self.old self.new (record_kind.Dropped cids.now) result }
    {
        // `end` ensures that the log is within bounds, and `len` that each CID is well formed.
        prove!(self.log.end() < self.config.limit);
        prove!(cids.len() <= 4096);
        let mut frame = encode_dropped(alloc, cids)?;
        append_record(&mut self.log, disk, &mut frame)?;
        self.index.remove_all(cids);
        Ok(())
    }

    /// Sets the head, by one record. Its refusals are those of `put_batch`.
    pub fn set_head<D: Disk>(
        &mut self,
        alloc: Global,
        disk: &mut D,
        height: u64,
        cids: &Cids,
    ) -> Result<(), StoreFault>
        requires known { IsKnown D.Disk disk.old self.old }
        requires head { Fits (record_kind.Head height cids.now) }
        ensures told { (records others : List Record) → IsTrue D.told → Keeps D.Disk disk.old self.old records others → KeepsWritten D.Disk disk.old disk.new self.old self.new records others (record_kind.Head height cids.now) result }
        ensures written { Writes D.Disk disk.old disk.new self.old self.new (record_kind.Head height cids.now) result }
    {
        // `end` ensures that the log is within bounds, and `len` that each CID is well formed.
        prove!(self.log.end() < self.config.limit);
        prove!(cids.len() <= 64);
        let mut frame = encode_head(alloc, height, cids)?;
        let cids = cids.duplicate()?;
        append_record(&mut self.log, disk, &mut frame)?;
        self.head = Some((height, cids));
        Ok(())
    }

    /// Sets the base and the count of ended compactions, by one record. Its refusals are those of `put_batch`.
    pub fn set_base<D: Disk>(
        &mut self,
        alloc: Global,
        disk: &mut D,
        base: u64,
        ended: u64,
    ) -> Result<(), StoreFault>
        requires known { IsKnown D.Disk disk.old self.old }
        requires base { base < 2 ^ 63 }
        ensures told { (records others : List Record) → IsTrue D.told → Keeps D.Disk disk.old self.old records others → KeepsWritten D.Disk disk.old disk.new self.old self.new records others (record_kind.Base base ended) result }
        ensures written { Writes D.Disk disk.old disk.new self.old self.new (record_kind.Base base ended) result }
    {
        // `end` ensures that the log is within bounds.
        prove!(self.log.end() < self.config.limit);
        let mut frame = encode(alloc, &Record::Base { base, ended })?;
        append_record(&mut self.log, disk, &mut frame)?;
        self.base = (base, ended);
        Ok(())
    }

    /// Settles a log in doubt: the record that was in doubt does not count. `DiskFault` leaves it in doubt.
    pub fn settle<D: Disk>(&mut self, disk: &mut D) -> Result<(), StoreFault>
        requires { IsKnown D.Disk disk.old self.old }
        ensures told { (records others : List Record) → IsTrue D.told → Keeps D.Disk disk.old self.old records others → StillKeeps D.Disk disk.old disk.new self.old self.new records others }
        ensures settled { Settles D.Disk disk.old disk.new self.old self.new result }
    {
        match self.log.settle(disk) {
            Ok(()) => Ok(()),
            Err(fault) => Err(StoreFault::of_log(self.log.file(), fault)),
        }
    }
}
