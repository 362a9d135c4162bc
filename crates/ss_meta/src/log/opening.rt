ghost use Rattle.std.specs.Prelude.{◌≡◌, ◌≤◌, ◌^◌, ◌<◌, [], ℕ, List, IsTrue, true, Err, IfOk, OnOk};
ghost use Rattle.ss_device.specs.Disk.{Same};
ghost use Rattle.ss_gatelog.specs.Gate.{HasLent, ReadsSame};
ghost use Rattle.ss_records.specs.declared.record.Record.{Record};
ghost use Rattle.ss_store.specs.declared.fault.StoreFault.TheVariants as fault;
ghost use Rattle.ss_meta.specs.Plan.{IsFaulty};
ghost use Rattle.ss_meta.specs.Meta.{Reads, IsOpeningFault};
ghost use Rattle.ss_meta.specs.Opening.{HasRead};

use super::walk::Walk;
use super::{FILE, MetaLog, Plan};
use ss_device::Disk;
use ss_gatelog::Records;
use ss_store::StoreFault;
use std::alloc::Global;

impl MetaLog {
    ghost use Rattle.ss_meta.specs.Meta.{IsOpened, MakesEmpty};

    /// Opens the log of a disk by one pass over its file, of which no more than `limit` bytes are used. A file of less than two
    /// bytes becomes an empty log; any other stays as it is. It costs a sync, a size and a read for each 64 KiB or longer record.
    ///
    /// `Damaged` is at the first record that is invalid. `NoMemory` or `DiskFault` may come in place of any answer.
    pub fn open<D: Disk>(alloc: Global, disk: &mut D, limit: u64) -> Result<MetaLog, StoreFault>
        requires { (65536 ≤ limit) × (limit ≤ 2 ^ 40) }
        ensures opened { IfOk result (IsOpened D.Disk disk.old disk.new 4 limit) }
        ensures damaged { (file at : ℕ) → result ≡ Err (fault.Damaged file at) → (file ≡ 4) × (IsTrue D.told → IsFaulty limit (D.files disk.old 4) at) }
        ensures reads { Reads D.Disk (MakesEmpty D.Disk disk.old 4) disk.old disk.new IsOpeningFault result }
    {
        let mut records = Records::open(alloc, disk, FILE, limit)?;
        let plan = read_plan(alloc, disk, &mut records)?;
        match records.finish(disk) {
            Ok(log) => Ok(MetaLog { log, plan }),
            Err(fault) => Err(StoreFault::of_log(FILE, fault)),
        }
    }
}

/// Reads the records up to the first closed gate, and answers their plan. `Damaged` is at the first that may not follow, or after
/// whose gate none fits.
fn read_plan<D: Disk>(
    alloc: Global,
    disk: &mut D,
    records: &mut Records,
) -> Result<Option<Plan>, StoreFault>
    requires file { (records.old.file ≡ 4) × (records.old.at < records.old.limit) }
    requires known { records.old.size ≤ D.known disk.old 4 }
    requires lent { IsTrue D.told → HasLent D.Disk disk.old records.old [] }
    ensures ended { OnOk result (records.new.ended ≡ true) }
    ensures read { IfOk result (λ plan. (all : List Record) × (IsTrue D.told → HasRead D.Disk disk.new records.new plan all)) }
    ensures damaged { (file at : ℕ) → result ≡ Err (fault.Damaged file at) → (file ≡ 4) × (IsTrue D.told → IsFaulty records.old.limit (D.files disk.old 4) at) }
    ensures same { ReadsSame records.old records.new }
    ensures reads { Reads D.Disk Same disk.old disk.new IsOpeningFault result }
{
    let mut walk = Walk::new(alloc);
    loop {
        match records.next(disk) {
            Ok(Some(at)) => {
                if !walk.take(alloc, records.body())? {
                    return Err(StoreFault::Damaged { file: FILE, at });
                }
            }
            Ok(None) => return Ok(walk.plan),
            Err(fault) => return Err(StoreFault::of_records(FILE, fault)),
        }
    }
}
