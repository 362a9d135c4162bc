ghost use Rattle.std.specs.Prelude.{◌≡◌, ◌^◌, ◌≤◌, Err, IsTrue, IfOk, OnOk};
ghost use Rattle.ss_device.specs.Disk.{Files, HasCause};
ghost use Rattle.ss_device.specs.Calls.{Goes};
ghost use Rattle.ss_records.specs.Record.{SettingsFit};
ghost use Rattle.ss_hot.specs.Store.{IsNew};
ghost use Rattle.ss_open.specs.Opening.{IsCommitted, HasNoStore, AreEmptyBeside, IsNewStore, Made, Inits, KeepsFirst, disk_of, answer_of};

use crate::OpenFault;
use crate::fault::open_fault;
use ss_core::{PartsFault, SplitCore};
use ss_device::{Disk, DiskFault};
use ss_gatelog::GateLog;
use ss_hot::{FirstRecords, HotStore};
use ss_records::Config;
use std::alloc::Global;

/// Makes a store with these settings, in which nothing is kept.
///
/// First `StoreExists`, where settings are committed on the disk already; `DiskFault` or `NoMemory` may come in its place. Where
/// there is a store, and out of memory, every file is left as it was; after `DiskFault` files may be empty.
pub fn init<D: Disk>(alloc: Global, disk: D, config: Config) -> Result<SplitCore<D>, (OpenFault, D)>
    requires { SettingsFit config }
    ensures told { IsTrue D.told → Made D.Disk disk config result }
    ensures inits { Inits D.Disk disk (disk_of result) config (answer_of result) }
{
    let mut disk = disk;
    match make(alloc, &mut disk, config) {
        Ok(hot) => match SplitCore::from_parts(disk, hot) {
            Ok(core) => Ok(core),
            Err((PartsFault::TooMany { .. }, _)) => unreachable!(),
        },
        Err(fault) => Err((fault, disk)),
    }
}

// Makes the hot store, unless there is one. All memory is taken before a file is touched; the other files are emptied before
// that of the hot log, so that nothing of an older store is left beside it.
fn make<D: Disk>(alloc: Global, disk: &mut D, config: Config) -> Result<HotStore, OpenFault>
    requires { SettingsFit config }
    ensures new { IfOk result (IsNew D.Disk disk.new config) }
    ensures images { IsTrue D.told → OnOk result (IsNewStore D.Disk disk.new config) }
    ensures not_there { IsTrue D.told → OnOk result (HasNoStore (D.files disk.old)) }
    ensures exists { result ≡ Err OpenFault.StoreExists → IsTrue D.told → (settings : _) × IsCommitted (D.files disk.old) settings }
    ensures inits { Inits D.Disk disk.old disk.new config result }
{
    match HotStore::is_committed(alloc, disk) {
        Ok(false) => {}
        Ok(true) => return Err(OpenFault::StoreExists),
        Err(fault) => return Err(open_fault(fault)),
    }
    let Ok(first) = FirstRecords::new(alloc, config) else {
        return Err(OpenFault::NoMemory);
    };
    let Ok(()) = empty_files(disk, config.limit) else {
        return Err(OpenFault::DiskFault);
    };
    match first.write(alloc, disk) {
        Ok(hot) => Ok(hot),
        Err(fault) => Err(open_fault(fault)),
    }
}

// Makes each file but that of the hot log an empty log.
fn empty_files<D: Disk>(disk: &mut D, limit: u64) -> Result<(), DiskFault>
    requires { (1 ≤ limit) × (limit ≤ 2 ^ 40) }
    ensures emptied { IsTrue D.told → OnOk result ((left : Files) → D.image disk.new (D.moment disk.new) left → AreEmptyBeside limit left) }
    ensures goes { Goes D.Disk KeepsFirst disk.old disk.new }
    ensures cause { HasCause (D.faults disk.old) (D.faults disk.new) result }
{
    for file in 1..6u8 {
        if GateLog::create(disk, file, limit).is_err() {
            return Err(DiskFault);
        }
    }
    Ok(())
}
