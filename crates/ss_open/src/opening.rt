ghost use Rattle.std.specs.Prelude.{IsTrue};
ghost use Rattle.ss_core.specs.StandsFor.{KeepsState};
ghost use Rattle.ss_open.specs.Opening.{Opened, Opens, disk_of};

use crate::OpenFault;
use crate::fault::open_fault;
use ss_core::{PartsFault, SplitCore};
use ss_device::Disk;
use ss_hot::HotStore;
use std::alloc::Global;

/// The file of the hot log.
const HOT: u8 = 0;

/// The offset of the settings' gate, after the record of a generation.
const SETTINGS_GATE: u64 = 14;

/// Opens the store of a disk. No view is open. Nothing is written.
///
/// First `NoStore`, then `Damaged`; each of the other faults but `StoreExists` may come in its place. The disk comes back with a
/// fault.
pub fn open<D: Disk>(alloc: Global, disk: D) -> Result<SplitCore<D>, (OpenFault, D)>
    ensures told { IsTrue D.told → Opened D.Disk disk result }
    ensures keeps { IsTrue D.told → KeepsState D.Disk disk (disk_of result) }
    ensures opens { Opens disk result }
{
    let mut disk = disk;
    match HotStore::open(alloc, &mut disk) {
        Ok(Some(hot)) => match SplitCore::from_parts(disk, hot) {
            Ok(core) => Ok(core),
            Err((PartsFault::TooMany { .. }, disk)) => {
                let file = HOT;
                let at = SETTINGS_GATE;
                Err((OpenFault::Damaged { file, at }, disk))
            },
        },
        Ok(None) => Err((OpenFault::NoStore, disk)),
        Err(fault) => Err((open_fault(fault), disk)),
    }
}
