ghost use Rattle.std.specs.Prelude.{◌≡◌, ◌+◌, ◌≤◌, List, length, Err, IsTrue};
ghost use Rattle.ss_gatelog.specs.Log.{longest_body};
ghost use Rattle.ss_gatelog.specs.GateLog.{Stands};
ghost use Rattle.ss_records.specs.declared.record.Record.{Record};
ghost use Rattle.ss_records.specs.Record.{frame, spelling};
ghost use Rattle.ss_store.specs.Append.{bodies, Appends, KeepsAppended};
ghost use Rattle.ss_store.specs.declared.fault.StoreFault.TheVariants as fault;

use crate::StoreFault;
use ss_device::Disk;
use ss_gatelog::GateLog;

/// Appends a record by its frame. A log in doubt is settled first.
///
/// First `LogFull`, which leaves all as it was; then `DiskFault`, after which the log may be in doubt.
pub fn append_record<D: Disk>(
    log: &mut GateLog,
    disk: &mut D,
    framed: &mut [u8],
) -> Result<(), StoreFault>
    requires frame { 5 ≤ length framed.old }
    requires body { length framed.old ≤ longest_body + 5 }
    requires known { log.old.end + 1 ≤ D.known disk.old log.old.file }
    ensures told { (r : Record) (records others : List Record) → framed.old ≡ frame (spelling r) → IsTrue D.told → Stands D.Disk disk.old log.old (bodies records) (bodies others) → KeepsAppended D.Disk disk.old disk.new log.old log.new records others r result }
    ensures appended { Appends D.Disk disk.old disk.new log.old log.new (length framed.old) result }
    ensures memory { result ≡ Err fault.NoMemory → ⊥ }
{
    let file = log.file();
    let need = framed.len() as u64;
    let room = log.room();
    if need > room {
        return Err(StoreFault::LogFull { file, need, room });
    }
    if let Err(fault) = log.settle(disk) {
        return Err(StoreFault::of_log(file, fault));
    }
    match log.append(disk, framed) {
        Ok(_) => Ok(()),
        Err(fault) => Err(StoreFault::of_log(file, fault)),
    }
}
