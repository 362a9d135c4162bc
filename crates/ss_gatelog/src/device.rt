// Writes that are on the disk when they return.
ghost use Rattle.std.specs.Prelude.{◌≡◌, ◌+◌, ◌^◌, ◌<◌, ◌≤◌, length, IsTrue, IfOk, OnOk};
ghost use Rattle.ss_device.specs.Disk.{Files, Holds, Torn, Same, Changes, HasCause};
ghost use Rattle.ss_device.specs.Calls.{Goes};

use ss_device::{Disk, DiskFault};

/// Writes and syncs. After `Ok` each image now has these bytes there; after a fault each image since has
/// the range as it was, or in part, or any bytes.
pub(crate) fn write_synced<D: Disk>(
    disk: &mut D,
    file: u8,
    at: u64,
    bytes: &[u8],
) -> Result<(), DiskFault>
    requires file { file < 6 }
    requires place { at ≤ D.known disk.old file }
    requires end { at + length bytes.now < 2 ^ 62 }
    ensures goes { Goes D.Disk (Changes file (Torn at (length bytes.now))) disk.old disk.new }
    ensures durable { IsTrue D.told → OnOk result ((left : Files) → D.image disk.new (D.moment disk.new) left → Holds at bytes.now (D.files disk.old file) (left file)) }
    ensures known { OnOk result (at + length bytes.now ≤ D.known disk.new file) }
    ensures cause { HasCause (D.faults disk.old) (D.faults disk.new) result }
{
    disk.write(file, at, bytes)?;
    disk.sync(file)
}

/// Syncs a file and tells its size in bytes. After `Ok` each image now has the file as a read gives it.
///
/// `DiskFault` may be of the sync or of the size; no byte changes.
pub(crate) fn synced_size<D: Disk>(disk: &mut D, file: u8) -> Result<u64, DiskFault>
    requires { file < 6 }
    ensures goes { Goes D.Disk Same disk.old disk.new }
    ensures length { IsTrue D.told → IfOk result (λ size. size ≡ length (D.files disk.old file)) }
    ensures settled { IsTrue D.told → OnOk result ((left : Files) → D.image disk.new (D.moment disk.new) left → left file ≡ D.files disk.old file) }
    ensures known { IfOk result (λ size. size ≤ D.known disk.new file) }
    ensures cause { HasCause (D.faults disk.old) (D.faults disk.new) result }
{
    disk.sync(file)?;
    disk.size(file)
}
