// Calls of a log that no store makes yet.
use ss_disk::{Disk, MemoryDisk};
use ss_gatelog::GateLog;
use std::alloc::Global;
use std::test::Fail;

/// A log of a body of two bytes and one of none.
const SMALL: [u8; 13] = *b"\xa5\0\0\0\x02\x01\x02\xa5\0\0\0\0\0";

// The offset and the length of the body behind each gate of it, the last of which is closed.
const ENTRIES: [(u64, Option<(u64, u32)>); 3] = [(0, Some((5, 2))), (7, Some((12, 0))), (12, None)];

// A disk on which file 4 holds that log.
fn small(alloc: Global) -> Result<MemoryDisk, Fail> {
    let mut disk = MemoryDisk::new(alloc)?;
    disk.write(4, 0, &SMALL)?;
    Ok(disk)
}

// Whether the log of file 4 has this entry.
fn has_entry(disk: &mut MemoryDisk, at: u64, entry: Option<(u64, u32)>) -> Result<bool, Fail> {
    let log = GateLog::open(disk, 4, 64)?;
    Ok(at <= log.end() && log.entry(disk, at)? == entry)
}

#[test]
fn a_log_is_gone_through_by_its_entries(rt: HostRuntime) -> Result<(), Fail> {
    let mut disk = small(rt.alloc())?;
    for (at, entry) in ENTRIES {
        assert!(rt; has_entry(&mut disk, at, entry)?, "at {at}");
    }
    Ok(())
}

// Where the log of file 4 ends, restarted or not.
fn end_of(disk: &mut MemoryDisk, restarted: bool) -> Result<u64, Fail> {
    let mut log = GateLog::open(disk, 4, 64)?;
    if restarted {
        log.restart(disk)?;
    }
    Ok(log.end())
}

#[test]
fn a_log_that_is_restarted_is_empty(rt: HostRuntime) -> Result<(), Fail> {
    let mut disk = small(rt.alloc())?;
    assert_eq!(rt; end_of(&mut disk, false)?, 12);
    assert_eq!(rt; end_of(&mut disk, true)?, 0);
    assert_eq!(rt; end_of(&mut disk.crash(rt.alloc(), 0)?, false)?, 0);
    Ok(())
}
