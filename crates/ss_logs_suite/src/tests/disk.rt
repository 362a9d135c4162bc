ghost use Rattle.std.specs.Prelude.{◌<◌};

use ss_disk::{Disk, MemoryDisk};
use std::alloc::Global;
use std::test::Fail;

// The first bytes of a file, with `ee` past its end.
fn front(disk: &mut MemoryDisk, file: u8) -> Result<[u8; 4], Fail>
    requires { file < 6 }
{
    let mut out = [0xee; 4];
    let len = disk.size(file)?.min(4) as usize;
    disk.read(file, 0, &mut out[..len])?;
    Ok(out)
}

// Whether five calls of a disk are answered, by the bits of a number from the first call on.
fn answered(disk: &mut MemoryDisk) -> u8 {
    let mut bits = u8::from(disk.size(3).is_ok());
    bits |= u8::from(disk.read(3, 0, &mut []).is_ok()) << 1;
    bits |= u8::from(disk.write(3, 0, &[1, 2, 3, 4]).is_ok()) << 2;
    bits |= u8::from(disk.write(3, 0, &[5]).is_ok()) << 3;
    bits | u8::from(disk.sync(3).is_ok()) << 4
}

// The listed call, the calls that are answered, and what a read gives then: a failed write leaves its range torn, call 2
// the first half of its bytes, and call 3 another byte.
const LISTED: [(u64, u8, [u8; 4]); 6] = [
    (9, 0b11111, [5, 2, 3, 4]),
    (0, 0b11110, [5, 2, 3, 4]),
    (1, 0b11101, [5, 2, 3, 4]),
    (2, 0b11011, [5, 2, 0xee, 0xee]),
    (3, 0b10111, [0xa5, 2, 3, 4]),
    (4, 0b01111, [5, 2, 3, 4]),
];

// Whether a disk answers so, and holds these bytes, where this call is to fail.
fn fails_at(alloc: Global, call: u64, bits: u8, bytes: [u8; 4]) -> Result<bool, Fail> {
    let mut disk = MemoryDisk::new(alloc)?;
    disk.fail_at(call)?;
    Ok(answered(&mut disk) == bits && disk.calls() == 5 && front(&mut disk, 3)? == bytes)
}

#[test]
fn a_listed_call_fails(rt: HostRuntime) -> Result<(), Fail> {
    for (call, bits, bytes) in LISTED {
        assert!(rt; fails_at(rt.alloc(), call, bits, bytes)?, "at call {call}");
    }
    Ok(())
}

// A disk that wrote file 0 twice, and synced it between.
fn half_synced(alloc: Global) -> Result<MemoryDisk, Fail> {
    let mut disk = MemoryDisk::new(alloc)?;
    disk.write(0, 0, &[1, 2, 3])?;
    disk.sync(0)?;
    disk.write(0, 0, &[4, 5, 6, 7])?;
    Ok(disk)
}

// After how many calls, the number, and what file 0 holds then.
const LEFT: [(u64, u64, [u8; 4]); 15] = [
    (0, 1, [0xee, 0xee, 0xee, 0xee]),
    (1, 0, [0xee, 0xee, 0xee, 0xee]),
    (1, 1, [1, 2, 3, 0xee]),
    (1, 2, [1, 0xee, 0xee, 0xee]),
    (1, 3, [0xa5, 0xa5, 0xa5, 0xee]),
    (1, 4, [0xff, 0xff, 0xff, 0xee]),
    (1, 5, [0x5a, 0x5a, 0x5a, 0xee]),
    (2, 0, [1, 2, 3, 0xee]),
    (2, 3, [1, 2, 3, 0xee]),
    (3, 0, [1, 2, 3, 0xee]),
    (3, 1, [4, 5, 6, 7]),
    (3, 2, [4, 5, 3, 0xee]),
    (3, 3, [0xa5, 0xa5, 0xa5, 0xa5]),
    (3, 4, [0xff, 0xff, 0xff, 0xff]),
    (3, 5, [0x5a, 0x5a, 0x5a, 0x5a]),
];

// What a crash after some of the calls leaves of file 0.
fn left(alloc: Global, disk: &MemoryDisk, call: u64, choice: u64) -> Result<[u8; 4], Fail> {
    front(
        &mut disk.crash_at(alloc, call.min(disk.calls()), choice)?,
        0,
    )
}

#[test]
fn a_crash_leaves_what_its_number_picks(rt: HostRuntime) -> Result<(), Fail> {
    let disk = half_synced(rt.alloc())?;
    for (call, choice, bytes) in LEFT {
        let left = left(rt.alloc(), &disk, call, choice)?;
        assert!(rt; left == bytes, "after {call} calls, choice {choice}");
    }
    Ok(())
}

// Whether a crash may leave a write of one file and lose that of another.
fn fare_apart(alloc: Global, kept: u8, lost: u8) -> Result<bool, Fail>
    requires kept { kept < 6 }
    requires lost { lost < 6 }
{
    let mut disk = MemoryDisk::new(alloc)?;
    disk.write(kept, 0, &[1, 2, 3, 4])?;
    disk.write(lost, 0, &[5, 6])?;
    for choice in 6..16u64 {
        let mut left = disk.crash(alloc, choice)?;
        if front(&mut left, kept)? == [1, 2, 3, 4] && front(&mut left, lost)? == [0xee; 4] {
            return Ok(true);
        }
    }
    Ok(false)
}

#[test]
fn two_files_fare_apart(rt: HostRuntime) -> Result<(), Fail> {
    assert!(rt; fare_apart(rt.alloc(), 0, 1)? && fare_apart(rt.alloc(), 1, 0)?);
    Ok(())
}
