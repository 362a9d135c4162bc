// What a crash leaves, picked by a number.
ghost use Rattle.std.specs.Prelude.{◌≡◌, ◌≤◌, ◌<◌, ◌++◌, ℕ, List, IsTrue, IfOk, OnOk, drop, length};
ghost use Rattle.ss_disk.specs.declared.memory.call.DeviceCall.{DeviceCall};
ghost use Rattle.ss_disk.specs.Memory.{contents, story, read_after, MayLeave, fits, syncs, unsynced, placed, replayed, Tears};
ghost use Rattle.ss_device.specs.Disk.{Torn};

use super::bytes::{cut_short, overwrite};
use super::call::DeviceCall;
use super::way::Way;
use ss_device::FILES;
use std::alloc::{AllocError, Global};

/// One image of all files that a crash after these calls may leave.
pub(super) fn images(
    alloc: Global,
    first: &[Vec<u8>; FILES],
    calls: &[DeviceCall],
    choice: u64,
) -> Result<[Vec<u8>; FILES], AllocError>
    requires six { length first.now ≡ 6 }
    requires fitting { (g : ℕ) → IsTrue (fits (contents first.now g) (story g calls.now)) }
    ensures six { IfOk result (λ files. length files ≡ 6) }
    ensures images { IfOk result (λ files. (file : ℕ) → file < 6 → MayLeave (contents first.now file) (story file calls.now) (contents files file)) }
{
    Ok([
        image(alloc, first, calls, 0, choice)?,
        image(alloc, first, calls, 1, choice)?,
        image(alloc, first, calls, 2, choice)?,
        image(alloc, first, calls, 3, choice)?,
        image(alloc, first, calls, 4, choice)?,
        image(alloc, first, calls, 5, choice)?,
    ])
}

fn image(
    alloc: Global,
    first: &[Vec<u8>; FILES],
    calls: &[DeviceCall],
    file: u8,
    choice: u64,
) -> Result<Vec<u8>, AllocError>
    requires six { length first.now ≡ 6 }
    requires file { file < 6 }
    requires fitting { (g : ℕ) → IsTrue (fits (contents first.now g) (story g calls.now)) }
    ensures { IfOk result (λ left. MayLeave (contents first.now file) (story file calls.now) left.items) }
{
    let (before, after) = calls.split_at(settled_calls(calls, file));
    let mut left = read_back(alloc, &first[file as usize], before, file)?;
    tear_all(alloc, &mut left, after, file, choice)?;
    Ok(left)
}

// How many of the calls stand up to the last that synced the file.
fn settled_calls(calls: &[DeviceCall], file: u8) -> usize
    ensures within { result ≤ length calls.now }
    ensures after { IsTrue (unsynced file (drop result calls.now)) }
{
    let mut settled = 0;
    for (index, call) in calls.iter().enumerate() {
        if is_sync(call, file) {
            settled = index + 1;
        }
    }
    settled
}

fn is_sync(call: &DeviceCall, file: u8) -> bool
    ensures { result ≡ syncs file call.now }
{
    matches!(call, DeviceCall::Synced { file: synced } if *synced == file)
}

// What a read gives after these calls.
fn read_back(
    alloc: Global,
    first: &[u8],
    calls: &[DeviceCall],
    file: u8,
) -> Result<Vec<u8>, AllocError>
    requires { IsTrue (fits first.now (story file calls.now)) }
    ensures { IfOk result (λ bytes. bytes.items ≡ read_after first.now (story file calls.now)) }
{
    let mut bytes = first.to_vec(alloc)?;
    for call in calls {
        replay(&mut bytes, call, file)?;
    }
    Ok(bytes)
}

fn replay(bytes: &mut Vec<u8>, call: &DeviceCall, file: u8) -> Result<(), AllocError>
    requires { IsTrue (placed file call.now bytes.old.items) }
    ensures { OnOk result (bytes.new.items ≡ replayed file call.now bytes.old.items) }
{
    match call {
        DeviceCall::Wrote {
            file: written,
            at,
            left,
            ..
        } if *written == file => overwrite(bytes, *at as usize, left),
        _ => Ok(()),
    }
}

// What a crash leaves of a file after more calls, none of which synced it.
fn tear_all(
    alloc: Global,
    bytes: &mut Vec<u8>,
    calls: &[DeviceCall],
    file: u8,
    choice: u64,
) -> Result<(), AllocError>
    requires { IsTrue (unsynced file calls.now) }
    ensures { OnOk result ((first : List ℕ) (earlier : List DeviceCall) → MayLeave first earlier bytes.old.items → MayLeave first (story file calls.now ++ earlier) bytes.new.items) }
{
    for (index, call) in calls.iter().enumerate() {
        tear(alloc, bytes, call, file, way(choice, file, index))?;
    }
    Ok(())
}

// What a crash leaves of one call.
fn tear(
    alloc: Global,
    bytes: &mut Vec<u8>,
    call: &DeviceCall,
    file: u8,
    way: Way,
) -> Result<(), AllocError>
    ensures { OnOk result (Tears file call.now bytes.old.items bytes.new.items) }
{
    match call {
        DeviceCall::Wrote {
            file: written,
            at,
            left,
            ..
        } if *written == file => tear_write(alloc, bytes, *at, left, way),
        _ => Ok(()),
    }
}

fn tear_write(
    alloc: Global,
    bytes: &mut Vec<u8>,
    at: u64,
    left: &[u8],
    way: Way,
) -> Result<(), AllocError>
    ensures { OnOk result ((n : ℕ) → length left.now ≤ n → Torn at n bytes.old.items bytes.new.items) }
{
    let at = at as usize;
    if at > bytes.len() {
        // The file ends before the write: a crash that took what stood there took this too.
        return Ok(());
    }
    overwrite(bytes, at, &cut_short(alloc, left, way)?)
}

// Which way a write goes: the same way for all below 6, else one for each, by the file and the call.
fn way(choice: u64, file: u8, call: usize) -> Way {
    if choice < 6 {
        return Way::of(choice);
    }
    let mixed = (choice ^ (call as u64)).wrapping_mul(0x9e37_79b9_7f4a_7c15) ^ u64::from(file);
    Way::of(mixed.wrapping_mul(0xbf58_476d_1ce4_e5b9) >> 32)
}
