use ss_cid::{CODEC_RAW, Cid, Cids, HASH_SHA2_256};
use ss_disk::{Disk, MemoryDisk};
use ss_hot::HotStore;
use ss_store::StoreFault;
use std::alloc::Global;
use std::test::Fail;

/// The records of the generation 1 and of settings, with a limit of 2^40 bytes and 2^32 - 1 rows.
const SETTINGS: [u8; 54] =
    *b"\xa5\0\0\0\x09\x02\0\0\0\0\0\0\0\x01\xa5\0\0\0\x23\x01\x01\x01\0\0\0\0\0\0\x0e\x10\0\0\0\0\0\0\x11\x94\0\0\x01\0\xff\xff\xff\xff\0\0\x01\0\0\0\0\0";

/// A closed gate.
const NOTHING: &[u8] = b"\0";

/// The record of a block of three bytes.
const PUT: &[u8] = b"\xa5\0\0\0\x0f\x03\0\x01\x01\x55\x12\x01\xaa\0\0\0\x03xyz\0";

/// That record, and one that takes the block out.
const DROPPED: &[u8] =
    b"\xa5\0\0\0\x0f\x03\0\x01\x01\x55\x12\x01\xaa\0\0\0\x03xyz\xa5\0\0\0\x08\x04\0\x01\x01\x55\x12\x01\xaa\0";

/// The record of a generation.
const GENERATION: &[u8] = b"\xa5\0\0\0\x09\x02\0\0\0\0\0\0\0\x02\0";

/// An open gate with nothing behind it.
const UNFIT: &[u8] = b"\xa5";

// What a log is opened as: none, a store of so many blocks, or one that is damaged at this gate.
#[derive(Clone, Copy, PartialEq, Eq)]
enum Opened {
    NoStore,
    Blocks(u64),
    Damaged(u64),
    Otherwise,
}

// What stands behind the settings, a byte that is written over and its place, and what the log is opened as.
const LOGS: [(&[u8], u64, u8, Opened); 11] = [
    (NOTHING, 0, 0xa5, Opened::Blocks(0)),
    // A gate of the first two records is closed, or another record stands in place of the settings.
    (NOTHING, 0, 0x00, Opened::NoStore),
    (NOTHING, 14, 0x00, Opened::NoStore),
    (NOTHING, 19, 0x06, Opened::NoStore),
    (PUT, 0, 0xa5, Opened::Blocks(1)),
    (DROPPED, 0, 0xa5, Opened::Blocks(0)),
    // One block too few.
    (DROPPED, 61, 0x02, Opened::Damaged(54)),
    // A record that is not for this log.
    (DROPPED, 79, 0x13, Opened::Damaged(74)),
    (GENERATION, 0, 0xa5, Opened::Damaged(54)),
    (UNFIT, 0, 0xa5, Opened::Damaged(54)),
    // A bad record in front of an unfit gate.
    (UNFIT, 5, 0x13, Opened::Damaged(0)),
];

// A disk on which file 0 holds the settings and these bytes behind them, with one byte written over.
fn holding(alloc: Global, behind: &[u8], at: u64, byte: u8) -> Result<MemoryDisk, Fail> {
    if behind.len() > 1 << 20 || at > 54 + behind.len() as u64 {
        return Err("too long, or too far".into());
    }
    let mut disk = MemoryDisk::new(alloc)?;
    disk.write(0, 0, &SETTINGS)?;
    disk.write(0, 54, behind)?;
    disk.write(0, at, &[byte])?;
    Ok(disk)
}

fn outcome(alloc: Global, disk: &mut MemoryDisk) -> Opened {
    match HotStore::open(alloc, disk) {
        Ok(Some(store)) => Opened::Blocks(store.count()),
        Ok(None) => Opened::NoStore,
        Err(StoreFault::Damaged { file: 0, at }) => Opened::Damaged(at),
        Err(_) => Opened::Otherwise,
    }
}

// Whether a log is opened so, and counts as one just where it is a store.
fn is_opened_as(alloc: Global, mut disk: MemoryDisk, wanted: Opened) -> bool {
    let is_committed = HotStore::is_committed(alloc, &mut disk) == Ok(wanted != Opened::NoStore);
    is_committed && outcome(alloc, &mut disk) == wanted
}

#[test]
fn each_log_opens_as_its_records_say(rt: HostRuntime) -> Result<(), Fail> {
    for (behind, at, byte, wanted) in LOGS {
        let disk = holding(rt.alloc(), behind, at, byte)?;
        assert!(rt;
            is_opened_as(rt.alloc(), disk, wanted),
            "{byte} at {at} before {behind:?}"
        );
    }
    Ok(())
}

// Drops a block from the store of a disk.
#[tactic(auto, unfolding(ss_cid::specs::Cid::identity_of))]
fn drop_block(alloc: Global, disk: &mut MemoryDisk) -> Result<(), Fail> {
    let cid = Cid::make(CODEC_RAW, HASH_SHA2_256, b"\xaa")?;
    if cid.identity().is_some() {
        return Err("an identity CID".into());
    }
    let mut cids = Cids::new(alloc);
    cids.push(cid)?;
    let mut store = HotStore::open(alloc, disk)?.ok_or("no settings")?;
    store.drop_batch(alloc, disk, &cids)?;
    Ok(())
}

// Sets the base of the store of a disk.
fn set_base(alloc: Global, disk: &mut MemoryDisk) -> Result<(), Fail> {
    let mut store = HotStore::open(alloc, disk)?.ok_or("no settings")?;
    store.set_base(alloc, disk, 7, 1)?;
    Ok(())
}

// The base of the store of a disk.
fn base(alloc: Global, disk: &mut MemoryDisk) -> Result<(u64, u64), Fail> {
    Ok(HotStore::open(alloc, disk)?.ok_or("no settings")?.base())
}

#[test]
fn a_dropped_block_and_a_base_are_there_after_opening(rt: HostRuntime) -> Result<(), Fail> {
    let mut disk = holding(rt.alloc(), PUT, 0, 0xa5)?;
    drop_block(rt.alloc(), &mut disk)?;
    set_base(rt.alloc(), &mut disk)?;
    let mut disk = disk.crash(rt.alloc(), 0)?;
    assert!(rt; outcome(rt.alloc(), &mut disk) == Opened::Blocks(0));
    assert!(rt; base(rt.alloc(), &mut disk)? == (7, 1));
    Ok(())
}

// The records of the bases 0 to 9,999, and a closed gate behind them.
fn bases(alloc: Global) -> Result<Vec<u8>, Fail> {
    let mut records = Vec::new(alloc);
    for base in 0..10_000u32 {
        records.extend_from_slice(b"\xa5\0\0\0\x11\x06\0\0\0\0")?;
        records.extend_from_slice(&base.to_be_bytes())?;
        records.extend_from_slice(b"\0\0\0\0\0\0\0\x05")?;
    }
    records.push(0)?;
    Ok(records)
}

#[test]
fn a_long_log_is_read_once_in_pieces(rt: HostRuntime) -> Result<(), Fail> {
    let mut disk = holding(rt.alloc(), bases(rt.alloc())?.as_slice(), 0, 0xa5)?;
    let before = disk.calls();
    assert!(rt; base(rt.alloc(), &mut disk)? == (9_999, 5));
    // A sync, a size, and a read for each 64 KiB of 220,055 bytes.
    assert_eq!(rt; disk.calls().checked_sub(before), Some(6));
    Ok(())
}
