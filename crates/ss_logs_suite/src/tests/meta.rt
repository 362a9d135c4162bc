ghost use Rattle.std.specs.Prelude.{◌≡◌, ◌∷◌, [], ℕ, List, IfOk};
ghost use Rattle.ss_records.specs.Record.{IsStored};

use ss_cid::{CODEC_RAW, Cid, Cids, HASH_SHA2_256};
use ss_disk::{Disk, MemoryDisk};
use ss_meta::MetaLog;
use ss_store::StoreFault;
use std::alloc::Global;
use std::test::Fail;

/// How many bytes of the file are used.
const LIMIT: u64 = 65_536;

/// The records of a plan: a start at 0, a candidate at 20, the seal at 33, a note of one copied block at 47 and one of one purged
/// block at 61; and a closed gate at 75.
const PLAN: &[u8] =
    b"\xa5\0\0\0\x0f\x11\0\0\0\0\0\0\0\x07\x01\x01\x55\x12\x01\xaa\xa5\0\0\0\x08\x12\0\x01\x01\x55\x12\x01\xbb\xa5\0\0\0\x09\x13\0\0\0\0\0\0\0\x01\xa5\0\0\0\x09\x14\0\0\0\0\0\0\0\x01\xa5\0\0\0\x09\x15\0\0\0\0\0\0\0\x01\0";

/// A start, and two candidates with one CID, in two records and in one.
const TWICE: &[u8] =
    b"\xa5\0\0\0\x0f\x11\0\0\0\0\0\0\0\x07\x01\x01\x55\x12\x01\xaa\xa5\0\0\0\x08\x12\0\x01\x01\x55\x12\x01\xbb\xa5\0\0\0\x08\x12\0\x01\x01\x55\x12\x01\xbb\0";

const TWICE_IN_ONE: &[u8] =
    b"\xa5\0\0\0\x0f\x11\0\0\0\0\0\0\0\x07\x01\x01\x55\x12\x01\xaa\xa5\0\0\0\x0d\x12\0\x02\x01\x55\x12\x01\xbb\x01\x55\x12\x01\xbb\0";

/// One byte.
const SHORT: &[u8] = b"\0";

// What a log is opened as: no plan; one with so many candidates, sealed or not, so many of them copied and so many purged; or damaged at this gate.
#[derive(Clone, Copy, PartialEq, Eq)]
enum Opened {
    NoPlan,
    Plan(usize, bool, u64, u64),
    Damaged(u64),
    Otherwise,
}

// The bytes of file 4, a byte that is written over and its offset, and what the log is opened as.
const LOGS: [(&[u8], u64, u8, Opened); 15] = [
    (PLAN, 0, 0xa5, Opened::Plan(1, true, 1, 1)),
    (PLAN, 61, 0x00, Opened::Plan(1, true, 1, 0)),
    (PLAN, 47, 0x00, Opened::Plan(1, true, 0, 0)),
    (PLAN, 33, 0x00, Opened::Plan(1, false, 0, 0)),
    (PLAN, 20, 0x00, Opened::Plan(0, false, 0, 0)),
    (PLAN, 0, 0x00, Opened::NoPlan),
    (SHORT, 0, 0xa5, Opened::NoPlan),
    // A total that is not that of the candidates.
    (PLAN, 46, 0x02, Opened::Damaged(33)),
    // Notes that pass it.
    (PLAN, 60, 0x02, Opened::Damaged(47)),
    (PLAN, 74, 0x02, Opened::Damaged(61)),
    // Records that may not stand there.
    (PLAN, 5, 0x06, Opened::Damaged(0)),
    (PLAN, 38, 0x14, Opened::Damaged(33)),
    (PLAN, 52, 0x13, Opened::Damaged(47)),
    // A candidate that is one already.
    (TWICE, 0, 0xa5, Opened::Damaged(33)),
    (TWICE_IN_ONE, 0, 0xa5, Opened::Damaged(20)),
];

// A disk on which file 4 holds these bytes, with one byte written over.
fn holding(alloc: Global, bytes: &[u8], at: u64, byte: u8) -> Result<MemoryDisk, Fail> {
    if bytes.len() > 1 << 20 || at > bytes.len() as u64 {
        return Err("too long, or too far".into());
    }
    let mut disk = MemoryDisk::new(alloc)?;
    disk.write(4, 0, bytes)?;
    disk.write(4, at, &[byte])?;
    Ok(disk)
}

fn outcome(alloc: Global, disk: &mut MemoryDisk) -> Opened {
    match MetaLog::open(alloc, disk, LIMIT) {
        Ok(store) => match store.plan() {
            Some(plan) => Opened::Plan(plan.cold.len(), plan.sealed, plan.copied, plan.purged),
            None => Opened::NoPlan,
        },
        Err(StoreFault::Damaged { file: 4, at }) => Opened::Damaged(at),
        Err(_) => Opened::Otherwise,
    }
}

#[test]
fn each_plan_opens_as_its_records_say(rt: HostRuntime) -> Result<(), Fail> {
    for (bytes, at, byte, wanted) in LOGS {
        let mut disk = holding(rt.alloc(), bytes, at, byte)?;
        assert!(rt;
            outcome(rt.alloc(), &mut disk) == wanted,
            "{byte} at {at} of {bytes:?}"
        );
    }
    Ok(())
}

// A list of one CID, which is no identity CID.
#[tactic(auto, unfolding(ss_cid::specs::Cid::identity_of))]
fn one_cid(alloc: Global, digest: u8) -> Result<Cids, Fail>
    ensures { IfOk result (λ cids. (c : List ℕ) × (cids ≡ c ∷ []) × IsStored c) }
{
    let cid = Cid::make(CODEC_RAW, HASH_SHA2_256, &[digest])?;
    if cid.identity().is_some() {
        return Err("an identity CID".into());
    }
    let mut cids = Cids::new(alloc);
    cids.push(cid)?;
    Ok(cids)
}

// Makes a plan of one candidate, which is copied and purged.
fn make_plan(alloc: Global, disk: &mut MemoryDisk) -> Result<(), Fail> {
    let roots = one_cid(alloc, 0xaa)?;
    let cids = one_cid(alloc, 0xbb)?;
    let mut store = MetaLog::open(alloc, disk, LIMIT)?;
    store.start(alloc, disk, 7, &roots)?;
    store.add_cold(alloc, disk, &cids)?;
    store.seal(alloc, disk)?;
    store.note_copied(alloc, disk, 1)?;
    store.note_purged(alloc, disk, 1)?;
    Ok(())
}

#[test]
fn a_plan_is_there_after_opening(rt: HostRuntime) -> Result<(), Fail> {
    let mut disk = MemoryDisk::new(rt.alloc())?;
    make_plan(rt.alloc(), &mut disk)?;
    let mut disk = disk.crash(rt.alloc(), 0)?;
    assert!(rt; outcome(rt.alloc(), &mut disk) == Opened::Plan(1, true, 1, 1));
    Ok(())
}
