use ss_app::{Exit, run_alone};
use ss_cid::{Bytes, CODEC_RAW, Cid, HASH_IDENTITY};
use ss_core::SplitCore;
use ss_disk::{Disk, MemoryDisk};
use ss_io::{MemorySink, MemorySource};
use ss_model::{Answer, Call, GetReply, ViewReply};
use ss_open::init;
use ss_records::{Config, Mode};
use std::alloc::Global;
use std::test::Fail;

const INIT: [&str; 3] = ["init", "mode=discard", "depth=0"];

const TRACE: [&str; 1] = ["trace"];

// Three blocks are put: `abc`, no bytes, and an array of a link to the block of no bytes. Python's hashlib computes their
// digests. The second put is of two new ones and of the first again.
const LINES: [&str; 4] = [
    "0 open\n",
    "0 put 0 01551220ba7816bf8f01cfea414140de5dae2223b00361a396177a9cb410ff61f20015ad 616263\n",
    "0 put 0 01551220e3b0c44298fc1c149afbf4c8996fb92427ae41e4649b934ca495991b7852b855 - 01551220ba7816bf8f01cfea414140de5dae2223b00361a396177a9cb410ff61f20015ad 616263 01711220e23ea7332f00f1a1e026c0c4628d7dbebe36dfd743c84a1e564c0efc387a97d8 81d82a58250001551220e3b0c44298fc1c149afbf4c8996fb92427ae41e4649b934ca495991b7852b855\n",
    "0 get 0 01551220ba7816bf8f01cfea414140de5dae2223b00361a396177a9cb410ff61f20015ad\n",
];

// The blocks that each line puts: a bit stands for a block.
const PUTS: [u8; 4] = [0, 0b001, 0b111, 0];

const READS: &str =
    "0 open\n0 get 0 01551220ba7816bf8f01cfea414140de5dae2223b00361a396177a9cb410ff61f20015ad\n0 get 0 01551220e3b0c44298fc1c149afbf4c8996fb92427ae41e4649b934ca495991b7852b855\n0 get 0 01711220e23ea7332f00f1a1e026c0c4628d7dbebe36dfd743c84a1e564c0efc387a97d8\n";

// How the lines end that find them.
const FOUND: [(&str, u8); 3] = [
    (" = found 616263", 1),
    (" = found -", 2),
    (
        " = found 81d82a58250001551220e3b0c44298fc1c149afbf4c8996fb92427ae41e4649b934ca495991b7852b855",
        4,
    ),
];

/// What a run came to.
#[derive(Drop)]
struct Ran {
    status: u8,
    written: String,
    disk: MemoryDisk,
}

// The words of a command line.
fn words_of(alloc: Global, words: &[&str]) -> Result<Vec<String>, Fail> {
    let mut owned = Vec::new(alloc);
    for word in words {
        owned.push(String::from_str(alloc, word)?)?;
    }
    Ok(owned)
}

// What a run over these ends comes to. It says nothing of what the contract of a run does, so that no caller carries that.
fn run_over(
    alloc: Global,
    words: &[String],
    source: &mut MemorySource,
    sink: &mut MemorySink,
    disk: MemoryDisk,
) -> (u8, MemoryDisk) {
    let Exit { status, disk } = run_alone(alloc, words, source, sink, disk);
    (status, disk)
}

// A run over ends in memory.
fn run(alloc: Global, words: &[&str], script: &str, disk: MemoryDisk) -> Result<Ran, Fail> {
    let words = words_of(alloc, words)?;
    let mut source = MemorySource::new(alloc, Bytes::from_slice(alloc, script.as_bytes())?);
    let mut sink = MemorySink::new(alloc);
    let (status, disk) = run_over(alloc, words.as_slice(), &mut source, &mut sink, disk);
    Ok(Ran {
        status,
        written: String::from_utf8_lossy(alloc, sink.written())?,
        disk,
    })
}

// A disk with a store, of which no call is counted yet.
fn made(alloc: Global) -> Result<MemoryDisk, Fail> {
    let ran = run(alloc, &INIT, "", MemoryDisk::new(alloc)?)?;
    Ok(ran.disk.crash(alloc, 0)?)
}

// A run of the first lines.
fn run_lines(alloc: Global, count: usize, disk: MemoryDisk) -> Result<Ran, Fail> {
    let mut script = String::new(alloc);
    for line in LINES.iter().take(count) {
        script.push_str(line)?;
    }
    run(alloc, &TRACE, script.as_str(), disk)
}

// The blocks of the puts that a run of the lines answered with `stored`.
fn answered(written: &str) -> u8 {
    let mut blocks = 0;
    for (line, put) in written.lines().zip(PUTS) {
        if line.contains(" = stored ") {
            blocks |= put;
        }
    }
    blocks
}

// A block if this line finds it, and nothing if it does not; 8 if it finds other bytes, or there is none.
fn found_in(line: Option<&str>, found: &str, block: u8) -> u8 {
    match line {
        Some(line) if line.ends_with(found) => block,
        Some(line) if line.ends_with(" = not-found") => 0,
        _ => 8,
    }
}

// The blocks that a run finds, of which each is found with its bytes or not at all.
fn found(alloc: Global, disk: MemoryDisk) -> Result<u8, Fail> {
    let ran = run(alloc, &TRACE, READS, disk)?;
    let mut lines = ran.written.lines();
    let mut blocks = if lines.next().is_some() {
        ran.status
    } else {
        8
    };
    for (found, block) in FOUND {
        blocks |= found_in(lines.next(), found, block);
    }
    Ok(blocks)
}

// Whether a stop after so many calls leaves these blocks where it loses what is not synced, those where it keeps that, and
// the ones or the others where it does neither.
fn leaves(alloc: Global, disk: &MemoryDisk, call: u64, lost: u8, kept: u8) -> Result<bool, Fail> {
    for choice in 0..8u64 {
        let found = found(alloc, disk.crash_at(alloc, call.min(disk.calls()), choice)?)?;
        let fits = match choice {
            0 => found == lost,
            1 => found == kept,
            _ => found == lost || found == kept,
        };
        if !fits {
            return Ok(false);
        }
    }
    Ok(true)
}

// The blocks whose puts have ended after so many calls, where the two end after these.
fn ended(call: u64, ends: [u64; 2]) -> u8 {
    match (call >= ends[0], call >= ends[1]) {
        (_, true) => PUTS[2],
        (true, _) => PUTS[1],
        _ => 0,
    }
}

// How many calls of the disk a run of the first lines makes.
fn calls(alloc: Global, count: usize) -> Result<u64, Fail> {
    Ok(run_lines(alloc, count, made(alloc)?)?.disk.calls())
}

#[test]
fn a_stop_leaves_each_put_that_was_answered(rt: HostRuntime) -> Result<(), Fail> {
    let ends = [calls(rt.alloc(), 2)?, calls(rt.alloc(), 3)?];
    // A put makes four calls: it writes its record and syncs it, then the gate, and syncs that.
    assert_eq!(rt; ends[1].checked_sub(ends[0]), Some(4));
    let ran = run_lines(rt.alloc(), 4, made(rt.alloc())?)?;
    assert_eq!(rt; answered(ran.written.as_str()), PUTS[2]);
    for call in 0..=ran.disk.calls() {
        let lost = ended(call, ends);
        let kept = ended(call.saturating_add(1), ends);
        assert!(rt;
            leaves(rt.alloc(), &ran.disk, call, lost, kept)?,
            "after {call} calls"
        );
    }
    Ok(())
}

// Whether a run whose disk fails at this call leaves just the blocks whose puts it answered, however it stops: the call
// behind a put that failed undoes what is left of it.
fn goes_on(alloc: Global, call: u64) -> Result<bool, Fail> {
    let mut disk = made(alloc)?;
    disk.fail_at(call)?;
    let ran = run_lines(alloc, 4, disk)?;
    let blocks = answered(ran.written.as_str());
    Ok(ran.disk.faults() == 1 && leaves(alloc, &ran.disk, ran.disk.calls(), blocks, blocks)?)
}

// Whether a run whose disk fails at this call and at the next, which may be that of settling, leaves each block whose put it
// answered, and none with other bytes. A put that failed may be in doubt to the end.
fn keeps_answered(alloc: Global, call: u64) -> Result<bool, Fail> {
    let mut disk = made(alloc)?;
    disk.fail_at(call)?;
    disk.fail_at(call.saturating_add(1))?;
    let ran = run_lines(alloc, 4, disk)?;
    let blocks = answered(ran.written.as_str());
    for choice in 0..8u64 {
        let found = found(alloc, ran.disk.crash_at(alloc, ran.disk.calls(), choice)?)?;
        if found & (blocks | 8) != blocks {
            return Ok(false);
        }
    }
    Ok(true)
}

#[test]
fn a_store_goes_on_after_a_fault(rt: HostRuntime) -> Result<(), Fail> {
    for call in 0..calls(rt.alloc(), 4)? {
        assert!(rt; goes_on(rt.alloc(), call)?, "at call {call}");
        assert!(rt;
            keeps_answered(rt.alloc(), call)?,
            "at call {call} and the next"
        );
    }
    Ok(())
}

/// A log of one record, of a store that is gone: its gate is open.
const OLD_LOG: [u8; 7] = [0xa5, 0, 0, 0, 1, 0x78, 0];

// A disk without a store, on which each file but that of the hot log has an old record.
fn with_old_logs(alloc: Global) -> Result<MemoryDisk, Fail> {
    let mut disk = MemoryDisk::new(alloc)?;
    for file in 1..6u8 {
        disk.write(file, 0, &OLD_LOG)?;
        disk.sync(file)?;
    }
    Ok(disk.crash(alloc, 0)?)
}

// Whether no file but that of the hot log has a record.
fn others_are_empty(disk: &mut MemoryDisk) -> Result<bool, Fail> {
    for file in 1..6u8 {
        if disk.size(file)? > 0 {
            let mut gate = [0];
            disk.read(file, 0, &mut gate)?;
            if gate[0] == OLD_LOG[0] {
                return Ok(false);
            }
        }
    }
    Ok(true)
}

// Whether `init` makes a store or finds one made, without any block and with none of the old records.
fn is_made_again(alloc: Global, disk: MemoryDisk) -> Result<bool, Fail> {
    let mut ran = run(alloc, &INIT, "", disk)?;
    let told = match ran.status {
        0 => "store made\n",
        7 => "error: store exists\n",
        _ => "",
    };
    Ok(
        ran.written.as_str() == told
            && others_are_empty(&mut ran.disk)?
            && found(alloc, ran.disk)? == 0,
    )
}

// The same for all that a stop after so many calls may leave.
fn are_made_again(alloc: Global, disk: &MemoryDisk, call: u64) -> Result<bool, Fail> {
    for choice in 0..8u64 {
        if !is_made_again(alloc, disk.crash_at(alloc, call.min(disk.calls()), choice)?)? {
            return Ok(false);
        }
    }
    Ok(true)
}

// The same where this call of the disk fails.
fn is_made_after_fault(alloc: Global, call: u64) -> Result<bool, Fail> {
    let mut disk = with_old_logs(alloc)?;
    disk.fail_at(call)?;
    let ran = run(alloc, &INIT, "", disk)?;
    let is_told = ran.status == 6 && ran.written.as_str() == "error: disk fault\n";
    Ok(is_told && are_made_again(alloc, &ran.disk, ran.disk.calls())?)
}

#[test]
fn a_store_that_was_half_made_is_made_again(rt: HostRuntime) -> Result<(), Fail> {
    let whole = run(rt.alloc(), &INIT, "", with_old_logs(rt.alloc())?)?.disk;
    for call in 0..whole.calls() {
        assert!(rt;
            are_made_again(rt.alloc(), &whole, call)?,
            "after {call} calls"
        );
        assert!(rt; is_made_after_fault(rt.alloc(), call)?, "at call {call}");
    }
    Ok(())
}

// Whether a call of a store and its answer's copy open the first view.
fn opens_twice(alloc: Global, store: &mut SplitCore<MemoryDisk>) -> bool {
    let (answer, copy) = store.call(alloc, &Call::OpenView);
    let first = ViewReply::Opened(0);
    matches!((answer, copy), (Answer::View(one), Answer::View(other)) if one == first && other == first)
}

// Whether this is the answer of a get that found these bytes.
fn is_found(answer: &Answer, block: &[u8]) -> bool {
    matches!(answer, Answer::Get(GetReply::Found(bytes)) if bytes.as_slice() == block)
}

// Whether a get and its answer's copy have these bytes.
fn finds_twice(alloc: Global, store: &mut SplitCore<MemoryDisk>, cid: Cid, block: &[u8]) -> bool {
    let (answer, copy) = store.call(alloc, &Call::Get { view: 0, cid });
    is_found(&answer, block) && is_found(&copy, block)
}

#[test]
fn a_call_is_answered_twice(rt: HostRuntime) -> Result<(), Fail> {
    let config = Config {
        mode: Mode::Discard,
        depth: 0,
        threshold: 1,
        batch: 1,
        rows: 1,
        limit: 65_536,
    };
    let Ok(mut store) = init(rt.alloc(), MemoryDisk::new(rt.alloc())?, config) else {
        panic!(rt; "no store was made");
    };
    assert!(rt; opens_twice(rt.alloc(), &mut store));
    let cid = Cid::make(CODEC_RAW, HASH_IDENTITY, b"abc")?;
    assert!(rt; finds_twice(rt.alloc(), &mut store, cid, b"abc"));
    Ok(())
}
