ghost use Rattle.std.specs.Prelude.{◌≡◌, Ok, IfOk};
ghost use Rattle.std.specs.Int.{w8, w16};
ghost use Rattle.ss_records.specs.declared.record.Record.{Record};
ghost use Rattle.ss_records.specs.Record.{spelling, Fits, IsValue};
ghost use Rattle.ss_records.specs.Fields.{allowed_cid_at, base_of, block_at, cid_at, config_of, head_of, items_of, list_of, number_of, read_record, record_of, start_of, stored_cid_at, Answers, Gives, Reads};

use crate::fault::{Fault, Misfit, RecordFault};
use crate::fields::{
    Allowed, allowed_cid_at, behind, block_at, content, ended, u8_at, u16_at, u32_at, u64_at,
};
use crate::record::{
    Config, KIND_BASE, KIND_COLD, KIND_CONFIG, KIND_COPIED, KIND_DROP, KIND_GENERATION, KIND_HEAD,
    KIND_PURGED, KIND_PUT, KIND_SEALED, KIND_START, Mode, Record,
};
use ss_cid::{Cids, Parcel};
use std::alloc::Global;

// The readers below read the fields after the kind, each a record of its own, or the list that is in it.

#[tactic(auto, unfolding(crate::specs::Fields::config_of))]
fn config_of(fields: &[u8]) -> Result<Record, Misfit>
    ensures { Reads (λ r. r) result (config_of fields.now) }
{
    let (_, rest) = u8_at(1, 1, fields)?;
    let (mode, rest) = u8_at(0, 1, rest)?;
    let (depth, rest) = u64_at(0, Config::MAX_EPOCHS, rest)?;
    let (threshold, rest) = u64_at(1, Config::MAX_EPOCHS, rest)?;
    let (batch, rest) = u32_at(1, Config::MAX_BATCH, rest)?;
    let (rows, rest) = u32_at(1, u32::MAX, rest)?;
    let (limit, rest) = u64_at(Config::MIN_LIMIT, Config::MAX_LIMIT, rest)?;
    let mode = if mode == 0 {
        Mode::Discard
    } else {
        Mode::Universal
    };
    let config = Config {
        mode,
        depth,
        threshold,
        batch,
        rows,
        limit,
    };
    ended(Record::Config(config), rest)
}

// The one number of a record.
#[tactic(auto, unfolding(crate::specs::Fields::number_of))]
fn number_of(low: u64, fields: &[u8]) -> Result<u64, Misfit>
    ensures { Reads (λ n. n) result (number_of low fields.now) }
{
    let (number, rest) = u64_at(low, u64::MAX, fields)?;
    ended(number, rest)
}

// So many CIDs, and nothing after them.
fn cids_of(alloc: Global, allowed: Allowed, count: usize, fields: &[u8]) -> Result<Cids, Fault>
    ensures { Gives (λ cids. cids) result (items_of (allowed_cid_at allowed) count fields.now) }
{
    let mut cids = Cids::new(alloc);
    let mut rest = fields;
    for _ in 0..count {
        let cid = allowed_cid_at(allowed, rest)?;
        rest = behind(&cid, rest);
        cids.push(cid)?;
    }
    Ok(ended(cids, rest)?)
}

// The CIDs of stored blocks, after their count.
#[tactic(auto, unfolding(crate::specs::Fields::list_of))]
fn stored_cids(alloc: Global, fields: &[u8]) -> Result<Cids, Fault>
    ensures { Gives (λ cids. cids) result (list_of w16 4096 stored_cid_at fields.now) }
{
    let (count, cids) = u16_at(1, Record::MAX_BLOCKS, fields)?;
    cids_of(alloc, Allowed::Stored, usize::from(count), cids)
}

// The CIDs of a tipset, after their count.
#[tactic(auto, unfolding(crate::specs::Fields::list_of))]
fn tipset_cids(alloc: Global, fields: &[u8]) -> Result<Cids, Fault>
    ensures { Gives (λ cids. cids) result (list_of w8 64 cid_at fields.now) }
{
    let (count, cids) = u8_at(1, Record::MAX_TIPSET, fields)?;
    cids_of(alloc, Allowed::Any, usize::from(count), cids)
}

#[tactic(auto, unfolding(crate::specs::Fields::head_of))]
fn head_of(alloc: Global, fields: &[u8]) -> Result<Record, Fault>
    ensures { Gives (λ r. r) result (head_of fields.now) }
{
    let (count, rest) = u8_at(1, Record::MAX_TIPSET, fields)?;
    let (height, rest) = u64_at(0, Record::MAX_HEIGHT, rest)?;
    let cids = cids_of(alloc, Allowed::Any, usize::from(count), rest)?;
    Ok(Record::Head { height, cids })
}

#[tactic(auto, unfolding(crate::specs::Fields::base_of))]
fn base_of(fields: &[u8]) -> Result<Record, Misfit>
    ensures { Reads (λ r. r) result (base_of fields.now) }
{
    let (base, rest) = u64_at(0, Record::MAX_HEIGHT, fields)?;
    let ended = number_of(0, rest)?;
    Ok(Record::Base { base, ended })
}

#[tactic(auto, unfolding(crate::specs::Fields::start_of))]
fn start_of(alloc: Global, fields: &[u8]) -> Result<Record, Fault>
    ensures { Gives (λ r. r) result (start_of fields.now) }
{
    let (edge, rest) = u64_at(0, u64::MAX, fields)?;
    let cids = tipset_cids(alloc, rest)?;
    Ok(Record::Start { edge, cids })
}

// So many blocks, and nothing after them.
fn blocks_of(alloc: Global, count: usize, fields: &[u8]) -> Result<Parcel, Fault>
    ensures { Gives (λ blocks. blocks) result (items_of block_at count fields.now) }
{
    let mut blocks = Parcel::new(alloc);
    let mut rest = fields;
    for _ in 0..count {
        let (cid, len) = block_at(rest)?;
        let (bytes, after) = content(&cid, rest).split_at(len as usize);
        blocks.add(cid, bytes)?;
        rest = after;
    }
    Ok(ended(blocks, rest)?)
}

// The blocks of a Put, after their count.
#[tactic(auto, unfolding(crate::specs::Fields::list_of))]
fn put_blocks(alloc: Global, fields: &[u8]) -> Result<Parcel, Fault>
    ensures { Gives (λ blocks. blocks) result (list_of w16 4096 block_at fields.now) }
{
    let (count, blocks) = u16_at(1, Record::MAX_BLOCKS, fields)?;
    blocks_of(alloc, usize::from(count), blocks)
}

// The record, or its fault by the bytes that are left from it on.
#[tactic(auto, unfolding(crate::specs::Fields::record_of))]
fn record_of(alloc: Global, body: &[u8]) -> Result<Record, Fault>
    ensures { Gives (λ r. r) result (record_of body.now) }
{
    let (kind, fields) = body.split_first().ok_or(Misfit::AT_END)?;
    match *kind {
        KIND_CONFIG => Ok(config_of(fields)?),
        KIND_GENERATION => Ok(Record::Generation(number_of(1, fields)?)),
        KIND_PUT => Ok(Record::Put(put_blocks(alloc, fields)?)),
        KIND_DROP => Ok(Record::Dropped(stored_cids(alloc, fields)?)),
        KIND_HEAD => head_of(alloc, fields),
        KIND_BASE => Ok(base_of(fields)?),
        KIND_START => start_of(alloc, fields),
        KIND_COLD => Ok(Record::Cold(stored_cids(alloc, fields)?)),
        KIND_SEALED => Ok(Record::Sealed(number_of(0, fields)?)),
        KIND_COPIED => Ok(Record::Copied(number_of(0, fields)?)),
        KIND_PURGED => Ok(Record::Purged(number_of(0, fields)?)),
        _ => Err(Fault::Bad(Misfit::at(body))),
    }
}

// The record, or the offset of its fault in the body.
#[tactic(auto, unfolding(crate::specs::Fields::read_record))]
fn read(alloc: Global, body: &[u8]) -> Result<Record, RecordFault>
    ensures { Answers result (read_record body.now) }
{
    match record_of(alloc, body) {
        Ok(record) => Ok(record),
        Err(Fault::Bad(misfit)) => Err(RecordFault::BadRecord {
            at: misfit.place(body.len()),
        }),
        Err(Fault::NoMemory) => Err(RecordFault::NoMemory),
    }
}

/// Reads the record that `body` spells, all of it.
///
/// The fields are judged from left to right, and the first that does not fit is the fault. Where a CID is
/// at fault, the offset is that of its first byte, whatever is wrong with it; but where the bytes end in a
/// field, it is the body's length. A block whose length alone is too great is at fault at that length, even
/// where its bytes are not there.
///
/// The blocks are copied into the record. Out of memory, what was read is given back to the
/// allocator. A fault that stands after the block or the CID that found no memory is not told.
pub fn decode(alloc: Global, body: &[u8]) -> Result<Record, RecordFault>
    // What is read is a record within its bounds, and the body is its spelling.
    ensures found { IfOk result (λ r. (body.now ≡ spelling r) × IsValue r × Fits r) }
    // What is spelled is read, unless memory runs out.
    ensures only { (r : Record) → IsValue r → Fits r → body.now ≡ spelling r → Answers result (Ok r) }
    // Which field is at fault.
    ensures exact { Answers result (read_record body.now) }
{
    read(alloc, body)
}
