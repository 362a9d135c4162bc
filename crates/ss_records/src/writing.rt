ghost use Rattle.std.specs.Prelude.{◌≡◌, ◌+◌, ◌<◌, ◌^◌, [], ◌∷◌, ◌++◌, length, All, OnOk, IfOk};
ghost use Rattle.std.specs.Int.{w8, w16, w32, w64};
ghost use Rattle.std.specs.List.{flat_map};
ghost use Rattle.ss_records.specs.Record.{block, frame, number, row, spelling, BlockFits, Fits, IsCount};

use crate::record::{
    Config, KIND_BASE, KIND_COLD, KIND_CONFIG, KIND_COPIED, KIND_DROP, KIND_GENERATION, KIND_HEAD,
    KIND_PURGED, KIND_PUT, KIND_SEALED, KIND_START, Mode, Record,
};
use ss_cid::{Cid, Cids, NoMemory, Parcel};
use std::alloc::Global;

/// The spare bytes before a body and after it, and its kind.
const AROUND: usize = 6;

// A frame up to the kind, with room for so many bytes of fields.
fn begin(alloc: Global, kind: u8, room: usize) -> Result<Vec<u8>, NoMemory>
    ensures { IfOk result (λ out. out.items ≡ 0 ∷ 0 ∷ 0 ∷ 0 ∷ kind ∷ []) }
{
    let mut out = Vec::with_capacity(alloc, room.saturating_add(AROUND))?;
    out.extend_from_slice(&[0, 0, 0, 0, kind])?;
    Ok(out)
}

// The spare byte after the body.
fn finish(mut out: Vec<u8>) -> Result<Vec<u8>, NoMemory>
    ensures { IfOk result (λ whole. whole.items ≡ out.items ++ 0 ∷ []) }
{
    out.push(0)?;
    Ok(out)
}

#[tactic(auto, unfolding(crate::specs::Record::number))]
fn push_u8(out: &mut Vec<u8>, n: u8) -> Result<(), NoMemory>
    ensures { OnOk result (out.new.items ≡ out.old.items ++ number w8 n) }
{
    out.extend_from_slice(&n.to_be_bytes())?;
    Ok(())
}

#[tactic(auto, unfolding(crate::specs::Record::number))]
fn push_u16(out: &mut Vec<u8>, n: u16) -> Result<(), NoMemory>
    ensures { OnOk result (out.new.items ≡ out.old.items ++ number w16 n) }
{
    out.extend_from_slice(&n.to_be_bytes())?;
    Ok(())
}

#[tactic(auto, unfolding(crate::specs::Record::number))]
fn push_u32(out: &mut Vec<u8>, n: u32) -> Result<(), NoMemory>
    ensures { OnOk result (out.new.items ≡ out.old.items ++ number w32 n) }
{
    out.extend_from_slice(&n.to_be_bytes())?;
    Ok(())
}

#[tactic(auto, unfolding(crate::specs::Record::number))]
fn push_u64(out: &mut Vec<u8>, n: u64) -> Result<(), NoMemory>
    ensures { OnOk result (out.new.items ≡ out.old.items ++ number w64 n) }
{
    out.extend_from_slice(&n.to_be_bytes())?;
    Ok(())
}

fn push_cids(out: &mut Vec<u8>, cids: &Cids) -> Result<(), NoMemory>
    ensures { OnOk result (out.new.items ≡ out.old.items ++ row cids.now) }
{
    for cid in cids.as_slice() {
        out.extend_from_slice(cid.as_bytes())?;
    }
    Ok(())
}

fn push_block(out: &mut Vec<u8>, cid: &Cid, bytes: &[u8]) -> Result<(), NoMemory>
    requires { length bytes.now < 2 ^ 32 }
    ensures { OnOk result (out.new.items ≡ out.old.items ++ block (cid.now, bytes.now)) }
{
    out.extend_from_slice(cid.as_bytes())?;
    push_u32(out, bytes.len() as u32)?;
    out.extend_from_slice(bytes)?;
    Ok(())
}

// The blocks of a Put one after another.
fn push_blocks(out: &mut Vec<u8>, blocks: &Parcel) -> Result<(), NoMemory>
    requires { All BlockFits blocks.now }
    ensures { OnOk result (out.new.items ≡ out.old.items ++ flat_map block blocks.now) }
{
    for i in 0..blocks.len() {
        let (cid, bytes) = blocks.at(i);
        push_block(out, &cid, bytes)?;
    }
    Ok(())
}

// A record of the CIDs of stored blocks.
fn encode_stored(alloc: Global, kind: u8, cids: &Cids) -> Result<Vec<u8>, NoMemory>
    requires { IsCount 4096 (length cids.now) }
    ensures { IfOk result (λ out. out.items ≡ frame (kind ∷ (number w16 (length cids.now) ++ row cids.now))) }
{
    let mut out = begin(alloc, kind, cids_len(cids).saturating_add(2))?;
    push_u16(&mut out, cids.len() as u16)?;
    push_cids(&mut out, cids)?;
    finish(out)
}

// How many bytes the blocks of a Put have, with their count.
fn blocks_len(blocks: &Parcel) -> usize {
    let mut len = 2usize;
    for i in 0..blocks.len() {
        let (cid, bytes) = blocks.at(i);
        len = len
            .saturating_add(cid.as_bytes().len() + 4)
            .saturating_add(bytes.len());
    }
    len
}

// How many bytes CIDs have together.
fn cids_len(cids: &Cids) -> usize {
    cids.as_slice().iter().fold(0usize, |len, cid| len.saturating_add(cid.as_bytes().len()))
}

fn encode_config(alloc: Global, config: &Config) -> Result<Vec<u8>, NoMemory>
    ensures { IfOk result (λ out. out.items ≡ frame (spelling (Record.Config config.now))) }
{
    let mut out = begin(alloc, KIND_CONFIG, 34)?;
    push_u8(&mut out, 1)?;
    let mode = match config.mode {
        Mode::Discard => 0,
        Mode::Universal => 1,
    };
    push_u8(&mut out, mode)?;
    push_u64(&mut out, config.depth)?;
    push_u64(&mut out, config.threshold)?;
    push_u32(&mut out, config.batch)?;
    push_u32(&mut out, config.rows)?;
    push_u64(&mut out, config.limit)?;
    finish(out)
}

// A record of one number.
fn encode_number(alloc: Global, kind: u8, n: u64) -> Result<Vec<u8>, NoMemory>
    ensures { IfOk result (λ out. out.items ≡ frame (kind ∷ number w64 n)) }
{
    let mut out = begin(alloc, kind, 8)?;
    push_u64(&mut out, n)?;
    finish(out)
}

fn encode_base(alloc: Global, base: u64, ended: u64) -> Result<Vec<u8>, NoMemory>
    ensures { IfOk result (λ out. out.items ≡ frame (spelling (Record.Base base ended))) }
{
    let mut out = begin(alloc, KIND_BASE, 16)?;
    push_u64(&mut out, base)?;
    push_u64(&mut out, ended)?;
    finish(out)
}

/// A Put of these blocks, as the frame that a log appends: what [`encode`] makes of the record, without a
/// record that owns them.
pub fn encode_put(alloc: Global, blocks: &Parcel) -> Result<Vec<u8>, NoMemory>
    requires { Fits (Record.Put blocks.now) }
    ensures { IfOk result (λ out. out.items ≡ frame (spelling (Record.Put blocks.now))) }
{
    let mut out = begin(alloc, KIND_PUT, blocks_len(blocks))?;
    push_u16(&mut out, blocks.len() as u16)?;
    push_blocks(&mut out, blocks)?;
    finish(out)
}

/// A Drop of these CIDs, as the frame that a log appends.
#[tactic(auto, unfolding(crate::specs::Record::spelling))]
pub fn encode_dropped(alloc: Global, cids: &Cids) -> Result<Vec<u8>, NoMemory>
    requires { Fits (Record.Dropped cids.now) }
    ensures { IfOk result (λ out. out.items ≡ frame (spelling (Record.Dropped cids.now))) }
{
    encode_stored(alloc, KIND_DROP, cids)
}

/// A Cold of these CIDs, as the frame that a log appends.
#[tactic(auto, unfolding(crate::specs::Record::spelling))]
pub fn encode_cold(alloc: Global, cids: &Cids) -> Result<Vec<u8>, NoMemory>
    requires { Fits (Record.Cold cids.now) }
    ensures { IfOk result (λ out. out.items ≡ frame (spelling (Record.Cold cids.now))) }
{
    encode_stored(alloc, KIND_COLD, cids)
}

/// A Head of this height and these CIDs, as the frame that a log appends.
pub fn encode_head(alloc: Global, height: u64, cids: &Cids) -> Result<Vec<u8>, NoMemory>
    requires { Fits (Record.Head height cids.now) }
    ensures { IfOk result (λ out. out.items ≡ frame (spelling (Record.Head height cids.now))) }
{
    let mut out = begin(alloc, KIND_HEAD, cids_len(cids).saturating_add(9))?;
    push_u8(&mut out, cids.len() as u8)?;
    push_u64(&mut out, height)?;
    push_cids(&mut out, cids)?;
    finish(out)
}

/// A Start of this edge and these CIDs, as the frame that a log appends.
pub fn encode_start(alloc: Global, edge: u64, cids: &Cids) -> Result<Vec<u8>, NoMemory>
    requires { Fits (Record.Start edge cids.now) }
    ensures { IfOk result (λ out. out.items ≡ frame (spelling (Record.Start edge cids.now))) }
{
    let mut out = begin(alloc, KIND_START, cids_len(cids).saturating_add(9))?;
    push_u64(&mut out, edge)?;
    push_u8(&mut out, cids.len() as u8)?;
    push_cids(&mut out, cids)?;
    finish(out)
}

/// The one spelling of a record, as the frame that a log appends: four spare bytes, the body and one spare
/// byte, all spare bytes zero.
///
/// The condition is the counts and bounds of [`Record`], with which it is read again. A frame of many
/// blocks may be longer than a log takes as one record; that is the log's to refuse. Memory is taken once,
/// by the length of the whole frame.
#[tactic(auto, unfolding(crate::specs::Record::spelling))]
pub fn encode(alloc: Global, entry: &Record) -> Result<Vec<u8>, NoMemory>
    requires { Fits entry.now }
    ensures { IfOk result (λ out. out.items ≡ frame (spelling entry.now)) }
{
    match entry {
        Record::Config(config) => encode_config(alloc, config),
        Record::Generation(number) => encode_number(alloc, KIND_GENERATION, *number),
        Record::Put(blocks) => encode_put(alloc, blocks),
        Record::Dropped(cids) => encode_dropped(alloc, cids),
        Record::Head { height, cids } => encode_head(alloc, *height, cids),
        Record::Base { base, ended } => encode_base(alloc, *base, *ended),
        Record::Start { edge, cids } => encode_start(alloc, *edge, cids),
        Record::Cold(cids) => encode_cold(alloc, cids),
        Record::Sealed(total) => encode_number(alloc, KIND_SEALED, *total),
        Record::Copied(up_to) => encode_number(alloc, KIND_COPIED, *up_to),
        Record::Purged(up_to) => encode_number(alloc, KIND_PURGED, *up_to),
    }
}
