//! Which blocks may be stored, and how many bytes a record of them has.

ghost use Rattle.std.specs.Prelude.{◌≡◌, ◌^◌, ◌<◌, ◌≤◌, ℕ, List, length, OnOk, IfErr, IfOk, IsOk, MatchResult};
ghost use Rattle.ss_cid.specs.Cid.{codec_of, codec_named, hash_of, hash_named};
ghost use Rattle.ss_model.specs.State.{CidSet};
ghost use Rattle.ss_model.specs.Lawful.{IsSound, AreSound, IsDagCbor, IsFirstFault, body_bytes};
ghost use Rattle.ss_model.specs.declared.TheConstants.{PUT_BLOCKS};
ghost use Rattle.ss_cbor.specs.Fault.{scanned};
ghost use Rattle.ss_core.specs.Seen.{AreSeen, held_in, seen_in};
ghost use Rattle.ss_core.specs.Replies.{IsFaultOf, IsMalformed, refusal_of};

use crate::fresh::Seen;
use ss_cbor::{CborKind, scan};
use ss_cid::{Cid, Codec, HashCode, Parcel};
use ss_hash::{HashFault, check_for_parts};
use ss_model::{BLOCK_BYTES, PUT_BLOCKS, PutReply};

/// Why a block is not stored.
#[derive(Clone, Copy, Debug, PartialEq, Eq)]
pub enum BlockFault {
    /// The CID and the block are too long.
    TooLarge,
    /// The CID's hash function is not known.
    UnknownHash,
    /// The bytes are not those that the CID names.
    Mismatch,
    /// The block is not one item.
    Malformed { kind: CborKind, at: u32 },
}

impl BlockFault {
    /// The refusal of a put by this fault of its pair at place `i`.
    pub fn refusal(self, i: u32) -> PutReply
        ensures { result ≡ refusal_of self i }
    {
        match self {
            BlockFault::TooLarge => PutReply::TooLarge { i },
            BlockFault::UnknownHash => PutReply::UnknownHash { i },
            BlockFault::Mismatch => PutReply::Mismatch { i },
            BlockFault::Malformed { kind, at } => PutReply::Malformed { i, kind, at },
        }
    }
}

/// Whether a block may be stored: no longer than a block may be, valid for its CID, and under dag-cbor one item. Hands on the
/// CID's hash code, so that the CID is read once.
pub fn check_block(cid: &Cid, block: &[u8]) -> Result<HashCode, BlockFault>
    ensures sound { OnOk result (IsSound (cid.now, block.now)) }
    ensures hash_code { IfOk result (λ code. code ≡ hash_named (hash_of cid.now)) }
    ensures fault { IfErr result (IsFaultOf (cid.now, block.now)) }
{
    if cid.as_bytes().len() + block.len() > BLOCK_BYTES {
        return Err(BlockFault::TooLarge);
    }
    match check_for_parts(cid, block) {
        Ok(parts) => {
            check_item(parts.codec, block)?;
            Ok(parts.hash_code)
        }
        Err(HashFault::UnknownHash { .. }) => Err(BlockFault::UnknownHash),
        Err(HashFault::Mismatch { .. }) => Err(BlockFault::Mismatch),
        Err(HashFault::NotIdentity { .. }) => Err(BlockFault::Mismatch),
    }
}

// Whether a valid block is one item, where its codec asks for that.
fn check_item(codec: Codec, block: &[u8]) -> Result<(), BlockFault>
    ensures sound { (cid : List ℕ) → codec ≡ codec_named (codec_of cid) → OnOk result (IsDagCbor cid → IsOk (scanned block.now)) }
    ensures fault { (cid : List ℕ) → codec ≡ codec_named (codec_of cid) → IfErr result (IsMalformed (cid, block.now)) }
{
    if codec != Codec::DagCbor {
        return Ok(());
    }
    match scan(block) {
        Ok(_) => Ok(()),
        Err(fault) => Err(BlockFault::Malformed {
            kind: fault.kind,
            at: u32::try_from(fault.at).unwrap_or(u32::MAX),
        }),
    }
}

/// Notes which pairs have an identity CID, beside what was seen of the others. Or the refusal of the put by the first pair that may
/// not be stored.
pub(crate) fn check_blocks(parcel: &Parcel, seen: &mut [Seen; PUT_BLOCKS]) -> Result<(), PutReply>
    requires { length parcel.now ≤ PUT_BLOCKS }
    ensures judged { MatchResult result (λ _. AreSound parcel.now) (IsFirstFault parcel.now) }
    ensures seen { (hot : CidSet) → AreSeen (held_in hot) parcel.now seen.old → OnOk result (AreSeen (seen_in hot) parcel.now seen.new) }
{
    for i in 0..parcel.len() {
        let (cid, block) = parcel.at(i);
        match check_block(&cid, block) {
            Ok(hash_code) => seen[i] = seen[i].with_hash_code(hash_code),
            Err(fault) => return Err(fault.refusal(i as u32)),
        }
    }
    Ok(())
}

/// The bytes of the body of a record of these blocks.
pub fn body_bytes(blocks: &Parcel) -> u64
    requires { body_bytes blocks.now < 2 ^ 64 }
    ensures { result ≡ body_bytes blocks.now }
{
    let mut bytes = 3u64;
    for i in 0..blocks.len() {
        let (cid, block) = blocks.at(i);
        bytes += (cid.as_bytes().len() + 4 + block.len()) as u64;
    }
    bytes
}
