// Readers of one field each: they give its value and the bytes after it.

ghost use Rattle.std.specs.Prelude.{◌≡◌, ◌≤◌, ◌+◌, length, take, drop, Err, IfOk};
ghost use Rattle.std.specs.Int.{w8, w16, w32, w64};
ghost use Rattle.ss_cid.specs.Cid.{hash_of, hash_named};
ghost use Rattle.ss_records.specs.Fields.{allowed_cid_at, block_at, bytes_at, number_at, cid_at, cid_taken, ended, stored_cid_at, Reads};

use crate::fault::Misfit;
use ss_cid::{Cid, CidFault, HashCode};

/// The most bytes that a block has with its CID.
const MAX_BLOCK_LEN: u32 = 8_388_608;

/// So many bytes.
#[tactic(auto, unfolding(crate::specs::Fields::bytes_at))]
pub(crate) fn bytes_at(len: usize, bytes: &[u8]) -> Result<(&[u8], &[u8]), Misfit>
    ensures { Reads (λ x. (x.0.now, x.1.now)) result (bytes_at len bytes.now) }
{
    bytes.split_at_checked(len).ok_or(Misfit::AT_END)
}

/// A number of one byte, from `low` to `high`.
#[tactic(auto, unfolding(crate::specs::Fields::number_at, crate::specs::Fields::bytes_at))]
pub(crate) fn u8_at(low: u8, high: u8, bytes: &[u8]) -> Result<(u8, &[u8]), Misfit>
    ensures { Reads (λ x. (x.0, x.1.now)) result (number_at w8 low high bytes.now) }
{
    let (number, rest) = bytes.split_first().ok_or(Misfit::AT_END)?;
    if *number < low || *number > high {
        return Err(Misfit::at(bytes));
    }
    Ok((*number, rest))
}

/// A number of two bytes, from `low` to `high`.
#[tactic(auto, unfolding(crate::specs::Fields::number_at, crate::specs::Fields::bytes_at))]
pub(crate) fn u16_at(low: u16, high: u16, bytes: &[u8]) -> Result<(u16, &[u8]), Misfit>
    ensures { Reads (λ x. (x.0, x.1.now)) result (number_at w16 low high bytes.now) }
{
    let (field, rest) = bytes.split_first_chunk().ok_or(Misfit::AT_END)?;
    let number = u16::from_be_bytes(*field);
    if number < low || number > high {
        return Err(Misfit::at(bytes));
    }
    Ok((number, rest))
}

/// A number of four bytes, from `low` to `high`.
#[tactic(auto, unfolding(crate::specs::Fields::number_at, crate::specs::Fields::bytes_at))]
pub(crate) fn u32_at(low: u32, high: u32, bytes: &[u8]) -> Result<(u32, &[u8]), Misfit>
    ensures { Reads (λ x. (x.0, x.1.now)) result (number_at w32 low high bytes.now) }
{
    let (field, rest) = bytes.split_first_chunk().ok_or(Misfit::AT_END)?;
    let number = u32::from_be_bytes(*field);
    if number < low || number > high {
        return Err(Misfit::at(bytes));
    }
    Ok((number, rest))
}

/// A number of eight bytes, from `low` to `high`.
#[tactic(auto, unfolding(crate::specs::Fields::number_at, crate::specs::Fields::bytes_at))]
pub(crate) fn u64_at(low: u64, high: u64, bytes: &[u8]) -> Result<(u64, &[u8]), Misfit>
    ensures { Reads (λ x. (x.0, x.1.now)) result (number_at w64 low high bytes.now) }
{
    let (field, rest) = bytes.split_first_chunk().ok_or(Misfit::AT_END)?;
    let number = u64::from_be_bytes(*field);
    if number < low || number > high {
        return Err(Misfit::at(bytes));
    }
    Ok((number, rest))
}

// A CID that is cut short ends the body early. Any other fault is at the CID, which `bytes` begin with.
fn cid_fault(fault: CidFault, bytes: &[u8]) -> Misfit
    ensures { cid_taken bytes.now (Err fault) ≡ Err result.left }
{
    match fault {
        CidFault::Short { .. } => Misfit::AT_END,
        _ => Misfit::at(bytes),
    }
}

/// A CID, which takes its own bytes of `bytes`, and the hash function that it names.
fn hashed_cid_at(bytes: &[u8]) -> Result<(Cid, HashCode), Misfit>
    ensures value { Reads (λ x. (x.0, drop (length x.0) bytes.now)) result (cid_at bytes.now) }
    ensures hash_code { IfOk result (λ x. x.1 ≡ hash_named (hash_of x.0)) }
    ensures within { IfOk result (λ x. length x.0 ≤ length bytes.now) }
{
    match Cid::parse_hashed(bytes) {
        Ok(found) => Ok(found),
        Err(fault) => Err(cid_fault(fault, bytes)),
    }
}

/// A CID.
pub(crate) fn cid_at(bytes: &[u8]) -> Result<Cid, Misfit>
    ensures value { Reads (λ cid. (cid, drop (length cid) bytes.now)) result (cid_at bytes.now) }
    ensures within { IfOk result (λ cid. length cid ≤ length bytes.now) }
{
    let (cid, _) = hashed_cid_at(bytes)?;
    Ok(cid)
}

/// The same, and not an identity CID.
#[tactic(auto, unfolding(crate::specs::Fields::stored_cid_at))]
pub(crate) fn stored_cid_at(bytes: &[u8]) -> Result<Cid, Misfit>
    ensures value { Reads (λ cid. (cid, drop (length cid) bytes.now)) result (stored_cid_at bytes.now) }
    ensures within { IfOk result (λ cid. length cid ≤ length bytes.now) }
{
    let (cid, hash_code) = hashed_cid_at(bytes)?;
    if hash_code == HashCode::Identity {
        return Err(Misfit::at(bytes));
    }
    Ok(cid)
}

/// Which CIDs a field may be.
#[derive(Clone, Copy)]
pub(crate) enum Allowed {
    Any,
    /// Those of blocks that are stored: no identity CID.
    Stored,
}

/// A CID of those that are allowed.
pub(crate) fn allowed_cid_at(allowed: Allowed, bytes: &[u8]) -> Result<Cid, Misfit>
    ensures value { Reads (λ cid. (cid, drop (length cid) bytes.now)) result (allowed_cid_at allowed bytes.now) }
    ensures within { IfOk result (λ cid. length cid ≤ length bytes.now) }
{
    match allowed {
        Allowed::Any => cid_at(bytes),
        Allowed::Stored => stored_cid_at(bytes),
    }
}

/// What was read, where nothing follows the last field.
pub(crate) fn ended<T: Drop>(value: T, rest: &[u8]) -> Result<T, Misfit>
    ensures { Reads (λ x. x) result (ended value rest.now) }
{
    match rest {
        [] => Ok(value),
        [_, ..] => Err(Misfit::AT_END),
    }
}

/// What stands after a CID that `bytes` begin with.
pub(crate) fn behind<'a>(cid: &Cid, bytes: &'a [u8]) -> &'a [u8]
    requires { length cid.now ≤ length bytes.now }
    ensures value { result.now ≡ drop (length cid.now) bytes.now }
    ensures size { length result.now + length cid.now ≡ length bytes.now }
{
    &bytes[cid.as_bytes().len()..]
}

/// A block of a Put: its CID, and how many bytes it has, which stand after the CID and their length.
#[tactic(auto, unfolding(crate::specs::Fields::block_at, crate::specs::Fields::bytes_at))]
pub(crate) fn block_at(bytes: &[u8]) -> Result<(Cid, u32), Misfit>
    ensures value { Reads (λ b. (
      (b.0, take b.1 (drop 4 (drop (length b.0) bytes.now))),
      drop b.1 (drop 4 (drop (length b.0) bytes.now)),
    )) result (block_at bytes.now) }
    ensures within { IfOk result (λ b. length b.0 + 4 + b.1 ≤ length bytes.now) }
{
    let cid = stored_cid_at(bytes)?;
    let most = MAX_BLOCK_LEN - cid.as_bytes().len() as u32;
    let (len, rest) = u32_at(0, most, behind(&cid, bytes))?;
    bytes_at(len as usize, rest)?;
    Ok((cid, len))
}

/// What stands after a block's CID and the length of its bytes: its bytes, and what follows the block.
pub(crate) fn content<'a>(cid: &Cid, bytes: &'a [u8]) -> &'a [u8]
    requires { length cid.now + 4 ≤ length bytes.now }
    ensures value { result.now ≡ drop 4 (drop (length cid.now) bytes.now) }
    ensures size { length result.now + (length cid.now + 4) ≡ length bytes.now }
{
    &behind(cid, bytes)[4..]
}
