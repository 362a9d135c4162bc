ghost use Rattle.std.specs.Prelude.{◌≡◌, ◌≢◌, ℕ, ◌↔◌, List, IsOk, OnOk, OnErr, IfOk, IfSome};
ghost use Rattle.ss_cid.specs.Cid.{codec_of, codec_named, digest_of, hash_of, hash_named};
ghost use Rattle.ss_hash.specs.Blake2b.{blake2b};
ghost use Rattle.ss_hash.specs.Digest.{IsValid, IsUnknownHash, IsMismatch, IsNotIdentity, PartAt};

use crate::digest::blake2b;
use crate::fault::HashFault;
use sha2::{Digest, Sha256};
use ss_cid::{Cid, HASH_BLAKE2B_256, HASH_SHA2_256, HashCode, Parts};

/// The length of a digest in bytes, but for an identity CID.
const DIGEST_LEN: usize = 32;

// The first place at which two slices differ, or the shorter length; None where they are equal.
fn first_difference(a: &[u8], b: &[u8]) -> Option<usize>
    ensures none { (result ≡ None) ↔ (a.now ≡ b.now) }
    ensures place { IfSome result (PartAt a.now b.now) }
{
    let shorter = a.len().min(b.len());
    for i in 0..shorter {
        if a[i] != b[i] {
            return Some(i);
        }
    }
    if a.len() == b.len() {
        None
    } else {
        Some(shorter)
    }
}

// The BLAKE2b digest that blake2b-256 CIDs carry.
fn blake2b_256(bytes: &[u8]) -> [u8; DIGEST_LEN]
    ensures { result ≡ blake2b 32 bytes.now }
{
    let mut digest = [0; DIGEST_LEN];
    digest.copy_from_slice(&blake2b(DIGEST_LEN, bytes)[..DIGEST_LEN]);
    digest
}

// Compares a CID's digest with that of the bytes, and hands the CID's parts on where they are the same.
fn check_digest(parts: Parts<'_>, got: [u8; DIGEST_LEN]) -> Result<Parts<'_>, HashFault>
    ensures same { IsOk result ↔ (parts.entry.digest.now ≡ got) }
    ensures parts { OnOk result (result ≡ Ok parts.entry) }
    ensures other { OnErr result ((result ≡ Err (HashFault.Mismatch got)) × (parts.entry.digest.now ≢ got)) }
{
    let digest = parts.digest;
    if digest == &got[..] {
        Ok(parts)
    } else {
        Err(HashFault::Mismatch { got })
    }
}

/// Checks that a block's bytes are those that its CID names.
///
/// The first of these is the refusal: `UnknownHash` with the hash code, where it is none of identity, sha2-256
/// and blake2b-256, or is one of the latter two and the digest does not have 32 bytes; under identity,
/// `NotIdentity` with the first place, counted from 0, at which the digest and the bytes differ, or the shorter
/// length where one begins with the other; under the other two, `Mismatch` with the 32 bytes of the digest that
/// the bytes have. The bytes are read only where the hash code and the digest's length are known.
pub fn check(cid: &Cid, bytes: &[u8]) -> Result<(), HashFault>
    ensures valid { IsOk result ↔ IsValid cid.now bytes.now }
    ensures unknown { (code : ℕ) → (result ≡ Err (HashFault.UnknownHash code)) ↔ IsUnknownHash cid.now code }
    ensures mismatch { (got : List ℕ) → (result ≡ Err (HashFault.Mismatch got)) ↔ IsMismatch cid.now bytes.now got }
    ensures not_identity { (at : ℕ) → (result ≡ Err (HashFault.NotIdentity at)) ↔ IsNotIdentity cid.now bytes.now at }
{
    match check_for_parts(cid, bytes) {
        Ok(_) => Ok(()),
        Err(fault) => Err(fault),
    }
}

/// As [`check`], and hands on the CID's parts, which are read for it once.
pub fn check_for_parts<'a>(cid: &'a Cid, bytes: &[u8]) -> Result<Parts<'a>, HashFault>
    ensures valid { IsOk result ↔ IsValid cid.now bytes.now }
    ensures codec { IfOk result (λ parts. parts.codec ≡ codec_named (codec_of cid.now)) }
    ensures hash_code { IfOk result (λ parts. parts.hash_code ≡ hash_named (hash_of cid.now)) }
    ensures digest { IfOk result (λ parts. parts.digest.now ≡ digest_of cid.now) }
    ensures unknown { (code : ℕ) → (result ≡ Err (HashFault.UnknownHash code)) ↔ IsUnknownHash cid.now code }
    ensures mismatch { (got : List ℕ) → (result ≡ Err (HashFault.Mismatch got)) ↔ IsMismatch cid.now bytes.now got }
    ensures not_identity { (at : ℕ) → (result ≡ Err (HashFault.NotIdentity at)) ↔ IsNotIdentity cid.now bytes.now at }
{
    let parts = cid.parts();
    let digest = parts.digest;
    match parts.hash_code {
        HashCode::Identity => match first_difference(digest, bytes) {
            None => Ok(parts),
            Some(at) => Err(HashFault::NotIdentity { at }),
        },
        HashCode::Sha2x256 if digest.len() == DIGEST_LEN => {
            check_digest(parts, Sha256::digest(bytes))
        }
        HashCode::Blake2b256 if digest.len() == DIGEST_LEN => {
            check_digest(parts, blake2b_256(bytes))
        }
        HashCode::Sha2x256 => Err(HashFault::UnknownHash {
            code: HASH_SHA2_256,
        }),
        HashCode::Blake2b256 => Err(HashFault::UnknownHash {
            code: HASH_BLAKE2B_256,
        }),
        HashCode::Other(code) => Err(HashFault::UnknownHash { code }),
    }
}
