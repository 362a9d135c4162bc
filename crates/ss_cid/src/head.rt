//! What stands before a CID's digest.
ghost use Rattle.std.specs.Prelude.{◌≡◌, ◌≤◌, length, IfOk};
ghost use Rattle.ss_cid.specs.Cid.{cid_head, version_end, digest_end};

use crate::fault::CidFault;
use crate::varint::varint_at;

/// The most bytes that a CID has.
pub const CID_BYTES: usize = 72;

/// The parts of the CID that some bytes begin with.
#[derive(Clone, Copy)]
pub struct Head {
    /// The codec's number.
    pub codec: u64,
    /// The hash function's number.
    pub hash: u64,
    /// The offset of the digest.
    pub digest_at: usize,
    /// The offset after the digest.
    pub end: usize,
}

/// The parts of the CID that `bytes` begin with.
#[tactic(auto, unfolding(crate::specs::Cid::cid_head))]
pub fn read_head(bytes: &[u8]) -> Result<Head, CidFault>
    ensures value { result ≡ cid_head bytes.now }
    ensures within { IfOk result (λ head. (head.digest_at ≤ head.end) × (head.end ≤ 72) × (head.end ≤ length bytes.now)) }
{
    let start = read_version(bytes)?;
    let (codec, at) = varint_at(bytes, start)?;
    let (hash, at) = varint_at(bytes, at)?;
    let (len, digest_at) = varint_at(bytes, at)?;
    let end = digest_end(bytes, len, digest_at)?;
    Ok(Head {
        codec,
        hash,
        digest_at,
        end,
    })
}

/// The offset after the version.
#[tactic(auto, unfolding(crate::specs::Cid::version_end))]
fn read_version(bytes: &[u8]) -> Result<usize, CidFault>
    ensures value { result ≡ version_end bytes.now }
    ensures within { IfOk result (λ end. end ≤ length bytes.now) }
{
    let (version, end) = varint_at(bytes, 0)?;
    if version != 1 {
        return Err(CidFault::NotV1 { version });
    }
    Ok(end)
}

/// The offset after a digest of `len` bytes at the offset `at`.
#[tactic(auto, unfolding(crate::specs::Cid::digest_end))]
fn digest_end(bytes: &[u8], len: u64, at: usize) -> Result<usize, CidFault>
    requires { at ≤ length bytes.now }
    ensures value { result ≡ digest_end bytes.now len at }
    ensures within { IfOk result (λ end. (at ≤ end) × (end ≤ 72) × (end ≤ length bytes.now)) }
{
    if at > CID_BYTES || len > (CID_BYTES - at) as u64 {
        return Err(CidFault::TooLong { len });
    }
    let end = at + len as usize;
    if bytes.len() < end {
        return Err(CidFault::Short { at: bytes.len() });
    }
    Ok(end)
}
