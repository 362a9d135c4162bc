//! Content identifiers.
ghost use Rattle.std.specs.Prelude.{◌≡◌, ℕ, ◌+◌, ◌<◌, ◌≤◌, ◌^◌, ◌++◌, length, take, drop, Ok, Err, IfOk, MatchResult};
ghost use Rattle.std.specs.Ordering.{nat_cmp};
ghost use Rattle.std.specs.Cmp.Lexicographic.{slice_cmp};
ghost use Rattle.std.specs.Option.{option_copied};
ghost use Rattle.ss_cid.specs.Cid.{IsCid, cid_at, cid_of, codec_of, hash_of, digest_of, identity_of, cid_head, codec_named, hash_named};
ghost use Rattle.ss_cid.specs.Text.{cid_text, cid_from_text};
ghost use Rattle.ss_cid.specs.Varint.{varint};

use crate::cid_buffer::CidBuffer;
use crate::codec::{Codec, HASH_IDENTITY, HashCode};
use crate::fault::CidFault;
use crate::head::{CID_BYTES, Head, read_head};
use crate::text::{read_text, write_text};
use std::cmp::Ordering;
use std::marker::Model;

/// A content identifier of version 1: 4 to 72 bytes, which lie in the value itself.
///
/// It is equal, ordered and hashed as its bytes, as std does slices of bytes, and prints as its
/// text.
#[derive(Clone, Copy)]
pub struct Cid {
    room: CidBuffer,
}

impl Model for Cid {
    ghost use Rattle.std.specs.Prelude.{List, ℕ};
    ghost use Rattle.ss_cid.specs.Cid.{IsCid};

    ghost Value = { List ℕ };

    ghost view = { λ c. c.room };

    ghost invariant = { λ c. IsCid c.room };

    ghost inverse = { λ bytes. record { room = bytes } };
}

/// What a CID says, read from its bytes once.
#[derive(Clone, Copy, Debug)]
pub struct Parts<'a> {
    /// How the block's bytes are read.
    pub codec: Codec,
    /// Which hash function made the digest.
    pub hash_code: HashCode,
    /// The digest.
    pub digest: &'a [u8],
}

impl Cid {
    /// Reads the CID that `bytes` begin with, and tells how many bytes it takes. Others may follow.
    ///
    /// It goes from left to right: the faults of the version's varint, `NotV1` where it is not 1,
    /// and the faults of the varints of codec, hash code and digest length, each at its own offset.
    /// Then `TooLong` with the digest's length where the CID would pass 72 bytes, and else `Short`
    /// with the input's length where the digest is not all there.
    #[tactic(auto, unfolding(crate::specs::Cid::cid_at, crate::specs::Cid::cid_len))]
    pub fn parse(bytes: &[u8]) -> Result<(Cid, usize), CidFault>
        ensures value { result ≡ cid_at bytes.now }
        ensures cid { IfOk result (λ found. IsCid found.0) }
        ensures within { IfOk result (λ found. (found.1 ≡ length found.0) × (found.1 ≤ length bytes.now)) }
    {
        let head = read_head(bytes)?;
        Ok((Cid::with_head(bytes, head), head.end))
    }

    /// Reads the CID that `bytes` begin with, as [`Cid::parse`] does, and tells which hash function made its digest. So the
    /// bytes of a CID that is judged by it are read once.
    #[tactic(auto, unfolding(crate::specs::Cid::cid_at, crate::specs::Cid::cid_len))]
    pub fn parse_hashed(bytes: &[u8]) -> Result<(Cid, HashCode), CidFault>
        ensures value { MatchResult result (λ found. cid_at bytes.now ≡ Ok (found.0, length found.0)) (λ fault. cid_at bytes.now ≡ Err fault) }
        ensures hash_code { IfOk result (λ found. found.1 ≡ hash_named (hash_of found.0)) }
        ensures within { IfOk result (λ found. length found.0 ≤ length bytes.now) }
    {
        let head = read_head(bytes)?;
        Ok((Cid::with_head(bytes, head), HashCode::from(head.hash)))
    }

    /// The CID that `bytes` begin with, whose parts these are.
    fn with_head(bytes: &[u8], head: Head) -> Cid
        requires parts { cid_head bytes.now ≡ Ok head }
        requires within { (head.end ≤ 72) × (head.end ≤ length bytes.now) }
        ensures value { result ≡ take head.end bytes.now }
        ensures len { length result ≡ head.end }
        ensures cid { IsCid result }
        ensures hash { hash_of result ≡ head.hash }
    {
        let mut room = CidBuffer::new();
        room.extend(&bytes[..head.end]);
        Cid { room }
    }

    /// The CID with this codec, hash code and digest. Its one fault is `TooLong` with the digest's
    /// length, where the CID would pass 72 bytes.
    #[tactic(auto, unfolding(crate::specs::Cid::cid_of, crate::specs::Cid::cid_bytes))]
    pub fn make(codec: u64, hash: u64, digest: &[u8]) -> Result<Cid, CidFault>
        requires codec_fits { codec < 2 ^ 63 }
        requires hash_fits { hash < 2 ^ 63 }
        ensures value { result ≡ cid_of codec hash digest.now }
        ensures cid { IfOk result IsCid }
    {
        let mut room = prefix(codec, hash, digest.len() as u64);
        if digest.len() > CID_BYTES - room.len() {
            return Err(CidFault::TooLong {
                len: digest.len() as u64,
            });
        }
        room.extend(digest);
        Ok(Cid { room })
    }

    /// Reads the text of a CID, all of it: `b` and then base32 in lower case without padding.
    ///
    /// The first of these is the fault: `BadText` at 0 where the text does not begin with `b`; at
    /// 117 where it has more than 117 characters; at the first character outside the alphabet; at
    /// the text's length where the last character belongs to no byte (1, 3 or 6 modulo 8 after the
    /// `b`); at the last character where its unused bits are not zero; the faults of [`Cid::parse`]
    /// on the bytes; `BadText` at the text's length where bytes are left over.
    #[tactic(auto, unfolding(crate::specs::Text::cid_from_text))]
    pub fn from_text(text: &[u8]) -> Result<Cid, CidFault>
        ensures value { result ≡ cid_from_text text.now }
        ensures cid { IfOk result IsCid }
    {
        let bytes = read_text(text)?;
        let (cid, len) = Cid::parse(bytes.as_slice())?;
        if len != bytes.len() {
            return Err(CidFault::BadText { at: text.len() });
        }
        Ok(cid)
    }

    /// Writes the text of the CID to the start of `out`, and tells how many characters it has. The
    /// rest of `out` stays.
    pub fn write_text(&self, out: &mut [u8; 120]) -> usize
        ensures value { out.new ≡ cid_text self.now ++ drop result out.old }
        ensures len { result ≡ length (cid_text self.now) }
        ensures short { result ≤ 117 }
    {
        write_text(self.as_bytes(), out)
    }

    /// The bytes of the CID.
    pub fn as_bytes(&self) -> &[u8]
        ensures value { result.now ≡ self.now }
        ensures cid { IsCid self.now }
        ensures bounds { (4 ≤ length self.now) × (length self.now ≤ 72) }
    {
        self.room.as_slice()
    }

    /// How the block's bytes are read.
    #[tactic(auto, unfolding(crate::specs::Cid::codec_of))]
    pub fn codec(&self) -> Codec
        ensures { result ≡ codec_named (codec_of self.now) }
    {
        Codec::from(self.head().codec)
    }

    /// Which hash function made the digest.
    #[tactic(auto, unfolding(crate::specs::Cid::hash_of))]
    pub fn hash_code(&self) -> HashCode
        ensures { result ≡ hash_named (hash_of self.now) }
    {
        HashCode::from(self.head().hash)
    }

    /// The digest.
    #[tactic(auto, unfolding(crate::specs::Cid::digest_of))]
    pub fn digest(&self) -> &[u8]
        ensures { result.now ≡ digest_of self.now }
    {
        let head = self.head();
        &self.room.as_slice()[head.digest_at..]
    }

    /// The digest, which is the block itself, where the hash code is identity; None of any other
    /// CID.
    #[tactic(auto, unfolding(crate::specs::Cid::identity_of, crate::specs::Cid::hash_of, crate::specs::Cid::digest_of))]
    pub fn identity(&self) -> Option<&[u8]>
        ensures { option_copied result ≡ identity_of self.now }
    {
        let head = self.head();
        if head.hash == HASH_IDENTITY {
            Some(&self.room.as_slice()[head.digest_at..])
        } else {
            None
        }
    }

    /// The codec, the hash code and the digest. Each of the calls above reads the CID's bytes again;
    /// this one reads them once.
    #[tactic(auto, unfolding(crate::specs::Cid::codec_of, crate::specs::Cid::hash_of, crate::specs::Cid::digest_of))]
    pub fn parts(&self) -> Parts<'_>
        ensures codec { result.codec ≡ codec_named (codec_of self.now) }
        ensures hash_code { result.hash_code ≡ hash_named (hash_of self.now) }
        ensures digest { result.digest.now ≡ digest_of self.now }
    {
        let head = self.head();
        Parts {
            codec: Codec::from(head.codec),
            hash_code: HashCode::from(head.hash),
            digest: &self.room.as_slice()[head.digest_at..],
        }
    }

    /// How the bytes of the CIDs compare, as std compares slices.
    pub(crate) fn compare(&self, other: &Cid) -> Ordering
        ensures { result ≡ slice_cmp nat_cmp self.now other.now }
    {
        self.room.compare(&other.room)
    }

    /// The parts of the CID.
    fn head(&self) -> Head
        ensures parts { cid_head self.now ≡ Ok result }
        ensures within { (result.digest_at ≤ length self.now) × (result.end ≡ length self.now) }
    {
        match read_head(self.room.as_slice()) {
            Ok(head) => head,
            Err(_) => unreachable!(),
        }
    }
}

/// What stands before a digest of `len` bytes.
fn prefix(codec: u64, hash: u64, len: u64) -> CidBuffer
    requires codec_fits { codec < 2 ^ 63 }
    requires hash_fits { hash < 2 ^ 63 }
    requires len_fits { len < 2 ^ 63 }
    ensures value { result ≡ varint 1 ++ (varint codec ++ (varint hash ++ varint len)) }
    ensures short { length result ≤ 36 }
{
    let mut room = CidBuffer::new();
    room.push_varint(1);
    room.push_varint(codec);
    room.push_varint(hash);
    room.push_varint(len);
    room
}
