//! The codecs and hash functions that have a name here, by their numbers in the multicodec table.
ghost use Rattle.std.specs.Prelude.{◌≡◌};
ghost use Rattle.ss_cid.specs.Cid.{codec_named, hash_named};

/// Bytes as they are.
pub const CODEC_RAW: u64 = 0x55;

/// MerkleDAG protobuf.
pub const CODEC_DAG_PB: u64 = 0x70;

/// DAG-CBOR.
pub const CODEC_DAG_CBOR: u64 = 0x71;

/// Filecoin's commitment to unsealed data.
pub const CODEC_UNSEALED: u64 = 0xf101;

/// Filecoin's commitment to sealed data.
pub const CODEC_SEALED: u64 = 0xf102;

/// No hash: the digest is the block itself.
pub const HASH_IDENTITY: u64 = 0x00;

/// SHA-256.
pub const HASH_SHA2_256: u64 = 0x12;

/// BLAKE2b with a digest of 32 bytes.
pub const HASH_BLAKE2B_256: u64 = 0xb220;

/// How a block's bytes are read.
#[derive(Clone, Copy, Debug, PartialEq, Eq)]
pub enum Codec {
    /// As they are.
    Raw,
    /// MerkleDAG protobuf.
    DagPb,
    /// DAG-CBOR.
    DagCbor,
    /// Filecoin's commitment to unsealed data.
    Unsealed,
    /// Filecoin's commitment to sealed data.
    Sealed,
    /// By a codec that has no name here; a number with a name never comes here.
    Other(u64),
}

impl From<u64> for Codec {
    ghost from_gives = { λ number codec. codec ≡ codec_named number };

    fn from(number: u64) -> Codec {
        match number {
            CODEC_RAW => Codec::Raw,
            CODEC_DAG_PB => Codec::DagPb,
            CODEC_DAG_CBOR => Codec::DagCbor,
            CODEC_UNSEALED => Codec::Unsealed,
            CODEC_SEALED => Codec::Sealed,
            _ => Codec::Other(number),
        }
    }
}

/// Which hash function made a digest.
#[derive(Clone, Copy, Debug, PartialEq, Eq)]
pub enum HashCode {
    /// None: the digest is the block itself.
    Identity,
    /// SHA-256.
    Sha2x256,
    /// BLAKE2b with a digest of 32 bytes.
    Blake2b256,
    /// One that has no name here; a number with a name never comes here.
    Other(u64),
}

impl From<u64> for HashCode {
    ghost from_gives = { λ number code. code ≡ hash_named number };

    fn from(number: u64) -> HashCode {
        match number {
            HASH_IDENTITY => HashCode::Identity,
            HASH_SHA2_256 => HashCode::Sha2x256,
            HASH_BLAKE2B_256 => HashCode::Blake2b256,
            _ => HashCode::Other(number),
        }
    }
}
