//! Content identifiers (CIDs), and the small types that every crate above hands on.
//!
//! Contracts see a [`Cid`] as the list of its 4 to 72 bytes. Its type keeps that they are a CID of
//! version 1: varint 1, varint codec, varint hash code, varint digest length, digest (`IsCid` in
//! `specs/Cid.antt`). So its codec, hash code and digest are functions of the bytes that need no
//! further test.
//!
//! The one contract: [`Cid::parse`] and [`Cid::from_text`] accept exactly that grammar, and tell
//! the first fault from the left otherwise; what is written is read back, and in one way only
//! ([`laws`]).
//!
//! The grammar is that of the multiformats specifications of unsigned varints, multihash and CID,
//! and the text that of multibase with base32 by RFC 4648. That a CID has at most 72 bytes, that
//! version 0 is refused and that CIDs are ordered as their bytes is this project's own.
//!
//! [`Bytes`], [`Cids`] and [`Parcel`] own memory. A call of theirs that runs out of it answers
//! [`NoMemory`] and leaves the list as it was. No call of [`Cid`] and no varint call takes memory.
#![tactic(auto)]

mod bits;
mod bytes;
mod cid;
mod cid_buffer;
mod cids;
mod codec;
mod display;
mod equality;
mod fault;
mod head;
pub mod laws;
mod memory;
mod order;
mod parcel;
mod text;
mod varint;

pub use bytes::Bytes;
pub use cid::{Cid, Parts};
pub use cids::Cids;
pub use codec::{
    CODEC_DAG_CBOR, CODEC_DAG_PB, CODEC_RAW, CODEC_SEALED, CODEC_UNSEALED, Codec, HASH_BLAKE2B_256,
    HASH_IDENTITY, HASH_SHA2_256, HashCode,
};
pub use fault::CidFault;
pub use head::CID_BYTES;
pub use memory::NoMemory;
pub use parcel::Parcel;
pub use varint::{read_varint, write_varint};
