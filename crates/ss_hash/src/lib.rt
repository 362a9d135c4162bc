//! Hash functions, and whether a block's bytes are those that its CID names.
//!
//! `blake2b` and `Blake2b` are BLAKE2b without a key (RFC 7693), as `specs/Blake2b.antt` states it over the
//! whole list of blocks: at once, and of a message that comes in pieces, however it is cut. SHA-256 is that
//! of the crate `sha2`.
//!
//! `check` is the rule by which every block that comes in is judged, `IsValid` of `specs/Digest.antt`: an
//! identity CID carries the block itself, and a sha2-256 or blake2b-256 CID its digest of 32 bytes; under any
//! other hash function no block is valid. A refusal says why, and at which place or with which digest.
//!
//! No call takes memory.
#![tactic(auto)]

mod block;
mod compress;
mod digest;
mod fault;
mod hasher;
mod state;

pub use block::{check, check_for_parts};
pub use digest::blake2b;
pub use fault::HashFault;
pub use hasher::Blake2b;
