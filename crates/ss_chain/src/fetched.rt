//! The answer of a fetch.
use ss_cid::Bytes;

/// What a fetch answers.
#[derive(Debug, PartialEq, Eq, Drop)]
pub enum Fetched {
    /// The block's bytes.
    Found(Bytes),
    /// There is no such block.
    NotFound,
    /// The store below failed, and counted it.
    Fault,
    /// Out of memory.
    NoMemory,
}
