//! Marking: which stored blocks a compaction has to keep, found while clients go on writing.
//!
//! A [`Txn`] has an edge, a height below which state, receipts and messages are not followed. Beside it stand
//! `ss_marks::Marks`, with one row for each stored block, and the blocks themselves, any `ss_chain::Blocks`. Marking
//! is tri-colour: a white row is not reached yet, a grey one is reached and not read, a black one is reached and read; a
//! row that is out is being read. [`Txn::begin`] whitens all rows and protects the roots, [`Txn::scan_one`] reads one
//! grey row and protects what its block is followed to, and [`Txn::protect`] is called for whatever is put, shown or set
//! as head in between.
//!
//! The one contract: `Marked` (`specs/Marked.antt`) holds after `begin`, and each call keeps it, in every order, for
//! every map of stored blocks and every list of roots. Once nothing is grey or out, what is still white is not reached
//! from the roots ([`laws::quiet_and_white_is_not_reached`]), so it may be discarded.
//!
//! An identity CID has its block in itself and no row. To protect one is to protect what its block is followed to.
//! Identity CIDs inside identity CIDs get shorter, so protecting takes a bounded stack. Only `scan_one` takes memory,
//! for the one block that it reads.
#![tactic(auto)]

pub mod laws;
mod protecting;
mod scan_reply;
mod transaction;

pub use scan_reply::ScanReply;
pub use transaction::Txn;
