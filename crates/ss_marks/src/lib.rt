//! Rows with colours: which blocks marking has reached, and which of them it still has to read.
//!
//! Contracts see [`Marks`] as one value (`MarkTable` in `specs/Marks.antt`): a finite map from each CID that has a row
//! to the row's number and its colour, the number of rows for which memory is reserved beside it, and the limit. No two
//! CIDs share a row ([`Marks::each_row_has_one_cid`]). Which rows are grey is determined by the colours.
//!
//! The one contract: each call changes that map at one CID, or whitens it whole, and nothing else of it. Only
//! [`Marks::reserve`] takes memory; every other call succeeds. Lemmas for callers, CID by CID, are in
//! `proofs/Using.antt`.
//!
//! # How it is laid out
//!
//! Rows are numbered from 0 and keep their number while they live. A removed row is used again before a new one is
//! made. The greys are a stack that is linked through the rows, and so are the vacant rows; a row is in one of them at
//! most, so they share one link a row.
//!
//! The look-up is a chained hash table by row numbers. The slot of a CID is std's `FoldHasher` over all of its bytes,
//! eight at a time, modulo the number of slots: the codec counts as much as the digest, since one block is valid under
//! 2^63 codecs with the same digest. The rows of a slot are chained by falling numbers, so a chain has no ring and ends
//! by itself. There are as many slots as rows for which there is memory.
//!
//! # What a row costs
//!
//! | what | bytes |
//! |---|---|
//! | CID | 73 |
//! | colour, or that the row is vacant | 2 |
//! | link of the greys or of the vacant rows | 4 |
//! | link of its slot's chain | 4 |
//! | slot | 4 |
//! | sum | 87 |
//!
//! A table that grows takes an eighth more than it had, so a live row costs at most 98 bytes if no row was removed. While
//! it grows, the old and the new look-up exist side by side.
#![tactic(auto)]

mod colour;
mod fault;
mod index;
mod marks;
mod room;
mod row;
mod stack;

pub use colour::Colour;
pub use fault::RowFault;
pub use marks::Marks;
