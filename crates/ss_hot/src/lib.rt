//! The hot store: the blocks that were put and not dropped since, with the head of the chain and the base of the
//! last compaction, in one gate log of a disk.
//!
//! Contracts see a [`HotStore`] as its settings, its log, a map from CIDs to the places of their blocks, its head
//! and its base (`Hot` in `specs/Store.antt`). Over a disk it stands for a list of records (`Keeps`): it has in memory
//! what these records leave (`specs/Half.antt`), and each image of a crash has them in the log's file. If the log is in
//! doubt, each image has them or one other list, by one gate.
//!
//! The one contract: a call that writes, as [`HotStore::put_batch`], appends one record or leaves the list as it
//! was. Whatever the answer, every image since its start has the one list or the other, or the list that was in doubt.
//! [`HotStore::open`] reads the file in one pass. It gives the store of exactly the records that the file has; or None, if
//! no settings are committed in it; or the offset of the first invalid record (`specs/Half.antt`).
//! [`HotStore::is_committed`] tells by the first two records whether there is a store. A new store is made by its
//! [`FirstRecords`], which take all memory before the file is touched.
//!
//! No block is held in memory: the index has for each block its CID and its place, so a get is one read. That the
//! blocks are where the places say is in [`laws`]. A call that writes takes all its memory before it asks the disk for
//! anything. After a fault the log may be in doubt: the next call that writes settles it first, or [`HotStore::settle`]
//! does. Which records a half has, and what they leave, is this project's own.
#![tactic(auto)]

pub mod laws;
mod store;

pub use store::{FirstRecords, HotStore};
