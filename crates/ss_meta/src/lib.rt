//! The plan of a compaction, in the gate log of a file of its own: from which edge and roots it marks, which blocks leave the
//! hot store, and how many of them are copied and purged.
//!
//! Contracts see a [`MetaLog`] as its log and its plan (`Meta` in `specs/Meta.antt`). Over a disk it stands for a list of
//! records (`Keeps`): it has their plan in memory (`plan_of` in `specs/Plan.antt`), and each image of a crash has them in
//! the log's file. If the log is in doubt, each image has them or one other list, by one gate.
//!
//! The one contract: a call that writes appends one record that may follow the others (`MayFollow`), or leaves the list as
//! it was. Except [`MetaLog::start`] empties the log and appends one record; a fault leaves the old list, none, or that record.
//! [`MetaLog::open`] reads the file in one pass. It gives the plan of exactly the records that the file has, or the offset of
//! the first that may not follow those before it.
//!
//! A call that writes takes all its memory before it asks the disk for anything, and then settles a log in doubt. The CIDs
//! of a plan are in memory once. Which records a plan has is this project's own.
#![tactic(auto)]

pub mod laws;
mod log;
mod plan;

pub use log::MetaLog;
pub use plan::Plan;
