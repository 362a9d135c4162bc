//! The store over its disk: each call is a step of the machine of `ss_model`.
//!
//! Contracts see a [`SplitCore`] as its disk, its hot store and the set of its open views. Over a disk that exposes its files
//! it stands for a state, with or without a record in doubt (`specs/StandsFor.antt`): the state is what the records of the
//! log leave, and each image of a crash has it, or with a record in doubt the one that this record would make too.
//!
//! The one contract is that of [`SplitCore::call`], which each call has too, in two clauses. `told`: over a disk that exposes
//! its files, from whatever state the store stands for, the answer is lawful, the store stands for the state after it, and
//! each image since the call began has one of the two (`Steps` in `specs/Calls.antt`). `made`: over any disk, a fault is
//! answered just where the disk counted one, and what the disk may have been asked for (`Makes`). What call and answer tell of
//! the log, and which record the call writes or may leave in doubt, are two functions (`use_of` and `record_of` in
//! `specs/Calls.antt`). [`laws`] say what the next run finds.
//!
//! All blocks that are kept are hot, in one log; the table has a row for each. A put checks each block (`blocks`), picks the
//! new ones (`fresh`) and writes them by one record. The machine is this project's own.
#![tactic(auto)]

mod blocks;
mod fault;
mod found;
mod fresh;
pub mod laws;
mod split_core;
mod tipset;
mod views;

pub use split_core::{PartsFault, SplitCore};
