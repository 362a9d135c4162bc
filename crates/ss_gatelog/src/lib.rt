//! A log of records in one file of a disk, of which a crash leaves whole records.
//!
//! The form of the file is `specs/Log.antt`: a record is an open gate, which is the byte `a5`, the length of its
//! body in four bytes, and the body; a closed gate stands after the last. A file has the records before its
//! first closed gate, and what stands after that gate counts for nothing.
//!
//! Contracts see a [`GateLog`] as its file, its limit, the offset of its first closed gate, and whether that gate
//! is in doubt. Over a disk it stands for a list of bodies (`specs/GateLog.antt`). Where it is sure, every image
//! has exactly this list; where it is in doubt, every image has this list or one other, by that one gate.
//!
//! The one contract is that of [`GateLog::append`]: every image since the start of the call has the old list, or
//! the old list with the record after it, whatever the answer; after `Ok` every image has the record. It holds
//! since the record and the closed gate after it are synced before the one byte of the gate before it is opened.
//! [`GateLog::open`] gives exactly the list that a file has, or the offset at which the file is damaged; that each
//! file has the one or the other, and only one of it, is in [`laws`].
//!
//! [`Records`] opens a file and lends its bodies one after another, in one pass over the file
//! (`specs/Gate.antt`): over a disk that exposes its files, what it has lent at its end is exactly the list of the
//! file, and a damage that it answers is the one of the file. It and the log judge a gate by one function.
//!
//! No call of a log takes memory, and a record is written as it is lent. A reader takes as much as one record and a
//! piece need. There is no checksum: what a crash may leave is told by the disk's model, and no other damage is looked
//! for in a body. The form is this project's own.
#![tactic(auto)]

mod device;
mod fault;
mod frame;
mod gate;
pub mod laws;
mod log;
mod records;
mod skim;
mod window;

pub use fault::{LogFault, RecordsFault};
pub use frame::HEAD;
pub use log::GateLog;
pub use records::Records;
