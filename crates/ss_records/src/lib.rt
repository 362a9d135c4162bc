//! The records of the logs, and the one spelling of each in bytes.
//!
//! Contracts see a [`Record`] as its fields, with each CID and each block as the list of its bytes.
//! `spelling` in `specs/Record.antt` is a record's body in a log, its kind and its fields, and `Fits` says
//! which counts and bounds it keeps. `read_record` in `specs/Fields.antt` reads a body field by field, from
//! left to right, and tells the offset of the first fault. The format, number 1, is this project's own.
//!
//! The one contract: [`decode`] accepts exactly the spellings of records within their bounds, and [`encode`]
//! writes them. [`PutBlocks`] gives where each block of a Put lies in its body, for a store that keeps
//! places and not blocks. That no body spells two records, and that the bytes at those places are the
//! blocks, is in [`laws`].
//!
//! A body is written as a frame: with four spare bytes before it and one after it, which a log
//! overwrites by the body's length and by the gate that follows the record. So a frame is made by one
//! allocation and is not copied again.
#![tactic(auto)]

mod fault;
mod fields;
pub mod laws;
mod places;
mod reading;
mod record;
mod writing;

pub use fault::RecordFault;
pub use places::{BlockPlace, PutBlocks};
pub use reading::decode;
pub use record::{Config, Mode, Record};
pub use writing::{encode, encode_cold, encode_dropped, encode_head, encode_put, encode_start};
