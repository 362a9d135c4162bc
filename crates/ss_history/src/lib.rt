//! What the calls of a history do to a store and its disk, call by call.
//!
//! A history begins where a store was opened, from a state that the files had. Each entry is a step of
//! `ss_core`; together they are a story (`specs/Story.antt`): legal entries, the faults that the disk counted, the least room
//! that each full log had, and the files that may have changed. Commands of the program differ in which
//! calls they make, and share this.
#![tactic(auto)]

pub mod laws;
