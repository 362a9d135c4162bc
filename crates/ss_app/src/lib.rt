//! The program as a library: what the words of the command line ask for, over any source, sink and disk.
//!
//! Contracts see a run as a source, a sink and a disk before it and after it (`specs/World.antt`), the words, and the
//! status. Of `trace` it comes to a history of `ss_model` and an ending. The history is legal from the state that the files
//! had (`HasState` of `ss_core`), its entries are the lines of the script, each once, in order
//! (`specs/Progress.antt`), and its text is one line an entry (`Text.antt` of `ss_script`). The ending has a status and a last
//! line (`specs/Ending.antt`).
//!
//! The one contract is that of [`run_alone`], which `specs/Outcome.antt` spells: what is written is the printed text of
//! such a history and then the line of the ending, and the status is the ending's; where the sink failed it is a prefix of
//! that, and the status is 5. A status that blames a stream or the disk comes only where that counted a fault, and a
//! fault that a stream counted is never passed over. One that blames the words, the script or the file comes just where
//! these are invalid, but for out of memory and faults. What is said of bytes holds over streams that expose them, and what
//! is said of states over disks that expose their files.
//!
//! A run goes through the words (`words`), the script, the opening of `ss_open`, the calls of `ss_core`, the views of the
//! clients and the printed text to the ending (`ending`). Script, views and text are those of `ss_script`. The words are a
//! grammar of this project's own.
#![tactic(auto)]

mod ending;
mod help;
mod importing;
pub mod laws;
mod run;
mod words;

pub use run::{Exit, run_alone};

/// The most bytes that a script may have.
pub const SCRIPT_BYTES: usize = ss_script::SCRIPT_BYTES;
