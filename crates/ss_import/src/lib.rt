//! Importing a CAR: its blocks are put section by section, and its roots may become the head.
//!
//! [`import`] opens a view and reads a CAR with `ss_car`. Sections that follow one another go into one put, as long as they
//! are no more than 256, have no more than 4,194,304 bytes of CIDs and blocks, and the put is not too big; a section that is
//! larger goes alone. A put stores its blocks by one record, so after a stop the store keeps the sections of some puts from the
//! front, whole. Where a put refuses a block, those before it are put, and the import ends at that section.
//!
//! Contracts see an import as the history of its calls (`specs/Import.antt`): a view is opened; each put has the sections that
//! come next, and those that were stored are passed; the roots are set as head at most once, at the end, and only where the
//! CAR has no fault and all its sections were put. What the calls did to the store is a `Story` of `ss_history`, and why an
//! import ends is one definition, `HasReason`.
//!
//! Beside the index of the store an import takes the memory of one put, of one section, of the roots and of a buffer of 65,536
//! bytes, whatever the length of the CAR. That sections are grouped, and how, is this project's own.
#![tactic(auto)]

mod fault;
mod group;
mod importer;

pub use fault::{BlockFault, ImportFault};
pub use importer::{Imported, import};
