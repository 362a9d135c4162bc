//! What the stores over a gate log share: the index of their blocks, their faults, and the append of a record.
//!
//! A store keeps its contents as records in the log of one file, whose number is a parameter here. In memory it has
//! an [`Index`] from the CIDs of its blocks to their [`Place`]s in a file, so that a block is got by one read. Contracts
//! see an index as a finite map; how it changes with the blocks of a put and with dropped CIDs, and where the blocks of
//! a put lie in a file, is in `specs/Places.antt`.
//!
//! The one contract is that of [`append_record`] (`specs/Append.antt`): a log in doubt is settled first. Whatever the answer,
//! each crash image since has the log's records, or these and one more, or the list that was in doubt. After `Ok` each has
//! exactly the longer list.
//!
//! [`StoreFault`] is what every call of a store fails with. It names the file, which the faults of a log do not.
#![tactic(auto)]

mod append;
mod fault;
mod index;
mod place;

pub use append::append_record;
pub use fault::StoreFault;
pub use index::Index;
pub use place::Place;
