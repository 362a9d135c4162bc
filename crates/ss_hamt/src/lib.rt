//! HAMTs, over any set of blocks: maps from byte strings that are kept as trees, in which
//! Filecoin's chain data lists actors.
//!
//! A node has 32 slots, and says by a bitfield which are taken: by the link of a child, or by a
//! bucket of keys and values (`specs/Node.antt`). The sha2-256 hash of a key gives its slot at each
//! level, five bits at a time (`specs/Slots.antt`). [`hamt_get`] goes from the root to the bucket
//! of a key, and reads and judges only the nodes on its path (`specs/Paths.antt`). [`hamt_walk`]
//! lists all keys with their values, slots ascending and buckets in order, and reads every node
//! (`specs/Walks.antt`). A node is judged whole where it is read.
//!
//! Neither calls itself: a look-up goes down a level a turn, and a walk keeps a list of the
//! children and entries that are still to come, which holds no more than what the nodes along one
//! path leave. One block is in memory at a time.
#![tactic(auto)]

mod found;
pub mod laws;
mod listing;
mod look_up;
mod node;
mod pairs;
mod pointer;
mod slots;
mod walk;

pub use look_up::hamt_get;
pub use pairs::Pairs;
pub use walk::hamt_walk;
