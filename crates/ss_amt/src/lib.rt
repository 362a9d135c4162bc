//! AMTs, over any set of blocks: arrays with gaps that are kept as trees, in which Filecoin's chain
//! data lists messages.
//!
//! A node has a slot for each value of some bits of the index, and says by a bitmap which slots are
//! taken: at height 0 by values, above by the links of children (`specs/Node.antt`). [`amt_get`]
//! goes from the root to the one value of an index, and reads and judges only the nodes on its path
//! (`specs/Paths.antt`). [`amt_walk`] lists all values, slots ascending, and reads every node
//! (`specs/Walks.antt`). A node is judged whole where it is read.
//!
//! Neither calls itself: a look-up goes down a level a turn, and a walk keeps a list of the nodes
//! that it has still to read, which holds no more than the siblings along one path. One block is in
//! memory at a time.
#![tactic(auto)]

pub mod laws;
mod listing;
mod look_up;
mod node;
mod shape;
mod values;
mod walk;

pub use look_up::amt_get;
pub use values::Values;
pub use walk::amt_walk;
