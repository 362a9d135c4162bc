//! What the trees of chain state have in common: how a node is fetched, how an entry is picked out
//! of its arrays, and the bitmap that says which slots have one.
//!
//! The node of a CID is the block that [`fetch_node`] finds: only dag-cbor names nodes, and a CID
//! of another codec is a bad node, which is decided before a fetch. [`pick_link`] and [`pick_item`]
//! read one row of an array from left to right and keep one entry, so that a node is judged and
//! read in one pass, without a copy of it. [`is_set`] and [`ones_below`] look up a slot in a
//! bitmap.
#![tactic(auto)]

mod bitmap;
mod fault;
mod fetching;
mod picking;

pub use bitmap::{is_set, ones_below};
pub use fault::NodeFault;
pub use fetching::fetch_node;
pub use picking::{next_item, pick_item, pick_link};
