//! Chain data of Filecoin, over any store of blocks: links, headers, which links are followed, tipsets, and the trait by
//! which the crates above fetch blocks.
//!
//! A block is a CID and its bytes. [`links`] gives the links of its item. [`header`] reads it as a block header, exactly
//! where it is one (`specs/Header.antt`, after the form of Filecoin's block headers). [`follows`] gives the links that
//! compaction follows, for an edge: a height below which state, receipts and messages are not followed
//! (`specs/Follows.antt`, after Lotus's splitstore). [`tipset`] gives the common height of blocks that are a tipset, or
//! the first fault of others (`specs/Tipset.antt`). None of these takes memory, nor stack that grows with the input.
//!
//! [`Blocks`] is a set of blocks with a count of faults, and maybe with its contents exposed as a map;
//! [`ParcelBlocks`] is one in memory, for tests. What a fetch gives, and which CIDs are reached from roots by links that
//! are followed, is defined for any map (`specs/Fetch.antt`, `specs/Reach.antt`). That reach is the least set closed
//! under following is in [`laws`].
#![tactic(auto)]

mod block_links;
mod blocks;
mod chain_header;
mod fetched;
mod fields;
mod followed_links;
mod following;
mod header_reader;
pub mod laws;
mod memory_blocks;
mod tipset_fault;
mod tipset_rule;

pub use block_links::links;
pub use blocks::Blocks;
pub use chain_header::Header;
pub use fetched::Fetched;
pub use followed_links::Follows;
pub use following::follows;
pub use header_reader::header;
pub use memory_blocks::ParcelBlocks;
pub use ss_cid::Parcel;
pub use tipset_fault::TipsetFault;
pub use tipset_rule::tipset;
