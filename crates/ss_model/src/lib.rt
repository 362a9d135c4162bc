//! The machine: what a client may call, what the store may answer, and which lists of calls and answers are lawful.
//!
//! A store is seen as one state: its settings, which blocks it keeps, which of them are hot, the head, the base of the
//! last compaction, and which views are open. A call has one lawful answer at a state, except out of memory, a full
//! log and a fault of the disk, which may stand in its place; the state after an answer is a function of the state, the
//! call and the answer. So a history, a list of entries, is legal or not, and stands for one run. The definitions are
//! in `specs/`; this crate has the types that they speak of, and the laws that hold of histories.
//!
//! [`reach`] computes which kept blocks are reached from some CIDs, by a plain search. The store keeps colours and never
//! calls it: tests compare the two.
#![tactic(auto)]

mod call;
pub mod laws;
mod met;
mod reaching;

pub use call::{
    Answer, Call, CloseReply, Entry, GetReply, HasReply, HeadReply, Info, PutReply, SizeReply,
    ViewReply,
};
pub use reaching::reach;

/// The client number under which the store's own compactor makes its calls.
pub const COMPACTOR: u8 = 255;

/// The number of a view that is never open: the one a script line is given whose own `open` has not answered.
pub const NO_VIEW: u32 = 4_294_967_295;

/// How many views may be open at once. Their numbers are below it.
pub const VIEWS: u32 = 1024;

/// The most blocks of one put.
pub const PUT_BLOCKS: usize = 1024;

/// The most bytes of one put: what `PutReply::TooBig` counts.
pub const PUT_BYTES: u64 = 15_728_640;

/// The most bytes of a CID and its block together.
pub const BLOCK_BYTES: usize = 8_388_608;
