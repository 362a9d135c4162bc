//! Where bytes come from and where they go.
//!
//! A [`Source`] is seen as the bytes that are left and a count of faults, a [`Sink`] as the bytes that were written and a
//! count of faults. A stream exposes its bytes or it does not: one in memory does, one over the real standard streams does
//! not, and each clause on bytes holds where they are exposed. The count always is. A call answers [`Failed`] only where
//! the count rose in that call, or stands at its last value, 2^64 - 1, and succeeds only where it stayed. So code that is
//! generic over a stream cannot invent a fault.
//!
//! [`MemorySource`] and [`MemorySink`] lie in memory and expose their bytes. They fail at the calls that are listed, and
//! the sink also out of memory. [`StdSource`] and [`StdSink`] stand over a reader and a writer of std, and remember why a
//! call failed first ([`StreamFailure`]). That a real stream gives the bytes that were sent to it is not proved: std's
//! `Read` and `Write` say only how many bytes they moved.
//!
//! `proofs/Told.antt` has the steps of exposed bytes, one after another, as the rule set `told`.
#![tactic(auto)]

mod buffered;
mod failed;
mod failure;
mod memory_sink;
mod memory_source;
mod sink;
mod source;
mod std_sink;
mod std_source;
mod whole;

pub use buffered::Buffered;
pub use failed::Failed;
pub use failure::{StreamCall, StreamFailure};
pub use memory_sink::MemorySink;
pub use memory_source::MemorySource;
pub use sink::Sink;
pub use source::Source;
pub use std_sink::StdSink;
pub use std_source::StdSource;
pub use whole::{ReadAllFault, read_all};
