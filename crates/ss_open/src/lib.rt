//! Making a store on a disk, and opening one.
//!
//! The one contract is that of [`open`]: the store stands for exactly the state that the file of the hot log has
//! (`specs/Opening.antt`), or the answer names why the file has none. Nothing is written. [`init`] makes a store in which
//! nothing is kept, and leaves every file as it was where there is a store already, and out of memory.
#![tactic(auto)]

mod fault;
pub mod laws;
mod making;
mod opening;

pub use fault::OpenFault;
pub use making::init;
pub use opening::open;
