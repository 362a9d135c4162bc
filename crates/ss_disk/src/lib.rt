//! The two disks: six files in memory, and six files of a folder.
//!
//! Both keep the contract of [`Disk`], which `ss_device` states. [`MemoryDisk`] exposes everything. It keeps every call, so
//! that it can answer an image of a crash after any of them, and fails at the calls that are listed, or out of memory: it is
//! for tests. No call of it that fails drops an image. [`FolderDisk`] stands over a folder of the operating system, which it
//! locks, and exposes its known lengths and its count alone. It remembers why a call failed first ([`FolderFailure`]). That a
//! real folder keeps the rest is trusted.
#![tactic(auto)]

mod folder;
mod memory;

pub use folder::{Access, FolderCall, FolderDisk, FolderFailure, file_name};
pub use memory::MemoryDisk;
pub use ss_device::{Disk, DiskFault, NoMemory};
