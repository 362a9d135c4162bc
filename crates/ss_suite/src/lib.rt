//! Tests of the whole program over a disk in memory: what no clause of [`ss_app::run_alone`] says, and the built program cannot
//! show. The tests of the built program are in `tests/`, at the top of the repository.
//!
//! A run is stopped at each call of its disk, with crash images that the disk in memory makes, and run again; and each call
//! of the disk fails in turn. One test makes the call of a store that no command makes yet, [`ss_core::SplitCore::call`]. It has
//! no code of its own, so that the crates below it are proved without these tests.
#![tactic(auto)]

#[cfg(test)]
mod tests;
