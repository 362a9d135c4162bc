//! Tests of the disk in memory: what calls that fail and crashes leave of it; and of the hot store over it: logs that are opened,
//! and the calls that no command makes.
//!
//! It has no code of its own, so that each crate is proved once, and without its tests.
#![tactic(auto)]

#[cfg(test)]
mod tests;
