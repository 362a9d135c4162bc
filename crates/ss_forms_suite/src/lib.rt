//! Tests of the crates that give bytes their meaning: published vectors, and tables of faults and their places.
//!
//! It has no code of its own, so that each crate is proved once, and without its tests.
#![tactic(auto)]

#[cfg(test)]
mod tests;
