//! Tests of the trees of chain state: look-ups and walks over blocks in memory.
//!
//! It has no code of its own, so that each crate is proved once, and without its tests.
#![tactic(auto)]

#[cfg(test)]
mod tests;
