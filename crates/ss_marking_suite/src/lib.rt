//! Tests of marking: [`ss_txn::Txn`] over [`ss_marks::Marks`], compared with the plain search [`ss_model::reach`].
//!
//! Graphs of blocks are made from fixed seeds: arrays, headers, raw blocks and bytes that are no item, with links in rings,
//! through identity CIDs in one another, to commitments and to CIDs that are not stored. Blocks are put and CIDs shown
//! between scans. Once no row is grey or out, exactly the rows that the search reaches are black. A chain and a fan of
//! 100,000 blocks are marked and searched too, without stack that grows with them.
#![tactic(auto)]

#[cfg(test)]
mod tests;
