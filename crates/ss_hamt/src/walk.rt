//! Walking a tree.
ghost use Rattle.std.specs.Prelude.{◌≤◌};
ghost use Rattle.ss_node.specs.Blocks.{held_by, Answers, Visits};
ghost use Rattle.ss_hamt.specs.Walks.{HamtPairs, WalksNode};

use crate::listing::{Pending, Unlisted, list_node};
use crate::pairs::Pairs;
use ss_cbor::Cursor;
use ss_chain::Blocks;
use ss_cid::Cid;
use ss_node::{NodeFault, fetch_node};
use std::alloc::Global;

/// All keys of a HAMT with their values: slots ascending, and the entries of a bucket in order.
///
/// Reads all its nodes, one after another. The first CID that has no block is `Missing`; the first
/// whose block is no node, or whose codec is not dag-cbor, is `BadNode`. So is a node at level 50
/// that has a child. `Fault` comes exactly where the blocks counted one.
pub fn hamt_walk<B: Blocks>(alloc: Global, blocks: &mut B, root: &Cid) -> Result<Pairs, NodeFault>
    ensures answer { Answers (HamtPairs (held_by B.Blocks blocks.old) root.now) result }
    ensures visits { Visits B.Blocks blocks.old blocks.new result }
{
    let mut pairs = Pairs::new(alloc);
    let mut pending = Vec::new(alloc);
    let first = Pending::Child {
        cid: *root,
        level: 0,
    };
    let Ok(()) = pending.push(first) else {
        return Err(NodeFault::NoMemory);
    };
    while let Some(next) = pending.pop() {
        match next {
            Pending::Entry { key, value } => pairs.push(key, value)?,
            Pending::Child { cid, level } => walk_node(alloc, blocks, &cid, level, &mut pending)?,
        }
    }
    Ok(pairs)
}

// Reads a node at a level, and lists what it leaves to walk.
fn walk_node<B: Blocks>(
    alloc: Global,
    blocks: &mut B,
    cid: &Cid,
    level: u32,
    pending: &mut Vec<Pending>,
) -> Result<(), NodeFault>
    requires { level ≤ 50 }
    ensures walks { WalksNode (held_by B.Blocks blocks.old) cid.now level pending.old.items pending.new.items result }
    ensures visits { Visits B.Blocks blocks.old blocks.new result }
{
    let block = fetch_node(alloc, blocks, cid)?;
    let mut cursor = Cursor::new(block.as_slice());
    match list_node(alloc, &mut cursor, level, pending) {
        Ok(()) => Ok(()),
        Err(Unlisted::NotANode) => Err(NodeFault::BadNode { cid: *cid }),
        Err(Unlisted::NoMemory) => Err(NodeFault::NoMemory),
    }
}
