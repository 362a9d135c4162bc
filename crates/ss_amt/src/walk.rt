//! Walking a tree.
ghost use Rattle.std.specs.Prelude.{IsTrue, IfOk};
ghost use Rattle.ss_node.specs.Blocks.{held_by, Answers, Visits};
ghost use Rattle.ss_amt.specs.Node.{is_shape};
ghost use Rattle.ss_amt.specs.Walks.{AmtValues, IsPending, WalksRoot, WalksNode};

use crate::listing::{Pending, Unlisted, list_node};
use crate::shape::Shape;
use crate::values::Values;
use ss_cbor::Cursor;
use ss_chain::Blocks;
use ss_cid::Cid;
use ss_node::{NodeFault, fetch_node};
use std::alloc::Global;

/// All values of an AMT with their indices, which ascend.
///
/// Reads all its nodes, one after another. The first CID that has no block is `Missing`; the first
/// whose block is no node of its form, or whose codec is not dag-cbor, is `BadNode`. `Fault` comes
/// exactly where the blocks counted one.
pub fn amt_walk<B: Blocks>(alloc: Global, blocks: &mut B, root: &Cid) -> Result<Values, NodeFault>
    ensures answer { Answers (AmtValues (held_by B.Blocks blocks.old) root.now) result }
    ensures visits { Visits B.Blocks blocks.old blocks.new result }
{
    let mut values = Values::new(alloc);
    let mut pending = Vec::new(alloc);
    let shape = walk_root(alloc, blocks, root, &mut pending, &mut values)?;
    while let Some(next) = pending.pop() {
        walk_node(alloc, blocks, &next, shape.width, &mut pending, &mut values)?;
    }
    Ok(values)
}

// Reads a root, and lists its children and values.
fn walk_root<B: Blocks>(
    alloc: Global,
    blocks: &mut B,
    root: &Cid,
    pending: &mut Vec<Pending>,
    values: &mut Values,
) -> Result<Shape, NodeFault>
    ensures walks { WalksRoot (held_by B.Blocks blocks.old) root.now pending.old.items pending.new.items values.old values.new result }
    ensures fits { IfOk result (λ shape. IsTrue (is_shape shape.width shape.height)) }
    ensures visits { Visits B.Blocks blocks.old blocks.new result }
{
    let block = fetch_node(alloc, blocks, root)?;
    let mut cursor = Cursor::new(block.as_slice());
    let Some(shape) = Shape::read_root(&mut cursor) else {
        return Err(NodeFault::BadNode { cid: *root });
    };
    match list_node(
        alloc,
        &mut cursor,
        shape.width,
        shape.height,
        0,
        pending,
        values,
    ) {
        Ok(()) => Ok(shape),
        Err(Unlisted::NotANode) => Err(NodeFault::BadNode { cid: *root }),
        Err(Unlisted::NoMemory) => Err(NodeFault::NoMemory),
    }
}

// Reads a node, and lists its children and values.
fn walk_node<B: Blocks>(
    alloc: Global,
    blocks: &mut B,
    next: &Pending,
    width: u32,
    pending: &mut Vec<Pending>,
    values: &mut Values,
) -> Result<(), NodeFault>
    requires { IsPending width next.now }
    ensures walks { WalksNode (held_by B.Blocks blocks.old) width next.now pending.old.items pending.new.items values.old values.new result }
    ensures visits { Visits B.Blocks blocks.old blocks.new result }
{
    let block = fetch_node(alloc, blocks, &next.cid)?;
    let mut cursor = Cursor::new(block.as_slice());
    match list_node(
        alloc,
        &mut cursor,
        width,
        next.height,
        next.first,
        pending,
        values,
    ) {
        Ok(()) => Ok(()),
        Err(Unlisted::NotANode) => Err(NodeFault::BadNode { cid: next.cid }),
        Err(Unlisted::NoMemory) => Err(NodeFault::NoMemory),
    }
}
