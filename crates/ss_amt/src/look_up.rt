//! Looking up an index.
ghost use Rattle.std.specs.Prelude.{◌≡◌, IsTrue, IfOk, option_copied};
ghost use Rattle.ss_node.specs.Blocks.{held_by, Answers, Visits};
ghost use Rattle.ss_amt.specs.Node.{is_shape, node_in, slot_of};
ghost use Rattle.ss_amt.specs.Paths.{AmtGet, FindsEntry, FindsRoot};

use crate::node::{Entry, read_entry};
use crate::shape::{Shape, slot_of};
use ss_cbor::Cursor;
use ss_chain::Blocks;
use ss_cid::{Bytes, Cid, NoMemory};
use ss_node::{NodeFault, fetch_node};
use std::alloc::Global;

/// What was found at a slot of a node, in memory of its own.
#[derive(Debug, Drop)]
pub(crate) struct Found {
    pub link: Option<Cid>,
    pub value: Option<Bytes>,
}

impl Found {
    /// A copy of what a node has.
    fn copy(alloc: Global, entry: &Entry<'_>) -> Result<Found, NoMemory>
        ensures { IfOk result (λ found. (found.link ≡ entry.now.link) × (found.value ≡ option_copied entry.now.value)) }
    {
        let value = match entry.value {
            Some(item) => Some(Bytes::from_slice(alloc, item)?),
            None => None,
        };
        Ok(Found {
            link: entry.link,
            value,
        })
    }
}

/// The value at an index of an AMT, as the bytes of its item; None where the index has none.
///
/// Reads the nodes on the path from the root, and no others. The first CID on it that has no block
/// is `Missing`; the first whose block is no node of its form, or whose codec is not dag-cbor, is
/// `BadNode`. `Fault` comes exactly where the blocks counted one.
pub fn amt_get<B: Blocks>(
    alloc: Global,
    blocks: &mut B,
    root: &Cid,
    index: u64,
) -> Result<Option<Bytes>, NodeFault>
    ensures answer { Answers (AmtGet (held_by B.Blocks blocks.old) root.now index) result }
    ensures visits { Visits B.Blocks blocks.old blocks.new result }
{
    let (shape, root_entry) = find_in_root(alloc, blocks, root, index)?;
    if !shape.has(index) {
        return Ok(None);
    }
    let mut found = root_entry;
    let mut height = shape.height;
    while height > 0 {
        let Some(child) = found.link else {
            return Ok(None);
        };
        height -= 1;
        found = find_in_node(alloc, blocks, &child, shape.width, height, index)?;
    }
    Ok(found.value)
}

// What a root has at the slot of an index, and its shape.
fn find_in_root<B: Blocks>(
    alloc: Global,
    blocks: &mut B,
    cid: &Cid,
    index: u64,
) -> Result<(Shape, Found), NodeFault>
    ensures finds { FindsRoot (held_by B.Blocks blocks.old) cid.now index result }
    ensures fits { IfOk result (λ found. IsTrue (is_shape found.0.width found.0.height)) }
    ensures visits { Visits B.Blocks blocks.old blocks.new result }
{
    let block = fetch_node(alloc, blocks, cid)?;
    let mut cursor = Cursor::new(block.as_slice());
    let Some(shape) = Shape::read_root(&mut cursor) else {
        return Err(NodeFault::BadNode { cid: *cid });
    };
    let slot = slot_of(shape.width, shape.height, index);
    match read_entry(&mut cursor, shape.width, shape.height, slot) {
        Some(entry) => Ok((shape, Found::copy(alloc, &entry)?)),
        None => Err(NodeFault::BadNode { cid: *cid }),
    }
}

// What the node of a height has at the slot of an index.
fn find_in_node<B: Blocks>(
    alloc: Global,
    blocks: &mut B,
    cid: &Cid,
    width: u32,
    height: u32,
    index: u64,
) -> Result<Found, NodeFault>
    requires { IsTrue (is_shape width height) }
    ensures finds { FindsEntry (held_by B.Blocks blocks.old) (node_in width height) cid.now (slot_of width height index) result }
    ensures visits { Visits B.Blocks blocks.old blocks.new result }
{
    let block = fetch_node(alloc, blocks, cid)?;
    let mut cursor = Cursor::new(block.as_slice());
    let slot = slot_of(width, height, index);
    match read_entry(&mut cursor, width, height, slot) {
        Some(entry) => Ok(Found::copy(alloc, &entry)?),
        None => Err(NodeFault::BadNode { cid: *cid }),
    }
}
