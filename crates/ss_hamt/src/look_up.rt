//! Looking up a key.
ghost use Rattle.std.specs.Prelude.{◌<◌};
ghost use Rattle.ss_node.specs.Blocks.{held_by, Answers, Visits};
ghost use Rattle.ss_hamt.specs.Paths.{HamtGet, FindsEntry};

use crate::found::Found;
use crate::node::read_node;
use crate::slots::{LAST_LEVEL, slot_of};
use sha2::{Digest, Sha256};
use ss_cbor::Cursor;
use ss_chain::Blocks;
use ss_cid::{Bytes, Cid};
use ss_node::{NodeFault, fetch_node};
use std::alloc::Global;

/// The value of a key in a HAMT, as the bytes of its item; None where the key has none.
///
/// Reads the nodes on the path from the root, and no others. The first CID on it that has no block
/// is `Missing`; the first whose block is no node, or whose codec is not dag-cbor, is `BadNode`. At
/// level 50, where the hash of a key has no more bits, a node that has a child in the key's slot is
/// `BadNode` itself. `Fault` comes exactly where the blocks counted one.
pub fn hamt_get<B: Blocks>(
    alloc: Global,
    blocks: &mut B,
    root: &Cid,
    key: &[u8],
) -> Result<Option<Bytes>, NodeFault>
    ensures answer { Answers (HamtGet (held_by B.Blocks blocks.old) root.now key.now) result }
    ensures visits { Visits B.Blocks blocks.old blocks.new result }
{
    let hash = Sha256::digest(key);
    let mut cid = *root;
    let mut level = 0;
    while level < LAST_LEVEL {
        match find_in_node(alloc, blocks, &cid, slot_of(&hash, level), key)? {
            Found::Value(value) => return Ok(value),
            Found::Child(child) => cid = child,
        }
        level += 1;
    }
    match find_in_node(alloc, blocks, &cid, slot_of(&hash, level), key)? {
        Found::Value(value) => Ok(value),
        Found::Child(_) => Err(NodeFault::BadNode { cid }),
    }
}

// What a node has at a slot for a key.
fn find_in_node<B: Blocks>(
    alloc: Global,
    blocks: &mut B,
    cid: &Cid,
    slot: u32,
    key: &[u8],
) -> Result<Found, NodeFault>
    requires { slot < 32 }
    ensures finds { FindsEntry (held_by B.Blocks blocks.old) key.now cid.now slot result }
    ensures visits { Visits B.Blocks blocks.old blocks.new result }
{
    let block = fetch_node(alloc, blocks, cid)?;
    let mut cursor = Cursor::new(block.as_slice());
    match read_node(&mut cursor, slot, key) {
        Some(entry) => Ok(Found::copy(alloc, &entry)?),
        None => Err(NodeFault::BadNode { cid: *cid }),
    }
}
