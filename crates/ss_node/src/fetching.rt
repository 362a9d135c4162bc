//! Fetching the block of a node.
ghost use Rattle.std.specs.Prelude.{◌≡◌, ◌≢◌};
ghost use Rattle.ss_cid.specs.Cid.{codec_of};
ghost use Rattle.ss_node.specs.Blocks.{held_by, FindsBlock, Visits};

use crate::NodeFault;
use ss_chain::{Blocks, Fetched};
use ss_cid::{Bytes, Cid, Codec};
use std::alloc::Global;

/// The block of a node. A CID whose codec is not dag-cbor names no node, and is not fetched: it is
/// `BadNode`. `Missing` comes exactly where such a CID is neither an identity CID nor in the
/// blocks' set.
pub fn fetch_node<B: Blocks>(alloc: Global, blocks: &mut B, cid: &Cid) -> Result<Bytes, NodeFault>
    ensures finds { FindsBlock (held_by B.Blocks blocks.old) cid.now result }
    ensures visits { Visits B.Blocks blocks.old blocks.new result }
    ensures unfetched { codec_of cid.now ≢ 0x71 → blocks.new ≡ blocks.old }
{
    if cid.codec() != Codec::DagCbor {
        return Err(NodeFault::BadNode { cid: *cid });
    }
    match blocks.fetch(alloc, cid) {
        Fetched::Found(block) => Ok(block),
        Fetched::NotFound => Err(NodeFault::Missing { cid: *cid }),
        Fetched::Fault => Err(NodeFault::Fault),
        Fetched::NoMemory => Err(NodeFault::NoMemory),
    }
}
