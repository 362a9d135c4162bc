//! Reading a node.
ghost use Rattle.std.specs.Prelude.{◌<◌};
ghost use Rattle.ss_hamt.specs.Node.{node_from};
ghost use Rattle.ss_hamt.specs.Paths.{ReadsEntry};

use crate::pointer::{Entry, pick_pointer};
use crate::slots::{is_set, ones_below, read_bitfield};
use ss_cbor::Cursor;

/// How many items a node has: a bitfield and pointers.
pub(crate) const PARTS: u64 = 2;

/// Reads a node, to the end of the input, and answers what it has at a slot for a key. None where
/// the bytes are no node.
#[tactic(auto, unfolding(crate::specs::Node::node_from, ss_node::specs::Rows::array_from))]
pub(crate) fn read_node<'a>(cursor: &mut Cursor<'a>, slot: u32, key: &[u8]) -> Option<Entry<'a>>
    requires { slot < 32 }
    ensures { ReadsEntry key.now slot (node_from cursor.old.end cursor.old.rest) result }
{
    if cursor.array()? != PARTS {
        return None;
    }
    let field = cursor.blob()?;
    let bits = read_bitfield(field)?;
    let count = cursor.array()?;
    let index = u64::from(ones_below(bits, slot));
    let Some(picked) = pick_pointer(cursor, count, index, key) else {
        return None;
    };
    if count != u64::from(bits.count_ones()) || !cursor.is_at_end() {
        return None;
    }
    if !is_set(bits, slot) {
        return Some(Entry::Value(None));
    }
    match picked {
        Some(entry) => Some(entry),
        None => Some(Entry::Value(None)),
    }
}
