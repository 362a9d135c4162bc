//! Reading a node.
ghost use Rattle.std.specs.Prelude.{◌≡◌, ◌*◌, ◌^◌, ◌<◌, ◌≤◌, length, IsTrue};
ghost use Rattle.ss_amt.specs.Node.{is_bitmap, has_counts, node_from, ReadsEntry};

use ss_cbor::Cursor;
use ss_cid::Cid;
use ss_node::{is_set, ones_below, pick_item, pick_link};

/// How many items a node has: a bitmap, links and values.
pub(crate) const PARTS: u64 = 3;

/// What a node has at a slot: the link of a child, or at height 0 the bytes of a value.
#[derive(Clone, Copy, Debug)]
pub(crate) struct Entry<'a> {
    pub link: Option<Cid>,
    pub value: Option<&'a [u8]>,
}

/// Reads a node of a height, to the end of the input, and answers what it has at a slot. None where
/// the bytes are no such node.
#[tactic(auto, unfolding(crate::specs::Node::node_from, ss_node::specs::Rows::array_from))]
pub(crate) fn read_entry<'a>(
    cursor: &mut Cursor<'a>,
    width: u32,
    height: u32,
    slot: usize,
) -> Option<Entry<'a>>
    requires width { width ≤ 18 }
    requires slot { slot < 2 ^ width }
    ensures { ReadsEntry slot (node_from width height cursor.old.end cursor.old.rest) result }
{
    if cursor.array()? != PARTS {
        return None;
    }
    let bits = cursor.blob()?;
    if !is_bitmap(width, bits) {
        return None;
    }
    let index = ones_below(bits, slot) as u64;
    let taken = ones_below(bits, 1 << width) as u64;
    let links = cursor.array()?;
    let link = pick_link(cursor, links, index)?;
    let values = cursor.array()?;
    let value = pick_item(cursor, values, index)?;
    if !has_counts(height, taken, links, values) || !cursor.is_at_end() {
        return None;
    }
    if is_set(bits, slot) {
        Some(Entry { link, value })
    } else {
        Some(Entry {
            link: None,
            value: None,
        })
    }
}

// Whether a bitmap has 2^width bits, of at least one byte, and no other bit is set.
pub(crate) fn is_bitmap(width: u32, bits: &[u8]) -> bool
    requires { width ≤ 18 }
    ensures value { result ≡ is_bitmap width bits.now }
    ensures room { IsTrue result → 2 ^ width ≤ 8 * length bits.now }
{
    let slots = 1usize << width;
    bits.len() == (slots / 8).max(1) && ones_below(bits, 8 * bits.len()) == ones_below(bits, slots)
}

// Whether a node with so many slots taken has the links and the values of its height.
pub(crate) fn has_counts(height: u32, taken: u64, links: u64, values: u64) -> bool
    ensures { result ≡ has_counts height taken links values }
{
    if height == 0 {
        links == 0 && values == taken
    } else {
        links == taken && values == 0
    }
}
