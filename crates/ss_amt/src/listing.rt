//! Listing what a node has.
ghost use Rattle.std.specs.Prelude.{◌≡◌, ◌+◌, ◌*◌, ◌<◌, ◌≤◌, ◌^◌, ◌∷◌, ◌++◌, [], length, take, drop, reverse, IsTrue};
ghost use Rattle.ss_node.specs.Bits.{is_set, ones_below};
ghost use Rattle.ss_amt.specs.Node.{is_shape, node_from};
ghost use Rattle.ss_amt.specs.Walks.{taken_below, ListsChildren, ListsValues, ListsNode};

use crate::node::{PARTS, has_counts, is_bitmap};
use crate::values::Values;
use ss_cbor::Cursor;
use ss_cid::{Cid, NoMemory};
use ss_node::{is_set, next_item, ones_below};
use std::alloc::Global;

/// A node that a walk has still to read: its height, and the first of the indices below it.
#[derive(Clone, Copy, Debug)]
pub(crate) struct Pending {
    pub cid: Cid,
    pub height: u32,
    pub first: u64,
}

/// Why a node is not listed.
#[derive(Clone, Copy, Debug, PartialEq, Eq)]
pub(crate) enum Unlisted {
    NotANode,
    NoMemory,
}

impl From<NoMemory> for Unlisted {
    ghost use Rattle.std.specs.Prelude.{◌≡◌};
    ghost use Rattle.ss_amt.specs.declared.listing.Unlisted.TheVariants as unlisted;

    ghost from_gives = { λ _ why. why ≡ unlisted.NoMemory };

    fn from(_refused: NoMemory) -> Unlisted {
        Unlisted::NoMemory
    }
}

/// Reads a node of a height, to the end of the input. Adds its children to those that are pending,
/// so that the first is the last of these, and its values to the others.
#[tactic(auto, unfolding(crate::specs::Node::node_from, ss_node::specs::Rows::array_from))]
pub(crate) fn list_node(
    alloc: Global,
    cursor: &mut Cursor<'_>,
    width: u32,
    height: u32,
    first: u64,
    pending: &mut Vec<Pending>,
    values: &mut Values,
) -> Result<(), Unlisted>
    requires shape { IsTrue (is_shape width height) }
    requires room { first + 2 ^ (width * (height + 1)) ≤ 2 ^ 63 }
    ensures { ListsNode width height first (node_from width height cursor.old.end cursor.old.rest) pending.old.items pending.new.items values.old values.new result }
{
    let Some(PARTS) = cursor.array() else {
        return Err(Unlisted::NotANode);
    };
    let Some(bits) = cursor.blob() else {
        return Err(Unlisted::NotANode);
    };
    if !is_bitmap(width, bits) {
        return Err(Unlisted::NotANode);
    }
    let taken = ones_below(bits, 1 << width) as u64;
    let Some(links) = cursor.array() else {
        return Err(Unlisted::NotANode);
    };
    if links > taken {
        return Err(Unlisted::NotANode);
    }
    list_children(cursor, width, height, first, bits, links, pending)?;
    let Some(count) = cursor.array() else {
        return Err(Unlisted::NotANode);
    };
    if !has_counts(height, taken, links, count) {
        return Err(Unlisted::NotANode);
    }
    list_values(alloc, cursor, width, first, bits, count, values)?;
    if cursor.is_at_end() {
        Ok(())
    } else {
        Err(Unlisted::NotANode)
    }
}

// Reads `n` links, and adds the children to those that are pending, so that the first is the last
// of these.
fn list_children(
    cursor: &mut Cursor<'_>,
    width: u32,
    height: u32,
    first: u64,
    bits: &[u8],
    n: u64,
    pending: &mut Vec<Pending>,
) -> Result<(), Unlisted>
    requires shape { IsTrue (is_shape width height) }
    requires room { first + 2 ^ (width * (height + 1)) ≤ 2 ^ 63 }
    requires bits { 2 ^ width ≤ 8 * length bits.now }
    requires few { n ≤ ones_below bits.now (2 ^ width) }
    ensures { ListsChildren width height first bits.now n cursor.old cursor.new pending.old.items pending.new.items result }
{
    let start = pending.len();
    let mut slot = 0;
    for _ in 0..n {
        let Some(cid) = cursor.link() else {
            return Err(Unlisted::NotANode);
        };
        slot = next_taken(bits, slot, 1 << width);
        let offset = (slot as u64) << (width * height);
        let child = Pending {
            cid,
            height: height.saturating_sub(1),
            first: first + offset,
        };
        let Ok(()) = pending.push(child) else {
            return Err(Unlisted::NoMemory);
        };
        slot += 1;
    }
    reverse_from(pending, start);
    Ok(())
}

// Reverses the end of a list, from an index on.
fn reverse_from(pending: &mut Vec<Pending>, start: usize)
    requires { start ≤ length pending.old.items }
    ensures { pending.new.items ≡ take start pending.old.items ++ reverse (drop start pending.old.items) }
{
    pending[start..].reverse();
}

// Reads `n` values, and adds them to the others.
fn list_values(
    alloc: Global,
    cursor: &mut Cursor<'_>,
    width: u32,
    first: u64,
    bits: &[u8],
    n: u64,
    values: &mut Values,
) -> Result<(), Unlisted>
    requires width { width ≤ 18 }
    requires room { first + 2 ^ width ≤ 2 ^ 63 }
    requires bits { 2 ^ width ≤ 8 * length bits.now }
    requires few { n ≤ ones_below bits.now (2 ^ width) }
    ensures { ListsValues width first bits.now n cursor.old cursor.new values.old values.new result }
{
    let mut slot = 0;
    for _ in 0..n {
        let Some(item) = next_item(cursor) else {
            return Err(Unlisted::NotANode);
        };
        slot = next_taken(bits, slot, 1 << width);
        values.push(alloc, first + slot as u64, item)?;
        slot += 1;
    }
    Ok(())
}

// The first slot from `slot` on that is taken. One below `end` is.
fn next_taken(bits: &[u8], slot: usize, end: usize) -> usize
    requires some { ones_below bits.now slot < ones_below bits.now end }
    requires bits { end ≤ 8 * length bits.now }
    requires order { slot ≤ end }
    ensures within { (slot ≤ result) × (result < end) }
    ensures one { ones_below bits.now (result + 1) ≡ ones_below bits.now slot + 1 }
    ensures taken { taken_below bits.now (result + 1) ≡ taken_below bits.now slot ++ result ∷ [] }
{
    let mut next = slot;
    while !is_set(bits, next) {
        next += 1;
    }
    next
}
