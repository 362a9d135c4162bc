//! Listing what a node leaves to walk.
ghost use Rattle.std.specs.Prelude.{◌≡◌, ◌+◌, ◌<◌, ◌≤◌, ◌++◌, ◌∷◌, [], map, length, take, drop, reverse, OnOk, OnErr, Err, ⊤};
ghost use Rattle.std.specs.List.{flat_map, list_any};
ghost use Rattle.ss_node.specs.Rows.{many_from};
ghost use Rattle.ss_hamt.specs.Node.{node_from, pointer_from, bucket_from, entry_from};
ghost use Rattle.ss_hamt.specs.Walks.{is_link, node_at_from, entry_part, parts_by, Lists, ListsNode};

use crate::node::PARTS;
use crate::pointer::read_entry;
use crate::slots::{LAST_LEVEL, read_bitfield};
use ss_cbor::Cursor;
use ss_cid::{Bytes, Cid, NoMemory};
use std::alloc::Global;

/// What a walk has still to do: read a child, which is at a level, or hand out an entry of a
/// bucket.
#[derive(Debug, Drop)]
pub(crate) enum Pending {
    Child { cid: Cid, level: u32 },
    Entry { key: Bytes, value: Bytes },
}

/// Why a node is not listed.
#[derive(Clone, Copy, Debug, PartialEq, Eq)]
pub(crate) enum Unlisted {
    NotANode,
    NoMemory,
}

impl From<NoMemory> for Unlisted {
    ghost use Rattle.std.specs.Prelude.{◌≡◌};
    ghost use Rattle.ss_hamt.specs.declared.listing.Unlisted.TheVariants as unlisted;

    ghost from_gives = { λ _ why. why ≡ unlisted.NoMemory };

    fn from(_refused: NoMemory) -> Unlisted {
        Unlisted::NoMemory
    }
}

/// Reads a node at a level, to the end of the input. Adds its children and entries to what is
/// pending, so that the first is the last of these.
#[tactic(auto, unfolding(crate::specs::Node::node_from, ss_node::specs::Rows::array_from))]
pub(crate) fn list_node(
    alloc: Global,
    cursor: &mut Cursor<'_>,
    level: u32,
    pending: &mut Vec<Pending>,
) -> Result<(), Unlisted>
    requires { level ≤ 50 }
    ensures { ListsNode level (node_at_from level cursor.old.end cursor.old.rest) pending.old.items pending.new.items result }
{
    let Some(PARTS) = cursor.array() else {
        return Err(Unlisted::NotANode);
    };
    let Some(field) = cursor.blob() else {
        return Err(Unlisted::NotANode);
    };
    let Some(bits) = read_bitfield(field) else {
        return Err(Unlisted::NotANode);
    };
    let Some(count) = cursor.array() else {
        return Err(Unlisted::NotANode);
    };
    let start = pending.len();
    let has_child = list_pointers(alloc, cursor, level, count, pending)?;
    if count != u64::from(bits.count_ones()) || !cursor.is_at_end() {
        return Err(Unlisted::NotANode);
    }
    if level == LAST_LEVEL && has_child {
        return Err(Unlisted::NotANode);
    }
    reverse_from(pending, start);
    Ok(())
}

// Reads `n` pointers, and adds what they leave to walk. Answers whether one of them is a link.
fn list_pointers(
    alloc: Global,
    cursor: &mut Cursor<'_>,
    level: u32,
    n: u64,
    pending: &mut Vec<Pending>,
) -> Result<bool, Unlisted>
    requires { level ≤ 50 }
    ensures { Lists (many_from pointer_from n) (flat_map (parts_by level)) (λ pointers has_child. has_child ≡ list_any is_link pointers) cursor.old cursor.new pending.old.items pending.new.items result }
{
    let mut has_child = false;
    for _ in 0..n {
        let is_child = list_pointer(alloc, cursor, level, pending)?;
        has_child = has_child || is_child;
    }
    Ok(has_child)
}

// Reads a pointer, and adds what it leaves to walk. Answers whether it is a link.
#[tactic(auto, unfolding(crate::specs::Node::pointer_from, crate::specs::Node::bucket_from))]
fn list_pointer(
    alloc: Global,
    cursor: &mut Cursor<'_>,
    level: u32,
    pending: &mut Vec<Pending>,
) -> Result<bool, Unlisted>
    requires { level ≤ 50 }
    ensures { Lists pointer_from (parts_by level) (λ pointer is_child. is_child ≡ is_link pointer) cursor.old cursor.new pending.old.items pending.new.items result }
{
    if let Some(cid) = cursor.link() {
        let child = Pending::Child {
            cid,
            level: level + 1,
        };
        push(pending, child)?;
        return Ok(true);
    }
    let Some(n) = cursor.array() else {
        return Err(Unlisted::NotANode);
    };
    if n == 0 {
        return Err(Unlisted::NotANode);
    }
    list_entries(alloc, cursor, n, pending)?;
    Ok(false)
}

// Reads `n` entries of a bucket, and adds them.
fn list_entries(
    alloc: Global,
    cursor: &mut Cursor<'_>,
    n: u64,
    pending: &mut Vec<Pending>,
) -> Result<(), Unlisted>
    ensures { Lists (many_from entry_from n) (map entry_part) (λ _ _. ⊤) cursor.old cursor.new pending.old.items pending.new.items result }
{
    for _ in 0..n {
        let Some((key, value)) = read_entry(cursor) else {
            return Err(Unlisted::NotANode);
        };
        let key = Bytes::from_slice(alloc, key)?;
        let value = Bytes::from_slice(alloc, value)?;
        push(pending, Pending::Entry { key, value })?;
    }
    Ok(())
}

// Adds one to what is pending.
fn push(pending: &mut Vec<Pending>, part: Pending) -> Result<(), Unlisted>
    ensures ok { OnOk result (pending.new.items ≡ pending.old.items ++ part ∷ []) }
    ensures err { OnErr result (result ≡ Err Unlisted.NoMemory) }
{
    match pending.push(part) {
        Ok(()) => Ok(()),
        Err(_) => Err(Unlisted::NoMemory),
    }
}

// Reverses the end of a list, from an index on.
fn reverse_from(pending: &mut Vec<Pending>, start: usize)
    requires { start ≤ length pending.old.items }
    ensures { pending.new.items ≡ take start pending.old.items ++ reverse (drop start pending.old.items) }
{
    pending[start..].reverse();
}
