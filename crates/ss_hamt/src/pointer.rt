//! Reading pointers.
ghost use Rattle.ss_cbor.specs.Position.{Reads};
ghost use Rattle.ss_hamt.specs.Node.{entry_from};
ghost use Rattle.ss_hamt.specs.Paths.{Seeks, PicksPointer, ReadsPointer};

use ss_cbor::Cursor;
use ss_cid::Cid;

/// How many items an entry of a bucket has: a key and a value.
const ENTRY_PARTS: u64 = 2;

/// What a pointer has for a key: a child that leads on, or the bytes of the value, if there is one.
#[derive(Clone, Copy, Debug)]
pub(crate) enum Entry<'a> {
    Child(Cid),
    Value(Option<&'a [u8]>),
}

/// Reads `n` pointers in a row, and answers what the one at an index has for a key, if there are so
/// many. None where one of them is no pointer.
pub(crate) fn pick_pointer<'a>(
    cursor: &mut Cursor<'a>,
    n: u64,
    index: u64,
    key: &[u8],
) -> Option<Option<Entry<'a>>>
    ensures { PicksPointer key.now n index cursor.old cursor.new result }
{
    let mut picked = None;
    for i in 0..n {
        let Some(entry) = read_pointer(cursor, key) else {
            return None;
        };
        if i == index {
            picked = Some(entry);
        }
    }
    Some(picked)
}

// Reads a pointer, and answers what it has for a key.
#[tactic(auto, unfolding(crate::specs::Node::pointer_from, crate::specs::Node::bucket_from))]
fn read_pointer<'a>(cursor: &mut Cursor<'a>, key: &[u8]) -> Option<Entry<'a>>
    ensures { ReadsPointer key.now cursor.old cursor.new result }
{
    if let Some(child) = cursor.link() {
        return Some(Entry::Child(child));
    }
    let n = cursor.array()?;
    if n == 0 {
        return None;
    }
    let value = seek(cursor, n, key)?;
    Some(Entry::Value(value))
}

// Reads `n` entries of a bucket, and answers the value of the first with a key. None where one of
// them is no entry.
fn seek<'a>(cursor: &mut Cursor<'a>, n: u64, key: &[u8]) -> Option<Option<&'a [u8]>>
    ensures { Seeks key.now n cursor.old cursor.new result }
{
    let mut found = None;
    for _ in 0..n {
        let (entry_key, value) = read_entry(cursor)?;
        if key == entry_key {
            found = found.or(Some(value));
        }
    }
    Some(found)
}

// Reads an entry of a bucket: its key, and the bytes of its value.
#[tactic(auto, unfolding(crate::specs::Node::entry_from, ss_chain::specs::HeaderReading::item_from))]
pub(crate) fn read_entry<'a>(cursor: &mut Cursor<'a>) -> Option<(&'a [u8], &'a [u8])>
    ensures { Reads (λ entry. (entry.0.now, entry.1.now)) entry_from cursor.old cursor.new result }
{
    if cursor.array()? != ENTRY_PARTS {
        return None;
    }
    let key = cursor.blob()?;
    match cursor.skip() {
        Ok(value) => Some((key, value)),
        Err(_) => None,
    }
}
