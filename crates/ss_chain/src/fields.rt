//! Reading the items of a header from left to right.
ghost use Rattle.std.specs.Prelude.{◌≡◌};
ghost use Rattle.ss_chain.specs.HeaderReading.{item_from, after_items, leads_with_links, has_only_links};
ghost use Rattle.ss_cbor.specs.Position.{Reads, Passes};

use ss_cbor::Cursor;

/// Passes one item, and lends its bytes.
#[tactic(auto, unfolding(crate::specs::HeaderReading::item_from))]
pub fn next_item<'a>(cursor: &mut Cursor<'a>) -> Option<&'a [u8]>
    ensures { Reads (λ item. item.now) item_from cursor.old cursor.new result }
{
    match cursor.skip() {
        Ok(item) => Some(item),
        Err(_) => None,
    }
}

/// Passes so many items.
pub fn pass_items(cursor: &mut Cursor<'_>, n: u64) -> Option<()>
    ensures { Passes (after_items n) cursor.old cursor.new result }
{
    for _ in 0..n {
        next_item(cursor)?;
    }
    Some(())
}

/// Whether an item is an array of links alone.
#[tactic(auto, unfolding(crate::specs::HeaderReading::has_only_links))]
pub fn has_only_links(item: &[u8]) -> bool
    ensures { result ≡ has_only_links item.now }
{
    let mut cursor = Cursor::new(item);
    match cursor.array() {
        Some(n) => leads_with_links(&mut cursor, n),
        None => false,
    }
}

// Whether so many links come next.
fn leads_with_links(cursor: &mut Cursor<'_>, n: u64) -> bool
    ensures { result ≡ leads_with_links n cursor.old.end cursor.old.rest }
{
    for _ in 0..n {
        let Some(_) = cursor.link() else {
            return false;
        };
    }
    true
}
