//! Picking one entry out of a row, which is read to its end.
ghost use Rattle.ss_cbor.specs.Position.{Reads};
ghost use Rattle.ss_cbor.specs.Reading.{link_from};
ghost use Rattle.ss_chain.specs.HeaderReading.{item_from};
ghost use Rattle.ss_node.specs.Rows.{Picks};

use ss_cbor::Cursor;
use ss_cid::Cid;

/// Reads `n` links in a row, and answers the one at an index, if there are so many. None where one
/// of them is no link.
pub fn pick_link(cursor: &mut Cursor<'_>, n: u64, index: u64) -> Option<Option<Cid>>
    ensures { Picks (λ cid. cid) link_from n index cursor.old cursor.new result }
{
    let mut picked = None;
    for i in 0..n {
        let link = cursor.link()?;
        if i == index {
            picked = Some(link);
        }
    }
    Some(picked)
}

/// Reads `n` items in a row, and lends the bytes of the one at an index, if there are so many. None
/// where one of them is no item.
pub fn pick_item<'a>(cursor: &mut Cursor<'a>, n: u64, index: u64) -> Option<Option<&'a [u8]>>
    ensures { Picks (λ item. item.now) item_from n index cursor.old cursor.new result }
{
    let mut picked = None;
    for i in 0..n {
        let item = next_item(cursor)?;
        if i == index {
            picked = Some(item);
        }
    }
    Some(picked)
}

/// Passes one item, and lends its bytes. None where there is no item.
#[tactic(auto, unfolding(ss_chain::specs::HeaderReading::item_from))]
pub fn next_item<'a>(cursor: &mut Cursor<'a>) -> Option<&'a [u8]>
    ensures { Reads (λ item. item.now) item_from cursor.old cursor.new result }
{
    match cursor.skip() {
        Ok(item) => Some(item),
        Err(_) => None,
    }
}
