//! Reading a block header.
ghost use Rattle.std.specs.Prelude.{◌≡◌, ◌↔◌, Some, length, option_map};
ghost use Rattle.ss_chain.specs.Header.{fields, HeaderFields, IsHeader};
ghost use Rattle.ss_chain.specs.HeaderReading.{fields_from, header_in, header_of};

use crate::Header;
use crate::fields::{has_only_links, next_item, pass_items};
use ss_cbor::Cursor;
use ss_cid::{Cid, Codec};

/// How many items a header has.
const ITEMS: u64 = 16;

/// The first height that no header has.
const HEIGHT_END: u64 = 1 << 63;

/// The header that a block is, or None of any other block.
///
/// A block counts as a header exactly where its CID is dag-cbor and its bytes are one array of 16 items, of which,
/// counted from 0, item 5 is an array of links alone, item 7 is a number below 2^63, and items 8, 9 and 10 are links.
/// The other items may be anything.
#[tactic(auto, unfolding(crate::specs::HeaderReading::header_of))]
pub fn header<'a>(cid: &Cid, block: &'a [u8]) -> Option<Header<'a>>
    ensures is { (h : HeaderFields) → (option_map fields result ≡ Some h) ↔ IsHeader cid.now block.now h }
    ensures exact { option_map fields result ≡ header_of cid.now block.now }
{
    if cid.codec() == Codec::DagCbor {
        header_in(block)
    } else {
        None
    }
}

// The header that a block of dag-cbor is.
#[tactic(auto, unfolding(crate::specs::HeaderReading::header_in))]
fn header_in(block: &[u8]) -> Option<Header<'_>>
    ensures { option_map fields result ≡ header_in (length block.now) block.now }
{
    let mut cursor = Cursor::new(block);
    if cursor.array()? != ITEMS {
        return None;
    }
    read_fields(&mut cursor)
}

// Reads the sixteen items, and nothing else.
#[tactic(auto, unfolding(crate::specs::HeaderReading::fields_from))]
fn read_fields<'a>(cursor: &mut Cursor<'a>) -> Option<Header<'a>>
    ensures { option_map fields result ≡ fields_from cursor.old.end cursor.old.rest }
{
    // Miner, Ticket, ElectionProof, BeaconEntries, WinPoStProof
    pass_items(cursor, 5)?;
    let above = next_item(cursor)?;
    // ParentWeight
    pass_items(cursor, 1)?;
    let height = cursor.uint()?;
    let state = cursor.link()?;
    let receipts = cursor.link()?;
    let messages = cursor.link()?;
    // BLSAggregate, Timestamp, BlockSig, ForkSignaling, ParentBaseFee
    pass_items(cursor, 5)?;
    if !cursor.is_at_end() || height >= HEIGHT_END || !has_only_links(above) {
        return None;
    }
    Some(Header {
        height,
        state,
        receipts,
        messages,
        above,
    })
}
