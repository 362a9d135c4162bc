//! The links of a block.
ghost use Rattle.std.specs.Prelude.{◌≡◌, ◌≤◌, length};
ghost use Rattle.ss_chain.specs.Header.{item_links, links_in};

use ss_cbor::{Links, scan};
use ss_cid::{Cid, Codec};

/// The links of a block, in order of bytes. There are none where its codec is not dag-cbor, or where its bytes are not
/// exactly one item.
#[tactic(auto, unfolding(crate::specs::Header::links_in))]
pub fn links<'a>(cid: &Cid, block: &'a [u8]) -> Links<'a>
    ensures value { result ≡ links_in cid.now block.now }
    ensures few { length result ≤ length block.now }
{
    if cid.codec() == Codec::DagCbor {
        item_links(block)
    } else {
        Links::none()
    }
}

/// The links of bytes that are one item. Other bytes have none.
#[tactic(auto, unfolding(crate::specs::Header::item_links))]
pub(crate) fn item_links(bytes: &[u8]) -> Links<'_>
    ensures value { result ≡ item_links bytes.now }
    ensures few { length result ≤ length bytes.now }
{
    match scan(bytes) {
        Ok(links) => links,
        Err(_) => Links::none(),
    }
}
