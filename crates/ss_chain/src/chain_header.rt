//! What is read of a block header.
ghost use Rattle.std.specs.Prelude.{◌≡◌, ◌<◌, ◌^◌, length};
ghost use Rattle.ss_chain.specs.Header.{fields};

use crate::block_links::item_links;
use ss_cbor::Links;
use ss_cid::Cid;

/// A block header, of which the fields that this crate's rules speak of are read.
#[derive(Clone, Copy, Debug)]
pub struct Header<'a> {
    /// The height, in epochs from genesis. Below 2^63.
    pub height: u64,
    /// The root of the state before this block's messages.
    pub state: Cid,
    /// The receipts of the parents' messages.
    pub receipts: Cid,
    /// The block's messages.
    pub messages: Cid,
    // The bytes of the item Parents, an array of links.
    pub(crate) above: &'a [u8],
}

impl<'a> Header<'a> {
    /// The CIDs of the parents, in order.
    pub fn parents(&self) -> Links<'a>
        ensures value { result ≡ (fields self.now).parents }
        ensures few { length result < 2 ^ 63 }
    {
        item_links(self.above)
    }
}
