//! Which links of a block are followed.
ghost use Rattle.std.specs.Prelude.{◌≡◌, ◌<◌, ◌≤◌, length, All};
ghost use Rattle.ss_chain.specs.Follows.{followed};

use crate::{Follows, header, links};
use ss_cid::Cid;

/// The links that are followed from a block, for an edge.
///
/// Of a header these are its parents; then its state root, where its height is at least `edge` or 0; then its
/// receipts and its messages, where its height is at least `edge`. Of any other block they are its links, in order of
/// bytes. In each case CIDs of the codecs fil-commitment-unsealed (0xf101) and fil-commitment-sealed (0xf102) are left
/// out.
#[tactic(auto, unfolding(crate::specs::Follows::followed))]
pub fn follows<'a>(edge: u64, cid: &Cid, block: &'a [u8]) -> Follows<'a>
    ensures value { result ≡ followed edge cid.now block.now }
    ensures few { length result ≤ length block.now }
    ensures shorter { All (λ link. length link < length block.now) result }
{
    match header(cid, block) {
        Some(header) => Follows::of_header(edge, &header),
        None => Follows::of_links(links(cid, block)),
    }
}
