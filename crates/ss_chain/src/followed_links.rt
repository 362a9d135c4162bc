//! The links that are followed.
ghost use Rattle.std.specs.Prelude.{◌≡◌, ◌∷◌, [], filter, IfSome, IfNone};
ghost use Rattle.std.specs.Iterator.{YieldsFirst, item_count};
ghost use Rattle.ss_chain.specs.Follows.{is_followed, header_links, kept_link};
ghost use Rattle.ss_chain.specs.Header.{fields};

use crate::Header;
use ss_cbor::Links;
use ss_cid::{Cid, Codec};
use std::marker::Model;

/// The links of a block that are followed, in order. Contracts see it as the list of those that are left. It reads
/// them from the bytes as it goes, and takes no memory.
#[derive(Debug, Drop)]
pub struct Follows<'a> {
    links: Links<'a>,
    state: Option<Cid>,
    receipts: Option<Cid>,
    messages: Option<Cid>,
}

impl<'a> Model for Follows<'a> {
    ghost use Rattle.std.specs.Prelude.{List, ℕ, ◌++◌, filter, option_to_list};
    ghost use Rattle.ss_chain.specs.Follows.{is_followed};

    ghost Value = { List (List ℕ) };

    ghost view = { λ f. filter is_followed f.links ++ (option_to_list f.state ++ (option_to_list f.receipts ++ option_to_list f.messages)) };
}

impl<'a> Follows<'a> {
    /// Those of some links that are no commitments.
    pub(crate) fn of_links(links: Links<'a>) -> Follows<'a>
        ensures { result ≡ filter is_followed links.entry }
    {
        Follows {
            links,
            state: None,
            receipts: None,
            messages: None,
        }
    }

    /// Those of a header, for an edge, in epochs.
    pub(crate) fn of_header(edge: u64, header: &Header<'a>) -> Follows<'a>
        ensures { result ≡ filter is_followed (header_links edge (fields header.now)) }
    {
        let is_within = header.height >= edge;
        Follows {
            links: header.parents(),
            state: kept_link(is_within || header.height == 0, header.state),
            receipts: kept_link(is_within, header.receipts),
            messages: kept_link(is_within, header.messages),
        }
    }
}

impl Iterator for Follows<'_> {
    type Item = Cid;

    ghost next_gives = { YieldsFirst (λ follows. follows) };

    ghost remaining = { item_count (λ follows. follows) };

    fn next(&mut self) -> Option<Cid> {
        if let Some(cid) = next_followed(&mut self.links) {
            return Some(cid);
        }
        if let Some(cid) = self.state.take() {
            return Some(cid);
        }
        if let Some(cid) = self.receipts.take() {
            return Some(cid);
        }
        self.messages.take()
    }
}

// The next of the links that is followed.
fn next_followed(links: &mut Links<'_>) -> Option<Cid>
    ensures some { IfSome result (λ cid. filter is_followed links.old ≡ cid ∷ filter is_followed links.new) }
    ensures none { IfNone result ((filter is_followed links.old ≡ []) × (links.new ≡ [])) }
{
    while let Some(cid) = links.next() {
        if is_followed(&cid) {
            return Some(cid);
        }
    }
    None
}

// The CID, where the rule of its field follows it and it is no commitment.
fn kept_link(is_due: bool, cid: Cid) -> Option<Cid>
    ensures { result ≡ kept_link is_due cid }
{
    if is_due && is_followed(&cid) {
        Some(cid)
    } else {
        None
    }
}

// Whether a CID is no commitment to a sector's data.
#[tactic(auto, unfolding(crate::specs::Follows::is_commitment))]
fn is_followed(cid: &Cid) -> bool
    ensures { result ≡ is_followed cid.now }
{
    !matches!(cid.codec(), Codec::Unsealed | Codec::Sealed)
}
