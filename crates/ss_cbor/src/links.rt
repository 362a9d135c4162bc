//! The links of an item.
ghost use Rattle.std.specs.Prelude.{◌≡◌, ◌∷◌, [], IfSome, IfNone};
ghost use Rattle.std.specs.Iterator.{YieldsFirst, item_count};
ghost use Rattle.ss_cbor.specs.Reading.{links_left};
ghost use Rattle.ss_cid.specs.Cid.{IsCid};

use crate::reading::part_at;
use ss_cid::Cid;
use std::marker::Model;

/// The links of an item that was scanned, in order of bytes. Contracts see it as the list of those that are
/// left. It reads them from the bytes as it goes, and takes no memory.
#[derive(Debug, Drop)]
pub struct Links<'a> {
    rest: &'a [u8],
}

impl<'a> Model for Links<'a> {
    ghost use Rattle.std.specs.Prelude.{List, ℕ};
    ghost use Rattle.ss_cbor.specs.Reading.{links_left};

    ghost Value = { List (List ℕ) };

    ghost view = { λ l. links_left l.rest.now };
}

impl<'a> Links<'a> {
    /// No links.
    pub fn none() -> Links<'a>
        ensures { result ≡ [] }
    {
        Links { rest: &[] }
    }

    /// The links of the parts that the bytes are.
    pub(crate) fn of(bytes: &'a [u8]) -> Links<'a>
        ensures { result ≡ links_left bytes.now }
    {
        Links { rest: bytes }
    }
}

impl Iterator for Links<'_> {
    type Item = Cid;

    ghost next_gives = { YieldsFirst (λ links. links) };

    ghost remaining = { item_count (λ links. links) };

    fn next(&mut self) -> Option<Cid> {
        match next_link(self.rest) {
            Some((cid, rest)) => {
                self.rest = rest;
                Some(cid)
            }
            None => {
                self.rest = &[];
                None
            }
        }
    }
}

// The first link of the parts that the bytes are, and what is after it.
fn next_link(bytes: &[u8]) -> Option<(Cid, &[u8])>
    ensures some { IfSome result (λ x. links_left bytes.now ≡ x.0 ∷ links_left x.1.now) }
    ensures none { IfNone result (links_left bytes.now ≡ []) }
{
    let mut rest = bytes;
    while let Ok((part, after)) = part_at(0, rest.len(), rest) {
        rest = after;
        if let Some(cid) = part.link() {
            return Some((cid_of(cid), rest));
        }
    }
    None
}

/// The CID that the bytes are.
#[tactic(auto, unfolding(ss_cid::specs::Cid::cid_at))]
pub(crate) fn cid_of(bytes: &[u8]) -> Cid
    requires { IsCid bytes.now }
    ensures { result ≡ bytes.now }
{
    match Cid::parse(bytes) {
        Ok((cid, _)) => cid,
        Err(_) => unreachable!(),
    }
}
