//! Reading an item part by part.
ghost use Rattle.std.specs.Prelude.{◌≡◌, ◌↔◌, ◌≤◌, ◌++◌, length, [], ℕ, List, Ok, Err, MatchResult, IfOk, IfErr, OnErr, IsTrue, All};
ghost use Rattle.ss_cid.specs.Cid.{IsCid};
ghost use Rattle.ss_cbor.specs.Fault.{FirstFault, item_at};
ghost use Rattle.ss_cbor.specs.Position.{Gives, Takes, start_of, place_of};
ghost use Rattle.ss_cbor.specs.Item.{links_of, IsPart, IsItem};
ghost use Rattle.ss_cbor.specs.Part.{part_of, raw_part_of};
ghost use Rattle.ss_cbor.specs.Reading.{part_at, count_from, number_from, link_from, blob_from};

use crate::fault::CborFault;
use crate::item::Item;
use crate::links::cid_of;
use crate::raw_part::RawPart;
use crate::reading::part_at;
use crate::scanner::item_end;
use ss_cid::Cid;
use std::marker::Model;

/// Reads items from left to right. An array or a map is entered: the items in it come next.
#[derive(Debug, Drop)]
pub struct Cursor<'a> {
    rest: &'a [u8],
    end: usize,
}

impl<'a> Model for Cursor<'a> {
    ghost use Rattle.std.specs.Prelude.{◌≤◌, length};
    ghost use Rattle.ss_cbor.specs.Position.{Position};

    ghost Value = { Position };

    ghost view = { λ c. record { rest = c.rest.now; end = c.end } };

    ghost invariant = { λ c. length c.rest.now ≤ c.end };
}

impl<'a> Cursor<'a> {
    /// A cursor before all bytes.
    pub fn new(bytes: &'a [u8]) -> Cursor<'a>
        ensures { result ≡ start_of bytes.now }
    {
        Cursor {
            rest: bytes,
            end: bytes.len(),
        }
    }

    /// Reads one part, which of an array or a map is its head alone.
    ///
    /// Refused with the first fault of that head and its content, in the order that the crate's page has; for a
    /// link, of its tag and what is after it. Items due are counted from this head alone, so `CountTooLarge`
    /// means that it holds more than 2^63 - 1 by itself. `Trailing` is never answered, and at the end of the
    /// input `Truncated` is. A refused cursor is unchanged.
    pub fn next(&mut self) -> Result<Item<'a>, CborFault>
        ensures value { MatchResult result
            (λ item. part_at 0 self.old.end self.old.rest ≡ Ok (part_of item, self.new.rest))
            (λ fault. part_at 0 self.old.end self.old.rest ≡ Err fault) }
        ensures spelled { IfOk result (λ item. (front : List ℕ) × IsPart front (part_of item) × (self.old.rest ≡ front ++ self.new.rest)) }
        ensures end { self.new.end ≡ self.old.end }
        ensures err { OnErr result (self.new ≡ self.old) }
    {
        match next_item(self.end, self.rest) {
            Ok((item, rest)) => {
                self.rest = rest;
                Ok(item)
            }
            Err(fault) => Err(fault),
        }
    }

    /// Reads the head of an array, and answers how many items it has: they come next. Of anything else the answer is None, and
    /// the cursor is unchanged; so it is of the three calls below.
    #[tactic(auto, unfolding(crate::specs::Reading::count_from))]
    pub fn array(&mut self) -> Option<u64>
        ensures { Takes (λ n. n) count_from self.old self.new result }
    {
        match next_item(self.end, self.rest) {
            Ok((item, rest)) => match item {
                Item::Array(n) => {
                    self.rest = rest;
                    Some(n)
                }
                _ => None,
            },
            Err(_) => None,
        }
    }

    /// Reads a number that is at least 0.
    #[tactic(auto, unfolding(crate::specs::Reading::number_from))]
    pub fn uint(&mut self) -> Option<u64>
        ensures { Takes (λ n. n) number_from self.old self.new result }
    {
        match next_item(self.end, self.rest) {
            Ok((item, rest)) => match item {
                Item::Uint(n) => {
                    self.rest = rest;
                    Some(n)
                }
                _ => None,
            },
            Err(_) => None,
        }
    }

    /// Reads a link, and answers its CID.
    #[tactic(auto, unfolding(crate::specs::Reading::link_from))]
    pub fn link(&mut self) -> Option<Cid>
        ensures { Takes (λ cid. cid) link_from self.old self.new result }
    {
        match next_item(self.end, self.rest) {
            Ok((item, rest)) => match item {
                Item::Link(cid) => {
                    self.rest = rest;
                    Some(cid)
                }
                _ => None,
            },
            Err(_) => None,
        }
    }

    /// Reads a byte string, and lends its bytes.
    #[tactic(auto, unfolding(crate::specs::Reading::blob_from))]
    pub fn blob(&mut self) -> Option<&'a [u8]>
        ensures { Takes (λ bytes. bytes.now) blob_from self.old self.new result }
    {
        match next_item(self.end, self.rest) {
            Ok((item, rest)) => match item {
                Item::Blob(bytes) => {
                    self.rest = rest;
                    Some(bytes)
                }
                _ => None,
            },
            Err(_) => None,
        }
    }

    /// Reads one whole item, with all items in it, and lends its bytes.
    ///
    /// Refused with the first fault from the left in that item, as `scan` finds it, but never with `Trailing`.
    /// Items due are counted from this item alone. A refused cursor is unchanged.
    pub fn skip(&mut self) -> Result<&'a [u8], CborFault>
        ensures value { MatchResult result
            (λ item. item_at self.old.end self.old.rest ≡ Ok (item.now, self.new.rest))
            (λ fault. item_at self.old.end self.old.rest ≡ Err fault) }
        ensures item { IfOk result (λ item. (links : List (List ℕ)) × IsItem item.now links × (self.old.rest ≡ item.now ++ self.new.rest)) }
        ensures refused { IfErr result (λ fault. FirstFault self.old.end 1 self.old.rest fault) }
        ensures end { self.new.end ≡ self.old.end }
        ensures err { OnErr result (self.new ≡ self.old) }
    {
        match split_item(self.end, self.rest) {
            Ok((item, rest)) => {
                self.rest = rest;
                Ok(item)
            }
            Err(fault) => Err(fault),
        }
    }

    /// How many bytes are read.
    pub fn at(&self) -> usize
        ensures { result ≡ place_of self.now }
    {
        self.end - self.rest.len()
    }

    /// Whether no byte is left.
    pub fn is_at_end(&self) -> bool
        ensures { IsTrue result ↔ (self.now.rest ≡ []) }
    {
        self.rest.is_empty()
    }
}

// The part at the start of the bytes, and what is after it.
fn next_item(end: usize, bytes: &[u8]) -> Result<(Item<'_>, &[u8]), CborFault>
    requires { length bytes.now ≤ end }
    ensures value { Gives (λ x. (part_of x.0, x.1.now)) result (part_at 0 end bytes.now) }
    ensures spelled { IfOk result (λ x. (front : List ℕ) × IsPart front (part_of x.0) × (bytes.now ≡ front ++ x.1.now)) }
    ensures shorter { IfOk result (λ x. length x.1.now ≤ length bytes.now) }
{
    match part_at(0, end, bytes) {
        Ok((part, rest)) => {
            let item = item_of(part);
            Ok((item, rest))
        }
        Err(fault) => Err(fault),
    }
}

// The bytes of the item at the start, and what is after it.
fn split_item(end: usize, bytes: &[u8]) -> Result<(&[u8], &[u8]), CborFault>
    requires { length bytes.now ≤ end }
    ensures value { Gives (λ x. (x.0.now, x.1.now)) result (item_at end bytes.now) }
    ensures item { IfOk result (λ x. (links : List (List ℕ)) × IsItem x.0.now links × (bytes.now ≡ x.0.now ++ x.1.now)) }
    ensures refused { IfErr result (λ fault. FirstFault end 1 bytes.now fault) }
    ensures shorter { IfOk result (λ x. length x.1.now ≤ length bytes.now) }
{
    let rest = item_end(end, bytes)?;
    let (item, _) = bytes.split_at(bytes.len() - rest.len());
    Ok((item, rest))
}

// The item that a part is.
fn item_of(part: RawPart<'_>) -> Item<'_>
    requires { All IsCid (links_of (raw_part_of part)) }
    ensures { part_of result ≡ raw_part_of part.entry }
{
    match part {
        RawPart::Uint(n) => Item::Uint(n),
        RawPart::Nint(n) => Item::Nint(n),
        RawPart::Blob(bytes) => Item::Blob(bytes),
        RawPart::Text(bytes) => Item::Text(bytes),
        RawPart::Array(n) => Item::Array(n),
        RawPart::Map(n) => Item::Map(n),
        RawPart::Link(cid) => Item::Link(cid_of(cid)),
        RawPart::Float => Item::Float,
        RawPart::Bool(value) => Item::Bool(value),
        RawPart::Null => Item::Null,
    }
}
