//! Scanning a block.
ghost use Rattle.std.specs.Prelude.{◌≡◌, ◌↔◌, ◌≤◌, ℕ, List, length, Ok, Err, IfOk};
ghost use Rattle.ss_cbor.specs.declared.fault.CborFault.{CborFault};
ghost use Rattle.ss_cbor.specs.Fault.{rest_at, scanned, IsRefused};
ghost use Rattle.ss_cbor.specs.Position.{Gives};
ghost use Rattle.ss_cbor.specs.Item.{IsItem};

use crate::fault::{CborFault, CborKind};
use crate::links::Links;
use crate::reading::part_at;

/// The links of bytes that are exactly one item, in order of bytes.
///
/// An item is one of CBOR (RFC 8949) in shortest heads with DAG-CBOR's rules for links: the one tag is 42, over
/// the byte 00 and one whole CID. Texts, keys and floats are not checked. Other bytes are refused with their
/// first fault from the left and its offset, in the order that the crate's page has; `Trailing` comes last.
pub fn scan(bytes: &[u8]) -> Result<Links<'_>, CborFault>
    ensures accepts { (links : List (List ℕ)) → (result ≡ Ok links) ↔ IsItem bytes.now links }
    ensures refuses { (found : CborFault) → (result ≡ Err found) ↔ IsRefused bytes.now found }
    ensures exact { result ≡ scanned bytes.now }
    ensures few { IfOk result (λ links. length links ≤ length bytes.now) }
{
    links_of_item(bytes)
}

// The links of the item that the bytes are, or the first fault.
fn links_of_item(bytes: &[u8]) -> Result<Links<'_>, CborFault>
    ensures { result ≡ scanned bytes.now }
{
    let rest = item_end(bytes.len(), bytes)?;
    if !rest.is_empty() {
        return Err(CborKind::Trailing.at(bytes.len() - rest.len()));
    }
    Ok(Links::of(bytes))
}

/// What follows the one item at the start.
pub(crate) fn item_end(end: usize, bytes: &[u8]) -> Result<&[u8], CborFault>
    requires { length bytes.now ≤ end }
    ensures value { Gives (λ rest. rest.now) result (rest_at 1 end bytes.now) }
    ensures shorter { IfOk result (λ rest. length rest.now ≤ length bytes.now) }
{
    let mut due = 1u64;
    let mut rest = bytes;
    while due > 0 {
        let (part, after) = part_at(due - 1, end, rest)?;
        due = due - 1 + part.items_in();
        rest = after;
    }
    Ok(rest)
}
