//! Reading a header.
ghost use Rattle.std.specs.Prelude.{◌≡◌, length, IfOk, IfErr};
ghost use Rattle.ss_car.specs.Bodies.{HeaderFault};
ghost use Rattle.ss_car.specs.Car.{IsHeader};
ghost use Rattle.ss_car.specs.HeaderReading.{two_pairs_from, key_from, links_from, roots_from, version_from, roots_first, version_first, header_in};
ghost use Rattle.ss_cbor.specs.Position.{Reads, Passes};

use crate::fault::CarFault;
use ss_cbor::{Cursor, Item};
use ss_cid::{Cids, NoMemory};
use std::alloc::Global;

/// The version of the CARs that are read and written.
pub const VERSION: u64 = 1;

/// The keys of the header's map.
pub const ROOTS: &[u8] = b"roots";

pub const VERSION_KEY: &[u8] = b"version";

/// The roots of a header of version 1. The fault is `BadHeader` where the bytes are no map of roots and version, and else
/// `BadVersion`; or memory ran out.
pub fn read_header(alloc: Global, header: &[u8]) -> Result<Cids, CarFault>
    ensures roots { IfOk result (λ roots. IsHeader header.now roots 1) }
    ensures refused { IfErr result (HeaderFault header.now) }
{
    match header_pairs(alloc, header)? {
        Some((roots, version)) => {
            if version == VERSION {
                Ok(roots)
            } else {
                Err(CarFault::BadVersion { version })
            }
        }
        None => Err(CarFault::BadHeader),
    }
}

// The roots and the version of a header.
#[tactic(auto, unfolding(crate::specs::HeaderReading::header_in))]
fn header_pairs(alloc: Global, header: &[u8]) -> Result<Option<(Cids, u64)>, NoMemory>
    ensures { IfOk result (λ found. found ≡ header_in header.now) }
{
    match roots_first(alloc, header)? {
        Some(found) => Ok(Some(found)),
        None => version_first(alloc, header),
    }
}

#[tactic(auto, unfolding(crate::specs::HeaderReading::roots_first))]
fn roots_first(alloc: Global, header: &[u8]) -> Result<Option<(Cids, u64)>, NoMemory>
    ensures { IfOk result (λ found. found ≡ roots_first (length header.now) header.now) }
{
    let mut cursor = Cursor::new(header);
    let Some(()) = pass_two_pairs(&mut cursor) else {
        return Ok(None);
    };
    let Some(roots) = next_roots(alloc, &mut cursor)? else {
        return Ok(None);
    };
    let Some(version) = next_version(&mut cursor) else {
        return Ok(None);
    };
    if !cursor.is_at_end() {
        return Ok(None);
    }
    Ok(Some((roots, version)))
}

#[tactic(auto, unfolding(crate::specs::HeaderReading::version_first))]
fn version_first(alloc: Global, header: &[u8]) -> Result<Option<(Cids, u64)>, NoMemory>
    ensures { IfOk result (λ found. found ≡ version_first (length header.now) header.now) }
{
    let mut cursor = Cursor::new(header);
    let Some(()) = pass_two_pairs(&mut cursor) else {
        return Ok(None);
    };
    let Some(version) = next_version(&mut cursor) else {
        return Ok(None);
    };
    let Some(roots) = next_roots(alloc, &mut cursor)? else {
        return Ok(None);
    };
    if !cursor.is_at_end() {
        return Ok(None);
    }
    Ok(Some((roots, version)))
}

// Passes the head of a map of two pairs.
#[tactic(auto, unfolding(crate::specs::HeaderReading::two_pairs_from))]
fn pass_two_pairs(cursor: &mut Cursor<'_>) -> Option<()>
    ensures { Passes two_pairs_from cursor.old cursor.new result }
{
    match cursor.next() {
        Ok(item) => match item {
            Item::Map(2) => Some(()),
            _ => None,
        },
        Err(_) => None,
    }
}

// Passes this key.
#[tactic(auto, unfolding(crate::specs::HeaderReading::key_from))]
fn pass_key(cursor: &mut Cursor<'_>, key: &[u8]) -> Option<()>
    ensures { Passes (key_from key.now) cursor.old cursor.new result }
{
    match cursor.next() {
        Ok(item) => match item {
            Item::Text(text) if text == key => Some(()),
            _ => None,
        },
        Err(_) => None,
    }
}

// The key `roots` with its value.
#[tactic(auto, unfolding(crate::specs::HeaderReading::roots_from))]
fn next_roots(alloc: Global, cursor: &mut Cursor<'_>) -> Result<Option<Cids>, NoMemory>
    ensures { IfOk result (Reads (λ roots. roots) roots_from cursor.old cursor.new) }
{
    let Some(()) = pass_key(cursor, ROOTS) else {
        return Ok(None);
    };
    match cursor.array() {
        Some(n) => next_links(alloc, cursor, n),
        None => Ok(None),
    }
}

// So many links.
fn next_links(alloc: Global, cursor: &mut Cursor<'_>, n: u64) -> Result<Option<Cids>, NoMemory>
    ensures { IfOk result (Reads (λ roots. roots) (links_from n) cursor.old cursor.new) }
{
    let mut roots = Cids::new(alloc);
    for _ in 0..n {
        let Some(cid) = cursor.link() else {
            return Ok(None);
        };
        roots.push(cid)?;
    }
    Ok(Some(roots))
}

// The key `version` with its value.
#[tactic(auto, unfolding(crate::specs::HeaderReading::version_from))]
fn next_version(cursor: &mut Cursor<'_>) -> Option<u64>
    ensures { Reads (λ n. n) version_from cursor.old cursor.new result }
{
    pass_key(cursor, VERSION_KEY)?;
    cursor.uint()
}
