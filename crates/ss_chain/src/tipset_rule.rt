//! The rule of a tipset.
ghost use Rattle.std.specs.Prelude.{◌≡◌, ◌↔◌, ℕ, Ok, ◌<◌, length, map, OnOk};
ghost use Rattle.ss_chain.specs.Header.{fields};
ghost use Rattle.ss_chain.specs.HeaderReading.{header_of};
ghost use Rattle.ss_chain.specs.Tipset.{IsTipset, tipset_of, cids_fault, common_height, stands_earlier, fault_beside, same_cids, fault_in};

use crate::{Header, TipsetFault, header};
use ss_cbor::Links;
use ss_cid::{Cid, Parcel};

/// The most headers that a tipset has.
const MAX_HEADERS: usize = 64;

/// The height of the tipset that the blocks are, in epochs from genesis.
///
/// A tipset is 1 to 64 headers with distinct CIDs, one height and the same parents in the same order. Otherwise the
/// first of these is answered: `Empty`; `TooMany` above 64 blocks; `Repeated` with the least index whose CID stands at
/// a lower index too; then the fault of the first invalid block, `NotHeader`, `HeightDiffers` or `ParentsDiffer`, the
/// last two against the first header. The order is this project's own. The parents' own heights are not looked at.
#[tactic(auto, unfolding(crate::specs::Tipset::tipset_of))]
pub fn tipset(headers: &Parcel) -> Result<u64, TipsetFault>
    ensures is { (height : ℕ) → (result ≡ Ok height) ↔ IsTipset headers.now height }
    ensures exact { result ≡ tipset_of headers.now }
{
    check_cids(headers)?;
    common_height(headers)
}

// Tests the number of blocks and that their CIDs are distinct.
#[tactic(auto, unfolding(crate::specs::Tipset::cids_fault))]
fn check_cids(headers: &Parcel) -> Result<(), TipsetFault>
    ensures fault { fault_in result ≡ cids_fault (map (λ b. b.0) headers.now) }
    ensures some { OnOk result (0 < length headers.now) }
{
    let n = headers.len();
    if n == 0 {
        return Err(TipsetFault::Empty);
    }
    if n > MAX_HEADERS {
        return Err(TipsetFault::TooMany { n });
    }
    for i in 0..n {
        if stands_earlier(headers, i) {
            return Err(TipsetFault::Repeated { i });
        }
    }
    Ok(())
}

// Whether the CID at index `i` stands at a lower one too.
fn stands_earlier(headers: &Parcel, i: usize) -> bool
    requires { i < length headers.now }
    ensures { result ≡ stands_earlier (map (λ b. b.0) headers.now) i }
{
    let (cid, _) = headers.at(i);
    for j in 0..i {
        let (earlier, _) = headers.at(j);
        if cid == earlier {
            return true;
        }
    }
    false
}

// The height of the first header, if all others have its height and its parents.
fn common_height(headers: &Parcel) -> Result<u64, TipsetFault>
    requires { 0 < length headers.now }
    ensures { result ≡ common_height headers.now }
{
    let (cid, block) = headers.at(0);
    let Some(first) = header(&cid, block) else {
        return Err(TipsetFault::NotHeader { i: 0 });
    };
    for i in 1..headers.len() {
        let (cid, block) = headers.at(i);
        check_beside(&first, i, &cid, block)?;
    }
    Ok(first.height)
}

// Tests that the block at index `i` is a header with the height and the parents of the first one.
fn check_beside(first: &Header<'_>, i: usize, cid: &Cid, block: &[u8]) -> Result<(), TipsetFault>
    ensures { fault_in result ≡ fault_beside (fields first.now) i (header_of cid.now block.now) }
{
    let Some(header) = header(cid, block) else {
        return Err(TipsetFault::NotHeader { i });
    };
    if header.height != first.height {
        return Err(TipsetFault::HeightDiffers { i });
    }
    if !are_same(header.parents(), first.parents()) {
        return Err(TipsetFault::ParentsDiffer { i });
    }
    Ok(())
}

// Whether two lists of links are equal.
fn are_same(mut links: Links<'_>, mut others: Links<'_>) -> bool
    ensures { result ≡ same_cids links.entry others.entry }
{
    while let Some(link) = links.next() {
        let Some(other) = others.next() else {
            return false;
        };
        if link != other {
            return false;
        }
    }
    others.next().is_none()
}
