//! Which kept blocks are reached.
ghost use Rattle.std.specs.Prelude.{◌≡◌, ◌↔◌, ℕ, List, true, Contains, IfOk, OnOk, filter, is_some};
ghost use Rattle.std.specs.Ordering.{nat_cmp};
ghost use Rattle.std.specs.Cmp.Lexicographic.{slice_cmp};
ghost use Rattle.std.specs.List.Sorted.{IsStrictlySortedBy};
ghost use Rattle.std.specs.BTreeMap.{get};
ghost use Rattle.std.specs.FinMap as map;
ghost use Rattle.std.specs.Option.{option_copied};
ghost use Rattle.ss_chain.specs.Fetch.{fetched};
ghost use Rattle.ss_chain.specs.Parcel.{kept_of};
ghost use Rattle.ss_chain.specs.Reach.{Reach};
ghost use Rattle.ss_model.specs.Met.{was_met, Reads};
ghost use Rattle.ss_model.specs.Lawful.{ArePlaces};

use crate::met::Met;
use ss_cid::{Cid, Cids, NoMemory, Parcel};
use std::alloc::Global;
use std::collections::BTreeMap;

/// The kept CIDs that are reached from some CIDs, in ascending order of their bytes, each once.
///
/// The first pair of a CID gives its block, and a pair under an identity CID nothing. A CID is reached if there is a path
/// to it from one of `from`, on which each next CID is followed from the block of the one before, for the edge, in epochs;
/// each of `from` reaches itself. An identity CID has its block in itself: paths go through it, and it is not listed.
///
/// It takes memory for each CID that it meets, and no stack that grows with the input. Its time is that of reading each
/// block that is reached once, and of a look-up in an ordered tree for each link.
pub fn reach(alloc: Global, edge: u64, kept: &Parcel, from: &Cids) -> Result<Cids, NoMemory>
    ensures ascending { IfOk result (IsStrictlySortedBy (slice_cmp nat_cmp)) }
    ensures reached { IfOk result (λ cids. (cid : List ℕ) → Contains cids cid ↔ (Reach edge (kept_of kept.now) from.now cid × (map.contains_key (kept_of kept.now) cid ≡ true))) }
{
    let places = places_of(alloc, kept)?;
    let met = search(alloc, edge, kept, &places, from)?;
    kept_of_met(alloc, &places, &met)
}

// The index of the first pair of each CID that is no identity CID.
fn places_of(alloc: Global, kept: &Parcel) -> Result<BTreeMap<Cid, usize>, NoMemory>
    ensures { IfOk result (ArePlaces kept.now (kept_of kept.now)) }
{
    let mut places = BTreeMap::new(alloc);
    let mut left = kept.len();
    while left > 0 {
        left -= 1;
        let (cid, _) = kept.at(left);
        if cid.identity().is_none() {
            places.insert(cid, left)?;
        }
    }
    Ok(places)
}

// The block of a CID.
fn block_of<'a>(kept: &'a Parcel, places: &BTreeMap<Cid, usize>, cid: &'a Cid) -> Option<&'a [u8]>
    requires { ArePlaces kept.now (kept_of kept.now) places.now }
    ensures { option_copied result ≡ fetched (kept_of kept.now) cid.now }
{
    if let Some(digest) = cid.identity() {
        return Some(digest);
    }
    let place = places.get(cid)?;
    let (_, block) = kept.at(*place);
    Some(block)
}

// Meets all that is reached.
fn search(
    alloc: Global,
    edge: u64,
    kept: &Parcel,
    places: &BTreeMap<Cid, usize>,
    from: &Cids,
) -> Result<Met, NoMemory>
    requires { ArePlaces kept.now (kept_of kept.now) places.now }
    ensures { IfOk result (λ met. (cid : List ℕ) → (was_met met cid ≡ true) ↔ Reach edge (kept_of kept.now) from.now cid) }
{
    let mut met = Met::new(alloc);
    met.meet_each(from.as_slice())?;
    while let Some(cid) = met.take_waiting() {
        read(edge, kept, places, &mut met, &cid)?;
    }
    Ok(met)
}

// Meets what the block of a CID is followed to, if it has one.
fn read(
    edge: u64,
    kept: &Parcel,
    places: &BTreeMap<Cid, usize>,
    met: &mut Met,
    cid: &Cid,
) -> Result<(), NoMemory>
    requires { ArePlaces kept.now (kept_of kept.now) places.now }
    ensures { OnOk result (Reads edge (kept_of kept.now) cid.now met.old met.new) }
{
    if let Some(block) = block_of(kept, places, cid) {
        met.meet_followed(edge, cid, block)?;
    }
    Ok(())
}

// The CIDs that were met and have a place, in their order.
fn kept_of_met(alloc: Global, places: &BTreeMap<Cid, usize>, met: &Met) -> Result<Cids, NoMemory>
    ensures listed { IfOk result (λ cids. cids ≡ filter (λ cid. is_some (get (slice_cmp nat_cmp) places.now cid)) met.now.cids.keys) }
    ensures ascending { IfOk result (IsStrictlySortedBy (slice_cmp nat_cmp)) }
{
    let mut cids = Cids::new(alloc);
    for cid in &met.cids {
        if places.contains_key(cid) {
            cids.push(*cid)?;
        }
    }
    Ok(cids)
}
