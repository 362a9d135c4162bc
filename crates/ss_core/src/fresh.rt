//! The blocks of a parcel that are new to a store.

ghost use Rattle.std.specs.Prelude.{◌≡◌, ◌<◌, ◌≤◌, length, All, IfOk};
ghost use Rattle.ss_model.specs.State.{CidSet};
ghost use Rattle.ss_model.specs.Lawful.{new_pairs};
ghost use Rattle.ss_model.specs.declared.TheConstants.{PUT_BLOCKS};
ghost use Rattle.ss_core.specs.Seen.{AreSeen, by_len, is_absent, seen_in, with_hash_code};
ghost use Rattle.ss_core.specs.Replies.{ArePairsAt, IsFresh};

use ss_cid::{HashCode, NoMemory, Parcel};
use ss_model::PUT_BLOCKS;
use std::alloc::Global;
use std::collections::BTreeSet;

/// What a put sees of a pair by its CID alone: whether its record writes the block.
#[derive(Clone, Copy)]
pub(crate) enum Seen {
    /// The CID is not kept: the record writes its block.
    Absent,
    /// The block is hot.
    Hot,
    /// An identity CID, which is its own block.
    Identity,
}

impl Seen {
    /// What a look-up tells, by the length of the block that is kept.
    pub fn by_len(kept: Option<u32>) -> Seen
        ensures { result ≡ by_len kept }
    {
        match kept {
            Some(_) => Seen::Hot,
            None => Seen::Absent,
        }
    }

    /// What is seen once the hash code of the CID is read.
    pub fn with_hash_code(self, hash_code: HashCode) -> Seen
        ensures { result ≡ with_hash_code hash_code self }
    {
        match hash_code {
            HashCode::Identity => Seen::Identity,
            _ => self,
        }
    }

    // Whether the record writes the block.
    fn is_absent(self) -> bool
        ensures { result ≡ is_absent self }
    {
        matches!(self, Seen::Absent)
    }
}

/// The new blocks of a parcel.
#[derive(Drop)]
pub(crate) enum Fresh {
    /// No block is new.
    Nothing,
    /// All blocks are new, and no two have one CID.
    All,
    /// Some are: these.
    Part(Parcel),
}

/// The blocks of a parcel that are absent, each where its CID first stands. They are copied only where others stand among them.
pub(crate) fn fresh_blocks(
    alloc: Global,
    parcel: &Parcel,
    seen: &[Seen; PUT_BLOCKS],
) -> Result<Fresh, NoMemory>
    requires { length parcel.now ≤ PUT_BLOCKS }
    ensures { (hot : CidSet) → AreSeen (seen_in hot) parcel.now seen.now → IfOk result (IsFresh parcel.now (new_pairs hot parcel.now)) }
{
    let places = new_places(alloc, parcel, seen)?;
    if places.is_empty() {
        return Ok(Fresh::Nothing);
    }
    if places.len() == parcel.len() {
        return Ok(Fresh::All);
    }
    Ok(Fresh::Part(blocks_at(alloc, parcel, places.as_slice())?))
}

// The indices of the new blocks, in order.
fn new_places(
    alloc: Global,
    parcel: &Parcel,
    seen: &[Seen; PUT_BLOCKS],
) -> Result<Vec<usize>, NoMemory>
    requires { length parcel.now ≤ PUT_BLOCKS }
    ensures within { IfOk result (λ found. All (λ i. i < length parcel.now) found.items) }
    ensures new { (hot : CidSet) → AreSeen (seen_in hot) parcel.now seen.now → IfOk result (λ found. ArePairsAt parcel.now found.items (new_pairs hot parcel.now)) }
{
    let mut met = BTreeSet::new(alloc);
    let mut places = Vec::new(alloc);
    for i in 0..parcel.len() {
        if !seen[i].is_absent() {
            continue;
        }
        let (cid, _) = parcel.at(i);
        if met.insert(cid)? {
            places.push(i)?;
        }
    }
    Ok(places)
}

// A copy of the blocks at these indices.
fn blocks_at(alloc: Global, parcel: &Parcel, places: &[usize]) -> Result<Parcel, NoMemory>
    requires { All (λ i. i < length parcel.now) places.now }
    ensures { IfOk result (ArePairsAt parcel.now places.now) }
{
    let mut blocks = Parcel::new(alloc);
    for place in places {
        let (cid, block) = parcel.at(*place);
        blocks.add(cid, block)?;
    }
    Ok(blocks)
}
