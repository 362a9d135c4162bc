//! Where blocks are fetched from.
ghost use Rattle.std.specs.Prelude.{◌≡◌, ℕ, List, [], Bool, Option, Some};
ghost use Rattle.std.specs.FinMap as map;
ghost use Rattle.ss_cid.specs.Maps.{Kept};
ghost use Rattle.ss_chain.specs.Fetch.{is_known, NotFoundUnless, IsFetched, IsDigest, IsFault};
ghost use Rattle.ss_device.specs.Faults.{Counts};

use crate::Fetched;
use ss_cid::Cid;
use std::alloc::Global;

/// A set of blocks, each under its CID.
pub trait Blocks {
    /// Whether a block of this CID is in the set.
    ghost holds: { Self → List ℕ → Bool };

    /// The bytes of the blocks in the set, if it exposes them.
    ghost told: { Self → Option Kept };

    /// How often a fetch has failed, up to 2^64 - 1.
    ghost faults: { Self → ℕ };

    /// The ghost names of the references that it holds. No call changes them, so the lender still knows them
    /// to be its own afterwards.
    ghost place: { Self → List ℕ } = { λ _. [] };

    /// The block of a CID. Whatever it answers, the set and the bytes stay as they are.
    ///
    /// `NotFound` comes exactly where the CID is neither an identity CID nor in the set, also out of memory and
    /// where the store below fails. `Fault` comes exactly where the count of faults rose. `Found` has the
    /// digest of an identity CID, and otherwise the bytes of the block in the set.
    fn fetch(&mut self, alloc: Global, cid: &Cid) -> Fetched
        ensures not_found { NotFoundUnless (is_known (holds self.old) cid.now) result }
        ensures found { IsFetched (told self.old) cid.now result }
        ensures digest { IsDigest cid.now result }
        ensures holds { holds self.new ≡ holds self.old }
        ensures told { told self.new ≡ told self.old }
        ensures cause { Counts IsFault (faults self.old) (faults self.new) result }
        ensures place { place self.new ≡ place self.old };

    /// How often a fetch has failed, up to 2^64 - 1.
    fn faults(&self) -> u64
        ensures { result ≡ faults self.now };

    ghost keys: { (blocks : Self) (kept : Kept) (cid : List ℕ) → told blocks ≡ Some kept →
        holds blocks cid ≡ map.contains_key kept cid };
}
