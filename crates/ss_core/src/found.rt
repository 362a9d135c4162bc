//! Where a block is found.

use ss_store::Place;

/// Where the block of a CID is found.
#[derive(Clone, Copy)]
pub(crate) enum Found {
    /// In the CID itself, an identity CID.
    InCid,
    /// In the log of this place.
    At(Place),
}
