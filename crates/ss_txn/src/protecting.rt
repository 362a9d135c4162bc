//! What is shaded so that CIDs are protected.
ghost use Rattle.std.specs.Prelude.{[], ◌∷◌};
ghost use Rattle.ss_chain.specs.Follows.{followed};
ghost use Rattle.ss_txn.specs.Marked.{Shades, Protects};

use ss_chain::follows;
use ss_cid::Cid;
use ss_marks::Marks;

/// Shades the row of a CID, if it has one.
fn shade_row(marks: &mut Marks, cid: &Cid)
    ensures { Shades cid.now marks.old marks.new }
{
    if let Some(row) = marks.row(cid) {
        marks.shade(row);
    }
}

/// Protects a CID: its row is shaded, and so is what the block inside an identity CID is followed to. These links are
/// shorter than the CID, so the recursion goes no deeper than a CID is long.
#[cycle(protecting)]
pub(crate) fn protect_one(edge: u64, marks: &mut Marks, cid: &Cid)
    ensures { Protects edge (cid.now ∷ []) marks.old marks.new }
{
    shade_row(marks, cid);
    if let Some(block) = cid.identity() {
        protect_followed(edge, marks, cid, block);
    }
}

/// Protects what a block is followed to.
#[cycle(protecting)]
pub(crate) fn protect_followed(edge: u64, marks: &mut Marks, cid: &Cid, block: &[u8])
    ensures { Protects edge (followed edge cid.now block.now) marks.old marks.new }
{
    for link in follows(edge, cid, block) {
        protect_one(edge, marks, &link);
    }
}

/// Protects each of some CIDs.
pub(crate) fn protect_each(edge: u64, marks: &mut Marks, cids: &[Cid])
    ensures { Protects edge cids.now marks.old marks.new }
{
    for cid in cids {
        protect_one(edge, marks, cid);
    }
}
