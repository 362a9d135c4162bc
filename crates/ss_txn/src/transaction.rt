//! A transaction.
ghost use Rattle.std.specs.Prelude.{◌≡◌, ◌≢◌, ◌↔◌, ◌==◌, ℕ, List, [], ◌∷◌, ◌++◌, Some, IsTrue};
ghost use Rattle.ss_cid.specs.Cid.{codec_of};
ghost use Rattle.ss_cid.specs.Maps.{Kept};
ghost use Rattle.ss_marks.specs.declared.colour.Colour.TheVariants as colour;
ghost use Rattle.ss_marks.specs.Marks.{row_of, colour_of, IsColoured};
ghost use Rattle.ss_txn.specs.Marked.{HasRows, HasRowsOf, Marked, IsQuiet};
ghost use Rattle.ss_txn.specs.Marked.{KeepsRows, Protects, Begins, Blackens, AreFollowed, ScanDid, IsFault};
ghost use Rattle.ss_device.specs.Faults.{Counts};

use crate::protecting::{protect_each, protect_followed, protect_one};
use crate::scan_reply::ScanReply;
use ss_chain::{Blocks, Fetched};
use ss_cid::{Cid, Cids, Codec};
use ss_marks::Marks;
use std::alloc::Global;
use std::marker::Model;

/// A transaction that runs: what it is to keep is marked in `Marks`, which every call is handed. Contracts see it as its
/// edge.
#[derive(Debug, Drop)]
pub struct Txn {
    edge: u64,
}

impl Model for Txn {
    ghost use Rattle.std.specs.Prelude.{ℕ};

    ghost Value = { ℕ };

    ghost view = { λ t. t.edge };
}

impl Txn {
    /// Begins marking, for an edge in epochs: all rows are white, and then the roots are protected.
    pub fn begin(marks: &mut Marks, edge: u64, roots: &Cids) -> Txn
        ensures edge { result ≡ edge }
        ensures begun { Begins edge roots.now marks.old marks.new }
        ensures rows { KeepsRows marks.old marks.new }
        ensures marked { (kept : Kept) → HasRows kept marks.old → Marked edge kept roots.now marks.new }
    {
        marks.whiten();
        protect_each(edge, marks, roots.as_slice());
        Txn { edge }
    }

    /// The height below which state, receipts and messages are not followed.
    pub fn edge(&self) -> u64
        ensures { result ≡ self.now }
    {
        self.edge
    }

    /// Protects a CID: a stored one is shaded, and of an identity CID whatever its own block is followed to is protected
    /// in the same way. One that is neither stays as it is; it has to be protected when it is stored.
    pub fn protect(&self, marks: &mut Marks, cid: &Cid)
        ensures protected { Protects self.now (cid.now ∷ []) marks.old marks.new }
        ensures rows { KeepsRows marks.old marks.new }
        ensures marked { (kept : Kept) (roots : List (List ℕ)) → Marked self.now kept roots marks.old → Marked self.now kept (roots ++ cid.now ∷ []) marks.new }
    {
        protect_one(self.edge, marks, cid);
    }

    /// Reads one grey row, if there is one: what its block is followed to is protected, and the row is black. A block
    /// whose codec is not dag-cbor has no links and is not fetched.
    ///
    /// `NothingGrey` exactly where no row is grey. `Fault` where the blocks counted one, and `NoMemory`, leave the marks as
    /// they were, so the row is grey still.
    pub fn scan_one<B: Blocks>(
        &mut self,
        alloc: Global,
        marks: &mut Marks,
        blocks: &mut B,
    ) -> ScanReply
        requires stored { HasRowsOf (B.holds blocks.old) marks.old }
        ensures did { ScanDid self.old (B.told blocks.old) marks.old marks.new result }
        ensures rows { KeepsRows marks.old marks.new }
        ensures marked { (kept : Kept) (roots : List (List ℕ)) → B.told blocks.old ≡ Some kept → Marked self.old kept roots marks.old → Marked self.old kept roots marks.new }
        ensures unfetched { ((cid : List ℕ) → colour_of marks.old cid ≡ Some colour.Grey → codec_of cid ≢ 0x71) → blocks.new ≡ blocks.old }
        ensures cause { Counts IsFault (B.faults blocks.old) (B.faults blocks.new) result }
        ensures edge { self.new ≡ self.old }
        ensures holds { B.holds blocks.new ≡ B.holds blocks.old }
        ensures told { B.told blocks.new ≡ B.told blocks.old }
        ensures place { B.place blocks.new ≡ B.place blocks.old }
    {
        let Some(row) = marks.pop_grey() else {
            return ScanReply::NothingGrey;
        };
        let cid = marks.cid(row);
        if may_have_links(&cid) {
            match blocks.fetch(alloc, &cid) {
                Fetched::Found(block) => {
                    protect_followed(self.edge, marks, &cid, block.as_slice());
                }
                Fetched::Fault => {
                    marks.put_back(row);
                    return ScanReply::Fault;
                }
                Fetched::NoMemory => {
                    marks.put_back(row);
                    return ScanReply::NoMemory;
                }
                Fetched::NotFound => unreachable!(),
            }
        }
        marks.blacken(row);
        ScanReply::Scanned
    }

    /// Ends the reading of a row that is out, by the links that its block is followed to, which were read elsewhere: they
    /// are protected, and the row is black.
    pub fn accept(&mut self, marks: &mut Marks, row: u32, links: &Cids)
        requires out { IsColoured marks.old row colour.Out }
        ensures blackened { (cid : List ℕ) → row_of marks.old cid ≡ Some row → Blackens self.old colour.Out cid row links.now marks.old marks.new }
        ensures rows { KeepsRows marks.old marks.new }
        ensures marked { (kept : Kept) (roots : List (List ℕ)) (cid : List ℕ) → row_of marks.old cid ≡ Some row → AreFollowed self.old kept cid links.now →
            Marked self.old kept roots marks.old → Marked self.old kept roots marks.new }
        ensures edge { self.new ≡ self.old }
    {
        // A law, for the proof alone: the row is of one CID.
        marks.each_row_has_one_cid();
        protect_each(self.edge, marks, links.as_slice());
        marks.blacken(row);
    }

    /// Whether no row is grey or out. What is white then is not reached from the roots.
    pub fn quiet(&self, marks: &Marks) -> bool
        ensures { IsTrue result ↔ IsQuiet marks.now }
    {
        let (_, grey, out) = marks.counts();
        grey == 0 && out == 0
    }
}

/// Whether a block of this CID may have links: all others need not be fetched.
fn may_have_links(cid: &Cid) -> bool
    ensures { result ≡ (codec_of cid.now == 0x71) }
{
    cid.codec() == Codec::DagCbor
}
