//! The look-up from CIDs to rows.
ghost use Rattle.std.specs.Prelude.{◌≡◌, ℕ, ◌+◌, ◌-◌, ◌<◌, ◌≤◌, ◌^◌, ◌==◌, if◌then◌else◌, [], length, slice_set, MatchOption, IfOk, IsSome};
ghost use Rattle.ss_marks.specs.Rows.{row_at, slot_of, HasCid};
ghost use Rattle.ss_marks.specs.Index.{Indexes, IndexesOthers, IsFalling, IsAbove, pointer_of};

use crate::row::Row;
use ss_cid::Cid;
use std::alloc::{AllocError, Global};
use std::hash::{FoldHasher, Hasher};

/// A hash table of rows. The rows of a slot are chained, from the one with the greatest number down.
#[derive(Debug, Drop)]
pub(crate) struct Index {
    /// For each slot the first row of its chain, plus one, or 0 where it has none.
    heads: Vec<u32>,
    /// For each row the next one of its chain, plus one, or 0 where it is the last.
    below: Vec<u32>,
}

/// The slot of a CID.
#[tactic(auto, unfolding(crate::specs::Rows::slot_of))]
fn slot_of(cid: &Cid, slots: usize) -> usize
    requires { 0 < slots }
    ensures value { result ≡ slot_of cid.now slots }
    ensures within { result < slots }
{
    let mut hasher = FoldHasher::default();
    hasher.write(cid.as_bytes());
    hasher.finish() as usize % slots
}

impl Index {
    /// A look-up of no rows, which has no slots and takes no memory.
    pub(crate) fn new(alloc: Global) -> Index
        ensures heads { result.heads.items ≡ [] }
        ensures below { result.below.items ≡ [] }
    {
        Index {
            heads: Vec::new(alloc),
            below: Vec::new(alloc),
        }
    }

    /// A look-up with so many slots, which finds the rows that are not vacant.
    pub(crate) fn build(alloc: Global, rows: &[Row], slots: usize) -> Result<Index, AllocError>
        requires within { length rows.now ≤ slots }
        requires some { 0 < slots }
        requires fits { slots < 2 ^ 32 }
        ensures index { IfOk result (λ index. Indexes rows.now index) }
        ensures slots { IfOk result (λ index. (length index.heads.items ≡ slots) × (length index.below.items ≡ slots)) }
    {
        let mut index = Index {
            heads: vec![in alloc; 0; slots]?,
            below: vec![in alloc; 0; slots]?,
        };
        for i in 0..rows.len() {
            if rows[i].colour.is_some() {
                index.insert(&rows[..i + 1], i as u32);
            }
        }
        Ok(index)
    }

    /// How many slots there are, and so how many rows may be in it.
    pub(crate) fn slots(&self) -> usize
        ensures { result ≡ length self.now.heads.items }
    {
        self.heads.len()
    }

    /// The row that has this CID.
    pub(crate) fn find(&self, rows: &[Row], cid: &Cid) -> Option<u32>
        requires { Indexes rows.now self.now }
        ensures { MatchOption result ((row : ℕ) → HasCid rows.now row cid.now → ⊥) (λ row. HasCid rows.now row cid.now) }
    {
        if self.heads.is_empty() {
            return None;
        }
        let mut last = self.heads[slot_of(cid, self.heads.len())];
        while last > 0 {
            let row = &rows[last as usize - 1];
            if row.cid == *cid {
                return Some(last - 1);
            }
            last = self.below[last as usize - 1];
        }
        None
    }

    /// Puts a row into the chain of its CID.
    pub(crate) fn insert(&mut self, rows: &[Row], row: u32)
        requires live { IsSome (row_at rows.now row).colour }
        requires within { row < length self.old.below.items }
        requires slots { 0 < length self.old.heads.items }
        requires fits { row + 1 < 2 ^ 32 }
        requires index { IndexesOthers rows.now row self.old }
        ensures index { Indexes rows.now self.new }
        ensures slots { length self.new.heads.items ≡ length self.old.heads.items }
        ensures below { length self.new.below.items ≡ length self.old.below.items }
    {
        let slot = slot_of(&rows[row as usize].cid, self.heads.len());
        let above = self.above(slot, row);
        self.below[row as usize] = self.pointer(slot, above);
        self.set_pointer(slot, above, row + 1);
    }

    /// Takes a row out of the chain of its CID.
    pub(crate) fn remove(&mut self, rows: &[Row], row: u32)
        requires live { IsSome (row_at rows.now row).colour }
        requires index { Indexes rows.now self.old }
        requires fits { row + 1 < 2 ^ 32 }
        ensures index { IndexesOthers rows.now row self.new }
        ensures slots { length self.new.heads.items ≡ length self.old.heads.items }
        ensures below { length self.new.below.items ≡ length self.old.below.items }
    {
        let slot = slot_of(&rows[row as usize].cid, self.heads.len());
        let above = self.above(slot, row);
        let below = self.below[row as usize];
        self.set_pointer(slot, above, below);
    }

    /// The least row of a slot above a row, plus one, or 0 where there is none.
    fn above(&self, slot: usize, row: u32) -> u32
        requires slot { slot < length self.now.heads.items }
        requires falling { IsFalling self.now.heads.items self.now.below.items }
        requires fits { row + 1 < 2 ^ 32 }
        ensures { IsAbove self.now.heads.items self.now.below.items slot row result }
    {
        let mut above = 0;
        let mut last = self.heads[slot];
        while last > row + 1 {
            above = last;
            last = self.below[last as usize - 1];
        }
        above
    }

    /// The head of a slot, or the link of a row of it, which is given plus one.
    fn pointer(&self, slot: usize, above: u32) -> u32
        requires slot { slot < length self.now.heads.items }
        requires above { above ≤ length self.now.below.items }
        ensures { result ≡ pointer_of self.now.heads.items self.now.below.items slot above }
    {
        if above == 0 {
            self.heads[slot]
        } else {
            self.below[above as usize - 1]
        }
    }

    /// Sets what [`Index::pointer`] tells.
    fn set_pointer(&mut self, slot: usize, above: u32, last: u32)
        requires slot { slot < length self.old.heads.items }
        requires above { above ≤ length self.old.below.items }
        ensures heads { self.new.heads.items ≡ (if above == 0 then slice_set self.old.heads.items slot last else self.old.heads.items) }
        ensures below { self.new.below.items ≡ (if above == 0 then self.old.below.items else slice_set self.old.below.items (above - 1) last) }
    {
        if above == 0 {
            self.heads[slot] = last;
        } else {
            self.below[above as usize - 1] = last;
        }
    }
}
