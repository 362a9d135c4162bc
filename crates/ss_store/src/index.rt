ghost use Rattle.std.specs.Prelude.{◌≡◌, ◌+◌, ◌<◌, ◌≤◌, ◌^◌, length, map, take, All, Some, None, true, not, IfOk, OnOk, OnErr, option_map};
ghost use Rattle.std.specs.FinMap as finite_map;

use crate::place::Place;
use ss_cid::{Cid, Cids, NoMemory, Parcel};
use ss_records::PutBlocks;
use std::alloc::Global;
use std::collections::BTreeMap;
use std::marker::Model;
use std::ops::Bound;

/// Where the first block begins in the body of a Put, after the kind and the count.
const FIRST: u64 = 3;

/// The bytes between a block's CID and its data, which are its length.
const LENGTH: u64 = 4;

/// A map from CIDs to the places of their blocks, in the order of the CIDs.
#[derive(Debug, Drop)]
pub struct Index {
    map: BTreeMap<Cid, Place>,
}

impl Model for Index {
    ghost use Rattle.std.specs.FinMap as finite_map;
    ghost use Rattle.ss_store.specs.Places.{CidMap, places_code};
    ghost use Rattle.ss_store.specs.declared.place.Place.{Place};

    ghost Value = { CidMap Place };

    ghost coded = { places_code };

    ghost view = { λ i. finite_map.from_entries i.map.entries };
}

impl Index {
    ghost use Rattle.ss_records.specs.declared.record.Record.TheVariants as record_kind;
    ghost use Rattle.ss_records.specs.Record.{spelling, BlockFits};
    ghost use Rattle.ss_records.specs.Places.{places_of, places_left};
    ghost use Rattle.ss_store.specs.Places.{next_key, with_pairs, without_cids, placed, has_fault, with_places};

    /// A map of nothing, which takes no memory.
    pub fn new(alloc: Global) -> Index
        ensures { result ≡ finite_map.empty }
    {
        Index {
            map: BTreeMap::new(alloc),
        }
    }

    /// How many CIDs there are.
    pub fn len(&self) -> usize
        ensures value { result ≡ finite_map.len self.now }
        ensures few { result < 2 ^ 63 }
    {
        self.map.len()
    }

    /// The place at a CID.
    pub fn get(&self, cid: &Cid) -> Option<Place>
        ensures { result ≡ finite_map.get self.now cid.now }
    {
        self.map.get(cid).copied()
    }

    /// Puts a place at a CID, instead of one that is there. Out of memory the map stays as it was; then no place was
    /// there.
    pub fn insert(&mut self, cid: Cid, place: Place) -> Result<(), NoMemory>
        ensures ok { OnOk result (self.new ≡ finite_map.insert self.old cid place) }
        ensures err { OnErr result (self.new ≡ self.old) }
    {
        self.map.insert(cid, place)?;
        Ok(())
    }

    /// Takes the place at a CID away, if one is there.
    pub fn remove(&mut self, cid: &Cid)
        ensures { self.new ≡ finite_map.remove self.old cid.now }
    {
        self.map.remove(cid);
    }

    /// The least CID, or the least one greater than `from`.
    pub fn after(&self, from: Option<&Cid>) -> Option<Cid>
        ensures { result ≡ next_key (finite_map.keys self.now) (option_map (λ cid. cid.now) from.entry) }
    {
        match from {
            Some(from) => self.behind(from),
            None => self.first(),
        }
    }

    /// The least CID.
    fn first(&self) -> Option<Cid>
        ensures { result ≡ next_key (finite_map.keys self.now) None }
    {
        self.map.keys().next().copied()
    }

    /// The least CID greater than `from`.
    fn behind(&self, from: &Cid) -> Option<Cid>
        ensures { result ≡ next_key (finite_map.keys self.now) (Some from.now) }
    {
        let mut greater = self.map.range((Bound::Excluded(*from), Bound::Unbounded));
        match greater.next() {
            Some((cid, _)) => Some(*cid),
            None => None,
        }
    }

    /// Puts the blocks of a Put by their places in its body, which begins at `body` in a file, and answers whether the body
    /// spells a record. If not, or out of memory, some of them may have been put.
    pub fn insert_all(
        &mut self,
        file: u8,
        body: u64,
        blocks: PutBlocks<'_>,
    ) -> Result<bool, NoMemory>
        ensures whole { IfOk result (λ whole. whole ≡ not (has_fault (places_left blocks.entry))) }
        ensures places { IfOk result (λ whole. whole ≡ true → self.new ≡ with_places file body self.old (places_left blocks.entry)) }
    {
        for block in blocks {
            let Ok(block) = block else {
                return Ok(false);
            };
            let place = Place {
                file,
                at: body.saturating_add(block.at as u64),
                len: block.len,
            };
            self.insert(block.cid, place)?;
        }
        Ok(true)
    }

    /// Puts new blocks by their places in the record of a Put of which the body will begin at `body` in a file. Out of memory
    /// the map stays as it was.
    pub fn insert_blocks(&mut self, file: u8, body: u64, blocks: &Parcel) -> Result<(), NoMemory>
        requires new { All (λ p. finite_map.get self.old p.0 ≡ None) blocks.now }
        requires blocks { All BlockFits blocks.now }
        requires fits { body + length (spelling (record_kind.Put blocks.now)) < 2 ^ 63 }
        ensures ok { OnOk result (self.new ≡ with_pairs self.old (map (placed file body) (places_of (record_kind.Put blocks.now)))) }
        ensures err { OnErr result (self.new ≡ self.old) }
    {
        let mut at = body + FIRST;
        for i in 0..blocks.len() {
            let (cid, bytes) = blocks.at(i);
            let len = bytes.len() as u32;
            at += cid.as_bytes().len() as u64 + LENGTH;
            if let Err(refused) = self.insert(cid, Place { file, at, len }) {
                self.remove_blocks(blocks, i);
                return Err(refused);
            }
            at += u64::from(len);
        }
        Ok(())
    }

    /// Takes the places of the first `count` blocks away.
    pub fn remove_blocks(&mut self, blocks: &Parcel, count: usize)
        requires { count ≤ length blocks.now }
        ensures { self.new ≡ without_cids self.old (map (λ p. p.0) (take count blocks.now)) }
    {
        for i in 0..count {
            self.remove(&blocks.at(i).0);
        }
    }

    /// Takes the places at these CIDs away.
    pub fn remove_all(&mut self, cids: &Cids)
        ensures { self.new ≡ without_cids self.old cids.now }
    {
        for cid in cids.as_slice() {
            self.remove(cid);
        }
    }
}
