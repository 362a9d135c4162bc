//! Judging a tipset header by header.

ghost use Rattle.std.specs.Prelude.{◌≡◌, ◌≢◌, ◌⊎◌, ◌<◌, ◌≤◌, ◌^◌, None, length, IfOk, IfErr, IfSome, option_map};
ghost use Rattle.ss_chain.specs.Header.{HeaderFields};
ghost use Rattle.ss_chain.specs.HeaderReading.{header_of};
ghost use Rattle.ss_chain.specs.Tipset.{cids_fault, stands_earlier, fault_beside, same_cids};
ghost use Rattle.ss_model.specs.Head.{answer_of};
ghost use Rattle.ss_model.specs.declared.call.HeadReply.TheVariants as head;
ghost use Rattle.ss_core.specs.Replies.{IsFirst, IsUnread, IsJudgement};

use ss_cbor::Links;
use ss_chain::header;
use ss_cid::{Cid, Cids, NoMemory};
use ss_model::HeadReply;
use std::alloc::Global;

/// The most headers that a tipset has.
pub(crate) const MAX_HEADERS: usize = 64;

/// What the other headers of a tipset are compared with.
#[derive(Drop)]
pub(crate) struct FirstHeader {
    /// The height of the first header, in epochs.
    pub height: u64,
    /// Its parents.
    pub parents: Cids,
}

impl FirstHeader {
    /// Reads the first header of a tipset: `NotHeader`, or `NoMemory`.
    pub fn read(alloc: Global, cid: &Cid, block: &[u8]) -> Result<FirstHeader, HeadReply>
        ensures first { IfOk result (λ first. IsFirst first.height first.parents (header_of cid.now block.now)) }
        ensures height { IfOk result (λ first. first.height < 2 ^ 63) }
        ensures judgement { IfErr result IsJudgement }
        ensures fault { IfErr result (λ refusal. (refusal ≡ head.NoMemory) ⊎ ((refusal ≡ head.NotHeader 0) × (header_of cid.now block.now ≡ None))) }
    {
        let Some(first) = header(cid, block) else {
            return Err(HeadReply::NotHeader { i: 0 });
        };
        let Ok(parents) = collect(alloc, first.parents()) else {
            return Err(HeadReply::NoMemory);
        };
        Ok(FirstHeader {
            height: first.height,
            parents,
        })
    }

    /// What is wrong with the block at place `i` beside this header: `NotHeader`, `HeightDiffers` or `ParentsDiffer`.
    pub fn fault_beside(&self, i: u32, cid: &Cid, block: &[u8]) -> Option<HeadReply>
        ensures judgement { IfSome result IsJudgement }
        ensures no_fault { IfSome result (λ refusal. refusal ≢ head.DiskFault) }
        ensures beside { (h : HeaderFields) → (self.now.height ≡ h.height) × (self.now.parents ≡ h.parents) → result ≡ option_map answer_of (fault_beside h i (header_of cid.now block.now)) }
    {
        let Some(header) = header(cid, block) else {
            return Some(HeadReply::NotHeader { i });
        };
        if header.height != self.height {
            return Some(HeadReply::HeightDiffers { i });
        }
        if !are_same(header.parents(), &self.parents) {
            return Some(HeadReply::ParentsDiffer { i });
        }
        None
    }
}

// The links, as a list.
fn collect(alloc: Global, mut links: Links<'_>) -> Result<Cids, NoMemory>
    ensures { IfOk result (λ cids. cids ≡ links.entry) }
{
    let mut cids = Cids::new(alloc);
    while let Some(link) = links.next() {
        cids.push(link)?;
    }
    Ok(cids)
}

// Whether links are just these CIDs.
fn are_same(mut links: Links<'_>, cids: &Cids) -> bool
    ensures { result ≡ same_cids links.entry cids.now }
{
    let mut others = cids.as_slice().iter();
    while let Some(link) = links.next() {
        let Some(other) = others.next() else {
            return false;
        };
        if link != *other {
            return false;
        }
    }
    others.next().is_none()
}

/// What is wrong with the CIDs of a tipset, whatever their blocks are: `Empty`, `TooMany` or `Repeated`.
#[tactic(auto, unfolding(ss_chain::specs::Tipset::cids_fault))]
pub(crate) fn cids_fault(cids: &Cids) -> Option<HeadReply>
    ensures fault { result ≡ option_map answer_of (cids_fault cids.now) }
    ensures some { result ≡ None → (0 < length cids.now) × (length cids.now ≤ 64) }
    ensures early { IfSome result IsUnread }
{
    let n = cids.len();
    if n == 0 {
        return Some(HeadReply::Empty);
    }
    if n > MAX_HEADERS {
        let n = u32::try_from(n).unwrap_or(u32::MAX);
        return Some(HeadReply::TooMany { n });
    }
    for i in 0..n {
        if stands_earlier(cids, i) {
            return Some(HeadReply::Repeated { i: i as u32 });
        }
    }
    None
}

// Whether the CID at place `i` stands earlier too.
fn stands_earlier(cids: &Cids, i: usize) -> bool
    requires { i < length cids.now }
    ensures { result ≡ stands_earlier cids.now i }
{
    let cid = cids.at(i);
    for j in 0..i {
        if cid == cids.at(j) {
            return true;
        }
    }
    false
}
