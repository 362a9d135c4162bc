//! Calls that never go to the disk, and take no memory.

ghost use Rattle.std.specs.Prelude.{◌≡◌, ◌+◌, nat_le, Option, IsTrue, length, option_map};
ghost use Rattle.std.specs.FinMap as finite_map;
ghost use Rattle.ss_chain.specs.Fetch.{fetched};
ghost use Rattle.ss_chain.specs.Steps.{passes};

use super::SplitCore;
use ss_cid::{Cid, Cids};
use ss_device::Disk;
use ss_model::{CloseReply, HasReply, Info, SizeReply};

impl<D: Disk> SplitCore<D> {
    ghost use Rattle.ss_model.specs.State.{State};
    ghost use Rattle.ss_model.specs.declared.call.Call.TheVariants as call_kind;
    ghost use Rattle.ss_model.specs.declared.call.Answer.TheVariants as answer;
    ghost use Rattle.ss_core.specs.Calls.{Steps, Makes};
    ghost use Rattle.ss_core.specs.Replies.{held_len, len_of};
    ghost use Rattle.ss_core.specs.StandsFor.{Doubt, StandsFor};

    /// Closes a view: `BadView` exactly where it is not open. Its number may be given again.
    pub fn close_view(&mut self, view: u32) -> CloseReply
        ensures told { IsTrue D.told → (s : State) (doubt : Doubt) → StandsFor self.old s doubt → Steps self.old self.new s doubt (call_kind.CloseView view) (answer.Close result) }
        ensures made { Makes self.old self.new (call_kind.CloseView view) (answer.Close result) }
    {
        if self.views.close(view) {
            CloseReply::Closed
        } else {
            CloseReply::BadView
        }
    }

    /// Whether a block is there: `BadView`; `No` exactly where the CID is neither an identity CID nor kept; else `Yes`.
    pub fn has(&mut self, view: u32, cid: &Cid) -> HasReply
        ensures told { IsTrue D.told → (s : State) (doubt : Doubt) → StandsFor self.old s doubt → Steps self.old self.new s doubt (call_kind.Has view cid.now) (answer.Has result) }
        ensures made { Makes self.old self.new (call_kind.Has view cid.now) (answer.Has result) }
    {
        if !self.views.contains(view) {
            return HasReply::BadView;
        }
        match self.block_len(cid) {
            Some(_) => HasReply::Yes,
            None => HasReply::No,
        }
    }

    /// How many bytes a block has: `BadView`; `NotFound` exactly where the CID is neither an identity CID nor kept; else `Size`.
    pub fn size(&mut self, view: u32, cid: &Cid) -> SizeReply
        ensures told { IsTrue D.told → (s : State) (doubt : Doubt) → StandsFor self.old s doubt → Steps self.old self.new s doubt (call_kind.Size view cid.now) (answer.Size result) }
        ensures made { Makes self.old self.new (call_kind.Size view cid.now) (answer.Size result) }
    {
        if !self.views.contains(view) {
            return SizeReply::BadView;
        }
        match self.block_len(cid) {
            Some(len) => SizeReply::Size(len),
            None => SizeReply::NotFound,
        }
    }

    /// The settings, and what the store counts.
    pub fn info(&self) -> Info
        ensures told { IsTrue D.told → (s : State) (doubt : Doubt) → StandsFor self.now s doubt → Steps self.now self.now s doubt call_kind.Info (answer.Info result) }
        ensures made { Makes self.now self.now call_kind.Info (answer.Info result) }
    {
        let config = self.hot.config();
        let (base, ended) = self.hot.base();
        let height = self.hot.head().map(|(height, _)| height);
        let kept = self.kept_count();
        Info {
            config,
            height,
            base,
            ended,
            hot: kept,
            kept,
            views: self.views.count(),
            running: false,
            due: is_due(height, base, config.threshold),
        }
    }

    /// The height of the head, in epochs, and the CIDs of its tipset; None where no head was set. It is no call of a client.
    pub fn head(&self) -> Option<(u64, &Cids)>
        ensures { (s : State) (doubt : Doubt) → StandsFor self.now s doubt → option_map (λ head. (head.0, head.1.now)) result ≡ s.head }
    {
        self.hot.head()
    }

    /// How many bytes are kept under a CID; None exactly where it is not kept. It is no call of a client.
    pub fn kept_size(&self, cid: &Cid) -> Option<u32>
        ensures place { result ≡ held_len self.now cid.now }
        ensures block { (s : State) (doubt : Doubt) → StandsFor self.now s doubt → result ≡ option_map (λ block. length block) (finite_map.get s.kept cid.now) }
    {
        self.kept_len(cid)
    }

    // How many bytes a CID's block has, if it stands for one.
    pub(super) fn block_len(&self, cid: &Cid) -> Option<u32>
        ensures len { result ≡ len_of self.now cid.now }
        ensures block { (s : State) (doubt : Doubt) → StandsFor self.now s doubt → result ≡ option_map length (fetched s.kept cid.now) }
    {
        match cid.identity() {
            Some(digest) => {
                // A CID has at most 72 bytes, and its digest is among them.
                prove!(cid.as_bytes().len() <= 72);
                Some(digest.len() as u32)
            }
            None => self.kept_len(cid),
        }
    }
}

// Whether a head of this height lies so far above the base that a compaction is due.
fn is_due(height: Option<u64>, base: u64, threshold: u64) -> bool
    ensures { result ≡ passes (λ h. nat_le (base + threshold) h) height }
{
    match height {
        Some(height) => height >= base && height - base >= threshold,
        None => false,
    }
}
