//! The store over its disk.

ghost use Rattle.std.specs.Prelude.{◌≡◌, ◌+◌, ◌^◌, ◌<◌, ◌≤◌, List, length, false, Err, None, Option, IsTrue, IfOk, IfErr, OnOk, option_map};
ghost use Rattle.std.specs.FinMap as finite_map;
ghost use Rattle.std.specs.FinSet as finite_set;
ghost use Rattle.ss_core.specs.LogFiles.{hot_file};
ghost use Rattle.ss_records.specs.declared.record.Record.{Record};
ghost use Rattle.ss_store.specs.declared.fault.StoreFault.{StoreFault};

mod asking;
mod get;
mod head;
mod put;

use crate::views::Views;
use ss_cid::Cid;
use ss_device::Disk;
use ss_hot::HotStore;
use ss_model::{Answer, Call, ViewReply};
use ss_store::StoreFault;
use std::alloc::Global;

/// Why parts make no store.
#[derive(Clone, Copy, Debug, PartialEq, Eq)]
pub enum PartsFault {
    /// More CIDs are kept than the setting `rows`.
    TooMany {
        /// How many.
        kept: u64,
    },
}

/// The file of the hot log.
const HOT: u8 = 0;

/// A store: the disk that it owns, what it knows of the files there, and which views are open.
///
/// A fault of the disk may leave the last record in doubt. It counts for nothing, and the next call that goes to the disk undoes
/// it first; after a crash before that, the next run may find it.
#[derive(Drop)]
pub struct SplitCore<D: Disk> {
    disk: D,
    hot: HotStore,
    views: Views,
    ghost file: { hot.log.file ≡ hot_file },
    ghost limit: { hot.log.limit ≡ hot.settings.limit },
    ghost known: { hot.log.end + 1 ≤ D.known disk hot.log.file },
}

impl<D: Disk> SplitCore<D> {
    ghost use Rattle.ss_store.specs.declared.fault.StoreFault.TheVariants as fault;
    ghost use Rattle.ss_hot.specs.Store.{Keeps};
    ghost use Rattle.ss_model.specs.State.{State};
    ghost use Rattle.ss_model.specs.declared.call.Call.TheVariants as call_kind;
    ghost use Rattle.ss_model.specs.declared.call.Answer.TheVariants as answer;
    ghost use Rattle.ss_core.specs.Calls.{Steps, Makes, OpensView};
    ghost use Rattle.ss_core.specs.Replies.{Settles, StillStands, held_len, held_count};
    ghost use Rattle.ss_core.specs.StandsFor.{Doubt, no_doubt, IsLeftBy, StandsFor};

    /// The store of these parts, in which no view is open. The disk is not called.
    ///
    /// `TooMany` exactly where more CIDs are kept than the setting `rows`; it gives the disk back.
    pub fn from_parts(disk: D, hot: HotStore) -> Result<SplitCore<D>, (PartsFault, D)>
        requires sure { hot.log.unsure ≡ false }
        requires log { (hot.log.file ≡ hot_file) × (hot.log.limit ≡ hot.settings.limit) }
        requires known { hot.log.end + 1 ≤ D.known disk hot.log.file }
        ensures parts { IfOk result (λ core. (core.disk ≡ disk) × (core.hot ≡ hot) × (core.views ≡ finite_set.empty)) }
        ensures stands { (records : List Record) (s : State) → IsTrue D.told → Keeps D.Disk disk hot records records → IsLeftBy hot.settings records s → s.views ≡ finite_set.empty → IfOk result (λ core. StandsFor core s no_doubt) }
        ensures few { OnOk result (finite_map.len hot.places ≤ hot.settings.rows) }
        ensures many { IfErr result (λ (fault, back). (fault ≡ PartsFault.TooMany (finite_map.len hot.places)) × (hot.settings.rows < finite_map.len hot.places) × (back ≡ disk)) }
    {
        let kept = hot.count();
        if kept > u64::from(hot.config().rows) {
            return Err((PartsFault::TooMany { kept }, disk));
        }
        Ok(SplitCore {
            disk,
            hot,
            views: Views::new(),
        })
    }

    /// The disk, as it is.
    pub fn into_disk(self) -> D
        ensures { result ≡ self.disk }
    {
        let SplitCore {
            disk,
            hot: _,
            views: _,
        } = self;
        disk
    }

    /// Makes the call, and answers as the method of its name does.
    pub fn answer(&mut self, alloc: Global, call: &Call) -> Answer
        ensures told { IsTrue D.told → (s : State) (doubt : Doubt) → StandsFor self.old s doubt → Steps self.old self.new s doubt call.now result }
        ensures made { Makes self.old self.new call.now result }
    {
        match call {
            Call::OpenView => Answer::View(self.open_view()),
            Call::CloseView { view } => Answer::Close(self.close_view(*view)),
            Call::Put { view, parcel } => Answer::Put(self.put(alloc, *view, parcel)),
            Call::Get { view, cid } => Answer::Get(self.get(alloc, *view, cid)),
            Call::Has { view, cid } => Answer::Has(self.has(*view, cid)),
            Call::Size { view, cid } => Answer::Size(self.size(*view, cid)),
            Call::SetHead { cids } => Answer::Head(self.set_head(alloc, cids)),
            Call::Info => Answer::Info(self.info()),
        }
    }

    /// Makes the call, and gives its answer twice: once for who called, and once for a history. Both are `NoMemory` if memory runs
    /// out for either.
    pub fn call(&mut self, alloc: Global, call: &Call) -> (Answer, Answer)
        ensures twice { result.0 ≡ result.1 }
        ensures told { IsTrue D.told → (s : State) (doubt : Doubt) → StandsFor self.old s doubt → Steps self.old self.new s doubt call.now result.0 }
        ensures made { Makes self.old self.new call.now result.0 }
    {
        match call {
            Call::OpenView => {
                let reply = self.open_view();
                (Answer::View(reply), Answer::View(reply))
            }
            Call::CloseView { view } => {
                let reply = self.close_view(*view);
                (Answer::Close(reply), Answer::Close(reply))
            }
            Call::Put { view, parcel } => {
                let reply = self.put(alloc, *view, parcel);
                (Answer::Put(reply), Answer::Put(reply))
            }
            Call::Get { view, cid } => {
                let (reply, again) = self.get_twice(alloc, *view, cid);
                (Answer::Get(reply), Answer::Get(again))
            }
            Call::Has { view, cid } => {
                let reply = self.has(*view, cid);
                (Answer::Has(reply), Answer::Has(reply))
            }
            Call::Size { view, cid } => {
                let reply = self.size(*view, cid);
                (Answer::Size(reply), Answer::Size(reply))
            }
            Call::SetHead { cids } => {
                let reply = self.set_head(alloc, cids);
                (Answer::Head(reply), Answer::Head(reply))
            }
            Call::Info => {
                let reply = self.info();
                (Answer::Info(reply), Answer::Info(reply))
            }
        }
    }

    /// Opens the view of the least number below `VIEWS` that is not open: `TooManyViews` exactly where all are.
    pub fn open_view(&mut self) -> ViewReply
        ensures told { IsTrue D.told → (s : State) (doubt : Doubt) → StandsFor self.old s doubt → Steps self.old self.new s doubt call_kind.OpenView (answer.View result) }
        ensures made { Makes self.old self.new call_kind.OpenView (answer.View result) }
        ensures views { OpensView self.old.views self.new.views result }
    {
        match self.views.open() {
            Some(view) => ViewReply::Opened(view),
            None => ViewReply::TooManyViews,
        }
    }

    // Settles a log in doubt: the record that was in doubt does not count. The disk is called for no other log.
    fn settle(&mut self) -> Result<(), StoreFault>
        ensures told { IsTrue D.told → (s : State) (doubt : Doubt) → StandsFor self.old s doubt → StillStands self.old self.new s doubt result }
        ensures settled { Settles self.old self.new result }
    {
        self.hot.settle(&mut self.disk)
    }

    // How many bytes are kept under a CID, None where it is not kept. What is kept is hot.
    fn kept_len(&self, cid: &Cid) -> Option<u32>
        ensures place { result ≡ held_len self.now cid.now }
        ensures block { (s : State) (doubt : Doubt) → StandsFor self.now s doubt → result ≡ option_map (λ block. length block) (finite_map.get s.kept cid.now) }
    {
        self.hot.size(cid)
    }

    // How many CIDs are kept.
    fn kept_count(&self) -> u64
        ensures count { result ≡ held_count self.now }
        ensures few { result < 2 ^ 63 }
    {
        self.hot.count()
    }
}
