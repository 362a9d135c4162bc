// What the records of a plan tell, one after another.
ghost use Rattle.std.specs.Prelude.{◌≡◌, ◌++◌, List, ℕ, None, IfOk, MatchBool};
ghost use Rattle.ss_records.specs.declared.record.Record.TheVariants as record_kind;
ghost use Rattle.ss_meta.specs.Plan.{AllDiffer};
ghost use Rattle.ss_meta.specs.Opening.{Sees};

use super::Plan;
use ss_cid::{Cid, Cids, NoMemory};
use ss_records::{Record, RecordFault, decode};
use std::alloc::Global;
use std::collections::BTreeSet;

/// What the records that were read tell.
#[derive(Drop)]
pub(super) struct Walk {
    pub plan: Option<Plan>,
    /// The candidates of the plan.
    pub seen: BTreeSet<Cid>,
}

impl Walk {
    ghost use Rattle.ss_meta.specs.Opening.{IsSound, Enters, IsRead, IsMisfit};

    /// Before the first record.
    pub(super) fn new(alloc: Global) -> Walk
        ensures sound { IsSound result }
        ensures plan { result.plan ≡ None }
    {
        Walk {
            plan: None,
            seen: BTreeSet::new(alloc),
        }
    }

    /// Enters the record that a body spells, and answers whether there is one and may follow. If not, or out of memory, some of
    /// its candidates may have been seen.
    pub(super) fn take(&mut self, alloc: Global, body: &[u8]) -> Result<bool, NoMemory>
        requires { IsSound self.old }
        ensures { IfOk result (λ fits. MatchBool fits (IsRead self.old body.now self.new) (IsMisfit self.old.plan body.now)) }
    {
        match decode(alloc, body) {
            Ok(entry) => self.enter(alloc, entry),
            Err(RecordFault::BadRecord { .. }) => Ok(false),
            Err(RecordFault::NoMemory) => Err(NoMemory),
        }
    }

    /// Enters a record, and answers whether it may follow.
    fn enter(&mut self, alloc: Global, entry: Record) -> Result<bool, NoMemory>
        requires { IsSound self.old }
        ensures { IfOk result (Enters entry self.old self.new) }
    {
        match entry {
            Record::Start { edge, cids } => Ok(self.start(alloc, edge, cids)),
            Record::Cold(cids) => self.add_cold(&cids),
            Record::Sealed(total) => Ok(self.seal(total)),
            Record::Copied(up_to) => Ok(self.note_copied(up_to)),
            Record::Purged(up_to) => Ok(self.note_purged(up_to)),
            _ => Ok(false),
        }
    }

    fn start(&mut self, alloc: Global, edge: u64, roots: Cids) -> bool
        requires { IsSound self.old }
        ensures { Enters (record_kind.Start edge roots) self.old self.new result }
    {
        if self.plan.is_some() {
            return false;
        }
        self.plan = Some(Plan {
            edge,
            roots,
            cold: Cids::new(alloc),
            sealed: false,
            copied: 0,
            purged: 0,
        });
        true
    }

    fn add_cold(&mut self, cids: &Cids) -> Result<bool, NoMemory>
        requires { IsSound self.old }
        ensures { IfOk result (Enters (record_kind.Cold cids.now) self.old self.new) }
    {
        match &mut self.plan {
            Some(plan) if !plan.sealed => {
                if !see(&mut self.seen, cids)? {
                    return Ok(false);
                }
                plan.cold.extend(cids)?;
                Ok(true)
            }
            _ => Ok(false),
        }
    }

    fn seal(&mut self, total: u64) -> bool
        requires { IsSound self.old }
        ensures { Enters (record_kind.Sealed total) self.old self.new result }
    {
        match &mut self.plan {
            Some(plan) => plan.seal(total),
            None => false,
        }
    }

    fn note_copied(&mut self, up_to: u64) -> bool
        requires { IsSound self.old }
        ensures { Enters (record_kind.Copied up_to) self.old self.new result }
    {
        match &mut self.plan {
            Some(plan) => plan.note_copied(up_to),
            None => false,
        }
    }

    fn note_purged(&mut self, up_to: u64) -> bool
        requires { IsSound self.old }
        ensures { Enters (record_kind.Purged up_to) self.old self.new result }
    {
        match &mut self.plan {
            Some(plan) => plan.note_purged(up_to),
            None => false,
        }
    }
}

/// Adds CIDs to a set, and answers whether they all differ from each other and from those that it had.
fn see(seen: &mut BTreeSet<Cid>, cids: &Cids) -> Result<bool, NoMemory>
    ensures { (cold : List (List ℕ)) → Sees seen.old cold → AllDiffer cold → IfOk result (λ differ. MatchBool differ (Sees seen.new (cold ++ cids.now) × AllDiffer (cold ++ cids.now)) (AllDiffer (cold ++ cids.now) → ⊥)) }
{
    for cid in cids.as_slice() {
        if !seen.insert(*cid)? {
            return Ok(false);
        }
    }
    Ok(true)
}
