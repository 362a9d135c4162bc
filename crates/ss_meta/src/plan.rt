ghost use Rattle.std.specs.Prelude.{◌≡◌, Some, true, MatchBool};
ghost use Rattle.ss_records.specs.declared.record.Record.TheVariants as record_kind;
ghost use Rattle.ss_meta.specs.Plan.{MayFollow};

use ss_cid::Cids;

/// A compaction that has begun: what it marks from, the blocks that leave the hot store, and how far it came.
#[derive(Debug, Drop)]
pub struct Plan {
    /// Blocks of this height and above are reachable with their state.
    pub edge: u64,
    /// The CIDs of the tipset that it marks from.
    pub roots: Cids,
    /// The blocks that leave the hot store, in the order of their records. Their CIDs all differ.
    pub cold: Cids,
    /// Whether `cold` is whole.
    pub sealed: bool,
    /// How many blocks of `cold` are in the cold store, in their order.
    pub copied: u64,
    /// How many blocks of `cold` are out of the hot store, in their order.
    pub purged: u64,
}

// Each enters a record that was read, and answers whether it may follow. If not, the plan stays.
impl Plan {
    pub(crate) fn seal(&mut self, total: u64) -> bool
        ensures { MatchBool result (MayFollow (Some self.old) (record_kind.Sealed total) × (self.new ≡ record self.old { sealed = true })) ((MayFollow (Some self.old) (record_kind.Sealed total) → ⊥) × (self.new ≡ self.old)) }
    {
        if self.sealed || total != self.cold.len() as u64 {
            return false;
        }
        self.sealed = true;
        true
    }

    pub(crate) fn note_copied(&mut self, up_to: u64) -> bool
        ensures { MatchBool result (MayFollow (Some self.old) (record_kind.Copied up_to) × (self.new ≡ record self.old { copied = up_to })) ((MayFollow (Some self.old) (record_kind.Copied up_to) → ⊥) × (self.new ≡ self.old)) }
    {
        if !self.sealed || up_to < self.copied || up_to > self.cold.len() as u64 {
            return false;
        }
        self.copied = up_to;
        true
    }

    pub(crate) fn note_purged(&mut self, up_to: u64) -> bool
        ensures { MatchBool result (MayFollow (Some self.old) (record_kind.Purged up_to) × (self.new ≡ record self.old { purged = up_to })) ((MayFollow (Some self.old) (record_kind.Purged up_to) → ⊥) × (self.new ≡ self.old)) }
    {
        if !self.sealed || up_to < self.purged || up_to > self.cold.len() as u64 {
            return false;
        }
        self.purged = up_to;
        true
    }
}
