//! Laws of a plan's records. Each function does nothing: its contract is the law.
ghost use Rattle.std.specs.Prelude.{◌≡◌, ◌⊎◌, ◌<◌, ℕ, List, false, slice_index};
ghost use Rattle.ss_device.specs.Disk.{Files};
ghost use Rattle.ss_records.specs.declared.record.Record.{Record};
ghost use Rattle.ss_meta.specs.Plan.{IsMeta, IsFaulty};
ghost use Rattle.ss_meta.specs.Meta.{Meta, Keeps};

use ss_device::Disk;
use ss_gatelog::laws::each_file;

/// A file represents at most one list of records, and is damaged at no more than one offset. One that represents records is not
/// damaged.
pub fn one_reading()
    ensures records { (limit : ℕ) (file : List ℕ) (r s : List Record) → IsMeta limit file r → IsMeta limit file s → r ≡ s }
    ensures apart { (limit at : ℕ) (file : List ℕ) (records : List Record) → IsFaulty limit file at → IsMeta limit file records → ⊥ }
    ensures one_place { (limit at at' : ℕ) (file : List ℕ) → IsFaulty limit file at → IsFaulty limit file at' → at ≡ at' }
{}

/// A file of bytes represents a list of records, or is damaged.
pub fn each_reading()
    ensures { (limit : ℕ) (file : List ℕ) → ((i : ℕ) → slice_index file i < 256) → 0 < limit
        → ((records : List Record) × IsMeta limit file records) ⊎ ((at : ℕ) × IsFaulty limit file at) }
{
    each_file();
}

/// A store whose log is sure is found again: each image now has exactly its records.
pub fn kept_is_opened_again<D: Disk>()
    ensures { (now : _) (store : Meta) (records others : List Record) → Keeps D.Disk now store records others → store.log.unsure ≡ false → (left : Files) → D.image now (D.moment now) left → IsMeta store.log.limit (left store.log.file) records }
{}
