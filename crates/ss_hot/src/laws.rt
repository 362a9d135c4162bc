//! Laws of a half's records. Each function does nothing: its contract is the law.
ghost use Rattle.std.specs.Prelude.{◌≡◌, ◌⊎◌, ◌+◌, ◌++◌, ◌<◌, ℕ, List, false, length, slice_index, slice_range, option_map};
ghost use Rattle.std.specs.FinMap as finite_map;
ghost use Rattle.ss_device.specs.Disk.{Files};
ghost use Rattle.ss_gatelog.specs.Log.{spelled};
ghost use Rattle.ss_records.specs.declared.record.Config.{Config as Settings};
ghost use Rattle.ss_records.specs.declared.record.Record.{Record};
ghost use Rattle.ss_hot.specs.Half.{HasSettings, IsHalf, IsDamagedHalf};
ghost use Rattle.ss_store.specs.Append.{bodies};
ghost use Rattle.ss_hot.specs.Half.{hot_blocks, hot_places};
ghost use Rattle.ss_hot.specs.Store.{Hot, Keeps};

use ss_device::Disk;

/// By the places of the hot blocks it is known which blocks are hot, and how long each is.
pub fn places_tell_blocks()
    ensures lengths { (file : ℕ) (records : List Record) (cid : List ℕ) → option_map (λ place. place.len) (finite_map.get (hot_places file records) cid) ≡ option_map (λ block. length block) (finite_map.get (hot_blocks records) cid) }
    ensures keys { (file : ℕ) (records : List Record) → finite_map.keys (hot_places file records) ≡ finite_map.keys (hot_blocks records) }
    ensures count { (file : ℕ) (records : List Record) → finite_map.len (hot_places file records) ≡ finite_map.len (hot_blocks records) }
{}

/// In a file that begins with the records each hot block stands at its place.
pub fn blocks_stand_at_their_places()
    ensures { (number : ℕ) (records : List Record) (cid file rest : List ℕ) → file ≡ spelled (bodies records) ++ rest
        → option_map (λ place. slice_range file place.at (place.at + place.len)) (finite_map.get (hot_places number records) cid) ≡ finite_map.get (hot_blocks records) cid }
{}

/// A file has at most one setting, represents at most one list of records, and is damaged at no more than one offset. One that
/// represents records is not damaged.
pub fn one_reading()
    ensures settings { (file : List ℕ) (a b : Settings) → HasSettings file a → HasSettings file b → a ≡ b }
    ensures records { (file : List ℕ) (a b : Settings) (r s : List Record) → IsHalf file a r → IsHalf file b s → r ≡ s }
    ensures apart { (file : List ℕ) (at : ℕ) (settings : Settings) (records : List Record) → IsDamagedHalf file at → IsHalf file settings records → ⊥ }
    ensures one_place { (file : List ℕ) (at at' : ℕ) → IsDamagedHalf file at → IsDamagedHalf file at' → at ≡ at' }
{}

/// A file of bytes in which settings are committed represents a list of records, or is damaged.
pub fn each_reading()
    ensures { (file : List ℕ) (settings : Settings) → ((i : ℕ) → slice_index file i < 256) → HasSettings file settings
        → ((records : List Record) × IsHalf file settings records) ⊎ ((at : ℕ) × IsDamagedHalf file at) }
{}

/// A store whose log is sure is found again: each image now is a half with its settings and exactly its records.
pub fn kept_is_opened_again<D: Disk>()
    ensures { (now : _) (store : Hot) (records others : List Record) → Keeps D.Disk now store records others → store.log.unsure ≡ false → (left : Files) → D.image now (D.moment now) left → IsHalf (left store.log.file) store.settings records }
{}
