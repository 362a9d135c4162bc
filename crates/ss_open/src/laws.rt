//! What opening can come to, as laws: each is the contract of a function with an empty body.

ghost use Rattle.std.specs.Prelude.{◌≡◌, ◌⊎◌, ◌<◌, ℕ, slice_index};
ghost use Rattle.ss_device.specs.Disk.{Files};
ghost use Rattle.ss_records.specs.declared.record.Config.{Config as Settings};
ghost use Rattle.ss_model.specs.State.{State};
ghost use Rattle.ss_core.specs.StandsFor.{HasState};
ghost use Rattle.ss_open.specs.Opening.{IsCommitted, IsDamagedStore};

/// Files of bytes in which settings are committed have a state or are damaged, and not both; and they are damaged at one offset of
/// one file.
pub fn a_store_has_a_state_or_is_damaged()
    ensures either { (files : Files) (settings : Settings) → ((file i : ℕ) → slice_index (files file) i < 256) → IsCommitted files settings → ((s : State) × HasState files s) ⊎ ((file at : ℕ) × IsDamagedStore files file at) }
    ensures apart { (files : Files) (file at : ℕ) (s : State) → IsDamagedStore files file at → HasState files s → ⊥ }
    ensures one_offset { (files : Files) (f g at to : ℕ) → IsDamagedStore files f at → IsDamagedStore files g to → (f ≡ g) × (at ≡ to) }
{}
