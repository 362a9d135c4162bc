//! Laws of stories. Each function does nothing: its contract is the law.
ghost use Rattle.std.specs.Prelude.{◌≡◌, ◌∷◌, ◌++◌, [], List, IsTrue};
ghost use Rattle.ss_device.specs.Calls.{Goes};
ghost use Rattle.ss_device.specs.Disk.{Same};
ghost use Rattle.ss_core.specs.declared.split_core.SplitCore.{SplitCore};
ghost use Rattle.ss_core.specs.Calls.{Steps, Makes, settings_of};
ghost use Rattle.ss_core.specs.StandsFor.{Doubt, no_doubt, HasState, StandsFor};
ghost use Rattle.ss_history.specs.Story.{Story, IsHistory};
ghost use Rattle.ss_model.specs.State.{State};
ghost use Rattle.ss_model.specs.declared.call.Entry.{Entry};
ghost use Rattle.ss_records.specs.Record.{SettingsFit};

use ss_device::Disk;

/// A store that was opened and has made no call has the story of no entry, from the disk as it was handed in.
pub fn an_opening_begins_a_story<D: Disk>()
    ensures { (was : D) (core : SplitCore D D.Disk) → Goes D.Disk Same was core.disk → (IsTrue D.told → (s : State) × HasState (D.files was) s × StandsFor core s no_doubt)
        → D.faults core.disk ≡ D.faults was → SettingsFit (settings_of core) → Story was core [] }
{}

/// A call goes on with the story of the calls before it, whatever it is and however it was answered.
pub fn a_call_goes_on<D: Disk>()
    ensures { (was : D) (old new : SplitCore D D.Disk) (h : List Entry) (e : Entry) → Story was old h
        → (IsTrue D.told → (s : State) (doubt : Doubt) → StandsFor old s doubt → Steps old new s doubt e.call e.answer) → Makes old new e.call e.answer → Story was new (h ++ e ∷ []) }
{}

/// A story is a history for those who see the disk alone.
pub fn a_story_is_a_history<D: Disk>()
    ensures { (was : D) (core : SplitCore D D.Disk) (h : List Entry) → Story was core h → IsHistory D.Disk was core.disk h }
{}
