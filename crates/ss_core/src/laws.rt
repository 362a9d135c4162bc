//! What a store leaves to the next run, as laws: each is the contract of a function with an empty body.

ghost use Rattle.std.specs.Prelude.{◌≡◌};
ghost use Rattle.ss_device.specs.Disk.{Files};
ghost use Rattle.ss_model.specs.State.{State, closed};
ghost use Rattle.ss_core.specs.declared.split_core.SplitCore.{SplitCore};
ghost use Rattle.ss_core.specs.StandsFor.{Doubt, no_doubt, HasState, AreAlike, StandsFor, HasEitherState, hot_end};

use ss_device::Disk;

/// Each image now has the state that the store stands for, with its views closed, or the one that what is in doubt would make.
/// Where nothing is in doubt it has just the one, and the records of its hot log end where the log does: the next run begins there.
pub fn next_run_begins_where_this_ended<D: Disk>()
    ensures doubted { (core : SplitCore _ D.Disk) (s : State) (doubt : Doubt) → StandsFor core s doubt → (left : Files) → D.image core.disk (D.moment core.disk) left → HasEitherState s doubt left }
    ensures sure { (core : SplitCore _ D.Disk) (s : State) → StandsFor core s no_doubt → (left : Files) → D.image core.disk (D.moment core.disk) left → HasState left (closed s) }
    ensures end { (core : SplitCore _ D.Disk) (s : State) → StandsFor core s no_doubt → (left : Files) → D.image core.disk (D.moment core.disk) left → (has : HasState left (closed s)) → core.hot.log.end ≡ hot_end has }
{}

/// Files have one state, and the records of their hot log end at one offset.
pub fn files_have_one_state()
    ensures end { (files : Files) (s t : State) (is : HasState files s) (has : HasState files t) → hot_end is ≡ hot_end has }
    ensures state { (files : Files) (s t : State) → HasState files s → HasState files t → AreAlike s t }
{}
