//! A run of the program, over any source, sink and disk.

ghost use Rattle.std.specs.Prelude.{◌≡◌, ◌⊎◌, ◌∷◌, ◌++◌, ◌+◌, ◌^◌, ◌<◌, [], ℕ, Bool, List, false, map, Ok, IsErr, IsTrue, Some, string_bytes};
ghost use Rattle.ss_car.specs.Car.{Section};
ghost use Rattle.ss_records.specs.declared.record.Config.{Config as Settings};
ghost use Rattle.ss_records.specs.Record.{SettingsFit};
ghost use Rattle.ss_model.specs.State.{State};
ghost use Rattle.ss_model.specs.declared.call.Entry.{Entry};
ghost use Rattle.ss_script.specs.declared.line.Line.{Line};
ghost use Rattle.ss_script.specs.Text.{Writes, entry_text};
ghost use Rattle.ss_script.specs.Views.{client_views, resolved};
ghost use Rattle.ss_core.specs.Calls.{Steps, Makes};
ghost use Rattle.ss_core.specs.StandsFor.{Doubt, StandsFor};
ghost use Rattle.ss_app.specs.declared.words.Command.TheVariants as command;
ghost use Rattle.ss_app.specs.Ending.{status_of, line_of};
ghost use Rattle.ss_app.specs.Outcome.{Reads, CallsMade, Traced, Inited, Ran, TellsFaults, RefusesScript, RefusesStore, RefusesInit, IsValidTrace, IsValidInit, AsksFor};
ghost use Rattle.ss_app.specs.Outcome.{IsValidImport, IsValidInfo, IsDoneOrFull};
ghost use Rattle.ss_app.specs.Progress.{PrintsUnless, Progress, Stepped};
ghost use Rattle.ss_history.specs.Story.{Story};
ghost use Rattle.ss_app.specs.Words.{command_of};
ghost use Rattle.ss_app.specs.World.{input, output, world, Says};

use crate::SCRIPT_BYTES;
use crate::ending::Ending;
use crate::help::{HELP, VERSION};
use crate::importing::{run_import, run_info};
use crate::words::{Command, command_of};
use ss_cid::NoMemory;
use ss_core::SplitCore;
use ss_device::Disk;
use ss_io::{Failed, Sink, Source, read_all};
use ss_model::Entry;
use ss_open::{init, open};
use ss_records::Config;
use ss_script::{CLIENTS, Line, Lines, Views, read_script, write_entry};
use std::alloc::Global;

// The status of a run whose sink failed.
const WRITE_FAULT: u8 = 5;

/// How a run ended: its status, and the disk as it is then.
#[derive(Debug, Drop)]
pub struct Exit<D> {
    /// The status that the program ends with.
    pub status: u8,
    /// The disk that was handed in.
    pub disk: D,
}

/// Does what the words of the command line ask for, and answers the status that the program ends with.
///
/// `init` makes a store on the disk. `trace` reads a script from the source, makes its calls on the store of the disk, and writes a
/// line for each. `import` reads a CAR from the source, puts its sections in the store, and may set its roots as head. `info`
/// writes the settings of the store and what it counts. `--help` and `--version` write what they name. An invalid word is found
/// before anything else. Of `trace` a source that fails or holds more than `SCRIPT_BYTES` comes before a bad line, a bad line
/// before the disk is touched, and what is wrong with the store before any call is made. A call that fails, out of memory, of
/// room or for a fault of the disk, is an entry like any other. `import` ends at the first fault that it meets; where the CAR
/// is at fault all sections before that are kept, and else those of the groups that were put.
///
/// `trace` and `import` change no file but that of the hot log, and `trace` none before its first call; `info` changes none.
/// `init` changes none where there is a store; where there is none, files may be emptied on status 6, and the store may be made on
/// 5 and 6. Statuses:
///
/// | status | why |
/// |---|---|
/// | 0 | all was done and all is written |
/// | 2 | a word is invalid |
/// | 3 | there was not enough memory |
/// | 4 | the source failed |
/// | 5 | the sink failed; all else was done that the run would have done |
/// | 6 | the disk failed while the store was opened or made, or in an import |
/// | 7 | the disk has no store, or for `init` it has one |
/// | 8 | a file of the store is damaged |
/// | 9 | a line of the script is invalid |
/// | 10 | the CAR is malformed, or a block of it is not stored |
/// | 11 | in an import the log had no room for a record |
/// | 12 | in an import more CIDs would have been kept than the settings allow |
/// | 13 | the script is too long, or a section of the CAR ends behind byte 2^40 |
/// | 16 | the roots of the CAR are not set as head |
pub fn run_alone<S: Source, K: Sink, D: Disk>(
    alloc: Global,
    words: &[String],
    source: &mut S,
    sink: &mut K,
    disk: D,
) -> Exit<D>
    ensures run { Ran (command_of (map string_bytes words.now)) D.Disk (world S.Source K.Sink source.old sink.old disk) (world S.Source K.Sink source.new sink.new result.disk) result.status }

    // A fault is answered just where the stream or the disk counted it.
    ensures faults { TellsFaults D.Disk (world S.Source K.Sink source.old sink.old disk) (world S.Source K.Sink source.new sink.new result.disk) result.status }

    // The refusals come just where the words, the script and the files call for them, but for out of memory and faults.
    ensures usage { (result.status ≡ 2 → IsErr (command_of (map string_bytes words.now))) × (IsErr (command_of (map string_bytes words.now)) → (result.status ≡ 2) ⊎ (result.status ≡ 5)) }
    ensures script { (script : List ℕ) → command_of (map string_bytes words.now) ≡ Ok command.Trace → S.left source.old ≡ Some script → RefusesScript script result.status }
    ensures store { (script : List ℕ) (lines : List Line) → command_of (map string_bytes words.now) ≡ Ok command.Trace → S.left source.old ≡ Some script → AsksFor script lines → IsTrue D.told → RefusesStore (D.files disk) result.status }
    ensures import_store { (head : Bool) → command_of (map string_bytes words.now) ≡ Ok (command.Import head) → IsTrue D.told → RefusesStore (D.files disk) result.status }
    ensures info_store { command_of (map string_bytes words.now) ≡ Ok command.Info → IsTrue D.told → RefusesStore (D.files disk) result.status }
    ensures init { (settings : Settings) → command_of (map string_bytes words.now) ≡ Ok (command.Init settings) → IsTrue D.told → RefusesInit (D.files disk) result.status }
    ensures complete { (script : List ℕ) (lines : List Line) → command_of (map string_bytes words.now) ≡ Ok command.Trace → IsValidTrace D.Disk (world S.Source K.Sink source.old sink.old disk) (world S.Source K.Sink source.new sink.new result.disk) script lines → (result.status ≡ 0) ⊎ (result.status ≡ 3) }
    ensures complete_init { (settings : Settings) → command_of (map string_bytes words.now) ≡ Ok (command.Init settings) → IsValidInit D.Disk (world S.Source K.Sink source.old sink.old disk) (world S.Source K.Sink source.new sink.new result.disk) → (result.status ≡ 0) ⊎ (result.status ≡ 3) }
    ensures complete_import { (head : Bool) (bytes : List ℕ) (roots : List (List ℕ)) (sections : List Section) → command_of (map string_bytes words.now) ≡ Ok (command.Import head) → IsValidImport head D.Disk (world S.Source K.Sink source.old sink.old disk) (world S.Source K.Sink source.new sink.new result.disk) bytes roots sections → IsDoneOrFull result.status }
    ensures complete_info { command_of (map string_bytes words.now) ≡ Ok command.Info → IsValidInfo D.Disk (world S.Source K.Sink source.old sink.old disk) (world S.Source K.Sink source.new sink.new result.disk) → (result.status ≡ 0) ⊎ (result.status ≡ 3) }
{
    run_command(alloc, command_of(words), source, sink, disk)
}

// Does what a command says, or tells which word is invalid.
fn run_command<S: Source, K: Sink, D: Disk>(
    alloc: Global,
    asked: Result<Command, usize>,
    source: &mut S,
    sink: &mut K,
    disk: D,
) -> Exit<D>
    requires fits { (settings : Settings) → asked ≡ Ok (command.Init settings) → SettingsFit settings }
    ensures { Ran asked D.Disk (world S.Source K.Sink source.old sink.old disk) (world S.Source K.Sink source.new sink.new result.disk) result.status }
{
    match asked {
        Ok(Command::Init(config)) => make(alloc, config, source, sink, disk),
        Ok(Command::Trace) => trace(alloc, source, sink, disk),
        Ok(Command::Import(head)) => run_import(alloc, head, source, sink, disk),
        Ok(Command::Info) => run_info(alloc, source, sink, disk),
        Ok(Command::Help) => Exit {
            status: say(sink, HELP),
            disk,
        },
        Ok(Command::Version) => Exit {
            status: say(sink, VERSION),
            disk,
        },
        Err(word) => Exit {
            status: finish(sink, Ending::Usage { word }),
            disk,
        },
    }
}

// Writes a text, flushes the sink, and gives the status of the run.
fn say<K: Sink>(sink: &mut K, text: &str) -> u8
    ensures { Says (output K.Sink sink.old) (output K.Sink sink.new) text.now 0 result }
{
    match sink.put(text.as_bytes()) {
        Ok(()) => finish(sink, Ending::Done),
        Err(Failed) => WRITE_FAULT,
    }
}

// Writes the line of an ending, flushes the sink, and gives the status of the run.
pub(crate) fn finish<K: Sink>(sink: &mut K, ending: Ending) -> u8
    ensures { Says (output K.Sink sink.old) (output K.Sink sink.new) (line_of ending) (status_of ending) result }
{
    match put_ending(sink, ending) {
        Ok(()) => ending.status(),
        Err(Failed) => WRITE_FAULT,
    }
}

fn put_ending<K: Sink>(sink: &mut K, ending: Ending) -> Result<(), Failed>
    ensures { Writes K.Sink sink.old sink.new result (line_of ending) }
{
    ending.put_line(sink)?;
    sink.flush()
}

// Makes a store.
fn make<S: Source, K: Sink, D: Disk>(
    alloc: Global,
    config: Config,
    source: &mut S,
    sink: &mut K,
    disk: D,
) -> Exit<D>
    requires { SettingsFit config }
    ensures { Inited D.Disk (world S.Source K.Sink source.old sink.old disk) (world S.Source K.Sink source.new sink.new result.disk) config result.status }
{
    match init(alloc, disk, config) {
        Ok(core) => Exit {
            status: say(sink, "store made\n"),
            disk: core.into_disk(),
        },
        Err((fault, disk)) => Exit {
            status: finish(sink, Ending::from(fault)),
            disk,
        },
    }
}

// A run of a script: its store, the views of its clients, how many entries were made, and whether the sink has refused a
// line. From then on nothing is printed, and the calls that are left are still made.
#[derive(Drop)]
struct Session<D: Disk> {
    core: SplitCore<D>,
    views: Views,
    place: u64,
    refused: bool,
}

impl<D: Disk> Session<D> {
    // Makes the call of a line and prints its entry.
    fn step<K: Sink>(&mut self, alloc: Global, sink: &mut K, line: Line) -> Result<(), NoMemory>
        requires place { self.old.place < 2 ^ 63 }
        ensures step { (was : _) (made : List Line) (old : _) → Progress was self.old.core self.old.views self.old.place self.old.refused made old (output K.Sink sink.old) → Stepped was self.new.core self.new.views self.new.place self.new.refused (made ++ line ∷ []) old (output K.Sink sink.new) result }
        ensures place { self.new.place ≡ self.old.place + 1 }
    {
        let client = line.client;
        let closing = line.call.closing_view();
        let entry = make_call(alloc, &mut self.core, &self.views, line);
        self.place += 1;
        self.refused = print(alloc, sink, self.refused, self.place, &entry);
        self.views.record(client, closing, &entry.answer)
    }

    // What came of the calls that were made.
    fn ended(self, ending: Ending) -> Calls<D>
        ensures { result ≡ record { ending = ending; refused = self.refused; disk = self.core.disk } }
    {
        let Session {
            core,
            views: _,
            place: _,
            refused,
        } = self;
        Calls {
            ending,
            refused,
            disk: core.into_disk(),
        }
    }
}

// Makes the call of a line.
fn make_call<D: Disk>(alloc: Global, core: &mut SplitCore<D>, views: &Views, line: Line) -> Entry
    ensures client { result.client ≡ line.client }
    ensures line { result.line ≡ line.line }
    ensures call { result.call ≡ resolved (client_views views.now line.client) line.call }
    ensures told { IsTrue D.told → (s : State) (doubt : Doubt) → StandsFor core.old s doubt → Steps core.old core.new s doubt result.call result.answer }
    ensures made { Makes core.old core.new result.call result.answer }
{
    let client = line.client;
    let number = line.line;
    let call = views.resolve(line);
    let answer = core.answer(alloc, &call);
    Entry {
        client,
        line: number,
        call,
        answer,
    }
}

// What came of the calls: how they ended, whether the sink refused a line, and the disk.
#[derive(Drop)]
struct Calls<D> {
    ending: Ending,
    refused: bool,
    disk: D,
}

// Makes the calls of the lines, in order, and prints each entry as it is made.
fn make_calls<K: Sink, D: Disk>(
    alloc: Global,
    core: SplitCore<D>,
    lines: Lines,
    sink: &mut K,
) -> Calls<D>
    ensures { (was : _) → Story was core [] → CallsMade D.Disk was result.disk lines (output K.Sink sink.old) (output K.Sink sink.new) result.ending result.refused }
{
    let Ok(views) = Views::new(alloc) else {
        return Calls {
            ending: Ending::NoMemory,
            refused: false,
            disk: core.into_disk(),
        };
    };
    let mut session = Session {
        core,
        views,
        place: 0,
        refused: false,
    };
    for line in lines {
        if let Err(NoMemory) = session.step(alloc, sink, line) {
            return session.ended(Ending::NoMemory);
        }
    }
    session.ended(Ending::Done)
}

// Prints an entry, unless the sink has refused a line before, and tells whether it has now.
fn print<K: Sink>(alloc: Global, sink: &mut K, refused: bool, place: u64, entry: &Entry) -> bool
    ensures { PrintsUnless refused (output K.Sink sink.old) (output K.Sink sink.new) result (entry_text place entry.now) }
{
    refused || write_entry(alloc, sink, place, entry).is_err()
}

// Reads the lines of a script, or tells how the run ends.
fn read_lines<S: Source>(alloc: Global, source: &mut S) -> Result<Lines, Ending>
    ensures { Reads (input S.Source source.old) (input S.Source source.new) result }
{
    let text = read_all(alloc, source, SCRIPT_BYTES)?;
    Ok(read_script(alloc, text.as_slice(), CLIENTS)?)
}

// Reads the script, opens the store and makes the calls.
fn trace<S: Source, K: Sink, D: Disk>(
    alloc: Global,
    source: &mut S,
    sink: &mut K,
    disk: D,
) -> Exit<D>
    ensures { Traced D.Disk (world S.Source K.Sink source.old sink.old disk) (world S.Source K.Sink source.new sink.new result.disk) result.status }
{
    let lines = match read_lines(alloc, source) {
        Ok(lines) => lines,
        Err(ending) => {
            let status = finish(sink, ending);
            return Exit { status, disk };
        }
    };
    let core = match open(alloc, disk) {
        Ok(core) => core,
        Err((fault, disk)) => {
            let status = finish(sink, Ending::from(fault));
            return Exit { status, disk };
        }
    };
    let calls = make_calls(alloc, core, lines, sink);
    if calls.refused {
        return Exit {
            status: WRITE_FAULT,
            disk: calls.disk,
        };
    }
    Exit {
        status: finish(sink, calls.ending),
        disk: calls.disk,
    }
}
