//! How a run ends: its status, and the line that tells why.

ghost use Rattle.std.specs.Prelude.{◌≡◌, [], ◌∷◌, ◌++◌, codes};
ghost use Rattle.ss_script.specs.Text.{numbers_text, head_reply_text, height_text, Writes};
ghost use Rattle.ss_app.specs.Ending.{status_of, line_of, ending_of_outcome, import_status, import_line, imported_text, informed_text};

use ss_import::{ImportFault, Imported};
use ss_io::{Failed, ReadAllFault, Sink};
use ss_model::{HeadReply, Info};
use ss_open::OpenFault;
use ss_script::{ScriptFault, ScriptKind, put_head_reply, put_info, put_numbers, put_settings};

/// How a run ends, but for a sink that failed.
#[derive(Clone, Copy, Debug, PartialEq, Eq)]
pub enum Ending {
    /// All was done.
    Done,
    /// The word at this place, from 0, is invalid; where one is missing, their number.
    Usage { word: usize },
    /// There was not enough memory.
    NoMemory,
    /// The source failed.
    ReadFault,
    /// The disk failed while the store was opened or made.
    DiskFault,
    /// The disk has no store.
    NoStore,
    /// The disk has a store already.
    StoreExists,
    /// A file is damaged: `at` is the offset of the gate of the first record at fault; or 14, that of the settings, where no
    /// record is at fault and more blocks are kept than the settings allow.
    Damaged { file: u8, at: u64 },
    /// The line of the script is at fault.
    BadScript { line: u32, kind: ScriptKind },
    /// The script has more bytes than a script may have.
    TooLong,
    /// The CAR was not imported to its end.
    NotImported(ImportFault),
    /// The CAR was imported.
    Imported(Imported),
    /// What the store counts.
    Informed(Info),
}

impl From<ReadAllFault> for Ending {
    ghost use Rattle.std.specs.Prelude.{◌≡◌};
    ghost use Rattle.ss_app.specs.Ending.{ending_of_input};

    ghost from_gives = { λ fault ending. ending ≡ ending_of_input fault };

    fn from(fault: ReadAllFault) -> Ending {
        match fault {
            ReadAllFault::Failed => Ending::ReadFault,
            ReadAllFault::TooLong => Ending::TooLong,
            ReadAllFault::NoMemory => Ending::NoMemory,
        }
    }
}

impl From<ScriptFault> for Ending {
    ghost use Rattle.std.specs.Prelude.{◌≡◌};
    ghost use Rattle.ss_app.specs.Ending.{ending_of};

    ghost from_gives = { λ fault ending. ending ≡ ending_of fault };

    fn from(fault: ScriptFault) -> Ending {
        match fault {
            ScriptFault::Bad { line, kind } => Ending::BadScript { line, kind },
            ScriptFault::NoMemory => Ending::NoMemory,
        }
    }
}

impl From<OpenFault> for Ending {
    ghost use Rattle.std.specs.Prelude.{◌≡◌};
    ghost use Rattle.ss_app.specs.Ending.{ending_of_open};

    ghost from_gives = { λ fault ending. ending ≡ ending_of_open fault };

    fn from(fault: OpenFault) -> Ending {
        match fault {
            OpenFault::NoStore => Ending::NoStore,
            OpenFault::StoreExists => Ending::StoreExists,
            OpenFault::Damaged { file, at } => Ending::Damaged { file, at },
            OpenFault::DiskFault => Ending::DiskFault,
            OpenFault::NoMemory => Ending::NoMemory,
        }
    }
}

impl Ending {
    /// How a run ends whose store was opened, and into which a CAR was imported.
    pub fn of_import(outcome: Result<Imported, ImportFault>) -> Ending
        ensures { result ≡ ending_of_outcome outcome }
    {
        match outcome {
            Ok(imported) => Ending::Imported(imported),
            Err(fault) => Ending::NotImported(fault),
        }
    }

    /// The status that the program ends with.
    pub fn status(self) -> u8
        ensures { result ≡ status_of self }
    {
        match self {
            Ending::Done | Ending::Imported(_) | Ending::Informed(_) => 0,
            Ending::Usage { .. } => 2,
            Ending::NoMemory => 3,
            Ending::ReadFault => 4,
            Ending::DiskFault => 6,
            Ending::NoStore | Ending::StoreExists => 7,
            Ending::Damaged { .. } => 8,
            Ending::BadScript { .. } => 9,
            Ending::TooLong => 13,
            Ending::NotImported(fault) => import_status(fault),
        }
    }

    /// Writes the line that tells why, if the ending has one.
    pub fn put_line<K: Sink>(self, sink: &mut K) -> Result<(), Failed>
        ensures { Writes K.Sink sink.old sink.new result (line_of self) }
    {
        match self {
            Ending::Done => Ok(()),
            Ending::Usage { word } => put_numbers_line(sink, b"error: usage", &[word as u64]),
            Ending::NoMemory => sink.put(b"error: no memory\n"),
            Ending::ReadFault => sink.put(b"error: read fault\n"),
            Ending::DiskFault => sink.put(b"error: disk fault\n"),
            Ending::NoStore => sink.put(b"error: no store\n"),
            Ending::StoreExists => sink.put(b"error: store exists\n"),
            Ending::Damaged { file, at } => {
                put_numbers_line(sink, b"error: damaged", &[u64::from(file), at])
            }
            Ending::BadScript { line, kind } => {
                let numbers = [u64::from(line), u64::from(kind.number())];
                put_numbers_line(sink, b"error: script", &numbers)
            }
            Ending::TooLong => sink.put(b"error: too long\n"),
            Ending::NotImported(fault) => put_import_fault(sink, fault),
            Ending::Imported(imported) => put_imported(sink, imported),
            Ending::Informed(info) => put_informed(sink, &info),
        }
    }
}

// Writes a label, and then each number behind a space, as one line.
fn put_numbers_line<K: Sink>(sink: &mut K, label: &[u8], numbers: &[u64]) -> Result<(), Failed>
    ensures { Writes K.Sink sink.old sink.new result (label.now ++ (numbers_text numbers.now ++ codes "\n")) }
{
    put_numbers(sink, label, numbers)?;
    sink.put(b"\n")
}

// The status of an import that ended before its CAR did.
fn import_status(fault: ImportFault) -> u8
    ensures { result ≡ import_status fault }
{
    match fault {
        ImportFault::NoMemory => 3,
        ImportFault::ReadFault => 4,
        ImportFault::DiskFault => 6,
        ImportFault::BadCar { .. } | ImportFault::BadBlock { .. } => 10,
        ImportFault::LogFull { .. } => 11,
        ImportFault::TableFull { .. } => 12,
        ImportFault::TooLong => 13,
        ImportFault::BadHead { .. } => 16,
    }
}

// Writes why an import ended before its CAR did.
fn put_import_fault<K: Sink>(sink: &mut K, fault: ImportFault) -> Result<(), Failed>
    ensures { Writes K.Sink sink.old sink.new result (import_line fault) }
{
    match fault {
        ImportFault::NoMemory => sink.put(b"error: no memory\n"),
        ImportFault::ReadFault => sink.put(b"error: read fault\n"),
        ImportFault::DiskFault => sink.put(b"error: disk fault\n"),
        ImportFault::BadCar { fault, offset } => put_bad_car(sink, u8::from(fault), offset),
        ImportFault::BadBlock { fault, offset } => put_bad_car(sink, u8::from(fault), offset),
        ImportFault::LogFull { file, need, room } => {
            put_numbers_line(sink, b"error: log full", &[u64::from(file), need, room])
        }
        ImportFault::TableFull { rows } => put_numbers_line(sink, b"error: table full", &[rows]),
        ImportFault::TooLong => sink.put(b"error: too long\n"),
        ImportFault::BadHead { reply } => put_bad_head(sink, reply),
    }
}

fn put_bad_car<K: Sink>(sink: &mut K, number: u8, offset: u64) -> Result<(), Failed>
    ensures { Writes K.Sink sink.old sink.new result (codes "error: car" ++ (numbers_text (number ∷ offset ∷ []) ++ codes "\n")) }
{
    put_numbers_line(sink, b"error: car", &[u64::from(number), offset])
}

fn put_bad_head<K: Sink>(sink: &mut K, reply: HeadReply) -> Result<(), Failed>
    ensures { Writes K.Sink sink.old sink.new result (codes "error: head " ++ (head_reply_text reply ++ codes "\n")) }
{
    sink.put(b"error: head ")?;
    put_head_reply(sink, reply)?;
    sink.put(b"\n")
}

// Writes how many sections and new blocks a CAR had, and the height of the head that was set.
fn put_imported<K: Sink>(sink: &mut K, imported: Imported) -> Result<(), Failed>
    ensures { Writes K.Sink sink.old sink.new result (imported_text imported) }
{
    put_numbers(sink, b"imported", &[imported.sections])?;
    put_numbers(sink, b" new", &[imported.new])?;
    put_height(sink, imported.height)?;
    sink.put(b"\n")
}

// Writes the height of a head, or a dash where none was set.
fn put_height<K: Sink>(sink: &mut K, height: Option<u64>) -> Result<(), Failed>
    ensures { Writes K.Sink sink.old sink.new result (codes " height" ++ height_text height) }
{
    match height {
        Some(height) => put_numbers(sink, b" height", &[height]),
        None => sink.put(b" height -"),
    }
}

// Writes the settings of a store, and what it counts.
fn put_informed<K: Sink>(sink: &mut K, info: &Info) -> Result<(), Failed>
    ensures { Writes K.Sink sink.old sink.new result (informed_text info.now) }
{
    put_settings(sink, &info.config)?;
    sink.put(b"\n")?;
    put_info(sink, info)?;
    sink.put(b"\n")
}
