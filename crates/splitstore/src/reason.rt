//! Why a run ended, in words: what its last line says in numbers.

use crate::usage::Usage;
use ss_app::SCRIPT_BYTES;
use ss_cid::Cid;
use ss_disk::file_name;
use std::{fmt, str};

/// The first number of a fault of a CAR that is one of a block.
const FIRST_OF_BLOCK: u64 = 10;

/// Why a run ended.
#[derive(Clone, Copy)]
pub(crate) enum Reason<'a> {
    /// An argument is invalid.
    Usage(Usage<'a>),
    /// A line of the script is invalid.
    Script {
        line: u64,
        kind: u64,
    },
    /// The CAR is invalid, or a block of it, in the part that begins at this byte.
    Car {
        kind: u64,
        offset: u64,
    },
    /// The roots of a CAR are not set as head, by this answer and its number.
    Head {
        answer: &'a str,
        number: u64,
    },
    /// The folder has no store.
    NoStore,
    /// The folder has a store.
    StoreExists,
    /// A file is damaged at this byte.
    Damaged {
        file: &'static str,
        at: u64,
    },
    /// A file has no room for the next record.
    LogFull {
        file: &'static str,
        need: u64,
        room: u64,
    },
    /// More CIDs would be kept than may be.
    TableFull {
        rows: u64,
    },
    /// The script has more bytes than one may have.
    ScriptTooLong,
    /// A section of the CAR ends after the last byte that is read.
    CarTooLong,
}

impl<'a> Reason<'a> {
    /// The reason of a run by its arguments and its last line. A run that ended well has none, and that of one which a
    /// stream, the disk or memory ended is told by these.
    pub(crate) fn of(words: Option<&'a [String]>, line: &'a str) -> Option<Reason<'a>> {
        let text = line.strip_prefix("error: ")?;
        let [first, second, third] = numbers_of(text);
        let mut fields = text.split(' ');
        let reason = match (fields.next()?, fields.next()?) {
            ("usage", _) => Reason::Usage(Usage {
                words,
                index: first as usize,
            }),
            ("script", _) => Reason::Script {
                line: first,
                kind: second,
            },
            ("car", _) => Reason::Car {
                kind: first,
                offset: second,
            },
            ("head", answer) => Reason::Head {
                answer,
                number: first,
            },
            ("no", "store") => Reason::NoStore,
            ("store", _) => Reason::StoreExists,
            ("damaged", _) => Reason::Damaged {
                file: file_name(u8::try_from(first).ok()?),
                at: second,
            },
            ("log", _) => Reason::LogFull {
                file: file_name(u8::try_from(first).ok()?),
                need: second,
                room: third,
            },
            ("table", _) => Reason::TableFull { rows: first },
            ("too", _) if is_import(words) => Reason::CarTooLong,
            ("too", _) => Reason::ScriptTooLong,
            _ => return None,
        };
        Some(reason)
    }

    /// The byte at which the section of a CAR begins whose block is refused.
    pub(crate) fn refused_section(&self) -> Option<u64> {
        match self {
            Reason::Car { kind, offset } if *kind >= FIRST_OF_BLOCK => Some(*offset),
            _ => None,
        }
    }

    /// Whether it is of the folder as a whole.
    pub(crate) fn is_of_folder(&self) -> bool {
        matches!(self, Reason::NoStore | Reason::StoreExists)
    }
}

impl fmt::Display for Reason<'_> {
    fn fmt<W: fmt::Write>(&self, f: &mut fmt::Formatter<W>) -> fmt::Result {
        match self {
            Reason::Usage(usage) => write!(f, "{usage}"),
            Reason::Script { line, kind } => write!(f, "line {line}: {}", script_text(*kind)),
            Reason::Car { kind, offset: 0 } => write!(f, "CAR: header: {}", header_text(*kind)),
            Reason::Car { kind, offset } => {
                write!(f, "CAR: section at {offset}: {}", section_text(*kind))
            }
            Reason::Head { answer, number } => fmt_head(f, answer, *number),
            Reason::NoStore => f.write_str("no store; splitstore init makes one"),
            Reason::StoreExists => f.write_str("there is a store already"),
            Reason::Damaged { file, at } => write!(f, "{file}: damaged at {at}"),
            Reason::LogFull { file, need, room } => {
                write!(
                    f,
                    "{file}: the next record needs {need} bytes, and {room} are free"
                )
            }
            Reason::TableFull { rows } => {
                write!(f, "{rows} CIDs would be kept, more than the setting rows")
            }
            Reason::ScriptTooLong => write!(f, "the script has more than {SCRIPT_BYTES} bytes"),
            Reason::CarTooLong => f.write_str("CAR: a section ends after byte 2^40"),
        }
    }
}

/// A CID as text.
#[derive(Clone, Copy)]
pub(crate) struct CidText(pub(crate) Cid);

impl fmt::Display for CidText {
    fn fmt<W: fmt::Write>(&self, f: &mut fmt::Formatter<W>) -> fmt::Result {
        let mut text = [0; 120];
        let len = self.0.write_text(&mut text);
        f.write_str(str::from_utf8(&text[..len]).unwrap_or(""))
    }
}

// The first three numbers of a line.
fn numbers_of(text: &str) -> [u64; 3] {
    let mut numbers = [0; 3];
    let mut len = 0;
    for field in text.split(' ') {
        if let Ok(number) = field.parse()
            && len < numbers.len()
        {
            numbers[len] = number;
            len += 1;
        }
    }
    numbers
}

fn is_import(words: Option<&[String]>) -> bool {
    words
        .and_then(|words| words.first())
        .is_some_and(|word| word.as_str() == "import")
}

// What is wrong with a line of a script.
fn script_text(kind: u64) -> &'static str {
    match kind {
        1 => "the client is no digit from 0 to 7",
        2 => "no such call",
        3 => "a field is missing, empty or one too many",
        4 => "a view is no decimal number below 2^32",
        5 => "not a CID",
        6 => "a block is neither hexadecimal nor -",
        8 => "the script has more than 100000 lines",
        _ => "begin and step are not there yet",
    }
}

// What is wrong with the header of a CAR.
fn header_text(kind: u64) -> &'static str {
    match kind {
        2 => "the input ends inside it, or is no CAR",
        3 => "no map of roots and version: the input is no CAR, or a compressed one",
        4 => "its version is not 1",
        6 => "its length is above 1048576: the input is no CAR",
        _ => "its length is in no shortest form: the input is no CAR",
    }
}

// What is wrong with a section of a CAR.
fn section_text(kind: u64) -> &'static str {
    match kind {
        2 => "ends before its length says",
        5 => "its length is 0",
        6 => "its length is above 8388608",
        7 => "does not begin with a CID of version 1",
        9 => "its length is in no shortest form",
        10 => "the hash function of its CID is not known",
        11 => "its bytes are not those that its CID names",
        _ => "its bytes are not one DAG-CBOR item",
    }
}

// Says why the roots of a CAR are not set as head.
fn fmt_head<W: fmt::Write>(f: &mut fmt::Formatter<W>, answer: &str, number: u64) -> fmt::Result {
    f.write_str("all blocks are kept, and the head stays: ")?;
    match answer {
        "tipset-empty" => f.write_str("the CAR has no roots"),
        "tipset-too-many" => write!(f, "the CAR has {number} roots, and a head at most 64"),
        "tipset-repeated" => write!(f, "root {number} stands there before"),
        "absent" => write!(f, "the block of root {number} is not kept"),
        "tipset-not-header" => write!(f, "root {number} is no block header"),
        "tipset-height" => write!(f, "root {number} has another height than root 0"),
        "tipset-parents" => write!(f, "root {number} has other parents than root 0"),
        _ => f.write_str(answer),
    }
}
