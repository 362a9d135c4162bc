//! Why a script is not read.

ghost use Rattle.std.specs.Prelude.{◌≡◌};
ghost use Rattle.ss_script.specs.declared.fault.ScriptFault.TheVariants.{NoMemory as no_memory};
ghost use Rattle.ss_script.specs.declared.fault.LineFault.TheVariants.{NoMemory as line_memory, Bad as bad_line};

use ss_cid::NoMemory;
use std::alloc::AllocFailed;

/// What is wrong with a line, by its first field at fault from left to right.
#[derive(Clone, Copy, Debug, PartialEq, Eq)]
pub enum ScriptKind {
    /// The client is no digit below the number of clients.
    BadClient,
    /// The name is that of no call.
    UnknownCall,
    /// A field is missing, empty or one too many.
    BadFields,
    /// A view is no decimal number below 2^32, or has leading zeros.
    BadNumber,
    /// A CID is none, in the form that its first byte asks for.
    BadCid,
    /// The bytes of a block are neither `-` nor hexadecimal.
    BadHex,
    /// The line's number is above [`LINES`](crate::LINES), whatever it holds.
    TooManyLines,
    /// The name is `begin` or `step`, which are not read so far; the fields after it are not judged.
    NotYet,
}

impl ScriptKind {
    ghost use Rattle.std.specs.Prelude.{◌≡◌};
    ghost use Rattle.ss_script.specs.Fault.{kind_number};

    /// The number of the kind in an error line.
    pub fn number(self) -> u8
        ensures { result ≡ kind_number self }
    {
        match self {
            ScriptKind::BadClient => 1,
            ScriptKind::UnknownCall => 2,
            ScriptKind::BadFields => 3,
            ScriptKind::BadNumber => 4,
            ScriptKind::BadCid => 5,
            ScriptKind::BadHex => 6,
            ScriptKind::TooManyLines => 8,
            ScriptKind::NotYet => 9,
        }
    }
}

/// Why a script is not read.
#[derive(Clone, Copy, Debug, PartialEq, Eq)]
pub enum ScriptFault {
    /// The line of this number, from 1, is the first that is not valid.
    Bad { line: u32, kind: ScriptKind },
    /// Out of memory.
    NoMemory,
}

impl<T: Drop> From<AllocFailed<T>> for ScriptFault {
    ghost from_gives = { λ _ fault. fault ≡ no_memory };

    fn from(_: AllocFailed<T>) -> ScriptFault {
        ScriptFault::NoMemory
    }
}

/// Why a line is not read.
#[derive(Clone, Copy, PartialEq, Eq)]
pub(crate) enum LineFault {
    /// The line is not valid.
    Bad(ScriptKind),
    /// Out of memory.
    NoMemory,
}

impl LineFault {
    ghost use Rattle.std.specs.Prelude.{◌≡◌};
    ghost use Rattle.ss_script.specs.Fault.{fault_at};

    /// The fault of the script whose line of this number has this one.
    pub(crate) fn at(self, line: u32) -> ScriptFault
        ensures { result ≡ fault_at line self }
    {
        match self {
            LineFault::Bad(kind) => ScriptFault::Bad { line, kind },
            LineFault::NoMemory => ScriptFault::NoMemory,
        }
    }
}

impl From<ScriptKind> for LineFault {
    ghost from_gives = { λ kind fault. fault ≡ bad_line kind };

    fn from(kind: ScriptKind) -> LineFault {
        LineFault::Bad(kind)
    }
}

impl From<NoMemory> for LineFault {
    ghost from_gives = { λ _ fault. fault ≡ line_memory };

    fn from(_: NoMemory) -> LineFault {
        LineFault::NoMemory
    }
}
