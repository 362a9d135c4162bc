use std::{fmt, io};

/// What a folder disk asked the system for.
#[derive(Clone, Copy, Debug, PartialEq, Eq)]
pub enum FolderCall {
    /// To open the folder, or to open or make a file.
    Open,
    /// To lock the folder, or a file.
    Lock,
    /// To tell a file's length.
    Size,
    /// To read from a file.
    Read,
    /// To write to a file.
    Write,
    /// To make a file's bytes durable, or a file that was made.
    Sync,
}

impl FolderCall {
    /// The failure of this call on a file, or on the folder itself.
    pub(super) fn refused(self, file: Option<u8>, error: io::Error) -> FolderFailure {
        FolderFailure::Refused {
            file,
            call: self,
            error,
        }
    }
}

impl fmt::Display for FolderCall {
    fn fmt<W: fmt::Write>(&self, f: &mut fmt::Formatter<W>) -> fmt::Result {
        f.write_str(match self {
            FolderCall::Open => "open",
            FolderCall::Lock => "lock",
            FolderCall::Size => "size",
            FolderCall::Read => "read",
            FolderCall::Write => "write",
            FolderCall::Sync => "sync",
        })
    }
}

/// Why a call of a folder disk failed.
#[derive(Clone, Copy, Debug)]
pub enum FolderFailure {
    /// Another disk, of this program or of another, holds the lock of the folder or of a file.
    InUse {
        /// The number of the file; none is the folder itself.
        file: Option<u8>,
    },
    /// The system refused a call.
    Refused {
        /// The number of the file; none is the folder itself.
        file: Option<u8>,
        /// The call.
        call: FolderCall,
        /// The system's error.
        error: io::Error,
    },
}

impl fmt::Display for FolderFailure {
    fn fmt<W: fmt::Write>(&self, f: &mut fmt::Formatter<W>) -> fmt::Result {
        match self {
            FolderFailure::InUse { file: None } => f.write_str("another program uses this store"),
            FolderFailure::InUse { file: Some(file) } => {
                let name = file_name(*file);
                write!(f, "{name}: another program uses this file")
            }
            FolderFailure::Refused { file, call, error } => {
                let name = file.map_or(".", file_name);
                write!(f, "{name}: {call}: {error}")
            }
        }
    }
}

/// The name of a file in the folder, by its number.
pub fn file_name(file: u8) -> &'static str {
    match file {
        0 => "hot-a.log",
        1 => "hot-b.log",
        2 => "cold-a.log",
        3 => "cold-b.log",
        4 => "meta.log",
        _ => "move.log",
    }
}
