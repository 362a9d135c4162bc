//! Reading a source to its end.

ghost use Rattle.std.specs.Prelude.{◌≡◌, ◌<◌, ◌≤◌, vec_len, length, Err, IfOk};
ghost use Rattle.std.specs.Option.{ForSome};
ghost use Rattle.std.specs.Io.KnownBytes.{Consumes, IsAtEnd};
ghost use Rattle.ss_device.specs.Faults.{CountsFault};

use crate::{Failed, Source};
use ss_cid::NoMemory;
use std::alloc::{AllocError, Global};

/// How many bytes are read at a time.
const PIECE_BYTES: usize = 65536;

/// Why a source was not read to its end.
#[derive(Clone, Copy, Debug, PartialEq, Eq)]
pub enum ReadAllFault {
    /// The source failed.
    Failed,
    /// The source has more bytes than were allowed.
    TooLong,
    /// Out of memory.
    NoMemory,
}

impl From<Failed> for ReadAllFault {
    ghost use Rattle.std.specs.Prelude.{◌≡◌};
    ghost use Rattle.ss_io.specs.declared.whole.ReadAllFault.TheVariants.{Failed as failed};

    ghost from_gives = { λ _ fault. fault ≡ failed };

    fn from(_failed: Failed) -> ReadAllFault {
        ReadAllFault::Failed
    }
}

impl From<AllocError> for ReadAllFault {
    ghost use Rattle.std.specs.Prelude.{◌≡◌};
    ghost use Rattle.ss_io.specs.declared.whole.ReadAllFault.TheVariants.{NoMemory as no_memory};

    ghost from_gives = { λ _ fault. fault ≡ no_memory };

    fn from(_refused: AllocError) -> ReadAllFault {
        ReadAllFault::NoMemory
    }
}

/// Reads a source to its end, or until it has given more than `limit` bytes. The source is read by pieces of 65,536 bytes, so
/// up to a piece more may have been taken from it.
pub fn read_all<S: Source>(
    alloc: Global,
    source: &mut S,
    limit: usize,
) -> Result<Vec<u8>, ReadAllFault>
    ensures all { IfOk result (λ bytes. Consumes (S.left source.old) (S.left source.new) bytes.items × IsAtEnd (S.left source.new)) }
    ensures within { IfOk result (λ bytes. vec_len bytes ≤ limit) }
    ensures counts { CountsFault ReadAllFault.Failed (S.faults source.old) (S.faults source.new) result }
    ensures too_long { result ≡ Err ReadAllFault.TooLong → ForSome (S.left source.old) (λ bytes. limit < length bytes) }
    ensures place { S.place source.new ≡ S.place source.old }
{
    let mut bytes = Vec::new(alloc);
    let mut piece = [0; PIECE_BYTES];
    'bytes: while bytes.len() <= limit {
        let count = source.read(&mut piece)?;
        if count == 0 {
            return Ok(bytes);
        }
        bytes.extend_from_slice(&piece[..count])?;
    }
    Err(ReadAllFault::TooLong)
}
