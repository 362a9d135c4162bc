// A walk over the records of a file, of which only the heads are looked at.
ghost use Rattle.std.specs.Prelude.{◌≡◌, ◌⊎◌, ◌+◌, ◌^◌, ◌<◌, ◌≤◌, ℕ, List, length, IsTrue, Err, IfOk, IsErrOf, slice_range};
ghost use Rattle.ss_device.specs.Calls.{Goes};
ghost use Rattle.ss_device.specs.Disk.{Same};
ghost use Rattle.ss_device.specs.Faults.{CountsFault};
ghost use Rattle.ss_gatelog.specs.Log.{spelled, HasRecords, IsDamaged};
ghost use Rattle.ss_gatelog.specs.Gate.{Walked, Reaches, ReachesWithin};

use crate::LogFault;
use crate::gate::{Gate, judge};
use ss_device::Disk;

/// How many bytes are read at once: a read of each head alone takes three times as long.
const PIECE: usize = 4096;

/// Where a walk ended.
#[derive(Clone, Copy, PartialEq, Eq)]
pub(crate) enum Reached {
    /// A closed gate.
    Closed { at: u64 },
    /// An open gate after which no record fits.
    Unfit { at: u64 },
    /// A gate past the piece, or too near its end.
    Further { at: u64 },
}

/// The offset of the first closed gate of a file of `size` bytes.
pub(crate) fn skim<D: Disk>(disk: &mut D, file: u8, limit: u64, size: u64) -> Result<u64, LogFault>
    requires file { file < 6 }
    requires limit { (1 ≤ limit) × (limit ≤ 2 ^ 40) }
    requires size { (1 < size) × (size ≤ D.known disk.old file) }
    requires read { IsTrue D.told → length (D.files disk.old file) ≡ size }
    ensures ok { IsTrue D.told → IfOk result (λ end. (records : List (List ℕ)) × HasRecords limit (D.files disk.old file) records × (end ≡ length (spelled records))) }
    ensures within { IfOk result (λ end. (end < size) × (end < limit)) }
    ensures damaged { (at : ℕ) → IsErrOf result (LogFault.Damaged at) → (IsTrue D.told → IsDamaged limit (D.files disk.old file) at) × (at < size) × (at < limit) }
    ensures not_full { (need room : ℕ) → (result ≡ Err (LogFault.LogFull need room)) → ⊥ }
    ensures counts { CountsFault LogFault.DiskFault (D.faults disk.old) (D.faults disk.new) result }
    ensures reads { Goes D.Disk Same disk.old disk.new }
{
    let mut piece = [0u8; PIECE];
    let mut at = 0;
    loop {
        let len = (size - at).min(PIECE as u64) as usize;
        disk.read(file, at, &mut piece[..len])?;
        match skim_piece(&piece[..len], at, size, limit) {
            Reached::Closed { at } => return Ok(at),
            Reached::Unfit { at } => return Err(LogFault::Damaged { at }),
            Reached::Further { at: next } => at = next,
        }
    }
}

/// Walks over the heads in a piece that begins with a gate at `at`.
fn skim_piece(piece: &[u8], at: u64, size: u64, limit: u64) -> Reached
    requires some { 1 ≤ length piece.now }
    requires head { (5 ≤ length piece.now) ⊎ (size < at + 5) }
    requires piece { (1 < size) × (at + length piece.now ≤ size) }
    requires limit { (at < limit) × (limit ≤ 2 ^ 40) }
    ensures reaches { (file : List ℕ) → length file ≡ size → piece.now ≡ slice_range file at (at + length piece.now) → Walked limit file at → Reaches limit file result }
    ensures within { ReachesWithin at size limit result }
{
    let mut offset = 0;
    while offset < piece.len() {
        let place = at + offset as u64;
        match judge(&piece[offset..], place, size, limit) {
            Gate::Closed => return Reached::Closed { at: place },
            Gate::Unfit => return Reached::Unfit { at: place },
            Gate::Cut => return Reached::Further { at: place },
            Gate::Record { next } => offset = (next - at) as usize,
        }
    }
    Reached::Further {
        at: at + offset as u64,
    }
}
