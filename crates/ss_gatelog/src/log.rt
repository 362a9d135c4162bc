ghost use Rattle.std.specs.Prelude.{◌≡◌, ◌+◌, ◌-◌, ◌^◌, ◌<◌, ◌≤◌, ◌↔◌, ◌∷◌, ◌++◌, [], ℕ, List, true, false, IsTrue, length, slice_range, Err, Some, None, IsOk, IsErr, IfOk, IfSome, OnOk, OnErr, IsErrOf};
ghost use Rattle.ss_device.specs.Disk.{Torn, Same, Changes, HasCause};
ghost use Rattle.ss_device.specs.Calls.{Goes, Touches, Leaves};
ghost use Rattle.ss_device.specs.Faults.{CountsFault};
ghost use Rattle.ss_gatelog.specs.Log.{longest_body, spelled, HasList, IsDamaged};

use crate::LogFault;
use crate::device::{synced_size, write_synced};
use crate::frame::{CLOSED, HEAD, OPEN, length_of, seal};
use crate::skim::skim;
use ss_device::Disk;
use std::marker::Model;

/// A log of records in one file of a disk.
///
/// A record is a gate of one byte, the length of the body in four bytes, big-endian, and the body;
/// a closed gate stands after the last. A record counts from the moment its gate is open, and the
/// gate is opened only when the record and the closed gate after it are synced.
#[derive(Debug, Drop)]
pub struct GateLog {
    file: u8,
    limit: u64,
    end: u64,
    unsure: bool,
}

impl Model for GateLog {
    ghost use Rattle.std.specs.Prelude.{◌<◌, ◌≤◌, ◌^◌};
    ghost use Rattle.ss_gatelog.specs.GateLog.{Log};

    ghost Value = { Log };

    ghost view = { λ log. record { file = log.file; limit = log.limit; end = log.end; unsure = log.unsure } };

    ghost invariant = { λ log. (log.file < 6) × (log.end < log.limit) × (log.limit ≤ 2 ^ 40) };
}

impl GateLog {
    ghost use Rattle.ss_gatelog.specs.GateLog.{IsSure, Stands, HasEither, Settled, KeepsSettled, Opens, body_of};

    /// Makes the file an empty log. A log takes no more than `limit` bytes of its file.
    ///
    /// `DiskFault`: the file may hold what it held, or an empty log.
    pub fn create<D: Disk>(disk: &mut D, file: u8, limit: u64) -> Result<GateLog, LogFault>
        requires file { file < 6 }
        requires limit { (1 ≤ limit) × (limit ≤ 2 ^ 40) }
        ensures ok { IfOk result (λ log. log ≡ record { file = file; limit = limit; end = 0; unsure = false }) }
        ensures sure { IsTrue D.told → IfOk result (λ log. IsSure D.Disk disk.new log []) }
        ensures known { OnOk result (1 ≤ D.known disk.new file) }
        ensures goes { Goes D.Disk (Changes file (Torn 0 1)) disk.old disk.new }
        ensures fault { IsErr result → result ≡ Err LogFault.DiskFault }
        ensures cause { HasCause (D.faults disk.old) (D.faults disk.new) result }
    {
        write_synced(disk, file, 0, &[CLOSED])?;
        Ok(GateLog {
            file,
            limit,
            end: 0,
            unsure: false,
        })
    }

    /// Opens the log of a file. A file of less than two bytes becomes an empty log.
    ///
    /// First `DiskFault`, then `Damaged` at the first open gate after which no record fits; both leave
    /// the file as it was, unless it was made an empty log.
    pub fn open<D: Disk>(disk: &mut D, file: u8, limit: u64) -> Result<GateLog, LogFault>
        requires file { file < 6 }
        requires limit { (1 ≤ limit) × (limit ≤ 2 ^ 40) }
        ensures ok { IfOk result (λ log. (log.file ≡ file) × (log.limit ≡ limit) × (log.unsure ≡ false)) }
        ensures opened { IsTrue D.told → IfOk result (λ log. (records : List (List ℕ)) × HasList limit (D.files disk.old file) records × IsSure D.Disk disk.new log records) }
        ensures damaged { (at : ℕ) → IsErrOf result (LogFault.Damaged at) → (IsTrue D.told → IsDamaged limit (D.files disk.old file) at) × (at < D.known disk.new file) × (at < limit) }
        ensures known { IfOk result (λ log. log.end + 1 ≤ D.known disk.new file) }
        ensures goes { Goes D.Disk (Changes file (Opens (D.files disk.old file))) disk.old disk.new }
        ensures not_full { (need room : ℕ) → (result ≡ Err (LogFault.LogFull need room)) → ⊥ }
        ensures counts { CountsFault LogFault.DiskFault (D.faults disk.old) (D.faults disk.new) result }
    {
        let size = synced_size(disk, file)?;
        if size <= 1 {
            return GateLog::create(disk, file, limit);
        }
        let end = skim(disk, file, limit, size)?;
        Ok(GateLog::sure(file, limit, end))
    }

    /// The log of a file whose first closed gate is known to stand at `end`.
    pub(crate) fn sure(file: u8, limit: u64, end: u64) -> GateLog
        requires file { file < 6 }
        requires end { (end < limit) × (limit ≤ 2 ^ 40) }
        ensures { result ≡ record { file = file; limit = limit; end = end; unsure = false } }
    {
        GateLog {
            file,
            limit,
            end,
            unsure: false,
        }
    }

    /// Makes a log that is in doubt sure, by closing the gate at its end. So the record of an `append` that is
    /// in doubt does not count then; where a `restart` is in doubt the list becomes empty.
    ///
    /// `DiskFault`: the gate is still in doubt.
    pub fn settle<D: Disk>(&mut self, disk: &mut D) -> Result<(), LogFault>
        requires { self.old.end + 1 ≤ D.known disk.old self.old.file }
        ensures told { (front more : List (List ℕ)) → IsTrue D.told → Stands D.Disk disk.old self.old front more → KeepsSettled D.Disk disk.old disk.new self.old self.new front more result }
        ensures settled { Settled D.Disk disk.old disk.new self.old self.new LogFault.DiskFault result }
    {
        if !self.unsure {
            return Ok(());
        }
        write_synced(disk, self.file, self.end, &[CLOSED])?;
        self.unsure = false;
        Ok(())
    }

    /// Appends a record and answers the offset of its body. The frame is four bytes for the length, the
    /// body, and one byte for the next gate; the first four and the last are filled in here.
    ///
    /// First `LogFull`, which touches nothing; then `DiskFault`, after which the gate at the end may be
    /// in doubt.
    pub fn append<D: Disk>(&mut self, disk: &mut D, frame: &mut [u8]) -> Result<u64, LogFault>
        requires sure { self.old.unsure ≡ false }
        requires frame { 5 ≤ length frame.old }
        requires body { length frame.old ≤ longest_body + 5 }
        requires known { self.old.end + 1 ≤ D.known disk.old self.old.file }
        ensures ok { IfOk result (λ place. (place ≡ self.old.end + 5) × (self.new ≡ record self.old { end = self.old.end + length frame.old })) }
        ensures appended { (records : List (List ℕ)) → IsTrue D.told → IsSure D.Disk disk.old self.old records → OnOk result (IsSure D.Disk disk.new self.new (records ++ body_of frame.old ∷ [])) }
        ensures err { OnErr result (self.new ≡ record self.old { unsure = self.new.unsure }) }
        ensures failed { (records : List (List ℕ)) → IsTrue D.told → IsSure D.Disk disk.old self.old records → OnErr result (Stands D.Disk disk.new self.new records (records ++ body_of frame.old ∷ [])) }
        ensures stops { (records : List (List ℕ)) → IsTrue D.told → IsSure D.Disk disk.old self.old records → Leaves D.Disk self.old.file (HasEither self.old.limit records (records ++ body_of frame.old ∷ [])) disk.old disk.new }
        ensures full { (need room : ℕ) → (result ≡ Err (LogFault.LogFull need room)) ↔ ((need ≡ length frame.old) × (room ≡ self.old.limit - 1 - self.old.end) × (room < need)) }
        ensures untouched { self.old.limit - 1 - self.old.end < length frame.old → (self.new ≡ self.old) × (disk.new ≡ disk.old) × (frame.new ≡ frame.old) }
        ensures counts { CountsFault LogFault.DiskFault (D.faults disk.old) (D.faults disk.new) result }
        ensures not_damaged { (at : ℕ) → IsErrOf result (LogFault.Damaged at) → ⊥ }
        ensures known { self.new.end + 1 ≤ D.known disk.new self.new.file }
        ensures touches { Touches D.Disk self.old.file disk.old disk.new }
        ensures frame { body_of frame.new ≡ body_of frame.old }
    {
        let need = frame.len() as u64;
        let room = self.limit - 1 - self.end;
        if need > room {
            return Err(LogFault::LogFull { need, room });
        }
        seal(frame);
        write_synced(disk, self.file, self.end + 1, frame)?;
        self.unsure = true;
        write_synced(disk, self.file, self.end, &[OPEN])?;
        self.unsure = false;
        let body = self.end + HEAD;
        self.end += need;
        Ok(body)
    }

    /// Empties the log. One that is empty and sure is not touched.
    ///
    /// `DiskFault`: the first gate is in doubt, so the list is the old one or empty, until `settle`.
    pub fn restart<D: Disk>(&mut self, disk: &mut D) -> Result<(), LogFault>
        requires sure { self.old.unsure ≡ false }
        requires known { self.old.end + 1 ≤ D.known disk.old self.old.file }
        ensures empty { self.old.end ≡ 0 → IsOk result × (self.new ≡ self.old) × (disk.new ≡ disk.old) }
        ensures ok { OnOk result (self.new ≡ record self.old { end = 0 }) }
        ensures err { OnErr result (self.new ≡ record self.old { end = 0; unsure = true }) }
        ensures emptied { (records : List (List ℕ)) → IsTrue D.told → IsSure D.Disk disk.old self.old records → OnOk result (IsSure D.Disk disk.new self.new []) }
        ensures failed { (records : List (List ℕ)) → IsTrue D.told → IsSure D.Disk disk.old self.old records → OnErr result (Stands D.Disk disk.new self.new [] records) }
        ensures stops { (records : List (List ℕ)) → IsTrue D.told → IsSure D.Disk disk.old self.old records → Leaves D.Disk self.old.file (HasEither self.old.limit [] records) disk.old disk.new }
        ensures known { self.new.end + 1 ≤ D.known disk.new self.new.file }
        ensures touches { Touches D.Disk self.old.file disk.old disk.new }
        ensures fault { IsErr result → result ≡ Err LogFault.DiskFault }
        ensures cause { HasCause (D.faults disk.old) (D.faults disk.new) result }
    {
        if self.end == 0 {
            return Ok(());
        }
        self.end = 0;
        self.unsure = true;
        write_synced(disk, self.file, 0, &[CLOSED])?;
        self.unsure = false;
        Ok(())
    }

    /// The offset and the length of the body of the record whose gate is at `at`, or none at the end.
    pub fn entry<D: Disk>(&self, disk: &mut D, at: u64) -> Result<Option<(u64, u32)>, LogFault>
        requires place { at ≤ self.now.end }
        requires known { self.now.end + 1 ≤ D.known disk.old self.now.file }
        ensures end { at ≡ self.now.end → result ≡ Ok None }
        ensures record { (front rest more : List (List ℕ)) (body : List ℕ) → IsTrue D.told → Stands D.Disk disk.old self.now (front ++ body ∷ rest) more → at ≡ length (spelled front) → IfOk result (λ entry. entry ≡ Some (at + 5, length body)) }
        ensures within { IfOk result (λ entry. IfSome entry (λ (place, len). (place ≡ at + 5) × (place + len ≤ self.now.end))) }
        ensures reads { Goes D.Disk Same disk.old disk.new }
        ensures fault { IsErr result → result ≡ Err LogFault.DiskFault }
        ensures cause { HasCause (D.faults disk.old) (D.faults disk.new) result }
    {
        let behind = self.end - at;
        if behind < HEAD {
            return Ok(None);
        }
        let mut length = [0u8; 4];
        disk.read(self.file, at + 1, &mut length)?;
        let length = length_of(&length);
        if u64::from(length) > behind - HEAD {
            return Ok(None);
        }
        Ok(Some((at + HEAD, length)))
    }

    /// Fills `out` with the bytes at `at`, which lie before the end. After a fault it may hold anything.
    pub fn read_at<D: Disk>(&self, disk: &mut D, at: u64, out: &mut [u8]) -> Result<(), LogFault>
        requires range { at + length out.old ≤ self.now.end }
        requires known { self.now.end + 1 ≤ D.known disk.old self.now.file }
        ensures bytes { IsTrue D.told → OnOk result (out.new ≡ slice_range (D.files disk.old self.now.file) at (at + length out.new)) }
        ensures reads { Goes D.Disk Same disk.old disk.new }
        ensures fault { IsErr result → result ≡ Err LogFault.DiskFault }
        ensures cause { HasCause (D.faults disk.old) (D.faults disk.new) result }
    {
        disk.read(self.file, at, out)?;
        Ok(())
    }

    /// How many bytes the next record may take, its gate and length included.
    pub fn room(&self) -> u64
        ensures room { result ≡ self.now.limit - 1 - self.now.end }
        ensures within { self.now.end < self.now.limit }
    {
        self.limit - 1 - self.end
    }

    /// The number of the log's file.
    pub fn file(&self) -> u8
        ensures { result ≡ self.now.file }
    {
        self.file
    }

    /// The offset of the first closed gate.
    pub fn end(&self) -> u64
        ensures end { result ≡ self.now.end }
        ensures within { result < self.now.limit }
        ensures small { result < 2 ^ 40 }
    {
        self.end
    }

    /// Whether the state of the gate at the end is in doubt.
    pub fn unsure(&self) -> bool
        ensures { result ≡ self.now.unsure }
    {
        self.unsure
    }
}
