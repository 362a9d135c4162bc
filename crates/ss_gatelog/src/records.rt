ghost use Rattle.std.specs.Prelude.{◌≡◌, ◌⊎◌, ◌+◌, ◌^◌, ◌<◌, ◌≤◌, [], ℕ, List, true, false, length, IsTrue, IsOk, IsErr, IfOk};
ghost use Rattle.ss_device.specs.Disk.{Same, Changes, HasCause};
ghost use Rattle.ss_device.specs.Calls.{Goes};
ghost use Rattle.ss_device.specs.Faults.{CountsFault};

use crate::device::synced_size;
use crate::frame::HEAD;
use crate::gate::{Gate, judge};
use crate::window::Window;
use crate::{GateLog, LogFault, RecordsFault};
use ss_device::{Disk, DiskFault};
use std::alloc::Global;
use std::marker::Model;

/// A reader of the records of a log, from the first to the last, in one pass over the file.
///
/// It costs one sync and one size of the file, and a read for each 64 KiB or longer record. It holds no more bytes than those
/// of the longest record and a piece of 64 KiB.
#[derive(Debug, Drop)]
pub struct Records {
    file: u8,
    size: u64,
    limit: u64,
    /// The offset of the next gate.
    at: u64,
    /// The bytes from the lent record on, or from the next gate on where none is lent.
    window: Window,
    /// The length of the lent record, its gate and length included; 0 where none is lent.
    lent: usize,
    ended: bool,
}

impl Model for Records {
    ghost use Rattle.std.specs.Prelude.{◌≡◌, ◌⊎◌, ◌<◌, ◌≤◌, ◌^◌, length, take, drop};
    ghost use Rattle.ss_gatelog.specs.Gate.{Reader};

    ghost Value = { Reader };

    ghost view = { λ r. record { file = r.file; size = r.size; limit = r.limit; at = r.at; body = drop 5 (take r.lent r.window); ahead = drop r.lent r.window; ended = r.ended } };

    ghost invariant = { λ r. (r.file < 6) × (r.limit ≤ 2 ^ 40) × (r.at < r.limit) × ((r.at < r.size) ⊎ (r.at ≡ 0)) × (r.lent ≤ length r.window) × (length r.window ≤ 16842757) };
}

impl Records {
    ghost use Rattle.ss_gatelog.specs.GateLog.{IsSure, Opens};
    ghost use Rattle.ss_gatelog.specs.Gate.{Reader, HasLent, Lends, ReadsOn, ReadsSame};

    /// A reader at the first record of a file, of which no more than `limit` bytes are used. The file is synced first.
    pub fn open<D: Disk>(
        alloc: Global,
        disk: &mut D,
        file: u8,
        limit: u64,
    ) -> Result<Records, DiskFault>
        requires file { file < 6 }
        requires limit { (1 ≤ limit) × (limit ≤ 2 ^ 40) }
        ensures start { IfOk result (λ reader. (reader.file ≡ file) × (reader.limit ≡ limit) × (reader.at ≡ 0)) }
        ensures lent { IsTrue D.told → IfOk result (λ reader. HasLent D.Disk disk.new reader []) }
        ensures known { IfOk result (λ reader. reader.size ≤ D.known disk.new file) }
        ensures goes { Goes D.Disk Same disk.old disk.new }
        ensures cause { HasCause (D.faults disk.old) (D.faults disk.new) result }
    {
        let size = synced_size(disk, file)?;
        Ok(Records {
            file,
            size,
            limit,
            at: 0,
            window: Window::new(alloc),
            lent: 0,
            ended: false,
        })
    }

    /// Reads the next record, and answers the offset of its gate; None at the first closed gate.
    ///
    /// `Damaged` is at the next gate. `NoMemory` or `DiskFault` may come in place of any answer. After a fault the reader
    /// is at the same record, and lends no body.
    pub fn next<D: Disk>(&mut self, disk: &mut D) -> Result<Option<u64>, RecordsFault>
        requires { self.old.size ≤ D.known disk.old self.old.file }
        ensures lends { (records : List (List ℕ)) → IsTrue D.told → HasLent D.Disk disk.old self.old records → Lends D.Disk disk.new self.old self.new records result }
        ensures reaches { ReadsOn self.old self.new result }
        ensures same { ReadsSame self.old self.new }
        ensures little { length self.new.body + length self.new.ahead ≤ 16842757 }
        ensures goes { Goes D.Disk Same disk.old disk.new }
        ensures fault { CountsFault RecordsFault.DiskFault (D.faults disk.old) (D.faults disk.new) result }
    {
        self.window.skip(self.lent);
        self.lent = 0;
        self.ended = false;
        if self.size <= 1 {
            self.ended = true;
            return Ok(None);
        }
        let at = self.at;
        let header = HEAD.min(self.size - at);
        self.window.cover(disk, self.file, at, header, self.size)?;
        match judge(self.window.bytes(), at, self.size, self.limit) {
            Gate::Closed => {
                self.ended = true;
                Ok(None)
            }
            Gate::Unfit => Err(RecordsFault::Damaged { at }),
            Gate::Record { next } => {
                self.window
                    .cover(disk, self.file, at, next - at, self.size)?;
                self.lent = (next - at) as usize;
                self.at = next;
                Ok(Some(at))
            }
            Gate::Cut => unreachable!(),
        }
    }

    /// The body of the record that was read last.
    pub fn body(&self) -> &[u8]
        ensures { result.now ≡ self.now.body }
    {
        let start = self.lent.min(HEAD as usize);
        &self.window.bytes()[start..self.lent]
    }

    /// Changes how many bytes of the file are used. The records that were read lie within them.
    pub fn set_limit(&mut self, limit: u64)
        requires { (self.old.at < limit) × (limit ≤ 2 ^ 40) }
        ensures { self.new ≡ record self.old { limit = limit } }
    {
        self.limit = limit;
    }

    /// The log of the file, once `next` has answered None. A file of less than two bytes is made an empty log; for any other
    /// file the disk is not called.
    pub fn finish<D: Disk>(self, disk: &mut D) -> Result<GateLog, LogFault>
        requires ended { self.ended ≡ true }
        requires known { self.size ≤ D.known disk.old self.file }
        ensures log { IfOk result (λ log. (log.file ≡ self.file) × (log.limit ≡ self.limit) × (log.end ≡ self.at) × (log.unsure ≡ false)) }
        ensures sure { (records : List (List ℕ)) → IsTrue D.told → HasLent D.Disk disk.old self records → IfOk result (λ log. IsSure D.Disk disk.new log records) }
        ensures known { IfOk result (λ log. log.end + 1 ≤ D.known disk.new self.file) }
        ensures same { 1 < self.size → IsOk result × (disk.new ≡ disk.old) }
        ensures goes { (records : List (List ℕ)) → (IsTrue D.told → HasLent D.Disk disk.old self records) → Goes D.Disk (Changes self.file (Opens (D.files disk.old self.file))) disk.old disk.new }
        ensures fault { IsErr result → result ≡ Err LogFault.DiskFault }
        ensures cause { HasCause (D.faults disk.old) (D.faults disk.new) result }
    {
        if self.size <= 1 {
            return GateLog::create(disk, self.file, self.limit);
        }
        Ok(GateLog::sure(self.file, self.limit, self.at))
    }
}
