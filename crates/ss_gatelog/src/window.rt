// Bytes of a file that were read ahead.
ghost use Rattle.std.specs.Prelude.{◌≡◌, ◌⊎◌, ◌+◌, ◌-◌, ◌^◌, ◌<◌, ◌≤◌, ◌++◌, [], ℕ, max, length, drop, slice_range, IsTrue, Err, OnOk, OnErr};
ghost use Rattle.ss_device.specs.Disk.{Same};
ghost use Rattle.ss_device.specs.Calls.{Goes};
ghost use Rattle.ss_gatelog.specs.Gate.{IsPiece};
ghost use Rattle.ss_device.specs.Faults.{CountsFault};

use crate::RecordsFault;
use ss_device::Disk;
use std::alloc::{AllocError, Global};
use std::marker::Model;

/// How many bytes are read at once, or more where a record is longer. A read of each record alone takes three times as long.
const PIECE: u64 = 65_536;

/// A piece of a file: bytes are added at its end and taken away at its start.
#[derive(Debug, Drop)]
pub(crate) struct Window {
    bytes: Vec<u8>,
    /// Where in `bytes` the piece begins, and where it ends.
    start: usize,
    end: usize,
}

impl Model for Window {
    ghost use Rattle.std.specs.Prelude.{◌≤◌, ℕ, List, length, slice_range};

    ghost Value = { List ℕ };

    ghost view = { λ w. slice_range w.bytes.items w.start w.end };

    ghost invariant = { λ w. (w.start ≤ w.end) × (w.end ≤ length w.bytes.items) };
}

impl Window {
    /// No bytes.
    pub(crate) fn new(alloc: Global) -> Window
        ensures { result ≡ [] }
    {
        Window {
            bytes: Vec::new(alloc),
            start: 0,
            end: 0,
        }
    }

    pub(crate) fn bytes(&self) -> &[u8]
        ensures { result.now ≡ self.now }
    {
        &self.bytes[self.start..self.end]
    }

    /// Takes away the first `count` bytes.
    pub(crate) fn skip(&mut self, count: usize)
        requires { count ≤ length self.old }
        ensures { self.new ≡ drop count self.old }
    {
        self.start += count;
    }

    /// Reads on until there are `need` bytes, where the first of them lies at `at` in a file of `size` bytes. It reads no more
    /// than a piece beyond them.
    pub(crate) fn cover<D: Disk>(
        &mut self,
        disk: &mut D,
        file: u8,
        at: u64,
        need: u64,
        size: u64,
    ) -> Result<(), RecordsFault>
        requires file { file < 6 }
        requires range { (at + need ≤ size) × (at ≤ 2 ^ 40) × (need < 2 ^ 40) }
        requires known { size ≤ D.known disk.old file }
        ensures piece { IsTrue D.told → IsPiece (D.files disk.old file) at self.old → IsPiece (D.files disk.old file) at self.new }
        ensures covers { OnOk result (need ≤ length self.new) }
        ensures few { length self.new ≤ max (length self.old) (need + 65536) }
        ensures goes { Goes D.Disk Same disk.old disk.new }
        ensures fault { CountsFault RecordsFault.DiskFault (D.faults disk.old) (D.faults disk.new) result }
        ensures errors { (e : _) → result ≡ Err e → (e ≡ RecordsFault.NoMemory) ⊎ (e ≡ RecordsFault.DiskFault) }
    {
        let held = self.bytes().len() as u64;
        if need <= held {
            return Ok(());
        }
        let more = (need - held).max(PIECE).min(size - at - held);
        self.extend(disk, file, at + held, more as usize)
    }

    /// Adds `more` bytes of a file, which lie at `at`.
    fn extend<D: Disk>(
        &mut self,
        disk: &mut D,
        file: u8,
        at: u64,
        more: usize,
    ) -> Result<(), RecordsFault>
        requires file { file < 6 }
        requires range { (at + more ≤ D.known disk.old file) × (at + more < 2 ^ 62) }
        requires short { length self.old + more < 2 ^ 63 }
        ensures bytes { IsTrue D.told → OnOk result (self.new ≡ self.old ++ slice_range (D.files disk.old file) at (at + more)) }
        ensures length { OnOk result (length self.new ≡ length self.old + more) }
        ensures err { OnErr result (self.new ≡ self.old) }
        ensures goes { Goes D.Disk Same disk.old disk.new }
        ensures fault { CountsFault RecordsFault.DiskFault (D.faults disk.old) (D.faults disk.new) result }
        ensures errors { (e : _) → result ≡ Err e → (e ≡ RecordsFault.NoMemory) ⊎ (e ≡ RecordsFault.DiskFault) }
    {
        let held = self.end - self.start;
        move_to_front(&mut self.bytes, self.start, self.end);
        self.start = 0;
        self.end = held;
        lengthen(&mut self.bytes, held + more)?;
        disk.read(file, at, &mut self.bytes[held..held + more])?;
        self.end = held + more;
        Ok(())
    }
}

/// Moves the bytes from `start` to `end` to the start.
fn move_to_front(bytes: &mut Vec<u8>, start: usize, end: usize)
    requires { (start ≤ end) × (end ≤ length bytes.old.items) }
    ensures front { slice_range bytes.new.items 0 (end - start) ≡ slice_range bytes.old.items start end }
    ensures length { length bytes.new.items ≡ length bytes.old.items }
{
    if start > 0 {
        bytes.copy_within(start..end, 0);
    }
}

/// Makes a buffer at least `len` bytes long.
fn lengthen(bytes: &mut Vec<u8>, len: usize) -> Result<(), AllocError>
    ensures long { OnOk result (len ≤ length bytes.new.items) }
    ensures longer { length bytes.old.items ≤ length bytes.new.items }
    ensures front { (n : ℕ) → n ≤ length bytes.old.items → slice_range bytes.new.items 0 n ≡ slice_range bytes.old.items 0 n }
{
    if bytes.len() < len {
        bytes.resize(len, 0)?;
    }
    Ok(())
}
