ghost use Rattle.std.specs.Prelude.{◌≡◌, ◌+◌, ◌^◌, ◌<◌, ◌≤◌, ◌↔◌, ◌++◌, [], ◌∷◌, ℕ, true, length, IsTrue, IsErr, slice_index, slice_range, Contains, MatchResult, IfOk, OnOk, OnErr};
ghost use Rattle.ss_device.specs.Disk.{Files, Holds, Torn, Same, Changes, Evolves, Raises, HasCause};
ghost use Rattle.ss_disk.specs.Memory.{contents, Replays};
ghost use Rattle.ss_disk.specs.MemoryLaws.{reading_is_image};

mod bytes;
mod call;
mod image;
mod way;

use bytes::{cut_short, overwrite};
pub use call::DeviceCall;
use image::images;
use ss_device::{Disk, DiskFault, FILES, NoMemory, count};
use std::alloc::{AllocError, Global};
use std::array;
use way::Way;

/// A disk in memory that keeps every call, so that it can tell what a crash after any of them leaves.
/// It is for tests: its memory grows with what is written.
#[derive(Debug, Drop)]
pub struct MemoryDisk {
    alloc: Global,
    first: [Vec<u8>; FILES],
    current: [Vec<u8>; FILES],
    known: [u64; FILES],
    calls: Vec<DeviceCall>,
    failing: Vec<u64>,
    faults: u64,
    ghost replays: { Replays first current known calls.items },
}

impl MemoryDisk {
    ghost use Rattle.ss_disk.specs.MemoryDisk.{files_of, moment_of, image_of, listed, IsFresh, SameButListed, Counts, Notes, Writes};
    ghost use Rattle.ss_disk.specs.declared.memory.call.DeviceCall.TheVariants.{Asked};

    /// A disk of six empty files, of which no call is to fail.
    pub fn new(alloc: Global) -> Result<MemoryDisk, NoMemory>
        ensures fresh { IfOk result IsFresh }
        ensures empty { IfOk result (λ disk. (file : ℕ) → files_of disk file ≡ []) }
    {
        Ok(MemoryDisk {
            alloc,
            first: empty_files(alloc),
            current: empty_files(alloc),
            known: [0; FILES],
            calls: Vec::new(alloc),
            failing: Vec::new(alloc),
            faults: 0,
        })
    }

    /// Lets the call of this number fail, where calls count from 0.
    pub fn fail_at(&mut self, call: u64) -> Result<(), NoMemory>
        ensures listed { OnOk result (listed self.new ≡ listed self.old ++ call ∷ []) }
        ensures not_listed { OnErr result (listed self.new ≡ listed self.old) }
        ensures same { SameButListed self.old self.new }
    {
        self.failing.push(call)?;
        Ok(())
    }

    /// One image that a crash now may leave, picked by the number, as a disk on which nothing is pending.
    ///
    /// Its known lengths begin at 0, so a `size` comes before a read. It has counted no calls and no faults, and no
    /// call of it is to fail. By 0 to 5 each write that is not synced goes the same way: it is lost, it is whole, its
    /// first half is there, or its range is filled with `a5`, `ff` or `5a`. By each other number it goes its own way.
    pub fn crash(&self, alloc: Global, choice: u64) -> Result<MemoryDisk, NoMemory>
        ensures fresh { IfOk result IsFresh }
        ensures image { IfOk result (λ disk. image_of self.now (moment_of self.now) (files_of disk)) }
    {
        self.crash_at(alloc, self.calls(), choice)
    }

    /// In the same way, one image of the moment after the first `call` calls. Its known lengths begin at 0 too, and
    /// it has counted no calls and no faults.
    pub fn crash_at(&self, alloc: Global, call: u64, choice: u64) -> Result<MemoryDisk, NoMemory>
        requires { call ≤ moment_of self.now }
        ensures fresh { IfOk result IsFresh }
        ensures image { IfOk result (λ disk. image_of self.now call (files_of disk)) }
    {
        let files = images(alloc, &self.first, &self.calls[..call as usize], choice)?;
        Ok(MemoryDisk::holding(alloc, files)?)
    }

    // A disk that holds these files, on which nothing is pending.
    fn holding(alloc: Global, first: [Vec<u8>; FILES]) -> Result<MemoryDisk, AllocError>
        requires { length first ≡ 6 }
        ensures fresh { IfOk result IsFresh }
        ensures files { IfOk result (λ disk. (file : ℕ) → files_of disk file ≡ contents first file) }
    {
        let current = copies(alloc, &first)?;
        Ok(MemoryDisk {
            alloc,
            first,
            current,
            known: [0; FILES],
            calls: Vec::new(alloc),
            failing: Vec::new(alloc),
            faults: 0,
        })
    }

    /// How many calls were made.
    pub fn calls(&self) -> u64
        ensures { result ≡ moment_of self.now }
    {
        self.calls.len() as u64
    }

    // What a read of a file gives.
    fn content(&self, file: u8) -> &[u8]
        requires { file < 6 }
        ensures { result.now ≡ files_of self.now file }
    {
        &self.current[file as usize]
    }

    fn fails_next(&self) -> bool
        ensures { IsTrue result ↔ Contains (listed self.now) (moment_of self.now) }
    {
        self.failing.contains(&(self.calls.len() as u64))
    }

    // A call that only asks.
    fn ask(&mut self) -> Result<(), DiskFault>
        ensures noted { Notes Asked self.old self.new }
        ensures cause { HasCause self.old.faults self.new.faults result }
        ensures counts { Counts self.old self.new result }
    {
        let fails = self.fails_next();
        if self.calls.push(DeviceCall::Asked).is_err() || fails {
            return Err(count(&mut self.faults));
        }
        Ok(())
    }

    // A write that leaves these bytes, and misses so many behind them.
    fn put(&mut self, file: u8, at: u64, left: Vec<u8>, missing: u64) -> Result<(), AllocError>
        requires file { file < 6 }
        requires place { at ≤ slice_index self.old.known file }
        ensures ok { OnOk result (Changes file (Holds at left.items) (files_of self.old) (files_of self.new)) }
        ensures writes { Writes file at (length left.items + missing) self.old self.new }
        ensures known { self.new.known ≡ self.old.known }
        ensures faults { self.new.faults ≡ self.old.faults }
        ensures records { MatchResult result (λ _. moment_of self.new ≡ moment_of self.old + 1) (λ _. moment_of self.new ≡ moment_of self.old) }
        ensures failing { self.new.failing ≡ self.old.failing }
    {
        self.calls.reserve(1)?;
        overwrite_file(&mut self.current, file, at, &left)?;
        let call = DeviceCall::Wrote {
            file,
            at,
            left,
            missing,
        };
        self.calls.push(call).unwrap();
        Ok(())
    }

    fn put_whole(&mut self, file: u8, at: u64, bytes: &[u8]) -> Result<(), AllocError>
        requires file { file < 6 }
        requires place { at ≤ slice_index self.old.known file }
        requires end { at + length bytes.now < 2 ^ 62 }
        ensures ok { OnOk result (Changes file (Holds at bytes.now) (files_of self.old) (files_of self.new)) }
        ensures writes { Writes file at (length bytes.now) self.old self.new }
        ensures known { OnOk result (Raises file (at + length bytes.now) (slice_index self.old.known) (slice_index self.new.known)) }
        ensures known_err { OnErr result (self.new.known ≡ self.old.known) }
        ensures faults { self.new.faults ≡ self.old.faults }
        ensures records { MatchResult result (λ _. moment_of self.new ≡ moment_of self.old + 1) (λ _. moment_of self.new ≡ moment_of self.old) }
        ensures failing { self.new.failing ≡ self.old.failing }
    {
        let left = bytes.to_vec(self.alloc)?;
        self.put(file, at, left, 0)?;
        let known = &mut self.known[file as usize];
        *known = (*known).max(at + bytes.len() as u64);
        Ok(())
    }

    fn put_torn(&mut self, file: u8, at: u64, bytes: &[u8]) -> Result<(), AllocError>
        requires file { file < 6 }
        requires place { at ≤ slice_index self.old.known file }
        ensures writes { Writes file at (length bytes.now) self.old self.new }
        ensures known { self.new.known ≡ self.old.known }
        ensures faults { self.new.faults ≡ self.old.faults }
        ensures records { MatchResult result (λ _. moment_of self.new ≡ moment_of self.old + 1) (λ _. moment_of self.new ≡ moment_of self.old) }
        ensures failing { self.new.failing ≡ self.old.failing }
    {
        let left = cut_short(self.alloc, bytes, Way::of(self.calls.len() as u64))?;
        let missing = bytes.len() - left.len();
        self.put(file, at, left, missing as u64)
    }
}

impl Disk for MemoryDisk {
    ghost use Rattle.ss_disk.specs.MemoryDisk.{files_of, moment_of, image_of, Counts, KeepsImages};

    ghost told = { true };

    ghost files = { files_of };

    ghost moment = { moment_of };

    ghost image = { image_of };

    ghost known = { λ disk file. slice_index disk.known file };

    ghost faults = { λ disk. disk.faults };

    ghost reads_as_image = { λ disk told. reading_is_image disk.first disk.current disk.known disk.calls.items disk.replays };

    ghost known_within = { λ disk file told. disk.replays.within file };

    fn size(&mut self, file: u8) -> Result<u64, DiskFault>
        requires { file < 6 }
        ensures length { IfOk result (λ n. n ≡ length (files_of self.old file)) }
        ensures known { IfOk result (λ n. (slice_index self.old.known file ≤ n) × Raises file n (slice_index self.old.known) (slice_index self.new.known)) }
        ensures known_err { OnErr result (slice_index self.new.known ≡ slice_index self.old.known) }
        ensures reads { Same (files_of self.old) (files_of self.new) }
        ensures images { Evolves (moment_of self.old) (image_of self.old) (moment_of self.new) (image_of self.new) Same }
        ensures cause { HasCause self.old.faults self.new.faults result }
        ensures counts { Counts self.old self.new result }
    {
        self.ask()?;
        let len = self.content(file).len() as u64;
        self.known[file as usize] = len;
        Ok(len)
    }

    fn read(&mut self, file: u8, at: u64, out: &mut [u8]) -> Result<(), DiskFault>
        requires file { file < 6 }
        requires range { at + length out.old ≤ slice_index self.old.known file }
        requires end { at + length out.old < 2 ^ 62 }
        ensures bytes { OnOk result (out.new ≡ slice_range (files_of self.old file) at (at + length out.old)) }
        ensures known { slice_index self.new.known ≡ slice_index self.old.known }
        ensures reads { Same (files_of self.old) (files_of self.new) }
        ensures images { Evolves (moment_of self.old) (image_of self.old) (moment_of self.new) (image_of self.new) Same }
        ensures cause { HasCause self.old.faults self.new.faults result }
        ensures counts { Counts self.old self.new result }
    {
        self.ask()?;
        let at = at as usize;
        let end = at + out.len();
        out.copy_from_slice(&self.content(file)[at..end]);
        Ok(())
    }

    fn write(&mut self, file: u8, at: u64, bytes: &[u8]) -> Result<(), DiskFault>
        requires file { file < 6 }
        requires place { at ≤ slice_index self.old.known file }
        requires end { at + length bytes.now < 2 ^ 62 }
        ensures written { OnOk result (Changes file (Holds at bytes.now) (files_of self.old) (files_of self.new)) }
        ensures torn { Changes file (Torn at (length bytes.now)) (files_of self.old) (files_of self.new) }
        ensures images { Evolves (moment_of self.old) (image_of self.old) (moment_of self.new) (image_of self.new) (Changes file (Torn at (length bytes.now))) }
        ensures known { OnOk result (Raises file (at + length bytes.now) (slice_index self.old.known) (slice_index self.new.known)) }
        ensures known_err { OnErr result (slice_index self.new.known ≡ slice_index self.old.known) }
        ensures cause { HasCause self.old.faults self.new.faults result }
        ensures counts { Counts self.old self.new result }
        ensures keeps { KeepsImages self.old self.new }
    {
        if self.fails_next() {
            let _ = self.put_torn(file, at, bytes);
            return Err(count(&mut self.faults));
        }
        match self.put_whole(file, at, bytes) {
            Ok(()) => Ok(()),
            Err(_) => Err(count(&mut self.faults)),
        }
    }

    fn sync(&mut self, file: u8) -> Result<(), DiskFault>
        requires { file < 6 }
        ensures durable { OnOk result ((left : Files) → image_of self.new (moment_of self.new) left → left file ≡ files_of self.new file) }
        ensures known { slice_index self.new.known ≡ slice_index self.old.known }
        ensures reads { Same (files_of self.old) (files_of self.new) }
        ensures images { Evolves (moment_of self.old) (image_of self.old) (moment_of self.new) (image_of self.new) Same }
        ensures cause { HasCause self.old.faults self.new.faults result }
        ensures counts { Counts self.old self.new result }
        ensures keeps { IsErr result → KeepsImages self.old self.new }
    {
        if self.fails_next() {
            let _ = self.calls.push(DeviceCall::Asked);
            return Err(count(&mut self.faults));
        }
        if self.calls.push(DeviceCall::Synced { file }).is_err() {
            return Err(count(&mut self.faults));
        }
        Ok(())
    }

    fn faults(&self) -> u64 {
        self.faults
    }
}

fn overwrite_file(
    files: &mut [Vec<u8>; FILES],
    file: u8,
    at: u64,
    bytes: &[u8],
) -> Result<(), AllocError>
    requires six { length files.old ≡ 6 }
    requires file { file < 6 }
    requires place { at ≤ length (contents files.old file) }
    ensures ok { OnOk result (Changes file (Holds at bytes.now) (contents files.old) (contents files.new)) }
    ensures err { OnErr result ((g : ℕ) → contents files.new g ≡ contents files.old g) }
    ensures six { length files.new ≡ 6 }
{
    overwrite(&mut files[file as usize], at as usize, bytes)
}

fn copies(alloc: Global, files: &[Vec<u8>; FILES]) -> Result<[Vec<u8>; FILES], AllocError>
    requires { length files.now ≡ 6 }
    ensures { IfOk result (λ copies. (file : ℕ) → contents copies file ≡ contents files.now file) }
{
    Ok([
        copy(alloc, files, 0)?,
        copy(alloc, files, 1)?,
        copy(alloc, files, 2)?,
        copy(alloc, files, 3)?,
        copy(alloc, files, 4)?,
        copy(alloc, files, 5)?,
    ])
}

fn copy(alloc: Global, files: &[Vec<u8>; FILES], file: u8) -> Result<Vec<u8>, AllocError>
    requires six { length files.now ≡ 6 }
    requires file { file < 6 }
    ensures { IfOk result (λ copy. copy.items ≡ contents files.now file) }
{
    files[file as usize].to_vec(alloc)
}

fn empty_files(alloc: Global) -> [Vec<u8>; FILES]
    ensures { (file : ℕ) → contents result file ≡ [] }
{
    array::from_fn(|_| Vec::new(alloc))
}
