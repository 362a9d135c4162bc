ghost use Rattle.std.specs.Prelude.{◌≡◌, ◌+◌, ◌^◌, ◌<◌, ◌≤◌, ◌↔◌, [], false, length, slice_index, IsSome, IsErr, IfOk, OnOk, OnErr};
ghost use Rattle.ss_device.specs.Disk.{Rose, Raises, HasCause};

mod failure;
mod locked;
mod store_file;

pub use failure::{FolderCall, FolderFailure, file_name};
pub use locked::Access;
use locked::LockedFolder;
use ss_device::{Disk, DiskFault, FILES, NoMemory, count};
use std::alloc::Global;
use std::fs::File;
use std::io::ErrorKind;
use std::os::unix::fs::FileExt;
use std::rt::Files;
use std::{array, io};
use store_file::StoreFile;

/// A disk over a folder: six files, each opened or made at the first call that names it.
///
/// The first call locks the folder, by the system's advisory lock and without waiting, for as long as the disk lives.
/// Where another disk holds the lock, each call fails and touches nothing. Each file is locked too as it is opened, since
/// the same file may be linked into two folders; where another disk has it open, the call fails. No file has the
/// descriptor of a standard stream, also where one is closed. Once a sync of a file has failed, each later one fails too:
/// the system may drop bytes that it could not write, and tell so only once. The first failure is remembered.
///
/// A disk for reading shares its locks with other such disks, reads a missing file as an empty one, and reads also what the
/// system does not let it write. Its first write makes it a disk for writing: it takes the locks for itself, and opens the
/// files anew.
///
/// Only the bounds, the known lengths, the count of faults, the descriptors and the failing syncs are proved. The rest of
/// what `Disk` asks for is trusted of the operating system and the device: a read gives what was written; a range that
/// was synced stays; a write that failed leaves other ranges alone; what a read gives when a file is opened is durable
/// once it was synced; a file that was made is there after a crash; and nobody else writes the files.
#[derive(Drop)]
pub struct FolderDisk<R> {
    folder: LockedFolder<R>,
    files: [Option<StoreFile>; FILES],
    known: [u64; FILES],
    // The files of which a sync has failed.
    lost: [bool; FILES],
    faults: u64,
    failure: Option<FolderFailure>,
    ghost remembered: { IsSome failure ↔ (0 < faults) },
}

impl<R: Files<File = File> + Drop> FolderDisk<R> {
    ghost use Rattle.std.specs.Prelude.{option_copied};
    ghost use Rattle.ss_disk.specs.FolderDisk.{known_of, faults_of, HasLost, Remembers, Asks};

    /// The disk over this folder. It touches no file yet.
    pub fn new(
        alloc: Global,
        runtime: R,
        folder: &str,
        access: Access,
    ) -> Result<FolderDisk<R>, NoMemory>
        ensures known { IfOk result (λ disk. known_of disk ≡ λ _. 0) }
        ensures faults { IfOk result (λ disk. faults_of disk ≡ 0) }
    {
        Ok(FolderDisk {
            folder: LockedFolder::new(alloc, runtime, folder, access)?,
            files: array::from_fn(|_| None),
            known: [0; FILES],
            lost: [false; FILES],
            faults: 0,
            failure: None,
        })
    }

    /// Why a call failed, where one has: the first of them.
    pub fn failure(&self) -> Option<&FolderFailure>
        ensures some { IsSome result ↔ (0 < faults_of self.now) }
        ensures value { option_copied result ≡ self.now.failure }
    {
        self.failure.as_ref()
    }

    // Opens the file where it is not open yet, so that one that is made is there after a crash too.
    fn open_once(&mut self, file: u8) -> Result<(), FolderFailure>
        requires { file < 6 }
        ensures { Asks self.old self.new }
    {
        if self.files[file as usize].is_none() {
            let opened = self.folder.open(file)?;
            self.sync_folder(file)?;
            self.files[file as usize] = opened;
        }
        Ok(())
    }

    // Makes a disk for reading one for writing.
    fn claim(&mut self) -> Result<(), FolderFailure>
        ensures { Asks self.old self.new }
    {
        if self.folder.claim()? {
            self.files = array::from_fn(|_| None);
        }
        Ok(())
    }

    // Makes durable that the folder has the file. Where that fails it counts as a failed sync of the file.
    fn sync_folder(&mut self, file: u8) -> Result<(), FolderFailure>
        requires { file < 6 }
        ensures asks { Asks self.old self.new }
        ensures lost { IsErr result → HasLost self.new file }
    {
        let synced = self.folder.sync();
        if synced.is_err() {
            self.lost[file as usize] = true;
        }
        synced
    }

    // The file, where it is open: a disk for reading has no file that is missing.
    fn opened(&self, file: u8) -> Option<&File>
        requires { file < 6 }
    {
        self.files[file as usize].as_ref().map(StoreFile::file)
    }

    // How long the file is, where that can be told.
    fn len_of(&self, file: u8) -> io::Result<u64>
        requires { file < 6 }
    {
        match self.opened(file) {
            Some(opened) => Ok(opened.metadata()?.len()),
            None => Ok(0),
        }
    }

    fn try_size(&mut self, file: u8) -> Result<u64, FolderFailure>
        requires { file < 6 }
        ensures asks { Asks self.old self.new }
        ensures no_shorter { IfOk result (λ size. slice_index self.old.known file ≤ size) }
    {
        self.open_once(file)?;
        match self.len_of(file) {
            Ok(len) if len >= self.known[file as usize] => Ok(len),
            Ok(_) => {
                let error = io::Error::other("the file became shorter");
                Err(FolderCall::Size.refused(Some(file), error))
            }
            Err(error) => Err(FolderCall::Size.refused(Some(file), error)),
        }
    }

    fn try_read(&mut self, file: u8, at: u64, out: &mut [u8]) -> Result<(), FolderFailure>
        requires { file < 6 }
        ensures { Asks self.old self.new }
    {
        self.open_once(file)?;
        let read = match self.opened(file) {
            Some(opened) => opened.read_exact_at(out, at),
            None if out.is_empty() => Ok(()),
            None => Err(io::Error::from(ErrorKind::NotFound)),
        };
        read.map_err(|error| FolderCall::Read.refused(Some(file), error))
    }

    fn try_write(&mut self, file: u8, at: u64, bytes: &[u8]) -> Result<(), FolderFailure>
        requires { file < 6 }
        ensures { Asks self.old self.new }
    {
        self.claim()?;
        self.open_once(file)?;
        let written = match self.opened(file) {
            Some(opened) => opened.write_all_at(bytes, at),
            None => Err(io::Error::from(ErrorKind::NotFound)),
        };
        written.map_err(|error| FolderCall::Write.refused(Some(file), error))
    }

    fn try_sync(&mut self, file: u8) -> Result<(), FolderFailure>
        requires { file < 6 }
        ensures asks { Asks self.old self.new }
        ensures remembered { HasLost self.old file → IsErr result }
        ensures lost { IsErr result → HasLost self.new file }
    {
        let synced = self.sync_once_more(file);
        if synced.is_err() {
            self.lost[file as usize] = true;
        }
        synced
    }

    fn sync_once_more(&mut self, file: u8) -> Result<(), FolderFailure>
        requires { file < 6 }
        ensures asks { Asks self.old self.new }
        ensures remembered { HasLost self.old file → IsErr result }
    {
        self.open_once(file)?;
        if self.lost[file as usize] {
            let error = io::Error::other("a sync of the file failed before");
            return Err(FolderCall::Sync.refused(Some(file), error));
        }
        let synced = match self.opened(file) {
            Some(opened) => opened.sync_data(),
            None => Ok(()),
        };
        match synced {
            Err(error) if !self.folder.has_nothing_to_sync(&error) => {
                Err(FolderCall::Sync.refused(Some(file), error))
            }
            _ => Ok(()),
        }
    }

    // Counts a fault, and remembers the first.
    fn fail(&mut self, failure: FolderFailure) -> DiskFault
        ensures rose { Rose (faults_of self.old) (faults_of self.new) }
        ensures later { faults_of self.old ≤ faults_of self.new }
        ensures known { self.new.known ≡ self.old.known }
        ensures keeps { Remembers self.old self.new }
    {
        if self.failure.is_none() {
            self.failure = Some(failure);
        }
        count(&mut self.faults)
    }
}

impl<R: Files<File = File> + Drop> Disk for FolderDisk<R> {
    ghost use Rattle.ss_disk.specs.FolderDisk.{known_of, faults_of, HasLost, Remembers};

    ghost told = { false };

    ghost files = { λ _ _. [] };

    ghost moment = { λ _. 0 };

    ghost image = { λ _ _ _. ⊥ };

    ghost known = { known_of };

    ghost faults = { faults_of };

    ghost reads_as_image = { λ disk told. absurd (Prim.cc) };

    ghost known_within = { λ disk file told. absurd (Prim.cc) };

    fn size(&mut self, file: u8) -> Result<u64, DiskFault>
        requires { file < 6 }
        ensures known { IfOk result (λ n. (known_of self.old file ≤ n) × Raises file n (known_of self.old) (known_of self.new)) }
        ensures known_err { OnErr result (known_of self.new ≡ known_of self.old) }
        ensures cause { HasCause (faults_of self.old) (faults_of self.new) result }
        ensures keeps { Remembers self.old self.new }
    {
        match self.try_size(file) {
            Ok(size) => {
                self.known[file as usize] = size;
                Ok(size)
            }
            Err(failure) => Err(self.fail(failure)),
        }
    }

    fn read(&mut self, file: u8, at: u64, out: &mut [u8]) -> Result<(), DiskFault>
        requires file { file < 6 }
        requires range { at + length out.old ≤ known_of self.old file }
        requires end { at + length out.old < 2 ^ 62 }
        ensures known { known_of self.new ≡ known_of self.old }
        ensures cause { HasCause (faults_of self.old) (faults_of self.new) result }
        ensures keeps { Remembers self.old self.new }
    {
        match self.try_read(file, at, out) {
            Ok(()) => Ok(()),
            Err(failure) => Err(self.fail(failure)),
        }
    }

    fn write(&mut self, file: u8, at: u64, bytes: &[u8]) -> Result<(), DiskFault>
        requires file { file < 6 }
        requires place { at ≤ known_of self.old file }
        requires end { at + length bytes.now < 2 ^ 62 }
        ensures known { OnOk result (Raises file (at + length bytes.now) (known_of self.old) (known_of self.new)) }
        ensures known_err { OnErr result (known_of self.new ≡ known_of self.old) }
        ensures cause { HasCause (faults_of self.old) (faults_of self.new) result }
        ensures keeps { Remembers self.old self.new }
    {
        match self.try_write(file, at, bytes) {
            Ok(()) => {
                let known = &mut self.known[file as usize];
                *known = (*known).max(at + bytes.len() as u64);
                Ok(())
            }
            Err(failure) => Err(self.fail(failure)),
        }
    }

    fn sync(&mut self, file: u8) -> Result<(), DiskFault>
        requires { file < 6 }
        ensures known { known_of self.new ≡ known_of self.old }
        ensures cause { HasCause (faults_of self.old) (faults_of self.new) result }
        ensures remembered { HasLost self.old file → IsErr result }
        ensures lost { IsErr result → HasLost self.new file }
        ensures keeps { Remembers self.old self.new }
    {
        match self.try_sync(file) {
            Ok(()) => Ok(()),
            Err(failure) => Err(self.fail(failure)),
        }
    }

    fn faults(&self) -> u64 {
        self.faults
    }
}
