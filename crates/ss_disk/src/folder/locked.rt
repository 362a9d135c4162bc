//! The folder of a disk, which is locked while a file of it is open, as is each open file.

use super::failure::{FolderCall, FolderFailure, file_name};
use super::store_file::{STREAMS, StoreFile};
use ss_device::NoMemory;
use std::alloc::Global;
use std::fs::{self, File, OpenOptions, TryLockError};
use std::io;
use std::io::ErrorKind;
use std::rt::Files;

/// What a disk over a folder is for.
#[derive(Clone, Copy, Debug, PartialEq, Eq)]
pub enum Access {
    /// To read. Disks that read share their locks, and a file that is missing is not made.
    Read,
    /// To read and to write.
    Write,
}

/// A folder, which is locked before a file of it is opened or made, and stays so.
#[derive(Drop)]
pub struct LockedFolder<R> {
    runtime: R,
    alloc: Global,
    path: String,
    access: Access,
    // The folder itself, open and locked.
    folder: Option<StoreFile>,
    // The folder again, once for each standard stream that is closed: it can be neither read nor written as a stream.
    streams: Vec<File>,
}

impl<R: Files<File = File> + Drop> LockedFolder<R> {
    /// The folder at this path, which is not touched yet.
    pub fn new(
        alloc: Global,
        runtime: R,
        path: &str,
        access: Access,
    ) -> Result<LockedFolder<R>, NoMemory> {
        Ok(LockedFolder {
            runtime,
            alloc,
            path: String::from_str(alloc, path)?,
            access,
            folder: None,
            streams: Vec::new(alloc),
        })
    }

    /// Opens a file of the folder and locks it, since the same file may be linked into another folder. One that is missing
    /// is made, unless the folder is read: then the answer is none.
    pub fn open(&mut self, file: u8) -> Result<Option<StoreFile>, FolderFailure> {
        self.lock_once()?;
        let opened = self
            .open_file(file_name(file))
            .map_err(|error| FolderCall::Open.refused(Some(file), error))?;
        if let Some(opened) = &opened {
            lock(opened, self.access, Some(file))?;
        }
        Ok(opened)
    }

    /// Makes a folder that is read one that is written, by a lock that no other disk shares. The answer is whether it was one
    /// that is read: then its files are to be opened again.
    pub fn claim(&mut self) -> Result<bool, FolderFailure> {
        if !self.is_read() {
            return Ok(false);
        }
        self.lock_once()?;
        if let Some(folder) = &self.folder {
            lock(folder, Access::Write, None)?;
        }
        self.access = Access::Write;
        Ok(true)
    }

    /// Makes durable which files the folder has, where it may have got one.
    pub fn sync(&self) -> Result<(), FolderFailure> {
        match &self.folder {
            Some(folder) if !self.is_read() => folder
                .file()
                .sync_all()
                .map_err(|error| FolderCall::Sync.refused(None, error)),
            _ => Ok(()),
        }
    }

    /// Whether a sync that failed so left nothing undone: the file system of a folder that is read cannot be written, and
    /// so has nothing to sync.
    pub fn has_nothing_to_sync(&self, error: &io::Error) -> bool {
        let kind = error.kind();
        self.is_read() && (kind == ErrorKind::ReadOnlyFilesystem || kind == ErrorKind::InvalidInput)
    }

    fn is_read(&self) -> bool {
        self.access == Access::Read
    }

    // Opens a file for reading and writing. Where the folder is read, it opens one that the system does not let be written for
    // reading, and none where the name is missing; a link whose target is missing is an error.
    fn open_file(&self, name: &str) -> io::Result<Option<StoreFile>> {
        let path = format!(in self.alloc; "{}/{name}", self.path)?;
        match self.open_path(&path, true) {
            Ok(opened) => Ok(Some(opened)),
            Err(error) if self.is_read() && forbids_writing(&error) => {
                Ok(Some(self.open_path(&path, false)?))
            }
            Err(error) if self.is_read() && error.kind() == ErrorKind::NotFound => {
                match fs::symlink_metadata(&self.runtime, &path) {
                    Ok(_) => Err(error),
                    Err(_) => Ok(None),
                }
            }
            Err(error) => Err(error),
        }
    }

    fn open_path(&self, path: &str, is_written: bool) -> io::Result<StoreFile> {
        let opened = OpenOptions::new()
            .read(true)
            .write(is_written)
            .create(!self.is_read())
            .open(&self.runtime, path)?;
        StoreFile::new(opened).map_err(|_| no_descriptor())
    }

    // Locks the folder where it is not locked yet.
    fn lock_once(&mut self) -> Result<(), FolderFailure> {
        if self.folder.is_some() {
            return Ok(());
        }
        let folder = self
            .open_self()
            .map_err(|error| FolderCall::Open.refused(None, error))?;
        lock(&folder, self.access, None)?;
        self.folder = Some(folder);
        Ok(())
    }

    // Opens the folder itself, once for each stream that is closed and once more.
    fn open_self(&mut self) -> io::Result<StoreFile> {
        for _ in 0..=STREAMS {
            match StoreFile::new(File::open(&self.runtime, &self.path)?) {
                Ok(folder) => return Ok(folder),
                Err(stream) => self.streams.push(stream)?,
            }
        }
        Err(no_descriptor())
    }
}

// Locks a file, or the folder itself where it has no number, without waiting.
fn lock(opened: &StoreFile, access: Access, file: Option<u8>) -> Result<(), FolderFailure> {
    let locked = match access {
        Access::Read => opened.file().try_lock_shared(),
        Access::Write => opened.file().try_lock(),
    };
    match locked {
        Ok(()) => Ok(()),
        Err(TryLockError::WouldBlock) => Err(FolderFailure::InUse { file }),
        Err(TryLockError::Error(error)) => Err(FolderCall::Lock.refused(file, error)),
    }
}

// Whether the system does not let the file be written, by its permissions or by those of its file system.
fn forbids_writing(error: &io::Error) -> bool {
    let kind = error.kind();
    kind == ErrorKind::PermissionDenied || kind == ErrorKind::ReadOnlyFilesystem
}

fn no_descriptor() -> io::Error {
    io::Error::other("the system gave a file the descriptor of a standard stream")
}
