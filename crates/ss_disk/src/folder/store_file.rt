ghost use Rattle.std.specs.Prelude.{pos, ◌≤ℤ◌};
ghost use Rattle.std.specs.Fd.{file_raw_fd};

use std::fs::File;
use std::os::fd::AsRawFd;

/// How many descriptors are those of the standard streams: 0, 1 and 2.
pub const STREAMS: i32 = 3;

/// An open file whose descriptor is not that of a standard stream.
///
/// Where a stream is closed, the system gives its descriptor to the next file that is opened, and what is printed would
/// then go into that file.
#[derive(Drop)]
pub struct StoreFile {
    file: File,
    ghost apart: { pos 3 ≤ℤ file_raw_fd file },
}

impl StoreFile {
    /// Takes a file, or hands it back where its descriptor is that of a stream.
    pub fn new(file: File) -> Result<StoreFile, File> {
        if file.as_raw_fd() < STREAMS {
            return Err(file);
        }
        Ok(StoreFile { file })
    }

    pub fn file(&self) -> &File {
        &self.file
    }
}
