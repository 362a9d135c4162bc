//! Standard input, where it is a file.

use ss_cid::{Cid, read_varint};
use std::fs::{self, File};
use std::os::unix::fs::FileExt;
use std::rt::Files;

/// The path of standard input.
const INPUT: &str = "/dev/stdin";

/// Where the system says at which byte standard input stands.
const POSITION: &str = "/proc/self/fdinfo/0";

/// The most bytes that the length and the CID of a section have.
const SECTION_HEAD: usize = 81;

/// A file on standard input: at which byte it stood as the program began, and how many bytes it had from there on.
#[derive(Clone, Copy)]
pub(crate) struct InputFile {
    start: u64,
    len: u64,
}

impl InputFile {
    /// Standard input, if it is a file.
    pub(crate) fn of(rt: &(impl Files<File = File> + AllocGlobal)) -> Option<InputFile> {
        let input = fs::metadata(rt, INPUT).ok()?;
        if !input.is_file() {
            return None;
        }
        let start = position(fs::read_to_string(rt, POSITION).ok()?.as_str())?;
        Some(InputFile {
            start,
            len: input.len().saturating_sub(start),
        })
    }

    /// How many bytes it had.
    pub(crate) fn len(&self) -> u64 {
        self.len
    }

    /// The CID of the section of a CAR that begins at this byte of the input, if it can be read again.
    pub(crate) fn cid_of_section(&self, rt: &impl Files<File = File>, offset: u64) -> Option<Cid> {
        let mut head = [0; SECTION_HEAD];
        let file = File::open(rt, INPUT).ok()?;
        let len = file
            .read_at(&mut head, self.start.checked_add(offset)?)
            .ok()?;
        let (_, before) = read_varint(&head[..len]).ok()?;
        let (cid, _) = Cid::parse(&head[before..len]).ok()?;
        Some(cid)
    }
}

// The byte at which a descriptor stands, by what the system says of it.
fn position(info: &str) -> Option<u64> {
    for line in info.lines() {
        if let Some(position) = line.strip_prefix("pos:") {
            return position.trim().parse().ok();
        }
    }
    None
}
