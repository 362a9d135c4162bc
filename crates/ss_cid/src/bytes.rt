//! A row of bytes of its own memory.
ghost use Rattle.std.specs.Prelude.{◌≡◌, ◌<◌, ◌^◌, ◌↔◌, [], ◌++◌, length, IsTrue, IfOk, OnOk, OnErr};

use crate::memory::NoMemory;
use std::alloc::Global;
use std::marker::Model;

/// A row of bytes, which contracts see as a list.
#[derive(Debug, Drop)]
pub struct Bytes {
    buffer: Vec<u8>,
}

impl Model for Bytes {
    ghost use Rattle.std.specs.Prelude.{List, ℕ};

    ghost Value = { List ℕ };

    ghost view = { λ b. b.buffer.items };
}

impl Bytes {
    /// No bytes, which takes no memory.
    pub fn new(alloc: Global) -> Bytes
        ensures { result ≡ [] }
    {
        Bytes {
            buffer: Vec::new(alloc),
        }
    }

    /// A copy of a slice.
    pub fn from_slice(alloc: Global, bytes: &[u8]) -> Result<Bytes, NoMemory>
        ensures { IfOk result (λ copy. copy ≡ bytes.now) }
    {
        Ok(Bytes {
            buffer: Vec::from_slice(alloc, bytes)?,
        })
    }

    /// Appends a slice. Out of memory, the bytes stay as they were.
    pub fn extend(&mut self, bytes: &[u8]) -> Result<(), NoMemory>
        ensures ok { OnOk result (self.new ≡ self.old ++ bytes.now) }
        ensures err { OnErr result (self.new ≡ self.old) }
    {
        self.buffer.extend_from_slice(bytes)?;
        Ok(())
    }

    /// The bytes as a slice.
    pub fn as_slice(&self) -> &[u8]
        ensures value { result.now ≡ self.now }
        ensures few { length self.now < 2 ^ 63 }
    {
        self.buffer.as_slice()
    }

    /// How many bytes there are.
    pub fn len(&self) -> usize
        ensures value { result ≡ length self.now }
        ensures few { result < 2 ^ 63 }
    {
        self.buffer.len()
    }

    /// Whether there is no byte.
    pub fn is_empty(&self) -> bool
        ensures { IsTrue result ↔ (self.now ≡ []) }
    {
        self.buffer.is_empty()
    }

    /// A copy in memory of its own.
    pub fn duplicate(&self) -> Result<Bytes, NoMemory>
        ensures { IfOk result (λ copy. copy ≡ self.now) }
    {
        Ok(Bytes {
            buffer: Vec::from_slice(*self.buffer.allocator(), self.buffer.as_slice())?,
        })
    }
}

/// The bytes of a `Vec`, in the memory that they lie in.
impl From<Vec<u8>> for Bytes {
    ghost from_gives = { λ buffer bytes. bytes ≡ buffer.items };

    fn from(buffer: Vec<u8>) -> Bytes {
        Bytes { buffer }
    }
}

/// The bytes as a `Vec`, in the memory that they lie in.
impl From<Bytes> for Vec<u8> {
    ghost from_gives = { λ bytes buffer. buffer.items ≡ bytes };

    fn from(bytes: Bytes) -> Vec<u8> {
        let Bytes { buffer } = bytes;
        buffer
    }
}
