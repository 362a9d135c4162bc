//! Writing items part by part.
ghost use Rattle.std.specs.Prelude.{◌≡◌, ◌+◌, ◌<◌, ◌≤◌, ◌^◌, [], ◌∷◌, ◌++◌, length, vec_len, vec_capacity, OnOk, OnErr};
ghost use Rattle.ss_cbor.specs.Item.{head};

use crate::major::{ARRAY, BYTES, LINK_TAG, MAP, TAG, TEXT, UNSIGNED};
use ss_cid::{Bytes, Cid, NoMemory};
use std::alloc::Global;
use std::marker::Model;

/// The most bytes that a head has.
const MAX_HEAD: usize = 9;

/// Writes items part by part, each head in its shortest form. The caller makes sure that as many items follow
/// an array or a map as it holds. Out of memory, what was written stays as it was.
#[derive(Debug, Drop)]
pub struct Writer {
    out: Vec<u8>,
}

impl Model for Writer {
    ghost use Rattle.std.specs.Prelude.{List, ℕ};

    ghost Value = { List ℕ };

    ghost view = { λ w. w.out.items };
}

impl Writer {
    /// Nothing yet, which takes no memory.
    pub fn new(alloc: Global) -> Writer
        ensures { result ≡ [] }
    {
        Writer {
            out: Vec::new(alloc),
        }
    }

    /// Writes a number.
    pub fn uint(&mut self, n: u64) -> Result<(), NoMemory>
        ensures ok { OnOk result (self.new ≡ self.old ++ head 0 n) }
        ensures err { OnErr result (self.new ≡ self.old) }
    {
        self.out.reserve(MAX_HEAD)?;
        put_head(&mut self.out, UNSIGNED, n);
        Ok(())
    }

    /// Writes a byte string.
    pub fn blob(&mut self, bytes: &[u8]) -> Result<(), NoMemory>
        ensures ok { OnOk result (self.new ≡ self.old ++ (head 2 (length bytes.now) ++ bytes.now)) }
        ensures err { OnErr result (self.new ≡ self.old) }
    {
        self.out.reserve(MAX_HEAD + bytes.len())?;
        put_head(&mut self.out, BYTES, bytes.len() as u64);
        put(&mut self.out, bytes);
        Ok(())
    }

    /// Writes the head of an array of `n` items, which are to follow.
    pub fn array(&mut self, n: u64) -> Result<(), NoMemory>
        requires { n < 2 ^ 63 }
        ensures ok { OnOk result (self.new ≡ self.old ++ head 4 n) }
        ensures err { OnErr result (self.new ≡ self.old) }
    {
        self.out.reserve(MAX_HEAD)?;
        put_head(&mut self.out, ARRAY, n);
        Ok(())
    }

    /// Writes the head of a map of `n` pairs, which are to follow, each as a key and its value.
    pub fn map(&mut self, n: u64) -> Result<(), NoMemory>
        requires { n < 2 ^ 62 }
        ensures ok { OnOk result (self.new ≡ self.old ++ head 5 n) }
        ensures err { OnErr result (self.new ≡ self.old) }
    {
        self.out.reserve(MAX_HEAD)?;
        put_head(&mut self.out, MAP, n);
        Ok(())
    }

    /// Writes a text, whose bytes are not checked.
    pub fn text(&mut self, bytes: &[u8]) -> Result<(), NoMemory>
        ensures ok { OnOk result (self.new ≡ self.old ++ (head 3 (length bytes.now) ++ bytes.now)) }
        ensures err { OnErr result (self.new ≡ self.old) }
    {
        self.out.reserve(MAX_HEAD + bytes.len())?;
        put_head(&mut self.out, TEXT, bytes.len() as u64);
        put(&mut self.out, bytes);
        Ok(())
    }

    /// Writes a link.
    pub fn link(&mut self, cid: &Cid) -> Result<(), NoMemory>
        ensures ok { OnOk result (self.new ≡ self.old ++ (head 6 42 ++ (head 2 (length (0 ∷ cid.now)) ++ 0 ∷ cid.now))) }
        ensures err { OnErr result (self.new ≡ self.old) }
    {
        let bytes = cid.as_bytes();
        self.out.reserve(2 * MAX_HEAD + 1 + bytes.len())?;
        put_head(&mut self.out, TAG, LINK_TAG);
        put_head(&mut self.out, BYTES, 1 + bytes.len() as u64);
        self.out.push_reserved(0);
        put(&mut self.out, bytes);
        Ok(())
    }

    /// What was written.
    pub fn finish(self) -> Bytes
        ensures { result ≡ self }
    {
        let Writer { out } = self;
        Bytes::from(out)
    }
}

// Appends bytes, for which there is room.
fn put(out: &mut Vec<u8>, bytes: &[u8])
    requires { vec_len out.old + length bytes.now ≤ vec_capacity out.old }
    ensures items { out.new.items ≡ out.old.items ++ bytes.now }
    ensures len { vec_len out.new ≡ vec_len out.old + length bytes.now }
    ensures capacity { vec_capacity out.old ≤ vec_capacity out.new }
{
    out.extend_from_slice(bytes).unwrap();
}

// Appends a head, for which there is room.
#[tactic(auto, unfolding(crate::specs::Item::head))]
fn put_head(out: &mut Vec<u8>, major: u8, n: u64)
    requires major { major < 8 }
    requires room { vec_len out.old + 9 ≤ vec_capacity out.old }
    ensures items { out.new.items ≡ out.old.items ++ head major n }
    ensures len { vec_len out.new ≤ vec_len out.old + 9 }
    ensures capacity { vec_capacity out.old ≤ vec_capacity out.new }
{
    let first = 32 * major;
    if n < 24 {
        out.push_reserved(first + n as u8);
    } else if n < 1 << 8 {
        out.push_reserved(first + 24);
        out.push_reserved(n as u8);
    } else if n < 1 << 16 {
        out.push_reserved(first + 25);
        put(out, &(n as u16).to_be_bytes());
    } else if n < 1 << 32 {
        out.push_reserved(first + 26);
        put(out, &(n as u32).to_be_bytes());
    } else {
        out.push_reserved(first + 27);
        put(out, &n.to_be_bytes());
    }
}
