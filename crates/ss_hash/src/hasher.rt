ghost use Rattle.std.specs.Prelude.{◌≡◌, ℕ, ◌+◌, ◌-◌, ◌<◌, ◌≤◌, ◌^◌, List, [], ◌++◌, length, take, drop, replicate};
ghost use Rattle.ss_hash.specs.Blake2b.{blake2b};

use crate::compress::BLOCK_LEN;
use crate::digest::digest_bytes;
use crate::state::State;

/// BLAKE2b without a key (RFC 7693) of a message that comes in pieces.
///
/// The digest is that of the pieces as one message, however it is cut. Fewer than 2^64 bytes may be
/// fed. No memory is taken, and whole blocks are read where the caller has them.
#[derive(Debug, Drop)]
pub struct Blake2b {
    state: State,
    // The first `filled` bytes wait. A block that is full waits too, since it may be the last.
    buffer: [u8; BLOCK_LEN],
    filled: usize,
    out_len: usize,
    ghost in_buffer: { filled ≤ 128 },
    ghost in_hash: { out_len ≤ 64 },
}

impl Blake2b {
    ghost use Rattle.ss_hash.specs.State.{Holds, IsAbsorbed};

    /// A hasher of the empty message, for a digest of `out_len` bytes, 1 to 64.
    pub fn new(out_len: usize) -> Blake2b
        requires low { 1 ≤ out_len }
        requires high { out_len ≤ 64 }
        ensures { Holds result out_len [] }
    {
        Blake2b {
            state: State::new(out_len),
            buffer: [0; BLOCK_LEN],
            filled: 0,
            out_len,
        }
    }

    // Adds `bytes` to the bytes that wait.
    fn store(&mut self, bytes: &[u8])
        requires { self.old.filled + length bytes.now ≤ BLOCK_LEN }
        ensures filled { self.new.filled ≡ self.old.filled + length bytes.now }
        ensures waiting { take self.new.filled self.new.buffer ≡ take self.old.filled self.old.buffer ++ bytes.now }
        ensures state { self.new.state ≡ self.old.state }
        ensures out_len { self.new.out_len ≡ self.old.out_len }
    {
        let end = self.filled + bytes.len();
        self.buffer[self.filled..end].copy_from_slice(bytes);
        self.filled = end;
    }

    // Where bytes wait, takes them into the hash with the front of `bytes` that makes a block of them,
    // and gives the rest.
    fn flush<'a>(&mut self, bytes: &'a [u8]) -> &'a [u8]
        requires { BLOCK_LEN < self.old.filled + length bytes.now }
        ensures rest { result.now ≡ drop (length bytes.now - length result.now) bytes.now }
        ensures more { 0 < length result.now }
        ensures absorbed { (n : ℕ) (m : List ℕ) → Holds self.old n m → length m + length bytes.now < 2 ^ 64
            → IsAbsorbed self.new.state n (m ++ take (length bytes.now - length result.now) bytes.now) }
        ensures out_len { self.new.out_len ≡ self.old.out_len }
    {
        if self.filled == 0 {
            return bytes;
        }
        let (first, rest) = bytes.split_at(BLOCK_LEN - self.filled);
        self.store(first);
        self.state.absorb(&self.buffer);
        rest
    }

    /// Adds `bytes` to the message.
    pub fn update(&mut self, bytes: &[u8])
        ensures { (n : ℕ) (m : List ℕ) → Holds self.old n m → length m + length bytes.now < 2 ^ 64
            → Holds self.new n (m ++ bytes.now) }
    {
        if bytes.len() <= BLOCK_LEN - self.filled {
            self.store(bytes);
            return;
        }
        let bytes = self.flush(bytes);
        let rest = self.state.absorb_front(bytes);
        self.filled = 0;
        self.store(rest);
    }

    /// The digest of the message, and zeros behind it.
    pub fn finish(self) -> [u8; 64]
        ensures { (n : ℕ) (m : List ℕ) → Holds self n m → result ≡ blake2b n m ++ replicate (64 - n) 0 }
    {
        let Blake2b {
            state,
            buffer,
            filled,
            out_len,
        } = self;
        digest_bytes(&state.finish(&buffer[..filled]), out_len)
    }
}
