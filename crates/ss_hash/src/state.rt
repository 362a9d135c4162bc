// The hash of the blocks so far (RFC 7693, section 3.3).

ghost use Rattle.std.specs.Prelude.{◌≡◌, ℕ, ◌+◌, ◌-◌, ◌<◌, ◌≤◌, ◌^◌, List, [], ◌++◌, length, take, drop};
ghost use Rattle.ss_hash.specs.Blake2b.{final_hash};

use crate::compress::{BLOCK_LEN, IV, compress};

/// The hash after some whole blocks, of which none is the last, and how many bytes they have.
#[derive(Debug, Drop)]
pub(crate) struct State {
    hash: [u64; 8],
    count: u64,
}

impl State {
    ghost use Rattle.ss_hash.specs.State.{IsAbsorbed};

    /// The state before the first block, for digests of `out_len` bytes.
    pub(crate) fn new(out_len: usize) -> State
        ensures { IsAbsorbed result out_len [] }
    {
        let mut hash = IV;
        hash[0] ^= 0x0101_0000 ^ out_len as u64;
        State { hash, count: 0 }
    }

    /// Takes in a block that is not the last.
    pub(crate) fn absorb(&mut self, block: &[u8])
        requires { length block.now ≡ BLOCK_LEN }
        ensures { (n : ℕ) (m : List ℕ) → IsAbsorbed self.old n m → length m + length block.now < 2 ^ 64
            → IsAbsorbed self.new n (m ++ block.now) }
    {
        self.count = self.count.wrapping_add(BLOCK_LEN as u64);
        compress(&mut self.hash, block, self.count, false);
    }

    /// Takes in blocks from the front of `bytes` as long as more bytes follow, and gives what is left.
    pub(crate) fn absorb_front<'a>(&mut self, bytes: &'a [u8]) -> &'a [u8]
        ensures left { result.now ≡ drop (length bytes.now - length result.now) bytes.now }
        ensures at_most { length result.now ≤ BLOCK_LEN }
        ensures waits { 0 < length bytes.now → 0 < length result.now }
        ensures absorbed { (n : ℕ) (m : List ℕ) → IsAbsorbed self.old n m → length m + length bytes.now < 2 ^ 64
            → IsAbsorbed self.new n (m ++ take (length bytes.now - length result.now) bytes.now) }
    {
        let mut rest = bytes;
        while rest.len() > BLOCK_LEN {
            let (block, others) = rest.split_at(BLOCK_LEN);
            self.absorb(block);
            rest = others;
        }
        rest
    }

    /// The hash after the last block, which is `rest` and zeros. `rest` is empty only where the
    /// message is.
    pub(crate) fn finish(mut self, rest: &[u8]) -> [u64; 8]
        requires { length rest.now ≤ BLOCK_LEN }
        ensures { (n : ℕ) (m : List ℕ) → IsAbsorbed self n m → length m + length rest.now < 2 ^ 64
            → (length rest.now ≡ 0 → length m ≡ 0) → result ≡ final_hash n (m ++ rest.now) }
    {
        let mut block = [0u8; BLOCK_LEN];
        block[..rest.len()].copy_from_slice(rest);
        let count = self.count.wrapping_add(rest.len() as u64);
        compress(&mut self.hash, &block, count, true);
        self.hash
    }
}
