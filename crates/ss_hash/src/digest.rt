ghost use Rattle.std.specs.Prelude.{◌≡◌, ◌-◌, ◌≤◌, ◌++◌, length, take, replicate};
ghost use Rattle.std.specs.List.{flat_map};
ghost use Rattle.byteorder.specs.Endian.{little_bytes};
ghost use Rattle.ss_hash.specs.Blake2b.{blake2b};

use crate::state::State;
use byteorder::{ByteOrder, LittleEndian};

/// The first `out_len` bytes of a hash, its words written with their low bytes first, and zeros.
pub(crate) fn digest_bytes(hash: &[u64; 8], out_len: usize) -> [u8; 64]
    requires { out_len ≤ 64 }
    ensures { result ≡ take out_len (flat_map (little_bytes 8) hash.now) ++ replicate (64 - out_len) 0 }
{
    let mut out = [0u8; 64];
    LittleEndian::write_u64_into(hash, &mut out);
    out[out_len..].fill(0);
    out
}

/// The BLAKE2b digest of `bytes`, without a key (RFC 7693).
///
/// The digest has `out_len` bytes, 1 to 64, which are the first of the result; the rest is zero. No
/// memory is taken, and no block but the last is copied.
pub fn blake2b(out_len: usize, bytes: &[u8]) -> [u8; 64]
    requires low { 1 ≤ out_len }
    requires high { out_len ≤ 64 }
    ensures digest { result ≡ blake2b out_len bytes.now ++ replicate (64 - out_len) 0 }
    ensures size { length (blake2b out_len bytes.now) ≡ out_len }
{
    let mut state = State::new(out_len);
    let rest = state.absorb_front(bytes);
    digest_bytes(&state.finish(rest), out_len)
}
