//! Bitmaps of slots. Bit `i` is bit `i % 8` of byte `i / 8`, counted from the least significant.
ghost use Rattle.std.specs.Prelude.{◌≡◌, ◌*◌, ◌≤◌, length};
ghost use Rattle.ss_node.specs.Bits.{is_set, ones_below};

/// Whether a bit is set. None past the end of the bitmap is.
pub fn is_set(bits: &[u8], slot: usize) -> bool
    ensures { result ≡ is_set bits.now slot }
{
    match bits.get(slot / 8) {
        Some(byte) => (*byte >> (slot % 8)) & 1 == 1,
        None => false,
    }
}

/// How many of the first `slot` bits are set.
pub fn ones_below(bits: &[u8], slot: usize) -> usize
    requires { slot ≤ 8 * length bits.now }
    ensures value { result ≡ ones_below bits.now slot }
    ensures few { result ≤ slot }
{
    let mut ones = 0;
    for byte in &bits[..slot / 8] {
        ones += byte.count_ones() as usize;
    }
    match bits.get(slot / 8) {
        Some(byte) => ones + (*byte & ((1 << (slot % 8)) - 1)).count_ones() as usize,
        None => ones,
    }
}
