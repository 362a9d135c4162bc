//! The slots of keys, and bitfields.
ghost use Rattle.std.specs.Prelude.{◌≡◌, ◌≤◌, ◌<◌, ◌==◌, true, false, MatchOption};
ghost use Rattle.std.specs.Int.{bit_at};
ghost use Rattle.ss_hamt.specs.Slots.{group_of, is_bitfield, bits_of, ones_below};

/// The last level of a tree: at five bits a level, a hash of 256 bits has no more.
pub(crate) const LAST_LEVEL: u32 = 50;

/// The slot of a hash at a level: five bits, the most significant first.
pub(crate) fn slot_of(hash: &[u8; 32], level: u32) -> u32
    requires { level ≤ 50 }
    ensures value { result ≡ group_of hash.now level }
    ensures within { result < 32 }
{
    let bit = 5 * level;
    // the first of the two bytes in which these bits lie
    let first = (bit / 8).min(30);
    let word = u32::from(hash[first as usize]) * 256 + u32::from(hash[first as usize + 1]);
    (word >> (11 - (bit - 8 * first))) % 32
}

/// The number that a bitfield is: at most 4 bytes, big-endian, without a leading zero byte.
pub(crate) fn read_bitfield(field: &[u8]) -> Option<u32>
    ensures { MatchOption result (is_bitfield field.now ≡ false) (λ bits. (is_bitfield field.now ≡ true) × (bits ≡ bits_of field.now)) }
{
    if field.len() > 4 || field.first() == Some(&0) {
        return None;
    }
    let mut bits = 0u32;
    for byte in field {
        bits = bits * 256 + u32::from(*byte);
    }
    Some(bits)
}

/// Whether the bit of a slot is set.
pub(crate) fn is_set(bits: u32, slot: u32) -> bool
    requires { slot < 32 }
    ensures { result ≡ (bit_at bits slot == 1) }
{
    (bits >> slot) & 1 == 1
}

/// How many of the bits below a slot are set.
pub(crate) fn ones_below(bits: u32, slot: u32) -> u32
    requires { slot < 32 }
    ensures { result ≡ ones_below bits slot }
{
    (bits & ((1 << slot) - 1)).count_ones()
}
