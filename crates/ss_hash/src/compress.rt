// The compression function of BLAKE2b (RFC 7693, section 3.2).

ghost use Rattle.std.specs.Prelude.{◌≡◌, ◌+◌, ◌%◌, ◌<◌, ◌^◌, IsTrue, nat_lt, length};
ghost use Rattle.std.specs.List.{list_all};
ghost use Rattle.ss_hash.specs.Blake2b.{compress, mix, mixed, round, rounds, working};

use byteorder::{ByteOrder, LittleEndian};

/// The length of a block in bytes.
pub(crate) const BLOCK_LEN: usize = 128;

// The initialization vector (section 2.6).
pub(crate) const IV: [u64; 8] = [
    0x6a09e667f3bcc908,
    0xbb67ae8584caa73b,
    0x3c6ef372fe94f82b,
    0xa54ff53a5f1d36f1,
    0x510e527fade682d1,
    0x9b05688c2b3e6c1f,
    0x1f83d9abfb41bd6b,
    0x5be0cd19137e2179,
];

// The order of the message's words in each round, again from the first in the eleventh (section 2.7).
const SIGMA: [[usize; 16]; 10] = [
    [0, 1, 2, 3, 4, 5, 6, 7, 8, 9, 10, 11, 12, 13, 14, 15],
    [14, 10, 4, 8, 9, 15, 13, 6, 1, 12, 0, 2, 11, 7, 5, 3],
    [11, 8, 12, 0, 5, 2, 15, 13, 10, 14, 3, 6, 7, 1, 9, 4],
    [7, 9, 3, 1, 13, 12, 11, 14, 2, 6, 5, 10, 4, 0, 15, 8],
    [9, 0, 5, 7, 2, 4, 10, 15, 14, 1, 11, 12, 6, 8, 3, 13],
    [2, 12, 6, 10, 0, 11, 8, 3, 4, 13, 7, 5, 15, 14, 1, 9],
    [12, 5, 1, 15, 14, 13, 4, 10, 0, 7, 6, 3, 9, 2, 8, 11],
    [13, 11, 7, 14, 12, 1, 3, 9, 5, 0, 15, 4, 8, 6, 2, 10],
    [6, 15, 14, 9, 11, 3, 0, 8, 12, 2, 13, 7, 1, 4, 10, 5],
    [10, 2, 8, 4, 7, 6, 1, 5, 15, 11, 9, 14, 3, 12, 13, 0],
];

// The sum of three words, without the carries.
#[inline(always)]
fn sum(a: u64, b: u64, x: u64) -> u64
    ensures { result ≡ (a + b + x) % 2 ^ 64 }
{
    a.wrapping_add(b).wrapping_add(x)
}

// G on four words, with two words of the message.
#[inline(always)]
fn mixed(a: u64, b: u64, c: u64, d: u64, x: u64, y: u64) -> (u64, u64, u64, u64)
    ensures { result ≡ mixed a b c d x y }
{
    let a = sum(a, b, x);
    let d = (d ^ a).rotate_right(32);
    let c = c.wrapping_add(d);
    let b = (b ^ c).rotate_right(24);
    let a = sum(a, b, y);
    let d = (d ^ a).rotate_right(16);
    let c = c.wrapping_add(d);
    let b = (b ^ c).rotate_right(63);
    (a, b, c, d)
}

// G on the words of `v` at four places. All places are constants once this is inlined, so that the
// working vector stays in registers.
#[inline(always)]
fn mix(v: &mut [u64; 16], a: usize, b: usize, c: usize, d: usize, x: u64, y: u64)
    requires a { a < 16 }
    requires b { b < 16 }
    requires c { c < 16 }
    requires d { d < 16 }
    ensures { v.new ≡ mix v.old a b c d x y }
{
    let (word_a, word_b, word_c, word_d) = mixed(v[a], v[b], v[c], v[d], x, y);
    v[a] = word_a;
    v[b] = word_b;
    v[c] = word_c;
    v[d] = word_d;
}

// One round, in which the words of the message come in this order.
#[inline(always)]
fn round(v: &mut [u64; 16], m: &[u64; 16], order: &[usize; 16])
    requires { IsTrue (list_all (λ k. nat_lt k 16) order.now) }
    ensures { v.new ≡ round v.old m.now order.now }
{
    mix(v, 0, 4, 8, 12, m[order[0]], m[order[1]]);
    mix(v, 1, 5, 9, 13, m[order[2]], m[order[3]]);
    mix(v, 2, 6, 10, 14, m[order[4]], m[order[5]]);
    mix(v, 3, 7, 11, 15, m[order[6]], m[order[7]]);
    mix(v, 0, 5, 10, 15, m[order[8]], m[order[9]]);
    mix(v, 1, 6, 11, 12, m[order[10]], m[order[11]]);
    mix(v, 2, 7, 8, 13, m[order[12]], m[order[13]]);
    mix(v, 3, 4, 9, 14, m[order[14]], m[order[15]]);
}

// The twelve rounds, written out so that each order is a constant too.
#[inline(always)]
fn rounds(v: &mut [u64; 16], m: &[u64; 16])
    ensures { v.new ≡ rounds v.old m.now 12 }
{
    round(v, m, &SIGMA[0]);
    round(v, m, &SIGMA[1]);
    round(v, m, &SIGMA[2]);
    round(v, m, &SIGMA[3]);
    round(v, m, &SIGMA[4]);
    round(v, m, &SIGMA[5]);
    round(v, m, &SIGMA[6]);
    round(v, m, &SIGMA[7]);
    round(v, m, &SIGMA[8]);
    round(v, m, &SIGMA[9]);
    round(v, m, &SIGMA[0]);
    round(v, m, &SIGMA[1]);
}

// The working vector that the rounds begin with. The count has 64 bits, so its high word is 0.
#[inline(always)]
fn working(hash: &[u64; 8], count: u64, last: bool) -> [u64; 16]
    ensures { result ≡ working hash.now count last }
{
    let [h0, h1, h2, h3, h4, h5, h6, h7] = *hash;
    let flag = if last { u64::MAX } else { 0 };
    [
        h0,
        h1,
        h2,
        h3,
        h4,
        h5,
        h6,
        h7,
        IV[0],
        IV[1],
        IV[2],
        IV[3],
        IV[4] ^ count,
        IV[5],
        IV[6] ^ flag,
        IV[7],
    ]
}

/// Takes a block into the hash. `count` bytes of the message end with it, and `last` says that no
/// block follows.
pub(crate) fn compress(hash: &mut [u64; 8], block: &[u8], count: u64, last: bool)
    requires { length block.now ≡ BLOCK_LEN }
    ensures { hash.new ≡ compress hash.old block.now count last }
{
    let mut m = [0u64; 16];
    LittleEndian::read_u64_into(block, &mut m);
    let mut v = working(hash, count, last);
    rounds(&mut v, &m);
    *hash = [
        hash[0] ^ v[0] ^ v[8],
        hash[1] ^ v[1] ^ v[9],
        hash[2] ^ v[2] ^ v[10],
        hash[3] ^ v[3] ^ v[11],
        hash[4] ^ v[4] ^ v[12],
        hash[5] ^ v[5] ^ v[13],
        hash[6] ^ v[6] ^ v[14],
        hash[7] ^ v[7] ^ v[15],
    ];
}
