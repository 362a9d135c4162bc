//! Unsigned varints: numbers below 2^63 in groups of seven bits, the least significant first.
ghost use Rattle.std.specs.Prelude.{◌≡◌, ◌+◌, ◌<◌, ◌≤◌, ◌^◌, ◌++◌, length, drop, IfOk};
ghost use Rattle.ss_cid.specs.Varint.{varint, varint_at};

use crate::fault::CidFault;

/// The most bytes that a varint has.
const MAX_GROUPS: usize = 9;

/// Reads the varint that `bytes` begin with: its number, and how many bytes it takes.
///
/// Where the first nine bytes all have the high bit, the fault is `LongVarint` at 0; else where the
/// input ends before a byte without the high bit, `Short` with the input's length; else where the
/// form is not the shortest, `LongVarint` at 0.
pub fn read_varint(bytes: &[u8]) -> Result<(u64, usize), CidFault>
    ensures value { result ≡ varint_at bytes.now 0 }
    ensures bounds { IfOk result (λ found. (found.0 < 2 ^ 63) × (1 ≤ found.1) × (found.1 ≤ length bytes.now)) }
{
    varint_at(bytes, 0)
}

/// Reads the varint at the offset `at`: its number, and the offset after it.
pub(crate) fn varint_at(bytes: &[u8], at: usize) -> Result<(u64, usize), CidFault>
    requires { at ≤ length bytes.now }
    ensures value { result ≡ varint_at bytes.now at }
    ensures bounds { IfOk result (λ found. (found.0 < 2 ^ 63) × (at < found.1) × (found.1 ≤ length bytes.now)) }
{
    let mut number = 0u64;
    let mut weight = 1u64;
    for k in 0..MAX_GROUPS {
        if at + k == bytes.len() {
            return Err(CidFault::Short { at: bytes.len() });
        }
        let byte = bytes[at + k];
        number += u64::from(byte % 128) * weight;
        if byte < 128 {
            if byte == 0 && k > 0 {
                return Err(CidFault::LongVarint { at });
            }
            return Ok((number, at + k + 1));
        }
        weight *= 128;
    }
    Err(CidFault::LongVarint { at })
}

/// Writes the varint of `n` to the start of `out`, and tells how many bytes it has. The rest of
/// `out` stays.
pub fn write_varint(n: u64, out: &mut [u8; 9]) -> usize
    requires { n < 2 ^ 63 }
    ensures value { out.new ≡ varint n ++ drop result out.old }
    ensures len { result ≡ length (varint n) }
    ensures bounds { (1 ≤ result) × (result ≤ 9) }
{
    let mut left = n;
    for k in 0..8 {
        if left < 128 {
            out[k] = left as u8;
            return k + 1;
        }
        out[k] = (left % 128 + 128) as u8;
        left /= 128;
    }
    out[8] = left as u8;
    9
}
