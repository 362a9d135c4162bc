//! The argument of a head.
ghost use Rattle.std.specs.Prelude.{◌≤◌, ◌^◌, length, IfOk};
ghost use Rattle.std.specs.Int.{w8, w16, w32, w64};
ghost use Rattle.ss_cbor.specs.Position.{Gives};
ghost use Rattle.ss_cbor.specs.Reading.{wide_at, argument_at};

use crate::fault::{CborFault, CborKind};
use crate::major::{BYTES, MAP};

// An argument in 1 byte.
#[tactic(auto, unfolding(crate::specs::Reading::wide_at))]
fn u8_at(at: usize, end: usize, bytes: &[u8]) -> Result<(u64, &[u8]), CborFault>
    ensures value { Gives (λ x. (x.0, x.1.now)) result (wide_at w8 24 at end bytes.now) }
    ensures shorter { IfOk result (λ x. length x.1.now ≤ length bytes.now) }
{
    let Some((field, rest)) = bytes.split_first_chunk() else {
        return Err(CborKind::Truncated.at(end));
    };
    let n = u8::from_be_bytes(*field);
    if n < 24 {
        return Err(CborKind::LongHead.at(at));
    }
    Ok((u64::from(n), rest))
}

// An argument in 2 bytes.
#[tactic(auto, unfolding(crate::specs::Reading::wide_at))]
fn u16_at(at: usize, end: usize, bytes: &[u8]) -> Result<(u64, &[u8]), CborFault>
    ensures value { Gives (λ x. (x.0, x.1.now)) result (wide_at w16 (2 ^ 8) at end bytes.now) }
    ensures shorter { IfOk result (λ x. length x.1.now ≤ length bytes.now) }
{
    let Some((field, rest)) = bytes.split_first_chunk() else {
        return Err(CborKind::Truncated.at(end));
    };
    let n = u16::from_be_bytes(*field);
    if n < 1 << 8 {
        return Err(CborKind::LongHead.at(at));
    }
    Ok((u64::from(n), rest))
}

// An argument in 4 bytes.
#[tactic(auto, unfolding(crate::specs::Reading::wide_at))]
fn u32_at(at: usize, end: usize, bytes: &[u8]) -> Result<(u64, &[u8]), CborFault>
    ensures value { Gives (λ x. (x.0, x.1.now)) result (wide_at w32 (2 ^ 16) at end bytes.now) }
    ensures shorter { IfOk result (λ x. length x.1.now ≤ length bytes.now) }
{
    let Some((field, rest)) = bytes.split_first_chunk() else {
        return Err(CborKind::Truncated.at(end));
    };
    let n = u32::from_be_bytes(*field);
    if n < 1 << 16 {
        return Err(CborKind::LongHead.at(at));
    }
    Ok((u64::from(n), rest))
}

// An argument in 8 bytes.
#[tactic(auto, unfolding(crate::specs::Reading::wide_at))]
fn u64_at(at: usize, end: usize, bytes: &[u8]) -> Result<(u64, &[u8]), CborFault>
    ensures value { Gives (λ x. (x.0, x.1.now)) result (wide_at w64 (2 ^ 32) at end bytes.now) }
    ensures shorter { IfOk result (λ x. length x.1.now ≤ length bytes.now) }
{
    let Some((field, rest)) = bytes.split_first_chunk() else {
        return Err(CborKind::Truncated.at(end));
    };
    let n = u64::from_be_bytes(*field);
    if n < 1 << 32 {
        return Err(CborKind::LongHead.at(at));
    }
    Ok((n, rest))
}

/// The argument of the head at an offset, by the low five bits of its first byte, and what is after it.
#[tactic(auto, unfolding(crate::specs::Reading::argument_at))]
#[inline(always)]
pub fn argument_at<'a>(
    major: u8,
    low: u8,
    at: usize,
    end: usize,
    bytes: &'a [u8],
) -> Result<(u64, &'a [u8]), CborFault>
    ensures value { Gives (λ x. (x.0, x.1.now)) result (argument_at major low at end bytes.now) }
    ensures shorter { IfOk result (λ x. length x.1.now ≤ length bytes.now) }
{
    match low {
        0..24 => Ok((u64::from(low), bytes)),
        24 => u8_at(at, end, bytes),
        25 => u16_at(at, end, bytes),
        26 => u32_at(at, end, bytes),
        27 => u64_at(at, end, bytes),
        31 if (BYTES..=MAP).contains(&major) => Err(CborKind::Indefinite.at(at)),
        _ => Err(CborKind::LongHead.at(at)),
    }
}
