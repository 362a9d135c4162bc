//! Reading a length and as many bytes from the start of a source, in whatever pieces it gives them.
ghost use Rattle.std.specs.Prelude.{◌≡◌, ℕ, ◌+◌, ◌<◌, ◌≤◌, ◌^◌, List, ◌++◌, length, Err, IfOk, IfErr};
ghost use Rattle.std.specs.Io.KnownBytes.{Consumes};
ghost use Rattle.ss_cid.specs.Varint.{varint, varint_at};
ghost use Rattle.ss_cid.specs.declared.fault.CidFault.TheVariants.{LongVarint};
ghost use Rattle.ss_io.specs.Streams.{HasCause};
ghost use Rattle.ss_device.specs.Faults.{CountsFault};
ghost use Rattle.ss_car.specs.Car.{framed, LengthFault, UnframedFault};
ghost use Rattle.ss_car.specs.Bodies.{left_of, faults_of, place_of, EndsOnce, Blames, TakesByte};

use crate::fault::CarFault;
use ss_cid::{CidFault, read_varint};
use ss_io::{Buffered, Failed, Source};
use std::alloc::Global;

/// The most bytes that a length has.
pub const MAX_LENGTH: usize = 9;

/// Reads a length of at most `limit` and as many bytes: these bytes, and how many were read with the length. The fault is
/// one of the length, `TooLarge`, which is decided before the bytes are read, or `Truncated`.
pub fn next_framed<S: Source + Drop>(
    alloc: Global,
    source: &mut Buffered<S>,
    limit: u64,
) -> Result<(Vec<u8>, u64), CarFault>
    requires { limit ≤ 8388608 }
    ensures taken { IfOk result (λ found. Consumes (left_of S.Source source.old) (left_of S.Source source.new) (framed found.0.items)) }
    ensures count { IfOk result (λ found. (found.1 ≡ length (framed found.0.items)) × (length found.0.items ≤ limit) × (found.1 < 2 ^ 32)) }
    ensures refused { IfErr result (Blames (UnframedFault limit) (left_of S.Source source.old)) }
    ensures cause { CountsFault CarFault.ReadFault (faults_of S.Source source.old) (faults_of S.Source source.new) result }
    ensures place { place_of S.Source source.new ≡ place_of S.Source source.old }
{
    let (len, count) = next_length(source)?;
    if len > limit {
        return Err(CarFault::TooLarge);
    }
    let body = next_bytes(alloc, source, len as usize)?;
    Ok((body, count + len))
}

// Reads so many bytes.
fn next_bytes<S: Source + Drop>(
    alloc: Global,
    source: &mut Buffered<S>,
    len: usize,
) -> Result<Vec<u8>, CarFault>
    ensures taken { IfOk result (λ bytes. Consumes (left_of S.Source source.old) (left_of S.Source source.new) bytes.items) }
    ensures len { IfOk result (λ bytes. length bytes.items ≡ len) }
    ensures refused { IfErr result (Blames (λ bytes fault. (fault ≡ CarFault.Truncated) × (length bytes < len)) (left_of S.Source source.old)) }
    ensures cause { CountsFault CarFault.ReadFault (faults_of S.Source source.old) (faults_of S.Source source.new) result }
    ensures place { place_of S.Source source.new ≡ place_of S.Source source.old }
{
    let mut bytes = Vec::with_capacity(alloc, len)?;
    'bytes: while bytes.len() < len {
        source.fill()?;
        let lent = source.buffered();
        if lent.is_empty() {
            return Err(CarFault::Truncated);
        }
        let count = lent.len().min(len - bytes.len());
        bytes.extend_from_slice(&lent[..count])?;
        source.consume(count);
    }
    Ok(bytes)
}

// Reads a length: the number, and how many bytes it has.
fn next_length<S: Source + Drop>(source: &mut Buffered<S>) -> Result<(u64, u64), CarFault>
    ensures taken { IfOk result (λ found. Consumes (left_of S.Source source.old) (left_of S.Source source.new) (varint found.0)) }
    ensures count { IfOk result (λ found. (found.0 < 2 ^ 63) × (found.1 ≡ length (varint found.0)) × (found.1 ≤ 9)) }
    ensures refused { IfErr result (Blames LengthFault (left_of S.Source source.old)) }
    ensures cause { CountsFault CarFault.ReadFault (faults_of S.Source source.old) (faults_of S.Source source.new) result }
    ensures place { place_of S.Source source.new ≡ place_of S.Source source.old }
{
    let mut bytes = [0; MAX_LENGTH];
    for i in 0..MAX_LENGTH {
        let Some(byte) = next_byte(source)? else {
            return Err(CarFault::Truncated);
        };
        bytes[i] = byte;
        if byte < 128 {
            return length_of(&bytes[..i + 1]);
        }
    }
    Err(CarFault::BadLength)
}

// The number that the bytes spell, of which the last one alone has no high bit.
fn length_of(bytes: &[u8]) -> Result<(u64, u64), CarFault>
    requires { EndsOnce bytes.now }
    ensures spelled { IfOk result (λ found. bytes.now ≡ varint found.0) }
    ensures count { IfOk result (λ found. (found.0 < 2 ^ 63) × (found.1 ≡ length bytes.now)) }
    ensures refused { IfErr result (λ fault. (fault ≡ CarFault.BadLength) × ((rest : List ℕ) → varint_at (bytes.now ++ rest) 0 ≡ Err (LongVarint 0))) }
{
    match read_varint(bytes) {
        Ok((len, count)) => Ok((len, count as u64)),
        Err(_) => Err(CarFault::BadLength),
    }
}

// Reads a byte; None is the end of the input.
fn next_byte<S: Source + Drop>(source: &mut Buffered<S>) -> Result<Option<u8>, Failed>
    ensures taken { IfOk result (TakesByte (left_of S.Source source.old) (left_of S.Source source.new)) }
    ensures cause { HasCause (faults_of S.Source source.old) (faults_of S.Source source.new) result }
    ensures place { place_of S.Source source.new ≡ place_of S.Source source.old }
{
    source.fill()?;
    let Some(byte) = source.buffered().first().copied() else {
        return Ok(None);
    };
    source.consume(1);
    Ok(Some(byte))
}
