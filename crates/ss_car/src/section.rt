//! Reading the header or a section from the start of a source.
ghost use Rattle.std.specs.Prelude.{◌≡◌, ◌<◌, ◌≤◌, ◌^◌, ◌++◌, length, drop, IfOk, IfErr};
ghost use Rattle.ss_cid.specs.Cid.{IsCid};
ghost use Rattle.ss_device.specs.Faults.{CountsFault};
ghost use Rattle.ss_car.specs.Bodies.{BodyFault, NextFault, TakesStart, TakesSection, TakesNext, Blames, left_of, faults_of, place_of};
ghost use Rattle.ss_car.specs.Car.{framed, StartFault, SectionFault};

use crate::fault::CarFault;
use crate::framed::next_framed;
use crate::header::read_header;
use ss_cid::{Bytes, Cid, Cids};
use ss_io::{Buffered, Source};
use std::alloc::Global;

/// The most bytes that a header has after its length.
pub const MAX_HEADER: u64 = 1_048_576;

/// The most bytes that a section has after its length.
pub const MAX_SECTION: u64 = 8_388_608;

/// Reads the header: its roots, and how many bytes it takes with its length.
pub fn next_start<S: Source + Drop>(
    alloc: Global,
    source: &mut Buffered<S>,
) -> Result<(Cids, u64), CarFault>
    ensures taken { IfOk result (λ found. TakesStart (left_of S.Source source.old) (left_of S.Source source.new) found.0 found.1) }
    ensures few { IfOk result (λ found. found.1 < 2 ^ 32) }
    ensures refused { IfErr result (Blames StartFault (left_of S.Source source.old)) }
    ensures cause { CountsFault CarFault.ReadFault (faults_of S.Source source.old) (faults_of S.Source source.new) result }
    ensures place { place_of S.Source source.new ≡ place_of S.Source source.old }
{
    let (header, count) = next_framed(alloc, source, MAX_HEADER)?;
    let roots = read_header(alloc, &header)?;
    Ok((roots, count))
}

/// Reads the next section: its CID, its data, and how many bytes it takes with its length. None is the end of the input.
pub fn next_or_end<S: Source + Drop>(
    alloc: Global,
    source: &mut Buffered<S>,
) -> Result<Option<(Cid, Bytes, u64)>, CarFault>
    ensures found { IfOk result (TakesNext (left_of S.Source source.old) (left_of S.Source source.new)) }
    ensures refused { IfErr result (Blames NextFault (left_of S.Source source.old)) }
    ensures cause { CountsFault CarFault.ReadFault (faults_of S.Source source.old) (faults_of S.Source source.new) result }
    ensures place { place_of S.Source source.new ≡ place_of S.Source source.old }
{
    source.fill()?;
    if source.buffered().is_empty() {
        return Ok(None);
    }
    let (cid, data, count) = next_section(alloc, source)?;
    Ok(Some((cid, data, count)))
}

// Reads a section: its CID, its data, and how many bytes it takes with its length.
fn next_section<S: Source + Drop>(
    alloc: Global,
    source: &mut Buffered<S>,
) -> Result<(Cid, Bytes, u64), CarFault>
    ensures taken { IfOk result (λ found. TakesSection (left_of S.Source source.old) (left_of S.Source source.new) found.0 found.1) }
    ensures count { IfOk result (λ found. (found.2 ≡ length (framed (found.0 ++ found.1))) × (found.2 < 2 ^ 32)) }
    ensures refused { IfErr result (Blames SectionFault (left_of S.Source source.old)) }
    ensures cause { CountsFault CarFault.ReadFault (faults_of S.Source source.old) (faults_of S.Source source.new) result }
    ensures place { place_of S.Source source.new ≡ place_of S.Source source.old }
{
    let (body, count) = next_framed(alloc, source, MAX_SECTION)?;
    let (cid, data) = split_section(body)?;
    Ok((cid, data, count))
}

// The CID and the data of a section. The data keep the memory that they lie in.
#[tactic(auto, unfolding(ss_cid::specs::Cid::cid_at))]
fn split_section(mut body: Vec<u8>) -> Result<(Cid, Bytes), CarFault>
    ensures parts { IfOk result (λ found. IsCid found.0 × (body.items ≡ found.0 ++ found.1)) }
    ensures refused { IfErr result (BodyFault body.items) }
{
    if body.is_empty() {
        return Err(CarFault::ZeroSection);
    }
    match Cid::parse(&body) {
        Ok((cid, len)) => {
            remove_front(&mut body, len);
            Ok((cid, Bytes::from(body)))
        }
        Err(_) => Err(CarFault::BadCid),
    }
}

// Takes the first bytes away.
fn remove_front(bytes: &mut Vec<u8>, count: usize)
    requires { count ≤ length bytes.old.items }
    ensures { bytes.new.items ≡ drop count bytes.old.items }
{
    let rest = bytes.len() - count;
    bytes.copy_within(count.., 0);
    bytes.truncate(rest);
}
