use super::forms::{array_of, numbered, push_array, push_link};
use super::random::Random;
use ss_cid::{CODEC_DAG_CBOR, CODEC_SEALED, Cid, HASH_IDENTITY};
use std::alloc::Global;
use std::test::Fail;

// The CID under which block `number` of a graph is stored. Every fifth one is raw.
pub(crate) fn stored_under(number: u64) -> Result<Cid, Fail> {
    numbered(u32::try_from(number)?, number % 5 == 0)
}

// A link in a graph of this size: to a block of it, to one of five that are never stored, or through one or more identity
// CIDs to one of these. Some are commitments.
pub(crate) fn random_link(alloc: Global, random: &mut Random, size: u64) -> Result<Cid, Fail> {
    let mut cid = stored_under(random.below(size.saturating_add(5)))?;
    if random.below(20) == 0 {
        cid = Cid::make(CODEC_SEALED, HASH_IDENTITY, b"")?;
    }
    for _depth in 0..random.below(12).saturating_sub(6) {
        let other = stored_under(random.below(size.saturating_add(5)))?;
        let block = match random.below(3) {
            0 => array_of(alloc, &[other, cid])?,
            _ => array_of(alloc, &[cid])?,
        };
        match Cid::make(CODEC_DAG_CBOR, HASH_IDENTITY, block.as_slice()) {
            Ok(identity) => cid = identity,
            Err(_) => break,
        }
    }
    Ok(cid)
}

// A header of a height below 8, with one parent.
fn random_header(alloc: Global, random: &mut Random, size: u64) -> Result<Vec<u8>, Fail> {
    let mut block = Vec::from_slice(alloc, b"\x90\x40\x80\x80\x80\x80")?;
    push_array(&mut block, &[random_link(alloc, random, size)?])?;
    block.push(0x40)?;
    block.push(random.below(8) as u8)?;
    for _field in 0..3 {
        push_link(&mut block, &random_link(alloc, random, size)?)?;
    }
    block.extend_from_slice(b"\x40\0\x40\0\x40")?;
    Ok(block)
}

// A block of a graph of this size: a header, an array of links, one whose last byte is missing, or none of these.
pub(crate) fn random_block(alloc: Global, random: &mut Random, size: u64) -> Result<Vec<u8>, Fail> {
    let kind = random.below(8);
    if kind == 0 {
        return random_header(alloc, random, size);
    }
    let mut links = Vec::new(alloc);
    for _link in 0..random.below(4) {
        links.push(random_link(alloc, random, size)?)?;
    }
    let mut block = array_of(alloc, &links)?;
    if kind == 1 {
        block.pop();
    }
    Ok(block)
}
