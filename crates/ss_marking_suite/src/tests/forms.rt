use ss_cid::{CODEC_DAG_CBOR, CODEC_RAW, Cid, HASH_SHA2_256};
use std::alloc::Global;
use std::test::Fail;

// The sha2-256 CID with the four bytes of a number for its digest.
pub(crate) fn numbered(number: u32, is_raw: bool) -> Result<Cid, Fail> {
    let codec = if is_raw { CODEC_RAW } else { CODEC_DAG_CBOR };
    Ok(Cid::make(codec, HASH_SHA2_256, &number.to_be_bytes())?)
}

// Appends a link.
pub(crate) fn push_link(block: &mut Vec<u8>, cid: &Cid) -> Result<(), Fail> {
    let len = u8::try_from(cid.as_bytes().len())?.saturating_add(1);
    block.extend_from_slice(b"\xd8\x2a")?;
    match len {
        0..24 => block.push(0x40 | len)?,
        _ => block.extend_from_slice(&[0x58, len])?,
    }
    block.push(0)?;
    block.extend_from_slice(cid.as_bytes())?;
    Ok(())
}

// Appends the array of some links, fewer than 2^32.
pub(crate) fn push_array(block: &mut Vec<u8>, links: &[Cid]) -> Result<(), Fail> {
    match u32::try_from(links.len())?.to_be_bytes() {
        [0, 0, 0, few @ 0..24] => block.push(0x80 | few)?,
        [0, 0, 0, len] => block.extend_from_slice(&[0x98, len])?,
        [0, 0, high, low] => block.extend_from_slice(&[0x99, high, low])?,
        [a, b, c, d] => block.extend_from_slice(&[0x9a, a, b, c, d])?,
    }
    for link in links {
        push_link(block, link)?;
    }
    Ok(())
}

// The block that is an array of some links.
pub(crate) fn array_of(alloc: Global, links: &[Cid]) -> Result<Vec<u8>, Fail> {
    let mut block = Vec::new(alloc);
    push_array(&mut block, links)?;
    Ok(block)
}
