use ss_chain::{follows, links, tipset};
use ss_cid::{CODEC_DAG_CBOR, Cid, HASH_SHA2_256, Parcel};
use std::alloc::Global;
use std::test::Fail;

// A header of this height, with links to identity CIDs of a letter: P a parent, S its state root, R receipts, M messages.
fn header(height: u8) -> [u8; 50] {
    let mut block =
        *b"\x90\x40\x80\x80\x80\x80\x81\xd8\x2a\x46\0\x01\x55\0\x01P\x40\0\xd8\x2a\x46\0\x01\x55\0\x01S\xd8\x2a\x46\0\x01\x55\0\x01R\xd8\x2a\x46\0\x01\x55\0\x01M\x40\0\x40\0\x40";
    block[17] = height;
    block
}

// A dag-cbor CID.
fn cid() -> Result<Cid, Fail> {
    Ok(Cid::make(CODEC_DAG_CBOR, HASH_SHA2_256, b"")?)
}

// The last bytes of the CIDs that are followed from a block.
fn followed(alloc: Global, edge: u64, block: &[u8]) -> Result<Vec<u8>, Fail> {
    let mut letters = Vec::new(alloc);
    for cid in follows(edge, &cid()?, block) {
        letters.push(*cid.as_bytes().last().ok_or("no bytes")?)?;
    }
    Ok(letters)
}

// By height and edge, what is followed: the parent, the state root from the edge on and at height 0, the others from the
// edge on.
const FOLLOWED: [(u8, u64, &[u8]); 6] = [
    (0, 0, b"PSRM"),
    (0, 1, b"PS"),
    (0, 3600, b"PS"),
    (3, 4, b"P"),
    (4, 4, b"PSRM"),
    (7, 4, b"PSRM"),
];

#[test]
fn a_state_root_is_followed_from_the_edge_on_and_at_genesis(rt: HostRuntime) -> Result<(), Fail> {
    for (height, edge, wanted) in FOLLOWED {
        let letters = followed(rt.alloc(), edge, &header(height))?;
        assert!(rt;
            letters.as_slice() == wanted,
            "height {height}, edge {edge}"
        );
    }
    Ok(())
}

// Links to a commitment, whose last byte is 7, and to a CID of dag-cbor under blake2b, whose last byte is 9.
const LINKS: &[u8] =
    b"\x82\xd8\x2a\x49\0\x01\x81\xe2\x03\x92\x20\x01\x07\xd8\x2a\x49\0\x01\x71\xa0\xe4\x02\x02\x08\x09";

#[test]
fn commitments_are_links_and_are_not_followed(rt: HostRuntime) -> Result<(), Fail> {
    assert_eq!(rt; links(&cid()?, LINKS).count(), 2);
    assert!(rt; followed(rt.alloc(), 0, LINKS)?.as_slice() == [9].as_slice());
    Ok(())
}

// The height of the tipset that headers of these heights are, each under a CID of its own, or none.
fn height_of(alloc: Global, heights: &[u8]) -> Result<Option<u64>, Fail> {
    let mut headers = Parcel::new(alloc);
    for (place, height) in (0..64u8).zip(heights) {
        let cid = Cid::make(CODEC_DAG_CBOR, HASH_SHA2_256, &[place])?;
        headers.add(cid, &header(*height))?;
    }
    Ok(tipset(&headers).ok())
}

#[test]
fn headers_of_one_height_are_a_tipset(rt: HostRuntime) -> Result<(), Fail> {
    assert_eq!(rt; height_of(rt.alloc(), &[7, 7, 7])?, Some(7));
    assert_eq!(rt; height_of(rt.alloc(), &[7, 7, 8])?, None);
    assert_eq!(rt; height_of(rt.alloc(), &[])?, None);
    Ok(())
}
