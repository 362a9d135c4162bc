use super::{Seen, what_was_seen};
use ss_amt::{amt_get, amt_walk};
use ss_chain::{Parcel, ParcelBlocks};
use ss_cid::Cid;
use std::alloc::Global;
use std::test::Fail;

// What a look-up answers.
fn answer(alloc: Global, root: &[u8], index: u64) -> Result<Seen, Fail> {
    let mut blocks = ParcelBlocks::new(alloc, Parcel::new(alloc));
    let (root, _) = Cid::parse(root)?;
    let answer = amt_get(alloc, &mut blocks, &root, index);
    Ok(what_was_seen(&answer, &root))
}

// Identity CIDs of roots. The first has a value at index 0, and the others the link of a child in
// slot 1 at height 1: of a node with a value in slot 2, of an empty byte string, of a block that is
// not there, and of a raw block.
const LEAF: &[u8] = b"\x01\x71\x00\x09\x83\x00\x01\x83\x41\x01\x80\x81\x07";

const TALL: &[u8] =
    b"\x01\x71\x00\x16\x83\x01\x01\x83\x41\x02\x81\xd8\x2a\x4b\x00\x01\x71\x00\x06\x83\x41\x04\x80\x81\x07\x80";

const BAD_CHILD: &[u8] =
    b"\x01\x71\x00\x11\x83\x01\x01\x83\x41\x02\x81\xd8\x2a\x46\x00\x01\x71\x00\x01\x40\x80";

const NO_CHILD: &[u8] =
    b"\x01\x71\x00\x11\x83\x01\x01\x83\x41\x02\x81\xd8\x2a\x46\x00\x01\x71\x12\x01\x40\x80";

const RAW_CHILD: &[u8] =
    b"\x01\x71\x00\x11\x83\x01\x01\x83\x41\x02\x81\xd8\x2a\x46\x00\x01\x55\x00\x01\x40\x80";
// A root with a value that its bitmap does not show.
const MISCOUNTED: &[u8] = b"\x01\x71\x00\x09\x83\x00\x01\x83\x41\x00\x80\x81\x07";

const ANSWERS: [(&[u8], u64, Seen); 12] = [
    (LEAF, 0, Seen::Value(7)),
    (LEAF, 1, Seen::Nothing),
    (LEAF, 8, Seen::Nothing),
    (TALL, 10, Seen::Value(7)),
    (TALL, 9, Seen::Nothing),
    (TALL, 0, Seen::Nothing),
    (TALL, 74, Seen::Nothing),
    (BAD_CHILD, 8, Seen::BadChild),
    (BAD_CHILD, 0, Seen::Nothing),
    (NO_CHILD, 8, Seen::Missing),
    (RAW_CHILD, 8, Seen::BadChild),
    (MISCOUNTED, 0, Seen::BadRoot),
];

#[test]
fn an_index_is_looked_up_along_its_path(rt: HostRuntime) -> Result<(), Fail> {
    for (root, index, wanted) in ANSWERS {
        let found = answer(rt.alloc(), root, index)?;
        assert!(rt; found == wanted, "index {index}");
    }
    Ok(())
}

// What a walk answered: a value at an index, if it is the only one.
fn walked(alloc: Global, root: &[u8]) -> Result<Option<(u64, u8)>, Fail> {
    let mut blocks = ParcelBlocks::new(alloc, Parcel::new(alloc));
    let (root, _) = Cid::parse(root)?;
    let Ok(values) = amt_walk(alloc, &mut blocks, &root) else {
        return Ok(None);
    };
    if values.len() != 1 {
        return Ok(None);
    }
    let (index, value) = values.at(0);
    Ok(value.first().map(|byte| (index, *byte)))
}

#[test]
fn a_walk_has_each_value_with_its_index(rt: HostRuntime) -> Result<(), Fail> {
    assert_eq!(rt; walked(rt.alloc(), LEAF)?, Some((0, 7)));
    assert_eq!(rt; walked(rt.alloc(), TALL)?, Some((10, 7)));
    assert_eq!(rt; walked(rt.alloc(), NO_CHILD)?, None);
    Ok(())
}
