use super::{Seen, what_was_seen};
use ss_chain::{Parcel, ParcelBlocks};
use ss_cid::Cid;
use ss_hamt::{hamt_get, hamt_walk};
use std::alloc::Global;
use std::test::Fail;

// What a look-up answers.
fn answer(alloc: Global, root: &[u8], key: &[u8]) -> Result<Seen, Fail> {
    let mut blocks = ParcelBlocks::new(alloc, Parcel::new(alloc));
    let (root, _) = Cid::parse(root)?;
    let answer = hamt_get(alloc, &mut blocks, &root, key);
    Ok(what_was_seen(&answer, &root))
}

// Identity CIDs of roots. The hash of `abc` begins with ba 78, so it takes slot 23 and then slot 9.
// The first two have a bucket for it, in the root and in a child; the others have a child that is
// not there, a bucket of two entries with one key, an empty bucket, a bitfield with a leading zero
// byte, and one that shows a pointer too few.
const ROOT: &[u8] = b"\x01\x71\x00\x0d\x82\x43\x80\x00\x00\x81\x81\x82\x43abc\x01";

const TALL: &[u8] =
    b"\x01\x71\x00\x1a\x82\x43\x80\x00\x00\x81\xd8\x2a\x51\x00\x01\x71\x00\x0c\x82\x42\x02\x00\x81\x81\x82\x43abc\x01";

const NO_CHILD: &[u8] =
    b"\x01\x71\x00\x0f\x82\x43\x80\x00\x00\x81\xd8\x2a\x46\x00\x01\x71\x12\x01\x40";

const TWICE: &[u8] = b"\x01\x71\x00\x13\x82\x43\x80\x00\x00\x81\x82\x82\x43abc\x01\x82\x43abc\x02";

const NO_ENTRY: &[u8] = b"\x01\x71\x00\x07\x82\x43\x80\x00\x00\x81\x80";

const LEADING_ZERO: &[u8] = b"\x01\x71\x00\x0e\x82\x44\x00\x80\x00\x00\x81\x81\x82\x43abc\x01";

const MISCOUNTED: &[u8] = b"\x01\x71\x00\x0d\x82\x43\x80\x00\x01\x81\x81\x82\x43abc\x01";

const ANSWERS: [(&[u8], &[u8], Seen); 10] = [
    (ROOT, b"abc", Seen::Value(1)),
    (ROOT, b"", Seen::Nothing),
    (ROOT, b"abd", Seen::Nothing),
    (TALL, b"abc", Seen::Value(1)),
    (TALL, b"", Seen::Nothing),
    (NO_CHILD, b"abc", Seen::Missing),
    (TWICE, b"abc", Seen::Value(1)),
    (NO_ENTRY, b"abc", Seen::BadRoot),
    (LEADING_ZERO, b"abc", Seen::BadRoot),
    (MISCOUNTED, b"abc", Seen::BadRoot),
];

#[test]
fn a_key_is_looked_up_along_its_path(rt: HostRuntime) -> Result<(), Fail> {
    for (root, key, wanted) in ANSWERS {
        let found = answer(rt.alloc(), root, key)?;
        assert!(rt; found == wanted, "{} bytes", root.len());
    }
    Ok(())
}

// What a walk answered: how many pairs there are, and the value of the last.
fn walked(alloc: Global, root: &[u8]) -> Result<Option<(usize, u8)>, Fail> {
    let mut blocks = ParcelBlocks::new(alloc, Parcel::new(alloc));
    let (root, _) = Cid::parse(root)?;
    let Ok(pairs) = hamt_walk(alloc, &mut blocks, &root) else {
        return Ok(None);
    };
    let n = pairs.len();
    if n == 0 {
        return Ok(None);
    }
    let (_, value) = pairs.at(n - 1);
    Ok(value.first().map(|byte| (n, *byte)))
}

#[test]
fn a_walk_has_each_key_with_its_value(rt: HostRuntime) -> Result<(), Fail> {
    assert_eq!(rt; walked(rt.alloc(), ROOT)?, Some((1, 1)));
    assert_eq!(rt; walked(rt.alloc(), TALL)?, Some((1, 1)));
    assert_eq!(rt; walked(rt.alloc(), TWICE)?, Some((2, 2)));
    assert_eq!(rt; walked(rt.alloc(), NO_CHILD)?, None);
    Ok(())
}
