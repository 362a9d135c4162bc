use ss_cbor::{CborFault, CborKind, Cursor, Item, Writer, scan};
use std::alloc::Global;
use std::test::Fail;

// How many links an item has that is a million arrays in one another.
fn links_of_a_million(alloc: Global) -> Result<usize, Fail> {
    let mut bytes = vec![in alloc; 0x81u8; 1_000_000]?;
    bytes.push(0x80)?;
    Ok(scan(&bytes)?.count())
}

#[test]
fn a_million_arrays_in_one_another_are_scanned(rt: HostRuntime) -> Result<(), Fail> {
    assert_eq!(rt; links_of_a_million(rt.alloc())?, 0);
    Ok(())
}

const FAULTS: [(&[u8], CborKind, usize); 32] = [
    (b"", CborKind::Truncated, 0),
    (b"\x82\x01", CborKind::Truncated, 2),
    (b"\x18", CborKind::Truncated, 1),
    (b"\x42\x61", CborKind::Truncated, 2),
    (b"\xfb\0", CborKind::Truncated, 2),
    (b"\xd8\x2a", CborKind::Truncated, 2),
    (
        b"\x9b\x7f\xff\xff\xff\xff\xff\xff\xff",
        CborKind::Truncated,
        9,
    ),
    (
        b"\x5b\xff\xff\xff\xff\xff\xff\xff\xff",
        CborKind::Truncated,
        9,
    ),
    (
        b"\x7b\x7f\xff\xff\xff\xff\xff\xff\xff",
        CborKind::Truncated,
        9,
    ),
    (b"\x18\x17", CborKind::LongHead, 0),
    (b"\x81\x19\0\xff", CborKind::LongHead, 1),
    (b"\x1a\0\0\xff\xff", CborKind::LongHead, 0),
    (b"\x1b\0\0\0\0\xff\xff\xff\xff", CborKind::LongHead, 0),
    (b"\x1c", CborKind::LongHead, 0),
    (b"\x3f", CborKind::LongHead, 0),
    (b"\x9f\xff", CborKind::Indefinite, 0),
    (b"\x81\x5f", CborKind::Indefinite, 1),
    (b"\xc1\0", CborKind::OtherTag, 0),
    (b"\xd8\x2a\xd8\x2b", CborKind::OtherTag, 2),
    (b"\xd8\x2a\0", CborKind::BadLink, 0),
    (b"\x81\xd8\x2a\x40", CborKind::BadLink, 1),
    (b"\xd8\x2a\x45\x01\x01\x55\0\0", CborKind::BadLink, 0),
    (b"\xd8\x2a\x46\0\x01\x55\0\0\0", CborKind::BadLink, 0),
    (b"\xd8\x2a\xd8\x2a\x45\0\x01\x55\0\0", CborKind::BadLink, 0),
    (b"\xf7", CborKind::BadSimple, 0),
    (b"\x81\xff", CborKind::BadSimple, 1),
    (b"\0\0", CborKind::Trailing, 1),
    (b"\x80\x1c", CborKind::Trailing, 1),
    (b"\x9b\x80\0\0\0\0\0\0\0", CborKind::CountTooLarge, 0),
    (b"\xbb\x40\0\0\0\0\0\0\0", CborKind::CountTooLarge, 0),
    (
        b"\x82\x9b\x7f\xff\xff\xff\xff\xff\xff\xff",
        CborKind::CountTooLarge,
        1,
    ),
    (
        b"\xd8\x2a\x9b\xff\xff\xff\xff\xff\xff\xff\xff",
        CborKind::CountTooLarge,
        2,
    ),
];

#[test]
fn each_fault_is_found_at_its_place(rt: HostRuntime) {
    for (bytes, kind, at) in FAULTS {
        assert!(rt;
            scan(bytes).err() == Some(CborFault { kind, at }),
            "at {bytes:?}"
        );
    }
}

// Numbers, strings and heads as the examples of RFC 8949, appendix A, have them.
const EXAMPLES: &[u8] =
    b"\x8a\x19\x03\xe8\x20\x44\x01\x02\x03\x04\x64IETF\xa1\x01\x83\x01\x02\x03\x83\x01\x82\x02\x03\x80\x1b\xff\xff\xff\xff\xff\xff\xff\xff\xfb\x3f\xf1\x99\x99\x99\x99\x99\x9a\xf5\xf6";

// The items that a cursor enters, then two that it skips, and the rest.
const ENTERED: [Item; 7] = [
    Item::Array(10),
    Item::Uint(1000),
    Item::Nint(0),
    Item::Blob(&[1, 2, 3, 4]),
    Item::Text(b"IETF"),
    Item::Map(1),
    Item::Uint(1),
];

const REST: [Item; 4] = [
    Item::Uint(u64::MAX),
    Item::Float,
    Item::Bool(true),
    Item::Null,
];

// Whether the next parts are these items.
fn finds(cursor: &mut Cursor<'_>, items: &[Item<'_>]) -> bool {
    for item in items {
        match cursor.next() {
            Ok(found) if found == *item => {}
            _ => return false,
        }
    }
    true
}

// Whether the next item, which is skipped, has these bytes.
fn skips(cursor: &mut Cursor<'_>, bytes: &[u8]) -> bool {
    match cursor.skip() {
        Ok(skipped) => skipped == bytes,
        Err(_) => false,
    }
}

#[test]
fn a_cursor_enters_and_skips(rt: HostRuntime) {
    let mut cursor = Cursor::new(EXAMPLES);
    assert!(rt; finds(&mut cursor, &ENTERED));
    assert!(rt; skips(&mut cursor, &[0x83, 1, 2, 3]));
    assert!(rt; skips(&mut cursor, &[0x83, 1, 0x82, 2, 3, 0x80]));
    assert!(rt; finds(&mut cursor, &REST));
    assert!(rt; cursor.is_at_end() && !finds(&mut cursor, &REST));
}

// Whether a byte string with these bytes comes next.
fn reads_blob(cursor: &mut Cursor<'_>, bytes: &[u8]) -> bool {
    match cursor.blob() {
        Some(read) => read == bytes,
        None => false,
    }
}

#[test]
fn a_cursor_reads_one_kind_or_stays(rt: HostRuntime) {
    let mut cursor = Cursor::new(EXAMPLES);
    assert!(rt; cursor.uint().is_none() && cursor.array() == Some(10));
    assert!(rt; cursor.array().is_none() && cursor.link().is_none());
    assert!(rt; !reads_blob(&mut cursor, &[]) && cursor.uint() == Some(1000));
    assert!(rt; cursor.uint().is_none() && skips(&mut cursor, &[0x20]));
    assert!(rt; reads_blob(&mut cursor, &[1, 2, 3, 4]));
}

// A byte string and a text, as a writer has them.
fn strings(alloc: Global) -> Result<Vec<u8>, Fail> {
    let mut writer = Writer::new(alloc);
    writer.blob(&[1, 2, 3, 4])?;
    writer.text(b"IETF")?;
    Ok(Vec::from_slice(alloc, writer.finish().as_slice())?)
}

#[test]
fn strings_are_written_as_the_examples_have_them(rt: HostRuntime) -> Result<(), Fail> {
    assert!(rt; strings(rt.alloc())?.as_slice() == b"\x44\x01\x02\x03\x04\x64IETF".as_slice());
    Ok(())
}
