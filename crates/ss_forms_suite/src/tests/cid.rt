use ss_cid::{
    CODEC_DAG_CBOR, CODEC_DAG_PB, CODEC_RAW, CODEC_SEALED, CODEC_UNSEALED, Cid, CidFault,
    HASH_BLAKE2B_256, HASH_IDENTITY, HASH_SHA2_256, read_varint, write_varint,
};
use std::test::Fail;

/// Raw, SHA-256 of `abc`: the digest is that of FIPS 180, and Python's base64 computes the text.
const ABC: [u8; 36] =
    *b"\x01\x55\x12\x20\xba\x78\x16\xbf\x8f\x01\xcf\xea\x41\x41\x40\xde\x5d\xae\x22\x23\xb0\x03\x61\xa3\x96\x17\x7a\x9c\xb4\x10\xff\x61\xf2\x00\x15\xad";

const ABC_TEXT: &[u8] = b"bafkreif2pall7dybz7vecqka3zo24irdwabwdi4wc55jznaq75q7eaavvu";

/// Raw, SHA-256 of no bytes: Python's hashlib computes the digest, and its base64 the text.
const EMPTY: [u8; 36] =
    *b"\x01\x55\x12\x20\xe3\xb0\xc4\x42\x98\xfc\x1c\x14\x9a\xfb\xf4\xc8\x99\x6f\xb9\x24\x27\xae\x41\xe4\x64\x9b\x93\x4c\xa4\x95\x99\x1b\x78\x52\xb8\x55";

const EMPTY_TEXT: &[u8] = b"bafkreihdwdcefgh4dqkjv67uzcmw7ojee6xedzdetojuzjevtenxquvyku";

/// DAG-CBOR, BLAKE2b of `abc`: Python's hashlib computes the digest, and its base64 the text.
const BLAKE: [u8; 38] =
    *b"\x01\x71\xa0\xe4\x02\x20\xbd\xdd\x81\x3c\x63\x42\x39\x72\x31\x71\xef\x3f\xee\x98\x57\x9b\x94\x96\x4e\x3b\xb1\xcb\x3e\x42\x72\x62\xc8\xc0\x68\xd5\x23\x19";

const BLAKE_TEXT: &[u8] = b"bafy2bzacec653aj4mnbds4rrohxt73uyk6nzjfsohoy4wpscojrmrqdi2urrs";

// The first text is that of docs/FORMATS.md; Python's base64 computed those from the fifth on.
// Behind the `b` they have 7, 58, 58, 61, 8, 10, 12, 13, 10 and 10 characters: each number modulo 8
// that a text can leave, which is 0, 2, 4, 5 and 7.
const TEXTS: [(&[u8], &[u8]); 10] = [
    (b"\x01\x55\x00\x00", b"bafkqaaa"),
    (&ABC, ABC_TEXT),
    (&EMPTY, EMPTY_TEXT),
    (&BLAKE, BLAKE_TEXT),
    (b"\x01\x55\x00\x01a", b"bafkqaalb"),
    (b"\x01\x55\x00\x02ab", b"bafkqaatbmi"),
    (b"\x01\x55\x00\x03abc", b"bafkqaa3bmjrq"),
    (b"\x01\x55\x00\x04abcd", b"bafkqabdbmjrwi"),
    (b"\x01\x81\xe2\x03\x00\x00", b"baga6eayaaa"),
    (b"\x01\x82\xe2\x03\x00\x00", b"bagboeayaaa"),
];

// Whether these bytes and this text are one CID, and each is written from the other.
fn is_text_of(text: &[u8], bytes: &[u8]) -> Result<bool, CidFault> {
    let (cid, len) = Cid::parse(bytes)?;
    let mut out = [0; 120];
    let written = cid.write_text(&mut out);
    Ok(len == bytes.len() && &out[..written] == text && Cid::from_text(text)?.as_bytes() == bytes)
}

#[test]
fn bytes_have_their_texts(rt: HostRuntime) -> Result<(), Fail> {
    for (bytes, text) in TEXTS {
        assert!(rt; is_text_of(text, bytes)?, "at {bytes:?}");
    }
    Ok(())
}

// The bytes are those of the table of codecs and hash codes in docs/FORMATS.md.
const CODES: [(u64, u64, &[u8]); 7] = [
    (CODEC_RAW, HASH_IDENTITY, b"\x01\x55\x00\x00"),
    (CODEC_DAG_PB, HASH_IDENTITY, b"\x01\x70\x00\x00"),
    (CODEC_DAG_CBOR, HASH_IDENTITY, b"\x01\x71\x00\x00"),
    (CODEC_UNSEALED, HASH_IDENTITY, b"\x01\x81\xe2\x03\x00\x00"),
    (CODEC_SEALED, HASH_IDENTITY, b"\x01\x82\xe2\x03\x00\x00"),
    (CODEC_RAW, HASH_SHA2_256, b"\x01\x55\x12\x00"),
    (CODEC_RAW, HASH_BLAKE2B_256, b"\x01\x55\xa0\xe4\x02\x00"),
];

#[test]
fn codes_have_their_bytes(rt: HostRuntime) -> Result<(), Fail> {
    for (codec, hash, bytes) in CODES {
        assert!(rt; codec < 1 << 63 && hash < 1 << 63);
        assert!(rt;
            Cid::make(codec, hash, b"")?.as_bytes() == bytes,
            "at {bytes:?}"
        );
    }
    Ok(())
}

const BAD_BYTES: [(&[u8], CidFault); 10] = [
    (b"", CidFault::Short { at: 0 }),
    (b"\x01\x55", CidFault::Short { at: 2 }),
    (b"\x01\x55\x12\x20\xba\x78", CidFault::Short { at: 6 }),
    (b"\x12\x20\xba", CidFault::NotV1 { version: 18 }),
    (b"\x81\x00", CidFault::LongVarint { at: 0 }),
    (b"\x01\xd5\x80\x00", CidFault::LongVarint { at: 1 }),
    (
        b"\x01\x55\xff\xff\xff\xff\xff\xff\xff\xff\xff",
        CidFault::LongVarint { at: 2 },
    ),
    (
        b"\x01\x55\xff\xff\xff\xff\xff\xff\xff\xff",
        CidFault::Short { at: 10 },
    ),
    (b"\x01\x55\x12\x45", CidFault::TooLong { len: 69 }),
    (
        b"\x01\x55\x12\xff\xff\xff\xff\xff\xff\xff\xff\x7f",
        CidFault::TooLong {
            len: 0x7fff_ffff_ffff_ffff,
        },
    ),
];

#[test]
fn each_fault_of_bytes_has_its_place(rt: HostRuntime) {
    for (bytes, fault) in BAD_BYTES {
        assert!(rt; Cid::parse(bytes) == Err(fault), "at {bytes:?}");
    }
}

const BAD_TEXTS: [(&[u8], CidFault); 13] = [
    (b"", CidFault::BadText { at: 0 }),
    (b"Bafkqaaa", CidFault::BadText { at: 0 }),
    (&[b'b'; 118], CidFault::BadText { at: 117 }),
    (b"bafkqAaa1", CidFault::BadText { at: 5 }),
    (b"bafkqaaa=", CidFault::BadText { at: 8 }),
    (b"ba", CidFault::BadText { at: 2 }),
    (b"baaa", CidFault::BadText { at: 4 }),
    (b"bafkqaa", CidFault::BadText { at: 7 }),
    (b"bafkqaab", CidFault::BadText { at: 7 }),
    (b"b", CidFault::Short { at: 0 }),
    (b"baa", CidFault::NotV1 { version: 0 }),
    (b"bafkqa", CidFault::Short { at: 3 }),
    (b"bafkqaaaa", CidFault::BadText { at: 9 }),
];

#[test]
fn each_fault_of_a_text_has_its_place(rt: HostRuntime) {
    for (text, fault) in BAD_TEXTS {
        assert!(rt; Cid::from_text(text) == Err(fault), "at {text:?}");
    }
}

// 127, 128, 300 and 16384 are examples of the multiformats specification of unsigned varints, and
// 0xb220 is in the table of hash codes. The rest is worked out by hand.
const VARINTS: [(u64, &[u8]); 8] = [
    (0, b"\x00"),
    (127, b"\x7f"),
    (128, b"\x80\x01"),
    (300, b"\xac\x02"),
    (16383, b"\xff\x7f"),
    (16384, b"\x80\x80\x01"),
    (0xb220, b"\xa0\xe4\x02"),
    (
        0x7fff_ffff_ffff_ffff,
        b"\xff\xff\xff\xff\xff\xff\xff\xff\x7f",
    ),
];

// Whether a number below 2^63 is written and read as these bytes.
fn is_varint_of(bytes: &[u8], number: u64) -> bool {
    let mut out = [0; 9];
    if number >= 1 << 63 {
        return false;
    }
    let len = write_varint(number, &mut out);
    &out[..len] == bytes && read_varint(bytes) == Ok((number, len))
}

#[test]
fn varints_are_read_and_written(rt: HostRuntime) {
    for (number, bytes) in VARINTS {
        assert!(rt; is_varint_of(bytes, number), "at {number}");
    }
}
