use ss_car::{write_header, write_section};
use ss_cid::{Cid, Cids};
use ss_io::MemorySink;
use std::alloc::Global;
use std::test::Fail;

// Raw, SHA-256 of `abc`.
const ABC: &[u8] =
    b"\x01\x55\x12\x20\xba\x78\x16\xbf\x8f\x01\xcf\xea\x41\x41\x40\xde\x5d\xae\x22\x23\xb0\x03\x61\xa3\x96\x17\x7a\x9c\xb4\x10\xff\x61\xf2\x00\x15\xad";

// The CAR of the block `abc`, without roots and with `abc` as its root.
const ROOTLESS: &[u8] =
    b"\x11\xa2\x65roots\x80\x67version\x01\x27\x01\x55\x12\x20\xba\x78\x16\xbf\x8f\x01\xcf\xea\x41\x41\x40\xde\x5d\xae\x22\x23\xb0\x03\x61\xa3\x96\x17\x7a\x9c\xb4\x10\xff\x61\xf2\x00\x15\xadabc";

const ROOTED: &[u8] =
    b"\x3a\xa2\x65roots\x81\xd8\x2a\x58\x25\0\x01\x55\x12\x20\xba\x78\x16\xbf\x8f\x01\xcf\xea\x41\x41\x40\xde\x5d\xae\x22\x23\xb0\x03\x61\xa3\x96\x17\x7a\x9c\xb4\x10\xff\x61\xf2\x00\x15\xad\x67version\x01\x27\x01\x55\x12\x20\xba\x78\x16\xbf\x8f\x01\xcf\xea\x41\x41\x40\xde\x5d\xae\x22\x23\xb0\x03\x61\xa3\x96\x17\x7a\x9c\xb4\x10\xff\x61\xf2\x00\x15\xadabc";

// Whether these bytes are written for the block `abc`, with it as root or without roots.
fn is_written(alloc: Global, is_root: bool, car: &[u8]) -> Result<bool, Fail> {
    let (cid, _) = Cid::parse(ABC)?;
    let mut roots = Cids::new(alloc);
    if is_root {
        roots.push(cid)?;
    }
    let mut sink = MemorySink::new(alloc);
    write_header(alloc, &mut sink, &roots)?;
    write_section(alloc, &mut sink, &cid, b"abc")?;
    Ok(sink.written() == car)
}

#[test]
fn a_car_has_its_bytes(rt: HostRuntime) -> Result<(), Fail> {
    assert!(rt; is_written(rt.alloc(), false, ROOTLESS)?);
    assert!(rt; is_written(rt.alloc(), true, ROOTED)?);
    Ok(())
}
