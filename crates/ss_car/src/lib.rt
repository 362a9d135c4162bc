//! CARs of version 1: a header with its roots, and sections of a CID and its block (the IPLD specification CARv1).
//!
//! The grammar is `specs/Car.antt`. A length is an unsigned varint of what follows it. A header is one item of DAG-CBOR, a
//! map with exactly the keys `roots`, an array of links, and `version`, a number, and has at most 1,048,576 bytes; a section
//! has at most 8,388,608. That there may be no root, that the keys come in either order and the two limits are this
//! project's own. Blocks may repeat, and are not compared with their CIDs.
//!
//! [`CarReader`] reads a source in whatever pieces it gives its bytes: the roots, then one section after another, and then
//! the end, which comes exactly where no byte is left. A refusal has the offset of the header, which is 0, or of the
//! section's length, and is answered again from then on. At a header or a section at offset p these are tested in order:
//!
//! 1. the first nine bytes of the length all have the high bit: `BadLength`; the input ends inside the length: `Truncated`; it is
//!    not in its shortest form: `BadLength`;
//! 2. the length passes the limit: `TooLarge`;
//! 3. fewer bytes are left: `Truncated`;
//! 4. of a header, the bytes are no such map: `BadHeader`; its version is not 1: `BadVersion`;
//! 5. of a section, it has no bytes: `ZeroSection`; it does not begin with a CID: `BadCid`.
//!
//! `ReadFault` is answered exactly where the source failed, and `NoMemory` where memory ran out.
//!
//! [`write_header`] and [`write_section`] append a CAR to a sink, the key `roots` first. What they write within the limits is
//! read again (`laws`). They check no limit, and do not compare a block with its CID.
#![tactic(auto)]

mod fault;
mod framed;
mod header;
pub mod laws;
mod reader;
mod section;
mod writer;

pub use fault::{CarFault, CarRefusal, CarWriteFault};
pub use reader::CarReader;
pub use writer::{write_header, write_section};
