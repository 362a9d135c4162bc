//! DAG-CBOR: one item and its links, read from hostile bytes and written.
//!
//! The grammar is `specs/Item.antt`: a head is that of CBOR (RFC 8949, section 3) in its shortest form, and a link
//! is tag 42 over the byte 00 and one CID (the IPLD specification of DAG-CBOR). This profile is lenient: a
//! text's bytes are not checked, a key is any item, keys come in any order and may repeat, and the eight bytes
//! of a float are passed over. Nesting has no limit.
//!
//! [`scan`] accepts exactly the bytes that are one item, and gives its links in order of bytes; of other bytes it
//! gives the first fault from left to right, with its offset. [`Cursor`] reads part by part, or a whole item at
//! once. [`Writer`] spells parts. That bytes have one reading, as an item or by their first fault, and that what
//! is spelled is read again, is in [`laws`]. `scan`, [`Links`] and [`Cursor`] take no memory, and no stack that
//! grows with the input: a loop counts the items that are still due.
//!
//! At a head at offset p the faults are tested in this order, and `Truncated` carries the input's length:
//!
//! 1. there is no byte: `Truncated`;
//! 2. major type 7 with a first byte other than `f4`, `f5`, `f6` and `fb`: `BadSimple` at p; `fb` without eight
//!    bytes after it: `Truncated`;
//! 3. a byte string, text, array or map without a length: `Indefinite` at p;
//! 4. another reserved form of the argument: `LongHead` at p;
//! 5. bytes of the argument are missing: `Truncated`;
//! 6. the argument is not in its shortest form: `LongHead` at p;
//! 7. a tag other than 42: `OtherTag` at p;
//! 8. content of a byte string or a text is missing: `Truncated`;
//! 9. with the items that an array or a map holds, more than 2^63 - 1 items are due: `CountTooLarge` at p.
//!
//! After tag 42 the faults of the next head come first, at their own offsets; then, where that is no byte
//! string or its content is not the byte 00 and one whole CID, `BadLink` at the tag. Bytes after the item are
//! `Trailing` at the first of them.
#![tactic(auto)]

mod argument;
mod cursor;
mod fault;
mod item;
pub mod laws;
mod links;
mod major;
mod raw_part;
mod reading;
mod scanner;
mod writer;

pub use cursor::Cursor;
pub use fault::{CborFault, CborKind};
pub use item::Item;
pub use links::Links;
pub use scanner::scan;
pub use writer::Writer;
