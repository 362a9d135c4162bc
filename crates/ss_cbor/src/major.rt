//! The major types of heads (RFC 8949, section 3.1), and the tag of a link.

/// A number, at least 0.
pub const UNSIGNED: u8 = 0;

/// A number below 0.
pub const NEGATIVE: u8 = 1;

/// A byte string.
pub const BYTES: u8 = 2;

/// A text.
pub const TEXT: u8 = 3;

/// An array.
pub const ARRAY: u8 = 4;

/// A map.
pub const MAP: u8 = 5;

/// A tag.
pub const TAG: u8 = 6;

/// A simple value or a float.
pub const SIMPLE: u8 = 7;

/// The tag of a link.
pub const LINK_TAG: u64 = 42;
