//! One item without those that it holds.
use ss_cid::Cid;

/// What a cursor finds: one item, but of an array and a map the count alone, since a cursor enters them.
#[derive(Clone, Copy, Debug, PartialEq, Eq)]
pub enum Item<'a> {
    /// A number, at least 0.
    Uint(u64),
    /// The number -1 - n.
    Nint(u64),
    /// A byte string.
    Blob(&'a [u8]),
    /// A text, whose bytes are not checked.
    Text(&'a [u8]),
    /// An array of so many items, which follow.
    Array(u64),
    /// A map of so many pairs, which follow, each as a key and its value.
    Map(u64),
    /// A link, which is tag 42 over a CID.
    Link(Cid),
    /// A float, whose value is passed over.
    Float,
    /// False or true.
    Bool(bool),
    /// Null.
    Null,
}
