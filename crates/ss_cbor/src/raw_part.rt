//! One part of an item.
ghost use Rattle.std.specs.Prelude.{◌≡◌, ◌-◌, ◌^◌, min};

/// An item without those that it holds. A link is told by the bytes of its CID.
#[derive(Clone, Copy)]
pub enum RawPart<'a> {
    Uint(u64),
    Nint(u64),
    Blob(&'a [u8]),
    Text(&'a [u8]),
    Array(u64),
    Map(u64),
    Link(&'a [u8]),
    Float,
    Bool(bool),
    Null,
}

impl<'a> RawPart<'a> {
    ghost use Rattle.std.specs.Prelude.{[], IfSome, IfNone};
    ghost use Rattle.ss_cbor.specs.Item.{link, items_in, links_of};
    ghost use Rattle.ss_cbor.specs.Part.{raw_part_of};

    /// How many items the part holds, at most 2^64 - 1: a map has a key and a value for each pair.
    #[inline]
    pub fn items_in(&self) -> u64
        ensures { result ≡ min (items_in (raw_part_of self.now)) (2 ^ 64 - 1) }
    {
        match self {
            RawPart::Array(n) => *n,
            RawPart::Map(n) => n.saturating_mul(2),
            _ => 0,
        }
    }

    /// The bytes of the CID, where the part is a link.
    #[inline]
    pub fn link(self) -> Option<&'a [u8]>
        ensures some { IfSome result (λ cid. raw_part_of self.entry ≡ link cid.now) }
        ensures none { IfNone result (links_of (raw_part_of self.entry) ≡ []) }
    {
        match self {
            RawPart::Link(cid) => Some(cid),
            _ => None,
        }
    }
}
