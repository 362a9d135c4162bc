//! Reading one part. Its steps are inlined, since a part is large to hand on from one to the next.
ghost use Rattle.std.specs.Prelude.{◌≡◌, ◌+◌, ◌*◌, ◌<◌, ◌≤◌, ◌^◌, length, IfOk, Result, Err, Some};
ghost use Rattle.ss_cbor.specs.Position.{Gives};
ghost use Rattle.ss_cbor.specs.Item.{items_in};
ghost use Rattle.ss_cbor.specs.Part.{raw_part_of, raw_piece_of};
ghost use Rattle.ss_cbor.specs.Reading.{bytes_at, holding, content_at, simple_at, piece_at, part_from, part_at, linked, is_cid};

use crate::argument::argument_at;
use crate::fault::{CborFault, CborKind};
use crate::major::{ARRAY, BYTES, LINK_TAG, MAP, NEGATIVE, SIMPLE, TEXT, UNSIGNED};
use crate::raw_part::RawPart;
use ss_cid::Cid;

/// The most items that may be due.
const MAX_DUE: u64 = (1 << 63) - 1;

// So many bytes, and those after them.
#[tactic(auto, unfolding(crate::specs::Reading::bytes_at))]
#[inline(always)]
fn bytes_at(len: u64, end: usize, bytes: &[u8]) -> Result<(&[u8], &[u8]), CborFault>
    ensures value { Gives (λ x. (x.0.now, x.1.now)) result (bytes_at len end bytes.now) }
    ensures shorter { IfOk result (λ x. length x.1.now ≤ length bytes.now) }
{
    if (bytes.len() as u64) < len {
        return Err(CborKind::Truncated.at(end));
    }
    Ok(bytes.split_at(len as usize))
}

// The part of a head that holds items, after which `due` items are due.
#[tactic(auto, unfolding(crate::specs::Reading::holding))]
#[inline(always)]
fn holding<'a>(
    part: RawPart<'a>,
    due: u64,
    at: usize,
    bytes: &'a [u8],
) -> Result<(Option<RawPart<'a>>, &'a [u8]), CborFault>
    requires { due < 2 ^ 63 }
    ensures value { Gives (λ x. (raw_piece_of x.0, x.1.now)) result (holding (raw_part_of part.entry) due at bytes.now) }
    ensures shorter { IfOk result (λ x. length x.1.now ≤ length bytes.now) }
{
    if part.items_in() > MAX_DUE - due {
        return Err(CborKind::CountTooLarge.at(at));
    }
    Ok((Some(part), bytes))
}

// What a head stands for, with its content. None is tag 42, after which a link's bytes come.
#[tactic(auto, unfolding(crate::specs::Reading::content_at))]
#[inline(always)]
fn content_at<'a>(
    major: u8,
    n: u64,
    due: u64,
    at: usize,
    end: usize,
    bytes: &'a [u8],
) -> Result<(Option<RawPart<'a>>, &'a [u8]), CborFault>
    requires { due < 2 ^ 63 }
    ensures value { Gives (λ x. (raw_piece_of x.0, x.1.now)) result (content_at major n due at end bytes.now) }
    ensures shorter { IfOk result (λ x. length x.1.now ≤ length bytes.now) }
{
    match major {
        UNSIGNED => Ok((Some(RawPart::Uint(n)), bytes)),
        NEGATIVE => Ok((Some(RawPart::Nint(n)), bytes)),
        BYTES => {
            let (content, rest) = bytes_at(n, end, bytes)?;
            Ok((Some(RawPart::Blob(content)), rest))
        }
        TEXT => {
            let (content, rest) = bytes_at(n, end, bytes)?;
            Ok((Some(RawPart::Text(content)), rest))
        }
        ARRAY => holding(RawPart::Array(n), due, at, bytes),
        MAP => holding(RawPart::Map(n), due, at, bytes),
        _ if n == LINK_TAG => Ok((None, bytes)),
        _ => Err(CborKind::OtherTag.at(at)),
    }
}

// What a first byte of major type 7 stands for.
#[tactic(auto, unfolding(crate::specs::Reading::simple_at))]
#[inline(always)]
fn simple_at<'a>(
    byte: u8,
    at: usize,
    end: usize,
    bytes: &'a [u8],
) -> Result<(Option<RawPart<'a>>, &'a [u8]), CborFault>
    ensures value { Gives (λ x. (raw_piece_of x.0, x.1.now)) result (simple_at byte at end bytes.now) }
    ensures shorter { IfOk result (λ x. length x.1.now ≤ length bytes.now) }
{
    match byte {
        0xf4 => Ok((Some(RawPart::Bool(false)), bytes)),
        0xf5 => Ok((Some(RawPart::Bool(true)), bytes)),
        0xf6 => Ok((Some(RawPart::Null), bytes)),
        0xfb => {
            let (_, rest) = bytes_at(8, end, bytes)?;
            Ok((Some(RawPart::Float), rest))
        }
        _ => Err(CborKind::BadSimple.at(at)),
    }
}

// One head with its content, after which `due` items are due. None is tag 42.
#[tactic(auto, unfolding(crate::specs::Reading::piece_at))]
#[inline(always)]
fn piece_at<'a>(
    due: u64,
    end: usize,
    bytes: &'a [u8],
) -> Result<(Option<RawPart<'a>>, &'a [u8]), CborFault>
    requires due { due < 2 ^ 63 }
    requires end { length bytes.now ≤ end }
    ensures value { Gives (λ x. (raw_piece_of x.0, x.1.now)) result (piece_at due end bytes.now) }
    ensures shorter { IfOk result (λ x. length x.1.now < length bytes.now) }
{
    let [byte, rest @ ..] = bytes else {
        return Err(CborKind::Truncated.at(end));
    };
    let at = end - bytes.len();
    let major = *byte / 32;
    if major == SIMPLE {
        return simple_at(*byte, at, end, rest);
    }
    let (n, rest) = argument_at(major, *byte % 32, at, end, rest)?;
    content_at(major, n, due, at, end, rest)
}

// Whether the bytes are one whole CID.
#[tactic(auto, unfolding(crate::specs::Reading::is_cid, ss_cid::specs::Cid::cid_at))]
fn is_cid(bytes: &[u8]) -> bool
    ensures { result ≡ is_cid bytes.now }
{
    match Cid::parse(bytes) {
        Ok((_, len)) => len == bytes.len(),
        Err(_) => false,
    }
}

// The link that stands after a tag 42 at the offset `at`.
#[tactic(auto, unfolding(crate::specs::Reading::linked))]
fn linked(at: usize, piece: Option<RawPart<'_>>) -> Result<RawPart<'_>, CborFault>
    ensures { Gives raw_part_of result (linked at (raw_piece_of piece.entry)) }
{
    if let Some(RawPart::Blob([0, cid @ ..])) = piece {
        if is_cid(cid) {
            return Ok(RawPart::Link(cid));
        }
    }
    Err(CborKind::BadLink.at(at))
}

// The part that a piece at the offset `at` begins.
#[tactic(auto, unfolding(crate::specs::Reading::part_from))]
#[inline(always)]
fn part_from<'a>(
    due: u64,
    end: usize,
    at: usize,
    piece: Option<RawPart<'a>>,
    bytes: &'a [u8],
) -> Result<(RawPart<'a>, &'a [u8]), CborFault>
    requires due { due < 2 ^ 63 }
    requires end { length bytes.now ≤ end }
    ensures value { Gives (λ x. (raw_part_of x.0, x.1.now)) result (part_from due end at (raw_piece_of piece.entry) bytes.now) }
    ensures shorter { IfOk result (λ x. length x.1.now ≤ length bytes.now) }
{
    match piece {
        Some(part) => Ok((part, bytes)),
        None => {
            let (piece, rest) = piece_at(due, end, bytes)?;
            let part = linked(at, piece)?;
            Ok((part, rest))
        }
    }
}

/// Reads the part that the bytes begin with, after which `due` items are due: the part and what is after it.
#[tactic(auto, unfolding(crate::specs::Reading::part_at))]
#[inline(always)]
pub fn part_at<'a>(
    due: u64,
    end: usize,
    bytes: &'a [u8],
) -> Result<(RawPart<'a>, &'a [u8]), CborFault>
    requires due { due < 2 ^ 63 }
    requires end { length bytes.now ≤ end }
    ensures value { Gives (λ x. (raw_part_of x.0, x.1.now)) result (part_at due end bytes.now) }
    ensures shorter { IfOk result (λ x. length x.1.now < length bytes.now) }
    ensures due { IfOk result (λ x. due + items_in (raw_part_of x.0) < 2 ^ 63) }
{
    let at = end - bytes.len();
    let (piece, rest) = piece_at(due, end, bytes)?;
    part_from(due, end, at, piece, rest)
}
