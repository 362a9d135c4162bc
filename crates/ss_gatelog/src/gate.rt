// What stands at a gate of a log's file.
ghost use Rattle.std.specs.Prelude.{◌≡◌, ◌⊎◌, ◌+◌, ◌^◌, ◌<◌, ◌≤◌, ℕ, List, length, MatchOption};
ghost use Rattle.ss_gatelog.specs.Log.{longest_body};
ghost use Rattle.ss_gatelog.specs.Gate.{LeadTo, IsPiece, IsGate, IsGateWithin, IsHeader};

use crate::frame::{HEAD, LONGEST_BODY, OPEN, length_of};

/// What stands at a gate.
#[derive(Clone, Copy, PartialEq, Eq)]
pub(crate) enum Gate {
    Closed,
    /// An open gate after which no record fits.
    Unfit,
    /// An open gate and a record, after which the next gate stands at `next`.
    Record { next: u64 },
    /// An open gate of which the record's header was not read whole.
    Cut,
}

/// What the first bytes of a record are.
#[derive(Clone, Copy, PartialEq, Eq)]
pub(crate) enum Header {
    Closed,
    Open { length: u32 },
    /// An open gate with fewer than four bytes after it.
    Cut,
}

/// Judges the gate at `at` of a file of `size` bytes, of which the first `limit` are used, by the bytes from there on.
pub(crate) fn judge(bytes: &[u8], at: u64, size: u64, limit: u64) -> Gate
    requires some { 1 ≤ length bytes.now }
    requires place { (at < size) × (at < limit) × (limit ≤ 2 ^ 40) }
    ensures stands { (file : List ℕ) (records : List (List ℕ)) → length file ≡ size → 1 < size → IsPiece file at bytes.now → LeadTo limit file records at → IsGate limit file records at result }
    ensures within { IsGateWithin at size limit (length bytes.now) result }
{
    match read_header(bytes) {
        Header::Closed => Gate::Closed,
        Header::Cut if size < at + HEAD => Gate::Unfit,
        Header::Cut => Gate::Cut,
        Header::Open { length } => match next_gate(at, length, size, limit) {
            Some(next) => Gate::Record { next },
            None => Gate::Unfit,
        },
    }
}

fn read_header(bytes: &[u8]) -> Header
    requires { 1 ≤ length bytes.now }
    ensures { IsHeader bytes.now result }
{
    if bytes[0] != OPEN {
        return Header::Closed;
    }
    match &bytes[1..] {
        [a, b, c, d, ..] => Header::Open {
            length: length_of(&[*a, *b, *c, *d]),
        },
        _ => Header::Cut,
    }
}

/// The gate after a record of this length, where it is in the file and in its first `limit` bytes.
fn next_gate(at: u64, length: u32, size: u64, limit: u64) -> Option<u64>
    requires { at < 2 ^ 40 }
    ensures { MatchOption result ((longest_body < length) ⊎ (size ≤ at + 5 + length) ⊎ (limit ≤ at + 5 + length)) (λ next. (next ≡ at + 5 + length) × (length ≤ longest_body) × (next < size) × (next < limit)) }
{
    let next = at + HEAD + u64::from(length);
    if length > LONGEST_BODY || next >= size || next >= limit {
        return None;
    }
    Some(next)
}
