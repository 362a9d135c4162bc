//! The fields of a line: a client, a number, a CID, the bytes of a block.

ghost use Rattle.std.specs.Prelude.{◌≡◌, ◌<◌, ◌≤◌, Ok, IfOk};
ghost use Rattle.std.specs.List.{list_all};
ghost use Rattle.std.specs.Char.{is_ascii_digit};
ghost use Rattle.ss_cid.specs.Cid.{cid_at};
ghost use Rattle.ss_script.specs.Fault.{Reads};
ghost use Rattle.ss_script.specs.Fields.{client_of, number_of, is_number, whole_cid, cid_of_digits, cid_of, data_of};

use crate::fault::{LineFault, ScriptKind};
use ss_cid::{Bytes, Cid};
use std::alloc::Global;
use std::str;

// The most bytes of a CID.
const CID_BYTES: usize = 72;

// Reads the number of a client: one digit, below `clients`.
#[tactic(auto, unfolding(crate::specs::Fields::client_of))]
pub(crate) fn read_client(field: &[u8], clients: u8) -> Result<u8, ScriptKind>
    requires { clients ≤ 8 }
    ensures client { result ≡ client_of clients field.now }
    ensures below { IfOk result (λ client. client < clients) }
{
    let [digit] = field else {
        return Err(ScriptKind::BadClient);
    };
    if *digit < b'0' || b'0' + clients <= *digit {
        return Err(ScriptKind::BadClient);
    }
    Ok(*digit - b'0')
}

// Reads a decimal number below 2^32 without leading zeros.
#[tactic(auto, unfolding(crate::specs::Fields::number_of))]
pub(crate) fn read_number(field: &[u8]) -> Result<u32, ScriptKind>
    ensures { result ≡ number_of field.now }
{
    if !is_number(field) {
        return Err(ScriptKind::BadNumber);
    }
    match str::from_utf8(field) {
        Ok(digits) => digits.parse().ok().ok_or(ScriptKind::BadNumber),
        Err(_) => Err(ScriptKind::BadNumber),
    }
}

/// Whether the bytes are decimal digits, of which the first is no zero unless it stands alone.
pub fn is_number(field: &[u8]) -> bool
    ensures { result ≡ is_number field.now }
{
    !field.is_empty() && is_all_digits(field) && (field.len() == 1 || field[0] != b'0')
}

fn is_all_digits(field: &[u8]) -> bool
    ensures { result ≡ list_all is_ascii_digit field.now }
{
    field.iter().all(|byte| byte.is_ascii_digit())
}

// Reads a CID: its bytes in hexadecimal, which begin with 0, or else its text.
#[tactic(auto, unfolding(crate::specs::Fields::cid_of))]
pub(crate) fn read_cid(field: &[u8]) -> Result<Cid, ScriptKind>
    ensures { result ≡ cid_of field.now }
{
    let cid = match field.first() {
        Some(b'0') => cid_of_digits(field),
        _ => Cid::from_text(field).ok(),
    };
    cid.ok_or(ScriptKind::BadCid)
}

fn cid_of_digits(field: &[u8]) -> Option<Cid>
    ensures { result ≡ cid_of_digits field.now }
{
    let mut room = [0u8; CID_BYTES];
    let len = field.len() / 2;
    if len > CID_BYTES {
        return None;
    }
    let bytes = &mut room[..len];
    match hex::decode_to_slice(field, bytes) {
        Ok(()) => whole_cid(bytes),
        Err(_) => None,
    }
}

// The CID that is all of some bytes.
fn whole_cid(bytes: &[u8]) -> Option<Cid>
    ensures { result ≡ whole_cid bytes.now (cid_at bytes.now) }
{
    match Cid::parse(bytes) {
        Ok((cid, len)) => all_of(cid, len, bytes),
        Err(_) => None,
    }
}

// The CID, where it takes all of the bytes.
fn all_of(cid: Cid, len: usize, bytes: &[u8]) -> Option<Cid>
    ensures { result ≡ whole_cid bytes.now (Ok (cid, len)) }
{
    if len == bytes.len() { Some(cid) } else { None }
}

// Reads the bytes of a block. Their digits are most of a script, and decoding them is slower where this is inlined.
#[inline(never)]
#[tactic(auto, unfolding(crate::specs::Fields::data_of))]
pub(crate) fn read_block(alloc: Global, field: &[u8]) -> Result<Bytes, LineFault>
    ensures { Reads result (data_of field.now) }
{
    if field == b"-".as_slice() {
        return Ok(Bytes::new(alloc));
    }
    match hex::decode(alloc, field) {
        Ok(bytes) => Ok(Bytes::from(bytes)),
        Err(hex::FromHexError::OutOfMemory) => Err(LineFault::NoMemory),
        Err(_) => Err(LineFault::Bad(ScriptKind::BadHex)),
    }
}
