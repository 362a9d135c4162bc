//! The call of a line.

ghost use Rattle.std.specs.Prelude.{◌≡◌, ◌<◌, ◌≤◌, ◌||◌, ◌∷◌, MatchResult, IfOk, Ok, Err, codes};
ghost use Rattle.std.specs.Str.{bytes_eq};
ghost use Rattle.ss_script.specs.Fault.{Reads};
ghost use Rattle.ss_script.specs.Fields.{ended, fields_of, field_by, first_by};
ghost use Rattle.ss_script.specs.Script.{pairs_of, cids_of, bare_of, close_of, put_of, view_and_cid_of, cid_call_of, head_of, named_call, call_of};
ghost use Rattle.ss_script.specs.Views.{closing_view};

use crate::fault::{LineFault, ScriptKind};
use crate::field::{read_block, read_cid, read_client, read_number};
use crate::pieces::Pieces;
use ss_cid::{Cid, Cids, Parcel};
use std::alloc::Global;

/// A call as a line asks for it. The view is the client's own count of its `open` lines, from 0.
#[derive(Debug, Drop)]
pub enum ScriptCall {
    /// Opens a view.
    OpenView,
    /// Closes a view.
    CloseView { view: u32 },
    /// Puts blocks through a view.
    Put { view: u32, parcel: Parcel },
    /// Reads a block through a view.
    Get { view: u32, cid: Cid },
    /// Asks through a view whether a block is kept.
    Has { view: u32, cid: Cid },
    /// Asks through a view how many bytes a block has.
    Size { view: u32, cid: Cid },
    /// Sets a tipset as head.
    SetHead { cids: Cids },
    /// Asks for the settings and the counts.
    Info,
}

impl ScriptCall {
    /// The client's view that the call asks to close.
    pub fn closing_view(&self) -> Option<u32>
        ensures { result ≡ closing_view self.now }
    {
        match self {
            ScriptCall::CloseView { view } => Some(*view),
            _ => None,
        }
    }
}

// Reads the client, one of so many, and the call of a line that holds one.
pub(crate) fn read_call(
    alloc: Global,
    line: &[u8],
    clients: u8,
) -> Result<(u8, ScriptCall), LineFault>
    requires { clients ≤ 8 }
    ensures call { Reads result (call_of clients (fields_of line.now)) }
    ensures client { IfOk result (λ call. call.0 < clients) }
{
    let mut fields = Pieces::new(line, b' ');
    let client = read_client(next_field(&mut fields)?, clients)?;
    let name = next_field(&mut fields)?;
    let call = read_named_call(alloc, name, fields)?;
    Ok((client, call))
}

// Takes the next field: it is there, and not empty.
fn next_field<'a>(fields: &mut Pieces<'a>) -> Result<&'a [u8], ScriptKind>
    ensures field { MatchResult result (λ field. first_by Ok fields.old ≡ Ok (field.now, fields.new)) (λ kind. first_by Ok fields.old ≡ Err kind) }
    ensures taken { IfOk result (λ field. fields.old ≡ field.now ∷ fields.new) }
{
    let field = fields.next().ok_or(ScriptKind::BadFields)?;
    not_empty(field)
}

// Sees that a field is not empty.
fn not_empty(field: &[u8]) -> Result<&[u8], ScriptKind>
    ensures { MatchResult result (λ same. field_by Ok field.now ≡ Ok same.now) (λ kind. field_by Ok field.now ≡ Err kind) }
{
    if field.is_empty() {
        Err(ScriptKind::BadFields)
    } else {
        Ok(field)
    }
}

// Sees that no field is left.
fn end_fields(mut fields: Pieces<'_>) -> Result<(), ScriptKind>
    ensures { result ≡ ended fields.entry }
{
    match fields.next() {
        None => Ok(()),
        Some(_) => Err(ScriptKind::BadFields),
    }
}

// Reads the call of this name from the fields after it.
fn read_named_call(alloc: Global, name: &[u8], fields: Pieces<'_>) -> Result<ScriptCall, LineFault>
    ensures { Reads result (named_call name.now fields.entry) }
{
    if name == b"open".as_slice() {
        Ok(read_bare(ScriptCall::OpenView, fields)?)
    } else if name == b"close".as_slice() {
        Ok(read_close(fields)?)
    } else if name == b"put".as_slice() {
        read_put(alloc, fields)
    } else if name == b"get".as_slice() {
        Ok(read_get(fields)?)
    } else if name == b"has".as_slice() {
        Ok(read_has(fields)?)
    } else if name == b"size".as_slice() {
        Ok(read_size(fields)?)
    } else if name == b"head".as_slice() {
        read_head(alloc, fields)
    } else if name == b"info".as_slice() {
        Ok(read_bare(ScriptCall::Info, fields)?)
    } else if is_not_yet_read(name) {
        Err(LineFault::Bad(ScriptKind::NotYet))
    } else {
        Err(LineFault::Bad(ScriptKind::UnknownCall))
    }
}

// Whether this is the name of a call that is not read so far.
fn is_not_yet_read(name: &[u8]) -> bool
    ensures { result ≡ (bytes_eq name.now (codes "begin") || bytes_eq name.now (codes "step")) }
{
    name == b"begin".as_slice() || name == b"step".as_slice()
}

// Reads a call that names nothing.
fn read_bare(call: ScriptCall, fields: Pieces<'_>) -> Result<ScriptCall, ScriptKind>
    ensures { result ≡ bare_of call fields.entry }
{
    end_fields(fields)?;
    Ok(call)
}

fn read_close(mut fields: Pieces<'_>) -> Result<ScriptCall, ScriptKind>
    ensures { result ≡ close_of fields.entry }
{
    let view = read_number(next_field(&mut fields)?)?;
    end_fields(fields)?;
    Ok(ScriptCall::CloseView { view })
}

// Reads a view and a CID, and no more.
fn read_view_and_cid(mut fields: Pieces<'_>) -> Result<(u32, Cid), ScriptKind>
    ensures { result ≡ view_and_cid_of fields.entry }
{
    let view = read_number(next_field(&mut fields)?)?;
    let cid = read_cid(next_field(&mut fields)?)?;
    end_fields(fields)?;
    Ok((view, cid))
}

fn read_get(fields: Pieces<'_>) -> Result<ScriptCall, ScriptKind>
    ensures { result ≡ cid_call_of ScriptCall.Get fields.entry }
{
    let (view, cid) = read_view_and_cid(fields)?;
    Ok(ScriptCall::Get { view, cid })
}

fn read_has(fields: Pieces<'_>) -> Result<ScriptCall, ScriptKind>
    ensures { result ≡ cid_call_of ScriptCall.Has fields.entry }
{
    let (view, cid) = read_view_and_cid(fields)?;
    Ok(ScriptCall::Has { view, cid })
}

fn read_size(fields: Pieces<'_>) -> Result<ScriptCall, ScriptKind>
    ensures { result ≡ cid_call_of ScriptCall.Size fields.entry }
{
    let (view, cid) = read_view_and_cid(fields)?;
    Ok(ScriptCall::Size { view, cid })
}

fn read_put(alloc: Global, mut fields: Pieces<'_>) -> Result<ScriptCall, LineFault>
    ensures { Reads result (put_of fields.entry) }
{
    let view = read_number(next_field(&mut fields)?)?;
    let parcel = read_pairs(alloc, fields)?;
    Ok(ScriptCall::Put { view, parcel })
}

// Reads the pairs of a put, to the last field.
fn read_pairs(alloc: Global, mut fields: Pieces<'_>) -> Result<Parcel, LineFault>
    ensures { Reads result (pairs_of fields.entry) }
{
    let mut parcel = Parcel::new(alloc);
    while let Some(name) = fields.next() {
        let cid = read_cid(not_empty(name)?)?;
        let block = read_block(alloc, next_field(&mut fields)?)?;
        parcel.add(cid, block.as_slice())?;
    }
    Ok(parcel)
}

fn read_head(alloc: Global, fields: Pieces<'_>) -> Result<ScriptCall, LineFault>
    ensures { Reads result (head_of fields.entry) }
{
    let cids = read_cids(alloc, fields)?;
    Ok(ScriptCall::SetHead { cids })
}

// Reads the CIDs of a head, to the last field.
fn read_cids(alloc: Global, mut fields: Pieces<'_>) -> Result<Cids, LineFault>
    ensures { Reads result (cids_of fields.entry) }
{
    let mut cids = Cids::new(alloc);
    while let Some(field) = fields.next() {
        let cid = read_cid(not_empty(field)?)?;
        cids.push(cid)?;
    }
    Ok(cids)
}
