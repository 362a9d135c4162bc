//! The printed text of an entry, written to a sink part by part and without memory.

ghost use Rattle.std.specs.Prelude.{◌≡◌, ◌≤◌, ◌++◌, IfErr, codes, length};
ghost use Rattle.hex.specs.Hex.{encode_lower};
ghost use Rattle.ss_script.specs.Text.{Writes, named_text, bytes_text, view_text, client_text, call_text, view_reply_text, close_reply_text, put_reply_text, get_reply_text, has_reply_text, size_reply_text, head_reply_text, height_text, flag_number, info_text, mode_text, settings_text, answer_text, entry_text};

use crate::numbers::{put_decimal, put_number, put_numbers};
use ss_io::{Failed, Sink};
use ss_model::{
    Answer, COMPACTOR, Call, CloseReply, Entry, GetReply, HasReply, HeadReply, Info, NO_VIEW,
    PutReply, SizeReply, ViewReply,
};
use ss_records::{Config, Mode};
use std::alloc::Global;

// The bytes of a block whose digits are made and written at once.
const PIECE_BYTES: usize = 512;

/// Why an entry was not written whole.
#[derive(Clone, Copy, Debug, PartialEq, Eq)]
pub enum PrintFault {
    /// The sink failed.
    WriteFault,
    /// Out of memory.
    NoMemory,
}

/// Writes the line of an entry at this place of its history, counted from 1. It takes no memory, so it never answers `NoMemory`.
pub fn write_entry<K: Sink>(
    _alloc: Global,
    sink: &mut K,
    place: u64,
    entry: &Entry,
) -> Result<(), PrintFault>
    ensures written { Writes K.Sink sink.old sink.new result (entry_text place entry.now) }
    ensures fault { IfErr result (λ fault. fault ≡ PrintFault.WriteFault) }
{
    match put_entry(sink, place, entry) {
        Ok(()) => Ok(()),
        Err(Failed) => Err(PrintFault::WriteFault),
    }
}

fn put_entry<K: Sink>(sink: &mut K, place: u64, entry: &Entry) -> Result<(), Failed>
    ensures { Writes K.Sink sink.old sink.new result (entry_text place entry.now) }
{
    put_decimal(sink, place)?;
    put_client(sink, entry.client)?;
    put_number(sink, u64::from(entry.line))?;
    put_call(sink, &entry.call)?;
    sink.put(b" = ")?;
    put_answer(sink, &entry.answer)?;
    sink.put(b"\n")
}

fn put_client<K: Sink>(sink: &mut K, client: u8) -> Result<(), Failed>
    ensures { Writes K.Sink sink.old sink.new result (client_text client) }
{
    if client == COMPACTOR {
        sink.put(b" c")
    } else {
        put_number(sink, u64::from(client))
    }
}

fn put_view<K: Sink>(sink: &mut K, view: u32) -> Result<(), Failed>
    ensures { Writes K.Sink sink.old sink.new result (view_text view) }
{
    if view == NO_VIEW {
        sink.put(b" -")
    } else {
        put_number(sink, u64::from(view))
    }
}

fn put_call<K: Sink>(sink: &mut K, call: &Call) -> Result<(), Failed>
    ensures { Writes K.Sink sink.old sink.new result (call_text call.now) }
{
    match call {
        Call::OpenView => sink.put(b" open"),
        Call::CloseView { view } => put_name_and_view(sink, b" close", *view),
        Call::Put { view, .. } => put_name_and_view(sink, b" put", *view),
        Call::Get { view, .. } => put_name_and_view(sink, b" get", *view),
        Call::Has { view, .. } => put_name_and_view(sink, b" has", *view),
        Call::Size { view, .. } => put_name_and_view(sink, b" size", *view),
        Call::SetHead { .. } => sink.put(b" head"),
        Call::Info => sink.put(b" info"),
    }
}

fn put_name_and_view<K: Sink>(sink: &mut K, name: &[u8], view: u32) -> Result<(), Failed>
    ensures { Writes K.Sink sink.old sink.new result (name.now ++ view_text view) }
{
    sink.put(name)?;
    put_view(sink, view)
}

fn put_answer<K: Sink>(sink: &mut K, answer: &Answer) -> Result<(), Failed>
    ensures { Writes K.Sink sink.old sink.new result (answer_text answer.now) }
{
    match answer {
        Answer::View(reply) => put_view_reply(sink, *reply),
        Answer::Close(reply) => put_close_reply(sink, *reply),
        Answer::Put(reply) => put_put_reply(sink, *reply),
        Answer::Get(reply) => put_get_reply(sink, reply),
        Answer::Has(reply) => put_has_reply(sink, *reply),
        Answer::Size(reply) => put_size_reply(sink, *reply),
        Answer::Head(reply) => put_head_reply(sink, *reply),
        Answer::Info(info) => put_info(sink, info),
    }
}

fn put_view_reply<K: Sink>(sink: &mut K, reply: ViewReply) -> Result<(), Failed>
    ensures { Writes K.Sink sink.old sink.new result (view_reply_text reply) }
{
    match reply {
        ViewReply::Opened(view) => put_numbers(sink, b"opened", &[u64::from(view)]),
        ViewReply::TooManyViews => sink.put(b"too-many-views"),
    }
}

fn put_close_reply<K: Sink>(sink: &mut K, reply: CloseReply) -> Result<(), Failed>
    ensures { Writes K.Sink sink.old sink.new result (close_reply_text reply) }
{
    match reply {
        CloseReply::Closed => sink.put(b"closed"),
        CloseReply::BadView => sink.put(b"bad-view"),
    }
}

fn put_put_reply<K: Sink>(sink: &mut K, reply: PutReply) -> Result<(), Failed>
    ensures { Writes K.Sink sink.old sink.new result (put_reply_text reply) }
{
    match reply {
        PutReply::BadView => sink.put(b"bad-view"),
        PutReply::TooMany { n } => put_numbers(sink, b"too-many", &[u64::from(n)]),
        PutReply::TooBig { bytes } => put_numbers(sink, b"too-big", &[bytes]),
        PutReply::TooLarge { i } => put_numbers(sink, b"too-large", &[u64::from(i)]),
        PutReply::UnknownHash { i } => put_numbers(sink, b"unknown-hash", &[u64::from(i)]),
        PutReply::Malformed { i, kind, at } => {
            let kind = u64::from(u8::from(kind));
            put_numbers(sink, b"malformed", &[u64::from(i), kind, u64::from(at)])
        }
        PutReply::Mismatch { i } => put_numbers(sink, b"mismatch", &[u64::from(i)]),
        PutReply::NoMemory => sink.put(b"no-memory"),
        PutReply::TableFull { rows } => put_numbers(sink, b"table-full", &[rows]),
        PutReply::LogFull { file, need, room } => {
            put_numbers(sink, b"log-full", &[u64::from(file), need, room])
        }
        PutReply::DiskFault => sink.put(b"fault"),
        PutReply::Stored { new } => put_numbers(sink, b"stored", &[u64::from(new)]),
    }
}

fn put_get_reply<K: Sink>(sink: &mut K, reply: &GetReply) -> Result<(), Failed>
    ensures { Writes K.Sink sink.old sink.new result (get_reply_text reply.now) }
{
    match reply {
        GetReply::BadView => sink.put(b"bad-view"),
        GetReply::NotFound => sink.put(b"not-found"),
        GetReply::NoMemory => sink.put(b"no-memory"),
        GetReply::DiskFault => sink.put(b"fault"),
        GetReply::Found(block) => put_found(sink, block.as_slice()),
    }
}

fn put_has_reply<K: Sink>(sink: &mut K, reply: HasReply) -> Result<(), Failed>
    ensures { Writes K.Sink sink.old sink.new result (has_reply_text reply) }
{
    match reply {
        HasReply::BadView => sink.put(b"bad-view"),
        HasReply::No => sink.put(b"no"),
        HasReply::Yes => sink.put(b"yes"),
    }
}

fn put_size_reply<K: Sink>(sink: &mut K, reply: SizeReply) -> Result<(), Failed>
    ensures { Writes K.Sink sink.old sink.new result (size_reply_text reply) }
{
    match reply {
        SizeReply::BadView => sink.put(b"bad-view"),
        SizeReply::NotFound => sink.put(b"not-found"),
        SizeReply::Size(bytes) => put_numbers(sink, b"size", &[u64::from(bytes)]),
    }
}

/// Writes the answer to a `head`.
pub fn put_head_reply<K: Sink>(sink: &mut K, reply: HeadReply) -> Result<(), Failed>
    ensures { Writes K.Sink sink.old sink.new result (head_reply_text reply) }
{
    match reply {
        HeadReply::Empty => sink.put(b"tipset-empty"),
        HeadReply::TooMany { n } => put_numbers(sink, b"tipset-too-many", &[u64::from(n)]),
        HeadReply::Repeated { i } => put_numbers(sink, b"tipset-repeated", &[u64::from(i)]),
        HeadReply::Absent { i } => put_numbers(sink, b"absent", &[u64::from(i)]),
        HeadReply::NoMemory => sink.put(b"no-memory"),
        HeadReply::NotHeader { i } => put_numbers(sink, b"tipset-not-header", &[u64::from(i)]),
        HeadReply::HeightDiffers { i } => put_numbers(sink, b"tipset-height", &[u64::from(i)]),
        HeadReply::ParentsDiffer { i } => put_numbers(sink, b"tipset-parents", &[u64::from(i)]),
        HeadReply::LogFull { file, need, room } => {
            put_numbers(sink, b"log-full", &[u64::from(file), need, room])
        }
        HeadReply::DiskFault => sink.put(b"fault"),
        HeadReply::Set { height } => put_numbers(sink, b"head", &[height]),
    }
}

/// Writes what a store counts: the answer to an `info`.
pub fn put_info<K: Sink>(sink: &mut K, info: &Info) -> Result<(), Failed>
    ensures { Writes K.Sink sink.old sink.new result (info_text info.now) }
{
    sink.put(b"info height")?;
    put_height(sink, info.height)?;
    put_named(sink, b" base", info.base)?;
    put_named(sink, b" ended", info.ended)?;
    put_named(sink, b" hot", info.hot)?;
    put_named(sink, b" kept", info.kept)?;
    put_named(sink, b" views", u64::from(info.views))?;
    put_named(sink, b" running", flag_number(info.running))?;
    put_named(sink, b" due", flag_number(info.due))
}

/// Writes the settings of a store.
pub fn put_settings<K: Sink>(sink: &mut K, config: &Config) -> Result<(), Failed>
    ensures { Writes K.Sink sink.old sink.new result (settings_text config.now) }
{
    sink.put(b"mode ")?;
    put_mode(sink, config.mode)?;
    put_named(sink, b" depth", config.depth)?;
    put_named(sink, b" threshold", config.threshold)?;
    put_named(sink, b" batch", u64::from(config.batch))?;
    put_named(sink, b" rows", u64::from(config.rows))?;
    put_named(sink, b" limit", config.limit)
}

fn put_mode<K: Sink>(sink: &mut K, mode: Mode) -> Result<(), Failed>
    ensures { Writes K.Sink sink.old sink.new result (mode_text mode) }
{
    match mode {
        Mode::Discard => sink.put(b"discard"),
        Mode::Universal => sink.put(b"universal"),
    }
}

fn put_height<K: Sink>(sink: &mut K, height: Option<u64>) -> Result<(), Failed>
    ensures { Writes K.Sink sink.old sink.new result (height_text height) }
{
    match height {
        Some(height) => put_number(sink, height),
        None => sink.put(b" -"),
    }
}

fn flag_number(flag: bool) -> u64
    ensures { result ≡ flag_number flag }
{
    u64::from(flag)
}

fn put_named<K: Sink>(sink: &mut K, name: &[u8], number: u64) -> Result<(), Failed>
    ensures { Writes K.Sink sink.old sink.new result (named_text name.now number) }
{
    sink.put(name)?;
    put_number(sink, number)
}

fn put_found<K: Sink>(sink: &mut K, bytes: &[u8]) -> Result<(), Failed>
    ensures { Writes K.Sink sink.old sink.new result (codes "found " ++ bytes_text bytes.now) }
{
    sink.put(b"found ")?;
    put_bytes(sink, bytes)
}

fn put_bytes<K: Sink>(sink: &mut K, bytes: &[u8]) -> Result<(), Failed>
    ensures { Writes K.Sink sink.old sink.new result (bytes_text bytes.now) }
{
    if bytes.is_empty() {
        sink.put(b"-")
    } else {
        put_digits(sink, bytes)
    }
}

// Writes the digits of bytes, piece by piece.
fn put_digits<K: Sink>(sink: &mut K, bytes: &[u8]) -> Result<(), Failed>
    ensures { Writes K.Sink sink.old sink.new result (encode_lower bytes.now) }
{
    let mut rest = bytes;
    while !rest.is_empty() {
        let (piece, more) = rest.split_at(rest.len().min(PIECE_BYTES));
        put_piece(sink, piece)?;
        rest = more;
    }
    Ok(())
}

// Writes the digits of a piece.
fn put_piece<K: Sink>(sink: &mut K, piece: &[u8]) -> Result<(), Failed>
    requires { length piece.now ≤ PIECE_BYTES }
    ensures { Writes K.Sink sink.old sink.new result (encode_lower piece.now) }
{
    let mut room = [0u8; 2 * PIECE_BYTES];
    let digits = &mut room[..2 * piece.len()];
    let fits = hex::encode_to_slice(piece, digits).is_ok();
    prove!(fits);
    sink.put(digits)
}
