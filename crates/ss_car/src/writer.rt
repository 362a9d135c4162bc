//! Writing a CAR: the header, and then section by section.
ghost use Rattle.std.specs.Prelude.{◌≡◌, ◌++◌, IfOk, OnOk};
ghost use Rattle.std.specs.List.{flat_map};
ghost use Rattle.ss_io.specs.Streams.{HasCause, PutAppends};
ghost use Rattle.ss_car.specs.Car.{framed};
ghost use Rattle.ss_car.specs.Writing.{link_bytes, header_bytes, Writes};
ghost use Rattle.ss_car.specs.declared.fault.CarWriteFault.TheVariants.{WriteFault};
ghost use Rattle.ss_device.specs.Faults.{CountsFault};

use crate::fault::CarWriteFault;
use crate::framed::MAX_LENGTH;
use crate::header::{ROOTS, VERSION, VERSION_KEY};
use ss_cbor::Writer;
use ss_cid::{Bytes, Cid, Cids, NoMemory, write_varint};
use ss_io::{Failed, Sink};
use std::alloc::Global;

/// Writes the header of a CAR with these roots, its length first. Out of memory nothing is written, and a sink that fails
/// has a prefix of the bytes.
///
/// A header of more than 1,048,576 bytes, which is one of some 25,000 roots, is written, and no reader takes it.
pub fn write_header<K: Sink>(alloc: Global, sink: &mut K, roots: &Cids) -> Result<(), CarWriteFault>
    ensures written { Writes (K.written sink.old) (K.written sink.new) (framed (header_bytes roots.now)) result }
    ensures cause { CountsFault WriteFault (K.faults sink.old) (K.faults sink.new) result }
    ensures place { K.place sink.new ≡ K.place sink.old }
{
    let header = encode_header(alloc, roots)?;
    put_framed(sink, header.as_slice())?;
    Ok(())
}

/// Writes a section with this CID and these data, its length first. Out of memory nothing is written, and a sink that
/// fails has a prefix of the bytes. The data are not compared with the CID.
///
/// A CID and data of more than 8,388,608 bytes together are written, and no reader takes them.
pub fn write_section<K: Sink>(
    alloc: Global,
    sink: &mut K,
    cid: &Cid,
    data: &[u8],
) -> Result<(), CarWriteFault>
    ensures written { Writes (K.written sink.old) (K.written sink.new) (framed (cid.now ++ «data».now)) result }
    ensures cause { CountsFault WriteFault (K.faults sink.old) (K.faults sink.new) result }
    ensures place { K.place sink.new ≡ K.place sink.old }
{
    let cid = cid.as_bytes();
    let mut body = Vec::with_capacity(alloc, cid.len() + data.len())?;
    body.extend_from_slice(cid)?;
    body.extend_from_slice(data)?;
    put_framed(sink, &body)?;
    Ok(())
}

// Writes a length and as many bytes.
fn put_framed<K: Sink>(sink: &mut K, body: &[u8]) -> Result<(), Failed>
    ensures bytes { PutAppends (K.written sink.old) (K.written sink.new) result (framed body.now) }
    ensures cause { HasCause (K.faults sink.old) (K.faults sink.new) result }
    ensures place { K.place sink.new ≡ K.place sink.old }
{
    let mut length = [0; MAX_LENGTH];
    let count = write_varint(body.len() as u64, &mut length);
    sink.put(&length[..count])?;
    sink.put(body)
}

// The header of version 1 with these roots.
#[tactic(auto, unfolding(crate::specs::Writing::header_bytes))]
fn encode_header(alloc: Global, roots: &Cids) -> Result<Bytes, NoMemory>
    ensures { IfOk result (λ header. header ≡ header_bytes roots.now) }
{
    let mut header = Writer::new(alloc);
    header.map(2)?;
    header.text(ROOTS)?;
    header.array(roots.len() as u64)?;
    write_links(&mut header, roots)?;
    header.text(VERSION_KEY)?;
    header.uint(VERSION)?;
    Ok(header.finish())
}

// Writes the links to CIDs one after another.
fn write_links(header: &mut Writer, cids: &Cids) -> Result<(), NoMemory>
    ensures { OnOk result (header.new ≡ header.old ++ flat_map link_bytes cids.now) }
{
    for cid in cids.as_slice() {
        header.link(cid)?;
    }
    Ok(())
}
