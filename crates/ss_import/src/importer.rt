//! The calls of an import, in order.
ghost use Rattle.std.specs.Prelude.{◌≡◌, ◌≢◌, ◌↔◌, ◌+◌, ◌-◌, ◌<◌, ◌≤◌, ◌^◌, ℕ, List, [], Option, None, Ok, true, false, IfErr, OnOk, MatchResult, length, max, min};
ghost use Rattle.std.specs.FinSet as finite_set;
ghost use Rattle.std.specs.Io.KnownBytes.{IsAtEnd};
ghost use Rattle.ss_car.specs.Car.{Section};
ghost use Rattle.ss_car.specs.Bodies.{roots_of, taken_of, input_left, IsReadFault};
ghost use Rattle.ss_core.specs.Replies.{held_bytes};
ghost use Rattle.ss_device.specs.Faults.{CountsFault};
ghost use Rattle.ss_history.specs.Story.{Story};
ghost use Rattle.ss_import.specs.Import.{IsImport, EndsHead, fault_of};
ghost use Rattle.ss_import.specs.Steps.{IsReady, Holds, Continues, IsBetween, UsesSource, Putting, PutsAll, PutsEnded, PutRefused, outcome_of, IsGroupReply, IsDueBlock, Takes, Refuses, Reading, WasRead, Stepped};
ghost use Rattle.ss_import.specs.declared.fault.BlockFault.{BlockFault};
ghost use Rattle.ss_import.specs.declared.importer.PutFault.TheVariants as group;
ghost use Rattle.ss_model.specs.Lawful.{IsSmall};
ghost use Rattle.ss_model.specs.declared.call.HeadReply.TheVariants as head_reply;

use crate::fault::{BlockFault, ImportFault};
use crate::group::Group;
use ss_car::{CarReader, CarRefusal};
use ss_cid::{Bytes, Cid, Cids};
use ss_core::SplitCore;
use ss_device::Disk;
use ss_io::Source;
use ss_model::{HeadReply, PutReply, ViewReply};
use std::alloc::Global;

/// The offset behind which no section ends.
const CAR_BYTES: u64 = 1 << 40;

/// What an import did that came to its end.
#[derive(Clone, Copy, Debug, PartialEq, Eq)]
pub struct Imported {
    /// How many sections the CAR has.
    pub sections: u64,
    /// How many blocks were not kept before, 2^64 - 1 at the most.
    pub new: u64,
    /// The height of the head that was set, in epochs.
    pub height: Option<u64>,
}

/// Puts the sections of a CAR in a new view, and sets its roots as head if `head` says so.
///
/// What comes first in the order of the CAR ends the import: `NoMemory`, `ReadFault`, `DiskFault`, `BadCar`, `BadBlock`,
/// `LogFull`, `TableFull`, `TooLong`; behind the last section `NoMemory`, `BadHead`, `LogFull`, `DiskFault`. All
/// sections before `BadCar`, `BadBlock`, `TooLong` and `BadHead` are kept; before the others those of the groups that were put.
pub fn import<S: Source, D: Disk>(
    alloc: Global,
    core: SplitCore<D>,
    source: &mut S,
    head: bool,
) -> (Result<Imported, ImportFault>, SplitCore<D>)
    requires { core.views ≡ finite_set.empty }
    ensures import { (was : D) → Story was core [] → IsImport (Story was result.1) head (S.left source.old) result.0 }
    ensures faults { CountsFault ImportFault.ReadFault (S.faults source.old) (S.faults source.new) result.0 }
    ensures ended { OnOk result.0 (IsAtEnd (S.left source.new)) }
{
    let mut importer = Importer::new(alloc, core);
    let result = importer.read(alloc, source, head);
    (result, importer.into_core())
}

/// A store into which a CAR is read: its view, the sections that were read and not put yet, how many were read, and how many
/// blocks were new.
#[derive(Drop)]
pub struct Importer<D: Disk> {
    core: SplitCore<D>,
    view: u32,
    group: Group,
    sections: u64,
    new_blocks: u64,
}

impl<D: Disk> Importer<D> {
    // Opens the view.
    fn new(alloc: Global, core: SplitCore<D>) -> Importer<D>
        requires { core.views ≡ finite_set.empty }
        ensures ready { IsReady result }
        ensures putting { (was : D) → Story was core [] → Putting was result [] [] }
        ensures holds { Holds result.group [] }
        ensures sections { result.sections ≡ 0 }
    {
        let mut core = core;
        let view = match core.open_view() {
            ViewReply::Opened(view) => view,
            ViewReply::TooManyViews => unreachable!(),
        };
        Importer {
            core,
            view,
            group: Group::new(alloc),
            sections: 0,
            new_blocks: 0,
        }
    }

    fn into_core(self) -> SplitCore<D>
        ensures { result ≡ self.core }
    {
        let Importer { core, .. } = self;
        core
    }

    // Reads the CAR to its end, puts its sections, and sets its roots as head.
    fn read<S: Source>(
        &mut self,
        alloc: Global,
        source: &mut S,
        head: bool,
    ) -> Result<Imported, ImportFault>
        requires ready { IsReady self.old }
        requires sections { self.old.sections ≡ 0 }
        ensures import { (was : D) → Putting was self.old [] [] → Holds self.old.group [] → IsImport (Story was self.new.core) head (S.left source.old) result }
        ensures faults { CountsFault ImportFault.ReadFault (S.faults source.old) (S.faults source.new) result }
        ensures ended { OnOk result (IsAtEnd (S.left source.new)) }
    {
        let mut reader = match CarReader::open(alloc, source) {
            Ok(reader) => reader,
            Err((refusal, _source)) => return Err(ImportFault::from(refusal)),
        };
        let result = self.read_sections(alloc, &mut reader, head);
        let _source = reader.into_source();
        result
    }

    // Reads the sections to the end of the CAR, puts them, and sets the roots as head.
    fn read_sections<S: Source + Drop>(
        &mut self,
        alloc: Global,
        reader: &mut CarReader<S>,
        head: bool,
    ) -> Result<Imported, ImportFault>
        requires { IsBetween self.old reader.old }
        ensures import { (input : Option (List ℕ)) (was : D) → Reading S.Source input was self.old reader.old → IsImport (Story was self.new.core) head input result }
        ensures source { UsesSource S.Source reader.old reader.new result }
        ensures ended { OnOk result (IsAtEnd (input_left S.Source reader.new)) }
    {
        while self.step(alloc, reader)? {}
        self.finish(alloc, reader.roots(), head)
    }

    // Reads a section, or puts what is left at the end of the CAR. Tells whether there was a section.
    fn step<S: Source + Drop>(
        &mut self,
        alloc: Global,
        reader: &mut CarReader<S>,
    ) -> Result<bool, ImportFault>
        requires { IsBetween self.old reader.old }
        ensures between { OnOk result (IsBetween self.new reader.new) }
        ensures more { result ≡ Ok true → taken_of reader.old < taken_of reader.new }
        ensures step { (input : Option (List ℕ)) (was : D) → Reading S.Source input was self.old reader.old → Stepped S.Source input was self.new reader.new result }
        ensures source { UsesSource S.Source reader.old reader.new result }
        ensures ended { result ≡ Ok false → IsAtEnd (input_left S.Source reader.new) }
        ensures roots { roots_of reader.new ≡ roots_of reader.old }
    {
        let offset = reader.taken();
        match reader.next(alloc) {
            Ok(Some((cid, block))) => {
                self.take(alloc, offset, reader.taken(), cid, &block)?;
                Ok(true)
            }
            Ok(None) => {
                self.put(alloc)?;
                Ok(false)
            }
            Err(refusal) => Err(self.refuse(alloc, refusal)),
        }
    }

    // Takes a section that begins and ends at these offsets.
    fn take(
        &mut self,
        alloc: Global,
        offset: u64,
        end: u64,
        cid: Cid,
        block: &Bytes,
    ) -> Result<(), ImportFault>
        requires ready { IsReady self.old }
        requires small { IsSmall (cid, block.now) }
        requires few { self.old.sections < 2 ^ 63 }
        ensures continues { Continues self.new result }
        ensures short { OnOk result (end ≤ 2 ^ 40) }
        ensures count { OnOk result (self.new.sections ≡ self.old.sections + 1) }
        ensures takes { (was : D) (sections left : List Section) → Putting was self.old sections left → Holds self.old.group left → Takes was self.new sections (record { offset = offset; cid = cid; block = block.now }) end result }
    {
        if end > CAR_BYTES {
            self.put(alloc)?;
            return Err(ImportFault::TooLong);
        }
        let bytes = (cid.as_bytes().len() + block.len()) as u64;
        let mut put_bytes = self.put_bytes(&cid, block);
        if !self.group.takes(bytes, put_bytes) {
            self.put(alloc)?;
            // The put may have stored a block under the same CID.
            put_bytes = self.put_bytes(&cid, block);
        }
        self.group.add(cid, block.as_slice(), offset, put_bytes)?;
        self.sections += 1;
        Ok(())
    }

    // The bytes that a section takes of a put.
    fn put_bytes(&self, cid: &Cid, block: &Bytes) -> u64
        ensures bytes { result ≡ held_bytes self.now.core (cid.now, block.now) }
        ensures few { result ≤ length cid.now + 4 + max (length block.now) (2 ^ 32 - 1) }
    {
        let kept = self.core.kept_size(cid).unwrap_or(0);
        cid.as_bytes().len() as u64 + 4 + block.len().max(kept as usize) as u64
    }

    // The fault of a refusal. The sections before a fault of the CAR are put.
    fn refuse(&mut self, alloc: Global, refusal: CarRefusal) -> ImportFault
        requires { IsReady self.old }
        ensures refuses { (was : D) (sections left : List Section) → Putting was self.old sections left → Holds self.old.group left → Refuses was self.new sections (fault_of refusal) result }
        ensures source { (result ≡ ImportFault.ReadFault) ↔ IsReadFault refusal.fault }
    {
        let fault = ImportFault::from(refusal);
        match fault {
            ImportFault::BadCar { .. } => match self.put(alloc) {
                Ok(()) => fault,
                Err(earlier) => earlier,
            },
            _ => fault,
        }
    }

    // Puts the group. Where a block is not stored, those before it are.
    fn put(&mut self, alloc: Global) -> Result<(), ImportFault>
        requires { IsReady self.old }
        ensures continues { Continues self.new result }
        ensures empty { OnOk result (Holds self.new.group []) }
        ensures puts { (was : D) (sections left : List Section) → Putting was self.old sections left → Holds self.old.group left → PutsAll was self.new sections result }
        ensures count { self.new.sections ≡ self.old.sections }
    {
        if self.group.parcel.is_empty() {
            return Ok(());
        }
        match stored(self.core.put(alloc, self.view, &self.group.parcel)) {
            Ok(new) => {
                self.count(new);
                self.group.clear();
                Ok(())
            }
            Err(PutFault::Block { i, fault }) => Err(self.put_before(alloc, i, fault)),
            Err(PutFault::Ends(fault)) => Err(fault),
        }
    }

    // Counts so many new blocks more.
    fn count(&mut self, new: u32)
        ensures { self.new ≡ record self.old { new_blocks = min (self.old.new_blocks + new) (2 ^ 64 - 1) } }
    {
        self.new_blocks = self.new_blocks.saturating_add(u64::from(new));
    }

    // Puts the sections before the one at place `i` of the group, whose block is not stored.
    fn put_before(&mut self, alloc: Global, i: u32, fault: BlockFault) -> ImportFault
        requires ready { IsReady self.old }
        requires due { (i < length self.old.group.parcel) × IsDueBlock self.old.core self.old.group.parcel i fault }
        ensures puts { (was : D) (sections left : List Section) → PutRefused was self.old sections left i fault → Holds self.old.group left → PutsEnded was self.new sections result }
        ensures count { self.new.sections ≡ self.old.sections }
        ensures source { result ≢ ImportFault.ReadFault }
    {
        let offset = self.group.offsets[i as usize];
        let refused = ImportFault::BadBlock { fault, offset };
        if i == 0 {
            return refused;
        }
        let Ok(parcel) = self.group.before(alloc, i as usize) else {
            return ImportFault::NoMemory;
        };
        match stored(self.core.put(alloc, self.view, &parcel)) {
            Ok(new) => {
                self.count(new);
                refused
            }
            Err(PutFault::Ends(earlier)) => earlier,
            Err(PutFault::Block { .. }) => unreachable!(),
        }
    }

    // Sets the roots as head, if it is wanted, and tells what was done.
    fn finish(&mut self, alloc: Global, roots: &Cids, head: bool) -> Result<Imported, ImportFault>
        ensures import { (input : Option (List ℕ)) (was : D) → WasRead input was self.old roots.now → IsImport (Story was self.new.core) head input result }
        ensures source { IfErr result (λ fault. fault ≢ ImportFault.ReadFault) }
    {
        let height = if head {
            Some(set(self.core.set_head(alloc, roots))?)
        } else {
            None
        };
        Ok(Imported {
            sections: self.sections,
            new: self.new_blocks,
            height,
        })
    }
}

// Why a put stored nothing: the block at this place of the parcel, or what ends the import.
#[derive(Clone, Copy, Debug, PartialEq, Eq)]
pub enum PutFault {
    Block { i: u32, fault: BlockFault },
    Ends(ImportFault),
}

// How many blocks a put stored that were new, or why none.
fn stored(reply: PutReply) -> Result<u32, PutFault>
    requires { IsGroupReply reply }
    ensures { result ≡ outcome_of reply }
{
    match reply {
        PutReply::Stored { new } => Ok(new),
        PutReply::UnknownHash { i } => Err(PutFault::Block {
            i,
            fault: BlockFault::UnknownHash,
        }),
        PutReply::Mismatch { i } => Err(PutFault::Block {
            i,
            fault: BlockFault::Mismatch,
        }),
        PutReply::Malformed { i, .. } => Err(PutFault::Block {
            i,
            fault: BlockFault::Malformed,
        }),
        PutReply::TooBig { .. } => Err(PutFault::Block {
            i: 0,
            fault: BlockFault::TooLarge,
        }),
        PutReply::NoMemory => Err(PutFault::Ends(ImportFault::NoMemory)),
        PutReply::DiskFault => Err(PutFault::Ends(ImportFault::DiskFault)),
        PutReply::TableFull { rows } => Err(PutFault::Ends(ImportFault::TableFull { rows })),
        PutReply::LogFull { file, need, room } => {
            Err(PutFault::Ends(ImportFault::LogFull { file, need, room }))
        }
        PutReply::BadView | PutReply::TooMany { .. } | PutReply::TooLarge { .. } => unreachable!(),
    }
}

// The height of the head that was set, or why none was.
fn set(reply: HeadReply) -> Result<u64, ImportFault>
    ensures { MatchResult result (λ height. reply ≡ head_reply.Set height) (EndsHead reply) }
{
    match reply {
        HeadReply::Set { height } => Ok(height),
        HeadReply::NoMemory => Err(ImportFault::NoMemory),
        HeadReply::DiskFault => Err(ImportFault::DiskFault),
        HeadReply::LogFull { file, need, room } => Err(ImportFault::LogFull { file, need, room }),
        reply => Err(ImportFault::BadHead { reply }),
    }
}
