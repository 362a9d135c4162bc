//! Reading a CAR section by section.
ghost use Rattle.std.specs.Prelude.{◌≡◌, ◌<◌, ◌^◌, Some, None, Err, IfOk, IfErr, OnOk, OnErr};
ghost use Rattle.std.specs.Io.KnownBytes.{IsAtEnd};
ghost use Rattle.ss_device.specs.Faults.{Counts};
ghost use Rattle.ss_car.specs.Bodies.{NextFault, TakesStart, Blames, IsReadFault, roots_of, taken_of, refusal_of, input_left, input_faults, input_place, GivesNext, BlamesSource};
ghost use Rattle.ss_car.specs.Car.{StartFault};
ghost use Rattle.ss_car.specs.declared.fault.CarRefusal.{CarRefusal};

use crate::fault::{CarFault, CarRefusal};
use crate::section::{next_or_end, next_start};
use ss_cid::{Bytes, Cid, Cids, NoMemory};
use ss_io::{Buffered, Source};
use std::alloc::Global;

/// A CAR that is read section by section from a source, which may be a `&mut` to one. One section is in memory at a time,
/// beside the roots and a buffer of 65,536 bytes, so more of the source may have been taken than was given.
#[derive(Drop)]
pub struct CarReader<S> {
    source: Buffered<S>,
    roots: Cids,
    taken: u64,
    refusal: Option<CarRefusal>,
}

impl<S: Source + Drop> CarReader<S> {
    /// Reads the header. A refusal is at 0, and the source comes back with it.
    pub fn open(alloc: Global, source: S) -> Result<CarReader<S>, (CarRefusal, S)>
        ensures start { IfOk result (λ reader. TakesStart (S.left source) (input_left S.Source reader) (roots_of reader) (taken_of reader)) }
        ensures fresh { IfOk result (λ reader. refusal_of reader ≡ None) }
        ensures refused { IfErr result (λ (refusal, _). (refusal.offset ≡ 0) × Blames StartFault (S.left source) refusal.fault) }
        ensures no_fault { IfOk result (λ reader. input_faults S.Source reader ≡ S.faults source) }
        ensures cause { IfErr result (λ (refusal, back). Counts IsReadFault (S.faults source) (S.faults back) refusal.fault) }
        ensures place { IfOk result (λ reader. input_place S.Source reader ≡ S.place source) }
        ensures place_back { IfErr result (λ (_, back). S.place back ≡ S.place source) }
    {
        let mut source = match Buffered::new(alloc, source) {
            Ok(source) => source,
            Err((NoMemory, source)) => return Err((CarFault::NoMemory.at(0), source)),
        };
        match next_start(alloc, &mut source) {
            Ok((roots, taken)) => Ok(CarReader {
                source,
                roots,
                taken,
                refusal: None,
            }),
            Err(fault) => Err((fault.at(0), source.into_inner())),
        }
    }

    /// The source, of which up to 65,536 bytes more may have been taken than were given. Once the input has ended it is at its
    /// end.
    pub fn into_source(self) -> S
        ensures left { IsAtEnd (input_left S.Source self) → IsAtEnd (S.left result) }
        ensures faults { S.faults result ≡ input_faults S.Source self }
        ensures place { S.place result ≡ input_place S.Source self }
    {
        let CarReader { source, .. } = self;
        source.into_inner()
    }

    /// The roots that the header has.
    pub fn roots(&self) -> &Cids
        ensures { result.now ≡ roots_of self.now }
    {
        &self.roots
    }

    /// How many bytes the header and the sections have that were given so far.
    pub fn taken(&self) -> u64
        ensures { result ≡ taken_of self.now }
    {
        self.taken
    }

    /// Reads the next section: its CID and its data. None is the end of the input, and comes exactly there.
    ///
    /// A refusal is at the offset of the section's length, and is answered again from then on; nothing is read after it.
    pub fn next(&mut self, alloc: Global) -> Result<Option<(Cid, Bytes)>, CarRefusal>
        requires { taken_of self.old < 2 ^ 62 }
        ensures found { IfOk result (GivesNext S.Source self.old self.new) }
        ensures refused { IfErr result (λ refusal. refusal_of self.old ≡ None → (refusal.offset ≡ taken_of self.old) × Blames NextFault (input_left S.Source self.old) refusal.fault) }
        ensures cause { refusal_of self.old ≡ None → Counts BlamesSource (input_faults S.Source self.old) (input_faults S.Source self.new) result }
        ensures kept { IfErr result (λ refusal. refusal_of self.new ≡ Some refusal) }
        ensures again { (refusal : CarRefusal) → refusal_of self.old ≡ Some refusal → (result ≡ Err refusal) × (self.new ≡ self.old) }
        ensures fresh { OnOk result (refusal_of self.new ≡ None) }
        ensures taken { OnErr result (taken_of self.new ≡ taken_of self.old) }
        ensures roots { roots_of self.new ≡ roots_of self.old }
        ensures place { input_place S.Source self.new ≡ input_place S.Source self.old }
    {
        if let Some(refusal) = self.refusal {
            return Err(refusal);
        }
        match next_or_end(alloc, &mut self.source) {
            Ok(None) => Ok(None),
            Ok(Some((cid, data, count))) => {
                self.taken += count;
                Ok(Some((cid, data)))
            }
            Err(fault) => {
                let refusal = fault.at(self.taken);
                self.refusal = Some(refusal);
                Err(refusal)
            }
        }
    }
}
