ghost use Rattle.std.specs.Prelude.{◌≡◌, ◌+◌, ◌^◌, ◌<◌, ◌≤◌, ℕ, List, IsTrue, length, Err, Ok, None, Some, IfOk, IfSome, OnOk, option_map, is_some};
ghost use Rattle.std.specs.FinMap as finite_map;
ghost use Rattle.ss_records.specs.declared.record.Record.{Record};
ghost use Rattle.ss_hot.specs.Half.{hot_blocks};

use super::HotStore;
use ss_cid::{Bytes, Cid};
use ss_device::Disk;
use ss_store::{Place, StoreFault};
use std::alloc::Global;

impl HotStore {
    ghost use Rattle.ss_store.specs.Places.{next_key};
    ghost use Rattle.ss_store.specs.declared.fault.StoreFault.TheVariants as fault;
    ghost use Rattle.ss_hot.specs.Store.{Tells, Keeps, IsKnown, LiesIn, Reads, IsStop};

    /// The bytes of a hot block, by one read; of one that is not hot None, with no call of the disk. First `NoMemory`, with no
    /// call of the disk either, then `DiskFault`.
    pub fn get<D: Disk>(
        &self,
        alloc: Global,
        disk: &mut D,
        cid: &Cid,
    ) -> Result<Option<Bytes>, StoreFault>
        requires { IsKnown D.Disk disk.old self.now }
        ensures block { (records others : List Record) → IsTrue D.told → Keeps D.Disk disk.old self.now records others → IfOk result (λ found. found ≡ finite_map.get (hot_blocks records) cid.now) }
        ensures hot { IfOk result (λ found. is_some found ≡ is_some (finite_map.get self.now.places cid.now)) }
        ensures absent { finite_map.get self.now.places cid.now ≡ None → (result ≡ Ok None) × (disk.new ≡ disk.old) }
        ensures memory { result ≡ Err fault.NoMemory → disk.new ≡ disk.old }
        ensures reads { Reads D.Disk disk.old disk.new IsStop result }
    {
        let Some(place) = self.place(cid) else {
            return Ok(None);
        };
        let Ok(mut block) = vec![in alloc; 0u8; place.len as usize] else {
            return Err(StoreFault::NoMemory);
        };
        match self.read(disk, place, block.as_mut_slice()) {
            Ok(()) => Ok(Some(Bytes::from(block))),
            Err(fault) => Err(fault),
        }
    }

    /// Where the bytes of a hot block lie.
    pub fn place(&self, cid: &Cid) -> Option<Place>
        ensures value { result ≡ finite_map.get self.now.places cid.now }
        ensures within { IfSome result (LiesIn self.now.log) }
        ensures short { IfSome result (λ place. length cid.now + place.len ≤ 8388608) }
    {
        self.index.get(cid)
    }

    /// The bytes of a block from its place, by one read. After `DiskFault` the buffer's bytes are arbitrary.
    pub fn read<D: Disk>(
        &self,
        disk: &mut D,
        place: Place,
        block: &mut [u8],
    ) -> Result<(), StoreFault>
        requires known { IsKnown D.Disk disk.old self.now }
        requires within { LiesIn self.now.log place }
        requires len { length block.old ≡ place.len }
        ensures block { (cid : List ℕ) (records others : List Record) → IsTrue D.told → Keeps D.Disk disk.old self.now records others → finite_map.get self.now.places cid ≡ Some place → OnOk result (finite_map.get (hot_blocks records) cid ≡ Some block.new) }
        ensures len { length block.new ≡ length block.old }
        ensures reads { Reads D.Disk disk.old disk.new (λ e. e ≡ fault.DiskFault) result }
    {
        match self.log.read_at(disk, place.at, block) {
            Ok(()) => Ok(()),
            Err(fault) => Err(StoreFault::of_log(place.file, fault)),
        }
    }

    /// Whether a block is hot.
    pub fn has(&self, cid: &Cid) -> bool
        ensures value { result ≡ is_some (finite_map.get self.now.places cid.now) }
        ensures block { (records : List Record) → Tells self.now records → result ≡ is_some (finite_map.get (hot_blocks records) cid.now) }
    {
        self.index.get(cid).is_some()
    }

    /// How many bytes a hot block has. With its CID it has no more than a record allows.
    pub fn size(&self, cid: &Cid) -> Option<u32>
        ensures value { result ≡ option_map (λ place. place.len) (finite_map.get self.now.places cid.now) }
        ensures short { IfSome result (λ len. length cid.now + len ≤ 8388608) }
        ensures block { (records : List Record) → Tells self.now records → result ≡ option_map (λ block. length block) (finite_map.get (hot_blocks records) cid.now) }
    {
        let place = self.place(cid)?;
        Some(place.len)
    }

    /// How many blocks are hot.
    pub fn count(&self) -> u64
        ensures value { result ≡ finite_map.len self.now.places }
        ensures blocks { (records : List Record) → Tells self.now records → result ≡ finite_map.len (hot_blocks records) }
        ensures few { result < 2 ^ 63 }
    {
        self.index.len() as u64
    }

    /// The least CID of a hot block, or the least one that is greater than `from`.
    pub fn after(&self, from: Option<&Cid>) -> Option<Cid>
        ensures { result ≡ next_key (finite_map.keys self.now.places) (option_map (λ cid. cid.now) from.entry) }
    {
        self.index.after(from)
    }
}
