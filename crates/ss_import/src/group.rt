//! The sections that go into one put.
ghost use Rattle.std.specs.Prelude.{◌≡◌, ◌↔◌, ◌+◌, ◌<◌, ◌≤◌, ◌^◌, [], ◌∷◌, ◌++◌, length, take, IsTrue, IfOk, OnOk};
ghost use Rattle.ss_import.specs.Steps.{Holds};
ghost use Rattle.ss_model.specs.declared.TheConstants.{PUT_BYTES};

use ss_cid::{Cid, NoMemory, Parcel};
use ss_model::PUT_BYTES;
use std::alloc::Global;

/// The most sections that go into one put.
const GROUP_SECTIONS: usize = 256;

/// The most bytes of CIDs and blocks that go into one put together.
const GROUP_BYTES: u64 = 4_194_304;

/// Sections that follow one another and were not put yet, the offset of each, and how many bytes they have: of CIDs and blocks,
/// and of the put.
#[derive(Debug, Drop)]
pub struct Group {
    pub parcel: Parcel,
    pub offsets: Vec<u64>,
    pub bytes: u64,
    pub put_bytes: u64,
}

impl Group {
    /// No sections, which takes no memory.
    pub fn new(alloc: Global) -> Group
        ensures holds { Holds result [] }
        ensures bytes { (result.bytes ≡ 0) × (result.put_bytes ≡ 3) }
    {
        Group {
            parcel: Parcel::new(alloc),
            offsets: Vec::new(alloc),
            bytes: 0,
            put_bytes: 3,
        }
    }

    /// Whether a section with so many bytes of its CID and its block, and of a put, goes into the same put.
    pub fn takes(&self, bytes: u64, put_bytes: u64) -> bool
        ensures { IsTrue result ↔ (length self.now.parcel < 256) × (self.now.bytes + bytes ≤ 4194304) × (self.now.put_bytes + put_bytes ≤ PUT_BYTES) }
    {
        self.parcel.len() < GROUP_SECTIONS
            && self.bytes.saturating_add(bytes) <= GROUP_BYTES
            && self.put_bytes.saturating_add(put_bytes) <= PUT_BYTES
    }

    /// Appends a section. Out of memory, the group is as it was but for memory that it took.
    pub fn add(
        &mut self,
        cid: Cid,
        block: &[u8],
        offset: u64,
        put_bytes: u64,
    ) -> Result<(), NoMemory>
        requires bytes { self.old.bytes + (length cid + length block.now) < 2 ^ 64 }
        requires put_bytes { self.old.put_bytes + put_bytes < 2 ^ 64 }
        ensures parcel { OnOk result (self.new.parcel ≡ self.old.parcel ++ (cid, block.now) ∷ []) }
        ensures offsets { OnOk result (self.new.offsets.items ≡ self.old.offsets.items ++ offset ∷ []) }
        ensures bytes { OnOk result (self.new.bytes ≡ self.old.bytes + (length cid + length block.now)) }
        ensures put_bytes { OnOk result (self.new.put_bytes ≡ self.old.put_bytes + put_bytes) }
    {
        self.offsets.reserve(1)?;
        self.parcel.add(cid, block)?;
        self.offsets.push_reserved(offset);
        self.bytes += (cid.as_bytes().len() + block.len()) as u64;
        self.put_bytes += put_bytes;
        Ok(())
    }

    /// The blocks of the first `count` sections, copied.
    pub fn before(&self, alloc: Global, count: usize) -> Result<Parcel, NoMemory>
        requires { count ≤ length self.now.parcel }
        ensures { IfOk result (λ parcel. parcel ≡ take count self.now.parcel) }
    {
        let mut parcel = Parcel::new(alloc);
        for i in 0..count {
            let (cid, block) = self.parcel.at(i);
            parcel.add(cid, block)?;
        }
        Ok(parcel)
    }

    /// Takes all sections away. Their memory stays.
    pub fn clear(&mut self)
        ensures holds { Holds self.new [] }
        ensures bytes { (self.new.bytes ≡ 0) × (self.new.put_bytes ≡ 3) }
    {
        self.parcel.clear();
        self.offsets.clear();
        self.bytes = 0;
        self.put_bytes = 3;
    }
}
