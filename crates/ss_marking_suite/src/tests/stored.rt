ghost use Rattle.std.specs.Prelude.{◌≡◌, [], true, None, is_some, IfSome, OnOk};
ghost use Rattle.std.proofs.lemmas.Option.{none-some};
ghost use Rattle.ss_cid.specs.Cid.{digest_of};
ghost use Rattle.ss_chain.specs.Fetch.{is_identity, is_known};
ghost use Rattle.ss_txn.specs.Marked.{HasRowsOf};
ghost use Rattle.ss_marking_suite.specs.Rows.{has_block};

use ss_chain::{Blocks, Fetched};
use ss_cid::{Bytes, Cid, NoMemory};
use ss_marks::Marks;
use std::alloc::Global;
use std::collections::BTreeMap;
use std::test::Fail;

/// Blocks in memory, which are looked up in an ordered map.
#[derive(Drop)]
pub(crate) struct Stored {
    pub blocks: BTreeMap<Cid, Bytes>,
}

impl Stored {
    pub fn new(alloc: Global) -> Stored
        ensures { result.blocks.entries ≡ [] }
    {
        Stored {
            blocks: BTreeMap::new(alloc),
        }
    }

    fn block_of<'a>(&'a self, cid: &'a Cid) -> Option<&'a [u8]>
        ensures known { is_some result ≡ is_known (has_block self.now.blocks) cid.now }
        ensures digest { IfSome result (λ block. is_identity cid.now ≡ true → block.now ≡ digest_of cid.now) }
    {
        if let Some(digest) = cid.identity() {
            return Some(digest);
        }
        let block = self.blocks.get(cid)?;
        Some(block.as_slice())
    }
}

impl Blocks for Stored {
    ghost holds = { λ s. has_block s.blocks };

    ghost told = { λ s. None };

    ghost faults = { λ s. 0 };

    ghost keys = { λ s kept cid same. absurd (none-some kept same) };

    fn fetch(&mut self, alloc: Global, cid: &Cid) -> Fetched {
        let Some(block) = self.block_of(cid) else {
            return Fetched::NotFound;
        };
        match Bytes::from_slice(alloc, block) {
            Ok(copy) => Fetched::Found(copy),
            Err(NoMemory) => Fetched::NoMemory,
        }
    }

    fn faults(&self) -> u64 {
        0
    }
}

// Stores a block with a row for its CID, unless it is an identity CID or has one.
pub(crate) fn store(
    alloc: Global,
    marks: &mut Marks,
    blocks: &mut Stored,
    cid: &Cid,
    block: &[u8],
) -> Result<(), Fail>
    requires { HasRowsOf (has_block blocks.old.blocks) marks.old }
    ensures { OnOk result (HasRowsOf (has_block blocks.new.blocks) marks.new) }
{
    if cid.identity().is_some() || marks.row(cid).is_some() {
        return Ok(());
    }
    marks.reserve(1)?;
    marks.add(*cid);
    blocks
        .blocks
        .insert(*cid, Bytes::from_slice(alloc, block)?)?;
    Ok(())
}
