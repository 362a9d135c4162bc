ghost use Rattle.std.specs.Prelude.{◌≡◌, ◌≢◌, ◌<◌, ◌≤◌, ◌↔◌, ◌-◌, [], ◌∷◌, Ok, Err, IsTrue, IsSome, IfOk, IfErr, IfSome, length};

use crate::fault::{Misfit, RecordFault};
use crate::fields::{block_at, content, u16_at};
use crate::record::{KIND_PUT, Record};
use ss_cid::Cid;

/// A block in the body of a Put.
#[derive(Clone, Copy, Debug, PartialEq, Eq)]
pub struct BlockPlace {
    /// The block's CID.
    pub cid: Cid,
    /// The offset in the body of the first byte of its data, counted from 0.
    pub at: usize,
    /// How many bytes of data it has.
    pub len: u32,
}

/// The blocks of a Put's body in order, each by where it lies. Its bytes are neither copied nor read, and no
/// memory is taken.
///
/// Where the body spells no record, its fault comes once, after the blocks before it, and nothing
/// after it. It is that of [`decode`](crate::decode), with its offset.
#[derive(Debug, Drop)]
pub struct PutBlocks<'a> {
    rest: &'a [u8],
    end: usize,
    due: u16,
    ghost within: { length rest.now ≤ end },
}

impl<'a> PutBlocks<'a> {
    ghost use Rattle.ss_records.specs.declared.fault.RecordFault.TheVariants.{BadRecord};
    ghost use Rattle.std.specs.Int.{w16};
    ghost use Rattle.ss_records.specs.Fields.{number_at, read_record};
    ghost use Rattle.ss_records.specs.Places.{places_left, IsPut, ArePlaces, IsFaultOf};

    /// The blocks of a Put's body; None where the body is of another kind or has no byte. A fault of the
    /// count is told here, and any other after the blocks before it.
    pub fn of(body: &'a [u8]) -> Result<Option<PutBlocks<'a>>, RecordFault>
        ensures kind { IfOk result (λ found. IsSome found ↔ IsPut body.now) }
        ensures places { IfOk result (λ found. IfSome found (λ blocks. ArePlaces (read_record body.now) (places_left blocks))) }
        ensures fault { IfErr result (λ e. IsPut body.now × IsFaultOf (read_record body.now) e) }
    {
        match body.split_first() {
            Some((kind, fields)) if *kind == KIND_PUT => match PutBlocks::begin(
                fields,
                body.len(),
            ) {
                Ok(found) => Ok(Some(found)),
                Err(misfit) => Err(RecordFault::BadRecord {
                    at: misfit.place(body.len()),
                }),
            },
            _ => Ok(None),
        }
    }

    // The blocks after their count, in a body of `end` bytes.
    fn begin(fields: &'a [u8], end: usize) -> Result<PutBlocks<'a>, Misfit>
        requires { length fields.now < end }
        ensures due { IfOk result (λ blocks. number_at w16 1 4096 fields.now ≡ Ok (blocks.due, blocks.rest.now)) }
        ensures end { IfOk result (λ blocks. blocks.end ≡ end) }
        ensures err { IfErr result (λ misfit. number_at w16 1 4096 fields.now ≡ Err misfit.left) }
    {
        let (due, rest) = u16_at(1, Record::MAX_BLOCKS, fields)?;
        Ok(PutBlocks { rest, end, due })
    }

    // Whether nothing is left.
    fn is_done(&self) -> bool
        ensures { IsTrue result ↔ (places_left self.now ≡ []) }
    {
        self.due == 0 && self.rest.is_empty()
    }

    // The next block, or what is at fault there.
    fn take(&mut self) -> Result<BlockPlace, Misfit>
        requires { places_left self.old ≢ [] }
        ensures ok { IfOk result (λ place. places_left self.old ≡ Ok place ∷ places_left self.new) }
        ensures err { IfErr result (λ misfit. places_left self.old ≡ Err (BadRecord (self.old.end - misfit.left)) ∷ []) }
        ensures end { self.new.end ≡ self.old.end }
    {
        if self.due == 0 {
            return Err(Misfit::AT_END);
        }
        let (cid, len) = block_at(self.rest)?;
        let content = content(&cid, self.rest);
        let at = self.end - content.len();
        let (_, rest) = content.split_at(len as usize);
        self.rest = rest;
        self.due -= 1;
        Ok(BlockPlace { cid, at, len })
    }

    // Nothing comes after a fault.
    fn fail(&mut self, misfit: Misfit) -> RecordFault
        ensures place { result ≡ BadRecord (self.old.end - misfit.left) }
        ensures nothing { places_left self.new ≡ [] }
    {
        self.rest = &[];
        self.due = 0;
        RecordFault::BadRecord {
            at: misfit.place(self.end),
        }
    }
}

impl Iterator for PutBlocks<'_> {
    type Item = Result<BlockPlace, RecordFault>;

    ghost use Rattle.std.specs.Iterator.{YieldsFirst, item_count};
    ghost use Rattle.ss_records.specs.Places.{places_left};

    ghost next_gives = { YieldsFirst places_left };

    ghost remaining = { item_count places_left };

    fn next(&mut self) -> Option<Result<BlockPlace, RecordFault>> {
        if self.is_done() {
            return None;
        }
        match self.take() {
            Ok(place) => Some(Ok(place)),
            Err(misfit) => Some(Err(self.fail(misfit))),
        }
    }
}
