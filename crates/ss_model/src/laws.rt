//! What clients may rely on in every history, as laws: each is the contract of a function with an empty body.

ghost use Rattle.std.specs.Prelude.{◌≡◌, ◌≢◌, ℕ, ◌+◌, false, List, length, Some, slice_get};
ghost use Rattle.std.specs.FinMap as map;
ghost use Rattle.ss_chain.specs.Tipset.{IsTipset};
ghost use Rattle.ss_records.specs.declared.record.Config.{Config as Settings};
ghost use Rattle.ss_records.specs.declared.record.Record.{Record};
ghost use Rattle.ss_records.specs.Record.{spelling};
ghost use Rattle.ss_model.specs.State.{State, empty_state, closed};
ghost use Rattle.ss_model.specs.Head.{blocks_of, head_need};
ghost use Rattle.ss_model.specs.Lawful.{IsProper, Legal, AfterAll};
ghost use Rattle.ss_model.specs.Lawful.{is_open, pairs_need, Lawful, LawfulGet, After, after_put};
ghost use Rattle.ss_model.specs.declared.TheConstants.{VIEWS, NO_VIEW, PUT_BLOCKS, PUT_BYTES, BLOCK_BYTES, COMPACTOR};
ghost use Rattle.ss_model.specs.declared.call.Answer.{Answer};
ghost use Rattle.ss_model.specs.declared.call.Call.{Call};
ghost use Rattle.ss_model.specs.declared.call.Entry.{Entry};
ghost use Rattle.ss_model.specs.declared.call.GetReply.{GetReply};
ghost use Rattle.ss_model.specs.declared.call.GetReply.TheVariants as get;
ghost use Rattle.ss_model.specs.declared.call.PutReply.TheVariants as put;

/// A block that is kept stays with its bytes, whatever calls and answers follow.
pub fn kept_stays()
    ensures { (s : State) (h : List Entry) (c block : List ℕ) → map.get s.kept c ≡ Some block → map.get (AfterAll s h).kept c ≡ Some block }
{}

/// After a put that was answered `Stored`, a get of a CID of its parcel is never answered `NotFound`, whatever calls and
/// answers stand between the two.
pub fn stored_is_found()
    ensures { (s : State) (pairs : List (List ℕ × List ℕ)) (new : ℕ) (between : List Entry) (i : ℕ) (p : List ℕ × List ℕ) (view : ℕ) (reply : GetReply) → slice_get pairs i ≡ Some p → LawfulGet (AfterAll (after_put s pairs (put.Stored new)) between) view p.0 reply → reply ≢ get.NotFound }
{}

/// A new store has a proper state.
pub fn a_new_store_is_proper()
    ensures { (config : Settings) → IsProper (empty_state config) }
{}

/// Each legal entry, each legal history and closing keep a proper state. So whatever a store went through since it was made,
/// in any number of runs: each kept block is valid for its CID, which is no identity CID; all kept blocks are hot in discard
/// mode; no more are kept than the settings allow; and the head is a tipset of blocks that are there.
pub fn a_proper_state_stays_proper()
    ensures entry { (s : State) (asked : Call) (given : Answer) → IsProper s → Lawful s asked given → IsProper (After s asked given) }
    ensures history { (s : State) (h : List Entry) → IsProper s → Legal s h → IsProper (AfterAll s h) }
    ensures closing { (s : State) → IsProper s → IsProper (closed s) }
{}

/// The head of a proper state is a tipset: distinct headers of one height with the same parents, each under an identity CID or
/// kept.
pub fn a_head_is_a_tipset()
    ensures { (s : State) (height : ℕ) (cids : List (List ℕ)) → IsProper s → s.head ≡ Some (height, cids) → IsTipset (blocks_of s.kept cids) height }
{}

/// The view that a script's line is given where its own `open` has not answered is never open.
pub fn no_view_is_never_open()
    ensures { (s : State) → IsProper s → is_open s NO_VIEW ≡ false }
{}

/// The limits, as numbers.
pub fn limits()
    ensures views { (VIEWS ≡ 1024) × (NO_VIEW ≡ 4294967295) }
    ensures puts { (PUT_BLOCKS ≡ 1024) × (PUT_BYTES ≡ 15728640) × (BLOCK_BYTES ≡ 8388608) }
    ensures compactor { COMPACTOR ≡ 255 }
{}

/// What a put or a head needs of a log is what its record takes: the body, and five bytes for the gate and the length.
pub fn need_is_of_the_record()
    ensures put { (pairs : List (List ℕ × List ℕ)) → pairs_need pairs ≡ 5 + length (spelling (Record.Put pairs)) }
    ensures head { (height : ℕ) (cids : List (List ℕ)) → head_need cids ≡ 5 + length (spelling (Record.Head height cids)) }
{}
