//! Laws of marking, each the contract of a function that does nothing.
ghost use Rattle.std.specs.Prelude.{◌≡◌, ◌↔◌, ◌++◌, ◌∷◌, [], ℕ, List, true, Some, None};
ghost use Rattle.std.specs.FinMap as map;
ghost use Rattle.ss_cid.specs.Cid.{IsCid};
ghost use Rattle.ss_cid.specs.Maps.{Kept};
ghost use Rattle.ss_chain.specs.Fetch.{is_identity};
ghost use Rattle.ss_chain.specs.Reach.{Reach};
ghost use Rattle.ss_marks.specs.declared.colour.Colour.TheVariants as colour;
ghost use Rattle.ss_marks.specs.Marks.{MarkTable, mark_of, colour_of};
ghost use Rattle.ss_txn.specs.Marked.{Protected, ByCases, Marked, IsQuiet};
ghost use Rattle.ss_txn.specs.Marked.{Protects};

/// What is white once no row is grey or out is not reached from the roots: it may be discarded.
pub fn quiet_and_white_is_not_reached()
    ensures { (edge : ℕ) (kept : Kept) (roots : List (List ℕ)) (marks : MarkTable) (cid : List ℕ) →
        Marked edge kept roots marks → IsQuiet marks → colour_of marks cid ≡ Some colour.White → Reach edge kept roots cid → ⊥ }
{}

/// A white block may be discarded once no row is grey or out: with its row removed, what holds of the marks holds of the
/// blocks that are left, and no row is grey or out.
pub fn a_white_block_may_go()
    ensures marked { (edge : ℕ) (kept : Kept) (roots : List (List ℕ)) (old new : MarkTable) (cid : List ℕ) →
        Marked edge kept roots old → IsQuiet old → colour_of old cid ≡ Some colour.White → new.marks ≡ map.remove old.marks cid →
        Marked edge (map.remove kept cid) roots new }
    ensures quiet { (old new : MarkTable) (cid : List ℕ) → IsQuiet old → new.marks ≡ map.remove old.marks cid → IsQuiet new }
{}

/// A block may be stored while marking goes on: its row is added, and then its CID protected.
pub fn a_new_block_is_protected()
    ensures { (edge : ℕ) (kept : Kept) (roots : List (List ℕ)) (old added new : MarkTable) (cid block : List ℕ) (row : ℕ) →
        Marked edge kept roots old → mark_of old cid ≡ None →
        added.marks ≡ map.insert old.marks cid (record { row = row; colour = colour.White }) → Protects edge (cid ∷ []) added new →
        Marked edge (map.insert kept cid block) (roots ++ cid ∷ []) new }
{}

/// Where no identity CID has a row, what is protected is told by three cases: stored and shaded, identity and followed to
/// protected CIDs alone, or neither.
pub fn protected_is_by_cases()
    ensures { (edge : ℕ) (marks : MarkTable) (cid : List ℕ) → ((c : List ℕ) → is_identity c ≡ true → mark_of marks c ≡ None) →
        IsCid cid → Protected edge marks cid ↔ ByCases edge marks cid }
{}
