//! Laws of the definitions, each the contract of a function that does nothing.
ghost use Rattle.std.specs.Prelude.{◌≡◌, ℕ, List, Some, Ok, Result, Contains};
ghost use Rattle.ss_cid.specs.Maps.{Kept};
ghost use Rattle.ss_node.specs.Blocks.{Held};
ghost use Rattle.ss_node.specs.declared.fault.NodeFault.{NodeFault};
ghost use Rattle.ss_hamt.specs.Paths.{Answer, HamtGet};
ghost use Rattle.ss_hamt.specs.Walks.{Pair, HamtPairs};

/// Where the blocks are exposed, a key has one answer.
pub fn a_key_has_one_answer()
    ensures { (held : Held) (kept : Kept) → held.told ≡ Some kept → (root key : List ℕ) (a b : Answer) →
        HamtGet held root key a → HamtGet held root key b → a ≡ b }
{}

/// Where the blocks are exposed, a tree has one list of pairs, or none for one reason.
pub fn a_tree_has_one_walk()
    ensures { (held : Held) (kept : Kept) → held.told ≡ Some kept → (root : List ℕ) (a b : Result (List Pair) NodeFault) →
        HamtPairs held root a → HamtPairs held root b → a ≡ b }
{}

/// Where the blocks are exposed, a walk has each value that a look-up finds. It may have more: a
/// bucket may repeat a key, and may lie where no look-up of its keys comes.
pub fn a_walk_has_what_look_ups_find()
    ensures { (held : Held) (kept : Kept) → held.told ≡ Some kept → (root : List ℕ) (pairs : List Pair) → HamtPairs held root (Ok pairs) →
        (key value : List ℕ) → HamtGet held root key (Ok (Some value)) → Contains pairs (key, value) }
{}
