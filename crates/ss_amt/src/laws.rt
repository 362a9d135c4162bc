//! Laws of the definitions, each the contract of a function that does nothing.
ghost use Rattle.std.specs.Prelude.{◌≡◌, ◌↔◌, ℕ, List, Some, Ok, Result, Contains};
ghost use Rattle.ss_cid.specs.Maps.{Kept};
ghost use Rattle.ss_node.specs.Blocks.{Held};
ghost use Rattle.ss_node.specs.declared.fault.NodeFault.{NodeFault};
ghost use Rattle.ss_amt.specs.Paths.{Answer, AmtGet};
ghost use Rattle.ss_amt.specs.Walks.{Pair, AmtValues};

/// Where the blocks are exposed, an index has one answer.
pub fn an_index_has_one_answer()
    ensures { (held : Held) (kept : Kept) → held.told ≡ Some kept → (root : List ℕ) (index : ℕ) (a b : Answer) →
        AmtGet held root index a → AmtGet held root index b → a ≡ b }
{}

/// Where the blocks are exposed, a tree has one list of values, or none for one reason.
pub fn a_tree_has_one_walk()
    ensures { (held : Held) (kept : Kept) → held.told ≡ Some kept → (root : List ℕ) (a b : Result (List Pair) NodeFault) →
        AmtValues held root a → AmtValues held root b → a ≡ b }
{}

/// Where the blocks are exposed, a walk has exactly the values that look-ups find.
pub fn a_walk_has_what_look_ups_find()
    ensures { (held : Held) (kept : Kept) → held.told ≡ Some kept → (root : List ℕ) (values : List Pair) → AmtValues held root (Ok values) →
        (index : ℕ) (value : List ℕ) → Contains values (index, value) ↔ AmtGet held root index (Ok (Some value)) }
{}
