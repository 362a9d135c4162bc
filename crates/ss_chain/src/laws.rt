//! Laws of the definitions, each the contract of a function that does nothing.
ghost use Rattle.std.specs.Prelude.{◌≡◌, ◌↔◌, ◌<◌, ℕ, List, Bool, true, Option, Some, None, Contains};
ghost use Rattle.ss_cid.specs.Maps.{Kept};
ghost use Rattle.ss_chain.specs.Steps.{first_of, IsLeast};
ghost use Rattle.ss_chain.specs.Follows.{followed, IsFollowed};
ghost use Rattle.ss_chain.specs.Reach.{LeadsTo, Reach};

/// The CIDs that roots reach are the least set that has the roots, and has what each of its members leads to.
pub fn reach_is_least()
    ensures roots { (edge : ℕ) (kept : Kept) (roots : List (List ℕ)) (root : List ℕ) → Contains roots root → Reach edge kept roots root }
    ensures next { (edge : ℕ) (kept : Kept) (roots : List (List ℕ)) (from to : List ℕ) →
        Reach edge kept roots from → LeadsTo edge kept from to → Reach edge kept roots to }
    ensures least { (edge : ℕ) (kept : Kept) (roots : List (List ℕ)) (has : List ℕ → Bool) →
        ((root : List ℕ) → Contains roots root → has root ≡ true) →
        ((from to : List ℕ) → has from ≡ true → LeadsTo edge kept from to → has to ≡ true) →
        (cid : List ℕ) → Reach edge kept roots cid → has cid ≡ true }
{}

/// The CIDs that are followed from a block are those that the rule of its kind names.
pub fn followed_are_by_the_rule()
    ensures { (edge : ℕ) (cid block to : List ℕ) → Contains (followed edge cid block) to ↔ IsFollowed edge cid block to }
{}

/// What the first of some numbers gives is what the least gives, of those that give something.
pub fn first_is_least()
    ensures some { (gives : ℕ → Option ℕ) (n x : ℕ) → first_of gives n ≡ Some x → (i : ℕ) × IsLeast gives n x i }
    ensures none { (gives : ℕ → Option ℕ) (n : ℕ) → first_of gives n ≡ None → (j : ℕ) → j < n → gives j ≡ None }
{}
