//! Laws of the file's form. Each function does nothing: its contract is the law.
ghost use Rattle.std.specs.Prelude.{◌≡◌, ◌⊎◌, ◌<◌, ℕ, List};
ghost use Rattle.ss_gatelog.specs.Log.{HasList, IsDamaged};

/// A file stands for one list.
pub fn one_list()
    ensures { (limit : ℕ) (file : List ℕ) (a b : List (List ℕ)) → HasList limit file a → HasList limit file b → a ≡ b }
{}

/// A file that stands for a list is damaged nowhere, and one that is damaged is so at one offset.
pub fn one_damage()
    ensures no_list { (limit at : ℕ) (file : List ℕ) (records : List (List ℕ)) → HasList limit file records → IsDamaged limit file at → ⊥ }
    ensures one_place { (limit at at' : ℕ) (file : List ℕ) → IsDamaged limit file at → IsDamaged limit file at' → at ≡ at' }
{}

/// Each file stands for a list or is damaged.
pub fn each_file()
    ensures { (limit : ℕ) (file : List ℕ) → 0 < limit → ((records : List (List ℕ)) × HasList limit file records) ⊎ ((at : ℕ) × IsDamaged limit file at) }
{}
