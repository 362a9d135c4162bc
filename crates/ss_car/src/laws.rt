//! Laws of CARs, each the contract of a function that does nothing.
ghost use Rattle.std.specs.Prelude.{◌≡◌, ◌⊎◌, ℕ, ◌<◌, ◌≤◌, List, ◌++◌, length, Option, None, All};
ghost use Rattle.std.specs.List.{flat_map};
ghost use Rattle.ss_cid.specs.Cid.{IsCid};
ghost use Rattle.ss_car.specs.Car.{framed, IsStart, IsSection, StartFault, SectionFault, Section, AreSections, IsCar};
ghost use Rattle.ss_car.specs.Writing.{header_bytes, section_bytes, SectionFits, sections_from};
ghost use Rattle.ss_car.specs.declared.fault.CarFault.{CarFault};
ghost use Rattle.ss_car.specs.declared.fault.CarRefusal.{CarRefusal};

/// Bytes begin with a header of version 1, or they are refused; with one at most, by one fault at most, and not both.
pub fn bytes_begin_with_one_header()
    ensures either { (bytes : List ℕ) → All (λ b. b < 256) bytes →
        ((front : List ℕ) × (rest : List ℕ) × (roots : List (List ℕ)) × (bytes ≡ front ++ rest) × IsStart front roots)
        ⊎ ((fault : CarFault) × StartFault bytes fault) }
    ensures one { (a b x y : List ℕ) (roots others : List (List ℕ)) → a ++ x ≡ b ++ y →
        IsStart a roots → IsStart b others → (a ≡ b) × (roots ≡ others) }
    ensures refused { (bytes : List ℕ) (e f : CarFault) → StartFault bytes e → StartFault bytes f → e ≡ f }
    ensures none { (front rest : List ℕ) (roots : List (List ℕ)) (fault : CarFault) →
        IsStart front roots → StartFault (front ++ rest) fault → ⊥ }
{}

/// Bytes begin with a section, or they are refused; with one at most, by one fault at most, and not both.
pub fn bytes_begin_with_one_section()
    ensures either { (bytes : List ℕ) → All (λ b. b < 256) bytes →
        ((front : List ℕ) × (rest : List ℕ) × (cid : List ℕ) × (block : List ℕ) × (bytes ≡ front ++ rest) × IsSection front cid block)
        ⊎ ((fault : CarFault) × SectionFault bytes fault) }
    ensures one { (a b x y cid other block content : List ℕ) → a ++ x ≡ b ++ y →
        IsSection a cid block → IsSection b other content → (a ≡ b) × (cid ≡ other) × (block ≡ content) }
    ensures refused { (bytes : List ℕ) (e f : CarFault) → SectionFault bytes e → SectionFault bytes f → e ≡ f }
    ensures none { (front rest cid block : List ℕ) (fault : CarFault) →
        IsSection front cid block → SectionFault (front ++ rest) fault → ⊥ }
{}

/// The sections of bytes are one list, with one end.
pub fn sections_are_one_list()
    ensures some { (at : ℕ) (bytes : List ℕ) → All (λ b. b < 256) bytes →
        (sections : List Section) × (ending : Option CarRefusal) × AreSections at bytes sections ending }
    ensures one { (at : ℕ) (bytes : List ℕ) (sections others : List Section) (ending other : Option CarRefusal) →
        AreSections at bytes sections ending → AreSections at bytes others other → (sections ≡ others) × (ending ≡ other) }
{}

/// A file has one list of roots, one list of sections and one end.
pub fn a_car_says_one_thing()
    ensures { (bytes : List ℕ) (roots others : List (List ℕ)) (sections those : List Section) (ending other : Option CarRefusal) →
        IsCar bytes roots sections ending → IsCar bytes others those other → (roots ≡ others) × (sections ≡ those) × (ending ≡ other) }
{}

/// What a prefix of a file says, the file says: its roots, and its sections before any others.
pub fn a_front_says_what_the_file_does()
    ensures { (front rest : List ℕ) (roots others : List (List ℕ)) (sections all : List Section) (ending : Option CarRefusal) →
        IsCar front roots sections None → IsCar (front ++ rest) others all ending → (roots ≡ others) × ((more : List Section) × (all ≡ sections ++ more)) }
{}

/// What is written within the limits is read again: the roots, and each CID with its data.
pub fn written_is_read()
    ensures header { (roots : List (List ℕ)) → All IsCid roots → length (header_bytes roots) ≤ 1048576 →
        IsStart (framed (header_bytes roots)) roots }
    ensures sections { (at : ℕ) (blocks : List (List ℕ × List ℕ)) → All SectionFits blocks →
        AreSections at (flat_map section_bytes blocks) (sections_from at blocks) None }
    ensures car { (roots : List (List ℕ)) (blocks : List (List ℕ × List ℕ)) →
        All IsCid roots → length (header_bytes roots) ≤ 1048576 → All SectionFits blocks →
        IsCar (framed (header_bytes roots) ++ flat_map section_bytes blocks) roots
        (sections_from (length (framed (header_bytes roots))) blocks) None }
{}
