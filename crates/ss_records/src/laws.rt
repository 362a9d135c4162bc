//! What holds of spellings and places as such. Each function's contract is a law; there is nothing to
//! call.
ghost use Rattle.std.specs.Prelude.{◌≡◌, ◌<◌, ℕ, List, map, slice_index, Ok};
ghost use Rattle.ss_records.specs.declared.record.Record.{Record};
ghost use Rattle.ss_records.specs.Record.{spelling, Fits, IsValue};
ghost use Rattle.ss_records.specs.Fields.{read_record};
ghost use Rattle.ss_records.specs.Places.{bytes_in, places_of};

/// The body that spells a record reads as that record.
pub fn spelled_is_read()
    ensures { (r : Record) → IsValue r → Fits r → read_record (spelling r) ≡ Ok r }
{}

/// What a body reads as is what it spells; so no two records have one spelling, and no record two.
pub fn one_spelling()
    ensures { (body : List ℕ) (r : Record) → ((i : ℕ) → slice_index body i < 256) → read_record body ≡ Ok r
        → (body ≡ spelling r) × IsValue r × Fits r }
{}

/// The blocks of a Put are what lies at their places in its body.
pub fn blocks_lie_at_their_places()
    ensures { (blocks : List (List ℕ × List ℕ)) →
        map (λ place. (place.cid, bytes_in (spelling (Record.Put blocks)) place)) (places_of (Record.Put blocks)) ≡ blocks }
{}
