//! Laws of items, each the contract of a function that does nothing.
ghost use Rattle.std.specs.Prelude.{◌≡◌, ◌⊎◌, ◌<◌, ◌^◌, ◌++◌, ℕ, List, length, All, Ok};
ghost use Rattle.std.specs.List.{flat_map};
ghost use Rattle.ss_cbor.specs.declared.fault.CborFault.{CborFault};
ghost use Rattle.ss_cbor.specs.Fault.{IsRefused, item_at};
ghost use Rattle.ss_cbor.specs.Item.{Part, items_in, links_of, IsPart, IsItem, AreParts, Closes};
ghost use Rattle.ss_cbor.specs.Reading.{part_at};

/// No item begins another, and an item has one list of links.
pub fn item_has_one_reading()
    ensures { (a b x y : List ℕ) (l m : List (List ℕ)) → length a < 2 ^ 63 → length b < 2 ^ 63 →
        IsItem a l → IsItem b m → a ++ x ≡ b ++ y → (a ≡ b) × (l ≡ m) }
{}

/// Bytes are one item, or they have a first fault; they have one first fault at most, and an item has none.
pub fn bytes_are_an_item_or_have_one_fault()
    ensures either { (bytes : List ℕ) → All (λ b. b < 256) bytes → length bytes < 2 ^ 63 →
        ((links : List (List ℕ)) × IsItem bytes links) ⊎ ((fault : CborFault) × IsRefused bytes fault) }
    ensures one { (bytes : List ℕ) (e f : CborFault) → All (λ b. b < 256) bytes → length bytes < 2 ^ 63 →
        IsRefused bytes e → IsRefused bytes f → e ≡ f }
    ensures none { (bytes : List ℕ) (links : List (List ℕ)) (fault : CborFault) → All (λ b. b < 256) bytes → length bytes < 2 ^ 63 →
        IsItem bytes links → IsRefused bytes fault → ⊥ }
{}

/// A part that is spelled is read by a cursor, and an item passed, whatever follows.
pub fn spelled_is_read()
    ensures part { (end : ℕ) (front rest : List ℕ) (part : Part) → items_in part < 2 ^ 63 →
        IsPart front part → part_at 0 end (front ++ rest) ≡ Ok (part, rest) }
    ensures item { (end : ℕ) (item rest : List ℕ) (links : List (List ℕ)) → length item < 2 ^ 63 →
        IsItem item links → item_at end (item ++ rest) ≡ Ok (item, rest) }
{}

/// Parts that are written one after another are one item, where each that is due comes and none besides.
pub fn closed_parts_are_an_item()
    ensures { (bytes : List ℕ) (parts : List Part) → AreParts bytes parts → Closes 1 parts →
        IsItem bytes (flat_map links_of parts) }
{}
