//! What holds of varints, CIDs and their texts as such. Each function's contract is a law; there is
//! nothing to call.
ghost use Rattle.std.specs.Prelude.{◌≡◌, ℕ, ◌+◌, ◌<◌, ◌≤◌, ◌^◌, List, ◌++◌, length, drop, All, Ok};
ghost use Rattle.ss_cid.specs.Varint.{varint, varint_at};
ghost use Rattle.ss_cid.specs.Cid.{IsCid, cid_at, cid_bytes, codec_of, hash_of, digest_of};
ghost use Rattle.ss_cid.specs.Text.{cid_text, cid_from_text};

/// A varint is read again, wherever it stands and whatever follows it.
pub fn a_varint_is_read_again()
    ensures { (front rest : List ℕ) (n : ℕ) → n < 2 ^ 63
        → varint_at (front ++ (varint n ++ rest)) (length front) ≡ Ok (n, length front + length (varint n)) }
{}

/// What is read is the one varint of its number.
pub fn a_number_has_one_varint()
    ensures { (bytes : List ℕ) (at n end : ℕ) → All (λ b. b < 256) bytes → varint_at bytes at ≡ Ok (n, end)
        → (n < 2 ^ 63) × (drop at bytes ≡ varint n ++ drop end bytes) }
{}

/// Parts that fit make a CID with these parts.
pub fn parts_make_a_cid()
    ensures { (codec hash : ℕ) (digest : List ℕ) → codec < 2 ^ 63 → hash < 2 ^ 63 → All (λ b. b < 256) digest
        → length (cid_bytes codec hash digest) ≤ 72
        → IsCid (cid_bytes codec hash digest) × (codec_of (cid_bytes codec hash digest) ≡ codec)
        × (hash_of (cid_bytes codec hash digest) ≡ hash) × (digest_of (cid_bytes codec hash digest) ≡ digest) }
{}

/// A CID is what its parts make: it has one spelling.
pub fn a_cid_has_one_spelling()
    ensures { (c : List ℕ) → IsCid c → (codec_of c < 2 ^ 63) × (hash_of c < 2 ^ 63)
        × (c ≡ cid_bytes (codec_of c) (hash_of c) (digest_of c)) }
{}

/// A CID is read again, whatever follows it: so bytes begin with one CID at most.
pub fn a_cid_is_read_again()
    ensures { (c rest : List ℕ) → IsCid c → cid_at (c ++ rest) ≡ Ok (c, length c) }
{}

/// What is read is a CID, and stands before what is left.
pub fn what_is_read_is_a_cid()
    ensures { (bytes c : List ℕ) (n : ℕ) → All (λ b. b < 256) bytes → cid_at bytes ≡ Ok (c, n)
        → IsCid c × (n ≡ length c) × (bytes ≡ c ++ drop n bytes) }
{}

/// The text of a CID is read as that CID.
pub fn a_text_is_read_again()
    ensures { (c : List ℕ) → IsCid c → cid_from_text (cid_text c) ≡ Ok c }
{}

/// A text that is read is the one text of its CID.
pub fn a_cid_has_one_text()
    ensures { (text c : List ℕ) → cid_from_text text ≡ Ok c → (text ≡ cid_text c) × IsCid c }
{}
