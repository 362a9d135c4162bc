//! Two rows of bytes, lists of CIDs or parcels are equal where contracts see them as one list.
ghost use Rattle.std.specs.Prelude.{nat_eq};
ghost use Rattle.std.specs.Cmp.{partial_equiv_from_equiv};
ghost use Rattle.std.specs.Cmp.Lexicographic.{pointwise, nat_list_eq_equiv};
ghost use Rattle.std.proofs.lemmas.Cmp.{lists_equiv, on_equiv, and_equiv};

use crate::bytes::Bytes;
use crate::cids::Cids;
use crate::parcel::Parcel;

impl PartialEq for Bytes {
    ghost eq = { pointwise nat_eq };

    ghost laws = { partial_equiv_from_equiv nat_list_eq_equiv };

    fn eq(&self, other: &Self) -> bool {
        self.as_slice() == other.as_slice()
    }
}

impl Eq for Bytes {
    ghost laws = { nat_list_eq_equiv };
}

impl PartialEq for Cids {
    ghost eq = { pointwise (pointwise nat_eq) };

    ghost laws = { partial_equiv_from_equiv (lists_equiv nat_list_eq_equiv) };

    fn eq(&self, other: &Self) -> bool {
        self.as_slice() == other.as_slice()
    }
}

impl Eq for Cids {
    ghost laws = { lists_equiv nat_list_eq_equiv };
}

impl PartialEq for Parcel {
    ghost use Rattle.ss_cid.specs.Parcel.{pair_eq};

    ghost eq = { pointwise pair_eq };

    ghost laws = { partial_equiv_from_equiv (lists_equiv (and_equiv (on_equiv (λ p. p.0) nat_list_eq_equiv) (on_equiv (λ p. p.1) nat_list_eq_equiv))) };

    fn eq(&self, other: &Self) -> bool {
        if self.len() != other.len() {
            return false;
        }
        for i in 0..self.len() {
            if self.at(i) != other.at(i) {
                return false;
            }
        }
        true
    }
}

impl Eq for Parcel {
    ghost laws = { lists_equiv (and_equiv (on_equiv (λ p. p.0) nat_list_eq_equiv) (on_equiv (λ p. p.1) nat_list_eq_equiv)) };
}
