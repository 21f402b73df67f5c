// Sets of boxes. Contracts speak of members; only those of `from_mask` and `mask`, by which a set is sent, speak of the mask itself.
ghost use Rattle.std.specs.Prelude.{◌≡◌, false, not, ◌&&◌, ◌||◌, ◌==◌, nat_eq, nat_le, nat_lt};
ghost use Rattle.base.specs.Counts.{any, count};
ghost use Rattle.base.specs.Limits.{most_company};
ghost use Rattle.sets.specs.Masks.{member, set_of};

use super::box_number::BoxNumber;
use super::company::MOST_COMPANY;

/// A set of the boxes numbered from 0 to 31. Any two sets with the same boxes are equal.
#[derive(Clone, Copy, PartialEq, Eq, Debug)]
pub struct BoxSet {
    // Bit i stands for box i.
    mask: u32,
}

impl BoxSet {
    /// The set of no box.
    pub fn empty() -> BoxSet
        ensures { result ≡ set_of (λ _. false) }
    {
        BoxSet { mask: 0 }
    }

    /// The set of box q alone. A q from 32 on is the number of no box, and gives the empty set.
    pub fn only(q: BoxNumber) -> BoxSet
        ensures { result ≡ set_of (λ i. nat_eq i q.0) }
    {
        BoxSet {
            mask: if q.0 < MOST_COMPANY { 1 << q.0 } else { 0 },
        }
    }

    /// The boxes numbered below n: all 32 where n is 32 or more.
    pub fn all_below(n: u32) -> BoxSet
        ensures { result ≡ set_of (λ i. nat_lt i n) }
    {
        BoxSet {
            mask: if n < MOST_COMPANY {
                (1 << n) - 1
            } else {
                u32::MAX
            },
        }
    }

    /// The set that a mask stands for: box i is in it where bit i is set.
    pub fn from_mask(mask: u32) -> BoxSet
        ensures { result ≡ record { mask = mask } }
    {
        BoxSet { mask }
    }

    /// The mask that stands for the set: bit i is set where box i is in it.
    pub fn mask(self) -> u32
        ensures { result ≡ self.mask }
    {
        self.mask
    }

    /// Whether box q is in the set. A q from 32 on is in none.
    pub fn contains(self, q: BoxNumber) -> bool
        ensures { result ≡ member self q.0 }
    {
        q.0 < MOST_COMPANY && self.mask >> q.0 & 1 == 1
    }

    /// The set with box q besides. A q from 32 on adds none.
    pub fn with(self, q: BoxNumber) -> BoxSet
        ensures { result ≡ set_of (λ i. member self i || i == q.0) }
    {
        self.union(BoxSet::only(q))
    }

    /// The boxes that are in the one set, the other or both.
    pub fn union(self, other: BoxSet) -> BoxSet
        ensures { result ≡ set_of (λ i. member self i || member other i) }
    {
        BoxSet {
            mask: self.mask | other.mask,
        }
    }

    /// The boxes of the set that are not in the other.
    pub fn difference(self, other: BoxSet) -> BoxSet
        ensures { result ≡ set_of (λ i. member self i && not (member other i)) }
    {
        BoxSet {
            mask: self.mask & !other.mask,
        }
    }

    /// Whether each box of the set is in the other.
    pub fn is_subset(self, other: BoxSet) -> bool
        ensures { result ≡ not (any (λ i. member self i && not (member other i)) most_company) }
    {
        (self.mask & other.mask) == self.mask
    }

    /// How many boxes the set has, 0 to 32.
    pub fn count(self) -> u32
        ensures { result ≡ count (member self) most_company }
    {
        self.mask.count_ones()
    }

    /// Whether all boxes of the set are numbered below n.
    pub fn is_below(self, n: u32) -> bool
        ensures { result ≡ not (any (λ i. member self i && nat_le n i) most_company) }
    {
        n >= MOST_COMPANY || self.mask >> n == 0
    }
}
