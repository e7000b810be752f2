//! Sets of base relations as the bits of a word: intersection, union and containment are one machine
//! instruction each, and the least member and the number of members too.
use std::marker::Model;

/// A set of base numbers below 64, kept in one word: bit `r` stands for base number `r`.
#[derive(Clone, Copy, Debug, PartialEq, Eq, PartialOrd, Ord, Hash)]
pub struct Rel {
    word: u64,
}

impl Model for Rel {
    ghost use Rattle.std.specs.Prelude.{ℕ, ◌^◌, ◌<◌};

    ghost Value = { ℕ };

    ghost view = { λ a. a.word };

    ghost invariant = { λ a. a.word < 2 ^ 64 };

    ghost inverse = { λ n. record { word = n } };
}

impl Rel {
    ghost use Rattle.std.specs.Prelude.{◌≡◌, ◌≢◌, ℕ, ◌^◌, ◌<◌, ◌≤◌, ◌↔◌, IsTrue, bit_and, bit_or, count_ones};
    ghost use Rattle.calculus_table.specs.Rel.{Has, IsWithin, IsWithout};

    /// The empty set.
    pub const EMPTY: Rel = Rel { word: 0 };

    /// The set whose members are the set bits of `word`.
    pub fn of(word: u64) -> Rel
        ensures { result ≡ word }
    {
        Rel { word }
    }

    /// The word whose set bits are the members.
    pub fn word(self) -> u64
        ensures { result ≡ self }
    {
        self.word
    }

    /// The set with the one member `r`.
    pub fn single(r: u32) -> Rel
        requires { r < 64 }
        ensures { result ≡ 2 ^ r }
    {
        Rel { word: 1 << r }
    }

    /// Whether `r` is a member.
    pub fn has(self, r: u32) -> bool
        ensures { IsTrue result ↔ Has self r }
    {
        r < 64 && self.word >> r & 1 == 1
    }

    /// The members of both sets.
    pub fn meet(self, other: Rel) -> Rel
        ensures { result ≡ bit_and self other }
    {
        Rel {
            word: self.word & other.word,
        }
    }

    /// The members of either set.
    pub fn union(self, other: Rel) -> Rel
        ensures { result ≡ bit_or self other }
    {
        Rel {
            word: self.word | other.word,
        }
    }

    /// Whether each member is a member of `other`.
    pub fn within(self, other: Rel) -> bool
        ensures { IsTrue result ↔ IsWithin self other }
    {
        self.word & other.word == self.word
    }

    /// The number of members.
    pub fn count(self) -> u32
        ensures { result ≡ count_ones self }
    {
        self.word.count_ones()
    }

    /// Whether there is no member.
    pub fn is_empty(self) -> bool
        ensures { IsTrue result ↔ (self ≡ 0) }
    {
        self.word == 0
    }

    /// The least member.
    pub fn least(self) -> u32
        requires { self ≢ 0 }
        ensures member { Has self result }
        ensures below { result < 64 }
        ensures least { (r : ℕ) → Has self r → result ≤ r }
    {
        self.word.trailing_zeros()
    }

    /// The members but `r`, which is one.
    pub(crate) fn without(self, r: u32) -> Rel
        requires member { Has self r }
        requires below { r < 64 }
        ensures { IsWithout self r result }
    {
        Rel {
            word: self.word ^ (1 << r),
        }
    }
}
