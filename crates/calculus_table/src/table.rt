//! A table of base relations, its composition of sets, and the tests of its laws.
//!
//! A set is composed by going through its members: the union of `r;s` over the members `r` and `s`.
//! A union over the members of one set takes one step a member, the least first, so a composition
//! costs at most 64 * 64 steps; it ends since each step takes one member away. The laws are tested
//! base relation by base relation, pair by pair and triple by triple, in lexicographic order, so the
//! first fault that is found is the first there is. `n` base relations have `n * n * n` triples, and
//! a law of triples says what it says twice, so about half of them are looked at.
use crate::calculus::TableFault;
use crate::rel::Rel;
use std::marker::Model;

/// Two laws that speak of triples of base relations.
#[derive(Clone, Copy, Debug, PartialEq, Eq)]
pub(crate) enum TripleLaw {
    Converse,
    Cycle,
}

/// The identity, the converses and the compositions of base relations, with no law but their bounds.
#[derive(Debug, Drop)]
pub(crate) struct Table {
    size: u32,
    identity: u32,
    converses: Vec<u32>,
    entries: Vec<Rel>,
}

impl Model for Table {
    ghost use Rattle.calculus_table.specs.Algebra.{Algebra};
    ghost use Rattle.calculus_table.specs.Calculus.{IsTable};

    ghost Value = { Algebra };

    ghost view = { λ a. record {
      size = a.size;
      identity = a.identity;
      converses = a.converses.items;
      table = a.entries.items;
    } };

    ghost invariant = { λ a. IsTable (record {
      size = a.size;
      identity = a.identity;
      converses = a.converses.items;
      table = a.entries.items;
    }) };
}

impl Table {
    ghost use Rattle.std.specs.Prelude.{◌≡◌, ℕ, ◌<◌, ◌↔◌, IsTrue, MatchOption, MatchResult};
    ghost use Rattle.calculus_table.specs.Rel.{IsWithin};
    ghost use Rattle.calculus_table.specs.Algebra.{Algebra, converse_at, entry_at};
    ghost use Rattle.calculus_table.specs.Composition.{full_of, row_composition, composition, converse};
    ghost use Rattle.calculus_table.specs.Calculus.{IsTable, IsCalculus, EachBase, EachTriple, InvolutionAt};
    ghost use Rattle.calculus_table.specs.Calculus.{IdentityAt, IsFirstBase, IsFirstTriple};
    ghost use Rattle.calculus_table.specs.TripleLaw.{EachPair, IsFirstPair, ObeysAt, ObeyBefore};
    ghost use Rattle.calculus_table.specs.TableFault.{IsLawFaultOf};

    /// The table of these lists.
    pub(crate) fn new(size: u32, identity: u32, converses: Vec<u32>, entries: Vec<Rel>) -> Self
        requires { IsTable (record {
          size = size;
          identity = identity;
          converses = converses.items;
          table = entries.items;
        }) }
        ensures { result ≡ record {
          size = size;
          identity = identity;
          converses = converses.items;
          table = entries.items;
        } }
    {
        Table {
            size,
            identity,
            converses,
            entries,
        }
    }

    /// The number of base relations.
    pub(crate) fn size(&self) -> u32
        ensures value { result ≡ self.now.size }
        ensures table { IsTable self.now }
    {
        self.size
    }

    /// The identity relation.
    pub(crate) fn identity(&self) -> u32
        ensures value { result ≡ self.now.identity }
        ensures below { result < self.now.size }
    {
        self.identity
    }

    /// The set of all base relations.
    pub(crate) fn full(&self) -> Rel
        ensures { result ≡ full_of self.now }
    {
        Rel::of(u64::MAX >> (64 - self.size))
    }

    /// The converse of a base relation.
    pub(crate) fn converse_at(&self, r: u32) -> u32
        requires { r < self.now.size }
        ensures value { result ≡ converse_at self.now r }
        ensures below { result < self.now.size }
        ensures table { IsTable self.now }
    {
        self.converses[r as usize]
    }

    /// The composition of two base relations.
    pub(crate) fn entry_at(&self, r: u32, s: u32) -> Rel
        requires first { r < self.now.size }
        requires second { s < self.now.size }
        ensures value { result ≡ entry_at self.now r s }
        ensures within { IsWithin result (full_of self.now) }
    {
        self.entries[(r * self.size + s) as usize]
    }

    /// The set of the converses of the members.
    pub(crate) fn converse(&self, a: Rel) -> Rel
        ensures { result ≡ converse self.now a }
    {
        let mut all = Rel::EMPTY;
        let mut left = a.meet(self.full());
        while !left.is_empty() {
            let r = left.least();
            all = all.union(Rel::single(self.converse_at(r)));
            left = left.without(r);
        }
        all
    }

    /// The union of the compositions of `r` with the members of `b`.
    fn compose_base(&self, r: u32, b: Rel) -> Rel
        requires { r < self.now.size }
        ensures { result ≡ row_composition self.now r b }
    {
        let mut all = Rel::EMPTY;
        let mut left = b.meet(self.full());
        while !left.is_empty() {
            let s = left.least();
            all = all.union(self.entry_at(r, s));
            left = left.without(s);
        }
        all
    }

    /// The union of the compositions of the members of `a` with those of `b`.
    pub(crate) fn compose(&self, a: Rel, b: Rel) -> Rel
        ensures { result ≡ composition self.now a b }
    {
        let mut all = Rel::EMPTY;
        let mut left = a.meet(self.full());
        while !left.is_empty() {
            let r = left.least();
            all = all.union(self.compose_base(r, b));
            left = left.without(r);
        }
        all
    }

    /// The first law that the table breaks, at its first place.
    pub(crate) fn check_laws(&self) -> Result<(), TableFault>
        ensures { MatchResult result (λ _. IsCalculus self.now) (IsLawFaultOf self.now) }
    {
        if let Some(r) = self.first_not_involution() {
            return Err(TableFault::NotInvolution { r });
        }
        if let Some(r) = self.first_not_identity() {
            return Err(TableFault::IdentityLaw { r });
        }
        if let Some((r, s, t)) = self.first_broken(TripleLaw::Converse) {
            return Err(TableFault::ConverseLaw { r, s, t });
        }
        if let Some((r, s, t)) = self.first_broken(TripleLaw::Cycle) {
            return Err(TableFault::CycleLaw { r, s, t });
        }
        Ok(())
    }

    /// Whether `r` is the converse of its converse, and its own converse if it is the identity.
    fn is_involution_at(&self, r: u32) -> bool
        requires { r < self.now.size }
        ensures { IsTrue result ↔ InvolutionAt self.now r }
    {
        let converse = self.converse_at(r);
        self.converse_at(converse) == r && (r != self.identity || converse == r)
    }

    /// Whether the identity, on either side, leaves `r` as it is.
    fn is_identity_at(&self, r: u32) -> bool
        requires { r < self.now.size }
        ensures { IsTrue result ↔ IdentityAt self.now r }
    {
        self.entry_at(self.identity, r) == Rel::single(r)
            && self.entry_at(r, self.identity) == Rel::single(r)
    }

    /// The first base relation that isn't the converse of its converse, or is the identity and not its
    /// own converse.
    fn first_not_involution(&self) -> Option<u32>
        ensures { MatchOption result
            (EachBase self.now (InvolutionAt self.now))
            (IsFirstBase self.now (InvolutionAt self.now)) }
    {
        for r in 0..self.size {
            if !self.is_involution_at(r) {
                return Some(r);
            }
        }
        None
    }

    /// The first base relation that the identity, on either side, changes.
    fn first_not_identity(&self) -> Option<u32>
        ensures { MatchOption result
            (EachBase self.now (IdentityAt self.now))
            (IsFirstBase self.now (IdentityAt self.now)) }
    {
        for r in 0..self.size {
            if !self.is_identity_at(r) {
                return Some(r);
            }
        }
        None
    }

    /// Whether the triple obeys the law.
    fn obeys_at(&self, law: TripleLaw, r: u32, s: u32, t: u32) -> bool
        requires first { r < self.now.size }
        requires second { s < self.now.size }
        requires third { t < self.now.size }
        ensures { IsTrue result ↔ ObeysAt law self.now r s t }
    {
        let here = self.entry_at(r, s).has(t);
        let converse = self.converse_at(s);
        match law {
            TripleLaw::Converse => {
                here == self
                    .entry_at(converse, self.converse_at(r))
                    .has(self.converse_at(t))
            }
            TripleLaw::Cycle => here == self.entry_at(t, converse).has(r),
        }
    }

    /// Below which `t` the triple with `r` and `s` obeys the law since those before `r` do: the law says
    /// the same of that triple and of one that begins with the converse of `s`, or with `t`.
    fn known_below(&self, law: TripleLaw, r: u32, s: u32) -> u32
        requires first { r < self.now.size }
        requires second { s < self.now.size }
        requires involution { EachBase self.now (InvolutionAt self.now) }
        requires before { ObeyBefore law self.now r }
        ensures { EachBase self.now (λ t. t < result → ObeysAt law self.now r s t) }
    {
        match law {
            TripleLaw::Converse => {
                if self.converse_at(s) < r {
                    self.size
                } else {
                    0
                }
            }
            TripleLaw::Cycle => r,
        }
    }

    /// The first base relation whose triple with `r` and `s` breaks the law.
    fn first_broken_third(&self, law: TripleLaw, r: u32, s: u32) -> Option<u32>
        requires first { r < self.now.size }
        requires second { s < self.now.size }
        requires involution { EachBase self.now (InvolutionAt self.now) }
        requires before { ObeyBefore law self.now r }
        ensures { MatchOption result
            (EachBase self.now (ObeysAt law self.now r s))
            (IsFirstBase self.now (ObeysAt law self.now r s)) }
    {
        for t in self.known_below(law, r, s)..self.size {
            if !self.obeys_at(law, r, s, t) {
                return Some(t);
            }
        }
        None
    }

    /// The first pair whose triple with `r` breaks the law.
    fn first_broken_pair(&self, law: TripleLaw, r: u32) -> Option<(u32, u32)>
        requires first { r < self.now.size }
        requires involution { EachBase self.now (InvolutionAt self.now) }
        requires before { ObeyBefore law self.now r }
        ensures { MatchOption result
            (EachPair self.now (ObeysAt law self.now r))
            (λ p. IsFirstPair self.now (ObeysAt law self.now r) p.0 p.1) }
    {
        for s in 0..self.size {
            if let Some(t) = self.first_broken_third(law, r, s) {
                return Some((s, t));
            }
        }
        None
    }

    /// The first triple that breaks the law, in lexicographic order.
    fn first_broken(&self, law: TripleLaw) -> Option<(u32, u32, u32)>
        requires { EachBase self.now (InvolutionAt self.now) }
        ensures answer { MatchOption result
            (EachTriple self.now (ObeysAt law self.now))
            (λ p. IsFirstTriple self.now (ObeysAt law self.now) p.0 p.1 p.2) }
        ensures table { IsTable self.now }
    {
        for r in 0..self.size {
            if let Some((s, t)) = self.first_broken_pair(law, r) {
                return Some((r, s, t));
            }
        }
        None
    }
}
