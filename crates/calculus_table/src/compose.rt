ghost use Rattle.calculus_table.specs.Calculus.{IsCalculus};

use crate::rel::Rel;

/// A calculus as a reasoner uses it: composition and converse of sets of base relations.
pub trait Compose {
    ghost use Rattle.std.specs.Prelude.{◌≡◌, ℕ, ◌↔◌};
    ghost use Rattle.calculus_table.specs.Rel.{Has, IsWithin};
    ghost use Rattle.calculus_table.specs.Algebra.{Algebra};
    ghost use Rattle.calculus_table.specs.Composition.{full_of, composition, converse, InComposition, InConverse};
    ghost use Rattle.calculus_table.specs.Calculus.{IsCalculus};

    /// The size, the identity, the converses and the table.
    ghost algebra: { Self → Algebra };

    /// The number of base relations.
    fn size(&self) -> u32
        ensures value { result ≡ (algebra self.now).size }
        ensures calculus { IsCalculus (algebra self.now) };

    /// The identity relation.
    fn identity(&self) -> u32
        ensures { result ≡ (algebra self.now).identity };

    /// The set of all base relations.
    fn full(&self) -> Rel
        ensures { result ≡ full_of (algebra self.now) };

    /// The set of the converses of the members.
    fn converse(&self, a: Rel) -> Rel
        requires { IsWithin a (full_of (algebra self.now)) }
        ensures value { result ≡ converse (algebra self.now) a }
        ensures members { (t : ℕ) → Has result t ↔ InConverse (algebra self.now) a t }
        ensures within { IsWithin result (full_of (algebra self.now)) };

    /// The union of the compositions of the members of `a` with those of `b`.
    fn compose(&self, a: Rel, b: Rel) -> Rel
        requires first { IsWithin a (full_of (algebra self.now)) }
        requires second { IsWithin b (full_of (algebra self.now)) }
        ensures value { result ≡ composition (algebra self.now) a b }
        ensures members { (t : ℕ) → Has result t ↔ InComposition (algebra self.now) a b t }
        ensures within { IsWithin result (full_of (algebra self.now)) };
}

/// Does nothing. A proof learns by it that what `c` means is a calculus: its table keeps the four
/// laws.
pub fn lawful<C: Compose>(c: &C)
    ensures { IsCalculus (C.algebra c.now) }
{
    let _size = c.size();
}
