//! The first two members whose intersection or composition is no member.
ghost use Rattle.std.specs.Prelude.{◌≡◌, ℕ, MatchOption, Contains};
ghost use Rattle.tract_classes.specs.Class.{EachMember, EachPair, HasMeet, HasComposition, AreSetsOf};
ghost use Rattle.tract_classes.specs.ClassFault.{IsFirstMember, IsFirstPair};

use crate::class::Class;
use calculus_table::{Compose, Rel};

/// The first member whose intersection with `a` is none.
fn first_without_meet_of(class: &Class, a: u64) -> Option<u64>
    ensures { MatchOption result
        (EachMember class.now (HasMeet class.now a))
        (IsFirstMember class.now (HasMeet class.now a)) }
{
    for b in class.members() {
        if !class.has(Rel::of(a & *b)) {
            return Some(*b);
        }
    }
    None
}

/// The first two members whose intersection is none.
pub(crate) fn first_without_meet(class: &Class) -> Option<(u64, u64)>
    ensures { MatchOption result
        (EachPair class.now (HasMeet class.now))
        (λ p. IsFirstPair class.now (HasMeet class.now) p.0 p.1) }
{
    for a in class.members() {
        if let Some(b) = first_without_meet_of(class, *a) {
            return Some((*a, b));
        }
    }
    None
}

/// The first member whose composition with `a` before it is none.
fn first_without_composition_of<C: Compose>(class: &Class, c: &C, a: u64) -> Option<u64>
    requires sets { AreSetsOf (C.algebra c.now) class.now }
    requires member { Contains class.now a }
    ensures { MatchOption result
        (EachMember class.now (HasComposition (C.algebra c.now) class.now a))
        (IsFirstMember class.now (HasComposition (C.algebra c.now) class.now a)) }
{
    let first = Rel::of(a);
    for b in class.members() {
        if !class.has(c.compose(first, Rel::of(*b))) {
            return Some(*b);
        }
    }
    None
}

/// The first two members whose composition is none.
pub(crate) fn first_without_composition<C: Compose>(class: &Class, c: &C) -> Option<(u64, u64)>
    requires { AreSetsOf (C.algebra c.now) class.now }
    ensures { MatchOption result
        (EachPair class.now (HasComposition (C.algebra c.now) class.now))
        (λ p. IsFirstPair class.now (HasComposition (C.algebra c.now) class.now) p.0 p.1) }
{
    for a in class.members() {
        if let Some(b) = first_without_composition_of(class, c, *a) {
            return Some((*a, b));
        }
    }
    None
}
