//! Whether the least base relations agree in each closed triple of members.
//!
//! For each two members `a` and `b` their composition, and that of their least base relations, is made once. A third
//! member `d` is an exception if it is within the one, its least base relation isn't in the other, and `a` and `b` are
//! each within the composition of the other two. The first two conditions are a few operations on bits, and only where
//! both hold is more composed: that is once in thirty times in H8, whose members have 3.2 million triples.
ghost use Rattle.std.specs.Prelude.{◌≡◌, ◌<◌, ◌↔◌, IsTrue};
ghost use Rattle.calculus_table.specs.Rel.{IsWithin};
ghost use Rattle.calculus_table.specs.Algebra.{entry_at};
ghost use Rattle.calculus_table.specs.Composition.{full_of, composition, converse};
ghost use Rattle.tract_classes.specs.Class.{AreSetsOf, EachMember};
ghost use Rattle.tract_classes.specs.Straight.{IsStraight, Agree, HasLeastOf};

use crate::class::Class;
use calculus_table::{Compose, Rel, lawful};

/// Whether the least base relations agree in each closed triple of members.
pub fn is_straight<C: Compose>(class: &Class, c: &C) -> bool
    requires { AreSetsOf (C.algebra c.now) class.now }
    ensures { IsTrue result ↔ IsStraight (C.algebra c.now) class.now }
{
    for a in class.members() {
        if !agree_from(class, c, Rel::of(*a)) {
            return false;
        }
    }
    true
}

/// Whether they agree in the triples whose first set is `a`.
fn agree_from<C: Compose>(class: &Class, c: &C, a: Rel) -> bool
    requires sets { AreSetsOf (C.algebra c.now) class.now }
    requires first { IsWithin a (full_of (C.algebra c.now)) }
    ensures { IsTrue result
        ↔ EachMember class.now (λ b. EachMember class.now (Agree (C.algebra c.now) a b)) }
{
    for b in class.members() {
        if !agree_along(class, c, a, Rel::of(*b)) {
            return false;
        }
    }
    true
}

/// Whether they agree in the triples whose first two sets are `a` and `b`.
fn agree_along<C: Compose>(class: &Class, c: &C, a: Rel, b: Rel) -> bool
    requires sets { AreSetsOf (C.algebra c.now) class.now }
    requires first { IsWithin a (full_of (C.algebra c.now)) }
    requires second { IsWithin b (full_of (C.algebra c.now)) }
    ensures { IsTrue result ↔ EachMember class.now (Agree (C.algebra c.now) a b) }
{
    if a.is_empty() || b.is_empty() {
        return true;
    }
    let across = c.compose(a, b);
    let least = compose_bases(c, a.least(), b.least());
    for word in class.members() {
        let d = Rel::of(*word);
        if d.within(across) && !has_least_of(least, d) && are_sides_of(c, a, b, d) {
            return false;
        }
    }
    true
}

/// The composition of two base relations.
fn compose_bases<C: Compose>(c: &C, r: u32, s: u32) -> Rel
    requires first { r < (C.algebra c.now).size }
    requires second { s < (C.algebra c.now).size }
    ensures { result ≡ entry_at (C.algebra c.now) r s }
{
    lawful(c);
    c.compose(Rel::single(r), Rel::single(s))
}

/// Whether `d` has no base relation, or its least one is in `set`.
fn has_least_of(set: Rel, d: Rel) -> bool
    ensures { IsTrue result ↔ HasLeastOf set d }
{
    d.is_empty() || set.has(d.least())
}

/// Whether `a` and `b` are each within the composition of the other two sets of a triple.
fn are_sides_of<C: Compose>(c: &C, a: Rel, b: Rel, d: Rel) -> bool
    requires first { IsWithin a (full_of (C.algebra c.now)) }
    requires second { IsWithin b (full_of (C.algebra c.now)) }
    requires third { IsWithin d (full_of (C.algebra c.now)) }
    ensures { IsTrue result
        ↔ (IsWithin a (composition (C.algebra c.now) d (converse (C.algebra c.now) b))
        × IsWithin b (composition (C.algebra c.now) (converse (C.algebra c.now) a) d)) }
{
    a.within(c.compose(d, c.converse(b))) && b.within(c.compose(c.converse(a), d))
}
