//! The tests of a class: that its members are sets of base relations of the calculus, that each base relation is one by
//! itself, and that the class is closed under converse, intersection and composition.
//!
//! Each test goes through the members in ascending order, and stops at the first that fails. Those of two members first
//! find out by fewer look-ups whether all pass, and look at each pair where they don't.
ghost use Rattle.std.specs.Prelude.{◌≡◌, ℕ, ◌<◌, ◌≤◌, ◌↔◌, IsTrue, MatchResult, MatchOption, Contains};
ghost use Rattle.calculus_table.specs.Calculus.{EachBase, IsFirstBase};
ghost use Rattle.tract_classes.specs.Class.{EachMember, IsClosedClass, HasBase, HasConverse, AreSetsOf};
ghost use Rattle.tract_classes.specs.ClassFault.{IsFirstMember, IsFaultOf};

use crate::class::Class;
use crate::compositions::first_missing_composition;
use crate::fault::{COMPOSITION, CONVERSE, ClassFault, MEET};
use crate::meets::first_missing_meet;
use calculus_table::{Compose, Rel};
use std::alloc::Global;

/// Whether the members are sets of base relations of the calculus.
pub fn are_sets_of<C: Compose>(class: &Class, c: &C) -> bool
    ensures { IsTrue result ↔ AreSetsOf (C.algebra c.now) class.now }
{
    let full = c.full();
    for a in class.members() {
        if !Rel::of(*a).within(full) {
            return false;
        }
    }
    true
}

/// Whether the members are sets of base relations of the calculus, each base relation is one by itself, and the class
/// is closed under converse, intersection and composition.
pub fn is_closed<C: Compose>(alloc: Global, class: &Class, c: &C) -> bool
    ensures { IsTrue result ↔ IsClosedClass (C.algebra c.now) class.now }
{
    are_sets_of(class, c) && check_closed(alloc, class, c).is_ok()
}

/// Whether the class has each base relation and is closed: the first fault, if it isn't.
pub(crate) fn check_closed<C: Compose>(
    alloc: Global,
    class: &Class,
    c: &C,
) -> Result<(), ClassFault>
    requires { AreSetsOf (C.algebra c.now) class.now }
    ensures { MatchResult result
        (λ _. IsClosedClass (C.algebra c.now) class.now)
        (IsFaultOf (C.algebra c.now) class.now) }
{
    if let Some(r) = first_missing_base(class, c) {
        return Err(ClassFault::LacksBase { r });
    }
    if let Some(a) = first_without_converse(class, c) {
        return Err(ClassFault::NotClosed {
            a,
            b: 0,
            op: CONVERSE,
        });
    }
    if let Some((a, b)) = first_missing_meet(alloc, class) {
        return Err(ClassFault::NotClosed { a, b, op: MEET });
    }
    if let Some((a, b)) = first_missing_composition(class, c) {
        return Err(ClassFault::NotClosed {
            a,
            b,
            op: COMPOSITION,
        });
    }
    Ok(())
}

/// The least base relation that isn't a member by itself.
pub(crate) fn first_missing_base<C: Compose>(class: &Class, c: &C) -> Option<u32>
    ensures { MatchOption result
        (EachBase (C.algebra c.now) (HasBase class.now))
        (IsFirstBase (C.algebra c.now) (HasBase class.now)) }
{
    for r in 0..c.size() {
        if !class.has(Rel::single(r)) {
            return Some(r);
        }
    }
    None
}

/// The first member whose converse is none.
fn first_without_converse<C: Compose>(class: &Class, c: &C) -> Option<u64>
    requires { AreSetsOf (C.algebra c.now) class.now }
    ensures { MatchOption result
        (EachMember class.now (HasConverse (C.algebra c.now) class.now))
        (IsFirstMember class.now (HasConverse (C.algebra c.now) class.now)) }
{
    for a in class.members() {
        if !class.has(c.converse(Rel::of(*a))) {
            return Some(*a);
        }
    }
    None
}
