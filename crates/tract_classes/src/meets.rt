//! Whether a class is closed under intersection.
//!
//! Each member is an intersection of generators. So its intersection with another member is that of the other with one
//! generator after another, and it is enough that each of these is a member: a test for each member and each
//! generator. Only where one fails is each pair looked at, for the first that does.
ghost use Rattle.std.specs.Prelude.{◌≡◌, ℕ, ◌↔◌, IsTrue, IfOk, MatchOption};
ghost use Rattle.tract_classes.specs.Class.{EachMember, EachPair, HasMeet};
ghost use Rattle.tract_classes.specs.ClassFault.{IsFirstPair};
ghost use Rattle.tract_classes.specs.Generators.{HasMeets};

use crate::class::Class;
use crate::generators::generators;
use crate::pairs::first_without_meet;
use calculus_table::{Memory, Rel};
use std::alloc::Global;

/// Whether the intersection of `a` with each of these sets is a member.
fn has_meets_of(class: &Class, sets: &[u64], a: u64) -> bool
    ensures { IsTrue result ↔ HasMeets class.now sets.now a }
{
    for set in sets {
        if !class.has(Rel::of(a & *set)) {
            return false;
        }
    }
    true
}

/// Whether the intersection of each member with each of these sets is a member.
fn has_meets(class: &Class, sets: &[u64]) -> bool
    ensures { IsTrue result ↔ EachMember class.now (HasMeets class.now sets.now) }
{
    for a in class.members() {
        if !has_meets_of(class, sets, *a) {
            return false;
        }
    }
    true
}

/// Whether the intersection of each two members is a member.
fn has_each_meet(alloc: Global, class: &Class) -> Result<bool, Memory>
    ensures { IfOk result (λ has. IsTrue has ↔ EachPair class.now (HasMeet class.now)) }
{
    let sets = generators(alloc, class)?;
    Ok(has_meets(class, &sets))
}

/// The first two members whose intersection is none. Out of memory for generators, each pair is looked at.
pub(crate) fn first_missing_meet(alloc: Global, class: &Class) -> Option<(u64, u64)>
    ensures { MatchOption result
        (EachPair class.now (HasMeet class.now))
        (λ p. IsFirstPair class.now (HasMeet class.now) p.0 p.1) }
{
    if let Ok(true) = has_each_meet(alloc, class) {
        return None;
    }
    first_without_meet(class)
}
