//! The parts of a set in a class.
//!
//! Where a set is no member, a search splits it into members: the largest member within it, then the largest within
//! what that leaves, and so on. A member by itself is its one part. Each part has a base relation at least, since each
//! base relation is a member, so a set has at most as many parts as base relations.
//!
//! Finding a part of a set that is no member looks at each member of the class once.
ghost use Rattle.std.specs.Prelude.{◌≡◌, ◌<◌, ◌↔◌, IsTrue, IfOk, count_ones};
ghost use Rattle.calculus_table.specs.Rel.{IsWithin};
ghost use Rattle.tract_classes.specs.Class.{HasBasesOf};
ghost use Rattle.tract_classes.specs.Parts.{AreParts, IsLargestWithin};

use crate::class::Class;
use calculus_table::{Memory, Rel};
use std::alloc::Global;

/// The parts of a set: members of the class that aren't empty, of which no two have a base relation in common and
/// which together make up the set.
pub fn parts(alloc: Global, class: &Class, rel: Rel) -> Result<Vec<Rel>, Memory>
    requires { HasBasesOf class.now rel }
    ensures { IfOk result (λ parts. AreParts class.now rel parts.items) }
{
    let mut parts = Vec::new(alloc);
    let mut rest = rel;
    while !rest.is_empty() {
        let part = largest_within(class, rest);
        let Ok(()) = parts.push(part) else {
            return Err(Memory);
        };
        rest = Rel::of(rest.word() ^ part.word());
    }
    Ok(parts)
}

/// The member within a set that has the most base relations, among several the one with the least word.
fn largest_within(class: &Class, rel: Rel) -> Rel
    ensures { IsLargestWithin class.now rel result }
{
    if class.has(rel) {
        return rel;
    }
    largest_among(class, rel)
}

/// The same, found by looking at each member.
fn largest_among(class: &Class, rel: Rel) -> Rel
    ensures { IsLargestWithin class.now rel result }
{
    let mut largest = Rel::EMPTY;
    for word in class.members() {
        let member = Rel::of(*word);
        if is_larger_within(rel, member, largest) {
            largest = member;
        }
    }
    largest
}

/// Whether a member is within a set and has more base relations than another.
#[inline]
fn is_larger_within(rel: Rel, member: Rel, other: Rel) -> bool
    ensures { IsTrue result ↔ (IsWithin member rel × (count_ones other < count_ones member)) }
{
    member.within(rel) && member.count() > other.count()
}
