//! Classes of equal end points, each by one of its members.
//!
//! The end points are gone through node by node, and one that no member is equal to becomes a member. So `2n` end
//! points are compared with at most `2n` members, twice each, and the list of members is all the memory that is taken.
ghost use Rattle.std.specs.Prelude.{◌≡◌, ◌+◌, ◌*◌, ◌<◌, ◌≤◌, MatchBool, IfOk, All, length};
ghost use Rattle.network_words.specs.declared.TheConstants.{MAX_NODES};
ghost use Rattle.allen_real.specs.EndPoints.{number_of};
ghost use Rattle.allen_real.specs.Classes.{HasClass, IsNew, AreMembers, classes_below};
ghost use Rattle.allen_real.specs.Realisation.{IsAllenScenario};

use crate::end_points::{EndPoint, are_equal, is_below};
use calculus_table::Memory;
use std::alloc::Global;

/// One member of each class of equal end points.
pub(crate) fn members(alloc: Global, nodes: u32, bases: &[u8]) -> Result<Vec<EndPoint>, Memory>
    requires few { nodes ≤ MAX_NODES }
    requires scenario { IsAllenScenario nodes bases.now }
    ensures { IfOk result (λ members. AreMembers nodes bases.now (2 * nodes) members.items) }
{
    let mut members = Vec::with_capacity(alloc, 2 * nodes as usize).map_err(|_| Memory)?;
    for node in 0..nodes {
        add(nodes, bases, &mut members, EndPoint::begin(node))?;
        add(nodes, bases, &mut members, EndPoint::end(node))?;
    }
    Ok(members)
}

/// Adds the end point unless a member is equal to it.
fn add(nodes: u32, bases: &[u8], members: &mut Vec<EndPoint>, q: EndPoint) -> Result<(), Memory>
    requires few { nodes ≤ MAX_NODES }
    requires scenario { IsAllenScenario nodes bases.now }
    requires of_node { q.node < nodes }
    requires members { AreMembers nodes bases.now (number_of q) members.old.items }
    ensures { IfOk result (λ _. AreMembers nodes bases.now (number_of q + 1) members.new.items) }
{
    if !has_class(nodes, bases, members, q) {
        members.push(q).map_err(|_| Memory)?;
    }
    Ok(())
}

/// Whether a member is equal to the end point.
fn has_class(nodes: u32, bases: &[u8], members: &[EndPoint], q: EndPoint) -> bool
    requires few { nodes ≤ MAX_NODES }
    requires scenario { IsAllenScenario nodes bases.now }
    requires of_nodes { All (λ p. p.node < nodes) members.now }
    requires of_node { q.node < nodes }
    ensures { MatchBool result
        (HasClass nodes bases.now members.now q)
        (IsNew nodes bases.now members.now q) }
{
    for p in members {
        if are_equal(nodes, bases, *p, q) {
            return true;
        }
    }
    false
}

/// How many classes lie below the end point.
pub(crate) fn classes_below(nodes: u32, bases: &[u8], members: &[EndPoint], q: EndPoint) -> u32
    requires few { nodes ≤ MAX_NODES }
    requires scenario { IsAllenScenario nodes bases.now }
    requires members { AreMembers nodes bases.now (2 * nodes) members.now }
    requires of_node { q.node < nodes }
    ensures { result ≡ classes_below nodes bases.now members.now q }
{
    let mut count = 0;
    for p in members {
        if is_below(nodes, bases, *p, q) {
            count += 1;
        }
    }
    count
}
