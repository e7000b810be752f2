//! The intervals of a scenario, by the ranks of their end points.
//!
//! The rank of an end point is the number of classes of equal end points that lie below it. Whichever three end points
//! are taken, they belong to at most three nodes, whose base relations agree, so that some three intervals lie as these
//! say. So "lies below" orders the end points but for equal ones, and the ranks compare as the end points do: each two
//! intervals have the base relation of their nodes.
//!
//! With `n` nodes there are `2n` end points and at most `2n` classes, so `O(n * n)` comparisons give all ranks. One
//! look-up in the scenario and one in a constant make a comparison.
ghost use Rattle.std.specs.Prelude.{◌≡◌, ◌*◌, ◌<◌, ◌≤◌, IfOk, All};
ghost use Rattle.network_words.specs.declared.TheConstants.{MAX_NODES};
ghost use Rattle.allen_real.specs.Classes.{AreMembers, ranked};
ghost use Rattle.allen_real.specs.Realisation.{IsAllenScenario, RealiseByRanks};

use crate::classes::{classes_below, members};
use crate::end_points::EndPoint;
use crate::intervals::Interval;
use calculus_table::Memory;
use scenario::Scenario;
use std::alloc::Global;

/// An interval for each of the `nodes` nodes of a scenario of Allen's algebra, so that each two have the base relation
/// of their nodes. Where an interval begins and where it ends are the ranks of its end points, from 0 on. Out of memory
/// is the one error.
pub fn realise(alloc: Global, s: &Scenario, nodes: u32) -> Result<Vec<Interval>, Memory>
    requires few { nodes ≤ MAX_NODES }
    requires scenario { IsAllenScenario nodes s.now }
    ensures intervals { IfOk result (λ intervals. RealiseByRanks nodes s.now intervals.items) }
    ensures bound { IfOk result (λ intervals. All (λ x. x.hi < 2 * nodes) intervals.items) }
{
    let bases = s.bases.as_slice();
    let members = members(alloc, nodes, bases)?;
    let mut intervals = Vec::with_capacity(alloc, nodes as usize).map_err(|_| Memory)?;
    for node in 0..nodes {
        let interval = ranked(nodes, bases, &members, node);
        intervals.push(interval).map_err(|_| Memory)?;
    }
    Ok(intervals)
}

/// The interval of a node, by the ranks of its end points.
fn ranked(nodes: u32, bases: &[u8], members: &[EndPoint], node: u32) -> Interval
    requires few { nodes ≤ MAX_NODES }
    requires scenario { IsAllenScenario nodes bases.now }
    requires members { AreMembers nodes bases.now (2 * nodes) members.now }
    requires of_nodes { node < nodes }
    ensures { result ≡ ranked nodes bases.now members.now node }
{
    Interval {
        lo: classes_below(nodes, bases, members, EndPoint::begin(node)),
        hi: classes_below(nodes, bases, members, EndPoint::end(node)),
    }
}
