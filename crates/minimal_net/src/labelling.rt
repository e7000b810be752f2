//! The label of a base relation at an edge.
//!
//! It is what a search says of the network in which the edge's set is met with the base relation: whatever scenario
//! that network has is one of the network with the base relation there, and the other way round. The closure of the
//! network may have a base relation that no scenario has, so that closing alone doesn't tell (Montanari 1974).
//!
//! It ends as the search does. It costs a copy of the network and that search.
ghost use Rattle.std.specs.Prelude.{◌≡◌, ◌<◌, ◌≤◌, IfOk};
ghost use Rattle.calculus_table.specs.Calculus.{EachBase};
ghost use Rattle.network_words.specs.Edge.{edge_count};
ghost use Rattle.network_words.specs.Network.{IsNetwork};
ghost use Rattle.split_search.specs.declared.TheConstants.{MAX_BUDGET};
ghost use Rattle.split_search.specs.Verdicts.{AreSearched};
ghost use Rattle.tract_classes.specs.Class.{HasBase};
ghost use Rattle.minimal_net.specs.Labels.{set_to, label_of, IsLabel, IsTrueOf, KeepsBudget, nodes_of};

use crate::label::Label;
use calculus_table::{Compose, Memory, Rel, lawful};
use network_words::Net;
use split_search::{Verdict, solve};
use std::alloc::Global;
use tract_classes::Class;

/// Says whether some scenario of the network has this base relation at this edge, by a search of as many splits as the
/// budget at most. The class says which edge is split into which parts.
///
/// Held comes with such a scenario, refuted with a tree that refutes the network with the edge set to the base
/// relation. That the budget was spent comes exactly where the ruled tree of that network with as many splits ends
/// undecided, and never where the product of the sizes of its closed sets is one more than the budget at most.
pub fn minimal<C: Compose>(
    alloc: Global,
    net: &Net,
    c: &C,
    class: &Class,
    edge: u32,
    base: u32,
    budget: u32,
) -> Result<Label, Memory>
    requires network { IsNetwork (C.algebra c.now) net.now.nodes net.now.words }
    requires bases { EachBase (C.algebra c.now) (HasBase class.now) }
    requires edge { edge < edge_count net.now.nodes }
    requires base { base < (C.algebra c.now).size }
    requires budget { budget ≤ MAX_BUDGET }
    ensures label { IfOk result
        (IsLabel (C.algebra c.now) net.now.nodes class.now budget net.now.words edge base) }
    ensures is_true { IfOk result
        (IsTrueOf (C.algebra c.now) net.now.nodes net.now.words edge base budget) }
    ensures splits { IfOk result (KeepsBudget budget) }
    ensures nodes { IfOk result (λ label. AreSearched budget (nodes_of label)) }
{
    lawful(c);
    let met = set_to(net, edge, base)?;
    let verdict = solve(alloc, &met, c, class, budget)?;
    Ok(label_of(verdict))
}

/// The network with the set of an edge met with one base relation.
fn set_to(net: &Net, edge: u32, base: u32) -> Result<Net, Memory>
    requires edge { edge < edge_count net.now.nodes }
    requires base { base < 64 }
    ensures { IfOk result (λ met.
        met ≡ record net.now { words = set_to net.now.words edge base }) }
{
    let mut met = net.copy()?;
    met.set(edge, net.word(edge).meet(Rel::single(base)));
    Ok(met)
}

/// The label by a verdict on that network.
fn label_of(verdict: Verdict) -> Label
    ensures { result ≡ label_of verdict }
{
    match verdict {
        Verdict::Yes(scenario, _) => Label::Held(scenario),
        Verdict::No(tree) => Label::Refuted(tree),
        Verdict::Budget(tree) => Label::Budget(tree),
    }
}
