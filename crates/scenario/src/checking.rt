//! The check of a scenario.
//!
//! Three questions are asked one after another: whether there is a base relation of the calculus for each edge, whether
//! each is in its edge's set, and whether that of (i, k) is in the composition of those of (i, j) and (j, k), for all
//! nodes `i < j < k`. That is the definition of a scenario, and each question is asked of the places in their order, so
//! the first answer of no is the first fault. One order of the three nodes is enough: by the laws of the calculus a
//! triple that composes in one order does in every other (Renz and Nebel).
//!
//! Each loop is over nodes, edges or base relations, so it ends. `n` nodes have `n * (n - 1) * (n - 2) / 6` triples,
//! and each costs one look-up of a composition of two base relations. All of these are taken from the calculus once,
//! before the first triple.
ghost use Rattle.std.specs.Prelude.{◌≡◌, ◌<◌, ◌↔◌, IsTrue, MatchResult, All, length};
ghost use Rattle.network_words.specs.Edge.{edge_count};
ghost use Rattle.network_words.specs.Scenario.{IsScenario};
ghost use Rattle.scenario.specs.ScenarioFault.{HasShape, IsFaultOf};

use crate::edges::first_outside;
use crate::triples::first_broken;
use calculus_table::Compose;
use network_words::Net;
use std::marker::Model;

/// A base relation for each edge of a network, by its number, in edge order.
#[derive(Debug, Drop)]
pub struct Scenario {
    pub bases: Vec<u8>,
}

impl Model for Scenario {
    ghost use Rattle.std.specs.Prelude.{ℕ, List};

    ghost Value = { List ℕ };

    ghost view = { λ s. s.bases.items };
}

/// Where a list of base relations fails to be a scenario.
#[derive(Clone, Copy, Debug, PartialEq, Eq)]
pub enum At {
    /// The base relation of the edge from `i` to `j` isn't in its set.
    Outside { i: u32, j: u32 },
    /// The base relation of (i, k) isn't in the composition of those of (i, j) and (j, k).
    Triple { i: u32, j: u32, k: u32 },
    /// There isn't a base relation of the calculus for each edge.
    Shape,
}

/// Whether the list is a scenario of the network: the first fault, if it isn't. Takes no memory.
pub fn check<C: Compose>(net: &Net, c: &C, s: &Scenario) -> Result<(), At>
    ensures { MatchResult result
        (λ _. IsScenario (C.algebra c.now) net.now.nodes net.now.words s.now)
        (IsFaultOf (C.algebra c.now) net.now.nodes net.now.words s.now) }
{
    let bases = s.bases.as_slice();
    if !has_shape(net, c, bases) {
        return Err(At::Shape);
    }
    if let Some((i, j)) = first_outside(net, bases) {
        return Err(At::Outside { i, j });
    }
    if let Some((i, j, k)) = first_broken(net, c, bases) {
        return Err(At::Triple { i, j, k });
    }
    Ok(())
}

/// Whether there is a base relation of the calculus for each edge.
fn has_shape<C: Compose>(net: &Net, c: &C, bases: &[u8]) -> bool
    ensures { IsTrue result ↔ HasShape (C.algebra c.now) net.now.nodes bases.now }
{
    bases.len() == net.edges() as usize && are_below(bases, c.size())
}

/// Whether each base number is below the size.
fn are_below(bases: &[u8], size: u32) -> bool
    ensures { IsTrue result ↔ All (λ base. base < size) bases.now }
{
    bases.iter().all(|base| u32::from(*base) < size)
}
