//! Edges by their nodes, and the relation of a pair of nodes in a list of words.
//!
//! A network of `n` nodes has a word for each pair `i < j`, in lexicographic order: (0,1), (0,2), ..,
//! (0,n-1), (1,2), and so on. The rows before row `i` have `n-1`, `n-2`, .., `n-i` edges, together
//! `i * (2n - i - 1) / 2`, and `j - i - 1` edges come before (i, j) in its own row. So the number of
//! an edge takes one multiplication and no search. The pair (j, i) has the word of the same edge, and
//! its relation is the converse of that.
ghost use Rattle.std.specs.Prelude.{◌≡◌, ◌<◌, ◌≤◌};
ghost use Rattle.calculus_table.specs.Rel.{IsWithin};
ghost use Rattle.calculus_table.specs.Composition.{full_of};
ghost use Rattle.network_words.specs.Edge.{edge_count, edge_at, edge_between, IsProperPair};
ghost use Rattle.network_words.specs.Network.{IsNetwork, relation_between, oriented};

use crate::MAX_NODES;
use calculus_table::{Compose, Rel};

/// The number of the edge between two of `nodes` nodes, in whichever order.
pub fn edge_between(nodes: u32, i: u32, j: u32) -> u32
    requires few { nodes ≤ MAX_NODES }
    requires proper { IsProperPair nodes i j }
    ensures value { result ≡ edge_between nodes i j }
    ensures below { result < edge_count nodes }
{
    if i < j {
        edge_at(nodes, i, j)
    } else {
        edge_at(nodes, j, i)
    }
}

/// The number of the edge from `i` to `j`, where `i < j`.
pub(crate) fn edge_at(nodes: u32, i: u32, j: u32) -> u32
    requires few { nodes ≤ MAX_NODES }
    requires order { i < j }
    requires below { j < nodes }
    ensures value { result ≡ edge_at nodes i j }
    ensures below { result < edge_count nodes }
{
    i * (2 * nodes - i - 1) / 2 + (j - i - 1)
}

/// The relation of node `i` to node `j`, in the network of these words.
pub fn relation_between<C: Compose>(c: &C, nodes: u32, words: &[u64], i: u32, j: u32) -> Rel
    requires few { nodes ≤ MAX_NODES }
    requires proper { IsProperPair nodes i j }
    requires network { IsNetwork (C.algebra c.now) nodes words.now }
    ensures value { result ≡ relation_between (C.algebra c.now) nodes words.now i j }
    ensures within { IsWithin result (full_of (C.algebra c.now)) }
{
    let word = words[edge_between(nodes, i, j) as usize];
    oriented(c, i, j, Rel::of(word))
}

/// The relation `rel` of node `i` to node `j` as their edge has it: `rel` where `i < j`, else its converse.
pub fn oriented<C: Compose>(c: &C, i: u32, j: u32, rel: Rel) -> Rel
    requires { IsWithin rel (full_of (C.algebra c.now)) }
    ensures value { result ≡ oriented (C.algebra c.now) i j rel }
    ensures within { IsWithin result (full_of (C.algebra c.now)) }
{
    if i < j { rel } else { c.converse(rel) }
}
