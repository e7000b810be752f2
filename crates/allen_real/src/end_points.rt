//! The end points of a scenario's intervals, and how they compare.
//!
//! A base relation says of the end points of two intervals which lie below which (Allen 1983). So they compare as those
//! of any two intervals that have it, and two that do are kept for each base relation.
ghost use Rattle.std.specs.Prelude.{◌≡◌, ◌<◌, ◌≤◌, true, false, MatchBool};
ghost use Rattle.network_words.specs.declared.TheConstants.{MAX_NODES};
ghost use Rattle.allen_real.specs.EndPoints.{extent, end_of, end_point, base_between, is_below, Differ, AreEqual};
ghost use Rattle.allen_real.specs.Realisation.{IsAllenScenario};

use crate::intervals::Interval;
use network_words::edge_between;

/// An end point of a node's interval.
#[derive(Clone, Copy, Debug, PartialEq, Eq)]
pub(crate) struct EndPoint {
    pub node: u32,
    /// Whether the interval ends there; else it begins there.
    pub is_end: bool,
}

impl EndPoint {
    /// Where the interval of a node begins.
    pub(crate) fn begin(node: u32) -> Self
        ensures { result ≡ end_point node false }
    {
        EndPoint {
            node,
            is_end: false,
        }
    }

    /// Where the interval of a node ends.
    pub(crate) fn end(node: u32) -> Self
        ensures { result ≡ end_point node true }
    {
        EndPoint { node, is_end: true }
    }
}

/// The base relation of a node to itself.
const EQUAL: u32 = 6;

/// The last base relation. They are numbered so that their converses stand in the order reversed.
const LAST: u32 = 12;

/// Two intervals for each base relation, in their order, of which the first has it to the second.
const EXAMPLES: [(Interval, Interval); 13] = [
    (Interval { lo: 0, hi: 1 }, Interval { lo: 2, hi: 3 }), // b
    (Interval { lo: 0, hi: 1 }, Interval { lo: 1, hi: 2 }), // m
    (Interval { lo: 0, hi: 2 }, Interval { lo: 1, hi: 3 }), // o
    (Interval { lo: 0, hi: 2 }, Interval { lo: 1, hi: 2 }), // fi
    (Interval { lo: 0, hi: 3 }, Interval { lo: 1, hi: 2 }), // di
    (Interval { lo: 0, hi: 1 }, Interval { lo: 0, hi: 2 }), // s
    (Interval { lo: 0, hi: 1 }, Interval { lo: 0, hi: 1 }), // eq
    (Interval { lo: 0, hi: 2 }, Interval { lo: 0, hi: 1 }), // si
    (Interval { lo: 1, hi: 2 }, Interval { lo: 0, hi: 3 }), // d
    (Interval { lo: 1, hi: 2 }, Interval { lo: 0, hi: 2 }), // f
    (Interval { lo: 1, hi: 3 }, Interval { lo: 0, hi: 2 }), // oi
    (Interval { lo: 1, hi: 2 }, Interval { lo: 0, hi: 1 }), // mi
    (Interval { lo: 2, hi: 3 }, Interval { lo: 0, hi: 1 }), // bi
];

/// Whether the end point `p` lies below `q`.
pub(crate) fn is_below(nodes: u32, bases: &[u8], p: EndPoint, q: EndPoint) -> bool
    requires few { nodes ≤ MAX_NODES }
    requires scenario { IsAllenScenario nodes bases.now }
    requires first { p.node < nodes }
    requires second { q.node < nodes }
    ensures { result ≡ is_below nodes bases.now p q }
{
    let base = base_between(nodes, bases, p.node, q.node);
    let (x, y) = EXAMPLES[base as usize];
    end_of(x, p.is_end) < end_of(y, q.is_end)
}

/// Whether two end points are equal: neither lies below the other.
pub(crate) fn are_equal(nodes: u32, bases: &[u8], p: EndPoint, q: EndPoint) -> bool
    requires few { nodes ≤ MAX_NODES }
    requires scenario { IsAllenScenario nodes bases.now }
    requires first { p.node < nodes }
    requires second { q.node < nodes }
    ensures { MatchBool result (AreEqual nodes bases.now p q) (Differ nodes bases.now p q) }
{
    !is_below(nodes, bases, p, q) && !is_below(nodes, bases, q, p)
}

/// The base relation of node `i` to node `j`.
fn base_between(nodes: u32, bases: &[u8], i: u32, j: u32) -> u32
    requires few { nodes ≤ MAX_NODES }
    requires scenario { IsAllenScenario nodes bases.now }
    requires first { i < nodes }
    requires second { j < nodes }
    ensures value { result ≡ base_between nodes bases.now i j }
    ensures below { result ≤ LAST }
{
    if i == j {
        return EQUAL;
    }
    let base = u32::from(bases[edge_between(nodes, i, j) as usize]);
    if i < j { base } else { LAST - base }
}

/// Where an interval begins or ends.
fn end_of(x: Interval, is_end: bool) -> u32
    ensures { result ≡ end_of (extent x) is_end }
{
    if is_end { x.hi } else { x.lo }
}
