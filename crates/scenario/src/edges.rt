//! The first edge whose base relation isn't in its set: edge order is row by row, so it is looked for so.
ghost use Rattle.std.specs.Prelude.{◌≡◌, ◌+◌, ◌<◌, MatchOption, length};
ghost use Rattle.network_words.specs.Edge.{edge_count};
ghost use Rattle.scenario.specs.ScenarioFault.{IsMemberBetween};
ghost use Rattle.scenario.specs.Places.{EachFrom, IsFirstFrom, EachPairFrom, IsFirstPairFrom};

use network_words::Net;

/// The first node after `i` with whose edge the base relation isn't in the edge's set.
fn first_outside_of(net: &Net, bases: &[u8], i: u32) -> Option<u32>
    requires length_is { length bases.now ≡ edge_count net.now.nodes }
    requires below { i < net.now.nodes }
    ensures { MatchOption result
        (EachFrom (i + 1) net.now.nodes
        (IsMemberBetween net.now.nodes net.now.words bases.now i))
        (IsFirstFrom (i + 1) net.now.nodes
        (IsMemberBetween net.now.nodes net.now.words bases.now i)) }
{
    let nodes = net.nodes();
    for j in i + 1..nodes {
        let edge = net.edge(i, j);
        if !net.word(edge).has(u32::from(bases[edge as usize])) {
            return Some(j);
        }
    }
    None
}

/// The first pair of nodes, in lexicographic order, for whose edge the base relation isn't in the edge's set.
pub(crate) fn first_outside(net: &Net, bases: &[u8]) -> Option<(u32, u32)>
    requires { length bases.now ≡ edge_count net.now.nodes }
    ensures { MatchOption result
        (EachPairFrom 0 net.now.nodes (IsMemberBetween net.now.nodes net.now.words bases.now))
        (λ p. IsFirstPairFrom 0 net.now.nodes
        (IsMemberBetween net.now.nodes net.now.words bases.now) p.0 p.1) }
{
    for i in 0..net.nodes() {
        if let Some(j) = first_outside_of(net, bases, i) {
            return Some((i, j));
        }
    }
    None
}
