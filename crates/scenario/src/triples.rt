//! The first triple that doesn't compose.
//!
//! For two nodes `i < j` the edges from `i` to the nodes after `j`, and those from `j` to them, stand one after another
//! in edge order. So for each third node the two base relations are read at places that go up by one, and their
//! composition is looked up in a table, in the row of the first.
ghost use Rattle.std.specs.Prelude.{◌≡◌, ◌+◌, ◌<◌, MatchOption, length};
ghost use Rattle.scenario.specs.Entries.{BeginsWithTable};
ghost use Rattle.scenario.specs.ScenarioFault.{HasShape, ComposesAt, EachTriple, IsFirstTriple};
ghost use Rattle.scenario.specs.Places.{EachFrom, IsFirstFrom, EachPairFrom, IsFirstPairFrom};

use crate::entries::{MAX_ENTRIES, fill};
use calculus_table::{Compose, Rel, lawful};
use network_words::Net;

/// The first node after `j` with which the triple of `i` and `j` doesn't compose.
fn first_broken_third<C: Compose>(
    net: &Net,
    c: &C,
    entries: &[Rel],
    bases: &[u8],
    i: u32,
    j: u32,
) -> Option<u32>
    requires entries { BeginsWithTable (C.algebra c.now) entries.now }
    requires shape { HasShape (C.algebra c.now) net.now.nodes bases.now }
    requires order { i < j }
    requires below { j + 1 < net.now.nodes }
    ensures { MatchOption result
        (EachFrom (j + 1) net.now.nodes
        (ComposesAt (C.algebra c.now) net.now.nodes bases.now i j))
        (IsFirstFrom (j + 1) net.now.nodes
        (ComposesAt (C.algebra c.now) net.now.nodes bases.now i j)) }
{
    lawful(c);
    let nodes = net.nodes();
    let pair = net.edge(i, j);
    let next = net.edge(j, j + 1);
    let row = usize::from(bases[pair as usize]) * c.size() as usize;
    for k in j + 1..nodes {
        let second = usize::from(bases[(next + (k - j - 1)) as usize]);
        let whole = u32::from(bases[(pair + (k - j)) as usize]);
        if !entries[row + second].has(whole) {
            return Some(k);
        }
    }
    None
}

/// The first pair of nodes after `i` with which the triple of `i` doesn't compose.
fn first_broken_pair<C: Compose>(
    net: &Net,
    c: &C,
    entries: &[Rel],
    bases: &[u8],
    i: u32,
) -> Option<(u32, u32)>
    requires entries { BeginsWithTable (C.algebra c.now) entries.now }
    requires shape { HasShape (C.algebra c.now) net.now.nodes bases.now }
    requires below { i < net.now.nodes }
    ensures { MatchOption result
        (EachPairFrom (i + 1) net.now.nodes
        (ComposesAt (C.algebra c.now) net.now.nodes bases.now i))
        (λ p. IsFirstPairFrom (i + 1) net.now.nodes
        (ComposesAt (C.algebra c.now) net.now.nodes bases.now i) p.0 p.1) }
{
    let nodes = net.nodes();
    for j in i + 1..nodes - 1 {
        if let Some(k) = first_broken_third(net, c, entries, bases, i, j) {
            return Some((j, k));
        }
    }
    None
}

/// The first triple of nodes, in lexicographic order, that doesn't compose.
pub(crate) fn first_broken<C: Compose>(net: &Net, c: &C, bases: &[u8]) -> Option<(u32, u32, u32)>
    requires { HasShape (C.algebra c.now) net.now.nodes bases.now }
    ensures { MatchOption result
        (EachTriple net.now.nodes (ComposesAt (C.algebra c.now) net.now.nodes bases.now))
        (λ p. IsFirstTriple net.now.nodes
        (ComposesAt (C.algebra c.now) net.now.nodes bases.now) p.0 p.1 p.2) }
{
    let mut entries = [Rel::EMPTY; MAX_ENTRIES];
    fill(c, &mut entries);
    for i in 0..net.nodes() {
        if let Some((j, k)) = first_broken_pair(net, c, &entries, bases, i) {
            return Some((i, j, k));
        }
    }
    None
}
