//! Sets and networks that the tests start from.
ghost use Rattle.std.specs.Prelude.{◌<◌, IsTrue};
ghost use Rattle.network_words.specs.Network.{IsNetwork};

use crate::asserts::assert_same;
use calculus_table::{Compose, Rel};
use network_words::{Net, NetFault};
use std::alloc::Global;
use std::process::Abort;

/// The proper parts among the relations of regions.
pub(crate) const TPP: u64 = 1 << 3;

pub(crate) const NTPP: u64 = 1 << 4;

/// Whether each edge has a set of the calculus.
pub(crate) fn is_network<C: Compose>(net: &Net, c: &C) -> bool
    ensures { IsTrue result → IsNetwork (C.algebra c.now) net.now.nodes net.now.words }
{
    let _nodes = net.nodes();
    let full = c.full();
    net.words().iter().all(|word| Rel::of(*word).within(full))
}

/// Fails unless the words are these.
pub(crate) fn assert_words(rt: &impl Abort, found: &[u64], expected: &[u64]) {
    assert_same(rt, found, expected);
}

/// Sets the set of an edge to what the word has of the full set, if the edge is there.
pub(crate) fn put(net: &mut Net, edge: u32, word: u64) {
    if edge < net.edges() {
        net.set(edge, Rel::of(word).meet(net.full()));
    }
}

/// The network of so many nodes whose edges have these sets, in edge order.
pub(crate) fn net_of(alloc: Global, full: Rel, nodes: u32, words: &[u64]) -> Result<Net, NetFault> {
    let mut net = Net::new(alloc, nodes, full)?;
    let mut edge = 0u32;
    for word in words {
        put(&mut net, edge, *word);
        edge = edge.wrapping_add(1);
    }
    Ok(net)
}

/// Sets the set of each of the first `count` nodes to the next one of them.
pub(crate) fn put_chain(net: &mut Net, count: u32, word: u64) {
    let nodes = net.nodes();
    let mut edge = 0u32;
    for row in 1..count {
        put(net, edge, word);
        // the row has an edge to each node after its first one
        edge = edge.wrapping_add(nodes).wrapping_sub(row);
    }
}

/// The network in which each node has `word` to the next one, and the other edges are full.
pub(crate) fn chain(alloc: Global, full: Rel, nodes: u32, word: u64) -> Result<Net, NetFault> {
    let mut net = Net::new(alloc, nodes, full)?;
    put_chain(&mut net, nodes, word);
    Ok(net)
}

/// The next number of a row that looks random (Knuth's linear congruence).
pub(crate) fn next(seed: u64) -> u64 {
    seed.wrapping_mul(6_364_136_223_846_793_005)
        .wrapping_add(1_442_695_040_888_963_407)
}

/// The word of an edge by a random number: where `sparse` edges come to one that is narrowed, its set is random, or a
/// smaller random one that has all of `base`, and the other edges have all base relations.
fn random_word(seed: u64, sparse: u64, base: u64) -> u64
    requires { 0 < sparse }
{
    if seed >> 40 & 1023 >= 1024 / sparse {
        u64::MAX
    } else if base == 0 {
        seed >> 20
    } else {
        seed >> 20 & seed >> 30 | base
    }
}

/// A network in which about one edge in `sparse` has a random set, as `random_word` makes it, and the others are full.
/// Where any two nodes may have one base relation of `base` at once, no set of the closure is empty.
pub(crate) fn random_net(
    alloc: Global,
    full: Rel,
    nodes: u32,
    sparse: u64,
    base: u64,
    start: u64,
) -> Result<Net, NetFault>
    requires { 0 < sparse }
{
    let mut net = Net::new(alloc, nodes, full)?;
    let mut seed = start;
    for edge in 0..net.edges() {
        seed = next(seed);
        put(&mut net, edge, random_word(seed, sparse, base));
    }
    Ok(net)
}
