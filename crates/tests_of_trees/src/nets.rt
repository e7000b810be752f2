//! Sets and networks that the tests start from.
ghost use Rattle.std.specs.Prelude.{◌≡◌, IfOk, IsTrue};
ghost use Rattle.network_words.specs.Network.{IsNetwork};

use calculus_table::{Calculus, Compose, Memory, Rel};
use network_words::{Net, NetFault};
use std::alloc::Global;

/// The sets of these words.
pub(crate) fn sets_of(alloc: Global, words: &[u64]) -> Result<Vec<Rel>, Memory>
    ensures { IfOk result (λ sets. sets.items ≡ words.now) }
{
    words
        .iter()
        .map(|word| Rel::of(*word))
        .collect(alloc)
        .map_err(|_| Memory)
}

/// Whether the sets are those of these words.
pub(crate) fn have_words(sets: &[Rel], words: &[u64]) -> bool {
    sets.len() == words.len()
        && sets
            .iter()
            .zip(words)
            .all(|(set, word)| set.word() == *word)
}

/// Whether each edge has a set of the calculus.
pub(crate) fn is_network(net: &Net, c: &Calculus) -> bool
    ensures { IsTrue result → IsNetwork c.now.algebra net.now.nodes net.now.words }
{
    let _nodes = net.nodes();
    let full = c.full();
    net.words().iter().all(|word| Rel::of(*word).within(full))
}

/// Sets the set of an edge to what the word has of the full set, if the edge is there.
pub(crate) fn put(net: &mut Net, edge: u32, word: u64) {
    if edge < net.edges() {
        net.set(edge, Rel::of(word).meet(net.full()));
    }
}

/// The network whose edges have the sets of these words.
pub(crate) fn net_of(alloc: Global, full: Rel, nodes: u32, words: &[u64]) -> Result<Net, NetFault> {
    let mut net = Net::new(alloc, nodes, full)?;
    let mut edge = 0u32;
    for word in words {
        put(&mut net, edge, *word);
        edge = edge.wrapping_add(1);
    }
    Ok(net)
}
