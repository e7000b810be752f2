//! Networks and classes that the tests start from.
ghost use Rattle.std.specs.Prelude.{IsTrue};
ghost use Rattle.calculus_table.specs.Calculus.{EachBase};
ghost use Rattle.network_words.specs.Network.{IsNetwork};
ghost use Rattle.tract_classes.specs.Class.{HasBase};

use calculus_table::{Calculus, Compose, Rel};
use network_words::{Net, NetFault};
use std::alloc::Global;
use tract_classes::Class;

/// Whether the class has each base relation of the calculus.
pub(crate) fn has_bases(class: &Class, c: &Calculus) -> bool
    ensures { IsTrue result → EachBase c.now.algebra (HasBase class.now) }
{
    for r in 0..c.size() {
        if !class.has(Rel::single(r)) {
            return false;
        }
    }
    true
}

/// Whether each edge has a set of the calculus.
pub(crate) fn is_network(net: &Net, c: &Calculus) -> bool
    ensures { IsTrue result → IsNetwork c.now.algebra net.now.nodes net.now.words }
{
    let _nodes = net.nodes();
    let full = c.full();
    net.words().iter().all(|word| Rel::of(*word).within(full))
}

/// Sets the set of an edge to what the word has of the full set, if the edge is there.
fn put(net: &mut Net, edge: u32, word: u64) {
    if edge < net.edges() {
        net.set(edge, Rel::of(word).meet(net.full()));
    }
}

/// The network whose edges have the sets of these words.
pub(crate) fn net_of(alloc: Global, full: Rel, nodes: u32, words: &[u64]) -> Result<Net, NetFault> {
    let mut net = Net::new(alloc, nodes, full)?;
    let mut edge = 0u32;
    for word in words {
        put(&mut net, edge, *word);
        edge = edge.wrapping_add(1);
    }
    Ok(net)
}
