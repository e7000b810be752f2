//! The check of a tree.
//!
//! The first pass is over the nodes' forms and steps: whether they are the preorder list of a tree. The second is over
//! their networks, in preorder: whether each leaf has an empty set and the parts of each split cover the edge's set. A
//! fault of the first pass comes before any of the second, and within a pass the first one in the list's order. The
//! first pass costs what the list is long. The second works a network for each node.
ghost use Rattle.std.specs.Prelude.{◌<◌, ◌^◌, All, MatchResult, length};
ghost use Rattle.network_words.specs.Network.{IsNetwork};
ghost use Rattle.split_trees.specs.Tree.{AreFewSteps};
ghost use Rattle.split_trees.specs.Refutes.{IsRefutation};
ghost use Rattle.refutation.specs.TreeFault.{IsFaultOf};

use crate::fault::TreeFault;
use crate::forms::check_forms;
use crate::walking::check_networks;
use calculus_table::Compose;
use network_words::Net;
use split_trees::Tree;
use std::alloc::Global;

/// Whether the tree refutes the network: its first fault, if it doesn't.
pub fn check<C: Compose>(alloc: Global, net: &Net, c: &C, tree: &Tree) -> Result<(), TreeFault>
    requires network { IsNetwork (C.algebra c.now) net.now.nodes net.now.words }
    requires few { length tree.now < 2 ^ 32 }
    requires steps { All (λ node. AreFewSteps node.steps) tree.now }
    ensures { MatchResult result
        (λ _. IsRefutation (C.algebra c.now) net.now.nodes net.now.words tree.now)
        (IsFaultOf (C.algebra c.now) net.now.nodes net.now.words tree.now) }
{
    let nodes = tree.nodes.as_slice();
    if nodes.is_empty() {
        return Err(TreeFault::BadTree { node: 0 });
    }
    check_forms(alloc, net.nodes(), nodes)?;
    check_networks(alloc, net, c, nodes)
}
