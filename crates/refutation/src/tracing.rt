//! Traced trees: each node lists the ruled steps of its network.
//!
//! The nodes are walked in preorder as in the check, with the way from the first node to the one that is traced, and
//! beside it the networks to which the steps of these nodes led. A network is had from the one above it by the set of
//! one edge and its steps, and that one is had back by undoing them. The check comes first, so the tree is one that
//! refutes: each leaf has an empty set at last. Whoever checks the traced tree takes one composition for each step, and
//! closes nothing.
ghost use Rattle.std.specs.Prelude.{◌≡◌, ◌+◌, ◌<◌, ◌^◌, ◌++◌, ◌∷◌, [], List, All, IfOk, OnOk};
ghost use Rattle.std.specs.Prelude.{MatchResult, length, reverse};
ghost use Rattle.network_words.specs.Network.{IsNetwork};
ghost use Rattle.split_trees.specs.Tree.{TreeNode, AreFewSteps, HasBareLeaves, leaf_node, listed};
ghost use Rattle.split_trees.specs.Refutes.{IsRefutation};
ghost use Rattle.refutation.specs.TreeFault.{AreFormed, IsFaultOf};
ghost use Rattle.refutation.specs.Ways.{HasNext};
ghost use Rattle.stepped_networks.specs.RuledSteps.{all_steps};
ghost use Rattle.refutation.specs.Traced.{IsTracedOf};
ghost use Rattle.refutation.specs.Tracings.{with_steps, IsTracing, IsRuledAt};

use crate::checking::check;
use crate::fault::TreeFault;
use crate::walking::{Entered, is_finished};
use calculus_table::{Compose, Memory, lawful};
use network_words::Net;
use split_trees::{Kind, Node, Step, Steps, Tree};
use std::alloc::Global;
use stepped_networks::{Stepped, all_steps};

/// The node with these steps: a split as it is, and of a leaf the kind alone.
fn node_with_steps(alloc: Global, node: &Node, steps: Vec<Step>) -> Result<Node, Memory>
    ensures node { IfOk result (λ new. new ≡ with_steps node.now (listed steps.items)) }
    ensures few { IfOk result (λ new. AreFewSteps new.steps) }
{
    if steps.len() > u32::MAX as usize {
        return Err(Memory);
    }
    if node.is_split() {
        split_with_steps(alloc, node, steps)
    } else {
        Ok(leaf_with_steps(alloc, node.kind, steps))
    }
}

/// A leaf of a kind, with these steps.
fn leaf_with_steps(alloc: Global, kind: Kind, steps: Vec<Step>) -> Node
    ensures { result ≡ leaf_node kind (listed steps.items) }
{
    Node {
        kind,
        i: 0,
        j: 0,
        parts: Vec::new(alloc),
        children: Vec::new(alloc),
        steps: Steps::List(steps),
    }
}

/// The node with these steps.
fn split_with_steps(alloc: Global, node: &Node, steps: Vec<Step>) -> Result<Node, Memory>
    ensures { IfOk result (λ new. new ≡ record node.now { steps = listed steps.items }) }
{
    let Ok(parts) = node.parts.iter().copied().collect(alloc) else {
        return Err(Memory);
    };
    let Ok(children) = node.children.iter().copied().collect(alloc) else {
        return Err(Memory);
    };
    Ok(Node {
        kind: node.kind,
        i: node.i,
        j: node.j,
        parts,
        children,
        steps: Steps::List(steps),
    })
}

/// Enters node `x`, the next child of the last node on the way. Returns its steps.
fn enter_child(
    alloc: Global,
    net: &Net,
    nodes: &[Node],
    all: &[Step],
    networks: &mut Stepped,
    way: &mut Vec<Entered>,
    x: u32,
) -> Result<Vec<Step>, Memory>
    requires nodes { networks.old.nodes ≡ net.now.nodes }
    requires all { all.now ≡ all_steps net.now.nodes }
    requires formed { AreFormed net.now.nodes nodes.now }
    requires below { x < length nodes.now }
    requires network { IsNetwork networks.old.algebra net.now.nodes networks.old.top }
    requires next { HasNext nodes.now (reverse way.old.items) }
    ensures ruled { IfOk result (λ steps. (made : List TreeNode) →
        IsTracing networks.old.algebra net.now.nodes net.now.words nodes.now x made
        (reverse way.old.items) (networks.old.top ∷ networks.old.under) →
        IsRuledAt networks.old.algebra net.now.nodes net.now.words nodes.now x made steps.items
        networks.new.top (reverse way.new.items) networks.new.under) }
    ensures rest { OnOk result (networks.new ≡ record networks.old {
      top = networks.new.top;
      under = networks.new.under;
    }) }
{
    let at = way.len() - 1;
    let last = way[at];
    let split = &nodes[last.node as usize];
    let edge = net.edge(split.i, split.j);
    let part = split.parts[last.next];
    let cut = !nodes[x as usize].is_split();
    let steps = networks.enter_ruled(alloc, edge, part, cut, all)?;
    way[at] = Entered {
        node: last.node,
        next: last.next + 1,
    };
    Ok(steps)
}

/// Puts node `x` on the way, and into the traced tree with its steps.
fn push_traced(
    alloc: Global,
    node: &Node,
    steps: Vec<Step>,
    x: u32,
    way: &mut Vec<Entered>,
    traced: &mut Vec<Node>,
) -> Result<(), Memory>
    ensures way { OnOk result
        (way.new.items ≡ way.old.items ++ record { node = x; next = 0 } ∷ []) }
    ensures traced { OnOk result
        (traced.new.items ≡ traced.old.items ++ with_steps node.now (listed steps.items) ∷ []) }
    ensures few { OnOk result (All (λ node. AreFewSteps node.steps) traced.old.items →
        All (λ node. AreFewSteps node.steps) traced.new.items) }
{
    let node = node_with_steps(alloc, node, steps)?;
    let Ok(()) = traced.push(node) else {
        return Err(Memory);
    };
    let Ok(()) = way.push(Entered { node: x, next: 0 }) else {
        return Err(Memory);
    };
    Ok(())
}

/// Traces node `x`, after those before it: leaves the nodes at the end of the way whose children were all entered, and
/// enters it.
fn trace_next(
    alloc: Global,
    net: &Net,
    nodes: &[Node],
    all: &[Step],
    networks: &mut Stepped,
    way: &mut Vec<Entered>,
    traced: &mut Vec<Node>,
    x: u32,
) -> Result<(), Memory>
    requires nodes { networks.old.nodes ≡ net.now.nodes }
    requires all { all.now ≡ all_steps net.now.nodes }
    requires formed { AreFormed net.now.nodes nodes.now }
    requires below { x < length nodes.now }
    requires tracing { IsTracing networks.old.algebra net.now.nodes net.now.words nodes.now x
        traced.old.items (reverse way.old.items) (networks.old.top ∷ networks.old.under) }
    ensures tracing { OnOk result
        (IsTracing networks.old.algebra net.now.nodes net.now.words nodes.now (x + 1)
        traced.new.items (reverse way.new.items) (networks.new.top ∷ networks.new.under)) }
    ensures rest { OnOk result (networks.new ≡ record networks.old {
      top = networks.new.top;
      under = networks.new.under;
    }) }
    ensures few { OnOk result (All (λ node. AreFewSteps node.steps) traced.old.items →
        All (λ node. AreFewSteps node.steps) traced.new.items) }
{
    while is_finished(nodes, way) {
        let _last = way.pop();
        networks.leave();
    }
    let steps = enter_child(alloc, net, nodes, all, networks, way, x)?;
    push_traced(alloc, &nodes[x as usize], steps, x, way, traced)?;
    Ok(())
}

/// The nodes of the traced tree of a tree that refutes the network.
fn traced_nodes<C: Compose>(
    alloc: Global,
    net: &Net,
    c: &C,
    nodes: &[Node],
) -> Result<Vec<Node>, Memory>
    requires network { IsNetwork (C.algebra c.now) net.now.nodes net.now.words }
    requires few { length nodes.now < 2 ^ 32 }
    requires refutes { IsRefutation (C.algebra c.now) net.now.nodes net.now.words nodes.now }
    ensures traced { IfOk result (λ traced.
        IsTracedOf (C.algebra c.now) net.now.nodes net.now.words nodes.now traced.items) }
    ensures few { IfOk result (λ traced. All (λ node. AreFewSteps node.steps) traced.items) }
{
    lawful(c);
    let all = all_steps(alloc, net.nodes())?;
    let first = &nodes[0];
    let cut = !first.is_split();
    let (mut networks, steps) = Stepped::new_ruled(alloc, net, c, cut, &all)?;
    let mut way = Vec::new(alloc);
    let mut traced = Vec::new(alloc);
    push_traced(alloc, first, steps, 0, &mut way, &mut traced)?;
    for x in 1..nodes.len() {
        trace_next(
            alloc,
            net,
            nodes,
            &all,
            &mut networks,
            &mut way,
            &mut traced,
            x as u32,
        )?;
    }
    Ok(traced)
}

/// The traced tree of a tree that refutes the network: the same tree, where each node lists the ruled steps of its
/// network. The first fault of the tree, if it doesn't refute.
pub fn trace<C: Compose>(alloc: Global, net: &Net, c: &C, tree: &Tree) -> Result<Tree, TreeFault>
    requires network { IsNetwork (C.algebra c.now) net.now.nodes net.now.words }
    requires few { length tree.now < 2 ^ 32 }
    requires steps { All (λ node. AreFewSteps node.steps) tree.now }
    ensures traced { MatchResult result
        (IsTracedOf (C.algebra c.now) net.now.nodes net.now.words tree.now)
        (IsFaultOf (C.algebra c.now) net.now.nodes net.now.words tree.now) }
    ensures refutes { IfOk result (λ _.
        IsRefutation (C.algebra c.now) net.now.nodes net.now.words tree.now) }
    ensures few { IfOk result (λ traced. All (λ node. AreFewSteps node.steps) traced) }
{
    check(alloc, net, c, tree)?;
    let Ok(nodes) = traced_nodes(alloc, net, c, &tree.nodes) else {
        return Err(TreeFault::Memory);
    };
    Ok(Tree { nodes })
}
