//! The networks of a tree: the first fault that they show.
//!
//! The nodes are walked in preorder, which is their order in the list. The way from the first node to the one that is
//! looked at is kept, with how many children of each node on it were entered, and beside it the worked networks of
//! these nodes. Before the next node is entered the nodes are left whose children were all entered. So each node is
//! entered and left once, and no call is made within a call.

ghost use Rattle.std.specs.List.{sum_by};
ghost use Rattle.std.specs.Prelude.{◌≡◌, ◌+◌, ◌<◌, ◌^◌, ◌⊎◌, ◌∷◌, [], IsTrue, length, reverse, true, false, All};
ghost use Rattle.std.specs.Prelude.{◌≤◌, ◌↔◌, IfOk, OnOk};
ghost use Rattle.std.specs.Prelude.{MatchResult};
ghost use Rattle.network_words.specs.Network.{IsNetwork};
ghost use Rattle.split_trees.specs.Tree.{sweep};
ghost use Rattle.split_trees.specs.Steps.{steps_count};
ghost use Rattle.split_trees.specs.Refutes.{IsRefutation, union_of};
ghost use Rattle.refutation.specs.TreeFault.{AreFormed, IsNetworkFault};
ghost use Rattle.refutation.specs.Ways.{IsSound, IsFaultAt, IsStanding, IsArrived, HasLast, HasNext, IsReady};
ghost use Rattle.refutation.specs.Ways.{IsFinished, IsFirstStack};

use crate::fault::TreeFault;
use calculus_table::{Compose, Memory, Rel};
use network_words::Net;
use split_trees::{Kind, Node, Steps};
use std::alloc::Global;
use stepped_networks::Networks;

/// So many steps are many: four times as many as there are compositions to be made for a table.
const MANY: usize = 4_096;

/// A node on the way.
#[derive(Clone, Copy, Debug, PartialEq, Eq)]
pub(crate) struct Entered {
    /// The number of the node.
    pub node: u32,
    /// How many of its children were entered.
    pub next: usize,
}

/// The union of the parts.
fn union_of(parts: &[Rel]) -> Rel
    ensures { result ≡ union_of parts.now }
{
    let mut all = Rel::EMPTY;
    for part in parts {
        all = all.union(*part);
    }
    all
}

/// Looks for a fault of node `x`, whose worked network is the top.
fn look(net: &Net, networks: &Networks, x: u32, node: &Node) -> Result<(), TreeFault>
    requires nodes { networks.now.nodes ≡ net.now.nodes }
    requires edge { node.now.kind ≡ Kind.Split →
        (node.now.i < node.now.j) × (node.now.j < net.now.nodes) }
    ensures { MatchResult result
        (λ _. IsSound net.now.nodes networks.now.top node.now)
        (IsFaultAt net.now.nodes networks.now.top node.now x) }
{
    match node.kind {
        Kind::Empty => {
            if networks.is_empty() {
                Ok(())
            } else {
                Err(TreeFault::NotEmpty { node: x })
            }
        }
        Kind::Found | Kind::Open | Kind::Later => Err(TreeFault::BadTree { node: x }),
        Kind::Split => {
            let set = networks.word(net.edge(node.i, node.j));
            if set.within(union_of(&node.parts)) {
                Ok(())
            } else {
                Err(TreeFault::Uncovered { node: x })
            }
        }
    }
}

/// Whether all children of the last node on the way were entered.
pub(crate) fn is_finished(nodes: &[Node], way: &[Entered]) -> bool
    requires { HasLast nodes.now (reverse way.now) }
    ensures next { result ≡ false → HasNext nodes.now (reverse way.now) }
    ensures finished { result ≡ true → IsFinished nodes.now (reverse way.now) }
{
    let last = way[way.len() - 1];
    last.next >= nodes[last.node as usize].parts_count()
}

/// Enters node `x`, the next child of the last node on the way.
fn enter_next(
    alloc: Global,
    net: &Net,
    nodes: &[Node],
    networks: &mut Networks,
    way: &mut Vec<Entered>,
    x: u32,
) -> Result<(), Memory>
    requires nodes { networks.old.nodes ≡ net.now.nodes }
    requires ready { IsReady networks.old.is_closed net.now.nodes nodes.now }
    requires below { x < length nodes.now }
    requires standing { IsStanding networks.old.algebra net.now.nodes net.now.words nodes.now
        x (reverse way.old.items) (networks.old.top ∷ networks.old.under) }
    requires next { HasNext nodes.now (reverse way.old.items) }
    ensures arrived { OnOk result
        (IsArrived networks.old.algebra net.now.nodes net.now.words nodes.now
        x networks.new.top (reverse way.new.items) networks.new.under) }
    ensures rest { OnOk result (networks.new ≡ record networks.old {
      top = networks.new.top;
      under = networks.new.under;
    }) }
{
    let at = way.len() - 1;
    let last = way[at];
    let split = &nodes[last.node as usize];
    let edge = net.edge(split.i, split.j);
    let part = split.parts[last.next];
    let child = &nodes[x as usize];
    networks.enter(alloc, edge, part, &child.steps)?;
    way[at] = Entered {
        node: last.node,
        next: last.next + 1,
    };
    Ok(())
}

/// Looks at node `x`, and puts it on the way.
fn visit(
    net: &Net,
    nodes: &[Node],
    networks: &Networks,
    way: &mut Vec<Entered>,
    x: u32,
) -> Result<(), TreeFault>
    requires nodes { networks.now.nodes ≡ net.now.nodes }
    requires ready { IsReady networks.now.is_closed net.now.nodes nodes.now }
    requires below { x < length nodes.now }
    requires arrived { IsArrived networks.now.algebra net.now.nodes net.now.words nodes.now
        x networks.now.top (reverse way.old.items) networks.now.under }
    ensures { MatchResult result
        (λ _. IsStanding networks.now.algebra net.now.nodes net.now.words nodes.now (x + 1)
        (reverse way.new.items) (networks.now.top ∷ networks.now.under))
        (λ fault. IsNetworkFault networks.now.algebra net.now.nodes net.now.words nodes.now fault
        ⊎ (fault ≡ TreeFault.Memory)) }
{
    look(net, networks, x, &nodes[x as usize])?;
    let Ok(()) = way.push(Entered { node: x, next: 0 }) else {
        return Err(TreeFault::Memory);
    };
    Ok(())
}

/// Goes on to node `x`: leaves the nodes at the end of the way whose children were all entered, and enters it.
fn go_on(
    alloc: Global,
    net: &Net,
    nodes: &[Node],
    networks: &mut Networks,
    way: &mut Vec<Entered>,
    x: u32,
) -> Result<(), TreeFault>
    requires nodes { networks.old.nodes ≡ net.now.nodes }
    requires ready { IsReady networks.old.is_closed net.now.nodes nodes.now }
    requires below { x < length nodes.now }
    requires standing { IsStanding networks.old.algebra net.now.nodes net.now.words nodes.now
        x (reverse way.old.items) (networks.old.top ∷ networks.old.under) }
    ensures standing { MatchResult result
        (λ _. IsStanding networks.old.algebra net.now.nodes net.now.words nodes.now (x + 1)
        (reverse way.new.items) (networks.new.top ∷ networks.new.under))
        (λ fault. IsNetworkFault networks.old.algebra net.now.nodes net.now.words nodes.now fault
        ⊎ (fault ≡ TreeFault.Memory)) }
    ensures rest { OnOk result (networks.new ≡ record networks.old {
      top = networks.new.top;
      under = networks.new.under;
    }) }
{
    while is_finished(nodes, way) {
        let _last = way.pop();
        networks.leave();
    }
    let Ok(()) = enter_next(alloc, net, nodes, networks, way, x) else {
        return Err(TreeFault::Memory);
    };
    visit(net, nodes, networks, way, x)
}

/// Walks the tree, of which the first node's worked network is the top.
fn walk(alloc: Global, net: &Net, nodes: &[Node], networks: &mut Networks) -> Result<(), TreeFault>
    requires nodes { networks.old.nodes ≡ net.now.nodes }
    requires ready { IsReady networks.old.is_closed net.now.nodes nodes.now }
    requires some { 0 < length nodes.now }
    requires few { length nodes.now < 2 ^ 32 }
    requires arrived { IsArrived networks.old.algebra net.now.nodes net.now.words nodes.now 0
        networks.old.top [] networks.old.under }
    ensures { MatchResult result
        (λ _. IsRefutation networks.old.algebra net.now.nodes net.now.words nodes.now)
        (λ fault. IsNetworkFault networks.old.algebra net.now.nodes net.now.words nodes.now fault
        ⊎ (fault ≡ TreeFault.Memory)) }
{
    let mut way = Vec::new(alloc);
    visit(net, nodes, networks, &mut way, 0)?;
    for x in 1..nodes.len() {
        go_on(alloc, net, nodes, networks, &mut way, x as u32)?;
    }
    Ok(())
}

/// Whether each node closes its network.
fn are_swept(nodes: &[Node]) -> bool
    ensures { IsTrue result → All (λ node. node.steps ≡ sweep) nodes.now }
{
    nodes.iter().all(|node| matches!(node.steps, Steps::Sweep))
}

/// Whether the nodes list so many steps together that tables for them pay.
fn have_many_steps(nodes: &[Node]) -> bool
    ensures { IsTrue result ↔ (MANY ≤ sum_by (λ node. steps_count node.steps) nodes.now) }
{
    let mut left = MANY;
    for node in nodes {
        left = left.saturating_sub(node.steps_count());
    }
    left == 0
}

/// The networks with that of the first node.
fn first_networks<C: Compose>(
    alloc: Global,
    net: &Net,
    c: &C,
    nodes: &[Node],
) -> Result<Networks, Memory>
    requires network { IsNetwork (C.algebra c.now) net.now.nodes net.now.words }
    requires some { 0 < length nodes.now }
    requires formed { AreFormed net.now.nodes nodes.now }
    ensures first { IfOk result
        (IsFirstStack (C.algebra c.now) net.now.nodes net.now.words nodes.now) }
{
    if are_swept(nodes) {
        return Networks::closed(alloc, net, c);
    }
    let first = &nodes[0];
    Networks::stepped(alloc, net, c, &first.steps, have_many_steps(nodes))
}

/// The first fault of the networks of a tree, if there is one.
pub(crate) fn check_networks<C: Compose>(
    alloc: Global,
    net: &Net,
    c: &C,
    nodes: &[Node],
) -> Result<(), TreeFault>
    requires network { IsNetwork (C.algebra c.now) net.now.nodes net.now.words }
    requires some { 0 < length nodes.now }
    requires few { length nodes.now < 2 ^ 32 }
    requires formed { AreFormed net.now.nodes nodes.now }
    ensures { MatchResult result
        (λ _. IsRefutation (C.algebra c.now) net.now.nodes net.now.words nodes.now)
        (λ fault. IsNetworkFault (C.algebra c.now) net.now.nodes net.now.words nodes.now fault
        ⊎ (fault ≡ TreeFault.Memory)) }
{
    let Ok(mut networks) = first_networks(alloc, net, c, nodes) else {
        return Err(TreeFault::Memory);
    };
    walk(alloc, net, nodes, &mut networks)
}
