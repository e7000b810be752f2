//! The form of a tree: the first fault of a node's form or steps.
//!
//! A list of nodes is the preorder list of one tree where each split has the children that preorder gives it, and no
//! node comes after those under node 0. The node after the last one under a node is found for each node, from the last
//! to the first: it is the next one for a leaf, and for a split one goes from child to child. So a node is looked at
//! once as a child and once as a node, and no call is made within a call.

ghost use Rattle.std.specs.Prelude.{◌≡◌, ◌+◌, ◌<◌, ◌↔◌, ◌^◌, ◌⊎◌, IsTrue, length, All};
ghost use Rattle.std.specs.Prelude.{IfOk, MatchOption, MatchResult};
ghost use Rattle.network_words.specs.Edge.{IsProperTriple};
ghost use Rattle.split_trees.specs.Tree.{AreSteps, AreFewSteps};
ghost use Rattle.refutation.specs.TreeFault.{child_number, IsSplitAt, HasForm};
ghost use Rattle.refutation.specs.TreeFault.{HasNumbers, IsFirstBadStep, HasBadStep, AreFormed, IsFormFault};
ghost use Rattle.refutation.specs.Ends.{AreEnds};

use crate::fault::TreeFault;
use calculus_table::Memory;
use split_trees::{Node, Step, Steps};
use std::alloc::Global;

/// The number after the nodes of so many children of node `x`.
fn after_children(ends: &[u32], nodes: &[Node], x: u32, count: usize) -> u32
    requires few { length nodes.now < 2 ^ 32 }
    requires below { x < length nodes.now }
    requires ends { AreEnds nodes.now (x + 1) ends.now }
    ensures { result ≡ child_number nodes.now x count }
{
    let mut next = x + 1;
    for _ in 0..count {
        next = ends[next as usize];
    }
    next
}

/// The number after the last node under each node, and after the last node of all.
fn ends_of(alloc: Global, nodes: &[Node]) -> Result<Vec<u32>, Memory>
    requires { length nodes.now < 2 ^ 32 }
    ensures { IfOk result (λ ends. AreEnds nodes.now 0 ends.items) }
{
    let Ok(mut ends) = vec![in alloc; nodes.len() as u32; nodes.len() + 1] else {
        return Err(Memory);
    };
    for x in (0..nodes.len()).rev() {
        let end = after_children(&ends, nodes, x as u32, nodes[x].arity());
        ends[x] = end;
    }
    Ok(ends)
}

/// Whether these numbers are those of the children of node `x` in preorder, and there are such nodes.
fn has_numbers(ends: &[u32], nodes: &[Node], x: u32, children: &[u32]) -> bool
    requires few { length nodes.now < 2 ^ 32 }
    requires below { x < length nodes.now }
    requires ends { AreEnds nodes.now 0 ends.now }
    ensures { IsTrue result ↔ HasNumbers nodes.now x children.now }
{
    let mut next = x + 1;
    for child in children {
        if *child != next || next as usize == nodes.len() {
            return false;
        }
        next = ends[next as usize];
    }
    true
}

/// Whether node `x` is a split of the right form, in a tree for so many nodes of a network.
fn is_split_at(size: u32, nodes: &[Node], ends: &[u32], x: u32, node: &Node) -> bool
    requires few { length nodes.now < 2 ^ 32 }
    requires below { x < length nodes.now }
    requires ends { AreEnds nodes.now 0 ends.now }
    ensures { IsTrue result ↔ IsSplitAt size nodes.now x node.now }
{
    node.i < node.j
        && node.j < size
        && node.parts.len() == node.children.len()
        && !node.children.is_empty()
        && has_numbers(ends, nodes, x, &node.children)
}

/// Whether node `x` has the form of a node of a tree.
fn has_form(size: u32, nodes: &[Node], ends: &[u32], x: u32, node: &Node) -> bool
    requires few { length nodes.now < 2 ^ 32 }
    requires below { x < length nodes.now }
    requires ends { AreEnds nodes.now 0 ends.now }
    ensures { IsTrue result ↔ HasForm size nodes.now x node.now }
{
    x < ends[0] && (!node.is_split() || is_split_at(size, nodes, ends, x, node))
}

/// Whether the step is of three different nodes. The tests are joined without branches, so that those of many steps are
/// made together.
#[inline(always)]
fn is_proper(size: u32, step: &Step) -> bool
    ensures { IsTrue result ↔ IsProperTriple size step.now.i step.now.j step.now.k }
{
    (step.i < size)
        & (step.j < size)
        & (step.k < size)
        & (step.i != step.j)
        & (step.j != step.k)
        & (step.i != step.k)
}

/// Whether each step is of three different nodes.
fn are_proper(size: u32, steps: &[Step]) -> bool
    ensures { IsTrue result ↔ All (λ step. IsProperTriple size step.i step.j step.k) steps.now }
{
    let mut proper = true;
    for step in steps {
        proper &= is_proper(size, step);
    }
    proper
}

/// The first step that isn't of three different nodes.
fn first_bad_step(size: u32, steps: &[Step]) -> Option<u32>
    requires { length steps.now < 2 ^ 32 }
    ensures { MatchOption result
        (All (λ step. IsProperTriple size step.i step.j step.k) steps.now)
        (IsFirstBadStep size steps.now) }
{
    if are_proper(size, steps) {
        return None;
    }
    for s in 0..steps.len() {
        if !is_proper(size, &steps[s]) {
            return Some(s as u32);
        }
    }
    None
}

/// The first step of the node that isn't of three different nodes.
fn bad_step_of(size: u32, node: &Node) -> Option<u32>
    requires { AreFewSteps node.now.steps }
    ensures { MatchOption result (AreSteps size node.now.steps) (HasBadStep size node.now) }
{
    match &node.steps {
        Steps::Sweep => None,
        Steps::List(steps) => first_bad_step(size, steps),
    }
}

/// The first fault of a node's form or steps, in a tree for so many nodes of a network.
pub(crate) fn check_forms(alloc: Global, size: u32, nodes: &[Node]) -> Result<(), TreeFault>
    requires few { length nodes.now < 2 ^ 32 }
    requires steps { All (λ node. AreFewSteps node.steps) nodes.now }
    requires some { 0 < length nodes.now }
    ensures { MatchResult result (λ _. AreFormed size nodes.now)
        (λ fault. IsFormFault size nodes.now fault ⊎ (fault ≡ TreeFault.Memory)) }
{
    let Ok(ends) = ends_of(alloc, nodes) else {
        return Err(TreeFault::Memory);
    };
    for x in 0..nodes.len() {
        let node = &nodes[x];
        let number = x as u32;
        if !has_form(size, nodes, &ends, number, node) {
            return Err(TreeFault::BadTree { node: number });
        }
        if let Some(step) = bad_step_of(size, node) {
            return Err(TreeFault::BadStep { node: number, step });
        }
    }
    Ok(())
}
