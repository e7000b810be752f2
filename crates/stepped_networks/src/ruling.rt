//! The ruled steps of a network.
//!
//! All steps of narrowing stand in a list, in their order. It is gone through again and again, and each step that makes
//! a set less is made, until one whole pass makes none. Then the network is closed, since each set is within the
//! composition along every third node. It ends, since each step that is made leaves fewer base relations. A pass costs
//! a composition for each step of the list.

ghost use Rattle.std.specs.Prelude.{◌≡◌, ◌<◌, ◌++◌, ◌∷◌, [], All, IfOk, OnOk, IsTrue, Contains, ◌↔◌, true, false};
ghost use Rattle.network_words.specs.Edge.{edge_between, IsProperTriple};
ghost use Rattle.network_words.specs.Network.{IsNetwork};
ghost use Rattle.split_trees.specs.Refutes.{after_step, after_steps};
ghost use Rattle.stepped_networks.specs.Networks.{KeepsTrail};
ghost use Rattle.stepped_networks.specs.RuledSteps.{steps_below, steps_along, steps_of_edge, steps_from};
ghost use Rattle.stepped_networks.specs.RuledSteps.{all_steps, narrows};
ghost use Rattle.stepped_networks.specs.Passes.{GoesThrough, EndsAmong, AreStepsOf};

use crate::rows::Rows;
use crate::stepped::{Replaced, along, replace};
use calculus_table::Memory;
use compose_fast::{Fast, first_zero};
use network_words::{Net, edge_between};
use split_trees::Step;
use std::alloc::Global;

/// All steps of a network with so many nodes, in their order.
pub fn all_steps(alloc: Global, nodes: u32) -> Result<Vec<Step>, Memory>
    ensures { IfOk result (λ steps. steps.items ≡ all_steps nodes) }
{
    let mut steps = Vec::new(alloc);
    for i in 0..nodes {
        push_steps_from(&mut steps, nodes, i)?;
    }
    Ok(steps)
}

/// Appends the steps of the edges from `i`.
fn push_steps_from(steps: &mut Vec<Step>, nodes: u32, i: u32) -> Result<(), Memory>
    ensures { OnOk result (steps.new.items ≡ steps.old.items ++ steps_from nodes i) }
{
    for k in 0..nodes {
        push_steps_of_edge(steps, nodes, i, k)?;
    }
    Ok(())
}

/// Appends the steps of the edge from `i` to `k`, if there is one.
fn push_steps_of_edge(steps: &mut Vec<Step>, nodes: u32, i: u32, k: u32) -> Result<(), Memory>
    ensures { OnOk result (steps.new.items ≡ steps.old.items ++ steps_of_edge nodes i k) }
{
    if i < k {
        push_steps(steps, nodes, i, k)?;
    }
    Ok(())
}

/// Appends the steps for the set of (i, k).
fn push_steps(steps: &mut Vec<Step>, nodes: u32, i: u32, k: u32) -> Result<(), Memory>
    ensures { OnOk result
        (steps.new.items ≡ steps.old.items ++ steps_below (steps_along i k) nodes) }
{
    for j in 0..nodes {
        push_step(steps, i, k, j)?;
    }
    Ok(())
}

/// Appends the step for the set of (i, k) along `j`, where `j` is a third node.
fn push_step(steps: &mut Vec<Step>, i: u32, k: u32, j: u32) -> Result<(), Memory>
    ensures { OnOk result (steps.new.items ≡ steps.old.items ++ steps_along i k j) }
{
    if j == i || j == k {
        return Ok(());
    }
    let Ok(()) = steps.push(Step { i, j, k }) else {
        return Err(Memory);
    };
    Ok(())
}

/// Takes a step, if it makes a set less. Says whether it does.
fn narrow(
    net: &mut Net,
    trail: &mut Vec<Replaced>,
    rows: &Rows,
    c: &Fast,
    step: &Step,
) -> Result<bool, Memory>
    requires network { IsNetwork c.now net.old.nodes net.old.words }
    requires rows { rows.now ≡ net.old.nodes }
    requires proper { IsProperTriple net.old.nodes step.now.i step.now.j step.now.k }
    ensures made { IfOk result (λ made. made ≡ narrows c.now net.old.nodes net.old.words step.now) }
    ensures words { OnOk result (net.new ≡ record net.old {
      words = after_step c.now net.old.nodes net.old.words step.now;
    }) }
    ensures trail { OnOk result
        (KeepsTrail net.old.nodes net.old.words trail.old.items net.new.words trail.new.items) }
    ensures nodes { net.new.nodes ≡ net.old.nodes }
{
    let composed = along(net, rows, c, step);
    let edge = rows.edge(step.i, step.k);
    let set = net.word(edge).meet(composed);
    if set == net.word(edge) {
        return Ok(false);
    }
    replace(net, trail, edge, set)?;
    Ok(true)
}

/// Looks at a step, and takes it if it makes a set less. With `cut`, says whether it leaves an empty set.
fn look_at(
    net: &mut Net,
    trail: &mut Vec<Replaced>,
    rows: &Rows,
    c: &Fast,
    cut: bool,
    step: &Step,
    made: &mut Vec<Step>,
) -> Result<bool, Memory>
    requires network { IsNetwork c.now net.old.nodes net.old.words }
    requires rows { rows.now ≡ net.old.nodes }
    requires proper { IsProperTriple net.old.nodes step.now.i step.now.j step.now.k }
    ensures going { IfOk result (λ ended. ended ≡ false → GoesThrough c.now net.old.nodes cut
        (step.now ∷ []) made.old.items net.old.words made.new.items net.new.words) }
    ensures ended { IfOk result (λ ended. ended ≡ true →
        (cut ≡ true) × EndsAmong c.now net.old.nodes cut
        (step.now ∷ []) made.old.items net.old.words made.new.items net.new.words) }
    ensures network { OnOk result (IsNetwork c.now net.old.nodes net.new.words) }
    ensures rest { OnOk result (net.new ≡ record net.old { words = net.new.words }) }
    ensures trail { OnOk result
        (KeepsTrail net.old.nodes net.old.words trail.old.items net.new.words trail.new.items) }
    ensures nodes { net.new.nodes ≡ net.old.nodes }
{
    if !narrow(net, trail, rows, c, step)? {
        return Ok(false);
    }
    let Ok(()) = made.push(*step) else {
        return Err(Memory);
    };
    let edge = edge_between(net.nodes(), step.i, step.k);
    Ok(cut && net.word(edge).is_empty())
}

/// Goes through all steps once. With `cut`, up to the first that leaves an empty set: says whether there is one.
fn pass(
    net: &mut Net,
    trail: &mut Vec<Replaced>,
    rows: &Rows,
    c: &Fast,
    cut: bool,
    all: &[Step],
    made: &mut Vec<Step>,
) -> Result<bool, Memory>
    requires network { IsNetwork c.now net.old.nodes net.old.words }
    requires rows { rows.now ≡ net.old.nodes }
    requires proper { All (λ step. IsProperTriple net.old.nodes step.i step.j step.k) all.now }
    ensures going { IfOk result (λ ended. ended ≡ false → GoesThrough c.now net.old.nodes cut
        all.now made.old.items net.old.words made.new.items net.new.words) }
    ensures ended { IfOk result (λ ended. ended ≡ true →
        (cut ≡ true) × EndsAmong c.now net.old.nodes cut
        all.now made.old.items net.old.words made.new.items net.new.words) }
    ensures network { OnOk result (IsNetwork c.now net.old.nodes net.new.words) }
    ensures rest { OnOk result (net.new ≡ record net.old { words = net.new.words }) }
    ensures trail { OnOk result
        (KeepsTrail net.old.nodes net.old.words trail.old.items net.new.words trail.new.items) }
    ensures nodes { net.new.nodes ≡ net.old.nodes }
{
    for step in all {
        if look_at(net, trail, rows, c, cut, step, made)? {
            return Ok(true);
        }
    }
    Ok(false)
}

/// Whether a set is empty.
fn has_empty_set(net: &Net) -> bool
    ensures { IsTrue result ↔ Contains net.now.words 0 }
{
    first_zero(net.words()).is_some()
}

/// Takes the ruled steps of the network, with `cut` up to the first that leaves an empty set. Returns them.
pub(crate) fn rule(
    alloc: Global,
    net: &mut Net,
    trail: &mut Vec<Replaced>,
    rows: &Rows,
    c: &Fast,
    cut: bool,
    all: &[Step],
) -> Result<Vec<Step>, Memory>
    requires network { IsNetwork c.now net.old.nodes net.old.words }
    requires rows { rows.now ≡ net.old.nodes }
    requires all { all.now ≡ all_steps net.old.nodes }
    ensures steps { IfOk result (λ steps.
        AreStepsOf cut c.now net.old.nodes net.old.words steps.items) }
    ensures words { IfOk result (λ steps. net.new ≡ record net.old {
      words = after_steps c.now net.old.nodes net.old.words steps.items;
    }) }
    ensures trail { OnOk result
        (KeepsTrail net.old.nodes net.old.words trail.old.items net.new.words trail.new.items) }
    ensures nodes { net.new.nodes ≡ net.old.nodes }
{
    let mut made = Vec::new(alloc);
    if cut && has_empty_set(net) {
        return Ok(made);
    }
    loop {
        let before = made.len();
        if pass(net, trail, rows, c, cut, all, &mut made)? {
            return Ok(made);
        }
        if made.len() == before {
            return Ok(made);
        }
    }
}
