//! Networks above one another, each worked from the one under it.
//!
//! The top alone is stored. What each network replaced is kept, so that the one under it is had back by undoing that,
//! the last first. A step costs one composition, and room for what the steps of a node replace is taken once. A network
//! that is closed is closed from scratch.

ghost use Rattle.std.specs.Prelude.{◌≡◌, ◌+◌, ◌<◌, All, OnOk, length, slice_set, vec_len, vec_capacity};
ghost use Rattle.calculus_table.specs.Rel.{IsWithin};
ghost use Rattle.calculus_table.specs.Composition.{full_of};
ghost use Rattle.network_words.specs.Edge.{edge_count, edge_between, IsProperPair, IsProperTriple};
ghost use Rattle.network_words.specs.Network.{IsNetwork, relation_between};
ghost use Rattle.split_trees.specs.Tree.{AreSteps};
ghost use Rattle.split_trees.specs.Steps.{node_steps};
ghost use Rattle.split_trees.specs.Refutes.{after_step, after_steps, met_at, IsWorked};
ghost use Rattle.stepped_networks.specs.Networks.{restored, KeepsTrail};

use crate::compositions::{Composer, Compositions};
use crate::rows::Rows;
use crate::ruling::rule;
use calculus_table::{Compose, Memory, Rel, lawful};
use closure_seq::close;
use compose_fast::first_zero;
use network_words::{Net, oriented};
use split_trees::{Step, Steps};
use std::alloc::Global;
use std::marker::Model;

/// A set that was replaced.
#[derive(Clone, Copy, Debug, PartialEq, Eq)]
pub(crate) struct Replaced {
    /// The number of the edge.
    pub edge: u32,
    /// The set that it had before.
    pub old: Rel,
}

/// Replaces the set of an edge.
#[inline(always)]
pub(crate) fn replace(
    net: &mut Net,
    trail: &mut Vec<Replaced>,
    edge: u32,
    rel: Rel,
) -> Result<(), Memory>
    requires below { edge < edge_count net.old.nodes }
    ensures words { OnOk result
        (net.new ≡ record net.old { words = slice_set net.old.words edge rel }) }
    ensures trail { OnOk result
        (KeepsTrail net.old.nodes net.old.words trail.old.items net.new.words trail.new.items) }
    ensures nodes { net.new.nodes ≡ net.old.nodes }
{
    let old = net.word(edge);
    let Ok(()) = trail.push(Replaced { edge, old }) else {
        return Err(Memory);
    };
    net.set(edge, rel);
    Ok(())
}

/// The relation of node `i` to node `j`. The converse is had whatever the order of the nodes, since the steps of a
/// tree have them in either order, and a branch that can't be foretold costs more than a look-up.
#[inline(always)]
fn between<C: Compose>(net: &Net, rows: &Rows, c: &C, i: u32, j: u32) -> Rel
    requires network { IsNetwork (C.algebra c.now) net.now.nodes net.now.words }
    requires rows { rows.now ≡ net.now.nodes }
    requires proper { IsProperPair net.now.nodes i j }
    ensures value { result ≡ relation_between (C.algebra c.now) net.now.nodes net.now.words i j }
    ensures within { IsWithin result (full_of (C.algebra c.now)) }
{
    let set = net.word(rows.edge(i, j));
    let converse = c.converse(set);
    if i < j { set } else { converse }
}

/// The composition along a step, as its edge stores it.
#[inline(always)]
pub(crate) fn along<C: Compose>(net: &Net, rows: &Rows, c: &C, step: &Step) -> Rel
    requires network { IsNetwork (C.algebra c.now) net.now.nodes net.now.words }
    requires rows { rows.now ≡ net.now.nodes }
    requires proper { IsProperTriple net.now.nodes step.now.i step.now.j step.now.k }
    ensures { after_step (C.algebra c.now) net.now.nodes net.now.words step.now
        ≡ met_at net.now.words (edge_between net.now.nodes step.now.i step.now.k) result }
{
    lawful(c);
    let first = between(net, rows, c, step.i, step.j);
    let second = between(net, rows, c, step.j, step.k);
    oriented(c, step.i, step.k, c.compose(first, second))
}

/// Replaces the set of an edge, where the trail has room for one more.
#[inline(always)]
fn replace_reserved(net: &mut Net, trail: &mut Vec<Replaced>, edge: u32, rel: Rel)
    requires below { edge < edge_count net.old.nodes }
    requires room { vec_len trail.old < vec_capacity trail.old }
    ensures words { net.new ≡ record net.old { words = slice_set net.old.words edge rel } }
    ensures trail { KeepsTrail net.old.nodes net.old.words trail.old.items net.new.words trail.new.items }
    ensures nodes { net.new.nodes ≡ net.old.nodes }
    ensures len { vec_len trail.new ≡ vec_len trail.old + 1 }
    ensures capacity { vec_capacity trail.new ≡ vec_capacity trail.old }
{
    let old = net.word(edge);
    trail.push_reserved(Replaced { edge, old });
    net.set(edge, rel);
}

/// Takes a step, where the trail has room for one more.
#[inline(always)]
fn take_step<C: Compose>(net: &mut Net, trail: &mut Vec<Replaced>, rows: &Rows, c: &C, step: &Step)
    requires network { IsNetwork (C.algebra c.now) net.old.nodes net.old.words }
    requires rows { rows.now ≡ net.old.nodes }
    requires proper { IsProperTriple net.old.nodes step.now.i step.now.j step.now.k }
    requires room { vec_len trail.old < vec_capacity trail.old }
    ensures words { net.new ≡ record net.old {
      words = after_step (C.algebra c.now) net.old.nodes net.old.words step.now;
    } }
    ensures trail { KeepsTrail net.old.nodes net.old.words trail.old.items net.new.words trail.new.items }
    ensures nodes { net.new.nodes ≡ net.old.nodes }
    ensures len { vec_len trail.new ≡ vec_len trail.old + 1 }
    ensures capacity { vec_capacity trail.new ≡ vec_capacity trail.old }
{
    let composed = along(net, rows, c, step);
    let edge = rows.edge(step.i, step.k);
    let set = net.word(edge).meet(composed);
    replace_reserved(net, trail, edge, set);
}

/// Takes the steps, the first one first. Room for what they replace is taken once.
fn take_steps<C: Compose>(
    net: &mut Net,
    trail: &mut Vec<Replaced>,
    rows: &Rows,
    c: &C,
    steps: &[Step],
) -> Result<(), Memory>
    requires network { IsNetwork (C.algebra c.now) net.old.nodes net.old.words }
    requires rows { rows.now ≡ net.old.nodes }
    requires proper { All (λ step. IsProperTriple net.old.nodes step.i step.j step.k) steps.now }
    ensures words { OnOk result (net.new ≡ record net.old {
      words = after_steps (C.algebra c.now) net.old.nodes net.old.words steps.now;
    }) }
    ensures trail { OnOk result
        (KeepsTrail net.old.nodes net.old.words trail.old.items net.new.words trail.new.items) }
    ensures nodes { net.new.nodes ≡ net.old.nodes }
{
    let Ok(()) = trail.reserve(steps.len()) else {
        return Err(Memory);
    };
    for step in steps {
        take_step(net, trail, rows, c, step);
    }
    Ok(())
}

/// Replaces the sets that differ from those of another network.
fn replace_all(net: &mut Net, trail: &mut Vec<Replaced>, other: &Net) -> Result<(), Memory>
    requires nodes { other.now.nodes ≡ net.old.nodes }
    requires sized { length net.old.words ≡ edge_count net.old.nodes }
    requires lengths { length other.now.words ≡ length net.old.words }
    ensures words { OnOk result (net.new ≡ record net.old { words = other.now.words }) }
    ensures trail { OnOk result
        (KeepsTrail net.old.nodes net.old.words trail.old.items net.new.words trail.new.items) }
    ensures nodes { net.new.nodes ≡ net.old.nodes }
{
    let sets = other.words();
    for edge in 0..net.edges() {
        let set = sets[edge as usize];
        if set != net.words()[edge as usize] {
            replace(net, trail, edge, Rel::of(set))?;
        }
    }
    Ok(())
}

/// Works the network: closes it, or takes the steps.
fn work(
    alloc: Global,
    net: &mut Net,
    trail: &mut Vec<Replaced>,
    rows: &Rows,
    c: &Compositions,
    steps: &Steps,
) -> Result<(), Memory>
    requires network { IsNetwork c.now net.old.nodes net.old.words }
    requires rows { rows.now ≡ net.old.nodes }
    requires steps { AreSteps net.old.nodes (node_steps steps.now) }
    ensures worked { OnOk result
        (IsWorked c.now net.old.nodes (node_steps steps.now) net.old.words net.new.words) }
    ensures rest { OnOk result (net.new ≡ record net.old { words = net.new.words }) }
    ensures trail { OnOk result
        (KeepsTrail net.old.nodes net.old.words trail.old.items net.new.words trail.new.items) }
    ensures nodes { net.new.nodes ≡ net.old.nodes }
{
    match steps {
        Steps::List(steps) => match c.composer() {
            Composer::Few(nibbles) => take_steps(net, trail, rows, nibbles, steps),
            Composer::Many(fast) => take_steps(net, trail, rows, fast, steps),
        },
        Steps::Sweep => {
            let mut closed = net.copy()?;
            close(alloc, &mut closed, c.calculus())?;
            replace_all(net, trail, &closed)
        }
    }
}

/// Undoes what was replaced, the last first.
fn undo(net: &mut Net, trail: Vec<Replaced>)
    requires { All (λ r. r.edge < edge_count net.old.nodes) trail.items }
    ensures { net.new ≡ record net.old { words = restored net.old.words trail.items } }
{
    let mut trail = trail;
    while let Some(last) = trail.pop() {
        net.set(last.edge, last.old);
    }
}

/// Networks above one another, each worked from the one under it.
#[derive(Debug, Drop)]
pub struct Stepped {
    calculus: Compositions,
    rows: Rows,
    net: Net,
    trails: Vec<Vec<Replaced>>,
}

impl Model for Stepped {
    ghost use Rattle.std.specs.Prelude.{◌≡◌, ◌<◌, false, map, reverse, All};
    ghost use Rattle.network_words.specs.Edge.{edge_count};
    ghost use Rattle.stepped_networks.specs.Networks.{NetworkStack, networks_under};

    ghost Value = { NetworkStack };

    ghost view = { λ a. record {
      algebra = a.calculus;
      nodes = a.net.nodes;
      is_closed = false;
      top = a.net.words;
      under = networks_under a.net.words (map (λ v. v.items) (reverse a.trails.items));
    } };

    ghost invariant = { λ a. (a.rows ≡ a.net.nodes)
        × All (λ v. All (λ r. r.edge < edge_count a.net.nodes) v.items) a.trails.items };
}

impl Stepped {
    ghost use Rattle.std.specs.Prelude.{◌≡◌, ◌<◌, ◌↔◌, ◌∷◌, List, IfOk, OnOk, IsTrue, Contains, slice_index, length};
    ghost use Rattle.std.specs.Prelude.{false};
    ghost use Rattle.network_words.specs.Edge.{edge_count};
    ghost use Rattle.network_words.specs.Network.{IsNetwork};
    ghost use Rattle.split_trees.specs.Tree.{AreSteps, listed};
    ghost use Rattle.split_trees.specs.Steps.{node_steps};
    ghost use Rattle.split_trees.specs.Refutes.{IsWorked, met_at};
    ghost use Rattle.stepped_networks.specs.RuledSteps.{all_steps};
    ghost use Rattle.stepped_networks.specs.Passes.{AreStepsOf};
    ghost use Rattle.stepped_networks.specs.Networks.{NetworkStack, IsStackOf};

    /// The one network that is worked from a given one. Whether many steps will be taken makes it faster alone.
    pub fn new<C: Compose>(
        alloc: Global,
        net: &Net,
        c: &C,
        steps: &Steps,
        many: bool,
    ) -> Result<Stepped, Memory>
        requires network { IsNetwork (C.algebra c.now) net.now.nodes net.now.words }
        requires steps { AreSteps net.now.nodes (node_steps steps.now) }
        ensures stack { IfOk result
            (IsStackOf (C.algebra c.now) net.now.nodes net.now.words (node_steps steps.now)) }
        ensures closed { IfOk result (λ stack. stack.is_closed ≡ false) }
    {
        let calculus = Compositions::of(alloc, c, many)?;
        let rows = Rows::of(alloc, net.nodes())?;
        let mut net = net.copy()?;
        let mut trail = Vec::new(alloc);
        work(alloc, &mut net, &mut trail, &rows, &calculus, steps)?;
        Ok(Stepped {
            calculus,
            rows,
            net,
            trails: Vec::new(alloc),
        })
    }

    /// The one network that the ruled steps lead to from a given one, with `cut` up to the first that leaves an empty
    /// set. Returns the steps too.
    pub fn new_ruled<C: Compose>(
        alloc: Global,
        net: &Net,
        c: &C,
        cut: bool,
        all: &[Step],
    ) -> Result<(Stepped, Vec<Step>), Memory>
        requires network { IsNetwork (C.algebra c.now) net.now.nodes net.now.words }
        requires all { all.now ≡ all_steps net.now.nodes }
        ensures stack { IfOk result (λ ruled.
            IsStackOf (C.algebra c.now) net.now.nodes net.now.words (listed ruled.1.items) ruled.0) }
        ensures steps { IfOk result (λ ruled.
            AreStepsOf cut (C.algebra c.now) net.now.nodes net.now.words ruled.1.items) }
    {
        let calculus = Compositions::of(alloc, c, false)?;
        let rows = Rows::of(alloc, net.nodes())?;
        let mut net = net.copy()?;
        let mut trail = Vec::new(alloc);
        let steps = rule(
            alloc,
            &mut net,
            &mut trail,
            &rows,
            calculus.calculus(),
            cut,
            all,
        )?;
        let stepped = Stepped {
            calculus,
            rows,
            net,
            trails: Vec::new(alloc),
        };
        Ok((stepped, steps))
    }

    /// The set of an edge of the top.
    pub fn word(&self, edge: u32) -> Rel
        requires { edge < edge_count self.now.nodes }
        ensures { result ≡ slice_index self.now.top edge }
    {
        self.net.word(edge)
    }

    /// Whether the set that was replaced last is empty now.
    fn is_last_empty(&self) -> bool
        ensures { IsTrue result → Contains self.now.top 0 }
    {
        let Some(trail) = self.trails.last() else {
            return false;
        };
        let Some(last) = trail.last() else {
            return false;
        };
        self.net.words()[last.edge as usize] == 0
    }

    /// Whether the top has an empty set. The one that was replaced last is looked at first, since steps that show that
    /// there is an empty set end with it.
    pub fn is_empty(&self) -> bool
        ensures { IsTrue result ↔ Contains self.now.top 0 }
    {
        self.is_last_empty() || first_zero(self.net.words()).is_some()
    }

    /// Pushes a network: the top with the set of an edge intersected with a part, worked.
    pub fn enter(
        &mut self,
        alloc: Global,
        edge: u32,
        part: Rel,
        steps: &Steps,
    ) -> Result<(), Memory>
        requires below { edge < edge_count self.old.nodes }
        requires network { IsNetwork self.old.algebra self.old.nodes self.old.top }
        requires steps { AreSteps self.old.nodes (node_steps steps.now) }
        ensures worked { OnOk result
            (IsWorked self.old.algebra self.old.nodes (node_steps steps.now)
            (met_at self.old.top edge part) self.new.top) }
        ensures stack { OnOk result (self.new ≡ record self.old {
          top = self.new.top;
          under = self.old.top ∷ self.old.under;
        }) }
    {
        let mut trail = Vec::new(alloc);
        let met = self.net.word(edge).meet(part);
        replace(&mut self.net, &mut trail, edge, met)?;
        work(
            alloc,
            &mut self.net,
            &mut trail,
            &self.rows,
            &self.calculus,
            steps,
        )?;
        let Ok(()) = self.trails.push(trail) else {
            return Err(Memory);
        };
        Ok(())
    }

    /// Pushes a network: the top with the set of an edge intersected with a part, and the ruled steps taken, with `cut`
    /// up to the first that leaves an empty set. Returns the steps.
    pub fn enter_ruled(
        &mut self,
        alloc: Global,
        edge: u32,
        part: Rel,
        cut: bool,
        all: &[Step],
    ) -> Result<Vec<Step>, Memory>
        requires below { edge < edge_count self.old.nodes }
        requires network { IsNetwork self.old.algebra self.old.nodes self.old.top }
        requires all { all.now ≡ all_steps self.old.nodes }
        ensures worked { IfOk result (λ steps.
            IsWorked self.old.algebra self.old.nodes (listed steps.items)
            (met_at self.old.top edge part) self.new.top) }
        ensures steps { IfOk result (λ steps. AreStepsOf cut self.old.algebra self.old.nodes
            (met_at self.old.top edge part) steps.items) }
        ensures stack { OnOk result (self.new ≡ record self.old {
          top = self.new.top;
          under = self.old.top ∷ self.old.under;
        }) }
    {
        let mut trail = Vec::new(alloc);
        let set = self.net.word(edge).meet(part);
        replace(&mut self.net, &mut trail, edge, set)?;
        let steps = rule(
            alloc,
            &mut self.net,
            &mut trail,
            &self.rows,
            self.calculus.calculus(),
            cut,
            all,
        )?;
        let Ok(()) = self.trails.push(trail) else {
            return Err(Memory);
        };
        Ok(steps)
    }

    /// Pops the top.
    pub fn leave(&mut self)
        requires { 0 < length self.old.under }
        ensures { self.old ≡ record self.new {
          top = self.old.top;
          under = self.new.top ∷ self.new.under;
        } }
    {
        if let Some(trail) = self.trails.pop() {
            undo(&mut self.net, trail);
        }
    }
}
