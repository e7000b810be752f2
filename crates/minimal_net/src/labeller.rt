//! Labels without scenarios and trees, one after another over one network.
//!
//! The path of closed networks is made once: its first level is the closed network. The search of a label begins at the
//! level above, the closure with the edge's set narrowed to the base relation, and takes the splits that are ruled. It
//! keeps those that are open, and how many there were, and nothing of the tree: each way through it ends at an empty
//! set, or the search ends there. Afterwards the path goes back to its first level.
//!
//! Over a straight class that is closed, the tree below a network whose sets are all members ends at its least base
//! relations, with as many splits at most as it has edges with several (`laws_of_straight_classes`). So the search ends
//! there as soon as the budget has room for these.
ghost use Rattle.std.specs.Prelude.{◌≡◌, ◌∷◌, ◌++◌, [], ◌+◌, ◌-◌, ◌*◌, ◌^◌, ◌<◌, ◌≤◌, IsTrue, IfOk, OnOk, MatchOption};
ghost use Rattle.std.specs.Prelude.{Contains, length, slice_index};
ghost use Rattle.calculus_table.specs.Rel.{Has};
ghost use Rattle.network_words.specs.Edge.{edge_count};
ghost use Rattle.network_words.specs.Network.{IsNetwork};
ghost use Rattle.network_words.specs.Closure.{IsClosed};
ghost use Rattle.split_search.specs.Candidates.{IsNextEdge};
ghost use Rattle.minimal_net.specs.declared.outcome.Outcome.{Outcome};
ghost use Rattle.minimal_net.specs.declared.outcome.Outcome.TheVariants.{Refuted};
ghost use Rattle.split_search.specs.Straight.{several_count};
ghost use Rattle.minimal_net.specs.Searching.{task_of, task_over, IsTask, IsIdle, IsOutcomeAt, AreLabelsAt};
ghost use Rattle.minimal_net.specs.Searching.{AreLabelsOfShare, SearchesChild, SearchesOn, SearchesWith};
ghost use Rattle.minimal_net.specs.Searching.{CanEndEarly, work_left};

use crate::edge_labels::EdgeLabels;
use crate::open_split::OpenSplit;
use crate::outcome::Outcome;
use calculus_table::{Compose, Memory, Rel};
use closure_seq::ClosedPath;
use network_words::Net;
use split_search::GuidedPath;
use std::alloc::Global;
use tract_classes::Class;

/// A path whose first level is the network that is asked, the budget of each label, and the search of one: its splits
/// that are open, and how many it made.
#[derive(Drop)]
pub(crate) struct Labeller<'a> {
    path: GuidedPath<'a>,
    budget: u32,
    is_straight: bool,
    open_splits: Vec<OpenSplit>,
    count: u32,
}

impl<'a> Labeller<'a> {
    /// A labeller over a closed network.
    pub(crate) fn new<C: Compose>(
        alloc: Global,
        closed: &Net,
        c: &C,
        class: &'a Class,
        budget: u32,
        is_straight: bool,
    ) -> Result<Labeller<'a>, Memory>
        requires network { IsNetwork (C.algebra c.now) closed.now.nodes closed.now.words }
        requires closed { IsClosed (C.algebra c.now) closed.now.nodes closed.now.words }
        ensures task { IfOk result (λ l. task_of l ≡ task_over (C.algebra c.now) closed.now.nodes
            class.now closed.now.words budget is_straight) }
        ensures idle { IfOk result IsIdle }
    {
        let levels = ClosedPath::new(alloc, closed, c)?;
        let path = GuidedPath::new(alloc, levels, class, c.size())?;
        Ok(Labeller {
            path,
            budget,
            is_straight,
            open_splits: Vec::new(alloc),
            count: 0,
        })
    }

    /// The labels of the edges `first`, `first + step` and so on.
    pub(crate) fn share(
        &mut self,
        alloc: Global,
        first: usize,
        step: usize,
    ) -> Result<Vec<EdgeLabels>, Memory>
        requires task { IsTask (task_of self.old) }
        requires idle { IsIdle self.old }
        requires first { first < 2 ^ 32 }
        requires step { (0 < step) × (step < 2 ^ 32) }
        ensures { IfOk result (λ labels. AreLabelsOfShare (task_of self.old) first step labels.items) }
    {
        let edges = self.path.edges() as usize;
        let mut labels = Vec::new(alloc);
        let mut edge = first;
        while edge < edges {
            let found = self.edge_labels(alloc, edge as u32)?;
            let Ok(()) = labels.push(found) else {
                return Err(Memory);
            };
            edge += step;
        }
        Ok(labels)
    }

    /// The labels of the base relations of an edge's set.
    pub(crate) fn edge_labels(&mut self, alloc: Global, edge: u32) -> Result<EdgeLabels, Memory>
        requires task { IsTask (task_of self.old) }
        requires idle { IsIdle self.old }
        requires edge { edge < edge_count self.old.path.nodes }
        ensures labels { IfOk result (AreLabelsAt (task_of self.old) edge) }
        ensures task { task_of self.new ≡ task_of self.old }
        ensures idle { IsIdle self.new }
    {
        let set = self.path.word(edge);
        let mut labels = EdgeLabels::none();
        for base in 0..self.path.size() {
            if set.has(base) {
                labels.put(base, self.outcome(alloc, edge, base)?);
            }
        }
        Ok(labels)
    }

    /// The outcome of a base relation of an edge's set.
    fn outcome(&mut self, alloc: Global, edge: u32, base: u32) -> Result<Outcome, Memory>
        requires task { IsTask (task_of self.old) }
        requires idle { IsIdle self.old }
        requires edge { edge < edge_count self.old.path.nodes }
        requires base { Has (slice_index self.old.path.top edge) base }
        ensures outcome { IfOk result (IsOutcomeAt (task_of self.old) edge base) }
        ensures task { task_of self.new ≡ task_of self.old }
        ensures idle { IsIdle self.new }
    {
        self.path.narrow(edge, Rel::single(base))?;
        let found = self.search(alloc);
        self.stop();
        Ok(found?.unwrap_or(Outcome::Refuted))
    }

    /// Makes steps until the search ends; none where each way through the tree ends at an empty set.
    fn search(&mut self, alloc: Global) -> Result<Option<Outcome>, Memory>
        requires task { IsTask (task_of self.old) }
        requires child { (o : Outcome) × SearchesChild self.old o }
        ensures task { task_of self.new ≡ task_of self.old }
        ensures found { (o : Outcome) → SearchesChild self.old o → IfOk result (λ found.
            MatchOption found (o ≡ Refuted) (λ outcome. o ≡ outcome)) }
    {
        let mut found = self.visit(alloc)?;
        while found.is_none() {
            let Some(split) = self.open_splits.pop() else {
                return Ok(None);
            };
            found = self.go_on(alloc, split)?;
        }
        Ok(found)
    }

    /// Goes on with the last open split: leaves its network if each child was looked at, else goes to the next child.
    fn go_on(&mut self, alloc: Global, mut split: OpenSplit) -> Result<Option<Outcome>, Memory>
        requires task { IsTask (task_of self.old) }
        requires between { (o : Outcome) × SearchesWith self.old split o }
        ensures task { task_of self.new ≡ task_of self.old }
        ensures found { (o : Outcome) → SearchesWith self.old split o → IfOk result (λ found.
            MatchOption found (SearchesOn self.new o) (λ outcome. o ≡ outcome)) }
        ensures less { OnOk result (work_left self.new < work_left self.old + (length split.parts.items - split.next + 1)) }
    {
        let edge = split.edge;
        let Some(part) = split.next_part() else {
            self.path.leave();
            return Ok(None);
        };
        let Ok(()) = self.open_splits.push(split) else {
            return Err(Memory);
        };
        self.path.narrow(edge, part)?;
        self.visit(alloc)
    }

    /// Looks at the network on top of the path, which is that of a child.
    fn visit(&mut self, alloc: Global) -> Result<Option<Outcome>, Memory>
        requires task { IsTask (task_of self.old) }
        requires child { (o : Outcome) × SearchesChild self.old o }
        ensures task { task_of self.new ≡ task_of self.old }
        ensures found { (o : Outcome) → SearchesChild self.old o → IfOk result (λ found.
            MatchOption found (SearchesOn self.new o) (λ outcome. o ≡ outcome)) }
        ensures less { OnOk result (work_left self.new ≤ work_left self.old) }
    {
        if self.path.is_empty() {
            self.path.leave();
            return Ok(None);
        }
        if self.can_end_early() {
            return Ok(Some(Outcome::Held));
        }
        let Some(edge) = self.path.next_edge() else {
            return Ok(Some(Outcome::Held));
        };
        if self.count >= self.budget {
            return Ok(Some(Outcome::Open));
        }
        self.split(alloc, edge)?;
        Ok(None)
    }

    /// Whether the tree of the top is known to end at its least base relations, within the budget.
    fn can_end_early(&self) -> bool
        requires full { ¬ Contains self.now.path.top 0 }
        requires network { length self.now.path.top ≡ edge_count self.now.path.nodes }
        requires count { self.now.count ≤ self.now.budget }
        ensures { IsTrue result → CanEndEarly self.now }
    {
        if !self.is_straight || !self.path.is_over_class() {
            return false;
        }
        several(&self.path) <= self.budget - self.count
    }

    /// Splits the set of an edge.
    fn split(&mut self, alloc: Global, edge: u32) -> Result<(), Memory>
        requires task { IsTask (task_of self.old) }
        requires child { (o : Outcome) × SearchesChild self.old o }
        requires not_empty { ¬ Contains self.old.path.top 0 }
        requires next { IsNextEdge self.old.path.class self.old.path.top edge }
        requires left { self.old.count < self.old.budget }
        ensures task { task_of self.new ≡ task_of self.old }
        ensures on { (o : Outcome) → SearchesChild self.old o → OnOk result (SearchesOn self.new o) }
        ensures less { OnOk result (work_left self.new ≤ work_left self.old) }
    {
        let parts = self.path.next_parts(alloc, edge)?;
        let split = OpenSplit {
            edge,
            parts,
            next: 0,
        };
        let Ok(()) = self.open_splits.push(split) else {
            return Err(Memory);
        };
        self.count += 1;
        Ok(())
    }

    /// Ends the search: goes back to the first level.
    fn stop(&mut self)
        ensures task { task_of self.new ≡ task_of self.old }
        ensures idle { IsIdle self.new }
    {
        while !self.path.is_first() {
            self.path.leave();
        }
        self.open_splits.clear();
        self.count = 0;
    }
}

/// How many edges of the top have several base relations.
fn several(path: &GuidedPath) -> u32
    requires { length path.now.top ≡ edge_count path.now.nodes }
    ensures { result ≡ several_count path.now.top }
{
    let mut count = 0;
    for edge in 0..path.edges() {
        if path.word(edge).count() > 1 {
            count += 1;
        }
    }
    count
}
