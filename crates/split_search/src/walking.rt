//! Searches that are left and gone on with.
//!
//! A walk makes the very tree of its search. The verdicts on networks of children that somebody else searched may be
//! handed to it when it comes to such a child: if the tree has room in its budget it takes that over.
ghost use Rattle.std.specs.Prelude.{◌≡◌, ◌<◌, ◌≤◌, Contains, IfOk, IfSome, IfNone, OnOk};
ghost use Rattle.calculus_table.specs.Calculus.{EachBase};
ghost use Rattle.network_words.specs.Network.{IsNetwork};
ghost use Rattle.tract_classes.specs.Class.{HasBase};
ghost use Rattle.split_search.specs.Ruled.{IsVerdict};
ghost use Rattle.split_search.specs.Searches.{task_of, held_with, work_left, IsGoing};
ghost use Rattle.split_search.specs.Verdicts.{IsTrueOf, KeepsBudget, AreSearched, nodes_of};
ghost use Rattle.split_search.specs.Grafts.{IsAnswered};
ghost use Rattle.split_search.specs.Walks.{task_for, IsWalk, IsOver, IsToldOf};

use crate::MAX_BUDGET;
use crate::answered::Answered;
use crate::guided_path::GuidedPath;
use crate::searching::{Search, Stop, empty_tree};
use crate::split::Split;
use crate::verdict::Verdict;
use calculus_table::{Compose, Memory, lawful};
use closure_seq::ClosedPath;
use network_words::Net;
use std::alloc::Global;
use tract_classes::Class;

/// A search of a network, and where it has stopped.
#[derive(Drop)]
pub struct Walk<'a> {
    pub(crate) search: Search<'a>,
    pub(crate) stop: Option<Stop>,
}

/// Says of a network whether it has a scenario, by a search of as many splits as the budget at most. The class says
/// which edge is split into which parts.
///
/// Yes comes with a scenario, no with a tree that refutes the network. That the budget was spent comes exactly where
/// the ruled tree with as many splits ends undecided, and never where the product of the sizes of the closed sets is
/// one more than the budget at most.
pub fn solve<C: Compose>(
    alloc: Global,
    net: &Net,
    c: &C,
    class: &Class,
    budget: u32,
) -> Result<Verdict, Memory>
    requires network { IsNetwork (C.algebra c.now) net.now.nodes net.now.words }
    requires bases { EachBase (C.algebra c.now) (HasBase class.now) }
    requires budget { budget ≤ MAX_BUDGET }
    ensures ruled { IfOk result
        (IsVerdict (C.algebra c.now) net.now.nodes class.now budget net.now.words) }
    ensures is_true { IfOk result
        (IsTrueOf (C.algebra c.now) net.now.nodes net.now.words budget) }
    ensures splits { IfOk result (KeepsBudget budget) }
    ensures nodes { IfOk result (λ v. AreSearched budget (nodes_of v)) }
{
    if net.words().contains(&0) {
        return refuted(alloc, net, c, class, budget);
    }
    let walk = Walk::new(alloc, net.copy()?, c, class, budget)?;
    walk.finish(alloc, c)
}

/// The verdict on a network with an empty set.
fn refuted<C: Compose>(
    alloc: Global,
    net: &Net,
    c: &C,
    class: &Class,
    budget: u32,
) -> Result<Verdict, Memory>
    requires network { IsNetwork (C.algebra c.now) net.now.nodes net.now.words }
    requires bases { EachBase (C.algebra c.now) (HasBase class.now) }
    requires budget { budget ≤ MAX_BUDGET }
    requires empty { Contains net.now.words 0 }
    ensures { IfOk result (IsToldOf (task_for (C.algebra c.now) net.now class.now budget)) }
{
    lawful(c);
    Ok(Verdict::No(empty_tree(alloc)?))
}

impl<'a> Walk<'a> {
    /// The search of a network, at its first node.
    pub fn new<C: Compose>(
        alloc: Global,
        net: Net,
        c: &C,
        class: &'a Class,
        budget: u32,
    ) -> Result<Walk<'a>, Memory>
        requires network { IsNetwork (C.algebra c.now) net.nodes net.words }
        requires bases { EachBase (C.algebra c.now) (HasBase class.now) }
        requires budget { budget ≤ MAX_BUDGET }
        ensures walk { IfOk result IsWalk }
        ensures task { IfOk result (λ walk.
            task_of walk.search ≡ task_for (C.algebra c.now) net class.now budget) }
    {
        lawful(c);
        let levels = ClosedPath::new(alloc, &net, c)?;
        let path = GuidedPath::new(alloc, levels, class, c.size())?;
        let mut search = Search {
            net,
            budget,
            path,
            open_splits: Vec::new(alloc),
            nodes: Vec::new(alloc),
            count: 0,
        };
        let stop = search.visit(alloc)?;
        Ok(Walk { search, stop })
    }

    /// Whether the tree is whole, or the search has stopped.
    pub fn is_over(&self) -> bool {
        self.stop.is_some() || self.search.open_splits.is_empty()
    }

    /// The network that it searches.
    pub fn net(&self) -> &Net
        ensures { result.now ≡ self.now.search.net }
    {
        &self.search.net
    }

    /// The class that rules its splits.
    pub fn class(&self) -> &'a Class
        ensures { result.now ≡ self.now.search.path.class }
    {
        self.search.path.class()
    }

    /// The number of splits that are left of the budget.
    pub fn left(&self) -> u32
        requires { IsWalk self.now }
        ensures { result ≤ MAX_BUDGET }
    {
        self.search.budget.saturating_sub(self.search.count)
    }

    /// The search with a smaller budget, if it has no more splits and hasn't stopped.
    pub fn within(mut self, budget: u32) -> Option<Walk<'a>>
        requires walk { IsWalk self }
        requires budget { budget ≤ MAX_BUDGET }
        ensures walk { IfSome result IsWalk }
        ensures task { IfSome result (λ walk.
            task_of walk.search ≡ record (task_of self.entry.search) { budget = budget }) }
    {
        if self.stop.is_some() || self.search.count > budget {
            return None;
        }
        self.search.budget = budget;
        Some(self)
    }

    /// Takes the last open split, unless the walk is over.
    fn take_last(&mut self) -> Option<Split>
        requires { IsWalk self.old }
        ensures task { task_of self.new.search ≡ task_of self.old.search }
        ensures going { IfSome result (λ split. IsGoing (task_of self.new.search)
            (held_with self.new.search split) self.new.search.path.top) }
        ensures less { IfSome result (λ split.
            work_left self.new.search < work_left self.old.search) }
        ensures over { IfNone result (IsOver self.new) }
    {
        if self.stop.is_some() {
            return None;
        }
        self.search.open_splits.pop()
    }

    /// Makes a step, unless it is over: goes down to the next child of the last open split, or closes that if each
    /// child was made.
    pub fn step(&mut self, alloc: Global) -> Result<(), Memory>
        requires walk { IsWalk self.old }
        ensures walk { OnOk result (IsWalk self.new) }
        ensures task { OnOk result (task_of self.new.search ≡ task_of self.old.search) }
    {
        let Some(split) = self.take_last() else {
            return Ok(());
        };
        self.stop = self.search.go_on(alloc, split)?;
        Ok(())
    }

    /// Takes over the tree of the child to which it comes next, where the network is that of this child and the tree
    /// has room.
    pub fn take_over(&mut self, answered: Answered) -> Result<(), Memory>
        requires walk { IsWalk self.old }
        requires answered { IsAnswered (task_of self.old.search) answered }
        ensures walk { OnOk result (IsWalk self.new) }
        ensures task { OnOk result (task_of self.new.search ≡ task_of self.old.search) }
    {
        let Some(split) = self.take_last() else {
            return Ok(());
        };
        self.stop = self.search.take_over(split, answered)?;
        Ok(())
    }

    /// Makes all steps that are left.
    fn run_out(&mut self, alloc: Global) -> Result<(), Memory>
        requires { IsWalk self.old }
        ensures task { OnOk result (task_of self.new.search ≡ task_of self.old.search) }
        ensures over { OnOk result (IsOver self.new) }
    {
        while let Some(split) = self.take_last() {
            self.stop = self.search.go_on(alloc, split)?;
        }
        Ok(())
    }

    /// The network, and the verdict on it after all steps that are left.
    pub fn into_answered<C: Compose>(self, alloc: Global, c: &C) -> Result<Answered, Memory>
        requires walk { IsWalk self }
        requires calculus { (task_of self.search).algebra ≡ C.algebra c.now }
        ensures { IfOk result (IsAnswered (task_of self.entry.search)) }
    {
        let net = self.search.net.copy()?;
        let verdict = self.finish(alloc, c)?;
        Ok(Answered { net, verdict })
    }

    /// The verdict, after all steps that are left.
    pub fn finish<C: Compose>(mut self, alloc: Global, c: &C) -> Result<Verdict, Memory>
        requires walk { IsWalk self }
        requires calculus { (task_of self.search).algebra ≡ C.algebra c.now }
        ensures { IfOk result (IsToldOf (task_of self.entry.search)) }
    {
        lawful(c);
        self.run_out(alloc)?;
        let Walk { mut search, stop } = self;
        let Some(stop) = stop else {
            return Ok(Verdict::No(search.into_tree()));
        };
        search.close_all(alloc)?;
        let tree = search.into_tree();
        match stop {
            Stop::Found(scenario) => Ok(Verdict::Yes(scenario, tree)),
            Stop::Spent => Ok(Verdict::Budget(tree)),
        }
    }
}
