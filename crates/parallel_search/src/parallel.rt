//! The search of a network by several workers.
ghost use Rattle.std.specs.Prelude.{◌≡◌, ◌≤◌, ◌<◌, IfOk};
ghost use Rattle.calculus_table.specs.Calculus.{EachBase};
ghost use Rattle.network_words.specs.Network.{IsNetwork};
ghost use Rattle.tract_classes.specs.Class.{HasBase};
ghost use Rattle.split_search.specs.declared.TheConstants.{MAX_BUDGET};
ghost use Rattle.split_search.specs.Ruled.{IsVerdict};
ghost use Rattle.split_search.specs.Searches.{task_of};
ghost use Rattle.split_search.specs.Verdicts.{IsTrueOf, KeepsBudget, AreSearched, nodes_of};
ghost use Rattle.split_search.specs.Walks.{task_for, IsWalk};
ghost use Rattle.parallel_search.specs.Jobs.{IsWalkBy, IsAhead, IsCrew};

use crate::ahead::Ahead;
use crate::crew::Crew;
use crate::signs::Signs;
use crate::site::Site;
use calculus_table::{Compose, Memory};
use network_words::Net;
use qsr_outside::Gate;
use split_search::{Verdict, Walk, solve};
use std::alloc::Global;
use std::thread::Threads;
use tract_classes::Class;

/// What is ahead of a search that begins: its second child, where it has workers.
fn first_ahead<'a, C: Compose, G: Gate>(
    alloc: Global,
    site: &Site<'_, C, G>,
    workers: u32,
    root: &Walk<'a>,
) -> Ahead<'a>
    requires walk { IsWalkBy (C.algebra site.now.c.now) site.now.nodes site.now.class.now root.now }
    ensures { IsAhead (C.algebra site.now.c.now) site.now.nodes site.now.class.now result }
{
    let mut ahead = Ahead::nothing(alloc);
    if workers < 2 {
        return ahead;
    }
    ahead.look(alloc, site, root, 1, 0, true);
    ahead
}

/// The search of the network after it, and those of children that it went on with, came to their end.
fn search<'a, R: Threads + Sync, C: Compose + Sync, G: Gate + Sync>(
    rt: &R,
    alloc: Global,
    site: &Site<'_, C, G>,
    workers: u32,
    root: Walk<'a>,
) -> Result<Walk<'a>, Memory>
    requires walk { IsWalkBy (C.algebra site.now.c.now) site.now.nodes site.now.class.now root }
    ensures walk { IfOk result (IsWalkBy (C.algebra site.now.c.now) site.now.nodes site.now.class.now) }
    ensures task { IfOk result (λ walk. task_of walk.search ≡ task_of root.entry.search) }
{
    let ahead = first_ahead(alloc, site, workers, &root);
    let mut crew = Crew {
        root,
        inner: Vec::new(alloc),
        ahead,
    };
    for _turn in 0..u64::MAX {
        if crew.inner.is_empty() && crew.root.is_over() {
            break;
        }
        crew = crew.take_turn(rt, alloc, site, workers)?;
    }
    Ok(crew.root)
}

/// Says of a network whether it has a scenario, as `split_search::solve` does, by so many workers, from 1 to 64. It
/// returns the very verdict that one thread does, with the same tree.
///
/// The child of the first split with the number p passes the point 4000 + p of `gate` as it begins, and 5000 + p as it
/// ends. With two workers and more the second child is looked at from the start.
pub fn solve_parallel<R: Threads + Sync, C: Compose + Sync, G: Gate + Sync>(
    rt: &R,
    alloc: Global,
    net: &Net,
    c: &C,
    class: &Class,
    budget: u32,
    workers: u32,
    gate: &G,
) -> Result<Verdict, Memory>
    requires network { IsNetwork (C.algebra c.now) net.now.nodes net.now.words }
    requires bases { EachBase (C.algebra c.now) (HasBase class.now) }
    requires budget { budget ≤ MAX_BUDGET }
    requires some { 0 < workers }
    requires few { workers ≤ 64 }
    ensures ruled { IfOk result
        (IsVerdict (C.algebra c.now) net.now.nodes class.now budget net.now.words) }
    ensures is_true { IfOk result
        (IsTrueOf (C.algebra c.now) net.now.nodes net.now.words budget) }
    ensures splits { IfOk result (KeepsBudget budget) }
    ensures nodes { IfOk result (λ v. AreSearched budget (nodes_of v)) }
{
    if net.words().contains(&0) {
        return solve(alloc, net, c, class, budget);
    }
    let signs = Signs::new();
    let site = Site {
        c,
        class,
        nodes: net.nodes(),
        gate,
        signs: &signs,
    };
    let root = Walk::new(alloc, net.copy()?, c, class, budget)?;
    let root = search(rt, alloc, &site, workers, root)?;
    root.finish(alloc, c)
}
