//! A round of a search: it makes steps, while workers look ahead. The round ends when the search has made its steps or
//! comes to a child at which somebody has looked.
ghost use Rattle.std.specs.Prelude.{◌≡◌, ◌<◌, ◌≤◌, OnOk, All, length};
ghost use Rattle.std.specs.Thread.{IsSync};
ghost use Rattle.split_search.specs.declared.TheConstants.{MAX_BUDGET};
ghost use Rattle.split_search.specs.Searches.{task_of};
ghost use Rattle.split_search.specs.Walks.{IsWalk};
ghost use Rattle.parallel_search.specs.Jobs.{IsJob, IsSearchOf};

use crate::ahead::is_at_one;
use crate::job::{Job, work_on};
use crate::site::Site;
use calculus_table::{Compose, Memory};
use network_words::Net;
use qsr_outside::Gate;
use split_search::Walk;
use std::alloc::Global;
use std::thread;
use std::thread::Threads;

/// How many steps the search makes in a round at most: so many that the threads of a round cost little beside them, and
/// so few that what workers made is soon taken over.
const STEPS: u32 = 512;

/// Works on jobs in so many threads at once, until the round ends. Takes no memory for that.
fn work<R: Threads + Sync, C: Compose + Sync, G: Gate + Sync>(
    rt: &R,
    alloc: Global,
    site: &Site<'_, C, G>,
    budget: u32,
    threads: usize,
    jobs: &mut [Job],
)
    requires some { 0 < threads }
    requires jobs { All (IsJob (C.algebra site.now.c.now) site.now.nodes site.now.class.now) jobs.old }
    requires budget { budget ≤ MAX_BUDGET }
    ensures { All (IsJob (C.algebra site.now.c.now) site.now.nodes site.now.class.now) jobs.new }
{
    let run = |_: usize, job: &mut Job|
        requires { IsJob (C.algebra site.now.c.now) site.now.nodes site.now.class.now job.old × (budget ≤ MAX_BUDGET) }
        ensures { IsJob (C.algebra site.entry.now.c.now) site.entry.now.nodes site.entry.now.class.now job.new }
    { work_on(alloc, site, budget, job) };
    thread::for_each_mut(rt, jobs, threads, &run);
}

/// Makes a step, between the points of the gate that a child of the first split has, where the search is `numbered`.
fn step<C: Compose, G: Gate>(
    alloc: Global,
    site: &Site<'_, C, G>,
    walk: &mut Walk,
    numbered: bool,
) -> Result<(), Memory>
    requires walk { IsWalk walk.old }
    ensures walk { OnOk result (IsWalk walk.new) }
    ensures task { OnOk result (task_of walk.new.search ≡ task_of walk.old.search) }
{
    if !numbered {
        return walk.step(alloc);
    }
    site.begin_child(walk.next_of_first());
    walk.step(alloc)?;
    site.end_child(walk.last_of_first());
    Ok(())
}

/// Makes the search's steps of a round.
fn make_steps<C: Compose, G: Gate>(
    alloc: Global,
    site: &Site<'_, C, G>,
    nets: &[Net],
    numbered: bool,
    walk: &mut Walk,
) -> Result<(), Memory>
    requires { IsWalk walk.old }
    ensures { OnOk result (IsSearchOf (task_of walk.old.search) walk.new) }
{
    for _step in 0..STEPS {
        if walk.is_over() || is_at_one(walk, nets) {
            break;
        }
        step(alloc, site, walk, numbered)?;
    }
    Ok(())
}

/// Makes the search's steps of a round, which ends then.
fn search_on<C: Compose, G: Gate>(
    alloc: Global,
    site: &Site<'_, C, G>,
    nets: &[Net],
    numbered: bool,
    walk: &mut Walk,
) -> Result<(), Memory>
    requires { IsWalk walk.old }
    ensures { OnOk result (IsSearchOf (task_of walk.old.search) walk.new) }
{
    let made = make_steps(alloc, site, nets, numbered, walk);
    site.signs.end();
    made
}

/// Makes the search's steps of a round while so many workers work on the jobs.
fn search_and_work<R: Threads + Sync, C: Compose + Sync, G: Gate + Sync>(
    rt: &R,
    alloc: Global,
    site: &Site<'_, C, G>,
    nets: &[Net],
    numbered: bool,
    walk: &mut Walk,
    helpers: usize,
    jobs: &mut [Job],
) -> Result<(), Memory>
    requires walk { IsWalk walk.old }
    requires some { 0 < helpers }
    requires jobs { All (IsJob (C.algebra site.now.c.now) site.now.nodes site.now.class.now) jobs.old }
    ensures searched { OnOk result (IsSearchOf (task_of walk.old.search) walk.new) }
    ensures jobs { All (IsJob (C.algebra site.now.c.now) site.now.nodes site.now.class.now) jobs.new }
{
    let left = walk.left();
    site.signs.begin();
    let mut own = || -> Result<(), Memory>
        requires { IsWalk walk.now }
        ensures { OnOk result (IsSearchOf (task_of walk.entry.now.search) walk.exit.now) }
    { search_on(alloc, site, nets, numbered, walk) };
    let mut others = ||
        requires { IsSync R.row × IsSync C.row × IsSync G.row
            × All (IsJob (C.algebra site.now.c.now) site.now.nodes site.now.class.now) jobs.now
            × (0 < helpers) × (left ≤ MAX_BUDGET) }
        ensures { All (IsJob (C.algebra site.entry.now.c.now) site.entry.now.nodes site.entry.now.class.now)
            jobs.exit.now }
    { work(rt, alloc, site, left, helpers, jobs) };
    let ((), searched) = thread::join_mut(rt, &mut others, &mut own);
    searched
}

/// Makes a round: the search's steps, and beside them the jobs' by so many workers as long as it goes on.
pub(crate) fn make_round<R: Threads + Sync, C: Compose + Sync, G: Gate + Sync>(
    rt: &R,
    alloc: Global,
    site: &Site<'_, C, G>,
    nets: &[Net],
    numbered: bool,
    walk: &mut Walk,
    helpers: usize,
    jobs: &mut [Job],
) -> Result<(), Memory>
    requires walk { IsWalk walk.old }
    requires jobs { All (IsJob (C.algebra site.now.c.now) site.now.nodes site.now.class.now) jobs.old }
    ensures searched { OnOk result (IsSearchOf (task_of walk.old.search) walk.new) }
    ensures jobs { All (IsJob (C.algebra site.now.c.now) site.now.nodes site.now.class.now) jobs.new }
{
    if helpers == 0 || jobs.is_empty() {
        return search_on(alloc, site, nets, numbered, walk);
    }
    search_and_work(rt, alloc, site, nets, numbered, walk, helpers, jobs)
}
