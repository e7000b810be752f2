//! The searches of one call: that of the network, and those of children that it goes on with, each in the one before
//! it.
//!
//! A turn is a round of the innermost one. Where it comes to a child at which somebody has looked, it takes the tree
//! over if that is whole, and else the search of the child goes on as the innermost one. When that is over the one
//! outside it takes its tree over. So no work on a child to which the search comes is lost, and the tree is the one
//! of one thread.
ghost use Rattle.std.specs.Prelude.{◌≡◌, ◌≤◌, All, IfOk, IfSome, OnOk};
ghost use Rattle.split_search.specs.declared.TheConstants.{MAX_BUDGET};
ghost use Rattle.split_search.specs.Searches.{task_of};
ghost use Rattle.parallel_search.specs.Jobs.{IsWalkBy, IsAhead, IsAnsweredBy, IsTurn, IsCrew};

use crate::ahead::{Ahead, Known, is_at_one};
use crate::round::make_round;
use crate::site::Site;
use calculus_table::{Compose, Memory};
use qsr_outside::Gate;
use split_search::{Answered, Walk};
use std::alloc::Global;
use std::thread::Threads;

/// How many nodes the children of a split have at least, in the mean, where workers look at others of them: to begin a
/// search costs as much as some 40 nodes, and to begin a round as much as 20.
const LEAST_NODES: u64 = 128;

/// How many children there are ahead for each worker: it goes on with the next where the search of one is over.
const JOBS_EACH: usize = 3;

/// A search after a round, what is ahead of it, and the search of the child to which it came, if that is to be gone on
/// with.
#[derive(Drop)]
pub(crate) struct Turn<'a> {
    pub(crate) walk: Walk<'a>,
    pub(crate) ahead: Ahead<'a>,
    pub(crate) child: Option<Walk<'a>>,
}

/// The search, those of children that it goes on with, each in the one before it, and what is ahead.
#[derive(Drop)]
pub(crate) struct Crew<'a> {
    pub(crate) root: Walk<'a>,
    pub(crate) inner: Vec<Walk<'a>>,
    pub(crate) ahead: Ahead<'a>,
}

/// Takes a verdict over.
fn take_over<C: Compose, G: Gate>(
    site: &Site<'_, C, G>,
    walk: &mut Walk,
    answered: Answered,
) -> Result<(), Memory>
    requires walk { IsWalkBy (C.algebra site.now.c.now) site.now.nodes site.now.class.now walk.old }
    requires answered { IsAnsweredBy (C.algebra site.now.c.now) site.now.nodes site.now.class.now answered }
    ensures walk { OnOk result (IsWalkBy (C.algebra site.now.c.now) site.now.nodes site.now.class.now walk.new) }
    ensures task { OnOk result (task_of walk.new.search ≡ task_of walk.old.search) }
{
    let _nodes = site.nodes;
    walk.take_over(answered)?;
    Ok(())
}

/// A search of a child with as many splits as are left, if it has no more.
fn within<'a, C: Compose, G: Gate>(
    site: &Site<'_, C, G>,
    child: Walk<'a>,
    left: u32,
) -> Option<Walk<'a>>
    requires child { IsWalkBy (C.algebra site.now.c.now) site.now.nodes site.now.class.now child }
    requires left { left ≤ MAX_BUDGET }
    ensures { IfSome result (IsWalkBy (C.algebra site.now.c.now) site.now.nodes site.now.class.now) }
{
    let _nodes = site.nodes;
    let child = child.within(left)?;
    Some(child)
}

/// Takes over what is known of the child to which the search came, or tells with which search of it to go on.
fn arrive<'a, C: Compose, G: Gate>(
    site: &Site<'_, C, G>,
    mut walk: Walk<'a>,
    mut ahead: Ahead<'a>,
) -> Result<Turn<'a>, Memory>
    requires walk { IsWalkBy (C.algebra site.now.c.now) site.now.nodes site.now.class.now walk }
    requires ahead { IsAhead (C.algebra site.now.c.now) site.now.nodes site.now.class.now ahead }
    ensures { IfOk result (IsTurn (C.algebra site.now.c.now) site.now.nodes site.now.class.now
        (task_of walk.entry.search)) }
{
    match ahead.take(site, &walk) {
        Known::Answered(answered) => {
            take_over(site, &mut walk, answered)?;
            let child = None;
            Ok(Turn { walk, ahead, child })
        }
        Known::Begun(child) => {
            let child = within(site, child, walk.left());
            Ok(Turn { walk, ahead, child })
        }
        Known::Nothing => {
            let child = None;
            Ok(Turn { walk, ahead, child })
        }
    }
}

/// What is ahead of a search that has so many workers beside it: further children, if it ever went back.
fn look_on<'a, C: Compose, G: Gate>(
    alloc: Global,
    site: &Site<'_, C, G>,
    helpers: usize,
    walk: &Walk<'a>,
    mut ahead: Ahead<'a>,
    numbered: bool,
) -> Ahead<'a>
    requires walk { IsWalkBy (C.algebra site.now.c.now) site.now.nodes site.now.class.now walk.now }
    requires ahead { IsAhead (C.algebra site.now.c.now) site.now.nodes site.now.class.now ahead }
    ensures { IsAhead (C.algebra site.now.c.now) site.now.nodes site.now.class.now result }
{
    if !walk.has_gone_back() {
        return ahead;
    }
    let most = helpers.saturating_mul(JOBS_EACH);
    ahead.look(alloc, site, walk, most, LEAST_NODES, numbered);
    ahead
}

/// Goes on with a search for a round, with workers if the search ever went back.
fn go_on<'a, R: Threads + Sync, C: Compose + Sync, G: Gate + Sync>(
    rt: &R,
    alloc: Global,
    site: &Site<'_, C, G>,
    workers: u32,
    mut walk: Walk<'a>,
    ahead: Ahead<'a>,
    numbered: bool,
) -> Result<Turn<'a>, Memory>
    requires walk { IsWalkBy (C.algebra site.now.c.now) site.now.nodes site.now.class.now walk }
    requires ahead { IsAhead (C.algebra site.now.c.now) site.now.nodes site.now.class.now ahead }
    ensures { IfOk result (IsTurn (C.algebra site.now.c.now) site.now.nodes site.now.class.now
        (task_of walk.entry.search)) }
{
    let helpers = workers.saturating_sub(1) as usize;
    let Ahead {
        nets,
        mut jobs,
        done,
    } = look_on(alloc, site, helpers, &walk, ahead, numbered);
    make_round(
        rt,
        alloc,
        site,
        nets.as_slice(),
        numbered,
        &mut walk,
        helpers,
        jobs.as_mut_slice(),
    )?;
    let mut ahead = Ahead {
        nets,
        jobs: Vec::new(alloc),
        done,
    };
    ahead.keep_all(alloc, site, jobs);
    if is_at_one(&walk, ahead.nets.as_slice()) {
        return arrive(site, walk, ahead);
    }
    Ok(Turn {
        walk,
        ahead,
        child: None,
    })
}

/// Adds a search.
fn push<'a, C: Compose, G: Gate>(
    site: &Site<'_, C, G>,
    walks: &mut Vec<Walk<'a>>,
    walk: Walk<'a>,
) -> Result<(), Memory>
    requires walks { All (IsWalkBy (C.algebra site.now.c.now) site.now.nodes site.now.class.now) walks.old.items }
    requires walk { IsWalkBy (C.algebra site.now.c.now) site.now.nodes site.now.class.now walk }
    ensures { OnOk result
        (All (IsWalkBy (C.algebra site.now.c.now) site.now.nodes site.now.class.now) walks.new.items) }
{
    let _nodes = site.nodes;
    let Ok(()) = walks.push(walk) else {
        return Err(Memory);
    };
    Ok(())
}

/// Adds a search, if there is one.
fn push_some<'a, C: Compose, G: Gate>(
    site: &Site<'_, C, G>,
    walks: &mut Vec<Walk<'a>>,
    walk: Option<Walk<'a>>,
) -> Result<(), Memory>
    requires walks { All (IsWalkBy (C.algebra site.now.c.now) site.now.nodes site.now.class.now) walks.old.items }
    requires walk { IfSome walk (IsWalkBy (C.algebra site.now.c.now) site.now.nodes site.now.class.now) }
    ensures { OnOk result
        (All (IsWalkBy (C.algebra site.now.c.now) site.now.nodes site.now.class.now) walks.new.items) }
{
    match walk {
        Some(walk) => push(site, walks, walk),
        None => Ok(()),
    }
}

impl<'a> Crew<'a> {
    /// Lets the search outside one that is over take its tree over.
    fn give<C: Compose, G: Gate>(
        mut self,
        alloc: Global,
        site: &Site<'_, C, G>,
        walk: Walk<'a>,
    ) -> Result<Crew<'a>, Memory>
        requires walk { IsWalkBy (C.algebra site.now.c.now) site.now.nodes site.now.class.now walk }
        requires crew { IsCrew (C.algebra site.now.c.now) site.now.nodes site.now.class.now self }
        ensures crew { IfOk result (IsCrew (C.algebra site.now.c.now) site.now.nodes site.now.class.now) }
        ensures task { IfOk result (λ r. task_of r.root.search ≡ task_of self.entry.root.search) }
    {
        let answered = walk.into_answered(alloc, site.c)?;
        let Some(mut outer) = self.inner.pop() else {
            take_over(site, &mut self.root, answered)?;
            site.end_child(self.root.last_of_first());
            return Ok(self);
        };
        take_over(site, &mut outer, answered)?;
        push(site, &mut self.inner, outer)?;
        Ok(self)
    }

    /// Goes on with the innermost search for a round, or lets the one outside it take its tree over.
    pub(crate) fn take_turn<R: Threads + Sync, C: Compose + Sync, G: Gate + Sync>(
        mut self,
        rt: &R,
        alloc: Global,
        site: &Site<'_, C, G>,
        workers: u32,
    ) -> Result<Crew<'a>, Memory>
        requires crew { IsCrew (C.algebra site.now.c.now) site.now.nodes site.now.class.now self }
        ensures crew { IfOk result (IsCrew (C.algebra site.now.c.now) site.now.nodes site.now.class.now) }
        ensures task { IfOk result (λ r. task_of r.root.search ≡ task_of self.entry.root.search) }
    {
        let Some(walk) = self.inner.pop() else {
            return self.take_root_turn(rt, alloc, site, workers);
        };
        if walk.is_over() {
            return self.give(alloc, site, walk);
        }
        let Crew {
            root,
            mut inner,
            ahead,
        } = self;
        let Turn { walk, ahead, child } = go_on(rt, alloc, site, workers, walk, ahead, false)?;
        push(site, &mut inner, walk)?;
        push_some(site, &mut inner, child)?;
        Ok(Crew { root, inner, ahead })
    }

    /// Goes on with the outermost search for a round.
    fn take_root_turn<R: Threads + Sync, C: Compose + Sync, G: Gate + Sync>(
        self,
        rt: &R,
        alloc: Global,
        site: &Site<'_, C, G>,
        workers: u32,
    ) -> Result<Crew<'a>, Memory>
        requires crew { IsCrew (C.algebra site.now.c.now) site.now.nodes site.now.class.now self }
        ensures crew { IfOk result (IsCrew (C.algebra site.now.c.now) site.now.nodes site.now.class.now) }
        ensures task { IfOk result (λ r. task_of r.root.search ≡ task_of self.entry.root.search) }
    {
        let Crew {
            root,
            mut inner,
            ahead,
        } = self;
        let Turn { walk, ahead, child } = go_on(rt, alloc, site, workers, root, ahead, true)?;
        push_some(site, &mut inner, child)?;
        Ok(Crew {
            root: walk,
            inner,
            ahead,
        })
    }
}
