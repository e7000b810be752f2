//! What is ahead of a search: the children to which it comes later, as far as somebody looks at them.
//!
//! Which these are is a hint. Where memory runs out a child is left out, and the search makes it itself.
ghost use Rattle.std.specs.Prelude.{ℕ, List, All, IfSome};
ghost use Rattle.calculus_table.specs.Algebra.{Algebra};
ghost use Rattle.split_search.specs.Walks.{IsLaterChild};
ghost use Rattle.parallel_search.specs.Jobs.{IsWalkBy, IsJob, IsAnsweredBy, IsAhead, IsKnown};

use crate::job::{Job, Stage};
use crate::site::Site;
use calculus_table::Compose;
use network_words::Net;
use qsr_outside::Gate;
use split_search::{Answered, LaterChild, Walk};
use std::alloc::Global;

/// The networks of children at which somebody looks or has looked, the jobs on some of them, the nearest first, and the
/// verdicts on others.
#[derive(Drop)]
pub(crate) struct Ahead<'a> {
    pub(crate) nets: Vec<Net>,
    pub(crate) jobs: Vec<Job<'a>>,
    pub(crate) done: Vec<Answered>,
}

/// What is known of the child to which a search came.
#[derive(Drop)]
pub(crate) enum Known<'a> {
    /// The verdict on its network.
    Answered(Answered),
    /// A search of its network, which isn't over.
    Begun(Walk<'a>),
    /// Nothing that is of use.
    Nothing,
}

/// Whether one of the networks has these sets.
fn has_net(nets: &[Net], net: &Net) -> bool {
    nets.iter().any(|other| other.words() == net.words())
}

/// Whether the search is at a child with one of the networks.
pub(crate) fn is_at_one(walk: &Walk, nets: &[Net]) -> bool {
    nets.iter().any(|net| walk.is_at(net))
}

/// Takes out the verdict on the network of the child to which the search came, if there is one.
fn take_verdict<C: Compose, G: Gate>(
    site: &Site<'_, C, G>,
    walk: &Walk,
    done: &mut Vec<Answered>,
) -> Option<Answered>
    requires { All (IsAnsweredBy (C.algebra site.now.c.now) site.now.nodes site.now.class.now) done.old.items }
    ensures taken { IfSome result (IsAnsweredBy (C.algebra site.now.c.now) site.now.nodes site.now.class.now) }
    ensures others { All (IsAnsweredBy (C.algebra site.now.c.now) site.now.nodes site.now.class.now) done.new.items }
{
    for k in 0..done.len() {
        if walk.is_at(&done[k].net) {
            return Some(done.swap_remove(k));
        }
    }
    None
}

/// Takes out the job on that network, if there is one.
fn take_job<'a, C: Compose, G: Gate>(
    site: &Site<'_, C, G>,
    walk: &Walk<'a>,
    jobs: &mut Vec<Job<'a>>,
) -> Option<Job<'a>>
    requires { All (IsJob (C.algebra site.now.c.now) site.now.nodes site.now.class.now) jobs.old.items }
    ensures taken { IfSome result (IsJob (C.algebra site.now.c.now) site.now.nodes site.now.class.now) }
    ensures others { All (IsJob (C.algebra site.now.c.now) site.now.nodes site.now.class.now) jobs.new.items }
{
    for k in 0..jobs.len() {
        if jobs[k].is_ahead_of(walk) {
            return Some(jobs.swap_remove(k));
        }
    }
    None
}

/// Takes the network of that child out.
fn forget(walk: &Walk, nets: &mut Vec<Net>) {
    for k in 0..nets.len() {
        if walk.is_at(&nets[k]) {
            let _net = nets.swap_remove(k);
            return;
        }
    }
}

/// Adds a job, unless memory runs out.
fn add_job<'a, C: Compose, G: Gate>(site: &Site<'_, C, G>, jobs: &mut Vec<Job<'a>>, job: Job<'a>)
    requires job { IsJob (C.algebra site.now.c.now) site.now.nodes site.now.class.now job }
    requires jobs { All (IsJob (C.algebra site.now.c.now) site.now.nodes site.now.class.now) jobs.old.items }
    ensures { All (IsJob (C.algebra site.now.c.now) site.now.nodes site.now.class.now) jobs.new.items }
{
    let _nodes = site.nodes;
    let Ok(()) = jobs.push(job) else {
        return;
    };
}

/// Adds a verdict, unless memory runs out.
fn add_verdict<C: Compose, G: Gate>(
    site: &Site<'_, C, G>,
    done: &mut Vec<Answered>,
    answered: Answered,
)
    requires answered { IsAnsweredBy (C.algebra site.now.c.now) site.now.nodes site.now.class.now answered }
    requires done { All (IsAnsweredBy (C.algebra site.now.c.now) site.now.nodes site.now.class.now) done.old.items }
    ensures { All (IsAnsweredBy (C.algebra site.now.c.now) site.now.nodes site.now.class.now) done.new.items }
{
    let _nodes = site.nodes;
    let Ok(()) = done.push(answered) else {
        return;
    };
}

impl<'a> Ahead<'a> {
    /// Nothing.
    pub(crate) fn nothing(alloc: Global) -> Ahead<'a>
        ensures { (m : Algebra) (n : ℕ) (class : List ℕ) → IsAhead m n class result }
    {
        Ahead {
            nets: Vec::new(alloc),
            jobs: Vec::new(alloc),
            done: Vec::new(alloc),
        }
    }

    /// Looks at further children of a search, with so many jobs at once at most: the nearest ones first, and only where
    /// those of the same split had `least` nodes in the mean. Children of the first split have their numbers where the
    /// search is `numbered`.
    pub(crate) fn look<C: Compose, G: Gate>(
        &mut self,
        alloc: Global,
        site: &Site<'_, C, G>,
        walk: &Walk<'a>,
        most: usize,
        least: u64,
        numbered: bool,
    )
        requires walk { IsWalkBy (C.algebra site.now.c.now) site.now.nodes site.now.class.now walk.now }
        requires ahead { IsAhead (C.algebra site.now.c.now) site.now.nodes site.now.class.now self.old }
        ensures { IsAhead (C.algebra site.now.c.now) site.now.nodes site.now.class.now self.new }
    {
        let free = most.saturating_sub(self.jobs.len());
        if free == 0 {
            return;
        }
        let wanted = self.nets.len().saturating_add(free);
        let Ok(children) = walk.later_children(alloc, site.c, wanted, least) else {
            return;
        };
        for child in children {
            if self.jobs.len() >= most || has_net(&self.nets, &child.net) {
                continue;
            }
            self.begin(site, walk, child, numbered);
        }
    }

    /// Adds a job on a child.
    fn begin<C: Compose, G: Gate>(
        &mut self,
        site: &Site<'_, C, G>,
        walk: &Walk<'a>,
        child: LaterChild,
        numbered: bool,
    )
        requires walk { IsWalkBy (C.algebra site.now.c.now) site.now.nodes site.now.class.now walk.now }
        requires child { IsLaterChild (C.algebra site.now.c.now) site.now.nodes child }
        requires ahead { IsAhead (C.algebra site.now.c.now) site.now.nodes site.now.class.now self.old }
        ensures { IsAhead (C.algebra site.now.c.now) site.now.nodes site.now.class.now self.new }
    {
        let LaterChild { net, number, depth } = child;
        let Ok(copy) = net.copy() else {
            return;
        };
        let Ok(()) = self.nets.push(copy) else {
            return;
        };
        let number = if numbered && depth == 0 {
            Some(number)
        } else {
            None
        };
        let stage = Stage::New(net, walk.class());
        add_job(site, &mut self.jobs, Job { number, stage });
    }

    /// Keeps a job after a round; if its search is over, the verdict.
    fn keep<C: Compose, G: Gate>(&mut self, alloc: Global, site: &Site<'_, C, G>, job: Job<'a>)
        requires job { IsJob (C.algebra site.now.c.now) site.now.nodes site.now.class.now job }
        requires ahead { IsAhead (C.algebra site.now.c.now) site.now.nodes site.now.class.now self.old }
        ensures { IsAhead (C.algebra site.now.c.now) site.now.nodes site.now.class.now self.new }
    {
        let Job { number, stage } = job;
        let walk = match stage {
            Stage::Begun(walk) => walk,
            Stage::New(net, class) => {
                let stage = Stage::New(net, class);
                add_job(site, &mut self.jobs, Job { number, stage });
                return;
            }
            Stage::Lost => return,
        };
        if !walk.is_over() {
            let stage = Stage::Begun(walk);
            add_job(site, &mut self.jobs, Job { number, stage });
            return;
        }
        let Ok(answered) = walk.into_answered(alloc, site.c) else {
            return;
        };
        add_verdict(site, &mut self.done, answered);
    }

    /// Keeps jobs after a round.
    pub(crate) fn keep_all<C: Compose, G: Gate>(
        &mut self,
        alloc: Global,
        site: &Site<'_, C, G>,
        jobs: Vec<Job<'a>>,
    )
        requires jobs { All (IsJob (C.algebra site.now.c.now) site.now.nodes site.now.class.now) jobs.items }
        requires ahead { IsAhead (C.algebra site.now.c.now) site.now.nodes site.now.class.now self.old }
        ensures { IsAhead (C.algebra site.now.c.now) site.now.nodes site.now.class.now self.new }
    {
        for job in jobs {
            self.keep(alloc, site, job);
        }
    }

    /// Takes out what is known of the child to which the search came.
    pub(crate) fn take<C: Compose, G: Gate>(
        &mut self,
        site: &Site<'_, C, G>,
        walk: &Walk<'a>,
    ) -> Known<'a>
        requires { IsAhead (C.algebra site.now.c.now) site.now.nodes site.now.class.now self.old }
        ensures known { IsKnown (C.algebra site.now.c.now) site.now.nodes site.now.class.now result }
        ensures ahead { IsAhead (C.algebra site.now.c.now) site.now.nodes site.now.class.now self.new }
    {
        forget(walk, &mut self.nets);
        if let Some(answered) = take_verdict(site, walk, &mut self.done) {
            return Known::Answered(answered);
        }
        let Some(job) = take_job(site, walk, &mut self.jobs) else {
            return Known::Nothing;
        };
        match job.stage {
            Stage::Begun(walk) => Known::Begun(walk),
            Stage::New(_, _) | Stage::Lost => Known::Nothing,
        }
    }
}
