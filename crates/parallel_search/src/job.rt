//! What a worker does: it searches the network of a child to which the search comes later.
ghost use Rattle.std.specs.Prelude.{◌≤◌, IfOk};
ghost use Rattle.split_search.specs.declared.TheConstants.{MAX_BUDGET};
ghost use Rattle.parallel_search.specs.Jobs.{IsWalkBy, IsJob, IsStage};

use crate::site::Site;
use calculus_table::{Compose, Memory};
use network_words::Net;
use qsr_outside::Gate;
use split_search::Walk;
use std::alloc::Global;
use std::mem::replace;
use tract_classes::Class;

/// How far the search of a network has come.
#[derive(Drop)]
pub(crate) enum Stage<'a> {
    /// It is to begin, by this class.
    New(Net, &'a Class),
    /// It has begun.
    Begun(Walk<'a>),
    /// It is given up, since memory ran out.
    Lost,
}

/// The search of a child's network, and the child's number if it is one of the first split.
#[derive(Drop)]
pub(crate) struct Job<'a> {
    pub(crate) number: Option<usize>,
    pub(crate) stage: Stage<'a>,
}

impl Job<'_> {
    /// Whether it is on the network of the child to which a search comes next.
    pub(crate) fn is_ahead_of(&self, search: &Walk) -> bool {
        match &self.stage {
            Stage::New(net, _) => search.is_at(net),
            Stage::Begun(walk) => search.is_at(walk.net()),
            Stage::Lost => false,
        }
    }
}

/// The search of a job, which begins now if it is to begin.
fn begun<'a, C: Compose, G: Gate>(
    alloc: Global,
    site: &Site<'_, C, G>,
    budget: u32,
    number: Option<usize>,
    stage: Stage<'a>,
) -> Result<Walk<'a>, Memory>
    requires stage { IsStage (C.algebra site.now.c.now) site.now.nodes site.now.class.now stage }
    requires budget { budget ≤ MAX_BUDGET }
    ensures { IfOk result (IsWalkBy (C.algebra site.now.c.now) site.now.nodes site.now.class.now) }
{
    match stage {
        Stage::New(net, class) => {
            site.begin_child(number);
            Walk::new(alloc, net, site.c, class, budget)
        }
        Stage::Begun(walk) => Ok(walk),
        Stage::Lost => Err(Memory),
    }
}

/// Makes steps of a search until it is over or the round ends.
fn make_steps<'a, C: Compose, G: Gate>(
    alloc: Global,
    site: &Site<'_, C, G>,
    mut walk: Walk<'a>,
) -> Result<Walk<'a>, Memory>
    requires walk { IsWalkBy (C.algebra site.now.c.now) site.now.nodes site.now.class.now walk }
    ensures { IfOk result (IsWalkBy (C.algebra site.now.c.now) site.now.nodes site.now.class.now) }
{
    for _step in 0..u64::MAX {
        if walk.is_over() || site.signs.is_ended() {
            break;
        }
        walk.step(alloc)?;
    }
    Ok(walk)
}

/// The search of a job after its steps of a round.
fn search_on<'a, C: Compose, G: Gate>(
    alloc: Global,
    site: &Site<'_, C, G>,
    budget: u32,
    number: Option<usize>,
    stage: Stage<'a>,
) -> Result<Walk<'a>, Memory>
    requires stage { IsStage (C.algebra site.now.c.now) site.now.nodes site.now.class.now stage }
    requires budget { budget ≤ MAX_BUDGET }
    ensures { IfOk result (IsWalkBy (C.algebra site.now.c.now) site.now.nodes site.now.class.now) }
{
    let walk = begun(alloc, site, budget, number, stage)?;
    let walk = make_steps(alloc, site, walk)?;
    if walk.is_over() {
        site.end_child(number);
    }
    Ok(walk)
}

/// Works on a job until its search is over or the round ends. A search that begins has so many splits. If memory runs
/// out the job is given up.
pub(crate) fn work_on<C: Compose, G: Gate>(
    alloc: Global,
    site: &Site<'_, C, G>,
    budget: u32,
    job: &mut Job<'_>,
)
    requires job { IsJob (C.algebra site.now.c.now) site.now.nodes site.now.class.now job.old }
    requires budget { budget ≤ MAX_BUDGET }
    ensures { IsJob (C.algebra site.now.c.now) site.now.nodes site.now.class.now job.new }
{
    if site.signs.is_ended() {
        return;
    }
    let stage = replace(&mut job.stage, Stage::Lost);
    let Ok(walk) = search_on(alloc, site, budget, job.number, stage) else {
        return;
    };
    job.stage = Stage::Begun(walk);
}
