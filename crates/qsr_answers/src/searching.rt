//! The search of a network for a scenario: it is closed first. Both may be done by several workers.
ghost use Rattle.std.specs.Prelude.{◌≡◌, ◌<◌, ◌≤◌, ◌^◌, length, IfOk, OnOk};
ghost use Rattle.network_words.specs.Network.{IsNetwork};
ghost use Rattle.split_search.specs.Verdicts.{nodes_of};
ghost use Rattle.qsr_words.specs.declared.TheConstants.{MAX_BUDGET};
ghost use Rattle.qsr_words.specs.Requests.{AreWorkersIfNamed};
ghost use Rattle.qsr_inputs.specs.Inputs.{CanGuide};
ghost use Rattle.qsr_answers.specs.Commands.{IsVerdictOn};
ghost use Rattle.qsr_answers.specs.Verdicts.{HasScenario};

use crate::sharing::{searchers_for, workers_for};
use calculus_table::{Memory, lawful};
use closure_workers::close_parallel;
use compose_fast::Fast;
use network_words::Net;
use parallel_search::solve_parallel;
use qsr_inputs::GuidedCalculus;
use qsr_outside::Gate;
use split_search::Verdict;
use std::alloc::Global;
use std::thread::Threads;

/// The verdict on a network, with at most `budget` splits, by as many workers as are named. The network is left closed.
pub(crate) fn verdict<R: Threads + Sync, G: Gate + Sync>(
    rt: &R,
    alloc: Global,
    net: &mut Net,
    guided: &GuidedCalculus,
    budget: u32,
    workers: Option<u32>,
    gate: &G,
) -> Result<Verdict, Memory>
    requires network { IsNetwork guided.now.calculus.algebra net.old.nodes net.old.words }
    requires guides { CanGuide guided.now }
    requires budget { budget ≤ MAX_BUDGET }
    requires workers { AreWorkersIfNamed workers }
    ensures verdict { IfOk result
        (IsVerdictOn guided.now.calculus guided.now.class budget net.old) }
    ensures scenario { IfOk result (HasScenario guided.now.calculus net.new) }
    ensures few { IfOk result (λ verdict. length (nodes_of verdict) < 2 ^ 32) }
    ensures rest { OnOk result (net.new ≡ record net.old { words = net.new.words }) }
{
    lawful(&guided.calculus);
    let fast = Fast::new(alloc, &guided.calculus)?;
    let closers = workers_for(net, &fast, workers);
    close_parallel(rt, alloc, net, &fast, closers, gate)?;
    let searchers = searchers_for(workers);
    let class = &guided.class;
    solve_parallel(rt, alloc, net, &fast, class, budget, searchers, gate)
}
