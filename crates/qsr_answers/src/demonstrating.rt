//! The command `demo`: a network that a seed states is closed and searched.
ghost use Rattle.std.specs.Prelude.{◌≡◌, ◌++◌, ◌<◌, ◌^◌, length, IfOk};
ghost use Rattle.std.specs.String.{string_bytes};
ghost use Rattle.split_search.specs.Verdicts.{nodes_of};
ghost use Rattle.qsr_words.specs.Requests.{demo_of, IsDemo};
ghost use Rattle.qsr_answers.specs.Texts.{verdict_line};
ghost use Rattle.qsr_answers.specs.Verdicts.{verdict_word, verdict_status};
ghost use Rattle.qsr_answers.specs.Demonstrations.{Demonstrates, demo_head, members_in_all};

use crate::answers::Answer;
use crate::sharing::{searchers_for, workers_for};
use crate::solving::{verdict_line, verdict_status};
use calculus_builtin::rcc8;
use calculus_table::{Memory, Rel};
use closure_workers::close_parallel;
use compose_fast::Fast;
use geo_facts::demo_net;
use parallel_search::solve_parallel;
use qsr_outside::Gate;
use qsr_words::{Demo, MAX_BUDGET};
use split_search::Verdict;
use std::alloc::Global;
use std::thread::Threads;
use tract_classes::h8;

/// The text and the status of the seed's network.
pub fn demonstration<R: Threads + Sync, G: Gate + Sync>(
    rt: &R,
    alloc: Global,
    request: &Demo,
    gate: &G,
) -> Result<Answer, Memory>
    requires { IsDemo (demo_of request.now) }
    ensures { IfOk result (λ answer.
        Demonstrates (demo_of request.now) (string_bytes answer.text) answer.status) }
{
    let (mut net, kept) = demo_net(alloc, request.seed, request.nodes)?;
    let fast = Fast::new(alloc, &rcc8(alloc)?)?;
    let workers = workers_for(&net, &fast, None);
    close_parallel(rt, alloc, &mut net, &fast, workers, gate)?;
    let class = h8(alloc)?;
    let searchers = searchers_for(None);
    let verdict = solve_parallel(rt, alloc, &net, &fast, &class, MAX_BUDGET, searchers, gate)?;
    let text = summary(alloc, request, kept, members_in_all(net.words()), &verdict)?;
    Ok(Answer {
        text,
        status: verdict_status(&verdict),
    })
}

/// How many base relations the sets have in all.
fn members_in_all(words: &[u64]) -> u64
    requires { length words.now < 2 ^ 32 }
    ensures { result ≡ members_in_all words.now }
{
    let mut members = 0;
    for word in words {
        members += u64::from(Rel::of(*word).count());
    }
    members
}

/// The lines of a demonstration.
fn summary(
    alloc: Global,
    request: &Demo,
    kept: u32,
    members: u64,
    verdict: &Verdict,
) -> Result<String, Memory>
    requires { length (nodes_of verdict.now) < 2 ^ 32 }
    ensures { IfOk result (λ text. string_bytes text ≡ demo_head (demo_of request.now) kept members
        ++ verdict_line (verdict_word verdict.now) (nodes_of verdict.now)) }
{
    let (seed, nodes) = (request.seed, request.nodes);
    let verdict = verdict_line(alloc, verdict)?;
    let Ok(text) = format!(in alloc; "demo {seed} {nodes}\nkept {kept}\nbits {members}\n{verdict}")
    else {
        return Err(Memory);
    };
    Ok(text)
}
