//! The command `intervals`: a network over Allen's calculus is searched for a scenario, and intervals that realise it are
//! written.
ghost use Rattle.std.specs.Prelude.{◌≡◌, ◌^◌, ◌<◌, ◌++◌, length, codes, IfOk, OnOk};
ghost use Rattle.std.specs.Fmt.{decimal};
ghost use Rattle.std.specs.String.{string_bytes};
ghost use Rattle.calculus_builtin.specs.Allen.{allen_algebra, allen_calculus};
ghost use Rattle.network_words.specs.Network.{IsNetwork};
ghost use Rattle.network_words.specs.Scenario.{IsScenario};
ghost use Rattle.network_words.specs.declared.TheConstants.{MAX_NODES};
ghost use Rattle.qsr_lex.specs.Printed.{text_below};
ghost use Rattle.split_search.specs.Verdicts.{nodes_of};
ghost use Rattle.qsr_words.specs.Requests.{intervals_of, IsIntervalSearch};
ghost use Rattle.qsr_inputs.specs.Inputs.{CanGuide};
ghost use Rattle.qsr_answers.specs.Commands.{RealisesNetwork};
ghost use Rattle.qsr_answers.specs.Intervals.{node_text, interval_line, TellsIntervals, IsIntervalsText};
ghost use Rattle.qsr_answers.specs.Verdicts.{HasScenario};

use crate::answers::Answer;
use crate::searching::verdict;
use crate::solving::{line, verdict_line, verdict_status};
use allen_real::{Interval, laws_of_realisations, realise};
use calculus_table::Memory;
use network_words::Net;
use qsr_inputs::GuidedCalculus;
use qsr_outside::Gate;
use qsr_words::Intervals;
use refutation::Tree;
use scenario::Scenario;
use split_search::Verdict;
use std::alloc::{AllocError, Global};
use std::thread::Threads;

/// The answer to a search of the network for intervals.
pub fn realised_answer<R: Threads + Sync, G: Gate + Sync>(
    rt: &R,
    alloc: Global,
    mut net: Net,
    guided: &GuidedCalculus,
    request: &Intervals,
    gate: &G,
) -> Result<Answer, Memory>
    requires allen { guided.now.calculus ≡ allen_calculus }
    requires network { IsNetwork guided.now.calculus.algebra net.nodes net.words }
    requires guides { CanGuide guided.now }
    requires search { IsIntervalSearch (intervals_of request.now) }
    ensures { IfOk result (λ answer. RealisesNetwork (intervals_of request.now)
        guided.now.class net (string_bytes answer.text) answer.status) }
{
    let (budget, workers) = (request.budget, request.workers);
    let verdict = verdict(rt, alloc, &mut net, guided, budget, workers, gate)?;
    let status = verdict_status(&verdict);
    let text = intervals_text(alloc, &net, &verdict)?;
    Ok(Answer { text, status })
}

/// The text of a verdict on a network: its line, and after a yes the intervals of its nodes.
fn intervals_text(alloc: Global, net: &Net, verdict: &Verdict) -> Result<String, Memory>
    requires few { length (nodes_of verdict.now) < 2 ^ 32 }
    requires scenario { HasScenario allen_calculus net.now verdict.now }
    ensures { IfOk result (λ text. IsIntervalsText net.now verdict.now (string_bytes text)) }
{
    match verdict {
        Verdict::Yes(scenario, tree) => realised_text(alloc, net, scenario, tree),
        Verdict::No(_) | Verdict::Budget(_) => verdict_line(alloc, verdict),
    }
}

/// The line of a yes, and a line for each node with its interval.
fn realised_text(
    alloc: Global,
    net: &Net,
    scenario: &Scenario,
    tree: &Tree,
) -> Result<String, Memory>
    requires few { length tree.now < 2 ^ 32 }
    requires scenario { IsScenario allen_algebra net.now.nodes net.now.words scenario.now }
    ensures { IfOk result (λ text.
        TellsIntervals net.now.nodes net.now.names scenario.now tree.now (string_bytes text)) }
{
    laws_of_realisations();
    let intervals = realise(alloc, scenario, net.nodes())?;
    let mut text = line(alloc, "yes", tree)?;
    match push_intervals(&mut text, net, &intervals) {
        Ok(()) => Ok(text),
        Err(_) => Err(Memory),
    }
}

/// Appends a line for each node with its interval.
fn push_intervals(text: &mut String, net: &Net, intervals: &[Interval]) -> Result<(), AllocError>
    requires { length intervals.now ≡ net.now.nodes }
    ensures { OnOk result (string_bytes text.new ≡ string_bytes text.old
        ++ text_below net.now.nodes (interval_line net.now.names intervals.now)) }
{
    for node in 0..net.nodes() {
        push_node(text, net, node)?;
        push_interval(text, intervals[node as usize])?;
    }
    Ok(())
}

/// Appends the name of a node, or its number where the nodes have no names, and a space.
fn push_node(text: &mut String, net: &Net, node: u32) -> Result<(), AllocError>
    requires { node < net.now.nodes }
    ensures { OnOk result
        (string_bytes text.new ≡ string_bytes text.old ++ node_text net.now.names node) }
{
    match net.name(node) {
        Some(name) => write!(text, "{name} ")?,
        None => write!(text, "{node} ")?,
    }
    Ok(())
}

/// Appends where an interval begins and ends, and the end of the line.
fn push_interval(text: &mut String, interval: Interval) -> Result<(), AllocError>
    ensures { OnOk result (string_bytes text.new ≡ string_bytes text.old
        ++ decimal interval.lo ++ codes " " ++ decimal interval.hi ++ codes "\n") }
{
    let Interval { lo, hi } = interval;
    writeln!(text, "{lo} {hi}")?;
    Ok(())
}
