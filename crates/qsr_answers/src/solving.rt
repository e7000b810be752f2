//! The command `solve`: a network is closed, and searched for a scenario. The verdict is written.
ghost use Rattle.std.specs.Prelude.{◌≡◌, ◌^◌, ◌<◌, ◌++◌, length, map, codes, IfOk};
ghost use Rattle.std.specs.String.{string_bytes};
ghost use Rattle.network_words.specs.Network.{IsNetwork};
ghost use Rattle.network_words.specs.Scenario.{IsScenario, as_network};
ghost use Rattle.network_file.specs.NetworkText.{network_text};
ghost use Rattle.cert_file.specs.Written.{certificate_text};
ghost use Rattle.split_search.specs.Verdicts.{nodes_of};
ghost use Rattle.qsr_words.specs.Requests.{solve_of, IsSearch};
ghost use Rattle.qsr_inputs.specs.Inputs.{CanGuide};
ghost use Rattle.qsr_answers.specs.Commands.{SolvesNetwork};
ghost use Rattle.qsr_answers.specs.Texts.{verdict_line};
ghost use Rattle.qsr_answers.specs.Certificates.{certificate_of};
ghost use Rattle.qsr_answers.specs.Verdicts.{HasScenario, verdict_word, verdict_status, verdict_text, answer_text};

use crate::answers::Answer;
use crate::searching::verdict;
use calculus_table::{Calculus, Memory, lawful};
use cert_file::{Cert, Claim};
use network_file::text;
use network_words::Net;
use qsr_inputs::{GuidedCalculus, Status};
use qsr_outside::Gate;
use qsr_words::Solve;
use refutation::Tree;
use scenario::{Scenario, make_atomic};
use split_search::Verdict;
use std::alloc::Global;
use std::thread::Threads;

/// The answer to a search of the network. It is made with the calculus' tables, and written with its names.
pub fn solved_answer<R: Threads + Sync, G: Gate + Sync>(
    rt: &R,
    alloc: Global,
    mut net: Net,
    guided: &GuidedCalculus,
    request: &Solve,
    gate: &G,
) -> Result<Answer, Memory>
    requires network { IsNetwork guided.now.calculus.algebra net.nodes net.words }
    requires guides { CanGuide guided.now }
    requires search { IsSearch (solve_of request.now) }
    ensures { IfOk result (λ answer. SolvesNetwork (solve_of request.now) guided.now.calculus
        guided.now.class net (string_bytes answer.text) answer.status) }
{
    let (budget, workers) = (request.budget, request.workers);
    let verdict = verdict(rt, alloc, &mut net, guided, budget, workers, gate)?;
    let status = verdict_status(&verdict);
    let text = answer_text(alloc, net, &guided.calculus, verdict, request.cert)?;
    Ok(Answer { text, status })
}

/// The text of a verdict on a network, or the line of its certificate.
fn answer_text(
    alloc: Global,
    net: Net,
    calculus: &Calculus,
    verdict: Verdict,
    is_cert: bool,
) -> Result<String, Memory>
    requires few { length (nodes_of verdict) < 2 ^ 32 }
    requires scenario { HasScenario calculus.now net verdict }
    ensures { IfOk result (λ text. string_bytes text ≡ answer_text is_cert calculus.now net verdict) }
{
    if is_cert {
        certificate_text(alloc, &net, calculus, verdict)
    } else {
        verdict_text(alloc, net, calculus, &verdict)
    }
}

/// How a run ends that writes this verdict.
pub(crate) fn verdict_status(verdict: &Verdict) -> Status
    ensures { result ≡ verdict_status verdict.now }
{
    match verdict {
        Verdict::Yes(_, _) => Status::Done,
        Verdict::No(_) => Status::No,
        Verdict::Budget(_) => Status::Budget,
    }
}

/// The line of a verdict: its word, and the number of splits.
pub(crate) fn verdict_line(alloc: Global, verdict: &Verdict) -> Result<String, Memory>
    requires { length (nodes_of verdict.now) < 2 ^ 32 }
    ensures { IfOk result (λ line.
        string_bytes line ≡ verdict_line (verdict_word verdict.now) (nodes_of verdict.now)) }
{
    match verdict {
        Verdict::Yes(_, tree) => line(alloc, "yes", tree),
        Verdict::No(tree) => line(alloc, "no", tree),
        Verdict::Budget(tree) => line(alloc, "budget", tree),
    }
}

/// The text of a verdict on a network.
fn verdict_text(
    alloc: Global,
    net: Net,
    calculus: &Calculus,
    verdict: &Verdict,
) -> Result<String, Memory>
    requires few { length (nodes_of verdict.now) < 2 ^ 32 }
    requires scenario { HasScenario calculus.now net verdict.now }
    ensures { IfOk result (λ text. string_bytes text ≡ verdict_text calculus.now net verdict.now) }
{
    match verdict {
        Verdict::Yes(scenario, tree) => scenario_text(alloc, net, calculus, scenario, tree),
        Verdict::No(_) | Verdict::Budget(_) => verdict_line(alloc, verdict),
    }
}

/// The line of the certificate of a verdict on a network.
fn certificate_text(
    alloc: Global,
    net: &Net,
    calculus: &Calculus,
    verdict: Verdict,
) -> Result<String, Memory>
    ensures { IfOk result (λ text.
        string_bytes text ≡ certificate_text (certificate_of calculus.now net.now verdict)) }
{
    let (claim, scenario, tree) = match verdict {
        Verdict::Yes(scenario, tree) => (Claim::Yes, Some(scenario), tree),
        Verdict::No(tree) => (Claim::No, None, tree),
        Verdict::Budget(tree) => (Claim::Budget, None, tree),
    };
    let certificate = Cert {
        nodes: net.nodes(),
        relations: copied(alloc, calculus.names())?,
        claim,
        scenario,
        tree,
    };
    cert_file::text(alloc, &certificate)
}

/// The names once more.
fn copied(alloc: Global, names: &[String]) -> Result<Vec<String>, Memory>
    ensures { IfOk result (λ copy.
        map string_bytes copy.items ≡ map string_bytes names.now) }
{
    let mut copy = Vec::new(alloc);
    for name in names {
        let name = name.clone().map_err(|_| Memory)?;
        copy.push(name).map_err(|_| Memory)?;
    }
    Ok(copy)
}

/// The line of a yes, and the scenario as a network.
fn scenario_text(
    alloc: Global,
    mut net: Net,
    calculus: &Calculus,
    scenario: &Scenario,
    tree: &Tree,
) -> Result<String, Memory>
    requires few { length tree.now < 2 ^ 32 }
    requires scenario { IsScenario calculus.now.algebra net.nodes net.words scenario.now }
    ensures { IfOk result (λ text. string_bytes text ≡ verdict_line (codes "yes") tree.now
        ++ network_text calculus.now (record net { words = as_network scenario.now })) }
{
    lawful(calculus);
    make_atomic(&mut net, scenario);
    let mut whole = line(alloc, "yes", tree)?;
    let lines = text(alloc, &net, calculus)?;
    let Ok(()) = whole.push_str(lines.as_str()) else {
        return Err(Memory);
    };
    Ok(whole)
}

/// The line of a verdict: its word, and the number of splits.
pub(crate) fn line(alloc: Global, word: &str, tree: &Tree) -> Result<String, Memory>
    requires { length tree.now < 2 ^ 32 }
    ensures { IfOk result (λ line. string_bytes line ≡ verdict_line word.now tree.now) }
{
    let splits = tree.splits();
    let Ok(line) = format!(in alloc; "{word} {splits}\n") else {
        return Err(Memory);
    };
    Ok(line)
}
