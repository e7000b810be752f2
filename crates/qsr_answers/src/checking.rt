//! The command `check`: whether a certificate shows what it claims of a network.
ghost use Rattle.std.specs.Prelude.{◌≡◌, ◌<◌, ◌^◌, length, All, IfOk, MatchOption};
ghost use Rattle.std.specs.String.{string_bytes};
ghost use Rattle.network_words.specs.Network.{IsNetwork};
ghost use Rattle.cert_file.specs.Written.{IsScenarioFor};
ghost use Rattle.split_trees.specs.Tree.{AreFewSteps};
ghost use Rattle.split_trees.specs.Refutes.{IsRefutation};
ghost use Rattle.qsr_answers.specs.Certificates.{IsAccepted, IsNotAccepted, FailsTree};
ghost use Rattle.qsr_answers.specs.Commands.{JudgesCertificate};

use crate::answers::{Answer, accepted, not_accepted};
use crate::failures::{Failure, is_of_network, other_network, scenario_failure, tree_failure};
use calculus_table::{Calculus, Memory};
use cert_file::{Cert, Claim};
use compose_fast::Fast;
use network_words::Net;
use qsr_inputs::Claimed;
use refutation::Tree;
use std::alloc::Global;

/// Whether the certificate shows what it claims of the network.
pub fn checked_answer(alloc: Global, net: &Net, claimed: &Claimed) -> Result<Answer, Memory>
    requires network { IsNetwork claimed.now.calculus.algebra net.now.nodes net.now.words }
    requires scenario { IsScenarioFor claimed.now.certificate.claim claimed.now.certificate.scenario }
    requires nodes { length claimed.now.certificate.tree < 2 ^ 32 }
    requires steps { All (λ node. AreFewSteps node.steps) claimed.now.certificate.tree }
    ensures { IfOk result (λ answer. JudgesCertificate claimed.now.calculus claimed.now.certificate net.now
        (string_bytes answer.text) answer.status) }
{
    let answer = match failure(alloc, net, &claimed.calculus, &claimed.certificate)? {
        None => accepted(alloc),
        Some(failure) => not_accepted(alloc, failure.number, failure.place),
    };
    answer.map_err(|_| Memory)
}

/// Why the certificate isn't accepted, if it isn't.
fn failure(
    alloc: Global,
    net: &Net,
    calculus: &Calculus,
    certificate: &Cert,
) -> Result<Option<Failure>, Memory>
    requires network { IsNetwork calculus.now.algebra net.now.nodes net.now.words }
    requires scenario { IsScenarioFor certificate.now.claim certificate.now.scenario }
    requires nodes { length certificate.now.tree < 2 ^ 32 }
    requires steps { All (λ node. AreFewSteps node.steps) certificate.now.tree }
    ensures { IfOk result (λ found. MatchOption found
        (IsAccepted calculus.now net.now certificate.now)
        (λ f. IsNotAccepted calculus.now net.now certificate.now f.number f.place)) }
{
    if !is_of_network(calculus, net, certificate) {
        return Ok(Some(other_network()));
    }
    match (certificate.claim, &certificate.scenario) {
        (Claim::Yes, Some(scenario)) => Ok(scenario_failure(net, calculus, scenario)),
        _ => refutation_failure(alloc, net, calculus, &certificate.tree),
    }
}

/// Why the tree doesn't refute the network, if it doesn't.
fn refutation_failure(
    alloc: Global,
    net: &Net,
    calculus: &Calculus,
    tree: &Tree,
) -> Result<Option<Failure>, Memory>
    requires network { IsNetwork calculus.now.algebra net.now.nodes net.now.words }
    requires nodes { length tree.now < 2 ^ 32 }
    requires steps { All (λ node. AreFewSteps node.steps) tree.now }
    ensures { IfOk result (λ found. MatchOption found
        (IsRefutation calculus.now.algebra net.now.nodes net.now.words tree.now)
        (λ f. FailsTree calculus.now net.now f.number f.place tree.now)) }
{
    let fast = Fast::new(alloc, calculus)?;
    match refutation::check(alloc, net, &fast, tree) {
        Ok(()) => Ok(None),
        Err(fault) => Ok(Some(tree_failure(fault)?)),
    }
}
