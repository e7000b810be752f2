//! The command `trace`: an accepted certificate is written again, where its tree lists the steps of each node.
ghost use Rattle.std.specs.Prelude.{◌≡◌, ◌<◌, ◌^◌, length, All, IfOk, MatchResult};
ghost use Rattle.std.specs.String.{string_bytes};
ghost use Rattle.network_words.specs.Network.{IsNetwork};
ghost use Rattle.cert_file.specs.Written.{IsScenarioFor};
ghost use Rattle.split_trees.specs.Tree.{AreFewSteps};
ghost use Rattle.split_trees.specs.Refutes.{IsRefutation};
ghost use Rattle.qsr_answers.specs.Commands.{TracesCertificate};
ghost use Rattle.qsr_answers.specs.Certificates.{IsAccepted, IsNotAccepted, IsTracedForm, HasTracedTree, FailsTree};

use crate::answers::{Answer, not_accepted};
use crate::failures::{Failure, is_of_network, other_network, scenario_failure, tree_failure};
use calculus_table::{Calculus, Memory};
use cert_file::{Cert, Claim, text};
use compose_fast::Fast;
use network_words::Net;
use qsr_inputs::{Claimed, Status};
use refutation::trace;
use std::alloc::Global;

/// The certificate in its traced form, or why it isn't accepted.
pub fn traced_answer(alloc: Global, net: &Net, claimed: Claimed) -> Result<Answer, Memory>
    requires network { IsNetwork claimed.calculus.algebra net.now.nodes net.now.words }
    requires scenario { IsScenarioFor claimed.certificate.claim claimed.certificate.scenario }
    requires nodes { length claimed.certificate.tree < 2 ^ 32 }
    requires steps { All (λ node. AreFewSteps node.steps) claimed.certificate.tree }
    ensures { IfOk result (λ answer. TracesCertificate claimed.calculus claimed.certificate net.now
        (string_bytes answer.text) answer.status) }
{
    let certificate = claimed.certificate;
    match traced(alloc, net, &claimed.calculus, certificate)? {
        Ok(certificate) => Ok(Answer {
            text: text(alloc, &certificate)?,
            status: Status::Done,
        }),
        Err(failure) => { not_accepted(alloc, failure.number, failure.place).map_err(|_| Memory) }
    }
}

/// The certificate in its traced form: a yes as it is, and another claim with the traced tree.
fn traced(
    alloc: Global,
    net: &Net,
    calculus: &Calculus,
    certificate: Cert,
) -> Result<Result<Cert, Failure>, Memory>
    requires network { IsNetwork calculus.now.algebra net.now.nodes net.now.words }
    requires scenario { IsScenarioFor certificate.claim certificate.scenario }
    requires nodes { length certificate.tree < 2 ^ 32 }
    requires steps { All (λ node. AreFewSteps node.steps) certificate.tree }
    ensures { IfOk result (λ made. MatchResult made
        (λ form. IsAccepted calculus.now net.now certificate
        × IsTracedForm calculus.now net.now certificate form certificate.claim)
        (λ f. IsNotAccepted calculus.now net.now certificate f.number f.place)) }
{
    if !is_of_network(calculus, net, &certificate) {
        return Ok(Err(other_network()));
    }
    match (certificate.claim, &certificate.scenario) {
        (Claim::Yes, Some(scenario)) => match scenario_failure(net, calculus, scenario) {
            None => Ok(Ok(certificate)),
            Some(failure) => Ok(Err(failure)),
        },
        _ => with_traced_tree(alloc, net, calculus, certificate),
    }
}

/// The certificate with the traced tree, or why its tree doesn't refute the network.
fn with_traced_tree(
    alloc: Global,
    net: &Net,
    calculus: &Calculus,
    certificate: Cert,
) -> Result<Result<Cert, Failure>, Memory>
    requires network { IsNetwork calculus.now.algebra net.now.nodes net.now.words }
    requires nodes { length certificate.tree < 2 ^ 32 }
    requires steps { All (λ node. AreFewSteps node.steps) certificate.tree }
    ensures { IfOk result (λ made. MatchResult made
        (λ form. IsRefutation calculus.now.algebra net.now.nodes net.now.words certificate.tree
        × HasTracedTree calculus.now net.now certificate form)
        (λ f. FailsTree calculus.now net.now f.number f.place certificate.tree)) }
{
    let fast = Fast::new(alloc, calculus)?;
    match trace(alloc, net, &fast, &certificate.tree) {
        Ok(tree) => Ok(Ok(Cert {
            tree,
            ..certificate
        })),
        Err(fault) => Ok(Err(tree_failure(fault)?)),
    }
}
