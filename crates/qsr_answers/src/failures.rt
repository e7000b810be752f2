//! Whether a certificate is of a network and shows a scenario, and the number and the place of what it fails by.
ghost use Rattle.std.specs.Prelude.{◌≡◌, ◌↔◌, map, IsTrue, IfOk, MatchOption, Some};
ghost use Rattle.std.specs.String.{string_bytes};
ghost use Rattle.network_words.specs.Scenario.{IsScenario};
ghost use Rattle.qsr_answers.specs.Failures.{other_network, tree_refusal};
ghost use Rattle.qsr_answers.specs.Certificates.{IsOfNetwork, FailsScenario};

use calculus_table::{Calculus, Memory};
use cert_file::Cert;
use network_words::Net;
use qsr_inputs::Place;
use refutation::TreeFault;
use scenario::{At, Scenario};

/// Why a certificate isn't accepted.
#[derive(Clone, Copy, Debug, PartialEq, Eq)]
pub(crate) struct Failure {
    pub(crate) number: u32,
    pub(crate) place: Place,
}

/// Why a certificate isn't of the network: it is of another.
pub(crate) fn other_network() -> Failure
    ensures { (result.number, result.place) ≡ other_network }
{
    Failure {
        number: 27,
        place: Place::none(),
    }
}

/// Whether the certificate is of a network of so many nodes over these base relations.
pub(crate) fn is_of_network(calculus: &Calculus, net: &Net, certificate: &Cert) -> bool
    ensures { IsTrue result ↔ IsOfNetwork calculus.now net.now certificate.now }
{
    certificate.nodes == net.nodes() && are_names(&certificate.relations, calculus)
}

/// Whether these are the names of the base relations.
fn are_names(names: &[String], calculus: &Calculus) -> bool
    ensures { IsTrue result ↔ (map string_bytes names.now ≡ calculus.now.names) }
{
    names == calculus.names()
}

/// Why a list of base relations is no scenario of the network.
pub(crate) fn scenario_failure(
    net: &Net,
    calculus: &Calculus,
    scenario: &Scenario,
) -> Option<Failure>
    ensures { MatchOption result
        (IsScenario calculus.now.algebra net.now.nodes net.now.words scenario.now)
        (λ f. FailsScenario calculus.now net.now f.number f.place scenario.now) }
{
    match scenario::check(net, calculus, scenario) {
        Ok(()) => None,
        Err(At::Outside { i, j }) => Some(Failure {
            number: 25,
            place: Place::at_two(u64::from(i), u64::from(j)),
        }),
        Err(At::Triple { i, j, k }) => Some(Failure {
            number: 26,
            place: Place {
                count: 3,
                a: u64::from(i),
                b: u64::from(j),
                c: u64::from(k),
            },
        }),
        Err(At::Shape) => Some(other_network()),
    }
}

/// The number and the place of a fault of a tree; out of memory has none.
pub(crate) fn tree_failure(fault: TreeFault) -> Result<Failure, Memory>
    ensures value { IfOk result (λ f. tree_refusal fault ≡ Some (f.number, f.place)) }
{
    let (number, place) = match fault {
        TreeFault::Uncovered { node } => (28, Place::at(u64::from(node))),
        TreeFault::NotEmpty { node } => (29, Place::at(u64::from(node))),
        TreeFault::BadTree { node } => (30, Place::at(u64::from(node))),
        TreeFault::BadStep { node, step } => {
            (51, Place::at_two(u64::from(node), u64::from(step)))
        }
        TreeFault::Memory => return Err(Memory),
    };
    Ok(Failure { number, place })
}
