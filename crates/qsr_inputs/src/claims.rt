//! The certificate that words name, with the calculus and the polygons that it is of.
ghost use Rattle.std.specs.Prelude.{◌≤◌, ◌<◌, ◌^◌, ◌++◌, ◌∷◌, [], length, option_map, All, IfOk, IfErr, Ok};
ghost use Rattle.std.specs.String.{string_bytes};
ghost use Rattle.qsr_lex.specs.declared.TheConstants.{MAX_TEXT};
ghost use Rattle.cert_file.specs.Written.{IsScenarioFor};
ghost use Rattle.split_trees.specs.Tree.{AreFewSteps};
ghost use Rattle.qsr_words.specs.Requests.{check_of, IsCheck};
ghost use Rattle.qsr_inputs.specs.Stops.{HasCause, IsRefusalOrMemory};
ghost use Rattle.qsr_inputs.specs.Inputs.{CertificateIn, CertificateOf, ClaimedOf, IsOnRcc8};
ghost use Rattle.qsr_inputs.specs.Told.{named_by_calculus, named_by_polygons};
ghost use Rattle.qsr_inputs.specs.Readings.{Fetches};

use crate::inputs::calculus;
use crate::polygons::{Polygons, polygons_asked};
use crate::stops::{Stop, cert_stop};
use crate::texts::document;
use calculus_table::Calculus;
use cert_file::Cert;
use qsr_outside::Shelf;
use qsr_words::Check;
use std::alloc::Global;
use std::marker::Model;

/// A certificate over a calculus, with polygons that have facts.
#[derive(Drop)]
pub struct Claimed {
    pub calculus: Calculus,
    pub certificate: Cert,
    pub polygons: Polygons,
}

impl Model for Claimed {
    ghost use Rattle.qsr_inputs.specs.Inputs.{Claimed};

    ghost Value = { Claimed };

    ghost view = { λ c. record {
      calculus = c.calculus;
      certificate = c.certificate;
      polygons = c.polygons;
    } };
}

/// The calculus, the certificate and the polygons that the words name.
pub fn read_claimed<F: Shelf>(
    alloc: Global,
    shelf: &mut F,
    request: &Check,
) -> Result<Claimed, Stop>
    requires { IsCheck (check_of request.now) }
    ensures given { Fetches F.documents F.faults F.given F.absent_openings
        (named_by_calculus (string_bytes request.now.calculus) ++ (string_bytes request.now.certificate ∷ [])
        ++ named_by_polygons (option_map string_bytes request.now.polygons))
        (λ documents. ClaimedOf documents (string_bytes request.now.calculus) (string_bytes request.now.certificate)
        (option_map string_bytes request.now.polygons)) shelf.old shelf.new result }
    ensures rcc8 { IfOk result (λ claimed. IsOnRcc8 claimed.calculus claimed.polygons) }
    ensures scenario { IfOk result (λ claimed.
        IsScenarioFor claimed.certificate.claim claimed.certificate.scenario) }
    ensures nodes { IfOk result (λ claimed. length claimed.certificate.tree < 2 ^ 32) }
    ensures steps { IfOk result (λ claimed.
        All (λ node. AreFewSteps node.steps) claimed.certificate.tree) }
{
    let calculus = calculus(alloc, shelf, request.calculus.as_str())?;
    let certificate = certificate(alloc, shelf, request.certificate.as_str())?;
    let polygons = polygons_asked(alloc, shelf, &request.polygons)?;
    Ok(Claimed {
        calculus,
        certificate,
        polygons,
    })
}

/// The certificate of the document of this name.
fn certificate<F: Shelf>(alloc: Global, shelf: &mut F, name: &str) -> Result<Cert, Stop>
    ensures certificate { Fetches F.documents F.faults F.given F.absent_openings (name.now ∷ [])
        (λ documents. CertificateOf documents name.now) shelf.old shelf.new result }
    ensures scenario { IfOk result (λ cert. IsScenarioFor cert.claim cert.scenario) }
    ensures nodes { IfOk result (λ cert. length cert.tree < 2 ^ 32) }
    ensures steps { IfOk result (λ cert. All (λ node. AreFewSteps node.steps) cert.tree) }
{
    let text = document(alloc, shelf, name)?;
    certificate_in(alloc, &text.bytes)
}

/// The certificate that bytes are.
fn certificate_in(alloc: Global, bytes: &[u8]) -> Result<Cert, Stop>
    requires { length bytes.now ≤ MAX_TEXT }
    ensures value { IfOk result (λ cert. CertificateIn bytes.now (Ok cert)) }
    ensures scenario { IfOk result (λ cert. IsScenarioFor cert.claim cert.scenario) }
    ensures nodes { IfOk result (λ cert. length cert.tree < 2 ^ 32) }
    ensures steps { IfOk result (λ cert. All (λ node. AreFewSteps node.steps) cert.tree) }
    ensures cause { IfErr result (HasCause (CertificateIn bytes.now)) }
    ensures refusal { IfErr result IsRefusalOrMemory }
{
    match cert_file::read(alloc, bytes) {
        Ok(cert) => Ok(cert),
        Err(fault) => Err(cert_stop(fault)),
    }
}
