//! Reading certificates.
//!
//! The bytes are read as JSON first, by `serde_json`: whitespace, the order of the keys and further keys don't matter,
//! and of a key that is given twice the last value counts. Then the keys are looked at in their order, and the first
//! that hasn't a value of the right form decides. Each value is looked at once, and reading takes time linear in the
//! text.
ghost use Rattle.std.specs.Prelude.{◌≡◌, ◌<◌, ◌^◌, length, IfOk, IfErr, Ok, MatchResult, All};
ghost use Rattle.serde_json.specs.View.{view};
ghost use Rattle.line_files.specs.Steps.{FailsExcept};
ghost use Rattle.split_trees.specs.Tree.{AreFewSteps};
ghost use Rattle.cert_file.specs.Fields.{keys_of, certificate_of};
ghost use Rattle.cert_file.specs.Files.{IsFileOf, IsFaultOf};
ghost use Rattle.cert_file.specs.declared.fault.CertFault.{CertFault};

use crate::claim::Cert;
use crate::fault::CertFault;
use crate::fields::{claim, node_count, relations, scenario, tree, version};
use serde_json::Value;
use std::alloc::Global;

/// Reads a certificate.
pub fn read(alloc: Global, bytes: &[u8]) -> Result<Cert, CertFault>
    requires { length bytes.now < 2 ^ 32 }
    ensures answer { MatchResult result (IsFileOf bytes.now) (IsFaultOf bytes.now) }
    ensures nodes { IfOk result (λ cert. length cert.tree < 2 ^ 32) }
    ensures steps { IfOk result (λ cert. All (λ node. AreFewSteps node.steps) cert.tree) }
{
    let value = match Value::from_slice(alloc, bytes) {
        Ok(value) => value,
        Err(error) if error.is_memory() => return Err(CertFault::Memory),
        Err(_) => return Err(CertFault::NotJson),
    };
    certificate(alloc, &value)
}

/// The certificate that a JSON value is.
fn certificate(alloc: Global, value: &Value) -> Result<Cert, CertFault>
    ensures ok { IfOk result (λ cert. certificate_of (view value.now) ≡ Ok cert) }
    ensures nodes { IfOk result (λ cert. length cert.tree < 2 ^ 32) }
    ensures steps { IfOk result (λ cert. All (λ node. AreFewSteps node.steps) cert.tree) }
    ensures fault { IfErr result (FailsExcept CertFault.Memory (certificate_of (view value.now))) }
{
    if !value.is_object() {
        return Err(CertFault::Field { field: 0, index: 0 });
    }
    keys(alloc, value)
}

/// The certificate of an object's keys.
fn keys(alloc: Global, value: &Value) -> Result<Cert, CertFault>
    ensures ok { IfOk result (λ cert. keys_of (view value.now) ≡ Ok cert) }
    ensures nodes { IfOk result (λ cert. length cert.tree < 2 ^ 32) }
    ensures steps { IfOk result (λ cert. All (λ node. AreFewSteps node.steps) cert.tree) }
    ensures fault { IfErr result (FailsExcept CertFault.Memory (keys_of (view value.now))) }
{
    let version = version(value).map_err(|wrong| wrong.at_key(6))?;
    let nodes = node_count(value).map_err(|wrong| wrong.at_key(1))?;
    let relations = relations(alloc, value).map_err(|wrong| wrong.at_key(2))?;
    let claim = claim(value).map_err(|wrong| wrong.at_key(5))?;
    let scenario = scenario(alloc, claim, value).map_err(|wrong| wrong.at_key(3))?;
    let tree = tree(alloc, version, value).map_err(|wrong| wrong.at_key(4))?;
    Ok(Cert {
        nodes,
        relations,
        claim,
        scenario,
        tree,
    })
}
