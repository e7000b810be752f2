//! Writing certificates.
//!
//! The JSON value of a certificate is built, and `serde_json` writes it without spaces, with the keys in the order of
//! their bytes. A line end comes last. Each number that is written fits its type, which reading asks for.
ghost use Rattle.std.specs.Prelude.{◌≡◌, map, IfOk, OnOk, codes, ◌++◌, ◌∷◌};
ghost use Rattle.std.specs.List.{list_all};
ghost use Rattle.std.specs.String.{string_bytes};
ghost use Rattle.serde_json.specs.Data.{string, put as with_member};
ghost use Rattle.serde_json.specs.View.{view, members_view};
ghost use Rattle.split_trees.specs.Steps.{node_steps};
ghost use Rattle.cert_file.specs.Nodes.{kind_name};
ghost use Rattle.cert_file.specs.Fields.{claim_name};
ghost use Rattle.cert_file.specs.Written.{number_json, list_json, steps_json, steps_entries, node_entries, node_json};
ghost use Rattle.cert_file.specs.Written.{version_for, put_scenario};
ghost use Rattle.cert_file.specs.Written.{is_swept, is_swept_node, version_number, certificate_json, certificate_text};
ghost use Rattle.cert_file.specs.Written.{HasForms, AreStepsOfNumbers, IsSplitOfNumbers, IsNodeOfNumbers};
ghost use Rattle.cert_file.specs.Written.{IsTreeOfNumbers, AreBaseNumbers, HasNumbers};
ghost use Rattle.cert_file.specs.Files.{IsFileOf};

use crate::claim::{Cert, Claim, Version};
use crate::json_values::{ToJson, list_value};
use calculus_table::Memory;
use scenario::Scenario;
use serde_json::{Map, Value, put};
use split_trees::{Kind, Node, Steps};
use std::alloc::{AllocError, Global};

/// The text of a certificate: a line of JSON, with its line end. It is a file of the certificate where that has the
/// forms that reading asks for, as those have that a search or `read` makes.
pub fn text(alloc: Global, cert: &Cert) -> Result<String, Memory>
    ensures text { IfOk result (λ text. string_bytes text ≡ certificate_text cert.now) }
    ensures file { IfOk result (λ text. HasForms cert.now → IsFileOf (string_bytes text) cert.now) }
{
    line(alloc, cert).map_err(|_| Memory)
}

/// The line.
fn line(alloc: Global, cert: &Cert) -> Result<String, AllocError>
    ensures text { IfOk result (λ text. string_bytes text ≡ certificate_text cert.now) }
    ensures file { IfOk result (λ text. HasForms cert.now → IsFileOf (string_bytes text) cert.now) }
{
    let value = certificate_value(alloc, cert)?;
    let mut text = value.to_string(alloc)?;
    text.push_str("\n")?;
    Ok(text)
}

/// The JSON value of a certificate.
fn certificate_value(alloc: Global, cert: &Cert) -> Result<Value, AllocError>
    ensures value { IfOk result (λ value. view value ≡ certificate_json cert.now) }
    ensures numbers { IfOk result (λ _. HasNumbers cert.now) }
{
    let version = version_for(&cert.tree.nodes);
    let mut members = Map::new(alloc);
    put_network(alloc, cert, &mut members)?;
    put_scenario(alloc, &cert.scenario, &mut members)?;
    let tree = tree_value(alloc, version, &cert.tree.nodes)?;
    put(&mut members, alloc, "tree", tree)?;
    put_claim(alloc, cert.claim, version, &mut members)?;
    Ok(Value::Object(members))
}

/// Puts the number of nodes and the names of the base relations.
fn put_network(
    alloc: Global,
    cert: &Cert,
    members: &mut Map<String, Value>,
) -> Result<(), AllocError>
    ensures { OnOk result (members_view members.new.entries
        ≡ with_member (codes "relations") (list_json string cert.now.relations)
        (with_member (codes "nodes") (number_json cert.now.nodes) (members_view members.old.entries))) }
{
    put(members, alloc, "nodes", Value::from(cert.nodes))?;
    let relations = list_value(alloc, &cert.relations)?;
    put(members, alloc, "relations", relations)?;
    Ok(())
}

/// Puts the scenario, where there is one.
fn put_scenario(
    alloc: Global,
    scenario: &Option<Scenario>,
    members: &mut Map<String, Value>,
) -> Result<(), AllocError>
    ensures value { OnOk result (members_view members.new.entries
        ≡ put_scenario scenario.now (members_view members.old.entries)) }
    ensures numbers { OnOk result (AreBaseNumbers scenario.now) }
{
    if let Some(scenario) = scenario {
        let bases = list_value(alloc, &scenario.bases)?;
        put(members, alloc, "scenario", bases)?;
    }
    Ok(())
}

/// Puts the claim and the version.
fn put_claim(
    alloc: Global,
    claim: Claim,
    version: Version,
    members: &mut Map<String, Value>,
) -> Result<(), AllocError>
    ensures { OnOk result (members_view members.new.entries
        ≡ with_member (codes "version") (number_json (version_number version))
        (with_member (codes "verdict") (string (claim_name claim)) (members_view members.old.entries))) }
{
    let name = Value::try_from_str(alloc, claim_name(claim))?;
    put(members, alloc, "verdict", name)?;
    put(
        members,
        alloc,
        "version",
        Value::from(version_number(version)),
    )?;
    Ok(())
}

/// The version that a tree needs: the first, if its nodes are all swept.
fn version_for(nodes: &[Node]) -> Version
    ensures { result ≡ version_for nodes.now }
{
    if are_swept(nodes) {
        Version::One
    } else {
        Version::Two
    }
}

/// Whether every node is swept.
fn are_swept(nodes: &[Node]) -> bool
    ensures { result ≡ list_all is_swept_node nodes.now }
{
    nodes.iter().all(|node| is_swept(&node.steps))
}

/// Whether the steps say to sweep.
fn is_swept(steps: &Steps) -> bool
    ensures { result ≡ is_swept (node_steps steps.now) }
{
    matches!(steps, Steps::Sweep)
}

/// The number of a version.
fn version_number(version: Version) -> u32
    ensures { result ≡ version_number version }
{
    match version {
        Version::One => 1,
        Version::Two => 2,
    }
}

/// The name of a claim.
fn claim_name(claim: Claim) -> &'static str
    ensures { result.now ≡ claim_name claim }
{
    match claim {
        Claim::Yes => "yes",
        Claim::No => "no",
        Claim::Budget => "budget",
    }
}

/// The JSON value of a tree.
fn tree_value(alloc: Global, version: Version, nodes: &[Node]) -> Result<Value, AllocError>
    ensures value { IfOk result (λ value. view value ≡ list_json (node_json version) nodes.now) }
    ensures numbers { IfOk result (λ _. IsTreeOfNumbers version nodes.now) }
{
    let mut values = Vec::new(alloc);
    for node in nodes {
        let value = node_value(alloc, version, node)?;
        values.push(value)?;
    }
    Ok(Value::Array(values))
}

/// The JSON value of a node.
fn node_value(alloc: Global, version: Version, node: &Node) -> Result<Value, AllocError>
    ensures value { IfOk result (λ value. view value ≡ node_json version node.now) }
    ensures numbers { IfOk result (λ _. IsNodeOfNumbers version node.now.kind node.now) }
{
    let mut entries = Vec::new(alloc);
    entries.push(Value::try_from_str(alloc, kind_name(node.kind))?)?;
    match node.kind {
        Kind::Empty => push_steps(alloc, version, &node.steps, &mut entries)?,
        Kind::Found | Kind::Open | Kind::Later => {}
        Kind::Split => push_split(alloc, version, node, &mut entries)?,
    }
    Ok(Value::Array(entries))
}

/// The name of a kind.
fn kind_name(kind: Kind) -> &'static str
    ensures { result.now ≡ kind_name kind }
{
    match kind {
        Kind::Empty => "empty",
        Kind::Found => "found",
        Kind::Open => "open",
        Kind::Later => "later",
        Kind::Split => "split",
    }
}

/// Appends the entries of a split after its kind.
fn push_split(
    alloc: Global,
    version: Version,
    node: &Node,
    entries: &mut Vec<Value>,
) -> Result<(), AllocError>
    ensures value { OnOk result (map view entries.new.items
        ≡ map view entries.old.items ++ node_entries version Kind.Split node.now) }
    ensures numbers { OnOk result (IsSplitOfNumbers version node.now) }
{
    entries.push(Value::from(node.i))?;
    entries.push(Value::from(node.j))?;
    entries.push(list_value(alloc, &node.parts)?)?;
    entries.push(list_value(alloc, &node.children)?)?;
    push_steps(alloc, version, &node.steps, entries)
}

/// Appends the steps, where the version has any.
fn push_steps(
    alloc: Global,
    version: Version,
    steps: &Steps,
    entries: &mut Vec<Value>,
) -> Result<(), AllocError>
    ensures value { OnOk result (map view entries.new.items
        ≡ map view entries.old.items ++ steps_entries version (node_steps steps.now)) }
    ensures numbers { OnOk result (AreStepsOfNumbers version (node_steps steps.now)) }
{
    match version {
        Version::One => Ok(()),
        Version::Two => {
            entries.push(steps_value(alloc, steps)?)?;
            Ok(())
        }
    }
}

/// The JSON value of steps.
fn steps_value(alloc: Global, steps: &Steps) -> Result<Value, AllocError>
    ensures value { IfOk result (λ value. view value ≡ steps_json (node_steps steps.now)) }
    ensures numbers { IfOk result (λ _. AreStepsOfNumbers Version.Two (node_steps steps.now)) }
{
    match steps {
        Steps::Sweep => Value::try_from_str(alloc, "sweep"),
        Steps::List(list) => list_value(alloc, list),
    }
}
