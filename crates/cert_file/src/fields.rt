//! The values of a certificate's keys, from a JSON value.
ghost use Rattle.std.specs.Prelude.{◌≡◌, ◌<◌, ◌^◌, map, length, option_map, IfOk, IfErr, Ok, Err, All};
ghost use Rattle.std.specs.String.{string_bytes};
ghost use Rattle.serde_json.specs.View.{view};
ghost use Rattle.line_files.specs.Steps.{FailsExcept};
ghost use Rattle.split_trees.specs.Tree.{AreFewSteps};
ghost use Rattle.cert_file.specs.Fields.{version_of, nodes_of, relations_of, claim_named, claim_of};
ghost use Rattle.cert_file.specs.Fields.{scenario_of, tree_of};
ghost use Rattle.cert_file.specs.declared.fault.Wrong.{Wrong};

use crate::claim::{Claim, Version};
use crate::entries::{list, member, names, number_below};
use crate::fault::{WRONG, Wrong};
use crate::nodes::nodes;
use calculus_table::MAX_BASES;
use network_words::MAX_NODES;
use scenario::Scenario;
use serde_json::Value;
use split_trees::Tree;
use std::alloc::Global;

/// The version: 1 or 2.
pub(crate) fn version(value: &Value) -> Result<Version, Wrong>
    ensures { result ≡ version_of (view value.now) }
{
    let found = member(value, "version")?;
    match number_below(found, 3)? {
        1 => Ok(Version::One),
        2 => Ok(Version::Two),
        _ => Err(WRONG),
    }
}

/// The number of nodes: 1 to `MAX_NODES`.
pub(crate) fn node_count(value: &Value) -> Result<u32, Wrong>
    ensures { result ≡ nodes_of (view value.now) }
{
    let found = member(value, "nodes")?;
    let nodes = number_below(found, u64::from(MAX_NODES) + 1)?;
    if nodes == 0 {
        return Err(WRONG);
    }
    Ok(nodes as u32)
}

/// The names of the base relations: 1 to `MAX_BASES`.
pub(crate) fn relations(alloc: Global, value: &Value) -> Result<Vec<String>, Wrong>
    ensures ok { IfOk result (λ names.
        relations_of (view value.now) ≡ Ok (map string_bytes names.items)) }
    ensures fault { IfErr result (FailsExcept Wrong.Memory (relations_of (view value.now))) }
{
    let found = member(value, "relations")?;
    let names = names(alloc, found)?;
    if names.is_empty() || names.len() > MAX_BASES as usize {
        return Err(WRONG);
    }
    Ok(names)
}

/// The claim, by its name.
pub(crate) fn claim(value: &Value) -> Result<Claim, Wrong>
    ensures { result ≡ claim_of (view value.now) }
{
    let found = member(value, "verdict")?;
    match found.as_str() {
        Some(text) => claim_named(text),
        None => Err(WRONG),
    }
}

/// The claim of a name.
fn claim_named(text: &str) -> Result<Claim, Wrong>
    ensures { result ≡ claim_named text.now }
{
    if text == "yes" {
        Ok(Claim::Yes)
    } else if text == "no" {
        Ok(Claim::No)
    } else if text == "budget" {
        Ok(Claim::Budget)
    } else {
        Err(WRONG)
    }
}

/// The scenario, where the claim is Yes.
pub(crate) fn scenario(
    alloc: Global,
    claim: Claim,
    value: &Value,
) -> Result<Option<Scenario>, Wrong>
    ensures ok { IfOk result (λ scenario. scenario_of claim (view value.now) ≡ Ok scenario) }
    ensures fault { IfErr result (FailsExcept Wrong.Memory (scenario_of claim (view value.now))) }
{
    match claim {
        Claim::No | Claim::Budget => Ok(None),
        Claim::Yes => {
            let found = member(value, "scenario")?;
            let bases = list(alloc, found)?;
            Ok(Some(Scenario { bases }))
        }
    }
}

/// The tree.
pub(crate) fn tree(alloc: Global, version: Version, value: &Value) -> Result<Tree, Wrong>
    ensures ok { IfOk result (λ tree. tree_of version (view value.now) ≡ Ok tree) }
    ensures few { IfOk result (λ tree. length tree < 2 ^ 32) }
    ensures steps { IfOk result (λ tree. All (λ node. AreFewSteps node.steps) tree) }
    ensures fault { IfErr result (FailsExcept Wrong.Memory (tree_of version (view value.now))) }
{
    let found = member(value, "tree")?;
    let nodes = nodes(alloc, version, found)?;
    Ok(Tree { nodes })
}
