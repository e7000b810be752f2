//! The nodes of a tree, from JSON values.
ghost use Rattle.std.specs.Prelude.{◌≡◌, ◌<◌, ◌^◌, length, map, IfOk, IfErr, MatchResult, Ok, Err, All};
ghost use Rattle.serde_json.specs.View.{view};
ghost use Rattle.line_files.specs.Steps.{FailsExcept};
ghost use Rattle.split_trees.specs.Tree.{AreFewSteps};
ghost use Rattle.split_trees.specs.Steps.{node_steps};
ghost use Rattle.cert_file.specs.Parts.{list_of};
ghost use Rattle.cert_file.specs.Nodes.{kind_named, kind_of, steps_count, steps_of, steps_at, plain_leaf, worked_leaf};
ghost use Rattle.cert_file.specs.Nodes.{list_at, split_entries, split_of, node_of_kind, node_of};
ghost use Rattle.cert_file.specs.declared.fault.Wrong.{Wrong};

use crate::claim::Version;
use crate::entries::{FromJson, entries, entry, has_count, list, number_at};
use crate::fault::{WRONG, Wrong};
use serde_json::Value;
use split_trees::{Kind, Node, Step, Steps};
use std::alloc::Global;

/// The nodes of an array of nodes.
pub(crate) fn nodes(alloc: Global, version: Version, value: &Value) -> Result<Vec<Node>, Wrong>
    ensures ok { IfOk result (λ list.
        list_of (node_of version) (view value.now) ≡ Ok list.items) }
    ensures few { IfOk result (λ list. length list.items < 2 ^ 32) }
    ensures steps { IfOk result (λ list. All (λ node. AreFewSteps node.steps) list.items) }
    ensures fault { IfErr result (FailsExcept Wrong.Memory (list_of (node_of version) (view value.now))) }
{
    let entries = entries(value)?;
    let mut list = Vec::new(alloc);
    for (index, value) in entries.iter().enumerate() {
        let node = match node(alloc, version, value) {
            Ok(node) => node,
            Err(Wrong::At { .. }) => {
                return Err(Wrong::At {
                    index: index as u32,
                });
            }
            Err(Wrong::Memory) => return Err(Wrong::Memory),
        };
        if list.push(node).is_err() {
            return Err(Wrong::Memory);
        }
    }
    Ok(list)
}

/// A node.
fn node(alloc: Global, version: Version, value: &Value) -> Result<Node, Wrong>
    ensures ok { IfOk result (λ node. node_of version (view value.now) ≡ Ok node) }
    ensures few { IfOk result (λ node. AreFewSteps node.steps) }
    ensures fault { IfErr result (FailsExcept Wrong.Memory (node_of version (view value.now))) }
{
    let first = entry(value, 0)?;
    let kind = kind(first)?;
    node_of_kind(alloc, version, value, kind)
}

/// The kind of a node, by its name.
fn kind(value: &Value) -> Result<Kind, Wrong>
    ensures { result ≡ kind_of (view value.now) }
{
    match value.as_str() {
        Some(text) => kind_named(text),
        None => Err(WRONG),
    }
}

/// The kind of a name.
fn kind_named(text: &str) -> Result<Kind, Wrong>
    ensures { result ≡ kind_named text.now }
{
    if text == "empty" {
        Ok(Kind::Empty)
    } else if text == "found" {
        Ok(Kind::Found)
    } else if text == "open" {
        Ok(Kind::Open)
    } else if text == "later" {
        Ok(Kind::Later)
    } else if text == "split" {
        Ok(Kind::Split)
    } else {
        Err(WRONG)
    }
}

/// A node of this kind.
fn node_of_kind(alloc: Global, version: Version, value: &Value, kind: Kind) -> Result<Node, Wrong>
    ensures ok { IfOk result (λ node. node_of_kind version (view value.now) kind ≡ Ok node) }
    ensures few { IfOk result (λ node. AreFewSteps node.steps) }
    ensures fault { IfErr result (FailsExcept Wrong.Memory (node_of_kind version (view value.now) kind)) }
{
    match kind {
        Kind::Empty => worked_leaf(alloc, version, value),
        Kind::Split => split(alloc, version, value),
        Kind::Found => plain_leaf(alloc, Kind::Found, value),
        Kind::Open => plain_leaf(alloc, Kind::Open, value),
        Kind::Later => plain_leaf(alloc, Kind::Later, value),
    }
}

/// A leaf of this kind, without steps.
fn plain_leaf(alloc: Global, kind: Kind, value: &Value) -> Result<Node, Wrong>
    ensures ok { IfOk result (λ node. plain_leaf kind (view value.now) ≡ Ok node) }
    ensures few { IfOk result (λ node. AreFewSteps node.steps) }
    ensures fault { IfErr result (λ wrong. plain_leaf kind (view value.now) ≡ Err wrong) }
{
    if !has_count(value, 1) {
        return Err(WRONG);
    }
    Ok(Node {
        kind,
        i: 0,
        j: 0,
        parts: Vec::new(alloc),
        children: Vec::new(alloc),
        steps: Steps::Sweep,
    })
}

/// A leaf of kind `Empty`, with its steps.
fn worked_leaf(alloc: Global, version: Version, value: &Value) -> Result<Node, Wrong>
    ensures ok { IfOk result (λ node. worked_leaf version (view value.now) ≡ Ok node) }
    ensures few { IfOk result (λ node. AreFewSteps node.steps) }
    ensures fault { IfErr result (FailsExcept Wrong.Memory (worked_leaf version (view value.now))) }
{
    if !has_count(value, 1 + steps_count(version)) {
        return Err(WRONG);
    }
    let steps = steps_at(alloc, version, value, 1)?;
    Ok(Node {
        kind: Kind::Empty,
        i: 0,
        j: 0,
        parts: Vec::new(alloc),
        children: Vec::new(alloc),
        steps,
    })
}

/// A split.
fn split(alloc: Global, version: Version, value: &Value) -> Result<Node, Wrong>
    ensures ok { IfOk result (λ node. split_of version (view value.now) ≡ Ok node) }
    ensures few { IfOk result (λ node. AreFewSteps node.steps) }
    ensures fault { IfErr result (FailsExcept Wrong.Memory (split_of version (view value.now))) }
{
    if !has_count(value, 5 + steps_count(version)) {
        return Err(WRONG);
    }
    split_entries(alloc, version, value)
}

/// A split, by its entries.
fn split_entries(alloc: Global, version: Version, value: &Value) -> Result<Node, Wrong>
    ensures ok { IfOk result (λ node. split_entries version (view value.now) ≡ Ok node) }
    ensures few { IfOk result (λ node. AreFewSteps node.steps) }
    ensures fault { IfErr result (FailsExcept Wrong.Memory (split_entries version (view value.now))) }
{
    let i = number_at(value, 1)?;
    let j = number_at(value, 2)?;
    let parts = list_at(alloc, value, 3)?;
    let children = list_at(alloc, value, 4)?;
    let steps = steps_at(alloc, version, value, 5)?;
    Ok(Node {
        kind: Kind::Split,
        i,
        j,
        parts,
        children,
        steps,
    })
}

/// A list, as the entry at a place.
fn list_at<T: FromJson>(alloc: Global, value: &Value, place: usize) -> Result<Vec<T>, Wrong>
    ensures ok { IfOk result (λ list. list_at T.of place (view value.now) ≡ Ok list.items) }
    ensures fault { IfErr result (FailsExcept Wrong.Memory (list_at T.of place (view value.now))) }
{
    let found = entry(value, place)?;
    list(alloc, found)
}

/// How many entries the steps of a node are.
fn steps_count(version: Version) -> usize
    ensures value { result ≡ steps_count version }
    ensures few { result < 2 }
{
    match version {
        Version::One => 0,
        Version::Two => 1,
    }
}

/// The steps at a place, where the version has any.
fn steps_at(alloc: Global, version: Version, value: &Value, place: usize) -> Result<Steps, Wrong>
    ensures ok { IfOk result (λ steps. steps_at version place (view value.now) ≡ Ok (node_steps steps)) }
    ensures few { IfOk result (λ steps. AreFewSteps (node_steps steps)) }
    ensures fault { IfErr result (FailsExcept Wrong.Memory (steps_at version place (view value.now))) }
{
    match version {
        Version::One => Ok(Steps::Sweep),
        Version::Two => {
            let found = entry(value, place)?;
            steps(alloc, found)
        }
    }
}

/// The steps of a node.
fn steps(alloc: Global, value: &Value) -> Result<Steps, Wrong>
    ensures ok { IfOk result (λ steps. steps_of (view value.now) ≡ Ok (node_steps steps)) }
    ensures few { IfOk result (λ steps. AreFewSteps (node_steps steps)) }
    ensures fault { IfErr result (FailsExcept Wrong.Memory (steps_of (view value.now))) }
{
    match value.as_str() {
        Some(text) if text == "sweep" => Ok(Steps::Sweep),
        Some(_) => Err(WRONG),
        None => {
            let steps = list::<Step>(alloc, value)?;
            Ok(Steps::List(steps))
        }
    }
}
