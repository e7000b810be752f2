//! Certificates of networks over RCC-8 and over Ramsey's calculus of two colours: what is read of them, how they are
//! written again, and which fault of one is told.
use crate::asserts::{assert_same, assert_same_in};
use cert_file::CertFault::{Field, NotJson};
use cert_file::{Cert, CertFault, Claim, read, text};
use split_trees::{Kind, Node, Tree};
use std::alloc::{AllocError, Global};
use std::process::Abort;
use std::test::Fail;

/// Two nodes, a tangential part either way round: the first choice holds.
const PARTS: &[&str] = &[
    r#"{"nodes":2,"relations":["DC","EC","PO","TPP","NTPP","TPPi","NTPPi","EQ"],"scenario":[3],"#,
    r#""tree":[["split",0,1,[8,32],[1,2]],["found"],["later"]],"verdict":"yes","version":1}"#,
];

/// A pentagon of each colour.
const PENTAGONS: &[&str] = &[
    r#"{"nodes":5,"relations":["id","a","b"],"scenario":[1,1,2,2,2,1,2,2,1,1],"tree":["#,
    r#"["split",0,1,[2,4],[1,10]],["split",0,2,[2,4],[2,9]],["split",0,3,[2,4],[3,4]],["empty"],"#,
    r#"["split",0,4,[2,4],[5,6]],["empty"],["split",1,3,[2,4],[7,8]],["found"],["later"],["later"],"#,
    r#"["later"]],"verdict":"yes","version":1}"#,
];

/// Six nodes have a triangle of one colour.
const TRIANGLES: &[&str] = &[
    r#"{"nodes":6,"relations":["id","a","b"],"tree":[["split",0,5,[2,4],[1,2]],["empty"],["empty"]],"#,
    r#""verdict":"no","version":1}"#,
];

/// The same, with the steps that find the triangles.
const TRACED: &[&str] = &[
    r#"{"nodes":6,"relations":["id","a","b"],"tree":[["split",0,5,[2,4],[1,2],[[1,0,3],[2,0,4]]],"#,
    r#"["empty",[[1,0,5],[3,0,5],[3,1,5]]],["empty",[[2,0,5],[4,0,5],[4,2,5]]]],"#,
    r#""verdict":"no","version":2}"#,
];

/// The same, where one leaf is swept and the other has no steps.
const MIXED: &[&str] = &[
    r#"{"nodes":6,"relations":["id","a","b"],"tree":[["split",0,5,[2,4],[1,2],"sweep"],"#,
    r#"["empty",[]],["empty","sweep"],["open"]],"verdict":"budget","version":2}"#,
];

/// A tree with a child and a part that can't be.
const ODD: &[&str] = &[
    r#"{"nodes":256,"relations":["id"],"tree":"#,
    r#"[["split",5,0,[18446744073709551615],[4294967295]]],"verdict":"no","version":1}"#,
];

/// The pieces of a text as one.
fn joined(alloc: Global, pieces: &[&str]) -> Result<String, AllocError> {
    let mut text = String::new(alloc);
    for piece in pieces {
        text.push_str(piece)?;
    }
    Ok(text)
}

/// Reads a text of fewer than 2^32 bytes.
fn read_short(rt: &impl Abort, alloc: Global, bytes: &[u8]) -> Result<Cert, CertFault> {
    assert!(rt; bytes.len() < 0x1_0000_0000);
    read(alloc, bytes)
}

/// Reads the line of these pieces.
fn read_pieces(rt: &impl Abort, alloc: Global, pieces: &[&str]) -> Result<Cert, Fail> {
    let line = joined(alloc, pieces)?;
    Ok(read_short(rt, alloc, line.as_bytes())?)
}

/// Asserts that a text is read as the certificate of this line.
fn is_read_as(rt: &impl Abort, alloc: Global, bytes: &[u8], line: &str) -> Result<(), Fail> {
    let cert = read_short(rt, alloc, bytes)?;
    let written = text(alloc, &cert)?;
    assert_same(rt, written.as_str().strip_suffix("\n"), Some(line));
    Ok(())
}

#[test]
fn lines_are_read_and_written_again(rt: HostRuntime) -> Result<(), Fail> {
    for pieces in [PARTS, PENTAGONS, TRIANGLES, TRACED, MIXED, ODD] {
        let line = joined(rt.alloc(), pieces)?;
        is_read_as(&rt, rt.alloc(), line.as_bytes(), line.as_str())?;
    }
    Ok(())
}

/// The certificate of `TRIANGLES` in another layout and order, with other keys.
const SPACED: &[u8] = br#" { "version" : 1, "verdict" : "no", "other" : [ null ], "scenario" : 7,
        "tree" : [ [ "split" , 0, 5, [ 2, 4 ], [ 1, 2 ] ], [ "empty" ], [ "\u0065mpty" ] ],
        "relations" : [ "x" ], "nodes" : 6, "relations" : [ "id", "a", "b" ] } "#;

#[test]
fn layout_order_and_other_keys_do_not_matter(rt: HostRuntime) -> Result<(), Fail> {
    let line = joined(rt.alloc(), TRIANGLES)?;
    is_read_as(&rt, rt.alloc(), SPACED, line.as_str())
}

/// Certificates that have nothing to show what they claim.
const EMPTY: [&str; 2] = [
    r#"{"nodes":6,"relations":["id"],"tree":[],"verdict":"no","version":1}"#,
    r#"{"nodes":6,"relations":["id"],"scenario":[],"tree":[],"verdict":"yes","version":1}"#,
];

#[test]
fn a_tree_and_a_scenario_may_be_empty(rt: HostRuntime) -> Result<(), Fail> {
    for line in EMPTY {
        is_read_as(&rt, rt.alloc(), line.as_bytes(), line)?;
    }
    Ok(())
}

#[test]
fn nodes_and_claim_are_read(rt: HostRuntime) -> Result<(), Fail> {
    let cert = read_pieces(&rt, rt.alloc(), PARTS)?;
    assert_same(&rt, (cert.nodes, cert.claim), (2, Claim::Yes));
    Ok(())
}

#[test]
fn names_of_relations_are_read(rt: HostRuntime) -> Result<(), Fail> {
    let cert = read_pieces(&rt, rt.alloc(), PARTS)?;
    let relations = &cert.relations;
    assert!(rt; relations.len() == 8);
    assert_same(&rt, relations[3].as_str(), "TPP");
    Ok(())
}

#[test]
fn a_scenario_is_read(rt: HostRuntime) -> Result<(), Fail> {
    let cert = read_pieces(&rt, rt.alloc(), PARTS)?;
    let Some(scenario) = &cert.scenario else {
        return Err(Fail::from("no scenario"));
    };
    assert_same(&rt, scenario.bases.as_slice(), [3u8].as_slice());
    Ok(())
}

#[test]
fn a_tree_is_read(rt: HostRuntime) -> Result<(), Fail> {
    let cert = read_pieces(&rt, rt.alloc(), PARTS)?;
    has_one_split(&rt, &cert.tree);
    Ok(())
}

/// Asserts that the tree is a split of two leaves.
fn has_one_split(rt: &impl Abort, tree: &Tree) {
    let nodes = &tree.nodes;
    assert!(rt; nodes.len() == 3);
    is_split_of_parts(rt, &nodes[0]);
    assert!(rt; nodes[2].kind == Kind::Later);
}

/// Asserts that the node is the split of the tangential part.
fn is_split_of_parts(rt: &impl Abort, node: &Node) {
    assert!(rt; (node.kind, node.i, node.j) == (Kind::Split, 0, 1));
    assert!(rt; node.parts.len() == 2 && node.parts[1].word() == 32);
    assert!(rt; node.children.as_slice() == [1u32, 2].as_slice());
}

/// Asserts the fault of a text.
fn has_fault(rt: &impl Abort, alloc: Global, text: &str, field: u32, index: u32) {
    let fault = read_short(rt, alloc, text.as_bytes()).err();
    assert_same_in(rt, fault, Some(Field { field, index }), text);
}

/// The text, the number of the key, and the index.
const WRONG_KEYS: [(&str, u32, u32); 19] = [
    (r#"[]"#, 0, 0),
    (r#"{}"#, 6, 0),
    (r#"{"nodes":0,"version":3}"#, 6, 0),
    (r#"{"nodes":0,"version":"1"}"#, 6, 0),
    (r#"{"nodes":0,"version":1.0}"#, 6, 0),
    (r#"{"relations":[],"version":1}"#, 1, 0),
    (r#"{"nodes":0,"relations":[],"version":1}"#, 1, 0),
    (r#"{"nodes":257,"relations":[],"version":1}"#, 1, 0),
    (r#"{"nodes":256,"verdict":"","version":1}"#, 2, 0),
    (r#"{"nodes":1,"relations":[],"version":1}"#, 2, 0),
    (r#"{"nodes":1,"relations":["a","1"],"version":1}"#, 2, 1),
    (r#"{"nodes":1,"relations":["a","b","é"],"version":1}"#, 2, 2),
    (r#"{"nodes":1,"relations":["a"],"version":1}"#, 5, 0),
    (
        r#"{"nodes":1,"relations":["a"],"verdict":"Yes","version":1}"#,
        5,
        0,
    ),
    (
        r#"{"nodes":1,"relations":["a"],"verdict":"yes","version":1}"#,
        3,
        0,
    ),
    (
        r#"{"nodes":1,"relations":["a"],"scenario":{},"verdict":"yes","version":1}"#,
        3,
        0,
    ),
    (
        r#"{"nodes":1,"relations":["a"],"scenario":[0,256],"verdict":"yes","version":1}"#,
        3,
        1,
    ),
    (
        r#"{"nodes":1,"relations":["a"],"scenario":[0,1,-1],"verdict":"yes","version":1}"#,
        3,
        2,
    ),
    (
        r#"{"nodes":1,"relations":["a"],"verdict":"no","version":1}"#,
        4,
        0,
    ),
];

#[test]
fn the_first_wrong_key_is_told(rt: HostRuntime) {
    for (text, field, index) in WRONG_KEYS {
        has_fault(&rt, rt.alloc(), text, field, index);
    }
}

/// A text whose relations have 64 names and this last one.
fn text_of_names(alloc: Global, last: &str) -> Result<String, AllocError> {
    let mut text = String::new(alloc);
    text.push_str(r#"{"nodes":1,"relations":["#)?;
    for _ in 0..64u32 {
        text.push_str(r#""a","#)?;
    }
    text.push_str(last)?;
    text.push_str(r#"],"version":1}"#)?;
    Ok(text)
}

#[test]
fn a_name_too_many_is_told_after_wrong_names(rt: HostRuntime) -> Result<(), Fail> {
    for (last, index) in [("\"b\"", 0), ("\"\"", 64)] {
        let text = text_of_names(rt.alloc(), last)?;
        has_fault(&rt, rt.alloc(), text.as_str(), 2, index);
    }
    Ok(())
}

/// The nodes, the version, and the index.
const WRONG_NODES: [(&str, u32, u32); 13] = [
    (r#"7"#, 1, 0),
    (r#"[["empty"],[]]"#, 1, 1),
    (r#"[["empty"],["empty"],["Empty"]]"#, 1, 2),
    (r#"[["found",0]]"#, 1, 0),
    (
        r#"[["empty"],["split",0,1,[18446744073709551616],[1]]]"#,
        1,
        1,
    ),
    (r#"[["split",0,4294967296,[1],[1]]]"#, 1, 0),
    (r#"[["split",0,1,[1],[4294967296]]]"#, 1, 0),
    (r#"[["split",0,1,[1],[1],"sweep"]]"#, 1, 0),
    (r#"[["empty"],["empty","sweep"]]"#, 1, 1),
    (r#"[["empty","sweep"],["empty"]]"#, 2, 1),
    (r#"[["empty","Sweep"]]"#, 2, 0),
    (r#"[["empty",[[0,1]]]]"#, 2, 0),
    (r#"[["found"],["later"],["found","sweep"]]"#, 2, 2),
];

/// A text of this version with these nodes in its tree.
fn text_of_nodes(alloc: Global, nodes: &str, version: u32) -> Result<String, Fail> {
    Ok(format!(in alloc;
        r#"{{"nodes":1,"relations":["a"],"tree":{nodes},"verdict":"no","version":{version}}}"#
    )?)
}

#[test]
fn the_first_wrong_node_is_told(rt: HostRuntime) -> Result<(), Fail> {
    for (nodes, version, index) in WRONG_NODES {
        let text = text_of_nodes(rt.alloc(), nodes, version)?;
        has_fault(&rt, rt.alloc(), text.as_str(), 4, index);
    }
    Ok(())
}

/// Fails unless the text is no JSON.
fn is_no_json(rt: &impl Abort, alloc: Global, bytes: &[u8]) {
    let fault = read_short(rt, alloc, bytes).err();
    assert_same_in(rt, fault, Some(NotJson), bytes);
}

/// Texts that are no JSON.
const OTHERS: [&[u8]; 4] = [b"", b"{", b"{} {}", b"\"\xff\""];

#[test]
fn other_bytes_are_no_json(rt: HostRuntime) {
    for bytes in OTHERS {
        is_no_json(&rt, rt.alloc(), bytes);
    }
}

#[test]
fn arrays_within_arrays_are_no_json_where_they_are_too_deep(rt: HostRuntime) {
    let mut deep = [b'['; 400];
    deep[200..].fill(b']');
    is_no_json(&rt, rt.alloc(), &deep);
}
