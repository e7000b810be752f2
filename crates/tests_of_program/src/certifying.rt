//! Certificates that six guests have no scenario: how they are checked, written and traced.
use crate::runs::{RAMSEY, complete, expect_code};
use std::alloc::Global;
use std::process::Abort;
use std::test::Fail;
use std::thread::Threads;

// who knows whom of six guests, and the trees that refute it
const KNOWN: &str = "0 1 ( a )\n0 2 ( b )\n0 3 ( a )\n0 4 ( b )\n";

const SWEPT: &str = r#"["split",0,5,[2,4],[1,2]],["empty"],["empty"]"#;

const SPLIT: &str = r#"["split",0,5,[2,4],[1,2],[[1,0,3],[2,0,4]]]"#;

const EMPTIED: &str = r#"["empty",[[1,0,5],[3,0,5],[3,1,5]]]"#;

const EMPTIED_TOO: &str = r#"["empty",[[2,0,5],[4,0,5],[4,2,5]]]"#;

/// The line of a certificate that says no, over friends and strangers.
fn refuting(alloc: Global, nodes: u32, tree: &str, version: u32) -> Result<String, Fail> {
    let guests = r#""relations":["id","a","b"]"#;
    let verdict = r#""verdict":"no""#;
    Ok(format!(in alloc;
        "{{\"nodes\":{nodes},{guests},\"tree\":[{tree}],{verdict},\"version\":{version}}}\n"
    )?)
}

/// The line of a certificate of the six guests whose two empty nodes are traced.
fn traced(alloc: Global, first: &str, second: &str) -> Result<String, Fail> {
    let tree = format!(in alloc; "{SPLIT},{first},{second}")?;
    refuting(alloc, 6, tree.as_str(), 2)
}

/// Checks a certificate of the six guests: the text that is written, and the exit code.
fn expect_checked<R: Threads + Sync + Abort + AllocGlobal>(
    rt: &R,
    cert: &str,
    text: &str,
    code: u8,
) -> Result<(), Fail> {
    let source = complete(rt.alloc(), 6, "( a b )", KNOWN)?;
    let documents: [(&str, &[u8]); 2] = [("table", RAMSEY), ("cert", cert.as_bytes())];
    let words = ["check", "table", "cert"];
    expect_code(rt, &words, &documents, source.as_str(), text, code)
}

/// How many nodes, the tree, the version, the text that is written, and the exit code.
const CHECKED: [(u32, &str, u32, &str, u8); 6] = [
    (6, SWEPT, 1, "accepted\n", 0),
    (5, SWEPT, 1, "not accepted 27\n", 8),
    (6, SWEPT, 3, "refused 32 6 0\n", 3),
    (
        6,
        r#"["split",0,5,[2],[1]],["empty"]"#,
        1,
        "not accepted 28 0\n",
        8,
    ),
    (
        6,
        r#"["split",0,5,[2,4],[2,1]],["empty"],["empty"]"#,
        1,
        "not accepted 30 0\n",
        8,
    ),
    (
        6,
        r#"["split",0,5,[2,4],[1,2]],["empty"],["open"]"#,
        1,
        "not accepted 30 2\n",
        8,
    ),
];

#[test]
fn certificates_are_checked(rt: HostRuntime) -> Result<(), Fail> {
    for (nodes, tree, version, text, code) in CHECKED {
        let cert = refuting(rt.alloc(), nodes, tree, version)?;
        expect_checked(&rt, cert.as_str(), text, code)?;
    }
    Ok(())
}

#[test]
fn what_is_no_certificate_is_refused(rt: HostRuntime) -> Result<(), Fail> {
    expect_checked(&rt, "{", "refused 31\n", 3)
}

/// The first empty node, the second one, the text that is written, and the exit code.
const TRACES: [(&str, &str, &str, u8); 4] = [
    (EMPTIED, EMPTIED_TOO, "accepted\n", 0),
    (EMPTIED, r#"["empty","sweep"]"#, "accepted\n", 0),
    (
        r#"["empty",[[1,0,5],[3,0,5]]]"#,
        EMPTIED_TOO,
        "not accepted 29 1\n",
        8,
    ),
    (
        r#"["empty",[[1,0,5],[3,0,5],[3,1,6]]]"#,
        EMPTIED_TOO,
        "not accepted 51 1 2\n",
        8,
    ),
];

#[test]
fn traced_certificates_are_checked(rt: HostRuntime) -> Result<(), Fail> {
    for (first, second, text, code) in TRACES {
        let cert = traced(rt.alloc(), first, second)?;
        expect_checked(&rt, cert.as_str(), text, code)?;
    }
    Ok(())
}

/// Runs over the six guests, on a shelf with a certificate of theirs and one of five guests: the text that is written,
/// and the exit code.
fn expect_of_guests<R: Threads + Sync + Abort + AllocGlobal>(
    rt: &R,
    words: &[&str],
    text: &str,
    code: u8,
) -> Result<(), Fail> {
    let source = complete(rt.alloc(), 6, "( a b )", KNOWN)?;
    let swept = refuting(rt.alloc(), 6, SWEPT, 1)?;
    let other = refuting(rt.alloc(), 5, SWEPT, 1)?;
    let documents: [(&str, &[u8]); 3] = [
        ("table", RAMSEY),
        ("swept", swept.as_bytes()),
        ("other", other.as_bytes()),
    ];
    expect_code(rt, words, &documents, source.as_str(), text, code)
}

#[test]
fn certificates_are_written(rt: HostRuntime) -> Result<(), Fail> {
    let swept = refuting(rt.alloc(), 6, SWEPT, 1)?;
    expect_of_guests(&rt, &["solve", "table", "--cert"], swept.as_str(), 1)
}

#[test]
fn no_certificate_is_written_unasked(rt: HostRuntime) -> Result<(), Fail> {
    expect_of_guests(&rt, &["solve", "table"], "no 1\n", 1)
}

#[test]
fn certificates_are_traced(rt: HostRuntime) -> Result<(), Fail> {
    let traced = traced(rt.alloc(), EMPTIED, EMPTIED_TOO)?;
    expect_of_guests(&rt, &["trace", "table", "swept"], traced.as_str(), 0)
}

#[test]
fn a_certificate_of_another_network_is_not_traced(rt: HostRuntime) -> Result<(), Fail> {
    expect_of_guests(&rt, &["trace", "table", "other"], "not accepted 27\n", 8)
}
