//! Closing a network, the calculus that it is closed by, and the sources that are refused.
use crate::asserts::assert_same;
use crate::runs::{CLOSE, RAMSEY, expect_code, expect_over, expect_run, ran, refused};
use calculus_builtin::rcc8;
use calculus_load::text;
use qsr_outside::NoGate;
use qsr_top::Status;
use std::alloc::Global;
use std::process::Abort;
use std::test::Fail;
use std::thread::Threads;

/// The source, the text that is written, and how the run ends.
const CLOSURES: [(&[u8], &str, Status); 8] = [
    (
        b"nodes 3\n0 1 ( TPP )\n1 2 ( NTPP )\n.\n",
        "nodes 3\n0 1 ( TPP )\n0 2 ( NTPP )\n1 2 ( NTPP )\n.\n",
        Status::Done,
    ),
    (
        b"nodes 3\n0 1 ( NTPP )\n1 2 ( NTPP )\n0 2 ( DC )\n.\n",
        "nodes 3\n0 1 ( )\n0 2 ( )\n1 2 ( )\n.\n",
        Status::No,
    ),
    (
        b"nodes 3\n0 1 ( EC )\n1 2 ( EC )\n.\n",
        "nodes 3\n0 1 ( EC )\n0 2 ( DC EC PO TPP TPPi EQ )\n1 2 ( EC )\n.\n",
        Status::Done,
    ),
    (b"nodes 1\n.\n", "nodes 1\n.\n", Status::Done),
    (
        b"nodes 2\n0 1 ( )\n.\n",
        "nodes 2\n0 1 ( )\n.\n",
        Status::No,
    ),
    (
        b"nodes 3\nnames ( a b c )\nc a ( TPP )\n.\n",
        "nodes 3\nnames ( a b c )\n0 1 ( DC EC PO TPP NTPP TPPi NTPPi EQ )\n0 2 ( TPPi )\n\
         1 2 ( DC EC PO TPP NTPP TPPi NTPPi EQ )\n.\n",
        Status::Done,
    ),
    (
        b"nodes 3\r\n0 1 ( TPP )\r\n1 2 ( NTPP )\r\n.\r\n",
        "nodes 3\n0 1 ( TPP )\n0 2 ( NTPP )\n1 2 ( NTPP )\n.\n",
        Status::Done,
    ),
    (
        b"nodes 3\n0 1 ( TPP ) # \x80\n1 2 ( NTPP )\n.\n",
        "nodes 3\n0 1 ( TPP )\n0 2 ( NTPP )\n1 2 ( NTPP )\n.\n",
        Status::Done,
    ),
];

#[test]
fn closing_writes_the_closure(rt: HostRuntime) -> Result<(), Fail> {
    for (source, text, status) in CLOSURES {
        expect_run(&rt, CLOSE, source, text, status)?;
    }
    Ok(())
}

/// The source, and the number and the line of its refusal.
const FAULTY_SOURCES: [(&[u8], u32, u64); 12] = [
    (b"", 20, 0),
    (b"nodes 3\n1 1 ( EC )\n.\n", 16, 2),
    (b"nodes 3\n0 1 ( EC )\n", 20, 2),
    (b"nodes 3\n0 3 ( EC )\n.\n", 15, 2),
    (b"nodes 3\n0 1 ( XX )\n.\n", 19, 2),
    (b"nodes 256\n", 20, 1),
    (b"nodes 257\n.\n", 14, 1),
    (b"nodes 2\nnames ( a a )\n.\n", 17, 2),
    (b"nodes 2\n0 1 EC\n.\n", 18, 2),
    (b"nodes 3\n0 1 ( TPP )\x80\n1 2 ( NTPP )\n.\n", 18, 2),
    (b"nodes 2\nnames ( a b )\na c ( XX )\n.\n", 19, 3),
    (b"nodes 2\nnames ( a )\n.\n", 18, 2),
];

#[test]
fn faulty_sources_are_refused_with_number_and_place(rt: HostRuntime) -> Result<(), Fail> {
    for (source, number, line) in FAULTY_SOURCES {
        let text = format!(in rt.alloc(); "refused {number} {line}\n")?;
        expect_run(&rt, CLOSE, source, text.as_str(), refused(number, line))?;
    }
    Ok(())
}

/// Closes a source of so many empty lines, and returns the status and what was written.
fn ran_on_lines<R: Threads + Sync + AllocGlobal>(
    rt: &R,
    lines: usize,
) -> Result<(Status, Vec<u8>), Fail> {
    let source = vec![in rt.alloc(); b'\n'; lines]?;
    ran(rt, CLOSE, &source, &[], &[], &NoGate)
}

#[test]
fn sources_up_to_the_limit_are_read(rt: HostRuntime) -> Result<(), Fail> {
    let (status, text) = ran_on_lines(&rt, 16_777_216)?;
    assert_same(&rt, status, refused(20, 16_777_216));
    assert_same(&rt, text.as_slice(), b"refused 20 16777216\n".as_slice());
    Ok(())
}

#[test]
fn sources_past_the_limit_are_too_long(rt: HostRuntime) -> Result<(), Fail> {
    let (status, text) = ran_on_lines(&rt, 16_777_217)?;
    assert_same(&rt, status, Status::TooLong);
    assert_same(&rt, text.len(), 0);
    Ok(())
}

/// The calculus, two facts, and what follows of the third edge.
const ALONG: [(&str, &str, &str, &str); 4] = [
    ("allen", "( b )", "( m )", "( b )"),
    ("allen", "( o )", "( d )", "( o s d )"),
    ("point", "( < )", "( = )", "( < )"),
    ("rcc8", "( TPP )", "( NTPP )", "( NTPP )"),
];

/// Closes with one worker, with four and with 64: the text that is written.
fn expect_closed<R: Threads + Sync + Abort + AllocGlobal>(
    rt: &R,
    calculus: &str,
    source: &str,
    text: &str,
) -> Result<(), Fail> {
    for workers in ["--workers=1", "--workers=4", "--workers=64"] {
        let words = ["close", calculus, workers];
        expect_run(rt, &words, source.as_bytes(), text, Status::Done)?;
    }
    Ok(())
}

#[test]
fn every_built_in_calculus_closes_a_network(rt: HostRuntime) -> Result<(), Fail> {
    let alloc = rt.alloc();
    for (calculus, first, second, along) in ALONG {
        let source = format!(in alloc; "nodes 3\n0 1 {first}\n1 2 {second}\n.\n")?;
        let answer = format!(in alloc; "nodes 3\n0 1 {first}\n0 2 {along}\n1 2 {second}\n.\n")?;
        expect_closed(&rt, calculus, source.as_str(), answer.as_str())?;
    }
    Ok(())
}

const BY_TABLE: &[&str] = &["close", "table"];

#[test]
fn a_table_file_gives_its_calculus(rt: HostRuntime) -> Result<(), Fail> {
    let source = "nodes 3\n0 1 ( a b )\n0 2 ( a b )\n1 2 ( a b )\n.\n";
    let documents: [(&str, &[u8]); 1] = [("table", RAMSEY)];
    expect_over(&rt, BY_TABLE, &documents, source, source, Status::Done)
}

/// The table file of a built-in calculus.
fn table_of_rcc8(alloc: Global) -> Result<String, Fail> {
    let rcc8 = rcc8(alloc).map_err(|_| "memory")?;
    Ok(text(alloc, &rcc8).map_err(|_| "memory")?)
}

#[test]
fn a_built_in_calculus_is_given_by_its_table_file(rt: HostRuntime) -> Result<(), Fail> {
    let table = table_of_rcc8(rt.alloc())?;
    let documents: [(&str, &[u8]); 1] = [("table", table.as_bytes())];
    let source = "nodes 3\n0 1 ( TPP )\n1 2 ( NTPP )\n.\n";
    let answer = "nodes 3\n0 1 ( TPP )\n0 2 ( NTPP )\n1 2 ( NTPP )\n.\n";
    expect_over(&rt, BY_TABLE, &documents, source, answer, Status::Done)
}

/// The table file, and the line that refuses it.
const FAULTY_TABLES: [(&[u8], &str); 4] = [
    (b"", "refused 9 1\n"),
    (b"names ( a a )\nidentity a\n.\n", "refused 4 1\n"),
    (b"names ( a )\nidentity b\n.\n", "refused 10 2\n"),
    (b"names ( a )\nidentity a\na :: a\n.\n", "refused 11 0 0\n"),
];

#[test]
fn a_faulty_table_is_refused_before_the_source_is_read(rt: HostRuntime) -> Result<(), Fail> {
    for (table, line) in FAULTY_TABLES {
        expect_code(&rt, BY_TABLE, &[("table", table)], "no network", line, 3)?;
    }
    Ok(())
}

#[test]
fn an_absent_table_file_fails(rt: HostRuntime) -> Result<(), Fail> {
    let words = ["close", "nowhere"];
    let documents: [(&str, &[u8]); 1] = [("table", RAMSEY)];
    let source = "nodes 1\n.\n";
    expect_over(&rt, &words, &documents, source, "", Status::ReadFault)
}
