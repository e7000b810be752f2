//! Searches for a scenario: their verdicts, their budgets, and the classes that they split by.
use crate::runs::{RAMSEY, complete, expect_code, expect_over, expect_run};
use qsr_top::Status;
use std::process::Abort;
use std::test::Fail;
use std::thread::Threads;

const YES: &str = "yes 1\nnodes 2\n0 1 ( TPP )\n.\n";

/// The words, the fact of the two nodes, the text that is written, and how the run ends.
const VERDICTS: [(&[&str], &str, &str, Status); 6] = [
    (&["solve", "rcc8"], "0 1 ( TPP TPPi )", YES, Status::Done),
    (
        &["solve", "rcc8", "--budget=0"],
        "0 1 ( TPP TPPi )",
        "budget 0\n",
        Status::Budget,
    ),
    (
        &["solve", "rcc8", "--class=none"],
        "0 1 ( TPP EQ )",
        YES,
        Status::Done,
    ),
    (&["solve", "rcc8"], "0 1 ( )", "no 0\n", Status::No),
    (
        &["solve", "point"],
        "0 1 ( > )",
        "yes 0\nnodes 2\n0 1 ( > )\n.\n",
        Status::Done,
    ),
    (
        &["solve", "allen", "--class", "h8"],
        "",
        "usage\n",
        Status::Usage,
    ),
];

#[test]
fn searches_write_their_verdicts(rt: HostRuntime) -> Result<(), Fail> {
    for (words, fact, text, status) in VERDICTS {
        let source = format!(in rt.alloc(); "nodes 2\n{fact}\n.\n")?;
        expect_run(&rt, words, source.as_bytes(), text, status)?;
    }
    Ok(())
}

const FIVE_GUESTS: &str =
    "yes 5\nnodes 5\n0 1 ( a )\n0 2 ( a )\n0 3 ( b )\n0 4 ( b )\n1 2 ( b )\n1 3 ( a )\n1 4 ( b )\n\
     2 3 ( b )\n2 4 ( a )\n3 4 ( a )\n.\n";

/// How many guests, the budget, and the answer; of six, three know each other or three don't (Ramsey 1930).
const GUESTS: [(u32, &str, &str, Status); 5] = [
    (5, "1023", FIVE_GUESTS, Status::Done),
    (5, "4", "budget 4\n", Status::Budget),
    (6, "19", "no 19\n", Status::No),
    (6, "18", "budget 18\n", Status::Budget),
    (6, "0", "budget 0\n", Status::Budget),
];

/// Searches with one worker, with four and with 64: the text that is written, and how the run ends.
fn expect_searched<R: Threads + Sync + Abort + AllocGlobal>(
    rt: &R,
    source: &str,
    budget: &str,
    text: &str,
    status: Status,
) -> Result<(), Fail> {
    for workers in ["1", "4", "64"] {
        let words = ["solve", "table", "--budget", budget, "--workers", workers];
        expect_over(rt, &words, &[("table", RAMSEY)], source, text, status)?;
    }
    Ok(())
}

#[test]
fn friends_and_strangers_are_found_up_to_five_guests(rt: HostRuntime) -> Result<(), Fail> {
    for (nodes, budget, text, status) in GUESTS {
        let source = complete(rt.alloc(), nodes, "( a b )", "")?;
        expect_searched(&rt, source.as_str(), budget, text, status)?;
    }
    Ok(())
}

/// A calculus of three colours, in which no triangle has one.
const COLOURS: &[u8] = b"names ( id a b c )\nidentity id\nid :: id\na :: a\nb :: b\nc :: c\n\
    id : id :: ( id )\nid : a :: ( a )\nid : b :: ( b )\nid : c :: ( c )\n\
    a : id :: ( a )\na : a :: ( id b c )\na : b :: ( a b c )\na : c :: ( a b c )\n\
    b : id :: ( b )\nb : a :: ( a b c )\nb : b :: ( id a c )\nb : c :: ( a b c )\n\
    c : id :: ( c )\nc : a :: ( a b c )\nc : b :: ( a b c )\nc : c :: ( id a b )\n.\n";

/// Of seventeen nodes three have edges of one colour (Greenwood and Gleason 1955), which takes long to show.
#[test]
fn thousands_of_splits_are_told(rt: HostRuntime) -> Result<(), Fail> {
    let source = complete(rt.alloc(), 17, "( a b c )", "")?;
    let words = ["solve", "table", "--budget", "5000"];
    let documents = [("table", COLOURS)];
    expect_over(
        &rt,
        &words,
        &documents,
        source.as_str(),
        "budget 5000\n",
        Status::Budget,
    )
}

const BY_CLASS: &[&str] = &["solve", "table", "--class", "class"];

/// The table file, the class file, and the line that is written.
const FAULTY_CLASSES: [(&[u8], &[u8], &str); 5] = [
    (
        RAMSEY,
        b"( id )\n( a )\n( b )\n( id a )\n.\n",
        "refused 23 2 2 3\n",
    ),
    (RAMSEY, b"( id )\n( x )\n.\n", "refused 21 2\n"),
    (RAMSEY, b"( id )\n( a )\n.\n", "refused 22 2\n"),
    (RAMSEY, b"", "refused 21 1\n"),
    (b"", b"", "refused 9 1\n"),
];

#[test]
fn a_faulty_class_is_refused_before_the_source_is_read(rt: HostRuntime) -> Result<(), Fail> {
    for (table, class, line) in FAULTY_CLASSES {
        let documents: [(&str, &[u8]); 2] = [("table", table), ("class", class)];
        expect_code(&rt, BY_CLASS, &documents, "no network", line, 3)?;
    }
    Ok(())
}

const ALL_SETS: &[u8] = b"( id )\n( a )\n( b )\n( id a )\n( id b )\n( a b )\n( id a b )\n.\n";

/// Searches over six guests by a class file: the text that is written, and how the run ends.
fn expect_by_class<R: Threads + Sync + Abort + AllocGlobal>(
    rt: &R,
    documents: &[(&str, &[u8])],
    text: &str,
    status: Status,
) -> Result<(), Fail> {
    let source = complete(rt.alloc(), 6, "( a b )", "")?;
    expect_over(rt, BY_CLASS, documents, source.as_str(), text, status)
}

#[test]
fn a_class_of_all_sets_splits_them_into_base_relations(rt: HostRuntime) -> Result<(), Fail> {
    let documents: [(&str, &[u8]); 2] = [("table", RAMSEY), ("class", ALL_SETS)];
    expect_by_class(&rt, &documents, "no 19\n", Status::No)
}

#[test]
fn an_absent_class_file_fails(rt: HostRuntime) -> Result<(), Fail> {
    expect_by_class(&rt, &[("table", RAMSEY)], "", Status::ReadFault)
}

#[test]
fn a_seed_states_a_network(rt: HostRuntime) -> Result<(), Fail> {
    let text = "demo 0 2\nkept 1\nbits 1\nyes 0\n";
    expect_code(&rt, &["demo", "0", "2"], &[], "", text, 0)
}
