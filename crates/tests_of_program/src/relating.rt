//! Polygons: how they are related, the scenes that they draw, and networks over what they state.
use crate::runs::{expect_code, ran_over};
use std::alloc::Global;
use std::process::Abort;
use std::test::Fail;
use std::thread::Threads;

const NESTED: &[u8] =
    b"a POLYGON ((0 0, 10 0, 10 10, 0 10, 0 0))\nb POLYGON ((0 0, 5 0, 5 5, 0 5, 0 0))\n\
      c POLYGON ((2 2, 4 2, 4 4, 2 4, 2 2))\n";

const THIRDS: &[u8] =
    b"t POLYGON ((0 0, 3 0, 3 1, 0 0))\nu POLYGON ((1 -1, 2 -1, 2 2, 1 2, 1 -1))\n";

const BESIDE: &[u8] =
    b"a POLYGON ((0 0, 10 0, 10 10, 0 10, 0 0))\nf POLYGON ((10 0, 20 0, 20 10, 10 10, 10 0))\n";

const POLYGONS: [(&str, &[u8]); 4] = [
    ("nested", NESTED),
    ("thirds", THIRDS),
    ("beside", BESIDE),
    ("empty", b""),
];

const PAIRS: &str = "a b 212F11FF2 TPPi\na c 212FF1FF2 NTPPi\nb c 212FF1FF2 NTPPi\n";

const INNER_PAIRS: &str = "a c 212FF1FF2 NTPPi\nb c 212FF1FF2 NTPPi\n";

/// The words, the text that is written, and the exit code.
const RELATED: [(&[&str], &str, u8); 6] = [
    (&["relate", "nested"], PAIRS, 0),
    (
        &["relate", "nested", "--pattern", "****F****"],
        INNER_PAIRS,
        0,
    ),
    (
        &["relate", "nested", "--pattern", "T*X"],
        "refused 37 2\n",
        3,
    ),
    (&["relate", "thirds"], "t u 212101212 PO\n", 0),
    (&["relate", "beside"], "a f FF2F11212 EC\n", 0),
    (&["relate", "empty"], "", 0),
];

#[test]
fn polygons_are_related(rt: HostRuntime) -> Result<(), Fail> {
    for (words, text, code) in RELATED {
        expect_code(&rt, words, &POLYGONS, "", text, code)?;
    }
    Ok(())
}

/// One polygon.
const ALONE: &[u8] = b"a POLYGON ((0 0, 10 0, 10 10, 0 10, 0 0))\n";

/// Two polygons of one name, and a line that is none.
const FAULTY: &[u8] = b"a POLYGON ((0 0, 9 0, 0 9, 0 0))\na POLYGON ((0 0, 9 0, 0 9, 0 0))\na\n";

const DRAWN: [(&str, &[u8]); 4] = [
    ("nested", NESTED),
    ("alone", ALONE),
    ("empty", b""),
    ("faulty", FAULTY),
];

const NESTED_SCENE: &str =
    "nodes 3\nnames ( a b c )\n0 1 ( TPPi )\n0 2 ( NTPPi )\n1 2 ( NTPPi )\n.\n";

/// The words, the text that is written, and the exit code.
const SCENES: [(&[&str], &str, u8); 4] = [
    (&["scene", "nested"], NESTED_SCENE, 0),
    (&["scene", "alone"], "nodes 1\nnames ( a )\n.\n", 0),
    (&["scene", "empty"], "refused 52\n", 3),
    (&["scene", "faulty"], "refused 41 2\n", 3),
];

#[test]
fn polygons_draw_a_scene(rt: HostRuntime) -> Result<(), Fail> {
    for (words, text, code) in SCENES {
        expect_code(&rt, words, &DRAWN, "", text, code)?;
    }
    Ok(())
}

#[test]
fn a_scene_is_its_own_closure(rt: HostRuntime) -> Result<(), Fail> {
    expect_code(&rt, &["close", "rcc8"], &[], NESTED_SCENE, NESTED_SCENE, 0)
}

/// What stands after a polygon's name, and the line that refuses it.
const FAULTY_POLYGONS: [(&str, &str); 7] = [
    ("POLYGON ((0 0, 1 0, 0 0))", "refused 33 1\n"),
    ("POLYGON ((0 0, 100000001 0, 0 1, 0 0))", "refused 34 1 1\n"),
    (
        "POLYGON ((0 0, 10 10, 10 0, 0 10, 0 0))",
        "refused 35 1 0 2\n",
    ),
    ("POLYGON EMPTY", "refused 38 1\n"),
    (
        "POLYGON ((0 0, 9 0, 0 9, 0 0), (1 1, 2 1, 1 2, 1 1))",
        "refused 39 1\n",
    ),
    ("POLYGON ((0 0, 9 0, 0 9))", "refused 40 1\n"),
    (
        "POLYGON ((0 0, 9 0, 0 9, 0 0))\nz POLYGON ((0 0, 9 0, 0 9, 0 0))",
        "refused 41 2\n",
    ),
];

#[test]
fn faulty_polygons_are_refused(rt: HostRuntime) -> Result<(), Fail> {
    for (rest, line) in FAULTY_POLYGONS {
        let file = format!(in rt.alloc(); "z {rest}\n")?;
        let documents: [(&str, &[u8]); 1] = [("polygons", file.as_bytes())];
        expect_code(&rt, &["relate", "polygons"], &documents, "", line, 3)?;
    }
    Ok(())
}

/// Eight parcels of a street plan, squares in two rows; the last has this name.
fn parcels(alloc: Global, last: &str) -> Result<String, Fail> {
    let first =
        "p1 POLYGON ((0 0, 10 0, 10 10, 0 10, 0 0))\np2 POLYGON ((10 0, 20 0, 20 10, 10 10, 10 0))\n\
        p3 POLYGON ((20 0, 30 0, 30 10, 20 10, 20 0))\np4 POLYGON ((30 0, 40 0, 40 10, 30 10, 30 0))\n\
        p5 POLYGON ((0 10, 10 10, 10 20, 0 20, 0 10))\np6 POLYGON ((10 10, 20 10, 20 20, 10 20, 10 10))\n\
        p7 POLYGON ((20 10, 30 10, 30 20, 20 20, 20 10))\n";
    Ok(format!(in alloc; "{first}{last} POLYGON ((30 10, 40 10, 40 20, 30 20, 30 10))\n")?)
}

const PLAN: &str = "nodes 10\nnames ( p1 p2 p3 p4 p5 p6 p7 p8 west east )\n";

const DISTRICTS: &str =
    "p1 west ( TPP NTPP )\np2 west ( TPP NTPP )\np5 west ( TPP NTPP )\np6 west ( TPP NTPP )\n\
     p3 east ( TPP NTPP )\np4 east ( TPP NTPP )\np7 east ( TPP NTPP )\np8 east ( TPP NTPP )\nwest east ( EC )\n";

const PLACED: &str =
    "0 1 ( EC )\n0 2 ( DC )\n0 3 ( DC )\n0 4 ( EC )\n0 5 ( EC )\n0 6 ( DC )\n0 7 ( DC )\n0 8 ( TPP )\n\
     0 9 ( DC )\n1 2 ( EC )\n1 3 ( DC )\n1 4 ( EC )\n1 5 ( EC )\n1 6 ( EC )\n1 7 ( DC )\n1 8 ( TPP )\n\
     1 9 ( EC )\n2 3 ( EC )\n2 4 ( DC )\n2 5 ( EC )\n2 6 ( EC )\n2 7 ( EC )\n2 8 ( EC )\n2 9 ( TPP )\n\
     3 4 ( DC )\n3 5 ( DC )\n3 6 ( EC )\n3 7 ( EC )\n3 8 ( DC )\n3 9 ( TPP )\n4 5 ( EC )\n4 6 ( DC )\n\
     4 7 ( DC )\n4 8 ( TPP )\n4 9 ( DC )\n5 6 ( EC )\n5 7 ( DC )\n5 8 ( TPP )\n5 9 ( EC )\n6 7 ( EC )\n\
     6 8 ( EC )\n6 9 ( TPP )\n7 8 ( DC )\n7 9 ( TPP )\n8 9 ( EC )\n";

/// The certificate that the districts are placed.
fn placing<R: Threads + Sync + AllocGlobal>(
    rt: &R,
    plan: &str,
    source: &str,
) -> Result<Vec<u8>, Fail> {
    let words = ["solve", "rcc8", "--polygons", "plan", "--cert"];
    let (_, cert) = ran_over(rt, &words, &[("plan", plan.as_bytes())], source.as_bytes())?;
    Ok(cert)
}

/// Runs over the districts, on a shelf with the plan, one with a parcel misnamed, and the certificate: the text that is
/// written, and the exit code.
fn expect_of_districts<R: Threads + Sync + Abort + AllocGlobal>(
    rt: &R,
    words: &[&str],
    text: &str,
    code: u8,
) -> Result<(), Fail> {
    let alloc = rt.alloc();
    let source = format!(in alloc; "{PLAN}{DISTRICTS}.\n")?;
    let (plan, other) = (parcels(alloc, "p8")?, parcels(alloc, "q8")?);
    let cert = placing(rt, plan.as_str(), source.as_str())?;
    let documents: [(&str, &[u8]); 3] = [
        ("plan", plan.as_bytes()),
        ("other", other.as_bytes()),
        ("cert", cert.as_slice()),
    ];
    expect_code(rt, words, &documents, source.as_str(), text, code)
}

#[test]
fn districts_are_placed_by_their_parcels(rt: HostRuntime) -> Result<(), Fail> {
    let placed = format!(in rt.alloc(); "yes 8\n{PLAN}{PLACED}.\n")?;
    let words = ["solve", "rcc8", "--polygons", "plan"];
    expect_of_districts(&rt, &words, placed.as_str(), 0)
}

#[test]
fn a_polygon_that_names_no_node_is_refused(rt: HostRuntime) -> Result<(), Fail> {
    let words = ["solve", "rcc8", "--polygons", "other"];
    expect_of_districts(&rt, &words, "refused 43 7\n", 3)
}

#[test]
fn certificates_are_checked_over_polygons(rt: HostRuntime) -> Result<(), Fail> {
    let words = ["check", "rcc8", "cert", "--polygons", "plan"];
    expect_of_districts(&rt, &words, "accepted\n", 0)
}
