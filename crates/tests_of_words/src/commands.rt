//! Words of the command line, and what they ask for.
use crate::asserts::assert_same_in;
use calculus_table::Memory;
use qsr_words::{Check, Relate, Request, Solve, read};
use std::alloc::{AllocError, Global};
use std::test::Fail;

/// The words, each of its own.
fn owned(alloc: Global, words: &[&str]) -> Result<Vec<String>, AllocError> {
    let mut owned = Vec::new(alloc);
    for word in words {
        owned.push(String::from_str(alloc, word)?)?;
    }
    Ok(owned)
}

/// What the words ask for.
fn asked(alloc: Global, words: &[&str]) -> Result<Request, Memory> {
    match owned(alloc, words) {
        Ok(words) => read(alloc, &words),
        Err(_) => Err(Memory),
    }
}

/// The text, and the empty one where there is none.
fn text_or_none(text: &Option<String>) -> &str {
    match text {
        Some(text) => text.as_str(),
        None => "",
    }
}

/// The words, the calculus, and the number of workers, if one is named.
const CLOSINGS: [(&[&str], &str, Option<u32>); 5] = [
    (&["close", "rcc8"], "rcc8", None),
    (&["close", "--workers", "1", "allen"], "allen", Some(1)),
    (&["close", "--workers=04", "rcc8"], "rcc8", Some(4)),
    (
        &["close", "towns.table", "--workers=64"],
        "towns.table",
        Some(64),
    ),
    (&["close", "help"], "help", None),
];

#[test]
fn words_of_close_are_taken(rt: HostRuntime) -> Result<(), Fail> {
    for (words, calculus, workers) in CLOSINGS {
        let request = asked(rt.alloc(), words)?;
        let Request::Close(close) = &request else {
            return Err(Fail::from("no network to close"));
        };
        assert_same_in(
            &rt,
            (close.calculus.as_str(), close.workers),
            (calculus, workers),
            words,
        );
    }
    Ok(())
}

/// What a row says of a search: the calculus, the class, the polygons or no text, the budget, the number of workers,
/// if one is named, and whether the answer is a certificate.
type Search<'a> = (&'a str, &'a str, &'a str, u32, Option<u32>, bool);

/// What a request says of the search.
fn search_of(solve: &Solve) -> Search<'_> {
    (
        solve.calculus.as_str(),
        solve.class.as_str(),
        text_or_none(&solve.polygons),
        solve.budget,
        solve.workers,
        solve.cert,
    )
}

/// The words, and the search.
const SEARCHES: [(&[&str], Search); 9] = [
    (&["solve", "rcc8"], ("rcc8", "h8", "", 1000, None, false)),
    (
        &["solve", "allen"],
        ("allen", "none", "", 1000, None, false),
    ),
    (
        &["solve", "rcc8", "--cert"],
        ("rcc8", "h8", "", 1000, None, true),
    ),
    (
        &["solve", "--cert", "point"],
        ("point", "none", "", 1000, None, true),
    ),
    (
        &["solve", "t", "--class", "k"],
        ("t", "k", "", 1000, None, false),
    ),
    (
        &["solve", "--class=q8", "rcc8", "--budget=0"],
        ("rcc8", "q8", "", 0, None, false),
    ),
    (
        &["solve", "rcc8", "--polygons", "p"],
        ("rcc8", "h8", "p", 1000, None, false),
    ),
    (
        &["solve", "--polygons=a=b", "--cert", "rcc8"],
        ("rcc8", "h8", "a=b", 1000, None, true),
    ),
    (
        &[
            "solve",
            "rcc8",
            "--class",
            "none",
            "--budget",
            "10000",
            "--workers=1",
        ],
        ("rcc8", "none", "", 10_000, Some(1), false),
    ),
];

#[test]
fn words_of_solve_are_taken(rt: HostRuntime) -> Result<(), Fail> {
    for (words, search) in SEARCHES {
        let request = asked(rt.alloc(), words)?;
        let Request::Solve(solve) = &request else {
            return Err(Fail::from("no search"));
        };
        assert_same_in(&rt, search_of(solve), search, words);
    }
    Ok(())
}

/// What a row says of a certificate that is checked or traced: the calculus, the certificate, and the polygons or no
/// text.
type Checked<'a> = (&'a str, &'a str, &'a str);

/// What a request says of the certificate.
fn checked_of(check: &Check) -> Checked<'_> {
    (
        check.calculus.as_str(),
        check.certificate.as_str(),
        text_or_none(&check.polygons),
    )
}

/// The words of `check`, and the certificate.
const CHECKS: [(&[&str], Checked); 4] = [
    (&["check", "allen", "c"], ("allen", "c", "")),
    (&["check", "t", "rcc8"], ("t", "rcc8", "")),
    (
        &["check", "rcc8", "--polygons", "p", "c"],
        ("rcc8", "c", "p"),
    ),
    (&["check", "--polygons=p", "rcc8", "c"], ("rcc8", "c", "p")),
];

/// The words of `trace`, and the certificate.
const TRACES: [(&[&str], Checked); 4] = [
    (&["trace", "allen", "c"], ("allen", "c", "")),
    (&["trace", "t", "rcc8"], ("t", "rcc8", "")),
    (
        &["trace", "rcc8", "--polygons", "p", "c"],
        ("rcc8", "c", "p"),
    ),
    (&["trace", "--polygons=p", "rcc8", "c"], ("rcc8", "c", "p")),
];

#[test]
fn words_of_check_are_taken(rt: HostRuntime) -> Result<(), Fail> {
    for (words, checked) in CHECKS {
        let request = asked(rt.alloc(), words)?;
        let Request::Check(check) = &request else {
            return Err(Fail::from("nothing to check"));
        };
        assert_same_in(&rt, checked_of(check), checked, words);
    }
    Ok(())
}

#[test]
fn words_of_trace_are_taken(rt: HostRuntime) -> Result<(), Fail> {
    for (words, checked) in TRACES {
        let request = asked(rt.alloc(), words)?;
        let Request::Trace(trace) = &request else {
            return Err(Fail::from("nothing to trace"));
        };
        assert_same_in(&rt, checked_of(trace), checked, words);
    }
    Ok(())
}

/// The words, the polygons, and the pattern or no text.
const RELATED: [(&[&str], &str, &str); 4] = [
    (&["relate", "p"], "p", ""),
    (&["relate", "p", "--pattern="], "p", ""),
    (&["relate", "p", "--pattern", "T*F**F***"], "p", "T*F**F***"),
    (&["relate", "--pattern=?", "p"], "p", "?"),
];

#[test]
fn words_of_relate_are_taken(rt: HostRuntime) -> Result<(), Fail> {
    for (words, polygons, pattern) in RELATED {
        let request = asked(rt.alloc(), words)?;
        let Request::Relate(relate) = &request else {
            return Err(Fail::from("nothing to relate"));
        };
        let taken = (relate.polygons.as_str(), text_or_none(&relate.pattern));
        assert_same_in(&rt, taken, (polygons, pattern), words);
    }
    Ok(())
}

/// The words, the class, the budget, and the number of workers, if one is named.
const INTERVALS: [(&[&str], &str, u32, Option<u32>); 4] = [
    (&["intervals"], "none", 1000, None),
    (&["intervals", "--class", "none"], "none", 1000, None),
    (&["intervals", "--class=k", "--budget=0"], "k", 0, None),
    (
        &["intervals", "--workers", "64", "--budget", "10000"],
        "none",
        10_000,
        Some(64),
    ),
];

#[test]
fn words_of_intervals_are_taken(rt: HostRuntime) -> Result<(), Fail> {
    for (words, class, budget, workers) in INTERVALS {
        let request = asked(rt.alloc(), words)?;
        let Request::Intervals(intervals) = &request else {
            return Err(Fail::from("no intervals"));
        };
        let taken = (
            intervals.class.as_str(),
            intervals.budget,
            intervals.workers,
        );
        assert_same_in(&rt, taken, (class, budget, workers), words);
    }
    Ok(())
}

/// What a row says of a search for a minimal network: the calculus, the class, the budget, and the number of workers,
/// if one is named.
type MinimalSearch<'a> = (&'a str, &'a str, u32, Option<u32>);

/// The words, and the search.
const MINIMAL_SEARCHES: [(&[&str], MinimalSearch); 6] = [
    (&["minimal", "rcc8"], ("rcc8", "h8", 1000, None)),
    (&["minimal", "allen"], ("allen", "none", 1000, None)),
    (
        &["minimal", "--class=q8", "rcc8"],
        ("rcc8", "q8", 1000, None),
    ),
    (
        &["minimal", "t", "--class", "k", "--budget=0"],
        ("t", "k", 0, None),
    ),
    (
        &["minimal", "point", "--class=none", "--workers", "1"],
        ("point", "none", 1000, Some(1)),
    ),
    (
        &["minimal", "--workers=64", "--budget", "10000", "rcc8"],
        ("rcc8", "h8", 10_000, Some(64)),
    ),
];

#[test]
fn words_of_minimal_are_taken(rt: HostRuntime) -> Result<(), Fail> {
    for (words, search) in MINIMAL_SEARCHES {
        let request = asked(rt.alloc(), words)?;
        let Request::Minimal(minimal) = &request else {
            return Err(Fail::from("no minimal network"));
        };
        let taken = (
            minimal.calculus.as_str(),
            minimal.class.as_str(),
            minimal.budget,
            minimal.workers,
        );
        assert_same_in(&rt, taken, search, words);
    }
    Ok(())
}

/// The words, and the polygons.
const SCENES: [(&[&str], &str); 2] = [(&["scene", "p"], "p"), (&["scene", "a=b"], "a=b")];

#[test]
fn words_of_scene_are_taken(rt: HostRuntime) -> Result<(), Fail> {
    for (words, polygons) in SCENES {
        let request = asked(rt.alloc(), words)?;
        let Request::Scene(scene) = &request else {
            return Err(Fail::from("no scene"));
        };
        assert_same_in(&rt, scene.polygons.as_str(), polygons, words);
    }
    Ok(())
}

/// The words, the calculus, the number of nodes, and the number of workers.
const SCRIPTS: [(&[&str], &str, u32, u32); 3] = [
    (&["serve", "rcc8", "1"], "rcc8", 1, 4),
    (&["serve", "--workers", "64", "t", "256"], "t", 256, 64),
    (&["serve", "allen", "--workers=1", "03"], "allen", 3, 1),
];

#[test]
fn words_of_serve_are_taken(rt: HostRuntime) -> Result<(), Fail> {
    for (words, calculus, nodes, workers) in SCRIPTS {
        let request = asked(rt.alloc(), words)?;
        let Request::Serve(serve) = &request else {
            return Err(Fail::from("no script"));
        };
        let taken = (serve.calculus.as_str(), serve.nodes, serve.workers);
        assert_same_in(&rt, taken, (calculus, nodes, workers), words);
    }
    Ok(())
}

/// The words, the seed, and the number of nodes.
const DEMONSTRATIONS: [(&[&str], u32, u32); 3] = [
    (&["demo", "0", "2"], 0, 2),
    (&["demo", "4294967295", "256"], 4_294_967_295, 256),
    (&["demo", "007", "03"], 7, 3),
];

#[test]
fn words_of_demo_are_taken(rt: HostRuntime) -> Result<(), Fail> {
    for (words, seed, nodes) in DEMONSTRATIONS {
        let request = asked(rt.alloc(), words)?;
        let Request::Demo(demo) = &request else {
            return Err(Fail::from("no demonstration"));
        };
        assert_same_in(&rt, (demo.seed, demo.nodes), (seed, nodes), words);
    }
    Ok(())
}

/// Words that ask for nothing.
const OTHERS: [&[&str]; 74] = [
    &[],
    &["--workers", "2", "close", "rcc8"],
    &["--help"],
    &["open", "rcc8"],
    &["close"],
    &["close", "rcc8", "extra"],
    &["close", "rcc8", "--workers", "65"],
    &["close", "rcc8", "--workers", "0"],
    &["close", "rcc8", "--workers", "+1"],
    &["close", "rcc8", "--workers"],
    &["close", "rcc8", "--workers="],
    &["close", "rcc8", "--workers", "1", "--workers", "2"],
    &["close", "rcc8", "--help"],
    &["close", "rcc8", ""],
    &["close", "-"],
    &["close", "--", "rcc8"],
    &["close", "-w", "rcc8"],
    &["solve", "rcc8", "--budget", "10001"],
    &["solve", "rcc8", "--budget", "5", "--budget", "6"],
    &["solve", "allen", "--class", "h8"],
    &["solve", "point", "--class=c8"],
    &["solve", "a.table", "--class=q8"],
    &["solve", "rcc8", "--class="],
    &["solve", "rcc8", "--budget="],
    &["solve", "allen", "--polygons", "p"],
    &["solve", "rcc8", "--polygons="],
    &["solve", "rcc8", "--polygons"],
    &["solve", "rcc8", "--cert=x"],
    &["solve", "rcc8", "--cert="],
    &["solve", "rcc8", "--cert", "--cert"],
    &["solve", "rcc8", "--cert", "true"],
    &["solve", "rcc8", "--pattern", "t"],
    &["solve"],
    &["intervals", "allen"],
    &["intervals", "--class", "h8"],
    &["intervals", "--class="],
    &["intervals", "--budget", "10001"],
    &["intervals", "--workers=0"],
    &["intervals", "--cert"],
    &["minimal"],
    &["minimal", "rcc8", "allen"],
    &["minimal", "allen", "--class", "h8"],
    &["minimal", "a.table", "--class=q8"],
    &["minimal", "rcc8", "--class="],
    &["minimal", "rcc8", "--budget", "10001"],
    &["minimal", "rcc8", "--workers=0"],
    &["minimal", "rcc8", "--workers", "65"],
    &["minimal", "rcc8", "--cert"],
    &["minimal", "rcc8", "--polygons", "p"],
    &["check", "rcc8"],
    &["check", "allen", "c", "--polygons", "p"],
    &["check", "rcc8", "c", "--polygons="],
    &["check", "rcc8", "c", "d"],
    &["check", "rcc8", "c", "--cert"],
    &["trace", "t"],
    &["trace", "t", "c", "--polygons=p"],
    &["relate"],
    &["relate", "p", "q"],
    &["relate", "p", "--pattern", "-"],
    &["scene"],
    &["scene", "p", "q"],
    &["scene", "p", "--pattern", "t"],
    &["serve", "rcc8"],
    &["serve", "rcc8", "0"],
    &["serve", "rcc8", "257"],
    &["serve", "rcc8", "2", "--workers", "65"],
    &["demo", "0", "1"],
    &["demo", "4294967296", "2"],
    &["demo", "0", "257"],
    &["demo", "0"],
    &["demo", "-1", "2"],
    &["demo", "0", "2", "3"],
    &["demo", "0x1", "2"],
    &["demo", "0", "2", "--workers", "1"],
];

#[test]
fn other_words_ask_for_nothing(rt: HostRuntime) -> Result<(), Fail> {
    for words in OTHERS {
        let request = asked(rt.alloc(), words)?;
        assert!(rt; matches!(&request, Request::Usage), "{words:?}");
    }
    Ok(())
}
