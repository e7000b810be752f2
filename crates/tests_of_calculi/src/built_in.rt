//! The built-in calculi: their names, compositions and converses, as published.
use crate::asserts::{assert_same, assert_same_in};
use crate::calculi::{composed, turned};
use calculus_builtin::{allen, point, rcc8};
use calculus_table::{Calculus, Compose, Rel};
use std::process::Abort;
use std::test::Fail;

/// The set of these base relations.
fn set_of(rt: &impl Abort, c: &Calculus, names: &[&str]) -> Rel {
    let mut set = Rel::EMPTY;
    for name in names {
        let r = c
            .find(name.as_bytes())
            .expect(rt, "a base relation has the name");
        assert!(rt; r < 64);
        set = set.union(Rel::single(r));
    }
    set
}

/// Two base relations, and their composition.
type Composition<'a> = (&'a str, &'a str, &'a [&'a str]);

/// Asserts that a calculus has this composition.
fn has_composition(rt: &impl Abort, c: &Calculus, row: Composition<'_>) {
    let (first, second, expected) = row;
    let (r, s) = (set_of(rt, c, &[first]), set_of(rt, c, &[second]));
    assert_same_in(
        rt,
        composed(rt, c, r, s),
        set_of(rt, c, expected),
        (first, second),
    );
}

/// Asserts that a calculus has these compositions.
fn has_compositions(rt: &impl Abort, c: &Calculus, rows: &[Composition<'_>]) {
    for row in rows {
        has_composition(rt, c, *row);
    }
}

/// Asserts that the second base relation is the converse of the first.
fn has_converse(rt: &impl Abort, c: &Calculus, base: &str, converse: &str) {
    let found = turned(rt, c, set_of(rt, c, &[base]));
    assert_same_in(rt, found, set_of(rt, c, &[converse]), base);
}

/// Asserts that these are the names of the base relations, and which of them is the identity.
fn has_names(rt: &impl Abort, c: &Calculus, names: &[&str], identity: &[u8]) {
    assert_same(rt, c.size() as usize, names.len());
    assert_same(rt, c.find(identity), Some(c.identity()));
    for r in 0..c.size() {
        assert_same(rt, names.get(r as usize).copied(), Some(c.name(r)));
    }
}

const REGIONS: [&str; 8] = ["DC", "EC", "PO", "TPP", "NTPP", "TPPi", "NTPPi", "EQ"];

const OF_REGIONS: [Composition; 6] = [
    ("EC", "EC", &["DC", "EC", "PO", "TPP", "TPPi", "EQ"]),
    ("TPP", "NTPP", &["NTPP"]),
    ("PO", "TPP", &["PO", "TPP", "NTPP"]),
    ("DC", "NTPPi", &["DC"]),
    ("TPPi", "TPP", &["PO", "TPP", "TPPi", "EQ"]),
    (
        "NTPPi",
        "NTPP",
        &["PO", "TPP", "NTPP", "TPPi", "NTPPi", "EQ"],
    ),
];

#[test]
fn rcc8_composes_as_published(rt: HostRuntime) -> Result<(), Fail> {
    let c = rcc8(rt.alloc())?;
    has_names(&rt, &c, &REGIONS, b"EQ");
    has_compositions(&rt, &c, &OF_REGIONS);
    assert_same(&rt, composed(&rt, &c, c.full(), c.full()), c.full());
    has_converse(&rt, &c, "NTPP", "NTPPi");
    has_converse(&rt, &c, "EC", "EC");
    Ok(())
}

const INTERVALS: [&str; 13] = [
    "b", "m", "o", "fi", "di", "s", "eq", "si", "d", "f", "oi", "mi", "bi",
];

const OF_INTERVALS: [Composition; 7] = [
    ("b", "m", &["b"]),
    ("o", "d", &["o", "s", "d"]),
    ("m", "mi", &["fi", "eq", "f"]),
    ("s", "si", &["s", "eq", "si"]),
    ("d", "di", &INTERVALS),
    ("bi", "d", &["bi", "mi", "oi", "d", "f"]),
    (
        "o",
        "oi",
        &["o", "fi", "di", "s", "eq", "si", "d", "f", "oi"],
    ),
];

#[test]
fn allen_composes_as_published(rt: HostRuntime) -> Result<(), Fail> {
    let c = allen(rt.alloc())?;
    has_names(&rt, &c, &INTERVALS, b"eq");
    has_compositions(&rt, &c, &OF_INTERVALS);
    has_converse(&rt, &c, "fi", "f");
    has_converse(&rt, &c, "b", "bi");
    Ok(())
}

const POINTS: [&str; 3] = ["<", "=", ">"];

const OF_POINTS: [Composition; 5] = [
    ("<", "=", &["<"]),
    ("<", "<", &["<"]),
    ("<", ">", &["<", "=", ">"]),
    (">", "<", &["<", "=", ">"]),
    (">", ">", &[">"]),
];

#[test]
fn points_compose_by_their_order(rt: HostRuntime) -> Result<(), Fail> {
    let c = point(rt.alloc())?;
    has_names(&rt, &c, &POINTS, b"=");
    has_compositions(&rt, &c, &OF_POINTS);
    has_converse(&rt, &c, "<", ">");
    Ok(())
}
