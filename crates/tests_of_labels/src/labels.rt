//! Labels of base relations in small networks of regions, intervals and points.
ghost use Rattle.std.specs.Prelude.{◌<◌, ◌^◌, IfOk, length};
ghost use Rattle.minimal_net.specs.Labels.{nodes_of};

use crate::asserts::assert_same;
use crate::nets::{has_bases, is_network, net_of};
use calculus_builtin::{allen, point, rcc8};
use calculus_table::{Calculus, Compose};
use minimal_net::{Label, minimal};
use network_words::Net;
use split_search::MAX_BUDGET;
use std::alloc::Global;
use std::process::Abort;
use std::test::Fail;
use tract_classes::{Class, c8, h8, none, q8};

/// What a label says: the base relations of the scenario, or the number of splits.
#[derive(Clone, Copy, PartialEq, Eq)]
enum Said<'a> {
    Held(&'a [u8]),
    Refuted(u32),
    Budget(u32),
}

/// The label of a base relation at an edge.
fn label(
    rt: &impl Abort,
    alloc: Global,
    net: &Net,
    c: &Calculus,
    class: &Class,
    asked: (u32, u32, u32),
) -> Result<Label, Fail>
    ensures { IfOk result (λ label. length (nodes_of label) < 2 ^ 32) }
{
    let (edge, base, budget) = asked;
    assert!(rt; is_network(net, c) && has_bases(class, c));
    assert!(rt; edge < net.edges() && base < c.size() && budget <= MAX_BUDGET);
    Ok(minimal(alloc, net, c, class, edge, base, budget)?)
}

/// Whether the label says so.
fn says(label: &Label, expected: Said) -> bool
    requires { length (nodes_of label.now) < 2 ^ 32 }
{
    match label {
        Label::Held(s) => expected == Said::Held(s.bases.as_slice()),
        Label::Refuted(tree) => expected == Said::Refuted(tree.splits()),
        Label::Budget(tree) => expected == Said::Budget(tree.splits()),
    }
}

/// A network, by its nodes and sets; an edge, a base relation and a budget; and what the label says.
type Row<'a> = (u32, &'a [u64], (u32, u32, u32), Said<'a>);

/// Fails unless each label says so.
fn assert_labels(
    rt: &impl Abort,
    alloc: Global,
    c: &Calculus,
    class: &Class,
    rows: &[Row],
) -> Result<(), Fail> {
    for (nodes, words, asked, expected) in rows {
        let net = net_of(alloc, c.full(), *nodes, words)?;
        let label = label(rt, alloc, &net, c, class, *asked)?;
        assert!(rt; says(&label, *expected), "of {words:?} at {asked:?}");
    }
    Ok(())
}

const DC: u8 = 0;

const TPP: u8 = 3;

const NTPP: u8 = 4;

const TPPI: u8 = 5;

/// All base relations of regions; an inner part; a part of some kind; and a touching part either way round.
const ANY_REGIONS: u64 = 255;

const INNER: u64 = 1 << 4;

const PART: u64 = 1 << 3 | 1 << 4;

const TOUCHING: u64 = 1 << 3 | 1 << 5;

/// Labels that H8, C8 and Q8 give alike.
const OF_REGIONS: [Row; 13] = [
    // one edge
    (2, &[TOUCHING], (0, 3, 0), Said::Held(&[TPP])),
    (2, &[TOUCHING], (0, 5, 0), Said::Held(&[TPPI])),
    (2, &[TOUCHING], (0, 0, 1000), Said::Refuted(0)),
    (2, &[0], (0, 0, 1000), Said::Refuted(0)),
    // an inner part of an inner part is an inner part
    (
        3,
        &[INNER, ANY_REGIONS, INNER],
        (1, 4, 0),
        Said::Held(&[NTPP, NTPP, NTPP]),
    ),
    (
        3,
        &[INNER, ANY_REGIONS, INNER],
        (1, 3, 1000),
        Said::Refuted(0),
    ),
    // a part of a part touches only where both do, and where both do it may still be an inner part
    (
        3,
        &[PART, ANY_REGIONS, PART],
        (1, 3, 0),
        Said::Held(&[TPP, TPP, TPP]),
    ),
    (
        3,
        &[PART, ANY_REGIONS, PART],
        (1, 4, 2),
        Said::Held(&[TPP, NTPP, TPP]),
    ),
    (3, &[PART, ANY_REGIONS, PART], (1, 4, 1), Said::Budget(1)),
    // nothing is known
    (3, &[ANY_REGIONS; 3], (0, 0, 0), Said::Budget(0)),
    (3, &[ANY_REGIONS; 3], (0, 0, 2), Said::Held(&[DC, DC, DC])),
    // a set that is in none of the three classes is split first
    (
        3,
        &[ANY_REGIONS, TOUCHING, ANY_REGIONS],
        (2, 0, 0),
        Said::Budget(0),
    ),
    (
        3,
        &[ANY_REGIONS, TOUCHING, ANY_REGIONS],
        (2, 0, 1),
        Said::Held(&[DC, TPP, DC]),
    ),
];

/// Labels by single base relations alone: the first edge that has several is split.
const OF_REGIONS_BY_SINGLES: [Row; 2] = [
    (
        3,
        &[ANY_REGIONS, TOUCHING, ANY_REGIONS],
        (2, 0, 1),
        Said::Budget(1),
    ),
    (
        3,
        &[ANY_REGIONS, TOUCHING, ANY_REGIONS],
        (2, 0, 2),
        Said::Held(&[DC, TPP, DC]),
    ),
];

#[test]
fn regions_are_labelled_over_h8(rt: HostRuntime) -> Result<(), Fail> {
    let alloc = rt.alloc();
    assert_labels(&rt, alloc, &rcc8(alloc)?, &h8(alloc)?, &OF_REGIONS)
}

#[test]
fn regions_are_labelled_over_c8(rt: HostRuntime) -> Result<(), Fail> {
    let alloc = rt.alloc();
    assert_labels(&rt, alloc, &rcc8(alloc)?, &c8(alloc)?, &OF_REGIONS)
}

#[test]
fn regions_are_labelled_over_q8(rt: HostRuntime) -> Result<(), Fail> {
    let alloc = rt.alloc();
    assert_labels(&rt, alloc, &rcc8(alloc)?, &q8(alloc)?, &OF_REGIONS)
}

#[test]
fn regions_are_labelled_by_singles(rt: HostRuntime) -> Result<(), Fail> {
    let alloc = rt.alloc();
    assert_labels(
        &rt,
        alloc,
        &rcc8(alloc)?,
        &none(alloc, 8)?,
        &OF_REGIONS_BY_SINGLES,
    )
}

const B: u8 = 0;

const M: u8 = 1;

const SI: u8 = 7;

const F: u8 = 9;

const ANY_INTERVALS: u64 = 8191;

/// Before or meeting; meeting; started by or finishing.
const MEETING: [u64; 3] = [0x003, 0x002, 0x280];

/// A closed network without a scenario, after that of Kautz in Allen (1983).
const KAUTZ: [u64; 6] = [0x110, 0x208, 0x880, 0x110, 0x400, 0x880];

const OF_INTERVALS: [Row; 9] = [
    // where the second starts, it begins where the first ends; where it finishes, after that
    (3, &MEETING, (2, 7, 0), Said::Held(&[M, M, SI])),
    (3, &MEETING, (2, 9, 0), Said::Held(&[B, M, F])),
    (3, &MEETING, (0, 0, 0), Said::Held(&[B, M, F])),
    (3, &MEETING, (1, 0, 1000), Said::Refuted(0)),
    (3, &[ANY_INTERVALS; 3], (0, 0, 0), Said::Budget(0)),
    (3, &[ANY_INTERVALS; 3], (0, 0, 2), Said::Held(&[B, B, B])),
    // closing alone doesn't refute the one base relation of an edge, and refutes one of two
    (4, &KAUTZ, (4, 10, 0), Said::Budget(0)),
    (4, &KAUTZ, (4, 10, 1), Said::Refuted(1)),
    (4, &KAUTZ, (0, 8, 0), Said::Refuted(0)),
];

#[test]
fn intervals_are_labelled(rt: HostRuntime) -> Result<(), Fail> {
    let alloc = rt.alloc();
    assert_labels(&rt, alloc, &allen(alloc)?, &none(alloc, 13)?, &OF_INTERVALS)
}

/// A closed network of points that isn't minimal, after van Beek (1990): the second and the third lie between the first
/// and the fourth and differ, so that these differ as well.
const BETWEEN: [u64; 6] = [3, 3, 3, 5, 3, 3];

/// The base relations of an edge that are held.
fn held(rt: &impl Abort, alloc: Global, net: &Net, c: &Calculus, edge: u32) -> Result<u64, Fail> {
    let class = none(alloc, 3)?;
    let mut held = 0;
    for base in 0..3u32 {
        if let Label::Held(_) = label(rt, alloc, net, c, &class, (edge, base, 1000))? {
            held |= 1 << base;
        }
    }
    Ok(held)
}

#[test]
fn labels_make_the_minimal_network(rt: HostRuntime) -> Result<(), Fail> {
    let alloc = rt.alloc();
    let c = point(alloc)?;
    let net = net_of(alloc, c.full(), 4, &BETWEEN)?;
    let mut found = Vec::new(alloc);
    for edge in 0..6u32 {
        found.push(held(&rt, alloc, &net, &c, edge)?)?;
    }
    assert_same(&rt, found.as_slice(), [3, 3, 1, 5, 3, 3].as_slice());
    Ok(())
}
