//! The labels of whole networks: held, refuted and open, edge by edge, by one worker and by several.
use crate::asserts::assert_same;
use crate::nets::{has_bases, is_network, net_of};
use calculus_builtin::{allen, point, rcc8};
use calculus_table::{Calculus, Compose, Rel};
use closure_seq::close;
use minimal_net::{Counts, EdgeLabels, count_labels, label_network, leave};
use network_words::Net;
use std::alloc::Global;
use std::process::Abort;
use std::test::Fail;
use std::thread::Threads;
use tract_classes::{Class, h8, none};

/// A network, by its nodes and sets; a budget; and its base relations that are held, refuted and open, edge by edge.
type Row<'a> = (u32, &'a [u64], u32, &'a [[u64; 3]]);

/// Fails unless an edge has these labels.
fn assert_edge(rt: &impl Abort, found: &EdgeLabels, expected: [u64; 3]) {
    let words = [
        found.held.word(),
        found.refuted.word(),
        found.undecided.word(),
    ];
    assert_same(rt, words, expected);
}

/// Fails unless each edge has these labels.
fn assert_edges(rt: &impl Abort, found: &[EdgeLabels], expected: &[[u64; 3]]) {
    assert_same(rt, found.len(), expected.len());
    for (edge, words) in found.iter().zip(expected) {
        assert_edge(rt, edge, *words);
    }
}

/// Closes the network of a row, and fails unless so many workers find its labels.
fn assert_labelled_by<R: Threads + Sync + Abort>(
    rt: &R,
    alloc: Global,
    c: &Calculus,
    class: &Class,
    row: &Row,
    workers: u32,
) -> Result<(), Fail> {
    let (nodes, words, budget, expected) = row;
    let mut net = net_of(alloc, c.full(), *nodes, words)?;
    assert!(rt; is_network(&net, c));
    close(alloc, &mut net, c)?;
    assert!(rt; is_network(&net, c) && has_bases(class, c) && 0 < workers);
    let found = label_network(rt, alloc, &net, c, class, *budget, workers)?;
    assert_edges(rt, &found, expected);
    Ok(())
}

/// The same of each row, by one worker, by several, and by more than there are edges.
fn assert_labelled<R: Threads + Sync + Abort>(
    rt: &R,
    alloc: Global,
    c: &Calculus,
    class: &Class,
    rows: &[Row],
) -> Result<(), Fail> {
    for row in rows {
        for workers in [1, 2, 3, 64u32] {
            assert_labelled_by(rt, alloc, c, class, row, workers)?;
        }
    }
    Ok(())
}

/// All base relations of regions, and an inner part.
const ANY_REGIONS: u64 = 255;

const INNER: u64 = 1 << 4;

/// The second is a part of the first, or both are one; the other five.
const PARTS_AFTER: u64 = 1 << 5 | 1 << 6 | 1 << 7;

const REST: u64 = ANY_REGIONS - PARTS_AFTER;

const OF_REGIONS: [Row; 6] = [
    (1, &[], 0, &[]),
    // an inner part of an inner part is an inner part
    (3, &[INNER, ANY_REGIONS, INNER], 0, &[[INNER, 0, 0]; 3]),
    // what is apart from a region is apart from its parts: so one split decides where one of these is given
    (3, &[ANY_REGIONS; 3], 1, &[[PARTS_AFTER, 0, REST]; 3]),
    (3, &[ANY_REGIONS; 3], 0, &[[0, 0, ANY_REGIONS]; 3]),
    (3, &[ANY_REGIONS; 3], 2, &[[ANY_REGIONS, 0, 0]; 3]),
    // a closure without base relations has no labels
    (3, &[INNER, 1, INNER], 1000, &[[0, 0, 0]; 3]),
];

#[test]
fn regions_are_labelled(rt: HostRuntime) -> Result<(), Fail> {
    let alloc = rt.alloc();
    assert_labelled(&rt, alloc, &rcc8(alloc)?, &h8(alloc)?, &OF_REGIONS)
}

/// A closed network of points that isn't minimal, after van Beek (1990): the second and the third lie between the first
/// and the fourth and differ, so that these differ as well.
const BETWEEN: [u64; 6] = [3, 3, 3, 5, 3, 3];

const OF_POINTS: [Row; 1] = [(
    4,
    &BETWEEN,
    1000,
    &[
        [3, 0, 0],
        [3, 0, 0],
        [1, 2, 0],
        [5, 0, 0],
        [3, 0, 0],
        [3, 0, 0],
    ],
)];

#[test]
fn points_are_labelled(rt: HostRuntime) -> Result<(), Fail> {
    let alloc = rt.alloc();
    assert_labelled(&rt, alloc, &point(alloc)?, &none(alloc, 3)?, &OF_POINTS)
}

/// A closed network without a scenario, after that of Kautz in Allen (1983).
const KAUTZ: [u64; 6] = [0x110, 0x208, 0x880, 0x110, 0x400, 0x880];

const OF_INTERVALS: [Row; 1] = [(
    4,
    &KAUTZ,
    1000,
    &[
        [0, 0x110, 0],
        [0, 0x208, 0],
        [0, 0x880, 0],
        [0, 0x110, 0],
        [0, 0x400, 0],
        [0, 0x880, 0],
    ],
)];

#[test]
fn intervals_are_labelled(rt: HostRuntime) -> Result<(), Fail> {
    let alloc = rt.alloc();
    assert_labelled(&rt, alloc, &allen(alloc)?, &none(alloc, 13)?, &OF_INTERVALS)
}

#[test]
fn labels_are_counted_and_leave_a_network(rt: HostRuntime) -> Result<(), Fail> {
    let alloc = rt.alloc();
    let edges = [
        EdgeLabels {
            held: Rel::of(1),
            refuted: Rel::of(2),
            undecided: Rel::of(4),
        },
        EdgeLabels {
            held: Rel::of(3),
            refuted: Rel::of(0),
            undecided: Rel::of(4),
        },
        EdgeLabels {
            held: Rel::of(0),
            refuted: Rel::of(7),
            undecided: Rel::of(0),
        },
    ];
    let expected = Counts {
        held: 3,
        refuted: 4,
        undecided: 2,
    };
    assert_same(&rt, count_labels(&edges), expected);
    let mut net = Net::new(alloc, 3, Rel::of(7))?;
    assert!(&rt; net.edges() == 3);
    leave(&mut net, &edges);
    assert_same(&rt, net.words(), [5, 7, 0].as_slice());
    Ok(())
}
