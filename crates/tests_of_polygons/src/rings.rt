//! Rings of points, their faults, and where points lie to them.
ghost use Rattle.std.specs.Prelude.{◌<◌};
ghost use Rattle.poly_exact.specs.Small.{IsSmall};

use crate::asserts::{assert_same, assert_same_in};
use crate::ring_texts::{can_be_shared, points, ring};
use poly_exact::{HalfPoint, Location, Outline, Point, Ring, RingFault, is_small, locate, orient};
use std::alloc::{AllocError, Global};
use std::process::Abort;
use std::test::Fail;

/// The points, and the vertices that are kept.
const RINGS: [(&str, &str); 8] = [
    ("0 0 4 0 0 4", "0 0 4 0 0 4"),
    ("0 0 4 0 0 4 0 0", "0 0 4 0 0 4"),
    ("0 0 0 0 4 0 4 0 0 4 0 0", "0 0 4 0 0 4"),
    ("0 4 4 0 0 0", "0 4 4 0 0 0"),
    ("0 0 4 0 0 4 0 0 0 0 0 0", "0 0 4 0 0 4"),
    ("0 0 2 0 4 0 0 4", "0 0 2 0 4 0 0 4"),
    (
        "-100000000 0 100000000 1 100000000 0",
        "-100000000 0 100000000 1 100000000 0",
    ),
    ("0 0 9 1 2 2 9 3 0 4", "0 0 9 1 2 2 9 3 0 4"),
];

/// Asserts that these are the vertices of a ring.
fn has_vertices(rt: &impl Abort, ring: &Ring, wanted: &[Point]) {
    assert_same(rt, ring.len() as usize, wanted.len());
    for k in 0..ring.len() {
        assert_same_in(rt, wanted.get(k as usize).copied(), Some(ring.vertex(k)), k);
    }
}

#[test]
fn rings_keep_what_differs_from_its_neighbour(rt: HostRuntime) -> Result<(), Fail> {
    for (given, wanted) in RINGS {
        let wanted = points(rt.alloc(), wanted)?;
        has_vertices(&rt, &ring(&rt, rt.alloc(), given)?, &wanted);
    }
    Ok(())
}

/// The points, and the fault.
const OTHERS: [(&str, RingFault); 11] = [
    ("", RingFault::Few),
    ("0 0 1 0 0 0", RingFault::Few),
    ("5 5 5 5 5 5 5 5", RingFault::Few),
    ("0 0 100000001 0 0 4", RingFault::Coordinate { k: 1 }),
    ("0 0 0 0 0 -100000001", RingFault::Coordinate { k: 2 }),
    ("0 0 10 10 10 0 0 10", RingFault::NotSimple { e: 0, f: 2 }),
    ("0 0 4 0 2 0 0 4", RingFault::NotSimple { e: 0, f: 1 }),
    ("0 0 4 0 4 4 2 0 0 4", RingFault::NotSimple { e: 0, f: 2 }),
    (
        "0 0 4 0 2 2 4 4 0 4 2 2",
        RingFault::NotSimple { e: 1, f: 4 },
    ),
    ("0 0 4 0 8 0", RingFault::NotSimple { e: 0, f: 2 }),
    ("0 0 3 0 3 3 0 3 9 1", RingFault::NotSimple { e: 1, f: 3 }),
];

#[test]
fn other_points_are_refused(rt: HostRuntime) -> Result<(), Fail> {
    for (text, fault) in OTHERS {
        let given = points(rt.alloc(), text)?;
        assert!(rt; given.len() < 100);
        let found = Ring::new(rt.alloc(), &given).err();
        assert_same_in(&rt, found, Some(fault), text);
    }
    Ok(())
}

/// The ring of so many points of a parabola, which is convex.
fn parabola(alloc: Global, count: u32) -> Result<Result<Ring, RingFault>, AllocError>
    requires { count < 1000 }
{
    let mut points = Vec::new(alloc);
    for k in 0..i64::from(count) {
        points.push(Point {
            x: k,
            y: k.wrapping_mul(k),
        })?;
    }
    if points.len() < 1000 {
        Ok(Ring::new(alloc, &points))
    } else {
        Err(AllocError)
    }
}

#[test]
fn a_ring_has_256_vertices_at_most(rt: HostRuntime) -> Result<(), Fail> {
    let most = parabola(rt.alloc(), 256)?;
    assert_same(&rt, most.ok().expect(&rt, "a ring").len(), 256);
    let more = parabola(rt.alloc(), 257)?;
    assert_same(&rt, more.err(), Some(RingFault::ManyVertices));
    Ok(())
}

/// A point that is within the limits.
fn point(rt: &impl Abort, at: (i64, i64)) -> Point
    ensures { IsSmall result }
{
    let (x, y) = at;
    let point = Point { x, y };
    assert!(rt; is_small(point));
    point
}

/// Three points, and the turn.
const TURNS: [((i64, i64), (i64, i64), (i64, i64), i32); 6] = [
    ((0, 0), (4, 0), (4, 4), 1),
    ((0, 0), (4, 0), (4, -4), -1),
    ((0, 0), (4, 2), (-2, -1), 0),
    ((0, 0), (0, 0), (3, 1), 0),
    (
        (-100_000_000, -100_000_000),
        (100_000_000, 100_000_000),
        (99_999_999, 100_000_000),
        1,
    ),
    (
        (-100_000_000, -100_000_000),
        (100_000_000, 100_000_000),
        (100_000_000, 99_999_999),
        -1,
    ),
];

#[test]
fn turns_have_signs(rt: HostRuntime) {
    for (a, b, c, turn) in TURNS {
        let found = orient(point(&rt, a), point(&rt, b), point(&rt, c));
        assert_same_in(&rt, found, turn, (a, b, c));
    }
}

/// A point of a horseshoe, doubled, and where it lies.
const PLACES: [((i64, i64), Location); 10] = [
    ((1, 1), Location::In),
    ((0, 1), Location::On),
    ((12, 12), Location::Out),
    ((12, 8), Location::On),
    ((9, 8), Location::On),
    ((7, 9), Location::In),
    ((17, 24), Location::On),
    ((-1, 8), Location::Out),
    ((12, 25), Location::Out),
    ((7, 8), Location::In),
];

/// Where a point, doubled, lies to a ring.
fn location(rt: &impl Abort, ring: &Ring, at: (i64, i64)) -> Location {
    let (x, y) = at;
    assert!(rt; -100 <= x && x <= 100 && -100 <= y && y <= 100);
    let outline = ring.outline();
    locate(outline.vertices, outline.blocks, HalfPoint { x, y })
}

#[test]
fn points_lie_in_on_or_out_of_a_ring(rt: HostRuntime) -> Result<(), Fail> {
    let horseshoe = ring(&rt, rt.alloc(), "0 0 12 0 12 12 8 12 8 4 4 4 4 12 0 12")?;
    for (at, wanted) in PLACES {
        assert_same_in(&rt, location(&rt, &horseshoe, at), wanted, at);
    }
    Ok(())
}

#[test]
fn rings_can_be_shared() {
    can_be_shared::<Ring>();
    can_be_shared::<Outline<'_>>();
}
