//! Matrices of rings, as exact fractions say them, patterns of matrices, and the named predicates.
use crate::asserts::{assert_same, assert_same_in};
use crate::ring_texts::{can_be_shared, ring};
use de9im::{Dim, Matrix, Named, Pattern, matches, matrix, predicate};
use std::process::Abort;
use std::test::Fail;

/// A name, two rings and their matrix, as tools/expected_matrices.py prints them.
const LISTED: &str = "\
apart | 0 0 10 0 10 10 0 10 | 20 0 25 0 25 5 20 5 | FF2FF1212
apart, rectangles overlap | 0 0 10 0 0 10 | 10 10 10 6 6 10 | FF2FF1212
touch at a vertex of both | 0 0 10 0 10 10 0 10 | 10 10 15 10 15 15 10 15 | FF2F01212
touch at a vertex of one | 0 0 10 0 10 10 0 10 | 10 5 15 0 15 10 | FF2F01212
touch along a whole edge | 0 0 10 0 10 10 0 10 | 10 0 20 0 20 10 10 10 | FF2F11212
touch along a part of an edge | 0 0 10 0 10 10 0 10 | 10 2 13 2 13 5 10 5 | FF2F11212
touch along two edges in a row | 0 0 10 0 10 10 0 10 | 10 0 20 0 20 20 0 20 0 10 10 10 | FF2F11212
touch at two points | 0 0 6 0 6 6 3 3 0 6 | 0 6 6 6 3 9 | FF2F01212
a notch filled | 0 0 30 0 30 10 10 10 10 20 30 20 30 30 0 30 | 10 10 30 10 30 20 10 20 | FF2F11212
same ring | 0 0 10 0 10 10 0 10 | 0 0 10 0 10 10 0 10 | 2FFF1FFF2
same ring, other way round | 0 0 10 0 10 10 0 10 | 0 10 10 10 10 0 0 0 | 2FFF1FFF2
same ring, more vertices | 0 0 10 0 10 10 0 10 | 10 10 10 0 5 0 0 0 0 10 | 2FFF1FFF2
inside | 0 0 10 0 10 10 0 10 | 2 2 5 2 5 5 2 5 | 212FF1FF2
inside, touching at a vertex | 0 0 10 0 10 10 0 10 | 0 0 5 2 2 5 | 212F01FF2
inside, touching an edge at a point | 0 0 10 0 10 10 0 10 | 0 5 5 2 5 8 | 212F01FF2
inside, sharing a corner | 0 0 10 0 10 10 0 10 | 0 0 5 0 5 5 0 5 | 212F11FF2
inside, sharing an edge | 0 0 10 0 10 10 0 10 | 0 0 10 0 5 5 | 212F11FF2
inside, other way round | 2 2 5 2 5 5 2 5 | 0 10 10 10 10 0 0 0 | 2FF1FF212
overlap at corners | 0 0 10 0 10 10 0 10 | 5 5 15 5 15 15 5 15 | 212101212
overlap along edges | 0 0 10 0 10 10 0 10 | 5 0 15 0 15 10 5 10 | 212111212
a cross: no vertex in the other | 0 4 12 4 12 8 0 8 | 4 0 8 0 8 12 4 12 | 212101212
a star of two triangles | 0 0 12 0 6 9 | 0 6 12 6 6 -3 | 212101212
overlap, all vertices of both on both | 0 0 4 0 4 4 0 4 | 0 0 4 4 0 4 2 3 | 212F11FF2
crosses at thirds | 0 0 3 0 3 1 | 1 -1 2 -1 2 2 1 2 | 212101212
crosses at sevenths | 0 0 7 3 7 5 0 1 | 1 0 5 0 2 4 | 212101212
a needle within | 0 0 10 0 10 10 0 10 | 0 5 10 5 10 6 | 212F11FF2
a needle across | 0 0 10 0 10 10 0 10 | -5 5 15 5 15 6 | 212101212
a needle's tip on an edge | 0 0 10 0 10 10 0 10 | 10 5 30 4 30 6 | FF2F01212
a needle's tip short of an edge by a hair | -100000000 0 100000000 1 100000000 100000000 -100000000 100000000 | \
    0 0 1 -100000000 -1 -100000000 | FF2FF1212
a needle's tip over an edge by a hair | -100000000 0 100000000 -1 100000000 100000000 -100000000 100000000 | \
    0 0 1 -100000000 -1 -100000000 | 212101212
a needle's tip short of a slanted edge by a hair | -100000000 -99999999 100000000 100000000 -100000000 100000000 | \
    0 0 100000000 -99999999 100000000 -100000000 | FF2FF1212
a needle's tip over a slanted edge by a hair | -100000000 -100000000 100000000 99999999 -100000000 100000000 | \
    0 0 100000000 -99999999 100000000 -100000000 | 212101212
a needle's tip on a slanted edge | -100000000 -100000000 100000000 100000000 -100000000 100000000 | \
    0 0 100000000 -99999999 100000000 -100000000 | FF2F01212
a thin triangle at the limits with itself | -100000000 0 100000000 1 100000000 0 | \
    -100000000 0 100000000 1 100000000 0 | 2FFF1FFF2
a triangle in the square of the limits | \
    -100000000 -100000000 100000000 -100000000 100000000 100000000 -100000000 100000000 | \
    -100000000 -100000000 100000000 -100000000 0 100000000 | 212F11FF2
the square of the limits with itself, reversed | \
    -100000000 -100000000 100000000 -100000000 100000000 100000000 -100000000 100000000 | \
    -100000000 100000000 100000000 100000000 100000000 -100000000 -100000000 -100000000 | 2FFF1FFF2
diagonals of the limits | -100000000 -100000000 100000000 100000000 100000000 99999999 | \
    -100000000 100000000 100000000 -100000000 100000000 -99999999 | 212101212
a horseshoe round a square | 0 0 12 0 12 12 8 12 8 4 4 4 4 12 0 12 | 5 5 7 5 7 7 5 7 | FF2FF1212
a horseshoe touched at both arms | 0 0 12 0 12 12 8 12 8 4 4 4 4 12 0 12 | 4 5 8 5 8 9 4 9 | FF2F11212
a horseshoe's hollow filled | 0 0 12 0 12 12 8 12 8 4 4 4 4 12 0 12 | 4 4 8 4 8 12 4 12 | FF2F11212
level edges on one line, apart | 0 0 4 0 4 4 0 4 | 6 0 9 0 9 -3 | FF2FF1212
level edges on one line, touching | 0 0 4 0 4 4 0 4 | 4 0 9 0 9 -3 | FF2F01212
level edges on one line, overlapping from below | 0 0 4 0 4 4 0 4 | 2 0 9 0 5 -3 | FF2F11212
level edges on one line, overlapping from above | 0 0 4 0 4 4 0 4 | 2 0 9 0 5 3 | 212111212
";

/// The same of random rings on small grids.
const DRAWN: &str = "\
drawn | 0 0 1 4 4 0 3 0 2 1 | 1 3 0 4 0 0 4 1 | 212101212
drawn | 0 2 1 3 1 1 1 0 0 0 | 0 0 2 0 0 3 | 212111212
drawn | 3 0 2 3 2 4 1 5 | 5 2 1 2 0 1 | 212101212
drawn | 1 0 4 3 3 3 4 4 1 4 2 2 | 3 1 4 0 1 4 0 2 2 1 | 212101212
drawn | 4 0 4 2 1 1 0 0 | 3 1 3 3 0 2 1 1 | 212101212
drawn | 0 5 4 3 2 0 1 0 | 1 0 0 1 0 2 5 3 | 212101212
drawn | 1 4 2 2 3 2 2 3 4 3 | 0 2 1 3 2 2 | FF2F01212
drawn | 2 3 0 3 2 1 4 3 1 4 | 3 4 2 1 0 4 | 212101212
drawn | 5 3 4 2 2 1 1 5 2 5 | 2 1 1 5 5 5 5 1 3 4 | 212111212
drawn | 0 3 0 2 0 1 1 1 3 3 | 0 0 1 0 2 0 2 2 0 2 | 212111212
drawn | 5 2 1 5 3 2 | 3 0 1 3 0 2 | FF2FF1212
drawn | 4 2 4 3 1 4 2 1 3 1 | 0 2 1 4 4 3 4 2 1 3 1 1 | 212111212
drawn | 3 2 1 2 0 3 1 0 2 0 3 0 | 3 1 4 2 1 1 2 0 3 0 4 0 | 212111212
drawn | 2 3 2 0 1 1 0 0 0 1 | 1 2 3 0 3 1 0 3 0 0 | 212111212
drawn | 0 3 1 3 0 0 0 2 | 2 1 1 3 0 0 3 1 2 2 | FF2F11212
drawn | 3 2 2 2 1 1 0 3 1 0 | 0 2 0 0 1 0 | FF2F01212
drawn | 1 2 2 1 3 1 | 1 3 3 1 0 0 0 3 1 1 | 2FF10F212
drawn | 4 1 0 1 0 0 | 0 2 1 3 0 4 1 4 4 4 | FF2FF1212
drawn | 0 2 4 2 0 4 | 2 0 3 2 4 1 | FF2F01212
drawn | 1 1 0 3 1 3 2 1 3 0 | 3 0 4 3 4 2 | FF2F01212
drawn | 4 0 3 3 3 1 | 4 0 4 3 3 4 0 0 2 0 3 1 | 2FF11F212
drawn | 3 0 0 0 3 3 | 3 3 1 1 1 2 | FF2F11212
drawn | 2 3 3 2 2 2 0 2 | 1 2 3 1 2 0 1 0 0 0 | FF2F01212
drawn | 0 4 4 5 0 2 | 3 2 5 0 5 1 | FF2FF1212
drawn | 1 1 0 1 0 2 0 3 1 2 | 2 3 3 3 1 0 1 2 | FF2F11212
drawn | 3 3 2 4 1 3 | 4 2 4 0 1 0 | FF2FF1212
drawn | 1 0 3 1 2 3 | 0 0 2 3 3 1 3 0 | 2FF11F212
drawn | 1 0 1 1 2 3 2 1 5 1 | 4 4 4 2 2 4 | FF2FF1212
drawn | 0 3 1 2 0 1 3 3 | 0 1 3 3 0 0 | FF2F11212
drawn | 1 4 2 1 2 4 | 3 0 3 3 4 1 | FF2FF1212
drawn | 1 1 1 3 4 4 | 1 1 3 0 2 0 | FF2F01212
drawn | 2 2 2 0 1 0 1 1 0 1 2 3 | 1 2 2 2 2 1 1 1 | 212F11FF2
drawn | 3 0 3 2 0 3 0 0 | 2 2 0 3 2 0 1 2 | 212F01FF2
drawn | 4 2 0 1 1 4 5 4 | 1 3 2 2 1 2 | 212FF1FF2
drawn | 4 0 2 1 1 0 0 0 0 3 3 3 | 3 2 0 1 0 3 3 3 | 212F11FF2
drawn | 0 1 0 3 1 1 1 2 3 0 0 0 | 0 3 1 3 2 1 1 2 1 1 | FF2F11212
drawn | 1 3 0 0 3 1 3 2 | 2 1 1 1 2 2 | 212FF1FF2
drawn | 4 3 2 4 0 2 3 0 | 2 4 1 2 3 2 3 3 | 212F01FF2
drawn | 2 3 4 4 4 1 1 2 | 0 1 1 2 0 2 4 4 4 0 | 2FF11F212
drawn | 2 0 3 2 1 3 2 2 | 3 1 2 0 3 2 | FF2F11212
drawn | 0 0 0 3 2 3 4 1 3 0 | 2 1 3 1 2 3 | 212F01FF2
drawn | 0 4 0 2 3 1 3 4 2 4 2 3 | 3 2 2 3 3 1 | 212F11FF2
drawn | 3 1 3 2 3 3 2 2 1 0 | 1 2 2 2 0 0 3 0 3 3 2 3 | 2FF11F212
drawn | 0 0 2 1 2 0 4 1 4 4 0 5 | 2 3 1 4 3 4 1 1 | 212FF1FF2
drawn | 5 4 4 2 4 1 5 3 | 5 4 5 0 4 1 1 2 1 4 | 2FF11F212
drawn | 4 3 4 4 1 4 2 2 1 1 1 0 | 0 4 3 4 3 5 5 4 1 0 | 2FF11F212
drawn | 1 3 2 3 3 2 1 0 0 2 | 1 1 1 0 2 2 2 3 1 2 | 212F01FF2
drawn | 3 3 1 2 0 0 2 0 | 0 0 1 0 2 0 3 3 1 1 2 1 | 212F11FF2
drawn | 3 2 2 1 0 0 0 1 2 3 | 2 3 3 2 1 2 | 212F11FF2
drawn | 0 3 1 3 3 3 3 2 2 0 0 2 | 1 3 2 1 2 2 3 3 | 212F11FF2
drawn | 4 0 3 0 0 0 0 3 4 4 | 1 2 3 2 4 3 0 2 1 1 | 212F01FF2
drawn | 1 2 2 1 3 3 2 4 | 3 4 2 5 0 5 1 0 5 0 4 3 | 2FF1FF212
drawn | 2 2 2 3 4 2 | 3 5 2 4 2 3 0 2 3 0 5 2 | 2FF10F212
drawn | 3 1 1 0 0 3 5 4 4 1 4 0 | 4 2 1 3 2 3 5 4 | 212F01FF2
drawn | 0 1 0 3 4 3 | 0 1 4 3 0 3 | 2FFF1FFF2
drawn | 1 4 4 2 3 4 | 5 1 4 5 1 5 1 3 3 1 3 0 | 2FF10F212
drawn | 3 2 2 2 5 3 | 0 2 4 1 5 0 5 4 | 2FF10F212
drawn | 3 0 3 3 2 3 | 4 0 3 3 1 4 3 0 | 2FF10F212
drawn | 2 1 1 2 2 2 | 2 0 3 0 3 3 0 2 0 1 1 2 | 2FF10F212
drawn | 1 2 1 3 0 0 | 0 0 1 3 1 2 | 2FFF1FFF2
";

/// The text of the matrix of two rings, each given by a text.
fn relation(rt: &(impl Abort + AllocGlobal), a: &str, b: &str) -> Result<String, Fail> {
    let (first, second) = (ring(rt, rt.alloc(), a)?, ring(rt, rt.alloc(), b)?);
    let m = matrix(&first, &second).ok().expect(rt, "memory");
    Ok(m.text(rt.alloc()).ok().expect(rt, "memory"))
}

/// Which entry of the other way round stands at each place.
const CONVERSE: [usize; 9] = [0, 3, 6, 1, 4, 7, 2, 5, 8];

/// Asserts that a matrix is that of the other way round.
fn is_converse(rt: &impl Abort, converse: &str, wanted: &str) {
    assert_same(rt, (converse.len(), wanted.len()), (9, 9));
    for (k, place) in CONVERSE.iter().enumerate() {
        let entry = wanted.as_bytes().get(*place);
        assert_same_in(rt, converse.as_bytes().get(k), entry, (converse, wanted));
    }
}

/// Asserts that two rings have this matrix, and the other way round its converse.
fn has_matrix(rt: &(impl Abort + AllocGlobal), a: &str, b: &str, wanted: &str) -> Result<(), Fail> {
    let found = relation(rt, a, b)?;
    assert_same_in(rt, found.as_str(), wanted, (a, b));
    is_converse(rt, &relation(rt, b, a)?, wanted);
    Ok(())
}

/// Compares the matrices of the rows, both ways round, with those that the rows say.
fn compare(rt: &(impl Abort + AllocGlobal), rows: &str) -> Result<(), Fail> {
    for row in rows.lines() {
        let parts: Vec<&str> = row.split(" | ").collect(rt.alloc())?;
        assert!(rt; parts.len() == 4, "{row}");
        has_matrix(rt, parts[1], parts[2], parts[3])?;
    }
    Ok(())
}

#[test]
fn matrices_are_those_of_exact_fractions(rt: HostRuntime) -> Result<(), Fail> {
    compare(&rt, LISTED)?;
    compare(&rt, DRAWN)
}

#[test]
fn matrices_can_be_shared() {
    can_be_shared::<Matrix>();
    can_be_shared::<Pattern>();
}

/// The entry of a character.
fn dimension(symbol: u8) -> Dim {
    match symbol {
        b'0' => Dim::D0,
        b'1' => Dim::D1,
        b'2' => Dim::D2,
        _ => Dim::F,
    }
}

/// The matrix of nine characters.
fn read(rt: &impl Abort, text: &str) -> Matrix {
    let bytes = text.as_bytes();
    let mut dims = [Dim::F; 9];
    assert!(rt; bytes.len() == 9);
    for k in 0..9 {
        dims[k] = dimension(bytes[k]);
    }
    let [ii, ib, ie, bi, bb, be, ei, eb, ee] = dims;
    Matrix {
        ii,
        ib,
        ie,
        bi,
        bb,
        be,
        ei,
        eb,
        ee,
    }
}

/// A text, and the place that is wrong.
const PATTERNS: [(&str, Option<u32>); 9] = [
    ("", Some(0)),
    ("T*", Some(2)),
    ("T*X", Some(2)),
    ("T*F**F***", None),
    ("T*F**F***T", Some(9)),
    ("T*F**F***TX", Some(9)),
    ("012TF*012", None),
    ("t********", Some(0)),
    ("********3", Some(8)),
];

#[test]
fn patterns_are_nine_of_six_characters(rt: HostRuntime) {
    for (text, wanted) in PATTERNS {
        let place = match Pattern::read(text.as_bytes()) {
            Ok(_) => None,
            Err(bad) => Some(bad.place),
        };
        assert_same_in(&rt, place, wanted, text);
    }
}

/// A matrix, a pattern, and whether the matrix is one of the pattern's.
const ADMITTED: [(&str, &str, bool); 8] = [
    ("212101212", "*********", true),
    ("212101212", "TTTTTTTTT", true),
    ("212101212", "212101212", true),
    ("212101212", "212111212", false),
    ("212FF1FF2", "****F****", true),
    ("212101212", "****F****", false),
    ("FF2F01212", "TTTTTTTTT", false),
    ("FF2F01212", "FF*F0****", true),
];

#[test]
fn patterns_admit_matrices(rt: HostRuntime) {
    for (matrix, pattern, wanted) in ADMITTED {
        let p = Pattern::read(pattern.as_bytes())
            .ok()
            .expect(&rt, "a pattern");
        let found = matches(&read(&rt, matrix), &p);
        assert_same_in(&rt, found, wanted, (matrix, pattern));
    }
}

/// A matrix, and whether it is Disjoint, Touches, Within, Contains, Overlaps, Intersects.
const PREDICATES: [(&str, [bool; 6]); 9] = [
    ("FF2FF1212", [true, false, false, false, false, false]),
    ("FF2F01212", [false, true, false, false, false, true]),
    ("FF2F11212", [false, true, false, false, false, true]),
    ("F12FF1212", [false, true, false, false, false, true]),
    ("212101212", [false, false, false, false, true, true]),
    ("2FF1FF212", [false, false, true, false, false, true]),
    ("212FF1FF2", [false, false, false, true, false, true]),
    ("2FFF1FFF2", [false, false, true, true, false, true]),
    ("212F11FF2", [false, false, false, true, false, true]),
];

/// The predicates, in that order.
const NAMES: [Named; 6] = [
    Named::Disjoint,
    Named::Touches,
    Named::Within,
    Named::Contains,
    Named::Overlaps,
    Named::Intersects,
];

/// Asserts which predicates hold of a matrix.
fn has_predicates(rt: &impl Abort, text: &str, wanted: &[bool]) {
    let m = read(rt, text);
    for (named, holds) in NAMES.iter().zip(wanted) {
        assert_same_in(rt, predicate(&m, *named), *holds, (text, named));
    }
}

#[test]
fn predicates_are_patterns(rt: HostRuntime) {
    for (text, wanted) in PREDICATES {
        has_predicates(&rt, text, &wanted);
    }
}
