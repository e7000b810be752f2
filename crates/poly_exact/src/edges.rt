//! How two edges meet, by the signs of four turns.
//!
//! Where both ends of one edge lie strictly at one side of the other's line, the edges are apart. Where each has its
//! ends strictly at the two sides of the other, they cross at one point strictly inside both, which need not be
//! computed. Where an end lies on the other's line, they touch at one point or are apart. Where both edges lie on one
//! line, four comparisons of how far the ends reach along it decide.

ghost use Rattle.std.specs.Prelude.{◌≡◌, ◌≢◌, ℤ, pos, ◌<ℤ◌, ◌≤ℤ◌, IsTrue};
ghost use Rattle.poly_exact.specs.Places as specs;
ghost use Rattle.poly_exact.specs.Small.{IsSmall, IsShort, place_at};
ghost use Rattle.poly_exact.specs.Met.{IsSorted, IsSided, AreBeyond, AreApart, IsOverlap, IsMet};

use crate::points::{Point, products};

/// How the ends of one edge lie to the line of another.
#[derive(Clone, Copy)]
pub enum Ends {
    /// Both strictly at one side.
    Same,
    /// Strictly at two sides.
    Parted,
    /// One is on the line.
    Touched,
    /// Both are.
    Line,
}

/// How two edges meet.
#[derive(Clone, Copy)]
pub enum Meeting {
    /// Not at all.
    Apart,
    /// At one point, an end of one of them.
    Touch,
    /// At one point strictly inside both.
    Proper,
    /// At more than one point.
    Stretch,
}

/// The turn from `a` by `b` to `c`.
pub fn turn_at(a: Point, b: Point, c: Point) -> i64
    requires first { IsSmall a }
    requires second { IsSmall b }
    requires third { IsSmall c }
    ensures { result ≡ specs.turn a b (place_at c) }
{
    products(a.x - c.x, b.y - a.y, c.y - a.y, b.x - a.x)
}

/// How far `c` lies from `a` towards `b`, in parts of the length.
pub fn reach_at(a: Point, b: Point, c: Point) -> i64
    requires first { IsSmall a }
    requires second { IsSmall b }
    requires third { IsSmall c }
    ensures { result ≡ specs.reach a b (place_at c) }
{
    products(c.x - a.x, b.x - a.x, c.y - a.y, b.y - a.y)
}

/// How two points lie to a line, by the signs of their turns.
pub fn compare_sides(t: i64, u: i64) -> Ends
    ensures { IsSorted result t u }
{
    if t == 0 {
        if u == 0 { Ends::Line } else { Ends::Touched }
    } else if u == 0 {
        Ends::Touched
    } else if (t < 0) == (u < 0) {
        Ends::Same
    } else {
        Ends::Parted
    }
}

/// How the ends of `c d` lie to the line of `a b`.
pub fn sides_of(a: Point, b: Point, c: Point, d: Point) -> Ends
    requires first { IsSmall a }
    requires second { IsSmall b }
    requires third { IsSmall c }
    requires fourth { IsSmall d }
    ensures { IsSided result a b c d }
{
    compare_sides(turn_at(a, b, c), turn_at(a, b, d))
}

/// Whether `u` and `v` are both below `s` and `t`, or both above.
pub fn are_beyond(u: i64, v: i64, s: i64, t: i64) -> bool
    ensures { IsTrue result → AreBeyond u v s t }
{
    if u < s {
        u < t && v < s && v < t
    } else {
        s < u && t < u && s < v && t < v
    }
}

/// Whether the rectangles round two edges are apart.
pub fn are_apart(a: Point, b: Point, c: Point, d: Point) -> bool
    requires first { IsSmall a }
    requires second { IsSmall b }
    requires third { IsSmall c }
    requires fourth { IsSmall d }
    ensures { IsTrue result → AreApart a b c d }
{
    are_beyond(a.x, b.x, c.x, d.x) || are_beyond(a.y, b.y, c.y, d.y)
}

/// How the stretch from `low` to `high` meets the one from 0 to `long` on the same line.
pub fn overlap(long: i64, low: i64, high: i64) -> Meeting
    ensures { IsOverlap result long low high }
{
    if high < 0 || long < low {
        Meeting::Apart
    } else if high == 0 || low == long {
        Meeting::Touch
    } else {
        Meeting::Stretch
    }
}

/// How two edges of one line meet.
pub fn on_line(a: Point, b: Point, c: Point, d: Point) -> Meeting
    requires first { IsSmall a }
    requires second { IsSmall b }
    requires third { IsSmall c }
    requires fourth { IsSmall d }
    requires one { a ≢ b }
    requires other { c ≢ d }
    requires flat_c { specs.turn a b (place_at c) ≡ pos 0 }
    requires flat_d { specs.turn a b (place_at d) ≡ pos 0 }
    ensures { IsMet result a b c d }
{
    let first = reach_at(a, b, c);
    let second = reach_at(a, b, d);
    let long = reach_at(a, b, b);
    if first < second {
        overlap(long, first, second)
    } else {
        overlap(long, second, first)
    }
}

/// How two edges meet.
pub fn meet(a: Point, b: Point, c: Point, d: Point) -> Meeting
    requires first { IsSmall a }
    requires second { IsSmall b }
    requires third { IsSmall c }
    requires fourth { IsSmall d }
    requires one { a ≢ b }
    requires other { c ≢ d }
    ensures { IsMet result a b c d }
{
    if are_apart(a, b, c, d) {
        return Meeting::Apart;
    }
    match sides_of(a, b, c, d) {
        Ends::Same => Meeting::Apart,
        Ends::Line => on_line(a, b, c, d),
        Ends::Touched => match sides_of(c, d, a, b) {
            Ends::Same => Meeting::Apart,
            Ends::Parted => Meeting::Touch,
            Ends::Touched => Meeting::Touch,
            Ends::Line => Meeting::Touch,
        },
        Ends::Parted => match sides_of(c, d, a, b) {
            Ends::Same => Meeting::Apart,
            Ends::Parted => Meeting::Proper,
            Ends::Touched => Meeting::Touch,
            Ends::Line => Meeting::Touch,
        },
    }
}
