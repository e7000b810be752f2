//! Points of whole numbers, and how they turn.
//!
//! Every product is of two differences of coordinates, so that all numbers fit 64 bits: coordinates go to 10^8, doubled
//! ones to 2 * 10^8, and a sum of two products of differences to 1.6 * 10^17 at most.

ghost use Rattle.std.specs.Prelude.{◌≡◌, ℤ, pos, neg_ℤ, ◌+ℤ◌, ◌-ℤ◌, ◌*ℤ◌, ◌<ℤ◌, ◌≤ℤ◌, int_lt, IsTrue};
ghost use Rattle.poly_exact.specs.Places as specs;
ghost use Rattle.poly_exact.specs.Small.{IsSmall, IsSmallHalfPoint, IsShort, place, place_at, sign_of};

/// A point with whole-number coordinates.
#[derive(Clone, Copy, Debug, PartialEq, Eq)]
pub struct Point {
    pub x: i64,
    pub y: i64,
}

/// The point `(x / 2, y / 2)`: the middle of two points, by the sum of their coordinates.
#[derive(Clone, Copy, Debug, PartialEq, Eq)]
pub struct HalfPoint {
    pub x: i64,
    pub y: i64,
}

/// The fraction `num / den`. No call of this crate needs one: it is there for callers who name points of edges.
#[derive(Clone, Copy, Debug)]
pub struct Frac {
    pub num: i128,
    pub den: i128,
    pub ghost positive: { pos 0 <ℤ den },
}

/// `a * b + c * d`.
pub fn products(a: i64, b: i64, c: i64, d: i64) -> i64
    requires first { IsShort a }
    requires second { IsShort b }
    requires third { IsShort c }
    requires fourth { IsShort d }
    ensures { result ≡ a *ℤ b +ℤ c *ℤ d }
{
    a * b + c * d
}

/// Twice the turn from the edge `a b` to the point: above 0 where the point is at the edge's left.
pub fn turn(a: Point, b: Point, p: HalfPoint) -> i64
    requires first { IsSmall a }
    requires second { IsSmall b }
    requires point { IsSmallHalfPoint p }
    ensures { result ≡ specs.turn a b (place p) }
{
    products(a.x * 2 - p.x, b.y - a.y, p.y - a.y * 2, b.x - a.x)
}

/// How far the point is above the vertex, doubled.
pub fn height(a: Point, p: HalfPoint) -> i64
    requires vertex { IsSmall a }
    requires point { IsSmallHalfPoint p }
    ensures { result ≡ specs.above a (place p) }
{
    p.y - a.y * 2
}

/// The turn from `a` by `b` to `c`: 1 to the left, -1 to the right, 0 where they lie on one line.
///
/// This is the sign of the cross product of `b - a` and `c - a`.
pub fn orient(a: Point, b: Point, c: Point) -> i32
    requires first { IsSmall a }
    requires second { IsSmall b }
    requires third { IsSmall c }
    ensures { result ≡ sign_of (specs.turn a b (place_at c)) }
{
    let t = products(a.x - c.x, b.y - a.y, c.y - a.y, b.x - a.x);
    if t < 0 {
        -1
    } else if t > 0 {
        1
    } else {
        0
    }
}
