//! Rectangles round the edges of a ring, which tell at once that most edges are out of reach.
//!
//! The edges of a ring are cut into blocks of 16 in a row. Neighbours lie close together, so the rectangle round a
//! block is small, and one comparison with it stands for 16 with the edges.

ghost use Rattle.std.specs.Prelude.{◌≡◌, ℕ, ◌+◌, ◌*◌, ◌<◌, ◌≤◌, length, IsTrue, IfOk};
ghost use Rattle.poly_exact.specs.Rings.{next};
ghost use Rattle.poly_exact.specs.Small.{IsSmall, IsSmallHalfPoint};
ghost use Rattle.poly_exact.specs.Located.{AreSmall};
ghost use Rattle.poly_exact.specs.Rects.{AreBlocks, CoversAll, CoversEdges, IsOff, IsRayOff, block_end, grown};

use crate::points::{HalfPoint, Point};
use std::alloc::{AllocError, Global};

/// How many edges in a row share a rectangle.
pub const BLOCK: usize = 16;

/// A rectangle with sides along the axes.
#[derive(Clone, Copy)]
pub struct Rect {
    pub low: Point,
    pub high: Point,
}

/// The number of the next vertex.
pub fn next_index(vs: &[Point], k: usize) -> usize
    requires inside { k < length vs.now }
    ensures following { result ≡ next vs.now k }
    ensures below { result < length vs.now }
{
    if k + 1 < vs.len() { k + 1 } else { 0 }
}

/// The number of the edge before which block `b` ends.
pub fn block_stop(vs: &[Point], b: usize) -> usize
    requires { b * BLOCK < length vs.now }
    ensures { result ≡ block_end vs.now b }
{
    vs.len().min(b * BLOCK + BLOCK)
}

/// The rectangle and one point more.
fn grow(r: Rect, p: Point) -> Rect
    requires low { IsSmall r.low }
    requires high { IsSmall r.high }
    requires point { IsSmall p }
    ensures { result ≡ grown r p }
{
    Rect {
        low: Point {
            x: r.low.x.min(p.x),
            y: r.low.y.min(p.y),
        },
        high: Point {
            x: r.high.x.max(p.x),
            y: r.high.y.max(p.y),
        },
    }
}

/// The rectangle round the edges from number `from` to before `to`.
fn edges_rect(vs: &[Point], from: usize, to: usize) -> Rect
    requires small { AreSmall vs.now }
    requires some { from < length vs.now }
    requires many { to ≤ length vs.now }
    ensures { CoversEdges result vs.now from to }
{
    let mut rect = Rect {
        low: vs[from],
        high: vs[from],
    };
    for e in from..to {
        rect = grow(grow(rect, vs[e]), vs[next_index(vs, e)]);
    }
    rect
}

/// The rectangle round all vertices.
pub fn bounding_rect(vs: &[Point]) -> Rect
    requires small { AreSmall vs.now }
    requires some { 3 ≤ length vs.now }
    ensures { CoversAll result vs.now }
{
    edges_rect(vs, 0, vs.len())
}

/// The rectangles of all blocks.
pub fn block_rects(alloc: Global, vs: &[Point]) -> Result<Vec<Rect>, AllocError>
    requires small { AreSmall vs.now }
    requires many { length vs.now ≤ 256 }
    ensures { IfOk result (λ rs. AreBlocks rs.items vs.now) }
{
    let mut rects: Vec<Rect> = Vec::new(alloc);
    for b in 0..(vs.len() + (BLOCK - 1)) / BLOCK {
        rects.push(edges_rect(vs, b * BLOCK, block_stop(vs, b)))?;
    }
    Ok(rects)
}

/// Whether the edge from `a` to `b` lies beyond one of the rectangle's sides.
pub fn is_off(a: Point, b: Point, r: Rect) -> bool
    ensures { IsTrue result → IsOff a b r }
{
    if a.x < r.low.x && b.x < r.low.x {
        return true;
    }
    if r.high.x < a.x && r.high.x < b.x {
        return true;
    }
    if a.y < r.low.y && b.y < r.low.y {
        return true;
    }
    r.high.y < a.y && r.high.y < b.y
}

/// Whether the point's ray to the right passes the rectangle.
pub fn is_ray_off(p: HalfPoint, r: Rect) -> bool
    requires point { IsSmallHalfPoint p }
    requires low { IsSmall r.low }
    requires high { IsSmall r.high }
    ensures { IsTrue result → IsRayOff p r }
{
    if p.y < r.low.y * 2 {
        return true;
    }
    if r.high.y * 2 < p.y {
        return true;
    }
    r.high.x * 2 < p.x
}
