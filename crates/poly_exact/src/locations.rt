//! Where a point lies to a ring, by casting a ray to the right.
//!
//! The point is in the ring where the ray crosses an odd number of edges (Shimrat 1962). Blocks of edges whose
//! rectangle the ray passes are left out: it crosses none of their edges.

ghost use Rattle.std.specs.Prelude.{◌≡◌, ◌<◌, ◌≤◌, length, IsTrue, ◌↔◌, ◌*ℤ◌, pos, true, ℕ, ℤ};
ghost use Rattle.std.specs.Prelude.{IfNone, IfSome, ◌*◌};
ghost use Rattle.poly_exact.specs.Rings.{IsOnRing};
ghost use Rattle.poly_exact.specs.Rects.{AreBlocks, block_end};
ghost use Rattle.poly_exact.specs.Small.{IsShort, IsSmall, IsSmallHalfPoint, place};
ghost use Rattle.poly_exact.specs.Located.{IsRayHit, IsLocated, IsPassedBy, AreSmall, judged, is_within, is_boxed};

use crate::points::{HalfPoint, Point, height, turn};
use crate::rects::{BLOCK, Rect, block_stop, is_ray_off, next_index};

/// How an edge lies to a point.
#[derive(Clone, Copy)]
pub enum RayHit {
    /// The point is on the edge.
    On,
    /// The edge crosses the ray from the point to the right.
    Crosses,
    /// Neither.
    Misses,
}

/// Where a point lies to a ring.
#[derive(Clone, Copy, Debug, PartialEq, Eq)]
pub enum Location {
    /// In the ring.
    In,
    /// On an edge.
    On,
    /// Out of the ring.
    Out,
}

/// Whether `2 * u <= z <= 2 * v` or the other way round.
pub fn is_between(u: i64, v: i64, z: i64) -> bool
    requires first { IsShort u }
    requires second { IsShort v }
    ensures { result ≡ is_within u v z }
{
    if u <= v {
        u * 2 <= z && z <= v * 2
    } else {
        v * 2 <= z && z <= u * 2
    }
}

/// By the turn, the two heights, whether the edge rises, and whether the point is within the edge's rectangle.
pub fn judge(t: i64, first: i64, second: i64, rise: bool, within: bool) -> RayHit
    ensures { result ≡ judged t first second rise within }
{
    if t < 0 {
        if (first >= 0) != (second >= 0) && !rise {
            RayHit::Crosses
        } else {
            RayHit::Misses
        }
    } else if t > 0 {
        if (first >= 0) != (second >= 0) && rise {
            RayHit::Crosses
        } else {
            RayHit::Misses
        }
    } else if within {
        RayHit::On
    } else {
        RayHit::Misses
    }
}

/// Whether the point is within the rectangle round the edge `a b`.
#[tactic(auto, using(crate::proofs::Judged::short_x, crate::proofs::Judged::short_y))]
pub fn is_in_box(a: Point, b: Point, p: HalfPoint) -> bool
    requires first { IsSmall a }
    requires second { IsSmall b }
    requires point { IsSmallHalfPoint p }
    ensures { result ≡ is_boxed a b p }
{
    is_between(a.x, b.x, p.x) && is_between(a.y, b.y, p.y)
}

/// How the edge `a b` lies to the point.
pub fn cast_ray(a: Point, b: Point, p: HalfPoint) -> RayHit
    requires first { IsSmall a }
    requires second { IsSmall b }
    requires point { IsSmallHalfPoint p }
    ensures { IsRayHit result a b (place p) }
{
    let t = turn(a, b, p);
    let first = height(a, p);
    let second = height(b, p);
    let rise = a.y < b.y;
    judge(t, first, second, rise, is_in_box(a, b, p))
}

/// Casts the point's ray over the edges of one block. `start` is whether it crosses an odd number of the edges before.
///
/// Returns whether it crosses an odd number of edges so far, or `None` if the point lies on an edge of the block.
fn cast_block(vs: &[Point], b: usize, p: HalfPoint, start: bool) -> Option<bool>
    requires vertices { AreSmall vs.now }
    requires point { IsSmallHalfPoint p }
    requires block { b * BLOCK < length vs.now }
    requires before { IsPassedBy vs.now (place p) (b * BLOCK) start }
    ensures none { IfNone result (IsOnRing vs.now (place p)) }
    ensures some { IfSome result (λ odd. IsPassedBy vs.now (place p) (block_end vs.now b) odd) }
{
    let mut odd = start;
    for k in b * BLOCK..block_stop(vs, b) {
        match cast_ray(vs[k], vs[next_index(vs, k)], p) {
            RayHit::On => return None,
            RayHit::Crosses => odd = !odd,
            RayHit::Misses => {}
        }
    }
    Some(odd)
}

/// Where the point lies to the ring of the vertices.
pub fn locate(vs: &[Point], blocks: &[Rect], p: HalfPoint) -> Location
    requires vertices { AreSmall vs.now }
    requires blocks { AreBlocks blocks.now vs.now }
    requires point { IsSmallHalfPoint p }
    ensures { IsLocated result vs.now (place p) }
{
    let mut odd = false;
    for b in 0..blocks.len() {
        if !is_ray_off(p, blocks[b]) {
            match cast_block(vs, b, p, odd) {
                Some(parity) => odd = parity,
                None => return Location::On,
            }
        }
    }
    if odd { Location::In } else { Location::Out }
}
