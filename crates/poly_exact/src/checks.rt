//! Whether a list of vertices is a simple ring, and on which side of each edge its inside lies.
//!
//! Two edges may meet only where one follows the other, at the vertex between them. The pairs are tested in order, so
//! that the first bad one is found; blocks whose rectangle an edge lies off are left out.
//!
//! All points strictly inside an edge of a simple ring see the same parity of edges at their right, and points a little
//! to the west of them see the other. So the west side of an edge is in the ring where the ray from its middle crosses
//! an even number of edges, the edge itself not counted.

ghost use Rattle.std.specs.Prelude.{◌≡◌, ℕ, ◌<◌, ◌≤◌, length, IsTrue, ◌↔◌};
ghost use Rattle.poly_exact.specs.Small.{IsSmallHalfPoint, place};
ghost use Rattle.poly_exact.specs.Rings.{IsSimple};
ghost use Rattle.poly_exact.specs.Located.{AreSmall};
ghost use Rattle.poly_exact.specs.West.{IsWest};
ghost use Rattle.std.specs.Prelude.{◌*◌};
ghost use Rattle.poly_exact.specs.Rects.{AreBlocks, block_end};
ghost use Rattle.poly_exact.specs.Checks.{AreGoodTo, AreProper, IsGoodPair, IsBlockChecked, IsChecked, IsEdgeChecked};
ghost use Rattle.poly_exact.specs.Checks.{IsParity};

use crate::edges::{Meeting, meet};
use crate::locations::{RayHit, cast_ray};
use crate::points::{HalfPoint, Point};
use crate::rects::{BLOCK, Rect, block_stop, is_off, is_ray_off, next_index};

/// What two edges of a list of vertices tell.
#[derive(Clone, Copy)]
pub enum Simplicity {
    /// The ring is simple.
    Simple,
    /// These two edges are the first that meet otherwise than neighbours do.
    Meet { e: usize, f: usize },
}

/// Whether two edges meet only where one follows the other, at the vertex between them.
fn is_good_pair(vs: &[Point], e: usize, f: usize) -> bool
    requires small { AreSmall vs.now }
    requires proper { AreProper vs.now }
    requires order { e < f }
    requires below { f < length vs.now }
    ensures { IsTrue result ↔ IsGoodPair vs.now e f }
{
    let g = next_index(vs, e);
    let h = next_index(vs, f);
    match meet(vs[e], vs[g], vs[f], vs[h]) {
        Meeting::Apart => true,
        Meeting::Touch => f == g || e == h,
        Meeting::Proper => false,
        Meeting::Stretch => false,
    }
}

/// Tests edge number `e` with the later edges of one block.
fn check_block(vs: &[Point], e: usize, b: usize) -> Simplicity
    requires small { AreSmall vs.now }
    requires proper { AreProper vs.now }
    requires block { b * BLOCK < length vs.now }
    requires before { AreGoodTo vs.now e (b * BLOCK) }
    ensures { IsBlockChecked result vs.now e b }
{
    for f in b * BLOCK..block_stop(vs, b) {
        if e < f && !is_good_pair(vs, e, f) {
            return Simplicity::Meet { e, f };
        }
    }
    Simplicity::Simple
}

/// Tests edge number `e` with all later ones.
fn check_edge(vs: &[Point], blocks: &[Rect], e: usize) -> Simplicity
    requires small { AreSmall vs.now }
    requires proper { AreProper vs.now }
    requires blocks { AreBlocks blocks.now vs.now }
    requires below { e < length vs.now }
    ensures { IsEdgeChecked result vs.now e }
{
    let p = vs[e];
    let q = vs[next_index(vs, e)];
    for b in e / BLOCK..blocks.len() {
        if !is_off(p, q, blocks[b]) {
            match check_block(vs, e, b) {
                Simplicity::Simple => {}
                Simplicity::Meet { e: _, f } => return Simplicity::Meet { e, f },
            }
        }
    }
    Simplicity::Simple
}

/// Tests all pairs of edges.
pub fn check(vs: &[Point], blocks: &[Rect]) -> Simplicity
    requires small { AreSmall vs.now }
    requires proper { AreProper vs.now }
    requires blocks { AreBlocks blocks.now vs.now }
    ensures { IsChecked result vs.now }
{
    for e in 0..vs.len() {
        match check_edge(vs, blocks, e) {
            Simplicity::Simple => {}
            Simplicity::Meet { e: _, f } => return Simplicity::Meet { e, f },
        }
    }
    Simplicity::Simple
}

/// Whether the point's ray crosses an odd number of edges up to the end of the block. `start` is whether it does
/// before.
fn is_odd_after(vs: &[Point], b: usize, p: HalfPoint, start: bool) -> bool
    requires vertices { AreSmall vs.now }
    requires point { IsSmallHalfPoint p }
    requires block { b * BLOCK < length vs.now }
    requires before { IsParity vs.now (place p) (b * BLOCK) start }
    ensures { IsParity vs.now (place p) (block_end vs.now b) result }
{
    let mut odd = start;
    for k in b * BLOCK..block_stop(vs, b) {
        match cast_ray(vs[k], vs[next_index(vs, k)], p) {
            RayHit::Crosses => odd = !odd,
            RayHit::On => {}
            RayHit::Misses => {}
        }
    }
    odd
}

/// Whether the point's ray crosses an odd number of edges, also where the point is on the ring.
fn is_odd(vs: &[Point], blocks: &[Rect], p: HalfPoint) -> bool
    requires vertices { AreSmall vs.now }
    requires blocks { AreBlocks blocks.now vs.now }
    requires point { IsSmallHalfPoint p }
    ensures { IsParity vs.now (place p) (length vs.now) result }
{
    let mut odd = false;
    for b in 0..blocks.len() {
        if !is_ray_off(p, blocks[b]) {
            odd = is_odd_after(vs, b, p, odd);
        }
    }
    odd
}

/// Whether the west side of the edge is in the ring.
pub fn is_west(vs: &[Point], blocks: &[Rect], e: usize) -> bool
    requires vertices { AreSmall vs.now }
    requires blocks { AreBlocks blocks.now vs.now }
    requires simple { IsSimple vs.now }
    requires below { e < length vs.now }
    ensures { IsWest vs.now e result }
{
    let a = vs[e];
    let b = vs[next_index(vs, e)];
    !is_odd(
        vs,
        blocks,
        HalfPoint {
            x: a.x + b.x,
            y: a.y + b.y,
        },
    )
}
