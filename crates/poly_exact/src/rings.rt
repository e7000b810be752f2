//! Simple rings, made from points.

ghost use Rattle.std.specs.Prelude.{◌≡◌, ℕ, ◌<◌, ◌≤◌, ◌^◌, length, IsTrue, ◌↔◌, List, IfErr, IfOk, IfNone, IfSome};
ghost use Rattle.poly_exact.specs.Small.{IsSmall};
ghost use Rattle.poly_exact.specs.declared.points.Point.{Point};
ghost use Rattle.poly_exact.specs.Rings.{vertex, IsSimple};
ghost use Rattle.poly_exact.specs.Located.{AreSmall};
ghost use Rattle.poly_exact.specs.Prepared.{IsPrepared};
ghost use Rattle.poly_exact.specs.Outlines.{IsOutline};
ghost use Rattle.poly_exact.specs.Rects.{AreBlocks};
ghost use Rattle.poly_exact.specs.Checks.{AreProper};
ghost use Rattle.poly_exact.specs.Kept.{kept, without_closing};
ghost use Rattle.poly_exact.specs.Built.{AreFlags, IsAccepted, IsBad, IsFaultOf, IsFirstLarge};

use crate::checks::{Simplicity, check, is_west};
use crate::points::Point;
use crate::rects::{Rect, block_rects, bounding_rect};
use std::alloc::{AllocError, Global};
use std::marker::Model;

/// Out of memory.
#[derive(Clone, Copy, Debug, PartialEq, Eq)]
pub struct Memory;

/// Why a list of points is refused.
#[derive(Clone, Copy, Debug, PartialEq, Eq)]
pub enum RingFault {
    /// Fewer than 3 vertices are left.
    Few,
    /// The point with this number is the first that has a coordinate out of the limits.
    Coordinate { k: u32 },
    /// These two edges are the first pair that meets otherwise than two neighbours do at their one common vertex.
    NotSimple { e: u32, f: u32 },
    /// More than 256 vertices are left.
    ManyVertices,
    /// Out of memory.
    Memory,
}

/// A simple ring of 3 to 256 vertices within the limits.
#[derive(Drop)]
pub struct Ring {
    vertices: Vec<Point>,
    /// Of each edge whether its west side is in the ring.
    west: Vec<bool>,
    /// The rectangle round all vertices.
    rect: Rect,
    /// The rectangles round the blocks of edges.
    blocks: Vec<Rect>,
}

/// A ring, borrowed, with all that was computed when it was made.
#[derive(Clone, Copy)]
pub struct Outline<'a> {
    pub vertices: &'a [Point],
    /// Of each edge whether its west side is in the ring.
    pub west: &'a [bool],
    /// The rectangle round all vertices.
    pub rect: Rect,
    /// The rectangles round the blocks of edges.
    pub blocks: &'a [Rect],
}

impl Model for Ring {
    ghost Value = { List Point };

    ghost view = { λ r. r.vertices.items };

    ghost invariant = { λ r. IsPrepared r.vertices.items r.west.items r.rect r.blocks.items };
}

/// Whether the point is within the limits.
pub fn is_small(p: Point) -> bool
    ensures { IsTrue result ↔ IsSmall p }
{
    -100_000_000 <= p.x && p.x <= 100_000_000 && -100_000_000 <= p.y && p.y <= 100_000_000
}

/// The first point that is not within the limits.
pub fn first_large(vs: &[Point]) -> Option<usize>
    ensures none { IfNone result (AreSmall vs.now) }
    ensures some { IfSome result (λ k. IsFirstLarge vs.now k) }
{
    for k in 0..vs.len() {
        if !is_small(vs[k]) {
            return Some(k);
        }
    }
    None
}

/// Drops the last point, if it equals the first.
fn drop_closing(vertices: &mut Vec<Point>)
    ensures { vertices.new.items ≡ without_closing vertices.old.items }
{
    let n = vertices.len();
    if n > 1 && vertices[0] == vertices[n - 1] {
        vertices.truncate(n - 1);
    }
}

/// The vertices that a list of points leaves: repeats and the closing point are dropped.
fn kept_vertices(alloc: Global, points: &[Point]) -> Result<Vec<Point>, AllocError>
    ensures { IfOk result (λ vs. vs.items ≡ kept points.now) }
{
    let mut vertices = points.to_vec(alloc)?;
    vertices.dedup();
    drop_closing(&mut vertices);
    Ok(vertices)
}

/// Of each edge whether its west side is in the ring.
fn west_sides(alloc: Global, vs: &[Point], blocks: &[Rect]) -> Result<Vec<bool>, AllocError>
    requires small { AreSmall vs.now }
    requires blocks { AreBlocks blocks.now vs.now }
    requires simple { IsSimple vs.now }
    ensures { IfOk result (λ w. AreFlags vs.now w.items (length vs.now)) }
{
    let mut west: Vec<bool> = Vec::new(alloc);
    for e in 0..vs.len() {
        west.push(is_west(vs, blocks, e))?;
    }
    Ok(west)
}

impl Ring {
    /// The ring of these points, of which repeats and the closing point are dropped.
    ///
    /// Faults come in this order: a coordinate out of the limits, too few vertices left, too many, two edges that meet.
    pub fn new(alloc: Global, points: &[Point]) -> Result<Ring, RingFault>
        requires { length points.now < 2 ^ 32 }
        ensures ring { IfOk result (λ r. r ≡ kept points.now) }
        ensures accepted { IfOk result (λ _. IsAccepted points.now) }
        ensures fault { IfErr result (λ x. IsFaultOf x points.now) }
    {
        let vertices = kept_vertices(alloc, points).map_err(|_| RingFault::Memory)?;
        if let Some(k) = first_large(points) {
            return Err(RingFault::Coordinate { k: k as u32 });
        }
        if vertices.len() < 3 {
            return Err(RingFault::Few);
        }
        if vertices.len() > 256 {
            return Err(RingFault::ManyVertices);
        }
        Ring::close(vertices, alloc)
    }

    /// The ring of vertices that were tested.
    fn close(vertices: Vec<Point>, alloc: Global) -> Result<Ring, RingFault>
        requires small { AreSmall vertices.items }
        requires proper { AreProper vertices.items }
        requires few { 3 ≤ length vertices.items }
        requires many { length vertices.items ≤ 256 }
        ensures ring { IfOk result (λ r. r ≡ vertices.items) }
        ensures simple { IfOk result (λ r. IsSimple r) }
        ensures fault { IfErr result (λ x. IsBad x vertices.items) }
    {
        let blocks = block_rects(alloc, &vertices).map_err(|_| RingFault::Memory)?;
        match check(&vertices, &blocks) {
            Simplicity::Meet { e, f } => Err(RingFault::NotSimple {
                e: e as u32,
                f: f as u32,
            }),
            Simplicity::Simple => {
                let west = west_sides(alloc, &vertices, &blocks).map_err(|_| RingFault::Memory)?;
                let rect = bounding_rect(&vertices);
                Ok(Ring {
                    vertices,
                    west,
                    rect,
                    blocks,
                })
            }
        }
    }

    /// The number of vertices.
    pub fn len(&self) -> u32
        ensures { result ≡ length self.now }
    {
        self.vertices.len() as u32
    }

    /// The vertex with this number.
    pub fn vertex(&self, k: u32) -> Point
        requires { k < length self.now }
        ensures { result ≡ vertex self.now k }
    {
        self.vertices[k as usize]
    }

    /// What calls that compare rings read of this one.
    pub fn outline(&self) -> Outline<'_>
        ensures vertices { result.vertices.now ≡ self.now }
        ensures outline { IsOutline result }
    {
        Outline {
            vertices: &self.vertices,
            west: &self.west,
            rect: self.rect,
            blocks: &self.blocks,
        }
    }
}
