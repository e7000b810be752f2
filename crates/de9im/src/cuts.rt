//! What the points of one ring's edges see of another ring.
//!
//! Where no two edges cross properly, the other ring's vertices on an edge cut it into pieces, and the points of a
//! piece lie all in, all out of, or all on the other ring, the two ends aside. So the middle of each piece speaks for
//! it, and all cuts are vertices: no fraction is needed but a half.

ghost use Rattle.std.specs.Prelude.{◌≡◌, ◌≢◌, ℕ, ◌*◌, ◌<◌, length, IsTrue, ◌↔◌};
ghost use Rattle.poly_exact.specs.Small.{IsSmall};
ghost use Rattle.poly_exact.specs.Outlines.{IsOutline};
ghost use Rattle.poly_exact.specs.Rects.{block_end};
ghost use Rattle.de9im.specs.Cuts.{IsCut, IsNearer, IsNextCut, IsNextTo, IsUncrossed, IsAllUncrossed, IsSample};
ghost use Rattle.de9im.specs.Cuts.{IsSight, IsSightTo, IsBoundary, seen, joined};

use poly_exact::{
    BLOCK, HalfPoint, Location, Outline, Point, block_stop, is_off, locate, next_index, reach_at,
    turn_at,
};

/// Whether some point is in the other ring, and whether some point is out of it.
#[derive(Clone, Copy)]
pub struct Sight {
    pub inside: bool,
    pub outside: bool,
}

/// Whether `c` lies on the line of the edge, not before the first end, and before the second.
pub fn is_cut(a: Point, b: Point, c: Point) -> bool
    requires first { IsSmall a }
    requires second { IsSmall b }
    requires third { IsSmall c }
    ensures { IsTrue result ↔ IsCut a b c }
{
    if turn_at(a, b, c) != 0 {
        return false;
    }
    let r = reach_at(a, b, c);
    if r < 0 {
        return false;
    }
    r < reach_at(a, b, b)
}

/// Whether `c` lies on the line of the edge, beyond `from` and before `best`.
pub fn is_nearer(a: Point, b: Point, from: Point, best: Point, c: Point) -> bool
    requires first { IsSmall a }
    requires second { IsSmall b }
    requires third { IsSmall from }
    requires fourth { IsSmall best }
    requires fifth { IsSmall c }
    ensures { IsTrue result ↔ IsNearer a b from best c }
{
    if turn_at(a, b, c) != 0 {
        return false;
    }
    let r = reach_at(a, b, c);
    if r <= reach_at(a, b, from) {
        return false;
    }
    r < reach_at(a, b, best)
}

/// The nearest vertex on the edge beyond `from`, of `start` and those of one block.
fn next_in_block(
    a: Point,
    b: Point,
    from: Point,
    ring: Outline,
    block: usize,
    start: Point,
) -> Point
    requires first { IsSmall a }
    requires second { IsSmall b }
    requires cut { IsCut a b from }
    requires ring { IsOutline ring }
    requires block { block * BLOCK < length ring.vertices.now }
    requires before { IsNextTo start a b from ring.vertices.now (block * BLOCK) }
    ensures { IsNextTo result a b from ring.entry.vertices.now (block_end ring.entry.vertices.now block) }
{
    let ws = ring.vertices;
    let mut best = start;
    for k in block * BLOCK..block_stop(ws, block) {
        if is_nearer(a, b, from, best, ws[k]) {
            best = ws[k];
        }
    }
    best
}

/// Where the edge's piece that begins at `from` ends: the nearest vertex on the edge beyond it, or the second end.
pub fn next_cut(a: Point, b: Point, from: Point, ring: Outline) -> Point
    requires first { IsSmall a }
    requires second { IsSmall b }
    requires one { a ≢ b }
    requires cut { IsCut a b from }
    requires ring { IsOutline ring }
    ensures { IsNextCut result a b from ring.entry.vertices.now }
{
    let mut best = b;
    for block in 0..ring.blocks.len() {
        if !is_off(a, b, ring.blocks[block]) {
            best = next_in_block(a, b, from, ring, block, best);
        }
    }
    best
}

/// Where the middle of the piece lies that begins at `from`.
pub fn sample(a: Point, b: Point, from: Point, ring: Outline) -> Location
    requires first { IsSmall a }
    requires second { IsSmall b }
    requires one { a ≢ b }
    requires cut { IsCut a b from }
    requires ring { IsOutline ring }
    requires uncrossed { IsUncrossed a b ring.vertices.now }
    ensures { IsSample result a b from ring.entry.vertices.now }
{
    let end = next_cut(a, b, from, ring);
    locate(
        ring.vertices,
        ring.blocks,
        HalfPoint {
            x: from.x + end.x,
            y: from.y + end.y,
        },
    )
}

/// What is seen with one more point.
pub fn see(sight: Sight, l: Location) -> Sight
    ensures { result ≡ seen sight l }
{
    match l {
        Location::In => Sight {
            inside: true,
            ..sight
        },
        Location::Out => Sight {
            outside: true,
            ..sight
        },
        Location::On => sight,
    }
}

/// What either sees.
pub fn join(one: Sight, two: Sight) -> Sight
    ensures { result ≡ joined one two }
{
    Sight {
        inside: one.inside || two.inside,
        outside: one.outside || two.outside,
    }
}

/// What the pieces see that begin at the vertices of one block, and what was seen before.
fn block_sight(a: Point, b: Point, ring: Outline, block: usize, start: Sight) -> Sight
    requires first { IsSmall a }
    requires second { IsSmall b }
    requires one { a ≢ b }
    requires ring { IsOutline ring }
    requires uncrossed { IsUncrossed a b ring.vertices.now }
    requires block { block * BLOCK < length ring.vertices.now }
    requires before { IsSightTo start a b ring.vertices.now (block * BLOCK) }
    ensures { IsSightTo result a b ring.entry.vertices.now (block_end ring.entry.vertices.now block) }
{
    let ws = ring.vertices;
    let mut sight = start;
    for k in block * BLOCK..block_stop(ws, block) {
        if is_cut(a, b, ws[k]) {
            sight = see(sight, sample(a, b, ws[k], ring));
        }
    }
    sight
}

/// What the points of one edge see, the second end aside.
pub fn edge_sight(a: Point, b: Point, ring: Outline) -> Sight
    requires first { IsSmall a }
    requires second { IsSmall b }
    requires one { a ≢ b }
    requires ring { IsOutline ring }
    requires uncrossed { IsUncrossed a b ring.vertices.now }
    ensures { IsSight result a b ring.entry.vertices.now }
{
    let mut sight = see(
        Sight {
            inside: false,
            outside: false,
        },
        sample(a, b, a, ring),
    );
    for block in 0..ring.blocks.len() {
        if !is_off(a, b, ring.blocks[block]) {
            sight = block_sight(a, b, ring, block, sight);
        }
    }
    sight
}

/// The same, where the edge may lie off the ring's rectangle.
pub fn edge_view(a: Point, b: Point, ring: Outline) -> Sight
    requires first { IsSmall a }
    requires second { IsSmall b }
    requires one { a ≢ b }
    requires ring { IsOutline ring }
    requires uncrossed { IsUncrossed a b ring.vertices.now }
    ensures { IsSight result a b ring.entry.vertices.now }
{
    if is_off(a, b, ring.rect) {
        Sight {
            inside: false,
            outside: true,
        }
    } else {
        edge_sight(a, b, ring)
    }
}

/// What the boundary of the first ring sees of the second, where no two edges cross properly.
pub fn boundary(a: Outline, b: Outline) -> Sight
    requires one { IsOutline a }
    requires two { IsOutline b }
    requires uncrossed { IsAllUncrossed a.vertices.now b.vertices.now }
    ensures { IsBoundary result a.entry.vertices.now b.entry.vertices.now }
{
    let vs = a.vertices;
    let mut sight = Sight {
        inside: false,
        outside: false,
    };
    for e in 0..vs.len() {
        sight = join(sight, edge_view(vs[e], vs[next_index(vs, e)], b));
    }
    sight
}
