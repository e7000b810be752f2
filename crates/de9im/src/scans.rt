//! What the pairs of edges of two rings tell.
//!
//! Each edge of the one ring is met with the edges of the other. A rectangle round the other ring, then one round each
//! block of 16 of its edges, then the rectangles of the two edges themselves rule out all but a few pairs before
//! anything is multiplied.

ghost use Rattle.std.specs.Prelude.{◌≡◌, ℕ, ◌*◌, ◌<◌, length, IsTrue, ◌↔◌};
ghost use Rattle.poly_exact.specs.Small.{IsSmall};
ghost use Rattle.poly_exact.specs.Outlines.{IsOutline};
ghost use Rattle.poly_exact.specs.Rects.{block_end};
ghost use Rattle.de9im.specs.Scans.{IsLevel, noted, IsSound, IsMore, IsEdgeDone, IsEdgeUnderWay, IsDone};

use poly_exact::{BLOCK, Meeting, Outline, Point, are_apart, block_stop, is_off, meet, next_index};

/// What the edges of two rings have in common, as far as they were met.
#[derive(Clone, Copy)]
pub struct Contacts {
    /// Some two edges have a point in common.
    pub meets: bool,
    /// Some two edges have more than one point in common.
    pub stretch: bool,
    /// Some two edges cross properly.
    pub proper: bool,
    /// At the west of a common stretch is the inside of both.
    pub ii: bool,
    /// The inside of the first alone.
    pub ie: bool,
    /// The inside of the second alone.
    pub ei: bool,
}

/// Whether one of two edges is level.
pub fn is_level(a: Point, b: Point, c: Point, d: Point) -> bool
    requires first { IsSmall a }
    requires second { IsSmall b }
    requires third { IsSmall c }
    requires fourth { IsSmall d }
    ensures { IsTrue result ↔ IsLevel a b c d }
{
    a.y == b.y || c.y == d.y
}

/// What is known after one more pair of edges.
pub fn note(found: Contacts, m: Meeting, level: bool, west: bool, other: bool) -> Contacts
    ensures { result ≡ noted found m level west other }
{
    match m {
        Meeting::Apart => found,
        Meeting::Touch => Contacts {
            meets: true,
            ..found
        },
        Meeting::Proper => Contacts {
            meets: true,
            proper: true,
            ..found
        },
        Meeting::Stretch => Contacts {
            meets: true,
            stretch: true,
            proper: found.proper,
            ii: found.ii || (!level && (west && other)),
            ie: found.ie || (!level && (west && !other)),
            ei: found.ei || (!level && (!west && other)),
        },
    }
}

/// Meets edge number `e` of the first ring with the edges of one block of the second.
fn scan_block(start: Contacts, a: Outline, b: Outline, e: usize, block: usize) -> Contacts
    requires one { IsOutline a }
    requires two { IsOutline b }
    requires below { e < length a.vertices.now }
    requires block { block * BLOCK < length b.vertices.now }
    requires sound { IsSound start a.vertices.now b.vertices.now }
    requires done { IsEdgeDone start a.vertices.now b.vertices.now e (block * BLOCK) }
    ensures { IsEdgeUnderWay start result a.entry.vertices.now b.entry.vertices.now e
        (block_end b.entry.vertices.now block) }
{
    let vs = a.vertices;
    let ws = b.vertices;
    let p = vs[e];
    let q = vs[next_index(vs, e)];
    let mut found = start;
    for f in block * BLOCK..block_stop(ws, block) {
        let r = ws[f];
        let s = ws[next_index(ws, f)];
        if !are_apart(p, q, r, s) {
            found = note(
                found,
                meet(p, q, r, s),
                is_level(p, q, r, s),
                a.west[e],
                b.west[f],
            );
        }
    }
    found
}

/// Meets edge number `e` of the first ring with all edges of the second.
fn scan_edge(start: Contacts, a: Outline, b: Outline, e: usize) -> Contacts
    requires one { IsOutline a }
    requires two { IsOutline b }
    requires below { e < length a.vertices.now }
    requires sound { IsSound start a.vertices.now b.vertices.now }
    ensures sound { IsSound result a.entry.vertices.now b.entry.vertices.now }
    ensures more { IsMore start result }
    ensures done { IsEdgeDone result a.entry.vertices.now b.entry.vertices.now e (length b.entry.vertices.now) }
{
    let p = a.vertices[e];
    let q = a.vertices[next_index(a.vertices, e)];
    let mut found = start;
    for block in 0..b.blocks.len() {
        if !is_off(p, q, b.blocks[block]) {
            found = scan_block(found, a, b, e, block);
        }
    }
    found
}

/// Meets all pairs of edges of two rings.
pub fn scan(a: Outline, b: Outline) -> Contacts
    requires one { IsOutline a }
    requires two { IsOutline b }
    ensures sound { IsSound result a.entry.vertices.now b.entry.vertices.now }
    ensures done { IsDone result a.entry.vertices.now b.entry.vertices.now (length a.entry.vertices.now) }
{
    let vs = a.vertices;
    let mut found = Contacts {
        meets: false,
        stretch: false,
        proper: false,
        ii: false,
        ie: false,
        ei: false,
    };
    for e in 0..vs.len() {
        if !is_off(vs[e], vs[next_index(vs, e)], b.rect) {
            found = scan_edge(found, a, b, e);
        }
    }
    found
}
