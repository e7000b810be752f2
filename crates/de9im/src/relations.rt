//! The DE-9IM matrix of two rings.
//!
//! The entries of the boundaries come first. Where two edges cross properly, each boundary has points in and out of the
//! other ring. Where no two edges meet, one vertex speaks for the whole ring. Else the edges are cut into pieces.
//!
//! The entries of the interiors follow. A point in both rings exists exactly where a boundary has a point in the other
//! ring, or where the rings share a stretch of boundary and the inside of both lies at its west. The same holds of the
//! points in one ring alone.

ghost use Rattle.std.specs.Prelude.{◌≡◌, ℕ, ◌<◌, length, IsTrue, IsOkAnd};
ghost use Rattle.poly_exact.specs.Outlines.{IsOutline};
ghost use Rattle.de9im.specs.Cuts.{IsBoundary};
ghost use Rattle.de9im.specs.Matrices.{IsMatrix, IsTold, IsUnmetRing, AreRectsApart, given, gathered};

use crate::cuts::{Sight, boundary, see};
use crate::scans::{Contacts, scan};
use crate::{Dim, Matrix};
use poly_exact::{HalfPoint, Memory, Outline, Rect, Ring, locate};

/// What the boundary of each ring sees of the other.
#[derive(Clone, Copy)]
pub struct Views {
    pub first: Sight,
    pub second: Sight,
}

/// What a ring that no edge of the other meets sees of it.
fn lone_view(a: Outline, b: Outline) -> Sight
    requires one { IsOutline a }
    requires two { IsOutline b }
    requires apart { IsUnmetRing a.vertices.now b.vertices.now }
    ensures { IsBoundary result a.entry.vertices.now b.entry.vertices.now }
{
    let first = a.vertices[0];
    let l = locate(
        b.vertices,
        b.blocks,
        HalfPoint {
            x: first.x * 2,
            y: first.y * 2,
        },
    );
    see(
        Sight {
            inside: false,
            outside: false,
        },
        l,
    )
}

/// What the boundary of the first ring sees of the second.
fn view(found: Contacts, a: Outline, b: Outline) -> Sight
    requires one { IsOutline a }
    requires two { IsOutline b }
    requires told { IsTold found a.vertices.now b.vertices.now }
    ensures { IsBoundary result a.entry.vertices.now b.entry.vertices.now }
{
    if found.proper {
        Sight {
            inside: true,
            outside: true,
        }
    } else if found.meets {
        boundary(a, b)
    } else {
        lone_view(a, b)
    }
}

/// The dimension, where the test holds.
fn give(test: bool, d: Dim) -> Dim
    ensures { result ≡ given test d }
{
    if test { d } else { Dim::F }
}

/// The matrix of what was found.
fn gather(found: Contacts, v: Views) -> Matrix
    ensures { result ≡ gathered found v }
{
    Matrix {
        ii: give(v.first.inside || (v.second.inside || found.ii), Dim::D2),
        ib: give(v.second.inside, Dim::D1),
        ie: give(v.first.outside || (v.second.inside || found.ie), Dim::D2),
        bi: give(v.first.inside, Dim::D1),
        bb: if found.stretch {
            Dim::D1
        } else {
            give(found.meets, Dim::D0)
        },
        be: give(v.first.outside, Dim::D1),
        ei: give(v.second.outside || (v.first.inside || found.ei), Dim::D2),
        eb: give(v.second.outside, Dim::D1),
        ee: Dim::D2,
    }
}

/// Whether the rectangles have no point in common.
fn are_rects_apart(r: Rect, s: Rect) -> bool
    ensures { IsTrue result → AreRectsApart r s }
{
    if r.high.x < s.low.x {
        return true;
    }
    if s.high.x < r.low.x {
        return true;
    }
    if r.high.y < s.low.y {
        return true;
    }
    s.high.y < r.low.y
}

/// The matrix of two rings whose rectangles may meet.
fn relate(a: Outline, b: Outline) -> Matrix
    requires one { IsOutline a }
    requires two { IsOutline b }
    ensures { IsMatrix result a.entry.vertices.now b.entry.vertices.now }
{
    let found = scan(a, b);
    gather(
        found,
        Views {
            first: view(found, a, b),
            second: view(found, b, a),
        },
    )
}

/// The DE-9IM matrix of the areas that two rings bound. It takes no memory, so the answer is always Ok.
pub fn matrix(a: &Ring, b: &Ring) -> Result<Matrix, Memory>
    ensures { IsOkAnd result (λ m. IsMatrix m a.now b.now) }
{
    let one = a.outline();
    let two = b.outline();
    if are_rects_apart(one.rect, two.rect) {
        Ok(Matrix::APART)
    } else {
        Ok(relate(one, two))
    }
}
