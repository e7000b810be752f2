//! Patterns of matrices, and the named predicates of OGC 06-103r4, which are patterns.

ghost use Rattle.std.specs.Prelude.{◌≡◌, ℕ, ◌<◌, List, length, IfErr, IfOk, IsTrue, ◌↔◌};
ghost use Rattle.de9im.specs.Entries.{entries};
ghost use Rattle.de9im.specs.Patterns.{Admits, IsNamed, IsPattern, IsWrongAt, Matches, want_of};
ghost use Rattle.de9im.specs.declared.patterns.Want.{Want};

use crate::{Dim, Matrix};
use std::marker::Model;

/// What a pattern asks of one entry.
#[derive(Clone, Copy, Debug, PartialEq, Eq)]
pub enum Want {
    /// `*`: anything.
    Anything,
    /// `T`: not empty.
    NonEmpty,
    /// `F`, `0`, `1` or `2`: just this dimension.
    Exactly(Dim),
}

/// A pattern of nine characters, each of which asks something of one entry.
#[derive(Drop)]
pub struct Pattern {
    wants: [Want; 9],
}

impl Model for Pattern {
    ghost Value = { List Want };

    ghost view = { λ p. p.wants };
}

/// A text that is no pattern.
#[derive(Clone, Copy, Debug, PartialEq, Eq)]
pub struct BadPattern {
    /// The first wrong byte, from 0. Where the first nine bytes are right, as far as there are any, their number.
    pub place: u32,
}

/// The named predicates.
#[derive(Clone, Copy, Debug, PartialEq, Eq)]
pub enum Named {
    /// The areas, boundaries included, have no point in common.
    Disjoint,
    /// They have points in common, but none of both interiors.
    Touches,
    /// No point of the first is out of the second, and the interiors have points in common.
    Within,
    /// No point of the second is out of the first, and the interiors have points in common.
    Contains,
    /// The interiors have points in common, and each has points out of the other area.
    Overlaps,
    /// The areas, boundaries included, have a point in common.
    Intersects,
}

/// What the byte asks, if it is one of `T F * 0 1 2`.
fn read_byte(byte: u8) -> Option<Want>
    ensures { result ≡ want_of byte }
{
    match byte {
        b'*' => Some(Want::Anything),
        b'T' => Some(Want::NonEmpty),
        b'F' => Some(Want::Exactly(Dim::F)),
        b'0' => Some(Want::Exactly(Dim::D0)),
        b'1' => Some(Want::Exactly(Dim::D1)),
        b'2' => Some(Want::Exactly(Dim::D2)),
        _ => None,
    }
}

impl Pattern {
    /// The pattern that the text stands for.
    pub fn read(text: &[u8]) -> Result<Pattern, BadPattern>
        ensures pattern { IfOk result (λ p. IsPattern text.now p) }
        ensures wrong { IfErr result (λ x. IsWrongAt text.now x.place) }
    {
        let mut wants = [Want::Anything; 9];
        for k in 0..9 {
            if k >= text.len() {
                return Err(BadPattern { place: k as u32 });
            }
            match read_byte(text[k]) {
                Some(w) => wants[k] = w,
                None => return Err(BadPattern { place: k as u32 }),
            }
        }
        if text.len() > 9 {
            Err(BadPattern { place: 9 })
        } else {
            Ok(Pattern { wants })
        }
    }
}

/// Whether the dimension is what is asked.
fn admits(want: Want, dim: Dim) -> bool
    ensures { IsTrue result ↔ Admits want dim }
{
    match want {
        Want::Anything => true,
        Want::NonEmpty => dim != Dim::F,
        Want::Exactly(d) => dim == d,
    }
}

/// Whether each entry is what is asked.
fn fits(m: &Matrix, wants: &[Want; 9]) -> bool
    ensures { IsTrue result ↔ Matches wants.now (entries m.now) }
{
    let entries = m.entries();
    for k in 0..9 {
        if !admits(wants[k], entries[k]) {
            return false;
        }
    }
    true
}

/// Whether the matrix is one of the pattern's.
pub fn matches(m: &Matrix, p: &Pattern) -> bool
    ensures { IsTrue result ↔ Matches p.now (entries m.now) }
{
    fits(m, &p.wants)
}

const F: Want = Want::Exactly(Dim::F);

const T: Want = Want::NonEmpty;

const X: Want = Want::Anything;

const DISJOINT: [Want; 9] = [F, F, X, F, F, X, X, X, X];

const TOUCHES_BY_SECOND: [Want; 9] = [F, T, X, X, X, X, X, X, X];

const TOUCHES_BY_FIRST: [Want; 9] = [F, X, X, T, X, X, X, X, X];

const TOUCHES_BY_BOTH: [Want; 9] = [F, X, X, X, T, X, X, X, X];

const WITHIN: [Want; 9] = [T, X, F, X, X, F, X, X, X];

const CONTAINS: [Want; 9] = [T, X, X, X, X, X, F, F, X];

const OVERLAPS: [Want; 9] = [T, X, T, X, X, X, T, X, X];

/// Whether the named predicate holds of two areas with this matrix.
pub fn predicate(m: &Matrix, n: Named) -> bool
    ensures { IsTrue result ↔ IsNamed n m.now }
{
    match n {
        Named::Disjoint => fits(m, &DISJOINT),
        Named::Touches => {
            fits(m, &TOUCHES_BY_SECOND) || fits(m, &TOUCHES_BY_FIRST) || fits(m, &TOUCHES_BY_BOTH)
        }
        Named::Within => fits(m, &WITHIN),
        Named::Contains => fits(m, &CONTAINS),
        Named::Overlaps => fits(m, &OVERLAPS),
        Named::Intersects => !fits(m, &DISJOINT),
    }
}
