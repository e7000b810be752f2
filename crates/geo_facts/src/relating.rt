//! The RCC-8 relation of two polygons, by their matrix.
//!
//! Three entries say whether the interiors have a common point and whether each has one out of the other area; a fourth
//! whether the boundaries meet (Randell, Cui and Cohn 1992).
ghost use Rattle.std.specs.Prelude.{◌≡◌, ◌^◌, ◌<◌};
ghost use Rattle.geo_facts.specs.Relating.{is_empty, rcc8_of};

use calculus_table::Rel;
use de9im::{Dim, Matrix};

// The base relations of RCC-8, by their numbers.

const DC: u32 = 0;

const EC: u32 = 1;

const PO: u32 = 2;

const TPP: u32 = 3;

const NTPP: u32 = 4;

const TPPI: u32 = 5;

const NTPPI: u32 = 6;

const EQ: u32 = 7;

/// The set of the one base relation of RCC-8 that two areas with this matrix have.
pub fn rcc8(m: &Matrix) -> Rel
    ensures { result ≡ rcc8_of m.now }
{
    Rel::single(base_of(m))
}

/// The number of the base relation.
fn base_of(m: &Matrix) -> u32
    ensures base { 2 ^ result ≡ rcc8_of m.now }
    ensures below { result < 8 }
{
    let meets = !is_empty(m.bb);
    if is_empty(m.ii) {
        return if meets { EC } else { DC };
    }
    match (is_empty(m.ie), is_empty(m.ei)) {
        (true, true) => EQ,
        (true, false) => if meets { TPP } else { NTPP },
        (false, true) => if meets { TPPI } else { NTPPI },
        (false, false) => PO,
    }
}

/// Whether an intersection is empty.
fn is_empty(dim: Dim) -> bool
    ensures { result ≡ is_empty dim }
{
    dim == Dim::F
}
