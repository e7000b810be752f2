//! The dimensions of the nine intersections.

ghost use Rattle.std.specs.Prelude.{◌≡◌, IfOk, string_bytes};
ghost use Rattle.de9im.specs.Entries.{entries, dim_byte, matrix_text};

use poly_exact::Memory;
use std::alloc::Global;

/// The dimension of a set of points: empty, points, curves or areas.
#[derive(Clone, Copy, Debug, PartialEq, Eq)]
pub enum Dim {
    /// Empty.
    F,
    /// Points alone.
    D0,
    /// A curve.
    D1,
    /// An area.
    D2,
}

/// The matrix: I the interior, B the boundary and E the exterior, of the first ring and then of the second.
#[derive(Clone, Copy, Debug, PartialEq, Eq)]
pub struct Matrix {
    pub ii: Dim,
    pub ib: Dim,
    pub ie: Dim,
    pub bi: Dim,
    pub bb: Dim,
    pub be: Dim,
    pub ei: Dim,
    pub eb: Dim,
    pub ee: Dim,
}

impl Dim {
    /// The character that stands for the dimension.
    pub fn symbol(self) -> char
        ensures { result ≡ dim_byte self }
    {
        match self {
            Dim::F => 'F',
            Dim::D0 => '0',
            Dim::D1 => '1',
            Dim::D2 => '2',
        }
    }
}

impl Matrix {
    /// The matrix of two rings without a common point, neither in the other.
    pub(crate) const APART: Matrix = Matrix {
        ii: Dim::F,
        ib: Dim::F,
        ie: Dim::D2,
        bi: Dim::F,
        bb: Dim::F,
        be: Dim::D1,
        ei: Dim::D2,
        eb: Dim::D1,
        ee: Dim::D2,
    };

    /// The nine entries, row by row.
    pub fn entries(&self) -> [Dim; 9]
        ensures { result ≡ entries self.now }
    {
        [
            self.ii, self.ib, self.ie, self.bi, self.bb, self.be, self.ei, self.eb, self.ee,
        ]
    }

    /// The nine characters of the entries, row by row.
    pub fn text(&self, alloc: Global) -> Result<String, Memory>
        ensures { IfOk result (λ s. string_bytes s ≡ matrix_text self.now) }
    {
        let entries = self.entries();
        let mut text = String::new(alloc);
        for k in 0..9 {
            text.push(entries[k].symbol()).map_err(|_| Memory)?;
        }
        Ok(text)
    }
}
