//! The DE-9IM matrix of the areas that two simple rings bound, its patterns and the named predicates (OGC 06-103r4).
//!
//! Every entry is exact: it says which of the nine intersections of interior, boundary and exterior have points, and of
//! which dimension they are. Nothing is rounded, so that a needle's tip that crosses an edge by less than a double can
//! tell is seen.
#![tactic(auto)]

mod cuts;
mod laws;
mod matrices;
mod patterns;
mod relations;
mod scans;

pub use laws::{laws_of_patterns, rings_have_one_matrix};
pub use matrices::{Dim, Matrix};
pub use patterns::{BadPattern, Named, Pattern, Want, matches, predicate};
pub use relations::matrix;
