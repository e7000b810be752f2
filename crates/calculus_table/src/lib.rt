//! Qualitative calculi: base relations with an identity, converses and compositions, and the four laws
//! that they obey (Allen 1983; Randell, Cui and Cohn 1992).
//!
//! A set of base relations is a [`Rel`], the bits of one word. A [`Calculus`] is a table of which the
//! laws were tested, or are known; a reasoner takes any [`Compose`]. `specs/Calculus.antt` has the
//! laws, `specs/Composition.antt` the composition of sets, and `laws_of_sets` what follows:
//!
//! ```text
//! let c = Calculus::new(alloc, names, 0, &converses, &table)?;
//! let composed = c.compose(Rel::single(1), c.full());
//! ```
#![tactic(auto)]

mod calculus;
mod compose;
mod laws;
mod names;
mod rel;
mod table;

pub use calculus::{Calculus, TableFault};
pub use compose::{Compose, lawful};
pub use laws::{laws_of_sets, laws_of_tables};
pub use names::place_of;
pub use rel::Rel;

/// The greatest number of base relations that a calculus may have.
pub const MAX_BASES: u32 = 64;

/// Out of memory.
#[derive(Clone, Copy, Debug, PartialEq, Eq)]
pub struct Memory;
