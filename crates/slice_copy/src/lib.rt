//! Copies of a network's sets, on which a slice of its edges is closed.
//!
//! Who narrows words that others narrow too takes them over into a [`SliceCopy`], closes his slice there by propagation,
//! and narrows the words by the copy's notes. What that may tell is exact: whether an edge is queued, and whether the
//! words are the copy's sets.
//!
//! ```text
//! let mut copy = SliceCopy::new(alloc, nodes)?;
//! copy.begin(&c, &words, from, to);
//! if copy.close_rows(&c) && copy.matches(&c, &words) {
//!     // the edges from `from` up to `to` are closed in the words
//! }
//! ```
#![tactic(auto)]

mod copy;
mod rows;

pub use copy::SliceCopy;
pub use edge_propagation::{Note, Sweep};
