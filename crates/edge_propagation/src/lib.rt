//! Propagation: edges are taken off a queue, and the pairs along them are narrowed, until no edge is left.
//!
//! The sets of ordered pairs stand in planes of bytes ([`PairSets`]), so that the pairs of a row are narrowed 16 at a
//! time. What may be looked at next is proposed by [`Proposals`]: the edge that restricts most, or the oldest.
#![tactic(auto)]

mod edges;
mod loading;
mod meeting;
mod order;
mod pairs;
mod propagation;
mod span;
mod sweeping;

pub use edges::nodes_of_edge;
pub use loading::{is_stored, load_planes, load_queued, store};
pub use meeting::{meet, meet_pair};
pub use order::Proposals;
pub use pairs::{Note, PairSets};
pub use propagation::{Emptied, propagate, propagate_all, propagate_noted, put_pair, refine};
pub use span::{Span, all_nodes};
pub use sweeping::{Sweep, sweep_rows};
