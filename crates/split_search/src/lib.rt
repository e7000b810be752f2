//! Searches for scenarios of networks, and what the tree of a search's splits says.
//!
//! A search closes a network. Where a set became empty there is no scenario; where each edge has one base relation
//! these are a scenario. Otherwise it splits the set of one edge into parts, and looks at the network with each part in
//! the same way (Nebel 1997 tells of such searches, and of classes of relations that make splits rare). Which edge is
//! split into which parts is ruled by a class:
//!
//! ```text
//! match solve(alloc, &net, &c, &class, 1000)? {
//!     Verdict::Yes(scenario, tree) => .. // a scenario, after tree.splits() splits
//!     Verdict::No(tree) => ..            // the tree refutes the network
//!     Verdict::Budget(tree) => ..        // 1000 splits, and no end
//! }
//! ```
//!
//! So a network has one tree of splits and, with a budget of splits, one verdict, which [`solve`] returns.
//! [`laws_of_ruled_trees`] says that it has one, and what a yes and a no tell of the network; [`ruled_split`] is the
//! split of one closed network by itself, and a [`GuidedPath`] has those of closed networks above one another.
#![tactic(auto)]

mod adding;
mod ahead;
mod answered;
mod bits;
mod candidates;
mod choosing;
mod edge_set;
mod edges;
mod found;
mod guided_path;
mod known_parts;
mod laws;
mod searching;
mod split;
mod verdict;
mod walking;

pub use ahead::LaterChild;
pub use answered::Answered;
pub use choosing::ruled_split;
pub use guided_path::GuidedPath;
pub use laws::{laws_of_ruled_trees, laws_of_straight_classes};
pub use verdict::Verdict;
pub use walking::{Walk, solve};

/// The greatest budget of splits.
pub const MAX_BUDGET: u32 = 10_000;
