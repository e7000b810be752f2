//! Trees of splits that refute a network: that show that it has no scenario.
//!
//! A search that finds no scenario has split edges into parts, and after each way of choosing parts it found an empty
//! set. The tree of its splits shows that. So whoever is handed one needs to trust nobody's search:
//!
//! ```text
//! match check(alloc, &net, &c, &tree) {
//!     Ok(()) => ..                             // no scenario of the network exists
//!     Err(TreeFault::Uncovered { node }) => .. // a split that leaves a base relation out
//!     Err(fault) => ..
//! }
//! ```
#![tactic(auto)]

mod checking;
mod fault;
mod forms;
mod laws;
mod tracing;
mod walking;

pub use checking::check;
pub use fault::TreeFault;
pub use laws::{laws_of_refutations, laws_of_traced_trees};
pub use split_trees::{Kind, Node, Step, Steps, Tree};
pub use tracing::trace;
