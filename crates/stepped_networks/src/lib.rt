//! The network at a node of a tree of splits: closed, or narrowed by the steps that the node lists.
//!
//! ```text
//! let mut networks = Networks::stepped(alloc, &net, &c, many)?;     // that of the root is the network given
//! networks.enter(edge, part, &node.steps)?;                         // that of a child: its part, then its steps
//! networks.leave();                                                 // that of the parent again
//! ```
#![tactic(auto)]

mod compositions;
mod networks;
mod rows;
mod ruling;
mod stepped;

pub use networks::Networks;
pub use ruling::all_steps;
pub use stepped::Stepped;
