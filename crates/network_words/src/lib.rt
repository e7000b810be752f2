//! Qualitative constraint networks: a set of base relations for each pair of nodes.
//!
//! `specs/Closure.antt` defines when a network is closed, and its algebraic closure, which is also
//! called path consistency (Allen 1983; Renz and Nebel); `laws_of_networks` has what follows. A
//! network is one word for each pair `i < j`, so narrowing it is one bitwise "and" of a word:
//!
//! ```text
//! let mut net = Net::new(alloc, 3, c.full())?;
//! net.add_facts(&c, &[Fact { i: 0, j: 1, rel: Rel::single(0) }])?;
//! let rel = net.get(&c, 1, 0);
//! ```
#![tactic(auto)]

mod between;
mod fact;
mod laws;
mod names;
mod net;

pub use between::{edge_between, oriented, relation_between};
pub use fact::Fact;
pub use laws::laws_of_networks;
pub use net::{Net, NetFault};

/// The greatest number of nodes that a network may have.
pub const MAX_NODES: u32 = 256;
