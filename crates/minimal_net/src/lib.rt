//! Labels of base relations: for an edge of a network and a base relation a scenario of the network that has it there,
//! or a tree that shows that none has, or the tree of a search whose budget was spent.
//!
//! The minimal network keeps of each edge just the base relations that some scenario has there (Montanari 1974). So it
//! is what the closure leaves when the refuted base relations are taken away, if no label is open:
//!
//! ```text
//! match minimal(alloc, &net, &c, &class, edge, base, 1000)? {
//!     Label::Held(scenario) => .. // a scenario that has the base relation at the edge
//!     Label::Refuted(tree) => ..  // the tree refutes the network with the edge set to it
//!     Label::Budget(tree) => ..   // 1000 splits, and no end
//! }
//! ```
//!
//! [`label_network`] has all of them, without scenarios and trees: for each edge of a closed network which base relations of its
//! set are held, which are refuted, and which are open. [`leave`] takes the refuted ones away.
//!
//! [`laws_of_labels`] and [`laws_of_network_labels`] say what labels tell of the network, and
//! [`laws_of_straight_labels`] where one needs no search: over classes in whose closed networks the least base relations
//! are a scenario.
#![tactic(auto)]

mod counts;
mod edge_labels;
mod label;
mod labeller;
mod labelling;
mod laws;
mod network_labels;
mod open_split;
mod outcome;

pub use counts::{Counts, count_labels, leave};
pub use edge_labels::EdgeLabels;
pub use label::Label;
pub use labelling::minimal;
pub use laws::{laws_of_labels, laws_of_network_labels, laws_of_straight_labels};
pub use network_labels::label_network;
pub use outcome::Outcome;
