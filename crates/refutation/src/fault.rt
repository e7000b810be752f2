//! Why a tree doesn't refute a network.

use thiserror::Error;

/// Why a tree doesn't refute a network, by the number of the node.
#[derive(Clone, Copy, Debug, PartialEq, Eq, Error)]
pub enum TreeFault {
    /// A base relation of the edge that the node splits is in none of its parts.
    #[error("the parts of node {node} don't have every base relation of the edge")]
    Uncovered { node: u32 },
    /// The node is a leaf of kind `Empty`, and its network has no empty set.
    #[error("the network of node {node} has no empty set")]
    NotEmpty { node: u32 },
    /// The node isn't that of a tree whose every leaf is of kind `Empty`.
    #[error("node {node} isn't of a tree that refutes")]
    BadTree { node: u32 },
    /// A step of the node isn't of three different nodes of the network.
    #[error("step {step} of node {node} isn't of three different nodes")]
    BadStep { node: u32, step: u32 },
    /// Out of memory.
    #[error("out of memory")]
    Memory,
}
