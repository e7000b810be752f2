//! Trees of splits, as a search makes them, and when one refutes a network.
//!
//! A node is a leaf, or a split of an edge into parts with a child for each; a tree is the list of its nodes in
//! preorder.
#![tactic(auto)]

mod tree;

pub use tree::{Kind, Node, Step, Steps, Tree};
