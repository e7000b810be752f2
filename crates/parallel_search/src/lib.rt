//! Searches for scenarios by several workers, with the very tree that one thread makes.
//!
//! The search goes on as on one thread. Beside it, in rounds, workers look ahead: each searches the network of a
//! child to which the search comes later. Where the search comes to such a child it takes the tree over, or goes on
//! with the worker's own search of it. What is taken over is compared with the network of the child when it runs. So
//! nothing rests on which children somebody looks at, how far, and in which order: a hint that carries its own truth.
//!
//! ```text
//! let verdict = solve_parallel(&rt, alloc, &net, &c, &class, 1000, 4, &NoGate)?;
//! ```
//!
//! Halves of a split that run at once would gain less, since one child mostly has nearly all of the tree, and a yes
//! would wait for halves that it doesn't need. [`laws_of_cuts`] says how a tree with a budget lies in that with a
//! greater one.
#![tactic(auto)]

mod ahead;
mod crew;
mod job;
mod laws;
mod parallel;
mod round;
mod signs;
mod site;

pub use laws::laws_of_cuts;
pub use parallel::solve_parallel;
