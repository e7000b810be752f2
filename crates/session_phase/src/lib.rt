//! The words of one network, narrowed by the sessions of a batch and by workers at once, and closed.
//!
//! Each session has a pass over one table, with which it states its facts and looks at words as they are, and so has
//! each worker, with which it closes a range of the edges. The closure doesn't depend on how their steps interleave:
//!
//! ```text
//! let peek = Step { place: 0, what: What::Peek { i: 0, j: 2 }, set: Rel::EMPTY };     // `lines` has such steps
//! let lines = narrow_together(rt, alloc, &mut net, closed.words(), &c, lines, workers, gate)?;
//! ```
#![tactic(auto)]

mod phase;
mod sessions;
mod steps;

pub use phase::narrow_together;
pub use steps::Step;
