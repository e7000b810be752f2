//! Intervals of whole numbers that realise a scenario of Allen's interval algebra.
//!
//! A scenario says for each two things which of the thirteen base relations their intervals have, and that these agree
//! along every third thing. In Allen's algebra that is enough: there are intervals that have all of them (Allen 1983).
//! The relations say of each two end points which lies below the other, so that classes of equal end points stand in a
//! line, and the place of its class in that line, from 0 on, is a number for each end point:
//!
//! ```text
//! let intervals = realise(alloc, &scenario, nodes)?;     // an interval for each node
//! let Interval { lo, hi } = intervals[0];                // that of node 0
//! ```
#![tactic(auto)]

mod classes;
mod end_points;
mod intervals;
mod laws;
mod realising;

pub use intervals::Interval;
pub use laws::laws_of_realisations;
pub use realising::realise;
