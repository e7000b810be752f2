//! Algebraic closure of networks on one thread.
//!
//! - [`close`] and [`close_with`] turn a network into its closure; [`close_within`] does so from a closed network that
//!   it lies within.
//! - [`ClosedPath`] is a path of closed networks for a search: it narrows an edge and closes again, and takes that
//!   back.
//!
//! ```text
//! let mut path = ClosedPath::new(alloc, &net, &c)?;
//! path.narrow(edge, Rel::single(0))?;
//! if path.is_empty() {
//!     path.back();
//! }
//! ```
#![tactic(auto)]

mod closing;
mod levels;
mod narrowing;
mod path;
mod work;

pub use closing::{close, close_with, close_within};
pub use levels::Change;
pub use path::ClosedPath;
pub use work::Work;
