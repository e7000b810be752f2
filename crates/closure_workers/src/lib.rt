//! Algebraic closure by several workers at once.
//!
//! - [`close_parallel`] turns a network into its closure.
//! - [`close_slice`] closes some of the edges of a table that others narrow too.
//! - [`desks`], [`deal`], [`work`], [`gather`] and [`close_table`] are its parts, for those who have others narrow the
//!   words of the table too.
#![tactic(auto)]

mod news;
mod pieces;
mod rounds;
mod slices;
mod tuning;
mod worker;

pub use news::News;
pub use pieces::{deal, desks, gather, work};
pub use rounds::{Workers, close_parallel, close_table};
pub use slices::{Slice, close_slice};
pub use worker::{Desk, Worker};
