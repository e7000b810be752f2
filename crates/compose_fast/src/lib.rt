//! Composition of sets of base relations at the speed of the machine.
//!
//! A set of up to 64 base relations is a word; four of its members are a nibble of it, eight of them a byte.
//! Composition is a union over members, so what a base relation gives composed with a whole set is the union of what
//! it gives composed with the set's nibbles, and each of those is one of 16 entries of a table made once.
//!
//! - [`Fast`] composes and converts sets by such tables, a nibble at a time.
//! - [`Tables`] composes one set with 16 others at once: the 16 entries for a nibble are a vector, which a shuffle
//!   reads at 16 places. It says which of 16 sets aren't within their compositions; who closes a network looks at those
//!   alone.
//! - [`or_rows`], [`first_difference`] and [`first_zero`] are loops over words, several words at a time.
#![tactic(auto)]

mod fast;
mod kernels;
mod members;
mod nibbles;
mod room;
mod tables;
mod vectors;

pub use fast::Fast;
pub use kernels::{first_difference, first_zero, or_rows};
pub use members::without;
pub use room::{clear_to, filled, with_room};
pub use tables::{SetTable, Tables, put_set};
