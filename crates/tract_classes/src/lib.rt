//! Classes of relations, which guide a search.
//!
//! Closing a network decides it where each of its sets is in a tractable class, such as H8, C8 and Q8 of RCC-8 (Renz
//! and Nebel 1999) or ORD-Horn of Allen's algebra (Nebel and Bürckert 1995). So a search needs to split a set only into
//! parts that are members, and not into single base relations. No proof rests on that theorem here: a class is any set
//! of sets, and a search that splits by it is right whatever the class is.
//!
//! ```text
//! let class = h8(alloc)?;                     // or `load`, of a file of one's own
//! class.has(rel)
//! parts(alloc, &class, rel)?                  // members that together make up the set
//! ```
//!
//! A class can be tested for any calculus: [`is_closed`] tells whether it has each base relation and is closed under
//! the operations, and [`is_straight`] whether the least base relations of its members agree, so that a scenario can be
//! read off a closed network (Renz 1999). H8 and Q8 are straight, and C8 isn't.
#![tactic(auto)]

mod built_in;
mod class;
mod closed;
mod compositions;
mod fault;
mod generators;
mod laws;
mod loading;
mod meets;
mod pairs;
mod partition;
mod rows;
mod sorted;
mod straight;

pub use built_in::{c8, h8, none, q8};
pub use class::Class;
pub use closed::{are_sets_of, is_closed};
pub use fault::{COMPOSITION, CONVERSE, ClassFault, MEET};
pub use laws::{class_file_has_one_answer, laws_of_built_in_classes, laws_of_parts};
pub use loading::load;
pub use partition::parts;
pub use straight::is_straight;

/// The most members that a class may have, the empty relation among them.
pub const MAX_MEMBERS: usize = 1024;
