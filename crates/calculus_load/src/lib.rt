//! Table files: the canonical text of a calculus, and reading it.
//!
//! ```text
//! names ( < = > )          the base relations, in their order
//! identity =
//! < :: >                   the converse of each
//! < : = :: ( < )           the composition of each pair
//! ..
//! .                        the end
//! ```
//!
//! ```text
//! let c = calculus_load::read(alloc, bytes)?;
//! let text = calculus_load::text(alloc, &c)?;
//! ```
#![tactic(auto)]

mod draft;
mod fault;
mod forms;
mod laws;
mod names;
mod reading;
mod statement;
mod writing;

pub use fault::LoadFault;
pub use laws::{load_is_one, printed_table_is_read};
pub use reading::read;
pub use writing::text;
