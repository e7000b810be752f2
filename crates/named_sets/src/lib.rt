//! Sets of base relations in texts: read and written by the names of their members.
//!
//! ```text
//! let bases = BaseNames::new(c.names());
//! read_set(&mut tokens, &bases)            // of `( < > )`: the set of < and >
//! let mut sets = SetWriter::new(alloc, &c)?;
//! sets.push_line(&mut text, set)?;         // appends `( < > )` and an LF
//! ```
#![tactic(auto)]

mod base_names;
mod laws;
mod reading;
mod writing;

pub use base_names::BaseNames;
pub use laws::written_set_is_read;
pub use reading::read_set;
pub use writing::SetWriter;
