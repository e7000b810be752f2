//! Network files: reading them, and the canonical text of a network.
//!
//! ```text
//! nodes 3                  the number of nodes
//! names ( a b c )          their names, or no such line
//! 0 1 ( DC EC )            the relation of two nodes, by numbers from 0 or by names, as often as wanted
//! b c ( NTPP )
//! .                        the end
//! ```
//!
//! ```text
//! let net = network_file::read(alloc, bytes, &c)?;
//! let text = network_file::text(alloc, &net, &c)?;
//! ```
#![tactic(auto)]

mod facts;
mod fault;
mod forms;
mod laws;
mod reading;
mod writing;

pub use fault::FileFault;
pub use laws::{file_has_one_answer, file_is_of_one_network, printed_network_is_read};
pub use reading::read;
pub use writing::text;
