//! Certificates: what a search found out about a network, as a line of JSON that anyone can check.
//!
//! ```text
//! {"nodes":2,"relations":["id","a","b"],"scenario":[1],"tree":[["found"]],"verdict":"yes","version":1}
//! ```
//!
//! | Key | Value |
//! |---|---|
//! | `nodes` | the number of nodes of the network |
//! | `relations` | the names of the base relations |
//! | `verdict` | `"yes"`: there is a scenario; `"no"`: there is none; `"budget"`: the search was given up |
//! | `scenario` | where the verdict is yes, a base number for each edge |
//! | `tree` | the nodes of the tree of splits, in preorder |
//! | `version` | 1, or 2 where nodes have steps |
//!
//! A node is `["empty"]`, `["found"]`, `["open"]`, `["later"]` or `["split",I,J,[PARTS],[CHILDREN]]`. In version 2 the
//! steps come last in `empty` and in `split`: `"sweep"`, or a list of `[I,J,K]`. Reading asks for the forms alone:
//! whether the certificate shows what it claims is for `scenario::check` and `refutation::check` to say.
//!
//! ```text
//! let cert = cert_file::read(alloc, bytes)?;
//! let text = cert_file::text(alloc, &cert)?;
//! ```
#![tactic(auto)]

mod claim;
mod entries;
mod fault;
mod fields;
mod json_values;
mod laws;
mod nodes;
mod reading;
mod writing;

pub use claim::{Cert, Claim};
pub use fault::CertFault;
pub use laws::laws_of_certificates;
pub use reading::read;
pub use writing::text;
