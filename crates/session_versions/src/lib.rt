//! Versions of the facts that sessions state and withdraw, each with the algebraic closure of the network that they
//! make.
//!
//! A session's batch begins with a draft of the newest version's facts, takes facts out of it and puts new ones in, and
//! ends as one version. The newest sixteen versions are kept, and what was true at a version is a look-up:
//!
//! ```text
//! let mut store = Store::new(alloc, 3, &c)?;
//! let mut draft = store.draft()?;
//! let number = draft.add("town", fact)?;
//! let version = store.commit(draft, net);      // `net` is the closure of the network of the draft's facts
//! store.ask(&c, version, 0, 2)
//! ```
#![tactic(auto)]

mod draft;
mod held;
mod laws;
mod store;
mod version;

pub use draft::{Draft, WithdrawFault};
pub use held::{Held, facts_alone};
pub use laws::laws_of_versions;
pub use store::{AskFault, Store};
pub use version::Version;

/// How many versions are kept.
pub const KEPT_VERSIONS: u64 = 16;
