//! What the lines of a batch do to the facts of a store, and the text that answers them.
//!
//! ```text
//! let mut draft = store.draft()?;
//! let faults = withdraw_all(alloc, &mut draft, &batch)?;                              // first what is withdrawn,
//! add_all(&mut draft, &batch)?;                                                       // and then what is stated
//! let text = replies(alloc, &batch, &faults, &shown, &store, &net, names, &c)?;       // `a fact 1`, .. `version 1 ..`
//! ```
#![tactic(auto)]

mod drafts;
mod reply;

pub use drafts::{add_all, withdraw_all};
pub use reply::replies;
