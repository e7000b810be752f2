//! The batches of scripts of sessions, run over the versions of one network.
//!
//! ```text
//! let mut store = Store::new(alloc, nodes, &c)?;
//! let text = run_batch(rt, alloc, &mut store, &batch, &c, &fast, workers, gate)?;     // `a fact 1`, .. `version 1 ..`
//! ```
#![tactic(auto)]

mod dealing;
mod opening;
mod run;

pub use run::run_batch;
