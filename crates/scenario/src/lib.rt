//! Scenarios of a network: one base relation for each edge, checked against the network and the calculus, and
//! written into a network.
//!
//! A scenario is what shows that the statements of a network can hold together: where every pair of things has one of
//! the relations that the network leaves it, and the relations agree along every third thing (Renz and Nebel). So
//! whoever is handed one needs to trust nobody's search:
//!
//! ```text
//! match check(&net, &c, &scenario) {
//!     Ok(()) => ..                        // it is a scenario of the network
//!     Err(At::Triple { i, j, k }) => ..   // the first triple that doesn't compose
//!     Err(fault) => ..
//! }
//! make_atomic(&mut net, &scenario);       // each edge is left its base relation alone
//! ```
#![tactic(auto)]

mod atomic;
mod checking;
mod edges;
mod entries;
mod laws;
mod triples;

pub use atomic::make_atomic;
pub use checking::{At, Scenario, check};
pub use laws::laws_of_scenario_faults;
