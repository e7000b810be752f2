//! The words of a network that many threads narrow at once, without a lock.
#![tactic(auto)]

mod closed;
mod open_net;
mod pass;
mod plays;
mod rule;
mod sight;
mod snapshot;
mod words;

pub use closed::ClosedTable;
pub use open_net::{OpenNet, open};
pub use pass::Pass;
pub use rule::{EdgeRule, Opening};
pub use sight::Sight;
pub use snapshot::Snapshot;

/// The greatest weight that a table may be opened with.
pub const MAX_WEIGHT: u32 = 65_536;
