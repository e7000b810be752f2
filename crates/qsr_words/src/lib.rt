//! What the words of the command line ask for.
//!
//! The first word names the command, and the words of each command are read with `clap`, by one simple command of its
//! own: positional words in their order, and options anywhere after the command's name, each at most once, as `--name
//! VALUE` or `--name=VALUE`. Which words such a command takes, and with which values, `clap` states as a function of
//! the words; `asked_by` is defined by that function. Words that ask for nothing have the usage line.
#![tactic(auto)]

mod check;
mod close;
mod command;
mod demo;
mod intervals;
mod minimal;
mod reading;
mod relate;
mod scene;
mod serve;
mod solve;
mod values;

pub use check::Check;
pub use close::Close;
pub use demo::Demo;
pub use intervals::Intervals;
pub use minimal::Minimal;
pub use reading::{Request, read};
pub use relate::Relate;
pub use scene::Scene;
pub use serve::Serve;
pub use solve::Solve;

/// The least number of workers that a command takes.
pub const MIN_WORKERS: u32 = 1;

/// The greatest number of workers that a command takes.
pub const MAX_WORKERS: u32 = 64;

/// The number of workers beside sessions where the words name none, and of those that share other work.
pub const USUAL_WORKERS: u32 = 4;

/// The greatest budget of splits that a command takes.
pub const MAX_BUDGET: u32 = 10_000;

/// The budget of splits where the words name none.
pub const USUAL_BUDGET: u32 = 1_000;

/// The greatest seed of a demonstration.
pub const MAX_SEED: u32 = 4_294_967_295;

/// The least number of nodes of a demonstration.
pub const MIN_DEMO_NODES: u32 = 2;

/// The greatest number of nodes of a demonstration.
pub const MAX_DEMO_NODES: u32 = 256;

/// The least number of nodes of the network that sessions use.
pub const MIN_SERVED_NODES: u32 = 1;

/// The greatest number of nodes of the network that sessions use.
pub const MAX_SERVED_NODES: u32 = 256;
