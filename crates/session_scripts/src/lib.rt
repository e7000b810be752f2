//! Scripts of the commands of sessions that use one network, cut into batches.
//!
//! ```text
//! let mut reader = ScriptReader::new(alloc, limit)?;
//! let batch = reader.next(&mut source, &c, nodes)?;     // `a assert 0 1 ( TPP )`, .. up to `commit`
//! ```
#![tactic(auto)]

mod batch;
mod commands;
mod input;
mod laws;
mod reader;
mod reading;

pub use batch::{Batch, Line, What};
pub use laws::limits_of_scripts;
pub use reader::ScriptReader;

/// The most bytes of a command line, without its end.
pub const LONGEST_LINE: usize = 4096;

/// The most command lines of a batch.
pub const MOST_LINES: usize = 4096;

/// The most sessions of a batch.
pub const MOST_SESSIONS: usize = 64;

/// How many bytes of a script are read at once. Fewer than so many are taken after a `commit`.
pub const PIECE: usize = 4096;
