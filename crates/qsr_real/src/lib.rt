//! The real outside: the standard streams, and the files of the machine by their names. Each object counts its errors
//! and tells nothing of its bytes, since no contract can say what a real stream or file holds. This is the trusted
//! edge.
#![tactic(auto)]

mod files;
mod streams;

pub use files::FileShelf;
pub use streams::{StdSink, StdSource};
