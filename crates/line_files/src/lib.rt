//! Files that are read line by line: the lines that have tokens, up to one that can't be read or the end of the text.
//!
//! ```text
//! let mut lines = FileLines::new(bytes);
//! while let Some(TextLine { number, tokens }) = lines.next_line() { .. }
//! lines.end()      // a line with a byte that isn't allowed, or the end of the text
//! ```
#![tactic(auto)]

mod laws;
mod lines;
mod names;

pub use laws::{file_text_is_of_readable_lines, printed_lines_are_read};
pub use lines::{FileLines, TextEnd, TextLine};
pub use names::owned_names;
