//! The lines and tokens of a text, and its numbers and names.
//!
//! A text is cut into lines, and what of a line stands outside its comment into tokens: brackets, commas, colons and
//! words. `lines` returns all tokens of a text at once. A reader of files goes from line to line with `first_line`, and
//! from token to token with a `TokenReader`, which cuts a token when it is asked for it:
//!
//! ```text
//! let mut tokens = TokenReader::new(b"names ( A B )");
//! tokens.take_word(b"names");          // true
//! tokens.names(alloc, 2)?;             // A and B, and no more than 2
//! tokens.is_empty();                   // true
//! ```
#![tactic(auto)]

mod bytes;
mod laws;
mod names;
mod numbers;
mod plain;
mod reading;
mod scan;
mod tokens;

pub use laws::{
    limits_of_texts, printed_name_is_read, printed_number_is_read, printed_set_is_read,
    printed_text_is_read,
};
pub use names::{is_name, name_text};
pub use numbers::{number, signed};
pub use reading::{NamesFault, TokenReader};
pub use scan::{FirstLine, first_line, lines};
pub use tokens::{LexStop, LineToken, Lines, Token, TokenKind};

/// The most bytes of a text that is read.
pub const MAX_TEXT: usize = 16_777_216;

/// The most bytes of a name.
pub const LONGEST_NAME: usize = 64;

/// The most digits of a number.
pub const MOST_DIGITS: usize = 18;
