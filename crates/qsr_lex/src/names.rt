//! The words that may name something: a relation, a node, a polygon or a session.
ghost use Rattle.std.specs.Prelude.{◌≡◌, true};
ghost use Rattle.std.specs.List.{list_all};
ghost use Rattle.qsr_lex.specs.Names.{is_name, is_name_byte, starts_with_digit, is_end_mark};

use crate::LONGEST_NAME;
use crate::bytes::{is_plain, is_word_byte};

/// Whether a text is a name: a word of 1 to `LONGEST_NAME` bytes without `"` and `\`, whose first byte
/// isn't a digit, and which isn't `.`.
pub fn is_name(text: &[u8]) -> bool
    ensures { result ≡ is_name text.now }
{
    !text.is_empty()
        && text.len() <= LONGEST_NAME
        && are_name_bytes(text)
        && !starts_with_digit(text)
        && !is_end_mark(text)
}

/// The text of a name, which is ASCII.
pub fn name_text(name: &[u8]) -> &str
    requires { is_name name.now ≡ true }
    ensures { result.now ≡ name.now }
{
    match str::from_utf8(name) {
        Ok(text) => text,
        Err(_) => unreachable!(),
    }
}

/// Whether each byte may stand in a name.
fn are_name_bytes(text: &[u8]) -> bool
    ensures { result ≡ list_all is_name_byte text.now }
{
    text.iter().all(|byte| is_name_byte(*byte))
}

/// Whether a text begins with a digit.
fn starts_with_digit(text: &[u8]) -> bool
    ensures { result ≡ starts_with_digit text.now }
{
    match text {
        [] => false,
        [first, ..] => first.is_ascii_digit(),
    }
}

/// Whether a byte may stand in a name.
fn is_name_byte(byte: u8) -> bool
    ensures { result ≡ is_name_byte byte }
{
    is_plain(byte) && is_word_byte(byte) && byte != b'"' && byte != b'\\'
}

/// Whether a word is a single dot.
fn is_end_mark(text: &[u8]) -> bool
    ensures { result ≡ is_end_mark text.now }
{
    match text {
        [only] => *only == b'.',
        _ => false,
    }
}
