//! From bytes to lines and tokens.
//!
//! A line ends with an LF, and a CR in front of the LF belongs to the line's end. `#` begins a comment, which lasts to
//! the line's end and may hold any bytes. What stands before is cut into tokens from the left: `(`, `)`, `,`, `::`,
//! `:`, and words, the longest runs of bytes that are neither blank nor one of these marks nor `#`.
//!
//! `first_line` goes over a line once: up to the first byte that is `#` or not allowed outside comments, 16 bytes at a
//! time (`plain.rt`). That byte is the line's end, or a comment, which is passed over, or the line can't be read. Each
//! byte of a token is read once more where it is cut, by one look-up in a table (`bytes.rt`). Every loop goes forward
//! through the text, so its end is in sight and the time is linear in its length; only `lines`, which returns all
//! tokens at once, takes memory.
ghost use Rattle.std.specs.Prelude.{◌≡◌, ◌≤◌, ◌<◌, ◌+◌, ◌++◌, length, IfOk, IfSome, OnOk, IfErr, MatchOption};
ghost use Rattle.std.specs.Prelude.{MatchResult, Some, None, false, if◌then◌else◌};
ghost use Rattle.qsr_lex.specs.declared.tokens.TokenKind.TheVariants.{Colon, Colons};
ghost use Rattle.std.specs.List.{prefix_len};
ghost use Rattle.qsr_lex.specs.Bytes.{is_word_byte};
ghost use Rattle.qsr_lex.specs.TextLines.{line_count, first_line, first_line_len, after_end, is_clean, bad_line};
ghost use Rattle.qsr_lex.specs.TextLines.{IsFirstLine};
ghost use Rattle.qsr_lex.specs.Lexemes.{starts_with_colon, tail_len, kind_of};
ghost use Rattle.qsr_lex.specs.Tokens.{token_here, tokens_after, tokens_of, token_bytes, shown_bytes, AreApart};
ghost use Rattle.qsr_lex.specs.TokenLines.{by_line, token_lines};
ghost use Rattle.qsr_lex.specs.Stops.{IsStopOf};
ghost use Rattle.qsr_lex.specs.declared.TheConstants.{MAX_TEXT};

use crate::bytes::{is_blank, is_word_byte};
use crate::plain::plain_len;
use crate::tokens::{LexStop, Lines, Token, TokenKind};
use std::alloc::{AllocError, Global};

/// A first line that can be read, and the text after it.
#[derive(Clone, Copy, Debug, PartialEq, Eq)]
pub struct FirstLine<'a> {
    /// What of the line stands outside its comment, without its end.
    pub part: &'a [u8],
    /// What stands after the line.
    pub after: &'a [u8],
}

/// The tokens of a text of at most `MAX_TEXT` bytes, and the number of its lines.
pub fn lines(alloc: Global, bytes: &[u8]) -> Result<Lines, LexStop>
    requires { length bytes.now ≤ MAX_TEXT }
    // There are tokens only where no line has a byte outside comments that isn't allowed there.
    ensures allowed { OnOk result (bad_line bytes.now ≡ None) }
    ensures tokens { IfOk result (λ lines. lines.tokens.items ≡ tokens_of bytes.now) }
    // Each token is the slice from its start to its end, and none of these slices overlap.
    ensures apart { IfOk result (λ lines. AreApart 0 lines.tokens.items (length bytes.now)) }
    // No byte is lost: the tokens have those that stand outside comments, without the blanks.
    ensures shown { IfOk result (λ lines.
        token_bytes bytes.now lines.tokens.items ≡ shown_bytes bytes.now) }
    // Line by line, they are the tokens of the lines.
    ensures lines { IfOk result (λ lines.
        by_line bytes.now lines.tokens.items ≡ token_lines bytes.now) }
    ensures count { IfOk result (λ lines. lines.count ≡ line_count bytes.now) }

    // The first line with such a byte is the one that is named.
    ensures stop { IfErr result (IsStopOf bytes.now) }
{
    let mut tokens = Vec::new(alloc);
    let mut count = 0;
    let mut rest = bytes;
    while !rest.is_empty() {
        let line = count + 1;
        let Some(first) = first_line(rest) else {
            return Err(LexStop::BadByte { line });
        };
        let start = bytes.len() - rest.len();
        add_tokens(&mut tokens, line, start, first.part).map_err(|_| LexStop::Memory)?;
        count = line;
        rest = first.after;
    }
    Ok(Lines { tokens, count })
}

/// The first line of a text, unless it has a byte outside its comment that isn't allowed there.
pub fn first_line(text: &[u8]) -> Option<FirstLine<'_>>
    ensures cut { MatchOption result (is_clean (first_line text.now) ≡ false)
        (λ first. IsFirstLine text.now first.part.now first.after.now) }
    ensures lengths { IfSome result (λ first.
        length first.part.now + length first.after.now ≤ length text.now) }
    ensures shorter { IfSome result (λ first.
        0 < length text.now → length first.after.now < length text.now) }
{
    let (part, end) = text.split_at(plain_len(text));
    let after = after_end(end)?;
    Some(FirstLine { part, after })
}

/// What stands after the end of a line that begins here, with a comment before it or without.
fn after_end(end: &[u8]) -> Option<&[u8]>
    ensures { MatchOption result (after_end end.now ≡ None)
        (λ after. after_end end.now ≡ Some after.now) }
{
    match end {
        [] => Some(end),
        [b'\n', after @ ..] => Some(after),
        [b'\r', b'\n', after @ ..] => Some(after),
        [b'#', ..] => {
            let (_, after) = end.split_at(first_line_len(end));
            Some(after)
        }
        _ => None,
    }
}

/// How many bytes the first line has, with its LF.
fn first_line_len(text: &[u8]) -> usize
    ensures value { result ≡ first_line_len text.now }
    ensures bound { result ≤ length text.now }
{
    for (index, byte) in text.iter().enumerate() {
        if *byte == b'\n' {
            return index + 1;
        }
    }
    text.len()
}

/// Adds the tokens of a part of a line that begins at an offset.
fn add_tokens(
    tokens: &mut Vec<Token>,
    line: u32,
    mut start: usize,
    part: &[u8],
) -> Result<(), AllocError>
    requires { start + length part.now ≤ MAX_TEXT }
    ensures { OnOk result
        (tokens.new.items ≡ tokens.old.items ++ tokens_after line start 0 part.now) }
{
    let mut rest = part;
    while !rest.is_empty() {
        let length = add_token(tokens, line, start, rest)?;
        let (_, after) = rest.split_at(length);
        start += length;
        rest = after;
    }
    Ok(())
}

/// Adds the token that begins with the first byte, if that is no blank, and returns how many bytes it
/// has.
fn add_token(
    tokens: &mut Vec<Token>,
    line: u32,
    start: usize,
    bytes: &[u8],
) -> Result<usize, AllocError>
    requires some { 0 < length bytes.now }
    requires room { start + length bytes.now ≤ MAX_TEXT }
    ensures taken { IfOk result (λ taken. taken ≡ 1 + tail_len bytes.now) }
    ensures bound { IfOk result (λ taken. taken ≤ length bytes.now) }
    ensures added { OnOk result
        (tokens.new.items ≡ tokens.old.items ++ token_here line start bytes.now) }
{
    let length = 1 + tail_len(bytes);
    if !is_blank(bytes[0]) {
        tokens.push(Token {
            line,
            start,
            end: start + length,
            kind: kind_of(bytes),
        })?;
    }
    Ok(length)
}

/// How many bytes after the first one belong to the token at the front.
#[inline(always)]
pub(crate) fn tail_len(bytes: &[u8]) -> usize
    ensures value { result ≡ tail_len bytes.now }
    ensures bound { 0 < length bytes.now → result < length bytes.now }
{
    match bytes {
        [] => 0,
        [first, rest @ ..] => {
            if is_word_byte(*first) {
                word_len(rest)
            } else if *first == b':' && starts_with_colon(rest) {
                1
            } else {
                0
            }
        }
    }
}

/// What the token at the front is.
#[inline(always)]
pub(crate) fn kind_of(bytes: &[u8]) -> TokenKind
    ensures { result ≡ kind_of bytes.now }
{
    match bytes {
        [] => TokenKind::Word,
        [b'(', ..] => TokenKind::Open,
        [b')', ..] => TokenKind::Close,
        [b',', ..] => TokenKind::Comma,
        [b':', rest @ ..] => colon_kind(rest),
        [b'.', rest @ ..] if word_len(rest) == 0 => TokenKind::Stop,
        _ => TokenKind::Word,
    }
}

/// What a token is that begins with a colon, which these bytes follow.
fn colon_kind(rest: &[u8]) -> TokenKind
    ensures { result ≡ (if starts_with_colon rest.now then Colons else Colon) }
{
    if starts_with_colon(rest) {
        TokenKind::Colons
    } else {
        TokenKind::Colon
    }
}

/// Whether a colon is next.
fn starts_with_colon(bytes: &[u8]) -> bool
    ensures { result ≡ starts_with_colon bytes.now }
{
    match bytes {
        [] => false,
        [first, ..] => *first == b':',
    }
}

/// How many bytes of a word a text begins with.
fn word_len(bytes: &[u8]) -> usize
    ensures value { result ≡ prefix_len is_word_byte bytes.now }
    ensures bound { result ≤ length bytes.now }
{
    bytes.iter().take_while(|byte| is_word_byte(**byte)).count()
}
