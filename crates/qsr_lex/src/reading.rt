//! The tokens of a line, one after another.
//!
//! A `TokenReader` stands over the bytes of a line that are left, and cuts a token only when it is asked for it: it
//! passes over blanks, and takes the longest run of bytes that make one token. So a line takes no memory, each of its
//! bytes is read once where the tokens are of the kind that is asked for, and a reader that gives up goes no further.
//! Each token has a byte at least, so whoever takes tokens until none is left comes to the end.
ghost use Rattle.std.specs.Prelude.{◌≡◌, ◌≢◌, ◌≤◌, ◌↔◌, [], ◌∷◌, length, None, Some, MatchOption};
ghost use Rattle.std.specs.Prelude.{MatchBool, IsTrue, IfOk, IfSome, All};
ghost use Rattle.std.specs.Prelude.{true, false, IsErrOf, map};
ghost use Rattle.std.specs.List.{prefix_len};
ghost use Rattle.qsr_lex.specs.Bytes.{is_blank};
ghost use Rattle.qsr_lex.specs.Names.{is_name};
ghost use Rattle.qsr_lex.specs.Lexemes.{lexemes, lexeme_with, starts_with_blank};
ghost use Rattle.qsr_lex.specs.LineTokens.{word_at, name_at, names_at, after_kind, after_word, is_end_line};
ghost use Rattle.qsr_lex.specs.LineTokens.{is_same_kind, is_name_token, is_word_token, names_until_close};
ghost use Rattle.qsr_lex.specs.ManyNames.{AreClosedNames, AreMoreNames};

use crate::bytes::is_blank;
use crate::names::is_name;
use crate::scan::{kind_of, tail_len};
use crate::tokens::{LineToken, TokenKind};
use std::alloc::Global;
use std::marker::Model;

/// The tokens of a line, from the next one on.
#[derive(Drop)]
pub struct TokenReader<'a> {
    part: &'a [u8],
}

/// Why no names were read.
#[derive(Clone, Copy, Debug, PartialEq, Eq)]
pub enum NamesFault {
    /// No names in brackets stand there.
    Form,
    /// More names in brackets stand there than may.
    TooMany,
    /// Out of memory.
    Memory,
}

impl<'a> Model for TokenReader<'a> {
    ghost use Rattle.std.specs.Prelude.{List};
    ghost use Rattle.qsr_lex.specs.Lexemes.{Lexeme, lexemes};

    ghost Value = { List Lexeme };

    ghost view = { λ r. lexemes r.part.now };
}

impl<'a> TokenReader<'a> {
    /// A reader in front of the first token of a part of a line.
    pub fn new(part: &'a [u8]) -> Self
        ensures { result ≡ lexemes part.now }
    {
        TokenReader { part }
    }

    /// Returns the next token and moves past it.
    #[inline(always)]
    pub fn next(&mut self) -> Option<LineToken<'a>>
        ensures { MatchOption result ((self.old ≡ []) × (self.new ≡ []))
            (λ token. self.old ≡ lexeme_with token.kind token.text.now ∷ self.new) }
    {
        let first = first_token(self.part)?;
        self.part = first.after;
        Some(first.token)
    }

    /// Whether no token is left.
    pub fn is_empty(&self) -> bool
        ensures { IsTrue result ↔ (self.now ≡ []) }
    {
        first_token(self.part).is_none()
    }

    /// Whether `.` alone is left.
    pub fn is_end_line(&self) -> bool
        ensures { result ≡ is_end_line self.now }
    {
        match first_token(self.part) {
            Some(first) if is_same_kind(first.token.kind, TokenKind::Stop) => {
                first_token(first.after).is_none()
            }
            _ => false,
        }
    }

    /// Returns the next token's text and moves past it, if it is a word.
    #[inline(always)]
    pub fn word(&mut self) -> Option<&'a [u8]>
        ensures { MatchOption result ((word_at self.old ≡ None) × (self.new ≡ self.old))
            (λ text. word_at self.old ≡ Some (text.now, self.new)) }
    {
        match first_token(self.part) {
            Some(first) if is_same_kind(first.token.kind, TokenKind::Word) => {
                self.part = first.after;
                Some(first.token.text)
            }
            _ => None,
        }
    }

    /// Returns the next token's text and moves past it, if it is a name.
    #[inline(always)]
    pub fn name(&mut self) -> Option<&'a [u8]>
        ensures found { MatchOption result ((name_at self.old ≡ None) × (self.new ≡ self.old))
            (λ text. name_at self.old ≡ Some (text.now, self.new)) }
        ensures is_name { IfSome result (λ text. is_name text.now ≡ true) }
    {
        match first_token(self.part) {
            Some(first) if is_name_token(&first.token) => {
                self.part = first.after;
                Some(first.token.text)
            }
            _ => None,
        }
    }

    /// Moves past the next token if it is this word, and returns whether it is.
    pub fn take_word(&mut self, text: &[u8]) -> bool
        ensures { MatchBool result (after_word text.now self.old ≡ Some self.new)
            ((after_word text.now self.old ≡ None) × (self.new ≡ self.old)) }
    {
        match first_token(self.part) {
            Some(first) if is_word_token(&first.token, text) => {
                self.part = first.after;
                true
            }
            _ => false,
        }
    }

    /// Moves past the next token if it is of this kind, and returns whether it is.
    #[inline(always)]
    pub fn take_kind(&mut self, kind: TokenKind) -> bool
        ensures { MatchBool result (after_kind kind self.old ≡ Some self.new)
            ((after_kind kind self.old ≡ None) × (self.new ≡ self.old)) }
    {
        match first_token(self.part) {
            Some(first) if is_same_kind(first.token.kind, kind) => {
                self.part = first.after;
                true
            }
            _ => false,
        }
    }

    /// Returns the names of a set of names in brackets and moves past it, where they are at most so
    /// many. More of them are moved past, but not listed, so that they take no memory. After another
    /// error the reader stands somewhere in the line.
    pub fn names(&mut self, alloc: Global, most: usize) -> Result<Vec<&'a [u8]>, NamesFault>
        ensures names { IfOk result (λ names.
            names_at self.old ≡ Some (map (λ name. name.now) names.items, self.new)) }
        ensures few { IfOk result (λ names. length names.items ≤ most) }
        ensures each { IfOk result (λ names. All (λ name. is_name name.now ≡ true) names.items) }
        ensures form { IsErrOf result NamesFault.Form → names_at self.old ≡ None }
        ensures many { IsErrOf result NamesFault.TooMany → AreMoreNames most self.old self.new }
    {
        if !self.take_kind(TokenKind::Open) {
            return Err(NamesFault::Form);
        }
        let mut names = Vec::new(alloc);
        while !self.take_kind(TokenKind::Close) {
            let Some(name) = self.name() else {
                return Err(NamesFault::Form);
            };
            if names.len() == most {
                return Err(self.more_names());
            }
            names.push(name).map_err(|_| NamesFault::Memory)?;
        }
        Ok(names)
    }

    /// Moves past names up to a closing bracket. Where they stand there they are too many.
    fn more_names(&mut self) -> NamesFault
        ensures form { result ≡ NamesFault.Form → names_until_close self.old ≡ None }
        ensures many { result ≡ NamesFault.TooMany → AreClosedNames self.old self.new }
        ensures taken { result ≢ NamesFault.Memory }
    {
        while !self.take_kind(TokenKind::Close) {
            let Some(_) = self.name() else {
                return NamesFault::Form;
            };
        }
        NamesFault::TooMany
    }
}

/// The first token of a part of a line, and the bytes after it.
#[derive(Clone, Copy)]
struct FirstToken<'a> {
    token: LineToken<'a>,
    after: &'a [u8],
}

/// The first token, where there is one. Inlined, so that a caller who asks for one kind of token reads
/// no other to its end.
#[inline(always)]
fn first_token(part: &[u8]) -> Option<FirstToken<'_>>
    ensures { MatchOption result (lexemes part.now ≡ []) (λ first.
        lexemes part.now ≡ lexeme_with first.token.kind first.token.text.now ∷ lexemes first.after.now) }
{
    let front = from_token(part);
    if front.is_empty() {
        return None;
    }
    let kind = kind_of(front);
    let (text, after) = front.split_at(1 + tail_len(front));
    Some(FirstToken {
        token: LineToken { kind, text },
        after,
    })
}

/// What stands after the blanks at the front.
#[inline(always)]
fn from_token(part: &[u8]) -> &[u8]
    ensures tokens { lexemes result.now ≡ lexemes part.now }
    ensures first { starts_with_blank result.now ≡ false }
{
    let (_, front) = part.split_at(blank_len(part));
    front
}

/// How many blanks a text begins with.
fn blank_len(text: &[u8]) -> usize
    ensures { result ≡ prefix_len is_blank text.now }
{
    text.iter().take_while(|byte| is_blank(**byte)).count()
}

/// Whether a token is a name.
fn is_name_token(token: &LineToken<'_>) -> bool
    ensures { result ≡ is_name_token (lexeme_with token.now.kind token.now.text.now) }
{
    is_same_kind(token.kind, TokenKind::Word) && is_name(token.text)
}

/// Whether a token is this word.
fn is_word_token(token: &LineToken<'_>, text: &[u8]) -> bool
    ensures { result ≡ is_word_token text.now (lexeme_with token.now.kind token.now.text.now) }
{
    is_same_kind(token.kind, TokenKind::Word) && token.text == text
}

/// Whether two kinds are the same.
fn is_same_kind(left: TokenKind, right: TokenKind) -> bool
    ensures { result ≡ is_same_kind left right }
{
    left == right
}
