//! The lines of a text, as a reader of files goes over them.
//!
//! A reader takes the lines that have tokens in order, and its first faulty line decides. So a line with a byte that
//! isn't allowed is a fault only where it is reached: `FileLines` cuts a line when it is asked for the next one, passes
//! over lines without tokens, and stops in front of a line that can't be read. It takes no memory, and goes over each
//! byte once.
ghost use Rattle.std.specs.Prelude.{◌≡◌, ◌≤◌, [], ◌∷◌, drop, length, None, Some, MatchOption};
ghost use Rattle.qsr_lex.specs.TokenLines.{token_line};
ghost use Rattle.qsr_lex.specs.declared.TheConstants.{MAX_TEXT};
ghost use Rattle.line_files.specs.FileText.{file_text, line_of, extra_line, IsEndWithin};

use qsr_lex::{TokenReader, first_line};
use std::marker::Model;

/// What stands after the lines of a text that can be read.
#[derive(Clone, Copy, Debug, PartialEq, Eq)]
pub enum TextEnd {
    /// A line with a byte outside comments that isn't allowed there.
    BadLine {
        /// Its number, from 1.
        line: u32,
    },
    /// The end of the text, after all its lines.
    Whole {
        /// How many lines there are, those without tokens too.
        lines: u32,
    },
}

/// A line that has tokens.
#[derive(Drop)]
pub struct TextLine<'a> {
    /// Its number, from 1.
    pub number: u32,
    /// Its tokens.
    pub tokens: TokenReader<'a>,
}

/// The lines of a text that are left.
#[derive(Drop)]
pub struct FileLines<'a> {
    text: &'a [u8],
    count: u32,
}

impl<'a> Model for FileLines<'a> {
    ghost use Rattle.std.specs.Prelude.{◌+◌, ◌≤◌, length};
    ghost use Rattle.qsr_lex.specs.TextLines.{text_lines};
    ghost use Rattle.qsr_lex.specs.declared.TheConstants.{MAX_TEXT};
    ghost use Rattle.line_files.specs.FileText.{FileText, file_text_from};

    ghost Value = { FileText };

    ghost view = { λ r. file_text_from r.count (text_lines r.text.now) };

    ghost invariant = { λ r. r.count + length r.text.now ≤ MAX_TEXT };
}

impl<'a> FileLines<'a> {
    /// A reader in front of the first line of a text of at most `MAX_TEXT` bytes.
    pub fn new(bytes: &'a [u8]) -> Self
        requires { length bytes.now ≤ MAX_TEXT }
        ensures { result ≡ file_text bytes.now }
    {
        FileLines {
            text: bytes,
            count: 0,
        }
    }

    /// Returns the next line that has tokens and moves past it. There is none where the text ends, and
    /// in front of a line that can't be read.
    pub fn next_line(&mut self) -> Option<TextLine<'a>>
        ensures lines { MatchOption result ((self.old.lines ≡ []) × (self.new ≡ self.old))
            (λ line. self.old.lines ≡ token_line line.number line.tokens ∷ self.new.lines) }
        ensures end { self.new.end ≡ self.old.end }
    {
        while !self.text.is_empty() {
            let first = first_line(self.text)?;
            self.count += 1;
            self.text = first.after;
            let tokens = TokenReader::new(first.part);
            if !tokens.is_empty() {
                return Some(TextLine {
                    number: self.count,
                    tokens,
                });
            }
        }
        None
    }

    /// Returns the next line that has tokens and moves past it, if it begins with this word. Its tokens
    /// are then those after the word.
    pub fn next_line_of(&mut self, word: &[u8]) -> Option<TextLine<'a>>
        ensures lines { MatchOption result
            ((line_of word.now self.old.lines ≡ None) × (self.new ≡ self.old))
            (λ line. line_of word.now self.old.lines
            ≡ Some (token_line line.number line.tokens, self.new.lines)) }
        ensures end { self.new.end ≡ self.old.end }
    {
        let before = self.copy();
        if let Some(mut line) = self.next_line()
            && line.tokens.take_word(word)
        {
            return Some(line);
        }
        *self = before;
        None
    }

    /// What stands after the lines that can be read.
    pub fn end(&self) -> TextEnd
        ensures value { result ≡ self.now.end }
        ensures few { IsEndWithin result }
    {
        let mut text = self.text;
        let mut count = self.count;
        while !text.is_empty() {
            let line = count + 1;
            let Some(first) = first_line(text) else {
                return TextEnd::BadLine { line };
            };
            count = line;
            text = first.after;
        }
        TextEnd::Whole { lines: count }
    }

    /// The number of the next line that has tokens or can't be read, where there is one. After an end
    /// line there may be none. A line that has tokens is moved past.
    pub fn extra_line(&mut self) -> Option<u32>
        ensures value { result ≡ extra_line self.old.lines self.old.end }
        ensures rest { self.new.lines ≡ drop 1 self.old.lines }
        ensures end { self.new.end ≡ self.old.end }
    {
        if let Some(line) = self.next_line() {
            return Some(line.number);
        }
        match self.end() {
            TextEnd::BadLine { line } => Some(line),
            TextEnd::Whole { .. } => None,
        }
    }

    /// Another reader in front of the same lines.
    fn copy(&self) -> Self
        ensures { result ≡ self.now }
    {
        FileLines {
            text: self.text,
            count: self.count,
        }
    }
}
