//! Tokens, and the lines of a text.

/// What a token is.
#[derive(Clone, Copy, Debug, PartialEq, Eq)]
pub enum TokenKind {
    /// Any word but a single dot.
    Word,
    /// `(`.
    Open,
    /// `)`.
    Close,
    /// `,`.
    Comma,
    /// `:`.
    Colon,
    /// `::`.
    Colons,
    /// The word `.`.
    Stop,
}

/// A token, and where it stands.
#[derive(Clone, Copy, Debug, PartialEq, Eq)]
pub struct Token {
    /// The number of its line, from 1.
    pub line: u32,
    /// The offset of its first byte in the text.
    pub start: usize,
    /// The offset after its last byte.
    pub end: usize,
    /// What it is.
    pub kind: TokenKind,
}

/// A token without its place.
#[derive(Clone, Copy, Debug, PartialEq, Eq)]
pub struct LineToken<'a> {
    /// What it is.
    pub kind: TokenKind,
    /// Its bytes.
    pub text: &'a [u8],
}

/// The tokens of a text, in order, and the number of its lines.
#[derive(Debug, Drop)]
pub struct Lines {
    /// The tokens, in the order in which they stand.
    pub tokens: Vec<Token>,
    /// How many lines there are, those without tokens too.
    pub count: u32,
}

/// Why a text has no tokens.
#[derive(Clone, Copy, Debug, PartialEq, Eq)]
pub enum LexStop {
    /// A byte stands outside comments that isn't allowed there.
    BadByte {
        /// The first line with such a byte, from 1.
        line: u32,
    },
    /// Out of memory.
    Memory,
}
