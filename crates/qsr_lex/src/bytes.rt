//! The bytes of a text, and what each may be part of.
ghost use Rattle.std.specs.Prelude.{◌≡◌};
ghost use Rattle.qsr_lex.specs.Bytes.{is_blank, is_plain, is_word_byte};

/// Whether a byte is a space or a tab.
pub(crate) fn is_blank(byte: u8) -> bool
    ensures { result ≡ is_blank byte }
{
    matches!(byte, b' ' | b'\t')
}

/// Whether a byte stands for itself wherever it stands outside comments: an allowed byte other than `#`.
pub(crate) fn is_plain(byte: u8) -> bool
    ensures { result ≡ is_plain byte }
{
    // Most bytes pass the first test.
    (b'$' <= byte && byte <= b'~') || matches!(byte, b'\t' | b' '..=b'"')
}

/// For each byte whether it may be part of a word: the tab, the space, `#`, `(`, `)`, `,` and `:` may not.
#[rattlefmt::skip]
const WORD_BYTES: [bool; 256] = [
    true, true, true, true, true, true, true, true, true, false, true, true, true, true, true, true,
    true, true, true, true, true, true, true, true, true, true, true, true, true, true, true, true,
    false, true, true, false, true, true, true, true, false, false, true, true, false, true, true, true,
    true, true, true, true, true, true, true, true, true, true, false, true, true, true, true, true,
    true, true, true, true, true, true, true, true, true, true, true, true, true, true, true, true,
    true, true, true, true, true, true, true, true, true, true, true, true, true, true, true, true,
    true, true, true, true, true, true, true, true, true, true, true, true, true, true, true, true,
    true, true, true, true, true, true, true, true, true, true, true, true, true, true, true, true,
    true, true, true, true, true, true, true, true, true, true, true, true, true, true, true, true,
    true, true, true, true, true, true, true, true, true, true, true, true, true, true, true, true,
    true, true, true, true, true, true, true, true, true, true, true, true, true, true, true, true,
    true, true, true, true, true, true, true, true, true, true, true, true, true, true, true, true,
    true, true, true, true, true, true, true, true, true, true, true, true, true, true, true, true,
    true, true, true, true, true, true, true, true, true, true, true, true, true, true, true, true,
    true, true, true, true, true, true, true, true, true, true, true, true, true, true, true, true,
    true, true, true, true, true, true, true, true, true, true, true, true, true, true, true, true,
];

/// Whether a byte may be part of a word.
pub(crate) fn is_word_byte(byte: u8) -> bool
    ensures { result ≡ is_word_byte byte }
{
    // Each byte of a word asks this: a look-up is quicker than seven comparisons.
    WORD_BYTES[usize::from(byte)]
}
