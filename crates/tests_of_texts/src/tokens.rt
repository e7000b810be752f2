//! Rows of texts, and what is read of them.
use crate::asserts::{assert_same, assert_same_in};
use qsr_lex::{
    FirstLine, LexStop, Lines, MAX_TEXT, NamesFault, Token, TokenKind, TokenReader, first_line,
    is_name, lines, name_text, number, signed,
};
use std::alloc::Global;
use std::process::Abort;
use std::test::Fail;

/// The tokens and lines of a text, if it isn't too long.
fn read(alloc: Global, text: &[u8]) -> Result<Lines, LexStop> {
    if text.len() > MAX_TEXT {
        return Err(LexStop::Memory);
    }
    lines(alloc, text)
}

#[rattlefmt::skip]
const AB: Token = Token { line: 1, start: 1, end: 3, kind: TokenKind::Word };

#[rattlefmt::skip]
const SET: [Token; 8] = [
    Token { line: 2, start: 3, end: 4, kind: TokenKind::Word },
    Token { line: 2, start: 4, end: 6, kind: TokenKind::Colons },
    Token { line: 2, start: 6, end: 7, kind: TokenKind::Colon },
    Token { line: 2, start: 7, end: 8, kind: TokenKind::Open },
    Token { line: 2, start: 8, end: 9, kind: TokenKind::Comma },
    Token { line: 2, start: 9, end: 10, kind: TokenKind::Close },
    Token { line: 3, start: 11, end: 12, kind: TokenKind::Stop },
    Token { line: 3, start: 13, end: 15, kind: TokenKind::Word },
];

/// A text, its tokens, and the number of its lines.
const TEXTS: [(&[u8], &[Token], u32); 7] = [
    (b"", &[], 0),
    (b"\n\r\n \t", &[], 3),
    (b"# a ( \x00\xff\r\n#\r", &[], 2),
    (b" ab", &[AB], 1),
    (b" ab\r\n", &[AB], 1),
    (b" ab#c\xc3\xa4 d\n", &[AB], 1),
    (b"# \na:::(,)\n. ..", &SET, 3),
];

#[test]
fn a_text_has_its_tokens_and_lines(rt: HostRuntime) -> Result<(), Fail> {
    for (text, tokens, count) in TEXTS {
        let found = read(rt.alloc(), text)?;
        assert_same_in(
            &rt,
            (found.tokens.as_slice(), found.count),
            (tokens, count),
            text,
        );
    }
    Ok(())
}

/// A text, and its first line with a byte that isn't allowed.
const BAD_LINES: [(&[u8], u32); 5] = [
    (b"a\x00b", 1),
    (b"\n\x80", 2),
    (b"a\r", 1),
    (b"a\r#\n", 1),
    (b"#\x00\n\x7f\n\x80\n", 2),
];

#[test]
fn the_first_bad_line_is_named(rt: HostRuntime) {
    for (text, line) in BAD_LINES {
        let stop = read(rt.alloc(), text).err();
        assert_same_in(&rt, stop, Some(LexStop::BadByte { line }), text);
    }
    assert!(rt; read(rt.alloc(), b"a\t~\r\n").is_ok());
}

/// A text, what of its first line stands outside its comment, and what stands after the line.
const FIRST_LINES: [(&[u8], &[u8], &[u8]); 6] = [
    (b"", b"", b""),
    (b"a (", b"a (", b""),
    (b"a (\n b\x01", b"a (", b" b\x01"),
    (b"a\r\n\n", b"a", b"\n"),
    (b" # \x80\r\nb", b" ", b"b"),
    (b"#", b"", b""),
];

#[test]
fn the_first_line_of_a_text_is_cut(rt: HostRuntime) {
    for (text, part, after) in FIRST_LINES {
        let expected = Some(FirstLine { part, after });
        assert_same_in(&rt, first_line(text), expected, text);
    }
    assert_same(&rt, first_line(b"a\x01#\nb"), None);
    assert_same(&rt, first_line(b"a\rb\n"), None);
}

/// Asserts that `names(A "b )` is read.
fn has_names(rt: &impl Abort, tokens: &mut TokenReader<'_>) -> Result<(), Fail> {
    let taken = (tokens.take_word(b"name"), tokens.take_word(b"names"));
    assert_same(rt, taken, (false, true));
    assert!(rt; tokens.take_kind(TokenKind::Open));
    assert_same(rt, name_text(tokens.name().ok_or("a name")?), "A");
    Ok(())
}

/// Asserts that `"b )` is read.
fn has_no_name(rt: &impl Abort, tokens: &mut TokenReader<'_>) -> Result<(), Fail> {
    assert!(rt; tokens.name().is_none());
    assert_same(rt, tokens.word().ok_or("a word")?, b"\"b".as_slice());
    assert!(rt; tokens.take_kind(TokenKind::Close));
    Ok(())
}

/// Asserts that `::` is read.
fn has_colons(rt: &impl Abort, tokens: &mut TokenReader<'_>) -> Result<(), Fail> {
    assert!(rt; !tokens.is_empty());
    let colons = tokens.next().ok_or("colons")?;
    assert_same(
        rt,
        (colons.kind, colons.text),
        (TokenKind::Colons, b"::".as_slice()),
    );
    Ok(())
}

#[test]
fn a_line_is_read_token_by_token(rt: HostRuntime) -> Result<(), Fail> {
    let mut tokens = TokenReader::new(b" names(A \"b ) :: .");
    has_names(&rt, &mut tokens)?;
    has_no_name(&rt, &mut tokens)?;
    has_colons(&rt, &mut tokens)?;
    assert!(rt; tokens.take_kind(TokenKind::Stop));
    assert!(rt; tokens.is_empty());
    assert_same(&rt, tokens.next(), None);
    Ok(())
}

/// Asserts that three names are read, and then none.
fn has_three_names(
    rt: &impl Abort,
    alloc: Global,
    tokens: &mut TokenReader<'_>,
) -> Result<(), Fail> {
    let names = tokens.names(alloc, 3)?;
    assert_same(rt, names.len(), 3);
    assert_same(rt, *names.last().ok_or("a name")?, b"b".as_slice());
    assert!(rt; tokens.names(alloc, 0)?.is_empty());
    Ok(())
}

#[test]
fn names_in_brackets_are_read(rt: HostRuntime) -> Result<(), Fail> {
    let mut tokens = TokenReader::new(b"( A A b ) ( ) ( A B C ) ( A B 0 ) ( 0 )");
    has_three_names(&rt, rt.alloc(), &mut tokens)?;
    for fault in [NamesFault::TooMany, NamesFault::Form, NamesFault::Form] {
        assert_same(&rt, tokens.names(rt.alloc(), 1).err(), Some(fault));
    }
    Ok(())
}

#[test]
fn a_text_has_at_most_16777216_bytes(rt: HostRuntime) -> Result<(), Fail> {
    let most = vec![in rt.alloc(); b'\n'; 16_777_216]?;
    assert_same(&rt, read(rt.alloc(), &most)?.count, 16_777_216);
    assert_same(&rt, MAX_TEXT, 16_777_216);
    Ok(())
}

/// The digits of a number, and its value.
const NUMBERS: [(&[u8], Option<u64>); 5] = [
    (b"007", Some(7)),
    (b"999999999999999999", Some(999_999_999_999_999_999)),
    (b"1234567890123456789", None),
    (b"", None),
    (b"1a", None),
];

#[test]
fn numbers_have_their_value(rt: HostRuntime) {
    for (digits, value) in NUMBERS {
        assert_same_in(&rt, number(digits), value, digits);
    }
}

/// The text of a number with a sign, and its value.
const SIGNED: [(&[u8], Option<i64>); 5] = [
    (b"-30.00", Some(-30)),
    (b"+5", Some(5)),
    (b"30.", None),
    (b"-", None),
    (b"1.01", None),
];

#[test]
fn numbers_with_a_sign_have_their_value(rt: HostRuntime) {
    for (text, value) in SIGNED {
        assert_same_in(&rt, signed(text), value, text);
    }
}

/// A word, and whether it is a name.
const WORDS: [(&[u8], bool); 9] = [
    (&[b'a'; 64], true),
    (&[b'a'; 65], false),
    (b"TPP-i_1.", true),
    (b"1a", false),
    (b".", false),
    (b"", false),
    (b"a\"b", false),
    (b"a\\b", false),
    (b"a:b", false),
];

#[test]
fn names_are_told_from_other_words(rt: HostRuntime) {
    for (word, expected) in WORDS {
        assert_same_in(&rt, is_name(word), expected, word);
    }
}
