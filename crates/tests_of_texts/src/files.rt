//! Rows of texts, and the lines that a reader goes over.
use crate::asserts::{assert_same, assert_same_in};
use line_files::{FileLines, TextEnd, owned_names};
use std::process::Abort;
use std::test::Fail;

/// A text, the numbers of the lines that have tokens, and what stands after them.
const TEXTS: [(&[u8], &[u32], TextEnd); 6] = [
    (b"", &[], TextEnd::Whole { lines: 0 }),
    (b"\n # \x80\n \t", &[], TextEnd::Whole { lines: 3 }),
    (b"a\r\n\n( b #\n.", &[1, 3, 4], TextEnd::Whole { lines: 4 }),
    (b"a\n\n", &[1], TextEnd::Whole { lines: 2 }),
    (b"\na\n\n\x80\nb", &[2], TextEnd::BadLine { line: 4 }),
    (b"\x00", &[], TextEnd::BadLine { line: 1 }),
];

/// Asserts that the lines of these numbers come next, and that each has tokens.
fn has_lines(rt: &impl Abort, lines: &mut FileLines<'_>, numbers: &[u32]) -> Result<(), Fail> {
    for number in numbers {
        let line = lines.next_line().ok_or("a line")?;
        assert_same(rt, (line.number, line.tokens.is_empty()), (*number, false));
    }
    Ok(())
}

#[test]
fn lines_with_tokens_are_read_up_to_the_end_or_a_bad_line(rt: HostRuntime) -> Result<(), Fail> {
    for (text, numbers, end) in TEXTS {
        let mut lines = FileLines::new(text);
        has_lines(&rt, &mut lines, numbers)?;
        assert!(rt; lines.next_line().is_none(), "{text:?}");
        assert_same_in(&rt, lines.end(), end, text);
    }
    Ok(())
}

/// Asserts that the names stand on line 2, and that the end line comes next.
fn has_names_and_end(
    rt: &(impl Abort + AllocGlobal),
    lines: &mut FileLines<'_>,
) -> Result<(), Fail> {
    assert!(rt; lines.next_line_of(b"nodes").is_none());
    let mut line = lines.next_line_of(b"names").ok_or("a line")?;
    let count = line.tokens.names(rt.alloc(), 1)?.len();
    assert_same(rt, (line.number, count), (2, 1));
    let end = lines.next_line().ok_or("a line")?;
    assert!(rt; end.tokens.is_end_line());
    Ok(())
}

#[test]
fn a_line_is_read_by_its_first_word(rt: HostRuntime) -> Result<(), Fail> {
    let mut lines = FileLines::new(b"\nnames ( a )\n.\n\nb");
    has_names_and_end(&rt, &mut lines)?;
    assert_same(&rt, lines.extra_line(), Some(5));
    assert_same(&rt, lines.extra_line(), None);
    assert_same(&rt, FileLines::new(b"\n\x80").extra_line(), Some(2));
    Ok(())
}

#[test]
fn names_are_owned(rt: HostRuntime) -> Result<(), Fail> {
    let names = owned_names(rt.alloc(), &[b"A", b"b.c"])?;
    assert!(rt; names.len() == 2);
    assert_same(&rt, names[1].as_str(), "b.c");
    Ok(())
}
