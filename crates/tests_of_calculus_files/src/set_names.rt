//! Sets over the calculus of points on a line.
use crate::asserts::{assert_same, assert_same_in};
use calculus_builtin::point;
use calculus_table::Rel;
use named_sets::{BaseNames, SetWriter, read_set};
use qsr_lex::TokenReader;
use std::test::Fail;

/// A set, its names in any order, and its line.
const SETS: [(u64, &[u8], &str); 5] = [
    (0b000, b"( )", "( )\n"),
    (0b001, b"(<)", "( < )\n"),
    (0b101, b"( > < > )", "( < > )\n"),
    (0b001, b"( < ) .", "( < )\n"),
    (0b111, b"( < = > ) :", "( < = > )\n"),
];

#[test]
fn sets_are_read(rt: HostRuntime) -> Result<(), Fail> {
    let c = point(rt.alloc())?;
    let bases = BaseNames::new(c.names());
    for (word, text, _line) in SETS {
        let set = read_set(&mut TokenReader::new(text), &bases);
        assert_same_in(&rt, set, Some(Some(Rel::of(word))), text);
    }
    Ok(())
}

#[test]
fn sets_are_written(rt: HostRuntime) -> Result<(), Fail> {
    let c = point(rt.alloc())?;
    let mut sets = SetWriter::new(rt.alloc(), &c)?;
    for (word, _text, line) in SETS {
        let mut written = String::new(rt.alloc());
        sets.push_line(&mut written, Rel::of(word))?;
        sets.push_line(&mut written, Rel::of(0b010))?;
        assert!(rt; written.starts_with(line), "{word}");
        assert!(rt; written.ends_with("( = )\n"), "{word}");
    }
    Ok(())
}

/// Tokens, and whether they have the form of a set of names.
const OTHERS: [(&[u8], bool); 7] = [
    (b"( < <= )", true),
    (b"( x < )", true),
    (b"( x 1 )", false),
    (b"( < : )", false),
    (b"( <", false),
    (b"< )", false),
    (b"", false),
];

#[test]
fn other_tokens_are_no_set(rt: HostRuntime) -> Result<(), Fail> {
    let c = point(rt.alloc())?;
    let bases = BaseNames::new(c.names());
    for (text, has_form) in OTHERS {
        let expected = if has_form { Some(None) } else { None };
        let set = read_set(&mut TokenReader::new(text), &bases);
        assert_same_in(&rt, set, expected, text);
    }
    assert_same(&rt, (bases.find(b"="), bases.find(b"")), (Some(1), None));
    Ok(())
}
