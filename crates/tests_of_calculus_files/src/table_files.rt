//! Table files, the calculi that they have, and their faults.
ghost use Rattle.std.specs.Prelude.{◌<◌};

use crate::asserts::{assert_same, assert_same_in};
use calculus_builtin::{allen, point, rcc8};
use calculus_load::LoadFault::{Missing, Syntax, TooMany, Twice, Unknown};
use calculus_load::{LoadFault, read, text};
use calculus_table::{Calculus, Compose, Rel, TableFault};
use qsr_lex::MAX_TEXT;
use std::alloc::{AllocError, Global};
use std::process::Abort;
use std::test::Fail;

/// The table file of Ramsey's calculus of two colours.
const RAMSEY: &str =
    "names ( id a b )|identity id|id :: id|a :: a|b :: b|id : id :: ( id )|id : a :: ( a )|id : b :: ( b )|\
     a : id :: ( a )|a : a :: ( id b )|a : b :: ( a b )|b : id :: ( b )|b : a :: ( a b )|b : b :: ( id a )|.|";

/// What is read of a text in which `|` stands for a line's end.
fn read_rows(alloc: Global, rows: &[u8]) -> Result<Calculus, LoadFault> {
    let mut bytes = Vec::new(alloc);
    for byte in rows {
        let byte = if *byte == b'|' { b'\n' } else { *byte };
        bytes.push(byte).map_err(|_| LoadFault::Memory)?;
    }
    read_all(alloc, &bytes)
}

/// Reads a text that is no longer than a text may be.
fn read_all(alloc: Global, bytes: &[u8]) -> Result<Calculus, LoadFault> {
    if bytes.len() > MAX_TEXT {
        return Err(LoadFault::Memory);
    }
    read(alloc, bytes)
}

/// The canonical text of what is read of a text in which `|` stands for a line's end.
fn canonical(alloc: Global, rows: &[u8]) -> Result<String, LoadFault> {
    let c = read_rows(alloc, rows)?;
    text(alloc, &c).map_err(|_| LoadFault::Memory)
}

/// Asserts that each text, in which `|` stands for a line's end, is refused with its fault.
fn are_refused(rt: &impl Abort, alloc: Global, rows: &[(&[u8], LoadFault)]) {
    for (text, fault) in rows {
        assert_same_in(rt, read_rows(alloc, text).err(), Some(*fault), text);
    }
}

const FORMS: [(&[u8], LoadFault); 5] = [
    (
        b"names ( e )|identity e|e :: e|f :: e :|.|",
        Syntax { line: 4 },
    ),
    (
        b"names ( e )|identity e|e :: e|e : e :: ( e )|",
        Syntax { line: 5 },
    ),
    (
        b"names ( e )|identity e|e :: e|e : e :: ( e )",
        Syntax { line: 5 },
    ),
    (b"names ( e )||identity e|# none||", Syntax { line: 6 }),
    (b"names ( )|.|", Syntax { line: 1 }),
];

#[test]
fn a_line_of_another_form_is_refused(rt: HostRuntime) {
    are_refused(&rt, rt.alloc(), &FORMS);
}

const NAMES: [(&[u8], LoadFault); 5] = [
    (
        b"names ( e )|identity e|e :: e|e :: e|.|",
        Twice { line: 4 },
    ),
    (
        b"names ( e )|identity e|e : e :: ( )|e : e :: ( e )|.|",
        Twice { line: 4 },
    ),
    (
        b"names ( e )|identity e|e : f :: ( e )|.|",
        Unknown { line: 3 },
    ),
    (
        b"names ( e )|identity e|e : e :: ( f )|e :: e|e :: e|",
        Unknown { line: 3 },
    ),
    (b"names ( e )|identity f|.|", Unknown { line: 2 }),
];

#[test]
fn an_unknown_name_or_a_repeated_line_is_refused(rt: HostRuntime) {
    are_refused(&rt, rt.alloc(), &NAMES);
}

const TABLES: [(&[u8], LoadFault); 6] = [
    (
        b"names ( e )|identity e|e :: e|.|",
        Missing { r: 0, s: Some(0) },
    ),
    (
        b"names ( e )|identity e|e : e :: ( e )|.|",
        Missing { r: 0, s: None },
    ),
    (
        b"names ( e a )|identity e|a :: a|e :: e|a : e :: ( a )|e : e :: ( e )|.|",
        Missing { r: 0, s: Some(1) },
    ),
    (
        b"names ( e e )|.|",
        LoadFault::Table(TableFault::NameTwice { at: 1 }),
    ),
    (
        b"names ( e a )|identity e|e :: e|a :: e|e : e :: ( e )|e : a :: ( a )|a : e :: ( a )|a : a :: ( e a )|.|",
        LoadFault::Table(TableFault::NotInvolution { r: 1 }),
    ),
    (
        b"names ( e a )|identity e|e :: e|a :: a|\
          e : e :: ( e )|e : a :: ( e a )|a : e :: ( a )|a : a :: ( e a )|.|",
        LoadFault::Table(TableFault::IdentityLaw { r: 1 }),
    ),
];

#[test]
fn a_table_that_is_no_calculus_is_refused(rt: HostRuntime) {
    are_refused(&rt, rt.alloc(), &TABLES);
}

const BYTES: [(&[u8], LoadFault); 8] = [
    (b"names ( e )|identity \x00e|.|", Syntax { line: 2 }),
    (b"names ( \xe9 )|identity e|.|", Syntax { line: 1 }),
    (b"names ( e )|identity f|\x00|.|", Unknown { line: 2 }),
    (
        b"names ( e )|identity e|e :: e|e : e :: ( e )|.|\xff|",
        Syntax { line: 6 },
    ),
    (b"names ( e )|identity e\r", Syntax { line: 2 }),
    (b"names ( e ) \r identity e|.|", Syntax { line: 1 }),
    (b"names ( \"e )|identity e|.|", Syntax { line: 1 }),
    (b"names ( e\\ )|identity e|.|", Syntax { line: 1 }),
];

#[test]
fn a_line_with_a_hostile_byte_is_refused(rt: HostRuntime) {
    are_refused(&rt, rt.alloc(), &BYTES);
}

const LINES: [(&[u8], LoadFault); 5] = [
    (b"", Syntax { line: 1 }),
    (b"# none|  # none", Syntax { line: 3 }),
    (
        b"names ( e )|identity e|e :: e|e : e :: ( e )|.|.|",
        Syntax { line: 6 },
    ),
    (
        b"names ( e )|identity e|e :: e|e : e :: ( e )|. e|",
        Syntax { line: 5 },
    ),
    (b"names ( e , f )|identity e|.|", Syntax { line: 1 }),
];

#[test]
fn a_text_that_lacks_lines_or_has_too_many_is_refused(rt: HostRuntime) {
    are_refused(&rt, rt.alloc(), &LINES);
}

/// A table file of so many names and nothing else, with this after the names.
fn names_line(alloc: Global, count: u32, end: &str) -> Result<String, AllocError> {
    let mut text = String::new(alloc);
    text.push_str("names ( ")?;
    for k in 0..count {
        write!(text, "n{k} ")?;
    }
    write!(text, ") {end}\nidentity n0\n.\n")?;
    Ok(text)
}

/// A table file with a name of so many bytes.
fn long_name(alloc: Global, length: u32) -> Result<String, AllocError> {
    let mut text = String::new(alloc);
    text.push_str("names ( ")?;
    for _k in 0..length {
        text.push_str("n")?;
    }
    text.push_str(" )\nidentity n\n")?;
    Ok(text)
}

/// How many names, what stands after them, and the fault.
const NAMES_LINES: [(u32, &str, LoadFault); 3] = [
    (64, "", Missing { r: 0, s: None }),
    (65, "", TooMany { line: 1 }),
    (65, "n65", Syntax { line: 1 }),
];

#[test]
fn a_table_has_64_names_at_most(rt: HostRuntime) -> Result<(), Fail> {
    for (count, end, fault) in NAMES_LINES {
        let text = names_line(rt.alloc(), count, end)?;
        let found = read_all(rt.alloc(), text.as_bytes()).err();
        assert_same_in(&rt, found, Some(fault), (count, end));
    }
    Ok(())
}

#[test]
fn a_name_has_64_bytes_at_most(rt: HostRuntime) -> Result<(), Fail> {
    for (length, fault) in [(64, Unknown { line: 2 }), (65, Syntax { line: 1 })] {
        let text = long_name(rt.alloc(), length)?;
        let found = read_all(rt.alloc(), text.as_bytes()).err();
        assert_same_in(&rt, found, Some(fault), length);
    }
    Ok(())
}

/// The table file of points, with comments, and with names and lines in other places.
const LOOSE: &[u8] =
    b"# \x00 \xff|names(lt eq gt)\r||identity\teq|eq : eq::(eq)|lt::gt|gt::lt|eq::eq|lt:lt::(lt lt)|lt:eq::(lt)|\
      lt:gt::(gt eq lt)|eq:lt::(lt)|eq:gt::(gt)|gt:lt::(lt eq gt)|gt:eq::(gt)|gt:gt::(gt)|. # the end||#";

/// The canonical text of what it has.
const POINTS: &str =
    "names ( lt eq gt )|identity eq|lt :: gt|eq :: eq|gt :: lt|lt : lt :: ( lt )|lt : eq :: ( lt )|\
     lt : gt :: ( lt eq gt )|eq : lt :: ( lt )|eq : eq :: ( eq )|eq : gt :: ( gt )|gt : lt :: ( lt eq gt )|\
     gt : eq :: ( gt )|gt : gt :: ( gt )|.|";

/// Asserts that what is read of a text has a canonical text. In both `|` stands for a line's end.
fn is_written(rt: &impl Abort, alloc: Global, rows: &[u8], expected: &str) -> Result<(), Fail> {
    let expected = expected.replace(alloc, "|", "\n")?;
    assert_same(rt, canonical(alloc, rows)?, expected);
    Ok(())
}

#[test]
fn a_table_is_written_in_its_canonical_form(rt: HostRuntime) -> Result<(), Fail> {
    is_written(&rt, rt.alloc(), RAMSEY.as_bytes(), RAMSEY)?;
    is_written(&rt, rt.alloc(), LOOSE, POINTS)
}

/// The table file of RCC-8, in which these lines stand in place of others.
fn rcc8_with(alloc: Global, lines: &[(&str, &str)]) -> Result<String, LoadFault> {
    let c = rcc8(alloc).map_err(|_| LoadFault::Memory)?;
    let mut file = text(alloc, &c).map_err(|_| LoadFault::Memory)?;
    for (old, new) in lines {
        file = file
            .replace(alloc, old, new)
            .map_err(|_| LoadFault::Memory)?;
    }
    Ok(file)
}

/// A composition of RCC-8, and another one.
const FIRST: (&str, &str) = (
    "EC : NTPP :: ( PO TPP NTPP )",
    "EC : NTPP :: ( EC PO TPP NTPP )",
);

/// The composition that follows from the first by converses, and another one.
const SECOND: (&str, &str) = (
    "NTPPi : EC :: ( PO TPPi NTPPi )",
    "NTPPi : EC :: ( EC PO TPPi NTPPi )",
);

#[test]
fn a_bent_table_of_rcc8_is_refused(rt: HostRuntime) -> Result<(), Fail> {
    let bent = rcc8_with(rt.alloc(), &[FIRST])?;
    let found = read_all(rt.alloc(), bent.as_bytes()).err();
    let fault = TableFault::ConverseLaw { r: 1, s: 4, t: 1 };
    assert_same(&rt, found, Some(LoadFault::Table(fault)));
    Ok(())
}

#[test]
fn a_table_of_rcc8_that_is_bent_twice_is_refused(rt: HostRuntime) -> Result<(), Fail> {
    let both = rcc8_with(rt.alloc(), &[FIRST, SECOND])?;
    let found = read_all(rt.alloc(), both.as_bytes()).err();
    let fault = TableFault::CycleLaw { r: 1, s: 1, t: 6 };
    assert_same(&rt, found, Some(LoadFault::Table(fault)));
    Ok(())
}

/// The canonical text of a calculus is read as a calculus with that text.
fn is_read_again(rt: &impl Abort, alloc: Global, c: &Calculus) -> Result<(), LoadFault> {
    let file = text(alloc, c).map_err(|_| LoadFault::Memory)?;
    let again = canonical(alloc, file.as_bytes())?;
    assert_same(rt, again, file);
    Ok(())
}

#[test]
fn built_in_calculi_are_read_again(rt: HostRuntime) -> Result<(), Fail> {
    let alloc = rt.alloc();
    is_read_again(&rt, alloc, &rcc8(alloc)?)?;
    is_read_again(&rt, alloc, &allen(alloc)?)?;
    is_read_again(&rt, alloc, &point(alloc)?)?;
    Ok(())
}

/// Appends the compositions of `r` in the calculus of the numbers below 64 with addition.
fn push_sums(text: &mut String, r: u32) -> Result<(), AllocError>
    requires { r < 64 }
{
    for s in 0..64u32 {
        writeln!(text, "r{r} : r{s} :: ( r{} )", (r + s) % 64)?;
    }
    Ok(())
}

/// Appends the converses in that calculus.
fn push_negatives(text: &mut String) -> Result<(), AllocError> {
    for r in 0..64u32 {
        writeln!(text, "r{r} :: r{}", (64 - r) % 64)?;
    }
    Ok(())
}

/// Appends the names in that calculus.
fn push_numbers(text: &mut String) -> Result<(), AllocError> {
    for r in 0..64u32 {
        write!(text, "r{r} ")?;
    }
    Ok(())
}

/// The table file of that calculus.
fn sums_text(alloc: Global) -> Result<String, AllocError> {
    let mut text = String::new(alloc);
    text.push_str("names ( ")?;
    push_numbers(&mut text)?;
    text.push_str(")\nidentity r0\n")?;
    push_negatives(&mut text)?;
    for r in 0..64u32 {
        push_sums(&mut text, r)?;
    }
    text.push_str(".\n")?;
    Ok(text)
}

#[test]
fn a_table_of_64_relations_is_read_and_written(rt: HostRuntime) -> Result<(), Fail> {
    let file = sums_text(rt.alloc())?;
    let c = read_all(rt.alloc(), file.as_bytes())?;
    assert_same(&rt, c.full().word(), u64::MAX);
    let last = Rel::single(63);
    assert!(rt; last.within(c.full()));
    assert_same(&rt, c.compose(last, last), Rel::single(62));
    let written = text(rt.alloc(), &c).map_err(|_| LoadFault::Memory)?;
    assert_same(&rt, written, file);
    Ok(())
}
