//! The canonical table file of a calculus.
//!
//! Everything is appended to one text, and the line of a set is made once and copied wherever it recurs.
ghost use Rattle.std.specs.Prelude.{◌≡◌, ◌<◌, ◌++◌, codes, OnOk, IfOk};
ghost use Rattle.std.specs.String.{string_bytes};
ghost use Rattle.qsr_lex.specs.Printed.{text_below};
ghost use Rattle.calculus_load.specs.TableText.{names_text, identity_text, converse_text, pair_text, entry_text};
ghost use Rattle.calculus_load.specs.TableText.{row_text, table_text};
ghost use Rattle.calculus_table.specs.Algebra.{converse_at, entry_at};

use calculus_table::{Calculus, Compose, Memory, Rel, lawful};
use named_sets::SetWriter;
use std::alloc::{AllocError, Global};

/// The canonical table file of a calculus.
pub fn text(alloc: Global, c: &Calculus) -> Result<String, Memory>
    ensures { IfOk result (λ text. string_bytes text ≡ table_text c.now) }
{
    let mut text = String::new(alloc);
    let mut sets = SetWriter::new(alloc, c)?;
    push_header(&mut text, c).map_err(|_| Memory)?;
    push_entries(&mut text, c, &mut sets)?;
    text.push_str(".\n").map_err(|_| Memory)?;
    Ok(text)
}

/// Appends the lines of the names, of the identity and of the converses.
fn push_header(text: &mut String, c: &Calculus) -> Result<(), AllocError>
    ensures { OnOk result (string_bytes text.new ≡ string_bytes text.old
        ++ (names_text c.now ++ identity_text c.now
        ++ text_below c.now.algebra.size (converse_text c.now))) }
{
    push_names(text, c)?;
    push_identity(text, c)?;
    push_converses(text, c)?;
    Ok(())
}

/// Appends the line of the names.
fn push_names(text: &mut String, c: &Calculus) -> Result<(), AllocError>
    ensures { OnOk result (string_bytes text.new ≡ string_bytes text.old ++ names_text c.now) }
{
    text.push_str("names ( ")?;
    for r in 0..c.size() {
        write!(text, "{} ", c.name(r))?;
    }
    text.push_str(")\n")?;
    Ok(())
}

/// Appends the line of the identity.
fn push_identity(text: &mut String, c: &Calculus) -> Result<(), AllocError>
    ensures { OnOk result (string_bytes text.new ≡ string_bytes text.old ++ identity_text c.now) }
{
    lawful(c);
    writeln!(text, "identity {}", c.name(c.identity()))?;
    Ok(())
}

/// Appends the lines of the converses.
fn push_converses(text: &mut String, c: &Calculus) -> Result<(), AllocError>
    ensures { OnOk result (string_bytes text.new
        ≡ string_bytes text.old ++ text_below c.now.algebra.size (converse_text c.now)) }
{
    for r in 0..c.size() {
        push_converse(text, c, r)?;
    }
    Ok(())
}

/// Appends the line of the converse of `r`.
fn push_converse(text: &mut String, c: &Calculus, r: u32) -> Result<(), AllocError>
    requires { r < c.now.algebra.size }
    ensures { OnOk result (string_bytes text.new ≡ string_bytes text.old ++ converse_text c.now r) }
{
    let converse = converse_of(c, r);
    writeln!(text, "{} :: {}", c.name(r), c.name(converse))?;
    Ok(())
}

/// The converse of a base relation.
fn converse_of(c: &Calculus, r: u32) -> u32
    requires { r < c.now.algebra.size }
    ensures value { result ≡ converse_at c.now.algebra r }
    ensures below { result < c.now.algebra.size }
{
    lawful(c);
    c.converse(Rel::single(r)).least()
}

/// Appends the lines of the compositions.
fn push_entries(text: &mut String, c: &Calculus, sets: &mut SetWriter<'_>) -> Result<(), Memory>
    requires { sets.old ≡ c.now }
    ensures { OnOk result (string_bytes text.new
        ≡ string_bytes text.old ++ text_below c.now.algebra.size (row_text c.now)) }
{
    for r in 0..c.size() {
        push_row(text, c, sets, r)?;
    }
    Ok(())
}

/// Appends the lines of the compositions of `r`.
fn push_row(text: &mut String, c: &Calculus, sets: &mut SetWriter<'_>, r: u32) -> Result<(), Memory>
    requires below { r < c.now.algebra.size }
    requires sets { sets.old ≡ c.now }
    ensures text { OnOk result
        (string_bytes text.new ≡ string_bytes text.old ++ row_text c.now r) }
    ensures sets { sets.new ≡ sets.old }
{
    for s in 0..c.size() {
        push_entry(text, c, sets, r, s)?;
    }
    Ok(())
}

/// Appends the line of the composition of `r` and `s`.
fn push_entry(
    text: &mut String,
    c: &Calculus,
    sets: &mut SetWriter<'_>,
    r: u32,
    s: u32,
) -> Result<(), Memory>
    requires first { r < c.now.algebra.size }
    requires second { s < c.now.algebra.size }
    requires sets { sets.old ≡ c.now }
    ensures text { OnOk result
        (string_bytes text.new ≡ string_bytes text.old ++ entry_text c.now r s) }
    ensures sets { sets.new ≡ sets.old }
{
    push_pair(text, c, r, s).map_err(|_| Memory)?;
    sets.push_line(text, composition_of(c, r, s))?;
    Ok(())
}

/// Appends the two names of a composition.
fn push_pair(text: &mut String, c: &Calculus, r: u32, s: u32) -> Result<(), AllocError>
    requires first { r < c.now.algebra.size }
    requires second { s < c.now.algebra.size }
    ensures { OnOk result (string_bytes text.new ≡ string_bytes text.old ++ pair_text c.now r s) }
{
    write!(text, "{} : {} :: ", c.name(r), c.name(s))?;
    Ok(())
}

/// The composition of two base relations.
fn composition_of(c: &Calculus, r: u32, s: u32) -> Rel
    requires first { r < c.now.algebra.size }
    requires second { s < c.now.algebra.size }
    ensures { result ≡ entry_at c.now.algebra r s }
{
    lawful(c);
    c.compose(Rel::single(r), Rel::single(s))
}
