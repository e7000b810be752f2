//! Reading a table file.
//!
//! The lines are read in order, each once, and the first faulty one decides. What each says is put into a draft, where
//! a converse or a composition that was given before is a fault. After the end line the draft is looked through for
//! what was not given, and last the four laws are tested.
ghost use Rattle.std.specs.Prelude.{◌≡◌, ◌<◌, ◌≤◌, map, length, All, IfOk, OnOk, IfErr, Ok, Err, true, false};
ghost use Rattle.std.specs.String.{string_bytes};
ghost use Rattle.qsr_lex.specs.Names.{is_name};
ghost use Rattle.qsr_lex.specs.LineTokens.{is_end_line};
ghost use Rattle.qsr_lex.specs.declared.TheConstants.{MAX_TEXT};
ghost use Rattle.calculus_table.specs.Calculus.{AreDistinct, IsNamedCalculus};
ghost use Rattle.calculus_table.specs.declared.TheConstants.{MAX_BASES};
ghost use Rattle.calculus_load.specs.TableFile.{FailsWith, names_of_line, identity_of_line, statement_of_line};
ghost use Rattle.calculus_load.specs.TableFile.{given_at_end, statements, from_identity, from_names, table_of};
ghost use Rattle.calculus_load.specs.TableFile.{IsLoadFaultOf, IsLineTaken};

use crate::draft::Draft;
use crate::fault::{LoadFault, end_fault, names_fault};
use crate::forms::{identity_form, names_form, statement_form};
use crate::names::first_repeat;
use calculus_table::{Calculus, TableFault};
use line_files::{FileLines, owned_names};
use named_sets::BaseNames;
use qsr_lex::TokenReader;
use std::alloc::Global;

/// The calculus of a table file of at most `MAX_TEXT` bytes.
pub fn read(alloc: Global, bytes: &[u8]) -> Result<Calculus, LoadFault>
    requires { length bytes.now ≤ MAX_TEXT }
    ensures ok { IfOk result (λ c. table_of bytes.now ≡ Ok c) }
    ensures lawful { IfOk result IsNamedCalculus }
    ensures fault { IfErr result (IsLoadFaultOf (table_of bytes.now)) }
{
    let mut lines = FileLines::new(bytes);
    let draft = read_names(alloc, &mut lines)?;
    draft.finish(alloc)
}

/// What the names line and the lines after it say.
fn read_names(alloc: Global, lines: &mut FileLines<'_>) -> Result<Draft, LoadFault>
    ensures ok { IfOk result (λ draft. from_names lines.old.end lines.old.lines ≡ Ok draft) }
    ensures fault { IfErr result (FailsWith (from_names lines.old.end lines.old.lines)) }
{
    let Some(mut line) = lines.next_line() else {
        return Err(end_fault(lines.end()));
    };
    let found = names_of_line(alloc, line.number, &mut line.tokens)?;
    let Ok(names) = owned_names(alloc, &found) else {
        return Err(LoadFault::Memory);
    };
    let Ok(copy) = owned_names(alloc, &found) else {
        return Err(LoadFault::Memory);
    };
    read_identity(alloc, lines, &BaseNames::new(&copy), names)
}

/// The names of the base relations, unless there are too many or one occurs twice.
fn names_of_line<'a>(
    alloc: Global,
    line: u32,
    tokens: &mut TokenReader<'a>,
) -> Result<Vec<&'a [u8]>, LoadFault>
    ensures ok { IfOk result (λ names.
        names_of_line line tokens.old ≡ Ok (map (λ name. name.now) names.items)) }
    ensures each { IfOk result (λ names. All (λ name. is_name name.now ≡ true) names.items) }
    ensures few { IfOk result (λ names. length names.items ≤ MAX_BASES) }
    ensures distinct { IfOk result (λ names. AreDistinct (map (λ name. name.now) names.items)) }
    ensures fault { IfErr result (FailsWith (names_of_line line tokens.old)) }
{
    let names = match names_form(alloc, tokens) {
        Ok(names) => names,
        Err(fault) => return Err(names_fault(line, fault)),
    };
    if let Some(at) = first_repeat(&names) {
        return Err(LoadFault::Table(TableFault::NameTwice { at: at as u32 }));
    }
    Ok(names)
}

/// What the identity line and the lines after it say.
fn read_identity(
    alloc: Global,
    lines: &mut FileLines<'_>,
    bases: &BaseNames<'_>,
    names: Vec<String>,
) -> Result<Draft, LoadFault>
    requires few { length names.items ≤ MAX_BASES }
    requires bases { bases.now ≡ map string_bytes names.items }
    ensures ok { IfOk result (λ draft.
        from_identity lines.old.end lines.old.lines bases.now ≡ Ok draft) }
    ensures fault { IfErr result (FailsWith
        (from_identity lines.old.end lines.old.lines bases.now)) }
{
    let Some(mut line) = lines.next_line() else {
        return Err(end_fault(lines.end()));
    };
    let identity = identity_of_line(line.number, &mut line.tokens, bases)?;
    let Ok(mut draft) = Draft::new(alloc, names, identity) else {
        return Err(LoadFault::Memory);
    };
    read_statements(lines, bases, &mut draft)?;
    Ok(draft)
}

/// The identity, from its line.
fn identity_of_line(
    line: u32,
    tokens: &mut TokenReader<'_>,
    bases: &BaseNames<'_>,
) -> Result<u32, LoadFault>
    ensures ok { IfOk result (λ id. identity_of_line bases.now line tokens.old ≡ Ok id) }
    ensures below { IfOk result (λ id. id < length bases.now) }
    ensures fault { IfErr result (λ fault. identity_of_line bases.now line tokens.old ≡ Err fault) }
{
    let Some(name) = identity_form(tokens) else {
        return Err(LoadFault::Syntax { line });
    };
    match bases.find(name) {
        Some(id) => Ok(id),
        None => Err(LoadFault::Unknown { line }),
    }
}

/// Puts into the draft what the lines up to the end line say, after which nothing may stand.
fn read_statements(
    lines: &mut FileLines<'_>,
    bases: &BaseNames<'_>,
    draft: &mut Draft,
) -> Result<(), LoadFault>
    requires { bases.now ≡ draft.old.names }
    ensures ok { OnOk result
        (statements lines.old.end lines.old.lines draft.old ≡ Ok draft.new) }
    ensures fault { IfErr result (λ fault.
        statements lines.old.end lines.old.lines draft.old ≡ Err fault) }
{
    while let Some(mut line) = lines.next_line() {
        if read_statement(line.number, &mut line.tokens, bases, draft)? {
            return read_end(lines, draft);
        }
    }
    Err(end_fault(lines.end()))
}

/// Puts into the draft what a line says. Returns whether it is the end line instead.
fn read_statement(
    line: u32,
    tokens: &mut TokenReader<'_>,
    bases: &BaseNames<'_>,
    draft: &mut Draft,
) -> Result<bool, LoadFault>
    requires { bases.now ≡ draft.old.names }
    ensures ok { IfOk result (IsLineTaken line tokens.old draft.old draft.new) }
    ensures names { OnOk result (draft.new.names ≡ draft.old.names) }
    ensures other { IfErr result (λ _. is_end_line tokens.old ≡ false) }
    ensures fault { IfErr result (λ fault.
        statement_of_line line tokens.old draft.old ≡ Err fault) }
{
    if tokens.is_end_line() {
        return Ok(true);
    }
    let Some(statement) = statement_form(tokens, bases) else {
        return Err(LoadFault::Syntax { line });
    };
    draft.take(line, statement)?;
    Ok(false)
}

/// Nothing, if nothing stands after the end line.
fn read_end(lines: &mut FileLines<'_>, draft: &Draft) -> Result<(), LoadFault>
    ensures ok { OnOk result
        (given_at_end lines.old.end lines.old.lines draft.now ≡ Ok draft.now) }
    ensures fault { IfErr result (λ fault.
        given_at_end lines.old.end lines.old.lines draft.now ≡ Err fault) }
{
    match lines.extra_line() {
        Some(line) => Err(LoadFault::Syntax { line }),
        None => Ok(()),
    }
}
