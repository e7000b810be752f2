//! The forms of the lines of a table file: `names ( N1 N2 .. Nn )`, `identity N`, `A :: B` and `A : B :: ( C D .. )`.
//!
//! A line's form is tested before anything else of it: a name that no base relation has is carried on as none.
ghost use Rattle.std.specs.Prelude.{◌≡◌, ◌<◌, ◌≤◌, map, length, All, IfOk, IfSome, IsErrOf, MatchOption, Some, None};
ghost use Rattle.std.specs.Prelude.{true};
ghost use Rattle.qsr_lex.specs.Names.{is_name};
ghost use Rattle.calculus_table.specs.declared.TheConstants.{MAX_BASES};
ghost use Rattle.calculus_load.specs.Statements.{names_line, identity_line, after_colons, after_colon, statement_line};
ghost use Rattle.calculus_load.specs.Statements.{IsBoundedBy, AreTooMany};

use crate::statement::Statement;
use calculus_table::MAX_BASES;
use named_sets::{BaseNames, read_set};
use qsr_lex::{NamesFault, TokenKind, TokenReader};
use std::alloc::Global;

/// The names of a line `names ( N1 N2 .. Nn )`, of which there is at least one, where a calculus may have so many base
/// relations.
pub(crate) fn names_form<'a>(
    alloc: Global,
    tokens: &mut TokenReader<'a>,
) -> Result<Vec<&'a [u8]>, NamesFault>
    ensures ok { IfOk result (λ names.
        names_line tokens.old ≡ Some (map (λ name. name.now) names.items)) }
    ensures few { IfOk result (λ names. length names.items ≤ MAX_BASES) }
    ensures each { IfOk result (λ names. All (λ name. is_name name.now ≡ true) names.items) }
    ensures form { IsErrOf result NamesFault.Form → names_line tokens.old ≡ None }
    ensures many { IsErrOf result NamesFault.TooMany → AreTooMany (names_line tokens.old) }
{
    if !tokens.take_word(b"names") {
        return Err(NamesFault::Form);
    }
    match tokens.names(alloc, MAX_BASES as usize) {
        Ok(names) if !names.is_empty() && tokens.is_empty() => Ok(names),
        Err(NamesFault::TooMany) if tokens.is_empty() => Err(NamesFault::TooMany),
        Err(NamesFault::Memory) => Err(NamesFault::Memory),
        _ => Err(NamesFault::Form),
    }
}

/// The name of a line `identity N`.
pub(crate) fn identity_form<'a>(tokens: &mut TokenReader<'a>) -> Option<&'a [u8]>
    ensures { MatchOption result (identity_line tokens.old ≡ None)
        (λ name. identity_line tokens.old ≡ Some name.now) }
{
    if !tokens.take_word(b"identity") {
        return None;
    }
    let name = tokens.name()?;
    if tokens.is_empty() { Some(name) } else { None }
}

/// What a line `A :: B` or `A : B :: ( C D .. )` says.
pub(crate) fn statement_form(
    tokens: &mut TokenReader<'_>,
    bases: &BaseNames<'_>,
) -> Option<Statement>
    ensures value { result ≡ statement_line bases.now tokens.old }
    ensures bounded { IfSome result (IsBoundedBy (length bases.now)) }
{
    let first = bases.find(tokens.name()?);
    if tokens.take_kind(TokenKind::Colons) {
        return converse_form(first, tokens, bases);
    }
    if tokens.take_kind(TokenKind::Colon) {
        return entry_form(first, tokens, bases);
    }
    None
}

/// What `A :: B` says, after the colons.
fn converse_form(
    first: Option<u32>,
    tokens: &mut TokenReader<'_>,
    bases: &BaseNames<'_>,
) -> Option<Statement>
    requires { IfSome first (λ r. r < length bases.now) }
    ensures value { result ≡ after_colons bases.now first tokens.old }
    ensures bounded { IfSome result (IsBoundedBy (length bases.now)) }
{
    let second = bases.find(tokens.name()?);
    if tokens.is_empty() {
        Some(Statement::Converse(first, second))
    } else {
        None
    }
}

/// What `A : B :: ( C D .. )` says, after the colon.
fn entry_form(
    first: Option<u32>,
    tokens: &mut TokenReader<'_>,
    bases: &BaseNames<'_>,
) -> Option<Statement>
    requires { IfSome first (λ r. r < length bases.now) }
    ensures value { result ≡ after_colon bases.now first tokens.old }
    ensures bounded { IfSome result (IsBoundedBy (length bases.now)) }
{
    let second = bases.find(tokens.name()?);
    if !tokens.take_kind(TokenKind::Colons) {
        return None;
    }
    let set = read_set(tokens, bases)?;
    if tokens.is_empty() {
        Some(Statement::Entry(first, second, set))
    } else {
        None
    }
}
