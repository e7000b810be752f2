//! Sets of base relations, read by the names of their members.
//!
//! A set is written `(`, then names, then `)`. Its tokens are taken one after another, and each name is looked up at
//! once, so no list of names is made. A name that no base relation has makes the set unknown, but the names after it
//! are still read, since a fault of form counts before an unknown name. They aren't looked up any more.
ghost use Rattle.std.specs.Prelude.{◌≡◌, ◌-◌, ◌^◌, length, IfSome, None, Some, MatchOption};
ghost use Rattle.qsr_lex.specs.LineTokens.{names_until_close};
ghost use Rattle.qsr_lex.specs.ManyNames.{AreClosedNames};
ghost use Rattle.calculus_table.specs.Rel.{IsWithin};
ghost use Rattle.named_sets.specs.Named.{set_at};

use crate::base_names::BaseNames;
use calculus_table::Rel;
use qsr_lex::{TokenKind, TokenReader};

/// Returns the set of the names in brackets that come next, and moves past them. The set is none inside where one of
/// them is the name of no base relation. Without names in brackets there is none, and the reader stands somewhere in
/// the line.
#[inline(never)]
pub fn read_set(tokens: &mut TokenReader<'_>, bases: &BaseNames<'_>) -> Option<Option<Rel>>
    ensures value { MatchOption result (set_at bases.now tokens.old ≡ None)
        (λ set. set_at bases.now tokens.old ≡ Some (set, tokens.new)) }
    ensures within { IfSome result (λ set. IfSome set (λ a. IsWithin a (2 ^ length bases.now - 1))) }
{
    if !tokens.take_kind(TokenKind::Open) {
        return None;
    }
    let mut set = Rel::EMPTY;
    while let Some(token) = tokens.next() {
        match token.kind {
            TokenKind::Close => return Some(Some(set)),
            TokenKind::Word => match bases.base_of(token.text)? {
                Some(r) => set = set.union(Rel::single(r)),
                None => return unknown_set(tokens),
            },
            _ => return None,
        }
    }
    None
}

/// A set with an unknown name, after that name: it is none inside, if names in brackets stand there.
#[inline(never)]
fn unknown_set(tokens: &mut TokenReader<'_>) -> Option<Option<Rel>>
    ensures { MatchOption result (names_until_close tokens.old ≡ None)
        (λ set. (set ≡ None) × AreClosedNames tokens.old tokens.new) }
{
    while !tokens.take_kind(TokenKind::Close) {
        let Some(_) = tokens.name() else {
            return None;
        };
    }
    Some(None)
}
