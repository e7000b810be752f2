//! The forms of the lines of a network file: `nodes N`, `names ( A B .. )` and `I J ( R .. )`.
//!
//! A line's form is tested before anything else of it. A node's token is read once, as a number or a name; whether
//! there is such a node is asked where the facts are read.
ghost use Rattle.std.specs.Prelude.{◌≡◌, ◌-◌, ◌^◌, ◌∷◌, map, length, All, IfOk, IfSome, IsErrOf};
ghost use Rattle.std.specs.Prelude.{MatchOption, Some, None};
ghost use Rattle.std.specs.Prelude.{true};
ghost use Rattle.calculus_table.specs.Rel.{IsWithin};
ghost use Rattle.qsr_lex.specs.Names.{is_name};
ghost use Rattle.qsr_lex.specs.Lexemes.{lexeme_with};
ghost use Rattle.qsr_lex.specs.declared.tokens.TokenKind.TheVariants.{Word};
ghost use Rattle.network_file.specs.LineForms.{nodes_form, names_form, node_token, node_at, fact_form};
ghost use Rattle.network_file.specs.FormsRead.{node_read, fact_read};

use calculus_table::Rel;
use named_sets::{BaseNames, read_set};
use qsr_lex::{NamesFault, TokenReader, is_name, number};
use std::alloc::Global;

/// A token that stands for a node.
#[derive(Clone, Copy)]
pub(crate) enum NodeToken<'a> {
    /// Its number.
    Number(u64),
    /// Its name.
    Name(&'a [u8]),
}

/// The tokens of a fact's line: its two nodes, and its set, where each name is that of a base relation.
#[derive(Clone, Copy)]
pub(crate) struct FactTokens<'a> {
    pub first: NodeToken<'a>,
    pub second: NodeToken<'a>,
    pub set: Option<Rel>,
}

/// The number of a line `nodes N`.
pub(crate) fn nodes_form(tokens: &mut TokenReader<'_>) -> Option<u64>
    ensures { result ≡ nodes_form tokens.old }
{
    if !tokens.take_word(b"nodes") {
        return None;
    }
    let nodes = number(tokens.word()?)?;
    if tokens.is_empty() { Some(nodes) } else { None }
}

/// The names of a line `names ( A B .. )`, after the word `names`, where there are `count`.
pub(crate) fn names_form<'a>(
    alloc: Global,
    count: u32,
    tokens: &mut TokenReader<'a>,
) -> Result<Vec<&'a [u8]>, NamesFault>
    ensures ok { IfOk result (λ names.
        names_form count tokens.old ≡ Some (map (λ name. name.now) names.items)) }
    ensures each { IfOk result (λ names. All (λ name. is_name name.now ≡ true) names.items) }
    ensures form { IsErrOf result NamesFault.Form → names_form count tokens.old ≡ None }
    ensures many { IsErrOf result NamesFault.TooMany → names_form count tokens.old ≡ None }
{
    let names = tokens.names(alloc, count as usize)?;
    if names.len() == count as usize && tokens.is_empty() {
        Ok(names)
    } else {
        Err(NamesFault::Form)
    }
}

/// What a word stands for as a node: a number, or a name if the nodes have names.
#[inline(always)]
fn node_token<'a>(named: bool, word: &'a [u8]) -> Option<NodeToken<'a>>
    ensures { MatchOption result (node_token named word.now ≡ None)
        (λ token. node_token named word.now ≡ Some (node_read token)) }
{
    match number(word) {
        Some(node) => Some(NodeToken::Number(node)),
        None if named && is_name(word) => Some(NodeToken::Name(word)),
        None => None,
    }
}

/// Returns the node's token that comes next, and moves past it.
#[inline(always)]
fn node_at<'a>(named: bool, tokens: &mut TokenReader<'a>) -> Option<NodeToken<'a>>
    ensures { MatchOption result (node_at named tokens.old ≡ None)
        (λ token. node_at named tokens.old ≡ Some (node_read token, tokens.new)) }
{
    let word = tokens.word()?;
    node_token(named, word)
}

/// The tokens of a line `I J ( R .. )` that begins with this word, where a node may be named if the
/// nodes have names.
pub(crate) fn fact_form<'a>(
    named: bool,
    word: &'a [u8],
    tokens: &mut TokenReader<'a>,
    bases: &BaseNames<'_>,
) -> Option<FactTokens<'a>>
    ensures form { MatchOption result
        (fact_form bases.now named (lexeme_with Word word.now ∷ tokens.old) ≡ None)
        (λ found. fact_form bases.now named (lexeme_with Word word.now ∷ tokens.old)
        ≡ Some (fact_read found)) }
    ensures within { IfSome result (λ found.
        IfSome found.set (λ a. IsWithin a (2 ^ length bases.now - 1))) }
{
    let first = node_token(named, word)?;
    let second = node_at(named, tokens)?;
    let set = read_set(tokens, bases)?;
    if tokens.is_empty() {
        Some(FactTokens { first, second, set })
    } else {
        None
    }
}
