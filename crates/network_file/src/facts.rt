//! The facts of the lines of a network file.
//!
//! Of a line the form is tested first, then the nodes from left to right, that they differ, and the base relations. The
//! fact then narrows the network at once: no list of facts is made.
ghost use Rattle.std.specs.Prelude.{◌≡◌, ◌-◌, ◌^◌, ◌<◌, [], ◌∷◌, length, IfOk, IfErr, OnOk, MatchBool, List, Ok, Err};
ghost use Rattle.std.specs.Prelude.{true, false};
ghost use Rattle.calculus_table.specs.Rel.{IsWithin};
ghost use Rattle.network_words.specs.Edge.{IsProperPair};
ghost use Rattle.network_words.specs.Facts.{IsNetworkOfFacts};
ghost use Rattle.network_words.specs.declared.fact.Fact.{Fact};
ghost use Rattle.qsr_lex.specs.Lexemes.{lexeme_with};
ghost use Rattle.qsr_lex.specs.LineTokens.{is_end_line};
ghost use Rattle.qsr_lex.specs.declared.tokens.TokenKind.TheVariants.{Word};
ghost use Rattle.network_file.specs.LineForms.{is_named};
ghost use Rattle.network_file.specs.FormsRead.{node_read};
ghost use Rattle.network_file.specs.NetworkFile.{FailsWith, node_of, fact_line, facts_at_end, fact_lines, ReadsLine};
ghost use Rattle.network_file.specs.NetworkFile.{ReadsFacts, MeetsEnd};

use crate::fault::{FileFault, end_fault};
use crate::forms::{NodeToken, fact_form};
use calculus_table::Calculus;
use line_files::FileLines;
use named_sets::BaseNames;
use network_words::{Fact, Net};
use qsr_lex::TokenReader;

/// Narrows the network by the facts of the lines up to the end line, after which nothing may stand.
pub(crate) fn read_facts(
    lines: &mut FileLines<'_>,
    bases: &BaseNames<'_>,
    c: &Calculus,
    net: &mut Net,
) -> Result<(), FileFault>
    requires bases { bases.now ≡ c.now.names }
    requires one_each { length c.now.names ≡ c.now.algebra.size }
    requires net { IsNetworkOfFacts c.now.algebra net.old.nodes [] net.old.words }
    ensures ok { OnOk result (ReadsFacts c.now net.old net.new lines.old) }
    ensures fault { IfErr result (FailsWith
        (fact_lines c.now.names lines.old.end net.old.nodes net.old.names [] lines.old.lines)) }
{
    while let Some(mut line) = lines.next_line() {
        if read_line(line.number, &mut line.tokens, bases, c, net)? {
            return read_end(lines);
        }
    }
    Err(end_fault(lines.end()))
}

/// Narrows the network by the fact of a line. Returns whether the line is the end line instead.
fn read_line(
    line: u32,
    tokens: &mut TokenReader<'_>,
    bases: &BaseNames<'_>,
    c: &Calculus,
    net: &mut Net,
) -> Result<bool, FileFault>
    requires bases { bases.now ≡ c.now.names }
    requires one_each { length c.now.names ≡ c.now.algebra.size }
    ensures ok { IfOk result (λ is_end. MatchBool is_end
        (MeetsEnd net.old net.new tokens.old)
        (ReadsLine c.now net.old net.new line tokens.old)) }
    ensures form { IfErr result (λ _. is_end_line tokens.old ≡ false) }
    ensures fault { IfErr result (FailsWith
        (fact_line c.now.names net.old.nodes net.old.names line tokens.old)) }
{
    let Some(word) = tokens.word() else {
        return read_end_line(line, tokens);
    };
    let fact = read_fact(line, word, tokens, bases, net)?;
    net.narrow(c, fact.i, fact.j, fact.rel);
    Ok(false)
}

/// Whether a line is the end line, which is a fault where it isn't.
fn read_end_line(line: u32, tokens: &TokenReader<'_>) -> Result<bool, FileFault>
    ensures ok { IfOk result (λ is_end. (is_end ≡ true) × (is_end_line tokens.now ≡ true)) }
    ensures form { IfErr result (λ _. is_end_line tokens.now ≡ false) }
    ensures fault { IfErr result (λ fault. fault ≡ FileFault.Syntax line) }
{
    if tokens.is_end_line() {
        Ok(true)
    } else {
        Err(FileFault::Syntax { line })
    }
}

/// The fact of a line that begins with this word.
fn read_fact<'a>(
    line: u32,
    word: &'a [u8],
    tokens: &mut TokenReader<'a>,
    bases: &BaseNames<'_>,
    net: &Net,
) -> Result<Fact, FileFault>
    ensures ok { IfOk result (λ fact. fact_line bases.now net.now.nodes net.now.names line
        (lexeme_with Word word.now ∷ tokens.old) ≡ Ok fact) }
    ensures proper { IfOk result (λ fact. IsProperPair net.now.nodes fact.i fact.j) }
    ensures within { IfOk result (λ fact. IsWithin fact.rel (2 ^ length bases.now - 1)) }
    ensures fault { IfErr result (λ fault. fact_line bases.now net.now.nodes net.now.names line
        (lexeme_with Word word.now ∷ tokens.old) ≡ Err fault) }
{
    let Some(form) = fact_form(is_named(net), word, tokens, bases) else {
        return Err(FileFault::Syntax { line });
    };
    let i = node_of(net, line, form.first)?;
    let j = node_of(net, line, form.second)?;
    if i == j {
        return Err(FileFault::SelfEdge { line });
    }
    let Some(rel) = form.set else {
        return Err(FileFault::Unknown { line });
    };
    Ok(Fact { i, j, rel })
}

/// Whether the nodes have names.
fn is_named(net: &Net) -> bool
    ensures { result ≡ is_named net.now.names }
{
    net.nodes() > 0 && net.name(0).is_some()
}

/// The node that a token stands for.
#[inline(always)]
fn node_of(net: &Net, line: u32, token: NodeToken<'_>) -> Result<u32, FileFault>
    ensures value { result ≡ node_of net.now.nodes net.now.names line (node_read token.entry) }
    ensures below { IfOk result (λ node. node < net.now.nodes) }
{
    let nodes = net.nodes();
    match token {
        NodeToken::Number(node) if node < u64::from(nodes) => Ok(node as u32),
        NodeToken::Number(_) => Err(FileFault::NoNode { line }),
        NodeToken::Name(name) => net.find(name).ok_or(FileFault::Unknown { line }),
    }
}

/// Nothing, if nothing stands after the end line.
fn read_end(lines: &mut FileLines<'_>) -> Result<(), FileFault>
    ensures ok { OnOk result ((facts : List Fact) →
        facts_at_end facts lines.old.end lines.old.lines ≡ Ok facts) }
    ensures fault { IfErr result (λ fault. (facts : List Fact) →
        facts_at_end facts lines.old.end lines.old.lines ≡ Err fault) }
{
    match lines.extra_line() {
        Some(line) => Err(FileFault::Syntax { line }),
        None => Ok(()),
    }
}
