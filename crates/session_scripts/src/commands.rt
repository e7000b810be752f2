//! The forms of the lines of a script: `S assert I J ( R .. )`, `S peek I J`, `S withdraw K`, `S ask I J`,
//! `S ask V I J`, and `commit` alone.
//!
//! A line's tokens are taken one after another, each once. A line that may be read but is too long is cut into tokens
//! only as far as it takes to tell whether it is `commit`.
ghost use Rattle.std.specs.Prelude.{◌≡◌, ℕ, ◌-◌, ◌^◌, ◌<◌, length, IfSome, MatchOption, Some, None};
ghost use Rattle.calculus_table.specs.Rel.{IsWithin};
ghost use Rattle.session_scripts.specs.Commands.{number_at, assert_form, peek_form, withdraw_form, ask_from, ask_form};
ghost use Rattle.session_scripts.specs.Commands.{command_of, command_form, body_len, is_commit_form, script_line};
ghost use Rattle.session_scripts.specs.Commands.{said, HasName, HasSet, HasCommandSet};
ghost use Rattle.session_scripts.specs.CommandsRead.{line_read};
ghost use Rattle.qsr_lex.specs.Lexemes.{lexemes};
ghost use Rattle.qsr_lex.specs.TextLines.{first_line};

use crate::LONGEST_LINE;
use calculus_table::Rel;
use named_sets::{BaseNames, read_set};
use qsr_lex::{TokenReader, first_line, number};

/// What a session asks for, as it is written.
#[derive(Clone, Copy, Debug, PartialEq, Eq)]
pub(crate) enum Command {
    /// A fact; its set is none where a name in it is that of no base relation.
    Assert {
        i: u64,
        j: u64,
        set: Option<Rel>,
    },
    /// The relation of a pair as it is now.
    Peek {
        i: u64,
        j: u64,
    },
    /// A fact to be withdrawn.
    Withdraw {
        fact: u64,
    },
    /// The relation of a pair at a version.
    Ask {
        version: Option<u64>,
        i: u64,
        j: u64,
    },
}

/// What a line of a script is.
#[derive(Clone, Copy)]
pub(crate) enum ScriptLine<'a> {
    /// A line without tokens.
    Blank,
    /// `commit` alone.
    Commit,
    /// None of the others.
    Malformed,
    /// A session's command.
    Said { session: &'a [u8], command: Command },
}

/// The number that comes next. Without one the reader stands somewhere in the line.
fn number_at(tokens: &mut TokenReader<'_>) -> Option<u64>
    ensures { MatchOption result (number_at tokens.old ≡ None)
        (λ found. number_at tokens.old ≡ Some (found, tokens.new)) }
{
    let word = tokens.word()?;
    number(word)
}

/// `I J ( R .. )`.
fn assert_form(tokens: &mut TokenReader<'_>, bases: &BaseNames<'_>) -> Option<Command>
    ensures form { result ≡ assert_form bases.now tokens.old }
    ensures sets { IfSome result (HasCommandSet (2 ^ length bases.now - 1)) }
{
    let i = number_at(tokens)?;
    let j = number_at(tokens)?;
    let set = read_set(tokens, bases)?;
    if tokens.is_empty() {
        Some(Command::Assert { i, j, set })
    } else {
        None
    }
}

/// `I J`.
fn peek_form(tokens: &mut TokenReader<'_>) -> Option<Command>
    ensures form { result ≡ peek_form tokens.old }
    ensures sets { (full : ℕ) → IfSome result (HasCommandSet full) }
{
    let i = number_at(tokens)?;
    let j = number_at(tokens)?;
    if tokens.is_empty() {
        Some(Command::Peek { i, j })
    } else {
        None
    }
}

/// `K`.
fn withdraw_form(tokens: &mut TokenReader<'_>) -> Option<Command>
    ensures form { result ≡ withdraw_form tokens.old }
    ensures sets { (full : ℕ) → IfSome result (HasCommandSet full) }
{
    let fact = number_at(tokens)?;
    if tokens.is_empty() {
        Some(Command::Withdraw { fact })
    } else {
        None
    }
}

/// What stands after two numbers.
fn ask_from(first: u64, second: u64, tokens: &mut TokenReader<'_>) -> Option<Command>
    ensures form { result ≡ ask_from first second tokens.old }
    ensures sets { (full : ℕ) → IfSome result (HasCommandSet full) }
{
    if tokens.is_empty() {
        return Some(Command::Ask {
            version: None,
            i: first,
            j: second,
        });
    }
    let third = number_at(tokens)?;
    if tokens.is_empty() {
        Some(Command::Ask {
            version: Some(first),
            i: second,
            j: third,
        })
    } else {
        None
    }
}

/// `I J` or `V I J`.
fn ask_form(tokens: &mut TokenReader<'_>) -> Option<Command>
    ensures form { result ≡ ask_form tokens.old }
    ensures sets { (full : ℕ) → IfSome result (HasCommandSet full) }
{
    let first = number_at(tokens)?;
    let second = number_at(tokens)?;
    ask_from(first, second, tokens)
}

/// What stands after the name of a session, after the word of the command.
fn command_of(word: &[u8], tokens: &mut TokenReader<'_>, bases: &BaseNames<'_>) -> Option<Command>
    ensures form { result ≡ command_of bases.now word.now tokens.old }
    ensures sets { IfSome result (HasCommandSet (2 ^ length bases.now - 1)) }
{
    if word == b"assert".as_slice() {
        assert_form(tokens, bases)
    } else if word == b"peek".as_slice() {
        peek_form(tokens)
    } else if word == b"withdraw".as_slice() {
        withdraw_form(tokens)
    } else if word == b"ask".as_slice() {
        ask_form(tokens)
    } else {
        None
    }
}

/// The session and the command of a line, if it has the form of one.
fn said<'a>(tokens: &mut TokenReader<'a>, bases: &BaseNames<'_>) -> ScriptLine<'a>
    ensures line { line_read result ≡ said (command_form bases.now tokens.old) }
    ensures session { HasName (line_read result) }
    ensures sets { HasSet (2 ^ length bases.now - 1) (line_read result) }
{
    let Some(session) = tokens.name() else {
        return ScriptLine::Malformed;
    };
    let Some(word) = tokens.word() else {
        return ScriptLine::Malformed;
    };
    match command_of(word, tokens, bases) {
        Some(command) => ScriptLine::Said { session, command },
        None => ScriptLine::Malformed,
    }
}

/// Whether a part of a line is `commit` alone.
fn is_commit(part: &[u8]) -> bool
    ensures { result ≡ is_commit_form (lexemes part.now) }
{
    let mut tokens = TokenReader::new(part);
    tokens.take_word(b"commit") && tokens.is_empty()
}

/// How many bytes a line has without its end.
fn body_len(line: &[u8]) -> usize
    ensures { result ≡ body_len line.now }
{
    let len = line.len();
    if len == 0 || line[len - 1] != b'\n' {
        len
    } else if len > 1 && line[len - 2] == b'\r' {
        len - 2
    } else {
        len - 1
    }
}

/// What a line of a script is.
pub(crate) fn script_line<'a>(line: &'a [u8], bases: &BaseNames<'_>) -> ScriptLine<'a>
    requires { first_line line.now ≡ line.now }
    ensures line { line_read result ≡ script_line bases.now line.now }
    ensures session { HasName (line_read result) }
    ensures sets { HasSet (2 ^ length bases.now - 1) (line_read result) }
{
    let Some(first) = first_line(line) else {
        return ScriptLine::Malformed;
    };
    let mut tokens = TokenReader::new(first.part);
    if tokens.is_empty() {
        ScriptLine::Blank
    } else if is_commit(first.part) {
        ScriptLine::Commit
    } else if body_len(line) > LONGEST_LINE {
        ScriptLine::Malformed
    } else {
        said(&mut tokens, bases)
    }
}
