//! Batches, to which the lines of a script are added one after another.
//!
//! A line is tested in the order of its refusals, and a batch holds the first fault of each: 50 where there are too
//! many lines, 48 where it has no form of a command, 49 where there are too many sessions, and then 15, 16 and 19 of
//! what it asks for.
ghost use Rattle.std.specs.Prelude.{◌≡◌, ℕ, IfOk, MatchResult, Some, None};
ghost use Rattle.network_words.specs.Edge.{IsProperPair};
ghost use Rattle.session_scripts.specs.Commands.{HasCommandSet};
ghost use Rattle.session_scripts.specs.CommandsRead.{line_read};
ghost use Rattle.session_scripts.specs.Batches.{pair_refusal, assert_of, what_of, is_command_line, IsAsked};

use crate::commands::{Command, ScriptLine};
use crate::{MOST_LINES, MOST_SESSIONS};
use calculus_table::{Memory, Rel, place_of};
use network_words::Fact;
use qsr_lex::name_text;
use std::alloc::Global;
use std::marker::Model;

/// What a command line asks for.
#[derive(Clone, Copy, Debug, PartialEq, Eq)]
pub enum What {
    /// A fact is stated.
    Assert(Fact),
    /// The relation of node `i` to node `j` as it is now.
    Peek {
        i: u32,
        j: u32,
    },
    /// The fact with this number is withdrawn.
    Withdraw {
        fact: u64,
    },
    /// The relation of node `i` to node `j` at a version, or at the one that the batch makes.
    Ask {
        version: Option<u64>,
        i: u32,
        j: u32,
    },
    /// The line is refused, with this number.
    Refused {
        number: u32,
    },
}

/// A command line of a batch.
#[derive(Clone, Copy, Debug, PartialEq, Eq)]
pub struct Line {
    /// Its number in the batch, from 1, lines without tokens counted.
    pub at: u32,
    /// The place of its session among those of the batch; 0, which says nothing, where the line was refused before its
    /// session was looked at.
    pub session: u32,
    /// What it asks for.
    pub what: What,
}

/// The command lines up to a commit, or up to the end of a script.
#[derive(Debug, Drop)]
pub struct Batch {
    pub sessions: Vec<String>,
    pub lines: Vec<Line>,
}

impl Model for Batch {
    ghost use Rattle.std.specs.Prelude.{map};
    ghost use Rattle.std.specs.String.{string_bytes};
    ghost use Rattle.session_scripts.specs.Batches.{BatchState, IsBatch};

    ghost Value = { BatchState };

    ghost view = { λ b. record {
      sessions = map string_bytes b.sessions.items;
      lines = b.lines.items;
    } };

    ghost invariant = { λ b. IsBatch (record {
      sessions = map string_bytes b.sessions.items;
      lines = b.lines.items;
    }) };
}

impl Batch {
    ghost use Rattle.std.specs.Prelude.{◌≡◌, ℕ, ◌<◌, ◌≤◌, ◌++◌, ◌∷◌, [], true, length, OnOk};
    ghost use Rattle.qsr_lex.specs.Names.{is_name};
    ghost use Rattle.session_scripts.specs.Commands.{HasName, HasSet, HasCommandSet};
    ghost use Rattle.session_scripts.specs.CommandsRead.{line_read};
    ghost use Rattle.session_scripts.specs.Batches.{BatchState, IsBatch, IsBatchFor, no_lines, session_name};
    ghost use Rattle.session_scripts.specs.Batches.{refusing, with_line, with_session};
    ghost use Rattle.session_scripts.specs.Batches.{what_of, line_at, IsLineFor};
    ghost use Rattle.calculus_table.specs.Names.{place_of};

    /// A batch without lines.
    pub(crate) fn new(alloc: Global) -> Batch
        ensures { result ≡ no_lines }
    {
        Batch {
            sessions: Vec::new(alloc),
            lines: Vec::new(alloc),
        }
    }

    /// The name of the session of a line; no text where the line is of none.
    pub fn session(&self, line: &Line) -> &str
        ensures { result.now ≡ session_name self.now.sessions line.now.session }
    {
        match self.sessions.get(line.session as usize) {
            Some(name) => name,
            None => "",
        }
    }

    /// Does nothing. A proof learns by it how many sessions and lines there are at most.
    pub fn limited(&self)
        ensures { IsBatch self.now }
    {
        let _lines = &self.lines;
    }

    /// Adds a line, with this number in the batch, of a script over so many nodes.
    pub(crate) fn add(&mut self, at: u32, line: &ScriptLine<'_>, nodes: u32) -> Result<(), Memory>
        requires name { HasName (line_read line.now) }
        ensures { OnOk result (self.new ≡ with_line nodes at (line_read line.now) self.old) }
    {
        if !is_command_line(line) || self.lines.len() > MOST_LINES {
            return Ok(());
        }
        if self.lines.len() == MOST_LINES {
            return self.refuse(at, 50);
        }
        match line {
            ScriptLine::Said { session, command } => self.add_command(at, session, command, nodes),
            _ => self.refuse(at, 48),
        }
    }

    /// Adds a line that is refused before its session is known.
    fn refuse(&mut self, at: u32, number: u32) -> Result<(), Memory>
        requires { length self.old.lines ≤ MOST_LINES }
        ensures { OnOk result (self.new ≡ refusing at number self.old) }
    {
        self.add_line(at, 0, What::Refused { number })
    }

    /// Adds the command of a session.
    fn add_command(
        &mut self,
        at: u32,
        session: &[u8],
        command: &Command,
        nodes: u32,
    ) -> Result<(), Memory>
        requires name { is_name session.now ≡ true }
        requires room { length self.old.lines < MOST_LINES }
        ensures { OnOk result (self.new ≡ with_session nodes at session.now command.now
            (place_of session.now self.old.sessions) self.old) }
    {
        match place_of(&self.sessions, session) {
            Some(place) => self.add_line(at, place, what_of(nodes, command)),
            None if self.sessions.len() < MOST_SESSIONS => {
                let place = self.sessions.len() as u32;
                self.add_session(session)?;
                self.add_line(at, place, what_of(nodes, command))
            }
            None => self.refuse(at, 49),
        }
    }

    /// Adds a line of the session with this place.
    fn add_line(&mut self, at: u32, session: u32, what: What) -> Result<(), Memory>
        requires { length self.old.lines ≤ MOST_LINES }
        ensures { OnOk result (self.new
            ≡ record self.old { lines = self.old.lines ++ line_at at session what ∷ [] }) }
    {
        match self.lines.push(Line { at, session, what }) {
            Ok(()) => Ok(()),
            Err(_) => Err(Memory),
        }
    }

    /// Adds a session.
    fn add_session(&mut self, session: &[u8]) -> Result<(), Memory>
        requires name { is_name session.now ≡ true }
        requires room { length self.old.sessions < MOST_SESSIONS }
        ensures { OnOk result (self.new
            ≡ record self.old { sessions = self.old.sessions ++ session.now ∷ [] }) }
    {
        let alloc = *self.lines.allocator();
        let Ok(name) = String::from_str(alloc, name_text(session)) else {
            return Err(Memory);
        };
        let Ok(()) = self.sessions.push(name) else {
            return Err(Memory);
        };
        Ok(())
    }
}

/// Whether a line is a command line.
fn is_command_line(line: &ScriptLine<'_>) -> bool
    ensures { result ≡ is_command_line (line_read line.now) }
{
    match line {
        ScriptLine::Blank | ScriptLine::Commit => false,
        _ => true,
    }
}

/// The two nodes of a pair, or the number of its refusal.
fn pair_of(nodes: u32, i: u64, j: u64) -> Result<(u32, u32), u32>
    ensures pair { IfOk result (λ pair. (pair.0 ≡ i) × (pair.1 ≡ j)) }
    ensures proper { IfOk result (λ pair. IsProperPair nodes pair.0 pair.1) }
    ensures refusal { MatchResult result
        (λ _. pair_refusal nodes i j ≡ None)
        (λ number. pair_refusal nodes i j ≡ Some number) }
{
    if i >= u64::from(nodes) || j >= u64::from(nodes) {
        Err(15)
    } else if i == j {
        Err(16)
    } else {
        Ok((i as u32, j as u32))
    }
}

/// A fact, if each name in its set is that of a base relation.
fn assert_of(i: u32, j: u32, set: Option<Rel>) -> What
    ensures { result ≡ assert_of i j set }
{
    match set {
        Some(rel) => What::Assert(Fact { i, j, rel }),
        None => What::Refused { number: 19 },
    }
}

/// What a command asks for, or the number of its refusal.
fn what_of(nodes: u32, command: &Command) -> What
    ensures value { result ≡ what_of nodes command.now }
    ensures asked { (full : ℕ) → HasCommandSet full command.now → IsAsked full nodes result }
{
    match *command {
        Command::Assert { i, j, set } => match pair_of(nodes, i, j) {
            Ok((i, j)) => assert_of(i, j, set),
            Err(number) => What::Refused { number },
        },
        Command::Peek { i, j } => match pair_of(nodes, i, j) {
            Ok((i, j)) => What::Peek { i, j },
            Err(number) => What::Refused { number },
        },
        Command::Withdraw { fact } => What::Withdraw { fact },
        Command::Ask { version, i, j } => match pair_of(nodes, i, j) {
            Ok((i, j)) => What::Ask { version, i, j },
            Err(number) => What::Refused { number },
        },
    }
}
