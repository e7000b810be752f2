//! What the lines of a table file have given so far.
//!
//! Each converse and each composition has a place, which is empty until a line gives it. So a second line for one place
//! is seen at once, and what no line gave is found by going over the places in order.
ghost use Rattle.std.specs.Prelude.{◌≡◌, ◌+◌, ◌*◌, ◌-◌, ◌^◌, ◌<◌, ◌≤◌, map, length, replicate, None, MatchOption};
ghost use Rattle.std.specs.Prelude.{MatchResult, IfSome, IfOk, IfErr, Ok, Err};
ghost use Rattle.calculus_load.specs.Given.{first_missing, value_of};
ghost use Rattle.calculus_load.specs.TableFile.{fault_of};

use crate::fault::LoadFault;
use crate::statement::Statement;
use calculus_table::{Calculus, Rel, TableFault};
use std::alloc::{AllocError, Global};
use std::marker::Model;

/// The names and the identity of a table, and of its converses and compositions those that were given.
#[derive(Drop)]
pub(crate) struct Draft {
    names: Vec<String>,
    identity: u32,
    converses: Vec<Option<u32>>,
    entries: Vec<Option<Rel>>,
}

impl Model for Draft {
    ghost use Rattle.std.specs.Prelude.{map};
    ghost use Rattle.std.specs.String.{string_bytes};
    ghost use Rattle.calculus_load.specs.Given.{Given, HasShape};

    ghost Value = { Given };

    ghost view = { λ d. record {
      names = map string_bytes d.names.items;
      identity = d.identity;
      converses = d.converses.items;
      entries = d.entries.items;
    } };

    ghost invariant = { λ d. HasShape (record {
      names = map string_bytes d.names.items;
      identity = d.identity;
      converses = d.converses.items;
      entries = d.entries.items;
    }) };
}

impl Draft {
    ghost use Rattle.std.specs.Prelude.{◌≡◌, ◌-◌, ◌^◌, ◌<◌, ◌≤◌, map, length, MatchResult, IfOk, OnOk, IfErr, Ok, Err};
    ghost use Rattle.std.specs.String.{string_bytes};
    ghost use Rattle.calculus_table.specs.Rel.{IsWithin};
    ghost use Rattle.calculus_table.specs.Calculus.{IsNamedCalculus};
    ghost use Rattle.calculus_table.specs.declared.TheConstants.{MAX_BASES};
    ghost use Rattle.calculus_load.specs.Given.{Given, give_converse, give_entry, complete};
    ghost use Rattle.calculus_load.specs.Statements.{IsBoundedBy};
    ghost use Rattle.calculus_load.specs.TableFile.{nothing_given, with_statement, IsLoadFaultOf};

    /// Nothing given but the names and the identity.
    pub(crate) fn new(alloc: Global, names: Vec<String>, identity: u32) -> Result<Draft, AllocError>
        requires few { length names.items ≤ MAX_BASES }
        requires below { identity < length names.items }
        ensures { IfOk result (λ draft. draft ≡ nothing_given (map string_bytes names.items) identity) }
    {
        let size = names.len();
        let converses = empty_places(alloc, size)?;
        let entries = empty_places(alloc, size * size)?;
        Ok(Draft {
            names,
            identity,
            converses,
            entries,
        })
    }

    /// Puts in the converse of a base relation, unless it was given before.
    fn give_converse(&mut self, line: u32, of: u32, converse: u32) -> Result<(), LoadFault>
        requires first { of < length self.old.names }
        requires second { converse < length self.old.names }
        ensures value { MatchResult result
            (λ _. give_converse line of converse self.old ≡ Ok self.new)
            (λ fault. give_converse line of converse self.old ≡ Err fault) }
        ensures names { OnOk result (self.new.names ≡ self.old.names) }
    {
        if self.converses[of as usize].is_some() {
            return Err(LoadFault::Twice { line });
        }
        self.converses[of as usize] = Some(converse);
        Ok(())
    }

    /// Puts in the composition of two base relations, unless it was given before.
    fn give_entry(&mut self, line: u32, first: u32, second: u32, set: Rel) -> Result<(), LoadFault>
        requires first { first < length self.old.names }
        requires second { second < length self.old.names }
        requires within { IsWithin set (2 ^ length self.old.names - 1) }
        ensures value { MatchResult result
            (λ _. give_entry line first second set self.old ≡ Ok self.new)
            (λ fault. give_entry line first second set self.old ≡ Err fault) }
        ensures names { OnOk result (self.new.names ≡ self.old.names) }
    {
        let place = first as usize * self.names.len() + second as usize;
        if self.entries[place].is_some() {
            return Err(LoadFault::Twice { line });
        }
        self.entries[place] = Some(set);
        Ok(())
    }

    /// Takes what a line says.
    pub(crate) fn take(&mut self, line: u32, statement: Statement) -> Result<(), LoadFault>
        requires { IsBoundedBy (length self.old.names) statement }
        ensures value { MatchResult result
            (λ _. with_statement line statement self.old ≡ Ok self.new)
            (λ fault. with_statement line statement self.old ≡ Err fault) }
        ensures names { OnOk result (self.new.names ≡ self.old.names) }
    {
        match statement {
            Statement::Converse(Some(of), Some(converse)) => {
                self.give_converse(line, of, converse)
            }
            Statement::Entry(Some(first), Some(second), Some(set)) => {
                self.give_entry(line, first, second, set)
            }
            _ => Err(LoadFault::Unknown { line }),
        }
    }

    /// The calculus, where every converse and every composition was given and the laws hold.
    pub(crate) fn finish(self, alloc: Global) -> Result<Calculus, LoadFault>
        ensures ok { IfOk result (λ c. complete self ≡ Ok c) }
        ensures lawful { IfOk result IsNamedCalculus }
        ensures fault { IfErr result (IsLoadFaultOf (complete self)) }
    {
        let Draft {
            names,
            identity,
            converses,
            entries,
        } = self;
        let size = names.len();
        if let Some(r) = first_missing(&converses) {
            return Err(LoadFault::Missing {
                r: r as u32,
                s: None,
            });
        }
        if let Some(place) = first_missing(&entries) {
            return Err(LoadFault::Missing {
                r: (place / size) as u32,
                s: Some((place % size) as u32),
            });
        }
        let converses = given_numbers(alloc, &converses).map_err(|_| LoadFault::Memory)?;
        let entries = given_sets(alloc, &entries).map_err(|_| LoadFault::Memory)?;
        match Calculus::new(alloc, names, identity, &converses, &entries) {
            Ok(c) => Ok(c),
            Err(fault) => Err(of_table(fault)),
        }
    }
}

/// `count` places at which nothing was given.
fn empty_places<T: Drop>(alloc: Global, count: usize) -> Result<Vec<Option<T>>, AllocError>
    ensures { IfOk result (λ places. places.items ≡ replicate count None) }
{
    let mut places = Vec::new(alloc);
    for _place in 0..count {
        places.push(None)?;
    }
    Ok(places)
}

/// The fault of a file whose table has this fault.
fn of_table(fault: TableFault) -> LoadFault
    ensures { result ≡ fault_of fault }
{
    match fault {
        TableFault::Memory => LoadFault::Memory,
        _ => LoadFault::Table(fault),
    }
}

/// The first place at which nothing was given.
fn first_missing<T>(given: &[Option<T>]) -> Option<usize>
    ensures value { result ≡ first_missing given.now }
    ensures below { IfSome result (λ place. place < length given.now) }
{
    for (place, value) in given.iter().enumerate() {
        if value.is_none() {
            return Some(place);
        }
    }
    None
}

/// The numbers that were given.
fn given_numbers(alloc: Global, given: &[Option<u32>]) -> Result<Vec<u32>, AllocError>
    ensures { IfOk result (λ numbers. numbers.items ≡ map value_of given.now) }
{
    given.iter().map(|value| value.unwrap_or(0)).collect(alloc)
}

/// The sets that were given.
fn given_sets(alloc: Global, given: &[Option<Rel>]) -> Result<Vec<Rel>, AllocError>
    ensures { IfOk result (λ sets. sets.items ≡ map value_of given.now) }
{
    given
        .iter()
        .map(|value| value.unwrap_or(Rel::EMPTY))
        .collect(alloc)
}
