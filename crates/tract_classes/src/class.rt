//! A class as a list of its members in ascending order, with a map to look sets up.
//!
//! Most look-ups ask whether a set is a member, and a search makes one for each edge that it looks at. For up to 16
//! base relations there is a map with a bit for each set, so a look-up is one read. Otherwise the members are searched
//! by halves.
ghost use Rattle.std.specs.Prelude.{◌≡◌, ℕ, ◌≤◌, ◌↔◌, IsTrue, IfOk, length, Contains};
ghost use Rattle.tract_classes.specs.Class.{IsClass};

use crate::rows::{row_of, rows_of};
use crate::sorted::contains;
use calculus_table::{Memory, Rel};
use std::alloc::Global;
use std::marker::Model;

/// A class: a set of sets of base relations, of which one is empty.
#[derive(Debug, Drop)]
pub struct Class {
    members: Vec<u64>,
    rows: Vec<Rel>,
}

impl Model for Class {
    ghost use Rattle.std.specs.Prelude.{ℕ, List};
    ghost use Rattle.tract_classes.specs.Kept.{IsKept};

    ghost Value = { List ℕ };

    ghost view = { λ c. c.members.items };

    ghost invariant = { λ c. IsKept c.members.items c.rows.items };
}

impl Class {
    /// The class with these members, over so many base relations.
    pub(crate) fn new(alloc: Global, members: Vec<u64>, size: u32) -> Result<Class, Memory>
        requires { IsClass members.items }
        ensures { IfOk result (λ class. class ≡ members.items) }
    {
        let rows = rows_of(alloc, &members, size)?;
        Ok(Class { members, rows })
    }

    /// Whether the set is a member.
    pub fn has(&self, rel: Rel) -> bool
        ensures { IsTrue result ↔ Contains self.now rel }
    {
        let row = row_of(rel.word());
        if row < self.rows.len() {
            return self.rows[row].has((rel.word() % 64) as u32);
        }
        contains(&self.members, rel.word())
    }

    /// The number of members, the empty relation counted.
    pub fn len(&self) -> u32
        ensures value { result ≡ length self.now }
        ensures class { IsClass self.now }
    {
        self.members.len() as u32
    }

    /// The members, in ascending order of their words.
    pub(crate) fn members(&self) -> &[u64]
        ensures value { result.now ≡ self.now }
        ensures class { IsClass self.now }
    {
        &self.members
    }
}
