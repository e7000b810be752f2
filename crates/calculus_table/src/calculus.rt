use crate::compose::Compose;
use crate::names::{first_repeat, place_of};
use crate::rel::Rel;
use crate::table::Table;
use std::alloc::Global;
use std::marker::Model;

/// Why a table is no calculus. The checks come in this order, and the first that fails is named with
/// its first place.
#[derive(Clone, Copy, Debug, PartialEq, Eq)]
pub enum TableFault {
    /// The name at place `at` occurs at an earlier place too.
    NameTwice { at: u32 },
    /// The converse of the converse of `r` is another, or the identity `r` isn't its own converse.
    NotInvolution { r: u32 },
    /// The identity composed with `r`, on one side, isn't `r` alone.
    IdentityLaw { r: u32 },
    /// `t` is in `r;s`, or its converse in (the converse of `s`);(the converse of `r`), and not both.
    ConverseLaw { r: u32, s: u32, t: u32 },
    /// `t` is in `r;s` or `r` in `t;(the converse of s)`, and not both.
    CycleLaw { r: u32, s: u32, t: u32 },
    /// Out of memory.
    Memory,
}

/// A calculus: named base relations with an identity, converses and compositions that obey the four
/// laws.
#[derive(Debug, Drop)]
pub struct Calculus {
    names: Vec<String>,
    table: Table,
}

impl Model for Calculus {
    ghost use Rattle.std.specs.Prelude.{◌≡◌, length, map};
    ghost use Rattle.std.specs.String.{string_bytes};
    ghost use Rattle.calculus_table.specs.Calculus.{NamedAlgebra, IsCalculus, AreDistinct, IsNamedCalculus};

    ghost Value = { NamedAlgebra };

    ghost view = { λ a. record { names = map string_bytes a.names.items; algebra = a.table } };

    ghost invariant = { λ a. IsNamedCalculus (record {
      names = map string_bytes a.names.items;
      algebra = a.table;
    }) };
}

impl Calculus {
    ghost use Rattle.std.specs.Prelude.{◌≡◌, ◌≢◌, ℕ, ◌+◌, ◌*◌, ◌-◌, ◌^◌, ◌<◌, ◌≤◌, map, length};
    ghost use Rattle.std.specs.Prelude.{slice_index, slice_get, IfOk, IfErr, MatchOption, Some};
    ghost use Rattle.std.specs.String.{string_bytes};
    ghost use Rattle.calculus_table.specs.Rel.{IsWithin};
    ghost use Rattle.calculus_table.specs.Algebra.{Algebra};
    ghost use Rattle.calculus_table.specs.Calculus.{NamedAlgebra, IsTable, IsCalculus, AreDistinct, IsNamedCalculus};
    ghost use Rattle.calculus_table.specs.TableFault.{IsFaultOf};

    /// A calculus of `names`, with the identity `id`, the converse of each base relation, and the
    /// composition of `r` and `s` at `r * n + s` of `table`, where `n` is the number of names.
    pub fn new(
        alloc: Global,
        names: Vec<String>,
        id: u32,
        conv: &[u32],
        table: &[Rel],
    ) -> Result<Calculus, TableFault>
        requires { IsTable (record {
          size = length names.items;
          identity = id;
          converses = conv.now;
          table = table.now;
        }) }
        ensures ok { IfOk result (λ c. c ≡ record {
          names = map string_bytes names.items;
          algebra = record {
            size = length names.items;
            identity = id;
            converses = conv.now;
            table = table.now;
          };
        }) }
        ensures lawful { IfOk result IsNamedCalculus }
        ensures fault { IfErr result (IsFaultOf (map string_bytes names.items) (record {
          size = length names.items;
          identity = id;
          converses = conv.now;
          table = table.now;
        })) }
    {
        let converses = conv.to_vec(alloc).map_err(|_| TableFault::Memory)?;
        let entries = table.to_vec(alloc).map_err(|_| TableFault::Memory)?;
        let table = Table::new(names.len() as u32, id, converses, entries);
        if let Some(at) = first_repeat(&names) {
            return Err(TableFault::NameTwice { at });
        }
        table.check_laws()?;
        Ok(Calculus { names, table })
    }

    /// The calculus of a table that is known to be one: its laws and names aren't tested, and no memory
    /// is taken.
    pub fn of_lawful(names: Vec<String>, id: u32, conv: Vec<u32>, table: Vec<Rel>) -> Calculus
        requires { IsNamedCalculus (record {
          names = map string_bytes names.items;
          algebra = record {
            size = length names.items;
            identity = id;
            converses = conv.items;
            table = table.items;
          };
        }) }
        ensures { result ≡ record {
          names = map string_bytes names.items;
          algebra = record {
            size = length names.items;
            identity = id;
            converses = conv.items;
            table = table.items;
          };
        } }
    {
        let table = Table::new(names.len() as u32, id, conv, table);
        Calculus { names, table }
    }

    /// The name of the base relation `r`.
    pub fn name(&self, r: u32) -> &str
        requires { r < self.now.algebra.size }
        ensures { slice_get self.now.names r ≡ Some result.now }
    {
        self.names[r as usize].as_str()
    }

    /// The names of the base relations, in their order.
    pub fn names(&self) -> &[String]
        ensures value { map string_bytes result.now ≡ self.now.names }
        ensures lawful { IsNamedCalculus self.now }
    {
        &self.names
    }

    /// The base relation of this name.
    pub fn find(&self, name: &[u8]) -> Option<u32>
        ensures { MatchOption result
            ((r : ℕ) → slice_get self.now.names r ≢ Some name.now)
            (λ r. (r < self.now.algebra.size) × (slice_get self.now.names r ≡ Some name.now)) }
    {
        place_of(&self.names, name)
    }
}

impl Compose for Calculus {
    ghost use Rattle.std.specs.Prelude.{◌≡◌};
    ghost use Rattle.calculus_table.specs.Calculus.{IsCalculus, IsNamedCalculus};

    ghost algebra = { λ c. c.algebra };

    fn size(&self) -> u32
        ensures value { result ≡ self.now.algebra.size }
        ensures calculus { IsCalculus self.now.algebra }
        ensures names { IsNamedCalculus self.now }
    {
        self.table.size()
    }

    fn identity(&self) -> u32 {
        self.table.identity()
    }

    fn full(&self) -> Rel {
        self.table.full()
    }

    fn converse(&self, a: Rel) -> Rel {
        self.table.converse(a)
    }

    fn compose(&self, a: Rel, b: Rel) -> Rel {
        self.table.compose(a, b)
    }
}
