ghost use Rattle.std.specs.Prelude.{◌≡◌, ◌-◌, ◌<◌, ◌≤◌, ◌++◌, ◌∷◌, [], length};
ghost use Rattle.std.specs.VecDeque.{deque_capacity};
ghost use Rattle.session_versions.specs.Stores.{last_kept};

use crate::KEPT_VERSIONS;
use crate::draft::Draft;
use crate::held::copies;
use crate::version::Version;
use calculus_table::{Calculus, Compose, Memory, Rel, lawful};
use compose_fast::Fast;
use network_words::Net;
use std::alloc::Global;
use std::collections::VecDeque;
use std::marker::Model;
use std::mem;

/// Why a version can't be asked.
#[derive(Clone, Copy, Debug, PartialEq, Eq)]
pub enum AskFault {
    /// The version is older than those that are kept.
    VersionGone,
    /// The version is newer than the newest one.
    NotYet,
}

/// The newest versions. Each has proper facts and the closure of the network that they state.
#[derive(Debug, Drop)]
pub struct Store {
    calculus: Fast,
    newest: Version,
    older: VecDeque<Version>,
    next_fact: u64,
}

impl Model for Store {
    ghost use Rattle.std.specs.Prelude.{◌≤◌, ◌-◌};
    ghost use Rattle.std.specs.VecDeque.{deque_capacity};
    ghost use Rattle.session_versions.specs.Stores.{StoreState, IsStore};
    ghost use Rattle.session_versions.specs.declared.TheConstants.{KEPT_VERSIONS};

    ghost Value = { StoreState };

    ghost view = { λ s. record {
      nodes = s.newest.net.nodes;
      calculus = s.calculus;
      newest = s.newest;
      older = s.older.items;
      next_fact = s.next_fact;
    } };

    ghost invariant = { λ s. record {
      store : IsStore (record {
        nodes = s.newest.net.nodes;
        calculus = s.calculus;
        newest = s.newest;
        older = s.older.items;
        next_fact = s.next_fact;
      });
      room : KEPT_VERSIONS - 1 ≤ deque_capacity s.older;
    } };
}

impl Store {
    ghost use Rattle.std.specs.Prelude.{◌≡◌, ℕ, ◌+◌, ◌<◌, ◌≤◌, ◌^◌, ◌↔◌, [], replicate, Some, IfOk, IsErrOf, IsSomeAnd};
    ghost use Rattle.calculus_table.specs.Algebra.{Algebra};
    ghost use Rattle.calculus_table.specs.Composition.{full_of};
    ghost use Rattle.network_words.specs.Edge.{edge_count, IsProperPair};
    ghost use Rattle.network_words.specs.Network.{relation_between};
    ghost use Rattle.network_words.specs.declared.TheConstants.{MAX_NODES};
    ghost use Rattle.session_versions.specs.HeldFacts.{facts_of};
    ghost use Rattle.session_versions.specs.Versions.{AreProper, IsClosureOfFacts, IsVersion};
    ghost use Rattle.session_versions.specs.Stores.{StoreState, IsStore, version_with, committing};

    /// A store of networks over so many nodes, with version 0: there are no facts, and every set is full.
    pub fn new(alloc: Global, nodes: u32, c: &Calculus) -> Result<Store, Memory>
        requires some { 0 < nodes }
        requires bounded { nodes ≤ MAX_NODES }
        ensures { IfOk result (λ store. store ≡ record {
          nodes = nodes;
          calculus = c.now.algebra;
          newest = record {
            number = 0;
            facts = [];
            net = record {
              nodes = nodes;
              full = full_of c.now.algebra;
              words = replicate (edge_count nodes) (full_of c.now.algebra);
              names = [];
            };
          };
          older = [];
          next_fact = 1;
        }) }
    {
        lawful(c);
        let calculus = Fast::new(alloc, c)?;
        let Ok(net) = Net::new(alloc, nodes, c.full()) else {
            return Err(Memory);
        };
        let Ok(older) = VecDeque::with_capacity(alloc, KEPT_VERSIONS as usize - 1) else {
            return Err(Memory);
        };
        let newest = Version {
            number: 0,
            facts: Vec::new(alloc),
            net,
        };
        Ok(Store {
            calculus,
            newest,
            older,
            next_fact: 1,
        })
    }

    /// The number of the newest version.
    pub fn newest(&self) -> u64
        ensures value { result ≡ self.now.newest.number }
        ensures store { IsStore self.now }
    {
        self.newest.number
    }

    /// The number that the next fact gets.
    pub fn next_fact(&self) -> u64
        ensures { result ≡ self.now.next_fact }
    {
        self.next_fact
    }

    /// The number of nodes.
    pub fn nodes(&self) -> u32
        ensures { result ≡ self.now.nodes }
    {
        self.newest.net.nodes()
    }

    /// The network of the newest version.
    pub fn newest_words(&self) -> &Net
        ensures { result.now ≡ self.now.newest.net }
    {
        &self.newest.net
    }

    /// The facts of the newest version, to be changed, and the number of the next one.
    pub fn draft(&self) -> Result<Draft, Memory>
        ensures { IfOk result (λ draft. draft
            ≡ record { facts = self.now.newest.facts; next = self.now.next_fact }) }
    {
        let facts = copies(*self.newest.facts.allocator(), &self.newest.facts)?;
        Ok(Draft {
            facts,
            next: self.next_fact,
        })
    }

    /// Makes the newest version of the draft's facts and of their closure, and returns its number. Where as many
    /// versions are kept as there may be the oldest goes.
    pub fn commit(&mut self, draft: Draft, net: Net) -> u64
        requires proper { AreProper self.old.calculus self.old.nodes draft.facts }
        requires nodes { net.nodes ≡ self.old.nodes }
        requires closure { IsClosureOfFacts self.old.calculus self.old.nodes
            (facts_of draft.facts) net.words }
        requires next { self.old.next_fact ≤ draft.next }
        requires few { self.old.newest.number < 2 ^ 63 }
        ensures value { result ≡ self.old.newest.number + 1 }
        ensures store { self.new ≡ committing draft net self.old }
    {
        let number = self.newest() + 1;
        let Draft { facts, next } = draft;
        let version = Version { number, facts, net };
        let before = mem::replace(&mut self.newest, version);
        keep(&mut self.older, before);
        self.next_fact = next;
        number
    }

    /// The relation of node `i` to node `j` at a version.
    pub fn ask<C: Compose>(&self, c: &C, version: u64, i: u32, j: u32) -> Result<Rel, AskFault>
        requires calculus { C.algebra c.now ≡ self.now.calculus }
        requires proper { IsProperPair self.now.nodes i j }
        ensures ok { IfOk result (λ rel. IsSomeAnd (version_with self.now version)
            (λ v. rel ≡ relation_between self.now.calculus self.now.nodes v.net.words i j)) }
        ensures not_yet { IsErrOf result AskFault.NotYet ↔ (self.now.newest.number < version) }
        ensures gone { IsErrOf result AskFault.VersionGone
            ↔ (version + KEPT_VERSIONS ≤ self.now.newest.number) }
    {
        let newest = self.newest();
        if version > newest {
            return Err(AskFault::NotYet);
        }
        let back = newest - version;
        if back >= KEPT_VERSIONS {
            return Err(AskFault::VersionGone);
        }
        Ok(self.version_back(back).net.get(c, i, j))
    }

    /// The kept version so many versions before the newest one.
    fn version_back(&self, back: u64) -> &Version
        requires kept { back < KEPT_VERSIONS }
        requires there { back ≤ self.now.newest.number }
        ensures value { (number : ℕ) → number + back ≡ self.now.newest.number
            → version_with self.now number ≡ Some result.now }
        ensures version { IsVersion self.now.calculus self.now.nodes result.now }
    {
        if back == 0 {
            return &self.newest;
        }
        &self.older[self.older.len() - back as usize]
    }
}

/// Keeps one version more. Where as many are kept as there may be the oldest one goes.
fn keep(older: &mut VecDeque<Version>, version: Version)
    requires room { KEPT_VERSIONS - 1 ≤ deque_capacity older.old }
    requires few { length older.old.items < KEPT_VERSIONS }
    ensures items { older.new.items ≡ last_kept (older.old.items ++ version ∷ []) }
    ensures room { deque_capacity older.new ≡ deque_capacity older.old }
{
    if older.len() as u64 + 1 == KEPT_VERSIONS {
        older.pop_front();
    }
    older.push_back_reserved(version);
}
