use crate::MAX_NODES;
use crate::between::{edge_at, edge_between, oriented, relation_between};
use crate::fact::{Fact, first_fault};
use crate::names::{number_of, numbered};
use calculus_table::{Compose, Memory, Rel};
use indexmap::IndexSet;
use std::alloc::Global;
use std::marker::Model;

/// Why a network can't be made or changed.
#[derive(Clone, Copy, Debug, PartialEq, Eq)]
pub enum NetFault {
    /// The number of nodes is 0 or above the limit.
    Nodes,
    /// The fact at place `at` names a node that isn't there.
    NoNode { at: u32 },
    /// The fact at place `at` has one node twice.
    SelfEdge { at: u32 },
    /// The name at place `at` occurs at an earlier place too.
    NameTwice { at: u32 },
    /// Out of memory.
    Memory,
}

/// A constraint network: a set of base relations for each pair of nodes, and names of the nodes,
/// none or one for each.
#[derive(Debug, Drop)]
pub struct Net {
    nodes: u32,
    full: Rel,
    words: Vec<u64>,
    names: IndexSet<String>,
}

impl Model for Net {
    ghost use Rattle.std.specs.Prelude.{map};
    ghost use Rattle.std.specs.String.{string_bytes};
    ghost use Rattle.network_words.specs.Network.{Network, IsShaped};

    ghost Value = { Network };

    ghost view = { λ a. record {
      nodes = a.nodes;
      full = a.full;
      words = a.words.items;
      names = map string_bytes a.names.keys;
    } };

    ghost invariant = { λ a. IsShaped (record {
      nodes = a.nodes;
      full = a.full;
      words = a.words.items;
      names = map string_bytes a.names.keys;
    }) };
}

impl Net {
    ghost use Rattle.std.specs.Prelude.{◌≡◌, ◌≢◌, ℕ, ◌<◌, ◌≤◌, ◌^◌, ◌↔◌, ◌⊎◌, [], All, length, map, replicate};
    ghost use Rattle.std.specs.Prelude.{slice_index, slice_set, IfOk, IfErr, OnOk, OnErr, IsErrOf, MatchOption};
    ghost use Rattle.std.specs.Prelude.{slice_get, Some, None};
    ghost use Rattle.std.specs.String.{string_bytes};
    ghost use Rattle.calculus_table.specs.Calculus.{AreDistinct};
    ghost use Rattle.network_words.specs.Facts.{IsNetworkOfFacts, narrowed_by};
    ghost use Rattle.network_words.specs.NetFault.{IsNamesFaultOf, first_fault};
    ghost use Rattle.calculus_table.specs.Rel.{IsWithin};
    ghost use Rattle.calculus_table.specs.Composition.{full_of};
    ghost use Rattle.network_words.specs.Edge.{edge_count, edge_at, IsProperPair};
    ghost use Rattle.network_words.specs.Network.{Network, IsNetwork, IsShaped, relation_between, narrowed_at};

    /// A network without names, whose every set is `full`.
    pub fn new(alloc: Global, nodes: u32, full: Rel) -> Result<Net, NetFault>
        ensures ok { IfOk result (λ net. net ≡ record {
          nodes = nodes;
          full = full;
          words = replicate (edge_count nodes) full;
          names = [];
        }) }
        ensures nodes { IsErrOf result NetFault.Nodes ↔ (nodes ≡ 0) ⊎ (MAX_NODES < nodes) }
        ensures fault { IfErr result (λ e. (e ≡ NetFault.Nodes) ⊎ (e ≡ NetFault.Memory)) }
    {
        if nodes == 0 || nodes > MAX_NODES {
            return Err(NetFault::Nodes);
        }
        let count = nodes * (nodes - 1) / 2;
        let words = vec![in alloc; full.word(); count as usize].map_err(|_| NetFault::Memory)?;
        Ok(Net {
            nodes,
            full,
            words,
            names: IndexSet::new(alloc),
        })
    }

    /// An equal network.
    pub fn copy(&self) -> Result<Net, Memory>
        ensures { IfOk result (λ copy. copy ≡ self.now) }
    {
        let Ok(words) = self.words.clone() else {
            return Err(Memory);
        };
        let Ok(names) = self.names.clone() else {
            return Err(Memory);
        };
        Ok(Net {
            nodes: self.nodes,
            full: self.full,
            words,
            names,
        })
    }

    /// Names the nodes.
    pub fn set_names(&mut self, names: Vec<String>) -> Result<(), NetFault>
        requires { length names.items ≡ self.old.nodes }
        ensures ok { OnOk result
            (self.new ≡ record self.old { names = map string_bytes names.items }) }
        ensures distinct { OnOk result (AreDistinct (map string_bytes names.items)) }
        ensures fault { IfErr result (IsNamesFaultOf (map string_bytes names.items)) }
        ensures kept { OnErr result (self.new ≡ self.old) }
    {
        self.names = numbered(*self.names.allocator(), names)?;
        Ok(())
    }

    /// The number of nodes.
    pub fn nodes(&self) -> u32
        ensures value { result ≡ self.now.nodes }
        ensures shape { IsShaped self.now }
    {
        self.nodes
    }

    /// The set that the network was opened with.
    pub fn full(&self) -> Rel
        ensures { result ≡ self.now.full }
    {
        self.full
    }

    /// The number of edges.
    pub fn edges(&self) -> u32
        ensures { result ≡ edge_count self.now.nodes }
    {
        self.nodes * (self.nodes - 1) / 2
    }

    /// The number of the edge from `i` to `j`.
    pub fn edge(&self, i: u32, j: u32) -> u32
        requires order { i < j }
        requires below { j < self.now.nodes }
        ensures value { result ≡ edge_at self.now.nodes i j }
        ensures below { result < edge_count self.now.nodes }
    {
        edge_at(self.nodes, i, j)
    }

    /// The set of an edge.
    pub fn word(&self, edge: u32) -> Rel
        requires { edge < edge_count self.now.nodes }
        ensures { result ≡ slice_index self.now.words edge }
    {
        Rel::of(self.words[edge as usize])
    }

    /// The sets of all edges, in edge order.
    pub fn words(&self) -> &[u64]
        ensures value { result.now ≡ self.now.words }
        ensures length_is { length self.now.words ≡ edge_count self.now.nodes }
    {
        &self.words
    }

    /// Sets the set of an edge.
    pub fn set(&mut self, edge: u32, rel: Rel)
        requires { edge < edge_count self.old.nodes }
        ensures { self.new ≡ record self.old { words = slice_set self.old.words edge rel } }
    {
        self.words[edge as usize] = rel.word();
    }

    /// The name of a node, where the nodes have names.
    pub fn name(&self, node: u32) -> Option<&str>
        requires { node < self.now.nodes }
        ensures { MatchOption result
            (self.now.names ≡ [])
            (λ name. slice_get self.now.names node ≡ Some name.now) }
    {
        let name = self.names.get_index(node as usize)?;
        Some(name.as_str())
    }

    /// The node of this name.
    pub fn find(&self, name: &[u8]) -> Option<u32>
        ensures { MatchOption result
            ((node : ℕ) → slice_get self.now.names node ≢ Some name.now)
            (λ node. (node < self.now.nodes)
            × (slice_get self.now.names node ≡ Some name.now)) }
    {
        let node = number_of(&self.names, name)?;
        Some(node as u32)
    }

    /// The relation of node `i` to node `j`: the set of their edge, or its converse where `i > j`.
    pub fn get<C: Compose>(&self, c: &C, i: u32, j: u32) -> Rel
        requires proper { IsProperPair self.now.nodes i j }
        requires within { IsNetwork (C.algebra c.now) self.now.nodes self.now.words }
        ensures value { result
            ≡ relation_between (C.algebra c.now) self.now.nodes self.now.words i j }
        ensures within { IsWithin result (full_of (C.algebra c.now)) }
    {
        relation_between(c, self.nodes, &self.words, i, j)
    }

    /// Narrows the relation of node `i` to node `j` to its intersection with `rel`.
    pub fn narrow<C: Compose>(&mut self, c: &C, i: u32, j: u32, rel: Rel)
        requires proper { IsProperPair self.old.nodes i j }
        requires within { IsWithin rel (full_of (C.algebra c.now)) }
        ensures { self.new ≡ record self.old {
          words = narrowed_at (C.algebra c.now) self.old.nodes self.old.words i j rel;
        } }
    {
        let edge = edge_between(self.nodes, i, j);
        self.set(edge, self.word(edge).meet(oriented(c, i, j, rel)));
    }

    /// Narrows the network by each fact. Where a fact is refused the network is as before.
    pub fn add_facts<C: Compose>(&mut self, c: &C, facts: &[Fact]) -> Result<(), NetFault>
        requires few { length facts.now < 2 ^ 32 }
        requires within { All (λ fact. IsWithin fact.rel (full_of (C.algebra c.now))) facts.now }
        ensures ok { OnOk result (self.new ≡ record self.old {
          words = narrowed_by (C.algebra c.now) self.old.nodes self.old.words facts.now;
        }) }
        ensures net { OnOk result
            (self.old.words ≡ replicate (edge_count self.old.nodes) (full_of (C.algebra c.now))
            → IsNetworkOfFacts (C.algebra c.now) self.old.nodes facts.now self.new.words) }

        // A fault comes exactly where a fact has one, and it is that of the first such fact.
        ensures proper { OnOk result (first_fault self.old.nodes 0 facts.now ≡ None) }
        ensures fault { IfErr result
            (λ fault. first_fault self.old.nodes 0 facts.now ≡ Some fault) }
        ensures kept { OnErr result (self.new ≡ self.old) }
    {
        if let Some(fault) = first_fault(self.nodes, facts) {
            return Err(fault);
        }
        for fact in facts {
            self.narrow(c, fact.i, fact.j, fact.rel);
        }
        Ok(())
    }
}
