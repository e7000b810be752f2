//! Paths of closed networks, on which a search narrows edges and takes that back.
//!
//! The first level is the closure of a network. Each level above is the closure of the one below with the set of one
//! edge made smaller. Closing it begins at that edge alone: in a closed network every triple is closed, and it stays
//! so where no source became smaller (Dechter 2003 tells of search with propagation at each step).
//!
//! The top alone is stored; what it replaced of the level below is kept on a trail. In a closed network with an empty
//! set every set is empty. So a level with an empty set isn't stored: it is counted, and so is each level above it.
//!
//! What it costs: a level takes the time and the memory of what it changes, to begin it and to take it back. A set
//! that a level replaces can lose base relations only as often as it has some, so all levels together keep at most as
//! many changes as the sets of the first level have members.

ghost use Rattle.std.specs.Prelude.{◌≡◌, ℕ, ◌*◌, ◌<◌, ◌≤◌};
ghost use Rattle.edge_propagation.specs.Worklist.{Worklist};

use crate::closing::close_with;
use crate::levels::{Change, Levels};
use crate::narrowing::{Halt, begin_level, end_level};
use crate::work::Work;
use calculus_table::{Compose, Memory, Rel, lawful};
use compose_fast::{Fast, Tables};
use edge_propagation::{PairSets, load_planes, nodes_of_edge};
use network_words::Net;
use std::alloc::Global;
use std::marker::Model;

/// Closed networks, each above the first the closure of the one below it with one edge's set made smaller. The last
/// is the top.
#[derive(Debug, Drop)]
pub struct ClosedPath {
    calculus: Fast,
    pairs: PairSets,
    tables: Tables,
    levels: Levels,
    emptied: u64,
}

impl Model for ClosedPath {
    ghost use Rattle.std.specs.Prelude.{◌<◌};
    ghost use Rattle.network_words.specs.Edge.{edge_count};
    ghost use Rattle.closure_seq.specs.Paths.{Path, IsStanding, counted_top, counted_below};

    ghost Value = { Path };

    ghost view = { λ a. record {
      algebra = a.calculus;
      nodes = a.levels.nodes;
      top = counted_top a.emptied a.levels.top;
      below = counted_below a.emptied a.levels.top a.levels.below;
    } };

    ghost invariant = { λ a. IsStanding a.calculus a.pairs a.levels a.tables.bases
        × (0 < a.emptied → 0 < edge_count a.levels.nodes) };
}

impl ClosedPath {
    ghost use Rattle.std.specs.Prelude.{◌≡◌, ℕ, ◌∷◌, ◌++◌, [], ◌<◌, ◌↔◌, List, length, replicate};
    ghost use Rattle.std.specs.Prelude.{slice_index, slice_set, get_or, All, Contains, IsTrue, IfOk, OnOk, OnErr};
    ghost use Rattle.calculus_table.specs.Rel.{IsWithin};
    ghost use Rattle.calculus_table.specs.Composition.{full_of};
    ghost use Rattle.network_words.specs.Edge.{edge_count};
    ghost use Rattle.network_words.specs.Network.{IsNetwork};
    ghost use Rattle.network_words.specs.Closure.{IsClosure};
    ghost use Rattle.closure_seq.specs.Levels.{IsChange, restored};
    ghost use Rattle.closure_seq.specs.Paths.{Path, IsPath, IsPathOf};

    /// The path of one level, the closure of a network.
    pub fn new<C: Compose>(alloc: Global, net: &Net, c: &C) -> Result<ClosedPath, Memory>
        requires { IsNetwork (C.algebra c.now) net.now.nodes net.now.words }
        ensures { IfOk result (λ path. IsPathOf (C.algebra c.now) net.now.nodes net.now.words path) }
    {
        let calculus = Fast::of(alloc, c)?;
        let mut closed = net.copy()?;
        let mut work = Work::new(alloc, closed.nodes())?;
        close_with(&mut closed, &calculus, &mut work);
        let Work {
            mut pairs,
            mut tables,
        } = work;
        load_planes(&mut pairs, &mut tables, closed.words(), &calculus);
        pairs.clear();
        let Ok(words) = Vec::from_slice(alloc, closed.words()) else {
            return Err(Memory);
        };
        let levels = Levels::new(alloc, closed.nodes(), calculus.full(), words);
        Ok(ClosedPath {
            calculus,
            pairs,
            tables,
            levels,
            emptied: 0,
        })
    }

    /// The number of nodes.
    pub fn nodes(&self) -> u32
        ensures value { result ≡ self.now.nodes }
        ensures path { IsPath self.now }
    {
        self.pairs.nodes()
    }

    /// The number of edges.
    pub fn edges(&self) -> u32
        ensures { result ≡ edge_count self.now.nodes }
    {
        let nodes = self.nodes();
        nodes * (nodes - 1) / 2
    }

    /// Whether the top is the first level.
    pub fn is_first(&self) -> bool
        ensures { IsTrue result ↔ (length self.now.below ≡ 0) }
    {
        self.emptied == 0 && self.levels.is_first()
    }

    /// Whether the top has an empty set. Then every set of it is empty.
    pub fn is_empty(&self) -> bool
        ensures { IsTrue result ↔ Contains self.now.top 0 }
    {
        self.emptied > 0 || self.levels.is_empty()
    }

    /// The set of an edge of the top.
    pub fn word(&self, edge: u32) -> Rel
        requires { edge < edge_count self.now.nodes }
        ensures { result ≡ slice_index self.now.top edge }
    {
        if self.emptied > 0 {
            return Rel::EMPTY;
        }
        self.levels.set(edge)
    }

    /// The sets that the top replaced, the first one first: undone from the last to the first they make the top the
    /// level below. An edge whose set isn't among them has the same set in both.
    pub fn changes(&self) -> &[Change]
        requires some { 0 < length self.now.below }
        requires not_empty { ¬ Contains self.now.top 0 }
        ensures restored { (bs : List (List ℕ)) (b : List ℕ) →
            self.now.below ≡ bs ++ b ∷ [] → b ≡ restored self.now.top result.now }
        ensures edges { All (IsChange self.now.nodes (full_of self.now.algebra)) result.now }
    {
        self.levels.changes()
    }

    /// A copy of the sets of a level, by the number of levels below it; of the top where there are fewer.
    pub fn sets_at(&self, alloc: Global, level: usize) -> Result<Vec<u64>, Memory>
        requires { ¬ Contains self.now.top 0 }
        ensures { IfOk result (λ sets. sets.items ≡ get_or self.now.below level self.now.top) }
    {
        self.levels.sets_at(alloc, level)
    }

    /// Counts a level whose every set is empty.
    fn count_level(&mut self) -> Result<(), Memory>
        requires { 0 < edge_count self.old.nodes }
        ensures level { OnOk result (self.new ≡ record self.old {
          top = replicate (length self.old.top) 0;
          below = self.old.below ++ self.old.top ∷ [];
        }) }
        ensures memory { OnErr result (self.new ≡ self.old) }
    {
        let Some(emptied) = self.emptied.checked_add(1) else {
            return Err(Memory);
        };
        self.emptied = emptied;
        Ok(())
    }

    /// Pushes a level: the closure of the top with the set of an edge made smaller. If memory runs out the path is as
    /// before.
    pub fn narrow(&mut self, edge: u32, rel: Rel) -> Result<(), Memory>
        requires below { edge < edge_count self.old.nodes }
        requires within { IsWithin rel (slice_index self.old.top edge) }
        ensures closure { OnOk result
            (IsClosure self.old.algebra self.old.nodes (slice_set self.old.top edge rel) self.new.top) }
        ensures level { OnOk result
            (self.new ≡ record self.old { top = self.new.top; below = self.old.below ++ self.old.top ∷ [] }) }
        ensures memory { OnErr result (self.new ≡ self.old) }
    {
        let nodes = self.nodes();
        if self.is_empty() {
            return self.count_level();
        }
        let pair = nodes_of_edge(nodes, edge);
        let pairs = &mut self.pairs;
        match begin_level(
            pairs,
            &mut self.tables,
            &self.calculus,
            &mut self.levels,
            pair,
            rel,
        ) {
            Ok(()) => Ok(()),
            Err(Halt::Memory) => Err(Memory),
            Err(Halt::Emptied) => self.count_level(),
        }
    }

    /// Pops the top, so that the level below it is the top again.
    pub fn back(&mut self)
        requires { 0 < length self.old.below }
        ensures { self.old ≡ record self.new { top = self.old.top; below = self.new.below ++ self.new.top ∷ [] } }
    {
        if self.emptied > 0 {
            self.emptied -= 1;
            return;
        }
        end_level(
            &mut self.pairs,
            &self.tables,
            &self.calculus,
            &mut self.levels,
        );
    }
}
