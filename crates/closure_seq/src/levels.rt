//! Networks one above another, of which the top alone is stored: a trail keeps which sets were replaced, and a mark
//! for each level how long the trail was when the level began. The level below is the top with the changes since the
//! last mark undone, the last first. So a level costs what it changed, in time and in memory.

ghost use Rattle.std.specs.Prelude.{◌≡◌, ◌-◌, ◌<◌, length, slice_index, All};
ghost use Rattle.closure_seq.specs.Levels.{restored};

use calculus_table::{Memory, Rel};
use network_words::edge_between;
use std::alloc::Global;
use std::marker::Model;

/// A set that a level replaced.
#[derive(Clone, Copy, Debug, PartialEq, Eq)]
pub struct Change {
    /// The lesser node of the edge.
    pub i: u16,
    /// The greater one.
    pub j: u16,
    /// The number of the edge.
    pub edge: u32,
    /// The set that it had before.
    pub old: Rel,
}

/// The sets of networks of one number of nodes, level above level.
#[derive(Debug, Drop)]
pub(crate) struct Levels {
    nodes: u32,
    full: Rel,
    words: Vec<u64>,
    trail: Vec<Change>,
    marks: Vec<usize>,
}

impl Model for Levels {
    ghost use Rattle.closure_seq.specs.Levels.{LevelSets, IsTrail, levels_below, last_changes};

    ghost Value = { LevelSets };

    ghost view = { λ a. record {
      nodes = a.nodes;
      full = a.full;
      top = a.words.items;
      below = levels_below a.words.items a.trail.items a.marks.items;
      changes = last_changes a.trail.items a.marks.items;
    } };

    ghost invariant = { λ a. IsTrail a.nodes a.full a.words.items a.trail.items a.marks.items };
}

/// The last mark, or 0 where there is none.
fn last_mark(marks: &[usize]) -> usize
    ensures { result ≡ slice_index marks.now (length marks.now - 1) }
{
    if marks.is_empty() {
        0
    } else {
        marks[marks.len() - 1]
    }
}

/// The sets before the changes, of which the first came first.
fn restore(mut sets: Vec<u64>, changes: &[Change]) -> Vec<u64>
    requires { All (λ change. change.edge < length sets.items) changes.now }
    ensures { result.items ≡ restored sets.items changes.now }
{
    for k in (0..changes.len()).rev() {
        let change = changes[k];
        sets[change.edge as usize] = change.old.word();
    }
    sets
}

impl Levels {
    ghost use Rattle.std.specs.Prelude.{◌≡◌, ◌∷◌, ◌++◌, [], ◌<◌, length, slice_index, slice_set, ◌≤◌, ◌↔◌};
    ghost use Rattle.std.specs.Prelude.{All, IsTrue, IfSome, IfNone, IfOk, OnOk, OnErr, get_or};
    ghost use Rattle.calculus_table.specs.Rel.{IsWithin};
    ghost use Rattle.network_words.specs.Edge.{edge_count, edge_at};
    ghost use Rattle.network_words.specs.declared.TheConstants.{MAX_NODES};
    ghost use Rattle.closure_seq.specs.Levels.{LevelSets, AreSets, IsChange, IsRestoredBelow};

    /// One level.
    pub(crate) fn new(alloc: Global, nodes: u32, full: Rel, words: Vec<u64>) -> Levels
        requires bounded { nodes ≤ MAX_NODES }
        requires words { AreSets nodes full words.items }
        ensures { result ≡ record { nodes = nodes; full = full; top = words.items; below = []; changes = [] } }
    {
        Levels {
            nodes,
            full,
            words,
            trail: Vec::new(alloc),
            marks: Vec::new(alloc),
        }
    }

    /// The number of nodes.
    pub(crate) fn nodes(&self) -> u32
        ensures value { result ≡ self.now.nodes }
        ensures bounded { self.now.nodes ≤ MAX_NODES }
        ensures sets { AreSets self.now.nodes self.now.full self.now.top }
    {
        self.nodes
    }

    /// Whether there is one level alone.
    pub(crate) fn is_first(&self) -> bool
        ensures { IsTrue result ↔ (length self.now.below ≡ 0) }
    {
        self.marks.is_empty()
    }

    /// Whether there is an edge, and the set of the first one of the top is empty.
    pub(crate) fn is_empty(&self) -> bool
        ensures { IsTrue result ↔ (0 < edge_count self.now.nodes) × (slice_index self.now.top 0 ≡ 0) }
    {
        self.nodes > 1 && self.set(0).is_empty()
    }

    /// The set of an edge of the top.
    pub(crate) fn set(&self, edge: u32) -> Rel
        requires { edge < edge_count self.now.nodes }
        ensures value { result ≡ slice_index self.now.top edge }
        ensures within { IsWithin result self.now.full }
    {
        Rel::of(self.words[edge as usize])
    }

    /// The set of the edge from `i` to `j` of the top.
    pub(crate) fn set_between(&self, i: u32, j: u32) -> Rel
        requires order { i < j }
        requires below { j < self.now.nodes }
        ensures value { result ≡ slice_index self.now.top (edge_at self.now.nodes i j) }
        ensures within { IsWithin result self.now.full }
    {
        self.set(edge_between(self.nodes, i, j))
    }

    /// The changes of the top against the level below, the first one first.
    pub(crate) fn changes(&self) -> &[Change]
        ensures value { result.now ≡ self.now.changes }
        ensures restored { IsRestoredBelow self.now }
        ensures edges { All (IsChange self.now.nodes self.now.full) self.now.changes }
    {
        let mark = last_mark(&self.marks);
        self.trail.split_at(mark).1
    }

    /// A copy of the sets of a level, by the number of levels below it; of the top where there are fewer.
    pub(crate) fn sets_at(&self, alloc: Global, level: usize) -> Result<Vec<u64>, Memory>
        ensures { IfOk result (λ sets. sets.items ≡ get_or self.now.below level self.now.top) }
    {
        let Ok(sets) = Vec::from_slice(alloc, &self.words) else {
            return Err(Memory);
        };
        let Some(mark) = self.marks.get(level) else {
            return Ok(sets);
        };
        Ok(restore(sets, self.trail.split_at(*mark).1))
    }

    /// Begins a level, whose sets are at first those of the top.
    pub(crate) fn push(&mut self) -> Result<(), Memory>
        ensures level { OnOk result
            (self.new ≡ record self.old { below = self.old.below ++ self.old.top ∷ []; changes = [] }) }
        ensures memory { OnErr result (self.new ≡ self.old) }
    {
        let Ok(()) = self.marks.push(self.trail.len()) else {
            return Err(Memory);
        };
        Ok(())
    }

    /// Replaces the set of the edge from `i` to `j` of the top.
    pub(crate) fn replace(&mut self, i: u32, j: u32, rel: Rel) -> Result<(), Memory>
        requires order { i < j }
        requires below { j < self.old.nodes }
        requires within { IsWithin rel self.old.full }
        ensures top { OnOk result (self.new ≡ record self.old {
          top = slice_set self.old.top (edge_at self.old.nodes i j) rel;
          changes = self.new.changes;
        }) }
        ensures memory { OnErr result (self.new ≡ self.old) }
        ensures sized { AreSets self.old.nodes self.old.full self.old.top }
    {
        let edge = edge_between(self.nodes, i, j);
        let old = Rel::of(self.words[edge as usize]);
        let change = Change {
            i: i as u16,
            j: j as u16,
            edge,
            old,
        };
        let Ok(()) = self.trail.push(change) else {
            return Err(Memory);
        };
        self.words[edge as usize] = rel.word();
        Ok(())
    }

    /// Undoes the last change of the top.
    pub(crate) fn undo(&mut self) -> Option<Change>
        ensures none { IfNone result (self.new ≡ self.old) }
        ensures no_change { IfNone result (self.old.changes ≡ []) }
        ensures undone { IfSome result (λ change. self.new ≡ record self.old {
          top = slice_set self.old.top change.edge change.old;
          changes = self.new.changes;
        }) }
        ensures last { IfSome result (λ change. self.old.changes ≡ self.new.changes ++ change ∷ []) }
        ensures change { IfSome result (λ change. IsChange self.old.nodes self.old.full change) }
        ensures sized { AreSets self.old.nodes self.old.full self.old.top }
    {
        let mark = last_mark(&self.marks);
        if self.trail.len() <= mark {
            return None;
        }
        let change = self.trail.pop()?;
        self.words[change.edge as usize] = change.old.word();
        Some(change)
    }

    /// Ends a level that has no change.
    pub(crate) fn pop(&mut self)
        requires some { 0 < length self.old.below }
        requires no_change { self.old.changes ≡ [] }
        ensures below { self.old.below ≡ self.new.below ++ self.old.top ∷ [] }
        ensures rest { self.new ≡ record self.old { below = self.new.below; changes = self.new.changes } }
    {
        let _mark = self.marks.pop();
    }
}
