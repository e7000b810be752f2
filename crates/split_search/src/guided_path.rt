//! A path of closed networks whose splits a class rules: it tells the edge that is split next, and into which parts.
//!
//! The candidates for the edge follow the path as it narrows and goes back. On a level with an empty set nothing is
//! split, so they stay there as they are on the level below, until that level is left.
ghost use Rattle.std.specs.Prelude.{◌≡◌, [], ◌<◌, IfOk, length};

use crate::candidates::Candidates;
use crate::known_parts::KnownParts;
use calculus_table::{Memory, Rel};
use closure_seq::ClosedPath;
use std::alloc::Global;
use std::marker::Model;
use tract_classes::Class;

/// Closed networks, each above the first the closure of the one below it with one edge's set made smaller, and a class
/// that says which edge of the last one, the top, is split next.
#[derive(Drop)]
pub struct GuidedPath<'a> {
    path: ClosedPath,
    class: &'a Class,
    size: u32,
    candidates: Candidates,
    parts: KnownParts,
}

impl<'a> Model for GuidedPath<'a> {
    ghost use Rattle.split_search.specs.Candidates.{GuidedLevels, guided_by, FollowsTop, AreKnown};

    ghost Value = { GuidedLevels };

    ghost view = { λ a. guided_by a.class.now a.size a.path };

    ghost invariant = { λ a. FollowsTop a.class.now a.path.top a.path.below a.candidates
        × AreKnown a.class.now a.size a.parts };
}

impl<'a> GuidedPath<'a> {
    ghost use Rattle.std.specs.Prelude.{◌∷◌, ◌++◌, ◌≤◌, ◌↔◌, ℕ, slice_index, slice_set, get_or, All, Contains};
    ghost use Rattle.std.specs.Prelude.{IsTrue, OnOk, OnErr, MatchOption};
    ghost use Rattle.calculus_table.specs.Rel.{IsWithin};
    ghost use Rattle.network_words.specs.Edge.{edge_count};
    ghost use Rattle.network_words.specs.Closure.{IsClosure};
    ghost use Rattle.tract_classes.specs.Class.{HasBasesOf};
    ghost use Rattle.split_search.specs.Ruled.{IsSeveral};
    ghost use Rattle.split_search.specs.Way.{IsLeft};
    ghost use Rattle.split_search.specs.Candidates.{IsNextEdge, AreNextParts};
    ghost use Rattle.split_search.specs.Candidates.{guided_by};

    /// Guides a path of one level by a class of sets of so many base relations.
    pub fn new(
        alloc: Global,
        path: ClosedPath,
        class: &'a Class,
        size: u32,
    ) -> Result<GuidedPath<'a>, Memory>
        requires { path.below ≡ [] }
        ensures { IfOk result (λ guided. guided ≡ guided_by class.now size path) }
    {
        let _nodes = path.nodes();
        let candidates = Candidates::new(alloc, &path, class)?;
        Ok(GuidedPath {
            path,
            class,
            size,
            candidates,
            parts: KnownParts::new(alloc),
        })
    }

    /// The number of base relations.
    pub fn size(&self) -> u32
        ensures { result ≡ self.now.size }
    {
        self.size
    }

    /// Whether the top is the first level.
    pub fn is_first(&self) -> bool
        ensures { IsTrue result ↔ (length self.now.below ≡ 0) }
    {
        self.path.is_first()
    }

    /// The class.
    pub(crate) fn class(&self) -> &'a Class
        ensures { result.now ≡ self.now.class }
    {
        self.class
    }

    /// Whether the top has an empty set.
    pub fn is_empty(&self) -> bool
        ensures { IsTrue result ↔ Contains self.now.top 0 }
    {
        self.path.is_empty()
    }

    /// The number of edges.
    pub fn edges(&self) -> u32
        ensures { result ≡ edge_count self.now.nodes }
    {
        self.path.edges()
    }

    /// The set of an edge of the top.
    pub fn word(&self, edge: u32) -> Rel
        requires { edge < edge_count self.now.nodes }
        ensures { result ≡ slice_index self.now.top edge }
    {
        self.path.word(edge)
    }

    /// Whether each set of the top is in the class.
    pub fn is_over_class(&self) -> bool
        requires { ¬ Contains self.now.top 0 }
        ensures { IsTrue result ↔ All (Contains self.now.class) self.now.top }
    {
        self.candidates.are_over_class()
    }

    /// A copy of the sets of a level, by the number of levels below it; of the top where there are fewer.
    pub(crate) fn sets_at(&self, alloc: Global, level: usize) -> Result<Vec<u64>, Memory>
        requires { ¬ Contains self.now.top 0 }
        ensures { IfOk result (λ sets. sets.items ≡ get_or self.now.below level self.now.top) }
    {
        self.path.sets_at(alloc, level)
    }

    /// The edge that is split next; none where each edge has one base relation.
    pub fn next_edge(&self) -> Option<u32>
        requires { ¬ Contains self.now.top 0 }
        ensures { MatchOption result
            (All (λ a. ¬ IsSeveral a) self.now.top)
            (IsNextEdge self.now.class self.now.top) }
    {
        self.candidates.next_edge()
    }

    /// The parts of the set of the edge that is split next.
    pub fn next_parts(&mut self, alloc: Global, edge: u32) -> Result<Vec<Rel>, Memory>
        requires below { edge < edge_count self.old.nodes }
        requires small { self.old.size ≤ 64 }
        requires bases { HasBasesOf self.old.class (slice_index self.old.top edge) }
        ensures parts { IfOk result (λ parts.
            AreNextParts self.old.size self.old.class (slice_index self.old.top edge) parts.items) }
        ensures path { self.new ≡ self.old }
    {
        let set = self.path.word(edge);
        self.parts.find(alloc, self.class, self.size, set)
    }

    /// Pushes a level: the closure of the top with the set of an edge made smaller. If memory runs out the path is as
    /// before.
    pub fn narrow(&mut self, edge: u32, rel: Rel) -> Result<(), Memory>
        requires full { ¬ Contains self.old.top 0 }
        requires below { edge < edge_count self.old.nodes }
        requires within { IsWithin rel (slice_index self.old.top edge) }
        ensures closure { OnOk result
            (IsClosure self.old.algebra self.old.nodes (slice_set self.old.top edge rel) self.new.top) }
        ensures level { OnOk result
            (self.new ≡ record self.old { top = self.new.top; below = self.old.below ++ self.old.top ∷ [] }) }
        ensures memory { OnErr result (self.new ≡ self.old) }
    {
        self.path.narrow(edge, rel)?;
        if !self.path.is_empty() {
            let _nodes = self.path.nodes();
            self.candidates.enter(self.class, &self.path);
        }
        Ok(())
    }

    /// Leaves the top, if it isn't the first level.
    pub fn leave(&mut self)
        ensures left { IsLeft self.old.below self.new.below self.new.top }
        ensures rest { self.new ≡ record self.old { top = self.new.top; below = self.new.below } }
    {
        if self.path.is_first() {
            return;
        }
        if self.path.is_empty() {
            self.path.back();
            return;
        }
        let _nodes = self.path.nodes();
        self.candidates.leave(self.class, &self.path);
        self.path.back();
    }
}
