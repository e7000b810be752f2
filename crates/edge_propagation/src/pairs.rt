//! The sets of all ordered pairs of nodes, and the queue of edges whose triples are to be looked at.
//!
//! A set is kept as bytes in planes, which `compose_fast::Tables` reads 16 at a time. The planes of a row lie one after
//! another, so that few nodes take little room: as much is filled as the nodes and the planes need. The set of a pair
//! with itself is that of the identity, which is within every composition of a set with its converse.
//!
//! An edge is queued where its mark says so. Proposals only tell which of them might come next; where the edge isn't
//! queued, the first mark is taken.

ghost use Rattle.std.specs.Prelude.{◌≡◌, ◌+◌, ◌*◌, ◌<◌, ◌≤◌, length};
ghost use Rattle.edge_propagation.specs.Worklist.{set_of_bytes};

use crate::order::Proposals;
use calculus_table::{Memory, Rel};
use compose_fast::{clear_to, filled, put_set, with_room};
use std::alloc::Global;
use std::marker::Model;

/// A narrowing that made a set smaller: that of `(i, k)` along `j`.
#[derive(Clone, Copy, Debug, PartialEq, Eq, Drop)]
pub struct Note {
    pub i: u8,
    pub j: u8,
    pub k: u8,
}

/// The sets of the ordered pairs of so many nodes, and the edges that are queued.
#[derive(Debug, Drop)]
pub struct PairSets {
    nodes: u32,
    planes: usize,
    bytes: Vec<u8>,
    queued: Vec<bool>,
    waiting: usize,
    proposals: Proposals,
    taken: u64,
    notes: Vec<Note>,
    noted: usize,
}

impl Model for PairSets {
    ghost use Rattle.std.specs.Prelude.{◌≡◌, ◌*◌, ◌-◌, ◌≤◌, length, count_by, vec_capacity};
    ghost use Rattle.edge_propagation.specs.Worklist.{Worklist, IsSized, AreBytesOf, AreEdgeMarks, worklist_in};

    ghost Value = { Worklist };

    ghost view = { λ a. worklist_in a.nodes a.planes a.bytes.items a.queued.items
        (length a.notes.items - a.noted) (length a.notes.items) };

    ghost invariant = { λ a.
        IsSized (worklist_in a.nodes a.planes a.bytes.items a.queued.items 0 0)
        × AreBytesOf (worklist_in a.nodes a.planes a.bytes.items a.queued.items 0 0) a.bytes.items
        × (a.waiting ≡ count_by (λ b. b) a.queued.items)
        × (2048 * a.nodes ≤ vec_capacity a.bytes)
        × AreEdgeMarks (worklist_in a.nodes a.planes a.bytes.items a.queued.items 0 0) };
}

/// The place of the first byte of the set of `(i, k)` in `P` planes.
#[inline(always)]
pub fn byte_place<const P: usize>(i: u32, k: u32) -> usize
    requires few { P ≤ 8 }
    requires first { i < 256 }
    requires second { k < 256 }
    ensures { result ≡ 256 * (P * i) + k }
{
    256 * (P * i as usize) + k as usize
}

/// The set whose bytes stand in so many planes of a row, the first one at a place.
#[inline(always)]
fn join_bytes(bytes: &[u8], planes: usize, at: usize) -> Rel
    requires few { planes ≤ 8 }
    requires inside { at + 256 * planes ≤ length bytes.now + 255 }
    ensures { result ≡ set_of_bytes bytes.now planes at }
{
    let mut all = Rel::EMPTY;
    for p in 0..planes {
        let byte = u64::from(bytes[256 * p + at]);
        all = all.union(Rel::of(byte << (8 * p)));
    }
    all
}

/// The same where the number of planes isn't known before: one or two are read without a loop.
#[inline(always)]
fn read_set(bytes: &[u8], planes: usize, at: usize) -> Rel
    requires few { planes ≤ 8 }
    requires inside { at + 256 * planes ≤ length bytes.now + 255 }
    ensures { result ≡ set_of_bytes bytes.now planes at }
{
    match planes {
        1 => join_bytes(bytes, 1, at),
        2 => join_bytes(bytes, 2, at),
        _ => join_bytes(bytes, planes, at),
    }
}

impl PairSets {
    ghost use Rattle.std.specs.Prelude.{◌≡◌, ◌+◌, ◌-◌, ◌*◌, ◌^◌, ◌<◌, ◌≤◌, ◌↔◌, ◌⊎◌, true, false, IsTrue};
    ghost use Rattle.std.specs.Prelude.{IfOk, OnOk, OnErr, IfSome, IfNone, MatchOption, length, slice_set};
    ghost use Rattle.network_words.specs.Edge.{IsProperPair};
    ghost use Rattle.network_words.specs.declared.TheConstants.{MAX_NODES};
    ghost use Rattle.edge_propagation.specs.Worklist.{Worklist, IsSized, AreBytesOf, IsWaiting, IsIdle, IsQueued};
    ghost use Rattle.edge_propagation.specs.Worklist.{IsQuiet, LacksRoom, IsBegun, set_of, edge_place};

    /// Room for so many nodes, with proposals for as many.
    pub fn new(alloc: Global, nodes: u32, proposals: Proposals) -> Result<PairSets, Memory>
        requires some { 0 < nodes }
        requires bounded { nodes ≤ MAX_NODES }
        ensures { IfOk result (λ work. work.nodes ≡ nodes) }
    {
        let bytes = with_room(alloc, 8 * nodes as usize)?;
        let queued = filled(alloc, false, nodes as usize)?;
        Ok(PairSets {
            nodes,
            planes: 0,
            bytes,
            queued,
            waiting: 0,
            proposals,
            taken: 0,
            notes: Vec::new(alloc),
            noted: 0,
        })
    }

    /// Makes room for so many blocks of 256 notes, and forgets what was noted.
    pub fn make_notes(&mut self, alloc: Global, blocks: usize) -> Result<(), Memory>
        ensures room { OnOk result (self.new ≡ record self.old { room = 256 * blocks; notes = 256 * blocks }) }
        ensures same { OnErr result (self.new ≡ self.old) }
    {
        self.notes = filled(alloc, Note { i: 0, j: 0, k: 0 }, blocks)?;
        self.noted = 0;
        Ok(())
    }

    /// Notes that the set of `(i, k)` was made smaller along `j`, if there is room.
    #[inline(always)]
    pub fn note(&mut self, i: u32, j: u32, k: u32)
        ensures { self.new ≡ record self.old { room = self.old.room - 1 } }
    {
        if self.noted < self.notes.len() {
            self.notes[self.noted] = Note {
                i: (i & 255) as u8,
                j: (j & 255) as u8,
                k: (k & 255) as u8,
            };
            self.noted += 1;
        }
    }

    /// What was noted, the first one first.
    pub fn notes(&self) -> &[Note] {
        self.notes.split_at(self.noted.min(self.notes.len())).0
    }

    /// Forgets what was noted, so that all of the room is there again.
    pub fn forget_notes(&mut self)
        ensures rest { self.new ≡ record self.old { room = self.new.room } }
        ensures forgotten { self.new.room ≡ self.old.notes }
        ensures room { self.old.room ≤ self.new.room }
    {
        self.noted = 0;
    }

    /// The number of nodes.
    #[inline(always)]
    pub fn nodes(&self) -> u32
        ensures value { result ≡ self.now.nodes }
        ensures sized { IsSized self.now }
    {
        self.nodes
    }

    /// The number of planes.
    pub fn planes(&self) -> usize
        ensures { result ≡ self.now.planes }
    {
        self.planes
    }

    /// The set of the pair `(i, j)`.
    #[inline(always)]
    pub fn set(&self, i: u32, j: u32) -> Rel
        requires first { i < self.now.nodes }
        requires second { j < self.now.nodes }
        ensures { result ≡ set_of self.now i j }
    {
        let at = 256 * (self.planes * i as usize) + j as usize;
        read_set(&self.bytes, self.planes, at)
    }

    /// The set of the pair `(i, j)`, where the number of planes is known.
    #[inline(always)]
    pub fn get<const P: usize>(&self, i: u32, j: u32) -> Rel
        requires planes { self.now.planes ≡ P }
        requires first { i < self.now.nodes }
        requires second { j < self.now.nodes }
        ensures { result ≡ set_of self.now i j }
    {
        let _ = &self.nodes;
        join_bytes(&self.bytes, P, byte_place::<P>(i, j))
    }

    /// The planes of the sets.
    #[inline(always)]
    pub fn bytes(&self) -> &[u8]
        ensures { AreBytesOf self.now result.now }
    {
        &self.bytes
    }

    /// Keeps the sets in so many planes from now on. The sets may be others afterwards.
    pub fn set_planes(&mut self, planes: usize)
        requires { planes ≤ 8 }
        ensures { self.new ≡ record self.old { planes = planes; sets = self.new.sets } }
    {
        if self.planes != planes {
            clear_to(&mut self.bytes, planes * self.nodes as usize);
            self.planes = planes;
        }
    }

    /// Sets the set of the pair `(i, j)`.
    #[inline(always)]
    pub fn put<const P: usize>(&mut self, i: u32, j: u32, rel: Rel)
        requires planes { self.old.planes ≡ P }
        requires first { i < self.old.nodes }
        requires second { j < self.old.nodes }
        requires fits { rel < 2 ^ (8 * P) }
        ensures value { self.new ≡ record self.old { sets = slice_set self.old.sets (256 * i + j) rel } }
        ensures sized { IsSized self.old }
    {
        let _ = &self.nodes;
        put_set::<P>(&mut self.bytes, byte_place::<P>(i, j), rel);
    }

    /// Queues the edge between `i` and `j`, whose set has so many members.
    #[inline(always)]
    pub fn push(&mut self, i: u32, j: u32, members: u32)
        requires { IsProperPair self.old.nodes i j }
        ensures value { self.new ≡ record self.old { queued = slice_set self.old.queued (edge_place i j) true } }
        ensures sized { IsSized self.old }
    {
        let _ = &self.nodes;
        let (low, high) = if i < j { (i, j) } else { (j, i) };
        let place = (256 * low + high) as usize;
        let is_queued = self.queued[place];
        self.waiting += if is_queued { 0 } else { 1 };
        self.queued[place] = true;
        self.proposals.put(low, high, members, is_queued);
    }

    /// Whether the edge from `i` to `j` is queued.
    fn is_queued(&self, i: u32, j: u32) -> bool
        requires order { i < j }
        requires below { j < self.now.nodes }
        ensures { IsTrue result ↔ IsQueued self.now i j }
    {
        self.queued[(256 * i + j) as usize]
    }

    /// The edge that is proposed, if it is queued.
    #[inline(always)]
    fn proposed(&mut self) -> Option<(u32, u32)>
        ensures same { self.new ≡ self.old }
        ensures edge { IfSome result (λ e. IsWaiting self.old e.0 e.1) }
    {
        let (i, j) = self.proposals.take()?;
        if i < j && j < self.nodes && self.is_queued(i, j) {
            Some((i, j))
        } else {
            None
        }
    }

    /// The first edge from `i` to a greater node that is queued.
    fn first_in_row(&self, i: u32) -> Option<u32>
        requires { i < self.now.nodes }
        ensures { MatchOption result (IsIdle self.now i) (λ j. IsWaiting self.now i j) }
    {
        let nodes = self.nodes();
        for j in i + 1..nodes {
            if self.is_queued(i, j) {
                return Some(j);
            }
        }
        None
    }

    /// The first edge that is queued.
    #[inline(never)]
    fn first_queued(&self) -> Option<(u32, u32)>
        ensures { MatchOption result
            (IsQuiet self.now) (λ e. IsWaiting self.now e.0 e.1) }
    {
        let nodes = self.nodes();
        for i in 0..nodes {
            if let Some(j) = self.first_in_row(i) {
                return Some((i, j));
            }
        }
        None
    }

    /// An edge that is queued: the one that is proposed, or where that isn't queued the first.
    #[inline(always)]
    fn next_queued(&mut self) -> Option<(u32, u32)>
        ensures same { self.new ≡ self.old }
        ensures edge { MatchOption result
            (IsQuiet self.old) (λ e. IsWaiting self.old e.0 e.1) }
    {
        if let Some(edge) = self.proposed() {
            return Some(edge);
        }
        self.first_queued()
    }

    /// Takes an edge off the queue.
    #[inline(always)]
    pub fn pop(&mut self) -> Option<(u32, u32)>
        ensures idle { IfNone result ((self.new ≡ self.old) × IsQuiet self.old) }
        ensures queued { IfSome result (λ e. IsWaiting self.old e.0 e.1) }
        ensures taken { IfSome result (λ e. self.new ≡ record self.old {
          queued = slice_set self.old.queued (edge_place e.0 e.1) false;
        }) }
        ensures sized { IsSized self.old }
    {
        let _ = &self.nodes;
        if self.waiting == 0 {
            return None;
        }
        let (i, j) = self.next_queued()?;
        self.waiting -= 1;
        self.queued[(256 * i + j) as usize] = false;
        self.taken = self.taken.wrapping_add(1);
        Some((i, j))
    }

    /// Takes an edge off the queue, where there is room for a note of each of its triples.
    pub fn pop_noted(&mut self) -> Option<(u32, u32)>
        ensures done { IfNone result ((self.new ≡ self.old) × (IsQuiet self.old ⊎ LacksRoom self.old)) }
        ensures queued { IfSome result (λ e. IsWaiting self.old e.0 e.1) }
        ensures taken { IfSome result (λ e. self.new ≡ record self.old {
          queued = slice_set self.old.queued (edge_place e.0 e.1) false;
        }) }
        ensures sized { IsSized self.old }
    {
        if self.notes.len().saturating_sub(self.noted) < 2 * self.nodes as usize {
            return None;
        }
        self.pop()
    }

    /// Whether no edge is queued.
    pub fn is_idle(&self) -> bool
        ensures { IsTrue result ↔ IsQuiet self.now }
    {
        self.waiting == 0
    }

    /// How many edges were taken off the queue so far.
    pub fn taken(&self) -> u64 {
        self.taken
    }

    /// Takes every edge off the queue.
    pub fn clear(&mut self)
        ensures rest { self.new ≡ record self.old { queued = self.new.queued } }
        ensures idle { IsQuiet self.new }
    {
        if self.waiting == 0 && self.proposals.is_empty() {
            return;
        }
        self.waiting = 0;
        self.queued.fill(false);
        self.proposals.clear();
    }

    /// Queues the edges from `i` to greater nodes whose set isn't `full`.
    fn push_row(&mut self, full: Rel, i: u32)
        requires below { i < self.old.nodes }
        requires before { IsBegun self.old full i }
        ensures rest { self.new ≡ record self.old { queued = self.new.queued } }
        ensures begun { IsBegun self.new full (i + 1) }
    {
        let nodes = self.nodes();
        for j in i + 1..nodes {
            let rel = self.set(i, j);
            if rel != full {
                self.push(i, j, rel.count());
            }
        }
    }

    /// Queues the edges whose set isn't `full`, and no other.
    pub fn push_lesser(&mut self, full: Rel)
        ensures rest { self.new ≡ record self.old { queued = self.new.queued } }
        ensures begun { IsBegun self.new full self.new.nodes }
    {
        self.clear();
        let nodes = self.nodes();
        for i in 0..nodes {
            self.push_row(full, i);
        }
    }
}
