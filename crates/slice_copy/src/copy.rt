//! A copy of a network's sets, on which the edges of a slice are closed by propagation.
//!
//! Who narrows the words of a table that others narrow too takes them over into a copy, and closes his slice there.
//! What that made smaller is noted, triple by triple, so that the same triples narrow the words of the table in the
//! same order. Notes only propose. Whether the slice is closed is told by a comparison at the end: where no edge is
//! queued, and the words are the sets of the copy, each triple of the slice is closed.
//!
//! A copy is *settled* where each triple of the slice is closed unless one of its source edges is queued. It becomes so
//! by queueing each edge whose set isn't full, or by a sweep of the rows of the slice, which is less where most edges
//! are stated. Then edges are taken off the queue.

ghost use Rattle.std.specs.Prelude.{◌≡◌, ◌*◌, ◌<◌, ◌≤◌, ◌⊎◌, length, IsTrue, false};
ghost use Rattle.network_words.specs.Edge.{edge_count, IsProperPair};
ghost use Rattle.network_words.specs.declared.TheConstants.{MAX_NODES};
ghost use Rattle.compose_fast.specs.Planes.{AreBaseTables};
ghost use Rattle.edge_propagation.specs.Worklist.{IsQuiet, LacksRoom};
ghost use Rattle.edge_propagation.specs.Propagation.{AreConverses, IsReady, IsRefinement, IsStep};
ghost use Rattle.edge_propagation.specs.Propagation.{IsSettled, AreRowsSettled, HasEmpty, EmptiesNone};
ghost use Rattle.edge_propagation.specs.Propagation.{IsPlanes, IsMet, IsPairMet, AreRowsMet};

use crate::rows::rows_of;
use calculus_table::{Compose, Memory, Rel, lawful};
use compose_fast::Tables;
use edge_propagation::{
    Note, PairSets, Proposals, Span, Sweep, is_stored, load_planes, meet, meet_pair,
    propagate_noted, sweep_rows,
};
use std::alloc::Global;
use std::marker::Model;

/// Intersects each set with that of its edge, for the number of planes that the sets are kept in.
fn meet_planes<C: Compose>(pairs: &mut PairSets, words: &[u64], c: &C)
    requires planes { IsPlanes pairs.old.planes }
    requires enough { (C.algebra c.now).size ≤ 8 * pairs.old.planes }
    requires sets { AreConverses (C.algebra c.now) pairs.old }
    requires length_is { length words.now ≡ edge_count pairs.old.nodes }
    ensures met { IsMet (C.algebra c.now) pairs.old pairs.new }
    ensures rows { AreRowsMet words.now pairs.old pairs.new pairs.old.nodes }
{
    let planes = pairs.planes();
    if planes == 1 {
        meet::<C, 1>(pairs, c, words);
    } else if planes == 2 {
        meet::<C, 2>(pairs, c, words);
    } else if planes == 4 {
        meet::<C, 4>(pairs, c, words);
    } else {
        meet::<C, 8>(pairs, c, words);
    }
}

/// Intersects the set of `(i, j)` with another, for the number of planes that the sets are kept in.
fn meet_pair_planes<C: Compose>(pairs: &mut PairSets, c: &C, i: u32, j: u32, rel: Rel)
    requires planes { IsPlanes pairs.old.planes }
    requires enough { (C.algebra c.now).size ≤ 8 * pairs.old.planes }
    requires sets { AreConverses (C.algebra c.now) pairs.old }
    requires proper { IsProperPair pairs.old.nodes i j }
    ensures met { IsMet (C.algebra c.now) pairs.old pairs.new }
    ensures set { IsPairMet pairs.old pairs.new i j rel }
{
    let planes = pairs.planes();
    if planes == 1 {
        meet_pair::<C, 1>(pairs, c, i, j, rel);
    } else if planes == 2 {
        meet_pair::<C, 2>(pairs, c, i, j, rel);
    } else if planes == 4 {
        meet_pair::<C, 4>(pairs, c, i, j, rel);
    } else {
        meet_pair::<C, 8>(pairs, c, i, j, rel);
    }
}

/// Propagates along the rows, for the number of planes that the sets are kept in. Returns whether no set became empty.
fn propagate_planes<C: Compose>(
    pairs: &mut PairSets,
    tables: &mut Tables,
    c: &C,
    rows: Span,
) -> bool
    requires planes { IsPlanes pairs.old.planes }
    requires ready { IsReady (C.algebra c.now) pairs.old.planes pairs.old }
    requires settled { IsSettled (C.algebra c.now) rows pairs.old }
    requires tables { AreBaseTables (C.algebra c.now) pairs.old.planes tables.old.bases }
    ensures refined { IsRefinement (C.algebra c.now) pairs.old pairs.new }
    ensures settled { IsTrue result → IsSettled (C.algebra c.now) rows pairs.new }
    ensures done { IsTrue result → IsQuiet pairs.new ⊎ LacksRoom pairs.new }
    ensures none { IsTrue result → EmptiesNone pairs.old pairs.new }
    ensures empty { result ≡ false → HasEmpty pairs.new }
    ensures tables { tables.new.bases ≡ tables.old.bases }
{
    let planes = pairs.planes();
    if planes == 1 {
        propagate_noted::<C, 1>(pairs, tables, c, rows).is_ok()
    } else if planes == 2 {
        propagate_noted::<C, 2>(pairs, tables, c, rows).is_ok()
    } else if planes == 4 {
        propagate_noted::<C, 4>(pairs, tables, c, rows).is_ok()
    } else {
        propagate_noted::<C, 8>(pairs, tables, c, rows).is_ok()
    }
}

/// Sweeps the rows of a range of nodes, for the number of planes that the sets are kept in. Returns whether no set became
/// empty.
fn sweep_planes<C: Compose>(
    pairs: &mut PairSets,
    tables: &mut Tables,
    c: &C,
    rows: Span,
    sweep: Sweep,
) -> bool
    requires planes { IsPlanes pairs.old.planes }
    requires ready { IsReady (C.algebra c.now) pairs.old.planes pairs.old }
    requires below { rows.end ≤ pairs.old.nodes }
    requires tables { AreBaseTables (C.algebra c.now) pairs.old.planes tables.old.bases }
    ensures step { IsStep (C.algebra c.now) pairs.old pairs.new }
    ensures settled { IsTrue result → sweep ≡ Sweep.Whole → AreRowsSettled (C.algebra c.now) pairs.new rows }
    ensures none { IsTrue result → EmptiesNone pairs.old pairs.new }
    ensures empty { result ≡ false → HasEmpty pairs.new }
    ensures tables { tables.new.bases ≡ tables.old.bases }
{
    let planes = pairs.planes();
    if planes == 1 {
        sweep_rows::<C, 1>(pairs, tables, c, rows, sweep).is_ok()
    } else if planes == 2 {
        sweep_rows::<C, 2>(pairs, tables, c, rows, sweep).is_ok()
    } else if planes == 4 {
        sweep_rows::<C, 4>(pairs, tables, c, rows, sweep).is_ok()
    } else {
        sweep_rows::<C, 8>(pairs, tables, c, rows, sweep).is_ok()
    }
}

/// A copy of the sets of a network of so many nodes, and a slice of its edges.
#[derive(Debug, Drop)]
pub struct SliceCopy {
    pairs: PairSets,
    tables: Tables,
    rows: Span,
    from: u32,
    to: u32,
    since: u64,
}

impl Model for SliceCopy {
    ghost use Rattle.slice_copy.specs.Copies.{CopyState};

    ghost Value = { CopyState };

    ghost view = { λ a. record {
      slice = record { nodes = a.pairs.nodes; from = a.from; to = a.to };
      rows = a.rows;
      work = a.pairs;
      bases = a.tables.bases;
    } };
}

impl SliceCopy {
    ghost use Rattle.std.specs.Prelude.{◌≡◌, ◌<◌, ◌≤◌, ◌⊎◌, ◌↔◌, length, IsTrue, false, IfOk};
    ghost use Rattle.calculus_table.specs.Algebra.{Algebra};
    ghost use Rattle.network_words.specs.Edge.{edge_count, IsProperPair};
    ghost use Rattle.network_words.specs.Network.{IsNetwork};
    ghost use Rattle.network_words.specs.Closure.{IsClosed, IsRangeClosed};
    ghost use Rattle.network_words.specs.declared.TheConstants.{MAX_NODES};
    ghost use Rattle.edge_propagation.specs.Worklist.{LacksRoom};
    ghost use Rattle.edge_propagation.specs.Propagation.{IsPairMet, AreRowsMet, HasEmpty, EmptiesNone};
    ghost use Rattle.slice_copy.specs.Copies.{Slice, IsCopyOf, IsOpenCopy, IsSettledCopy, IsSweptCopy};
    ghost use Rattle.slice_copy.specs.Copies.{TakesOver, IsIdleCopy, AreWordsOf};

    /// Room for copies of networks of so many nodes.
    pub fn new(alloc: Global, nodes: u32) -> Result<SliceCopy, Memory>
        requires some { 0 < nodes }
        requires bounded { nodes ≤ MAX_NODES }
        ensures nodes { IfOk result (λ copy. copy.slice.nodes ≡ nodes) }
        ensures room { IfOk result (λ copy. ¬ LacksRoom copy.work) }
    {
        let mut pairs = PairSets::new(alloc, nodes, Proposals::oldest(alloc, nodes)?)?;
        // as often as the sets of a row can become smaller
        let blocks = nodes / 4 + 1;
        pairs.make_notes(alloc, blocks as usize)?;
        let tables = Tables::new(alloc)?;
        Ok(SliceCopy {
            pairs,
            tables,
            rows: Span { first: 0, end: 0 },
            from: 0,
            to: 0,
            since: 0,
        })
    }

    /// The number of nodes.
    pub fn nodes(&self) -> u32
        ensures value { result ≡ self.now.slice.nodes }
        ensures some { 0 < result }
        ensures bounded { result ≤ MAX_NODES }
    {
        self.pairs.nodes()
    }

    /// The slice: the number of its first edge, and the one after that of the last.
    pub fn slice(&self) -> (u32, u32)
        ensures from { result.0 ≡ self.now.slice.from }
        ensures to { result.1 ≡ self.now.slice.to }
    {
        (self.from, self.to)
    }

    /// The rows in which the edges of the slice lie: the first one, and the one after the last.
    pub fn rows(&self) -> (u32, u32)
        ensures first { result.0 ≡ self.now.rows.first }
        ensures end { result.1 ≡ self.now.rows.end }
    {
        (self.rows.first, self.rows.end)
    }

    /// Takes over the slice of the edges from the number `from` up to but without `to`, and the words of a network.
    /// Which edges are queued isn't said.
    pub fn take_over<C: Compose>(&mut self, c: &C, words: &[u64], from: u32, to: u32)
        requires network { IsNetwork (C.algebra c.now) self.old.slice.nodes words.now }
        requires below { to ≤ edge_count self.old.slice.nodes }
        ensures copy { IsCopyOf (C.algebra c.now) words.now self.new }
        ensures is_open { IsOpenCopy (C.algebra c.now) self.new }
        ensures slice { self.new.slice ≡ record { nodes = self.old.slice.nodes; from = from; to = to } }
    {
        self.rows = rows_of(self.pairs.nodes(), from, to);
        self.from = from;
        self.to = to;
        self.since = self.pairs.taken();
        self.pairs.forget_notes();
        load_planes(&mut self.pairs, &mut self.tables, words, c);
    }

    /// Takes over the words of a network, to close the edges from the number `from` up to but without `to`. Each edge
    /// whose set isn't full is queued.
    pub fn begin<C: Compose>(&mut self, c: &C, words: &[u64], from: u32, to: u32)
        requires network { IsNetwork (C.algebra c.now) self.old.slice.nodes words.now }
        requires below { to ≤ edge_count self.old.slice.nodes }
        ensures settled { IsSettledCopy (C.algebra c.now) self.new }
        ensures copy { IsCopyOf (C.algebra c.now) words.now self.new }
        ensures slice { self.new.slice ≡ record { nodes = self.old.slice.nodes; from = from; to = to } }
    {
        self.take_over(c, words, from, to);
        self.pairs.push_lesser(c.full());
    }

    /// Takes over the words of a closed network, to close the edges from the number `from` up to but without `to` where
    /// it becomes less. No edge is queued.
    pub fn begin_closed<C: Compose>(&mut self, c: &C, words: &[u64], from: u32, to: u32)
        requires network { IsNetwork (C.algebra c.now) self.old.slice.nodes words.now }
        requires closed { IsClosed (C.algebra c.now) self.old.slice.nodes words.now }
        requires below { to ≤ edge_count self.old.slice.nodes }
        ensures settled { IsSettledCopy (C.algebra c.now) self.new }
        ensures copy { IsCopyOf (C.algebra c.now) words.now self.new }
        ensures idle { IsIdleCopy self.new }
        ensures slice { self.new.slice ≡ record { nodes = self.old.slice.nodes; from = from; to = to } }
    {
        self.take_over(c, words, from, to);
        self.pairs.clear();
    }

    /// Takes every edge off the queue, so that the rows can be swept from the first one on.
    pub fn forget_queue(&mut self)
        ensures swept { (m : Algebra) → IsOpenCopy m self.old → IsSweptCopy m self.new self.new.rows.first }
        ensures idle { IsIdleCopy self.new }
        ensures rest { self.new ≡
            record self.old { work = record self.old.work { queued = self.new.work.queued } } }
        ensures slice { self.new.slice ≡ self.old.slice }
        ensures rows { self.new.rows ≡ self.old.rows }
    {
        self.pairs.clear();
    }

    /// Narrows the pairs of each node from `first` up to but without `end` with greater nodes along the third nodes of a
    /// sweep. Returns whether no set became empty. Each edge whose set becomes smaller is queued.
    pub fn sweep_rows<C: Compose>(&mut self, c: &C, first: u32, end: u32, sweep: Sweep) -> bool
        requires is_open { IsOpenCopy (C.algebra c.now) self.old }
        requires order { first ≤ end }
        requires below { end ≤ self.old.slice.nodes }
        ensures is_open { IsOpenCopy (C.algebra c.now) self.new }
        ensures swept { IsTrue result → sweep ≡ Sweep.Whole → IsSweptCopy (C.algebra c.now) self.old first →
            IsSweptCopy (C.algebra c.now) self.new end }
        ensures none { IsTrue result → EmptiesNone self.old.work self.new.work }
        ensures empty { result ≡ false → HasEmpty self.new.work }
        ensures slice { self.new.slice ≡ self.old.slice }
        ensures rows { self.new.rows ≡ self.old.rows }
    {
        let rows = Span { first, end };
        sweep_planes(&mut self.pairs, &mut self.tables, c, rows, sweep)
    }

    /// Intersects each set with the word of its edge, and queues the edges whose set becomes smaller.
    pub fn catch_up<C: Compose>(&mut self, c: &C, words: &[u64])
        requires is_open { IsOpenCopy (C.algebra c.now) self.old }
        requires length_is { length words.now ≡ edge_count self.old.slice.nodes }
        ensures is_open { IsOpenCopy (C.algebra c.now) self.new }
        ensures settled { IsSettledCopy (C.algebra c.now) self.old → IsSettledCopy (C.algebra c.now) self.new }
        ensures sets { AreRowsMet words.now self.old.work self.new.work self.old.slice.nodes }
        ensures slice { self.new.slice ≡ self.old.slice }
        ensures rows { self.new.rows ≡ self.old.rows }
    {
        self.since = self.pairs.taken();
        meet_planes(&mut self.pairs, words, c);
    }

    /// Intersects the set of the pair `(i, j)` with another. If it becomes smaller its edge is queued.
    pub fn meet_at<C: Compose>(&mut self, c: &C, i: u32, j: u32, rel: Rel)
        requires is_open { IsOpenCopy (C.algebra c.now) self.old }
        requires proper { IsProperPair self.old.slice.nodes i j }
        ensures copy { TakesOver (C.algebra c.now) self.old self.new }
        ensures set { IsPairMet self.old.work self.new.work i j rel }
    {
        self.since = self.pairs.taken();
        meet_pair_planes(&mut self.pairs, c, i, j, rel);
    }

    /// Narrows the edges of the slice until they are closed, or there is no room for the notes of one more. Returns
    /// whether no set became empty.
    pub fn close_rows<C: Compose>(&mut self, c: &C) -> bool
        requires settled { IsSettledCopy (C.algebra c.now) self.old }
        ensures is_open { IsOpenCopy (C.algebra c.now) self.new }
        ensures settled { IsTrue result → IsSettledCopy (C.algebra c.now) self.new }
        ensures done { IsTrue result → IsIdleCopy self.new ⊎ LacksRoom self.new.work }
        ensures none { IsTrue result → EmptiesNone self.old.work self.new.work }
        ensures empty { result ≡ false → HasEmpty self.new.work }
        ensures slice { self.new.slice ≡ self.old.slice }
        ensures rows { self.new.rows ≡ self.old.rows }
    {
        propagate_planes(&mut self.pairs, &mut self.tables, c, self.rows)
    }

    /// The narrowings since notes were forgotten, the first one first. Nothing is promised of them.
    pub fn notes(&self) -> &[Note] {
        self.pairs.notes()
    }

    /// Forgets the notes, so that there is room for others.
    pub fn forget_notes(&mut self)
        ensures rest { self.new ≡
            record self.old { work = record self.old.work { room = self.new.work.room } } }
        ensures forgotten { self.new.work.room ≡ self.old.work.notes }
        ensures room { self.old.work.room ≤ self.new.work.room }
        ensures copy { (m : Algebra) → IsOpenCopy m self.old → TakesOver m self.old self.new }
    {
        self.pairs.forget_notes();
    }

    /// Whether a quarter as many edges as there are were looked at since words were taken over.
    pub fn is_due(&self) -> bool {
        let nodes = u64::from(self.pairs.nodes());
        self.pairs.taken().wrapping_sub(self.since) >= nodes * nodes / 8
    }

    /// Whether no edge is queued.
    pub fn is_idle(&self) -> bool
        ensures { IsTrue result ↔ IsIdleCopy self.now }
    {
        self.pairs.is_idle()
    }

    /// Whether no edge is queued, and the words are the copy's sets. Then the slice is closed in the words.
    pub fn matches<C: Compose>(&self, c: &C, words: &[u64]) -> bool
        requires settled { IsSettledCopy (C.algebra c.now) self.now }
        requires length_is { length words.now ≡ edge_count self.now.slice.nodes }
        ensures same { IsTrue result ↔ (IsIdleCopy self.now × AreWordsOf words.now self.now) }
        ensures closed { IsTrue result → IsRangeClosed (C.algebra c.now) self.now.slice.nodes words.now
            self.now.slice.from self.now.slice.to }
    {
        lawful(c);
        self.is_idle() && is_stored(words, &self.pairs)
    }
}

/// Takes a type whose values may go to other threads.
fn is_sent<T: Send>() {}

/// A copy may go to another thread.
fn copies_are_sent() {
    is_sent::<SliceCopy>();
}
