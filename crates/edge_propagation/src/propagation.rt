//! Propagation: what the relation of two nodes and that of a third demand of the relation between the first and the
//! third.
//!
//! An edge is queued when its set becomes smaller. Taking an edge (i, j) off the queue, every set of a pair (i, k) is
//! intersected with the composition of the sets of (i, j) and (j, k), and every set of a pair (j, k) with that of (j,
//! i) and (i, k): PC-2 of Mackworth (1977), with whole rows of nodes k at a time.
//!
//! Why it is right: at every moment each triple (i, j, k) is *settled*: it is closed unless one of its sources, the
//! edges of (i, j) and (j, k), is queued. A set only loses base relations that no closed network within has. So when
//! the queue is empty the sets are closed, and they are the greatest that are.
//!
//! Why it ends: twice the sum of the sets, as numbers, and the number of queued edges together fall with each edge
//! taken, since a set that becomes smaller queues one edge.
//!
//! What it costs: an edge is queued at most as often as its set can lose base relations, and each time 2 n sets are
//! looked at, 16 at once. Where a block has a set that isn't within its composition, that one is narrowed by itself.

ghost use Rattle.std.specs.Prelude.{◌≡◌, ℕ, ◌+◌, ◌*◌, ◌<◌, ◌≤◌, ◌⊎◌, OnOk, OnErr};
ghost use Rattle.calculus_table.specs.Rel.{Has, IsWithin};
ghost use Rattle.calculus_table.specs.Composition.{full_of, converse};
ghost use Rattle.network_words.specs.Edge.{IsProperPair, IsProperTriple};
ghost use Rattle.compose_fast.specs.Planes.{AreBaseTables, AreTablesOf};
ghost use Rattle.edge_propagation.specs.Worklist.{Worklist, IsSized, IsQueued, IsIdle, set_of, edge_place, with_pair};
ghost use Rattle.edge_propagation.specs.Worklist.{IsQuiet, LacksRoom};
ghost use Rattle.edge_propagation.specs.Propagation.{IsReady, IsStep, IsRefinement, HasEmpty, AreRowsClosed};
ghost use Rattle.edge_propagation.specs.Propagation.{EmptiesNone};
ghost use Rattle.edge_propagation.specs.Propagation.{IsAmong, IsCharged, IsSettledAt, IsSettled};
ghost use Rattle.edge_propagation.specs.Propagation.{IsSettledBut};
ghost use Rattle.std.specs.Prelude.{slice_set, true};

use crate::pairs::{PairSets, byte_place};
use crate::span::{Span, charged_with};
use calculus_table::{Compose, Rel};
use compose_fast::{Tables, without};

/// A set became empty.
#[derive(Clone, Copy, Debug, PartialEq, Eq)]
pub struct Emptied;

/// Sets the set of `(i, k)`, and with it that of `(k, i)`.
pub fn put_pair<C: Compose, const P: usize>(work: &mut PairSets, c: &C, i: u32, k: u32, rel: Rel)
    requires planes { work.old.planes ≡ P }
    requires enough { (C.algebra c.now).size ≤ 8 * P }
    requires proper { IsProperPair work.old.nodes i k }
    requires within { IsWithin rel (full_of (C.algebra c.now)) }
    ensures value { work.new ≡ record work.old {
      sets = with_pair work.old.sets i k rel (converse (C.algebra c.now) rel);
    } }
    ensures sized { IsSized work.old }
{
    work.put::<P>(i, k, rel);
    work.put::<P>(k, i, c.converse(rel));
}

/// Sets the set of `(i, k)`, and with it that of `(k, i)`, and queues their edge.
pub fn refine<C: Compose, const P: usize>(work: &mut PairSets, c: &C, i: u32, k: u32, rel: Rel)
    requires planes { work.old.planes ≡ P }
    requires enough { (C.algebra c.now).size ≤ 8 * P }
    requires proper { IsProperPair work.old.nodes i k }
    requires within { IsWithin rel (full_of (C.algebra c.now)) }
    ensures value { work.new ≡ record work.old {
      sets = with_pair work.old.sets i k rel (converse (C.algebra c.now) rel);
      queued = slice_set work.old.queued (edge_place i k) true;
    } }
    ensures sized { IsSized work.old }
{
    put_pair::<C, P>(work, c, i, k, rel);
    work.push(i, k, rel.count());
}

/// Narrows the set of `(i, k)` along `j`, by the tables of the set `a` of `(i, j)`. If it becomes smaller its edge is
/// queued. Where `(i, j)` has become smaller than `a` its edge is queued, so that it will be looked at again.
#[inline(always)]
fn narrow<C: Compose, const P: usize>(
    work: &mut PairSets,
    tables: &Tables,
    c: &C,
    i: u32,
    j: u32,
    k: u32,
    a: Rel,
) -> Result<(), Emptied>
    requires ready { IsReady (C.algebra c.now) P work.old }
    requires proper { IsProperTriple work.old.nodes i j k }
    requires tables { AreTablesOf (C.algebra c.now) P a tables.now.set }
    requires within { IsWithin (set_of work.old i j) a }
    requires set { ¬ IsQueued work.old i j → a ≡ set_of work.old i j }
    ensures step { IsStep (C.algebra c.now) work.old work.new }
    ensures settled { OnOk result (IsSettledAt (C.algebra c.now) work.new i j k) }
    ensures none { OnOk result (EmptiesNone work.old work.new) }
    ensures empty { OnErr result (HasEmpty work.new) }
{
    let _nodes = work.nodes();
    let rel = work.get::<P>(i, k);
    let narrowed = rel.meet(tables.compose::<C, P>(c, a, work.get::<P>(j, k)));
    if narrowed == rel {
        return Ok(());
    }
    refine::<C, P>(work, c, i, k, narrowed);
    work.note(i, j, k);
    if narrowed.is_empty() {
        return Err(Emptied);
    }
    Ok(())
}

/// Narrows the set of `(i, k)` along `j`, where these are three nodes and `k` is in the range.
fn narrow_proper<C: Compose, const P: usize>(
    work: &mut PairSets,
    tables: &Tables,
    c: &C,
    i: u32,
    j: u32,
    k: u32,
    span: Span,
    a: Rel,
) -> Result<(), Emptied>
    requires ready { IsReady (C.algebra c.now) P work.old }
    requires proper { IsProperPair work.old.nodes i j }
    requires span { span.end ≤ work.old.nodes }
    requires tables { AreTablesOf (C.algebra c.now) P a tables.now.set }
    requires within { IsWithin (set_of work.old i j) a }
    requires set { ¬ IsQueued work.old i j → a ≡ set_of work.old i j }
    ensures step { IsStep (C.algebra c.now) work.old work.new }
    ensures settled { OnOk result
        (IsProperTriple work.old.nodes i j k → IsAmong span k → IsSettledAt (C.algebra c.now) work.new i j k) }
    ensures none { OnOk result (EmptiesNone work.old work.new) }
    ensures empty { OnErr result (HasEmpty work.new) }
{
    if span.first <= k && k < span.end && k != i && k != j {
        narrow::<C, P>(work, tables, c, i, j, k, a)
    } else {
        Ok(())
    }
}

/// Narrows the set of `(i, k)` along `j` for the nodes `k` of a block that are in the range and whose lane is set in
/// `gaps`.
#[inline(never)]
fn narrow_lanes<C: Compose, const P: usize>(
    work: &mut PairSets,
    tables: &Tables,
    c: &C,
    i: u32,
    j: u32,
    span: Span,
    block: u32,
    a: Rel,
    gaps: Rel,
) -> Result<(), Emptied>
    requires ready { IsReady (C.algebra c.now) P work.old }
    requires proper { IsProperPair work.old.nodes i j }
    requires span { span.end ≤ work.old.nodes }
    requires inside { block < 16 }
    requires tables { AreTablesOf (C.algebra c.now) P a tables.now.set }
    requires within { IsWithin (set_of work.old i j) a }
    requires set { ¬ IsQueued work.old i j → a ≡ set_of work.old i j }
    requires clear { (l : ℕ) → l < 16 → ¬ Has gaps l → IsProperTriple work.old.nodes i j (16 * block + l) →
        IsSettledAt (C.algebra c.now) work.old i j (16 * block + l) }
    ensures step { IsStep (C.algebra c.now) work.old work.new }
    ensures settled { OnOk result ((l : ℕ) → l < 16 → IsProperTriple work.old.nodes i j (16 * block + l) →
        IsAmong span (16 * block + l) → IsSettledAt (C.algebra c.now) work.new i j (16 * block + l)) }
    ensures none { OnOk result (EmptiesNone work.old work.new) }
    ensures empty { OnErr result (HasEmpty work.new) }
{
    let mut left = gaps;
    while !left.is_empty() {
        let lane = left.least();
        left = without(left, lane);
        narrow_proper::<C, P>(work, tables, c, i, j, 16 * block + lane, span, a)?;
    }
    Ok(())
}

/// Narrows the set of `(i, k)` along `j` for the nodes `k` of a block that are in the range, by the tables of the set
/// `a` of `(i, j)`.
#[inline(always)]
fn propagate_block<C: Compose, const P: usize>(
    work: &mut PairSets,
    tables: &Tables,
    c: &C,
    i: u32,
    j: u32,
    span: Span,
    block: u32,
    a: Rel,
) -> Result<(), Emptied>
    requires ready { IsReady (C.algebra c.now) P work.old }
    requires proper { IsProperPair work.old.nodes i j }
    requires span { span.end ≤ work.old.nodes }
    requires inside { block < 16 }
    requires tables { AreTablesOf (C.algebra c.now) P a tables.now.set }
    requires within { IsWithin (set_of work.old i j) a }
    requires set { ¬ IsQueued work.old i j → a ≡ set_of work.old i j }
    ensures step { IsStep (C.algebra c.now) work.old work.new }
    ensures settled { OnOk result ((l : ℕ) → l < 16 → IsProperTriple work.old.nodes i j (16 * block + l) →
        IsAmong span (16 * block + l) → IsSettledAt (C.algebra c.now) work.new i j (16 * block + l)) }
    ensures none { OnOk result (EmptiesNone work.old work.new) }
    ensures empty { OnErr result (HasEmpty work.new) }
{
    let _nodes = work.nodes();
    let from = 16 * block;
    let here = byte_place::<P>(i, from);
    let there = byte_place::<P>(j, from);
    let gaps = Rel::of(tables.open_lanes::<P>(work.bytes(), here, there));
    if gaps.is_empty() {
        return Ok(());
    }
    narrow_lanes::<C, P>(work, tables, c, i, j, span, block, a, gaps)
}

/// Narrows the set of each pair `(i, k)` with `k` in the range along `j`.
#[inline(always)]
pub fn propagate_span<C: Compose, const P: usize>(
    work: &mut PairSets,
    tables: &mut Tables,
    c: &C,
    span: Span,
    i: u32,
    j: u32,
) -> Result<(), Emptied>
    requires ready { IsReady (C.algebra c.now) P work.old }
    requires proper { IsProperPair work.old.nodes i j }
    requires span { span.end ≤ work.old.nodes }
    requires tables { AreBaseTables (C.algebra c.now) P tables.old.bases }
    ensures step { IsStep (C.algebra c.now) work.old work.new }
    ensures settled { OnOk result ((k : ℕ) → IsProperTriple work.old.nodes i j k → IsAmong span k →
        IsSettledAt (C.algebra c.now) work.new i j k) }
    ensures none { OnOk result (EmptiesNone work.old work.new) }
    ensures empty { OnErr result (HasEmpty work.new) }
    ensures tables { tables.new.bases ≡ tables.old.bases }
{
    if span.end <= span.first {
        return Ok(());
    }
    let _nodes = work.nodes();
    let a = work.get::<P>(i, j);
    tables.take::<C, P>(c, a);
    for block in span.first / 16..(span.end + 15) / 16 {
        propagate_block::<C, P>(work, tables, c, i, j, span, block, a)?;
    }
    Ok(())
}

/// Narrows the set of each pair `(i, k)` that belongs to the rows along `j`.
#[inline(always)]
fn propagate_from<C: Compose, const P: usize>(
    work: &mut PairSets,
    tables: &mut Tables,
    c: &C,
    rows: Span,
    i: u32,
    j: u32,
) -> Result<(), Emptied>
    requires ready { IsReady (C.algebra c.now) P work.old }
    requires proper { IsProperPair work.old.nodes i j }
    requires tables { AreBaseTables (C.algebra c.now) P tables.old.bases }
    ensures step { IsStep (C.algebra c.now) work.old work.new }
    ensures settled { OnOk result ((k : ℕ) → IsProperTriple work.old.nodes i j k → IsCharged rows i k →
        IsSettledAt (C.algebra c.now) work.new i j k) }
    ensures none { OnOk result (EmptiesNone work.old work.new) }
    ensures empty { OnErr result (HasEmpty work.new) }
    ensures tables { tables.new.bases ≡ tables.old.bases }
{
    let span = charged_with(rows, i, work.nodes());
    propagate_span::<C, P>(work, tables, c, span, i, j)
}

/// Narrows the pairs that belong to the rows along the edge between `i` and `j`, both ways.
#[inline(always)]
pub fn propagate<C: Compose, const P: usize>(
    work: &mut PairSets,
    tables: &mut Tables,
    c: &C,
    rows: Span,
    i: u32,
    j: u32,
) -> Result<(), Emptied>
    requires ready { IsReady (C.algebra c.now) P work.old }
    requires proper { IsProperPair work.old.nodes i j }
    requires settled { IsSettledBut (C.algebra c.now) rows work.old i j }
    requires tables { AreBaseTables (C.algebra c.now) P tables.old.bases }
    ensures step { IsStep (C.algebra c.now) work.old work.new }
    ensures settled { OnOk result (IsSettled (C.algebra c.now) rows work.new) }
    ensures none { OnOk result (EmptiesNone work.old work.new) }
    ensures empty { OnErr result (HasEmpty work.new) }
    ensures tables { tables.new.bases ≡ tables.old.bases }
{
    let _nodes = work.nodes();
    propagate_from::<C, P>(work, tables, c, rows, i, j)?;
    propagate_from::<C, P>(work, tables, c, rows, j, i)
}

/// Takes edges off the queue and narrows the pairs that belong to the rows along them until none is left.
pub fn propagate_all<C: Compose, const P: usize>(
    work: &mut PairSets,
    tables: &mut Tables,
    c: &C,
    rows: Span,
) -> Result<(), Emptied>
    requires ready { IsReady (C.algebra c.now) P work.old }
    requires settled { IsSettled (C.algebra c.now) rows work.old }
    requires tables { AreBaseTables (C.algebra c.now) P tables.old.bases }
    ensures refined { IsRefinement (C.algebra c.now) work.old work.new }
    ensures closed { OnOk result (AreRowsClosed (C.algebra c.now) rows work.new) }
    ensures empty { OnErr result (HasEmpty work.new) }
    ensures tables { tables.new.bases ≡ tables.old.bases }
{
    while let Some((i, j)) = work.pop() {
        propagate::<C, P>(work, tables, c, rows, i, j)?;
    }
    Ok(())
}

/// Takes edges off the queue and narrows the pairs that belong to the rows along them, until none is left or there is
/// no room for the notes of one more.
pub fn propagate_noted<C: Compose, const P: usize>(
    work: &mut PairSets,
    tables: &mut Tables,
    c: &C,
    rows: Span,
) -> Result<(), Emptied>
    requires ready { IsReady (C.algebra c.now) P work.old }
    requires settled { IsSettled (C.algebra c.now) rows work.old }
    requires tables { AreBaseTables (C.algebra c.now) P tables.old.bases }
    ensures refined { IsRefinement (C.algebra c.now) work.old work.new }
    ensures settled { OnOk result (IsSettled (C.algebra c.now) rows work.new) }
    ensures done { OnOk result (IsQuiet work.new ⊎ LacksRoom work.new) }
    ensures none { OnOk result (EmptiesNone work.old work.new) }
    ensures empty { OnErr result (HasEmpty work.new) }
    ensures tables { tables.new.bases ≡ tables.old.bases }
{
    while let Some((i, j)) = work.pop_noted() {
        propagate::<C, P>(work, tables, c, rows, i, j)?;
    }
    Ok(())
}
