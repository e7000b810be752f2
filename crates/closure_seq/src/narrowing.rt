//! A level above another: one edge's set made smaller, and what follows of it.
//!
//! The worklist has the sets of the top, and no edge is queued. The edge is queued with its smaller set and
//! propagated from. Each edge that is taken off the queue stores its set as the word of the top, so that the words
//! are those of the pairs but where an edge is queued, and with an empty queue everywhere.
//!
//! To take a level back the changes of the top are undone, the last first, in the words and in the pairs. A level
//! that turns out to have an empty set, or for which memory runs out, is taken back as well, after the pairs of the
//! edges that are still queued were set to their words again. Both cost what the level changed.

ghost use Rattle.std.specs.Prelude.{◌≡◌, ℕ, ◌*◌, ◌∷◌, ◌++◌, [], ◌<◌, ◌≤◌, true, length, slice_index, slice_set, OnOk};
ghost use Rattle.std.specs.Prelude.{OnErr, IfErr};
ghost use Rattle.calculus_table.specs.Rel.{IsWithin};
ghost use Rattle.calculus_table.specs.Composition.{full_of};
ghost use Rattle.network_words.specs.Edge.{edge_count, edge_at};
ghost use Rattle.network_words.specs.Closure.{IsClosure};
ghost use Rattle.compose_fast.specs.Planes.{AreBaseTables};
ghost use Rattle.edge_propagation.specs.Worklist.{Worklist, IsQuiet, set_of, edge_place};
ghost use Rattle.edge_propagation.specs.Propagation.{IsReady, IsInStep, IsRefinement, HasEmpty, AreClosed, IsSettled};
ghost use Rattle.edge_propagation.specs.Propagation.{all_nodes};
ghost use Rattle.closure_seq.specs.Levels.{LevelSets};
ghost use Rattle.closure_seq.specs.Paths.{IsInStepBut, IsStanding, IsEmptyClosure};

use crate::levels::Levels;
use calculus_table::{Compose, Memory, Rel, lawful};
use compose_fast::Tables;
use edge_propagation::{Emptied, PairSets, all_nodes, propagate, put_pair, refine};

/// Why a level isn't made.
#[derive(Clone, Copy, Debug, PartialEq, Eq)]
pub(crate) enum Halt {
    /// A set became empty.
    Emptied,
    /// Out of memory.
    Memory,
}

/// Takes each edge off the queue and sets its pairs to its word.
fn reset_queued<C: Compose, const P: usize>(pairs: &mut PairSets, c: &C, levels: &Levels)
    requires planes { pairs.old.planes ≡ P }
    requires enough { (C.algebra c.now).size ≤ 8 * P }
    requires full { levels.now.full ≡ full_of (C.algebra c.now) }
    requires in_step { IsInStepBut (C.algebra c.now) levels.now.nodes levels.now.top pairs.old }
    ensures planes { pairs.new.planes ≡ pairs.old.planes }
    ensures in_step { IsInStep (C.algebra c.now) levels.now.nodes levels.now.top pairs.new }
    ensures quiet { IsQuiet pairs.new }
{
    while let Some((i, j)) = pairs.pop() {
        put_pair::<C, P>(pairs, c, i, j, levels.set_between(i, j));
    }
}

/// Undoes the changes of the top.
fn undo_changes<C: Compose, const P: usize>(pairs: &mut PairSets, c: &C, levels: &mut Levels)
    requires planes { pairs.old.planes ≡ P }
    requires enough { (C.algebra c.now).size ≤ 8 * P }
    requires full { levels.old.full ≡ full_of (C.algebra c.now) }
    requires in_step { IsInStep (C.algebra c.now) levels.old.nodes levels.old.top pairs.old }
    requires quiet { IsQuiet pairs.old }
    ensures planes { pairs.new.planes ≡ pairs.old.planes }
    ensures in_step { IsInStep (C.algebra c.now) levels.new.nodes levels.new.top pairs.new }
    ensures quiet { IsQuiet pairs.new }
    ensures no_change { levels.new.changes ≡ [] }
    ensures rest { levels.new ≡ record levels.old { top = levels.new.top; changes = levels.new.changes } }
{
    while let Some(change) = levels.undo() {
        put_pair::<C, P>(
            pairs,
            c,
            u32::from(change.i),
            u32::from(change.j),
            change.old,
        );
    }
}

/// Takes the top back, so that the level below it is the top again.
pub(crate) fn take_back<C: Compose, const P: usize>(
    pairs: &mut PairSets,
    c: &C,
    levels: &mut Levels,
)
    requires planes { pairs.old.planes ≡ P }
    requires enough { (C.algebra c.now).size ≤ 8 * P }
    requires full { levels.old.full ≡ full_of (C.algebra c.now) }
    requires in_step { IsInStepBut (C.algebra c.now) levels.old.nodes levels.old.top pairs.old }
    requires some { 0 < length levels.old.below }
    ensures planes { pairs.new.planes ≡ pairs.old.planes }
    ensures in_step { IsInStep (C.algebra c.now) levels.new.nodes levels.new.top pairs.new }
    ensures quiet { IsQuiet pairs.new }
    ensures below { levels.old.below ≡ levels.new.below ++ levels.new.top ∷ [] }
    ensures nodes { levels.new.nodes ≡ levels.old.nodes }
    ensures full { levels.new.full ≡ levels.old.full }
{
    reset_queued::<C, P>(pairs, c, levels);
    undo_changes::<C, P>(pairs, c, levels);
    levels.pop();
}

/// Stores the set of an edge that was taken off the queue as its word. If memory runs out the edge is queued again.
fn store_set(pairs: &mut PairSets, levels: &mut Levels, i: u32, j: u32) -> Result<(), Memory>
    requires order { i < j }
    requires below { j < pairs.old.nodes }
    requires nodes { levels.old.nodes ≡ pairs.old.nodes }
    requires within { IsWithin (set_of pairs.old i j) levels.old.full }
    ensures pairs { OnOk result (pairs.new ≡ pairs.old) }
    ensures word { OnOk result (levels.new ≡ record levels.old {
      top = slice_set levels.old.top (edge_at levels.old.nodes i j) (set_of pairs.old i j);
      changes = levels.new.changes;
    }) }
    ensures queued { OnErr result (pairs.new ≡ record pairs.old {
      queued = slice_set pairs.old.queued (edge_place i j) true;
    }) }
    ensures kept { OnErr result (levels.new ≡ levels.old) }
    ensures sized { length levels.old.top ≡ edge_count levels.old.nodes }
{
    let rel = pairs.set(i, j);
    if let Err(Memory) = levels.replace(i, j, rel) {
        pairs.push(i, j, rel.count());
        return Err(Memory);
    }
    Ok(())
}

/// Takes edges off the queue, stores their sets and narrows along them until none is left.
fn propagate_level<C: Compose, const P: usize>(
    pairs: &mut PairSets,
    tables: &mut Tables,
    c: &C,
    levels: &mut Levels,
) -> Result<(), Halt>
    requires ready { IsReady (C.algebra c.now) P pairs.old }
    requires settled { IsSettled (C.algebra c.now) (all_nodes pairs.old.nodes) pairs.old }
    requires tables { AreBaseTables (C.algebra c.now) P tables.old.bases }
    requires full { levels.old.full ≡ full_of (C.algebra c.now) }
    requires in_step { IsInStepBut (C.algebra c.now) levels.old.nodes levels.old.top pairs.old }
    ensures refined { IsRefinement (C.algebra c.now) pairs.old pairs.new }
    ensures closed { OnOk result (AreClosed (C.algebra c.now) pairs.new) }
    ensures quiet { OnOk result (IsQuiet pairs.new) }
    ensures empty { IfErr result (λ why. why ≡ Halt.Emptied → HasEmpty pairs.new) }
    ensures in_step { IsInStepBut (C.algebra c.now) levels.new.nodes levels.new.top pairs.new }
    ensures rest { levels.new ≡ record levels.old { top = levels.new.top; changes = levels.new.changes } }
    ensures length_is { length levels.new.top ≡ length levels.old.top }
    ensures tables { tables.new.bases ≡ tables.old.bases }
{
    let rows = all_nodes(pairs.nodes());
    while let Some((i, j)) = pairs.pop() {
        if let Err(Memory) = store_set(pairs, levels, i, j) {
            return Err(Halt::Memory);
        }
        if let Err(Emptied) = propagate::<C, P>(pairs, tables, c, rows, i, j) {
            return Err(Halt::Emptied);
        }
    }
    Ok(())
}

/// Makes the set of the edge from `i` to `j` smaller, and closes the top again.
fn close_level<C: Compose, const P: usize>(
    pairs: &mut PairSets,
    tables: &mut Tables,
    c: &C,
    levels: &mut Levels,
    i: u32,
    j: u32,
    rel: Rel,
) -> Result<(), Halt>
    requires planes { pairs.old.planes ≡ P }
    requires standing { IsStanding (C.algebra c.now) pairs.old levels.old tables.old.bases }
    requires order { i < j }
    requires below { j < levels.old.nodes }
    requires within { IsWithin rel (slice_index levels.old.top (edge_at levels.old.nodes i j)) }
    ensures standing { OnOk result (IsStanding (C.algebra c.now) pairs.new levels.new tables.new.bases) }
    ensures closure { OnOk result (IsClosure (C.algebra c.now) levels.old.nodes
        (slice_set levels.old.top (edge_at levels.old.nodes i j) rel) levels.new.top) }
    ensures empty { IfErr result (λ why. why ≡ Halt.Emptied → IsEmptyClosure (C.algebra c.now) levels.old.nodes
        (slice_set levels.old.top (edge_at levels.old.nodes i j) rel)) }
    ensures in_step { IsInStepBut (C.algebra c.now) levels.new.nodes levels.new.top pairs.new }
    ensures rest { levels.new ≡ record levels.old { top = levels.new.top; changes = levels.new.changes } }
    ensures planes { pairs.new.planes ≡ pairs.old.planes }
    ensures tables { tables.new.bases ≡ tables.old.bases }
{
    lawful(c);
    let _nodes = pairs.nodes();
    let _levels = levels.nodes();
    refine::<C, P>(pairs, c, i, j, rel);
    propagate_level::<C, P>(pairs, tables, c, levels)
}

/// Begins a level: the closure of the top with the set of the edge from `i` to `j` made smaller. If a set becomes
/// empty, or memory runs out, the levels are as before.
pub(crate) fn push_level<C: Compose, const P: usize>(
    pairs: &mut PairSets,
    tables: &mut Tables,
    c: &C,
    levels: &mut Levels,
    i: u32,
    j: u32,
    rel: Rel,
) -> Result<(), Halt>
    requires planes { pairs.old.planes ≡ P }
    requires standing { IsStanding (C.algebra c.now) pairs.old levels.old tables.old.bases }
    requires order { i < j }
    requires below { j < levels.old.nodes }
    requires within { IsWithin rel (slice_index levels.old.top (edge_at levels.old.nodes i j)) }
    ensures standing { IsStanding (C.algebra c.now) pairs.new levels.new tables.new.bases }
    ensures closure { OnOk result (IsClosure (C.algebra c.now) levels.old.nodes
        (slice_set levels.old.top (edge_at levels.old.nodes i j) rel) levels.new.top) }
    ensures below { OnOk result (levels.new.below ≡ levels.old.below ++ levels.old.top ∷ []) }
    ensures empty { IfErr result (λ why. why ≡ Halt.Emptied → IsEmptyClosure (C.algebra c.now) levels.old.nodes
        (slice_set levels.old.top (edge_at levels.old.nodes i j) rel)) }
    ensures kept { OnErr result (levels.new ≡ record levels.old { changes = levels.new.changes }) }
    ensures nodes { levels.new.nodes ≡ levels.old.nodes }
{
    if let Err(Memory) = levels.push() {
        return Err(Halt::Memory);
    }
    if let Err(why) = close_level::<C, P>(pairs, tables, c, levels, i, j, rel) {
        take_back::<C, P>(pairs, c, levels);
        return Err(why);
    }
    Ok(())
}

/// Begins a level, for the number of planes that the sets are kept in.
pub(crate) fn begin_level<C: Compose>(
    pairs: &mut PairSets,
    tables: &mut Tables,
    c: &C,
    levels: &mut Levels,
    edge: (u32, u32),
    rel: Rel,
) -> Result<(), Halt>
    requires standing { IsStanding (C.algebra c.now) pairs.old levels.old tables.old.bases }
    requires order { edge.0 < edge.1 }
    requires below { edge.1 < levels.old.nodes }
    requires within { IsWithin rel (slice_index levels.old.top (edge_at levels.old.nodes edge.0 edge.1)) }
    ensures standing { IsStanding (C.algebra c.now) pairs.new levels.new tables.new.bases }
    ensures closure { OnOk result (IsClosure (C.algebra c.now) levels.old.nodes
        (slice_set levels.old.top (edge_at levels.old.nodes edge.0 edge.1) rel) levels.new.top) }
    ensures below { OnOk result (levels.new.below ≡ levels.old.below ++ levels.old.top ∷ []) }
    ensures empty { IfErr result (λ why. why ≡ Halt.Emptied → IsEmptyClosure (C.algebra c.now) levels.old.nodes
        (slice_set levels.old.top (edge_at levels.old.nodes edge.0 edge.1) rel)) }
    ensures kept { OnErr result (levels.new ≡ record levels.old { changes = levels.new.changes }) }
    ensures nodes { levels.new.nodes ≡ levels.old.nodes }
{
    let (i, j) = edge;
    let planes = pairs.planes();
    if planes == 1 {
        push_level::<C, 1>(pairs, tables, c, levels, i, j, rel)
    } else if planes == 2 {
        push_level::<C, 2>(pairs, tables, c, levels, i, j, rel)
    } else if planes == 4 {
        push_level::<C, 4>(pairs, tables, c, levels, i, j, rel)
    } else {
        push_level::<C, 8>(pairs, tables, c, levels, i, j, rel)
    }
}

/// Takes the top back, for the number of planes that the sets are kept in.
pub(crate) fn end_level<C: Compose>(
    pairs: &mut PairSets,
    tables: &Tables,
    c: &C,
    levels: &mut Levels,
)
    requires standing { IsStanding (C.algebra c.now) pairs.old levels.old tables.now.bases }
    requires some { 0 < length levels.old.below }
    ensures standing { IsStanding (C.algebra c.now) pairs.new levels.new tables.now.bases }
    ensures below { levels.old.below ≡ levels.new.below ++ levels.new.top ∷ [] }
    ensures nodes { levels.new.nodes ≡ levels.old.nodes }
{
    let planes = pairs.planes();
    if planes == 1 {
        take_back::<C, 1>(pairs, c, levels);
    } else if planes == 2 {
        take_back::<C, 2>(pairs, c, levels);
    } else if planes == 4 {
        take_back::<C, 4>(pairs, c, levels);
    } else {
        take_back::<C, 8>(pairs, c, levels);
    }
}
