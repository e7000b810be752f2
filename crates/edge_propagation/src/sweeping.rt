//! Sweeping: the pairs of a node with greater ones are narrowed along every third node, one after another.
//!
//! Where many edges are stated, most of them restrict something. So each is looked at once, in the order of the rows,
//! in place of being queued first and taken off the queue again; and what became smaller meanwhile is queued.
//!
//! What restricts most is looked at first (van Beek and Manchak 1996): a first sweep goes along the sets of few base
//! relations alone, so that the whole one after it finds little to narrow. Over a calculus of more than eight base
//! relations it goes along the sets of one alone, and along every fourth node: looking along one takes longer there,
//! and each narrows more.

ghost use Rattle.std.specs.Prelude.{◌≡◌, ℕ, ◌<◌, ◌≤◌, OnOk, OnErr};
ghost use Rattle.network_words.specs.Edge.{IsProperTriple};
ghost use Rattle.compose_fast.specs.Planes.{AreBaseTables};
ghost use Rattle.edge_propagation.specs.Propagation.{IsReady, IsStep, HasEmpty, IsSettledAt, IsRowSettled};
ghost use Rattle.edge_propagation.specs.Propagation.{AreRowsSettled, EmptiesNone};

use crate::pairs::PairSets;
use crate::propagation::{Emptied, propagate_span};
use crate::span::Span;
use calculus_table::{Compose, Rel};
use compose_fast::Tables;

/// The most base relations of a set that the first sweep goes along, where a set takes one plane.
const FEW: u32 = 3;

/// Of so many third nodes the first sweep goes along one, where a set takes several planes.
const EVERY: u32 = 4;

/// Along which third nodes a sweep narrows the pairs of a node.
#[derive(Clone, Copy, Debug, PartialEq, Eq)]
pub enum Sweep {
    /// Those to which it has few base relations, or where a set takes several planes one, and then every fourth of them
    /// at most.
    First,
    /// All.
    Whole,
}

impl Sweep {
    ghost use Rattle.std.specs.Prelude.{◌≡◌, true};

    /// Whether a sweep of sets in `P` planes goes along a set, that of a pair whose nodes are so far apart.
    #[inline(always)]
    fn goes_along<const P: usize>(self, rel: Rel, distance: u32) -> bool
        ensures { self ≡ Sweep.Whole → result ≡ true }
    {
        match self {
            Sweep::First if P == 1 => rel.count() <= FEW,
            Sweep::First => rel.count() <= 1 && distance % EVERY == 0,
            Sweep::Whole => true,
        }
    }
}

/// Narrows the pairs of `i` with greater nodes along `j`, if that is another node and the sweep goes along it.
#[inline(always)]
fn sweep_along<C: Compose, const P: usize>(
    work: &mut PairSets,
    tables: &mut Tables,
    c: &C,
    i: u32,
    j: u32,
    sweep: Sweep,
) -> Result<(), Emptied>
    requires ready { IsReady (C.algebra c.now) P work.old }
    requires first { i < work.old.nodes }
    requires second { j < work.old.nodes }
    requires tables { AreBaseTables (C.algebra c.now) P tables.old.bases }
    ensures step { IsStep (C.algebra c.now) work.old work.new }
    ensures settled { OnOk result (sweep ≡ Sweep.Whole → (k : ℕ) → i < k → IsProperTriple work.old.nodes i j k →
        IsSettledAt (C.algebra c.now) work.new i j k) }
    ensures none { OnOk result (EmptiesNone work.old work.new) }
    ensures empty { OnErr result (HasEmpty work.new) }
    ensures tables { tables.new.bases ≡ tables.old.bases }
{
    let nodes = work.nodes();
    if i == j || !sweep.goes_along::<P>(work.get::<P>(i, j), j.wrapping_sub(i)) {
        return Ok(());
    }
    let greater = Span {
        first: i + 1,
        end: nodes,
    };
    propagate_span::<C, P>(work, tables, c, greater, i, j)
}

/// Narrows the pairs of `i` with greater nodes along the third nodes of a sweep.
fn sweep_row<C: Compose, const P: usize>(
    work: &mut PairSets,
    tables: &mut Tables,
    c: &C,
    i: u32,
    sweep: Sweep,
) -> Result<(), Emptied>
    requires ready { IsReady (C.algebra c.now) P work.old }
    requires below { i < work.old.nodes }
    requires tables { AreBaseTables (C.algebra c.now) P tables.old.bases }
    ensures step { IsStep (C.algebra c.now) work.old work.new }
    ensures settled { OnOk result (sweep ≡ Sweep.Whole → IsRowSettled (C.algebra c.now) work.new i) }
    ensures none { OnOk result (EmptiesNone work.old work.new) }
    ensures empty { OnErr result (HasEmpty work.new) }
    ensures tables { tables.new.bases ≡ tables.old.bases }
{
    let nodes = work.nodes();
    for j in 0..nodes {
        sweep_along::<C, P>(work, tables, c, i, j, sweep)?;
    }
    Ok(())
}

/// Narrows the pairs of each node of a range with greater nodes along the third nodes of a sweep.
pub fn sweep_rows<C: Compose, const P: usize>(
    work: &mut PairSets,
    tables: &mut Tables,
    c: &C,
    rows: Span,
    sweep: Sweep,
) -> Result<(), Emptied>
    requires ready { IsReady (C.algebra c.now) P work.old }
    requires below { rows.end ≤ work.old.nodes }
    requires tables { AreBaseTables (C.algebra c.now) P tables.old.bases }
    ensures step { IsStep (C.algebra c.now) work.old work.new }
    ensures settled { OnOk result (sweep ≡ Sweep.Whole → AreRowsSettled (C.algebra c.now) work.new rows) }
    ensures none { OnOk result (EmptiesNone work.old work.new) }
    ensures empty { OnErr result (HasEmpty work.new) }
    ensures tables { tables.new.bases ≡ tables.old.bases }
{
    let _nodes = work.nodes();
    for i in rows.first..rows.end {
        sweep_row::<C, P>(work, tables, c, i, sweep)?;
    }
    Ok(())
}
