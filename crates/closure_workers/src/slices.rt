//! A slice of the edges, closed by one pass without room of its own.
//!
//! The pass reads every word, and narrows each edge of its slice along every third node, as it has seen the other two
//! edges. Where that made no word less, what it has seen is closed at each edge of the slice. Else it reads every word
//! again, since others narrow them at once, and goes on.
//!
//! Why it ends: the sum of the words that the pass has seen, as numbers, falls with each turn that goes on.

ghost use Rattle.std.specs.Prelude.{◌≡◌, ℕ, ◌+◌, ◌-◌, ◌<◌, ◌≤◌, true, false, length};
ghost use Rattle.network_words.specs.Edge.{edge_count};
ghost use Rattle.network_words.specs.declared.TheConstants.{MAX_NODES};
ghost use Rattle.network_words.specs.Closure.{IsPairClosed, IsClosedAt};
ghost use Rattle.network_words.specs.Edge.{IsProperTriple};
ghost use Rattle.edge_table.specs.Opening.{IsPassOf, algebra_of};
ghost use Rattle.edge_table.specs.Passes.{GoesOn};
ghost use Rattle.closure_workers.specs.Slices.{HasClash, IsSliceClosed, IsLooking, Looks, IsListedClosed};

use crate::tuning::ROW_COST;
use calculus_table::Compose;
use compose_fast::first_zero;
use edge_table::{OpenNet, Pass, Snapshot};
use network_words::edge_between;

/// The edges with a number from `from` up to but without `to`.
#[derive(Clone, Copy, Debug, PartialEq, Eq, Drop)]
pub struct Slice {
    pub from: u32,
    pub to: u32,
}

impl Slice {
    /// How many edges it has.
    pub(crate) fn len(self) -> usize {
        self.to.saturating_sub(self.from) as usize
    }
}

/// Whether some set is empty while there are three or more nodes, so that every set of the closure is.
pub(crate) fn is_clash(nodes: u32, words: &[u64]) -> bool
    ensures yes { result ≡ true → HasClash nodes words.now }
    ensures no { result ≡ false → ¬ HasClash nodes words.now }
{
    nodes >= 3 && first_zero(words).is_some()
}

/// What sweeping the rows before `i` takes, in thirty-seconds of a block of 16 nodes: a row has a block for each 16
/// greater nodes.
fn cost_before(nodes: u32, i: u32) -> u32
    requires few { nodes ≤ MAX_NODES }
    requires row { i ≤ nodes }
{
    i * (ROW_COST + 2 * nodes - i)
}

/// The end of the first row by which a slice that begins at the edge `from` has its part of the work, where so many
/// workers are left for the edges from there on.
fn row_end(nodes: u32, from: u32, left: u32) -> u32
    requires few { nodes ≤ MAX_NODES }
    requires some { 0 < left }
{
    let all = cost_before(nodes, nodes);
    let mut begin = 0;
    let mut end = 0;
    for i in 0..nodes.saturating_sub(1) {
        end = edge_between(nodes, i, nodes - 1).saturating_add(1);
        let cost = cost_before(nodes, i + 1);
        if end <= from {
            begin = cost;
        } else if cost.saturating_sub(begin) >= all.saturating_sub(begin) / left {
            return end;
        }
    }
    end
}

/// Where a slice of so many edges ends that begins at the edge `from`, where so many workers are left for the edges from
/// there on: at the end of a row, unless an edge wouldn't be left for each of them then.
pub(crate) fn slice_end(nodes: u32, edges: u32, from: u32, left: u32) -> u32
    requires few { nodes ≤ MAX_NODES }
    requires some { 0 < left }
    requires below { from ≤ edges }
    ensures order { from ≤ result }
    ensures below { result ≤ edges }
    ensures last { left ≡ 1 → result ≡ edges }
    ensures share { left ≤ edges - from → (from < result) × (left - 1 ≤ edges - result) }
{
    if left == 1 {
        return edges;
    }
    let end = row_end(nodes, from, left);
    let most = edges.saturating_sub(left - 1).max(from);
    end.max(from.saturating_add(1)).min(most)
}

/// Narrows the edge from `i` to `k` along every third node. Returns whether the pass has then seen less of it.
fn narrow_edge<C: Compose>(
    table: &OpenNet,
    pass: &mut Pass,
    c: &C,
    snap: &mut Snapshot,
    i: u32,
    k: u32,
) -> bool
    requires looking { IsLooking table.now pass.old snap.old }
    requires calculus { C.algebra c.now ≡ algebra_of table.now.opening }
    requires order { i < k }
    requires below { k < table.now.opening.nodes }
    ensures looks { Looks table.now
        (λ words. IsPairClosed (C.algebra c.now) table.now.opening.nodes words i k)
        pass.old pass.new snap.new result }
{
    let mut less = false;
    for j in 0..table.nodes() {
        if j != i && j != k {
            less |= table.narrow_from(pass, c, snap, i, j, k);
        }
    }
    less
}

/// Narrows the edges of the slice from `i` to greater nodes. Returns whether the pass has then seen less of one.
fn narrow_row<C: Compose>(
    table: &OpenNet,
    pass: &mut Pass,
    c: &C,
    snap: &mut Snapshot,
    slice: Slice,
    i: u32,
) -> bool
    requires looking { IsLooking table.now pass.old snap.old }
    requires calculus { C.algebra c.now ≡ algebra_of table.now.opening }
    requires below { i < table.now.opening.nodes }
    ensures looks { Looks table.now
        (λ words. (k : ℕ) → i < k → k < table.now.opening.nodes
        → IsListedClosed (C.algebra c.now) table.now.opening.nodes slice i k words)
        pass.old pass.new snap.new result }
{
    let mut less = false;
    let nodes = table.nodes();
    for k in i + 1..nodes {
        let edge = edge_between(nodes, i, k);
        if slice.from <= edge && edge < slice.to {
            less |= narrow_edge(table, pass, c, snap, i, k);
        }
    }
    less
}

/// Narrows each edge of the slice. Returns whether the pass has then seen less of some edge.
fn narrow_slice<C: Compose>(
    table: &OpenNet,
    pass: &mut Pass,
    c: &C,
    snap: &mut Snapshot,
    slice: Slice,
) -> bool
    requires looking { IsLooking table.now pass.old snap.old }
    requires calculus { C.algebra c.now ≡ algebra_of table.now.opening }
    ensures looks { Looks table.now
        (λ words. (i k : ℕ) → i < k → k < table.now.opening.nodes
        → IsListedClosed (C.algebra c.now) table.now.opening.nodes slice i k words)
        pass.old pass.new snap.new result }
{
    let mut less = false;
    for i in 0..table.nodes() {
        less |= narrow_row(table, pass, c, snap, slice, i);
    }
    less
}

/// Narrows each edge of the slice, unless some set is empty. Returns whether the slice has to be looked at again.
fn narrow_again<C: Compose>(
    table: &OpenNet,
    pass: &mut Pass,
    c: &C,
    snap: &mut Snapshot,
    slice: Slice,
) -> bool
    requires looking { IsLooking table.now pass.old snap.old }
    requires calculus { C.algebra c.now ≡ algebra_of table.now.opening }
    ensures looks { Looks table.now
        (λ words. IsSliceClosed (C.algebra c.now) table.now.opening.nodes words slice)
        pass.old pass.new snap.new result }
{
    if is_clash(table.nodes(), snap.words()) {
        return false;
    }
    narrow_slice(table, pass, c, snap, slice)
}

/// Closes the edges of a slice, from the number `from` up to but without `to`: narrows them until what the pass has
/// seen is closed at each of them, or has an empty set while there are three or more nodes. The snapshot is then
/// what the pass has seen. It begins with a load of each word. Takes no memory and waits for nothing.
pub fn close_slice<C: Compose>(
    table: &OpenNet,
    pass: &mut Pass,
    c: &C,
    from: u32,
    to: u32,
    snap: &mut Snapshot,
)
    requires pass { IsPassOf table.now pass.old }
    requires calculus { C.algebra c.now ≡ algebra_of table.now.opening }
    requires snap { length snap.old ≡ edge_count table.now.opening.nodes }
    requires order { from ≤ to }
    requires below { to ≤ edge_count table.now.opening.nodes }
    ensures pass { IsPassOf table.now pass.new }
    ensures goes_on { GoesOn pass.old pass.new }
    ensures loads { pass.old.loads + edge_count table.now.opening.nodes ≤ pass.new.loads }
    ensures snap { snap.new ≡ pass.new.actor.seen }
    ensures closed { IsSliceClosed (C.algebra c.now) table.now.opening.nodes snap.new
        (record { from = from; to = to }) }
{
    table.refresh(pass, snap);
    while narrow_again(table, pass, c, snap, Slice { from, to }) {
        table.refresh_again(pass, snap);
    }
}
