//! Sets that others made smaller, taken over into the pairs.

ghost use Rattle.std.specs.Prelude.{◌≡◌, ◌*◌, ◌<◌, ◌≤◌, length};
ghost use Rattle.network_words.specs.Edge.{edge_count, IsProperPair};
ghost use Rattle.edge_propagation.specs.Propagation.{AreConverses, IsMet, IsPairMet, IsRowMet, AreRowsMet};

use crate::pairs::PairSets;
use crate::propagation::refine;
use calculus_table::{Compose, Rel, lawful};
use network_words::edge_between;

/// Intersects the set of `(i, j)` with another. If it becomes smaller its edge is queued.
#[inline(always)]
pub fn meet_pair<C: Compose, const P: usize>(work: &mut PairSets, c: &C, i: u32, j: u32, rel: Rel)
    requires planes { work.old.planes ≡ P }
    requires enough { (C.algebra c.now).size ≤ 8 * P }
    requires sets { AreConverses (C.algebra c.now) work.old }
    requires proper { IsProperPair work.old.nodes i j }
    ensures met { IsMet (C.algebra c.now) work.old work.new }
    ensures set { IsPairMet work.old work.new i j rel }
{
    lawful(c);
    let _nodes = work.nodes();
    let set = work.get::<P>(i, j);
    let met = set.meet(rel);
    if met == set {
        return;
    }
    refine::<C, P>(work, c, i, j, met);
}

/// Intersects the sets of node `i` to greater ones with those of their edges.
fn meet_row<C: Compose, const P: usize>(work: &mut PairSets, c: &C, words: &[u64], i: u32)
    requires planes { work.old.planes ≡ P }
    requires enough { (C.algebra c.now).size ≤ 8 * P }
    requires sets { AreConverses (C.algebra c.now) work.old }
    requires length_is { length words.now ≡ edge_count work.old.nodes }
    requires below { i < work.old.nodes }
    ensures met { IsMet (C.algebra c.now) work.old work.new }
    ensures row { IsRowMet words.now work.old work.new i work.old.nodes }
{
    let nodes = work.nodes();
    for j in i + 1..nodes {
        let word = words[edge_between(nodes, i, j) as usize];
        meet_pair::<C, P>(work, c, i, j, Rel::of(word));
    }
}

/// Intersects each set with that of its edge, and queues the edges whose set becomes smaller.
pub fn meet<C: Compose, const P: usize>(work: &mut PairSets, c: &C, words: &[u64])
    requires planes { work.old.planes ≡ P }
    requires enough { (C.algebra c.now).size ≤ 8 * P }
    requires sets { AreConverses (C.algebra c.now) work.old }
    requires length_is { length words.now ≡ edge_count work.old.nodes }
    ensures met { IsMet (C.algebra c.now) work.old work.new }
    ensures rows { AreRowsMet words.now work.old work.new work.old.nodes }
{
    let nodes = work.nodes();
    for i in 0..nodes {
        meet_row::<C, P>(work, c, words, i);
    }
}
