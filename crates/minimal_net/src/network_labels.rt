//! The labels of all base relations of a closed network, by several workers.
//!
//! No label rests on another one, so the edges are dealt out: with `w` shares, share `k` has the edges `k`, `k + w` and
//! so on, each with a labeller of its own. A label is the same whoever finds it. Over straight classes most take a
//! few narrowings; elsewhere some take as long as a whole search, so that edges beside one another go to several.
ghost use Rattle.std.specs.Prelude.{◌≡◌, ◌^◌, ◌<◌, false, IfOk, IsTrue, length};
ghost use Rattle.calculus_table.specs.Calculus.{EachBase};
ghost use Rattle.network_words.specs.Edge.{edge_count};
ghost use Rattle.network_words.specs.Network.{IsNetwork};
ghost use Rattle.network_words.specs.Closure.{IsClosed};
ghost use Rattle.tract_classes.specs.Class.{IsClass, HasBase, IsClosedClass};
ghost use Rattle.tract_classes.specs.Straight.{IsStraight};
ghost use Rattle.minimal_net.specs.NetworkLabels.{AreLabels};
ghost use Rattle.minimal_net.specs.Searching.{Task, task_over, IsTask, AreLabelsOfShare, AreShares};

use crate::edge_labels::EdgeLabels;
use crate::labeller::Labeller;
use calculus_table::{Compose, Memory, lawful};
use network_words::Net;
use std::alloc::Global;
use std::thread;
use std::thread::Threads;
use tract_classes::{Class, is_closed, is_straight};

/// The most members of a class of which it is asked whether it is straight, which takes as long as the cube of their
/// number tells.
const MAX_ASKED: u32 = 256;

/// The labels of the base relations of a closed network, edge by edge: each is by a search of as many splits as the
/// budget at most, which is guided by the class. So many workers share the edges; the labels are the same for any
/// number of them.
pub fn label_network<R: Threads + Sync, C: Compose + Sync>(
    rt: &R,
    alloc: Global,
    closed: &Net,
    c: &C,
    class: &Class,
    budget: u32,
    workers: u32,
) -> Result<Vec<EdgeLabels>, Memory>
    requires network { IsNetwork (C.algebra c.now) closed.now.nodes closed.now.words }
    requires closed { IsClosed (C.algebra c.now) closed.now.nodes closed.now.words }
    requires bases { EachBase (C.algebra c.now) (HasBase class.now) }
    requires workers { 0 < workers }
    ensures { IfOk result (λ labels. AreLabels (C.algebra c.now) closed.now.nodes class.now budget
        closed.now.words closed.now.words labels.items) }
{
    let edges = closed.edges() as usize;
    let shares = edges.min(workers as usize);
    let pieces = shared(rt, alloc, closed, c, class, budget, shares)?;
    join(alloc, &pieces, edges)
}

/// Whether the class is closed and straight, if it hasn't too many members for that question.
fn ends_early<C: Compose>(alloc: Global, c: &C, class: &Class) -> bool
    ensures straight { IsTrue result
        → IsClosedClass (C.algebra c.now) class.now × IsStraight (C.algebra c.now) class.now }
    ensures class { IsClass class.now }
{
    class.len() <= MAX_ASKED && is_closed(alloc, class, c) && is_straight(class, c)
}

/// The labels of each share.
fn shared<R: Threads + Sync, C: Compose + Sync>(
    rt: &R,
    alloc: Global,
    closed: &Net,
    c: &C,
    class: &Class,
    budget: u32,
    shares: usize,
) -> Result<Vec<Result<Vec<EdgeLabels>, Memory>>, Memory>
    requires network { IsNetwork (C.algebra c.now) closed.now.nodes closed.now.words }
    requires closed { IsClosed (C.algebra c.now) closed.now.nodes closed.now.words }
    requires bases { EachBase (C.algebra c.now) (HasBase class.now) }
    requires shares { shares < 2 ^ 32 }
    ensures count { IfOk result (λ pieces. length pieces.items ≡ shares) }
    ensures each { IfOk result (λ pieces. AreShares (task_over (C.algebra c.now) closed.now.nodes class.now
        closed.now.words budget false) pieces.items) }
{
    lawful(c);
    let is_straight = ends_early(alloc, c, class);
    let share = |k: usize| -> Result<Vec<EdgeLabels>, Memory>
        requires { (k < shares) × (shares < 2 ^ 32) × IsTask (task_over (C.algebra c.now) closed.now.nodes class.now closed.now.words budget is_straight) }
        ensures { IfOk result (λ labels. AreLabelsOfShare (task_over (C.algebra c.entry.now) closed.entry.now.nodes class.entry.now closed.entry.now.words budget is_straight) k shares labels.items) }
    {
        let mut labeller = Labeller::new(alloc, closed, c, class, budget, is_straight)?;
        labeller.share(alloc, k, shares)
    };
    match thread::map_indices(rt, alloc, shares, &share) {
        Ok(pieces) => Ok(pieces),
        Err(_) => Err(Memory),
    }
}

/// The labels of the shares, edge by edge.
fn join(
    alloc: Global,
    shares: &[Result<Vec<EdgeLabels>, Memory>],
    edges: usize,
) -> Result<Vec<EdgeLabels>, Memory>
    requires shares { (t : Task) × (edges ≡ edge_count t.nodes) × AreShares t shares.now }
    requires some { 0 < edges → 0 < length shares.now }
    ensures { (t : Task) → edges ≡ edge_count t.nodes → AreShares t shares.now → IfOk result (λ labels.
        AreLabels t.algebra t.nodes t.class t.budget t.words t.words labels.items) }
{
    let mut labels = Vec::new(alloc);
    for edge in 0..edges {
        let Ok(share) = &shares[edge % shares.len()] else {
            return Err(Memory);
        };
        let Ok(()) = labels.push(share[edge / shares.len()]) else {
            return Err(Memory);
        };
    }
    Ok(labels)
}
