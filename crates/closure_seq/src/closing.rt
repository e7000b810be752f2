//! Algebraic closure (Allen 1983), by propagation: the sets of the pairs are loaded, the edges whose set isn't full
//! are queued, and when the queue is empty the sets are stored. An edge with the full set needn't be queued: the
//! identity alone spares everything. Where a set becomes empty, so does every set of the closure.
//!
//! A network within a closed one is closed from there: the closed sets are loaded, and the edges whose set is less are
//! queued, since every other triple is closed already.

ghost use Rattle.std.specs.Prelude.{◌≡◌, ℕ, ◌*◌, ◌<◌, ◌≤◌, ◌↔◌, length, slice_index, IsTrue, OnOk, OnErr};
ghost use Rattle.network_words.specs.Edge.{edge_count};
ghost use Rattle.network_words.specs.Network.{Network, IsNetwork, Refines};
ghost use Rattle.network_words.specs.Closure.{IsClosure};
ghost use Rattle.compose_fast.specs.Planes.{AreBaseTables};
ghost use Rattle.edge_propagation.specs.Worklist.{Room, Worklist};
ghost use Rattle.edge_propagation.specs.Propagation.{IsReady, IsInStep, IsSettled, IsPlanes, all_nodes};
ghost use Rattle.closure_seq.specs.Paths.{IsClosedNetwork};
ghost use Rattle.closure_seq.specs.Closings.{HasClosed, IsWithinPairs};

use crate::work::Work;
use calculus_table::{Compose, Memory, Rel, lawful};
use compose_fast::Tables;
use edge_propagation::{
    Emptied, PairSets, all_nodes, load_planes, load_queued, meet, propagate_all, store,
};
use network_words::Net;
use std::alloc::Global;

/// Makes every set empty.
fn empty_all(net: &mut Net)
    requires { length net.old.words ≡ edge_count net.old.nodes }
    ensures rest { net.new ≡ record net.old { words = net.new.words } }
    ensures length_is { length net.new.words ≡ length net.old.words }
    ensures empty { (e : ℕ) → slice_index net.new.words e ≡ 0 }
{
    for edge in 0..net.edges() {
        net.set(edge, Rel::EMPTY);
    }
}

/// Propagates from the edges that are queued, and stores the sets, which are those of the network at first.
fn close_queued<C: Compose, const P: usize>(
    net: &mut Net,
    c: &C,
    pairs: &mut PairSets,
    tables: &mut Tables,
)
    requires network { IsNetwork (C.algebra c.now) net.old.nodes net.old.words }
    requires in_step { IsInStep (C.algebra c.now) net.old.nodes net.old.words pairs.old }
    requires ready { IsReady (C.algebra c.now) P pairs.old }
    requires settled { IsSettled (C.algebra c.now) (all_nodes net.old.nodes) pairs.old }
    requires tables { AreBaseTables (C.algebra c.now) P tables.old.bases }
    ensures closed { HasClosed (C.algebra c.now) net.old net.new }
    ensures nodes { pairs.new.nodes ≡ pairs.old.nodes }
{
    let rows = all_nodes(net.nodes());
    if let Err(Emptied) = propagate_all::<C, P>(pairs, tables, c, rows) {
        empty_all(net);
    } else {
        store(net, pairs);
    }
}

/// Closes the network with sets in `P` planes.
fn close_planes<C: Compose, const P: usize>(
    net: &mut Net,
    c: &C,
    pairs: &mut PairSets,
    tables: &mut Tables,
)
    requires few { P ≤ 8 }
    requires enough { (C.algebra c.now).size ≤ 8 * P }
    requires nodes { pairs.old.nodes ≡ net.old.nodes }
    requires network { IsNetwork (C.algebra c.now) net.old.nodes net.old.words }
    ensures closed { HasClosed (C.algebra c.now) net.old net.new }
    ensures nodes { pairs.new.nodes ≡ pairs.old.nodes }
{
    lawful(c);
    load_queued::<C, P>(pairs, tables, net.words(), c);
    close_queued::<C, P>(net, c, pairs, tables);
}

/// Closes the network, which lies within a closed one, whose sets the pairs have: the edges whose set is less are
/// queued.
fn close_met<C: Compose, const P: usize>(
    net: &mut Net,
    c: &C,
    pairs: &mut PairSets,
    tables: &mut Tables,
)
    requires network { IsNetwork (C.algebra c.now) net.old.nodes net.old.words }
    requires within { IsWithinPairs (C.algebra c.now) net.old.nodes net.old.words pairs.old }
    requires ready { IsReady (C.algebra c.now) P pairs.old }
    requires tables { AreBaseTables (C.algebra c.now) P tables.old.bases }
    ensures closed { HasClosed (C.algebra c.now) net.old net.new }
    ensures nodes { pairs.new.nodes ≡ pairs.old.nodes }
{
    meet::<C, P>(pairs, c, net.words());
    close_queued::<C, P>(net, c, pairs, tables);
}

/// Closes the network: its sets become those of its closure, the greatest closed network within it. Its names stay.
/// Takes no memory.
pub fn close_with<C: Compose>(net: &mut Net, c: &C, work: &mut Work)
    requires nodes { work.old.nodes ≡ net.old.nodes }
    requires network { IsNetwork (C.algebra c.now) net.old.nodes net.old.words }
    ensures closure { IsClosure (C.algebra c.now) net.old.nodes net.old.words net.new.words }
    ensures rest { net.new ≡ record net.old { words = net.new.words } }
    ensures work { work.new.nodes ≡ work.old.nodes }
{
    lawful(c);
    let size = c.size();
    let pairs = &mut work.pairs;
    let tables = &mut work.tables;
    if size <= 8 {
        close_planes::<C, 1>(net, c, pairs, tables);
    } else if size <= 16 {
        close_planes::<C, 2>(net, c, pairs, tables);
    } else if size <= 32 {
        close_planes::<C, 4>(net, c, pairs, tables);
    } else {
        close_planes::<C, 8>(net, c, pairs, tables);
    }
}

/// Closes the network as `close_met` does, for the number of planes that the sets are kept in.
fn close_loaded<C: Compose>(net: &mut Net, c: &C, pairs: &mut PairSets, tables: &mut Tables)
    requires planes { IsPlanes pairs.old.planes }
    requires network { IsNetwork (C.algebra c.now) net.old.nodes net.old.words }
    requires within { IsWithinPairs (C.algebra c.now) net.old.nodes net.old.words pairs.old }
    requires ready { IsReady (C.algebra c.now) pairs.old.planes pairs.old }
    requires tables { AreBaseTables (C.algebra c.now) pairs.old.planes tables.old.bases }
    ensures closed { HasClosed (C.algebra c.now) net.old net.new }
    ensures nodes { pairs.new.nodes ≡ pairs.old.nodes }
{
    let planes = pairs.planes();
    if planes == 1 {
        close_met::<C, 1>(net, c, pairs, tables);
    } else if planes == 2 {
        close_met::<C, 2>(net, c, pairs, tables);
    } else if planes == 4 {
        close_met::<C, 4>(net, c, pairs, tables);
    } else {
        close_met::<C, 8>(net, c, pairs, tables);
    }
}

/// Whether each set of a network is within that of the same edge of another.
fn are_within(words: &[u64], others: &[u64]) -> bool
    requires { length words.now ≡ length others.now }
    ensures { IsTrue result ↔ Refines words.now others.now }
{
    for edge in 0..words.len() {
        if !Rel::of(words[edge]).within(Rel::of(others[edge])) {
            return false;
        }
    }
    true
}

/// Closes the network as `close_with` does. Where it lies within a closed network, whose words are `closed`, it goes on
/// from there: then it costs what becomes less.
pub fn close_within<C: Compose>(net: &mut Net, closed: &[u64], c: &C, work: &mut Work)
    requires nodes { work.old.nodes ≡ net.old.nodes }
    requires network { IsNetwork (C.algebra c.now) net.old.nodes net.old.words }
    requires closed { IsClosedNetwork (C.algebra c.now) net.old.nodes closed.now }
    ensures closure { IsClosure (C.algebra c.now) net.old.nodes net.old.words net.new.words }
    ensures rest { net.new ≡ record net.old { words = net.new.words } }
    ensures work { work.new.nodes ≡ work.old.nodes }
{
    if !are_within(net.words(), closed) {
        return close_with(net, c, work);
    }
    let pairs = &mut work.pairs;
    let tables = &mut work.tables;
    load_planes(pairs, tables, closed, c);
    pairs.clear();
    close_loaded(net, c, pairs, tables);
}

/// Closes the network as `close_with` does, with room of its own. If memory runs out the network is as before.
pub fn close<C: Compose>(alloc: Global, net: &mut Net, c: &C) -> Result<(), Memory>
    requires { IsNetwork (C.algebra c.now) net.old.nodes net.old.words }
    ensures closure { OnOk result (IsClosure (C.algebra c.now) net.old.nodes net.old.words net.new.words) }
    ensures rest { OnOk result (net.new ≡ record net.old { words = net.new.words }) }
    ensures memory { OnErr result (net.new ≡ net.old) }
{
    let mut work = Work::new(alloc, net.nodes())?;
    close_with(net, c, &mut work);
    Ok(())
}
