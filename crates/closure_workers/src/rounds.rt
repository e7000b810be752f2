//! Closing by several workers at once, in rounds on one table.
//!
//! In a round each worker has a part of the pass and closes its slice, while the others narrow the words too; then the
//! parts are joined, and every word is read once more. Where each worker's snapshot is the words as they are, each edge
//! lies in a slice that is closed in these words, so they are closed. Else some worker has seen more than there is now,
//! and there is another round.
//!
//! Why it is right: words only become less, and no step loses a closed network. Why it ends: where some worker has seen
//! more than there is now, the sum of the words, as numbers, is less than when the round began.

ghost use Rattle.std.specs.Prelude.{◌≡◌, ℕ, ◌+◌, ◌*◌, ◌<◌, ◌≤◌, ◌⊎◌, true, false, IfOk, OnErr, OnOk};
ghost use Rattle.std.specs.Prelude.{length, min, slice_index};
ghost use Rattle.std.specs.List.{All};
ghost use Rattle.network_words.specs.Edge.{edge_count};
ghost use Rattle.network_words.specs.Network.{IsNetwork, Refines};
ghost use Rattle.network_words.specs.Closure.{IsClosure};
ghost use Rattle.edge_table.specs.Opening.{algebra_of, opening_over};
ghost use Rattle.closure_workers.specs.Slices.{HasClash};
ghost use Rattle.closure_workers.specs.Rounds.{AreWorkersOf, HaveAllWorked, HaveWorkedOn, HaveClosed};
ghost use Rattle.closure_workers.specs.Rounds.{IsClosureWithin, IsClosing, IsClosedBy};

use crate::news::News;
use crate::pieces::{deal, desks, gather, work};
use crate::slices::is_clash;
use crate::worker::Desk;
use calculus_table::{Compose, Memory, Rel, lawful};
use closure_seq::close;
use compose_fast::first_difference;
use edge_table::{ClosedTable, OpenNet, Pass, Snapshot, open};
use network_words::Net;
use qsr_outside::Gate;
use std::alloc::Global;
use std::thread::Threads;

/// The workers of a table while none of them works: a pass, which has the rest of the weight, and their desks.
#[derive(Drop)]
pub struct Workers {
    pub home: Pass,
    pub desks: Vec<Desk>,
}

/// A round: the pass is dealt out, all workers close their slices at once, and their passes are gathered.
fn round<R: Threads + Sync, C: Compose + Sync, G: Gate + Sync>(
    rt: &R,
    alloc: Global,
    table: &OpenNet,
    c: &C,
    gate: &G,
    workers: Workers,
) -> Result<Workers, Memory>
    requires calculus { C.algebra c.now ≡ algebra_of table.now.opening }
    requires workers { AreWorkersOf table.now workers }
    ensures { IfOk result (HaveWorkedOn table.now workers) }
{
    let Workers { home, desks } = workers;
    let news = News::of(desks.len() as u32);
    let (home, workers) = deal(alloc, table, home, desks)?;
    let workers = work(rt, table, c, gate, &news, workers);
    let (home, desks) = gather(alloc, table, home, workers)?;
    Ok(Workers { home, desks })
}

/// Whether every worker has seen just these words in the end, or some set of them is empty while there are three or more
/// nodes.
fn are_done(nodes: u32, desks: &[Desk], words: &[u64]) -> bool
    requires { All (λ desk. length desk.snap ≡ length words.now) desks.now }
    ensures done { result ≡ true → HasClash nodes words.now ⊎ All (λ desk. desk.snap ≡ words.now) desks.now }
    ensures more { result ≡ false → ¬ All (λ desk. desk.snap ≡ words.now) desks.now }
{
    if is_clash(nodes, words) {
        return true;
    }
    for desk in desks {
        if first_difference(desk.snap.words(), words).is_some() {
            return false;
        }
    }
    true
}

/// Rounds, as long as some worker has seen other words than there are now, and no set is empty. The snapshot then has
/// the words that there are.
fn rounds<R: Threads + Sync, C: Compose + Sync, G: Gate + Sync>(
    rt: &R,
    alloc: Global,
    table: &OpenNet,
    c: &C,
    gate: &G,
    mut workers: Workers,
    snap: &mut Snapshot,
) -> Result<Workers, Memory>
    requires calculus { C.algebra c.now ≡ algebra_of table.now.opening }
    requires worked { HaveAllWorked table.now workers }
    requires snap { length snap.old ≡ edge_count table.now.opening.nodes }
    ensures { IfOk result (HaveClosed table.now workers snap.new) }
{
    lawful(c);
    table.refresh(&mut workers.home, snap);
    let mut is_done = are_done(table.nodes(), &workers.desks, snap.words());
    while !is_done {
        workers = round(rt, alloc, table, c, gate, workers)?;
        table.refresh(&mut workers.home, snap);
        is_done = are_done(table.nodes(), &workers.desks, snap.words());
    }
    Ok(workers)
}

/// Makes every set empty.
fn empty_all(net: &mut Net)
    requires { length net.old.words ≡ edge_count net.old.nodes }
    ensures rest { net.new ≡ record net.old { words = net.new.words } }
    ensures length_is { length net.new.words ≡ length net.old.words }
    ensures empty { (e : ℕ) → slice_index net.new.words e ≡ 0 }
{
    for edge in 0..net.edges() {
        net.set(edge, Rel::EMPTY);
    }
}

/// Closes the words of a table with the facts that its passes stated, and writes them into a network of as many nodes:
/// by further rounds, unless every worker has seen just the words as they are. The workers have worked, and the pass has
/// the whole weight. Returns the table that was closed. If memory runs out the network is as before.
pub fn close_table<R: Threads + Sync, C: Compose + Sync, G: Gate + Sync>(
    rt: &R,
    alloc: Global,
    table: OpenNet,
    c: &C,
    gate: &G,
    workers: Workers,
    net: &mut Net,
) -> Result<ClosedTable, Memory>
    requires calculus { C.algebra c.now ≡ algebra_of table.opening }
    requires worked { HaveAllWorked table workers }
    requires nodes { net.old.nodes ≡ table.opening.nodes }
    ensures closure { OnOk result (IsClosureWithin (C.algebra c.now) table.opening.nodes
        table.opening.words workers.home.actor.mine net.new.words) }
    ensures seen { OnOk result (Refines net.new.words workers.home.actor.seen) }
    ensures rest { OnOk result (net.new ≡ record net.old { words = net.new.words }) }
    ensures table { IfOk result (IsClosing table.opening workers.home.loads net.new.words) }
    ensures memory { OnErr result (net.new ≡ net.old) }
{
    lawful(c);
    let mut snap = Snapshot::new(alloc, net.edges())?;
    let workers = rounds(rt, alloc, &table, c, gate, workers, &mut snap)?;
    let is_clash = is_clash(table.nodes(), snap.words());
    let closed = table.close(workers.home, net);
    if is_clash {
        empty_all(net);
    }
    Ok(closed)
}

/// Closes the network on this thread, as the one worker, between its two points of the gate.
fn close_alone<C: Compose, G: Gate>(
    alloc: Global,
    net: &mut Net,
    c: &C,
    gate: &G,
) -> Result<(), Memory>
    requires network { IsNetwork (C.algebra c.now) net.old.nodes net.old.words }
    ensures closure { OnOk result (IsClosure (C.algebra c.now) net.old.nodes net.old.words net.new.words) }
    ensures rest { OnOk result (net.new ≡ record net.old { words = net.new.words }) }
    ensures memory { OnErr result (net.new ≡ net.old) }
{
    gate.pass(0);
    let closed = close(alloc, net, c);
    gate.pass(1000);
    closed
}

/// Closes the network by so many workers on one table, each in a thread of its own and with edges of its own.
fn close_on_table<R: Threads + Sync, C: Compose + Sync, G: Gate + Sync>(
    rt: &R,
    alloc: Global,
    net: &mut Net,
    c: &C,
    count: u32,
    gate: &G,
) -> Result<ClosedTable, Memory>
    requires network { IsNetwork (C.algebra c.now) net.old.nodes net.old.words }
    requires some { 0 < count }
    requires few { count ≤ 64 }
    ensures closure { OnOk result (IsClosure (C.algebra c.now) net.old.nodes net.old.words net.new.words) }
    ensures rest { OnOk result (net.new ≡ record net.old { words = net.new.words }) }
    ensures table { IfOk result (IsClosing (opening_over net.old (count + 1) (C.algebra c.now))
        (count * edge_count net.old.nodes) net.new.words) }
    ensures memory { OnErr result (net.new ≡ net.old) }
{
    let (table, home) = open(alloc, net, c, count + 1)?;
    let desks = desks(alloc, net.nodes(), count)?;
    let workers = round(rt, alloc, &table, c, gate, Workers { home, desks })?;
    close_table(rt, alloc, table, c, gate, workers, net)
}

/// Closes the network by so many workers at once, from 1 to 64: its sets become those of its closure, the greatest
/// closed network within it. Its names stay. Each worker passes the point of its number of `gate` as it begins, and
/// 1000 more as it ends, in each round; there are no more workers than edges. Several narrow the words of one table of
/// atomic words, of which proofs alone see which it was; one works on this thread, without a table. If memory runs out
/// the network is as before.
pub fn close_parallel<R: Threads + Sync, C: Compose + Sync, G: Gate + Sync>(
    rt: &R,
    alloc: Global,
    net: &mut Net,
    c: &C,
    workers: u32,
    gate: &G,
) -> Result<Option<ClosedTable>, Memory>
    requires network { IsNetwork (C.algebra c.now) net.old.nodes net.old.words }
    requires some { 0 < workers }
    requires few { workers ≤ 64 }
    ensures closure { OnOk result (IsClosure (C.algebra c.now) net.old.nodes net.old.words net.new.words) }
    ensures rest { OnOk result (net.new ≡ record net.old { words = net.new.words }) }
    ensures tables { IfOk result (λ closed. IsClosedBy (min workers (edge_count net.old.nodes))
        (C.algebra c.now) net.old net.new.words closed) }
    ensures memory { OnErr result (net.new ≡ net.old) }
{
    let count = workers.min(net.edges());
    if count < 2 {
        close_alone(alloc, net, c, gate)?;
        return Ok(None);
    }
    let closed = close_on_table(rt, alloc, net, c, count, gate)?;
    Ok(Some(closed))
}
