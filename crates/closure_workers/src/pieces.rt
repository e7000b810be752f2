//! The parts of a closing by several workers: desks are made, a pass is dealt out to them, all work at once, and their
//! passes are gathered.

ghost use Rattle.std.specs.Prelude.{◌≡◌, ℕ, ◌+◌, ◌*◌, ◌<◌, ◌≤◌, IfOk, length};
ghost use Rattle.std.specs.List.{All};
ghost use Rattle.calculus_table.specs.Algebra.{Algebra};
ghost use Rattle.network_words.specs.Edge.{edge_count};
ghost use Rattle.network_words.specs.Network.{Refines};
ghost use Rattle.network_words.specs.declared.TheConstants.{MAX_NODES};
ghost use Rattle.narrow_core.specs.Actor.{giving};
ghost use Rattle.edge_table.specs.Opening.{IsPassOf, algebra_of};
ghost use Rattle.closure_workers.specs.Workers.{IsDesk, IsSeenDesk, AreDealt, slices_of, slices_at};
ghost use Rattle.closure_workers.specs.Workers.{IsWorker, IsFreshWorker, HasWorked, HasEnded, HaveWorked};

use crate::news::{Heard, News};
use crate::slices::{Slice, slice_end};
use crate::worker::{Desk, Site, Worker};
use calculus_table::{Compose, Memory};
use edge_table::{OpenNet, Pass, Snapshot};
use qsr_outside::Gate;
use slice_copy::SliceCopy;
use std::alloc::Global;
use std::thread;
use std::thread::Threads;

/// Desks for so many workers, from 1 to 64, over which the edges among so many nodes are dealt out: each has some, where
/// there are as many.
pub fn desks(alloc: Global, nodes: u32, count: u32) -> Result<Vec<Desk>, Memory>
    requires nodes { 0 < nodes }
    requires bounded { nodes ≤ MAX_NODES }
    requires some { 0 < count }
    requires few { count ≤ 64 }
    ensures desks { IfOk result (λ desks. (m : Algebra) → All (IsDesk m nodes) desks.items) }
    ensures dealt { IfOk result (λ desks. AreDealt (slices_of desks.items) (edge_count nodes)) }
    ensures some { count ≤ edge_count nodes → IfOk result (λ desks.
        All (λ desk. desk.slice.from < desk.slice.to) desks.items) }
    ensures count { IfOk result (λ desks. length desks.items ≡ count) }
{
    let edges = nodes * (nodes - 1) / 2;
    let mut desks = Vec::new(alloc);
    let mut from = 0;
    for number in 0..count {
        let to = slice_end(nodes, edges, from, count - number);
        let desk = Desk {
            number,
            slice: Slice { from, to },
            snap: Snapshot::new(alloc, edges)?,
            copy: SliceCopy::new(alloc, nodes)?,
            is_settled: false,
        };
        let Ok(()) = desks.push(desk) else {
            return Err(Memory);
        };
        from = to;
    }
    Ok(desks)
}

/// A worker for each desk, with one part of the weight. Returns what is left of the pass, too.
pub fn deal(
    alloc: Global,
    table: &OpenNet,
    pass: Pass,
    mut desks: Vec<Desk>,
) -> Result<(Pass, Vec<Worker>), Memory>
    requires pass { IsPassOf table.now pass }
    requires enough { length desks.items < pass.actor.weight }
    requires desks { All (IsDesk (algebra_of table.now.opening) table.now.opening.nodes) desks.items }
    ensures pass { IfOk result (λ r. IsPassOf table.now r.0) }
    ensures rest { IfOk result (λ r.
        r.0 ≡ record pass { actor = giving (length desks.items) pass.actor }) }
    ensures workers { IfOk result (λ r. All (IsFreshWorker table.now pass.actor.seen) r.1.items) }
    ensures dealt { IfOk result (λ r. (edges : ℕ) → AreDealt (slices_of desks.items) edges
        → AreDealt (slices_at r.1.items) edges) }
    ensures count { IfOk result (λ r. length r.1.items ≡ length desks.items) }
{
    let mut workers = Vec::new(alloc);
    let mut rest = pass;
    while let Some(desk) = desks.pop() {
        let (kept, pass) = table.split(rest, 1);
        rest = kept;
        let worker = Worker {
            pass,
            desk,
            heard: Heard::nothing(),
            narrowed: 0,
        };
        let Ok(()) = workers.push(worker) else {
            return Err(Memory);
        };
    }
    Ok((rest, workers))
}

/// Has a worker close its slice, between its two points of the gate: that of its number, and 1000 more.
fn work_between<C: Compose, G: Gate>(
    table: &OpenNet,
    c: &C,
    gate: &G,
    news: &News,
    worker: &mut Worker,
)
    requires calculus { C.algebra c.now ≡ algebra_of table.now.opening }
    requires worker { IsWorker table.now worker.old }
    ensures { HasWorked table.now worker.old worker.new }
{
    let number = worker.desk.number;
    gate.pass(number);
    worker.close(&Site { table, c, news });
    gate.pass(1000 + number);
}

/// Has all workers close their slices at once, each in a thread of its own and between its two points of the gate: that
/// of its number as it begins, and 1000 more as it ends. Returns the workers. Takes no memory.
pub fn work<R: Threads + Sync, C: Compose + Sync, G: Gate + Sync>(
    rt: &R,
    table: &OpenNet,
    c: &C,
    gate: &G,
    news: &News,
    mut workers: Vec<Worker>,
) -> Vec<Worker>
    requires calculus { C.algebra c.now ≡ algebra_of table.now.opening }
    requires some { 0 < length workers.items }
    requires workers { All (IsWorker table.now) workers.items }
    ensures { HaveWorked table.now workers.items result.items }
{
    let run = |_: usize, worker: &mut Worker|
        requires { (C.algebra c.now ≡ algebra_of table.now.opening) × IsWorker table.now worker.old }
        ensures { HasWorked table.entry.now worker.old worker.new }
    { work_between(table, c, gate, news, worker) };
    let threads = workers.len();
    thread::for_each_mut(rt, workers.as_mut_slice(), threads, &run);
    workers
}

/// Joins the passes of the workers to `home`. Returns their desks, too.
pub fn gather(
    alloc: Global,
    table: &OpenNet,
    home: Pass,
    mut workers: Vec<Worker>,
) -> Result<(Pass, Vec<Desk>), Memory>
    requires home { IsPassOf table.now home }
    requires workers { All (HasEnded table.now home.actor.seen) workers.items }
    ensures pass { IfOk result (λ r. IsPassOf table.now r.0) }
    ensures weight { IfOk result (λ r.
        r.0.actor.weight ≡ home.actor.weight + length workers.items) }
    ensures facts { IfOk result (λ r. r.0.actor.mine ≡ home.actor.mine) }
    ensures loads { IfOk result (λ r. home.loads
        + length workers.items * edge_count table.now.opening.nodes ≤ r.0.loads) }
    ensures within { IfOk result (λ r. Refines r.0.actor.seen home.actor.seen) }
    ensures desks { IfOk result (λ r. All (IsSeenDesk table.now r.0.actor.seen home.actor.seen) r.1.items) }
    ensures dealt { IfOk result (λ r. (edges : ℕ) → AreDealt (slices_at workers.items) edges
        → AreDealt (slices_of r.1.items) edges) }
    ensures count { IfOk result (λ r. length r.1.items ≡ length workers.items) }
{
    let mut desks = Vec::new(alloc);
    let mut all = home;
    while let Some(worker) = workers.pop() {
        let Worker {
            pass,
            desk,
            heard: _,
            narrowed: _,
        } = worker;
        all = table.join(all, pass);
        let Ok(()) = desks.push(desk) else {
            return Err(Memory);
        };
    }
    Ok((all, desks))
}
