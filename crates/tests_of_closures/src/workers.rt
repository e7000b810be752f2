//! Networks closed by several workers, beside the same closed on one thread; the pieces of their work and the points
//! that these pass.
ghost use Rattle.std.specs.Prelude.{◌<◌, ◌≤◌};
ghost use Rattle.network_words.specs.Network.{IsNetwork};

use crate::asserts::{assert_same, assert_same_in};
use crate::nets::{NTPP, chain, is_network, put, random_net};
use calculus_builtin::{allen, point, rcc8};
use calculus_table::{Calculus, Compose, Memory};
use closure_seq::close;
use closure_workers::{close_parallel, close_slice};
use compose_fast::Fast;
use edge_table::{Pass, Snapshot, open};
use network_words::Net;
use qsr_outside::{Gate, NoGate};
use std::alloc::Global;
use std::process::Abort;
use std::sync::atomic::{AtomicU64, Ordering};
use std::test::Fail;
use std::thread::Threads;

/// The network closed on one thread.
fn closed<C: Compose>(alloc: Global, c: &C, net: &Net) -> Result<Net, Memory>
    requires { IsNetwork (C.algebra c.now) net.now.nodes net.now.words }
{
    let mut closed = net.copy()?;
    close(alloc, &mut closed, c)?;
    Ok(closed)
}

/// The network closed by so many workers, which pass the points of the gate.
fn closed_by<R: Threads + Sync, C: Compose + Sync, G: Gate + Sync>(
    rt: &R,
    alloc: Global,
    c: &C,
    net: &Net,
    workers: u32,
    gate: &G,
) -> Result<Net, Memory>
    requires network { IsNetwork (C.algebra c.now) net.now.nodes net.now.words }
    requires some { 0 < workers }
    requires few { workers ≤ 64 }
{
    let mut closed = net.copy()?;
    let _table = close_parallel(rt, alloc, &mut closed, c, workers, gate)?;
    Ok(closed)
}

/// Closes the network by so many workers, and fails unless it then has these sets.
fn assert_closed_by<R: Threads + Sync + Abort, C: Compose + Sync>(
    rt: &R,
    alloc: Global,
    c: &C,
    net: &Net,
    workers: u32,
    expected: &[u64],
) -> Result<(), Fail> {
    assert!(rt; is_network(net, c) && 0 < workers && workers <= 64);
    let found = closed_by(rt, alloc, c, net, workers, &NoGate)?;
    assert_same_in(rt, found.words(), expected, (net.nodes(), workers));
    Ok(())
}

/// Closes the network by each of these numbers of workers and on one thread, and fails unless all are the same.
fn assert_closed_by_each<R: Threads + Sync + Abort, C: Compose + Sync>(
    rt: &R,
    alloc: Global,
    c: &C,
    net: &Net,
    counts: &[u32],
) -> Result<(), Fail> {
    assert!(rt; is_network(net, c));
    let expected = closed(alloc, c, net)?;
    for workers in counts {
        assert_closed_by(rt, alloc, c, net, *workers, expected.words())?;
    }
    Ok(())
}

/// Closes the network by a few workers and on one thread, and fails unless all are the same.
fn assert_closed_by_any<R: Threads + Sync + Abort, C: Compose + Sync>(
    rt: &R,
    alloc: Global,
    c: &C,
    net: &Net,
) -> Result<(), Fail> {
    assert_closed_by_each(rt, alloc, c, net, &[1, 2, 4])
}

/// Closes random networks of one calculus that have so many nodes.
fn assert_closures_of<R: Threads + Sync + Abort, C: Compose + Sync>(
    rt: &R,
    alloc: Global,
    c: &C,
    nodes: u32,
) -> Result<(), Fail> {
    for sparse in [1, 2, 4] {
        let start = u64::from(nodes) * 1000 + sparse;
        let net = random_net(alloc, c.full(), nodes, sparse, 0, start)?;
        assert_closed_by_any(rt, alloc, c, &net)?;
    }
    Ok(())
}

/// Closes random networks of one calculus.
fn assert_closures<R: Threads + Sync + Abort, C: Compose + Sync>(
    rt: &R,
    alloc: Global,
    c: &C,
) -> Result<(), Fail> {
    for nodes in [1, 2, 3, 5, 10] {
        assert_closures_of(rt, alloc, c, nodes)?;
    }
    Ok(())
}

/// Closes a chain of `link`.
fn assert_chain<R: Threads + Sync + Abort, C: Compose + Sync>(
    rt: &R,
    alloc: Global,
    c: &C,
    nodes: u32,
    link: u64,
) -> Result<(), Fail> {
    let net = chain(alloc, c.full(), nodes, link)?;
    assert_closed_by_any(rt, alloc, c, &net)
}

/// Closes networks of each density whose sets have all of `base`.
fn assert_densities<R: Threads + Sync + Abort, C: Compose + Sync>(
    rt: &R,
    alloc: Global,
    c: &C,
    nodes: u32,
    base: u64,
) -> Result<(), Fail> {
    for sparse in [1, 2, 8] {
        let start = u64::from(nodes).wrapping_add(sparse);
        let net = random_net(alloc, c.full(), nodes, sparse, base, start)?;
        assert_closed_by_any(rt, alloc, c, &net)?;
    }
    Ok(())
}

/// Closes larger networks of one calculus: chains of `link`, networks of each density whose sets have all of `base`,
/// and random ones.
fn assert_larger<R: Threads + Sync + Abort, C: Compose + Sync>(
    rt: &R,
    alloc: Global,
    c: &C,
    link: u64,
    base: u64,
) -> Result<(), Fail> {
    for nodes in [17, 40] {
        assert_chain(rt, alloc, c, nodes, link)?;
        assert_densities(rt, alloc, c, nodes, base)?;
        let net = random_net(alloc, c.full(), nodes, u64::from(nodes), 0, 7)?;
        assert_closed_by_any(rt, alloc, c, &net)?;
    }
    Ok(())
}

#[test]
fn closes_regions_as_on_one_thread(rt: HostRuntime) -> Result<(), Fail> {
    let c = rcc8(rt.alloc())?;
    assert_closures(&rt, rt.alloc(), &c)?;
    // a chain of proper parts, and sets that have the non-tangential one
    assert_larger(&rt, rt.alloc(), &c, 24, 16)
}

#[test]
fn closes_intervals_as_on_one_thread(rt: HostRuntime) -> Result<(), Fail> {
    let intervals = allen(rt.alloc())?;
    let c = Fast::new(rt.alloc(), &intervals)?;
    assert_closures(&rt, rt.alloc(), &c)?;
    // a chain of intervals before or at the next, and sets that have `before`
    assert_larger(&rt, rt.alloc(), &c, 3, 1)
}

#[test]
fn closes_points_as_on_one_thread(rt: HostRuntime) -> Result<(), Fail> {
    let c = point(rt.alloc())?;
    assert_closures(&rt, rt.alloc(), &c)?;
    assert_larger(&rt, rt.alloc(), &c, 1, 1)
}

#[test]
fn closes_a_dense_network_as_on_one_thread(rt: HostRuntime) -> Result<(), Fail> {
    let c = Fast::new(rt.alloc(), &rcc8(rt.alloc())?)?;
    // each region may lie well inside all later ones
    let net = random_net(rt.alloc(), c.full(), 256, 1, NTPP, 7)?;
    assert_closed_by_each(&rt, rt.alloc(), &c, &net, &[1, 2, 4, 64])
}

/// What a pass has seen when it has closed two slices of a network, and then all edges.
fn seen_closed<C: Compose>(alloc: Global, c: &C, net: &Net) -> Option<Snapshot>
    requires { IsNetwork (C.algebra c.now) net.now.nodes net.now.words }
{
    let edges = net.edges();
    let Ok((table, mut pass)) = open(alloc, net, c, 1) else {
        return None;
    };
    let Ok(mut snap) = Snapshot::new(alloc, edges) else {
        return None;
    };
    close_slice(&table, &mut pass, c, 0, edges / 2, &mut snap);
    close_slice(&table, &mut pass, c, edges / 2, edges, &mut snap);
    close_slice(&table, &mut pass, c, 0, edges, &mut snap);
    Some(snap)
}

/// Closes the network by a pass over its slices, and fails unless the pass has then seen the closure.
fn assert_closed_by_slices<C: Compose>(
    rt: &impl Abort,
    alloc: Global,
    c: &C,
    net: &Net,
) -> Result<(), Fail> {
    assert!(rt; is_network(net, c));
    let snap = seen_closed(alloc, c, net).ok_or("out of memory")?;
    let expected = closed(alloc, c, net)?;
    assert_same_in(rt, snap.words(), expected.words(), net.nodes());
    Ok(())
}

#[test]
fn a_pass_closes_slices(rt: HostRuntime) -> Result<(), Fail> {
    let c = rcc8(rt.alloc())?;
    for nodes in [2, 5, 40] {
        let net = chain(rt.alloc(), c.full(), nodes, 24)?;
        assert_closed_by_slices(&rt, rt.alloc(), &c, &net)?;
    }
    Ok(())
}

/// Closes the network by two workers, and fails unless every set is then empty.
fn assert_emptied<R: Threads + Sync + Abort, C: Compose + Sync>(
    rt: &R,
    alloc: Global,
    c: &C,
    net: &Net,
) -> Result<(), Fail> {
    assert!(rt; is_network(net, c));
    let closed = closed_by(rt, alloc, c, net, 2, &NoGate)?;
    assert!(rt; closed.words().iter().all(|word| *word == 0));
    Ok(())
}

#[test]
fn one_empty_set_empties_all(rt: HostRuntime) -> Result<(), Fail> {
    let c = rcc8(rt.alloc())?;
    for nodes in [2, 3, 9] {
        let mut net = Net::new(rt.alloc(), nodes, c.full())?;
        put(&mut net, 0, 0);
        assert_closed_by_any(&rt, rt.alloc(), &c, &net)?;
        assert_emptied(&rt, rt.alloc(), &c, &net)?;
    }
    Ok(())
}

/// Closes a network of which nothing is known by so many workers, which pass the points of the gate.
fn close_through<R: Threads + Sync + Abort, G: Gate + Sync>(
    rt: &R,
    alloc: Global,
    c: &Calculus,
    nodes: u32,
    workers: u32,
    gate: &G,
) -> Result<(), Fail> {
    let net = Net::new(alloc, nodes, c.full())?;
    assert!(rt; is_network(&net, c) && 0 < workers && workers <= 64);
    let _closed = closed_by(rt, alloc, c, &net, workers, gate)?;
    Ok(())
}

/// A gate that holds each of the points 0 and 1 until both were reached, for a number of turns at most.
#[derive(Drop)]
struct Meeting {
    reached: AtomicU64,
    passed: AtomicU64,
    missed: AtomicU64,
}

impl Gate for Meeting {
    fn pass(&self, point: u32) {
        if point > 1 {
            return;
        }
        self.reached.fetch_or(1 << point, Ordering::SeqCst);
        for _ in 0..200_000_000u64 {
            if self.reached.load(Ordering::SeqCst) & 3 == 3 {
                self.passed.fetch_or(1 << point, Ordering::SeqCst);
                return;
            }
        }
        self.missed.store(1, Ordering::SeqCst);
    }
}

/// How many nodes the network has that two workers close, who both have edges.
const MEETINGS: [u32; 2] = [3, 9];

#[test]
fn workers_who_have_edges_meet(rt: HostRuntime) -> Result<(), Fail> {
    let c = rcc8(rt.alloc())?;
    for nodes in MEETINGS {
        let gate = Meeting {
            reached: AtomicU64::new(0),
            passed: AtomicU64::new(0),
            missed: AtomicU64::new(0),
        };
        close_through(&rt, rt.alloc(), &c, nodes, 2, &gate)?;
        assert_same_in(&rt, gate.passed.load(Ordering::SeqCst), 3, nodes);
        assert_same_in(&rt, gate.missed.load(Ordering::SeqCst), 0, nodes);
    }
    Ok(())
}

/// A gate that counts its passes, in 4 bits for each of the points below 16 and each of those from 1000 on.
#[derive(Drop)]
struct Counting {
    begun: AtomicU64,
    ended: AtomicU64,
    others: AtomicU64,
}

impl Gate for Counting {
    fn pass(&self, point: u32) {
        if point < 16 {
            self.begun.fetch_add(1 << (4 * point), Ordering::SeqCst);
        } else if point >= 1000 && point < 1016 {
            self.ended
                .fetch_add(1 << (4 * (point - 1000)), Ordering::SeqCst);
        } else {
            self.others.fetch_add(1, Ordering::SeqCst);
        }
    }
}

/// How often each piece of a network begins, how often it ends, and how many other points are passed.
fn counted<R: Threads + Sync + Abort>(
    rt: &R,
    alloc: Global,
    c: &Calculus,
    nodes: u32,
    workers: u32,
) -> Result<(u64, u64, u64), Fail> {
    let gate = Counting {
        begun: AtomicU64::new(0),
        ended: AtomicU64::new(0),
        others: AtomicU64::new(0),
    };
    close_through(rt, alloc, c, nodes, workers, &gate)?;
    let begun = gate.begun.load(Ordering::SeqCst);
    let ended = gate.ended.load(Ordering::SeqCst);
    Ok((begun, ended, gate.others.load(Ordering::SeqCst)))
}

/// Nodes, workers, and the pieces that there are, each counted once in 4 bits.
const PIECES: [(u32, u32, u64); 5] = [
    (1, 5, 0x1),
    (2, 5, 0x1),
    (3, 2, 0x11),
    (3, 64, 0x111),
    (6, 4, 0x1111),
];

#[test]
fn each_piece_begins_once_and_ends_once(rt: HostRuntime) -> Result<(), Fail> {
    let c = rcc8(rt.alloc())?;
    for (nodes, workers, pieces) in PIECES {
        let counts = counted(&rt, rt.alloc(), &c, nodes, workers)?;
        assert_same(&rt, counts, (pieces, pieces, 0));
    }
    Ok(())
}

fn is_sent<T: Send>() {}

/// A worker has a part of a pass and a snapshot, beside numbers and a copy.
#[test]
fn passes_and_snapshots_go_to_other_threads() {
    is_sent::<Pass>();
    is_sent::<Snapshot>();
}
