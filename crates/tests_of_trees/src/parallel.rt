//! Searches by several workers, which end as that of one thread does.
ghost use Rattle.std.specs.Prelude.{◌<◌, ◌≤◌};

use crate::asserts::assert_same;
use crate::colours::ramsey;
use crate::nets::{is_network, net_of};
use crate::searches::{
    SEARCHES_OF_COLOURS, SEARCHES_OF_REGIONS, SIX, Said, SearchRow, has_bases, says,
};
use calculus_builtin::rcc8;
use calculus_table::{Calculus, Compose};
use network_words::Net;
use parallel_search::solve_parallel;
use qsr_outside::{Gate, NoGate};
use split_search::MAX_BUDGET;
use std::alloc::Global;
use std::process::Abort;
use std::sync::atomic::{AtomicU64, Ordering};
use std::test::Fail;
use std::thread::Threads;
use tract_classes::{Class, h8, none};

/// What is said of a network by so many workers, which pass the points of the gate, and the number of splits.
fn searched<R: Threads + Sync + Abort, G: Gate + Sync>(
    rt: &R,
    alloc: Global,
    net: &Net,
    c: &Calculus,
    class: &Class,
    budget: u32,
    workers: u32,
    gate: &G,
) -> Result<(Said, u32), Fail> {
    assert!(rt; is_network(net, c) && has_bases(class, c) && budget <= MAX_BUDGET);
    assert!(rt; 0 < workers && workers <= 64);
    let verdict = solve_parallel(rt, alloc, net, c, class, budget, workers, gate)?;
    Ok(says(&verdict))
}

/// Fails unless each search ends so, by so many workers.
fn assert_searches<R: Threads + Sync + Abort>(
    rt: &R,
    alloc: Global,
    c: &Calculus,
    class: &Class,
    rows: &[SearchRow],
    workers: u32,
) -> Result<(), Fail> {
    for (nodes, words, budget, expected, splits) in rows {
        let net = net_of(alloc, c.full(), *nodes, words)?;
        let ended = searched(rt, alloc, &net, c, class, *budget, workers, &NoGate)?;
        assert_same(rt, (ended, workers), ((*expected, *splits), workers));
    }
    Ok(())
}

const WORKERS: [u32; 4] = [1, 2, 4, 64];

#[test]
fn searches_of_colours_by_workers_end_as_they_are_ruled(rt: HostRuntime) -> Result<(), Fail> {
    let alloc = rt.alloc();
    let (c, class) = (ramsey(alloc)?, none(alloc, 3)?);
    for workers in WORKERS {
        assert_searches(&rt, alloc, &c, &class, &SEARCHES_OF_COLOURS, workers)?;
    }
    Ok(())
}

#[test]
fn searches_of_regions_by_workers_end_as_they_are_ruled(rt: HostRuntime) -> Result<(), Fail> {
    let alloc = rt.alloc();
    let (c, class) = (rcc8(alloc)?, h8(alloc)?);
    for workers in WORKERS {
        assert_searches(&rt, alloc, &c, &class, &SEARCHES_OF_REGIONS, workers)?;
    }
    Ok(())
}

/// Searches for a colouring of six nodes by so many workers, which pass the points of the gate.
fn search_six<R: Threads + Sync + Abort, G: Gate + Sync>(
    rt: &R,
    alloc: Global,
    workers: u32,
    gate: &G,
) -> Result<(Said, u32), Fail> {
    let (c, class) = (ramsey(alloc)?, none(alloc, 3)?);
    let net = net_of(alloc, c.full(), 6, &SIX)?;
    searched(rt, alloc, &net, &c, &class, 1000, workers, gate)
}

/// A gate that holds each of the points 4000 and 4001 until both were reached, for a number of turns at most.
#[derive(Drop)]
struct Meeting {
    reached: AtomicU64,
    passed: AtomicU64,
    missed: AtomicU64,
}

impl Gate for Meeting {
    fn pass(&self, point: u32) {
        if point != 4000 && point != 4001 {
            return;
        }
        let bit = if point == 4000 { 1 } else { 2 };
        self.reached.fetch_or(bit, Ordering::SeqCst);
        for _ in 0..200_000_000u64 {
            if self.reached.load(Ordering::SeqCst) & 3 == 3 {
                self.passed.fetch_or(bit, Ordering::SeqCst);
                return;
            }
        }
        self.missed.store(1, Ordering::SeqCst);
    }
}

#[test]
fn two_children_are_searched_at_once(rt: HostRuntime) -> Result<(), Fail> {
    let gate = Meeting {
        reached: AtomicU64::new(0),
        passed: AtomicU64::new(0),
        missed: AtomicU64::new(0),
    };
    let ended = search_six(&rt, rt.alloc(), 2, &gate)?;
    assert_same(&rt, ended, (Said::No, 19));
    assert_same(&rt, gate.passed.load(Ordering::SeqCst), 3);
    assert_same(&rt, gate.missed.load(Ordering::SeqCst), 0);
    Ok(())
}

/// A gate that counts its passes, in a byte for each of the points 4000, 4001, 5000 and 5001, and one for all others.
#[derive(Drop)]
struct Counting {
    counts: AtomicU64,
}

impl Gate for Counting {
    fn pass(&self, point: u32) {
        let byte = match point {
            4000 => 0,
            4001 => 1,
            5000 => 2,
            5001 => 3,
            _ => 4,
        };
        self.counts.fetch_add(1 << (8 * byte), Ordering::SeqCst);
    }
}

#[test]
fn each_child_begins_once_and_ends_once(rt: HostRuntime) -> Result<(), Fail> {
    for workers in WORKERS {
        let gate = Counting {
            counts: AtomicU64::new(0),
        };
        let ended = search_six(&rt, rt.alloc(), workers, &gate)?;
        let counts = gate.counts.load(Ordering::SeqCst);
        assert_same(
            &rt,
            (ended, counts, workers),
            ((Said::No, 19), 0x0101_0101, workers),
        );
    }
    Ok(())
}
