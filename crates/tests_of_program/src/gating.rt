//! What runs at one time with what, as gates see it and hold it.
use crate::asserts::{assert_same, assert_same_in};
use crate::runs::{CLOSE, RAMSEY, complete, ended, ran, refused, shelf_of, sink_of};
use qsr_outside::{BytesSource, Gate};
use qsr_top::Status;
use std::process::Abort;
use std::sync::atomic::{AtomicU64, Ordering};
use std::test::Fail;
use std::thread::Threads;

/// Waits until all of these bits are there, for a number of turns at most: whether they came.
fn came(flags: &AtomicU64, bits: u64) -> bool {
    for _ in 0..200_000_000u64 {
        if flags.load(Ordering::SeqCst) & bits == bits {
            return true;
        }
    }
    false
}

/// A gate that counts how often workers that close a network pass it.
#[derive(Drop)]
struct CountingGate {
    passes: AtomicU64,
}

impl Gate for CountingGate {
    fn pass(&self, point: u32) {
        if point < 2000 {
            self.passes.fetch_add(1, Ordering::SeqCst);
        }
    }
}

/// How a run ends, and how often workers that close a network pass the gate.
fn passes<R: Threads + Sync + Abort + AllocGlobal>(
    rt: &R,
    words: &[&str],
    source: &[u8],
) -> Result<(Status, u64), Fail> {
    let gate = CountingGate {
        passes: AtomicU64::new(0),
    };
    let (ended, _) = ran(rt, words, source, &[], &[], &gate)?;
    Ok((ended, gate.passes.load(Ordering::SeqCst)))
}

#[test]
fn the_gate_is_not_passed_where_no_worker_runs(rt: HostRuntime) -> Result<(), Fail> {
    let ended = passes(&rt, CLOSE, b"")?;
    assert_same(&rt, ended, (refused(20, 0), 0));
    let ended = passes(&rt, &["help"], b"nodes 1\n.\n")?;
    assert_same(&rt, ended, (Status::Usage, 0));
    Ok(())
}

/// Words that close a network of three nodes or make one, and how often they pass the gate: twice for each worker.
const WORKERS: [(&[&str], u64); 8] = [
    (&["close", "rcc8"], 2),
    (&["close", "rcc8", "--workers", "1"], 2),
    (&["close", "rcc8", "--workers", "2"], 4),
    (&["close", "rcc8", "--workers=64"], 6),
    (&["solve", "point"], 2),
    (&["solve", "point", "--workers", "3"], 6),
    (&["solve", "allen", "--workers=2", "--cert"], 4),
    (&["demo", "7", "3"], 2),
];

#[test]
fn as_many_workers_as_are_named_close_a_network(rt: HostRuntime) -> Result<(), Fail> {
    for (words, count) in WORKERS {
        let ended = passes(&rt, words, b"nodes 3\n.\n")?;
        assert_same_in(&rt, ended, (Status::Done, count), words);
    }
    Ok(())
}

/// Runs at the gate to the end of the answer: the text that is written.
fn expect_done<R: Threads + Sync + Abort + AllocGlobal, G: Gate + Sync>(
    rt: &R,
    words: &[&str],
    source: &[u8],
    gate: &G,
    text: &str,
) -> Result<(), Fail> {
    let (status, written) = ran(rt, words, source, &[], &[], gate)?;
    assert_same_in(rt, status, Status::Done, words);
    assert_same_in(rt, written.as_slice(), text.as_bytes(), words);
    Ok(())
}

/// A gate that holds each of the points 0 and 1 until both were reached, for a number of turns at most.
#[derive(Drop)]
struct Meeting {
    reached: AtomicU64,
    passed: AtomicU64,
    missed: AtomicU64,
}

impl Gate for Meeting {
    fn pass(&self, point: u32) {
        if point > 1 {
            return;
        }
        self.reached.fetch_or(1 << point, Ordering::SeqCst);
        if came(&self.reached, 3) {
            self.passed.fetch_or(1 << point, Ordering::SeqCst);
        } else {
            self.missed.store(1, Ordering::SeqCst);
        }
    }
}

#[test]
fn two_workers_begin_before_either_ends(rt: HostRuntime) -> Result<(), Fail> {
    let gate = Meeting {
        reached: AtomicU64::new(0),
        passed: AtomicU64::new(0),
        missed: AtomicU64::new(0),
    };
    let words = ["close", "rcc8", "--workers", "2"];
    let source = b"nodes 3\n0 1 ( TPP )\n1 2 ( NTPP )\n.\n";
    let answer = "nodes 3\n0 1 ( TPP )\n0 2 ( NTPP )\n1 2 ( NTPP )\n.\n";
    expect_done(&rt, &words, source, &gate, answer)?;
    assert_same(&rt, gate.passed.load(Ordering::SeqCst), 3);
    assert_same(&rt, gate.missed.load(Ordering::SeqCst), 0);
    Ok(())
}

/// The bit of a point of one of the first eight workers, sessions or children of a split.
fn bit_of(point: u32) -> u64 {
    1 << (point / 1000 % 6 * 8 + point % 1000 % 8)
}

/// A gate that holds points, each until another one was reached, for a number of turns at most.
#[derive(Drop)]
struct Holding<'a> {
    /// A point that is held, and the point that it waits for.
    holds: &'a [(u32, u32)],
    reached: AtomicU64,
    missed: AtomicU64,
}

impl Gate for Holding<'_> {
    fn pass(&self, point: u32) {
        self.reached.fetch_or(bit_of(point), Ordering::SeqCst);
        for (held, until) in self.holds {
            if *held == point && !came(&self.reached, bit_of(*until)) {
                self.missed.store(1, Ordering::SeqCst);
            }
        }
    }
}

/// Two sessions, of which one looks at what the other one states.
const PEEK_AND_FACT: &[u8] = b"a peek 0 1\nb assert 0 1 ( TPP )\ncommit\n";

/// The nodes and the script, the points that are held and those that they wait for, and the text that is written.
const HELD: [(&str, &[u8], &[(u32, u32)], &str); 4] = [
    (
        "2",
        PEEK_AND_FACT,
        &[(2001, 3000)],
        "a peek ( DC EC PO TPP NTPP TPPi NTPPi EQ )\nb fact 1\nversion 1 closed\n",
    ),
    (
        "2",
        PEEK_AND_FACT,
        &[(2000, 3001)],
        "a peek ( TPP )\nb fact 1\nversion 1 closed\n",
    ),
    (
        "2",
        b"a assert 0 1 ( TPP )\nb assert 1 0 ( TPPi )\ncommit\n",
        &[(2000, 2001), (2001, 2000)],
        "a fact 1\nb fact 2\nversion 1 closed\n",
    ),
    (
        "3",
        b"s assert 0 1 ( TPP )\ns peek 0 1\ncommit\n",
        &[(2000, 0), (1000, 3000)],
        "s fact 1\ns peek ( TPP )\nversion 1 closed\n",
    ),
];

#[test]
fn sessions_and_workers_run_at_once(rt: HostRuntime) -> Result<(), Fail> {
    for (nodes, script, holds, text) in HELD {
        let gate = Holding {
            holds,
            reached: AtomicU64::new(0),
            missed: AtomicU64::new(0),
        };
        expect_done(&rt, &["serve", "rcc8", nodes], script, &gate, text)?;
        assert_same_in(&rt, gate.missed.load(Ordering::SeqCst), 0, holds);
    }
    Ok(())
}

#[test]
fn two_children_of_a_split_are_searched_at_once(rt: HostRuntime) -> Result<(), Fail> {
    let alloc = rt.alloc();
    let gate = Holding {
        holds: &[(4000, 4001), (4001, 4000)],
        reached: AtomicU64::new(0),
        missed: AtomicU64::new(0),
    };
    let words = ["solve", "ramsey", "--workers", "2"];
    let text = complete(alloc, 6, "( a b )", "")?;
    let mut shelf = shelf_of(alloc, &[("ramsey", RAMSEY)])?;
    let mut source = BytesSource::new(alloc, text.as_bytes(), 4096, &[])?;
    let mut sink = sink_of(alloc, 4096, &[])?;
    let status = ended(&rt, &words, &mut shelf, &mut source, &mut sink, &gate)?;
    assert_same(&rt, status, Status::No);
    assert_same(&rt, sink.bytes(), b"no 19\n");
    assert_same(&rt, gate.missed.load(Ordering::SeqCst), 0);
    Ok(())
}
