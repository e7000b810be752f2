//! Scripts over nodes of RCC-8: how they are read, and what their batches answer.
ghost use Rattle.std.specs.Prelude.{◌≡◌, ◌<◌, ◌≤◌, IfOk};

use crate::asserts::{assert_same, assert_same_in};
use calculus_builtin::rcc8;
use calculus_table::{Calculus, Memory, Rel};
use network_words::Fact;
use qsr_outside::{BytesSource, Gate, NoGate, ReadStop, Source};
use session_run::run_batch;
use session_scripts::{Batch, Line, ScriptReader, What};
use session_versions::Store;
use std::alloc::Global;
use std::process::Abort;
use std::sync::atomic::{AtomicU64, Ordering};
use std::test::Fail;
use std::thread::Threads;

/// A peek at the relation of node 0 to node 1.
const PEEK: What = What::Peek { i: 0, j: 1 };

/// A refusal with this number.
fn refused(number: u32) -> What {
    What::Refused { number }
}

/// A line with this number in the batch, of the session with this place.
fn line(at: u32, session: u32, what: What) -> Line {
    Line { at, session, what }
}

/// The batches of a script over two nodes that come before the reader stops, at most ten, and then the stop, if there
/// is one.
fn read_batches(
    alloc: Global,
    reader: &mut ScriptReader,
    source: &mut BytesSource,
    c: &Calculus,
) -> Result<(Vec<Batch>, Option<ReadStop>), Memory> {
    let mut batches = Vec::new(alloc);
    for _batch in 0..10 {
        match reader.next(source, c, 2) {
            Ok(Some(batch)) => batches.push(batch).map_err(|_| Memory)?,
            Ok(None) => return Ok((batches, None)),
            Err(stop) => return Ok((batches, Some(stop))),
        }
    }
    Ok((batches, None))
}

/// The batches of a script over two nodes.
fn batches(alloc: Global, script: &[u8], c: &Calculus) -> Result<Vec<Batch>, Memory> {
    let mut source = BytesSource::new(alloc, script, 100, &[]).map_err(|_| Memory)?;
    let mut reader = ScriptReader::new(alloc, 100_000)?;
    let (batches, _) = read_batches(alloc, &mut reader, &mut source, c)?;
    Ok(batches)
}

/// How many batches there are, and how many lines and sessions the last one has.
fn sizes(batches: &[Batch]) -> (usize, usize, usize) {
    match batches.last() {
        Some(last) => (batches.len(), last.lines.len(), last.sessions.len()),
        None => (0, 0, 0),
    }
}

/// The line with this place in the last batch.
fn line_at(batches: &[Batch], place: usize) -> Option<Line> {
    let last = batches.last()?;
    last.lines.get(place).copied()
}

/// What a line that comes after a blank one is read as, if it is the only one of the only batch.
fn read_alone(alloc: Global, text: &[u8], c: &Calculus) -> Result<Option<Line>, Fail> {
    let mut script = Vec::from_slice(alloc, b" # a script\n")?;
    script.extend_from_slice(text)?;
    script.extend_from_slice(b"\n")?;
    let batches = batches(alloc, &script, c)?;
    match sizes(&batches) {
        (1, 1, _) => Ok(line_at(&batches, 0)),
        _ => Ok(None),
    }
}

#[test]
fn a_fact_is_read(rt: HostRuntime) -> Result<(), Fail> {
    let c = rcc8(rt.alloc())?;
    let rel = Rel::of(8);
    let found = read_alone(rt.alloc(), b"s assert 1 0 ( TPP )", &c)?;
    let expected = What::Assert(Fact { i: 1, j: 0, rel });
    assert_same(&rt, found, Some(line(2, 0, expected)));
    Ok(())
}

/// Line, what it asks for.
const COMMANDS: [(&[u8], What); 5] = [
    (b"s peek 00 1 # no more\r", PEEK),
    (b"s withdraw 7", What::Withdraw { fact: 7 }),
    (
        b"s ask 0 1",
        What::Ask {
            version: None,
            i: 0,
            j: 1,
        },
    ),
    (
        b"s ask 5 0 1",
        What::Ask {
            version: Some(5),
            i: 0,
            j: 1,
        },
    ),
    (b"commit peek 0 1", PEEK),
];

#[test]
fn each_command_is_read(rt: HostRuntime) -> Result<(), Fail> {
    let c = rcc8(rt.alloc())?;
    for (text, expected) in COMMANDS {
        let found = read_alone(rt.alloc(), text, &c)?;
        assert_same_in(&rt, found, Some(line(2, 0, expected)), text);
    }
    Ok(())
}

/// Line, the number of its refusal.
const REFUSALS: [(&[u8], u32); 10] = [
    (b"s assert 0 9 ( XX )", 15),
    (b"s assert 1 1 ( XX )", 16),
    (b"s assert 0 1 ( XX )", 19),
    (b"s assert 0 1 ( 9 )", 48),
    (b"s peek a b", 48),
    (b"s peek 0 1 2", 48),
    (b"s asks 0 1", 48),
    (b"hello", 48),
    (b"9 peek 0 1", 48),
    (b"commit \x07", 48),
];

#[test]
fn other_lines_are_refused(rt: HostRuntime) -> Result<(), Fail> {
    let c = rcc8(rt.alloc())?;
    for (text, number) in REFUSALS {
        let found = read_alone(rt.alloc(), text, &c)?;
        assert_same_in(&rt, found, Some(line(2, 0, refused(number))), text);
    }
    Ok(())
}

/// Script, how many batches it has, the lines and the sessions of the last one.
const SCRIPTS: [(&[u8], usize, usize, usize); 7] = [
    (b"", 0, 0, 0),
    (b"commit", 1, 0, 0),
    (b"commit\n\n# end", 1, 0, 0),
    (b"s peek 0 1\n commit # x\ns peek 0 1", 2, 1, 1),
    (b"a peek 0 1\nb peek 0 1\na ask 0 1\n", 1, 3, 2),
    (b"\n\n#\n", 0, 0, 0),
    (b"commit\ncommit \r\ncommit", 3, 0, 0),
];

#[test]
fn batches_end_with_commits(rt: HostRuntime) -> Result<(), Fail> {
    let c = rcc8(rt.alloc())?;
    for (script, count, lines, sessions) in SCRIPTS {
        let batches = batches(rt.alloc(), script, &c)?;
        assert_same_in(&rt, sizes(&batches), (count, lines, sessions), script);
    }
    Ok(())
}

/// So many times the same line.
fn repeated(alloc: Global, line: &[u8], times: u32) -> Result<Vec<u8>, Fail> {
    let mut script = Vec::new(alloc);
    for _time in 0..times {
        script.extend_from_slice(line)?;
    }
    Ok(script)
}

#[test]
fn long_batches_are_cut_off(rt: HostRuntime) -> Result<(), Fail> {
    let c = rcc8(rt.alloc())?;
    let script = repeated(rt.alloc(), b"s peek 0 1\n", 4098)?;
    let batches = batches(rt.alloc(), &script, &c)?;
    assert_same(&rt, sizes(&batches), (1, 4097, 1));
    assert_same(&rt, line_at(&batches, 4095), Some(line(4096, 0, PEEK)));
    assert_same(
        &rt,
        line_at(&batches, 4096),
        Some(line(4097, 0, refused(50))),
    );
    Ok(())
}

/// A line of each of sixty-five sessions.
fn peeks_of_sessions(alloc: Global) -> Result<String, Fail> {
    let mut script = String::new(alloc);
    for session in 1..66 {
        script.push_str(format!(in alloc; "s{session} peek 0 1\n")?.as_str())?;
    }
    Ok(script)
}

#[test]
fn a_sixty_fifth_session_is_refused(rt: HostRuntime) -> Result<(), Fail> {
    let c = rcc8(rt.alloc())?;
    let script = peeks_of_sessions(rt.alloc())?;
    let batches = batches(rt.alloc(), script.as_bytes(), &c)?;
    assert_same(&rt, sizes(&batches), (1, 65, 64));
    assert_same(&rt, line_at(&batches, 63), Some(line(64, 63, PEEK)));
    assert_same(&rt, line_at(&batches, 64), Some(line(65, 0, refused(49))));
    Ok(())
}

/// How many batches came before a reader stopped, the stop, how many bytes were given, and how many reads failed.
type Outcome = (usize, Option<ReadStop>, u64, u64);

/// What comes of reading on until the reader stops.
fn outcome(
    alloc: Global,
    reader: &mut ScriptReader,
    source: &mut BytesSource,
    c: &Calculus,
) -> Result<Outcome, Memory> {
    let (batches, stop) = read_batches(alloc, reader, source, c)?;
    Ok((batches.len(), stop, source.given(), source.faults()))
}

/// What comes of a script that may have `limit` bytes, whose source gives at most `piece` bytes at once and fails at
/// one read, and what comes of reading on.
fn outcomes(
    alloc: Global,
    script: &[u8],
    piece: usize,
    failing: u32,
    limit: u32,
    c: &Calculus,
) -> Result<(Outcome, Outcome), Memory> {
    if piece == 0 || limit > 100 {
        return Err(Memory);
    }
    let mut source = BytesSource::new(alloc, script, piece, &[failing]).map_err(|_| Memory)?;
    let mut reader = ScriptReader::new(alloc, limit)?;
    let first = outcome(alloc, &mut reader, &mut source, c)?;
    let again = outcome(alloc, &mut reader, &mut source, c)?;
    Ok((first, again))
}

/// A script of two batches.
const TWO: &[u8] = b"s1 assert 0 1 ( TPP )\ns1 assert 1 2 ( NTPP )\ncommit\ns1 peek 0 2\ncommit\n";

/// The stop at a read that fails.
const FAULT: Option<ReadStop> = Some(ReadStop::ReadFault);

/// The stop at a script that is too long.
const LONG: Option<ReadStop> = Some(ReadStop::TooLong);

/// Script, most bytes of a read, read that fails, limit: how many batches, the stop, how many bytes were given.
const STOPS: [(&[u8], usize, u32, u32, usize, Option<ReadStop>, u64); 10] = [
    (TWO, 100, 9, 100, 2, None, 71),
    (TWO, 1, 52, 100, 1, FAULT, 52),
    (TWO, 1, 51, 100, 0, FAULT, 51),
    (b"commit\n", 100, 1, 100, 1, FAULT, 7),
    (b"commit\ncommit\n", 3, 9, 7, 1, LONG, 9),
    (b"commit\ncommit\n", 3, 9, 6, 0, LONG, 9),
    (b"commit", 1, 9, 6, 1, None, 6),
    (b"commit", 1, 9, 5, 0, LONG, 6),
    (b"s peek 0 1", 4, 2, 100, 0, FAULT, 8),
    (b"\n#", 4, 0, 100, 0, FAULT, 0),
];

#[test]
fn a_reader_stops_after_the_batches_that_came_before(rt: HostRuntime) -> Result<(), Fail> {
    let c = rcc8(rt.alloc())?;
    for (script, piece, failing, limit, count, stop, given) in STOPS {
        let (first, again) = outcomes(rt.alloc(), script, piece, failing, limit, &c)?;
        let faults = u64::from(stop == FAULT);
        assert_same_in(&rt, first, (count, stop, given, faults), script);
        assert_same_in(&rt, again, (0, stop, given, faults), script);
    }
    Ok(())
}

/// How many bytes were given when a `commit` after so many empty lines, and with 10,000 after it, is answered.
fn given_to_commit(alloc: Global, before: u32, c: &Calculus) -> Result<Option<u64>, Fail> {
    let mut script = repeated(alloc, b"\n", before)?;
    script.extend_from_slice(b"commit\n")?;
    script.extend_from_slice(&repeated(alloc, b"\n", 10_000)?)?;
    let mut source = BytesSource::new(alloc, &script, 10_000, &[])?;
    let mut reader = ScriptReader::new(alloc, 100_000)?;
    match reader.next(&mut source, c, 2)? {
        Some(_) => Ok(Some(source.given())),
        None => Ok(None),
    }
}

#[test]
fn less_than_a_piece_is_taken_after_a_commit(rt: HostRuntime) -> Result<(), Fail> {
    let c = rcc8(rt.alloc())?;
    // lines before the `commit`, how many bytes were given when it is answered
    for (before, given) in [(0, 4096), (4089, 4096), (4090, 8192)] {
        assert_same(&rt, given_to_commit(rt.alloc(), before, &c)?, Some(given));
    }
    Ok(())
}

/// The replies to the next batch of a script, by so many workers, from 1 to 64, if there is one.
fn next_replies<R: Threads + Sync + Abort, S: Source, G: Gate + Sync>(
    rt: &R,
    alloc: Global,
    store: &mut Store,
    reader: &mut ScriptReader,
    source: &mut S,
    c: &Calculus,
    workers: u32,
    gate: &G,
) -> Result<Option<String>, Fail>
    requires calculus { c.now.algebra ≡ store.old.calculus }
    requires some { 0 < workers }
    requires few { workers ≤ 64 }
    ensures { store.new.calculus ≡ store.old.calculus }
{
    let Some(batch) = reader.next(source, c, store.nodes())? else {
        return Ok(None);
    };
    assert!(rt; store.newest() < 1000 && store.next_fact() < 1000);
    Ok(Some(run_batch(rt, alloc, store, &batch, c, c, workers, gate)?))
}

/// The replies to the batches of a script, at most twenty, by so many workers, from 1 to 64.
fn replies_by<R: Threads + Sync + Abort, G: Gate + Sync>(
    rt: &R,
    alloc: Global,
    store: &mut Store,
    script: &[u8],
    c: &Calculus,
    workers: u32,
    gate: &G,
) -> Result<String, Fail>
    requires calculus { c.now.algebra ≡ store.old.calculus }
    requires some { 0 < workers }
    requires few { workers ≤ 64 }
    ensures { store.new.calculus ≡ store.old.calculus }
{
    let mut source = BytesSource::new(alloc, script, 4096, &[])?;
    let mut reader = ScriptReader::new(alloc, 100_000)?;
    let mut text = String::new(alloc);
    for _batch in 0..20 {
        let Some(replies) = next_replies(
            rt,
            alloc,
            store,
            &mut reader,
            &mut source,
            c,
            workers,
            gate,
        )?
        else {
            return Ok(text);
        };
        text.push_str(&replies)?;
    }
    Ok(text)
}

/// The same by one worker.
fn all_replies<R: Threads + Sync + Abort, G: Gate + Sync>(
    rt: &R,
    alloc: Global,
    store: &mut Store,
    script: &[u8],
    c: &Calculus,
    gate: &G,
) -> Result<String, Fail>
    requires { c.now.algebra ≡ store.old.calculus }
    ensures { store.new.calculus ≡ store.old.calculus }
{
    replies_by(rt, alloc, store, script, c, 1, gate)
}

/// The store over so many nodes after the batches of a script.
fn store_after<R: Threads + Sync + Abort>(
    rt: &R,
    alloc: Global,
    nodes: u32,
    script: &[u8],
    c: &Calculus,
) -> Result<Store, Fail>
    requires some { 0 < nodes }
    requires few { nodes ≤ 3 }
    ensures { IfOk result (λ store. store.calculus ≡ c.now.algebra) }
{
    let mut store = Store::new(alloc, nodes, c)?;
    all_replies(rt, alloc, &mut store, script, c, &NoGate)?;
    Ok(store)
}

/// The replies to a script that begins a store over so many nodes, from 1 to 3.
fn first_replies<R: Threads + Sync + Abort>(
    rt: &R,
    alloc: Global,
    nodes: u32,
    script: &[u8],
    c: &Calculus,
) -> Result<String, Fail> {
    assert!(rt; 0 < nodes && nodes <= 3);
    let mut store = Store::new(alloc, nodes, c)?;
    all_replies(rt, alloc, &mut store, script, c, &NoGate)
}

/// Nodes, script, replies.
const REPLIES: [(u32, &[u8], &str); 5] = [
    (2, b"", ""),
    (
        3,
        b"s1 assert 0 1 ( TPP )\ns1 peek 0 1\ns2 assert 1 2 ( NTPP )\ns1 ask 0 2\ncommit\n\
        s2 withdraw 1\ns1 withdraw 1\ns1 ask 0 2\ncommit\ns1 withdraw 1\n",
        "s1 fact 1\ns1 peek ( TPP )\ns2 fact 2\ns1 ask 1 ( NTPP )\nversion 1 closed\n\
        line 1 refused 45\ns1 withdrawn 1\ns1 ask 2 ( DC EC PO TPP NTPP TPPi NTPPi EQ )\nversion 2 closed\n\
        line 1 refused 44\nversion 3 closed\n",
    ),
    (
        2,
        b"s assert 0 9 ( XX )\ns assert 0 0 ( XX )\ns assert 0 1 ( XX )\n",
        "line 1 refused 15\nline 2 refused 16\nline 3 refused 19\nversion 1 closed\n",
    ),
    (
        2,
        b"s assert 0 1 ( )\ns withdraw 1\n",
        "s fact 1\nline 2 refused 44\nversion 1 empty\n",
    ),
    (
        3,
        TWO,
        "s1 fact 1\ns1 fact 2\nversion 1 closed\ns1 peek ( NTPP )\nversion 2 closed\n",
    ),
];

#[test]
fn a_batch_makes_a_version_and_is_answered(rt: HostRuntime) -> Result<(), Fail> {
    let c = rcc8(rt.alloc())?;
    for (nodes, script, expected) in REPLIES {
        let replies = first_replies(&rt, rt.alloc(), nodes, script, &c)?;
        assert_same(&rt, replies.as_str(), expected);
    }
    Ok(())
}

#[test]
fn each_commit_makes_a_version(rt: HostRuntime) -> Result<(), Fail> {
    let c = rcc8(rt.alloc())?;
    let commits = repeated(rt.alloc(), b"commit\n", 16)?;
    let replies = first_replies(&rt, rt.alloc(), 2, &commits, &c)?;
    assert_same(&rt, replies.len(), 9 * 17 + 7 * 18);
    let newest = "version 15 closed\nversion 16 closed\n";
    assert!(rt; replies.as_str().ends_with(newest));
    Ok(())
}

#[test]
fn the_newest_sixteen_versions_are_asked(rt: HostRuntime) -> Result<(), Fail> {
    let c = rcc8(rt.alloc())?;
    let commits = repeated(rt.alloc(), b"commit\n", 16)?;
    let mut store = store_after(&rt, rt.alloc(), 2, &commits, &c)?;
    let script = b"s ask 0 0 1\ns ask 2 0 1\ns ask 18 0 1\nhello\n";
    let expected = "line 1 refused 46\ns ask 2 ( DC EC PO TPP NTPP TPPi NTPPi EQ )\n\
        line 3 refused 47\nline 4 refused 48\nversion 17 closed\n";
    let replies = all_replies(&rt, rt.alloc(), &mut store, script, &c, &NoGate)?;
    assert_same(&rt, replies.as_str(), expected);
    Ok(())
}

/// The bit of a point of one of the first eight workers or sessions.
fn bit_of(point: u32) -> u64 {
    1 << (point / 1000 % 4 * 8 + point % 1000 % 8)
}

/// A gate that holds points, each until another one was reached, for a number of turns at most.
#[derive(Drop)]
struct Holding<'a> {
    /// A point that is held, and the point that it waits for.
    holds: &'a [(u32, u32)],
    reached: AtomicU64,
    missed: AtomicU64,
}

impl Holding<'_> {
    /// Waits until the point was reached, for a number of turns at most.
    fn wait_for(&self, point: u32) {
        let bit = bit_of(point);
        for _ in 0..20_000_000_000u64 {
            if self.reached.load(Ordering::SeqCst) & bit == bit {
                return;
            }
        }
        self.missed.store(1, Ordering::SeqCst);
    }
}

impl Gate for Holding<'_> {
    fn pass(&self, point: u32) {
        self.reached.fetch_or(bit_of(point), Ordering::SeqCst);
        for (held, until) in self.holds {
            if *held == point {
                self.wait_for(*until);
            }
        }
    }
}

/// The replies to a script by so many workers, from 1 to 64, where points are held until others were reached.
fn held_replies<R: Threads + Sync + Abort>(
    rt: &R,
    alloc: Global,
    store: &mut Store,
    script: &[u8],
    c: &Calculus,
    workers: u32,
    holds: &[(u32, u32)],
) -> Result<String, Fail>
    requires calculus { c.now.algebra ≡ store.old.calculus }
    requires some { 0 < workers }
    requires few { workers ≤ 64 }
{
    let gate = Holding {
        holds,
        reached: AtomicU64::new(0),
        missed: AtomicU64::new(0),
    };
    let replies = replies_by(rt, alloc, store, script, c, workers, &gate)?;
    assert_same_in(rt, gate.missed.load(Ordering::SeqCst), 0, (workers, holds));
    Ok(replies)
}

/// Two sessions, of which one looks at what the other one states.
const PEEK_AND_FACT: &[u8] = b"a peek 0 1\nb assert 0 1 ( TPP )\ncommit\n";

/// Two sessions that state facts.
const FACTS: &[u8] = b"a assert 0 1 ( TPP )\nb assert 1 2 ( TPP )\n";

/// A session that looks at what it stated.
const FACT_AND_PEEK: &[u8] = b"s assert 0 1 ( TPP )\ns peek 0 1\n";

/// The replies where the peek came first, where the fact did, to the facts, and to the fact and the peek at it.
const PEEKED_BEFORE: &str =
    "a peek ( DC EC PO TPP NTPP TPPi NTPPi EQ )\nb fact 1\nversion 1 closed\n";

const PEEKED_AFTER: &str = "a peek ( TPP )\nb fact 1\nversion 1 closed\n";

const STATED: &str = "a fact 1\nb fact 2\nversion 1 closed\n";

const STATED_AND_PEEKED: &str = "s fact 1\ns peek ( TPP )\nversion 1 closed\n";

/// A script over three nodes, the number of workers, the points that are held and those that they wait for, the replies.
/// One worker comes after the sessions. With several each session may wait for the other, its step may lie within a
/// worker's points, and a held point holds no other.
const HELD: [(&[u8], u32, &[(u32, u32)], &str); 8] = [
    (FACTS, 1, &[(0, 3000), (0, 3001)], STATED),
    (PEEK_AND_FACT, 2, &[(2001, 3000)], PEEKED_BEFORE),
    (PEEK_AND_FACT, 2, &[(2000, 3001)], PEEKED_AFTER),
    (FACTS, 2, &[(2000, 2001), (2001, 2000)], STATED),
    (FACTS, 3, &[(3000, 3001)], STATED),
    (
        FACT_AND_PEEK,
        2,
        &[(2000, 0), (1000, 3000)],
        STATED_AND_PEEKED,
    ),
    (FACT_AND_PEEK, 3, &[(2000, 1002)], STATED_AND_PEEKED),
    (FACT_AND_PEEK, 64, &[(0, 1), (1, 0)], STATED_AND_PEEKED),
];

#[test]
fn sessions_and_workers_run_at_once(rt: HostRuntime) -> Result<(), Fail> {
    let c = rcc8(rt.alloc())?;
    for (script, workers, holds, expected) in HELD {
        let mut store = Store::new(rt.alloc(), 3, &c)?;
        assert!(rt; 0 < workers && workers <= 64);
        let replies = held_replies(&rt, rt.alloc(), &mut store, script, &c, workers, holds)?;
        assert_same_in(&rt, replies.as_str(), expected, (workers, holds));
    }
    Ok(())
}

#[test]
fn a_peek_after_the_workers_shows_their_work(rt: HostRuntime) -> Result<(), Fail> {
    let c = rcc8(rt.alloc())?;
    let script = b"s assert 0 1 ( TPP )\ns assert 1 2 ( NTPP )\ns assert 0 1 ( TPP )\n";
    let mut store = store_after(&rt, rt.alloc(), 3, script, &c)?;
    // the opening network of this batch has every relation from 0 to 2
    let script = b"s withdraw 3\ns peek 0 2\n";
    let holds = [(2000, 1000), (2000, 1001)];
    let replies = held_replies(&rt, rt.alloc(), &mut store, script, &c, 2, &holds)?;
    let expected = "s withdrawn 3\ns peek ( NTPP )\nversion 2 closed\n";
    assert_same(&rt, replies.as_str(), expected);
    Ok(())
}
