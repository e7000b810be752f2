//! The sessions of a batch and the workers, at once on the words of one table, and then the closing.
//!
//! Each session has a pass, with which it states its facts and looks at words as they are, and so has each of several
//! workers, with which it closes a slice of the edges. They all may begin at once, take no memory and wait for no
//! lock. Where one worker is asked for, the sessions come first, one after another; then the table is closed, and the
//! worker closes on this thread what they left.
//!
//! Why it is right: words only become less, no step loses a closed network within what was stated, and each pass knows
//! all that its session was told. The passes are joined at the end, and the words that the table is closed with are
//! within all that any pass has seen and stated. They are the closure of the opening and of all facts, and within every
//! set that a session was shown; or they are closed once more, and then the closure is.
//!
//! What it costs: the workers begin with a closed network that the opening lies within, so that only the edges are
//! looked at whose sets became smaller since. Where all of several have seen the same in the end, which is the rule
//! since each looks until the sessions have ended, there is no other round.

ghost use Rattle.std.specs.Prelude.{◌≡◌, ◌<◌, ◌≤◌, IfOk, OnErr, length};
ghost use Rattle.std.specs.List.{All};
ghost use Rattle.std.specs.Thread.{IsSync};
ghost use Rattle.network_words.specs.declared.TheConstants.{MAX_NODES};
ghost use Rattle.network_words.specs.Edge.{edge_count};
ghost use Rattle.closure_seq.specs.Paths.{IsClosedNetwork};
ghost use Rattle.closure_workers.specs.Workers.{IsDesk, AreDealt, slices_of, HaveWorked};
ghost use Rattle.session_phase.specs.Phase.{CanNarrow, HaveNarrowed, steps_of, CanRun, HaveRun, CanWork};

use crate::sessions::{Session, deal_sessions, gather_sessions, run_sessions};
use crate::steps::Step;
use calculus_table::{Compose, Memory, lawful};
use closure_seq::{Work, close_within};
use closure_workers::{Desk, News, Worker, Workers, close_table, deal, desks, gather, work};
use edge_table::{OpenNet, open};
use network_words::Net;
use qsr_outside::Gate;
use std::alloc::Global;
use std::thread;
use std::thread::Threads;

/// Closes the network with the facts that sessions state, by the sessions and so many workers, from 1 to 64: its sets
/// become those of the closure. The network lies within a closed one, whose words are `closed`. Returns the lines of
/// each session with the sets that they show. Each worker passes the point of its number of `gate` as it begins, and
/// 1000 more as it ends; each session does so at 2000 and 3000 more than its place. The sessions run in as many threads
/// as there may be workers, beside these, all at once; one worker follows the sessions, which then run in turn. If
/// memory runs out the network is as before.
pub fn narrow_together<R: Threads + Sync, C: Compose + Sync, G: Gate + Sync>(
    rt: &R,
    alloc: Global,
    net: &mut Net,
    closed: &[u64],
    c: &C,
    lines: Vec<Vec<Step>>,
    workers: u32,
    gate: &G,
) -> Result<Vec<Vec<Step>>, Memory>
    requires can { CanNarrow (C.algebra c.now) net.old closed.now (steps_of lines.items) }
    requires some { 0 < workers }
    requires few { workers ≤ 64 }
    ensures narrowed { IfOk result (λ done.
        HaveNarrowed (C.algebra c.now) net.old net.new (steps_of lines.items) (steps_of done.items)) }
    ensures memory { OnErr result (net.new ≡ net.old) }
{
    if workers == 1 {
        return narrow_in_turn(rt, alloc, net, closed, c, lines, gate);
    }
    narrow_at_once(rt, alloc, net, closed, c, lines, workers, gate)
}

/// The sessions in turn on one table, and then the one worker, who closes what they left, on this thread.
fn narrow_in_turn<R: Threads + Sync, C: Compose + Sync, G: Gate + Sync>(
    rt: &R,
    alloc: Global,
    net: &mut Net,
    closed: &[u64],
    c: &C,
    lines: Vec<Vec<Step>>,
    gate: &G,
) -> Result<Vec<Vec<Step>>, Memory>
    requires can { CanNarrow (C.algebra c.now) net.old closed.now (steps_of lines.items) }
    ensures narrowed { IfOk result (λ done.
        HaveNarrowed (C.algebra c.now) net.old net.new (steps_of lines.items) (steps_of done.items)) }
    ensures memory { OnErr result (net.new ≡ net.old) }
{
    lawful(c);
    let mut room = Work::new(alloc, net.nodes())?;
    let (table, pass) = open(alloc, net, c, lines.len() as u32 + 1)?;
    let (rest, sessions) = deal_sessions(alloc, &table, pass, lines)?;
    let news = News::of(sessions.len() as u32);
    let sessions = run_sessions(rt, &table, c, gate, &news, 1, sessions);
    let (home, done) = gather_sessions(alloc, &table, rest, sessions)?;
    let _table = table.close(home, net);
    gate.pass(0);
    close_within(net, closed, c, &mut room);
    gate.pass(1000);
    Ok(done)
}

/// The sessions and the workers at once on one table, and then more rounds of the workers, as long as it takes.
fn narrow_at_once<R: Threads + Sync, C: Compose + Sync, G: Gate + Sync>(
    rt: &R,
    alloc: Global,
    net: &mut Net,
    closed: &[u64],
    c: &C,
    lines: Vec<Vec<Step>>,
    workers: u32,
    gate: &G,
) -> Result<Vec<Vec<Step>>, Memory>
    requires can { CanNarrow (C.algebra c.now) net.old closed.now (steps_of lines.items) }
    requires some { 0 < workers }
    requires few { workers ≤ 64 }
    ensures narrowed { IfOk result (λ done.
        HaveNarrowed (C.algebra c.now) net.old net.new (steps_of lines.items) (steps_of done.items)) }
    ensures memory { OnErr result (net.new ≡ net.old) }
{
    lawful(c);
    let count = workers.min(net.edges()).max(1);
    let weight = lines.len() as u32 + count + 1;
    let (table, pass) = open(alloc, net, c, weight)?;
    let desks = closed_desks(alloc, c, net.nodes(), count, closed)?;
    let (rest, sessions) = deal_sessions(alloc, &table, pass, lines)?;
    let (home, hands) = deal(alloc, &table, rest, desks)?;
    let (sessions, hands) = run_at_once(rt, &table, c, gate, workers, sessions, hands);
    let (home, desks) = gather(alloc, &table, home, hands)?;
    let (home, done) = gather_sessions(alloc, &table, home, sessions)?;
    close_table(rt, alloc, table, c, gate, Workers { home, desks }, net)?;
    Ok(done)
}

/// Desks for so many workers, who begin with the sets of a closed network.
fn closed_desks<C: Compose>(
    alloc: Global,
    c: &C,
    nodes: u32,
    count: u32,
    closed: &[u64],
) -> Result<Vec<Desk>, Memory>
    requires nodes { 0 < nodes }
    requires bounded { nodes ≤ MAX_NODES }
    requires some { 0 < count }
    requires few { count ≤ 64 }
    requires closed { IsClosedNetwork (C.algebra c.now) nodes closed.now }
    ensures desks { IfOk result (λ desks. All (IsDesk (C.algebra c.now) nodes) desks.items) }
    ensures dealt { IfOk result (λ desks. AreDealt (slices_of desks.items) (edge_count nodes)) }
    ensures count { IfOk result (λ desks. length desks.items ≡ count) }
{
    let mut desks = desks(alloc, nodes, count)?;
    for desk in desks.iter_mut() {
        desk.begin_closed(c, nodes, closed);
    }
    Ok(desks)
}

/// Runs the sessions in so many threads at most, and the workers in threads of their own, all at once. Takes no memory.
fn run_at_once<R: Threads + Sync, C: Compose + Sync, G: Gate + Sync>(
    rt: &R,
    table: &OpenNet,
    c: &C,
    gate: &G,
    threads: u32,
    sessions: Vec<Session>,
    workers: Vec<Worker>,
) -> (Vec<Session>, Vec<Worker>)
    requires threads { 0 < threads }
    requires few_sessions { length sessions.items ≤ 64 }
    requires few_workers { length workers.items ≤ 64 }
    requires run { CanRun (C.algebra c.now) table.now sessions.items }
    requires work { CanWork (C.algebra c.now) table.now workers.items }
    ensures run { HaveRun (C.algebra c.now) table.now sessions.items result.0.items }
    ensures worked { HaveWorked table.now workers.items result.1.items }
{
    let news = News::of(sessions.len() as u32 + workers.len() as u32);
    let news = &news;
    let close = move || -> Vec<Worker>
        requires { IsSync R.row × IsSync C.row × IsSync G.row
            × CanWork (C.algebra c.now) table.now workers.items }
        ensures { HaveWorked table.entry.now workers.items result.items }
    { work(rt, table, c, gate, news, workers) };
    let run = move || -> Vec<Session>
        requires { IsSync R.row × IsSync C.row × IsSync G.row
            × (0 < threads)
            × CanRun (C.algebra c.now) table.now sessions.items }
        ensures { HaveRun (C.algebra c.entry.now) table.entry.now sessions.items result.items }
    { run_sessions(rt, table, c, gate, news, threads as usize, sessions) };
    let (workers, sessions) = thread::join(rt, close, run);
    (sessions, workers)
}
