//! The sessions of a batch, each with a pass of its own, with which it states its facts and looks at words as they are.
//!
//! They run at once, in as many threads as are allowed, each between its two points of the gate. No session knows of
//! another one: what it is told are the words of the table, which the others and the workers narrow too.

ghost use Rattle.std.specs.Prelude.{◌≡◌, ◌+◌, ◌-◌, ◌<◌, ◌≤◌, ◌++◌, [], ℕ, IfOk, length, slice_index_or};
ghost use Rattle.std.specs.List.{All};
ghost use Rattle.calculus_table.specs.Composition.{full_of};
ghost use Rattle.network_words.specs.Network.{IsNetwork};
ghost use Rattle.narrow_core.specs.Actor.{fresh};
ghost use Rattle.edge_table.specs.Opening.{IsPassOf, algebra_of};
ghost use Rattle.session_phase.specs.Phase.{IsStepFor, steps_of, asked_by, asked_of, facts_stated, AreShownAbove};
ghost use Rattle.session_phase.specs.Phase.{IsReady, HasRun, asked_of_sessions, CanRun, HaveRun};

use crate::steps::{Step, take_steps};
use calculus_table::{Compose, Memory};
use closure_workers::News;
use edge_table::{OpenNet, Pass};
use qsr_outside::Gate;
use std::alloc::Global;
use std::thread;
use std::thread::Threads;

/// A session: its pass, its place among the sessions, and its lines.
#[derive(Drop)]
pub(crate) struct Session {
    pass: Pass,
    number: u32,
    steps: Vec<Step>,
}

/// The sessions with these lines, the last one first, each with a part of the pass. Returns what is left of it.
pub(crate) fn deal_sessions(
    alloc: Global,
    table: &OpenNet,
    pass: Pass,
    mut lines: Vec<Vec<Step>>,
) -> Result<(Pass, Vec<Session>), Memory>
    requires pass { IsPassOf table.now pass }
    requires actor { pass.actor ≡ fresh pass.actor.weight table.now.opening.words }
    requires enough { length lines.items < pass.actor.weight }
    requires few { length lines.items ≤ 64 }
    requires asked { All (All
        (IsStepFor (full_of (algebra_of table.now.opening)) table.now.opening.nodes))
        (steps_of lines.items) }
    ensures pass { IfOk result (λ r. IsPassOf table.now r.0) }
    ensures actor { IfOk result (λ r. r.0.actor
        ≡ fresh (pass.actor.weight - length lines.items) table.now.opening.words) }
    ensures sessions { IfOk result (λ r.
        All (IsReady table.now) r.1.items) }
    ensures count { IfOk result (λ r. length r.1.items ≡ length lines.items) }
    ensures asked { IfOk result (λ r.
        asked_of_sessions r.1.items ≡ asked_of (steps_of lines.items)) }
{
    let mut sessions = Vec::new(alloc);
    let mut rest = pass;
    while let Some(steps) = lines.pop() {
        let (kept, pass) = table.split(rest, 1);
        rest = kept;
        let number = lines.len() as u32;
        let session = Session {
            pass,
            number,
            steps,
        };
        let Ok(()) = sessions.push(session) else {
            return Err(Memory);
        };
    }
    Ok((rest, sessions))
}

/// Joins the passes of the sessions to `home`, and keeps their lines, those of the last session first.
pub(crate) fn gather_sessions(
    alloc: Global,
    table: &OpenNet,
    home: Pass,
    mut sessions: Vec<Session>,
) -> Result<(Pass, Vec<Vec<Step>>), Memory>
    requires home { IsPassOf table.now home }
    requires nothing { home.actor.mine ≡ [] }
    requires sessions { All (HasRun (algebra_of table.now.opening) table.now) sessions.items }
    ensures pass { IfOk result (λ r. IsPassOf table.now r.0) }
    ensures weight { IfOk result (λ r. r.0.actor.weight ≡ home.actor.weight + length sessions.items) }
    ensures facts { IfOk result (λ r. r.0.actor.mine ≡ facts_stated (steps_of r.1.items)) }
    ensures asked { IfOk result (λ r.
        asked_of (steps_of r.1.items) ≡ asked_of_sessions sessions.items) }
    ensures shown { IfOk result (λ r.
        All (AreShownAbove (algebra_of table.now.opening) table.now.opening.nodes
        table.now.opening.words r.0.actor.seen)
        (steps_of r.1.items)) }
{
    let mut lines = Vec::new(alloc);
    let mut all = home;
    while let Some(session) = sessions.pop() {
        let Session {
            pass,
            number: _,
            steps,
        } = session;
        all = table.join(all, pass);
        let Ok(()) = lines.push(steps) else {
            return Err(Memory);
        };
    }
    Ok((all, lines))
}

/// Takes the lines of a session between its two points of the gate: 2000 and 3000 more than its place.
fn run_session<C: Compose, G: Gate>(
    table: &OpenNet,
    c: &C,
    gate: &G,
    news: &News,
    session: &mut Session,
)
    requires calculus { C.algebra c.now ≡ algebra_of table.now.opening }
    requires opening { IsNetwork (C.algebra c.now) table.now.opening.nodes table.now.opening.words }
    requires session { IsReady table.now session.old }
    ensures run { HasRun (C.algebra c.now) table.now session.new }
    ensures asked { asked_by session.new.steps.items ≡ asked_by session.old.steps.items }
{
    let number = session.number;
    gate.pass(2000 + number);
    take_steps(
        table,
        &mut session.pass,
        c,
        news,
        session.steps.as_mut_slice(),
    );
    news.leave();
    gate.pass(3000 + number);
}

/// Runs some sessions at once, in so many threads at most.
fn run_each<R: Threads + Sync, C: Compose + Sync, G: Gate + Sync>(
    rt: &R,
    table: &OpenNet,
    c: &C,
    gate: &G,
    news: &News,
    threads: usize,
    sessions: &mut [Session],
)
    requires some { 0 < length sessions.old }
    requires threads { 0 < threads }
    requires can { CanRun (C.algebra c.now) table.now sessions.old }
    ensures { (k : ℕ) (d : _) → k < length sessions.old
        → HasRun (C.algebra c.now) table.now (slice_index_or sessions.new k d)
        × (asked_by (slice_index_or sessions.new k d).steps.items
        ≡ asked_by (slice_index_or sessions.old k d).steps.items) }
{
    let run = |_: usize, session: &mut Session|
        requires { (C.algebra c.now ≡ algebra_of table.now.opening)
            × IsNetwork (C.algebra c.now) table.now.opening.nodes table.now.opening.words
            × IsReady table.now session.old }
        ensures { HasRun (C.algebra c.entry.now) table.entry.now session.new
            × (asked_by session.new.steps.items ≡ asked_by session.old.steps.items) }
    { run_session(table, c, gate, news, session) };
    thread::for_each_mut(rt, sessions, threads, &run);
}

/// Runs all sessions at once, in so many threads at most, each between its two points of the gate. Takes no memory.
pub(crate) fn run_sessions<R: Threads + Sync, C: Compose + Sync, G: Gate + Sync>(
    rt: &R,
    table: &OpenNet,
    c: &C,
    gate: &G,
    news: &News,
    threads: usize,
    mut sessions: Vec<Session>,
) -> Vec<Session>
    requires threads { 0 < threads }
    requires can { CanRun (C.algebra c.now) table.now sessions.items }
    ensures { HaveRun (C.algebra c.now) table.now sessions.items result.items }
{
    if !sessions.is_empty() {
        run_each(rt, table, c, gate, news, threads, sessions.as_mut_slice());
    }
    sessions
}
