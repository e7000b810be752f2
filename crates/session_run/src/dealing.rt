//! The lines of a batch, dealt to its sessions, and the sets that its lines show, put back.
ghost use Rattle.std.specs.Prelude.{◌≡◌, ◌<◌, ◌++◌, ◌∷◌, [], ℕ, IfOk, OnOk, length, replicate, slice_index_or};
ghost use Rattle.std.specs.List.{zip};
ghost use Rattle.session_replies.specs.Replies.{said_by};
ghost use Rattle.session_phase.specs.declared.steps.Step.{Step};
ghost use Rattle.session_phase.specs.Phase.{asked_by, shown_by, asked_of, steps_of};
ghost use Rattle.session_run.specs.Steps.{AreDealt};

use calculus_table::{Memory, Rel};
use session_phase::Step;
use session_scripts::{Batch, What};
use std::alloc::Global;

/// The steps of each session of a batch: its lines in their order. No step shows a set yet.
pub(crate) fn deal(alloc: Global, batch: &Batch) -> Result<Vec<Vec<Step>>, Memory>
    ensures { IfOk result (λ sessions.
        AreDealt batch.now (asked_of (steps_of sessions.items))) }
{
    let mut sessions = no_steps(alloc, batch.sessions.len())?;
    for (place, line) in batch.lines.iter().enumerate() {
        let session = line.session as usize;
        if session < sessions.len() {
            give(&mut sessions[session], place as u32, line.what)?;
        }
    }
    Ok(sessions)
}

/// The sets that the steps of a batch's sessions show, by the places of their lines. A line that is no peek may have
/// any.
pub(crate) fn sets_shown(
    alloc: Global,
    batch: &Batch,
    sessions: &[Vec<Step>],
) -> Result<Vec<Rel>, Memory>
    requires { AreDealt batch.now (asked_of (steps_of sessions.now)) }
    ensures each_line { IfOk result (λ shown. length shown.items ≡ length batch.now.lines) }
    ensures shown { IfOk result (λ shown. (k : ℕ) → k < length sessions.now →
        said_by k (zip batch.now.lines shown.items) ≡ shown_by (slice_index_or (steps_of sessions.now) k [])) }
{
    let mut taken = vec![in alloc; 0usize; sessions.len()].map_err(|_| Memory)?;
    let mut shown = Vec::with_capacity(alloc, batch.lines.len()).map_err(|_| Memory)?;
    for line in &batch.lines {
        let session = line.session as usize;
        let mut set = Rel::EMPTY;
        if session < sessions.len() {
            set = set_at(&sessions[session], taken[session]);
            taken[session] += 1;
        }
        let Ok(()) = shown.push(set) else {
            return Err(Memory);
        };
    }
    Ok(shown)
}

/// The set that a step shows.
fn set_at(steps: &[Step], index: usize) -> Rel
    requires { index < length steps.now }
    ensures { (d : Step) → result ≡ (slice_index_or steps.now index d).set }
{
    steps[index].set
}

/// So many sessions without steps.
fn no_steps(alloc: Global, count: usize) -> Result<Vec<Vec<Step>>, Memory>
    ensures { IfOk result (λ sessions. asked_of (steps_of sessions.items) ≡ replicate count []) }
{
    let mut sessions = Vec::with_capacity(alloc, count).map_err(|_| Memory)?;
    for _ in 0..count {
        sessions.push(Vec::new(alloc)).map_err(|_| Memory)?;
    }
    Ok(sessions)
}

/// Adds a step to those of a session.
fn give(steps: &mut Vec<Step>, place: u32, what: What) -> Result<(), Memory>
    ensures { OnOk result (asked_by steps.new.items
        ≡ asked_by steps.old.items ++ (place, what) ∷ []) }
{
    let set = Rel::EMPTY;
    match steps.push(Step { place, what, set }) {
        Ok(()) => Ok(()),
        Err(_) => Err(Memory),
    }
}
