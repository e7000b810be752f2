//! A batch, run: its withdrawals and facts make a version, its sessions and the workers narrow the words of one table
//! at once, and its lines are answered.
ghost use Rattle.std.specs.Prelude.{◌≡◌, ◌+◌, ◌<◌, ◌≤◌, ◌^◌, IfOk, OnErr, OnOk, length};
ghost use Rattle.std.specs.List.{zip};
ghost use Rattle.std.specs.String.{string_bytes};
ghost use Rattle.calculus_table.specs.Composition.{full_of};
ghost use Rattle.network_words.specs.Network.{IsNetwork};
ghost use Rattle.network_words.specs.Closure.{IsClosed};
ghost use Rattle.session_versions.specs.Stores.{IsStore};
ghost use Rattle.session_scripts.specs.Batches.{IsBatchFor};
ghost use Rattle.session_replies.specs.Drafting.{LosesFacts, GainsFacts};
ghost use Rattle.closure_workers.specs.Rounds.{IsClosureWithin};
ghost use Rattle.session_replies.specs.Replies.{withdrawal_faults, facts_of_lines, draft_of, staying, drafted};
ghost use Rattle.session_replies.specs.Replies.{IsOpening, ArePeeks, IsAnswered};

use crate::dealing::{deal, sets_shown};
use crate::opening::{closed_above, opening};
use calculus_table::{Calculus, Compose, Memory, Rel};
use network_words::Net;
use qsr_outside::Gate;
use session_phase::narrow_together;
use session_replies::{add_all, replies, withdraw_all};
use session_scripts::Batch;
use session_versions::{Draft, Store, WithdrawFault};
use std::alloc::Global;
use std::thread::Threads;

/// What the sessions of a batch begin with: the facts of the version that it makes, the faults of its withdrawals, the
/// network, and a closed one that it lies within.
#[derive(Drop)]
struct Begun {
    draft: Draft,
    faults: Vec<Option<WithdrawFault>>,
    net: Net,
    closed: Net,
}

/// Makes one version of the store, and returns the replies to the lines of the batch, written with the names of
/// `names`. The sessions and so many workers, from 1 to 64, begin at once and narrow the words of one table. Each
/// worker passes the point of its number of `gate` as it begins, and 1000 more as it ends; each session does so at
/// 2000 and 3000 more than its place. If memory runs out the store is as before.
pub fn run_batch<R: Threads + Sync, C: Compose + Sync, G: Gate + Sync>(
    rt: &R,
    alloc: Global,
    store: &mut Store,
    batch: &Batch,
    names: &Calculus,
    c: &C,
    workers: u32,
    gate: &G,
) -> Result<String, Memory>
    requires names { names.now.algebra ≡ store.old.calculus }
    requires calculus { C.algebra c.now ≡ store.old.calculus }
    requires batch { IsBatchFor (full_of store.old.calculus) store.old.nodes batch.now }
    requires some { 0 < workers }
    requires few { workers ≤ 64 }
    requires versions { store.old.newest.number < 2 ^ 62 }
    requires facts { store.old.next_fact < 2 ^ 62 }
    ensures answered { IfOk result (λ text.
        IsAnswered names.now store.old batch.now (string_bytes text) store.new) }
    ensures few_facts { OnOk result (store.new.next_fact ≤ store.old.next_fact + length batch.now.lines) }
    ensures memory { OnErr result (store.new ≡ store.old) }
{
    // The proof needs what every store keeps, which this call brings.
    let _newest = store.newest();
    let Begun {
        draft,
        faults,
        mut net,
        closed,
    } = begin(alloc, store, batch, c)?;
    let shown = narrowed(rt, alloc, batch, &mut net, &closed, c, workers, gate)?;
    let text = replies(alloc, batch, &faults, &shown, store, &net, names, c)?;
    store.commit(draft, net);
    Ok(text)
}

/// Tries the withdrawals of a batch, and then puts its facts in.
fn begin<C: Compose>(alloc: Global, store: &Store, batch: &Batch, c: &C) -> Result<Begun, Memory>
    requires store { IsStore store.now }
    requires calculus { C.algebra c.now ≡ store.now.calculus }
    requires batch { IsBatchFor (full_of store.now.calculus) store.now.nodes batch.now }
    requires facts { store.now.next_fact < 2 ^ 62 }
    ensures draft { IfOk result (λ begun. begun.draft ≡ drafted batch.now store.now) }
    ensures faults { IfOk result (λ begun. begun.faults.items
        ≡ withdrawal_faults batch.now.sessions batch.now.lines (draft_of store.now)) }
    ensures nodes { IfOk result (λ begun. begun.net.nodes ≡ store.now.nodes) }
    ensures opening { IfOk result (λ begun. IsOpening store.now batch.now begun.net.words) }
    ensures network { IfOk result (λ begun.
        IsNetwork store.now.calculus store.now.nodes begun.closed.words) }
    ensures closed { IfOk result (λ begun.
        IsClosed store.now.calculus store.now.nodes begun.closed.words) }
    ensures loses { OnOk result (LosesFacts (draft_of store.now) (staying batch.now store.now)) }
    ensures gains { OnOk result
        (GainsFacts batch.now.lines (staying batch.now store.now) (drafted batch.now store.now)) }
{
    batch.limited();
    let mut draft = store.draft()?;
    let count = draft.facts.len();
    let faults = withdraw_all(alloc, &mut draft, batch)?;
    let fewer = draft.facts.len() < count;
    let net = opening(alloc, store, &draft, fewer, c)?;
    let closed = closed_above(alloc, store, fewer, c)?;
    add_all(&mut draft, batch)?;
    Ok(Begun {
        draft,
        faults,
        net,
        closed,
    })
}

/// Closes the network, which lies within a closed one, with the facts of a batch, by its sessions and the workers at
/// once. Returns the set that each line shows. If memory runs out the network may be the closure already.
fn narrowed<R: Threads + Sync, C: Compose + Sync, G: Gate + Sync>(
    rt: &R,
    alloc: Global,
    batch: &Batch,
    net: &mut Net,
    closed: &Net,
    c: &C,
    workers: u32,
    gate: &G,
) -> Result<Vec<Rel>, Memory>
    requires network { IsNetwork (C.algebra c.now) net.old.nodes net.old.words }
    requires closed_network { IsNetwork (C.algebra c.now) net.old.nodes closed.now.words }
    requires closed { IsClosed (C.algebra c.now) net.old.nodes closed.now.words }
    requires batch { IsBatchFor (full_of (C.algebra c.now)) net.old.nodes batch.now }
    requires some { 0 < workers }
    requires few { workers ≤ 64 }
    ensures rest { OnOk result (net.new ≡ record net.old { words = net.new.words }) }
    ensures closure { OnOk result (IsClosureWithin (C.algebra c.now) net.old.nodes net.old.words
        (facts_of_lines batch.now.lines) net.new.words) }
    ensures each_line { IfOk result (λ shown. length shown.items ≡ length batch.now.lines) }
    ensures peeks { IfOk result (λ shown. ArePeeks (C.algebra c.now) net.old.nodes
        net.new.words net.old.words (zip batch.now.lines shown.items)) }
{
    batch.limited();
    let sessions = deal(alloc, batch)?;
    let done = narrow_together(rt, alloc, net, closed.words(), c, sessions, workers, gate)?;
    let shown = sets_shown(alloc, batch, &done)?;
    Ok(shown)
}
