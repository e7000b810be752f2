//! The text that answers a batch: a line for each of its lines, in their order, and then the line of the version.
//!
//! The text is made before the version is committed. So the version that the batch makes is asked of its network, and
//! an older one of the store, but for the oldest, which goes with the commit.
ghost use Rattle.std.specs.Prelude.{◌≡◌, ℕ, List, ◌+◌, ◌<◌, ◌≤◌, ◌++◌, ◌==◌, ◌^◌, length, IfOk, OnOk};
ghost use Rattle.std.specs.List.{zip, list_any};
ghost use Rattle.std.specs.String.{string_bytes};
ghost use Rattle.calculus_table.specs.Composition.{full_of};
ghost use Rattle.network_words.specs.Edge.{IsProperPair};
ghost use Rattle.session_versions.specs.Drafts.{DraftState};
ghost use Rattle.session_versions.specs.Stores.{committing};
ghost use Rattle.session_versions.specs.Versions.{VersionState};
ghost use Rattle.session_scripts.specs.Batches.{IsBatchFor, IsAsked};
ghost use Rattle.session_replies.specs.Drafting.{CanCommit};
ghost use Rattle.session_replies.specs.Replies.{draft_of, withdrawal_fault, withdrawal_faults, next_after};
ghost use Rattle.session_replies.specs.Replies.{version_line};
ghost use Rattle.session_replies.specs.Replies.{withdrawal_reply, ask_reply, reply_to, reply_line, replies};

use calculus_table::{Calculus, Compose, Memory, Rel};
use named_sets::SetWriter;
use network_words::Net;
use session_scripts::{Batch, What};
use session_versions::{AskFault, KEPT_VERSIONS, Store, WithdrawFault};
use std::alloc::Global;

/// How many bytes the reply to a line seldom has more than, over a small calculus.
const LINE_LEN: usize = 32;

/// The reply to a line.
#[derive(Clone, Copy)]
pub(crate) enum Reply {
    /// The fact has this number.
    NewFact { number: u64 },
    /// The set that a peek shows.
    Shown { set: Rel },
    /// The fact with this number is withdrawn.
    Withdrawn { fact: u64 },
    /// The relation at a version.
    AtVersion { version: u64, set: Rel },
    /// The line is refused, with this number.
    Refusal { number: u32 },
}

/// The replies to the lines of a batch, written with the names of `names`, where the store is about to commit a version
/// with the network `net`. Each line has the fault of its withdrawal, if it has one that is refused, and the set that
/// it shows, which says nothing where it is no peek.
pub fn replies<C: Compose>(
    alloc: Global,
    batch: &Batch,
    faults: &[Option<WithdrawFault>],
    shown: &[Rel],
    store: &Store,
    net: &Net,
    names: &Calculus,
    c: &C,
) -> Result<String, Memory>
    requires names { names.now.algebra ≡ store.now.calculus }
    requires calculus { C.algebra c.now ≡ store.now.calculus }
    requires batch { IsBatchFor (full_of store.now.calculus) store.now.nodes batch.now }
    requires faults { faults.now
        ≡ withdrawal_faults batch.now.sessions batch.now.lines (draft_of store.now) }
    requires shown { length shown.now ≡ length batch.now.lines }
    requires commits { CanCommit store.now net.now }
    requires facts { store.now.next_fact < 2 ^ 62 }
    ensures { (draft : DraftState) → IfOk result (λ text. string_bytes text
        ≡ replies names.now batch.now.sessions (committing draft net.now store.now)
        (draft_of store.now) store.now.next_fact (zip batch.now.lines shown.now)) }
{
    let mut text = String::with_capacity(alloc, batch.lines.len() * LINE_LEN).map_err(|_| Memory)?;
    let mut sets = SetWriter::new(alloc, names)?;
    let mut next = store.next_fact();
    for (place, line) in batch.lines.iter().enumerate() {
        let reply = reply_to(store, net, c, line.what, faults[place], shown[place], next);
        push_reply(&mut text, &mut sets, batch.session(line), line.at, reply)?;
        next = next_after(next, line.what);
    }
    push_version(&mut text, store.newest() + 1, net)?;
    Ok(text)
}

/// The number of the next new fact after a line.
fn next_after(next: u64, what: What) -> u64
    requires { next < 2 ^ 63 }
    ensures value { result ≡ next_after next what }
    ensures few { result ≤ next + 1 }
{
    match what {
        What::Assert(_) => next + 1,
        _ => next,
    }
}

/// The reply to what a line asks for, where its withdrawal has this fault, it shows this set, and a new fact gets the
/// number `next`.
fn reply_to<C: Compose>(
    store: &Store,
    net: &Net,
    c: &C,
    what: What,
    fault: Option<WithdrawFault>,
    shown: Rel,
    next: u64,
) -> Reply
    requires calculus { C.algebra c.now ≡ store.now.calculus }
    requires commits { CanCommit store.now net.now }
    requires asked { IsAsked (full_of store.now.calculus) store.now.nodes what }
    ensures { (draft old : DraftState) (session : List ℕ) → fault ≡ withdrawal_fault session what old
        → result ≡ reply_to store.now.calculus (committing draft net.now store.now) old next session what shown }
{
    match what {
        What::Assert(_) => Reply::NewFact { number: next },
        What::Peek { .. } => Reply::Shown { set: shown },
        What::Withdraw { fact } => withdrawal_reply(fact, fault),
        What::Ask { version, i, j } => {
            let version = version.unwrap_or(store.newest() + 1);
            ask_reply(store, net, c, version, i, j)
        }
        What::Refused { number } => Reply::Refusal { number },
    }
}

/// The reply to a withdrawal.
fn withdrawal_reply(fact: u64, fault: Option<WithdrawFault>) -> Reply
    ensures { result ≡ withdrawal_reply fact fault }
{
    match fault {
        None => Reply::Withdrawn { fact },
        Some(WithdrawFault::NoFact) => Reply::Refusal { number: 44 },
        Some(WithdrawFault::NotYours) => Reply::Refusal { number: 45 },
    }
}

/// The relation of node `i` to node `j` at a version of the store as it stands after the commit.
fn ask_reply<C: Compose>(store: &Store, net: &Net, c: &C, version: u64, i: u32, j: u32) -> Reply
    requires calculus { C.algebra c.now ≡ store.now.calculus }
    requires commits { CanCommit store.now net.now }
    requires proper { IsProperPair store.now.nodes i j }
    ensures { (draft : DraftState) → result
        ≡ ask_reply store.now.calculus (committing draft net.now store.now) version i j }
{
    let newest = store.newest() + 1;
    if version == newest {
        let set = net.get(c, i, j);
        return Reply::AtVersion { version, set };
    }
    if version < newest && newest - version == KEPT_VERSIONS {
        return Reply::Refusal { number: 46 };
    }
    match store.ask(c, version, i, j) {
        Ok(set) => Reply::AtVersion { version, set },
        Err(AskFault::VersionGone) => Reply::Refusal { number: 46 },
        Err(AskFault::NotYet) => Reply::Refusal { number: 47 },
    }
}

/// Appends the line of a reply.
fn push_reply(
    text: &mut String,
    sets: &mut SetWriter<'_>,
    session: &str,
    at: u32,
    reply: Reply,
) -> Result<(), Memory>
    ensures text { OnOk result (string_bytes text.new
        ≡ string_bytes text.old ++ reply_line sets.old session.now at reply) }
    ensures sets { sets.new ≡ sets.old }
{
    match reply {
        Reply::NewFact { number } => writeln!(text, "{session} fact {number}").map_err(|_| Memory),
        Reply::Withdrawn { fact } => writeln!(text, "{session} withdrawn {fact}").map_err(
            |_| Memory,
        ),
        Reply::Refusal { number } => writeln!(text, "line {at} refused {number}").map_err(
            |_| Memory,
        ),
        Reply::Shown { set } => {
            write!(text, "{session} peek ").map_err(|_| Memory)?;
            sets.push_line(text, set)
        }
        Reply::AtVersion { version, set } => {
            write!(text, "{session} ask {version} ").map_err(|_| Memory)?;
            sets.push_line(text, set)
        }
    }
}

/// Appends the line of a version: whether a set of its network is empty.
fn push_version(text: &mut String, number: u64, net: &Net) -> Result<(), Memory>
    ensures { (version : VersionState) → version.number ≡ number → version.net ≡ net.now
        → OnOk result (string_bytes text.new ≡ string_bytes text.old ++ version_line version) }
{
    let state = if has_empty(net.words()) {
        "empty"
    } else {
        "closed"
    };
    writeln!(text, "version {number} {state}").map_err(|_| Memory)
}

/// Whether one of the sets is empty.
fn has_empty(words: &[u64]) -> bool
    ensures { result ≡ list_any (λ word. word == 0) words.now }
{
    words.iter().any(|word| *word == 0)
}
