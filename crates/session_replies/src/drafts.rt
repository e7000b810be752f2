//! The facts of the version that a batch makes: first the withdrawals of its lines are tried, one after another, and
//! then its facts are put in.
ghost use Rattle.std.specs.Prelude.{◌≡◌, ◌+◌, ◌<◌, ◌≤◌, ◌^◌, length, IfOk, OnOk};
ghost use Rattle.session_replies.specs.Replies.{withdrawn_by, withdrawal_fault, withdrawal_faults, after_withdrawals};
ghost use Rattle.session_replies.specs.Replies.{stated_by, after_facts};
ghost use Rattle.session_replies.specs.Drafting.{LosesFacts, GainsFacts};

use calculus_table::Memory;
use session_scripts::{Batch, What};
use session_versions::{Draft, WithdrawFault};
use std::alloc::Global;

/// Takes out the facts that the lines of a batch withdraw, and returns the fault of each line's withdrawal, if it has
/// one that is refused.
pub fn withdraw_all(
    alloc: Global,
    draft: &mut Draft,
    batch: &Batch,
) -> Result<Vec<Option<WithdrawFault>>, Memory>
    ensures draft { OnOk result
        (draft.new ≡ after_withdrawals batch.now.sessions batch.now.lines draft.old) }
    ensures faults { IfOk result (λ faults.
        faults.items ≡ withdrawal_faults batch.now.sessions batch.now.lines draft.old) }
    ensures loses { OnOk result (LosesFacts draft.old draft.new) }
{
    let mut faults = Vec::with_capacity(alloc, batch.lines.len()).map_err(|_| Memory)?;
    for line in &batch.lines {
        let fault = withdraw(draft, batch.session(line), line.what);
        faults.push(fault).map_err(|_| Memory)?;
    }
    Ok(faults)
}

/// Puts in the facts that the lines of a batch state.
pub fn add_all(draft: &mut Draft, batch: &Batch) -> Result<(), Memory>
    requires { draft.old.next + length batch.now.lines ≤ 2 ^ 63 }
    ensures draft { OnOk result
        (draft.new ≡ after_facts batch.now.sessions batch.now.lines draft.old) }
    ensures gains { OnOk result (GainsFacts batch.now.lines draft.old draft.new) }
{
    for line in &batch.lines {
        add(draft, batch.session(line), line.what)?;
    }
    Ok(())
}

/// Takes out the fact that a line withdraws, if it has one, and returns the fault.
fn withdraw(draft: &mut Draft, session: &str, what: What) -> Option<WithdrawFault>
    ensures draft { draft.new ≡ withdrawn_by session.now what draft.old }
    ensures fault { result ≡ withdrawal_fault session.now what draft.old }
{
    match what {
        What::Withdraw { fact } => draft.withdraw(session, fact).err(),
        _ => None,
    }
}

/// Puts in the fact that a line states, if it has one.
fn add(draft: &mut Draft, session: &str, what: What) -> Result<(), Memory>
    requires { draft.old.next < 2 ^ 63 }
    ensures { OnOk result (draft.new ≡ stated_by session.now what draft.old) }
{
    if let What::Assert(fact) = what {
        draft.add(session, fact)?;
    }
    Ok(())
}
