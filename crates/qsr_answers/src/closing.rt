//! The command `close`: a network is closed, and its closure is written.
ghost use Rattle.std.specs.Prelude.{IfOk};
ghost use Rattle.std.specs.String.{string_bytes};
ghost use Rattle.network_words.specs.Network.{IsNetwork};
ghost use Rattle.qsr_words.specs.Requests.{AreWorkersIfNamed};
ghost use Rattle.qsr_answers.specs.Commands.{IsStatusOf, ClosesNetwork};

use crate::answers::Answer;
use crate::sharing::workers_for;
use calculus_table::{Calculus, Memory};
use closure_workers::close_parallel;
use compose_fast::Fast;
use network_file::text;
use network_words::Net;
use qsr_inputs::Status;
use qsr_outside::Gate;
use std::alloc::Global;
use std::thread::Threads;

/// The text of the network's closure. It is computed with the calculus' tables, and written with its names. As many
/// workers close the network as are named.
pub fn closed_answer<R: Threads + Sync, G: Gate + Sync>(
    rt: &R,
    alloc: Global,
    mut net: Net,
    calculus: &Calculus,
    workers: Option<u32>,
    gate: &G,
) -> Result<Answer, Memory>
    requires network { IsNetwork calculus.now.algebra net.nodes net.words }
    requires workers { AreWorkersIfNamed workers }
    ensures { IfOk result (λ answer.
        ClosesNetwork calculus.now net (string_bytes answer.text) answer.status) }
{
    let fast = Fast::new(alloc, calculus)?;
    let workers = workers_for(&net, &fast, workers);
    close_parallel(rt, alloc, &mut net, &fast, workers, gate)?;
    let status = verdict(&net);
    let text = text(alloc, &net, calculus)?;
    Ok(Answer { text, status })
}

/// How a run ends that writes this closed network.
fn verdict(net: &Net) -> Status
    ensures { IsStatusOf net.now result }
{
    if net.words().contains(&0) {
        Status::No
    } else {
        Status::Done
    }
}
