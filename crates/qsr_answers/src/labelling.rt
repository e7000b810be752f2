//! The command `minimal`: a network is closed, its base relations are labelled, and it is written without the refuted
//! ones.
ghost use Rattle.std.specs.Prelude.{◌≡◌, ◌++◌, List, IfOk};
ghost use Rattle.std.specs.String.{string_bytes};
ghost use Rattle.network_words.specs.Network.{IsNetwork};
ghost use Rattle.network_file.specs.NetworkText.{network_text};
ghost use Rattle.minimal_net.specs.declared.edge_labels.EdgeLabels.{EdgeLabels};
ghost use Rattle.minimal_net.specs.declared.outcome.Outcome.TheVariants.{Open};
ghost use Rattle.minimal_net.specs.NetworkLabels.{left_of, count_of};
ghost use Rattle.qsr_words.specs.Requests.{minimal_of, IsMinimalSearch};
ghost use Rattle.qsr_inputs.specs.Inputs.{CanGuide};
ghost use Rattle.qsr_answers.specs.Commands.{LabelsNetwork, IsStatusOfLabels};
ghost use Rattle.qsr_answers.specs.Texts.{counts_line};

use crate::answers::Answer;
use crate::sharing::{labellers_for, workers_for};
use calculus_table::{Calculus, Memory, lawful};
use closure_workers::close_parallel;
use compose_fast::Fast;
use minimal_net::{Counts, count_labels, label_network, leave};
use network_file::text;
use network_words::Net;
use qsr_inputs::{GuidedCalculus, Status};
use qsr_outside::Gate;
use qsr_words::Minimal;
use std::alloc::Global;
use std::thread::Threads;

/// The answer to a request for the labels of a network's base relations. As many workers as are named close the
/// network, and share its edges.
pub fn labelled_answer<R: Threads + Sync, G: Gate + Sync>(
    rt: &R,
    alloc: Global,
    mut net: Net,
    guided: &GuidedCalculus,
    request: &Minimal,
    gate: &G,
) -> Result<Answer, Memory>
    requires network { IsNetwork guided.now.calculus.algebra net.nodes net.words }
    requires guides { CanGuide guided.now }
    requires search { IsMinimalSearch (minimal_of request.now) }
    ensures { IfOk result (λ answer. LabelsNetwork (minimal_of request.now) guided.now.calculus
        guided.now.class net (string_bytes answer.text) answer.status) }
{
    lawful(&guided.calculus);
    let fast = Fast::new(alloc, &guided.calculus)?;
    let workers = workers_for(&net, &fast, request.workers);
    close_parallel(rt, alloc, &mut net, &fast, workers, gate)?;
    let workers = labellers_for(&net, request.workers);
    let labels = label_network(
        rt,
        alloc,
        &net,
        &fast,
        &guided.class,
        request.budget,
        workers,
    )?;
    leave(&mut net, &labels);
    let counts = count_labels(&labels);
    let status = status(&net, counts);
    let text = labels_text(alloc, &net, &guided.calculus, counts)?;
    Ok(Answer { text, status })
}

/// How a run ends that writes this network after so many labels.
fn status(left: &Net, counts: Counts) -> Status
    ensures { (labels : List EdgeLabels) → left.now.words ≡ left_of labels → counts.undecided ≡ count_of Open labels →
        IsStatusOfLabels labels result }
{
    if left.words().contains(&0) {
        Status::No
    } else if counts.undecided > 0 {
        Status::Budget
    } else {
        Status::Done
    }
}

/// The line of the labels, and the network that they leave.
fn labels_text(
    alloc: Global,
    left: &Net,
    calculus: &Calculus,
    counts: Counts,
) -> Result<String, Memory>
    ensures { IfOk result (λ text. string_bytes text
        ≡ counts_line counts.held counts.refuted counts.undecided ++ network_text calculus.now left.now) }
{
    let Counts {
        held,
        refuted,
        undecided,
    } = counts;
    let Ok(mut whole) = format!(in alloc; "labels {held} {refuted} {undecided}\n") else {
        return Err(Memory);
    };
    let lines = text(alloc, left, calculus)?;
    let Ok(()) = whole.push_str(lines.as_str()) else {
        return Err(Memory);
    };
    Ok(whole)
}
