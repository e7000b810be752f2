//! The commands whose answer is made whole before it is written: each reads what its words name and then the source,
//! and makes its answer of both.
ghost use Rattle.std.specs.Prelude.{◌≡◌, IfOk, IfErr};
ghost use Rattle.std.specs.String.{string_bytes};
ghost use Rattle.qsr_words.specs.Asked.{close, solve, intervals, minimal, check, trace, relate, scene};
ghost use Rattle.qsr_words.specs.Requests.{close_of, solve_of, intervals_of, minimal_of, check_of, relate_of};
ghost use Rattle.qsr_words.specs.Requests.{scene_of, demo_of, AreWorkersIfNamed, IsSearch, IsIntervalSearch};
ghost use Rattle.qsr_words.specs.Requests.{IsMinimalSearch, IsCheck, IsDemo};
ghost use Rattle.qsr_answers.specs.Demonstrations.{Demonstrates};
ghost use Rattle.qsr_commands.specs.Answers.{Answers, AnswersAlone};

use calculus_builtin::allen;
use calculus_table::{Memory, lawful};
use qsr_answers::{
    Answer, checked_answer, closed_answer, demonstration, labelled_answer, realised_answer,
    scene_text, solved_answer, text_of_pairs, traced_answer,
};
use qsr_inputs::{
    GuidedCalculus, Status, Stop, calculus, calculus_and_class, class, network, placed_network,
    read_claimed, read_drawn, read_related, read_searched,
};
use qsr_outside::{Gate, Shelf, Source};
use qsr_words::{Check, Close, Demo, Intervals, Minimal, Relate, Scene, Solve};
use std::alloc::Global;
use std::thread::Threads;

/// What `close` writes: the closure of the network of the source; or why nothing.
pub fn close_answer<R: Threads + Sync, F: Shelf, S: Source, G: Gate + Sync>(
    rt: &R,
    alloc: Global,
    request: &Close,
    shelf: &mut F,
    source: &mut S,
    gate: &G,
) -> Result<Answer, Stop>
    requires { AreWorkersIfNamed request.now.workers }
    ensures { Answers F.documents F.faults F.given F.absent_openings S.left S.faults S.given
        (close (close_of request.now)) shelf.old shelf.new source.old source.new result }
{
    let calculus = calculus(alloc, shelf, request.calculus.as_str())?;
    let net = network(alloc, source, &calculus)?;
    match closed_answer(rt, alloc, net, &calculus, request.workers, gate) {
        Ok(answer) => Ok(answer),
        Err(Memory) => Err(Stop::Memory),
    }
}

/// What `solve` writes: the verdict on the network of the source, with polygons; or why nothing.
pub fn solve_answer<R: Threads + Sync, F: Shelf, S: Source, G: Gate + Sync>(
    rt: &R,
    alloc: Global,
    request: &Solve,
    shelf: &mut F,
    source: &mut S,
    gate: &G,
) -> Result<Answer, Stop>
    requires { IsSearch (solve_of request.now) }
    ensures { Answers F.documents F.faults F.given F.absent_openings S.left S.faults S.given
        (solve (solve_of request.now)) shelf.old shelf.new source.old source.new result }
{
    let searched = read_searched(alloc, shelf, request)?;
    let guided = &searched.guided;
    let net = placed_network(rt, alloc, source, &guided.calculus, &searched.polygons)?;
    match solved_answer(rt, alloc, net, guided, request, gate) {
        Ok(answer) => Ok(answer),
        Err(Memory) => Err(Stop::Memory),
    }
}

/// What `intervals` writes: the verdict on the network of the source, over Allen's calculus, and intervals after a yes;
/// or why nothing.
pub fn intervals_answer<R: Threads + Sync, F: Shelf, S: Source, G: Gate + Sync>(
    rt: &R,
    alloc: Global,
    request: &Intervals,
    shelf: &mut F,
    source: &mut S,
    gate: &G,
) -> Result<Answer, Stop>
    requires { IsIntervalSearch (intervals_of request.now) }
    ensures { Answers F.documents F.faults F.given F.absent_openings S.left S.faults S.given
        (intervals (intervals_of request.now)) shelf.old shelf.new source.old source.new result }
{
    let Ok(calculus) = allen(alloc) else {
        return Err(Stop::Memory);
    };
    let class = class(alloc, shelf, request.class.as_str(), &calculus)?;
    let net = network(alloc, source, &calculus)?;
    let guided = GuidedCalculus { calculus, class };
    match realised_answer(rt, alloc, net, &guided, request, gate) {
        Ok(answer) => Ok(answer),
        Err(Memory) => Err(Stop::Memory),
    }
}

/// What `minimal` writes: the numbers of labels of the network of the source, and what they leave of its closure; or why
/// nothing.
pub fn minimal_answer<R: Threads + Sync, F: Shelf, S: Source, G: Gate + Sync>(
    rt: &R,
    alloc: Global,
    request: &Minimal,
    shelf: &mut F,
    source: &mut S,
    gate: &G,
) -> Result<Answer, Stop>
    requires { IsMinimalSearch (minimal_of request.now) }
    ensures { Answers F.documents F.faults F.given F.absent_openings S.left S.faults S.given
        (minimal (minimal_of request.now)) shelf.old shelf.new source.old source.new result }
{
    let calculus = request.calculus.as_str();
    let guided = calculus_and_class(alloc, shelf, calculus, request.class.as_str())?;
    let net = network(alloc, source, &guided.calculus)?;
    match labelled_answer(rt, alloc, net, &guided, request, gate) {
        Ok(answer) => Ok(answer),
        Err(Memory) => Err(Stop::Memory),
    }
}

/// What `check` writes: whether the certificate shows what it claims of the network of the source; or why nothing.
pub fn check_answer<R: Threads + Sync, F: Shelf, S: Source>(
    rt: &R,
    alloc: Global,
    request: &Check,
    shelf: &mut F,
    source: &mut S,
) -> Result<Answer, Stop>
    requires { IsCheck (check_of request.now) }
    ensures { Answers F.documents F.faults F.given F.absent_openings S.left S.faults S.given
        (check (check_of request.now)) shelf.old shelf.new source.old source.new result }
{
    let claimed = read_claimed(alloc, shelf, request)?;
    let net = placed_network(rt, alloc, source, &claimed.calculus, &claimed.polygons)?;
    lawful(&claimed.calculus);
    match checked_answer(alloc, &net, &claimed) {
        Ok(answer) => Ok(answer),
        Err(Memory) => Err(Stop::Memory),
    }
}

/// What `trace` writes: the certificate in its traced form, where it is accepted; or why nothing.
pub fn trace_answer<R: Threads + Sync, F: Shelf, S: Source>(
    rt: &R,
    alloc: Global,
    request: &Check,
    shelf: &mut F,
    source: &mut S,
) -> Result<Answer, Stop>
    requires { IsCheck (check_of request.now) }
    ensures { Answers F.documents F.faults F.given F.absent_openings S.left S.faults S.given
        (trace (check_of request.now)) shelf.old shelf.new source.old source.new result }
{
    let claimed = read_claimed(alloc, shelf, request)?;
    let net = placed_network(rt, alloc, source, &claimed.calculus, &claimed.polygons)?;
    lawful(&claimed.calculus);
    match traced_answer(alloc, &net, claimed) {
        Ok(answer) => Ok(answer),
        Err(Memory) => Err(Stop::Memory),
    }
}

/// What `relate` writes: the line of each pair of polygons that is asked for; or why nothing.
pub fn relate_answer<F: Shelf>(
    alloc: Global,
    request: &Relate,
    shelf: &mut F,
) -> Result<Answer, Stop>
    ensures { AnswersAlone F.documents F.faults F.given F.absent_openings
        (relate (relate_of request.now)) shelf.old shelf.new result }
{
    let related = read_related(alloc, shelf, request)?;
    match text_of_pairs(alloc, &related.polygons.list, &related.pattern) {
        Ok(text) => Ok(Answer {
            text,
            status: Status::Done,
        }),
        Err(Memory) => Err(Stop::Memory),
    }
}

/// What `scene` writes: the network that the polygons draw; or why nothing.
pub fn scene_answer<R: Threads + Sync, F: Shelf>(
    rt: &R,
    alloc: Global,
    request: &Scene,
    shelf: &mut F,
) -> Result<Answer, Stop>
    ensures { AnswersAlone F.documents F.faults F.given F.absent_openings
        (scene (scene_of request.now)) shelf.old shelf.new result }
{
    let polygons = read_drawn(alloc, shelf, request)?;
    match scene_text(rt, alloc, &polygons.list) {
        Ok(text) => Ok(Answer {
            text,
            status: Status::Done,
        }),
        Err(Memory) => Err(Stop::Memory),
    }
}

/// What `demo` writes: the lines of the seed's network; or why nothing.
pub fn demo_answer<R: Threads + Sync, G: Gate + Sync>(
    rt: &R,
    alloc: Global,
    request: &Demo,
    gate: &G,
) -> Result<Answer, Stop>
    requires { IsDemo (demo_of request.now) }
    ensures demonstrates { IfOk result (λ answer.
        Demonstrates (demo_of request.now) (string_bytes answer.text) answer.status) }
    ensures memory { IfErr result (λ stop. stop ≡ Stop.Memory) }
{
    match demonstration(rt, alloc, request, gate) {
        Ok(answer) => Ok(answer),
        Err(Memory) => Err(Stop::Memory),
    }
}
