//! The top call. It reads the words, lets the command make its answer whole, and only then writes it: so a fault of an
//! input, or memory that runs out, writes nothing. A script alone is answered as it is read.
ghost use Rattle.std.specs.Prelude.{◌≡◌, ◌⊎◌, ◌+◌, ◌<◌, ◌≤◌, [], None, map};
ghost use Rattle.std.specs.Io.KnownBytes.{IsAtEnd};
ghost use Rattle.std.specs.String.{string_bytes};
ghost use Rattle.qsr_outside.specs.Counts.{Rose, RoseAbove};
ghost use Rattle.qsr_outside.specs.Writing.{AppendsPart};
ghost use Rattle.qsr_words.specs.Asked.{asked_by};
ghost use Rattle.qsr_words.specs.Requests.{asked_of, IsWithinLimits};
ghost use Rattle.qsr_inputs.specs.Told.{WhereTold, SourceWaits, AbsentStays, AfterSource, named_documents};
ghost use Rattle.qsr_answers.specs.Texts.{usage_text};
ghost use Rattle.qsr_answers.specs.Commands.{IsAnswered};
ghost use Rattle.qsr_commands.specs.Ends.{MayEnd, IsLongEnd};
ghost use Rattle.qsr_commands.specs.SinkAfter.{LeavesInSink, LeavesByStatus};
ghost use Rattle.qsr_commands.specs.Runs.{Runs};

use calculus_table::Memory;
use qsr_answers::usage;
use qsr_commands::{
    check_answer, close_answer, demo_answer, intervals_answer, minimal_answer, relate_answer,
    scene_answer, serve_script, solve_answer, trace_answer, write_answer,
};
use qsr_inputs::{Status, Stop};
use qsr_lex::MAX_TEXT;
use qsr_outside::{Gate, Shelf, Sink, Source};
use qsr_words::{Request, read};
use std::alloc::Global;
use std::thread::Threads;

/// Runs the reasoner on its words: reads the documents that they name and the source, as the command asks, and writes
/// the answer to the sink.
pub fn run<R: Threads + Sync, F: Shelf, S: Source, W: Sink, G: Gate + Sync>(
    rt: &R,
    alloc: Global,
    words: &[String],
    shelf: &mut F,
    source: &mut S,
    sink: &mut W,
    gate: &G,
) -> Status
    // What is left in the sink: where the inputs are told that the words ask for, and over every input.
    ensures output { WhereTold (asked_by (map string_bytes words.now))
        (F.documents shelf.old) (S.left source.old) (λ documents bytes.
        LeavesInSink (asked_by (map string_bytes words.now)) documents bytes
        (S.left source.new) (W.held sink.old) (W.held sink.new) result) }
    ensures by_status { LeavesByStatus (asked_by (map string_bytes words.now))
        (W.held sink.old) (W.held sink.new) result }
    ensures usage_part { asked_by (map string_bytes words.now) ≡ None
        → result ≡ Status.WriteFault → AppendsPart (W.held sink.old) (W.held sink.new) usage_text }

    // How a run may end, and when, over every input and sink.
    ensures status { MayEnd (asked_by (map string_bytes words.now)) result }
    ensures read_fault { result ≡ Status.ReadFault
        → Rose (F.faults shelf.old) (F.faults shelf.new)
        ⊎ Rose (S.faults source.old) (S.faults source.new) }
    ensures write_fault { result ≡ Status.WriteFault
        → Rose (W.faults sink.old) (W.faults sink.new) }
    ensures read_faults_are_told { (result ≡ Status.ReadFault)
        ⊎ ((F.faults shelf.new ≡ F.faults shelf.old) × (S.faults source.new ≡ S.faults source.old)) }
    ensures write_faults_are_told { (result ≡ Status.WriteFault)
        ⊎ (W.faults sink.new ≡ W.faults sink.old) }
    ensures too_long { result ≡ Status.TooLong
        → RoseAbove (F.given shelf.old) (F.given shelf.new) MAX_TEXT
        ⊎ RoseAbove (S.given source.old) (S.given source.new) MAX_TEXT }
    ensures above { S.given source.old + MAX_TEXT < S.given source.new
        → IsLongEnd result (asked_by (map string_bytes words.now)) }

    // What stays, and what is read.
    ensures source_waits { SourceWaits (asked_by (map string_bytes words.now))
        (F.documents shelf.old) (source.new ≡ source.old) }
    ensures shelf_stays { named_documents (asked_by (map string_bytes words.now)) ≡ []
        → shelf.new ≡ shelf.old }
    ensures ends { IsAnswered result
        → AfterSource (asked_by (map string_bytes words.now)) (IsAtEnd (S.left source.new)) }
    ensures documents_stay { F.documents shelf.new ≡ F.documents shelf.old }
    ensures absent_openings_stay { AbsentStays (asked_by (map string_bytes words.now))
        (F.documents shelf.old) (F.absent_openings shelf.old) (F.absent_openings shelf.new) }
    ensures shelf_faults { F.faults shelf.old ≤ F.faults shelf.new }
    ensures source_faults { S.faults source.old ≤ S.faults source.new }
    ensures sink_faults { W.faults sink.old ≤ W.faults sink.new }
{
    match read(alloc, words) {
        Ok(request) => run_request(rt, alloc, &request, shelf, source, sink, gate),
        Err(Memory) => Status::Memory,
    }
}

/// Runs a request: a script is answered as it is read, and any other answer is written whole.
fn run_request<R: Threads + Sync, F: Shelf, S: Source, W: Sink, G: Gate + Sync>(
    rt: &R,
    alloc: Global,
    request: &Request,
    shelf: &mut F,
    source: &mut S,
    sink: &mut W,
    gate: &G,
) -> Status
    requires { IsWithinLimits request.now }
    ensures { Runs F.documents F.faults F.given F.absent_openings S.left S.faults S.given W.held W.faults
        (asked_of request.now) shelf.old shelf.new source.old source.new sink.old sink.new result }
{
    match request {
        Request::Close(close) => {
            write_answer(
                alloc,
                sink,
                close_answer(rt, alloc, close, shelf, source, gate),
            )
        }
        Request::Solve(solve) => {
            write_answer(
                alloc,
                sink,
                solve_answer(rt, alloc, solve, shelf, source, gate),
            )
        }
        Request::Intervals(intervals) => {
            write_answer(
                alloc,
                sink,
                intervals_answer(rt, alloc, intervals, shelf, source, gate),
            )
        }
        Request::Minimal(minimal) => {
            write_answer(
                alloc,
                sink,
                minimal_answer(rt, alloc, minimal, shelf, source, gate),
            )
        }
        Request::Check(check) => {
            write_answer(alloc, sink, check_answer(rt, alloc, check, shelf, source))
        }
        Request::Trace(check) => {
            write_answer(alloc, sink, trace_answer(rt, alloc, check, shelf, source))
        }
        Request::Relate(relate) => write_answer(alloc, sink, relate_answer(alloc, relate, shelf)),
        Request::Scene(scene) => write_answer(alloc, sink, scene_answer(rt, alloc, scene, shelf)),
        Request::Serve(serve) => serve_script(rt, alloc, serve, shelf, source, sink, gate),
        Request::Demo(demo) => write_answer(alloc, sink, demo_answer(rt, alloc, demo, gate)),
        Request::Usage => write_answer(alloc, sink, usage(alloc).map_err(|_| Stop::Memory)),
    }
}
