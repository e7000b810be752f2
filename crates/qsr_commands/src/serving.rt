//! The command `serve`: the batches of the script of the source are answered one after another.
//!
//! The replies to a batch are written as soon as its line `commit` was given, before more of the script is read. So a
//! script may be written by someone who waits for the replies, and what was answered stays where the script later
//! fails. Each batch has at least one byte of the script, which isn't longer than the limit, so that the loop ends.
ghost use Rattle.std.specs.Prelude.{Some};
ghost use Rattle.qsr_words.specs.Asked.{serve};
ghost use Rattle.qsr_words.specs.Requests.{serve_of, AreServed};
ghost use Rattle.qsr_commands.specs.Serving.{Serves, end_of_serving};
ghost use Rattle.qsr_commands.specs.Runs.{Runs};

use crate::writing::{end_of_stop, write_answer};
use calculus_table::{Calculus, Memory};
use compose_fast::Fast;
use qsr_inputs::{Status, calculus};
use qsr_lex::MAX_TEXT;
use qsr_outside::{Gate, Shelf, Sink, Source, WriteStop, write_all};
use qsr_words::Serve;
use session_run::run_batch;
use session_scripts::ScriptReader;
use session_versions::Store;
use std::alloc::Global;
use std::thread::Threads;

/// Answers the script of the source, and returns how the run ends. A table that is refused is told before the source is
/// read.
pub fn serve_script<R: Threads + Sync, F: Shelf, S: Source, W: Sink, G: Gate + Sync>(
    rt: &R,
    alloc: Global,
    request: &Serve,
    shelf: &mut F,
    source: &mut S,
    sink: &mut W,
    gate: &G,
) -> Status
    requires { AreServed (serve_of request.now) }
    ensures { Runs F.documents F.faults F.given F.absent_openings S.left S.faults S.given W.held W.faults
        (Some (serve (serve_of request.now)))
        shelf.old shelf.new source.old source.new sink.old sink.new result }
{
    let calculus = match calculus(alloc, shelf, request.calculus.as_str()) {
        Ok(calculus) => calculus,
        Err(stop) => return write_answer(alloc, sink, Err(stop)),
    };
    match serve_over(rt, alloc, request, &calculus, source, sink, gate) {
        Ok(status) => status,
        Err(Memory) => Status::Memory,
    }
}

/// Answers the script of the source over a calculus, and returns how that ends.
fn serve_over<R: Threads + Sync, S: Source, W: Sink, G: Gate + Sync>(
    rt: &R,
    alloc: Global,
    request: &Serve,
    calculus: &Calculus,
    source: &mut S,
    sink: &mut W,
    gate: &G,
) -> Result<Status, Memory>
    requires { AreServed (serve_of request.now) }
    ensures { Serves S.left S.faults S.given W.held W.faults (serve_of request.now) calculus.now
        source.old source.new sink.old sink.new (end_of_serving result) }
{
    let fast = Fast::new(alloc, calculus)?;
    let mut store = Store::new(alloc, request.nodes, calculus)?;
    let mut reader = ScriptReader::new(alloc, MAX_TEXT as u32)?;
    loop {
        let batch = match reader.next(source, calculus, request.nodes) {
            Ok(Some(batch)) => batch,
            Ok(None) => return Ok(Status::Done),
            Err(stop) => return Ok(end_of_stop(stop)),
        };
        let replies = run_batch(
            rt,
            alloc,
            &mut store,
            &batch,
            calculus,
            &fast,
            request.workers,
            gate,
        )?;
        match write_all(sink, replies.as_bytes()) {
            Ok(()) => {}
            Err(WriteStop::WriteFault) => return Ok(Status::WriteFault),
        }
    }
}
