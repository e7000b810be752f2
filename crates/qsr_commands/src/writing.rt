//! The writing of answers, each whole.
ghost use Rattle.std.specs.Prelude.{◌≡◌, ◌≤◌};
ghost use Rattle.std.specs.String.{string_bytes};
ghost use Rattle.qsr_commands.specs.Ends.{end_of_stop};
ghost use Rattle.qsr_commands.specs.Spoken.{IsSpoken, IsWriting, Tells};

use qsr_answers::{Answer, refused};
use qsr_inputs::{Status, Stop};
use qsr_outside::{ReadStop, Sink, WriteStop, write_all};
use std::alloc::Global;

/// Writes the answer of a command, or the line that tells a refusal, and returns how the run ends.
pub fn write_answer<W: Sink>(alloc: Global, sink: &mut W, answer: Result<Answer, Stop>) -> Status
    ensures { Tells W.held W.faults answer sink.old sink.new result }
{
    match spoken(alloc, answer) {
        Ok(answer) => write(sink, &answer),
        Err(stop) => end_of_stop(stop),
    }
}

/// The answer of a command, where a refusal is the line that tells it.
fn spoken(alloc: Global, answer: Result<Answer, Stop>) -> Result<Answer, ReadStop>
    ensures { IsSpoken answer result }
{
    match answer {
        Ok(answer) => Ok(answer),
        Err(Stop::Refused { number, place }) => {
            refused(alloc, number, place).map_err(|_| ReadStop::Memory)
        }
        Err(Stop::TooLong) => Err(ReadStop::TooLong),
        Err(Stop::ReadFault) => Err(ReadStop::ReadFault),
        Err(Stop::Memory) => Err(ReadStop::Memory),
    }
}

/// Writes an answer that is made. The status is the answer's, unless the sink fails.
fn write<W: Sink>(sink: &mut W, answer: &Answer) -> Status
    ensures written { IsWriting W.held W.faults (string_bytes answer.now.text) answer.now.status
        sink.old sink.new result }
    ensures faults_never_fall { W.faults sink.old ≤ W.faults sink.new }
{
    match write_all(sink, answer.text.as_bytes()) {
        Ok(()) => answer.status,
        Err(WriteStop::WriteFault) => Status::WriteFault,
    }
}

/// The status of a run that writes nothing.
pub fn end_of_stop(stop: ReadStop) -> Status
    ensures { result ≡ end_of_stop stop }
{
    match stop {
        ReadStop::ReadFault => Status::ReadFault,
        ReadStop::TooLong => Status::TooLong,
        ReadStop::Memory => Status::Memory,
    }
}
