//! Scripts that come piece by piece, as they are written.
//!
//! A batch is answered as soon as its line `commit` was given with its LF. What was given after it is kept for the next
//! batch, less than a piece of it. Each byte is searched for an LF once, and each line is read once, so the time is
//! linear in the length of the script, but for the bytes kept after a `commit`, which the next batch begins with.
use crate::batch::Batch;
use crate::input::Input;
use crate::reading::{Reading, read_last_line, read_lines};
use calculus_table::{Calculus, Memory};
use named_sets::BaseNames;
use qsr_outside::{ReadStop, Source};
use std::alloc::Global;
use std::marker::Model;

/// A reader of a script from a source.
#[derive(Drop)]
pub struct ScriptReader {
    /// What was given of the script and belongs to no batch that was answered.
    input: Input,
    /// Why no more is read.
    stop: Option<ReadStop>,
}

impl Model for ScriptReader {
    ghost use Rattle.std.specs.Prelude.{◌≡◌, ◌<◌, None, length};
    ghost use Rattle.session_scripts.specs.declared.TheConstants.{PIECE};
    ghost use Rattle.session_scripts.specs.Readers.{ReaderState};

    ghost Value = { ReaderState };

    ghost view = { λ r. record {
      limit = r.input.limit;
      cut = r.input.cut;
      kept = r.input.kept;
      ended = r.input.ended;
      stop = r.stop;
    } };

    ghost invariant = { λ r. r.stop ≡ None → length r.input.kept < PIECE };
}

impl ScriptReader {
    ghost use Rattle.std.specs.Prelude.{◌≡◌, ◌≤◌, true, Err, None, IfOk, IfSome};
    ghost use Rattle.calculus_table.specs.Composition.{full_of};
    ghost use Rattle.qsr_lex.specs.declared.TheConstants.{MAX_TEXT};
    ghost use Rattle.session_scripts.specs.Batches.{IsBatchFor};
    ghost use Rattle.session_scripts.specs.Readers.{ReadsNext, new_reader};

    /// A reader of a script that may have so many bytes.
    pub fn new(alloc: Global, limit: u32) -> Result<ScriptReader, Memory>
        requires { limit ≤ MAX_TEXT }
        ensures { IfOk result (λ reader. reader ≡ new_reader limit) }
    {
        Ok(ScriptReader {
            input: Input::new(alloc, limit)?,
            stop: None,
        })
    }

    /// The next batch of the script, over so many nodes, with base relations of `c`. There is none where the input has
    /// ended and no command line is left.
    ///
    /// # Errors
    ///
    /// `ReadFault` where a read failed, after every batch whose `commit` was given, and `TooLong` where more than the
    /// limit was given, after every batch whose `commit` lies within it. Later calls then answer the same stop, and
    /// read no more.
    pub fn next<S: Source>(
        &mut self,
        source: &mut S,
        c: &Calculus,
        nodes: u32,
    ) -> Result<Option<Batch>, ReadStop>
        ensures reads { self.old.stop ≡ None → ReadsNext c.now.names nodes self.old self.new
            (S.left source.old) (S.left source.new) (S.given source.old) (S.given source.new)
            (S.faults source.old) (S.faults source.new) result }
        ensures fits { IfOk result (λ found. IfSome found (λ batch. IsBatchFor (full_of c.now.algebra) nodes batch)) }
        ensures stop_stays { IfSome self.old.stop (λ stop.
            (result ≡ Err stop) × (self.new ≡ self.old) × (source.new ≡ source.old)) }
        ensures source_waits { self.old.ended ≡ true → source.new ≡ source.old }
        ensures no_fault_at_end { self.old.stop ≡ None → self.old.ended ≡ true
            → ¬ (result ≡ Err ReadStop.ReadFault) }
        ensures faults_never_fall { S.faults source.old ≤ S.faults source.new }
        ensures documents_stay { S.documents source.new ≡ S.documents source.old }
        ensures absent_openings_stay { S.absent_openings source.new ≡ S.absent_openings source.old }
    {
        if let Some(stop) = self.stop {
            return Err(stop);
        }
        match next_batch(&mut self.input, source, c, nodes) {
            Ok(found) => Ok(found),
            Err(stop) => {
                self.stop = Some(stop);
                Err(stop)
            }
        }
    }
}

ghost use Rattle.std.specs.Prelude.{◌≡◌, ◌+◌, ◌-◌, ◌<◌, ◌≤◌, ◌^◌, [], ◌∷◌, false, true, Err};
ghost use Rattle.std.specs.Prelude.{None, MatchOption, IfErr, IfOk, IfSome, OnErr, OnOk, length, drop};
ghost use Rattle.calculus_table.specs.Composition.{full_of};
ghost use Rattle.session_scripts.specs.Batches.{IsBatchFor};
ghost use Rattle.session_scripts.specs.declared.TheConstants.{PIECE};
ghost use Rattle.session_scripts.specs.Readers.{ReadsNext, given_to, stop_of};
ghost use Rattle.session_scripts.specs.Readings.{IsRead};
ghost use Rattle.session_scripts.specs.Scripts.{batches_of, has_lf};

/// The next batch of the script, which is read as far as that takes.
fn next_batch<S: Source>(
    input: &mut Input,
    source: &mut S,
    c: &Calculus,
    nodes: u32,
) -> Result<Option<Batch>, ReadStop>
    requires few { length input.old.kept < PIECE }
    ensures reads { ReadsNext c.now.names nodes
        (record input.old { stop = None }) (record input.new { stop = stop_of result })
        (S.left source.old) (S.left source.new) (S.given source.old) (S.given source.new)
        (S.faults source.old) (S.faults source.new) result }
    ensures few { OnOk result (length input.new.kept < PIECE) }
    ensures fits { IfOk result (λ found. IfSome found (λ batch. IsBatchFor (full_of c.now.algebra) nodes batch)) }
    ensures source_waits { input.old.ended ≡ true → source.new ≡ source.old }
    ensures no_fault_at_end { input.old.ended ≡ true → ¬ (result ≡ Err ReadStop.ReadFault) }
    ensures faults_never_fall { S.faults source.old ≤ S.faults source.new }
    ensures documents_stay { S.documents source.new ≡ S.documents source.old }
    ensures absent_openings_stay { S.absent_openings source.new ≡ S.absent_openings source.old }
{
    let bases = BaseNames::new(c.names());
    let mut reading = Reading::new(input.alloc());
    loop {
        let Ok(committed) = read_lines(input.within(), &mut reading, &bases, nodes) else {
            return Err(ReadStop::Memory);
        };
        if committed {
            input.cut_off(reading.from);
            return Ok(Some(reading.batch));
        }
        if input.is_too_long() {
            return Err(ReadStop::TooLong);
        }
        if !input.read_more(source)? {
            return last_batch(input, reading, &bases, nodes);
        }
    }
}

/// The batch at the end of a script, if a command line or a `commit` is left. All lines with an LF were read.
fn last_batch(
    input: &mut Input,
    mut reading: Reading,
    bases: &BaseNames<'_>,
    nodes: u32,
) -> Result<Option<Batch>, ReadStop>
    requires read { IsRead bases.now nodes input.old.kept reading }
    requires all { has_lf (drop reading.from input.old.kept) ≡ false }
    requires within { given_to input.old ≤ input.old.limit }
    ensures cut { OnOk result (input.new ≡ record input.old { cut = given_to input.old; kept = [] }) }
    ensures batches { IfOk result (λ found. MatchOption found
        (batches_of bases.now nodes input.old.kept ≡ [])
        (λ batch. batches_of bases.now nodes input.old.kept ≡ batch ∷ [])) }
    ensures fits { IfOk result (λ found. IfSome found
        (λ batch. IsBatchFor (2 ^ length bases.now - 1) nodes batch)) }
    ensures memory { IfErr result (λ stop. stop ≡ ReadStop.Memory) }
    ensures stays { OnErr result (input.new ≡ input.old) }
{
    let text = input.within();
    let len = text.len();
    let (_, line) = text.split_at(reading.from);
    let Ok(committed) = read_last_line(line, &mut reading, bases, nodes) else {
        return Err(ReadStop::Memory);
    };
    input.cut_off(len);
    if committed || !reading.batch.lines.is_empty() {
        Ok(Some(reading.batch))
    } else {
        Ok(None)
    }
}
