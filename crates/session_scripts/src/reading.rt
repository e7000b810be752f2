//! The lines of a text that is read piece by piece, up to a line `commit`.
//!
//! A line is looked at as soon as its LF is there. The bytes after the last line that was looked at are searched for an
//! LF once, however the text is cut into pieces, so the time is linear in the length of the text.
ghost use Rattle.std.specs.Prelude.{◌≡◌, ℕ, List, [], ◌∷◌, ◌+◌, ◌-◌, ◌<◌, ◌≤◌, ◌^◌, true, false, take, drop, length};
ghost use Rattle.std.specs.Prelude.{IfOk, OnOk, Ok, MatchOption};
ghost use Rattle.qsr_lex.specs.TextLines.{first_line, text_lines};
ghost use Rattle.session_scripts.specs.Commands.{script_line};
ghost use Rattle.session_scripts.specs.CommandsRead.{line_read};
ghost use Rattle.session_scripts.specs.Batches.{with_line, IsBatchFor};
ghost use Rattle.session_scripts.specs.Scripts.{has_lf, IsWholeLine, is_commit_line, batches_from, last_batch};
ghost use Rattle.session_scripts.specs.Readings.{IsRead, IsCommitted};

use crate::batch::Batch;
use crate::commands::{ScriptLine, script_line};
use calculus_table::Memory;
use named_sets::BaseNames;
use std::alloc::Global;

/// What was read of a text.
#[derive(Drop)]
pub(crate) struct Reading {
    /// The batch so far.
    pub(crate) batch: Batch,
    /// The number of the next line in the batch.
    pub(crate) at: u32,
    /// Where the next line begins.
    pub(crate) from: usize,
    /// How many bytes from there on were searched for an LF.
    pub(crate) searched: usize,
}

impl Reading {
    /// Nothing was read yet.
    pub(crate) fn new(alloc: Global) -> Reading
        ensures read { (bases : List (List ℕ)) (n : ℕ) (text : List ℕ) → IsRead bases n text result }
        ensures from { result.from ≡ 0 }
        ensures searched { result.searched ≡ 0 }
    {
        Reading {
            batch: Batch::new(alloc),
            at: 1,
            from: 0,
            searched: 0,
        }
    }
}

/// How many bytes the first line of a text has with its LF, if that is there. The first bytes were searched.
fn line_len(text: &[u8], searched: usize) -> Option<usize>
    requires within { searched ≤ length text.now }
    requires none { has_lf (take searched text.now) ≡ false }
    ensures { MatchOption result (has_lf text.now ≡ false)
        (λ len. (len ≤ length text.now) × (searched < len) × IsWholeLine (take len text.now)) }
{
    for index in searched..text.len() {
        if text[index] == b'\n' {
            return Some(index + 1);
        }
    }
    None
}

/// Whether a line is `commit` alone.
fn is_commit(line: &ScriptLine<'_>) -> bool
    ensures { result ≡ is_commit_line (line_read line.now) }
{
    match line {
        ScriptLine::Commit => true,
        _ => false,
    }
}

/// Reads a line, and returns whether it is `commit` alone. If it isn't it is added to the batch.
fn read_line(
    line: &[u8],
    reading: &mut Reading,
    bases: &BaseNames<'_>,
    nodes: u32,
) -> Result<bool, Memory>
    requires line { first_line line.now ≡ line.now }
    requires few { reading.old.at < 2 ^ 32 - 1 }
    requires within { reading.old.from + length line.now < 2 ^ 32 }
    ensures from { OnOk result (reading.new.from ≡ reading.old.from + length line.now) }
    ensures searched { OnOk result (reading.new.searched ≡ 0) }
    ensures is_commit { IfOk result (λ is_commit. is_commit ≡ is_commit_line (script_line bases.now line.now)) }
    ensures commit { result ≡ Ok true → reading.new.batch ≡ reading.old.batch }
    ensures batch { result ≡ Ok false →
        reading.new.batch ≡ with_line nodes reading.old.at (script_line bases.now line.now) reading.old.batch }
    ensures at { result ≡ Ok false → reading.new.at ≡ reading.old.at + 1 }
    ensures fits { OnOk result (IsBatchFor (2 ^ length bases.now - 1) nodes reading.old.batch →
        IsBatchFor (2 ^ length bases.now - 1) nodes reading.new.batch) }
{
    let said = script_line(line, bases);
    reading.from += line.len();
    reading.searched = 0;
    if is_commit(&said) {
        return Ok(true);
    }
    reading.batch.add(reading.at, &said, nodes)?;
    reading.at += 1;
    Ok(false)
}

/// Reads the lines with an LF that come next, up to a line `commit`, and returns whether one came.
pub(crate) fn read_lines(
    text: &[u8],
    reading: &mut Reading,
    bases: &BaseNames<'_>,
    nodes: u32,
) -> Result<bool, Memory>
    requires few { length text.now < 2 ^ 31 }
    requires read { IsRead bases.now nodes text.now reading.old }
    ensures read { result ≡ Ok false → IsRead bases.now nodes text.now reading.new }
    ensures all { result ≡ Ok false → has_lf (drop reading.new.from text.now) ≡ false }
    ensures searched { result ≡ Ok false → reading.new.from + reading.new.searched ≡ length text.now }
    ensures committed { result ≡ Ok true → IsCommitted bases.now nodes text.now reading.new }
    ensures after_searched { result ≡ Ok true →
        reading.old.from + reading.old.searched < reading.new.from }
{
    loop {
        let (_, rest) = text.split_at(reading.from);
        let Some(len) = line_len(rest, reading.searched) else {
            reading.searched = rest.len();
            return Ok(false);
        };
        let (line, _) = rest.split_at(len);
        if read_line(line, reading, bases, nodes)? {
            return Ok(true);
        }
    }
}

/// Reads the last line of a text, which has no LF, if there is one, and returns whether it is `commit` alone.
pub(crate) fn read_last_line(
    line: &[u8],
    reading: &mut Reading,
    bases: &BaseNames<'_>,
    nodes: u32,
) -> Result<bool, Memory>
    requires line { has_lf line.now ≡ false }
    requires few { reading.old.at < 2 ^ 32 - 1 }
    requires within { reading.old.from + length line.now < 2 ^ 32 }
    ensures some { result ≡ Ok true → 0 < length line.now }
    ensures last { result ≡ Ok false →
        batches_from bases.now nodes reading.old.at reading.old.batch (text_lines line.now)
        ≡ last_batch reading.new.batch }
    ensures committed { result ≡ Ok true →
        batches_from bases.now nodes reading.old.at reading.old.batch (text_lines line.now) ≡ reading.new.batch ∷ [] }
    ensures fits { OnOk result (IsBatchFor (2 ^ length bases.now - 1) nodes reading.old.batch →
        IsBatchFor (2 ^ length bases.now - 1) nodes reading.new.batch) }
{
    if line.is_empty() {
        return Ok(false);
    }
    read_line(line, reading, bases, nodes)
}
