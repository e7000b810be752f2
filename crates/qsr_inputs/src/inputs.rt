//! The inputs of the commands: the calculus that a word names, and the network of the source.
ghost use Rattle.std.specs.Prelude.{◌≡◌, ◌≤◌, ◌∷◌, [], length, IfOk, IfErr, Ok};
ghost use Rattle.qsr_lex.specs.declared.TheConstants.{MAX_TEXT};
ghost use Rattle.network_words.specs.Network.{IsNetwork};
ghost use Rattle.qsr_inputs.specs.Stops.{HasCause, IsRefusalOrMemory};
ghost use Rattle.qsr_inputs.specs.Parts.{Then};
ghost use Rattle.qsr_inputs.specs.Inputs.{CalculusOf, DocumentOf, NetworkOf, SourceNetwork, TableOf, builtin_of};
ghost use Rattle.qsr_inputs.specs.Told.{named_by_calculus};
ghost use Rattle.qsr_inputs.specs.Readings.{Fetches, Reads};

use crate::stops::{Stop, file_stop, load_stop};
use crate::texts::{document, source_text};
use calculus_builtin::{allen, point, rcc8};
use calculus_table::{Calculus, Memory};
use network_words::Net;
use qsr_outside::{Shelf, Source};
use std::alloc::Global;

/// The calculus of a word: one that is built in, or that of the table file of this name.
pub fn calculus<F: Shelf>(alloc: Global, shelf: &mut F, word: &str) -> Result<Calculus, Stop>
    ensures { Fetches F.documents F.faults F.given F.absent_openings (named_by_calculus word.now)
        (λ documents. CalculusOf documents word.now) shelf.old shelf.new result }
{
    match builtin(alloc, word) {
        Ok(Some(calculus)) => Ok(calculus),
        Ok(None) => table(alloc, shelf, word),
        Err(Memory) => Err(Stop::Memory),
    }
}

/// The network of the source, over a calculus.
pub fn network<S: Source>(alloc: Global, source: &mut S, calculus: &Calculus) -> Result<Net, Stop>
    ensures source { Reads S.left S.faults S.given
        (λ bytes. SourceNetwork bytes calculus.now) source.old source.new result }
    ensures network { IfOk result (λ net.
        IsNetwork calculus.now.algebra net.nodes net.words) }
{
    let text = source_text(alloc, source)?;
    network_of(alloc, &text.bytes, calculus)
}

/// The calculus that is built in under this word.
fn builtin(alloc: Global, word: &str) -> Result<Option<Calculus>, Memory>
    ensures { IfOk result (λ found. found ≡ builtin_of word.now) }
{
    if word == "rcc8" {
        return Ok(Some(rcc8(alloc)?));
    }
    if word == "allen" {
        return Ok(Some(allen(alloc)?));
    }
    if word == "point" {
        return Ok(Some(point(alloc)?));
    }
    Ok(None)
}

/// The calculus of the table file of this name.
fn table<F: Shelf>(alloc: Global, shelf: &mut F, name: &str) -> Result<Calculus, Stop>
    ensures { Fetches F.documents F.faults F.given F.absent_openings (name.now ∷ [])
        (λ documents. Then (DocumentOf documents name.now) TableOf) shelf.old shelf.new result }
{
    let text = document(alloc, shelf, name)?;
    table_of(alloc, &text.bytes)
}

/// The calculus of a table file.
fn table_of(alloc: Global, bytes: &[u8]) -> Result<Calculus, Stop>
    requires { length bytes.now ≤ MAX_TEXT }
    ensures value { IfOk result (λ c. TableOf bytes.now (Ok c)) }
    ensures cause { IfErr result (HasCause (TableOf bytes.now)) }
    ensures refusal { IfErr result IsRefusalOrMemory }
{
    match calculus_load::read(alloc, bytes) {
        Ok(calculus) => Ok(calculus),
        Err(fault) => Err(load_stop(fault)),
    }
}

/// The network of a network file over a calculus.
fn network_of(alloc: Global, bytes: &[u8], calculus: &Calculus) -> Result<Net, Stop>
    requires { length bytes.now ≤ MAX_TEXT }
    ensures value { IfOk result (λ net. NetworkOf calculus.now bytes.now (Ok net)) }
    ensures network { IfOk result (λ net.
        IsNetwork calculus.now.algebra net.nodes net.words) }
    ensures cause { IfErr result (HasCause (NetworkOf calculus.now bytes.now)) }
    ensures refusal { IfErr result IsRefusalOrMemory }
{
    match network_file::read(alloc, bytes, calculus) {
        Ok(net) => Ok(net),
        Err(fault) => Err(file_stop(fault)),
    }
}
