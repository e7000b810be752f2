//! The bytes of a document or of the source, read to their end.
ghost use Rattle.std.specs.Prelude.{◌∷◌, []};
ghost use Rattle.qsr_inputs.specs.Inputs.{BytesWithin, DocumentOf};
ghost use Rattle.qsr_inputs.specs.Readings.{Fetches, Reads};

use crate::stops::{Stop, stop_of_reading};
use qsr_lex::MAX_TEXT;
use qsr_outside::{Shelf, Source, fetch, read_all};
use std::alloc::Global;
use std::marker::Model;

/// Bytes within the limit.
#[derive(Drop)]
pub(crate) struct Text {
    pub(crate) bytes: Vec<u8>,
}

impl Model for Text {
    ghost use Rattle.std.specs.Prelude.{ℕ, List, ◌≤◌, length};
    ghost use Rattle.qsr_lex.specs.declared.TheConstants.{MAX_TEXT};

    ghost Value = { List ℕ };

    ghost view = { λ t. t.bytes.items };

    ghost invariant = { λ t. length t.bytes.items ≤ MAX_TEXT };
}

/// The document of this name.
pub(crate) fn document<F: Shelf>(alloc: Global, shelf: &mut F, name: &str) -> Result<Text, Stop>
    ensures { Fetches F.documents F.faults F.given F.absent_openings (name.now ∷ [])
        (λ documents. DocumentOf documents name.now) shelf.old shelf.new result }
{
    match fetch(alloc, shelf, name, MAX_TEXT) {
        Ok(bytes) => Ok(Text { bytes }),
        Err(stop) => Err(stop_of_reading(stop)),
    }
}

/// The text of the source.
pub(crate) fn source_text<S: Source>(alloc: Global, source: &mut S) -> Result<Text, Stop>
    ensures { Reads S.left S.faults S.given BytesWithin source.old source.new result }
{
    match read_all(alloc, source, MAX_TEXT) {
        Ok(bytes) => Ok(Text { bytes }),
        Err(stop) => Err(stop_of_reading(stop)),
    }
}
