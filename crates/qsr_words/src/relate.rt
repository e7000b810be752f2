//! The words of `relate`: polygons, and optionally a pattern.
ghost use Rattle.std.specs.Prelude.{◌≡◌, IfOk, map, option_map};
ghost use Rattle.std.specs.String.{string_bytes};
ghost use Rattle.clap.specs.Words.{app_of};
ghost use Rattle.qsr_words.specs.Asked.{relate_app, relate_asked, relate_by};
ghost use Rattle.qsr_words.specs.Found.{values_of};
ghost use Rattle.qsr_words.specs.Requests.{relate_of};

use crate::command::{found, option, value, word};
use crate::values::owned;
use calculus_table::Memory;
use clap::{ArgMatches, Command};
use std::alloc::{AllocError, Global};

/// A request to relate each two polygons of a file.
#[derive(Debug, Drop)]
pub struct Relate {
    /// The name of the file of polygons.
    pub polygons: String,
    /// The pattern of the matrices that are asked for; every matrix is where there is none.
    pub pattern: Option<String>,
}

/// What the words ask of `relate`, if they are its.
pub(crate) fn read(alloc: Global, words: &[String]) -> Result<Option<Relate>, Memory>
    ensures { IfOk result (λ relate.
        option_map relate_of relate ≡ relate_asked (map string_bytes words.now)) }
{
    let Ok(command) = command(alloc) else {
        return Err(Memory);
    };
    match found(command, words)? {
        Some(found) => request(alloc, &found),
        None => Ok(None),
    }
}

/// The request of the values found, if they are all there.
fn request(alloc: Global, found: &ArgMatches<'_>) -> Result<Option<Relate>, Memory>
    ensures { IfOk result (λ relate. option_map relate_of relate ≡ relate_by (values_of found.now)) }
{
    let Some(polygons) = value(found, "polygons") else {
        return Ok(None);
    };
    match owned_request(alloc, polygons, value(found, "pattern")) {
        Ok(relate) => Ok(Some(relate)),
        Err(_) => Err(Memory),
    }
}

/// The request of these values.
fn owned_request(alloc: Global, polygons: &str, pattern: Option<&str>) -> Result<Relate, AllocError>
    ensures { IfOk result (λ relate. relate_of relate ≡ record {
      polygons = polygons.now;
      pattern = option_map (λ text. text.now) pattern.entry;
    }) }
{
    Ok(Relate {
        polygons: String::from_str(alloc, polygons)?,
        pattern: owned(alloc, pattern)?,
    })
}

/// The command that reads the words of `relate`.
fn command<'a>(alloc: Global) -> Result<Command<'a>, AllocError>
    ensures { IfOk result (λ command. app_of command ≡ relate_app) }
{
    Command::new(alloc, "relate")
        .arg(word(alloc, "polygons"))?
        .arg(option(alloc, "pattern"))
}
