//! The words of `close`: a calculus, and optionally a number of workers.
ghost use Rattle.std.specs.Prelude.{◌≡◌, IfOk, IfSome, map, option_map};
ghost use Rattle.std.specs.String.{string_bytes};
ghost use Rattle.clap.specs.Words.{app_of};
ghost use Rattle.qsr_words.specs.Asked.{close_app, close_asked, close_by};
ghost use Rattle.qsr_words.specs.Found.{values_of};
ghost use Rattle.qsr_words.specs.Requests.{close_of, AreWorkersIfNamed};

use crate::command::{found, option, value, word};
use crate::values::workers;
use calculus_table::Memory;
use clap::{ArgMatches, Command};
use std::alloc::{AllocError, Global};

/// A request to close the network of the source.
#[derive(Debug, Drop)]
pub struct Close {
    /// The word for the calculus: `rcc8`, `allen`, `point`, or else the name of a table file.
    pub calculus: String,
    /// How many workers close the network, from 1 to 64, where the words name a number.
    pub workers: Option<u32>,
}

/// What the words ask of `close`, if they are its.
pub(crate) fn read(alloc: Global, words: &[String]) -> Result<Option<Close>, Memory>
    ensures asked { IfOk result (λ close.
        option_map close_of close ≡ close_asked (map string_bytes words.now)) }
    ensures limits { IfOk result (λ close. IfSome close (λ c. AreWorkersIfNamed c.workers)) }
{
    let Ok(command) = command(alloc) else {
        return Err(Memory);
    };
    match found(command, words)? {
        Some(found) => request(alloc, &found),
        None => Ok(None),
    }
}

/// The request of the values found, if they are all there and within the limits.
fn request(alloc: Global, found: &ArgMatches<'_>) -> Result<Option<Close>, Memory>
    ensures asked { IfOk result (λ close. option_map close_of close ≡ close_by (values_of found.now)) }
    ensures limits { IfOk result (λ close. IfSome close (λ c. AreWorkersIfNamed c.workers)) }
{
    let Some(calculus) = value(found, "calculus") else {
        return Ok(None);
    };
    let Some(workers) = workers(value(found, "workers")) else {
        return Ok(None);
    };
    let Ok(calculus) = String::from_str(alloc, calculus) else {
        return Err(Memory);
    };
    Ok(Some(Close { calculus, workers }))
}

/// The command that reads the words of `close`.
fn command<'a>(alloc: Global) -> Result<Command<'a>, AllocError>
    ensures { IfOk result (λ command. app_of command ≡ close_app) }
{
    Command::new(alloc, "close")
        .arg(word(alloc, "calculus"))?
        .arg(option(alloc, "workers"))
}
